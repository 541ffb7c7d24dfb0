ghost use Rattle.std.specs.Prelude.{ℕ, ◌≡◌, ◌≢◌, ◌≤◌, List, Option, Some, length};
ghost use Rattle.std.specs.Option.{option_copied};
ghost use Rattle.lload_outside.specs.Causes.{Rose};
ghost use Rattle.lload_outside.specs.Files.{file_of};
ghost use Rattle.lload_outside.specs.Told.{ReadsFile};

use lload_names::{Body, Listed, Word};
use std::alloc::Global;

/// What a read of a file answers.
#[derive(Debug, Drop)]
pub enum FileRead {
    /// All that the file holds.
    Whole(Body),
    /// The file holds more bytes than the limit.
    TooLong,
    /// There is no such file, or it can't be read.
    Failed,
    /// There was no memory for it.
    NoMemory,
}

/// What files hold, by name.
pub trait FileReader {
    /// What the file of a name holds; `None` where the reader doesn't tell it, or there is no such file.
    ghost held: { Self → List ℕ → Option (List ℕ) };

    /// How often a read of a name failed.
    ghost faults: { Self → List ℕ → ℕ };

    /// Reads the whole file of a name, if it has at most `limit` bytes. A missing file is a fault. A read raises no
    /// count but that of its own name.
    fn read(&mut self, name: &Word, limit: u32) -> FileRead
        ensures never_falls { faults self.old name.now ≤ faults self.new name.now }
        ensures others { (n : List ℕ) → n ≢ name.now → faults self.new n ≡ faults self.old n }
        ensures failed { result ≡ FileRead.Failed → Rose (faults self.old name.now) (faults self.new name.now) }
        ensures no_memory { result ≡ FileRead.NoMemory → faults self.new name.now ≡ faults self.old name.now }
        ensures files { (n : List ℕ) → held self.new n ≡ held self.old n }
        ensures told { ReadsFile (held self.old name.now) limit result };
}

/// A file in memory: its name and what it holds.
#[derive(Debug, Drop)]
pub struct NamedFile {
    pub name: Word,
    pub content: Body,
}

/// Files in memory. Of several with one name the first counts.
pub type FileTable = Listed<NamedFile>;

/// What the first file of a name holds; `None` exactly where there is none of this name.
pub fn find_file<'a>(files: &'a FileTable, name: &Word) -> Option<&'a Body>
    ensures { option_copied result ≡ file_of files.now name.now }
{
    files
        .as_slice()
        .iter()
        .find(|file| file.name.as_str() == name.as_str())
        .map(|file| &file.content)
}

/// A copy of a file's bytes, where they are at most `limit`.
pub fn copy_within(alloc: Global, content: &[u8], limit: u32) -> FileRead
    ensures told { ReadsFile (Some content.now) limit result }
    ensures never_fails { result ≢ FileRead.Failed }
    ensures no_memory { result ≡ FileRead.NoMemory → length content.now ≤ limit }
{
    if content.len() > limit as usize {
        return FileRead::TooLong;
    }
    match Body::from_slice(alloc, content) {
        Ok(body) => FileRead::Whole(body),
        Err(_) => FileRead::NoMemory,
    }
}

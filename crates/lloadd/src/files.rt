ghost use Rattle.std.specs.Prelude.{◌≡◌, ◌≢◌, ◌∷◌, ◌++◌, [], None};
ghost use Rattle.lload_outside.specs.Held.{times_failed};
ghost use Rattle.lload_outside.specs.Told.{ReadsFile};

use lload_names::{Body, Word};
use lload_outside::{FileRead, FileReader};
use std::io::Read;
use std::{fs, io};

/// The files of the system, with the names whose read failed. They tell nothing of their content.
#[derive(Drop)]
pub struct DiskFiles<'a> {
    rt: &'a HostRuntime,
    failed: Vec<Word>,
}

impl<'a> DiskFiles<'a> {
    /// No read has failed yet.
    pub fn new(rt: &'a HostRuntime) -> DiskFiles<'a> {
        DiskFiles {
            rt,
            failed: Vec::new(rt.alloc()),
        }
    }
}

impl FileReader for DiskFiles<'_> {
    ghost held = { λ _ _. None };

    ghost faults = { λ files name. times_failed files.failed.items name };

    fn read(&mut self, name: &Word, limit: u32) -> FileRead
        ensures told { ReadsFile None limit result }
        ensures listed { result ≡ FileRead.Failed → self.new.failed.items ≡ self.old.failed.items ++ name.now ∷ [] }
        ensures others { result ≢ FileRead.Failed → self.new.failed.items ≡ self.old.failed.items }
    {
        // Room for the name comes first, so that no failed read goes unlisted.
        let Ok(failing_name) = Word::from_text(self.rt.alloc(), name.as_str()) else {
            return FileRead::NoMemory;
        };
        if self.failed.reserve(1).is_err() {
            return FileRead::NoMemory;
        }
        let answer = read_within(self.rt, name.as_str(), limit);
        if let FileRead::Failed = answer {
            self.failed.push_reserved(failing_name);
        }
        answer
    }
}

/// All that a file holds, where these are at most `limit` bytes.
fn read_within(rt: &HostRuntime, name: &str, limit: u32) -> FileRead
    ensures { ReadsFile None limit result }
{
    let mut bytes = Vec::new(rt.alloc());
    let read = fs::open(rt, name).and_then(|file| file
        .take(u64::from(limit) + 1)
        .read_to_end(&mut bytes));
    match read {
        Ok(_) if bytes.len() > limit as usize => FileRead::TooLong,
        Ok(_) => FileRead::Whole(Body::from_vec(bytes)),
        Err(error) if error.kind() == io::ErrorKind::OutOfMemory => FileRead::NoMemory,
        Err(_) => FileRead::Failed,
    }
}

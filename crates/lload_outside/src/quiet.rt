ghost use Rattle.std.specs.Prelude.{◌≡◌, ◌≢◌, ◌<◌, ◌≤◌, [], length, Some, unwrap_or, IsOkAnd, IsSomeAnd};
ghost use Rattle.lload_outside.specs.Files.{file_of};
ghost use Rattle.lload_outside.specs.Told.{Reads, Writes, ReadsFile, MovesMost, KeepsRest, PutsAll};

use crate::files::{FileRead, FileReader, FileTable, copy_within, find_file};
use crate::sink::{Given, Sink};
use crate::source::{Source, Taken};
use lload_names::{Body, NoMemory, Word};
use std::alloc::Global;
use std::marker::Model;

/// A source in memory that never fails. Contracts see it as the bytes that are left.
#[derive(Debug, Drop)]
pub struct QuietSource {
    content: Body,
    at: usize,
}

impl Model for QuietSource {
    ghost use Rattle.std.specs.Prelude.{ℕ, ◌≤◌, List, length, drop};

    ghost Value = { List ℕ };

    ghost view = { λ s. drop s.at s.content };

    ghost invariant = { λ s. s.at ≤ length s.content };
}

impl QuietSource {
    /// A source with this content. It takes no memory.
    pub fn new(content: Body) -> Result<QuietSource, NoMemory>
        ensures { IsOkAnd result (λ source. source ≡ content) }
    {
        Ok(QuietSource { content, at: 0 })
    }
}

impl Source for QuietSource {
    ghost left = { λ left. Some left };

    ghost faults = { λ _. 0 };

    fn read(&mut self, buf: &mut [u8]) -> Taken
        requires { 0 < length buf.old }
        ensures moved { Reads (Some self.old) (Some self.new) buf.new result }
        ensures most { MovesMost self.old (length buf.old) result }
        ensures rest { KeepsRest buf.old buf.new result }
        ensures never_fails { result ≢ Taken.Failed }
    {
        let left = &self.content.as_slice()[self.at..];
        let n = left.len().min(buf.len());
        if n == 0 {
            return Taken::End;
        }
        buf[..n].copy_from_slice(&left[..n]);
        self.at += n;
        Taken::Got(n)
    }
}

/// A sink in memory that never fails. Contracts see it as the bytes that it took.
#[derive(Debug, Drop)]
pub struct QuietSink {
    bytes: Vec<u8>,
}

impl Model for QuietSink {
    ghost use Rattle.std.specs.Prelude.{ℕ, List};

    ghost Value = { List ℕ };

    ghost view = { λ s. s.bytes.items };
}

impl QuietSink {
    /// A sink that took nothing yet. It takes no memory; `alloc` serves later growth.
    pub fn new(alloc: Global) -> Result<QuietSink, NoMemory>
        ensures { IsOkAnd result (λ sink. sink ≡ []) }
    {
        Ok(QuietSink {
            bytes: Vec::new(alloc),
        })
    }

    /// The bytes that were taken, in order.
    pub fn written(&self) -> &[u8]
        ensures { result.now ≡ self.now }
    {
        self.bytes.as_slice()
    }
}

impl Sink for QuietSink {
    ghost written = { λ written. Some written };

    ghost faults = { λ _. 0 };

    fn write(&mut self, piece: &[u8]) -> Given
        ensures appended { Writes (Some self.old) (Some self.new) piece.now result }
        ensures all { PutsAll piece.now result }
        ensures never_fails { result ≢ Given.Failed }
    {
        match self.bytes.extend_from_slice(piece) {
            Ok(()) => Given::Put(piece.len()),
            Err(_) => Given::NoMemory,
        }
    }
}

/// Files in memory, none of which fails; one that isn't in the table is empty. Contracts see them as their table.
#[derive(Debug, Drop)]
pub struct QuietFiles {
    files: FileTable,
    alloc: Global,
}

impl Model for QuietFiles {
    ghost use Rattle.std.specs.Prelude.{List};
    ghost use Rattle.lload_outside.specs.declared.files.NamedFile.{NamedFile};

    ghost Value = { List NamedFile };

    ghost view = { λ f. f.files };
}

impl QuietFiles {
    /// These files. It takes no memory; `alloc` serves the bodies that reads give.
    pub fn new(alloc: Global, files: FileTable) -> Result<QuietFiles, NoMemory>
        ensures { IsOkAnd result (λ reader. reader ≡ files) }
    {
        Ok(QuietFiles { files, alloc })
    }
}

impl FileReader for QuietFiles {
    ghost held = { λ files name. Some (unwrap_or (file_of files name) []) };

    ghost faults = { λ _ _. 0 };

    fn read(&mut self, name: &Word, limit: u32) -> FileRead
        ensures files { self.new ≡ self.old }
        ensures told { ReadsFile (Some (unwrap_or (file_of self.old name.now) [])) limit result }
        ensures never_fails { result ≢ FileRead.Failed }
        ensures no_memory { result ≡ FileRead.NoMemory → IsSomeAnd (file_of self.old name.now) (λ content. length content ≤ limit) }
    {
        match find_file(&self.files, name) {
            Some(content) => copy_within(self.alloc, content.as_slice(), limit),
            None => FileRead::Whole(Body::new(self.alloc)),
        }
    }
}

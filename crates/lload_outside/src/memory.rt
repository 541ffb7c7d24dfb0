ghost use Rattle.std.specs.Prelude.{◌≡◌, ◌≢◌, ◌<◌, ◌⊎◌, ◌↔◌, ◌++◌, ◌∷◌, [], length, Some, IsTrue, IsOkAnd};
ghost use Rattle.lload_outside.specs.Calls.{fails_next, after_call};
ghost use Rattle.lload_outside.specs.Files.{file_of};
ghost use Rattle.lload_outside.specs.Held.{times_failed, read_fails};
ghost use Rattle.lload_outside.specs.Told.{Reads, Writes, ReadsFile, MovesMost, KeepsRest, PutsAll};

use crate::calls::Calls;
use crate::files::{FileRead, FileReader, FileTable, copy_within, find_file};
use crate::quiet::{QuietSink, QuietSource};
use crate::sink::{Given, Sink};
use crate::source::{Source, Taken};
use lload_names::{Body, NoMemory, Word};
use std::alloc::Global;
use std::marker::Model;

/// A source in memory whose calls fail by a plan. Contracts see what is left of it, and the plan.
#[derive(Debug, Drop)]
pub struct MemSource {
    source: QuietSource,
    calls: Calls,
}

impl Model for MemSource {
    ghost use Rattle.lload_outside.specs.Held.{SourceHeld};

    ghost Value = { SourceHeld };

    ghost view = { λ s. record { left = s.source; calls = s.calls } };
}

impl MemSource {
    /// A source with this content. Byte k of `failing` isn't 0 where call k fails, counted from 0; later calls don't
    /// fail. It takes no memory.
    pub fn new(content: Body, failing: Body) -> Result<MemSource, NoMemory>
        ensures { IsOkAnd result (λ source. source ≡ record { left = content; calls = record { to_come = failing; failed = 0 } }) }
    {
        Ok(MemSource {
            source: QuietSource::new(content)?,
            calls: Calls::new(failing),
        })
    }
}

impl Source for MemSource {
    ghost left = { λ s. Some s.left };

    ghost faults = { λ s. s.calls.failed };

    fn read(&mut self, buf: &mut [u8]) -> Taken
        requires { 0 < length buf.old }
        ensures moved { Reads (Some self.old.left) (Some self.new.left) buf.new result }
        ensures most { MovesMost self.old.left (length buf.old) result }
        ensures rest { KeepsRest buf.old buf.new result }
        ensures planned { (result ≡ Taken.Failed) ↔ IsTrue (fails_next self.old.calls.to_come) }
        ensures passed { self.new.calls ≡ after_call self.old.calls }
    {
        let fails = self.calls.fails();
        self.calls.pass();
        if fails {
            return Taken::Failed;
        }
        self.source.read(buf)
    }
}

/// A sink in memory whose calls fail by a plan. Contracts see what it took, and the plan.
#[derive(Debug, Drop)]
pub struct MemSink {
    sink: QuietSink,
    calls: Calls,
}

impl Model for MemSink {
    ghost use Rattle.lload_outside.specs.Held.{SinkHeld};

    ghost Value = { SinkHeld };

    ghost view = { λ s. record { written = s.sink; calls = s.calls } };
}

impl MemSink {
    /// A sink that took nothing yet. Byte k of `failing` isn't 0 where call k fails, counted from 0; later calls don't
    /// fail, and a call that answers `NoMemory` isn't counted. It takes no memory; `alloc` serves later growth.
    pub fn new(alloc: Global, failing: Body) -> Result<MemSink, NoMemory>
        ensures { IsOkAnd result (λ sink. sink ≡ record { written = []; calls = record { to_come = failing; failed = 0 } }) }
    {
        Ok(MemSink {
            sink: QuietSink::new(alloc)?,
            calls: Calls::new(failing),
        })
    }

    /// The bytes that were taken, in order.
    pub fn written(&self) -> &[u8]
        ensures { result.now ≡ self.now.written }
    {
        self.sink.written()
    }
}

impl Sink for MemSink {
    ghost written = { λ s. Some s.written };

    ghost faults = { λ s. s.calls.failed };

    fn write(&mut self, piece: &[u8]) -> Given
        ensures appended { Writes (Some self.old.written) (Some self.new.written) piece.now result }
        ensures all { PutsAll piece.now result }
        ensures planned { (result ≡ Given.Failed) ↔ IsTrue (fails_next self.old.calls.to_come) }
        ensures passed { result ≢ Given.NoMemory → self.new.calls ≡ after_call self.old.calls }
        ensures no_memory { result ≡ Given.NoMemory → self.new ≡ self.old }
    {
        if self.calls.fails() {
            self.calls.pass();
            return Given::Failed;
        }
        let given = self.sink.write(piece);
        if given != Given::NoMemory {
            self.calls.pass();
        }
        given
    }
}

/// Files in memory whose reads fail by a plan, and where there is no file of the name. Contracts see the table, the
/// names whose read failed, and the plan.
#[derive(Debug, Drop)]
pub struct MemFiles {
    files: FileTable,
    failed: Vec<Word>,
    calls: Calls,
    alloc: Global,
}

impl Model for MemFiles {
    ghost use Rattle.lload_outside.specs.Held.{FilesHeld};

    ghost Value = { FilesHeld };

    ghost view = { λ f. record { files = f.files; failed = f.failed.items; calls = f.calls } };
}

impl MemFiles {
    /// These files. Byte k of `failing` isn't 0 where read k fails, counted from 0; later reads fail only where there
    /// is no file of the name, and a read that answers `NoMemory` isn't counted. It takes no memory; `alloc` serves
    /// the list of failed names and the bodies that reads give.
    pub fn new(alloc: Global, files: FileTable, failing: Body) -> Result<MemFiles, NoMemory>
        ensures { IsOkAnd result (λ reader. reader ≡ record { files = files; failed = []; calls = record { to_come = failing; failed = 0 } }) }
    {
        Ok(MemFiles {
            files,
            failed: Vec::new(alloc),
            calls: Calls::new(failing),
            alloc,
        })
    }
}

impl FileReader for MemFiles {
    ghost held = { λ f name. file_of f.files name };

    ghost faults = { λ f name. times_failed f.failed name };

    fn read(&mut self, name: &Word, limit: u32) -> FileRead
        ensures files { self.new.files ≡ self.old.files }
        ensures told { ReadsFile (file_of self.old.files name.now) limit result }
        ensures fails { IsTrue (read_fails self.old name.now) → (result ≡ FileRead.Failed) ⊎ (result ≡ FileRead.NoMemory) }
        ensures failed_only { result ≡ FileRead.Failed → IsTrue (read_fails self.old name.now) }
        ensures listed { result ≡ FileRead.Failed → self.new.failed ≡ self.old.failed ++ name.now ∷ [] }
        ensures others { result ≢ FileRead.Failed → self.new.failed ≡ self.old.failed }
        ensures passed { result ≢ FileRead.NoMemory → self.new.calls ≡ after_call self.old.calls }
        ensures no_memory { result ≡ FileRead.NoMemory → self.new ≡ self.old }
    {
        // Room for the name comes first, so that no failed read goes unlisted.
        let Ok(failing_name) = Word::from_text(self.alloc, name.as_str()) else {
            return FileRead::NoMemory;
        };
        if self.failed.reserve(1).is_err() {
            return FileRead::NoMemory;
        }
        let answer = if self.calls.fails() {
            FileRead::Failed
        } else {
            match find_file(&self.files, name) {
                Some(content) => copy_within(self.alloc, content.as_slice(), limit),
                None => FileRead::Failed,
            }
        };
        match answer {
            FileRead::NoMemory => {}
            FileRead::Failed => {
                self.calls.pass();
                self.failed.push_reserved(failing_name);
            }
            FileRead::Whole(_) | FileRead::TooLong => self.calls.pass(),
        }
        answer
    }
}

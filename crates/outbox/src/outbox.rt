ghost use Rattle.std.specs.Prelude.{◌≡◌, ◌≤◌, [], OnOk};

use crate::roomy::Roomy;
use lload_names::{Entry, NoMemory, Posted};
use std::alloc::Global;

/// What turns of a part made: entries of its list, and letters with their receivers, each in order.
#[derive(Debug, Drop)]
pub struct Outbox {
    pub entries: Roomy<Entry>,
    pub letters: Roomy<Posted>,
}

impl Outbox {
    /// Nothing, and no room. It takes no memory; `alloc` serves later growth.
    pub fn new(alloc: Global) -> Outbox
        ensures entries { result.entries.items ≡ [] }
        ensures letters { result.letters.items ≡ [] }
    {
        Outbox {
            entries: Roomy::new(alloc),
            letters: Roomy::new(alloc),
        }
    }

    /// Makes room for so many more entries and letters. For want of memory what is there stays as it was.
    pub fn reserve(&mut self, entries: usize, letters: usize) -> Result<(), NoMemory>
        ensures entries { self.new.entries.items ≡ self.old.entries.items }
        ensures letters { self.new.letters.items ≡ self.old.letters.items }
        ensures entry_room { OnOk result (entries ≤ self.new.entries.spare) }
        ensures letter_room { OnOk result (letters ≤ self.new.letters.spare) }
        ensures entry_room_kept { self.old.entries.spare ≤ self.new.entries.spare }
        ensures letter_room_kept { self.old.letters.spare ≤ self.new.letters.spare }
    {
        self.entries.reserve(entries)?;
        self.letters.reserve(letters)?;
        Ok(())
    }

    /// Drops all entries and letters, and keeps their room.
    pub fn clear(&mut self)
        ensures entries { self.new.entries.items ≡ [] }
        ensures letters { self.new.letters.items ≡ [] }
        ensures entry_room { self.old.entries.spare ≤ self.new.entries.spare }
        ensures letter_room { self.old.letters.spare ≤ self.new.letters.spare }
    {
        self.entries.clear();
        self.letters.clear();
    }
}

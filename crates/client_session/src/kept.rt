ghost use Rattle.std.specs.Prelude.{◌≡◌, ◌≤◌, ◌<◌, ◌+◌, [], OnOk, OnErr, IfSome, IsSome};

use lload_names::NoMemory;
use outbox::Outbox;
use std::alloc::Global;
use std::marker::Model;
use std::mem;

/// The room that is kept for the end of a part, which takes no memory. Contracts see for how many letters it is.
#[derive(Drop)]
pub(crate) struct Kept {
    room: Outbox,
    letters: usize,
    alloc: Global,
}

impl Model for Kept {
    ghost use Rattle.std.specs.Prelude.{ℕ};

    ghost Value = { ℕ };

    ghost use Rattle.client_session.specs.Kept.{IsRoom};

    ghost view = { λ k. k.letters };

    ghost invariant = { λ k. IsRoom k.letters k.room.entries k.room.letters };
}

impl Kept {
    /// Room for nothing. It takes no memory; `alloc` serves later growth.
    pub(crate) fn new(alloc: Global) -> Kept
        ensures { result ≡ 0 }
    {
        Kept {
            room: Outbox::new(alloc),
            letters: 0,
            alloc,
        }
    }

    /// Makes room for an end that gives so many letters, and so many resumes beside them. For want of memory nothing
    /// changes.
    pub(crate) fn reserve(&mut self, letters: usize, resumes: usize) -> Result<(), NoMemory>
        ensures ok { OnOk result (letters + resumes ≤ self.new) }
        ensures err { OnErr result (self.new ≡ self.old) }
        ensures kept { self.old ≤ self.new }
    {
        let Some(all) = letters.checked_add(resumes) else {
            return Err(NoMemory);
        };
        if all > self.letters {
            self.room.reserve(1, all)?;
            self.letters = all;
        }
        Ok(())
    }

    /// The room, where it is enough for an entry and so many letters and resumes; then none is kept any more. It takes no
    /// memory.
    pub(crate) fn take(&mut self, letters: usize, resumes: usize) -> Option<Outbox>
        ensures some { 0 < letters → letters + resumes ≤ self.old → IsSome result }
        ensures entries { IfSome result (λ room. room.entries.items ≡ []) }
        ensures letters { IfSome result (λ room. room.letters.items ≡ []) }
        ensures entry_room { IfSome result (λ room. 1 ≤ room.entries.spare) }
        ensures letter_room { IfSome result (λ room. letters + resumes ≤ room.letters.spare) }
    {
        if self.letters == 0 || self.letters < letters || self.letters - letters < resumes {
            return None;
        }
        self.letters = 0;
        Some(mem::replace(&mut self.room, Outbox::new(self.alloc)))
    }
}

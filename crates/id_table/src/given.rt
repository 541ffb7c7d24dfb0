ghost use Rattle.std.specs.Prelude.{◌≡◌, ◌≤◌, ◌<◌, ◌+◌, [], ◌∷◌, false, OnOk};
ghost use Rattle.lload_spec.specs.Identifiers.{no_ids, id_for, with_sent_id, with_own_id, with_freed};
ghost use Rattle.id_table.specs.Given.{AreIds, WasGiven, has_id};

use lload_names::NoMemory;
use std::alloc::Global;
use std::collections::VecDeque;
use std::marker::Model;

/// The identifiers of a connection: the next one, and the free ones in the order in which they were freed.
#[derive(Drop)]
pub(crate) struct GivenIds {
    next: u32,
    free: VecDeque<u32>,
}

impl Model for GivenIds {
    ghost use Rattle.std.specs.Prelude.{◌-◌};
    ghost use Rattle.id_table.specs.Given.{Given, AreIds};

    ghost Value = { Given };

    ghost view = { λ g. record { ids = record { next = g.next; free = g.free.items }; spare = g.free.cap - g.free.len } };

    ghost invariant = { λ g. AreIds (record { next = g.next; free = g.free.items }) };
}

impl GivenIds {
    /// None was given. It takes no memory.
    pub(crate) fn new(alloc: Global) -> GivenIds
        ensures { result.ids ≡ no_ids }
    {
        GivenIds {
            next: 1,
            free: VecDeque::new(alloc),
        }
    }

    /// Makes room for so many identifiers that are freed. For want of memory nothing changes.
    pub(crate) fn reserve(&mut self, more: usize) -> Result<(), NoMemory>
        ensures ids { self.new.ids ≡ self.old.ids }
        ensures spare { self.old.spare ≤ self.new.spare }
        ensures ok { OnOk result (more ≤ self.new.spare) }
    {
        self.free.reserve(more)?;
        Ok(())
    }

    /// The identifier that an operation gets: the one that was freed first, else the next one.
    pub(crate) fn first(&self) -> u32
        ensures { result ≡ id_for self.now.ids }
    {
        match self.free.front() {
            Some(id) => *id,
            None => self.next,
        }
    }

    /// The next identifier.
    pub(crate) fn next(&self) -> u32
        ensures { result ≡ self.now.ids.next }
    {
        self.next
    }

    /// Uses up the identifier that an operation gets.
    pub(crate) fn use_first(&mut self)
        requires { self.old.ids.next ≤ 4294967294 }
        ensures ids { self.new.ids ≡ with_sent_id (id_for self.old.ids) self.old.ids }
        ensures are_ids { AreIds self.new.ids }
        ensures spare { self.old.spare ≤ self.new.spare }
    {
        if self.free.pop_front().is_none() {
            self.next += 1;
        }
    }

    /// Uses up the next identifier.
    pub(crate) fn use_next(&mut self)
        requires { self.old.ids.next ≤ 4294967294 }
        ensures ids { self.new.ids ≡ with_own_id self.old.ids.next self.old.ids }
        ensures are_ids { AreIds self.new.ids }
        ensures spare { self.new.spare ≡ self.old.spare }
    {
        self.next += 1;
    }

    /// Frees an identifier.
    pub(crate) fn free(&mut self, id: u32)
        requires room { 0 < self.old.spare }
        requires given { WasGiven self.old.ids.next id }
        requires taken { has_id id self.old.ids.free ≡ false }
        ensures ids { self.new.ids ≡ with_freed (id ∷ []) self.old.ids }
        ensures are_ids { AreIds self.new.ids }
        ensures spare { self.new.spare + 1 ≡ self.old.spare }
    {
        self.free.push_back_reserved(id);
    }
}

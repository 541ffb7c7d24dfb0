ghost use Rattle.std.specs.Prelude.{◌≡◌, ◌≤◌, ℕ, [], None, Some, length, slice_get, OnOk, OnErr, IfNone, IfSome};
ghost use Rattle.std.specs.BTreeMap.{insert_entry, is_at};
ghost use Rattle.std.specs.Map.{lookup, remove_entry};
ghost use Rattle.std.specs.Option.{option_copied};
ghost use Rattle.std.specs.Ordering.{nat_cmp};
ghost use Rattle.id_table.specs.Places.{first_key, changed_entry};
ghost use Rattle.id_table.specs.Rows.{answered, kept_back};

use crate::row::{Kept, Row};
use lload_names::NoMemory;
use slab::Slab;
use std::alloc::Global;
use std::collections::BTreeMap;
use std::marker::Model;

/// Rows in a slab, where they stay as long as they live, with the place of each by rising identifier.
#[derive(Drop)]
pub(crate) struct FiledRows {
    rows: Slab<Row>,
    places: BTreeMap<u32, usize>,
}

impl Model for FiledRows {
    ghost use Rattle.std.specs.Prelude.{ℕ, List};
    ghost use Rattle.id_table.specs.declared.row.Row.{Row};

    ghost Value = { List (ℕ × Row) };

    ghost use Rattle.id_table.specs.Places.{entries_at, ArePlaces};

    ghost view = { λ f. entries_at f.rows f.places.entries };

    ghost invariant = { λ f. ArePlaces f.rows f.places.entries };
}

/// The lowest identifier that has a place.
fn first_of(places: &BTreeMap<u32, usize>) -> Option<u32>
    ensures none { IfNone result (places.now.entries ≡ []) }
    ensures first { IfSome result (λ id. (place : ℕ) × (slice_get places.now.entries 0 ≡ Some (id, place))) }
{
    match places.first_key_value() {
        Some((id, _)) => Some(*id),
        None => None,
    }
}

impl FiledRows {
    /// No row. It takes no memory.
    pub(crate) fn new(alloc: Global) -> FiledRows
        ensures { result ≡ [] }
    {
        FiledRows {
            rows: Slab::new(alloc),
            places: BTreeMap::new(alloc),
        }
    }

    /// How many rows there are.
    pub(crate) fn len(&self) -> usize
        ensures len { result ≡ length self.now }
        ensures small { result ≤ 9223372036854775807 }
    {
        self.places.len()
    }

    /// The lowest identifier.
    pub(crate) fn first(&self) -> Option<u32>
        ensures { result ≡ first_key self.now }
    {
        first_of(&self.places)
    }

    /// The row of an identifier.
    pub(crate) fn get(&self, id: u32) -> Option<&Row>
        ensures { option_copied result ≡ lookup (is_at (nat_cmp id)) self.now }
    {
        self.rows.get(*self.places.get(&id)?)
    }

    /// Files a row under an identifier that has none. For want of memory nothing changes.
    pub(crate) fn insert(&mut self, id: u32, row: Row) -> Result<(), NoMemory>
        requires { lookup (is_at (nat_cmp id)) self.old ≡ None }
        ensures ok { OnOk result (self.new ≡ insert_entry nat_cmp self.old id row) }
        ensures err { OnErr result (self.new ≡ self.old) }
    {
        self.rows.reserve(1)?;
        self.places.insert(id, self.rows.vacant_key())?;
        self.rows.insert_reserved(row);
        Ok(())
    }

    /// Takes the row of an identifier out.
    pub(crate) fn remove(&mut self, id: u32) -> Option<Row>
        ensures row { result ≡ lookup (is_at (nat_cmp id)) self.old }
        ensures rest { self.new ≡ remove_entry (is_at (nat_cmp id)) self.old }
    {
        let place = self.places.remove(&id)?;
        self.rows.try_remove(place)
    }

    /// Notes that the operation of an identifier was answered at a moment.
    pub(crate) fn touch(&mut self, id: u32, now: u64)
        ensures { self.new ≡ changed_entry (answered now) id self.old }
    {
        let Some(place) = self.places.get(&id) else {
            return;
        };
        if let Some(row) = self.rows.get_mut(*place) {
            row.last = now;
        }
    }

    /// Notes that the operation of an identifier was answered at a moment, and keeps the answer back.
    pub(crate) fn keep(&mut self, id: u32, now: u64, kept: Kept)
        ensures { self.new ≡ changed_entry (kept_back now kept) id self.old }
    {
        let Some(place) = self.places.get(&id) else {
            return;
        };
        if let Some(row) = self.rows.get_mut(*place) {
            row.last = now;
            row.kept = Some(kept);
        }
    }
}

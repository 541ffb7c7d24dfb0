ghost use Rattle.std.specs.Prelude.{◌≡◌, OnOk, OnErr, ◌≤◌, ◌<◌, ℕ, ◌-◌, ◌==◌, ◌&&◌, true, false, List, Option, None};
ghost use Rattle.std.specs.Option.{ForSome};
ghost use Rattle.std.specs.BTreeSet.{contains};
ghost use Rattle.lload_spec.specs.Settings.{Settings};
ghost use Rattle.lload_spec.specs.Choice.{first_at};
ghost use Rattle.lload_spec.specs.Picks.{rising, in_turn};
ghost use Rattle.ready_set.specs.Keys.{key_cmp, most_conn};

use lload_names::NoMemory;
use std::alloc::Global;
use std::collections::BTreeSet;

/// A connection and the index of its place, counted from 0.
#[derive(Clone, Copy, Drop)]
struct Slot {
    place: u32,
    conn: u32,
}

/// Connections that are ready to be chosen, each at the index of its place.
#[derive(Drop)]
pub struct Ready {
    keys: BTreeSet<(u32, u32)>,
}

impl Ready {
    ghost use Rattle.ready_set.specs.Readies.{has, Indexes};

    /// No connection is ready. It takes no memory; `alloc` serves later growth.
    pub fn new(alloc: Global) -> Ready
        ensures { (i n : ℕ) → has result i n ≡ false }
    {
        Ready {
            keys: BTreeSet::new(alloc),
        }
    }

    /// A connection is ready at a place. For want of memory nothing changes.
    pub fn put(&mut self, place: u32, conn: u32) -> Result<(), NoMemory>
        ensures here { OnOk result (has self.new place conn ≡ true) }
        ensures others { OnOk result ((i n : ℕ) → n ≤ most_conn → (i == place && n == conn) ≡ false → has self.new i n ≡ has self.old i n) }
        ensures err { OnErr result ((i n : ℕ) → has self.new i n ≡ has self.old i n) }
    {
        self.keys.insert((place, u32::MAX - conn))?;
        Ok(())
    }

    /// A connection isn't ready at a place any more. It takes no memory.
    pub fn take(&mut self, place: u32, conn: u32)
        ensures here { has self.new place conn ≡ false }
        ensures others { (i n : ℕ) → n ≤ most_conn → (i == place && n == conn) ≡ false → has self.new i n ≡ has self.old i n }
    {
        self.keys.remove(&(place, u32::MAX - conn));
    }

    /// The first place from one on and before another that has a connection, with the greatest one that it has.
    fn first_slot(&self, from: u32, to: u32) -> Option<Slot>
        ensures none { result ≡ None → (i x : ℕ) → from ≤ i → i < to → contains key_cmp self.now.keys (i, x) ≡ false }
        ensures has { ForSome result (λ slot. contains key_cmp self.now.keys (slot.place, most_conn - slot.conn) ≡ true) }
        ensures small { ForSome result (λ slot. slot.conn ≤ most_conn) }
        ensures from { ForSome result (λ slot. from ≤ slot.place) }
        ensures to { ForSome result (λ slot. slot.place < to) }
        ensures first { ForSome result (λ slot. (j x : ℕ) → from ≤ j → contains key_cmp self.now.keys (j, x) ≡ true → slot.place ≤ j) }
        ensures greatest { ForSome result (λ slot. (x : ℕ) → contains key_cmp self.now.keys (slot.place, x) ≡ true → most_conn - slot.conn ≤ x) }
    {
        let key = self.keys.range((from, 0)..).next()?;
        if key.0 < to {
            Some(Slot {
                place: key.0,
                conn: u32::MAX - key.1,
            })
        } else {
            None
        }
    }

    /// The connection that stands for the first place that has one, from one index on and before another.
    fn next(&self, from: u32, to: u32) -> Option<u32>
        ensures { (s : Settings) (among : List ℕ) → Indexes s among from to self.now → result ≡ first_at s among (rising from (to - from)) }
    {
        let slot = self.first_slot(from, to)?;
        Some(slot.conn)
    }

    /// The connection that stands for the first place that has one, of the places from one index on and before another in
    /// turn: from the successor of the one that was chosen last, or from the first. Where a place has several, the one with
    /// the greatest number stands for it. It takes no memory.
    pub fn next_in_turn(&self, last: Option<u32>, from: u32, to: u32) -> Option<u32>
        ensures { (s : Settings) (among : List ℕ) → from ≤ to → ForSome last (λ place. (from ≤ place) × (place < to)) → Indexes s among from to self.now → result ≡ first_at s among (in_turn (λ i. i) last (rising from (to - from))) }
    {
        let Some(place) = last else {
            return self.next(from, to);
        };
        let behind = place.saturating_add(1);
        match self.next(behind, to) {
            Some(conn) => Some(conn),
            None => self.next(from, behind),
        }
    }
}

ghost use Rattle.std.specs.Prelude.{◌≡◌, ◌≤◌, ◌<◌, ◌^◌, ◌+◌, ◌*◌, false, true, map, filter, length, IfOk, OnOk, OnErr, Some, None, MatchOption, [], ◌∷◌};
ghost use Rattle.std.specs.List.{AllByRecursion};
ghost use Rattle.lload_spec.specs.Settings.{Settings};
ghost use Rattle.ldap_spec.specs.Bodies.{abandon};
ghost use Rattle.id_table.specs.Rows.{row_of};
ghost use Rattle.upstream_conn.specs.Ticks.{abandon_of};

use crate::part::UpstreamPart;
use ldap_messages::abandon_rest;
use lload_names::{Body, EndWhy, NoMemory, Refusal, What};
use outbox::Outbox;
use std::alloc::Global;
use std::collections::VecDeque;

/// The Abandon of a due operation, with the operation's identifier.
#[derive(Drop)]
pub(crate) struct Abandon {
    pub(crate) id: u32,
    pub(crate) rest: Body,
}

/// The Abandons of these identifiers, in order.
fn abandons_of(alloc: Global, mut ids: VecDeque<u32>) -> Result<VecDeque<Abandon>, NoMemory>
    requires small { AllByRecursion (λ id. id < 2 ^ 31) ids.items }
    ensures { IfOk result (λ list. list.items ≡ map abandon_of ids.items) }
{
    let mut list = VecDeque::new(alloc);
    while let Some(id) = ids.pop_front() {
        let rest = abandon_rest(alloc, id)?;
        list.push_back(Abandon { id, rest })?;
    }
    Ok(list)
}

/// Takes out the first of them.
fn next_of(list: &mut VecDeque<Abandon>) -> Option<Abandon>
    ensures { MatchOption result (list.old.items ≡ []) (λ a. list.old.items ≡ a ∷ list.new.items) }
{
    list.pop_front()
}

impl UpstreamPart {
    ghost use Rattle.std.specs.Prelude.{ℕ, Option};
    ghost use Rattle.id_table.specs.declared.row.Row.{Row};
    ghost use Rattle.id_table.specs.Table.{ended_at, used_up};
    ghost use Rattle.part_spec.specs.RegularTurn.{expires, ticks, is_own_due};
    ghost use Rattle.conn_core.specs.Did.{Did};
    ghost use Rattle.conn_core.specs.Kept.{up_row};
    ghost use Rattle.upstream_conn.specs.Part.{Knows, state};
    ghost use Rattle.upstream_conn.specs.Ticks.{rest_act, due_ids};

    /// Whether the own Bind is due.
    fn is_own_due(&self, at: u64) -> bool
        ensures { (s : Settings) → Knows s self.now → result ≡ is_own_due s (state self.now) at }
    {
        match self.own {
            None => false,
            Some(own) => self.core.is_past(own.at, at),
        }
    }

    /// The own Bind is due: the connection ends.
    fn time_out(&mut self, at: u64, out: &mut Outbox) -> Result<(), NoMemory>
        requires there { self.old.core.down ≡ false }
        requires due { (s : Settings) → Knows s self.old → is_own_due s (state self.old) at ≡ true }
        ensures did { OnOk result ((s : Settings) → Knows s self.old → Did s (state self.old) at None (ticks s (state self.old) at) out.old out.new (state self.new)) }
        ensures knows { OnOk result ((s : Settings) → Knows s self.old → Knows s self.new) }
        ensures room { OnOk result ((1 ≤ out.new.entries.spare) × (2 ≤ out.new.letters.spare)) }
        ensures out { OnErr result ((out.new.entries.items ≡ out.old.entries.items) × (out.new.letters.items ≡ out.old.letters.items)) }
        ensures err { OnErr result (self.new ≡ self.old) }
    {
        self.core.reserve_end(1, 2, out)?;
        self.core.close(at, EndWhy::TimedOut, None, out);
        Ok(())
    }

    /// A due operation expires, and is abandoned under the next identifier. There is room for that.
    fn expire(&mut self, at: u64, id: u32, rest: Body, out: &mut Outbox)
        requires entries { 3 ≤ out.old.entries.spare }
        requires letters { 3 ≤ out.old.letters.spare }
        requires written { rest ≡ abandon id }
        ensures did { (s : Settings) (r : Row) → Knows s self.old → row_of id self.old.core.table.rows ≡ Some r → Did s (state self.old) at None (expires s (state self.old) self.old.core.table.ids.next (up_row r)) out.old out.new (state self.new) }
        ensures knows { (s : Settings) (r : Row) → Knows s self.old → row_of id self.old.core.table.rows ≡ Some r → Knows s self.new }
        ensures core { (s : Settings) (r : Row) → Knows s self.old → row_of id self.old.core.table.rows ≡ Some r → self.new.core ≡ record self.old.core { moment = at; table = ended_at id (used_up self.old.core.table) } }
        ensures entry_room { out.old.entries.spare ≤ out.new.entries.spare + 3 }
        ensures letter_room { out.old.letters.spare ≤ out.new.letters.spare + 3 }
    {
        let Some(own) = self.core.own() else {
            return;
        };
        let Some(row) = self.core.end(id) else {
            return;
        };
        let op = row.op;
        self.core.put(at, What::Expired { op }, out);
        self.core
            .put_giving(at, own, What::Own { id: own, rest }, out);
        self.core.moved(at);
        self.fail(op, Refusal::C5, out);
        self.core.tell_retired(own, out);
    }

    /// These operations, which are all that are due, expire in order. There is room for that.
    fn expire_all(&mut self, at: u64, mut list: VecDeque<Abandon>, out: &mut Outbox)
        requires entries { 3 * length list.items + 1 ≤ out.old.entries.spare }
        requires letters { 3 * length list.items + 2 ≤ out.old.letters.spare }
        requires all { list.items ≡ map abandon_of (due_ids self.old.core at) }
        ensures did { (s : Settings) → Knows s self.old → Did s (state self.old) at None (rest_act s at (state self.old)) out.old out.new (state self.new) }
        ensures knows { (s : Settings) → Knows s self.old → Knows s self.new }
        ensures entry_room { 1 ≤ out.new.entries.spare }
        ensures letter_room { 2 ≤ out.new.letters.spare }
    {
        while let Some(due) = next_of(&mut list) {
            let Abandon { id, rest } = due;
            self.expire(at, id, rest, out);
        }
    }

    /// A clock step: the connection ends where the own Bind is due, else each due operation expires.
    pub(crate) fn tick(&mut self, at: u64, out: &mut Outbox) -> Result<(), NoMemory>
        requires there { self.old.core.down ≡ false }
        ensures did { OnOk result ((s : Settings) → Knows s self.old → Did s (state self.old) at None (ticks s (state self.old) at) out.old out.new (state self.new)) }
        ensures knows { OnOk result ((s : Settings) → Knows s self.old → Knows s self.new) }
        ensures room { OnOk result ((1 ≤ out.new.entries.spare) × (2 ≤ out.new.letters.spare)) }
        ensures out { OnErr result ((out.new.entries.items ≡ out.old.entries.items) × (out.new.letters.items ≡ out.old.letters.items)) }
        ensures err { OnErr result (self.new ≡ self.old) }
    {
        if self.is_own_due(at) {
            return self.time_out(at, out);
        }
        let due = self.core.all_due(at)?;
        let list = abandons_of(self.alloc, VecDeque::from_vec(due))?;
        let more = 3 * self.core.len();
        out.reserve(more + 1, more + 2)?;
        self.expire_all(at, list, out);
        Ok(())
    }
}

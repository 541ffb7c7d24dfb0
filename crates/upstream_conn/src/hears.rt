ghost use Rattle.std.specs.Prelude.{◌≡◌, ◌≤◌, false, true, None, OnOk, OnErr, MatchOption};
ghost use Rattle.lload_spec.specs.Settings.{Settings};
ghost use Rattle.id_table.specs.Rows.{row_of};

use crate::part::UpstreamPart;
use crate::told::{OwnTold, Told, own_told, told_of};
use lload_names::{Body, NoMemory, OpKind, OpName};
use outbox::Outbox;

/// What a live operation is: its name and kind, and the moment of its Sent.
#[derive(Clone, Copy, Drop)]
struct Open {
    op: OpName,
    kind: OpKind,
    sent: u64,
}

impl UpstreamPart {
    ghost use Rattle.std.specs.Prelude.{Option};
    ghost use Rattle.std.specs.Option.{ForSome, IsSome};
    ghost use Rattle.part_spec.specs.Marked.{Taken};
    ghost use Rattle.part_spec.specs.RegularTurn.{message};
    ghost use Rattle.conn_core.specs.Did.{Did};
    ghost use Rattle.upstream_conn.specs.Part.{Knows, state, under_own};

    /// Whether an identifier is that of the own Bind that waits.
    fn is_own(&self, id: u32) -> bool
        ensures { result ≡ under_own id self.now.own }
    {
        match self.own {
            None => false,
            Some(own) => own.id == id,
        }
    }

    /// The live operation under an identifier.
    fn open(&self, id: u32) -> Option<Open>
        ensures { MatchOption result (row_of id self.now.core.table.rows ≡ None) (λ o. IsSome (row_of id self.now.core.table.rows) × ForSome (row_of id self.now.core.table.rows) (λ r. (r.op ≡ o.op) × (r.kind ≡ o.kind) × (r.sent ≡ o.sent))) }
    {
        let row = self.core.row(id)?;
        Some(Open {
            op: row.op,
            kind: row.kind,
            sent: row.sent,
        })
    }

    /// A message under the own Bind that waits.
    fn hear_own(&mut self, at: u64, id: u32, rest: Body, out: &mut Outbox) -> Result<(), NoMemory>
        requires there { (self.old.core.linked ≡ true) × (self.old.core.down ≡ false) }
        requires own { under_own id self.old.own ≡ true }
        ensures did { OnOk result ((s : Settings) (mark : Option Taken) → Knows s self.old → Did s (state self.old) at mark (message (state self.old) at (record { id = id; rest = rest })) out.old out.new (state self.new)) }
        ensures knows { OnOk result ((s : Settings) → Knows s self.old → Knows s self.new) }
        ensures room { OnOk result ((1 ≤ out.new.entries.spare) × (2 ≤ out.new.letters.spare)) }
        ensures out { OnErr result ((out.new.entries.items ≡ out.old.entries.items) × (out.new.letters.items ≡ out.old.letters.items)) }
        ensures err { OnErr result (self.new ≡ self.old) }
    {
        match own_told(rest.as_slice()) {
            OwnTold::Success => self.own_success(at, id, rest, out),
            OwnTold::Refused => self.own_refused(at, id, rest, out),
            OwnTold::Unfit => self.own_misfit(at, id, rest, out),
        }
    }

    /// A message under the operation `op`, which was sent at a moment.
    fn hear_row(
        &mut self,
        at: u64,
        id: u32,
        op: OpName,
        kind: OpKind,
        sent: u64,
        rest: Body,
        out: &mut Outbox,
    ) -> Result<(), NoMemory>
        requires there { self.old.core.down ≡ false }
        requires row { ForSome (row_of id self.old.core.table.rows) (λ r. (r.op ≡ op) × (r.kind ≡ kind) × (r.sent ≡ sent)) }
        requires live { IsSome (row_of id self.old.core.table.rows) }
        requires other { under_own id self.old.own ≡ false }
        ensures did { OnOk result ((s : Settings) (mark : Option Taken) → Knows s self.old → Did s (state self.old) at mark (message (state self.old) at (record { id = id; rest = rest })) out.old out.new (state self.new)) }
        ensures knows { OnOk result ((s : Settings) → Knows s self.old → Knows s self.new) }
        ensures room { OnOk result ((1 ≤ out.new.entries.spare) × (2 ≤ out.new.letters.spare)) }
        ensures out { OnErr result ((out.new.entries.items ≡ out.old.entries.items) × (out.new.letters.items ≡ out.old.letters.items)) }
        ensures err { OnErr result (self.new ≡ self.old) }
    {
        match told_of(kind, rest.as_slice()) {
            Told::Unfit => self.misfit(at, id, rest, out),
            Told::More => self.answer(at, id, op, rest, out),
            Told::Last => self.finish(at, id, op, sent, rest, out),
        }
    }

    /// A message, where the connection is there.
    pub(crate) fn hear(
        &mut self,
        at: u64,
        id: u32,
        rest: Body,
        out: &mut Outbox,
    ) -> Result<(), NoMemory>
        requires there { (self.old.core.linked ≡ true) × (self.old.core.down ≡ false) }
        ensures did { OnOk result ((s : Settings) (mark : Option Taken) → Knows s self.old → Did s (state self.old) at mark (message (state self.old) at (record { id = id; rest = rest })) out.old out.new (state self.new)) }
        ensures knows { OnOk result ((s : Settings) → Knows s self.old → Knows s self.new) }
        ensures room { OnOk result ((1 ≤ out.new.entries.spare) × (2 ≤ out.new.letters.spare)) }
        ensures out { OnErr result ((out.new.entries.items ≡ out.old.entries.items) × (out.new.letters.items ≡ out.old.letters.items)) }
        ensures err { OnErr result (self.new ≡ self.old) }
    {
        if self.is_own(id) {
            return self.hear_own(at, id, rest, out);
        }
        match self.open(id) {
            Some(open) => self.hear_row(at, id, open.op, open.kind, open.sent, rest, out),
            None => self.stray(at, id, rest, out),
        }
    }
}

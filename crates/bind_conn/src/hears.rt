ghost use Rattle.std.specs.Prelude.{◌≡◌, ◌≤◌, ◌==◌, Some, None, true, Option, IfOk, OnOk, OnErr};
ghost use Rattle.lload_spec.specs.Lists.{passes};
ghost use Rattle.lload_spec.specs.Settings.{Settings};
ghost use Rattle.id_table.specs.Rows.{row_of, first_id};

use crate::part::BindPart;
use crate::told::{Told, WhoTold, told_of, who_told};
use lload_names::{Body, NoMemory, OpName};
use outbox::Outbox;

/// What a message meets.
#[derive(Debug, Drop)]
pub enum Met {
    /// The live Bind, which waits for its answer.
    Live { op: OpName, ask_who: bool },
    /// The Who Am I behind the success that is kept back.
    Asked { op: OpName, kept: Body },
    /// Nothing that waits.
    Nothing,
}

impl BindPart {
    ghost use Rattle.std.specs.Option.{ForSome, IsSome};
    ghost use Rattle.part_spec.specs.Marked.{Taken};
    ghost use Rattle.part_spec.specs.BindTurn.{message};
    ghost use Rattle.conn_core.specs.Did.{Did};
    ghost use Rattle.bind_conn.specs.Met.{Meets};
    ghost use Rattle.bind_conn.specs.Part.{Knows, state};

    /// What a message under an identifier meets, where an operation is live under `first`.
    fn meet(&self, id: u32, first: u32) -> Result<Met, NoMemory>
        ensures { IfOk result (λ m. ForSome (row_of first self.now.core.table.rows) (λ r. Meets first id r m)) }
    {
        let Some(row) = self.core.row(first) else {
            return Ok(Met::Nothing);
        };
        match &row.kept {
            None => {
                if first == id {
                    return Ok(Met::Live {
                        op: row.op,
                        ask_who: row.ask_who,
                    });
                }
                Ok(Met::Nothing)
            }
            Some(kept) => {
                if kept.who == id {
                    let rest = kept.rest.copy()?;
                    return Ok(Met::Asked {
                        op: row.op,
                        kept: rest,
                    });
                }
                Ok(Met::Nothing)
            }
        }
    }

    /// A message under the live Bind, which waits for its answer.
    fn hear_row(
        &mut self,
        at: u64,
        id: u32,
        op: OpName,
        ask_who: bool,
        rest: Body,
        out: &mut Outbox,
    ) -> Result<(), NoMemory>
        requires row { ForSome (row_of id self.old.core.table.rows) (λ r. (r.op ≡ op) × (r.kept ≡ None) × (r.ask_who ≡ ask_who)) }
        requires live { IsSome (row_of id self.old.core.table.rows) }
        ensures did { OnOk result ((s : Settings) (mark : Option Taken) → Knows s self.old → Did s (state self.old) at mark (message s (state self.old) (record { id = id; rest = rest })) out.old out.new (state self.new)) }
        ensures knows { OnOk result ((s : Settings) → Knows s self.old → Knows s self.new) }
        ensures room { OnOk result ((1 ≤ out.new.entries.spare) × (2 ≤ out.new.letters.spare)) }
        ensures out { OnErr result ((out.new.entries.items ≡ out.old.entries.items) × (out.new.letters.items ≡ out.old.letters.items)) }
        ensures err { OnErr result (self.new ≡ self.old) }
    {
        match told_of(ask_who, rest.as_slice()) {
            Told::Unfit => self.misfit(at, id, rest, out),
            Told::More => self.answer(at, id, op, rest, out),
            Told::Going => self.go_on(at, id, op, rest, out),
            Told::Success => self.hold_back(at, id, rest, out),
            Told::Done => self.finish(at, id, op, rest, out),
        }
    }

    /// A message under the Who Am I behind the success that is kept back.
    fn hear_who(
        &mut self,
        at: u64,
        id: u32,
        first: u32,
        op: OpName,
        kept: Body,
        rest: Body,
        out: &mut Outbox,
    ) -> Result<(), NoMemory>
        requires row { ForSome (row_of first self.old.core.table.rows) (λ r. (r.op ≡ op) × (passes (λ k. k.who == id) r.kept ≡ true) × ForSome r.kept (λ k. k.rest ≡ kept)) }
        requires live { IsSome (row_of first self.old.core.table.rows) }
        ensures did { OnOk result ((s : Settings) (mark : Option Taken) → Knows s self.old → Did s (state self.old) at mark (message s (state self.old) (record { id = id; rest = rest })) out.old out.new (state self.new)) }
        ensures knows { OnOk result ((s : Settings) → Knows s self.old → Knows s self.new) }
        ensures room { OnOk result ((1 ≤ out.new.entries.spare) × (2 ≤ out.new.letters.spare)) }
        ensures out { OnErr result ((out.new.entries.items ≡ out.old.entries.items) × (out.new.letters.items ≡ out.old.letters.items)) }
        ensures err { OnErr result (self.new ≡ self.old) }
    {
        match who_told(rest.as_slice()) {
            WhoTold::Unfit => self.who_misfit(at, id, first, rest, out),
            WhoTold::More => self.wait_on(at, id, first, rest, out),
            WhoTold::Tells => self.tell(at, id, first, op, kept, rest, out),
            WhoTold::Refuses => self.refuse(at, id, first, op, rest, out),
        }
    }

    /// A message, where an operation is live under `first`.
    fn hear_live(
        &mut self,
        at: u64,
        id: u32,
        first: u32,
        rest: Body,
        out: &mut Outbox,
    ) -> Result<(), NoMemory>
        requires live { IsSome (row_of first self.old.core.table.rows) }
        ensures did { OnOk result ((s : Settings) (mark : Option Taken) → Knows s self.old → Did s (state self.old) at mark (message s (state self.old) (record { id = id; rest = rest })) out.old out.new (state self.new)) }
        ensures knows { OnOk result ((s : Settings) → Knows s self.old → Knows s self.new) }
        ensures room { OnOk result ((1 ≤ out.new.entries.spare) × (2 ≤ out.new.letters.spare)) }
        ensures out { OnErr result ((out.new.entries.items ≡ out.old.entries.items) × (out.new.letters.items ≡ out.old.letters.items)) }
        ensures err { OnErr result (self.new ≡ self.old) }
    {
        let met = self.meet(id, first)?;
        match met {
            Met::Live { op, ask_who } => self.hear_row(at, id, op, ask_who, rest, out),
            Met::Asked { op, kept } => self.hear_who(at, id, first, op, kept, rest, out),
            Met::Nothing => self.stray(at, id, rest, out),
        }
    }

    /// A message, where the connection is there.
    pub(crate) fn hear(
        &mut self,
        at: u64,
        id: u32,
        rest: Body,
        out: &mut Outbox,
    ) -> Result<(), NoMemory>
        ensures did { OnOk result ((s : Settings) (mark : Option Taken) → Knows s self.old → Did s (state self.old) at mark (message s (state self.old) (record { id = id; rest = rest })) out.old out.new (state self.new)) }
        ensures knows { OnOk result ((s : Settings) → Knows s self.old → Knows s self.new) }
        ensures room { OnOk result ((1 ≤ out.new.entries.spare) × (2 ≤ out.new.letters.spare)) }
        ensures out { OnErr result ((out.new.entries.items ≡ out.old.entries.items) × (out.new.letters.items ≡ out.old.letters.items)) }
        ensures err { OnErr result (self.new ≡ self.old) }
    {
        match self.core.first() {
            None => self.stray(at, id, rest, out),
            Some(first) => self.hear_live(at, id, first, rest, out),
        }
    }
}

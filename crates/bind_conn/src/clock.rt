ghost use Rattle.std.specs.Prelude.{◌≡◌, ◌≤◌, true, None, OnOk, OnErr, MatchOption};
ghost use Rattle.lload_spec.specs.Settings.{Settings};
ghost use Rattle.id_table.specs.Rows.{row_of};
ghost use Rattle.op_deadlines.specs.Due.{is_due};

use crate::part::BindPart;
use lload_names::{EndWhy, NoMemory, OpName, Refusal, What};
use outbox::Outbox;

/// A live Bind that is due: its identifier and operation.
#[derive(Clone, Copy, Drop)]
pub(crate) struct Due {
    pub(crate) id: u32,
    pub(crate) op: OpName,
}

impl BindPart {
    ghost use Rattle.std.specs.Option.{ForSome, IsSome};
    ghost use Rattle.part_spec.specs.BindTurn.{ticks};
    ghost use Rattle.conn_core.specs.Did.{Did};
    ghost use Rattle.bind_conn.specs.Part.{Knows, IsEarly, state};

    /// The live Bind, where it is due.
    fn due(&self, at: u64) -> Option<Due>
        ensures { MatchOption result (IsEarly self.now.core.timeout at self.now.core.table.rows) (λ d. IsSome (row_of d.id self.now.core.table.rows) × ForSome (row_of d.id self.now.core.table.rows) (λ r. (r.op ≡ d.op) × (is_due self.now.core.timeout at r.last ≡ true))) }
    {
        let first = self.core.first()?;
        let row = self.core.row(first)?;
        if self.core.is_past(row.last, at) {
            return Some(Due {
                id: first,
                op: row.op,
            });
        }
        None
    }

    /// The live Bind expires, and takes the connection down.
    fn expire(&mut self, at: u64, id: u32, op: OpName, out: &mut Outbox) -> Result<(), NoMemory>
        requires row { ForSome (row_of id self.old.core.table.rows) (λ r. (r.op ≡ op) × (is_due self.old.core.timeout at r.last ≡ true)) }
        requires live { IsSome (row_of id self.old.core.table.rows) }
        ensures did { OnOk result ((s : Settings) → Knows s self.old → Did s (state self.old) at None (ticks s (state self.old) at) out.old out.new (state self.new)) }
        ensures knows { OnOk result ((s : Settings) → Knows s self.old → Knows s self.new) }
        ensures room { OnOk result ((1 ≤ out.new.entries.spare) × (2 ≤ out.new.letters.spare)) }
        ensures out { OnErr result ((out.new.entries.items ≡ out.old.entries.items) × (out.new.letters.items ≡ out.old.letters.items)) }
        ensures err { OnErr result (self.new ≡ self.old) }
    {
        self.core.reserve_end(2, 3, out)?;
        self.core.end(id);
        self.core.put(at, What::Expired { op }, out);
        self.core.fail(op, Refusal::C5, out);
        self.end(at, EndWhy::TimedOut, out);
        Ok(())
    }

    /// A clock step: the live Bind expires where it is due.
    pub(crate) fn tick(&mut self, at: u64, out: &mut Outbox) -> Result<(), NoMemory>
        ensures did { OnOk result ((s : Settings) → Knows s self.old → Did s (state self.old) at None (ticks s (state self.old) at) out.old out.new (state self.new)) }
        ensures knows { OnOk result ((s : Settings) → Knows s self.old → Knows s self.new) }
        ensures room { OnOk result ((1 ≤ out.new.entries.spare) × (2 ≤ out.new.letters.spare)) }
        ensures out { OnErr result ((out.new.entries.items ≡ out.old.entries.items) × (out.new.letters.items ≡ out.old.letters.items)) }
        ensures err { OnErr result (self.new ≡ self.old) }
    {
        match self.due(at) {
            Some(due) => self.expire(at, due.id, due.op, out),
            None => {
                out.reserve(1, 2)?;
                Ok(())
            }
        }
    }
}

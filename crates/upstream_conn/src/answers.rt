ghost use Rattle.std.specs.Prelude.{◌≡◌, ◌≤◌, false, true, None, OnOk, OnErr};
ghost use Rattle.lload_spec.specs.Settings.{Settings};
ghost use Rattle.lload_spec.specs.Owed.{latency_between};
ghost use Rattle.id_table.specs.Rows.{row_of};

use crate::part::UpstreamPart;
use lload_names::{Body, EndWhy, NoMemory, OpName, What};
use outbox::Outbox;

/// The milliseconds from a moment to another one, as far as 32 bits hold them.
fn latency(sent: u64, at: u64) -> u32
    ensures { result ≡ latency_between sent at }
{
    at.saturating_sub(sent).min(4294967295) as u32
}

impl UpstreamPart {
    ghost use Rattle.std.specs.Option.{ForSome, IsSome};
    ghost use Rattle.part_spec.specs.Marked.{Taken};
    ghost use Rattle.std.specs.Prelude.{Option};
    ghost use Rattle.part_spec.specs.RegularTurn.{message};
    ghost use Rattle.conn_core.specs.Did.{Did};
    ghost use Rattle.upstream_conn.specs.declared.told.OwnTold.TheVariants.{Unfit as OwnUnfit, Refused};
    ghost use Rattle.upstream_conn.specs.declared.told.Told.TheVariants.{Last};
    ghost use Rattle.upstream_conn.specs.Told.{own_told, told_of};
    ghost use Rattle.upstream_conn.specs.Part.{Knows, state, under_own};

    /// A message that is the last answer to a live operation: the operation ends, and its identifier is free.
    pub(crate) fn finish(
        &mut self,
        at: u64,
        id: u32,
        op: OpName,
        sent: u64,
        rest: Body,
        out: &mut Outbox,
    ) -> Result<(), NoMemory>
        requires row { ForSome (row_of id self.old.core.table.rows) (λ r. (r.op ≡ op) × (r.sent ≡ sent) × (told_of r.kind rest ≡ Last)) }
        requires live { IsSome (row_of id self.old.core.table.rows) }
        requires other { under_own id self.old.own ≡ false }
        ensures did { OnOk result ((s : Settings) (mark : Option Taken) → Knows s self.old → Did s (state self.old) at mark (message (state self.old) at (record { id = id; rest = rest })) out.old out.new (state self.new)) }
        ensures knows { OnOk result ((s : Settings) → Knows s self.old → Knows s self.new) }
        ensures room { OnOk result ((1 ≤ out.new.entries.spare) × (2 ≤ out.new.letters.spare)) }
        ensures out { OnErr result ((out.new.entries.items ≡ out.old.entries.items) × (out.new.letters.items ≡ out.old.letters.items)) }
        ensures err { OnErr result (self.new ≡ self.old) }
    {
        let told = rest.copy()?;
        out.reserve(2, 4)?;
        self.core.put(at, What::Got { id, rest: told }, out);
        self.core.finish(id);
        self.core.moved(at);
        self.core.reply(op, rest, true, None, out);
        self.core.tell_end(op, Some(latency(sent, at)), out);
        Ok(())
    }

    /// A message for the own Bind, which was refused: the connection ends.
    pub(crate) fn own_refused(
        &mut self,
        at: u64,
        id: u32,
        rest: Body,
        out: &mut Outbox,
    ) -> Result<(), NoMemory>
        requires there { self.old.core.down ≡ false }
        requires own { under_own id self.old.own ≡ true }
        requires told { own_told rest ≡ Refused }
        ensures did { OnOk result ((s : Settings) (mark : Option Taken) → Knows s self.old → Did s (state self.old) at mark (message (state self.old) at (record { id = id; rest = rest })) out.old out.new (state self.new)) }
        ensures knows { OnOk result ((s : Settings) → Knows s self.old → Knows s self.new) }
        ensures room { OnOk result ((1 ≤ out.new.entries.spare) × (2 ≤ out.new.letters.spare)) }
        ensures out { OnErr result ((out.new.entries.items ≡ out.old.entries.items) × (out.new.letters.items ≡ out.old.letters.items)) }
        ensures err { OnErr result (self.new ≡ self.old) }
    {
        self.fall(at, id, rest, None, EndWhy::OwnBind, out)?;
        Ok(())
    }

    /// A message that can't answer the own Bind that it is under: the connection ends.
    pub(crate) fn own_misfit(
        &mut self,
        at: u64,
        id: u32,
        rest: Body,
        out: &mut Outbox,
    ) -> Result<(), NoMemory>
        requires there { self.old.core.down ≡ false }
        requires own { under_own id self.old.own ≡ true }
        requires told { own_told rest ≡ OwnUnfit }
        ensures did { OnOk result ((s : Settings) (mark : Option Taken) → Knows s self.old → Did s (state self.old) at mark (message (state self.old) at (record { id = id; rest = rest })) out.old out.new (state self.new)) }
        ensures knows { OnOk result ((s : Settings) → Knows s self.old → Knows s self.new) }
        ensures room { OnOk result ((1 ≤ out.new.entries.spare) × (2 ≤ out.new.letters.spare)) }
        ensures out { OnErr result ((out.new.entries.items ≡ out.old.entries.items) × (out.new.letters.items ≡ out.old.letters.items)) }
        ensures err { OnErr result (self.new ≡ self.old) }
    {
        self.fall(at, id, rest, None, EndWhy::Bad, out)?;
        Ok(())
    }

    /// A message that is under nothing that waits: it has no effect, or the connection ends.
    pub(crate) fn stray(
        &mut self,
        at: u64,
        id: u32,
        rest: Body,
        out: &mut Outbox,
    ) -> Result<(), NoMemory>
        requires there { self.old.core.down ≡ false }
        requires stray { row_of id self.old.core.table.rows ≡ None }
        requires other { under_own id self.old.own ≡ false }
        ensures did { OnOk result ((s : Settings) (mark : Option Taken) → Knows s self.old → Did s (state self.old) at mark (message (state self.old) at (record { id = id; rest = rest })) out.old out.new (state self.new)) }
        ensures knows { OnOk result ((s : Settings) → Knows s self.old → Knows s self.new) }
        ensures room { OnOk result ((1 ≤ out.new.entries.spare) × (2 ≤ out.new.letters.spare)) }
        ensures out { OnErr result ((out.new.entries.items ≡ out.old.entries.items) × (out.new.letters.items ≡ out.old.letters.items)) }
        ensures err { OnErr result (self.new ≡ self.old) }
    {
        if self.core.is_dropped(id, rest.as_slice()) {
            return self.ignore(at, id, rest, out);
        }
        self.fall(at, id, rest, self.own, EndWhy::Bad, out)?;
        Ok(())
    }
}

ghost use Rattle.std.specs.Prelude.{◌≡◌, ◌≤◌, ◌+◌, ◌*◌, ◌++◌, ◌∷◌, ◌&&◌, ◌||◌, [], not, length, true, false, Option, IfOk, OnOk, OnErr};
ghost use Rattle.lload_names.specs.declared.names.PartName.TheVariants.{Up};
ghost use Rattle.lload_names.specs.declared.names.What.TheVariants as what;
ghost use Rattle.lload_spec.specs.Lists.{passes};
ghost use Rattle.lload_spec.specs.Journal.{same_op};
ghost use Rattle.lload_spec.specs.Settings.{Settings};

use conn_core::ConnCore;
use lload_names::{ConnKind, EndWhy, Letter, NoMemory, OpName, What};
use outbox::Outbox;
use std::alloc::Global;

/// A bind connection's part: one client at a time holds it, under the operation that was chosen for it.
#[derive(Drop)]
pub struct BindPart {
    pub(crate) core: ConnCore,
    pub(crate) holder: Option<OpName>,
    pub(crate) lost: Option<OpName>,
    pub(crate) alloc: Global,
}

/// Whether a name is there and is this operation's.
pub(crate) fn is_of(named: Option<OpName>, op: OpName) -> bool
    ensures { result ≡ passes (same_op op) named }
{
    match named {
        Some(other) => op.client == other.client && op.k == other.k,
        None => false,
    }
}

impl BindPart {
    ghost use Rattle.part_spec.specs.Marked.{Taken};
    ghost use Rattle.part_spec.specs.Inputs.{act, entries_of};
    ghost use Rattle.part_spec.specs.ConnectionState.{with_down};
    ghost use Rattle.part_spec.specs.ConnectionTurn.{down_letters, is_drained};
    ghost use Rattle.part_spec.specs.BindTurn.{link_up, leaves};
    ghost use Rattle.conn_core.specs.Did.{Did};
    ghost use Rattle.conn_core.specs.Turned.{drained_act};
    ghost use Rattle.bind_conn.specs.Part.{Knows, state};

    /// It is linked, and up at once.
    pub(crate) fn begin(&mut self, at: u64, out: &mut Outbox) -> Result<(), NoMemory>
        requires unlinked { self.old.core.linked ≡ false }
        ensures did { OnOk result ((s : Settings) (mark : Option Taken) → Knows s self.old → Did s (state self.old) at mark (link_up (state self.old)) out.old out.new (state self.new)) }
        ensures knows { OnOk result ((s : Settings) → Knows s self.old → Knows s self.new) }
        ensures room { OnOk result ((1 ≤ out.new.entries.spare) × (2 ≤ out.new.letters.spare)) }
        ensures out { OnErr result ((out.new.entries.items ≡ out.old.entries.items) × (out.new.letters.items ≡ out.old.letters.items)) }
        ensures err { OnErr result (self.new ≡ self.old) }
    {
        out.reserve(3, 3)?;
        self.core.put(at, What::Linked, out);
        self.core.link(at);
        self.core.put(at, What::Up, out);
        self.core.come_up(at);
        let conn = self.core.number();
        self.core.tell_desk(Letter::IsUp { conn }, out);
        Ok(())
    }

    /// A letter that comes to nothing.
    pub(crate) fn idle(&mut self, at: u64, op: OpName, out: &mut Outbox) -> Result<(), NoMemory>
        ensures did { OnOk result ((s : Settings) (mark : Option Taken) → Knows s self.old → Did s (state self.old) at mark (act (what.Idle op ∷ []) []) out.old out.new (state self.new)) }
        ensures knows { OnOk result ((s : Settings) → Knows s self.old → Knows s self.new) }
        ensures room { OnOk result ((1 ≤ out.new.entries.spare) × (2 ≤ out.new.letters.spare)) }
        ensures out { OnErr result ((out.new.entries.items ≡ out.old.entries.items) × (out.new.letters.items ≡ out.old.letters.items)) }
        ensures err { OnErr result (self.new ≡ self.old) }
    {
        out.reserve(2, 2)?;
        self.core.put(at, What::Idle { op }, out);
        self.core.moved(at);
        Ok(())
    }

    /// The connection ends: the live Bind is lost, and its holder ends. There is room for all that.
    pub(crate) fn end(&mut self, at: u64, why: EndWhy, out: &mut Outbox)
        requires entry { 1 ≤ out.old.entries.spare }
        requires letters { 2 * length self.old.core.table.rows + 2 ≤ out.old.letters.spare }
        ensures entries { out.new.entries.items ≡ out.old.entries.items ++ entries_of (Up self.old.core.number) at (what.Down why ∷ []) }
        ensures letters { (s : Settings) → Knows s self.old → out.new.letters.items ≡ out.old.letters.items ++ down_letters (state self.old) }
        ensures behind { state self.new ≡ record (with_down (state self.old)) { moment = at } }
        ensures knows { (s : Settings) → Knows s self.old → Knows s self.new }
        ensures entry_room { out.new.entries.spare + 1 ≡ out.old.entries.spare }
        ensures letter_room { out.old.letters.spare ≤ out.new.letters.spare + (2 * length self.old.core.table.rows + 2) }
    {
        let holder = self.holder;
        self.lost = holder;
        self.holder = None;
        self.core.close(at, why, holder, out);
    }

    /// A connection that is retired and has nothing left to do ends.
    pub(crate) fn drain(&mut self, at: u64, out: &mut Outbox)
        requires entry { 1 ≤ out.old.entries.spare }
        requires letters { 2 ≤ out.old.letters.spare }
        ensures did { (s : Settings) → Knows s self.old → Did s (state self.old) at None (drained_act (state self.old)) out.old out.new (state self.new) }
        ensures knows { (s : Settings) → Knows s self.old → Knows s self.new }
        ensures undrained { (s : Settings) → Knows s self.old → is_drained (state self.new) ≡ false }
    {
        if self.is_idle() {
            self.core.close(at, EndWhy::Drained, None, out);
            self.lost = None;
        }
    }

    /// Whether nothing is left to do for a retired connection.
    fn is_idle(&self) -> bool
        ensures { result ≡ is_drained (state self.now) }
    {
        self.core.is_retired()
            && !self.core.is_down()
            && self.core.len() == 0
            && self.holder.is_none()
    }

    /// Whether an operation holds the connection, which hasn't ended.
    fn is_held_by(&self, holder: OpName) -> bool
        ensures { result ≡ (passes (same_op holder) self.now.holder && not self.now.core.down) }
    {
        is_of(self.holder, holder) && !self.core.is_down()
    }

    /// A Leave of the holder: its exchange is unfinished, and the connection ends.
    fn unfinish(&mut self, at: u64, holder: OpName, out: &mut Outbox) -> Result<(), NoMemory>
        requires held { (passes (same_op holder) self.old.holder && not self.old.core.down) ≡ true }
        ensures did { OnOk result ((s : Settings) (mark : Option Taken) → Knows s self.old → Did s (state self.old) at mark (leaves (state self.old) holder) out.old out.new (state self.new)) }
        ensures knows { OnOk result ((s : Settings) → Knows s self.old → Knows s self.new) }
        ensures room { OnOk result ((1 ≤ out.new.entries.spare) × (2 ≤ out.new.letters.spare)) }
        ensures out { OnErr result ((out.new.entries.items ≡ out.old.entries.items) × (out.new.letters.items ≡ out.old.letters.items)) }
        ensures err { OnErr result (self.new ≡ self.old) }
    {
        let _ = holder;
        self.core.reserve_end(1, 2, out)?;
        self.end(at, EndWhy::Unfinished, out);
        Ok(())
    }

    /// A Leave: of the holder its exchange is unfinished, any other one is idle.
    pub(crate) fn leave(
        &mut self,
        at: u64,
        holder: OpName,
        out: &mut Outbox,
    ) -> Result<(), NoMemory>
        ensures did { OnOk result ((s : Settings) (mark : Option Taken) → Knows s self.old → Did s (state self.old) at mark (leaves (state self.old) holder) out.old out.new (state self.new)) }
        ensures knows { OnOk result ((s : Settings) → Knows s self.old → Knows s self.new) }
        ensures room { OnOk result ((1 ≤ out.new.entries.spare) × (2 ≤ out.new.letters.spare)) }
        ensures out { OnErr result ((out.new.entries.items ≡ out.old.entries.items) × (out.new.letters.items ≡ out.old.letters.items)) }
        ensures err { OnErr result (self.new ≡ self.old) }
    {
        if self.is_held_by(holder) {
            return self.unfinish(at, holder, out);
        }
        self.idle(at, holder, out)?;
        Ok(())
    }
}

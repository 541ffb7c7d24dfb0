ghost use Rattle.std.specs.Prelude.{◌≡◌, ◌≤◌, ◌++◌, ◌∷◌, [], ◌==◌, ◌&&◌, ℕ, true, false, None, Some, Option, IfOk, OnOk, OnErr};
ghost use Rattle.lload_names.specs.declared.names.PartName.{PartName};
ghost use Rattle.lload_names.specs.declared.names.PartName.TheVariants.{Up};
ghost use Rattle.lload_names.specs.declared.names.Letter.TheVariants.{Forward};
ghost use Rattle.lload_names.specs.declared.names.What.TheVariants as what;
ghost use Rattle.ldap_spec.specs.Kinds.{same_kind};
ghost use Rattle.ldap_spec.specs.Bodies.{abandon};
ghost use Rattle.lload_names.specs.declared.names.OpKind.TheVariants.{Bind};
ghost use Rattle.lload_spec.specs.Settings.{Settings, is_of_kind};
ghost use Rattle.id_table.specs.Rows.{row_of, id_of};
ghost use Rattle.id_table.specs.Table.{passes_limit};

use crate::told::{OwnTold, Told, own_told, told_of};
use crate::waiting::Waiting;
use conn_core::{ConnCore, UpSettings};
use ldap_messages::{abandon_rest, response_kind};
use lload_names::{
    Body, ConnKind, EndWhy, Input, Letter, NoMemory, OpKind, OpName, PartName, Refusal, What,
};
use outbox::Outbox;
use std::alloc::Global;

/// The own Bind that waits for its answer: its identifier and moment.
#[derive(Clone, Copy, Debug, Drop)]
pub struct OwnWait {
    pub id: u32,
    pub at: u64,
}

/// A regular connection's part.
#[derive(Drop)]
pub struct UpstreamPart {
    pub(crate) core: ConnCore,
    pub(crate) own_bind: Option<Body>,
    pub(crate) own: Option<OwnWait>,
    pub(crate) waiting: Waiting,
    pub(crate) alloc: Global,
}

impl UpstreamPart {
    ghost use Rattle.part_spec.specs.Marked.{Taken};
    ghost use Rattle.part_spec.specs.ConnectionTurn.{is_drained};
    ghost use Rattle.part_spec.specs.RegularTurn.{forwards, drops, link_up, message};
    ghost use Rattle.part_spec.specs.Inputs.{act, to, failed, entries_of};
    ghost use Rattle.lload_names.specs.declared.names.PartName.TheVariants.{Desk};
    ghost use Rattle.lload_names.specs.declared.names.Letter.TheVariants.{Ended};
    ghost use Rattle.upstream_conn.specs.declared.told.OwnTold.TheVariants.{Success};
    ghost use Rattle.upstream_conn.specs.declared.told.Told.TheVariants.{Unfit, More, Last};
    ghost use Rattle.conn_core.specs.Dropped.{is_dropped};
    ghost use Rattle.conn_core.specs.Turned.{drained_act};
    ghost use Rattle.upstream_conn.specs.Told.{own_told, told_of};
    ghost use Rattle.conn_core.specs.Closing.{closing_letters};
    ghost use Rattle.id_table.specs.Table.{IsTable};
    ghost use Rattle.std.specs.Option.{ForSome, IsSome};
    ghost use Rattle.std.specs.Prelude.{◌||◌, ◌+◌};
    ghost use Rattle.conn_core.specs.Did.{Did};
    ghost use Rattle.upstream_conn.specs.Part.{Knows, state, closed, under_own, IsTakenLetter};

    /// A connection that is retired and has nothing left to do ends.
    pub(crate) fn drain(&mut self, at: u64, out: &mut Outbox)
        requires entry { 1 ≤ out.old.entries.spare }
        requires letters { 2 ≤ out.old.letters.spare }
        ensures did { (s : Settings) → Knows s self.old → Did s (state self.old) at None (drained_act (state self.old)) out.old out.new (state self.new) }
        ensures knows { (s : Settings) → Knows s self.old → Knows s self.new }
        ensures undrained { (s : Settings) → Knows s self.old → is_drained (state self.new) ≡ false }
    {
        if self.core.is_retired() && !self.core.is_down() && self.core.len() == 0 {
            self.core.close(at, EndWhy::Drained, None, out);
        }
    }

    /// A Forward, where the connection takes further operations: it is sent.
    pub(crate) fn send(
        &mut self,
        at: u64,
        op: OpName,
        kind: OpKind,
        ask_who: bool,
        rest: Body,
        out: &mut Outbox,
    ) -> Result<(), NoMemory>
        requires goes_on { passes_limit self.old.core.table ≡ false }
        requires there { self.old.core.down ≡ false }
        requires linked { self.old.core.linked ≡ true }
        ensures did { OnOk result ((s : Settings) (sender : PartName) (holder : OpName) → Knows s self.old → Did s (state self.old) at (Some (record { sender = sender; letter = Forward op kind rest ask_who holder })) (forwards s (state self.old) op rest) out.old out.new (state self.new)) }
        ensures knows { OnOk result ((s : Settings) (holder : OpName) → Knows s self.old → IsTakenLetter self.old (Forward op kind rest ask_who holder) → Knows s self.new) }
        ensures room { OnOk result ((1 ≤ out.new.entries.spare) × (2 ≤ out.new.letters.spare)) }
        ensures out { OnErr result ((out.new.entries.items ≡ out.old.entries.items) × (out.new.letters.items ≡ out.old.letters.items)) }
        ensures err { OnErr result (self.new ≡ self.old) }
    {
        out.reserve(3, 3)?;
        let id = self.core.send(at, op, kind, ask_who)?;
        self.core
            .put_giving(at, id, What::Sent { id, op, rest }, out);
        self.core.tell_retired(id, out);
        Ok(())
    }

    /// A Forward, where it takes no further ones: it is missed.
    pub(crate) fn miss(
        &mut self,
        at: u64,
        op: OpName,
        rest: Body,
        out: &mut Outbox,
    ) -> Result<(), NoMemory>
        requires stopped { (passes_limit self.old.core.table || self.old.core.down) ≡ true }
        ensures did { OnOk result ((s : Settings) (mark : Option Taken) → Knows s self.old → Did s (state self.old) at mark (forwards s (state self.old) op rest) out.old out.new (state self.new)) }
        ensures knows { OnOk result ((s : Settings) → Knows s self.old → Knows s self.new) }
        ensures room { OnOk result ((1 ≤ out.new.entries.spare) × (2 ≤ out.new.letters.spare)) }
        ensures out { OnErr result ((out.new.entries.items ≡ out.old.entries.items) × (out.new.letters.items ≡ out.old.letters.items)) }
        ensures err { OnErr result (self.new ≡ self.old) }
    {
        let _ = rest;
        out.reserve(2, 4)?;
        self.core.put(at, What::Missed { op }, out);
        self.fail(op, Refusal::C4, out);
        self.core.moved(at);
        Ok(())
    }

    /// Posts the letters of an operation that fails, for which there is room.
    pub(crate) fn fail(&self, op: OpName, which: Refusal, out: &mut Outbox)
        requires { 2 ≤ out.old.letters.spare }
        ensures letters { out.new.letters.items ≡ out.old.letters.items ++ (failed op which ++ to Desk (Ended op self.now.core.number None)) }
        ensures letter_room { out.new.letters.spare + 2 ≡ out.old.letters.spare }
        ensures entries { out.new.entries ≡ out.old.entries }
    {
        self.core.fail(op, which, out);
        self.core.tell_end(op, None, out);
    }

    /// A Drop of an operation that isn't live: it is idle.
    pub(crate) fn idle(&mut self, at: u64, op: OpName, out: &mut Outbox) -> Result<(), NoMemory>
        requires { id_of op self.old.core.table.rows ≡ None }
        ensures did { OnOk result ((s : Settings) (mark : Option Taken) → Knows s self.old → Did s (state self.old) at mark (drops s (state self.old) op) out.old out.new (state self.new)) }
        ensures knows { OnOk result ((s : Settings) → Knows s self.old → Knows s self.new) }
        ensures room { OnOk result ((1 ≤ out.new.entries.spare) × (2 ≤ out.new.letters.spare)) }
        ensures out { OnErr result ((out.new.entries.items ≡ out.old.entries.items) × (out.new.letters.items ≡ out.old.letters.items)) }
        ensures err { OnErr result (self.new ≡ self.old) }
    {
        out.reserve(2, 2)?;
        self.core.put(at, What::Idle { op }, out);
        self.core.moved(at);
        Ok(())
    }

    /// A Pause.
    pub(crate) fn pause(&mut self, at: u64, client: u32, out: &mut Outbox) -> Result<(), NoMemory>
        ensures did { OnOk result ((s : Settings) (mark : Option Taken) → Knows s self.old → Did s (state self.old) at mark (act (what.Paused client ∷ []) []) out.old out.new (state self.new)) }
        ensures knows { OnOk result ((s : Settings) → Knows s self.old → Knows s self.new) }
        ensures room { OnOk result ((1 ≤ out.new.entries.spare) × (2 ≤ out.new.letters.spare)) }
        ensures out { OnErr result ((out.new.entries.items ≡ out.old.entries.items) × (out.new.letters.items ≡ out.old.letters.items)) }
        ensures err { OnErr result (self.new ≡ self.old) }
    {
        out.reserve(2, 2)?;
        self.waiting.add(client)?;
        self.core.put(at, What::Paused { client }, out);
        self.core.moved(at);
        Ok(())
    }

    /// A Resume.
    pub(crate) fn resume(&mut self, at: u64, client: u32, out: &mut Outbox) -> Result<(), NoMemory>
        ensures did { OnOk result ((s : Settings) (mark : Option Taken) → Knows s self.old → Did s (state self.old) at mark (act (what.Resumed client ∷ []) []) out.old out.new (state self.new)) }
        ensures knows { OnOk result ((s : Settings) → Knows s self.old → Knows s self.new) }
        ensures room { OnOk result ((1 ≤ out.new.entries.spare) × (2 ≤ out.new.letters.spare)) }
        ensures out { OnErr result ((out.new.entries.items ≡ out.old.entries.items) × (out.new.letters.items ≡ out.old.letters.items)) }
        ensures err { OnErr result (self.new ≡ self.old) }
    {
        out.reserve(2, 2)?;
        self.waiting.remove(client);
        self.core.put(at, What::Resumed { client }, out);
        self.core.moved(at);
        Ok(())
    }

    /// It is linked, and up where no own Bind is configured.
    pub(crate) fn begin(&mut self, at: u64, out: &mut Outbox) -> Result<(), NoMemory>
        requires unlinked { self.old.core.linked ≡ false }
        requires plain { self.old.own_bind ≡ None }
        ensures did { OnOk result ((s : Settings) (mark : Option Taken) → Knows s self.old → Did s (state self.old) at mark (link_up s (state self.old)) out.old out.new (state self.new)) }
        ensures knows { OnOk result ((s : Settings) → Knows s self.old → Knows s self.new) }
        ensures room { OnOk result ((1 ≤ out.new.entries.spare) × (2 ≤ out.new.letters.spare)) }
        ensures out { OnErr result ((out.new.entries.items ≡ out.old.entries.items) × (out.new.letters.items ≡ out.old.letters.items)) }
        ensures err { OnErr result (self.new ≡ self.old) }
    {
        out.reserve(3, 3)?;
        self.core.put(at, What::Linked, out);
        self.core.link(at);
        self.core.put(at, What::Up, out);
        self.core.come_up(at);
        let conn = self.core.number();
        self.core.tell_desk(Letter::IsUp { conn }, out);
        Ok(())
    }

    /// A message for the own Bind, which succeeded: the connection is up.
    pub(crate) fn own_success(
        &mut self,
        at: u64,
        id: u32,
        rest: Body,
        out: &mut Outbox,
    ) -> Result<(), NoMemory>
        requires there { (self.old.core.linked ≡ true) × (self.old.core.down ≡ false) }
        requires own { under_own id self.old.own ≡ true }
        requires told { own_told rest ≡ Success }
        ensures did { OnOk result ((s : Settings) (mark : Option Taken) → Knows s self.old → Did s (state self.old) at mark (message (state self.old) at (record { id = id; rest = rest })) out.old out.new (state self.new)) }
        ensures knows { OnOk result ((s : Settings) → Knows s self.old → Knows s self.new) }
        ensures room { OnOk result ((1 ≤ out.new.entries.spare) × (2 ≤ out.new.letters.spare)) }
        ensures out { OnErr result ((out.new.entries.items ≡ out.old.entries.items) × (out.new.letters.items ≡ out.old.letters.items)) }
        ensures err { OnErr result (self.new ≡ self.old) }
    {
        out.reserve(3, 3)?;
        self.core.put(at, What::Got { id, rest }, out);
        self.core.put(at, What::Up, out);
        self.core.come_up(at);
        self.own = None;
        let conn = self.core.number();
        self.core.tell_desk(Letter::IsUp { conn }, out);
        Ok(())
    }

    /// A message that is an answer to a live operation, and not the last.
    pub(crate) fn answer(
        &mut self,
        at: u64,
        id: u32,
        op: OpName,
        rest: Body,
        out: &mut Outbox,
    ) -> Result<(), NoMemory>
        requires row { ForSome (row_of id self.old.core.table.rows) (λ r. (r.op ≡ op) × (told_of r.kind rest ≡ More)) }
        requires live { IsSome (row_of id self.old.core.table.rows) }
        requires other { under_own id self.old.own ≡ false }
        ensures did { OnOk result ((s : Settings) (mark : Option Taken) → Knows s self.old → Did s (state self.old) at mark (message (state self.old) at (record { id = id; rest = rest })) out.old out.new (state self.new)) }
        ensures knows { OnOk result ((s : Settings) → Knows s self.old → Knows s self.new) }
        ensures room { OnOk result ((1 ≤ out.new.entries.spare) × (2 ≤ out.new.letters.spare)) }
        ensures out { OnErr result ((out.new.entries.items ≡ out.old.entries.items) × (out.new.letters.items ≡ out.old.letters.items)) }
        ensures err { OnErr result (self.new ≡ self.old) }
    {
        let told = rest.copy()?;
        out.reserve(2, 3)?;
        self.core.put(at, What::Got { id, rest: told }, out);
        self.core.touch(id, at);
        self.core.moved(at);
        self.core.reply(op, rest, false, None, out);
        Ok(())
    }

    /// A message that nothing waits for, or that takes the connection down, for a reason.
    pub(crate) fn fall(
        &mut self,
        at: u64,
        id: u32,
        rest: Body,
        own: Option<OwnWait>,
        why: EndWhy,
        out: &mut Outbox,
    ) -> Result<(), NoMemory>
        requires there { self.old.core.down ≡ false }
        ensures entries { OnOk result (out.new.entries.items ≡ out.old.entries.items ++ entries_of (Up self.old.core.number) at (what.Got id rest ∷ what.Down why ∷ [])) }
        ensures letters { OnOk result (out.new.letters.items ≡ out.old.letters.items ++ closing_letters self.old.core.number self.old.core.kind self.old.core.table.rows None) }
        ensures closed { OnOk result (closed self.old at own self.new) }
        ensures table { OnOk result (IsTable self.new.core.table) }
        ensures request { OnOk result (self.new.own_bind ≡ self.old.own_bind) }
        ensures room { OnOk result ((1 ≤ out.new.entries.spare) × (2 ≤ out.new.letters.spare)) }
        ensures out { OnErr result ((out.new.entries.items ≡ out.old.entries.items) × (out.new.letters.items ≡ out.old.letters.items)) }
        ensures err { OnErr result (self.new ≡ self.old) }
    {
        self.core.reserve_end(2, 2, out)?;
        self.core.put(at, What::Got { id, rest }, out);
        self.own = own;
        self.core.close(at, why, None, out);
        Ok(())
    }

    /// A message that has no effect.
    pub(crate) fn ignore(
        &mut self,
        at: u64,
        id: u32,
        rest: Body,
        out: &mut Outbox,
    ) -> Result<(), NoMemory>
        requires stray { row_of id self.old.core.table.rows ≡ None }
        requires other { under_own id self.old.own ≡ false }
        requires dropped { is_dropped self.old.core.table.ids.next id rest ≡ true }
        ensures did { OnOk result ((s : Settings) (mark : Option Taken) → Knows s self.old → Did s (state self.old) at mark (message (state self.old) at (record { id = id; rest = rest })) out.old out.new (state self.new)) }
        ensures knows { OnOk result ((s : Settings) → Knows s self.old → Knows s self.new) }
        ensures room { OnOk result ((1 ≤ out.new.entries.spare) × (2 ≤ out.new.letters.spare)) }
        ensures out { OnErr result ((out.new.entries.items ≡ out.old.entries.items) × (out.new.letters.items ≡ out.old.letters.items)) }
        ensures err { OnErr result (self.new ≡ self.old) }
    {
        out.reserve(2, 2)?;
        self.core.put(at, What::Got { id, rest }, out);
        self.core.moved(at);
        Ok(())
    }

    /// A message that can't answer the operation that it is under: the connection ends.
    pub(crate) fn misfit(
        &mut self,
        at: u64,
        id: u32,
        rest: Body,
        out: &mut Outbox,
    ) -> Result<(), NoMemory>
        requires there { self.old.core.down ≡ false }
        requires row { ForSome (row_of id self.old.core.table.rows) (λ r. told_of r.kind rest ≡ Unfit) }
        requires live { IsSome (row_of id self.old.core.table.rows) }
        requires other { under_own id self.old.own ≡ false }
        ensures did { OnOk result ((s : Settings) (mark : Option Taken) → Knows s self.old → Did s (state self.old) at mark (message (state self.old) at (record { id = id; rest = rest })) out.old out.new (state self.new)) }
        ensures knows { OnOk result ((s : Settings) → Knows s self.old → Knows s self.new) }
        ensures room { OnOk result ((1 ≤ out.new.entries.spare) × (2 ≤ out.new.letters.spare)) }
        ensures out { OnErr result ((out.new.entries.items ≡ out.old.entries.items) × (out.new.letters.items ≡ out.old.letters.items)) }
        ensures err { OnErr result (self.new ≡ self.old) }
    {
        self.fall(at, id, rest, self.own, EndWhy::Bad, out)?;
        Ok(())
    }
}

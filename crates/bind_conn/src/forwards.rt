ghost use Rattle.std.specs.Prelude.{◌≡◌, ◌≤◌, ◌+◌, ◌++◌, ◌||◌, [], ℕ, true, false, Some, Option, OnOk, OnErr};
ghost use Rattle.lload_names.specs.declared.names.PartName.{PartName};
ghost use Rattle.lload_names.specs.declared.names.Letter.TheVariants.{Forward};
ghost use Rattle.lload_spec.specs.Settings.{Settings};
ghost use Rattle.id_table.specs.Table.{passes_limit};

use crate::part::{BindPart, is_of};
use lload_names::{Body, NoMemory, OpKind, OpName, Refusal, What};
use outbox::Outbox;

impl BindPart {
    ghost use Rattle.std.specs.Prelude.{List};
    ghost use Rattle.part_spec.specs.Marked.{Taken};
    ghost use Rattle.part_spec.specs.BindTurn.{forwards, missed_ended};
    ghost use Rattle.conn_core.specs.Did.{Did};
    ghost use Rattle.bind_conn.specs.Part.{Knows, IsTakenLetter, state};

    /// A Forward, where the connection takes further operations: it is sent, and its holder holds the connection.
    pub(crate) fn send(
        &mut self,
        at: u64,
        op: OpName,
        kind: OpKind,
        ask_who: bool,
        rest: Body,
        holder: OpName,
        out: &mut Outbox,
    ) -> Result<(), NoMemory>
        requires goes_on { passes_limit self.old.core.table ≡ false }
        requires there { self.old.core.down ≡ false }
        requires linked { self.old.core.linked ≡ true }
        ensures did { OnOk result ((s : Settings) (sender : PartName) → Knows s self.old → Did s (state self.old) at (Some (record { sender = sender; letter = Forward op kind rest ask_who holder })) (forwards s (state self.old) op rest holder) out.old out.new (state self.new)) }
        ensures knows { OnOk result ((s : Settings) → Knows s self.old → IsTakenLetter self.old (Forward op kind rest ask_who holder) → Knows s self.new) }
        ensures room { OnOk result ((1 ≤ out.new.entries.spare) × (2 ≤ out.new.letters.spare)) }
        ensures out { OnErr result ((out.new.entries.items ≡ out.old.entries.items) × (out.new.letters.items ≡ out.old.letters.items)) }
        ensures err { OnErr result (self.new ≡ self.old) }
    {
        out.reserve(3, 3)?;
        let id = self.core.send(at, op, kind, ask_who)?;
        self.holder = Some(holder);
        self.core
            .put_giving(at, id, What::Sent { id, op, rest }, out);
        self.core.tell_retired(id, out);
        Ok(())
    }

    /// Posts the end of a holder whose Forward is missed, unless it was given before. There is room for it.
    fn tell_missed(&self, holder: OpName, out: &mut Outbox)
        requires { 1 ≤ out.old.letters.spare }
        ensures letters { out.new.letters.items ≡ out.old.letters.items ++ missed_ended (state self.now) holder }
        ensures letter_room { out.old.letters.spare ≤ out.new.letters.spare + 1 }
        ensures entries { out.new.entries ≡ out.old.entries }
    {
        if !is_of(self.lost, holder) {
            self.core.tell_end(holder, None, out);
        }
    }

    /// A Forward, where it takes no further ones: it is missed, and its holder lets go of the connection.
    pub(crate) fn miss(
        &mut self,
        at: u64,
        op: OpName,
        rest: Body,
        holder: OpName,
        out: &mut Outbox,
    ) -> Result<(), NoMemory>
        requires stopped { (passes_limit self.old.core.table || self.old.core.down) ≡ true }
        ensures did { OnOk result ((s : Settings) (mark : Option Taken) → Knows s self.old → Did s (state self.old) at mark (forwards s (state self.old) op rest holder) out.old out.new (state self.new)) }
        ensures knows { OnOk result ((s : Settings) → Knows s self.old → Knows s self.new) }
        ensures room { OnOk result ((1 ≤ out.new.entries.spare) × (2 ≤ out.new.letters.spare)) }
        ensures out { OnErr result ((out.new.entries.items ≡ out.old.entries.items) × (out.new.letters.items ≡ out.old.letters.items)) }
        ensures err { OnErr result (self.new ≡ self.old) }
    {
        let _ = rest;
        out.reserve(2, 4)?;
        self.core.put(at, What::Missed { op }, out);
        self.core.fail(op, Refusal::C4, out);
        self.tell_missed(holder, out);
        self.holder = None;
        self.core.moved(at);
        Ok(())
    }
}

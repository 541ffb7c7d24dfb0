ghost use Rattle.std.specs.Prelude.{◌≡◌, ◌≤◌, true, Some, OnOk, OnErr};
ghost use Rattle.lload_spec.specs.Settings.{Settings};
ghost use Rattle.lload_names.specs.declared.names.Letter.TheVariants.{Forward};
ghost use Rattle.lload_names.specs.declared.names.PartName.{PartName};

use crate::part::BindPart;
use lload_names::{Body, Letter, NoMemory, OpKind, OpName};
use outbox::Outbox;

impl BindPart {
    ghost use Rattle.part_spec.specs.BindTurn.{forwards, letter as letter_act};
    ghost use Rattle.conn_core.specs.Did.{Did};
    ghost use Rattle.bind_conn.specs.Part.{Knows, state, IsTakenLetter};

    /// A Forward: it is sent, or missed where the connection takes no further operations.
    fn forward(
        &mut self,
        at: u64,
        op: OpName,
        kind: OpKind,
        ask_who: bool,
        rest: Body,
        holder: OpName,
        out: &mut Outbox,
    ) -> Result<(), NoMemory>
        requires linked { self.old.core.linked ≡ true }
        ensures did { OnOk result ((s : Settings) (sender : PartName) → Knows s self.old → Did s (state self.old) at (Some (record { sender = sender; letter = Forward op kind rest ask_who holder })) (forwards s (state self.old) op rest holder) out.old out.new (state self.new)) }
        ensures knows { OnOk result ((s : Settings) → Knows s self.old → IsTakenLetter self.old (Forward op kind rest ask_who holder) → Knows s self.new) }
        ensures room { OnOk result ((1 ≤ out.new.entries.spare) × (2 ≤ out.new.letters.spare)) }
        ensures out { OnErr result ((out.new.entries.items ≡ out.old.entries.items) × (out.new.letters.items ≡ out.old.letters.items)) }
        ensures err { OnErr result (self.new ≡ self.old) }
    {
        if self.core.is_retired() {
            return self.miss(at, op, rest, holder, out);
        }
        if self.core.is_down() {
            return self.miss(at, op, rest, holder, out);
        }
        self.send(at, op, kind, ask_who, rest, holder, out)
    }

    /// A letter, where the connection was linked: it forwards, or leaves; a Drop comes to nothing, and another one
    /// changes nothing.
    pub(crate) fn take(&mut self, at: u64, letter: Letter, out: &mut Outbox) -> Result<(), NoMemory>
        requires linked { self.old.core.linked ≡ true }
        ensures did { OnOk result ((s : Settings) (sender : PartName) → Knows s self.old → Did s (state self.old) at (Some (record { sender = sender; letter = letter })) (letter_act s (state self.old) letter) out.old out.new (state self.new)) }
        ensures knows { OnOk result ((s : Settings) → Knows s self.old → IsTakenLetter self.old letter → Knows s self.new) }
        ensures room { OnOk result ((1 ≤ out.new.entries.spare) × (2 ≤ out.new.letters.spare)) }
        ensures out { OnErr result ((out.new.entries.items ≡ out.old.entries.items) × (out.new.letters.items ≡ out.old.letters.items)) }
        ensures err { OnErr result (self.new ≡ self.old) }
    {
        match letter {
            Letter::Forward {
                op,
                kind,
                rest,
                ask_who,
                holder,
            } => self.forward(at, op, kind, ask_who, rest, holder, out),
            Letter::Drop { op } => self.idle(at, op, out),
            Letter::Leave { holder } => self.leave(at, holder, out),
            _ => {
                out.reserve(1, 2)?;
                Ok(())
            }
        }
    }
}

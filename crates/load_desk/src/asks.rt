ghost use Rattle.std.specs.Prelude.{◌≡◌, ℕ, Option, OnOk, OnErr};
ghost use Rattle.lload_names.specs.declared.names.Answer.TheVariants.{Go};
ghost use Rattle.lload_names.specs.declared.names.Letter.TheVariants.{Ask};
ghost use Rattle.lload_spec.specs.Settings.{Settings};
ghost use Rattle.lload_spec.specs.Order.{is_free};

use crate::notes::note_choice;
use crate::part::Desk;
use desk_rules::{pick, take_on, turn_to};
use lload_names::{Answer, Bound, NoMemory, OpName, Want};
use outbox::Outbox;

impl Desk {
    ghost use Rattle.part_spec.specs.DeskState.{DeskState};
    ghost use Rattle.part_spec.specs.DeskTurn.{answer_to, chooses};
    ghost use Rattle.part_spec.specs.Marked.{Taken};
    ghost use Rattle.load_desk.specs.Part.{Stands, IsTakenLetter};
    ghost use Rattle.load_desk.specs.Did.{Did};
    ghost use Rattle.load_desk.specs.States.{with_choice_at};
    ghost use Rattle.load_desk.specs.Turned.{IsSame};

    /// An operation is asked for: the right choice is made, and is told to its client.
    pub(crate) fn ask(
        &mut self,
        at: u64,
        word: u64,
        op: OpName,
        want: Want,
        out: &mut Outbox,
    ) -> Result<(), NoMemory>
        ensures did { OnOk result ((s : Settings) (p : DeskState) (mark : Option Taken) → Stands s p self.old → IsTakenLetter s p (Ask op want) → Did s p at mark (chooses op want (answer_to s p word want) word) out.old out.new self.new) }
        ensures out { OnErr result (IsSame out.old out.new) }
        ensures err { OnErr result ((s : Settings) (p : DeskState) → Stands s p self.old → IsTakenLetter s p (Ask op want) → Stands s p self.new) }
    {
        out.reserve(2, 1)?;
        let answer = self.tables.answer(want, word);
        self.choose(op, want, answer)?;
        self.moment = at;
        note_choice(at, op, want, answer, word, out);
        Ok(())
    }

    /// What was chosen is kept. For want of memory nothing is.
    fn choose(&mut self, op: OpName, want: Want, answer: Answer) -> Result<(), NoMemory>
        ensures chosen { OnOk result ((s : Settings) (p : DeskState) (word at : ℕ) → Stands s p self.old → IsTakenLetter s p (Ask op want) → answer ≡ answer_to s p word want → Stands s (with_choice_at s op want answer at p) (record self.new { moment = at })) }
        ensures err { OnErr result ((s : Settings) (p : DeskState) → Stands s p self.old → IsTakenLetter s p (Ask op want) → Stands s p self.new) }
    {
        match answer {
            Answer::Go { conn, .. } => self.give(op, want, conn),
            Answer::Busy => Ok(()),
            Answer::Unavailable => Ok(()),
        }
    }

    /// An operation that isn't pending is so from now on, on a connection, and the turns go on. For want of memory it isn't.
    fn give(&mut self, op: OpName, want: Want, conn: u32) -> Result<(), NoMemory>
        ensures given { OnOk result ((s : Settings) (p : DeskState) (word at b : ℕ) → Stands s p self.old → IsTakenLetter s p (Ask op want) → Go conn b ≡ answer_to s p word want → Stands s (with_choice_at s op want (Go conn b) at p) (record self.new { moment = at })) }
        ensures err { OnErr result ((s : Settings) (p : DeskState) → Stands s p self.old → IsTakenLetter s p (Ask op want) → Stands s p self.new) }
    {
        if !self.pending.put(op, conn, want.kind)? {
            return Ok(());
        }
        if take_on(&mut self.tables, conn).is_err() {
            self.pending.take(op);
            return Err(NoMemory);
        }
        turn_to(&mut self.tables, conn);
        if is_free(want.bound) {
            pick(&mut self.tables, conn);
        }
        Ok(())
    }
}

/// Whether a request is bound to nothing.
fn is_free(bound: Bound) -> bool
    ensures { result ≡ is_free bound }
{
    match bound {
        Bound::Free => true,
        Bound::Backend(_) => false,
        Bound::Conn(_) => false,
    }
}

ghost use Rattle.std.specs.Prelude.{◌≡◌, max, true, ℕ, OnOk, OnErr};
ghost use Rattle.lload_spec.specs.Settings.{Settings};
ghost use Rattle.lload_names.specs.declared.inputs.Input.TheVariants.{LetterFrom, Reload};
ghost use Rattle.lload_names.specs.declared.names.PartName.{PartName};
ghost use Rattle.lload_names.specs.Plans.{IsPlan};

use crate::part::Desk;
use lload_names::{DeskPlan, Input, Letter, NoMemory};
use outbox::Outbox;

impl Desk {
    ghost use Rattle.part_spec.specs.DeskState.{DeskState};
    ghost use Rattle.load_desk.specs.Part.{Stands, IsTaken, IsTakenLetter, HasPlan, is_next};
    ghost use Rattle.load_desk.specs.Turned.{Turned, IsSame};

    /// Takes an input, and appends what its rule makes: entries of the desk's list, and letters to clients. An input without
    /// a rule leaves the desk as it was and gives nothing. For want of memory `out` stays as it was, and the desk stands for
    /// what it stood for.
    pub fn step(&mut self, input: Input, out: &mut Outbox) -> Result<(), NoMemory>
        requires plan { HasPlan input }
        ensures turned { OnOk result ((s : Settings) (p : DeskState) → Stands s p self.old → IsTaken s p input → Turned s p input out.old out.new self.new) }
        ensures out { OnErr result (IsSame out.old out.new) }
        ensures err { OnErr result ((s : Settings) (p : DeskState) → Stands s p self.old → IsTaken s p input → Stands s p self.new) }
    {
        match input {
            Input::LetterFrom {
                now,
                word,
                letter,
                ..
            } => self.step_letter(now, word, letter, out),
            Input::Reload { now, plan, base } => self.replan(now, plan, base, out),
            Input::Arrive { .. } => Ok(()),
            Input::LinkUp { .. } => Ok(()),
            Input::Message { .. } => Ok(()),
            Input::Tick { .. } => Ok(()),
            Input::LinkGone { .. } => Ok(()),
            Input::Stall { .. } => Ok(()),
            Input::Flow { .. } => Ok(()),
        }
    }

    /// A letter comes.
    fn step_letter(
        &mut self,
        now: u64,
        word: u64,
        letter: Letter,
        out: &mut Outbox,
    ) -> Result<(), NoMemory>
        ensures turned { OnOk result ((s : Settings) (p : DeskState) (sender : PartName) → Stands s p self.old → IsTakenLetter s p letter → Turned s p (LetterFrom now word sender letter) out.old out.new self.new) }
        ensures out { OnErr result (IsSame out.old out.new) }
        ensures err { OnErr result ((s : Settings) (p : DeskState) → Stands s p self.old → IsTakenLetter s p letter → Stands s p self.new) }
    {
        let at = self.moment_for(now);
        match letter {
            Letter::Ask { op, want } => self.ask(at, word, op, want, out),
            Letter::Returned { op, conn } => self.hear_returned(at, op, conn, out),
            Letter::Ended { op, conn, latency } => self.hear_ended(at, op, conn, latency, out),
            Letter::IsUp { conn } => self.hear_up(at, conn, out),
            Letter::IsRetired { conn } => self.hear_retired(at, conn, out),
            Letter::IsDown { conn } => self.hear_down(at, conn, out),
            Letter::Choice { .. } => Ok(()),
            Letter::Forward { .. } => Ok(()),
            Letter::Reply { .. } => Ok(()),
            Letter::Failed { .. } => Ok(()),
            Letter::Drop { .. } => Ok(()),
            Letter::Leave { .. } => Ok(()),
            Letter::Pause { .. } => Ok(()),
            Letter::Resume { .. } => Ok(()),
        }
    }

    /// The moment of an entry: one before that of the last entry counts as that one.
    fn moment_for(&self, now: u64) -> u64
        ensures { result ≡ max self.now.moment now }
    {
        self.moment.max(now)
    }

    /// The desk is to choose by another plan, for connections above a base. One whose numbers pass 32 bits leaves the desk as
    /// it was and gives nothing. For want of memory `out` stays as it was, and the desk stands for what it stood for.
    pub fn replan(
        &mut self,
        now: u64,
        plan: DeskPlan,
        base: u32,
        out: &mut Outbox,
    ) -> Result<(), NoMemory>
        requires plan { IsPlan plan }
        ensures turned { OnOk result ((s : Settings) (p : DeskState) → Stands s p self.old → is_next s p plan base ≡ true → Turned s p (Reload now plan base) out.old out.new self.new) }
        ensures out { OnErr result (IsSame out.old out.new) }
        ensures err { OnErr result ((s : Settings) (p : DeskState) → Stands s p self.old → Stands s p self.new) }
    {
        let at = self.moment_for(now);
        self.go_on_to(at, plan, base, out)
    }
}

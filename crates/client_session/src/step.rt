ghost use Rattle.std.specs.Prelude.{◌≡◌, OnOk, OnErr};
ghost use Rattle.lload_spec.specs.Settings.{Settings};
ghost use Rattle.part_spec.specs.ClientState.{ClientState};
ghost use Rattle.lload_names.specs.declared.inputs.Input.TheVariants.{LetterFrom};
ghost use Rattle.lload_names.specs.declared.names.PartName.{PartName};
ghost use Rattle.std.specs.Prelude.{ℕ};
ghost use Rattle.client_session.specs.Did.{Turned, IsSame};
ghost use Rattle.client_session.specs.Fit.{IsFit};
ghost use Rattle.client_session.specs.Stands.{Stands};

use crate::part::ClientPart;
use lload_names::{Input, Letter, NoMemory};
use outbox::Outbox;

impl ClientPart {
    /// Takes an input, and appends what its rule makes: entries of the client's list, and letters to other parts. An input
    /// without a rule leaves the part as it was and gives nothing. A choice is one of an operation that the desk was asked
    /// for and that wasn't forwarded. For want of memory nothing is appended, and the part stands for what it stood for.
    pub fn step(&mut self, input: Input, out: &mut Outbox) -> Result<(), NoMemory>
        ensures turned { OnOk result ((s : Settings) (p : ClientState) → Stands s p self.old → IsFit p input → Turned s p input out.old out.new self.new) }
        ensures out { OnErr result (IsSame out.old out.new) }
        ensures err { OnErr result ((s : Settings) (p : ClientState) → Stands s p self.old → Stands s p self.new) }
    {
        match input {
            Input::Arrive { now } => self.arrive(now, out),
            Input::Message { now, id, rest } => {
                let at = self.moment.max(now);
                self.take(at, id, rest, out)
            }
            Input::LetterFrom { now, letter, .. } => self.hear(now, letter, out),
            Input::LinkGone { now, why } => {
                let at = self.moment.max(now);
                self.lose(at, why, out)
            }
            Input::Stall { now } => {
                let at = self.moment.max(now);
                self.stall(at, out)
            }
            Input::Flow { now } => {
                let at = self.moment.max(now);
                self.flow(at, out)
            }
            Input::LinkUp { .. } | Input::Tick { .. } | Input::Reload { .. } => Ok(()),
        }
    }

    /// A letter comes.
    fn hear(&mut self, now: u64, letter: Letter, out: &mut Outbox) -> Result<(), NoMemory>
        ensures turned { OnOk result ((s : Settings) (p : ClientState) (word : ℕ) (sender : PartName) → Stands s p self.old → IsFit p (LetterFrom now word sender letter) → Turned s p (LetterFrom now word sender letter) out.old out.new self.new) }
        ensures out { OnErr result (IsSame out.old out.new) }
        ensures err { OnErr result ((s : Settings) (p : ClientState) → Stands s p self.old → Stands s p self.new) }
    {
        if !self.arrived {
            return Ok(());
        }
        match letter {
            Letter::Choice { op, answer } => {
                let at = self.moment.max(now);
                self.choose(at, op, answer, out)
            }
            Letter::Reply { op, rest, who, .. } => self.reply(op, rest, who, now, out),
            Letter::Failed { op, which } => self.failed(op, which, now, out),
            _ => Ok(()),
        }
    }
}

ghost use Rattle.std.specs.Prelude.{◌≡◌, OnOk, OnErr};
ghost use Rattle.lload_spec.specs.Settings.{Settings};
ghost use Rattle.lload_names.specs.declared.inputs.Input.TheVariants.{LinkUp, Message, LetterFrom, Tick};
ghost use Rattle.lload_names.specs.declared.names.PartName.{PartName};

use crate::part::BindPart;
use lload_names::{Body, Input, Letter, NoMemory};
use outbox::Outbox;

impl BindPart {
    ghost use Rattle.std.specs.Prelude.{ℕ};
    ghost use Rattle.part_spec.specs.ConnectionState.{ConnectionState};
    ghost use Rattle.conn_core.specs.Turned.{Turned, IsSame};
    ghost use Rattle.bind_conn.specs.Part.{Stands, IsTaken};

    /// Takes an input, and appends what its rule makes: entries of the connection's list, and letters to other parts. An
    /// input without a rule leaves the part as it was and gives nothing. For want of memory nothing changes. A Forward may be
    /// taken where it is of a Bind, and no operation is live here.
    pub fn step(&mut self, input: Input, out: &mut Outbox) -> Result<(), NoMemory>
        ensures turned { OnOk result ((s : Settings) (p : ConnectionState) → Stands s p self.old → IsTaken self.old input → Turned s p input out.old out.new (λ q. Stands s q self.new)) }
        ensures out { OnErr result (IsSame out.old out.new) }
        ensures err { OnErr result (self.new ≡ self.old) }
    {
        match input {
            Input::LinkUp { now } => self.step_link(now, out),
            Input::Message { now, id, rest } => self.step_message(now, id, rest, out),
            Input::LetterFrom { now, letter, .. } => self.step_letter(now, letter, out),
            Input::Tick { now } => self.step_tick(now, out),
            Input::Arrive { .. } => Ok(()),
            Input::LinkGone { .. } => Ok(()),
            Input::Stall { .. } => Ok(()),
            Input::Flow { .. } => Ok(()),
            Input::Reload { .. } => Ok(()),
        }
    }

    /// The connection is linked.
    fn step_link(&mut self, now: u64, out: &mut Outbox) -> Result<(), NoMemory>
        ensures turned { OnOk result ((s : Settings) (p : ConnectionState) → Stands s p self.old → Turned s p (LinkUp now) out.old out.new (λ q. Stands s q self.new)) }
        ensures out { OnErr result (IsSame out.old out.new) }
        ensures err { OnErr result (self.new ≡ self.old) }
    {
        if self.core.is_linked() {
            return Ok(());
        }
        let at = self.core.moment_for(now);
        self.begin(at, out)?;
        self.drain(at, out);
        Ok(())
    }

    /// A message comes; before the link and behind the end none has a rule.
    fn step_message(
        &mut self,
        now: u64,
        id: u32,
        rest: Body,
        out: &mut Outbox,
    ) -> Result<(), NoMemory>
        ensures turned { OnOk result ((s : Settings) (p : ConnectionState) → Stands s p self.old → Turned s p (Message now id rest) out.old out.new (λ q. Stands s q self.new)) }
        ensures out { OnErr result (IsSame out.old out.new) }
        ensures err { OnErr result (self.new ≡ self.old) }
    {
        if !self.core.is_linked() {
            return Ok(());
        }
        if self.core.is_down() {
            return Ok(());
        }
        let at = self.core.moment_for(now);
        self.hear(at, id, rest, out)?;
        self.drain(at, out);
        Ok(())
    }

    /// A letter comes.
    fn step_letter(&mut self, now: u64, letter: Letter, out: &mut Outbox) -> Result<(), NoMemory>
        ensures turned { OnOk result ((s : Settings) (p : ConnectionState) (word : ℕ) (sender : PartName) → Stands s p self.old → IsTaken self.old (LetterFrom now word sender letter) → Turned s p (LetterFrom now word sender letter) out.old out.new (λ q. Stands s q self.new)) }
        ensures out { OnErr result (IsSame out.old out.new) }
        ensures err { OnErr result (self.new ≡ self.old) }
    {
        if !self.core.is_linked() {
            return Ok(());
        }
        let at = self.core.moment_for(now);
        self.take(at, letter, out)?;
        self.drain(at, out);
        Ok(())
    }

    /// The clock moves.
    fn step_tick(&mut self, now: u64, out: &mut Outbox) -> Result<(), NoMemory>
        ensures turned { OnOk result ((s : Settings) (p : ConnectionState) → Stands s p self.old → Turned s p (Tick now) out.old out.new (λ q. Stands s q self.new)) }
        ensures out { OnErr result (IsSame out.old out.new) }
        ensures err { OnErr result (self.new ≡ self.old) }
    {
        if !self.core.is_linked() {
            return Ok(());
        }
        if self.core.is_down() {
            return Ok(());
        }
        let at = self.core.moment_for(now);
        self.tick(at, out)?;
        self.drain(at, out);
        Ok(())
    }
}

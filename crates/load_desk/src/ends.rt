ghost use Rattle.std.specs.Prelude.{◌≡◌, ◌∷◌, [], true, ℕ, List, Option, OnOk, OnErr};
ghost use Rattle.lload_names.specs.declared.names.Letter.TheVariants.{Returned, Ended};
ghost use Rattle.lload_names.specs.declared.names.What.TheVariants as what;
ghost use Rattle.lload_spec.specs.Settings.{Settings};
ghost use Rattle.lload_spec.specs.Choice.{DeskFacts};
ghost use Rattle.desk_choice.specs.Tells.{Tells};
ghost use Rattle.desk_rules.specs.Counts.{IsLess};
ghost use Rattle.desk_rules.specs.Latencies.{with_means, AreRings};
ghost use Rattle.load_desk.specs.States.{IsToldOf};

use crate::notes::note;
use crate::part::Desk;
use desk_choice::Tables;
use desk_rules::{ended, release};
use lload_names::{Letter, NoMemory, OpName, What};
use outbox::Outbox;

impl Desk {
    ghost use Rattle.part_spec.specs.DeskState.{DeskState};
    ghost use Rattle.part_spec.specs.Fit.{is_pending};
    ghost use Rattle.part_spec.specs.Inputs.{act};
    ghost use Rattle.part_spec.specs.Marked.{Taken};
    ghost use Rattle.load_desk.specs.Part.{Stands, IsTakenLetter};
    ghost use Rattle.load_desk.specs.Did.{Did};
    ghost use Rattle.load_desk.specs.States.{with_heard_at};
    ghost use Rattle.load_desk.specs.Turned.{IsSame};

    /// An operation comes back from its client: its choice came too late.
    pub(crate) fn hear_returned(
        &mut self,
        at: u64,
        op: OpName,
        conn: u32,
        out: &mut Outbox,
    ) -> Result<(), NoMemory>
        ensures did { OnOk result ((s : Settings) (p : DeskState) (mark : Option Taken) → Stands s p self.old → IsTakenLetter s p (Returned op conn) → Did s p at mark (act (what.Heard (Returned op conn) ∷ []) []) out.old out.new self.new) }
        ensures out { OnErr result (IsSame out.old out.new) }
        ensures err { OnErr result ((s : Settings) (p : DeskState) → Stands s p self.old → Stands s p self.new) }
    {
        out.reserve(1, 0)?;
        self.end(op, conn, None)?;
        self.moment = at;
        let letter = Letter::Returned { op, conn };
        note(at, What::Heard { letter }, out);
        Ok(())
    }

    /// An operation ended, and took so many milliseconds where that is told.
    pub(crate) fn hear_ended(
        &mut self,
        at: u64,
        op: OpName,
        conn: u32,
        latency: Option<u32>,
        out: &mut Outbox,
    ) -> Result<(), NoMemory>
        ensures did { OnOk result ((s : Settings) (p : DeskState) (mark : Option Taken) → Stands s p self.old → IsTakenLetter s p (Ended op conn latency) → Did s p at mark (act (what.Heard (Ended op conn latency) ∷ []) []) out.old out.new self.new) }
        ensures out { OnErr result (IsSame out.old out.new) }
        ensures err { OnErr result ((s : Settings) (p : DeskState) → Stands s p self.old → Stands s p self.new) }
    {
        out.reserve(1, 0)?;
        self.end(op, conn, latency)?;
        self.moment = at;
        let letter = Letter::Ended { op, conn, latency };
        note(at, What::Heard { letter }, out);
        Ok(())
    }

    /// An operation that is pending on a connection is so no more, and its latency is kept where it is told.
    fn end(&mut self, op: OpName, conn: u32, latency: Option<u32>) -> Result<(), NoMemory>
        ensures ended { OnOk result ((s : Settings) (p : DeskState) (at : ℕ) → Stands s p self.old → is_pending p op conn ≡ true → Stands s (with_heard_at s (Ended op conn latency) at p) (record self.new { moment = at })) }
        ensures err { OnErr result ((s : Settings) (p : DeskState) → Stands s p self.old → Stands s p self.new) }
    {
        lessen(&mut self.tables, conn, latency)?;
        self.pending.take(op);
        Ok(())
    }
}

/// One operation less is pending on a connection, and its latency is kept where it is told. For want of memory nothing
/// changes.
fn lessen(tables: &mut Tables, conn: u32, latency: Option<u32>) -> Result<(), NoMemory>
    ensures less { OnOk result ((s : Settings) (f : DeskFacts) (less : List ℕ) (before after : ℕ → List ℕ) → Tells s (with_means f before) tables.old → IsLess conn less f.pending → AreRings f.tiers before tables.old.rounds.items → IsToldOf s conn latency before after → Tells s (with_means (record f { pending = less }) after) tables.new) }
    ensures rings { OnOk result ((s : Settings) (f : DeskFacts) (less : List ℕ) (before after : ℕ → List ℕ) → Tells s (with_means f before) tables.old → IsLess conn less f.pending → AreRings f.tiers before tables.old.rounds.items → IsToldOf s conn latency before after → AreRings f.tiers after tables.new.rounds.items) }
    ensures err { OnErr result ((s : Settings) (f : DeskFacts) → Tells s f tables.old → Tells s f tables.new) }
    ensures rounds { OnErr result (tables.new.rounds ≡ tables.old.rounds) }
{
    match latency {
        None => release(tables, conn),
        Some(latency) => ended(tables, conn, latency),
    }
}

ghost use Rattle.std.specs.Prelude.{◌≡◌, ◌∷◌, [], ℕ, Option, OnOk, OnErr};
ghost use Rattle.lload_names.specs.declared.names.Letter.TheVariants.{IsUp, IsRetired, IsDown};
ghost use Rattle.lload_names.specs.declared.names.What.TheVariants as what;
ghost use Rattle.lload_spec.specs.Settings.{Settings};

use crate::notes::note;
use crate::part::Desk;
use desk_rules::{lost, up};
use lload_names::{Letter, NoMemory, What};
use outbox::Outbox;

impl Desk {
    ghost use Rattle.part_spec.specs.DeskState.{DeskState};
    ghost use Rattle.part_spec.specs.Inputs.{act};
    ghost use Rattle.part_spec.specs.Marked.{Taken};
    ghost use Rattle.load_desk.specs.Part.{Stands, IsTakenLetter};
    ghost use Rattle.load_desk.specs.Did.{Did};
    ghost use Rattle.load_desk.specs.States.{with_heard_at};
    ghost use Rattle.load_desk.specs.Turned.{IsSame};

    /// A connection is up.
    pub(crate) fn hear_up(&mut self, at: u64, conn: u32, out: &mut Outbox) -> Result<(), NoMemory>
        ensures did { OnOk result ((s : Settings) (p : DeskState) (mark : Option Taken) → Stands s p self.old → IsTakenLetter s p (IsUp conn) → Did s p at mark (act (what.Heard (IsUp conn) ∷ []) []) out.old out.new self.new) }
        ensures out { OnErr result (IsSame out.old out.new) }
        ensures err { OnErr result ((s : Settings) (p : DeskState) → Stands s p self.old → IsTakenLetter s p (IsUp conn) → Stands s p self.new) }
    {
        out.reserve(1, 0)?;
        self.see(conn)?;
        self.moment = at;
        let letter = Letter::IsUp { conn };
        note(at, What::Heard { letter }, out);
        Ok(())
    }

    /// A connection is viable from now on; one of an earlier plan isn't looked at.
    fn see(&mut self, conn: u32) -> Result<(), NoMemory>
        ensures seen { OnOk result ((s : Settings) (p : DeskState) (at : ℕ) → Stands s p self.old → IsTakenLetter s p (IsUp conn) → Stands s (with_heard_at s (IsUp conn) at p) (record self.new { moment = at })) }
        ensures err { OnErr result ((s : Settings) (p : DeskState) → Stands s p self.old → IsTakenLetter s p (IsUp conn) → Stands s p self.new) }
    {
        if conn <= self.base {
            return Ok(());
        }
        let Some(place) = self.plan.place_of(conn - self.base) else {
            return Ok(());
        };
        up(&mut self.tables, conn, place)
    }

    /// A connection takes no further operations.
    pub(crate) fn hear_retired(
        &mut self,
        at: u64,
        conn: u32,
        out: &mut Outbox,
    ) -> Result<(), NoMemory>
        ensures did { OnOk result ((s : Settings) (p : DeskState) (mark : Option Taken) → Stands s p self.old → Did s p at mark (act (what.Heard (IsRetired conn) ∷ []) []) out.old out.new self.new) }
        ensures out { OnErr result (IsSame out.old out.new) }
        ensures err { OnErr result ((s : Settings) (p : DeskState) → Stands s p self.old → Stands s p self.new) }
    {
        out.reserve(1, 0)?;
        lost(&mut self.tables, conn);
        self.moment = at;
        let letter = Letter::IsRetired { conn };
        note(at, What::Heard { letter }, out);
        Ok(())
    }

    /// A connection has ended.
    pub(crate) fn hear_down(&mut self, at: u64, conn: u32, out: &mut Outbox) -> Result<(), NoMemory>
        ensures did { OnOk result ((s : Settings) (p : DeskState) (mark : Option Taken) → Stands s p self.old → Did s p at mark (act (what.Heard (IsDown conn) ∷ []) []) out.old out.new self.new) }
        ensures out { OnErr result (IsSame out.old out.new) }
        ensures err { OnErr result ((s : Settings) (p : DeskState) → Stands s p self.old → Stands s p self.new) }
    {
        out.reserve(1, 0)?;
        lost(&mut self.tables, conn);
        self.moment = at;
        let letter = Letter::IsDown { conn };
        note(at, What::Heard { letter }, out);
        Ok(())
    }
}

ghost use Rattle.std.specs.Prelude.{◌≡◌, true, ℕ, None, OnOk, OnErr};
ghost use Rattle.lload_names.specs.Plans.{IsPlan};
ghost use Rattle.lload_spec.specs.Settings.{Settings};

use crate::notes::note;
use crate::part::Desk;
use crate::raises::raised;
use desk_rules::fresh;
use lload_names::{DeskPlan, NoMemory, What};
use lload_reload::backends_in;
use outbox::Outbox;

impl Desk {
    ghost use Rattle.part_spec.specs.DeskState.{DeskState};
    ghost use Rattle.part_spec.specs.DeskTurn.{reloads};
    ghost use Rattle.load_desk.specs.Part.{Stands, is_next};
    ghost use Rattle.load_desk.specs.Plans.{count_with};
    ghost use Rattle.load_desk.specs.Did.{Did};
    ghost use Rattle.load_desk.specs.Turned.{IsSame};

    /// The desk goes on to another plan, where its numbers stay within 32 bits: what was chosen and told before counts no
    /// more.
    pub(crate) fn go_on_to(
        &mut self,
        at: u64,
        plan: DeskPlan,
        base: u32,
        out: &mut Outbox,
    ) -> Result<(), NoMemory>
        requires plan { IsPlan plan }
        ensures did { OnOk result ((s : Settings) (p : DeskState) → Stands s p self.old → is_next s p plan base ≡ true → Did s p at None (reloads s p plan base) out.old out.new self.new) }
        ensures out { OnErr result (IsSame out.old out.new) }
        ensures err { OnErr result ((s : Settings) (p : DeskState) → Stands s p self.old → Stands s p self.new) }
    {
        let Some(backends) = self.count_with(&plan, base) else {
            return Ok(());
        };
        let Some(number) = self.number.checked_add(1) else {
            return Err(NoMemory);
        };
        out.reserve(1, 0)?;
        let numbered = raised(self.alloc, &plan, self.backends)?;
        self.tables = fresh(self.alloc, &numbered)?;
        self.plan = numbered;
        self.base = base;
        self.backends = backends;
        self.number = number;
        self.moment = at;
        let plan = number;
        note(at, What::Replanned { plan, base }, out);
        Ok(())
    }

    /// How many backends there are with those of another plan; `None` exactly where its numbers don't stay within 32 bits.
    fn count_with(&self, plan: &DeskPlan, base: u32) -> Option<u32>
        requires { IsPlan plan.now }
        ensures { result ≡ count_with self.now.backends base plan.now }
    {
        let greatest = u32::MAX as u64;
        let backends = self.backends as u64 + backends_in(plan) as u64;
        if base as u64 + plan.place_count() > greatest || backends > greatest {
            return None;
        }
        Some(backends as u32)
    }
}

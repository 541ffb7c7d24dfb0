ghost use Rattle.std.specs.Prelude.{◌≡◌, IfOk};
ghost use Rattle.lload_spec.specs.Settings.{Settings};
ghost use Rattle.lload_names.specs.Plans.{IsPlan};

use crate::part::Desk;
use crate::raises::raised;
use desk_rules::fresh;
use desk_tables::Pending;
use lload_names::{DeskPlan, NoMemory};
use lload_reload::backends_in;
use std::alloc::Global;

impl Desk {
    ghost use Rattle.lload_names.specs.declared.inputs.Input.{Input};
    ghost use Rattle.part_spec.specs.DeskState.{DeskState, empty_desk};
    ghost use Rattle.part_spec.specs.DeskTurn.{desk_turn};
    ghost use Rattle.load_desk.specs.Part.{Stands, BeginsWith};
    ghost use Rattle.load_desk.specs.Turned.{most_of_a_turn, IsWithin};

    /// The desk of a run that begins with a plan. For want of memory nothing is made.
    pub fn new(alloc: Global, plan: DeskPlan) -> Result<Desk, NoMemory>
        requires { IsPlan plan }
        ensures { IfOk result (λ d. (s : Settings) → BeginsWith s plan → Stands s empty_desk d) }
    {
        let backends = backends_in(&plan);
        let numbered = raised(alloc, &plan, 0)?;
        let tables = fresh(alloc, &numbered)?;
        Ok(Desk {
            moment: 0,
            number: 1,
            plan: numbered,
            base: 0,
            backends,
            tables,
            pending: Pending::new(alloc),
            alloc,
        })
    }

    /// How many entries, and how many letters, a step gives at most. It takes no memory.
    pub fn most(&self) -> u64
        ensures most { result ≡ most_of_a_turn }
        ensures step { (s : Settings) (p : DeskState) (input : Input) → IsWithin result (desk_turn s p input) }
    {
        2
    }
}

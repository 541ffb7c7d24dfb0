ghost use Rattle.std.specs.Prelude.{◌≡◌, ◌≤◌, ◌+◌, ℕ, length, map, slice_get, IfOk};
ghost use Rattle.std.specs.Option.{ForSome};
ghost use Rattle.lload_names.specs.Plans.{backends_of, raised, raised_backend, greatest_number, IsPlan};

use lload_names::{BackendPlan, BackendPlans, DeskPlan, NoMemory, TierPlan};
use std::alloc::Global;

/// A plan with its backends numbered behind so many others. For want of memory nothing is made.
pub(crate) fn raised(alloc: Global, plan: &DeskPlan, before: u32) -> Result<DeskPlan, NoMemory>
    requires plan { IsPlan plan.now }
    requires numbers { before + length (backends_of plan.now) ≤ greatest_number }
    ensures { IfOk result (λ p. p ≡ map (raised before) plan.now) }
{
    let mut raised = DeskPlan::new(alloc);
    for tier in plan.as_slice() {
        raised.push(TierPlan {
            kind: tier.kind,
            backends: raised_backends(alloc, &tier.backends, before)?,
        })?;
    }
    Ok(raised)
}

/// The same for the backends of a tier.
fn raised_backends(
    alloc: Global,
    backends: &BackendPlans,
    before: u32,
) -> Result<BackendPlans, NoMemory>
    requires { (j : ℕ) → ForSome (slice_get backends.now j) (λ b. before + b.number ≤ greatest_number) }
    ensures { IfOk result (λ bs. bs ≡ map (raised_backend before) backends.now) }
{
    let mut raised = BackendPlans::new(alloc);
    for backend in backends.as_slice() {
        raised.push(BackendPlan {
            number: before + backend.number,
            ..*backend
        })?;
    }
    Ok(raised)
}

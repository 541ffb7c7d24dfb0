ghost use Rattle.std.specs.Prelude.{IfOk};
ghost use Rattle.lload_names.specs.Plans.{IsPlan};

use super::*;
use lload_names::{BackendPlan, ConnKind, DeskPlan, Listed, NoMemory, Place, TierKind, TierPlan};
use std::alloc::Global;
use std::test::Fail;

const BACKEND: BackendPlan = BackendPlan {
    number: 1,
    weight: 0,
    numconns: 1,
    bindconns: 0,
    max_pending: 0,
    conn_max_pending: 0,
};

/// One tier with one backend of one connection.
fn one_backend(alloc: Global) -> Result<DeskPlan, NoMemory>
    ensures { IfOk result IsPlan }
{
    let mut backends = Listed::new(alloc);
    backends.push(BACKEND)?;
    let mut plan = DeskPlan::new(alloc);
    plan.push(TierPlan {
        kind: TierKind::RoundRobin,
        backends,
    })?;
    Ok(plan)
}

/// One tier with two such backends.
fn two_backends(alloc: Global) -> Result<DeskPlan, NoMemory>
    ensures { IfOk result IsPlan }
{
    let mut backends = Listed::new(alloc);
    backends.push(BACKEND)?;
    backends.push(BackendPlan {
        number: 2,
        ..BACKEND
    })?;
    let mut plan = DeskPlan::new(alloc);
    plan.push(TierPlan {
        kind: TierKind::RoundRobin,
        backends,
    })?;
    Ok(plan)
}

fn regular(place: u32, backend: u32, generation: u32) -> Option<Place> {
    Some(Place {
        place,
        backend,
        kind: ConnKind::Regular,
        generation,
    })
}

#[test]
fn a_later_plan_is_for_connections_above_its_base(rt: HostRuntime) -> Result<(), Fail> {
    let alloc = rt.alloc();
    let mut plans = Plans::new(alloc, one_backend(alloc)?)?;
    assert_eq!(rt; plans.place_of(0), None);
    assert_eq!(rt; plans.place_of(2), regular(1, 1, 1));
    assert_eq!(rt; plans.add(two_backends(alloc)?, 1)?, true);
    assert_eq!(rt; plans.place_of(1), regular(1, 1, 0));
    assert_eq!(rt; plans.place_of(2), regular(1, 2, 0));
    assert_eq!(rt; plans.place_of(3), regular(2, 3, 0));
    assert_eq!(rt; plans.place_of(4), regular(1, 2, 1));
    Ok(())
}

#[test]
fn the_later_of_two_plans_with_one_base_is_taken(rt: HostRuntime) -> Result<(), Fail> {
    let alloc = rt.alloc();
    let mut plans = Plans::new(alloc, one_backend(alloc)?)?;
    assert_eq!(rt; plans.add(two_backends(alloc)?, 0)?, true);
    assert_eq!(rt; plans.place_of(1), regular(1, 2, 0));
    Ok(())
}

#[test]
fn a_plan_without_numbers_changes_nothing(rt: HostRuntime) -> Result<(), Fail> {
    let alloc = rt.alloc();
    let mut plans = Plans::new(alloc, one_backend(alloc)?)?;
    assert_eq!(rt; plans.add(two_backends(alloc)?, 4294967294)?, false);
    assert_eq!(rt; plans.place_of(4294967295), regular(1, 1, 4294967294));
    assert_eq!(rt; plans.add(one_backend(alloc)?, 4294967294)?, true);
    assert_eq!(rt; plans.place_of(4294967295), regular(1, 2, 0));
    Ok(())
}

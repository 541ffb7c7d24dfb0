ghost use Rattle.std.specs.Prelude.{◌≡◌, ◌≤◌, length, IfOk};
ghost use Rattle.lload_names.specs.Plans.{backends_of, rooms_of, place_count};

use super::*;
use lload_names::{
    Answer, BackendPlan, Bound, ConnKind, DeskPlan, Listed, NoMemory, TierKind, TierPlan, Want,
};
use std::alloc::Global;
use std::test::Fail;

/// A tier of one backend, with two regular places and a bind place.
fn tier(alloc: Global, number: u32) -> Result<TierPlan, NoMemory>
    ensures backends { IfOk result (λ tier. length tier.backends ≡ 1) }
    ensures places { IfOk result (λ tier. length (rooms_of tier.backends) ≡ 3) }
{
    let mut backends = Listed::new(alloc);
    backends.push(BackendPlan {
        number,
        weight: 1,
        numconns: 2,
        bindconns: 1,
        max_pending: 0,
        conn_max_pending: 0,
    })?;
    Ok(TierPlan {
        kind: TierKind::RoundRobin,
        backends,
    })
}

fn two_tiers(alloc: Global) -> Result<DeskPlan, NoMemory>
    ensures few { IfOk result (λ plan. length (backends_of plan) ≤ 64) }
    ensures places { IfOk result (λ plan. place_count plan ≤ 512) }
{
    let mut tiers = Listed::new(alloc);
    tiers.push(tier(alloc, 1)?)?;
    tiers.push(tier(alloc, 2)?)?;
    Ok(tiers)
}

#[test]
fn connections_of_a_new_plan_are_chosen_in_turn(rt: HostRuntime) -> Result<(), Fail> {
    let plan = two_tiers(rt.alloc())?;
    let mut tables = fresh(rt.alloc(), &plan)?;
    let want = Want {
        kind: ConnKind::Regular,
        bound: Bound::Free,
    };
    assert_eq!(rt; tables.answer(want, 0), Answer::Unavailable);
    for conn in 3..=5 {
        let place = plan.place_of(conn).ok_or("no place")?;
        up(&mut tables, conn, place)?;
    }
    assert_eq!(rt;
        tables.answer(want, 0),
        Answer::Go {
            conn: 4,
            backend: 2
        }
    );
    turn_to(&mut tables, 4);
    assert_eq!(rt;
        tables.answer(want, 0),
        Answer::Go {
            conn: 5,
            backend: 2
        }
    );
    turn_to(&mut tables, 5);
    assert_eq!(rt;
        tables.answer(want, 0),
        Answer::Go {
            conn: 4,
            backend: 2
        }
    );
    Ok(())
}

use super::*;
use lload_names::{BackendPlan, ConnKind, Listed, NoMemory, OpName, Place, TierKind, TierPlan};
use std::alloc::Global;
use std::test::Fail;
use tier_select::Flags;

fn conn(viable: bool, pending: u64) -> Conn {
    Conn {
        place: Place {
            place: 2,
            backend: 1,
            kind: ConnKind::Regular,
            generation: 0,
        },
        spot: Spot {
            server: 0,
            tier: 0,
            place: 0,
        },
        most: 2,
        viable,
        pending,
    }
}

#[test]
fn a_row_is_kept_while_it_says_something(rt: HostRuntime) -> Result<(), Fail> {
    let mut conns = Conns::new(rt.alloc());
    conns.put(7, conn(true, 0))?;
    let row = conns.row(7).ok_or("no row")?;
    assert_eq!(rt; row.is_ready(), true);
    assert_eq!(rt; row.index(), 1);
    conns.keep(7, conn(false, 1));
    assert_eq!(rt; conns.row(7).is_some(), true);
    conns.keep(7, conn(false, 0));
    assert_eq!(rt; conns.row(7).is_none(), true);
    Ok(())
}

/// A tier of one backend.
fn round_of(alloc: Global) -> Result<Round, NoMemory> {
    let mut backends = Listed::new(alloc);
    backends.push(BackendPlan {
        number: 1,
        weight: 1,
        numconns: 0,
        bindconns: 0,
        max_pending: 0,
        conn_max_pending: 0,
    })?;
    let plan = TierPlan {
        kind: TierKind::RoundRobin,
        backends,
    };
    Round::new(alloc, &plan, 3)
}

#[test]
fn a_tier_of_one_backend_picks_it(rt: HostRuntime) -> Result<(), Fail> {
    let mut round = round_of(rt.alloc())?;
    let mut eligible = Flags::new();
    assert_eq!(rt; round.choose(&eligible, 0), None);
    eligible.set(0, true);
    assert_eq!(rt; round.choose(&eligible, 0), Some(0));
    round.picked(0);
    round.heard(0, 5);
    assert_eq!(rt; round.first(), 3);
    assert_eq!(rt; round.count(), 1);
    Ok(())
}

#[test]
fn an_operation_is_pending_on_one_connection(rt: HostRuntime) -> Result<(), Fail> {
    let search = OpName { client: 1, k: 4 };
    let bind = OpName { client: 2, k: 1 };
    let mut pending = Pending::new(rt.alloc());
    assert_eq!(rt; pending.put(search, 7, ConnKind::Regular)?, true);
    assert_eq!(rt; pending.put(bind, 3, ConnKind::Bind)?, true);
    assert_eq!(rt; pending.put(search, 3, ConnKind::Bind)?, false);
    assert_eq!(rt; pending.take(bind), Some(3));
    assert_eq!(rt; pending.take(bind), None);
    assert_eq!(rt; pending.take(search), Some(7));
    Ok(())
}

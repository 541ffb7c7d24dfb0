ghost use Rattle.std.specs.Prelude.{IfOk};
ghost use Rattle.lload_names.specs.Plans.{IsPlan};

use super::*;
use lload_names::{
    Answer, BackendPlan, Bound, ConnKind, DeskPlan, Input, Letter, Listed, NoMemory, OpName,
    PartName, TierKind, TierPlan, Want,
};
use outbox::Outbox;
use std::alloc::Global;
use std::test::Fail;

/// One tier with one backend of one connection.
fn one_backend(alloc: Global) -> Result<DeskPlan, NoMemory>
    ensures { IfOk result IsPlan }
{
    let mut backends = Listed::new(alloc);
    backends.push(BackendPlan {
        number: 1,
        weight: 0,
        numconns: 1,
        bindconns: 0,
        max_pending: 0,
        conn_max_pending: 0,
    })?;
    let mut plan = DeskPlan::new(alloc);
    plan.push(TierPlan {
        kind: TierKind::RoundRobin,
        backends,
    })?;
    Ok(plan)
}

/// A connection is up, and then a client wants one.
fn up_and_asked(desk: &mut Desk, conn: u32, k: u64, out: &mut Outbox) -> Result<(), NoMemory> {
    desk.step(
        Input::LetterFrom {
            now: 5,
            word: 0,
            sender: PartName::Up(conn),
            letter: Letter::IsUp { conn },
        },
        out,
    )?;
    desk.step(
        Input::LetterFrom {
            now: 6,
            word: 0,
            sender: PartName::Client(1),
            letter: Letter::Ask {
                op: OpName { client: 1, k },
                want: Want {
                    kind: ConnKind::Regular,
                    bound: Bound::Free,
                },
            },
        },
        out,
    )
}

/// The answer that was told last.
fn last_answer(out: &Outbox) -> Option<Answer> {
    match out.letters.as_slice().last()?.letter {
        Letter::Choice { answer, .. } => Some(answer),
        _ => None,
    }
}

#[test]
fn the_connection_that_is_up_is_chosen(rt: HostRuntime) -> Result<(), Fail> {
    let mut desk = Desk::new(rt.alloc(), one_backend(rt.alloc())?)?;
    let mut out = Outbox::new(rt.alloc());
    up_and_asked(&mut desk, 1, 1, &mut out)?;
    assert_eq!(rt; desk.most(), 2);
    assert_eq!(rt; out.entries.len(), 3);
    assert_eq!(rt;
        last_answer(&out),
        Some(Answer::Go {
            conn: 1,
            backend: 1
        })
    );
    Ok(())
}

#[test]
fn behind_a_reload_the_choice_is_by_the_new_plan(rt: HostRuntime) -> Result<(), Fail> {
    let mut desk = Desk::new(rt.alloc(), one_backend(rt.alloc())?)?;
    let mut out = Outbox::new(rt.alloc());
    let plan = one_backend(rt.alloc())?;
    desk.step(
        Input::Reload {
            now: 7,
            plan,
            base: 1,
        },
        &mut out,
    )?;
    up_and_asked(&mut desk, 1, 1, &mut out)?;
    assert_eq!(rt; last_answer(&out), Some(Answer::Unavailable));
    up_and_asked(&mut desk, 2, 2, &mut out)?;
    assert_eq!(rt;
        last_answer(&out),
        Some(Answer::Go {
            conn: 2,
            backend: 2
        })
    );
    Ok(())
}

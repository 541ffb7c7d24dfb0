use super::*;
use crate::laws::{Call, ListTable, run};
use lload_names::{Body, OpKind, OpName};
use std::alloc::Global;
use std::test::Fail;

fn op(k: u64) -> OpName {
    OpName { client: 1, k }
}

/// Gives an identifier to an operation, where one is left; 0 where none is.
fn given(table: &mut IdTable, k: u64) -> Result<u32, Fail> {
    if table.at_limit() {
        return Ok(0);
    }
    Ok(table.give(op(k), OpKind::Delete, false, 40)?)
}

/// Gives the next identifier to an own message, where one is left; 0 where none is.
fn own(table: &mut IdTable) -> u32 {
    if table.at_limit() { 0 } else { table.own() }
}

/// The next number of a linear congruence of 64 bits.
fn next_random(random: u64) -> u64 {
    random
        .wrapping_mul(6_364_136_223_846_793_005)
        .wrapping_add(1_442_695_040_888_963_407)
}

/// The call that a drawn number means: every second one gives an identifier, and the others are for one of the
/// identifiers that may have been given.
fn drawn_call(alloc: Global, random: u64, k: u64) -> Result<Call, Fail> {
    let id = (random >> 40) as u32 % 1000;
    Ok(match random >> 61 {
        0 => Call::End(id),
        1 => Call::Finish(id),
        2 => Call::Touch { id, now: k },
        3 => {
            let rest = Body::from_slice(alloc, b"\x61")?;
            let kept = Kept { rest, who: 7 };
            Call::Keep { id, now: k, kept }
        }
        4 => Call::Own,
        _ => Call::Give {
            op: op(k),
            kind: OpKind::Search,
            ask_who: false,
            now: k,
        },
    })
}

/// Drawn calls by their number; behind each hundredth, each row that may be live is looked up by its identifier and by
/// its operation.
fn drawn_calls(alloc: Global, count: u64) -> Result<Vec<Call>, Fail> {
    let mut calls = Vec::new(alloc);
    let mut random = 1u64;
    for k in 0..count {
        random = next_random(random);
        calls.push(drawn_call(alloc, random, k)?)?;
        if k % 100 == 99 {
            for id in 0..1200 {
                calls.push(Call::Row(id))?;
            }
            for other in 0..=k {
                calls.push(Call::Find(op(other)))?;
            }
            calls.push(Call::AtLimit)?;
        }
    }
    Ok(calls)
}

#[test]
fn two_thousand_calls_leave_the_same_rows_in_both_forms(rt: HostRuntime) -> Result<(), Fail> {
    let calls = drawn_calls(rt.alloc(), 2000)?;
    let mut table = IdTable::new(rt.alloc(), 1_073_741_823)?;
    let mut list = ListTable::new(rt.alloc(), 1_073_741_823)?;
    let answers = run(rt.alloc(), &mut table, calls.as_slice())?;
    let others = run(rt.alloc(), &mut list, calls.as_slice())?;
    assert_eq!(rt; answers.len(), calls.len());
    assert!(rt; 100 < table.len());
    for (answer, other) in answers.iter().zip(others.iter()) {
        let text = format!(in rt.alloc(); "{answer:?}")?;
        assert_eq!(rt; text, format!(in rt.alloc(); "{other:?}")?);
    }
    Ok(())
}

#[test]
fn an_answered_identifier_is_given_again(rt: HostRuntime) -> Result<(), Fail> {
    let mut table = IdTable::new(rt.alloc(), 100)?;
    assert_eq!(rt; given(&mut table, 1)?, 1);
    assert!(rt; table.finish(1).is_some());
    assert_eq!(rt; given(&mut table, 2)?, 1);
    Ok(())
}

#[test]
fn the_identifier_that_was_freed_first_is_given_first(rt: HostRuntime) -> Result<(), Fail> {
    let mut table = IdTable::new(rt.alloc(), 100)?;
    assert_eq!(rt; given(&mut table, 1)?, 1);
    assert_eq!(rt; given(&mut table, 2)?, 2);
    assert!(rt; table.finish(2).is_some());
    assert!(rt; table.finish(1).is_some());
    assert_eq!(rt; given(&mut table, 3)?, 2);
    assert_eq!(rt; given(&mut table, 4)?, 1);
    assert_eq!(rt; given(&mut table, 5)?, 3);
    Ok(())
}

#[test]
fn a_dropped_identifier_is_never_given_again(rt: HostRuntime) -> Result<(), Fail> {
    let mut table = IdTable::new(rt.alloc(), 100)?;
    assert_eq!(rt; given(&mut table, 1)?, 1);
    assert!(rt; table.end(1).is_some());
    assert_eq!(rt; own(&mut table), 2);
    assert_eq!(rt; given(&mut table, 2)?, 3);
    assert!(rt; table.finish(1).is_none());
    assert!(rt; table.finish(3).is_some());
    assert_eq!(rt; given(&mut table, 3)?, 3);
    Ok(())
}

#[test]
fn a_row_carries_what_its_part_must_know(rt: HostRuntime) -> Result<(), Fail> {
    let mut table = IdTable::new(rt.alloc(), 2)?;
    let id = table.give(op(1), OpKind::Bind, true, 40)?;
    table.touch(id, 50);
    assert_eq!(rt;
        table.row(id).map(|row| (row.ask_who, row.sent, row.last)),
        Some((true, 40, 50))
    );
    let who = table.own();
    let rest = Body::from_slice(rt.alloc(), b"\x61")?;
    table.keep(id, 60, Kept { rest, who });
    assert_eq!(rt; table.find(op(1)), Some(id));
    assert_eq!(rt; table.find(op(2)), None);
    assert!(rt; table.at_limit());
    let kept = table.finish(id).and_then(|row| row.kept);
    assert_eq!(rt; kept.map(|kept| kept.who), Some(2));
    assert!(rt; table.row(id).is_none());
    Ok(())
}

use super::*;
use std::test::Fail;

#[test]
fn an_answer_puts_the_deadline_off(rt: HostRuntime) -> Result<(), Fail> {
    let mut deadlines = Deadlines::new(rt.alloc(), 30);
    deadlines.start(7, 0)?;
    deadlines.touch(7, 20000);
    assert_eq!(rt; deadlines.first_due(49999), None);
    assert_eq!(rt; deadlines.first_due(50000), Some(7));
    deadlines.stop(7);
    assert_eq!(rt; deadlines.first_due(50000), None);
    Ok(())
}

#[test]
fn a_thousand_identifiers_are_due_in_their_order(rt: HostRuntime) -> Result<(), Fail> {
    let mut deadlines = Deadlines::new(rt.alloc(), 1);
    for id in 1..1001 {
        deadlines.start(id, 0)?;
        deadlines.start(id, 1)?;
    }
    assert_eq!(rt; deadlines.first_due(1000), None);
    let due = deadlines.all_due(1001)?;
    assert_eq!(rt; due.len(), 1000);
    assert_eq!(rt; due.first(), Some(&1));
    assert_eq!(rt; due.last(), Some(&1000));
    for id in 1..1001 {
        assert_eq!(rt; deadlines.first_due(1001), Some(id));
        deadlines.stop(id);
    }
    assert_eq!(rt; deadlines.first_due(1001), None);
    Ok(())
}

#[test]
fn identifiers_wait_in_any_order(rt: HostRuntime) -> Result<(), Fail> {
    let mut deadlines = Deadlines::new(rt.alloc(), 1);
    for k in 0..1009 {
        deadlines.start(k * 353 % 1009 * 4_000_000, 1)?;
    }
    deadlines.touch(0, 2);
    deadlines.touch(12_000_000, 0);
    assert_eq!(rt; deadlines.first_due(999), None);
    assert_eq!(rt; deadlines.first_due(1000), Some(12_000_000));
    assert_eq!(rt; deadlines.first_due(1001), Some(4_000_000));
    assert_eq!(rt; deadlines.first_due(1002), Some(0));
    for k in 0..1008 {
        deadlines.stop(k * 4_000_000);
    }
    assert_eq!(rt; deadlines.first_due(1001), Some(4_032_000_000));
    Ok(())
}

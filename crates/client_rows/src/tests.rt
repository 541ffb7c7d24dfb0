use super::*;
use lload_names::{Body, OpKind};
use restrictions::Action;
use std::test::Fail;

#[test]
fn operations_come_go_and_wait(rt: HostRuntime) -> Result<(), Fail> {
    let alloc = rt.alloc();
    let mut operations = Operations::new(alloc);
    for id in [7, 9] {
        let count = operations.count();
        if count < 2 && operations.under(id).is_none() {
            operations.push(Row {
                k: count + 1,
                id,
                kind: OpKind::Delete,
                action: Action::Backend,
                restricts: count == 1,
                who: None,
                way: Way::Waits(Body::from_slice(alloc, b"\x4A\x00")?),
            })?;
        }
    }
    assert_eq!(rt; operations.len(), 2);
    assert!(rt; operations.is_waiting());
    let rest = operations.send(2, 5);
    assert!(rt; rest.is_some_and(|body| body.as_slice() == b"\x4A\x00".as_slice()));
    assert!(rt; !operations.is_waiting());
    assert_eq!(rt; operations.under(9).map(|row| row.k), Some(2));
    assert_eq!(rt; operations.take(1).map(|row| row.id), Some(7));
    assert!(rt; operations.of(1).is_none());
    let count = operations.count();
    if count == 2 {
        let ended = operations.replace(Row {
            k: count + 1,
            id: 7,
            kind: OpKind::Bind,
            action: Action::Ignore,
            restricts: false,
            who: None,
            way: Way::Went(6),
        })?;
        assert_eq!(rt; ended.len(), 1);
    }
    assert_eq!(rt; operations.len(), 1);
    assert!(rt; operations.is_waiting(), "a Bind always lets others wait");
    if operations.count() == 3 {
        operations.pass();
    }
    assert_eq!(rt; operations.count(), 4);
    operations.clear();
    assert_eq!(rt; operations.len(), 0);
    Ok(())
}

use super::*;
use lload_names::{ConnKind, OpKind, OpName};
use outbox::Outbox;
use std::test::Fail;

#[test]
fn an_operation_that_was_sent_falls_due(rt: HostRuntime) -> Result<(), Fail> {
    let mut conn = ConnCore::new(rt.alloc(), 5, ConnKind::Regular, 100, 10)?;
    let id = conn.send(7, OpName { client: 1, k: 1 }, OpKind::Delete, false)?;
    assert_eq!(rt; id, 1);
    assert_eq!(rt; conn.all_due(10_007)?.len(), 1);
    Ok(())
}

#[test]
fn room_is_made_for_an_end(rt: HostRuntime) -> Result<(), Fail> {
    let conn = ConnCore::new(rt.alloc(), 5, ConnKind::Bind, 100, 10)?;
    conn.reserve_end(1, 2, &mut Outbox::new(rt.alloc()))?;
    Ok(())
}

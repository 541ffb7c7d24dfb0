use super::*;
use lload_names::OpName;
use std::test::Fail;

#[test]
fn a_connection_has_one_holder_until_it_gives_it_back(rt: HostRuntime) -> Result<(), Fail> {
    let first = OpName { client: 1, k: 1 };
    let second = OpName { client: 2, k: 1 };
    let mut pool = BindPool::new(rt.alloc());
    assert_eq!(rt; pool.take(3, first)?, true);
    assert_eq!(rt; pool.take(3, second)?, false);
    assert_eq!(rt; pool.take(1, second)?, true);
    assert_eq!(rt; pool.held_by(first), Some(3));
    assert_eq!(rt; pool.held_by(second), Some(1));
    assert_eq!(rt; pool.give(3, second), false);
    assert_eq!(rt; pool.give(3, first), true);
    assert_eq!(rt; pool.holder(3), None);
    assert_eq!(rt; pool.held_by(first), None);
    assert_eq!(rt; pool.holder(1), Some(second));
    Ok(())
}

#[test]
fn a_thousand_connections_have_their_holders(rt: HostRuntime) -> Result<(), Fail> {
    let mut pool = BindPool::new(rt.alloc());
    for conn in 1..1001 {
        let op = OpName { client: conn, k: 1 };
        assert_eq!(rt; pool.take(conn, op)?, true);
    }
    for conn in 1..1001 {
        let op = OpName { client: conn, k: 1 };
        assert_eq!(rt; pool.holder(conn), Some(op));
        assert_eq!(rt; pool.take(conn, op)?, false);
    }
    Ok(())
}

use super::*;
use lload_conf::read;
use std::test::Fail;

// A backend with two places.
const TWO_PLACES: &[u8] =
    b"tier roundrobin\nbackend-server uri=ldap://127.0.0.1 numconns=1 bindconns=1 retry=5000\n";

#[test]
fn a_connection_that_ended_is_followed_by_the_next_one_after_retry(
    rt: HostRuntime,
) -> Result<(), Fail> {
    let config = read(rt.alloc(), TWO_PLACES)?;
    let mut places = Places::new(rt.alloc(), &config)?;
    let first = places.due(0).ok_or("none is due")?;
    assert_eq!(rt; first, 1);
    places.linked(first);
    let second = places.due(0).ok_or("none is due")?;
    assert_eq!(rt; second, 2);
    places.linked(second);
    assert_eq!(rt; places.due(9_999_999), None);
    places.lost(second, 100);
    assert_eq!(rt; places.due(5099), None);
    assert_eq!(rt; places.due(5100), Some(4));
    assert!(rt; places.is_turn_of(1));
    assert!(rt; !places.is_turn_of(2));
    assert!(rt; !places.is_turn_of(0));
    Ok(())
}

#[test]
fn a_connection_that_failed_is_tried_again_under_its_number(rt: HostRuntime) -> Result<(), Fail> {
    let config = read(rt.alloc(), TWO_PLACES)?;
    let mut places = Places::new(rt.alloc(), &config)?;
    let first = places.due(100).ok_or("none is due")?;
    places.lost(first, 100);
    assert_eq!(rt; places.due(5099), Some(2));
    assert_eq!(rt; places.due(5100), Some(1));
    Ok(())
}

use super::*;
use std::test::Fail;

#[test]
fn the_first_place_in_turn_gives_its_greatest_connection(rt: HostRuntime) -> Result<(), Fail> {
    let mut ready = Ready::new(rt.alloc());
    ready.put(0, 1)?;
    ready.put(2, 3)?;
    ready.put(2, 9)?;
    ready.put(5, 6)?;
    assert_eq!(rt; ready.next_in_turn(None, 0, 4), Some(1));
    assert_eq!(rt; ready.next_in_turn(Some(0), 0, 4), Some(9));
    assert_eq!(rt; ready.next_in_turn(Some(2), 0, 4), Some(1));
    ready.take(2, 9);
    assert_eq!(rt; ready.next_in_turn(Some(0), 0, 4), Some(3));
    assert_eq!(rt; ready.next_in_turn(None, 3, 5), None);
    Ok(())
}

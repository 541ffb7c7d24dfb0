use super::*;
use lload_names::Bound;
use std::test::Fail;

#[test]
fn a_write_binds_until_the_window_is_over(rt: HostRuntime) -> Result<(), Fail> {
    let mut window = Window::new(5);
    window.chosen(Hold::Write, 1, 1);
    if window.live() > 0 {
        window.write_ended(0);
    }
    assert_eq!(rt; window.live(), 0);
    assert_eq!(rt; window.target(4999), Bound::Backend(1));
    assert_eq!(rt; window.target(5000), Bound::Free);
    Ok(())
}

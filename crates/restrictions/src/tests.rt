use super::*;
use ldap_messages::classify;
use std::test::Fail;

const DELETE: &[u8] = b"\x4A\x03o=a";

const DELETE_NOTED: &[u8] = b"\x4A\x03o=a\xA0\x09\x30\x07\x04\x051.2.3";

const COMPARE_NOTED: &[u8] = b"\x6E\x00\xA0\x12\x30\x07\x04\x051.2.3\x30\x07\x04\x051.2.4";

const EXTENDED: &[u8] = b"\x77\x07\x80\x051.2.3";

const OTHER_EXTENDED: &[u8] = b"\x77\x07\x80\x051.2.4";

const EXTENDED_NOTED: &[u8] = b"\x77\x07\x80\x051.2.4\xA0\x09\x30\x07\x04\x051.2.3";

fn effective(table: &Restrictions, rest: &[u8]) -> Option<Action> {
    let request = classify(rest)?;
    Some(table.effective(&request, rest))
}

#[test]
fn requests_begin_with_their_own_action(rt: HostRuntime) -> Result<(), Fail> {
    let none = Restrictions::new(rt.alloc());
    assert_eq!(rt; effective(&none, DELETE), Some(Action::Write));
    assert_eq!(rt; effective(&none, DELETE_NOTED), Some(Action::Write));
    assert_eq!(rt; effective(&none, COMPARE_NOTED), Some(Action::Ignore));
    assert_eq!(rt; effective(&none, EXTENDED), Some(Action::Ignore));
    Ok(())
}

#[test]
fn the_highest_of_the_controls_counts(rt: HostRuntime) -> Result<(), Fail> {
    let mut table = Restrictions::new(rt.alloc());
    assert_eq!(rt; table.set_control(b"1.2.3", Action::Connection)?, true);
    assert_eq!(rt; table.set_control(b"1.2.4", Action::Backend)?, true);
    assert_eq!(rt;
        table.set_control(b"1.2.3", Action::Reject)?,
        false,
        "an OID is restricted once"
    );
    let copy = table.copy()?;
    assert_eq!(rt; effective(&copy, DELETE_NOTED), Some(Action::Connection));
    assert_eq!(rt; effective(&copy, COMPARE_NOTED), Some(Action::Connection));
    assert_eq!(rt; effective(&copy, DELETE), Some(Action::Write));
    assert!(rt; copy.has_control(b"1.2.4"));
    assert!(rt; !copy.has_exop(b"1.2.4"));
    assert_eq!(rt;
        effective(&copy, EXTENDED_NOTED),
        Some(Action::Ignore),
        "an Extended request has none of a control's"
    );
    Ok(())
}

#[test]
fn an_extended_request_has_the_action_of_its_name(rt: HostRuntime) -> Result<(), Fail> {
    let mut table = Restrictions::new(rt.alloc());
    assert_eq!(rt; table.set_exop(b"1.1", Action::Reject)?, true);
    assert_eq!(rt; effective(&table, EXTENDED), Some(Action::Reject));
    assert_eq!(rt; table.set_exop(b"1.2.3", Action::Write)?, true);
    assert_eq!(rt; table.set_exop(b"1.2.3", Action::Reject)?, false);
    assert_eq!(rt; effective(&table, EXTENDED), Some(Action::Write));
    assert_eq!(rt; effective(&table, OTHER_EXTENDED), Some(Action::Reject));
    assert_eq!(rt; effective(&table, DELETE), Some(Action::Write));
    Ok(())
}

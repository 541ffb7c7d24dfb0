use super::*;
use lload_names::{Body, CancelAnswer, EndWhy, OpName, PartName, Refusal, What};
use outbox::Outbox;
use restrictions::{Action, Restrictions};
use std::test::Fail;

fn part(rt: &HostRuntime) -> Result<ClientPart, Fail> {
    let alloc = rt.alloc();
    Ok(ClientPart::new(
        alloc,
        3,
        ClientSettings {
            max_pending: 0,
            proxyauthz: false,
            binddn: None,
            write_coherence: 0,
            restrictions: Restrictions::new(alloc),
        },
    ))
}

#[test]
fn a_client_arrives_once(rt: HostRuntime) -> Result<(), Fail> {
    let mut client = part(&rt)?;
    let mut out = Outbox::new(rt.alloc());
    client.arrive(5, &mut out)?;
    client.arrive(9, &mut out)?;
    assert_eq!(rt; out.entries.len(), 1);
    assert_eq!(rt; out.letters.len(), 0);
    let Some(first) = out.entries.as_slice().first() else {
        return Err("no entry")?;
    };
    assert_eq!(rt; first.part, PartName::Client(3));
    assert_eq!(rt; first.at, 5);
    assert!(rt; !client.ended());
    assert!(rt; !client.done());
    assert!(rt; !client.holds());
    Ok(())
}

#[test]
fn what_comes_for_an_operation_that_is_over_is_late(rt: HostRuntime) -> Result<(), Fail> {
    let mut client = part(&rt)?;
    let mut out = Outbox::new(rt.alloc());
    let op = OpName { client: 3, k: 1 };
    client.failed(op, Refusal::C4, 4, &mut out)?;
    assert_eq!(rt; out.entries.len(), 0, "before it arrived");
    client.arrive(5, &mut out)?;
    client.reply(op, Body::new(rt.alloc()), None, 4, &mut out)?;
    client.failed(op, Refusal::C4, 7, &mut out)?;
    assert_eq!(rt; out.entries.len(), 3);
    for entry in out.entries.as_slice() {
        assert!(rt;
            entry.at >= 5,
            "a moment before the last entry counts as that one"
        );
        assert!(rt; matches!(entry.what, What::Arrived | What::Late { .. }));
    }
    Ok(())
}

#[test]
fn the_first_check_that_holds_decides(rt: HostRuntime) -> Result<(), Fail> {
    let client = part(&rt)?;
    assert_eq!(rt;
        client.first_check(0, b"\x42\x00"),
        Check::Ends(EndWhy::ZeroId)
    );
    assert_eq!(rt; client.first_check(1, b"\x42\x00"), Check::Unbinds);
    assert_eq!(rt; client.first_check(1, b"\x50\x01\x07"), Check::Abandons(7));
    assert_eq!(rt;
        client.first_check(1, b"\x60\x01\x02"),
        Check::Ends(EndWhy::Unreadable)
    );
    assert_eq!(rt;
        client.first_check(1, b"\x60\x07\x02\x01\x02\x04\x00\x80\x00"),
        Check::Refuses(Refusal::C11)
    );
    assert_eq!(rt;
        client.first_check(1, b"\x4A\x03o=a"),
        Check::GoesOn(Action::Write)
    );
    assert_eq!(rt;
        client.first_check(1, b"\x77\x18\x80\x161.3.6.1.4.1.1466.20037"),
        Check::Refuses(Refusal::C10)
    );
    assert_eq!(rt;
        client.first_check(
            1,
            b"\x77\x14\x80\x0B1.3.6.1.1.8\x81\x05\x30\x03\x02\x01\x07"
        ),
        Check::Answers(CancelAnswer::C14)
    );
    assert_eq!(rt;
        client.first_check(
            7,
            b"\x77\x14\x80\x0B1.3.6.1.1.8\x81\x05\x30\x03\x02\x01\x07"
        ),
        Check::Answers(CancelAnswer::C15)
    );
    assert_eq!(rt;
        client.first_check(7, b"\x77\x0D\x80\x0B1.3.6.1.1.8"),
        Check::Answers(CancelAnswer::C16)
    );
    Ok(())
}

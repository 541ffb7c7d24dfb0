use super::*;
use std::test::Fail;

#[test]
fn a_simple_bind_gives_its_name(rt: HostRuntime) -> Result<(), Fail> {
    let alloc = rt.alloc();
    assert_eq!(rt;
        simple_identity(alloc, b"cn=x", b"pw")?.as_slice(),
        b"dn:cn=x".as_slice()
    );
    assert_eq!(rt;
        simple_identity(alloc, b"cn=x", b"")?.as_slice(),
        b"".as_slice()
    );
    assert_eq!(rt;
        simple_identity(alloc, b"", b"pw")?.as_slice(),
        b"".as_slice()
    );
    Ok(())
}

#[test]
fn identities_are_told_from_other_values(rt: HostRuntime) {
    assert!(rt; readable_who(None));
    for who in [b"".as_slice(), b"dn:".as_slice(), b"u:ann".as_slice()] {
        assert!(rt; readable_who(Some(who)), "{who:?}");
    }
    for who in [b"ann".as_slice(), b"dn".as_slice(), b"U:ann".as_slice()] {
        assert!(rt; !readable_who(Some(who)), "{who:?}");
    }
}

#[test]
fn the_own_name_alone_is_privileged(rt: HostRuntime) {
    let own = b"cn=proxy".as_slice();
    assert!(rt; privileged(b"dn:cn=proxy", Some(own)));
    assert!(rt; privileged(b"dn:", Some(b"")), "an empty name");
    for who in [
        b"dn:CN=proxy".as_slice(),
        b"cn=proxy".as_slice(),
        b"u:cn=proxy".as_slice(),
        b"".as_slice(),
    ] {
        assert!(rt; !privileged(who, Some(own)), "{who:?}");
    }
    assert!(rt; !privileged(b"dn:cn=proxy", None));
}

#[test]
fn a_request_carries_its_identity(rt: HostRuntime) -> Result<(), Fail> {
    let alloc = rt.alloc();
    let delete = b"\x4A\x03o=a".as_slice();
    assert_eq!(rt;
        proxied(alloc, delete, b"", None)?.as_slice(),
        b"\x4A\x03o=a\xA0\x21\x30\x1F\x04\x182.16.840.1.113730.3.4.18\x01\x01\xFF\x04\x00".as_slice()
    );
    assert_eq!(rt;
        proxied(alloc, delete, b"u:ann", None)?.as_slice(),
        b"\x4A\x03o=a\xA0\x26\x30\x24\x04\x182.16.840.1.113730.3.4.18\x01\x01\xFF\x04\x05u:ann".as_slice()
    );
    assert_eq!(rt;
        proxied(alloc, delete, b"dn:cn=x", Some(b"cn=proxy"))?.as_slice(),
        b"\x4A\x03o=a\xA0\x28\x30\x26\x04\x182.16.840.1.113730.3.4.18\x01\x01\xFF\x04\x07dn:cn=x".as_slice()
    );
    assert_eq!(rt;
        proxied(alloc, delete, b"dn:cn=proxy", Some(b"cn=proxy"))?.as_slice(),
        delete
    );
    Ok(())
}

use super::*;
use std::test::Fail;

const PROXIED: &[u8] = b"2.16.840.1.113730.3.4.18";

/// A Delete with the Proxied Authorization control of an empty identity.
const DELETE_PROXIED: &[u8] =
    b"\x4A\x03o=a\xA0\x21\x30\x1F\x04\x182.16.840.1.113730.3.4.18\x01\x01\xFF\x04\x00";

/// A Delete with a control that has an OID alone.
const DELETE_NOTED: &[u8] = b"\x4A\x03o=a\xA0\x09\x30\x07\x04\x051.2.3";

#[test]
fn a_list_is_read(rt: HostRuntime) {
    let Some(list) = of_rest(DELETE_PROXIED) else {
        assert!(rt; false, "a list");
        return;
    };
    assert_eq!(rt; list.len(), 1);
    if list.len() == 1 {
        let only = list.get(0);
        assert_eq!(rt; only.oid, PROXIED);
        assert!(rt; only.critical);
        assert_eq!(rt; only.value, Some(b"".as_slice()));
    }
    assert!(rt; has(DELETE_PROXIED, PROXIED));
    assert!(rt; !has(DELETE_PROXIED, b"1.2.3"));
    assert!(rt; has(DELETE_NOTED, b"1.2.3"));
}

#[test]
fn where_there_is_no_list_none_is_there(rt: HostRuntime) {
    for rest in [
        b"\x4A\x03o=a".as_slice(),
        b"\x4A\x03o=a\xA0\x00".as_slice(),
        b"\x4A\x03o=a\x04\x00\xA0\x02\x05\x00".as_slice(),
    ] {
        let Some(list) = of_rest(rest) else {
            assert!(rt; false, "an empty list: {rest:?}");
            return;
        };
        assert_eq!(rt; list.len(), 0);
        assert!(rt; list.split_first().is_none());
    }
}

#[test]
fn a_list_that_is_none_is_told(rt: HostRuntime) {
    assert!(rt;
        of_rest(b"\x4A\x03o=a\xA0\x02\x05\x00").is_none(),
        "a control is a sequence"
    );
    assert!(rt;
        of_rest(b"\x4A\x03o=a\xA0\x02\x30\x00").is_none(),
        "it has an OID"
    );
    assert!(rt;
        of_rest(b"\x4A\x03o=a\xA0\x0A\x30\x07\x04\x051.2.3\x30").is_none(),
        "it is whole"
    );
    assert!(rt; !has(b"\x4A\x03o=a\xA0\x02\x05\x00", b"1.2.3"));
}

#[test]
fn a_boolean_is_read_in_any_form(rt: HostRuntime) {
    let rest =
        b"\x4A\x03o=a\xA0\x1B\x30\x0B\x04\x011\x01\x81\x01\xFF\x04\x02ab\x30\x0C\x04\x012\x01\x02\xFF\xFF\x04\x03abc";
    let Some(list) = of_rest(rest) else {
        assert!(rt; false, "a list");
        return;
    };
    let Some((first, behind)) = list.split_first() else {
        assert!(rt; false, "a control");
        return;
    };
    assert!(rt; first.critical, "one octet in another form of length");
    assert_eq!(rt; first.value, Some(b"ab".as_slice()));
    let Some((second, none)) = behind.split_first() else {
        assert!(rt; false, "another control");
        return;
    };
    assert!(rt;
        !second.critical,
        "behind a Boolean of two octets nothing is read"
    );
    assert_eq!(rt; second.value, None);
    assert_eq!(rt; none.len(), 0);
}

#[test]
fn a_control_is_put_first(rt: HostRuntime) -> Result<(), Fail> {
    let alloc = rt.alloc();
    let empty = Control {
        oid: PROXIED,
        critical: true,
        value: Some(b""),
    };
    let alone = with_first(alloc, b"\x4A\x03o=a", &empty)?;
    assert_eq!(rt; alone.as_slice(), DELETE_PROXIED);
    let ann = Control {
        oid: PROXIED,
        critical: true,
        value: Some(b"u:ann"),
    };
    let named = with_first(alloc, b"\x4A\x03o=a", &ann)?;
    assert_eq!(rt;
        named.as_slice(),
        b"\x4A\x03o=a\xA0\x26\x30\x24\x04\x182.16.840.1.113730.3.4.18\x01\x01\xFF\x04\x05u:ann".as_slice()
    );
    let note = Control {
        oid: b"1.2.4",
        critical: false,
        value: None,
    };
    let both = with_first(alloc, DELETE_NOTED, &note)?;
    assert_eq!(rt;
        both.as_slice(),
        b"\x4A\x03o=a\xA0\x12\x30\x07\x04\x051.2.4\x30\x07\x04\x051.2.3".as_slice()
    );
    Ok(())
}

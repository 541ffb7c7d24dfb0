//! The fields of LDAP messages that the proxy reads, and the bodies that it writes itself (RFC 4511, sections 4.1.9,
//! 4.2, 4.4.1, 4.11 and 4.12; RFC 4532).
//!
//! A rest is what stands behind the identifier of a message: its operation, and whatever follows. The layer above may
//! rely on this: a field is read exactly where the definitions of `ldap_spec` read one, and is then that field; what
//! is lent is a part of the rest; what is written is the body of the definitions, byte for byte. Reading takes no
//! memory.
#![tactic(auto)]

mod bodies;
mod parts;
mod refusals;
mod requests;
mod responses;

pub use bodies::{abandon_rest, bind_rest, notice_rest, who_rest};
pub use parts::{Part, first_part, tagged_part};
pub use refusals::{refusal_rest, result_rest};
pub use requests::{BindRequest, Method, Request, classify};
pub use responses::{ResponseKind, fits, response_kind, result_code, who_value};

#[cfg(test)]
mod tests {
    use super::*;
    use lload_names::{OpKind, Refusal};
    use std::test::Fail;

    #[test]
    fn refusals_are_written(rt: HostRuntime) -> Result<(), Fail> {
        let start_tls = refusal_rest(rt.alloc(), OpKind::Extended, Refusal::C10)?;
        assert_eq!(rt;
            start_tls.as_slice(),
            b"\x78\x18\x0A\x01\x02\x04\x00\x04\x11TLS not supported".as_slice()
        );
        let busy = refusal_rest(rt.alloc(), OpKind::Delete, Refusal::C1)?;
        assert_eq!(rt;
            busy.as_slice(),
            b"\x6B\x12\x0A\x01\x33\x04\x00\x04\x0Bserver busy".as_slice()
        );
        let late = refusal_rest(rt.alloc(), OpKind::Search, Refusal::C5)?;
        assert_eq!(rt;
            late.as_slice(),
            b"\x65\x1A\x0A\x01\x03\x04\x00\x04\x13operation timed out".as_slice()
        );
        Ok(())
    }

    #[test]
    fn own_bodies_are_written(rt: HostRuntime) -> Result<(), Fail> {
        let notice = notice_rest(rt.alloc())?;
        assert_eq!(rt;
            notice.as_slice(),
            b"\x78\x2D\x0A\x01\x02\x04\x00\x04\x0Eprotocol error\x8A\x161.3.6.1.4.1.1466.20036".as_slice()
        );
        let bind = bind_rest(rt.alloc(), b"cn=x", b"")?;
        assert_eq!(rt;
            bind.as_slice(),
            b"\x60\x0B\x02\x01\x03\x04\x04cn=x\x80\x00".as_slice()
        );
        let abandon = abandon_rest(rt.alloc(), 1)?;
        assert_eq!(rt; abandon.as_slice(), b"\x50\x01\x01".as_slice());
        let who = who_rest(rt.alloc())?;
        assert_eq!(rt;
            who.as_slice(),
            b"\x77\x19\x80\x171.3.6.1.4.1.4203.1.11.3".as_slice()
        );
        Ok(())
    }

    #[test]
    fn requests_are_classified(rt: HostRuntime) {
        assert!(rt;
            matches!(
                classify(b"\x4A\x03o=a"),
                Some(Request::Plain(OpKind::Delete))
            )
        );
        assert!(rt; matches!(classify(b"\x50\x01\x07"), Some(Request::Abandon { id: 7 })));
        assert!(rt; classify(b"\x50\x01\xFF").is_none(), "negative");
        let Some(Request::Extended { name }) = classify(b"\x77\x18\x80\x161.3.6.1.4.1.1466.20037")
        else {
            assert!(rt; false, "an Extended request");
            return;
        };
        assert_eq!(rt; name, b"1.3.6.1.4.1.1466.20037".as_slice());
        let Some(Request::Bind(bind)) = classify(
            b"\x60\x11\x02\x01\x03\x04\x00\xA3\x0A\x04\x08CRAM-MD5",
        ) else {
            assert!(rt; false, "a Bind");
            return;
        };
        assert_eq!(rt; bind.version, 3);
        let Method::Sasl { mechanism } = bind.method else {
            assert!(rt; false, "SASL");
            return;
        };
        assert_eq!(rt; mechanism, b"CRAM-MD5".as_slice());
    }

    #[test]
    fn responses_are_read(rt: HostRuntime) {
        let deleted = b"\x6B\x07\x0A\x01\x00\x04\x00\x04\x00";
        assert_eq!(rt;
            response_kind(deleted),
            Some(ResponseKind::Final(OpKind::Delete))
        );
        assert_eq!(rt; result_code(deleted), Some(0));
        let entry = b"\x64\x07\x04\x03o=a\x30\x00";
        assert_eq!(rt; response_kind(entry), Some(ResponseKind::Entry));
        assert_eq!(rt; result_code(entry), None, "an entry has no result code");
        assert!(rt; !fits(OpKind::Delete, ResponseKind::Entry));
        assert!(rt; fits(OpKind::Search, ResponseKind::Entry));
        let identity = b"\x78\x0E\x0A\x01\x00\x04\x00\x04\x00\x8B\x05u:ann";
        let Some(value) = who_value(identity) else {
            assert!(rt; false, "a value");
            return;
        };
        assert_eq!(rt; value, b"u:ann".as_slice());
        assert!(rt; who_value(deleted).is_none());
    }
}

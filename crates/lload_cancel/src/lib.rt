//! The Cancel operation (RFC 3909): the identifier that a Cancel names, and the answers to it and to the operation that
//! it names.
//!
//! The layer above may rely on this: the identifier is read exactly where the definitions of `ldap_spec` read one, and
//! is then that one; an answer is the body of the definitions, byte for byte. Whether a request is a Cancel isn't looked
//! at. Reading takes no memory.
#![tactic(auto)]

mod answers;
mod requests;

pub use answers::cancel_rest;
pub use lload_names::CancelAnswer;
pub use requests::cancel_id;

#[cfg(test)]
mod tests {
    use super::*;
    use lload_names::OpKind;
    use std::test::Fail;

    #[test]
    fn the_named_identifier_is_read(rt: HostRuntime) {
        assert_eq!(rt;
            cancel_id(b"\x77\x14\x80\x0B1.3.6.1.1.8\x81\x05\x30\x03\x02\x01\x07"),
            Some(7)
        );
        assert_eq!(rt;
            cancel_id(b"\x77\x17\x80\x0B1.3.6.1.1.8\x81\x08\x30\x06\x02\x01\x07\x02\x01\x09"),
            Some(7),
            "what stands behind the number isn't looked at"
        );
    }

    #[test]
    fn a_value_that_is_none_is_told(rt: HostRuntime) {
        assert_eq!(rt; cancel_id(b"\x77\x0D\x80\x0B1.3.6.1.1.8"), None, "no value");
        assert_eq!(rt;
            cancel_id(b"\x77\x14\x80\x0B1.3.6.1.1.8\x82\x05\x30\x03\x02\x01\x07"),
            None,
            "another tag"
        );
        assert_eq!(rt;
            cancel_id(b"\x77\x14\x80\x0B1.3.6.1.1.8\x81\x05\x30\x03\x02\x01\xFF"),
            None,
            "negative"
        );
        assert_eq!(rt;
            cancel_id(b"\x77\x16\x80\x0B1.3.6.1.1.8\x81\x07\x30\x03\x02\x01\x07\x05\x00"),
            None,
            "two elements"
        );
    }

    #[test]
    fn answers_are_written(rt: HostRuntime) -> Result<(), Fail> {
        let alloc = rt.alloc();
        let canceled = cancel_rest(alloc, OpKind::Search, CancelAnswer::C13)?;
        assert_eq!(rt;
            canceled.as_slice(),
            b"\x65\x19\x0A\x01\x76\x04\x00\x04\x12operation canceled".as_slice()
        );
        let done = cancel_rest(alloc, OpKind::Extended, CancelAnswer::S1)?;
        assert_eq!(rt;
            done.as_slice(),
            b"\x78\x07\x0A\x01\x00\x04\x00\x04\x00".as_slice()
        );
        let missing = cancel_rest(alloc, OpKind::Extended, CancelAnswer::C14)?;
        assert_eq!(rt;
            missing.as_slice(),
            b"\x78\x18\x0A\x01\x77\x04\x00\x04\x11no such operation".as_slice()
        );
        let itself = cancel_rest(alloc, OpKind::Extended, CancelAnswer::C15)?;
        assert_eq!(rt;
            itself.as_slice(),
            b"\x78\x14\x0A\x01\x79\x04\x00\x04\x0Dcannot cancel".as_slice()
        );
        let unreadable = cancel_rest(alloc, OpKind::Extended, CancelAnswer::C16)?;
        assert_eq!(rt;
            unreadable.as_slice(),
            b"\x78\x20\x0A\x01\x02\x04\x00\x04\x19cancel value not readable".as_slice()
        );
        Ok(())
    }
}

//! Envelopes of LDAP messages: elements with definite lengths, messages read and written (RFC 4511, sections 4.1.1
//! and 5.1).
//!
//! The layer above may rely on this: what is read is exactly what the definitions of `ldap_spec` say, with the
//! places of its parts, and takes no memory; what is written is the canonical spelling, and no memory is wanting where
//! it fits the room.
#![tactic(auto)]

ghost use Rattle.std.specs.Prelude.{◌^◌, ◌<◌, length};

mod elements;
mod integers;
mod lengths;
mod reading;
mod writing;

pub use elements::{Element, element_at};
pub use integers::integer_of;
pub use lload_names::NoMemory;
pub use reading::{Envelope, Read};
pub use writing::{write_element, write_envelope, write_integer};

#[cfg(test)]
mod tests {
    use super::*;
    use std::alloc::Global;
    use std::test::Fail;

    fn written(alloc: Global, id: u32, rest: &[u8]) -> Result<Vec<u8>, Fail>
        requires id { id < 2 ^ 31 }
        requires rest { length rest.now < 2 ^ 30 }
    {
        let mut out = Vec::new(alloc);
        write_envelope(id, rest, &mut out)?;
        Ok(out)
    }

    #[test]
    fn short_envelopes_are_written(rt: HostRuntime) -> Result<(), Fail> {
        let delete = b"\x4A\x03o=a";
        let answer = b"\x6B\x07\x0A\x01\x00\x04\x00\x04\x00";
        let first = written(rt.alloc(), 5, delete)?;
        assert_eq!(rt;
            first.as_slice(),
            b"\x30\x08\x02\x01\x05\x4A\x03o=a".as_slice()
        );
        let zero = written(rt.alloc(), 0, delete)?;
        assert_eq!(rt;
            zero.as_slice(),
            b"\x30\x08\x02\x01\x00\x4A\x03o=a".as_slice()
        );
        let greatest = written(rt.alloc(), 0x7FFF_FFFF, answer)?;
        assert_eq!(rt;
            greatest.as_slice(),
            b"\x30\x0F\x02\x04\x7F\xFF\xFF\xFF\x6B\x07\x0A\x01\x00\x04\x00\x04\x00".as_slice()
        );
        Ok(())
    }

    #[test]
    fn long_envelopes_are_written(rt: HostRuntime) -> Result<(), Fail> {
        let long = written(rt.alloc(), 1, &[0; 130])?;
        assert_eq!(rt; long.len(), 136);
        assert_eq!(rt; &long[..6], b"\x30\x81\x85\x02\x01\x01".as_slice());
        let longer = written(rt.alloc(), 0x80, &[0; 300])?;
        assert_eq!(rt; longer.len(), 308);
        assert_eq!(rt;
            &longer[..8],
            b"\x30\x82\x01\x30\x02\x02\x00\x80".as_slice()
        );
        Ok(())
    }

    #[test]
    fn elements_are_written(rt: HostRuntime) -> Result<(), Fail> {
        let mut out = Vec::new(rt.alloc());
        write_integer(0x02, 0x7FFF_FFFF, &mut out)?;
        write_element(0x4A, b"o=a", &mut out)?;
        assert_eq!(rt;
            out.as_slice(),
            b"\x02\x04\x7F\xFF\xFF\xFF\x4A\x03o=a".as_slice()
        );
        Ok(())
    }

    #[test]
    fn messages_are_read(rt: HostRuntime) {
        for (bytes, want) in [
            (
                b"\x30\x84\x00\x00\x00\x08\x02\x01\x05\x4A\x03o=a".as_slice(),
                Read::Whole {
                    id: 5,
                    rest_at: 9,
                    end: 14,
                },
            ),
            (
                b"\x30\x0B\x02\x04\x7F\xFF\xFF\xFF\x4A\x03o=a\x30".as_slice(),
                Read::Whole {
                    id: 0x7FFF_FFFF,
                    rest_at: 8,
                    end: 13,
                },
            ),
            (
                b"\x30\x1D\x02\x01\x01\x77\x18\x80\x161.3.6.1.4.1.1466.20037".as_slice(),
                Read::Whole {
                    id: 1,
                    rest_at: 5,
                    end: 31,
                },
            ),
            (
                b"\x30\x08\x02\x01\xFF\x4A\x03o=a".as_slice(),
                Read::Bad { at: 2 },
            ),
            (
                b"\x30\x84\xFF\xFF\xFF\xFF".as_slice(),
                Read::TooBig {
                    length: 0xFFFF_FFFF,
                },
            ),
            (
                b"\x30\x83\x04\x00\x00".as_slice(),
                Read::TooBig { length: 262_144 },
            ),
            (
                b"\x30\x83\x03\xFF\xFF".as_slice(),
                Read::Short { needed: 262_148 },
            ),
            (b"\x30\x08\x02\x01".as_slice(), Read::Short { needed: 10 }),
            (b"\x30\x84\x00".as_slice(), Read::Short { needed: 6 }),
            (b"\x30\x80".as_slice(), Read::Bad { at: 0 }),
            (
                b"\x30\x06\x02\x01\x05\x4A\x7Fo".as_slice(),
                Read::Bad { at: 5 },
            ),
            (
                b"\x30\x05\x02\x01\x05\x1F\x00".as_slice(),
                Read::Bad { at: 5 },
            ),
        ] {
            assert_eq!(rt; Envelope::read(bytes, 262_143), want, "{bytes:?}");
        }
    }
}

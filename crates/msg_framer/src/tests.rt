use super::*;
use std::alloc::Global;
use std::test::Fail;

/// The most octets that contents of a client's messages may have.
const LIMIT: u32 = 262_143;

/// A Delete of `o=a`, with the identifier 5.
const DELETE: &[u8] = b"\x30\x08\x02\x01\x05\x4A\x03o=a";

/// The same in a long length, with the identifier 6.
const LONG: &[u8] = b"\x30\x84\x00\x00\x00\x08\x02\x01\x06\x4A\x03o=a";

/// A framer that was fed these pieces.
fn fed(alloc: Global, pieces: &[&[u8]]) -> Result<Framer, Fail> {
    let mut framer = Framer::new(alloc, LIMIT)?;
    for piece in pieces {
        framer.feed(piece)?;
    }
    Ok(framer)
}

/// What may go to another thread, and be looked at from there.
fn shared<T: Send + Sync>(value: T) -> T {
    value
}

/// The first message, which is passed.
fn taken(alloc: Global, framer: &mut Framer) -> Result<Option<(u32, Vec<u8>)>, Fail> {
    match framer.next() {
        Next::Message { id, rest } => {
            let rest = Vec::from_slice(alloc, rest)?;
            framer.pass();
            Ok(Some((id, rest)))
        }
        _ => Ok(None),
    }
}

/// Whether both messages come, and then none.
fn gives_both(alloc: Global, framer: &mut Framer) -> Result<bool, Fail> {
    let Some((first, rest)) = taken(alloc, framer)? else {
        return Ok(false);
    };
    let Some((second, others)) = taken(alloc, framer)? else {
        return Ok(false);
    };
    let operation = b"\x4A\x03o=a".as_slice();
    let same = rest.as_slice() == operation && others.as_slice() == operation;
    Ok(same && first == 5 && second == 6 && matches!(framer.next(), Next::NotYet))
}

#[test]
fn messages_come_however_they_are_cut(rt: HostRuntime) -> Result<(), Fail> {
    let mut whole = shared(fed(rt.alloc(), &[DELETE, LONG])?);
    assert!(rt; gives_both(rt.alloc(), &mut whole)?);
    let mut cut = fed(
        rt.alloc(),
        &[
            &DELETE[..3],
            &DELETE[3..],
            &LONG[..1],
            &LONG[1..13],
            &LONG[13..],
        ],
    )?;
    assert!(rt; gives_both(rt.alloc(), &mut cut)?);
    Ok(())
}

#[test]
fn what_was_reserved_is_there(rt: HostRuntime) -> Result<(), Fail> {
    let mut framer = Framer::new(rt.alloc(), LIMIT)?;
    framer.reserve(65_536)?;
    framer.feed(DELETE)?;
    framer.feed(LONG)?;
    assert!(rt; gives_both(rt.alloc(), &mut framer)?);
    Ok(())
}

#[test]
fn an_end_is_told(rt: HostRuntime) -> Result<(), Fail> {
    let within = fed(rt.alloc(), &[b"\x30\x83\x03\xFF\xFF"])?;
    assert!(rt; matches!(within.next(), Next::NotYet));
    let too_big = fed(rt.alloc(), &[b"\x30\x83\x04\x00\x00", DELETE])?;
    assert!(rt; matches!(too_big.next(), Next::TooBig));
    let bad = fed(rt.alloc(), &[b"\x31", DELETE])?;
    assert!(rt; matches!(bad.next(), Next::Bad));
    Ok(())
}

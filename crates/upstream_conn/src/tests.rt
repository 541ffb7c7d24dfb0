use super::*;
use conn_core::{OwnBindBytes, UpSettings};
use lload_names::{Body, Input, Letter, OpKind, OpName, PartName, What};
use outbox::Outbox;
use std::alloc::Global;
use std::test::Fail;

fn part(alloc: Global, own_bind: Option<OwnBindBytes>) -> Result<UpstreamPart, Fail> {
    let settings = UpSettings {
        own_bind,
        timeout: 0,
        id_limit: 100,
    };
    Ok(UpstreamPart::new(alloc, 5, settings)?)
}

#[test]
fn a_connection_without_an_own_bind_is_up_at_once(rt: HostRuntime) -> Result<(), Fail> {
    let mut out = Outbox::new(rt.alloc());
    part(rt.alloc(), None)?.step(Input::LinkUp { now: 40 }, &mut out)?;
    assert_eq!(rt; out.entries.len(), 2);
    Ok(())
}

#[test]
fn a_refused_own_bind_ends_the_connection(rt: HostRuntime) -> Result<(), Fail> {
    let alloc = rt.alloc();
    let rest = Body::from_slice(alloc, b"\x60\x0C\x02\x01\x03\x04\x04cn=p\x80\x01s")?;
    let mut part = part(alloc, Some(OwnBindBytes { rest }))?;
    let mut out = Outbox::new(alloc);
    part.step(Input::LinkUp { now: 40 }, &mut out)?;
    let rest = Body::from_slice(alloc, b"\x61\x07\x0A\x01\x31\x04\x00\x04\x00")?;
    part.step(
        Input::Message {
            now: 41,
            id: 1,
            rest,
        },
        &mut out,
    )?;
    assert_eq!(rt; out.entries.len(), 4);
    assert!(rt; part.ended());
    Ok(())
}

/// What the connection takes in: it is linked, is sent an operation by its number and request, hears a message by its
/// identifier and rest, or drops an operation.
#[derive(Clone, Copy)]
enum Row {
    Links,
    Sends(u64, &'static [u8]),
    Hears(u32, &'static [u8]),
    Drops(u64),
}

/// An operation is answered with an entry and abandoned, so that its identifier isn't given again; the next one ends,
/// and a message under no identifier that was given takes the connection down.
const SCRIPT: [Row; 8] = [
    Row::Links,
    Row::Sends(1, b"\x63\x00"),
    Row::Hears(1, b"\x64\x00"),
    Row::Drops(1),
    Row::Hears(1, b"\x65\x07\x0A\x01\x00\x04\x00\x04\x00"),
    Row::Sends(2, b"\x4A\x00"),
    Row::Hears(3, b"\x6B\x07\x0A\x01\x00\x04\x00\x04\x00"),
    Row::Hears(9, b"\x65\x07\x0A\x01\x00\x04\x00\x04\x00"),
];

fn op(k: u64) -> OpName {
    OpName { client: 1, k }
}

fn posted(letter: Letter) -> Input {
    Input::LetterFrom {
        now: 40,
        word: 0,
        sender: PartName::Client(1),
        letter,
    }
}

fn input(alloc: Global, row: Row) -> Result<Input, Fail> {
    Ok(match row {
        Row::Links => Input::LinkUp { now: 40 },
        Row::Sends(k, rest) => posted(Letter::Forward {
            op: op(k),
            kind: if rest.first() == Some(&0x63) {
                OpKind::Search
            } else {
                OpKind::Delete
            },
            rest: Body::from_slice(alloc, rest)?,
            ask_who: false,
            holder: op(k),
        }),
        Row::Hears(id, rest) => Input::Message {
            now: 40,
            id,
            rest: Body::from_slice(alloc, rest)?,
        },
        Row::Drops(k) => posted(Letter::Drop { op: op(k) }),
    })
}

/// A letter for each kind of entry.
fn mark(what: &What) -> u8 {
    match what {
        What::Linked => b'l',
        What::Up => b'u',
        What::Sent { .. } => b's',
        What::Own { .. } => b'o',
        What::Got { .. } => b'g',
        What::Down { .. } => b'd',
        _ => b'?',
    }
}

#[test]
fn an_abandoned_identifier_is_not_given_again(rt: HostRuntime) -> Result<(), Fail> {
    let alloc = rt.alloc();
    let mut part = part(alloc, None)?;
    let mut out = Outbox::new(alloc);
    for row in SCRIPT {
        part.step(input(alloc, row)?, &mut out)?;
    }
    let mut marks = Vec::new(alloc);
    for entry in out.entries.as_slice() {
        marks.push(mark(&entry.what))?;
    }
    assert!(rt; marks.as_slice() == b"lusgogsggd".as_slice());
    assert_eq!(rt; out.letters.len(), 6);
    Ok(())
}

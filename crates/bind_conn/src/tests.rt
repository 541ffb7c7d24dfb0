use super::*;
use conn_core::UpSettings;
use lload_names::{Body, Input, Letter, OpKind, OpName, PartName, What};
use outbox::Outbox;
use std::alloc::Global;
use std::test::Fail;

fn part(alloc: Global) -> Result<BindPart, Fail> {
    let settings = UpSettings {
        own_bind: None,
        timeout: 0,
        id_limit: 100,
    };
    Ok(BindPart::new(alloc, 2, settings)?)
}

#[test]
fn a_bind_connection_is_up_at_once(rt: HostRuntime) -> Result<(), Fail> {
    let mut out = Outbox::new(rt.alloc());
    part(rt.alloc())?.step(Input::LinkUp { now: 40 }, &mut out)?;
    assert_eq!(rt; out.entries.len(), 2);
    Ok(())
}

/// What the connection takes in: it is linked, is sent a Bind by its number, hears a message by its identifier and
/// rest, or its holder leaves.
#[derive(Clone, Copy)]
enum Row {
    Links,
    Sends(u64),
    Hears(u32, &'static [u8]),
    Leaves(u64),
}

/// A Bind whose identity is asked for succeeds, and its identity is told; the next one is in progress when its holder
/// leaves.
const SCRIPT: [Row; 7] = [
    Row::Links,
    Row::Sends(1),
    Row::Hears(1, b"\x61\x07\x0A\x01\x00\x04\x00\x04\x00"),
    Row::Hears(2, b"\x78\x0D\x0A\x01\x00\x04\x00\x04\x00\x8B\x04dn:u"),
    Row::Sends(2),
    Row::Hears(1, b"\x61\x07\x0A\x01\x0E\x04\x00\x04\x00"),
    Row::Leaves(2),
];

fn op(k: u64) -> OpName {
    OpName { client: 1, k }
}

fn posted(letter: Letter) -> Input {
    Input::LetterFrom {
        now: 40,
        word: 0,
        sender: PartName::Client(1),
        letter,
    }
}

fn input(alloc: Global, row: Row) -> Result<Input, Fail> {
    Ok(match row {
        Row::Links => Input::LinkUp { now: 40 },
        Row::Sends(k) => posted(Letter::Forward {
            op: op(k),
            kind: OpKind::Bind,
            rest: Body::from_slice(alloc, b"\x60\x07\x02\x01\x03\x04\x00\x80\x00")?,
            ask_who: true,
            holder: op(k),
        }),
        Row::Hears(id, rest) => Input::Message {
            now: 40,
            id,
            rest: Body::from_slice(alloc, rest)?,
        },
        Row::Leaves(k) => posted(Letter::Leave { holder: op(k) }),
    })
}

/// A letter for each kind of entry.
fn mark(what: &What) -> u8 {
    match what {
        What::Linked => b'l',
        What::Up => b'u',
        What::Sent { .. } => b's',
        What::Own { .. } => b'o',
        What::Got { .. } => b'g',
        What::Down { .. } => b'd',
        _ => b'?',
    }
}

/// Takes in the script.
fn play(alloc: Global, part: &mut BindPart, out: &mut Outbox) -> Result<(), Fail> {
    for row in SCRIPT {
        part.step(input(alloc, row)?, out)?;
    }
    Ok(())
}

/// Whether the entries are of these kinds, in this order.
fn has_marks(out: &Outbox, marks: &[u8]) -> bool {
    let entries = out.entries.as_slice();
    if entries.len() != marks.len() {
        return false;
    }
    for k in 0..marks.len() {
        if mark(&entries[k].what) != marks[k] {
            return false;
        }
    }
    true
}

#[test]
fn an_identity_is_told_and_an_exchange_is_left(rt: HostRuntime) -> Result<(), Fail> {
    let alloc = rt.alloc();
    let mut part = part(alloc)?;
    let mut out = Outbox::new(alloc);
    play(alloc, &mut part, &mut out)?;
    assert!(rt; has_marks(&out, b"lusgogsgd"));
    assert_eq!(rt; out.letters.len(), 6);
    Ok(())
}

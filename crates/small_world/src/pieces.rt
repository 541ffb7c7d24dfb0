ghost use Rattle.std.specs.Prelude.{◌≡◌, [], ◌∷◌, IfOk};
ghost use Rattle.ldap_spec.specs.Bodies.{refusal};
ghost use Rattle.lload_names.specs.declared.names.OpKind.TheVariants as kind;
ghost use Rattle.lload_names.specs.declared.names.Refusal.TheVariants as which;
ghost use Rattle.small_world.specs.Pieces.{answering as answering_piece, forwarding as forwarding_piece, refusing as refusing_piece, got};

use crate::world::Forwarded;
use lload_names::{
    Answer, Body, Bound, ConnKind, Entries, Entry, Letter, NoMemory, OpName, PartName, Want, What,
};
use std::alloc::Global;

/// The backend of connection 1.
const BACKEND: u32 = 1;

// An entry of a part at moment 0: no line moves the clock yet.
fn entry(part: PartName, what: What) -> Entry
    ensures { result ≡ record { part = part; at = 0; what = what } }
{
    Entry { part, at: 0, what }
}

// A request comes in, the desk is asked and answers so, and the client learns it.
fn asking(
    alloc: Global,
    op: OpName,
    id: u32,
    rest: Body,
    answer: Answer,
) -> Result<Entries, NoMemory>
    ensures { IfOk result (λ piece. piece ≡ record { part = PartName.Client op.client; at = 0; what = What.In id rest }
        ∷ record { part = PartName.Desk; at = 0; what = What.Asked op (record { kind = ConnKind.Regular; bound = Bound.Free }) }
        ∷ record { part = PartName.Desk; at = 0; what = What.Chose op answer 0 }
        ∷ record { part = PartName.Client op.client; at = 0; what = What.Chosen op answer } ∷ []) }
{
    let client = PartName::Client(op.client);
    let want = Want {
        kind: ConnKind::Regular,
        bound: Bound::Free,
    };
    let mut entries = Entries::new(alloc);
    entries.push(entry(client, What::In { id, rest }))?;
    entries.push(entry(PartName::Desk, What::Asked { op, want }))?;
    entries.push(entry(
        PartName::Desk,
        What::Chose {
            op,
            answer,
            word: 0,
        },
    ))?;
    entries.push(entry(client, What::Chosen { op, answer }))?;
    Ok(entries)
}

/// A request of client 1 that goes to connection 1, under this identifier there.
pub(crate) fn forwarding(
    alloc: Global,
    op: OpName,
    sent_as: u32,
    id: u32,
    rest: Body,
) -> Result<Entries, NoMemory>
    requires { op.client ≡ 1 }
    ensures { IfOk result (λ piece. piece ≡ forwarding_piece op.k sent_as id rest) }
{
    let answer = Answer::Go {
        conn: 1,
        backend: BACKEND,
    };
    let mut entries = asking(alloc, op, id, rest.copy()?, answer)?;
    entries.push(entry(
        PartName::Up(1),
        What::Sent {
            id: sent_as,
            op,
            rest,
        },
    ))?;
    Ok(entries)
}

/// A request of client 1 that is refused, since no connection is up.
pub(crate) fn refusing(alloc: Global, op: OpName, id: u32, rest: Body) -> Result<Entries, NoMemory>
    requires { op.client ≡ 1 }
    ensures { IfOk result (λ piece. piece ≡ refusing_piece op.k id rest) }
{
    let mut entries = asking(alloc, op, id, rest, Answer::Unavailable)?;
    let rest = no_connections(alloc)?;
    entries.push(entry(PartName::Client(1), What::Out { id, rest }))?;
    Ok(entries)
}

/// The answer to a live operation.
pub(crate) fn answering(
    alloc: Global,
    forwarded: Forwarded,
    id: u32,
    rest: Body,
) -> Result<Entries, NoMemory>
    ensures { IfOk result (λ piece. piece ≡ answering_piece forwarded.k id forwarded.id rest) }
{
    let op = OpName {
        client: 1,
        k: forwarded.k,
    };
    let letter = Letter::Ended {
        op,
        conn: 1,
        latency: Some(0),
    };
    let mut entries = got_again(alloc, id, rest.copy()?)?;
    entries.push(entry(PartName::Desk, What::Heard { letter }))?;
    entries.push(entry(
        PartName::Client(1),
        What::Out {
            id: forwarded.id,
            rest,
        },
    ))?;
    Ok(entries)
}

/// An answer that comes, and nothing that follows from it.
pub(crate) fn got_again(alloc: Global, id: u32, rest: Body) -> Result<Entries, NoMemory>
    ensures { IfOk result (λ piece. piece ≡ got id rest ∷ []) }
{
    let mut entries = Entries::new(alloc);
    entries.push(entry(PartName::Up(1), What::Got { id, rest }))?;
    Ok(entries)
}

// The refusal of a Delete where no connection is up.
fn no_connections(alloc: Global) -> Result<Body, NoMemory>
    ensures { IfOk result (λ rest. rest ≡ refusal kind.Delete which.C3) }
{
    Body::from_slice(
        alloc,
        b"\x6B\x1F\x0A\x01\x34\x04\x00\x04\x18no connections available",
    )
}

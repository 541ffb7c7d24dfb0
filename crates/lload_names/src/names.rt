ghost use Rattle.std.specs.Prelude.{◌≡◌, IfOk};

use crate::body::{Body, NoMemory};

/// An operation: the `k`-th request of a client that has an identifier other than 0 and is neither an Unbind nor an
/// Abandon. Clients and `k` are counted from 1.
#[derive(Clone, Copy, Debug, PartialEq, Eq, PartialOrd, Ord, Drop)]
pub struct OpName {
    pub client: u32,
    pub k: u64,
}

/// A part: the desk that chooses connections, a client's connection, or an upstream connection, by its number from 1.
/// Parts are ordered so.
#[derive(Clone, Copy, Debug, PartialEq, Eq, PartialOrd, Ord, Drop)]
pub enum PartName {
    Desk,
    Client(u32),
    Up(u32),
}

/// The kinds of request that are answered (RFC 4511, sections 4.2, 4.5 to 4.10 and 4.12).
#[derive(Clone, Copy, Debug, PartialEq, Eq, Drop)]
pub enum OpKind {
    Bind,
    Search,
    Modify,
    Add,
    Delete,
    ModifyDn,
    Compare,
    Extended,
}

/// The two kinds of upstream connection: those that carry requests, and those that carry one client's Binds at a time
/// (`numconns` and `bindconns` in lloadd.conf(5)).
#[derive(Clone, Copy, Debug, PartialEq, Eq, Drop)]
pub enum ConnKind {
    Regular,
    Bind,
}

/// What a client is bound to: nothing, one backend, or one connection, by number.
#[derive(Clone, Copy, Debug, PartialEq, Eq, Drop)]
pub enum Bound {
    Free,
    Backend(u32),
    Conn(u32),
}

/// How an operation binds later ones of its client, once it was given a connection: to the backend while it is live
/// and for a time behind, to the backend, or to the connection itself (`write_coherence`, `restrict_exop` and
/// `restrict_control` in lloadd.conf(5)).
#[derive(Clone, Copy, Debug, PartialEq, Eq, Drop)]
pub enum Hold {
    Write,
    Backend,
    Connection,
}

/// The connection that a request asks for.
#[derive(Clone, Copy, Debug, PartialEq, Eq, Drop)]
pub struct Want {
    pub kind: ConnKind,
    pub bound: Bound,
}

/// The desk's answer: a connection with its backend; none is free; none is up.
#[derive(Clone, Copy, Debug, PartialEq, Eq, Drop)]
pub enum Answer {
    Go { conn: u32, backend: u32 },
    Busy,
    Unavailable,
}

/// The refusals that the proxy gives of its own (this project's own). Their texts stand with the written bodies.
#[derive(Clone, Copy, Debug, PartialEq, Eq, Drop)]
pub enum Refusal {
    /// Every connection that could serve is at a limit.
    C1,
    /// The client has as many live operations as it may have.
    C2,
    /// No connection that could serve is up.
    C3,
    /// The upstream connection was lost.
    C4,
    /// The upstream didn't answer in time.
    C5,
    /// The request is restricted.
    C6,
    /// A request came between the steps of a SASL exchange.
    C7,
    /// A client that isn't privileged asked for an identity of its own choice.
    C8,
    /// The identity behind a successful Bind isn't known.
    C9,
    /// StartTLS isn't supported.
    C10,
    /// The Bind is of another version than 3.
    C11,
}

/// The answers that the proxy gives to a Cancel and to the operation that it names (RFC 3909). Their texts stand with
/// the written bodies.
#[derive(Clone, Copy, Debug, PartialEq, Eq, Drop)]
pub enum CancelAnswer {
    /// To the Cancel: the named operation was ended.
    S1,
    /// To the named operation: it is canceled.
    C13,
    /// To the Cancel: no live operation of the client has the named identifier.
    C14,
    /// To the Cancel: it names itself, and a Cancel can't be canceled.
    C15,
    /// To the Cancel: its value can't be read.
    C16,
}

/// Why a client's or an upstream connection's part ended.
#[derive(Clone, Copy, Debug, PartialEq, Eq, Drop)]
pub enum EndWhy {
    /// The client sent an Unbind.
    Left,
    /// The link was lost.
    Lost,
    /// Bytes came that are no message, or a message that has no place here.
    Bad,
    /// A message came that is longer than the limit.
    TooBig,
    /// A request came with identifier 0.
    ZeroId,
    /// A request came with the identifier of a live operation.
    IdInUse,
    /// A field of a request can't be read.
    Unreadable,
    /// The link took no bytes for too long.
    IoTimeout,
    /// There was no memory for it.
    Memory,
    /// The daemon stopped.
    Stopped,
    /// The proxy's own Bind wasn't answered with success.
    OwnBind,
    /// A Bind wasn't answered in time.
    TimedOut,
    /// The holder of a bind connection left within its exchange.
    Unfinished,
    /// A retired connection has nothing left to do.
    Drained,
}

/// What one part tells another.
#[derive(Debug, Drop)]
pub enum Letter {
    /// From a client to the desk: a connection is wanted.
    Ask {
        op: OpName,
        want: Want,
    },
    /// From the desk to a client: the choice.
    Choice {
        op: OpName,
        answer: Answer,
    },
    /// From a client to the desk: the choice came too late.
    Returned {
        op: OpName,
        conn: u32,
    },
    /// From a client to a connection: send this. `holder` is the operation that was chosen, and `ask_who` says
    /// that the identity behind a success is asked for.
    Forward {
        op: OpName,
        kind: OpKind,
        rest: Body,
        ask_who: bool,
        holder: OpName,
    },
    /// From a connection to a client: an answer, whether it is the last, and the identity that was asked for.
    Reply {
        op: OpName,
        rest: Body,
        last: bool,
        who: Option<Body>,
    },
    /// From a connection to a client: a refusal.
    Failed {
        op: OpName,
        which: Refusal,
    },
    /// From a client to a connection: the operation was ended by its client.
    Drop {
        op: OpName,
    },
    /// From a client to a bind connection: its holder leaves.
    Leave {
        holder: OpName,
    },
    /// From a connection to the desk: the chosen operation is no longer pending; its latency in milliseconds.
    Ended {
        op: OpName,
        conn: u32,
        latency: Option<u32>,
    },
    /// From a connection to the desk: it is up.
    IsUp {
        conn: u32,
    },
    /// From a connection to the desk: it takes no further operations.
    IsRetired {
        conn: u32,
    },
    /// From a connection to the desk: it has ended.
    IsDown {
        conn: u32,
    },
    /// From a client to a regular connection: nothing more is to be read for it.
    Pause {
        client: u32,
    },
    /// From a client to a regular connection that it paused: it reads again, or is gone.
    Resume {
        client: u32,
    },
}

impl Letter {
    /// The same letter again. For want of memory nothing is made.
    pub fn copy(&self) -> Result<Letter, NoMemory>
        ensures { IfOk result (λ l. l ≡ self.now) }
    {
        match self {
            Letter::Ask { op, want } => Ok(Letter::Ask {
                op: *op,
                want: *want,
            }),
            Letter::Choice { op, answer } => Ok(Letter::Choice {
                op: *op,
                answer: *answer,
            }),
            Letter::Returned { op, conn } => Ok(Letter::Returned {
                op: *op,
                conn: *conn,
            }),
            Letter::Forward {
                op,
                kind,
                rest,
                ask_who,
                holder,
            } => {
                let rest = rest.copy()?;
                Ok(Letter::Forward {
                    op: *op,
                    kind: *kind,
                    rest,
                    ask_who: *ask_who,
                    holder: *holder,
                })
            }
            Letter::Reply {
                op,
                rest,
                last,
                who,
            } => {
                let rest = rest.copy()?;
                let who = copy_some(who)?;
                Ok(Letter::Reply {
                    op: *op,
                    rest,
                    last: *last,
                    who,
                })
            }
            Letter::Failed { op, which } => Ok(Letter::Failed {
                op: *op,
                which: *which,
            }),
            Letter::Drop { op } => Ok(Letter::Drop { op: *op }),
            Letter::Leave { holder } => Ok(Letter::Leave { holder: *holder }),
            Letter::Ended { op, conn, latency } => {
                Ok(Letter::Ended {
                    op: *op,
                    conn: *conn,
                    latency: *latency,
                })
            }
            Letter::IsUp { conn } => Ok(Letter::IsUp { conn: *conn }),
            Letter::IsRetired { conn } => Ok(Letter::IsRetired { conn: *conn }),
            Letter::IsDown { conn } => Ok(Letter::IsDown { conn: *conn }),
            Letter::Pause { client } => Ok(Letter::Pause { client: *client }),
            Letter::Resume { client } => { Ok(Letter::Resume { client: *client }) }
        }
    }
}

fn copy_some(who: &Option<Body>) -> Result<Option<Body>, NoMemory>
    ensures { IfOk result (λ w. w ≡ who.now) }
{
    match who {
        Some(body) => {
            let body = body.copy()?;
            Ok(Some(body))
        }
        None => Ok(None),
    }
}

/// What happened to a part: the entry's own content. Each letter that a part takes leaves exactly one of these.
#[derive(Debug, Drop)]
pub enum What {
    /// A client's part begins.
    Arrived,
    /// A message came from the client.
    In {
        id: u32,
        rest: Body,
    },
    /// The client's part learned the desk's choice.
    Chosen {
        op: OpName,
        answer: Answer,
    },
    /// A message went to the client.
    Out {
        id: u32,
        rest: Body,
    },
    /// A letter came for an operation that is no longer live.
    Late {
        op: OpName,
    },
    /// The client's part ended.
    Gone {
        why: EndWhy,
    },
    /// The client doesn't read what it is sent.
    Stalled,
    /// The client reads again.
    Flowing,
    /// A connection's part begins.
    Linked,
    /// The connection takes operations from now on.
    Up,
    /// The connection takes no further operations.
    Retired,
    /// An operation's request went upstream.
    Sent {
        id: u32,
        op: OpName,
        rest: Body,
    },
    /// A message of the proxy's own went upstream.
    Own {
        id: u32,
        rest: Body,
    },
    /// A message came from the upstream.
    Got {
        id: u32,
        rest: Body,
    },
    /// An operation wasn't answered in time.
    Expired {
        op: OpName,
    },
    /// A request came when the connection no longer takes any.
    Missed {
        op: OpName,
    },
    /// A letter came that had nothing left to end.
    Idle {
        op: OpName,
    },
    /// A stalled client wants nothing more read from the connection.
    Paused {
        client: u32,
    },
    /// The client no longer keeps the connection from being read.
    Resumed {
        client: u32,
    },
    /// The connection's part ended.
    Down {
        why: EndWhy,
    },
    /// The desk was asked for a connection.
    Asked {
        op: OpName,
        want: Want,
    },
    /// The desk chose, with this random word.
    Chose {
        op: OpName,
        answer: Answer,
        word: u64,
    },
    /// The desk heard this letter.
    Heard {
        letter: Letter,
    },
    /// The desk chooses by the plan of this number from now on, for connections above the base.
    Replanned {
        plan: u32,
        base: u32,
    },
}

/// One line of a journal: the part, its moment in milliseconds, and what happened.
#[derive(Debug, Drop)]
pub struct Entry {
    pub part: PartName,
    pub at: u64,
    pub what: What,
}

/// A letter with its receiver.
#[derive(Debug, Drop)]
pub struct Posted {
    pub to: PartName,
    pub letter: Letter,
}

ghost use Rattle.std.specs.Prelude.{◌≡◌, ◌∷◌, ◌==◌, List, IfSome, IsTrue, MatchOption, codes};
ghost use Rattle.std.specs.List.{position};
ghost use Rattle.std.specs.Option.{option_map, option_and_then};
ghost use Rattle.lload_names.specs.declared.names.PartName.TheVariants.{Client, Up};
ghost use Rattle.lload_spec.specs.Entries.{is_news};
ghost use Rattle.lload_spec.specs.Writable.{can_be_written};
ghost use Rattle.replay_script.specs.EntryLines.{HasMessage};
ghost use Rattle.replay_script.specs.EntryFields.{behind, bound_of, chose_of, desk_event, ended_of, end_event, first_by, is_dot, kind_of, late_why_of, latency_of, letter_of, next_answer, next_by, next_op, next_part, next_short, op_and_answer, op_and_conn, op_of, plain_event, want_of, why_of};

use crate::numbers::{read_u32, read_u64};
use crate::read::is;
use crate::words::Words;
use lload_names::{Answer, Bound, ConnKind, EndWhy, Letter, OpName, PartName, Want, What};

/// What happened by a word alone, or with fields that aren't messages behind the word.
pub fn read_event(word: &[u8], words: Words) -> Option<What>
    ensures read { result ≡ plain_event word.now words.entry }
    ensures writable { IfSome result (λ what. IsTrue (can_be_written what)) }
    ensures plain { IfSome result (λ what. HasMessage what) }
{
    if is(word, "arrived") {
        Some(What::Arrived)
    } else if is(word, "stalled") {
        Some(What::Stalled)
    } else if is(word, "flowing") {
        Some(What::Flowing)
    } else if is(word, "linked") {
        Some(What::Linked)
    } else if is(word, "up") {
        Some(What::Up)
    } else if is(word, "retired") {
        Some(What::Retired)
    } else {
        read_end_event(word, words)
    }
}

/// What happened to an operation or to a part, or between a client and a connection.
fn read_end_event(word: &[u8], mut words: Words) -> Option<What>
    ensures read { result ≡ end_event word.now words.entry }
    ensures writable { IfSome result (λ what. IsTrue (can_be_written what)) }
    ensures plain { IfSome result (λ what. HasMessage what) }
{
    if is(word, "late") {
        Some(What::Late {
            op: read_next_op(&mut words)?,
        })
    } else if is(word, "expired") {
        Some(What::Expired {
            op: read_next_op(&mut words)?,
        })
    } else if is(word, "missed") {
        Some(What::Missed {
            op: read_next_op(&mut words)?,
        })
    } else if is(word, "idle") {
        Some(What::Idle {
            op: read_next_op(&mut words)?,
        })
    } else if is(word, "gone") {
        Some(What::Gone {
            why: read_why(words.next_word()?)?,
        })
    } else if is(word, "down") {
        Some(What::Down {
            why: read_why(words.next_word()?)?,
        })
    } else if is(word, "paused") {
        Some(What::Paused {
            client: read_next_u32(&mut words)?,
        })
    } else if is(word, "resumed") {
        Some(What::Resumed {
            client: read_next_u32(&mut words)?,
        })
    } else {
        read_desk_event(word, words)
    }
}

/// What happened at the desk, or between it and a client.
fn read_desk_event(word: &[u8], mut words: Words) -> Option<What>
    ensures read { result ≡ desk_event word.now words.entry }
    ensures writable { IfSome result (λ what. IsTrue (can_be_written what)) }
    ensures plain { IfSome result (λ what. HasMessage what) }
{
    if is(word, "chosen") {
        let (op, answer) = read_op_and_answer(&mut words)?;
        Some(What::Chosen { op, answer })
    } else if is(word, "chose") {
        read_chose(words)
    } else if is(word, "asked") {
        let op = read_next_op(&mut words)?;
        let want = read_want(words)?;
        Some(What::Asked { op, want })
    } else if is(word, "heard") {
        let letter = read_letter(words)?;
        Some(What::Heard { letter })
    } else if is(word, "replanned") {
        let plan = read_next_u32(&mut words)?;
        let base = read_u32_behind(&mut words, "base")?;
        Some(What::Replanned { plan, base })
    } else {
        None
    }
}

/// Reads an operation, the desk's answer and the random word of its choice.
fn read_chose(mut words: Words) -> Option<What>
    ensures read { result ≡ option_and_then chose_of (op_and_answer words.entry) }
    ensures writable { IfSome result (λ what. IsTrue (can_be_written what)) }
    ensures plain { IfSome result (λ what. HasMessage what) }
{
    let (op, answer) = read_op_and_answer(&mut words)?;
    read_key(&mut words, "word")?;
    let word = read_u64(words.next_word()?)?;
    Some(What::Chose { op, answer, word })
}

/// Reads an operation and the desk's answer, and leaves the words behind them.
fn read_op_and_answer(words: &mut Words) -> Option<(OpName, Answer)>
    ensures { MatchOption result (op_and_answer words.old ≡ None) (λ r. op_and_answer words.old ≡ Some (r.0, r.1, words.new)) }
{
    let op = read_next_op(words)?;
    let answer = read_answer(words)?;
    Some((op, answer))
}

/// Reads the letter that the desk heard.
fn read_letter(mut words: Words) -> Option<Letter>
    ensures read { result ≡ letter_of words.entry }
    ensures news { IfSome result (λ letter. IsTrue (is_news letter)) }
{
    let word = words.next_word()?;
    if is(word, "up") {
        Some(Letter::IsUp {
            conn: read_next_u32(&mut words)?,
        })
    } else if is(word, "retired") {
        Some(Letter::IsRetired {
            conn: read_next_u32(&mut words)?,
        })
    } else if is(word, "down") {
        Some(Letter::IsDown {
            conn: read_next_u32(&mut words)?,
        })
    } else if is(word, "returned") {
        let (op, conn) = read_op_and_conn(&mut words)?;
        Some(Letter::Returned { op, conn })
    } else if is(word, "ended") {
        read_ended(words)
    } else {
        None
    }
}

/// Reads an operation that ended, its connection and its latency.
fn read_ended(mut words: Words) -> Option<Letter>
    ensures read { result ≡ option_and_then ended_of (op_and_conn words.entry) }
    ensures news { IfSome result (λ letter. IsTrue (is_news letter)) }
{
    let (op, conn) = read_op_and_conn(&mut words)?;
    let latency = read_latency_behind(words)?;
    Some(Letter::Ended { op, conn, latency })
}

/// Reads an operation and its connection, and leaves the words behind them.
fn read_op_and_conn(words: &mut Words) -> Option<(OpName, u32)>
    ensures { MatchOption result (op_and_conn words.old ≡ None) (λ r. op_and_conn words.old ≡ Some (r.0, r.1, words.new)) }
{
    let op = read_next_op(words)?;
    let conn = read_u32_behind(words, "up")?;
    Some((op, conn))
}

/// Reads the latency behind its word.
fn read_latency_behind(mut words: Words) -> Option<Option<u32>>
    ensures { result ≡ behind (codes "latency") (first_by latency_of) words.entry }
{
    read_key(&mut words, "latency")?;
    read_latency(words.next_word()?)
}

/// Reads a latency in milliseconds, or `none`.
fn read_latency(word: &[u8]) -> Option<Option<u32>>
    ensures { result ≡ latency_of word.now }
{
    if is(word, "none") {
        Some(None)
    } else {
        Some(Some(read_u32(word)?))
    }
}

/// Reads the wanted kind of connection and what the client is bound to.
fn read_want(mut words: Words) -> Option<Want>
    ensures { result ≡ want_of words.entry }
{
    let kind = read_kind(words.next_word()?)?;
    let bound = read_bound(words)?;
    Some(Want { kind, bound })
}

/// Reads the wanted kind of connection.
fn read_kind(word: &[u8]) -> Option<ConnKind>
    ensures { result ≡ kind_of word.now }
{
    if is(word, "regular") {
        Some(ConnKind::Regular)
    } else if is(word, "bind") {
        Some(ConnKind::Bind)
    } else {
        None
    }
}

/// Reads what the client is bound to.
fn read_bound(mut words: Words) -> Option<Bound>
    ensures { result ≡ bound_of words.entry }
{
    let word = words.next_word()?;
    if is(word, "free") {
        Some(Bound::Free)
    } else if is(word, "backend") {
        Some(Bound::Backend(read_next_u32(&mut words)?))
    } else if is(word, "conn") {
        Some(Bound::Conn(read_next_u32(&mut words)?))
    } else {
        None
    }
}

/// Reads the desk's answer, and leaves the words behind it.
fn read_answer(words: &mut Words) -> Option<Answer>
    ensures { MatchOption result (next_answer words.old ≡ None) (λ answer. next_answer words.old ≡ Some (answer, words.new)) }
{
    let word = words.next_word()?;
    if is(word, "up") {
        let conn = read_next_u32(words)?;
        let backend = read_u32_behind(words, "of")?;
        Some(Answer::Go { conn, backend })
    } else if is(word, "busy") {
        Some(Answer::Busy)
    } else if is(word, "unavailable") {
        Some(Answer::Unavailable)
    } else {
        None
    }
}

/// Reads the part that the next words name, and leaves the words behind it.
pub fn read_named_part(words: &mut Words) -> Option<PartName>
    ensures { MatchOption result (next_part words.old ≡ None) (λ part. next_part words.old ≡ Some (part, words.new)) }
{
    let word = words.next_word()?;
    if is(word, "desk") {
        Some(PartName::Desk)
    } else if is(word, "client") {
        Some(PartName::Client(read_next_u32(words)?))
    } else if is(word, "up") {
        Some(PartName::Up(read_next_u32(words)?))
    } else {
        None
    }
}

/// Reads the operation that the next word says, and leaves the words behind it.
pub fn read_next_op(words: &mut Words) -> Option<OpName>
    ensures { MatchOption result (next_op words.old ≡ None) (λ op. next_op words.old ≡ Some (op, words.new)) }
{
    read_op(words.next_word()?)
}

/// Reads the operation that a word says: its client, a dot and its number there.
fn read_op(word: &[u8]) -> Option<OpName>
    ensures { result ≡ op_of word.now }
{
    let dot = first_dot(word)?;
    Some(OpName {
        client: read_u32(&word[..dot])?,
        k: read_u64(&word[dot + 1..])?,
    })
}

/// The index of the first dot.
fn first_dot(word: &[u8]) -> Option<usize>
    ensures { result ≡ position is_dot word.now }
{
    word.iter().position(|byte| *byte == b'.')
}

/// Reads the number that the next word says, and leaves the words behind it.
fn read_next_u32(words: &mut Words) -> Option<u32>
    ensures { MatchOption result (next_short words.old ≡ None) (λ number. next_short words.old ≡ Some (number, words.new)) }
{
    read_u32(words.next_word()?)
}

/// Reads the number behind this word, and leaves the words behind it.
fn read_u32_behind(words: &mut Words, key: &str) -> Option<u32>
    ensures { MatchOption result (behind key.now next_short words.old ≡ None) (λ number. behind key.now next_short words.old ≡ Some (number, words.new)) }
{
    read_key(words, key)?;
    read_next_u32(words)
}

/// Passes this word.
fn read_key(words: &mut Words, key: &str) -> Option<()>
    ensures { MatchOption result (behind key.now (λ ws. Some ws) words.old ≡ None) (λ unit. behind key.now (λ ws. Some ws) words.old ≡ Some words.new) }
{
    if is(words.next_word()?, key) {
        Some(())
    } else {
        None
    }
}

/// Reads the reason of an end.
fn read_why(word: &[u8]) -> Option<EndWhy>
    ensures { result ≡ why_of word.now }
{
    if is(word, "left") {
        Some(EndWhy::Left)
    } else if is(word, "lost") {
        Some(EndWhy::Lost)
    } else if is(word, "bad") {
        Some(EndWhy::Bad)
    } else if is(word, "toobig") {
        Some(EndWhy::TooBig)
    } else if is(word, "zeroid") {
        Some(EndWhy::ZeroId)
    } else if is(word, "idinuse") {
        Some(EndWhy::IdInUse)
    } else if is(word, "unreadable") {
        Some(EndWhy::Unreadable)
    } else {
        read_late_why(word)
    }
}

/// Reads the reason of an end that came by time, by want of memory or by the proxy itself.
fn read_late_why(word: &[u8]) -> Option<EndWhy>
    ensures { result ≡ late_why_of word.now }
{
    if is(word, "iotimeout") {
        Some(EndWhy::IoTimeout)
    } else if is(word, "memory") {
        Some(EndWhy::Memory)
    } else if is(word, "stopped") {
        Some(EndWhy::Stopped)
    } else if is(word, "ownbind") {
        Some(EndWhy::OwnBind)
    } else if is(word, "timedout") {
        Some(EndWhy::TimedOut)
    } else if is(word, "unfinished") {
        Some(EndWhy::Unfinished)
    } else if is(word, "drained") {
        Some(EndWhy::Drained)
    } else {
        None
    }
}

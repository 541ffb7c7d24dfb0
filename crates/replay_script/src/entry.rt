ghost use Rattle.std.specs.Prelude.{◌≡◌, ◌++◌, IfOk, IsTrue, OnOk, codes, string_bytes};
ghost use Rattle.lload_spec.specs.Transcript.{answer_text, bound_text, entry_text, kind_text, latency_text, letter_text, message_text, op_text, part_text, what_text, why_text};
ghost use Rattle.lload_spec.specs.Entries.{is_news};
ghost use Rattle.lload_spec.specs.Writable.{can_be_spelled, can_be_written};

use ber_envelope::write_envelope;
use lload_names::{
    Answer, Body, Bound, ConnKind, EndWhy, Entry, Letter, NoMemory, OpName, PartName, Want, What,
};
use std::alloc::Global;

/// Writes the line of an entry, with its end, as the text of a journal has it (this project's own): the moment in
/// milliseconds, the part and what happened. Its only error is want of memory.
pub fn entry_line(alloc: Global, entry: &Entry) -> Result<Body, NoMemory>
    requires { IsTrue (can_be_written entry.now.what) }
    ensures { IfOk result (λ line. line ≡ entry_text entry.now) }
{
    let at = entry.at;
    let mut line = format!(in alloc; "{at} ")?;
    write_part(&mut line, entry.part)?;
    line.push_str(" ")?;
    write_what(alloc, &mut line, &entry.what)?;
    line.push_str("\n")?;
    Ok(Body::from_vec(line.into_bytes()))
}

/// Appends the part: `desk`, `client N` or `up N`.
fn write_part(line: &mut String, part: PartName) -> Result<(), NoMemory>
    ensures { OnOk result (string_bytes line.new ≡ string_bytes line.old ++ part_text part) }
{
    match part {
        PartName::Desk => line.push_str("desk")?,
        PartName::Client(n) => write!(line, "client {n}")?,
        PartName::Up(n) => write!(line, "up {n}")?,
    }
    Ok(())
}

/// Appends the words for what happened.
fn write_what(alloc: Global, line: &mut String, what: &What) -> Result<(), NoMemory>
    requires { IsTrue (can_be_written what.now) }
    ensures { OnOk result (string_bytes line.new ≡ string_bytes line.old ++ what_text what.now) }
{
    match what {
        What::Arrived => Ok(line.push_str("arrived")?),
        What::In { id, rest } => write_message(alloc, line, "in ", *id, rest),
        What::Chosen { op, answer } => write_choice(line, "chosen ", *op, *answer),
        What::Out { id, rest } => write_message(alloc, line, "out ", *id, rest),
        What::Late { op } => write_op(line, "late ", *op),
        What::Gone { why } => write_end(line, "gone ", *why),
        What::Stalled => Ok(line.push_str("stalled")?),
        What::Flowing => Ok(line.push_str("flowing")?),
        What::Linked => Ok(line.push_str("linked")?),
        What::Up => Ok(line.push_str("up")?),
        What::Retired => Ok(line.push_str("retired")?),
        What::Sent { id, op, rest } => {
            write_op(line, "sent ", *op)?;
            write_message(alloc, line, " ", *id, rest)
        }
        What::Own { id, rest } => write_message(alloc, line, "own ", *id, rest),
        What::Got { id, rest } => write_message(alloc, line, "got ", *id, rest),
        What::Expired { op } => write_op(line, "expired ", *op),
        What::Missed { op } => write_op(line, "missed ", *op),
        What::Idle { op } => write_op(line, "idle ", *op),
        What::Paused { client } => Ok(write!(line, "paused {client}")?),
        What::Resumed { client } => Ok(write!(line, "resumed {client}")?),
        What::Down { why } => write_end(line, "down ", *why),
        What::Asked { op, want } => {
            write_op(line, "asked ", *op)?;
            write_want(line, *want)
        }
        What::Chose { op, answer, word } => {
            write_choice(line, "chose ", *op, *answer)?;
            Ok(write!(line, " word {word}")?)
        }
        What::Heard { letter } => write_letter(line, letter),
        What::Replanned { plan, base } => Ok(write!(line, "replanned {plan} base {base}")?),
    }
}

/// Appends some words and a message, in the upper case hexadecimal of its canonical spelling.
fn write_message(
    alloc: Global,
    line: &mut String,
    before: &str,
    id: u32,
    rest: &Body,
) -> Result<(), NoMemory>
    requires { IsTrue (can_be_spelled id rest.now) }
    ensures { OnOk result (string_bytes line.new ≡ string_bytes line.old ++ (before.now ++ message_text id rest.now)) }
{
    let mut bytes = Vec::new(alloc);
    write_envelope(id, rest.as_slice(), &mut bytes)?;
    let message = hex::encode_upper(alloc, bytes.as_slice())?;
    Ok(write!(line, "{before}{message}")?)
}

/// Appends some words and an operation: its client, a dot and its number there.
fn write_op(line: &mut String, before: &str, op: OpName) -> Result<(), NoMemory>
    ensures { OnOk result (string_bytes line.new ≡ string_bytes line.old ++ (before.now ++ op_text op)) }
{
    let OpName { client, k } = op;
    Ok(write!(line, "{before}{client}.{k}")?)
}

/// Appends some words, an operation and the desk's answer.
fn write_choice(line: &mut String, before: &str, op: OpName, answer: Answer) -> Result<(), NoMemory>
    ensures { OnOk result (string_bytes line.new ≡ string_bytes line.old ++ (before.now ++ (op_text op ++ (codes " " ++ answer_text answer)))) }
{
    write_op(line, before, op)?;
    write_answer(line, answer)
}

/// Appends a space and the desk's answer: `up N of B`, `busy` or `unavailable`.
fn write_answer(line: &mut String, answer: Answer) -> Result<(), NoMemory>
    ensures { OnOk result (string_bytes line.new ≡ string_bytes line.old ++ (codes " " ++ answer_text answer)) }
{
    match answer {
        Answer::Go { conn, backend } => write!(line, " up {conn} of {backend}")?,
        Answer::Busy => line.push_str(" busy")?,
        Answer::Unavailable => line.push_str(" unavailable")?,
    }
    Ok(())
}

/// Appends the wanted kind of connection and what the client is bound to, each behind a space.
fn write_want(line: &mut String, want: Want) -> Result<(), NoMemory>
    ensures { OnOk result (string_bytes line.new ≡ string_bytes line.old ++ (codes " " ++ (kind_text want.kind ++ (codes " " ++ bound_text want.bound)))) }
{
    line.push_str(match want.kind {
        ConnKind::Regular => " regular",
        ConnKind::Bind => " bind",
    })?;
    match want.bound {
        Bound::Free => line.push_str(" free")?,
        Bound::Backend(backend) => write!(line, " backend {backend}")?,
        Bound::Conn(conn) => write!(line, " conn {conn}")?,
    }
    Ok(())
}

/// Appends some words and the reason of an end.
fn write_end(line: &mut String, before: &str, why: EndWhy) -> Result<(), NoMemory>
    ensures { OnOk result (string_bytes line.new ≡ string_bytes line.old ++ (before.now ++ why_text why)) }
{
    let why = why_word(why);
    Ok(write!(line, "{before}{why}")?)
}

/// The word for the reason of an end.
fn why_word(why: EndWhy) -> &'static str
    ensures { result.now ≡ why_text why }
{
    match why {
        EndWhy::Left => "left",
        EndWhy::Lost => "lost",
        EndWhy::Bad => "bad",
        EndWhy::TooBig => "toobig",
        EndWhy::ZeroId => "zeroid",
        EndWhy::IdInUse => "idinuse",
        EndWhy::Unreadable => "unreadable",
        EndWhy::IoTimeout => "iotimeout",
        EndWhy::Memory => "memory",
        EndWhy::Stopped => "stopped",
        EndWhy::OwnBind => "ownbind",
        EndWhy::TimedOut => "timedout",
        EndWhy::Unfinished => "unfinished",
        EndWhy::Drained => "drained",
    }
}

/// Appends the words for a letter that the desk heard.
fn write_letter(line: &mut String, letter: &Letter) -> Result<(), NoMemory>
    requires { IsTrue (is_news letter.now) }
    ensures { OnOk result (string_bytes line.new ≡ string_bytes line.old ++ (codes "heard " ++ letter_text letter.now)) }
{
    match letter {
        Letter::IsUp { conn } => Ok(write!(line, "heard up {conn}")?),
        Letter::IsRetired { conn } => Ok(write!(line, "heard retired {conn}")?),
        Letter::IsDown { conn } => Ok(write!(line, "heard down {conn}")?),
        Letter::Returned { op, conn } => {
            write_op(line, "heard returned ", *op)?;
            Ok(write!(line, " up {conn}")?)
        }
        Letter::Ended { op, conn, latency } => {
            write_op(line, "heard ended ", *op)?;
            write!(line, " up {conn} latency ")?;
            write_latency(line, *latency)
        }
        _ => unreachable!(),
    }
}

/// Appends a latency in milliseconds, or `none`.
fn write_latency(line: &mut String, latency: Option<u32>) -> Result<(), NoMemory>
    ensures { OnOk result (string_bytes line.new ≡ string_bytes line.old ++ latency_text latency) }
{
    match latency {
        Some(latency) => write!(line, "{latency}")?,
        None => line.push_str("none")?,
    }
    Ok(())
}

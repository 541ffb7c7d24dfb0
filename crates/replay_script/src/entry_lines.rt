ghost use Rattle.std.specs.Prelude.{◌≡◌, IfOk, IsSome, MatchOption, Some, None, Err};
ghost use Rattle.lload_spec.specs.Writable.{can_be_spelled as is_spellable};
ghost use Rattle.replay_script.specs.EntryFields.{fields_by, head_of, octets_in};
ghost use Rattle.replay_script.specs.EntryLines.{entry_of, HasLine, NoneHasTheLine, ReadIsWritten, WrittenIsRead};
ghost use Rattle.replay_script.specs.EntryReading.{ReadsMessage, ReadsWhat, ReadsSent, ReadsFields};

use crate::entry::entry_line;
use crate::fields::{read_event, read_named_part, read_next_op};
use crate::numbers::read_u64;
use crate::read::{LineFault, is, read_hex};
use crate::words::Words;
use ber_envelope::{Envelope, Read};
use lload_names::{Body, Entry, PartName, What};
use std::alloc::Global;

/// The most octets of the contents of a message whose rest is not too long.
const LONGEST: u32 = (1 << 30) + 5;

/// Reads the line of an entry, with its end, as `entry_line` writes it (this project's own). `NotACommand` comes only where
/// the line is no entry's; `NoMemory` comes only where its words are an entry's, but for the octets of a message.
pub fn read_entry(alloc: Global, bytes: &[u8]) -> Result<Entry, LineFault>
    ensures entry { IfOk result (λ e. entry_of bytes.now ≡ Some e) }
    ensures has_line { IfOk result (λ e. HasLine e) }
    ensures refused { result ≡ Err LineFault.NotACommand → entry_of bytes.now ≡ None }
    ensures no_memory { result ≡ Err LineFault.NoMemory → IsSome (fields_by octets_in bytes.now) }
{
    let entry = read_fields(alloc, bytes)?;
    match entry_line(alloc, &entry) {
        Ok(line) if line.as_slice() == bytes => Ok(entry),
        Ok(_) => Err(LineFault::NotACommand),
        Err(_) => Err(LineFault::NoMemory),
    }
}

/// What was written of an entry is read as this entry, so no two entries have the same line; what is read of a line is
/// written as this line; and where nothing is read, no entry has the line.
pub fn entries_are_read()
    ensures written { WrittenIsRead }
    ensures read { ReadIsWritten }
    ensures none { NoneHasTheLine }
{}

/// Reads the fields of a line, each at its place.
fn read_fields(alloc: Global, bytes: &[u8]) -> Result<Entry, LineFault>
    ensures { ReadsFields bytes.now result }
{
    let mut words = Words::of(&bytes[..bytes.len().saturating_sub(1)]);
    let Some((at, part)) = read_head(&mut words) else {
        return Err(LineFault::NotACommand);
    };
    let what = read_what(alloc, words)?;
    Ok(Entry { part, at, what })
}

/// Reads what happened, with its message where it has one.
fn read_what(alloc: Global, mut words: Words) -> Result<What, LineFault>
    ensures { ReadsWhat words.entry result }
{
    let Some(word) = words.next_word() else {
        return Err(LineFault::NotACommand);
    };
    if is(word, "in") {
        let (id, rest) = read_message(alloc, words)?;
        Ok(What::In { id, rest })
    } else if is(word, "out") {
        let (id, rest) = read_message(alloc, words)?;
        Ok(What::Out { id, rest })
    } else if is(word, "own") {
        let (id, rest) = read_message(alloc, words)?;
        Ok(What::Own { id, rest })
    } else if is(word, "got") {
        let (id, rest) = read_message(alloc, words)?;
        Ok(What::Got { id, rest })
    } else if is(word, "sent") {
        read_sent(alloc, words)
    } else {
        read_event(word, words).ok_or(LineFault::NotACommand)
    }
}

/// Reads an operation, and the message that was sent for it.
fn read_sent(alloc: Global, mut words: Words) -> Result<What, LineFault>
    ensures { ReadsSent words.entry result }
{
    let Some(op) = read_next_op(&mut words) else {
        return Err(LineFault::NotACommand);
    };
    let (id, rest) = read_message(alloc, words)?;
    Ok(What::Sent { id, op, rest })
}

/// Reads the message that the first word spells in hexadecimal.
fn read_message(alloc: Global, mut words: Words) -> Result<(u32, Body), LineFault>
    ensures { ReadsMessage words.entry result }
{
    let Some(word) = words.next_word() else {
        return Err(LineFault::NotACommand);
    };
    let bytes = read_hex(alloc, word)?;
    let bytes = bytes.as_slice();
    let Read::Whole { id, rest_at, end } = Envelope::read(bytes, LONGEST) else {
        return Err(LineFault::NotACommand);
    };
    let rest = &bytes[rest_at..end];
    if !can_be_spelled(id, rest) {
        return Err(LineFault::NotACommand);
    }
    match Body::from_slice(alloc, rest) {
        Ok(rest) => Ok((id, rest)),
        Err(_) => Err(LineFault::NoMemory),
    }
}

/// Whether a message is short enough to have a spelling in a line.
fn can_be_spelled(id: u32, rest: &[u8]) -> bool
    ensures { result ≡ is_spellable id rest.now }
{
    id < 1 << 31 && rest.len() < 1 << 30
}

/// Reads the moment and the part of an entry, and leaves the words behind them.
fn read_head(words: &mut Words) -> Option<(u64, PartName)>
    ensures { MatchOption result (head_of words.old ≡ None) (λ head. head_of words.old ≡ Some (head.0, head.1, words.new)) }
{
    let at = read_u64(words.next_word()?)?;
    let part = read_named_part(words)?;
    Some((at, part))
}

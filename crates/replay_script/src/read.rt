ghost use Rattle.std.specs.Prelude.{◌≡◌, [], ◌∷◌, ◌↔◌, ◌^◌, IfOk, MatchOption};
ghost use Rattle.std.specs.Char.{is_ascii_hexdigit};
ghost use Rattle.std.specs.List.{list_all};
ghost use Rattle.std.specs.Option.{option_and_then};
ghost use Rattle.std.specs.Str.{bytes_eq};
ghost use Rattle.lload_spec.specs.Script.{alone, bytes_of, client_command, command_of, command_of_words, event_command, of_number, part_of, step_command, step_from, step_tick, up_command};
ghost use Rattle.lload_names.specs.declared.command.Command.TheVariants.{Tick, SetWord, Settle};
ghost use Rattle.replay_script.specs.Read.{fed_bytes, hex_test, HoldsOctets, Reads, ReadsCommand};

use crate::numbers::{read_part_number, read_u32, read_u64};
use crate::words::Words;
use lload_names::{Body, Command, PartName};
use std::alloc::Global;

/// Why a line gives no command or no entry.
#[derive(Clone, Copy, Debug, PartialEq, Eq, Drop)]
pub enum LineFault {
    /// The line isn't in the grammar of scripts, or is no entry's.
    NotACommand,
    /// There was no memory for the command, or for the entry.
    NoMemory,
}

/// Reads a line of a script, without its end, by the grammar of scripts (this project's own). `NotACommand` comes
/// exactly where the line isn't in the grammar; `NoMemory` comes only where it is a command that holds octets.
pub fn read_line(alloc: Global, bytes: &[u8]) -> Result<Command, LineFault>
    ensures command { IfOk result (λ command. command_of bytes.now ≡ Some command) }
    ensures refused { (result ≡ Err LineFault.NotACommand) ↔ (command_of bytes.now ≡ None) }
    ensures no_memory { result ≡ Err LineFault.NoMemory → HoldsOctets (command_of bytes.now) }
{
    read_words(alloc, Words::of(bytes))
}

/// Reads the words of a line.
fn read_words(alloc: Global, mut words: Words) -> Result<Command, LineFault>
    ensures { ReadsCommand result (command_of_words words.entry) }
{
    let Some(first) = words.next_word() else {
        return Err(LineFault::NotACommand);
    };
    let command = if is(first, "settle") {
        read_alone(Command::Settle, words)
    } else if is(first, "reload") {
        read_alone(Command::Reload, words)
    } else if is(first, "tick") {
        read_tick(words)
    } else if is(first, "word") {
        read_word(words)
    } else if is(first, "step") {
        read_step(words)
    } else {
        return read_event(alloc, first, words);
    };
    command.ok_or(LineFault::NotACommand)
}

/// Reads what comes from outside to the part that the words name, of which the first is given.
fn read_event(alloc: Global, first: &[u8], mut words: Words) -> Result<Command, LineFault>
    ensures { ReadsCommand result (option_and_then event_command (part_of (first.now ∷ words.entry))) }
{
    match read_part(first, &mut words) {
        Some(PartName::Client(n)) => read_client(alloc, n, words),
        Some(PartName::Up(n)) => read_up(alloc, n, words),
        Some(PartName::Desk) | None => Err(LineFault::NotACommand),
    }
}

/// Reads what comes from outside to a client.
fn read_client(alloc: Global, n: u32, mut words: Words) -> Result<Command, LineFault>
    ensures { ReadsCommand result (client_command n words.entry) }
{
    let Some(verb) = words.next_word() else {
        return Err(LineFault::NotACommand);
    };
    let Some(text) = words.next_word() else {
        return client_event(n, verb).ok_or(LineFault::NotACommand);
    };
    let bytes = read_bytes(alloc, verb, text, words)?;
    Ok(Command::ClientBytes { n, bytes })
}

/// What happens to a client by a word alone.
fn client_event(n: u32, verb: &[u8]) -> Option<Command>
    ensures { result ≡ client_command n (verb.now ∷ []) }
{
    if is(verb, "arrives") {
        Some(Command::ClientArrives { n })
    } else if is(verb, "leaves") {
        Some(Command::ClientLeaves { n })
    } else if is(verb, "stalls") {
        Some(Command::ClientStalls { n })
    } else if is(verb, "flows") {
        Some(Command::ClientFlows { n })
    } else {
        None
    }
}

/// Reads what comes from outside to a connection.
fn read_up(alloc: Global, n: u32, mut words: Words) -> Result<Command, LineFault>
    ensures { ReadsCommand result (up_command n words.entry) }
{
    let Some(verb) = words.next_word() else {
        return Err(LineFault::NotACommand);
    };
    let Some(text) = words.next_word() else {
        return up_event(n, verb).ok_or(LineFault::NotACommand);
    };
    let bytes = read_bytes(alloc, verb, text, words)?;
    Ok(Command::UpBytes { n, bytes })
}

/// What happens to a connection by a word alone.
fn up_event(n: u32, verb: &[u8]) -> Option<Command>
    ensures { result ≡ up_command n (verb.now ∷ []) }
{
    if is(verb, "ready") {
        Some(Command::UpReady { n })
    } else if is(verb, "lost") {
        Some(Command::UpLost { n })
    } else {
        None
    }
}

/// Reads the bytes that a word says in hexadecimal behind the word `bytes`, where no word is behind them.
fn read_bytes(alloc: Global, verb: &[u8], text: &[u8], mut words: Words) -> Result<Body, LineFault>
    ensures { Reads result (fed_bytes (verb.now ∷ text.now ∷ words.entry)) }
{
    if !is(verb, "bytes") || words.next_word().is_some() {
        return Err(LineFault::NotACommand);
    }
    read_hex(alloc, text)
}

/// Reads the bytes that a word says in hexadecimal.
pub(crate) fn read_hex(alloc: Global, text: &[u8]) -> Result<Body, LineFault>
    ensures { Reads result (bytes_of text.now) }
{
    if !is_hex(text) {
        return Err(LineFault::NotACommand);
    }
    match hex::decode(alloc, text) {
        Ok(bytes) => Ok(Body::from_vec(bytes)),
        Err(_) => Err(LineFault::NoMemory),
    }
}

/// Whether a word is an even number of hexadecimal digits.
fn is_hex(text: &[u8]) -> bool
    ensures { result ≡ hex_test text.now }
{
    text.len() % 2 == 0 && are_hex_digits(text)
}

/// Whether all bytes are hexadecimal digits.
fn are_hex_digits(text: &[u8]) -> bool
    ensures { result ≡ list_all is_ascii_hexdigit text.now }
{
    text.iter().all(|byte| byte.is_ascii_hexdigit())
}

/// Reads the number of milliseconds that a moment rises by.
fn read_tick(mut words: Words) -> Option<Command>
    ensures { result ≡ of_number (λ ms. Tick ms) (2 ^ 32) words.entry }
{
    let ms = read_u32(words.next_word()?)?;
    read_alone(Command::Tick { ms }, words)
}

/// Reads the desk's word.
fn read_word(mut words: Words) -> Option<Command>
    ensures { result ≡ of_number (λ w. SetWord w) (2 ^ 64) words.entry }
{
    let w = read_u64(words.next_word()?)?;
    read_alone(Command::SetWord { w }, words)
}

/// Reads the part that takes a step, and which step.
fn read_step(mut words: Words) -> Option<Command>
    ensures { result ≡ option_and_then step_command (part_of words.entry) }
{
    let first = words.next_word()?;
    let part = read_part(first, &mut words)?;
    read_step_of(part, words)
}

/// Reads which step the part takes.
fn read_step_of(part: PartName, mut words: Words) -> Option<Command>
    ensures { result ≡ step_command (part, words.entry) }
{
    let Some(kind) = words.next_word() else {
        return Some(Command::Step { part });
    };
    if is(kind, "from") {
        return read_sender(part, words);
    }
    let command = if is(kind, "message") {
        Command::StepMessage { part }
    } else if is(kind, "tick") {
        read_tick_of(part)?
    } else {
        return None;
    };
    read_alone(command, words)
}

/// The clock step of a part, which connections alone take.
fn read_tick_of(part: PartName) -> Option<Command>
    ensures { result ≡ step_tick part }
{
    match part {
        PartName::Up(n) => Some(Command::StepTick { n }),
        PartName::Desk | PartName::Client(_) => None,
    }
}

/// Reads the sender of the letter that the part takes.
fn read_sender(part: PartName, mut words: Words) -> Option<Command>
    ensures { result ≡ option_and_then (step_from part) (part_of words.entry) }
{
    let first = words.next_word()?;
    let sender = read_part(first, &mut words)?;
    read_alone(Command::StepFrom { part, sender }, words)
}

/// Reads the part that the words name, of which the first is given.
fn read_part(first: &[u8], words: &mut Words) -> Option<PartName>
    ensures { MatchOption result (part_of (first.now ∷ words.old) ≡ None) (λ part. part_of (first.now ∷ words.old) ≡ Some (part, words.new)) }
{
    if is(first, "desk") {
        Some(PartName::Desk)
    } else if is(first, "client") {
        Some(PartName::Client(read_part_number(words.next_word()?)?))
    } else if is(first, "up") {
        Some(PartName::Up(read_part_number(words.next_word()?)?))
    } else {
        None
    }
}

/// The command, where no word is behind it.
fn read_alone(command: Command, mut words: Words) -> Option<Command>
    ensures { result ≡ alone command words.entry }
{
    match words.next_word() {
        None => Some(command),
        Some(_) => None,
    }
}

/// Whether a word is this one.
pub(crate) fn is(word: &[u8], text: &str) -> bool
    ensures { result ≡ bytes_eq word.now text.now }
{
    word == text.as_bytes()
}

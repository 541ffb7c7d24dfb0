//! How fast messages are read: a stream of messages of 100 octets is read from its first message to its last, once in
//! one piece, by its envelopes, and once in pieces of 16 KiB, through a framer.
//!
//! With no argument it reads the stream once each way and prints how many messages there were. With the argument
//! `measure` it reads it many times, and prints the megabytes that were read in a second on one processor.
#![tactic(auto)]

ghost use Rattle.std.specs.Prelude.{◌≡◌, ◌≤◌, ℕ, List, length, IfOk};
ghost use Rattle.ldap_spec.specs.Framing.{IsStream};
ghost use Rattle.ldap_spec.specs.Messages.{Message};

use anyhow::{Result, bail};
use ber_envelope::{Envelope, NoMemory, Read, write_envelope};
use msg_framer::{Framer, Next};
use std::alloc::Global;
use std::env;
use std::rt::Clock;
use std::time::Instant;

/// The messages of the stream, and the octets of each.
const MESSAGES: usize = 10_000;

const SIZE: usize = 100;

/// How often the stream is read to measure, in one piece and through a framer.
const PASSES: usize = 1_000;

const FRAMED: usize = 100;

/// The octets of a piece.
const PIECE: usize = 16_384;

/// The most octets that contents may have.
const LIMIT: u32 = 262_143;

/// The messages of a Search whose body isn't read, one behind the other.
fn stream(alloc: Global) -> Result<Vec<u8>> {
    let mut operation = [0; 95];
    operation[0] = 0x63;
    operation[1] = 0x5D;
    let mut bytes = Vec::new(alloc);
    for _ in 0..MESSAGES {
        if write_envelope(5, &operation, &mut bytes).is_err() {
            bail!("no memory for the stream");
        }
    }
    Ok(bytes)
}

/// How many messages the bytes begin with.
fn count_messages(bytes: &[u8]) -> usize
    ensures { result ≤ length bytes.now }
{
    let mut left = bytes;
    let mut found = 0;
    while let Read::Whole { end, .. } = Envelope::read(left, LIMIT) {
        left = &left[end..];
        found += 1;
    }
    found
}

/// How many messages the bytes are, where they are fed in pieces and the messages are taken as they come.
fn count_framed(alloc: Global, bytes: &[u8]) -> Result<usize, NoMemory>
    ensures { IfOk result (λ n. (ms : List Message) (tail : List ℕ) → IsStream LIMIT bytes.now ms tail → length ms ≡ n) }
{
    let mut framer = Framer::new(alloc, LIMIT)?;
    let mut left = bytes;
    let mut found = 0;
    while !left.is_empty() {
        let (piece, behind) = left.split_at(left.len().min(PIECE));
        framer.feed(piece)?;
        left = behind;
        while let Next::Message { .. } = framer.next() {
            framer.pass();
            found += 1;
        }
    }
    Ok(found)
}

/// Prints how fast so many messages were read.
fn print_rate(rt: &(impl Clock + Print), what: &str, start: Instant, found: u64) -> Result<()> {
    let micros = u64::try_from(start.elapsed(rt)?.as_micros())
        .unwrap_or(u64::MAX)
        .max(1);
    let octets = found.saturating_mul(SIZE as u64);
    println!(rt;
        "{what}: {} MB/s on messages of {SIZE} octets",
        octets / micros
    )?;
    Ok(())
}

/// Reads the envelopes of the stream many times, from another message on each time, and prints the rate.
fn measure_envelopes(rt: &(impl Clock + Print), bytes: &[u8]) -> Result<()> {
    let start = Instant::now(rt)?;
    let mut found: u64 = 0;
    for pass in 0..PASSES {
        let skipped = SIZE * (pass % 16);
        if let Some(part) = bytes.get(skipped..) {
            found = found.saturating_add(count_messages(part) as u64);
        }
    }
    print_rate(rt, "Envelope::read", start, found)
}

/// Feeds the stream to a framer many times, from another message on each time, and prints the rate.
fn measure_framer(rt: &(impl Clock + Print), alloc: Global, bytes: &[u8]) -> Result<()> {
    let start = Instant::now(rt)?;
    let mut found: u64 = 0;
    for pass in 0..FRAMED {
        let skipped = SIZE * (pass % 16);
        if let Some(part) = bytes.get(skipped..) {
            found = found.saturating_add(framed(alloc, part)? as u64);
        }
    }
    print_rate(rt, "Framer, in pieces of 16 KiB", start, found)
}

/// The messages that a framer finds.
fn framed(alloc: Global, bytes: &[u8]) -> Result<usize> {
    match count_framed(alloc, bytes) {
        Ok(found) => Ok(found),
        Err(NoMemory) => bail!("no memory for a piece"),
    }
}

fn main(rt: HostRuntime) -> Result<()> {
    let bytes = stream(rt.alloc())?;
    let word = env::args(&rt)?.nth(1);
    match word.as_ref().map(|word| word.as_str()) {
        Some("measure") => {
            measure_envelopes(&rt, bytes.as_slice())?;
            measure_framer(&rt, rt.alloc(), bytes.as_slice())
        }
        _ => {
            let found = count_messages(bytes.as_slice());
            println!(rt; "envelope_bench: {found} messages of {SIZE} octets were read")?;
            let found = framed(rt.alloc(), bytes.as_slice())?;
            println!(rt; "envelope_bench: {found} messages came of pieces of {PIECE} octets")?;
            Ok(())
        }
    }
}

//! How fast lines of a script are read and lines of a journal are written.
//!
//! With no argument it reads and writes some lines, and prints how many there were. With the argument `measure` it prints how
//! many lines a second are read and written, of each of some usual forms.
#![tactic(auto)]

ghost use Rattle.std.specs.Prelude.{◌≡◌, IsTrue};
ghost use Rattle.lload_spec.specs.Writable.{can_be_written};

use anyhow::{Result, bail};
use lload_names::{Answer, Body, Entry, Letter, OpName, PartName, What};
use replay_script::{entry_line, read_line};
use std::alloc::Global;
use std::env;
use std::rt::Clock;
use std::time::Instant;

/// How many lines of a form are read or written to measure.
const LINES: u32 = 1_000_000;

/// Lines of a script, one of each usual form.
const SCRIPT: [&str; 4] = [
    "settle",
    "client 1 arrives",
    "step up 12 from client 345",
    "client 12 bytes 30080201054A036F3D61",
];

/// The operation of the entries that are written.
const OP: OpName = OpName { client: 12, k: 345 };

/// Reads a line so many times.
fn read(alloc: Global, line: &str, times: u32) -> Result<u32> {
    let mut count = 0u32;
    for _ in 0..times {
        if read_line(alloc, line.as_bytes()).is_err() {
            bail!("a line was refused");
        }
        count = count.saturating_add(1);
    }
    Ok(count)
}

/// Writes the line of an entry so many times.
fn write(alloc: Global, entry: &Entry, times: u32) -> Result<u32>
    requires { IsTrue (can_be_written entry.now.what) }
{
    let mut count = 0u32;
    for _ in 0..times {
        if entry_line(alloc, entry).is_err() {
            bail!("no memory for a line");
        }
        count = count.saturating_add(1);
    }
    Ok(count)
}

/// How many lines a second there were since a moment.
fn each_second(rt: &impl Clock, start: Instant, lines: u32) -> Result<u64> {
    let nanos = u64::try_from(start.elapsed(rt)?.as_nanos()).unwrap_or(u64::MAX);
    Ok((lines as u64 * 1_000_000_000) / nanos.max(1))
}

/// Prints how fast a line is read.
fn measure_read(rt: &(impl Clock + Print), alloc: Global, line: &str) -> Result<()> {
    let start = Instant::now(rt)?;
    let lines = read(alloc, line, LINES)?;
    let each = each_second(rt, start, lines)?;
    println!(rt; "read_line of `{line}`: {each} lines a second")?;
    Ok(())
}

/// Prints how fast the line of an entry is written.
fn measure_write(rt: &(impl Clock + Print), alloc: Global, entry: &Entry, name: &str) -> Result<()>
    requires { IsTrue (can_be_written entry.now.what) }
{
    let start = Instant::now(rt)?;
    let lines = write(alloc, entry, LINES)?;
    let each = each_second(rt, start, lines)?;
    println!(rt; "entry_line of `{name}`: {each} lines a second")?;
    Ok(())
}

/// An entry at a moment of some length.
fn entry(part: PartName, what: What) -> Entry
    ensures { result ≡ record { part = part; at = 1234567; what = what } }
{
    Entry {
        part,
        at: 1_234_567,
        what,
    }
}

/// Prints how fast entries of usual forms are written.
fn measure_entries(rt: &(impl Clock + Print), alloc: Global) -> Result<()> {
    let up = PartName::Up(12);
    measure_write(rt, alloc, &entry(up, What::Linked), "linked")?;
    let Ok(rest) = Body::from_slice(alloc, b"\x4A\x03o=a") else {
        bail!("no memory for a request");
    };
    let sent = entry(
        up,
        What::Sent {
            id: 5,
            op: OP,
            rest,
        },
    );
    measure_write(rt, alloc, &sent, "sent")?;
    let answer = Answer::Go {
        conn: 12,
        backend: 3,
    };
    let chosen = entry(PartName::Client(12), What::Chosen { op: OP, answer });
    measure_write(rt, alloc, &chosen, "chosen")?;
    let letter = Letter::Ended {
        op: OP,
        conn: 12,
        latency: Some(7),
    };
    measure_write(
        rt,
        alloc,
        &entry(PartName::Desk, What::Heard { letter }),
        "heard ended",
    )
}

fn main(rt: HostRuntime) -> Result<()> {
    let word = env::args(&rt)?.nth(1);
    match word.as_ref().map(|word| word.as_str()) {
        Some("measure") => {
            for line in SCRIPT {
                measure_read(&rt, rt.alloc(), line)?;
            }
            measure_entries(&rt, rt.alloc())?;
        }
        _ => {
            let mut lines = 0u32;
            for line in SCRIPT {
                lines = lines.saturating_add(read(rt.alloc(), line, 250)?);
            }
            let linked = entry(PartName::Up(1), What::Linked);
            let written = write(rt.alloc(), &linked, 1_000)?;
            println!(rt; "script_bench: {lines} lines were read, and {written} were written")?;
        }
    }
    Ok(())
}

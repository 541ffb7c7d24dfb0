//! How fast a configuration is read: texts of up to 1 MiB, each long in another way.
//!
//! With no argument it reads a short text of each kind and prints what it comes to. With the argument `measure` it
//! prints the milliseconds that the reading took, of texts of a quarter of a MiB, of half a MiB and of 1 MiB.
#![tactic(auto)]

use anyhow::Result;
use lload_conf::{ConfFault, read};
use std::alloc::Global;
use std::env;
use std::time::Instant;

/// The most octets that a configuration may have.
const LONGEST: usize = 1_048_576;

/// A tier and a backend.
const TIER: &str = "tier weighted\nbackend-server uri=ldap://127.0.0.1 numconns=1 bindconns=1\n";

/// How many tiers a text has.
const TIERS: usize = 64;

/// What makes a text long.
#[derive(Clone, Copy, Drop)]
enum Filling {
    /// This, again and again.
    Repeated(&'static str),
    /// Keys that are left out, each of another name.
    Keys,
}

/// A text by its name: what stands behind its tiers, and what makes it long.
#[derive(Clone, Copy, Drop)]
struct Kind {
    name: &'static str,
    begin: &'static str,
    filling: Filling,
}

/// The kinds of texts.
fn kinds() -> [Kind; 6] {
    [
        texts_of("short lines", "", Filling::Repeated("#\n")),
        texts_of(
            "one line of short words",
            "loglevel",
            Filling::Repeated(" a"),
        ),
        texts_of("one long word", "pidfile ", Filling::Repeated("\\\"")),
        texts_of("continuations", "loglevel a", Filling::Repeated("\n b")),
        texts_of(
            "long comments",
            "",
            Filling::Repeated("# a comment \" that\n\tgoes on\n"),
        ),
        texts_of("keys", "bindconf timeout=5", Filling::Keys),
    ]
}

fn texts_of(name: &'static str, begin: &'static str, filling: Filling) -> Kind {
    Kind {
        name,
        begin,
        filling,
    }
}

/// A text of this kind and so many octets.
fn text_of(alloc: Global, kind: Kind, octets: usize) -> Result<String> {
    let mut text = String::with_capacity(alloc, LONGEST)?;
    for _ in 0..TIERS {
        text.push_str(TIER)?;
    }
    text.push_str(kind.begin)?;
    for count in 0..octets {
        if text.len() >= octets {
            break;
        }
        match kind.filling {
            Filling::Repeated(more) => text.push_str(more)?,
            Filling::Keys => {
                let key = format!(in alloc; " tls{count}=1")?;
                text.push_str(key.as_str())?;
            }
        }
    }
    Ok(text)
}

/// What a text comes to, in words; it is cut to the most octets that a configuration may have.
fn answer_to(alloc: Global, text: &str) -> Result<String> {
    let octets = text.as_bytes();
    match read(alloc, &octets[..octets.len().min(LONGEST)]) {
        Ok(_) => Ok(String::from_str(alloc, "accepted")?),
        Err(ConfFault::Line { line, kind }) => Ok(format!(in alloc; "line {line}, kind {kind}")?),
        Err(ConfFault::NoMemory) => Ok(String::from_str(alloc, "no memory")?),
    }
}

fn main(rt: HostRuntime) -> Result<()> {
    let word = env::args(&rt)?.nth(1);
    let measures = word.as_ref().map(|word| word.as_str()) == Some("measure");
    for kind in kinds() {
        if !measures {
            let text = text_of(rt.alloc(), kind, 10_000)?;
            let answer = answer_to(rt.alloc(), text.as_str())?;
            println!(rt; "conf_bench: {}: {answer}", kind.name)?;
            continue;
        }
        for octets in [LONGEST / 4, LONGEST / 2, LONGEST] {
            let text = text_of(rt.alloc(), kind, octets)?;
            let start = Instant::now(&rt)?;
            let answer = answer_to(rt.alloc(), text.as_str())?;
            let millis = start.elapsed(&rt)?.as_millis();
            println!(rt;
                "lload_conf::read, {}: {millis} ms for {octets} octets ({answer})",
                kind.name
            )?;
        }
    }
    Ok(())
}

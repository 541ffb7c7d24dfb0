ghost use Rattle.std.specs.Prelude.{◌≡◌, ◌≤◌, length, true, false, IfOk, string_bytes};
ghost use Rattle.lload_conf.specs.Answers.{IsConfig};
ghost use Rattle.lload_conf.specs.Configuration.{configuration};
ghost use Rattle.lload_advice.specs.Converting.{IsCommented, IsTaken};
ghost use Rattle.lload_advice.specs.Telling.{IsGoodExactly, NamesAllFaults, lines_text};

use crate::advice::{Advice, advise};
use crate::converting::convert;
use crate::noting::notes;
use crate::overview::{Row, rows};
use lload_conf::{ConfFault, Config, check_text, read};
use lload_names::{Body, NoMemory};
use std::alloc::Global;
use std::fmt::Write;
use std::str;

/// What there is to tell of a file.
#[derive(Debug, Drop)]
pub struct Told {
    /// What is for standard output.
    pub out: Body,
    /// What is for standard error.
    pub err: String,
    pub is_good: bool,
}

/// What there is to tell of a configuration, which is the text of a file of this name: of a good one what it comes to, and
/// a line for each word that has no effect; of any other one a line for each fault.
pub fn tell(alloc: Global, file: &str, text: &[u8]) -> Result<Told, NoMemory>
    requires { length text.now ≤ 1048576 }
    ensures good { IfOk result (λ told. IsGoodExactly told (configuration text.now)) }
    ensures faults { IfOk result (λ told. NamesAllFaults file.now text.now told) }
{
    match read(alloc, text) {
        Ok(config) => tell_good(alloc, file, text, &config),
        Err(ConfFault::Line { .. }) => tell_faults(alloc, file, text),
        Err(ConfFault::NoMemory) => Err(NoMemory),
    }
}

/// A line for each fault.
fn tell_faults(alloc: Global, file: &str, text: &[u8]) -> Result<Told, NoMemory>
    requires { length text.now ≤ 1048576 }
    ensures good { IfOk result (λ told. told.is_good ≡ false) }
    ensures faults { IfOk result (λ told. NamesAllFaults file.now text.now told) }
{
    let advices = advise(alloc, text)?;
    let out = lines(alloc, file, advices.as_slice())?;
    Ok(Told {
        out: Body::from_vec(out.into_bytes()),
        err: String::new(alloc),
        is_good: false,
    })
}

/// The lines of some advices.
fn lines(alloc: Global, file: &str, advices: &[Advice]) -> Result<String, NoMemory>
    ensures { IfOk result (λ out. string_bytes out ≡ lines_text file.now advices.now) }
{
    let mut out = String::new(alloc);
    for advice in advices {
        advice.write_line(file, &mut out)?;
    }
    Ok(out)
}

/// What a good configuration comes to, and its words without effect.
fn tell_good(alloc: Global, file: &str, text: &[u8], config: &Config) -> Result<Told, NoMemory>
    requires short { length text.now ≤ 1048576 }
    requires limits { IsConfig config.now }
    ensures { IfOk result (λ told. told.is_good ≡ true) }
{
    let mut out = String::new(alloc);
    let line = check_text(alloc, config)?;
    let accepted = str::from_utf8(line.as_slice()).unwrap_or("");
    write!(out, "{file}: {accepted}")?;
    write_rows(alloc, config, &mut out)?;
    write_notes(alloc, file, text, &mut out)?;
    Ok(Told {
        out: Body::from_vec(out.into_bytes()),
        err: String::new(alloc),
        is_good: true,
    })
}

/// Writes the table of a configuration behind a text.
fn write_rows(alloc: Global, config: &Config, out: &mut String) -> Result<(), NoMemory> {
    out.push_str(Row::HEAD)?;
    let rows = rows(alloc, config)?;
    for row in rows.as_slice() {
        row.write_line(alloc, out)?;
    }
    Ok(())
}

/// Writes the notes on a text, each as a line, behind a text.
fn write_notes(alloc: Global, file: &str, text: &[u8], out: &mut String) -> Result<(), NoMemory>
    requires { length text.now ≤ 1048576 }
{
    let notes = notes(alloc, text)?;
    for note in notes.as_slice() {
        note.write_line(file, out)?;
    }
    Ok(())
}

/// The text of a file of this name, in which faulty lines are comments, for standard output; and for standard error what
/// is lost: a line for each faulty line that the proxy would act by, and for want of a backend. It is good where nothing is
/// lost and the text is one that `lload_conf::read` takes.
pub fn tell_converted(alloc: Global, file: &str, text: &[u8]) -> Result<Told, NoMemory>
    requires { length text.now ≤ 1048576 }
    ensures good { IfOk result (λ told. told.is_good ≡ true → IsTaken told.out) }
    ensures commented { IfOk result (λ told. IsCommented text.now told.out) }
{
    let advices = advise(alloc, text)?;
    let conversion = convert(alloc, text, advices.as_slice())?;
    let mut err = losses(alloc, file, advices.as_slice())?;
    if err.is_empty() && !conversion.is_taken {
        writeln!(err, "{file}: with its comments the file is too long")?;
    }
    let is_good = err.is_empty() && conversion.is_taken;
    Ok(Told {
        out: conversion.text,
        err,
        is_good,
    })
}

/// A line for each advice on what is lost.
fn losses(alloc: Global, file: &str, advices: &[Advice]) -> Result<String, NoMemory> {
    let mut err = String::new(alloc);
    for advice in advices {
        if advice.has_effect || advice.kind == 10 {
            err.push_str("lost: ")?;
            advice.write_line(file, &mut err)?;
        }
    }
    Ok(err)
}

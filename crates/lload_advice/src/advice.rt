ghost use Rattle.std.specs.Prelude.{◌≡◌, ◌≤◌, ◌++◌, length, map, true, IfOk, string_bytes};
ghost use Rattle.std.specs.List.{list_all};
ghost use Rattle.lload_conf.specs.AllFaults.{AreOf, all_faults, fault_of as fault_of_line};
ghost use Rattle.lload_conf.specs.Configuration.{configuration};
ghost use Rattle.lload_conf.specs.FaultyWord.{wanted_of};
ghost use Rattle.lload_advice.specs.Advice.{AsksForRange, fault_of};
ghost use Rattle.lload_advice.specs.Shown.{is_shown};
ghost use Rattle.lload_advice.specs.Texts.{advice_text, colon_behind, said_text};

use crate::reason::Reason;
use crate::reasons::reason_of;
use crate::shown::shown;
use lload_conf::{Directive, LineFault, directive_named, faults};
use lload_names::{Listed, NoMemory, Word};
use std::alloc::Global;
use std::fmt::Write;

/// What there is to say of a faulty line.
#[derive(Debug, Drop)]
pub struct Advice {
    /// The number of the line's first physical line, counted from 1. That of a text without a backend is one behind its
    /// last.
    pub line: u32,
    /// The kind of its fault (kinds 1 to 12 of `lload_conf`).
    pub kind: u8,
    /// The number of the physical line in which the faulty word begins.
    pub physical: u32,
    /// The faulty word as it is shown, or the missing key; of a key that is unknown or stands twice, the key alone. It is
    /// empty where the fault is of no word.
    pub word: Word,
    /// What is wrong, and what to do.
    pub reason: Reason,
    /// Whether the proxy acts by the line's directive, so that a text without the line means something else.
    pub has_effect: bool,
}

/// Advice on lines, in their order.
pub type Advices = Listed<Advice>;

/// Advice on every faulty line of a text of at most 1,048,576 octets: one with a fault is left out, and those behind it
/// are read as if it weren't there. The first is on the fault of `lload_conf::read`, and there is none exactly where that
/// gives a configuration.
pub fn advise(alloc: Global, text: &[u8]) -> Result<Advices, NoMemory>
    requires { length text.now ≤ 1048576 }
    ensures all { IfOk result (λ advices. map fault_of advices ≡ all_faults text.now) }
    ensures first { IfOk result (λ advices. AreOf (configuration text.now) (map fault_of advices)) }
{
    let found = faults(alloc, text)?;
    advise_all(alloc, found.as_slice())
}

/// Advice on each of some faulty lines.
fn advise_all(alloc: Global, found: &[LineFault]) -> Result<Advices, NoMemory>
    ensures { IfOk result (λ advices. map fault_of advices ≡ map fault_of_line found.now) }
{
    let mut advices = Advices::new(alloc);
    for fault in found {
        advices.push(Advice::of(alloc, fault)?)?;
    }
    Ok(advices)
}

impl Advice {
    /// Advice on a faulty line. For want of memory nothing is made.
    pub fn of(alloc: Global, fault: &LineFault) -> Result<Advice, NoMemory>
        ensures fault { IfOk result (λ advice. fault_of advice ≡ fault_of_line fault.now) }
        ensures physical { IfOk result (λ advice. advice.physical ≡ fault.now.physical) }
        ensures word { IfOk result (λ advice. list_all is_shown advice.word ≡ true) }
        ensures range { IfOk result (λ advice. fault.now.kind ≡ 5 → AsksForRange (wanted_of fault.now.directive fault.now.word) advice.reason.remedy) }
    {
        Ok(Advice {
            line: fault.line,
            kind: fault.kind,
            physical: fault.physical,
            word: shown(alloc, part_shown(fault))?,
            reason: reason_of(fault),
            has_effect: has_effect(fault.directive.as_str()),
        })
    }

    /// Writes its line, on a file of this name, behind a text: `FILE:PHYSICAL: WORD: what is wrong; what to do (line LINE,
    /// kind KIND)` and a line feed.
    pub fn write_line(&self, file: &str, out: &mut String) -> Result<(), NoMemory>
        ensures { IfOk result (λ _. string_bytes out.new ≡ string_bytes out.old ++ advice_text file.now self.now) }
    {
        write!(out, "{file}:{}: ", self.physical)?;
        self.write_said(out)?;
        writeln!(out, " (line {}, kind {})", self.line, self.kind)?;
        Ok(())
    }

    /// Writes what is wrong with its word and what to do behind a text.
    pub fn write_said(&self, out: &mut String) -> Result<(), NoMemory>
        ensures { IfOk result (λ _. string_bytes out.new ≡ string_bytes out.old ++ said_text self.now) }
    {
        let word = self.word.as_str();
        let colon = colon_behind(word);
        let wrong = self.reason.wrong;
        let remedy = self.reason.remedy;
        write!(out, "{word}{colon}{wrong}; {remedy}")?;
        Ok(())
    }
}

/// What stands behind a word, where there is one.
fn colon_behind(word: &str) -> &'static str
    ensures { result.now ≡ colon_behind word.now }
{
    if word.is_empty() { "" } else { ": " }
}

/// The part of a faulty word that is shown: of a key that is unknown or stands twice not its value, which may be a password.
fn part_shown(fault: &LineFault) -> &str {
    let word = fault.word.as_str();
    match fault.kind {
        6 | 7 => match word.split_once('=') {
            Some((key, _)) => key,
            None => word,
        },
        _ => word,
    }
}

/// Whether the proxy acts by a directive.
fn has_effect(name: &str) -> bool {
    match directive_named(name) {
        Some((directive, _)) => !matches!(directive, Directive::Noted | Directive::LeftOut),
        None => false,
    }
}

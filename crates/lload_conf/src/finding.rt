ghost use Rattle.std.specs.Prelude.{◌≡◌, ◌≤◌, ◌++◌, [], length, map, IfOk};
ghost use Rattle.lload_conf.specs.AllFaults.{AreOf, all_faults, fault_of, faults_at_end, onto_faults};
ghost use Rattle.conf_words.specs.Lines.{line_count};
ghost use Rattle.lload_conf.specs.Configuration.{configuration};
ghost use Rattle.lload_conf.specs.FaultyWord.{faulty_text, faulty_word, physical_of};

use crate::at_fault::{faulty_text, faulty_word};
use crate::draft::Draft;
use crate::reading::line_behind;
use conf_words::{First, LineReader, NextLine};
use lload_names::{Listed, NoMemory, Word};
use std::alloc::Global;

/// A line that has a fault.
#[derive(Debug, Drop)]
pub struct LineFault {
    /// The number of its first physical line, counted from 1. That of a text without a backend is one behind its last.
    pub line: u32,
    /// The lowest kind of fault that it has (kinds 1 to 12).
    pub kind: u8,
    /// The number of the physical line in which the faulty word begins.
    pub physical: u32,
    /// The word of its directive; empty where there are no words.
    pub directive: Word,
    /// The word that the fault is of, which is the directive where it is of the line as a whole, and the missing key where
    /// one is missing; empty where there are no words.
    pub word: Word,
}

/// The faulty lines of a text, in their order.
pub type LineFaults = Listed<LineFault>;

/// All faulty lines of a text: one with a fault is left out, and those behind it are read as if it weren't there. The first
/// is that of [`read`](crate::read), and there is none exactly where that gives a configuration.
pub fn faults(alloc: Global, text: &[u8]) -> Result<LineFaults, NoMemory>
    requires { length text.now ≤ 1048576 }
    ensures all { IfOk result (λ found. map fault_of found ≡ all_faults text.now) }
    ensures first { IfOk result (λ found. AreOf (configuration text.now) (map fault_of found)) }
{
    let mut reader = LineReader::new(alloc, text);
    let mut draft = Draft::new(alloc);
    let mut found = LineFaults::new(alloc);
    loop {
        let first = reader.first();
        match reader.next() {
            NextLine::Line { number, words } => {
                let kind = draft.take(alloc, words.as_slice())?;
                put_fault(alloc, first, number, kind, words.as_slice(), &mut found)?;
            }
            NextLine::Fault { line, kind } => {
                found.push(at_line(alloc, first, line, kind)?)?;
                reader.pass();
            }
            NextLine::End => return with_end(alloc, text, draft.backends(), found),
            NextLine::NoMemory => return Err(NoMemory),
        }
    }
}

/// Puts the fault of a line that has words behind others, if it has one.
fn put_fault(
    alloc: Global,
    first: Option<First<'_>>,
    line: u32,
    kind: Option<u8>,
    words: &[Word],
    found: &mut LineFaults,
) -> Result<(), NoMemory>
    ensures { IfOk result (λ _. map fault_of found.new ≡ map fault_of found.old ++ onto_faults line kind []) }
{
    if let Some(kind) = kind {
        found.push(at_word(alloc, first, line, kind, words)?)?;
    }
    Ok(())
}

/// The faults of the lines of a text, and that of the text itself, if it has no backend.
fn with_end(
    alloc: Global,
    text: &[u8],
    backends: usize,
    found: LineFaults,
) -> Result<LineFaults, NoMemory>
    requires { length text.now ≤ 1048576 }
    ensures { IfOk result (λ all. map fault_of all ≡ map fault_of found ++ faults_at_end (line_count text.now) backends) }
{
    let mut all = found;
    if backends == 0 {
        all.push(at_line(alloc, None, line_behind(text), 10)?)?;
    }
    Ok(all)
}

/// The fault of a line that has words.
fn at_word(
    alloc: Global,
    first: Option<First<'_>>,
    line: u32,
    kind: u8,
    words: &[Word],
) -> Result<LineFault, NoMemory>
    ensures fault { IfOk result (λ fault. fault_of fault ≡ record { line = line; kind = kind }) }
    ensures physical { IfOk result (λ fault. fault.physical ≡ physical_of line (faulty_word kind words.now) first.entry) }
    ensures word { IfOk result (λ fault. fault.word ≡ faulty_text kind words.now) }
{
    let index = faulty_word(alloc, kind, words)?;
    let directive = match words.first() {
        Some(name) => Word::from_text(alloc, name.as_str())?,
        None => Word::from_text(alloc, "")?,
    };
    Ok(LineFault {
        line,
        kind,
        physical: physical_line(alloc, first, line, index)?,
        directive,
        word: Word::from_text(alloc, faulty_text(kind, words, index))?,
    })
}

/// The fault of a line that has no words, or of a text. It is where the line isn't UTF-8, or else where it ends.
fn at_line(
    alloc: Global,
    first: Option<First<'_>>,
    line: u32,
    kind: u8,
) -> Result<LineFault, NoMemory>
    ensures fault { IfOk result (λ fault. fault_of fault ≡ record { line = line; kind = kind }) }
    ensures physical { IfOk result (λ fault. fault.physical ≡ physical_of line 18446744073709551615 first.entry) }
{
    Ok(LineFault {
        line,
        kind,
        physical: physical_line(alloc, first, line, usize::MAX)?,
        directive: Word::from_text(alloc, "")?,
        word: Word::from_text(alloc, "")?,
    })
}

/// The number of the physical line in which a word of a line begins, which is `number` where there is no line.
fn physical_line(
    alloc: Global,
    first: Option<First<'_>>,
    number: u32,
    word: usize,
) -> Result<u32, NoMemory>
    ensures { IfOk result (λ line. line ≡ physical_of number word first.entry) }
{
    match first {
        Some(first) => first.line_of_word(alloc, word),
        None => Ok(number),
    }
}

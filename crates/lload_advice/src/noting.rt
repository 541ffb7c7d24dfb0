ghost use Rattle.std.specs.Prelude.{◌≡◌, ◌≤◌, ◌++◌, length, map, true, IfOk, string_bytes};
ghost use Rattle.std.specs.List.{list_all};
ghost use Rattle.conf_words.specs.Lines.{conf_lines};
ghost use Rattle.lload_conf.specs.FaultyWord.{physical_of};
ghost use Rattle.lload_advice.specs.Notes.{is_noted, is_noted_directive, noted, noted_in, noted_of, numbered};
ghost use Rattle.lload_advice.specs.Shown.{is_shown};
ghost use Rattle.lload_advice.specs.Texts.{note_text};

use crate::shown::shown;
use conf_words::{First, LineReader, NextLine};
use lload_conf::{Directive, Takes, directive_named, wanted_of};
use lload_names::{Listed, NoMemory, Word};
use std::alloc::Global;
use std::fmt::Write;

/// A word that is taken without effect.
#[derive(Debug, Drop)]
pub struct Note {
    /// The number of its line's first physical line, counted from 1.
    pub line: u32,
    /// Which word of the line it is; the directive is the word 0.
    pub index: usize,
    /// The number of the physical line in which it begins.
    pub physical: u32,
    /// The word as it is shown.
    pub word: Word,
}

impl Note {
    /// Writes its line, on a file of this name, behind a text.
    pub fn write_line(&self, file: &str, out: &mut String) -> Result<(), NoMemory>
        ensures { IfOk result (λ _. string_bytes out.new ≡ string_bytes out.old ++ note_text file.now self.now) }
    {
        let physical = self.physical;
        let word = self.word.as_str();
        writeln!(out, "{file}:{physical}: {word}: taken without effect")?;
        Ok(())
    }
}

/// Notes, in the order of their words.
pub type Notes = Listed<Note>;

/// The words of a text of at most 1,048,576 octets that are taken without effect: the directives that are noted, and the
/// keys that are.
pub fn notes(alloc: Global, text: &[u8]) -> Result<Notes, NoMemory>
    requires { length text.now ≤ 1048576 }
    ensures { IfOk result (λ notes. map noted_of notes ≡ noted (conf_lines text.now)) }
{
    let mut reader = LineReader::new(alloc, text);
    let mut notes = Notes::new(alloc);
    loop {
        let first = reader.first();
        match reader.next() {
            NextLine::Line { number, words } => {
                with_notes(alloc, first, number, words.as_slice(), &mut notes)?;
            }
            NextLine::Fault { .. } => reader.pass(),
            NextLine::End => return Ok(notes),
            NextLine::NoMemory => return Err(NoMemory),
        }
    }
}

/// Puts the notes on a line behind others.
fn with_notes(
    alloc: Global,
    first: Option<First<'_>>,
    line: u32,
    words: &[Word],
    notes: &mut Notes,
) -> Result<(), NoMemory>
    ensures { IfOk result (λ _. map noted_of notes.new ≡ map noted_of notes.old ++ numbered line (noted_in words.now)) }
{
    let Some((directive, arguments)) = words.split_first() else {
        return Ok(());
    };
    if is_noted_directive(directive.as_str()) {
        notes.push(note_on(alloc, first, line, 0, directive)?)?;
        return Ok(());
    }
    let mut index = 1usize;
    for argument in arguments {
        if is_noted(directive.as_str(), argument) {
            notes.push(note_on(alloc, first, line, index, argument)?)?;
        }
        index += 1;
    }
    Ok(())
}

/// Whether a directive has no effect.
fn is_noted_directive(name: &str) -> bool
    ensures { result ≡ is_noted_directive name.now }
{
    match directive_named(name) {
        Some((directive, _)) => directive == Directive::Noted,
        None => false,
    }
}

/// Whether an argument of a directive is a key that has no effect.
fn is_noted(directive: &str, argument: &Word) -> bool
    ensures { result ≡ is_noted directive.now argument.now }
{
    match wanted_of(directive, argument) {
        Some((Takes::Noted, _)) => true,
        _ => false,
    }
}

/// The note on a word of a line.
fn note_on(
    alloc: Global,
    first: Option<First<'_>>,
    line: u32,
    index: usize,
    word: &Word,
) -> Result<Note, NoMemory>
    ensures noted { IfOk result (λ note. noted_of note ≡ record { line = line; index = index }) }
    ensures physical { IfOk result (λ note. note.physical ≡ physical_of line index first.entry) }
    ensures word { IfOk result (λ note. list_all is_shown note.word ≡ true) }
{
    let physical = match first {
        Some(first) => first.line_of_word(alloc, index)?,
        None => line,
    };
    Ok(Note {
        line,
        index,
        physical,
        word: shown(alloc, word.as_str())?,
    })
}

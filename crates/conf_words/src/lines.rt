ghost use Rattle.std.specs.Prelude.{◌≡◌, ◌≤◌, ◌∷◌, [], length, drop, MatchOption};
ghost use Rattle.conf_words.specs.Lines.{conf_lines, lines_from};
ghost use Rattle.conf_words.specs.Reading.{Gives, physical};

use crate::joining::{First, first_line, join};
use crate::place::Place;
use crate::words::{Wordless, Words, read_words};
use std::alloc::Global;
use std::marker::Model;

/// What a reader answers.
#[derive(Debug, Drop)]
pub enum NextLine {
    /// The words of a line, and the number of its first physical line, counted from 1.
    Line { number: u32, words: Words },
    /// There is no line any more.
    End,
    /// The next line is faulty: the number of its first physical line, and the kind of the fault (1: the line isn't
    /// UTF-8; 2: a quote isn't closed).
    Fault { line: u32, kind: u8 },
    /// There was no memory for the line.
    NoMemory,
}

/// A reader of the lines of a configuration. Contracts see it as the list of the lines that it hasn't given yet.
#[derive(Drop)]
pub struct LineReader<'a> {
    alloc: Global,
    place: Place<'a>,
}

impl<'a> Model for LineReader<'a> {
    ghost use Rattle.std.specs.Prelude.{List};
    ghost use Rattle.conf_words.specs.Lines.{ConfLine};
    ghost use Rattle.conf_words.specs.Reading.{lines_at};

    ghost Value = { List ConfLine };

    ghost view = { λ r. lines_at r.place };
}

impl<'a> LineReader<'a> {
    /// A reader of all lines of a text of at most 1,048,576 bytes. It takes no memory; `alloc` serves the words.
    pub fn new(alloc: Global, text: &'a [u8]) -> LineReader<'a>
        requires { length text.now ≤ 1048576 }
        ensures { result ≡ conf_lines text.now }
    {
        LineReader {
            alloc,
            place: Place {
                rest: text,
                number: 1,
            },
        }
    }

    /// The next line, which is taken out. At a fault it stays, so the same fault is answered for good; for want of
    /// memory it stays too, and the next call tries it again.
    pub fn next(&mut self) -> NextLine
        ensures { Gives result self.old self.new }
    {
        let Some(first) = first_line(self.place) else {
            return NextLine::End;
        };
        let number = first.number;
        let Ok((text, after)) = join(self.alloc, first) else {
            return NextLine::NoMemory;
        };
        match read_words(self.alloc, text.as_slice()) {
            Ok(words) => {
                self.place = after;
                NextLine::Line { number, words }
            }
            Err(Wordless::NotUtf8) => NextLine::Fault {
                line: number,
                kind: 1,
            },
            Err(Wordless::OpenQuote) => NextLine::Fault {
                line: number,
                kind: 2,
            },
            Err(Wordless::NoMemory) => NextLine::NoMemory,
        }
    }

    /// The first physical line of the next line, which is not taken out; `None` where there is none.
    pub fn first(&self) -> Option<First<'a>>
        ensures { MatchOption result (self.now ≡ []) (λ first. self.now ≡ lines_from first.number (first.line.now ∷ physical first.after)) }
    {
        first_line(self.place)
    }

    /// Passes the next line, if there is one, whatever it holds. It takes no memory.
    pub fn pass(&mut self)
        ensures { self.new ≡ drop 1 self.old }
    {
        if let Some(first) = first_line(self.place) {
            self.place = first.after.pass_continuations();
        }
    }
}

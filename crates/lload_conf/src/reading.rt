ghost use Rattle.std.specs.Prelude.{◌≡◌, ◌≢◌, ◌≤◌, ◌+◌, [], length, Err, IfOk};
ghost use Rattle.lload_conf.specs.Answers.{Answers, IsConfig};
ghost use Rattle.lload_conf.specs.Configuration.{configuration};
ghost use Rattle.lload_conf.specs.Draft.{answer_of_draft};
ghost use Rattle.lload_conf.specs.Within.{IsWithin};
ghost use Rattle.conf_words.specs.Lines.{conf_lines, line_count};

use crate::config::Config;
use crate::draft::Draft;
use conf_words::{LineReader, NextLine, line_count};
use lload_names::NoMemory;
use std::alloc::Global;

/// Why a text gives no configuration.
#[derive(Clone, Copy, Debug, PartialEq, Eq, Drop)]
pub enum ConfFault {
    /// The first line that has a fault, counted from 1, and the lowest kind of fault that it has (kinds 1 to 12).
    Line { line: u32, kind: u8 },
    /// There was no memory for the configuration.
    NoMemory,
}

impl From<NoMemory> for ConfFault {
    ghost use Rattle.std.specs.Prelude.{◌≡◌};
    ghost use Rattle.lload_conf.specs.declared.reading.ConfFault.TheVariants.{NoMemory};

    ghost from_gives = { λ _ fault. fault ≡ NoMemory };

    fn from(_: NoMemory) -> Self {
        ConfFault::NoMemory
    }
}

/// The configuration of a text, as lloadd.conf(5) names it and this project takes it, or its first fault. A text of no
/// faulty line and no backend has its fault, of kind 10, one line behind its last; that of a text without a line takes no
/// memory.
pub fn read(alloc: Global, text: &[u8]) -> Result<Config, ConfFault>
    requires { length text.now ≤ 1048576 }
    ensures answer { Answers result (configuration text.now) }
    ensures conditions { IfOk result (λ config. IsConfig config) }
    ensures no_line { conf_lines text.now ≡ [] → result ≢ Err ConfFault.NoMemory }
{
    let mut reader = LineReader::new(alloc, text);
    let mut draft = Draft::new(alloc);
    loop {
        match reader.next() {
            NextLine::Line { number, words } => {
                if let Some(kind) = draft.take(alloc, words.as_slice())? {
                    return Err(ConfFault::Line { line: number, kind });
                }
            }
            NextLine::End => return at_end(text, draft),
            NextLine::Fault { line, kind } => return Err(ConfFault::Line { line, kind }),
            NextLine::NoMemory => return Err(ConfFault::NoMemory),
        }
    }
}

/// The answer where no line is left.
fn at_end(text: &[u8], draft: Draft) -> Result<Config, ConfFault>
    requires short { length text.now ≤ 1048576 }
    requires within { IsWithin draft }
    ensures answer { Answers result (answer_of_draft (line_count text.now) draft) }
    ensures conditions { IfOk result (λ config. IsConfig config) }
    ensures no_backend { length draft.hosts ≡ 0 → result ≢ Err ConfFault.NoMemory }
{
    if draft.backends() == 0 {
        return Err(ConfFault::Line {
            line: line_behind(text),
            kind: 10,
        });
    }
    Ok(draft.finish()?)
}

/// The number of the line behind the last of a text.
pub fn line_behind(text: &[u8]) -> u32
    requires { length text.now ≤ 1048576 }
    ensures { result ≡ line_count text.now + 1 }
{
    line_count(text) + 1
}

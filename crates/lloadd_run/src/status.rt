ghost use Rattle.std.specs.Prelude.{◌≡◌, Some};
ghost use Rattle.lloadd_run.specs.Statuses.{status_number, status_text};

use std::fmt;

/// How a run ends.
#[derive(Clone, Copy, Debug, PartialEq, Eq, Drop)]
pub enum Status {
    /// The work was done.
    Done,
    /// The words aren't taken.
    Usage,
    /// The configuration is refused: its first faulty line, and the kind of the fault.
    ConfRefused { line: u32, kind: u8 },
    /// The script is refused: the first line, counted from 1, that isn't a command, doesn't stand or isn't finished.
    ScriptRefused { line: u32 },
    /// What was to be read failed.
    ReadFault,
    /// What was to be written failed.
    WriteFault,
    /// Want of memory.
    NoMemory,
    /// The input is longer than the limit.
    TooLong,
    /// Listening failed.
    ListenFault,
}

impl Status {
    /// The number that the program ends with (this project's own).
    pub fn number(&self) -> u8
        ensures { result ≡ status_number self.now }
    {
        match self {
            Status::Done => 0,
            Status::Usage => 2,
            Status::ConfRefused { .. } => 3,
            Status::ScriptRefused { .. } => 4,
            Status::ReadFault => 5,
            Status::WriteFault => 6,
            Status::NoMemory => 7,
            Status::TooLong => 8,
            Status::ListenFault => 9,
        }
    }
}

/// The words for what went wrong (this project's own).
impl fmt::Display for Status {
    ghost output = { λ status. Some (status_text status) };

    fn fmt<W: fmt::Write>(&self, f: &mut fmt::Formatter<W>) -> fmt::Result {
        match self {
            Status::Done => write!(f, "done"),
            Status::Usage => write!(f, "usage"),
            Status::ConfRefused { line, kind } => write!(
                f,
                "configuration line {line}, kind {kind}"
            ),
            Status::ScriptRefused { line } => write!(f, "script line {line}"),
            Status::ReadFault => write!(f, "read fault"),
            Status::WriteFault => write!(f, "write fault"),
            Status::NoMemory => write!(f, "out of memory"),
            Status::TooLong => write!(f, "input too long"),
            Status::ListenFault => write!(f, "listen fault"),
        }
    }
}

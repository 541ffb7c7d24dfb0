ghost use Rattle.std.specs.Prelude.{◌≡◌};
ghost use Rattle.lloadd_advise.specs.Failures.{failure_number};

use lload_names::{NoMemory, Word};
use std::{fmt, io};

/// Why there was nothing to tell of a file, or it couldn't be told.
#[derive(Debug, Drop)]
pub enum Failure {
    /// The words aren't taken.
    Usage,
    /// The file of this name can't be read, and why.
    Read { conf: Word, error: io::Error },
    /// The file of this name has more octets than a configuration may have.
    TooLong { conf: Word },
    /// Standard output or standard error takes no more, and why.
    Write(io::Error),
    /// Want of memory.
    NoMemory,
}

impl Failure {
    /// The status that the program ends with (this project's own).
    pub fn number(&self) -> u8
        ensures { result ≡ failure_number self.now }
    {
        match self {
            Failure::TooLong { .. } => 1,
            Failure::Usage => 2,
            Failure::Read { .. } => 3,
            Failure::Write(_) | Failure::NoMemory => 4,
        }
    }
}

impl From<NoMemory> for Failure {
    fn from(_: NoMemory) -> Self {
        Failure::NoMemory
    }
}

/// The words for it (this project's own).
impl fmt::Display for Failure {
    fn fmt<W: fmt::Write>(&self, f: &mut fmt::Formatter<W>) -> fmt::Result {
        match self {
            Failure::Usage => write!(f, "usage: lloadd-advise [--convert] CONF"),
            Failure::Read { conf, error } => {
                let name = conf.as_str();
                write!(f, "{name}: {error}")
            }
            Failure::TooLong { conf } => {
                let name = conf.as_str();
                write!(f, "{name}: more than 1048576 octets; make the file shorter")
            }
            Failure::Write(error) => write!(f, "{error}"),
            Failure::NoMemory => write!(f, "out of memory"),
        }
    }
}

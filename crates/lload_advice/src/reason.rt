ghost use Rattle.std.specs.Prelude.{◌≡◌, Some};
ghost use Rattle.lload_advice.specs.Texts.{remedy_text};

use lload_conf::Number;
use std::fmt;

/// What is wrong with a line, and what to do about it, in an operator's words.
#[derive(Clone, Copy, Debug, Drop)]
pub struct Reason {
    pub wrong: &'static str,
    pub remedy: Remedy,
}

/// What to do about a line.
#[derive(Clone, Copy, Debug, Drop)]
pub enum Remedy {
    /// What these words say.
    Words(&'static str),
    /// To write this name, which is the nearest one.
    Name(&'static str),
    /// To write a number of this range.
    Number(Number),
}

impl Reason {
    /// A reason whose remedy is in words.
    pub const fn new(wrong: &'static str, remedy: &'static str) -> Reason
        ensures wrong { result.wrong.now ≡ wrong.now }
        ensures remedy { remedy_text result.remedy ≡ remedy.now }
    {
        Reason {
            wrong,
            remedy: Remedy::Words(remedy),
        }
    }
}

/// The words for it (this project's own).
impl fmt::Display for Remedy {
    ghost output = { λ remedy. Some (remedy_text remedy) };

    fn fmt<W: fmt::Write>(&self, f: &mut fmt::Formatter<W>) -> fmt::Result {
        match self {
            Remedy::Words(words) => write!(f, "{words}"),
            Remedy::Name(name) => write!(f, "did you mean '{name}'?"),
            Remedy::Number(range) => {
                let low = range.low;
                let high = range.high;
                write!(f, "give a number from {low} to {high}")
            }
        }
    }
}

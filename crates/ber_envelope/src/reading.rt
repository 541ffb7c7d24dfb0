ghost use Rattle.std.specs.Prelude.{◌≡◌, ◌≤◌, ◌++◌, ℕ, List, length};
ghost use Rattle.ldap_spec.specs.Messages.{Message, SpellsWithin};
ghost use Rattle.ldap_spec.specs.Streams.{read};
ghost use Rattle.ber_envelope.specs.Reading.{Answers, AnswersContents, AnswersSized, IsSpelled, Finds, NeedsAtMost};

use crate::elements::{element_at, first_unread};
use crate::integers::integer_of;
use crate::lengths::{Length, length_at_front};

/// What some bytes begin with, read as a message.
#[derive(Clone, Copy, Debug, PartialEq, Eq, Drop)]
pub enum Read {
    /// A message with this identifier; its operation, with what stands behind it in the message, begins at `rest_at`,
    /// and the message ends at `end`.
    Whole { id: u32, rest_at: usize, end: usize },
    /// Too few bytes; so many are needed to go on.
    Short { needed: usize },
    /// No message; the place of the first element that can't be read.
    Bad { at: usize },
    /// A message whose contents are longer than the limit.
    TooBig { length: u32 },
}

/// The envelope of a message: its length, its identifier and where its operation stands (RFC 4511, section 4.1.1).
#[derive(Clone, Copy, Debug, PartialEq, Eq, Drop)]
pub struct Envelope;

impl Envelope {
    /// The first message of the bytes, whose contents may have at most `limit` octets (RFC 4511, section 5.1). `Whole`
    /// comes exactly where the bytes begin with a spelling of a message within the limit. The contents are looked at
    /// only where they are all there, and once. It takes no memory.
    pub fn read(bytes: &[u8], limit: u32) -> Read
        ensures answer { Answers bytes.now (read limit bytes.now) result }
        ensures spelled { IsSpelled limit bytes.now result }
        ensures found { (s more : List ℕ) (m : Message) → bytes.now ≡ s ++ more → SpellsWithin limit s m → Finds bytes.now (length s) m result }
        ensures needed { (s others more : List ℕ) (m : Message) → bytes.now ++ more ≡ s ++ others → SpellsWithin limit s m → NeedsAtMost (length s) result }
    {
        first_message(bytes, limit)
    }
}

fn first_message(bytes: &[u8], limit: u32) -> Read
    ensures { Answers bytes.now (read limit bytes.now) result }
{
    let Some((tag, behind)) = bytes.split_first() else {
        return Read::Short { needed: 2 };
    };
    if *tag != 0x30 {
        return Read::Bad { at: 0 };
    }
    match length_at_front(behind) {
        Length::Unread => Read::Bad { at: 0 },
        Length::Short { size } => Read::Short { needed: 1 + size },
        Length::Whole { size, value } => {
            if value > limit {
                Read::TooBig { length: value }
            } else {
                read_sized(bytes, 1 + size, value)
            }
        }
    }
}

/// The message whose contents have this length and begin at this place.
fn read_sized(bytes: &[u8], from: usize, size: u32) -> Read
    requires { from ≤ 6 }
    ensures { AnswersSized bytes.now from size result }
{
    let end = from + size as usize;
    let Some(contents) = bytes.get(from..end) else {
        return Read::Short { needed: end };
    };
    match read_contents(contents) {
        Ok((id, rest_at)) => Read::Whole {
            id,
            rest_at: from + rest_at,
            end,
        },
        Err(at) => Read::Bad { at: from + at },
    }
}

/// The identifier and the place of the operation in the contents of a message, or the place of the first element that
/// can't be read.
fn read_contents(contents: &[u8]) -> Result<(u32, usize), usize>
    ensures { AnswersContents contents.now result }
{
    let Some(element) = element_at(contents, 0) else {
        return Err(0);
    };
    if element.tag != 0x02 {
        return Err(0);
    }
    let Some(id) = integer_of(&contents[element.body_at..element.end]) else {
        return Err(0);
    };
    let rest = &contents[element.end..];
    if rest.is_empty() {
        return Err(element.end);
    }
    match first_unread(rest) {
        Some(at) => Err(element.end + at),
        None => Ok((id, element.end)),
    }
}

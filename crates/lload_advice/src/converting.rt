ghost use Rattle.std.specs.Prelude.{◌≡◌, [], true, IfOk, MatchOption, string_bytes};
ghost use Rattle.lload_advice.specs.Converting.{IsCommented, IsLead, IsPiece, IsTaken};

use crate::advice::Advice;
use lload_conf::{ConfFault, read};
use lload_names::{Body, NoMemory};
use std::alloc::Global;
use std::fmt::Write;

/// The most octets of a configuration.
const LIMIT: usize = 1_048_576;

/// What stands before a physical line that becomes a comment.
const MARK: &str = "# ";

/// A text in which faulty lines are comments.
#[derive(Debug, Drop)]
pub struct Conversion {
    pub text: Body,
    /// Whether `lload_conf::read` gives a configuration of it. It doesn't where a text has no backend any more, or where
    /// the comments make it longer than 1,048,576 octets.
    pub is_taken: bool,
}

/// A text in which the lines that an advice is on are comments, each behind a comment that says why. Everything else is as
/// it was.
pub fn convert(alloc: Global, text: &[u8], advices: &[Advice]) -> Result<Conversion, NoMemory>
    ensures taken { IfOk result (λ c. c.is_taken ≡ true → IsTaken c.text) }
    ensures commented { IfOk result (λ c. IsCommented text.now c.text) }
    ensures same { advices.now ≡ [] → IfOk result (λ c. c.text ≡ text.now) }
{
    let text = if advices.is_empty() {
        Body::from_slice(alloc, text)?
    } else {
        commented(alloc, text, advices)?
    };
    let is_taken = is_taken(alloc, text.as_slice())?;
    Ok(Conversion { text, is_taken })
}

/// Whether a text has a configuration.
fn is_taken(alloc: Global, text: &[u8]) -> Result<bool, NoMemory>
    ensures { IfOk result (λ is. is ≡ true → IsTaken text.now) }
{
    if text.len() > LIMIT {
        return Ok(false);
    }
    match read(alloc, text) {
        Ok(_) => Ok(true),
        Err(ConfFault::Line { .. }) => Ok(false),
        Err(ConfFault::NoMemory) => Err(NoMemory),
    }
}

/// A text in which the lines that an advice is on are comments.
fn commented(alloc: Global, text: &[u8], advices: &[Advice]) -> Result<Body, NoMemory>
    ensures { IfOk result (λ out. IsCommented text.now out) }
{
    let mut out = Vec::new(alloc);
    let mut place = Marking {
        advices,
        number: 1,
        is_inside: false,
    };
    let mut rest = text;
    while let Some((piece, later)) = cut_piece(rest) {
        let lead = place.lead(alloc, piece)?;
        out.extend_from_slice(lead.as_bytes())?;
        out.extend_from_slice(piece)?;
        rest = later;
    }
    Ok(Body::from_vec(out))
}

/// The first physical line of a text with its end, and what follows it; `None` where nothing is left.
fn cut_piece(text: &[u8]) -> Option<(&[u8], &[u8])>
    ensures { MatchOption result (text.now ≡ []) (λ cut. IsPiece text.now cut.0.now cut.1.now) }
{
    if text.is_empty() {
        return None;
    }
    let end = match text.iter().position(|byte| *byte == b'\n') {
        Some(at) => at + 1,
        None => text.len(),
    };
    Some(text.split_at(end))
}

/// Which physical lines become comments.
#[derive(Drop)]
struct Marking<'a> {
    /// The advice on lines that haven't come.
    advices: &'a [Advice],
    /// The number of the next physical line.
    number: u32,
    /// Whether the line before becomes a comment.
    is_inside: bool,
}

impl Marking<'_> {
    /// What stands before the next physical line.
    fn lead(&mut self, alloc: Global, piece: &[u8]) -> Result<String, NoMemory>
        ensures { IfOk result (λ lead. IsLead (string_bytes lead)) }
    {
        let number = self.number;
        self.number = number.saturating_add(1);
        if let [advice, later @ ..] = self.advices {
            if advice.line == number {
                self.advices = later;
                self.is_inside = true;
                return lead_of(alloc, advice);
            }
        }
        self.is_inside = self.is_inside && goes_on(piece);
        let mark = if self.is_inside { MARK } else { "" };
        Ok(String::from_str(alloc, mark)?)
    }
}

/// Whether a physical line with its end goes on with the one before it: it begins with a space or a tab, and isn't blank.
fn goes_on(piece: &[u8]) -> bool {
    matches!(piece, [b' ' | b'\t', ..]) && !piece.iter().all(|byte| byte.is_ascii_whitespace())
}

/// What stands before the first physical line of a line with this advice.
fn lead_of(alloc: Global, advice: &Advice) -> Result<String, NoMemory>
    ensures { IfOk result (λ lead. IsLead (string_bytes lead)) }
{
    let mut lead = String::from_str(alloc, MARK)?;
    advice.write_said(&mut lead)?;
    let kind = advice.kind;
    write!(lead, " (kind {kind})")?;
    lead.push_str("\n# ")?;
    Ok(lead)
}

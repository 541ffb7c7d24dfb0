ghost use Rattle.std.specs.Prelude.{◌≡◌, ◌+◌, [], ◌∷◌, false, IfOk, MatchOption};
ghost use Rattle.conf_words.specs.Lines.{begins, content_of, is_blank as blank, is_number_sign, lines_from};
ghost use Rattle.conf_words.specs.Reading.{BeginsWith, lines_at, physical};

use crate::physical::{begins_comment, is_blank, unindented};
use crate::place::Place;
use lload_names::NoMemory;
use std::alloc::Global;

/// The first physical line of a line that is kept, its number, and the place behind it.
#[derive(Clone, Copy, Drop)]
pub struct First<'a> {
    pub number: u32,
    pub line: &'a [u8],
    pub after: Place<'a>,
}

/// Where the next line begins, behind blank lines and comments; `None` where there is none.
pub fn first_line<'a>(from: Place<'a>) -> Option<First<'a>>
    ensures { MatchOption result (lines_at from.entry ≡ []) (λ first. BeginsWith from.entry first) }
{
    let mut place = from;
    while let Some((line, after)) = place.next_line() {
        if is_blank(line) {
            place = after;
        } else if begins_comment(line) {
            place = after.pass_continuations();
        } else {
            let number = place.number;
            return Some(First {
                number,
                line,
                after,
            });
        }
    }
    None
}

/// The text of a line, its pieces joined by one space, and the place behind it.
pub fn join<'a>(alloc: Global, first: First<'a>) -> Result<(Vec<u8>, Place<'a>), NoMemory>
    requires not_blank { blank first.line.now ≡ false }
    requires no_comment { begins is_number_sign first.line.now ≡ false }
    requires number { first.after.number ≡ first.number + 1 }
    ensures { IfOk result (λ joined. lines_from first.entry.number (first.entry.line.now ∷ physical first.entry.after) ≡ record { number = first.entry.number; content = content_of joined.0.items } ∷ lines_at joined.1) }
{
    let mut text = first.line.to_vec(alloc)?;
    let mut place = first.after;
    while let Some((line, after)) = place.next_continuation() {
        text.push(b' ')?;
        text.extend_from_slice(unindented(line))?;
        place = after;
    }
    Ok((text, place))
}

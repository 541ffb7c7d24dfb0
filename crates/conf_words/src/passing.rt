ghost use Rattle.std.specs.Prelude.{◌≡◌, ◌<◌, [], length, true, MatchOption};
ghost use Rattle.conf_words.specs.Lines.{continues};
ghost use Rattle.conf_words.specs.Reading.{Cuts, Passes, continuations, physical};

use crate::physical::{cut_line, is_continuation};
use crate::place::Place;

impl<'a> Place<'a> {
    /// The first physical line, and the place behind it; `None` where nothing is left.
    pub fn next_line(self) -> Option<(&'a [u8], Place<'a>)>
        ensures cut { MatchOption result (physical self.entry ≡ []) (λ cut. Cuts self.entry cut.0.now cut.1) }
        ensures shorter { MatchOption result (physical self.entry ≡ []) (λ cut. length cut.1.rest.now < length self.entry.rest.now) }
    {
        let (line, rest) = cut_line(self.rest)?;
        let number = self.number + 1;
        Some((line, Place { rest, number }))
    }

    /// The first physical line, if it continues what stands before it, and the place behind it.
    pub fn next_continuation(self) -> Option<(&'a [u8], Place<'a>)>
        ensures none { MatchOption result (continuations (physical self.entry) ≡ []) (λ cut. continues cut.0.now ≡ true) }
        ensures cut { MatchOption result (continuations (physical self.entry) ≡ []) (λ cut. Cuts self.entry cut.0.now cut.1) }
        ensures shorter { MatchOption result (continuations (physical self.entry) ≡ []) (λ cut. length cut.1.rest.now < length self.entry.rest.now) }
    {
        let (line, after) = self.next_line()?;
        if is_continuation(line) {
            Some((line, after))
        } else {
            None
        }
    }

    /// The place behind the physical lines that continue what stands before them.
    pub fn pass_continuations(self) -> Place<'a>
        ensures { Passes self.entry result }
    {
        let mut place = self;
        while let Some((_, after)) = place.next_continuation() {
            place = after;
        }
        place
    }
}

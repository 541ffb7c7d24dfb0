ghost use Rattle.std.specs.Prelude.{◌≡◌, IfOk};
ghost use Rattle.conf_words.specs.Locating.{line_of_word};

use crate::joining::First;
use crate::physical::unindented;
use crate::words::WordMaker;
use lload_names::NoMemory;
use std::alloc::Global;
use std::str;

impl<'a> First<'a> {
    /// The number of the physical line in which a word of this line begins, the words being counted from 0. Where the
    /// line isn't UTF-8, and before such a word is found, it is the first physical line that isn't.
    pub fn line_of_word(self, alloc: Global, word: usize) -> Result<u32, NoMemory>
        ensures { IfOk result (λ number. number ≡ line_of_word self.entry word) }
    {
        let mut maker = WordMaker::new(alloc);
        let mut number = self.number;
        let mut piece = self.line;
        let mut place = self.after;
        while let Some((line, after)) = place.next_continuation() {
            let Ok(text) = str::from_utf8(piece) else {
                return Ok(number);
            };
            maker.take_text(text)?;
            if maker.has_begun(word) {
                return Ok(number);
            }
            maker.take(' ')?;
            number = place.number;
            piece = unindented(line);
            place = after;
        }
        Ok(number)
    }
}

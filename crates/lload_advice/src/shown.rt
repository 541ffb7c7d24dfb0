ghost use Rattle.std.specs.Prelude.{◌≡◌, true, IfOk};
ghost use Rattle.std.specs.List.{list_all};
ghost use Rattle.lload_advice.specs.Shown.{is_shown};

use lload_names::{NoMemory, Word};
use std::alloc::Global;

/// The most characters of a word that are shown.
const LONGEST: usize = 60;

/// A word as it is shown: at most its first 60 characters, with three dots for what is missing, and a question mark for
/// each character that isn't a printable one of ASCII; so nothing reaches a terminal that it would obey.
pub fn shown(alloc: Global, word: &str) -> Result<Word, NoMemory>
    ensures { IfOk result (λ shown. list_all is_shown shown ≡ true) }
{
    let mut shown = String::new(alloc);
    for c in word.chars().take(LONGEST) {
        shown.push(plain(c))?;
    }
    if word.chars().nth(LONGEST).is_some() {
        shown.push_str("...")?;
    }
    Word::from_text(alloc, shown.as_str())
}

/// A character that is shown for this one.
fn plain(c: char) -> char
    ensures { is_shown result ≡ true }
{
    match c {
        ' '..='~' => c,
        _ => '?',
    }
}

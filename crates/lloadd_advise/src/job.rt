ghost use Rattle.std.specs.Prelude.{◌≡◌, option_map};
ghost use Rattle.lloadd_advise.specs.Words.{asked, asked_of, is_conf as can_name};

use lload_names::Word;

/// What the program is to do with the file of this name.
#[derive(Clone, Copy, Debug, Drop)]
pub enum Job<'a> {
    /// To say what is wrong with it and what to do, or what it comes to.
    Advise { conf: &'a Word },
    /// To write it as one that lloadd takes.
    Convert { conf: &'a Word },
}

/// The job that the words ask for (this project's own): `CONF` or `--convert CONF`. `None` exactly where the words are
/// others. CONF is a word that isn't empty and doesn't begin with `-`.
pub fn read_words(words: &[Word]) -> Option<Job<'_>>
    ensures { asked_of words.now ≡ option_map asked result }
{
    match words {
        [conf] if is_conf(conf) => Some(Job::Advise { conf }),
        [verb, conf] if verb.as_str() == "--convert" && is_conf(conf) => {
            Some(Job::Convert { conf })
        }
        _ => None,
    }
}

/// Whether a word can name a file.
fn is_conf(word: &Word) -> bool
    ensures { result ≡ can_name word.now }
{
    match word.as_str().as_bytes() {
        [] => false,
        [first, ..] => *first != b'-',
    }
}

ghost use Rattle.std.specs.Prelude.{◌≡◌, option_map, codes, bytes_eq};
ghost use Rattle.lloadd_run.specs.Words.{asked, asked_of, is_conf as can_name};

use lload_names::Word;

/// What the program is to do.
#[derive(Clone, Copy, Debug, Drop)]
pub enum Job<'a> {
    /// To check the configuration with this name: that of a file, or `plain`.
    Check { conf: &'a Word },
    /// To replay a script on the configuration `plain`.
    ReplayPlain,
}

/// The job that the words ask for (this project's own): `check CONF` or `replay plain`. `None` exactly where the words
/// are others. CONF is a word that isn't empty and doesn't begin with `-`.
pub fn read_words(words: &[Word]) -> Option<Job<'_>>
    ensures { asked_of words.now ≡ option_map asked result }
{
    let [verb, conf] = words else {
        return None;
    };
    if is(verb, "check") && is_conf(conf) {
        return Some(Job::Check { conf });
    }
    if is(verb, "replay") && is(conf, "plain") {
        return Some(Job::ReplayPlain);
    }
    None
}

/// Whether a word is this one.
pub fn is(word: &Word, text: &str) -> bool
    ensures { result ≡ bytes_eq word.now text.now }
{
    word.as_str() == text
}

/// Whether a word can name a configuration.
fn is_conf(word: &Word) -> bool
    ensures { result ≡ can_name word.now }
{
    match word.as_str().as_bytes() {
        [] => false,
        [first, ..] => *first != b'-',
    }
}

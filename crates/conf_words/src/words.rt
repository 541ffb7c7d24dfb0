ghost use Rattle.std.specs.Prelude.{◌≡◌, ◌&&◌, [], false, not, length, nat_lt, IfOk, encode_utf8, string_bytes, unwrap_or};
ghost use Rattle.conf_words.specs.Quoting.{is_escaped as gives_itself, is_space};
ghost use Rattle.conf_words.specs.WordMaking.{Adds, EndsWord, Finishes, Goes, Reads, TurnsQuote, begun, makes};
ghost use Rattle.conf_words.specs.declared.words.Wordless.TheVariants.{NoMemory as NoRoom};

use lload_names::{Listed, NoMemory, Word};
use std::alloc::Global;
use std::str;

/// The words of a line, in their order.
pub type Words = Listed<Word>;

/// Why a line gives no words.
#[derive(Clone, Copy, Debug, PartialEq, Eq, Drop)]
pub enum Wordless {
    /// The line isn't UTF-8.
    NotUtf8,
    /// A quote isn't closed.
    OpenQuote,
    /// There was no memory for the words.
    NoMemory,
}

impl From<NoMemory> for Wordless {
    ghost from_gives = { λ _ e. e ≡ NoRoom };

    fn from(_: NoMemory) -> Self {
        Wordless::NoMemory
    }
}

/// The words of a joined line.
pub fn read_words(alloc: Global, line: &[u8]) -> Result<Words, Wordless>
    ensures { Reads result line.now }
{
    let Ok(text) = str::from_utf8(line) else {
        return Err(Wordless::NotUtf8);
    };
    let mut maker = WordMaker::new(alloc);
    maker.take_text(text)?;
    maker.finish()
}

/// Whether a backslash before this character gives it.
fn is_escaped(c: char) -> bool
    ensures { result ≡ gives_itself c }
{
    c == '"' || c == '\\'
}

/// The words of a line, as far as its characters were taken.
#[derive(Drop)]
pub struct WordMaker {
    alloc: Global,
    words: Words,
    word: Option<String>,
    quoted: bool,
    escaped: bool,
}

impl WordMaker {
    pub fn new(alloc: Global) -> WordMaker
        ensures words { result.words ≡ [] }
        ensures word { result.word ≡ None }
        ensures quoted { result.quoted ≡ false }
        ensures escaped { result.escaped ≡ false }
    {
        WordMaker {
            alloc,
            words: Words::new(alloc),
            word: None,
            quoted: false,
            escaped: false,
        }
    }

    /// Takes the characters of a text.
    pub fn take_text(&mut self, text: &str) -> Result<(), NoMemory>
        ensures { IfOk result (λ _. Goes self.old self.new text.now) }
    {
        for c in text.chars() {
            self.take(c)?;
        }
        Ok(())
    }

    /// Whether a word, counted from 0, has begun.
    pub fn has_begun(&self, word: usize) -> bool
        ensures { result ≡ nat_lt word (length (makes self.now [])) }
    {
        let words = self.words.len();
        word < words || word == words && (self.word.is_some() || self.escaped)
    }

    /// Takes a character. A backslash is kept back until it is known what stands behind it.
    pub fn take(&mut self, c: char) -> Result<(), NoMemory>
        ensures { IfOk result (λ _. Goes self.old self.new (encode_utf8 c)) }
    {
        if !self.escaped {
            return self.take_plain(c);
        }
        self.escaped = false;
        if is_escaped(c) {
            return self.add(c);
        }
        self.add('\\')?;
        self.take_plain(c)
    }

    /// Takes a character that has no backslash before it.
    fn take_plain(&mut self, c: char) -> Result<(), NoMemory>
        requires { self.old.escaped ≡ false }
        ensures { IfOk result (λ _. Goes self.old self.new (encode_utf8 c)) }
    {
        if c == '\\' {
            self.escaped = true;
        } else if c == '"' {
            self.turn_quote();
        } else if self.is_separated_by(c) {
            self.end_word()?;
        } else {
            self.add(c)?;
        }
        Ok(())
    }

    /// Whether a character separates words: a space or a tab outside of quoted stretches.
    fn is_separated_by(&self, c: char) -> bool
        ensures { result ≡ (is_space c && not self.now.quoted) }
    {
        (c == ' ' || c == '\t') && !self.quoted
    }

    /// Adds a character to the word.
    fn add(&mut self, c: char) -> Result<(), NoMemory>
        ensures { IfOk result (λ _. Adds self.old self.new (encode_utf8 c)) }
    {
        let mut word = self.take_word();
        word.push(c)?;
        self.word = Some(word);
        Ok(())
    }

    /// Begins or ends a quoted stretch. A word stands there, even if it is empty.
    fn turn_quote(&mut self)
        ensures { TurnsQuote self.old self.new }
    {
        let word = self.take_word();
        self.word = Some(word);
        self.quoted = !self.quoted;
    }

    /// Puts the word that was begun behind the others.
    fn end_word(&mut self) -> Result<(), NoMemory>
        ensures { IfOk result (λ _. EndsWord self.old self.new) }
    {
        if let Some(word) = self.word.take() {
            let word = Word::from_text(self.alloc, word.as_str())?;
            self.words.push(word)?;
        }
        Ok(())
    }

    /// The word that was begun, or an empty one.
    fn take_word(&mut self) -> String
        ensures word { string_bytes result ≡ unwrap_or (begun self.old) [] }
        ensures words { self.new.words ≡ self.old.words }
        ensures quoted { self.new.quoted ≡ self.old.quoted }
        ensures escaped { self.new.escaped ≡ self.old.escaped }
    {
        match self.word.take() {
            Some(word) => word,
            None => String::new(self.alloc),
        }
    }

    /// The words, at the end of the line, where a backslash that was kept back stays.
    fn finish(mut self) -> Result<Words, Wordless>
        ensures { Finishes result self }
    {
        if self.quoted {
            return Err(Wordless::OpenQuote);
        }
        if self.escaped {
            self.add('\\')?;
        }
        self.end_word()?;
        let WordMaker { words, .. } = self;
        Ok(words)
    }
}

ghost use Rattle.std.specs.Prelude.{◌≡◌, ◌≢◌, ℕ, ◌+◌, ◌-◌, ◌*◌, ◌<◌, ◌≤◌, ◌==◌, false, filter, length, IfNone, IfSome, Option, Some, None};
ghost use Rattle.std.specs.Option.{ForSome};
ghost use Rattle.lload_spec.specs.Lists.{first};
ghost use Rattle.lload_spec.specs.Picks.{in_turn, rising};
ghost use Rattle.std.specs.Int.{bit_at};
ghost use Rattle.tier_select.specs.Flags.{is_set, word_bit, IsFirstBit};

use std::marker::Model;

/// A fixed set of truth values by place, counted from 0: the bits of so many words.
#[derive(Drop)]
pub struct FlagSet<const WORDS: usize> {
    words: [u64; WORDS],
}

/// The backends of a tier that are meant, by place in the tier.
pub type Flags = FlagSet<1>;

/// The places of a backend that are meant, by place among those of their kind.
pub type PlaceFlags = FlagSet<8>;

impl<const WORDS: usize> Model for FlagSet<WORDS> {
    ghost use Rattle.std.specs.Prelude.{◌≡◌, Bool, List, length};
    ghost use Rattle.tier_select.specs.Flags.{bits_of};

    ghost Value = { List Bool };

    ghost view = { λ f. bits_of f.words };

    ghost invariant = { λ f. length f.words ≡ WORDS };
}

/// A word with a bit set or taken out.
fn with_bit(word: u64, bit: u32, on: bool) -> u64
    requires { bit < 64 }
    ensures here { (bit_at result bit == 1) ≡ on }
    ensures others { (k : ℕ) → k < 64 → k ≢ bit → bit_at result k ≡ bit_at word k }
{
    if on {
        word | 1 << bit
    } else {
        word & !(1 << bit)
    }
}

/// The first bit that is set in a word from one on.
fn first_bit(word: u64, from: u32) -> Option<u32>
    requires { from < 64 }
    ensures none { IfNone result ((k : ℕ) → from ≤ k → k < 64 → bit_at word k ≡ 0) }
    ensures first { IfSome result (λ bit. IsFirstBit word from bit) }
{
    let rest = word & u64::MAX << from;
    if rest == 0 {
        None
    } else {
        Some(rest.trailing_zeros())
    }
}

/// The first place that is set in words from one on and before another.
fn first_in_words(words: &[u64], from: u32, to: u32) -> Option<u32>
    requires { to ≤ 64 * length words.now }
    ensures first { result ≡ first (filter (word_bit words.now) (rising from (to - from))) }
    ensures within { ForSome result (λ place. place < to) }
{
    let mut next = from;
    while next < to {
        let base = next / 64 * 64;
        if let Some(bit) = first_bit(words[(next / 64) as usize], next % 64) {
            let place = base + bit;
            return if place < to { Some(place) } else { None };
        }
        next = base.saturating_add(64);
    }
    None
}

impl<const WORDS: usize> FlagSet<WORDS> {
    /// No place is set.
    pub fn new() -> FlagSet<WORDS>
        ensures size { length result ≡ 64 * WORDS }
        ensures none { (i : ℕ) → is_set result i ≡ false }
    {
        FlagSet { words: [0; WORDS] }
    }

    /// Sets a place, or takes it out; the others stay.
    pub fn set(&mut self, i: u32, on: bool)
        requires { i < 64 * WORDS }
        ensures size { length self.new ≡ 64 * WORDS }
        ensures here { is_set self.new i ≡ on }
        ensures others { (k : ℕ) → k ≢ i → is_set self.new k ≡ is_set self.old k }
    {
        let index = (i / 64) as usize;
        self.words[index] = with_bit(self.words[index], i % 64, on);
    }

    /// Whether a place is set; a place beyond the size isn't.
    pub fn get(&self, i: u32) -> bool
        ensures { result ≡ is_set self.now i }
    {
        match self.words.get((i / 64) as usize) {
            Some(word) => word >> (i % 64) & 1 == 1,
            None => false,
        }
    }

    /// The first place that is set from one on and before another; it goes by whole words.
    pub(crate) fn first_between(&self, from: u32, to: u32) -> Option<u32>
        requires { to ≤ 64 * WORDS }
        ensures first { result ≡ first (filter (is_set self.now) (rising from (to - from))) }
        ensures within { ForSome result (λ place. place < to) }
    {
        first_in_words(&self.words, from, to)
    }

    /// The first place that is set among so many, from the successor of the one that was chosen last.
    pub(crate) fn first_in_turn(&self, chosen: Option<u32>, count: u32) -> Option<u32>
        requires few { count ≤ 64 * WORDS }
        requires within { ForSome chosen (λ place. place < count) }
        ensures first { result ≡ first (filter (is_set self.now) (in_turn (λ i. i) chosen (rising 0 count))) }
        ensures within { ForSome result (λ place. place < count) }
    {
        let Some(last) = chosen else {
            return self.first_between(0, count);
        };
        match self.first_between(last + 1, count) {
            Some(place) => Some(place),
            None => self.first_between(0, last + 1),
        }
    }
}

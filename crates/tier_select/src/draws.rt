ghost use Rattle.std.specs.Prelude.{◌≡◌, ◌≢◌, ◌<◌, ◌≤◌, ◌+◌, ◌/◌, ◌%◌, ◌∷◌, ◌++◌, [], length, take, drop, slice_index_or, filter, None, Option, Some};
ghost use Rattle.std.specs.Option.{option_to_list};
ghost use Rattle.lload_spec.specs.Picks.{total_weight, drawn_first, weighted, keep_first};
ghost use Rattle.tier_select.specs.Flags.{is_set};
ghost use Rattle.tier_select.specs.Members.{weight, places};

use crate::flags::Flags;
use std::marker::Model;

/// The most backends of a tier.
const MOST: usize = 64;

/// A backend of a tier by its place in the tier, with its weight.
#[derive(Clone, Copy, Debug, Drop)]
pub(crate) struct Member {
    pub(crate) place: u32,
    pub(crate) weight: u32,
}

/// The places of a tier in the order that a random word draws, one after the other.
#[derive(Drop)]
pub(crate) struct Draws {
    members: [Member; 64],
    from: usize,
    to: usize,
    total: u64,
    word: u64,
}

impl Model for Draws {
    ghost use Rattle.std.specs.Prelude.{◌≡◌, ◌≤◌, ℕ, List, length, slice_range};
    ghost use Rattle.lload_spec.specs.Picks.{total_weight, weighted};
    ghost use Rattle.tier_select.specs.Members.{weight, places};

    ghost Value = { List ℕ };

    ghost view = { λ d. places (weighted weight d.word (slice_range d.members d.from d.to)) };

    ghost invariant = { λ d. (length d.members ≡ 64) × (d.from ≤ d.to) × (d.to ≤ 64) × (d.total ≡ total_weight weight (slice_range d.members d.from d.to)) };
}

impl Draws {
    /// The order of these backends, of which `total` is the sum of the weights.
    pub(crate) fn new(members: &[Member], total: u64, word: u64) -> Draws
        requires few { length members.now ≤ 64 }
        requires total { total ≡ total_weight weight members.now }
        ensures { result ≡ places (weighted weight word members.now) }
    {
        let mut left = [Member {
            place: 0,
            weight: 0,
        }; MOST];
        left[..members.len()].copy_from_slice(members);
        Draws {
            members: left,
            from: 0,
            to: members.len(),
            total,
            word,
        }
    }

    /// The next place.
    fn next(&mut self) -> Option<u32>
        ensures next { self.old ≡ option_to_list result ++ self.new }
        ensures end { result ≡ None → self.old ≡ [] }
    {
        if self.from == self.to {
            return None;
        }
        self.word = draw_next(&mut self.members[self.from..self.to], self.total, self.word);
        let member = self.members[self.from];
        self.from += 1;
        self.total -= member.weight as u64;
        Some(member.place)
    }

    /// The next place that is eligible.
    pub(crate) fn next_eligible(&mut self, eligible: &Flags) -> Option<u32>
        ensures next { filter (is_set eligible.now) self.old ≡ option_to_list result ++ filter (is_set eligible.now) self.new }
        ensures end { result ≡ None → filter (is_set eligible.now) self.old ≡ [] }
    {
        while let Some(place) = self.next() {
            if eligible.get(place) {
                return Some(place);
            }
        }
        None
    }
}

/// Draws the next of the backends that are left to the front, and gives what is left of the word.
fn draw_next(left: &mut [Member], total: u64, word: u64) -> u64
    requires { total ≡ total_weight weight left.old }
    ensures order { weighted weight word left.old ≡ keep_first (weighted weight result) left.new }
    ensures total { total_weight weight left.new ≡ total }
{
    if total == 0 {
        return word;
    }
    let (rest, draw) = divide(word, total);
    draw_first(left, draw);
    rest
}

/// The quotient and the remainder. A word is soon below the sum of the weights, and nothing is divided from then on.
fn divide(word: u64, total: u64) -> (u64, u64)
    requires { total ≢ 0 }
    ensures quotient { result.0 ≡ word / total }
    ensures remainder { result.1 ≡ word % total }
{
    if word < total {
        (0, word)
    } else {
        (word / total, word % total)
    }
}

/// Moves the one that a draw falls on to the front; the others keep their order.
fn draw_first(left: &mut [Member], draw: u64)
    requires { draw < total_weight weight left.old }
    ensures { left.new ≡ drawn_first weight draw [] left.old }
{
    let index = drawn_index(left, draw);
    left[..=index].rotate_right(1);
}

/// The index of the one that a draw falls on.
fn drawn_index(left: &[Member], draw: u64) -> usize
    requires { draw < total_weight weight left.now }
    ensures within { result < length left.now }
    ensures drawn { (d : Member) → drawn_first weight draw [] left.now ≡ slice_index_or left.now result d ∷ (take result left.now ++ drop (result + 1) left.now) }
{
    let mut rest = draw;
    for (index, member) in left.iter().enumerate() {
        if rest < member.weight as u64 {
            return index;
        }
        rest -= member.weight as u64;
    }
    unreachable!()
}

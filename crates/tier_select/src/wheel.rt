ghost use Rattle.std.specs.Prelude.{◌≡◌, ℕ, ◌<◌, ◌≤◌, ◌↔◌, [], ◌∷◌, ◌++◌, List, None};
ghost use Rattle.std.specs.Option.{ForSome, option_to_list};
ghost use Rattle.tier_select.specs.Flags.{NoneSet};
ghost use Rattle.tier_select.specs.Turns.{Turns, turns, turns_pick};

use crate::flags::PlaceFlags;
use std::marker::Model;

/// The places of a backend for one kind of connection, in turn: each pick begins at the successor of the one before it,
/// the first at place 0.
#[derive(Drop)]
pub struct Wheel {
    count: u32,
    chosen: Option<u32>,
}

impl Model for Wheel {
    ghost use Rattle.std.specs.Prelude.{◌<◌, ◌≤◌};
    ghost use Rattle.std.specs.Option.{ForSome};
    ghost use Rattle.tier_select.specs.Turns.{Turns};

    ghost Value = { Turns };

    ghost view = { λ w. record { count = w.count; chosen = w.chosen } };

    ghost invariant = { λ w. (w.count ≤ 512) × ForSome w.chosen (λ place. place < w.count) };
}

impl Wheel {
    /// So many places, of which none was picked.
    pub fn new(count: u32) -> Wheel
        requires { count ≤ 512 }
        ensures { result ≡ turns count [] }
    {
        Wheel {
            count,
            chosen: None,
        }
    }

    /// The first eligible place in turn; `None` exactly where no place of the wheel is eligible. Nothing changes:
    /// [`Wheel::picked`] notes the pick. It takes no memory.
    pub fn choose(&self, eligible: &PlaceFlags) -> Option<u32>
        ensures pick { (picks : List ℕ) → self.now ≡ turns self.now.count picks → result ≡ turns_pick self.now.count picks eligible.now }
        ensures none { (result ≡ None) ↔ NoneSet self.now.count eligible.now }
        ensures within { ForSome result (λ place. place < self.now.count) }
    {
        eligible.first_in_turn(self.chosen, self.count)
    }

    /// A place was picked. It takes no memory.
    pub fn picked(&mut self, place: u32)
        requires { place < self.old.count }
        ensures picks { (picks : List ℕ) → self.old ≡ turns self.old.count picks → self.new ≡ turns self.old.count (picks ++ place ∷ []) }
    {
        self.chosen = Some(place);
    }

    /// Chooses a place and notes the pick. Where no place of the wheel is eligible, nothing changes. It takes no
    /// memory.
    pub fn pick(&mut self, eligible: &PlaceFlags) -> Option<u32>
        ensures pick { (picks : List ℕ) → self.old ≡ turns self.old.count picks → result ≡ turns_pick self.old.count picks eligible.now }
        ensures picks { (picks : List ℕ) → self.old ≡ turns self.old.count picks → self.new ≡ turns self.old.count (picks ++ option_to_list result) }
        ensures none { (result ≡ None) ↔ NoneSet self.old.count eligible.now }
        ensures within { ForSome result (λ place. place < self.old.count) }
    {
        let place = self.choose(eligible);
        if let Some(place) = place {
            self.picked(place);
        }
        place
    }
}

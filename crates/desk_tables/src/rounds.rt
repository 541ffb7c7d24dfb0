ghost use Rattle.std.specs.Prelude.{◌≡◌, ◌<◌, ◌++◌, ◌∷◌, [], List, length, IfOk, Option};
ghost use Rattle.std.specs.Option.{ForSome};
ghost use Rattle.lload_names.specs.Plans.{IsTier};
ghost use Rattle.lload_names.specs.declared.plans.TierPlan.{TierPlan};
ghost use Rattle.lload_names.specs.declared.names.ConnKind.{ConnKind};
ghost use Rattle.lload_spec.specs.Settings.{Settings};
ghost use Rattle.lload_spec.specs.Choice.{DeskFacts};
ghost use Rattle.desk_tables.specs.Choices.{TierTells, AreEligible, IsPick};
ghost use Rattle.tier_select.specs.Calls.{Call, Picked, Heard, standing, choice};

use lload_names::{NoMemory, TierPlan};
use std::alloc::Global;
use std::marker::Model;
use tier_select::{Flags, Tier};

/// A tier of the plan in force: how it picks one of its backends, which stand side by side among all from an index on.
/// Contracts see what its calls come to, and this index.
#[derive(Drop)]
pub struct Round {
    tier: Tier,
    first: usize,
    count: usize,
}

impl Model for Round {
    ghost use Rattle.std.specs.Prelude.{◌≡◌, length};
    ghost use Rattle.desk_tables.specs.Turns.{Turn};

    ghost Value = { Turn };

    ghost view = { λ r. record { tier = r.tier; first = r.first } };

    ghost invariant = { λ r. length r.tier.weights ≡ r.count };
}

impl Round {
    /// A tier of which no backend was picked and no latency was heard.
    pub fn new(alloc: Global, plan: &TierPlan, first: usize) -> Result<Round, NoMemory>
        requires { IsTier plan.now }
        ensures tier { IfOk result (λ round. round.tier ≡ standing plan.now []) }
        ensures first { IfOk result (λ round. round.first ≡ first) }
    {
        let count = plan.backends.len();
        let tier = Tier::new(alloc, plan)?;
        Ok(Round { tier, first, count })
    }

    /// The index of its first backend among all.
    pub fn first(&self) -> usize
        ensures { result ≡ self.now.first }
    {
        self.first
    }

    /// How many backends it has.
    pub fn count(&self) -> usize
        ensures { result ≡ length self.now.tier.weights }
    {
        self.count
    }

    /// The backend that comes next among those that are eligible, by its place in the tier; `word` draws the order of a
    /// weighted tier. Nothing changes. It takes no memory.
    pub fn choose(&self, eligible: &Flags, word: u64) -> Option<u32>
        ensures choice { result ≡ choice self.now.tier eligible.now word }
        ensures pick { (s : Settings) (f : DeskFacts) (kind : ConnKind) (t : TierPlan) → TierTells f t self.now.tier → AreEligible s f kind t eligible.now → IsPick s f kind t word result }
        ensures within { ForSome result (λ place. place < length self.now.tier.weights) }
    {
        self.tier.choose(eligible, word)
    }

    /// A backend was picked, by its place in the tier; one beyond its end changes nothing. It takes no memory.
    pub fn picked(&mut self, place: u32)
        ensures calls { (plan : TierPlan) (calls : List Call) → place < length self.old.tier.weights → self.old.tier ≡ standing plan calls → self.new.tier ≡ standing plan (calls ++ Picked place ∷ []) }
        ensures first { self.new.first ≡ self.old.first }
        ensures weights { self.new.tier.weights ≡ self.old.tier.weights }
    {
        if (place as usize) < self.count {
            self.tier.picked(place);
        }
    }

    /// An operation at a backend, by its place in the tier, took so many milliseconds; one beyond its end changes nothing.
    /// It takes no memory.
    pub fn heard(&mut self, place: u32, latency: u32)
        ensures calls { (plan : TierPlan) (calls : List Call) → place < length self.old.tier.weights → self.old.tier ≡ standing plan calls → self.new.tier ≡ standing plan (calls ++ Heard place latency ∷ []) }
        ensures first { self.new.first ≡ self.old.first }
        ensures weights { self.new.tier.weights ≡ self.old.tier.weights }
    {
        if (place as usize) < self.count {
            self.tier.heard(place, latency);
        }
    }
}

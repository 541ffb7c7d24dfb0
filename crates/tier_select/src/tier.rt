ghost use Rattle.std.specs.Prelude.{◌≡◌, ℕ, ◌<◌, ◌↔◌, [], ◌∷◌, ◌++◌, List, length, slice_index_or, filter, IfOk, Option, None};
ghost use Rattle.std.specs.Option.{ForSome};
ghost use Rattle.lload_names.specs.declared.plans.TierKind.TheVariants.{Weighted};
ghost use Rattle.lload_names.specs.declared.plans.TierPlan.{TierPlan};
ghost use Rattle.lload_names.specs.Plans.{IsTier};
ghost use Rattle.lload_spec.specs.Picks.{better_of_two, mean};
ghost use Rattle.tier_select.specs.Flags.{is_set, NoneSet};
ghost use Rattle.tier_select.specs.Calls.{Call, Heard, Picked, Standing, standing, pick, pick_made, order_of, mean_at, choice};

use crate::draws::{Draws, Member};
use crate::flags::Flags;
use crate::ring::Ring;
use lload_names::{NoMemory, TierKind, TierPlan};
use std::alloc::Global;
use std::marker::Model;

/// A tier: its backends by place, counted from 0, the one that was picked last, and the last 16 latencies of each
/// (`tier` in lloadd.conf(5); the three ways to pick are this project's own).
#[derive(Drop)]
pub struct Tier {
    kind: TierKind,
    members: Vec<Member>,
    total: u64,
    latencies: Vec<Ring>,
    chosen: Option<u32>,
}

impl Model for Tier {
    ghost use Rattle.std.specs.Prelude.{◌≡◌, ◌<◌, ◌≤◌, length, map};
    ghost use Rattle.std.specs.Option.{ForSome};
    ghost use Rattle.lload_spec.specs.Picks.{total_weight};
    ghost use Rattle.tier_select.specs.Members.{weight, members_from};
    ghost use Rattle.tier_select.specs.Calls.{Standing};

    ghost Value = { Standing };

    ghost view = { λ t. record { kind = t.kind; weights = map weight t.members.items; chosen = t.chosen; latencies = t.latencies.items } };

    ghost invariant = { λ t. (length t.members.items ≤ 64) × (t.members.items ≡ members_from 0 (map weight t.members.items)) × (t.total ≡ total_weight weight t.members.items) × (length t.latencies.items ≡ length t.members.items) × ForSome t.chosen (λ place. place < length t.members.items) };
}

impl Tier {
    /// A tier of which no backend was picked and no latency was heard.
    pub fn new(alloc: Global, plan: &TierPlan) -> Result<Tier, NoMemory>
        requires { IsTier plan.now }
        ensures { IfOk result (λ tier. tier ≡ standing plan.now []) }
    {
        let mut members = Vec::new(alloc);
        let mut latencies = Vec::new(alloc);
        let mut total = 0;
        for backend in plan.backends.as_slice() {
            members.push(Member {
                place: members.len() as u32,
                weight: backend.weight,
            })?;
            latencies.push(Ring::new(alloc)?)?;
            total += backend.weight as u64;
        }
        Ok(Tier {
            kind: plan.kind,
            members,
            total,
            latencies,
            chosen: None,
        })
    }

    /// The backend that comes next among those that are eligible, by its place in the tier; `word` draws the order of
    /// a weighted tier. `None` exactly where no backend of the tier is eligible. Nothing changes: [`Tier::picked`] notes
    /// the pick. It takes no memory.
    pub fn choose(&self, eligible: &Flags, word: u64) -> Option<u32>
        ensures choice { result ≡ choice self.now eligible.now word }
        ensures pick { (plan : TierPlan) (calls : List Call) → self.now ≡ standing plan calls → result ≡ pick plan calls eligible.now word }
        ensures none { (result ≡ None) ↔ NoneSet (length self.now.weights) eligible.now }
        ensures within { ForSome result (λ place. place < length self.now.weights) }
    {
        self.next(eligible, word)
    }

    /// A backend was picked, by its place in the tier. It takes no memory.
    pub fn picked(&mut self, place: u32)
        requires { place < length self.old.weights }
        ensures calls { (plan : TierPlan) (calls : List Call) → self.old ≡ standing plan calls → self.new ≡ standing plan (calls ++ Picked place ∷ []) }
        ensures weights { self.new.weights ≡ self.old.weights }
    {
        self.chosen = Some(place);
    }

    /// Chooses a backend and notes the pick. Where no backend of the tier is eligible, nothing changes. It takes no
    /// memory.
    pub fn pick(&mut self, eligible: &Flags, word: u64) -> Option<u32>
        ensures pick { (plan : TierPlan) (calls : List Call) → self.old ≡ standing plan calls → result ≡ pick plan calls eligible.now word }
        ensures calls { (plan : TierPlan) (calls : List Call) → self.old ≡ standing plan calls → self.new ≡ standing plan (calls ++ pick_made result) }
        ensures none { (result ≡ None) ↔ NoneSet (length self.old.weights) eligible.now }
        ensures within { ForSome result (λ place. place < length self.old.weights) }
        ensures weights { self.new.weights ≡ self.old.weights }
    {
        let place = self.choose(eligible, word);
        if let Some(place) = place {
            self.picked(place);
        }
        place
    }

    /// An operation at a backend, by its place in the tier, took so many milliseconds. It takes no memory.
    pub fn heard(&mut self, place: u32, latency: u32)
        requires { place < length self.old.weights }
        ensures calls { (plan : TierPlan) (calls : List Call) → self.old ≡ standing plan calls → self.new ≡ standing plan (calls ++ Heard place latency ∷ []) }
        ensures weights { self.new.weights ≡ self.old.weights }
    {
        self.latencies[place as usize].note(latency);
    }

    fn next(&self, eligible: &Flags, word: u64) -> Option<u32>
        ensures { result ≡ choice self.now eligible.now word }
    {
        match self.kind {
            TierKind::RoundRobin => {
                eligible.first_in_turn(self.chosen, self.members.len() as u32)
            }
            TierKind::Weighted => self.draws(word).next_eligible(eligible),
            TierKind::BestOf => self.better_of_two(eligible, word),
        }
    }

    /// The weighted order that a word draws.
    fn draws(&self, word: u64) -> Draws
        ensures { result ≡ order_of Weighted self.now.weights self.now.chosen word }
    {
        Draws::new(self.members.as_slice(), self.total, word)
    }

    /// Of the first two in the weighted order that are eligible the one with the lower mean latency.
    fn better_of_two(&self, eligible: &Flags, word: u64) -> Option<u32>
        ensures { result ≡ better_of_two (mean_at self.now.latencies) (filter (is_set eligible.now) (order_of Weighted self.now.weights self.now.chosen word)) }
    {
        let mut draws = self.draws(word);
        let first = draws.next_eligible(eligible)?;
        match draws.next_eligible(eligible) {
            Some(second) if self.mean_at(second) < self.mean_at(first) => Some(second),
            _ => Some(first),
        }
    }

    /// The mean of the last 16 latencies of a backend.
    fn mean_at(&self, place: u32) -> u64
        ensures { result ≡ mean_at self.now.latencies place }
    {
        match self.latencies.get(place as usize) {
            Some(ring) => ring.mean(),
            None => 0,
        }
    }
}

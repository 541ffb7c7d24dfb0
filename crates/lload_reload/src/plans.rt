ghost use Rattle.std.specs.Prelude.{◌≡◌, ◌≤◌, ◌↔◌, [], ◌∷◌, length, IfOk, OnOk, OnErr};
ghost use Rattle.lload_names.specs.Plans.{backends_of, has_numbers_for, place_among, IsPlan, ArePlans};
ghost use Rattle.lload_reload.specs.Bases.{last_base, with_plan, IsEndBelow};

use lload_names::{DeskPlan, Listed, NoMemory, Place, Planned};
use std::alloc::Global;
use std::marker::Model;

/// The plans of a run, each with its base (this project's own).
#[derive(Debug, Drop)]
pub struct Plans {
    plans: Listed<Planned>,
    /// How many backends the plans before each have.
    before: Vec<u32>,
    /// How many backends all plans have.
    count: u32,
}

impl Model for Plans {
    ghost use Rattle.std.specs.Prelude.{List};
    ghost use Rattle.lload_names.specs.declared.plans.Planned.{Planned};

    ghost Value = { List Planned };

    ghost use Rattle.lload_reload.specs.Bases.{AreKept};

    ghost view = { λ p. p.plans };

    ghost invariant = { λ p. AreKept p.plans p.before.items p.count };
}

impl Plans {
    /// The first plan of a run, which has the base 0.
    pub fn new(alloc: Global, first: DeskPlan) -> Result<Plans, NoMemory>
        requires { IsPlan first }
        ensures { IfOk result (λ plans. plans ≡ (record { plan = first; base = 0 }) ∷ []) }
    {
        let count = backends_in(&first);
        let mut before = Vec::new(alloc);
        before.push(0)?;
        let mut plans = Listed::new(alloc);
        plans.push(Planned {
            plan: first,
            base: 0,
        })?;
        Ok(Plans {
            plans,
            before,
            count,
        })
    }

    /// Takes one more plan, where the numbers of its connections' places and of all backends stay within 32 bits; else
    /// nothing changes. The answer is whether it was taken. For want of memory the plans stay as they were.
    pub fn add(&mut self, plan: DeskPlan, base: u32) -> Result<bool, NoMemory>
        requires plan { IsPlan plan }
        requires base { last_base self.old ≤ base }
        ensures answer { IfOk result (λ taken. taken ≡ has_numbers_for self.old (record { plan = plan; base = base })) }
        ensures plans { OnOk result (self.new ≡ with_plan self.old (record { plan = plan; base = base })) }
        ensures err { OnErr result (self.new ≡ self.old) }
    {
        let greatest = u32::MAX as u64;
        let places = base as u64 + plan.place_count();
        let backends = self.count as u64 + backends_in(&plan) as u64;
        if places > greatest || backends > greatest {
            return Ok(false);
        }
        self.before.reserve(1)?;
        self.plans.push(Planned { plan, base })?;
        // With the room for it this takes no memory.
        self.before.push_reserved(self.count);
        self.count = backends as u32;
        Ok(true)
    }

    /// The base of the last plan. It takes no memory.
    pub fn last_base(&self) -> u32
        ensures { result ≡ last_base self.now }
    {
        match self.plans.as_slice().last() {
            Some(planned) => planned.base,
            None => 0,
        }
    }

    /// The same plans again. For want of memory nothing is made.
    pub fn copy(&self, alloc: Global) -> Result<Plans, NoMemory>
        ensures { IfOk result (λ copy. copy ≡ self.now) }
    {
        let plans = copied(alloc, self.plans.as_slice())?;
        let before = self.before.clone()?;
        Ok(Plans {
            plans,
            before,
            count: self.count,
        })
    }

    /// The place of a connection, by the connection's number: by the plan with the greatest base below it, the later
    /// one where bases are equal, with the backend's number raised by the count of all backends of earlier plans.
    /// `None` exactly for 0 and for a plan without places. It takes no memory.
    pub fn place_of(&self, conn: u32) -> Option<Place>
        ensures { result ≡ place_among self.now conn }
    {
        let last = end_below(self.plans.as_slice(), conn).checked_sub(1)?;
        let planned = self.plans.get(last)?;
        let before = self.before[last];
        let place = planned.plan.place_of(conn - planned.base)?;
        Some(Place {
            backend: before + place.backend,
            ..place
        })
    }
}

/// These plans again. For want of memory nothing is made.
fn copied(alloc: Global, plans: &[Planned]) -> Result<Listed<Planned>, NoMemory>
    ensures { IfOk result (λ copy. copy ≡ plans.now) }
{
    let mut copy = Listed::new(alloc);
    for planned in plans {
        copy.push(Planned {
            plan: planned.plan.copy()?,
            base: planned.base,
        })?;
    }
    Ok(copy)
}

/// How many plans, from the first on, have a base below a connection's number.
fn end_below(plans: &[Planned], conn: u32) -> usize
    requires { ArePlans plans.now }
    ensures { IsEndBelow conn plans.now result }
{
    let mut low = 0;
    let mut high = plans.len();
    while low < high {
        let middle = low + (high - low) / 2;
        if plans[middle].base < conn {
            low = middle + 1;
        } else {
            high = middle;
        }
    }
    low
}

/// How many backends a plan has. It takes no memory.
pub fn backends_in(plan: &DeskPlan) -> u32
    requires { length (backends_of plan.now) ≤ 64 }
    ensures { result ≡ length (backends_of plan.now) }
{
    let mut count = 0;
    for tier in plan.as_slice() {
        count += tier.backends.len() as u32;
    }
    count
}

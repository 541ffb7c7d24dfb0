//! How fast a backend is picked: picks from a tier of 64 backends, for each of the three ways to pick.
//!
//! With no argument it makes a few picks and prints how many there were. With the argument `measure` it makes many, and
//! prints the nanoseconds that one pick took: with every backend eligible, and with the last one alone, which is
//! the longest way through the order.
#![tactic(auto)]

ghost use Rattle.std.specs.Prelude.{◌≡◌, ◌*◌, ◌≤◌, length, IfOk};
ghost use Rattle.lload_names.specs.Plans.{IsTier};

use anyhow::{Result, bail};
use lload_names::{BackendPlan, Listed, NoMemory, TierKind, TierPlan};
use std::alloc::Global;
use std::env;
use std::rt::Clock;
use std::time::Instant;
use tier_select::{Flags, Tier};

/// How many backends the tier has.
const BACKENDS: u32 = 64;

/// How often is picked to measure, and otherwise.
const MANY: u32 = 1_000_000;

const FEW: u32 = 1_000;

/// A tier of 64 backends of different weights.
fn plan(alloc: Global, kind: TierKind) -> Result<TierPlan, NoMemory>
    ensures { IfOk result (λ plan. IsTier plan) }
{
    let mut backends = Listed::new(alloc);
    for place in 0..BACKENDS {
        backends.push(BackendPlan {
            number: place + 1,
            weight: place % 4 + 1,
            numconns: 1,
            bindconns: 1,
            max_pending: 0,
            conn_max_pending: 0,
        })?;
    }
    Ok(TierPlan { kind, backends })
}

/// The places of the tier from one on.
fn places_from(first: u32) -> Flags {
    let mut flags = Flags::new();
    for place in first..BACKENDS {
        flags.set(place, true);
    }
    flags
}

/// Picks so often, each time with another word, and tells how many picks found a backend.
fn picks(tier: &mut Tier, eligible: &Flags, count: u32) -> u32
    ensures { result ≤ count }
{
    let mut word = 1u64;
    let mut found = 0;
    for _ in 0..count {
        word = word
            .wrapping_mul(6364136223846793005)
            .wrapping_add(1442695040888963407);
        if tier.pick(eligible, word).is_some() {
            found += 1;
        }
    }
    found
}

/// The nanoseconds that one of many picks takes.
fn nanoseconds(rt: &impl Clock, tier: &mut Tier, eligible: &Flags) -> Result<u64> {
    let start = Instant::now(rt)?;
    let found = picks(tier, eligible, MANY);
    let nanos = u64::try_from(start.elapsed(rt)?.as_nanos()).unwrap_or(u64::MAX);
    Ok(nanos / u64::from(found).max(1))
}

/// The tier, of which each backend was heard to take some time.
fn tier(alloc: Global, kind: TierKind) -> Result<Tier> {
    let Ok(plan) = plan(alloc, kind) else {
        bail!("no memory for the plan");
    };
    let Ok(tier) = Tier::new(alloc, &plan) else {
        bail!("no memory for the tier");
    };
    Ok(tier)
}

fn main(rt: HostRuntime) -> Result<()> {
    let word = env::args(&rt)?.nth(1);
    let measures = word.as_ref().map(|word| word.as_str()) == Some("measure");
    let kinds = [
        (TierKind::RoundRobin, "roundrobin"),
        (TierKind::Weighted, "weighted"),
        (TierKind::BestOf, "bestof"),
    ];
    for (kind, name) in kinds {
        let mut tier = tier(rt.alloc(), kind)?;
        let (all, last) = (places_from(0), places_from(BACKENDS - 1));
        if measures {
            let usual = nanoseconds(&rt, &mut tier, &all)?;
            let longest = nanoseconds(&rt, &mut tier, &last)?;
            println!(rt;
                "Tier::pick, {name}: {usual} ns of {BACKENDS} eligible backends, {longest} ns of the last alone"
            )?;
        } else {
            let found = picks(&mut tier, &all, FEW);
            println!(rt; "tier_bench: {found} picks by {name}")?;
        }
    }
    Ok(())
}

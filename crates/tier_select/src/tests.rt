ghost use Rattle.std.specs.Prelude.{◌≡◌, length, IfOk};

use super::*;
use lload_names::{BackendPlan, Listed, NoMemory, TierKind, TierPlan};
use std::alloc::Global;
use std::test::Fail;

fn backend(number: u32, weight: u32) -> BackendPlan
    ensures regular { result.numconns ≡ 0 }
    ensures bind { result.bindconns ≡ 0 }
{
    BackendPlan {
        number,
        weight,
        numconns: 0,
        bindconns: 0,
        max_pending: 0,
        conn_max_pending: 0,
    }
}

/// A tier of three backends with these weights.
fn tier_of(alloc: Global, kind: TierKind, weights: [u32; 3]) -> Result<Tier, NoMemory>
    ensures { IfOk result (λ tier. length tier.weights ≡ 3) }
{
    let [first, second, third] = weights;
    let mut backends = Listed::new(alloc);
    backends.push(backend(1, first))?;
    backends.push(backend(2, second))?;
    backends.push(backend(3, third))?;
    Tier::new(alloc, &TierPlan { kind, backends })
}

fn first_three() -> Flags {
    let mut flags = Flags::new();
    for place in 0..3 {
        flags.set(place, true);
    }
    flags
}

/// The numbers of the three backends in the order that a word draws, by picks from those that are left.
fn order(tier: &mut Tier, word: u64) -> [u32; 3] {
    let mut left = first_three();
    let mut order = [0; 3];
    for number in &mut order {
        match tier.pick(&left, word) {
            Some(place) if place < 3 => {
                left.set(place, false);
                *number = place + 1;
            }
            _ => {}
        }
    }
    order
}

#[test]
fn words_draw_weighted_orders(rt: HostRuntime) -> Result<(), Fail> {
    let mut tier = tier_of(rt.alloc(), TierKind::Weighted, [3, 0, 1])?;
    assert_eq!(rt; order(&mut tier, 0), [1, 3, 2]);
    assert_eq!(rt; order(&mut tier, 2), [1, 3, 2]);
    assert_eq!(rt; order(&mut tier, 3), [3, 1, 2]);
    assert_eq!(rt; order(&mut tier, 18446744073709551615), [3, 1, 2]);
    let mut even = tier_of(rt.alloc(), TierKind::Weighted, [1, 1, 1])?;
    assert_eq!(rt; order(&mut even, 4), [2, 3, 1]);
    Ok(())
}

#[test]
fn bestof_takes_the_lower_mean_of_the_first_two(rt: HostRuntime) -> Result<(), Fail> {
    let mut slower = tier_of(rt.alloc(), TierKind::BestOf, [1, 1, 1])?;
    slower.heard(0, 9);
    slower.heard(1, 10);
    slower.heard(2, 7);
    assert_eq!(rt; slower.pick(&first_three(), 4), Some(2));
    let mut tied = tier_of(rt.alloc(), TierKind::BestOf, [1, 1, 1])?;
    tied.heard(0, 9);
    tied.heard(1, 7);
    tied.heard(2, 7);
    assert_eq!(rt; tied.pick(&first_three(), 4), Some(1));
    Ok(())
}

#[test]
fn a_choice_is_noted_apart(rt: HostRuntime) -> Result<(), Fail> {
    let mut tier = tier_of(rt.alloc(), TierKind::RoundRobin, [1, 1, 1])?;
    let eligible = first_three();
    assert_eq!(rt; tier.choose(&eligible, 0), Some(0));
    assert_eq!(rt; tier.choose(&eligible, 0), Some(0));
    tier.picked(0);
    assert_eq!(rt; tier.choose(&eligible, 0), Some(1));
    let mut wheel = Wheel::new(2);
    let mut places = PlaceFlags::new();
    places.set(0, true);
    places.set(1, true);
    assert_eq!(rt; wheel.choose(&places), Some(0));
    wheel.picked(0);
    assert_eq!(rt; wheel.choose(&places), Some(1));
    Ok(())
}

#[test]
fn turns_go_on_behind_the_last_pick(rt: HostRuntime) -> Result<(), Fail> {
    let mut tier = tier_of(rt.alloc(), TierKind::RoundRobin, [1, 1, 1])?;
    let mut eligible = first_three();
    assert_eq!(rt; tier.pick(&eligible, 0), Some(0));
    eligible.set(1, false);
    assert_eq!(rt; tier.pick(&eligible, 0), Some(2));
    assert_eq!(rt; tier.pick(&Flags::new(), 0), None);
    assert_eq!(rt; tier.pick(&eligible, 0), Some(0));
    let mut wheel = Wheel::new(2);
    let mut places = PlaceFlags::new();
    places.set(1, true);
    assert_eq!(rt; wheel.pick(&places), Some(1));
    places.set(0, true);
    assert_eq!(rt; wheel.pick(&places), Some(0));
    assert_eq!(rt; wheel.pick(&PlaceFlags::new()), None);
    assert_eq!(rt; wheel.pick(&places), Some(1));
    Ok(())
}

//! How long turns under the counted lock take, beside a `Mutex` of the standard library round the
//! same work. With the argument `measure` it prints the figures, which differ from run to run; with
//! no argument it makes a few turns both ways and prints what they add up to.
#![tactic(auto)]

ghost use Rattle.std.specs.Prelude.{◌≡◌, ℕ, ◌+◌, ◌%◌, ◌^◌, ◌<◌, List, length};

use counted_lock::{CountedLock, Keeps, TurnSeat, Work};
use std::alloc::Global;
use std::io::Print;
use std::rt::Runtime;
use std::sync::{Mutex, Wait};
use std::thread::{Threads, join};
use std::time::{Duration, Instant};
use std::{env, io};

/// How many turns were made, modulo 2^64.
#[derive(Drop)]
struct Counter {
    sum: u64,
}

impl Keeps for Counter {
    type Turn = u64;

    ghost stands = { λ turns c. length turns % 2 ^ 64 ≡ c.sum };

    ghost tag = { λ turn. turn };
}

/// Adds 1. The turn is the tag alone.
#[derive(Drop)]
struct AddOne {
    tag: u64,
}

impl Work<Counter> for AddOne {
    type Reply = ();

    ghost turn = { λ w reply. w.tag };

    fn work(&mut self, value: &mut Counter) {
        value.sum = value.sum.wrapping_add(1);
    }
}

/// Makes turns, and gives the seat back.
fn make_turns<R: Wait>(
    rt: &R,
    lock: &CountedLock<Counter>,
    mut seat: TurnSeat<Counter>,
    tag: u64,
    turns: u32,
) -> TurnSeat<Counter>
    requires lock { seat.lock ≡ lock.now }
    requires tag { seat.tag ≡ tag }
    ensures { result.lock ≡ lock.now }
{
    for _ in 0..turns {
        lock.turn(rt, &mut seat, &mut AddOne { tag });
    }
    seat
}

/// Does the same work under a mutex.
fn lock_mutex<R: Wait>(rt: &R, mutex: &Mutex<Counter>, turns: u32) {
    for _ in 0..turns {
        let mut value = mutex.lock(rt);
        value.sum = value.sum.wrapping_add(1);
    }
}

/// Turns by one caller, with what they add up to.
fn one_counted<R: Wait>(rt: &R, alloc: Global, turns: u32) -> Option<u64> {
    let (lock, mut host) = CountedLock::new(alloc, Counter { sum: 0 }, 0).ok()?;
    let seat = lock.split(&mut host, 1);
    let seat = make_turns(rt, &lock, seat, 1, turns);
    lock.join(&mut host, seat);
    Some(lock.close(host).sum)
}

/// The same under a mutex.
fn one_mutex<R: Wait>(rt: &R, turns: u32) -> u64 {
    let mutex = Mutex::new(Counter { sum: 0 });
    lock_mutex(rt, &mutex, turns);
    mutex.into_inner().sum
}

/// Turns by two callers at once, with the tags `tag` and `tag + 1`.
fn two_callers<R: Threads + Wait + Sync>(
    rt: &R,
    lock: &CountedLock<Counter>,
    first: TurnSeat<Counter>,
    second: TurnSeat<Counter>,
    tag: u64,
    turns: u32,
) -> (TurnSeat<Counter>, TurnSeat<Counter>)
    requires locks { (first.lock ≡ lock.now) × (second.lock ≡ lock.now) }
    requires tags { (first.tag ≡ tag) × (second.tag ≡ tag + 1) }
    requires few { tag < 100 }
    ensures { (result.0.lock ≡ lock.now) × (result.1.lock ≡ lock.now) }
{
    join(
        rt,
        move || -> TurnSeat<Counter>
            requires lock { first.lock ≡ lock.now }
            requires tag { first.tag ≡ tag }
            ensures { result.lock ≡ lock.entry.now }
        { make_turns(rt, lock, first, tag, turns) },
        move || -> TurnSeat<Counter>
            requires lock { second.lock ≡ lock.now }
            requires tag { second.tag ≡ tag + 1 }
            requires few { tag < 100 }
            ensures { result.lock ≡ lock.entry.now }
        { make_turns(rt, lock, second, tag + 1, turns) },
    )
}

/// Turns by four callers at once, so many each, with what they add up to.
fn four_counted<R: Threads + Wait + Sync>(rt: &R, alloc: Global, turns: u32) -> Option<u64> {
    let (lock, mut host) = CountedLock::new(alloc, Counter { sum: 0 }, 0).ok()?;
    let one = lock.split(&mut host, 1);
    let two = lock.split(&mut host, 2);
    let three = lock.split(&mut host, 3);
    let four = lock.split(&mut host, 4);
    let shared = &lock;
    let ((one, two), (three, four)) = join(
        rt,
        move || -> (TurnSeat<Counter>, TurnSeat<Counter>)
            requires locks { (one.lock ≡ shared.now) × (two.lock ≡ shared.now) }
            requires tags { (one.tag ≡ 1) × (two.tag ≡ 2) }
            ensures { (result.0.lock ≡ shared.entry.now) × (result.1.lock ≡ shared.entry.now) }
        { two_callers(rt, shared, one, two, 1, turns) },
        move || -> (TurnSeat<Counter>, TurnSeat<Counter>)
            requires locks { (three.lock ≡ shared.now) × (four.lock ≡ shared.now) }
            requires tags { (three.tag ≡ 3) × (four.tag ≡ 4) }
            ensures { (result.0.lock ≡ shared.entry.now) × (result.1.lock ≡ shared.entry.now) }
        { two_callers(rt, shared, three, four, 3, turns) },
    );
    lock.join(&mut host, one);
    lock.join(&mut host, two);
    lock.join(&mut host, three);
    lock.join(&mut host, four);
    Some(lock.close(host).sum)
}

/// The same under a mutex.
fn four_mutex<R: Threads + Wait + Sync>(rt: &R, turns: u32) -> u64 {
    let mutex = Mutex::new(Counter { sum: 0 });
    let shared = &mutex;
    join(
        rt,
        || {
            join(
                rt,
                || lock_mutex(rt, shared, turns),
                || lock_mutex(rt, shared, turns),
            )
        },
        || {
            join(
                rt,
                || lock_mutex(rt, shared, turns),
                || lock_mutex(rt, shared, turns),
            )
        },
    );
    mutex.into_inner().sum
}

/// Nanoseconds a turn, rounded down.
fn nanos_a_turn(took: Duration, turns: u64) -> u128
    requires { 0 < turns }
{
    took.as_nanos() / u128::from(turns)
}

// Prints the figures, five times. A figure is told only where the turns add up.
fn measure<R: Runtime + Threads + Wait + Sync>(rt: &R, alloc: Global) -> io::Result<()> {
    for _ in 0..5 {
        let start = Instant::now(rt)?;
        let one = one_counted(rt, alloc, 1_000_000);
        let counted = start.elapsed(rt)?;
        let start = Instant::now(rt)?;
        let sum = one_mutex(rt, 1_000_000);
        let mutex = start.elapsed(rt)?;
        if one == Some(sum) {
            report(rt, "1 caller", counted, mutex)?;
        }
        let start = Instant::now(rt)?;
        let four = four_counted(rt, alloc, 250_000);
        let counted = start.elapsed(rt)?;
        let start = Instant::now(rt)?;
        let sum = four_mutex(rt, 250_000);
        let mutex = start.elapsed(rt)?;
        if four == Some(sum) {
            report(rt, "4 callers", counted, mutex)?;
        }
    }
    Ok(())
}

// Prints how long each of a million turns took, in nanoseconds.
fn report<R: Print>(rt: &R, callers: &str, counted: Duration, mutex: Duration) -> io::Result<()> {
    let counted = nanos_a_turn(counted, 1_000_000);
    let mutex = nanos_a_turn(mutex, 1_000_000);
    println!(rt; "{callers}: counted lock {counted} ns a turn, mutex {mutex} ns a turn")
}

fn main(rt: HostRuntime) -> io::Result<()> {
    for word in env::args(&rt)? {
        if word.as_str() == "measure" {
            return measure(&rt, rt.alloc());
        }
    }
    if let Some(sum) = one_counted(&rt, rt.alloc(), 100) {
        println!(rt;
            "1 caller: counted lock {sum}, mutex {}",
            one_mutex(&rt, 100)
        )?;
    }
    if let Some(sum) = four_counted(&rt, rt.alloc(), 100) {
        println!(rt;
            "4 callers: counted lock {sum}, mutex {}",
            four_mutex(&rt, 100)
        )?;
    }
    Ok(())
}

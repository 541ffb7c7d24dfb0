// Locks that threads share. No clause says that memory is left, that threads get their turns, nor
// what the bytes of the value are.
ghost use Rattle.std.specs.Prelude.{◌≡◌, ℕ, ◌+◌, ◌%◌, ◌^◌, ◌<◌, List, length, IsTrue};

use crate::{CountedLock, Keeps, TurnSeat, Work};
use std::alloc::Global;
use std::sync::Wait;
use std::test::Fail;
use std::thread::{Threads, join};

// How many turns were made, modulo 2^64.
#[derive(Drop)]
struct Counter {
    sum: u64,
}

impl Keeps for Counter {
    type Turn = u64;

    ghost stands = { λ turns c. length turns % 2 ^ 64 ≡ c.sum };

    ghost tag = { λ turn. turn };
}

// Adds 1. The turn is the tag alone.
#[derive(Drop)]
struct AddOne {
    tag: u64,
}

impl Work<Counter> for AddOne {
    type Reply = u64;

    ghost turn = { λ w reply. w.tag };

    fn work(&mut self, value: &mut Counter) -> u64 {
        value.sum = value.sum.wrapping_add(1);
        value.sum
    }
}

fn adds<R: Wait>(
    rt: &R,
    lock: &CountedLock<Counter>,
    mut seat: TurnSeat<Counter>,
    tag: u64,
) -> TurnSeat<Counter>
    requires lock { seat.lock ≡ lock.now }
    requires tag { seat.tag ≡ tag }
    ensures { result.lock ≡ lock.now }
{
    for _ in 0..100 {
        lock.turn(rt, &mut seat, &mut AddOne { tag });
    }
    seat
}

fn two_threads_add<R: Threads + Wait + Sync>(rt: &R, alloc: Global) -> Option<u64> {
    let (lock, mut host) = CountedLock::new(alloc, Counter { sum: 0 }, 0).ok()?;
    let first = lock.split(&mut host, 1);
    let second = lock.split(&mut host, 2);
    let shared = &lock;
    let (first, second) = join(
        rt,
        move || -> TurnSeat<Counter>
            requires lock { first.lock ≡ shared.now }
            requires tag { first.tag ≡ 1 }
            ensures { result.lock ≡ shared.entry.now }
        { adds(rt, shared, first, 1) },
        move || -> TurnSeat<Counter>
            requires lock { second.lock ≡ shared.now }
            requires tag { second.tag ≡ 2 }
            ensures { result.lock ≡ shared.entry.now }
        { adds(rt, shared, second, 2) },
    );
    lock.join(&mut host, first);
    lock.join(&mut host, second);
    Some(lock.close(host).sum)
}

#[test]
fn two_threads_add_a_hundred_each(rt: HostRuntime) -> Result<(), Fail> {
    assert!(rt; two_threads_add(&rt, rt.alloc()) == Some(200));
    Ok(())
}

fn one_caller_adds<R: Wait>(rt: &R, alloc: Global) -> Option<(u64, u64)> {
    let (lock, mut host) = CountedLock::new(alloc, Counter { sum: 0 }, 7).ok()?;
    lock.turn(rt, &mut host, &mut AddOne { tag: 7 });
    let turned = lock.turn(rt, &mut host, &mut AddOne { tag: 7 });
    let _ = lock.close(host);
    Some((turned.place, turned.reply))
}

#[test]
fn one_caller_is_told_its_place(rt: HostRuntime) -> Result<(), Fail> {
    assert!(rt; one_caller_adds(&rt, rt.alloc()) == Some((1, 2)));
    Ok(())
}

// The turns that were made, unless memory ran out. A turn is the tag and a number.
#[derive(Drop)]
struct Log {
    turns: Vec<(u64, u64)>,
    whole: bool,
}

impl Keeps for Log {
    type Turn = (u64, u64);

    ghost stands = { λ turns l. IsTrue l.whole → l.turns.items ≡ turns };

    ghost tag = { λ turn. turn.0 };
}

#[derive(Drop)]
struct Note {
    tag: u64,
    number: u64,
}

impl Work<Log> for Note {
    type Reply = ();

    ghost turn = { λ w reply. (w.tag, w.number) };

    fn work(&mut self, value: &mut Log) {
        if value.turns.push((self.tag, self.number)).is_err() {
            value.whole = false;
        }
    }
}

// Makes turns with the numbers from 0 to 24.
fn notes<R: Wait>(
    rt: &R,
    lock: &CountedLock<Log>,
    mut seat: TurnSeat<Log>,
    tag: u64,
) -> TurnSeat<Log>
    requires lock { seat.lock ≡ lock.now }
    requires tag { seat.tag ≡ tag }
    ensures { result.lock ≡ lock.now }
{
    for number in 0..25 {
        lock.turn(rt, &mut seat, &mut Note { tag, number });
    }
    seat
}

fn two_note<R: Threads + Wait + Sync>(
    rt: &R,
    lock: &CountedLock<Log>,
    first: TurnSeat<Log>,
    second: TurnSeat<Log>,
    tag: u64,
) -> (TurnSeat<Log>, TurnSeat<Log>)
    requires locks { (first.lock ≡ lock.now) × (second.lock ≡ lock.now) }
    requires tags { (first.tag ≡ tag) × (second.tag ≡ tag + 1) }
    requires few { tag < 100 }
    ensures { (result.0.lock ≡ lock.now) × (result.1.lock ≡ lock.now) }
{
    join(
        rt,
        move || -> TurnSeat<Log>
            requires lock { first.lock ≡ lock.now }
            requires tag { first.tag ≡ tag }
            ensures { result.lock ≡ lock.entry.now }
        { notes(rt, lock, first, tag) },
        move || -> TurnSeat<Log>
            requires lock { second.lock ≡ lock.now }
            requires tag { second.tag ≡ tag + 1 }
            requires few { tag < 100 }
            ensures { result.lock ≡ lock.entry.now }
        { notes(rt, lock, second, tag + 1) },
    )
}

// Four threads note, with seats that are split in turn and joined in another order.
fn four_note<R: Threads + Wait + Sync>(rt: &R, alloc: Global) -> Option<Log> {
    let log = Log {
        turns: Vec::new(alloc),
        whole: true,
    };
    let (lock, mut host) = CountedLock::new(alloc, log, 0).ok()?;
    let one = lock.split(&mut host, 1);
    let two = lock.split(&mut host, 2);
    let three = lock.split(&mut host, 3);
    let four = lock.split(&mut host, 4);
    let shared = &lock;
    let ((one, two), (three, four)) = join(
        rt,
        move || -> (TurnSeat<Log>, TurnSeat<Log>)
            requires locks { (one.lock ≡ shared.now) × (two.lock ≡ shared.now) }
            requires tags { (one.tag ≡ 1) × (two.tag ≡ 2) }
            ensures { (result.0.lock ≡ shared.entry.now) × (result.1.lock ≡ shared.entry.now) }
        { two_note(rt, shared, one, two, 1) },
        move || -> (TurnSeat<Log>, TurnSeat<Log>)
            requires locks { (three.lock ≡ shared.now) × (four.lock ≡ shared.now) }
            requires tags { (three.tag ≡ 3) × (four.tag ≡ 4) }
            ensures { (result.0.lock ≡ shared.entry.now) × (result.1.lock ≡ shared.entry.now) }
        { two_note(rt, shared, three, four, 3) },
    );
    lock.join(&mut host, three);
    lock.join(&mut host, one);
    lock.join(&mut host, four);
    lock.join(&mut host, two);
    Some(lock.close(host))
}

// How many turns a tag has, where their numbers count up from 0.
fn counted_up(turns: &[(u64, u64)], tag: u64) -> Option<u64> {
    let mut next = 0u64;
    for &(by, number) in turns {
        if by == tag {
            if number != next {
                return None;
            }
            next = next.wrapping_add(1);
        }
    }
    Some(next)
}

#[test]
fn each_seat_keeps_its_order(rt: HostRuntime) -> Result<(), Fail> {
    let log = four_note(&rt, rt.alloc());
    assert!(rt; log.is_some());
    if let Some(Log { turns, whole }) = log {
        assert!(rt; whole && turns.as_slice().len() == 100);
        for tag in 1..5 {
            assert_eq!(rt; counted_up(turns.as_slice(), tag), Some(25), "tag {tag}");
        }
    }
    Ok(())
}

//! How fast a connection's table of live operations and its deadlines are, with many of them live.
//!
//! With no argument it fills a table, ends each row, finishes each and gives others, and prints how many there were. With
//! the argument `measure` it prints the nanoseconds of each call with 1,000, 10,000 and 100,000 live rows, for rows in
//! their order and for rows that are drawn, most of which no cache of the processor holds where there are many.
#![tactic(auto)]

use anyhow::{Result, bail};
use id_table::IdTable;
use lload_names::{OpKind, OpName};
use op_deadlines::Deadlines;
use std::alloc::Global;
use std::env;
use std::rt::Clock;
use std::time::Instant;

/// How often each call is made to measure.
const CALLS: u32 = 1_000_000;

/// In what order rows are taken.
#[derive(Clone, Copy, Drop)]
enum Order {
    Oldest,
    Drawn,
}

/// A call on a table, or two that make one row of another.
#[derive(Clone, Copy, Drop)]
enum Call {
    Row,
    Find,
    Touch,
    EndAndGive,
    FinishAndGive,
}

/// A live row: its identifier and the number of its operation.
#[derive(Clone, Copy, Drop)]
struct Live {
    id: u32,
    k: u64,
}

/// A table with live rows, the deadlines of these, the place that comes next in order, and a number by which one is
/// drawn.
#[derive(Drop)]
struct Filled {
    table: IdTable,
    deadlines: Deadlines,
    rows: Vec<Live>,
    place: usize,
    random: u64,
}

fn op(k: u64) -> OpName {
    OpName { client: 1, k }
}

/// Gives an identifier to an operation.
fn give(table: &mut IdTable, k: u64) -> Result<Live> {
    if table.at_limit() {
        bail!("no identifier is left");
    }
    match table.give(op(k), OpKind::Search, false, k) {
        Ok(id) => Ok(Live { id, k }),
        Err(_) => bail!("no memory for a row"),
    }
}

impl Filled {
    fn with_rows(alloc: Global, count: u32) -> Result<Filled> {
        let Ok(mut table) = IdTable::new(alloc, 1_073_741_823) else {
            bail!("no memory for a table");
        };
        let mut deadlines = Deadlines::new(alloc, 30);
        let mut rows = Vec::new(alloc);
        for k in 0..count {
            let live = give(&mut table, k as u64)?;
            if deadlines.start(live.id, k as u64).is_err() {
                bail!("no memory for a deadline");
            }
            rows.push(live)?;
        }
        Ok(Filled {
            table,
            deadlines,
            rows,
            place: 0,
            random: 1,
        })
    }

    /// The next place among the rows; one is drawn by a linear congruence of 64 bits.
    fn next_place(&mut self, order: Order) -> usize {
        let count = self.rows.len().max(1);
        match order {
            Order::Oldest => {
                let place = self.place % count;
                self.place = place.wrapping_add(1);
                place
            }
            Order::Drawn => {
                self.random = self
                    .random
                    .wrapping_mul(6_364_136_223_846_793_005)
                    .wrapping_add(1_442_695_040_888_963_407);
                (self.random >> 33) as usize % count
            }
        }
    }

    /// Makes a call for a row, and says whether the row was there.
    fn call(&mut self, call: Call, place: usize, k: u64) -> Result<bool> {
        let Some(live) = self.rows.get_mut(place) else {
            return Ok(false);
        };
        let found = match call {
            Call::Row => self.table.row(live.id).is_some(),
            Call::Find => self.table.find(op(live.k)).is_some(),
            Call::Touch => {
                self.table.touch(live.id, k);
                true
            }
            Call::EndAndGive => {
                let found = self.table.end(live.id).is_some();
                *live = give(&mut self.table, k)?;
                found
            }
            Call::FinishAndGive => {
                let found = self.table.finish(live.id).is_some();
                *live = give(&mut self.table, k)?;
                found
            }
        };
        Ok(found)
    }

    /// Makes a call so many times, and says how often the row was there.
    fn calls(&mut self, call: Call, order: Order, times: u32) -> Result<u32> {
        let mut found = 0u32;
        for k in 0..times {
            let place = self.next_place(order);
            if self.call(call, place, k as u64)? {
                found = found.saturating_add(1);
            }
        }
        Ok(found)
    }

    /// Puts a deadline off, and stops and starts one, so many times.
    fn put_off(&mut self, order: Order, times: u32) -> Result<()> {
        for k in 0..times {
            let place = self.next_place(order);
            if let Some(live) = self.rows.get(place) {
                self.deadlines.touch(live.id, k as u64);
                self.deadlines.stop(live.id);
                if self.deadlines.start(live.id, k as u64).is_err() {
                    bail!("no memory for a deadline");
                }
            }
        }
        Ok(())
    }
}

/// Asks for the lowest identifier that is due so many times, at moments about this one, and says how often there was one.
fn dues(deadlines: &Deadlines, now: u64, times: u32) -> u32 {
    let mut found = 0u32;
    for k in 0..times {
        if deadlines.first_due(now ^ (k as u64 % 1_000)).is_some() {
            found = found.saturating_add(1);
        }
    }
    found
}

/// The nanoseconds of a call, where so many took the time since a moment.
fn nanoseconds_each(rt: &impl Clock, start: Instant) -> Result<u64> {
    let nanos = u64::try_from(start.elapsed(rt)?.as_nanos()).unwrap_or(u64::MAX);
    Ok(nanos / CALLS as u64)
}

/// Prints what the calls take with so many live rows.
fn measure(rt: &(impl Clock + Print), alloc: Global, count: u32, order: Order) -> Result<()> {
    let mut filled = Filled::with_rows(alloc, count)?;
    let rows = match order {
        Order::Oldest => "in order",
        Order::Drawn => "drawn",
    };
    let start = Instant::now(rt)?;
    filled.put_off(order, CALLS)?;
    let each = nanoseconds_each(rt, start)?;
    println!(rt;
        "Deadlines with {count} that wait, {rows}: touch, stop and start together {each} ns"
    )?;
    for (now, name) in [(0, "none is due"), (u64::MAX, "all are due")] {
        let start = Instant::now(rt)?;
        let found = dues(&filled.deadlines, now, CALLS);
        let each = nanoseconds_each(rt, start)?;
        println!(rt;
            "Deadlines with {count} that wait, of which {name}: first_due {each} ns, {found} found"
        )?;
    }
    let calls = [
        (Call::Row, "row"),
        (Call::Find, "find"),
        (Call::Touch, "touch"),
        (Call::FinishAndGive, "finish and give together"),
        (Call::EndAndGive, "end and give together"),
    ];
    for (call, name) in calls {
        let start = Instant::now(rt)?;
        if filled.calls(call, order, CALLS)? != CALLS {
            bail!("a row was missing");
        }
        let each = nanoseconds_each(rt, start)?;
        println!(rt; "IdTable with {count} live rows, {rows}: {name} {each} ns")?;
    }
    Ok(())
}

fn main(rt: HostRuntime) -> Result<()> {
    let word = env::args(&rt)?.nth(1);
    match word.as_ref().map(|word| word.as_str()) {
        Some("measure") => {
            for order in [Order::Oldest, Order::Drawn] {
                for count in [1_000, 10_000, 100_000] {
                    measure(&rt, rt.alloc(), count, order)?;
                }
            }
        }
        _ => {
            let mut filled = Filled::with_rows(rt.alloc(), 1_000)?;
            let found = filled.calls(Call::Row, Order::Drawn, 1_000)?;
            let ended = filled.calls(Call::EndAndGive, Order::Drawn, 1_000)?;
            let finished = filled.calls(Call::FinishAndGive, Order::Drawn, 1_000)?;
            println!(rt;
                "tables_bench: of 1000 rows {found} were found, {ended} ended and {finished} finished, and others given"
            )?;
        }
    }
    Ok(())
}

use crate::door::{Door, here};
use crate::worker::{Desk, House, MOST, run_round};
use anyhow::{Result, bail};
use lload_links::{Bell, Harbour, Listen, Made, Watch, Woke};
use net_links::{TcpHarbour, TcpPoller};
use std::alloc::Global;
use std::net::Net;
use std::sync::atomic::{AtomicBool, Ordering};
use std::sync::{Mutex, Wait};
use std::thread;
use std::thread::Threads;

// How many quiet waits of 1 ms come in a row before they are longer, and how long these are, in milliseconds.
const EAGER: u32 = 100;

const LONG: u32 = 100;

// How long a thread waits that has one thing to wait for, in milliseconds. Then it looks whether another has failed.
const PATIENT: u32 = 1_000;

/// What the words say.
#[derive(Clone, Copy, Drop)]
pub(crate) struct Plan<'a> {
    pub(crate) workers: u16,
    pub(crate) port: u16,
    pub(crate) servers: &'a [u16],
}

/// How long the poller may wait before the door is looked at, by how many waits in a row were quiet.
fn patience(quiet: u32) -> u32 {
    if quiet < EAGER { 1 } else { LONG }
}

/// Serves for ever by one poller, and looks at the door between its waits.
fn serve_alone<R: Net + Wait>(
    rt: &R,
    alloc: Global,
    plan: Plan<'_>,
    house: &House,
    mut harbour: TcpHarbour<'_, R>,
    mut door: Door,
    mut poller: TcpPoller,
) -> Result<()> {
    let mut desk = Desk::new(alloc)?;
    let mut quiet = 0u32;
    for _ in rt.forever() {
        match run_round(rt, alloc, house, &mut poller, &mut desk, patience(quiet)) {
            Woke::Failed | Woke::Closed => bail!("the poller failed"),
            Woke::Ready => quiet = 0,
            Woke::Quiet => quiet = quiet.saturating_add(1),
        }
        harbour.wait(0);
        door.take_back(rt, alloc, house, &mut harbour);
        door.accept_all(rt, alloc, house, &mut harbour, plan.servers);
    }
    Ok(())
}

/// Accepts until a thread has failed.
fn accept<R: Net + Wait>(
    rt: &R,
    alloc: Global,
    plan: Plan<'_>,
    house: &House,
    mut harbour: TcpHarbour<'_, R>,
    mut door: Door,
) {
    for _ in rt.forever() {
        let woke = harbour.wait(PATIENT);
        if woke == Woke::Failed || house.has_failed.load(Ordering::SeqCst) {
            break;
        }
        door.take_back(rt, alloc, house, &mut harbour);
        door.accept_all(rt, alloc, house, &mut harbour, plan.servers);
    }
    house.has_failed.store(true, Ordering::SeqCst);
}

/// Runs what a poller tells of, until a thread has failed.
fn run<R: Wait>(rt: &R, alloc: Global, house: &House, mut poller: TcpPoller) {
    if let Ok(mut desk) = Desk::new(alloc) {
        for _ in rt.forever() {
            let woke = run_round(rt, alloc, house, &mut poller, &mut desk, PATIENT);
            if woke == Woke::Failed || house.has_failed.load(Ordering::SeqCst) {
                break;
            }
        }
    }
    house.has_failed.store(true, Ordering::SeqCst);
    house.bell.ring();
}

/// Serves until a thread has failed: each poller has a thread of its own, and this one accepts.
fn serve_together<R: Net + Threads + Wait + Sync>(
    rt: &R,
    alloc: Global,
    plan: Plan<'_>,
    house: &House,
    harbour: TcpHarbour<'_, R>,
    door: Door,
    pollers: Vec<TcpPoller>,
) -> Result<()> {
    thread::scope(thread::scope_env(), rt, move |scope| {
        for poller in pollers {
            if scope.spawn(move || run(rt, alloc, house, poller)).is_err() {
                house.has_failed.store(true, Ordering::SeqCst);
            }
        }
        accept(rt, alloc, plan, house, harbour, door);
    });
    bail!("a thread failed")
}

/// Serves for ever, with one worker on this thread alone.
pub(crate) fn serve<R: Net + Threads + Wait + Sync>(
    rt: &R,
    alloc: Global,
    plan: Plan<'_>,
) -> Result<()> {
    let mut harbour = TcpHarbour::new(rt, alloc);
    if harbour.listen(here(plan.port)) != Listen::Done {
        bail!("can't listen");
    }
    let Bell::Made(bell) = harbour.bell(alloc) else {
        bail!("no bell");
    };
    let house = House {
        slots: boxcar::Vec::new(alloc)?,
        over: Mutex::new(Vec::new(alloc)),
        bell,
        has_failed: AtomicBool::new(false),
    };
    let mut pollers = Vec::new(alloc);
    let mut watches = Vec::new(alloc);
    for _ in 0..plan.workers {
        let Made::Both { poller, watch } = harbour.poller(alloc, MOST) else {
            bail!("no poller");
        };
        pollers.push(poller)?;
        watches.push(watch)?;
    }
    let door = Door::new(alloc, watches);
    if plan.workers > 1 {
        return serve_together(rt, alloc, plan, &house, harbour, door, pollers);
    }
    match pollers.pop() {
        Some(poller) => serve_alone(rt, alloc, plan, &house, harbour, door, poller),
        None => Ok(()),
    }
}

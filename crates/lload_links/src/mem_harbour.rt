ghost use Rattle.std.specs.Prelude.{ℕ, ◌≡◌, ◌≢◌, ◌<◌, ◌≤◌, ◌+◌, ◌-◌, ◌^◌, [], true, false, length, find, Some, IfOk, OnOk, if◌then◌else◌, vec_len, vec_capacity};
ghost use Rattle.std.specs.Option.{option_copied};
ghost use Rattle.lload_links.specs.Held.{tells_of, is_the};
ghost use Rattle.lload_links.specs.HarbourHeld.{AllUnused, AllMadeUnused, tells_of_harbour, next_accept, behind_accept, next_connect, behind_connect, closes, behind_wait, behind_back, behind_listen, all_back, MakesPoller};
ghost use Rattle.lload_links.specs.Harbours.{CameUnused, MadeUnused};

use crate::harbour::{Accept, Address, Bell, Connect, Harbour, Listen, Made};
use crate::link::Origin;
use crate::mem_link::{MemLink, one_more};
use crate::mem_poller::{MemPoller, MemWatch};
use crate::poller::Woke;
use crate::queue::Queue;
use lload_names::NoMemory;
use std::alloc::Global;
use std::collections::VecDeque;
use std::marker::Model;
use std::sync::Arc;
use std::sync::atomic::{AtomicBool, Ordering};
use std::thread;

/// Links that are accepted, in order.
pub type MemLinks = Queue<MemLink>;

/// A step of a harbour's connects.
#[derive(Debug, Drop)]
pub enum MemConnect {
    /// One connect makes this link.
    Made(MemLink),
    /// One connect fails.
    Fail,
}

/// The connects of a harbour, in order. Behind them each connect fails.
pub type MemConnects = Queue<MemConnect>;

/// A harbour in memory. It hands out the links that it has, keeps those that come back, and closes after so many waits,
/// or once all that it had to accept came back. Contracts see all of this.
#[derive(Drop)]
pub struct MemHarbour {
    accepts: VecDeque<MemLink>,
    connects: VecDeque<MemConnect>,
    waits: u32,
    listen_fails: bool,
    handed_out: usize,
    accepted: usize,
    // Has room for each link that was handed out.
    back: Vec<MemLink>,
    faults: u64,
    misses: u64,
    listened: bool,
    closed: bool,
    // Tells the pollers that the harbour is closed.
    closing: Arc<AtomicBool>,
}

impl Model for MemHarbour {
    ghost use Rattle.std.specs.Prelude.{vec_capacity};
    ghost use Rattle.lload_links.specs.HarbourHeld.{HarbourHeld, IsStocked};

    ghost Value = { HarbourHeld };

    ghost view = { λ h. record { accepts = h.accepts.items; connects = h.connects.items; waits = h.waits; listen_fails = h.listen_fails; handed_out = h.handed_out; accepted = h.accepted; back = h.back.items; faults = h.faults; misses = h.misses; listened = h.listened; closed = h.closed } };

    ghost invariant = { λ h. IsStocked h.accepts.items h.connects.items h.accepted h.handed_out (vec_capacity h.back) };
}

impl MemHarbour {
    /// A harbour with these links to accept and these connects. It closes at its wait number `waits`, counted from 0.
    pub fn new(
        alloc: Global,
        accepts: MemLinks,
        connects: MemConnects,
        waits: u32,
        listen_fails: bool,
    ) -> Result<MemHarbour, NoMemory>
        requires accepts { AllUnused accepts }
        requires connects { AllMadeUnused connects }
        ensures { IfOk result (λ harbour. harbour ≡ record { accepts = accepts; connects = connects; waits = waits; listen_fails = listen_fails; handed_out = 0; accepted = 0; back = []; faults = 0; misses = 0; listened = false; closed = false }) }
    {
        Ok(MemHarbour {
            closing: Arc::new(alloc, AtomicBool::new(false))?,
            accepts: accepts.into_deque(),
            connects: connects.into_deque(),
            waits,
            listen_fails,
            handed_out: 0,
            accepted: 0,
            back: Vec::new(alloc),
            faults: 0,
            misses: 0,
            listened: false,
            closed: false,
        })
    }

    /// The i-th accepted link, or the i-th connected one, counted from 0; `None` exactly where it wasn't given back.
    pub fn seen(&self, accepted: bool, i: u32) -> Option<&MemLink>
        ensures { option_copied result ≡ find (is_the accepted i) self.now.back }
    {
        self.back.iter().find(|link| link.is_the(accepted, i))
    }
}

/// Makes room for one link more to come back than were handed out.
fn make_room(back: &mut Vec<MemLink>, handed_out: usize) -> Result<(), NoMemory>
    ensures items { back.new.items ≡ back.old.items }
    ensures grows { vec_capacity back.old ≤ vec_capacity back.new }
    ensures room { OnOk result (handed_out + 1 ≤ vec_capacity back.new) }
{
    let out = handed_out.saturating_sub(back.len());
    back.reserve(out.checked_add(1).ok_or(NoMemory)?)?;
    Ok(())
}

/// Whether each link that was accepted came back.
fn is_over(accepts: &VecDeque<MemLink>, back: &[MemLink], accepted: usize) -> bool
    ensures { result ≡ all_back accepts.now.items back.now accepted }
{
    accepts.is_empty()
        && back
            .iter()
            .filter(|link| link.origin() == Origin::Accepted)
            .count()
            == accepted
}

impl Harbour for MemHarbour {
    type L = MemLink;

    type P = MemPoller;

    type W = MemWatch;

    ghost links = { λ h. Some (tells_of_harbour h) };

    ghost faults = { λ h. h.faults };

    ghost misses = { λ h. h.misses };

    ghost has_listened = { λ h. h.listened };

    ghost is_closed = { λ h. h.closed };

    fn listen(&mut self, _at: Address) -> Listen
        ensures answer { result ≡ (if self.old.listen_fails then Listen.Failed else Listen.Done) }
        ensures after { self.new ≡ behind_listen self.old }
        ensures count { self.new.faults < 2 ^ 64 }
    {
        self.listened = true;
        if self.listen_fails {
            self.faults = one_more(self.faults);
            return Listen::Failed;
        }
        Listen::Done
    }

    fn accept(&mut self) -> Accept<MemLink>
        ensures answer { result ≢ Accept.NoMemory → result ≡ next_accept self.old }
        ensures after { result ≢ Accept.NoMemory → self.new ≡ behind_accept self.old }
        ensures no_memory { result ≡ Accept.NoMemory → self.new ≡ self.old }
        ensures only_for_a_link { result ≡ Accept.NoMemory → self.old.accepts ≢ [] }
        ensures unused { CameUnused tells_of result }
    {
        if self.accepts.is_empty() {
            return Accept::NotYet;
        }
        if make_room(&mut self.back, self.handed_out).is_err() {
            return Accept::NoMemory;
        }
        let Some(mut link) = self.accepts.pop_front() else {
            return Accept::NotYet;
        };
        link.hand_out(Origin::Accepted, self.accepted);
        self.accepted += 1;
        self.handed_out += 1;
        Accept::Came(link)
    }

    fn connect(&mut self, _to: Address) -> Connect<MemLink>
        ensures answer { result ≢ Connect.NoMemory → result ≡ next_connect self.old }
        ensures after { result ≢ Connect.NoMemory → self.new ≡ behind_connect self.old }
        ensures no_memory { result ≡ Connect.NoMemory → self.new ≡ self.old }
        ensures only_for_a_link { result ≡ Connect.NoMemory → self.old.connects ≢ [] }
        ensures unused { MadeUnused tells_of result }
        ensures count { self.new.misses < 2 ^ 64 }
    {
        if !self.connects.is_empty() && make_room(&mut self.back, self.handed_out).is_err() {
            return Connect::NoMemory;
        }
        match self.connects.pop_front() {
            Some(MemConnect::Made(mut link)) => {
                link.hand_out(Origin::Connected, self.handed_out - self.accepted);
                self.handed_out += 1;
                Connect::Made(link)
            }
            Some(MemConnect::Fail) | None => {
                self.misses = one_more(self.misses);
                Connect::Failed
            }
        }
    }

    fn wait(&mut self, ms: u32) -> Woke
        ensures answer { result ≡ (if closes self.old then Woke.Closed else Woke.Quiet) }
        ensures after { self.new ≡ behind_wait self.old }
    {
        let _ = ms;
        thread::yield_now();
        if self.closed
            || self.waits == 0
            || is_over(&self.accepts, self.back.as_slice(), self.accepted)
        {
            self.closed = true;
            self.closing.store(true, Ordering::SeqCst);
            return Woke::Closed;
        }
        self.waits -= 1;
        Woke::Quiet
    }

    fn back(&mut self, link: MemLink)
        ensures { self.new ≡ behind_back self.old link }
    {
        if self.back.len() < self.handed_out {
            self.back.push_reserved(link);
        }
    }

    fn poller(&mut self, alloc: Global, most: usize) -> Made<MemPoller, MemWatch>
        ensures same { self.new ≡ self.old }
        ensures made { MakesPoller result }
    {
        match MemPoller::new(alloc, &self.closing, most) {
            Ok((poller, watch)) => Made::Both { poller, watch },
            Err(_) => Made::NoMemory,
        }
    }

    fn bell(&mut self, alloc: Global) -> Bell<MemWatch>
        ensures same { self.new ≡ self.old }
        ensures never_fails { result ≢ Bell.Failed }
    {
        match MemWatch::new(alloc) {
            Ok(watch) => Bell::Made(watch),
            Err(_) => Bell::NoMemory,
        }
    }
}

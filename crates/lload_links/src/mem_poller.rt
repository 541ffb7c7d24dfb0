ghost use Rattle.std.specs.Prelude.{ℕ, ◌≡◌, ◌≢◌, ◌<◌, ◌-◌, ◌^◌, ◌↔◌, [], true, false, IsTrue, IfOk, Some};
ghost use Rattle.lload_links.specs.Plans.{counted};
ghost use Rattle.lload_links.specs.Waits.{TellsNext};

use crate::link::Seen;
use crate::mem_link::MemLink;
use crate::poller::{Poller, Told, Watch, Watched, Woke};
use lload_names::NoMemory;
use std::alloc::Global;
use std::collections::VecDeque;
use std::marker::Model;
use std::sync::atomic::{AtomicBool, Ordering};
use std::sync::{Arc, Mutex};
use std::thread;

// How often a watch asks for the list of tokens, which a poller has for a moment only.
const TRIES: u32 = 1_000_000;

/// A poller in memory: each wait tells of the links in its charge, as many as it may, whether anything became of them or
/// not. It yields and doesn't sleep. It is closed once its harbour is.
#[derive(Drop)]
pub struct MemPoller {
    closing: Arc<AtomicBool>,
    tokens: Arc<Mutex<Vec<u64>>>,
    // The token that the next wait begins with.
    from: usize,
    most: usize,
    told: VecDeque<Told>,
    closed: bool,
}

impl Model for MemPoller {
    ghost use Rattle.lload_links.specs.Waits.{PollerHeld};

    ghost Value = { PollerHeld };

    ghost view = { λ p. record { to_tell = p.told.items; closed = p.closed } };
}

impl MemPoller {
    /// A poller with no link in its charge, and what puts links there.
    pub(crate) fn new(
        alloc: Global,
        closing: &Arc<AtomicBool>,
        most: usize,
    ) -> Result<(MemPoller, MemWatch), NoMemory>
        ensures { IfOk result (λ made. made.0 ≡ record { to_tell = []; closed = false }) }
    {
        let watch = MemWatch::new(alloc)?;
        let poller = MemPoller {
            closing: Arc::try_clone(closing)?,
            tokens: Arc::try_clone(&watch.tokens)?,
            from: 0,
            most,
            told: VecDeque::new(alloc),
            closed: false,
        };
        Ok((poller, watch))
    }

    /// Notes the links that this wait tells of.
    fn see(&mut self)
        ensures { self.new.closed ≡ self.old.closed }
    {
        let Some(tokens) = self.tokens.try_lock() else {
            return;
        };
        for _ in 0..tokens.len().min(self.most) {
            if self.from >= tokens.len() {
                self.from = 0;
            }
            let Some(token) = tokens.get(self.from) else {
                break;
            };
            self.from = self.from.wrapping_add(1);
            if self.told.push_back(ready(*token)).is_err() {
                break;
            }
        }
    }
}

/// A link of which anything may have become.
fn ready(token: u64) -> Told
    ensures { result ≡ record { token = token; seen = record { readable = true; writable = true; ended = false } } }
{
    let seen = Seen {
        readable: true,
        writable: true,
        ended: false,
    };
    Told { token, seen }
}

impl Poller for MemPoller {
    ghost to_tell = { λ p. Some p.to_tell };

    ghost faults = { λ _. 0 };

    ghost is_closed = { λ p. p.closed };

    fn wait(&mut self, ms: Option<u32>) -> Woke
        ensures never_fails { result ≢ Woke.Failed }
        ensures closed { (result ≡ Woke.Closed) ↔ IsTrue self.new.closed }
        ensures stays_closed { IsTrue self.old.closed → IsTrue self.new.closed }
        ensures told { result ≢ Woke.Ready → self.new.to_tell ≡ [] }
        ensures some { result ≡ Woke.Ready → self.new.to_tell ≢ [] }
    {
        let _ = ms;
        thread::yield_now();
        self.told.clear();
        if self.closed || self.closing.load(Ordering::SeqCst) {
            self.closed = true;
            return Woke::Closed;
        }
        self.see();
        if self.told.is_empty() {
            Woke::Quiet
        } else {
            Woke::Ready
        }
    }

    fn next(&mut self) -> Option<Told>
        ensures closed { self.new.closed ≡ self.old.closed }
        ensures told { TellsNext (Some self.old.to_tell) (Some self.new.to_tell) result }
    {
        self.told.pop_front()
    }
}

/// Puts links in the charge of a poller in memory.
#[derive(Drop)]
pub struct MemWatch {
    tokens: Arc<Mutex<Vec<u64>>>,
}

impl MemWatch {
    /// No link is in its charge.
    pub(crate) fn new(alloc: Global) -> Result<MemWatch, NoMemory> {
        Ok(MemWatch {
            tokens: Arc::new(alloc, Mutex::new(Vec::new(alloc)))?,
        })
    }
}

impl Watch<MemLink> for MemWatch {
    fn watch(&self, link: &mut MemLink, token: u64) -> Watched
        requires { token < 2 ^ 64 - 1 }
        ensures failed { result ≡ Watched.Failed → link.new ≡ record link.old { faults = counted link.old.faults } }
        ensures same { result ≢ Watched.Failed → link.new ≡ link.old }
        ensures count { result ≡ Watched.Failed → link.new.faults < 2 ^ 64 }
    {
        for _ in 0..TRIES {
            if let Some(mut tokens) = self.tokens.try_lock() {
                return match tokens.push(token) {
                    Ok(()) => Watched::Done,
                    Err(_) => Watched::NoMemory,
                };
            }
            thread::yield_now();
        }
        link.fail();
        Watched::Failed
    }

    // A poller in memory doesn't sleep.
    fn ring(&self) {}
}

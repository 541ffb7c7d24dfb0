ghost use Rattle.std.specs.Prelude.{false, None};

use crate::link::TcpLink;
use lload_links::{Poller, Seen, Told, Watch, Watched, Woke};
use mio::event::Event;
use mio::{Events, Poll, Registry, Token, Waker};
use std::alloc::Global;
use std::io;
use std::net::Net;
use std::time::Duration;

// The token of a poller's own ring.
const RING: usize = usize::MAX;

/// Waits for the links in its charge, by epoll.
#[derive(Drop)]
pub struct TcpPoller {
    poll: Poll,
    events: Events,
    // How many links of the last wait were told.
    at: usize,
    faults: u64,
}

impl TcpPoller {
    /// A poller that tells of at most `most` links at a time, and what puts links in its charge.
    pub(crate) fn new(poll: Poll, alloc: Global, most: usize) -> io::Result<(TcpPoller, TcpWatch)> {
        let events = Events::with_capacity(alloc, most)?;
        let watch = TcpWatch::new(poll.registry())?;
        let poller = TcpPoller {
            poll,
            events,
            at: 0,
            faults: 0,
        };
        Ok((poller, watch))
    }
}

/// Makes the system's poll.
pub(crate) fn new_poll<R: Net>(rt: &R) -> io::Result<Poll> {
    Poll::new(rt)
}

/// How long a wait may take; with no number for ever.
pub(crate) fn timeout(ms: Option<u32>) -> Option<Duration> {
    ms.map(|ms| Duration::from_millis(u64::from(ms)))
}

/// What an event tells.
fn told_by(event: &Event) -> Told {
    let ended = event.is_read_closed() || event.is_error();
    Told {
        token: event.token().0 as u64,
        seen: Seen {
            readable: event.is_readable() || ended,
            writable: event.is_writable(),
            ended,
        },
    }
}

/// The first event from an index on that isn't the ring, and the index behind it. A wait sees the ring once at most.
fn next_told(events: &Events, from: usize) -> (Option<Told>, usize) {
    let events = events.iter().as_slice();
    let mut at = from;
    for _ in 0..2u8 {
        let Some(event) = events.get(at) else {
            return (None, at);
        };
        at = at.saturating_add(1);
        if event.token().0 != RING {
            return (Some(told_by(event)), at);
        }
    }
    (None, at)
}

impl Poller for TcpPoller {
    ghost to_tell = { λ _. None };

    ghost faults = { λ p. p.faults };

    ghost is_closed = { λ _. false };

    fn wait(&mut self, ms: Option<u32>) -> Woke {
        self.at = 0;
        if self.poll.poll(&mut self.events, timeout(ms)).is_err() {
            self.faults = self.faults.saturating_add(1);
            return Woke::Failed;
        }
        if self.events.is_empty() {
            Woke::Quiet
        } else {
            Woke::Ready
        }
    }

    fn next(&mut self) -> Option<Told> {
        let (told, at) = next_told(&self.events, self.at);
        self.at = at;
        told
    }
}

/// Puts links in a poller's charge, and ends its wait.
#[derive(Drop)]
pub struct TcpWatch {
    registry: Registry,
    waker: Waker,
}

impl TcpWatch {
    /// What puts links in the charge of the poll that has this registry.
    pub(crate) fn new(registry: &Registry) -> io::Result<TcpWatch> {
        Ok(TcpWatch {
            registry: registry.try_clone()?,
            waker: Waker::new(registry, Token(RING))?,
        })
    }
}

impl Watch<TcpLink> for TcpWatch {
    fn watch(&self, link: &mut TcpLink, token: u64) -> Watched {
        link.register(&self.registry, Token(token as usize))
    }

    // The ring of a poller that is gone is of no use.
    fn ring(&self) {
        let _ = self.waker.wake();
    }
}

ghost use Rattle.std.specs.Prelude.{◌≡◌, false, None};

use crate::link::TcpLink;
use crate::poller::{TcpPoller, TcpWatch, new_poll, timeout};
use lload_links::{Accept, Address, Bell, Connect, Harbour, Listen, Made, Origin, Woke};
use mio::net::{TcpListener, TcpStream};
use mio::{Events, Interest, Poll, Token};
use std::alloc::Global;
use std::io;
use std::io::ErrorKind;
use std::net::{Ipv4Addr, Net, SocketAddr};

// The token of the listener in the harbour's own poll.
const DOOR: usize = 0;

// How many events the harbour's own wait takes at once: the listener's and the bell's.
const EVENTS: usize = 2;

// How many milliseconds pass before an accept that failed is tried again.
const PAUSE: u32 = 100;

/// What there is once a harbour listens.
#[derive(Drop)]
struct Door {
    poll: Poll,
    events: Events,
    listener: TcpListener,
}

/// Hands out TCP links: those that clients make, and those to servers. One that comes back is dropped.
#[derive(Drop)]
pub struct TcpHarbour<'a, R: Net> {
    rt: &'a R,
    alloc: Global,
    door: Option<Door>,
    // The last accept failed, so clients may wait of whom the poll doesn't tell again.
    paused: bool,
    listened: bool,
    faults: u64,
    misses: u64,
}

impl<'a, R: Net> TcpHarbour<'a, R> {
    /// A harbour that doesn't listen yet. It takes no memory.
    pub fn new(rt: &'a R, alloc: Global) -> TcpHarbour<'a, R>
        ensures listened { result.listened ≡ false }
    {
        TcpHarbour {
            rt,
            alloc,
            door: None,
            paused: false,
            listened: false,
            faults: 0,
            misses: 0,
        }
    }

    /// Opens the door at an address.
    fn open(&self, at: Address) -> io::Result<Door> {
        let poll = new_poll(self.rt)?;
        let events = Events::with_capacity(self.alloc, EVENTS)?;
        let mut listener = TcpListener::bind(self.rt, socket_address(at))?;
        poll.registry()
            .register(&mut listener, Token(DOOR), Interest::READABLE)?;
        Ok(Door {
            poll,
            events,
            listener,
        })
    }
}

/// An address as the system has it.
fn socket_address(at: Address) -> SocketAddr {
    let [a, b, c, d] = at.ip;
    SocketAddr::from((Ipv4Addr::new(a, b, c, d), at.port))
}

/// Begins to connect to an address. One that is refused at once, as on the loopback, is told here; else its link tells.
fn begin_connect<R: Net>(rt: &R, to: Address) -> io::Result<TcpStream> {
    let stream = TcpStream::connect(rt, socket_address(to))?;
    match stream.take_error()? {
        Some(refused) => Err(refused),
        None => Ok(stream),
    }
}

impl<'a, R: Net> Harbour for TcpHarbour<'a, R> {
    type L = TcpLink;

    type P = TcpPoller;

    type W = TcpWatch;

    ghost links = { λ _. None };

    ghost faults = { λ h. h.faults };

    ghost misses = { λ h. h.misses };

    ghost has_listened = { λ h. h.listened };

    ghost is_closed = { λ _. false };

    fn listen(&mut self, at: Address) -> Listen {
        self.listened = true;
        match self.open(at) {
            Ok(door) => {
                self.door = Some(door);
                Listen::Done
            }
            Err(_) => {
                self.faults = self.faults.saturating_add(1);
                Listen::Failed
            }
        }
    }

    fn accept(&mut self) -> Accept<TcpLink> {
        let Some(door) = &self.door else {
            return Accept::NotYet;
        };
        match door.listener.accept() {
            Ok((stream, _)) => {
                let _ = stream.set_nodelay(true);
                Accept::Came(TcpLink::new(stream, Origin::Accepted))
            }
            Err(error) if error.kind() == ErrorKind::WouldBlock => Accept::NotYet,
            Err(_) => {
                self.paused = true;
                self.faults = self.faults.saturating_add(1);
                Accept::Failed
            }
        }
    }

    fn connect(&mut self, to: Address) -> Connect<TcpLink> {
        match begin_connect(self.rt, to) {
            Ok(stream) => {
                let _ = stream.set_nodelay(true);
                Connect::Made(TcpLink::new(stream, Origin::Connected))
            }
            Err(_) => {
                self.misses = self.misses.saturating_add(1);
                Connect::Failed
            }
        }
    }

    // Behind an accept that failed a wait is short, and tells to accept again. Without a listener it answers at once.
    fn wait(&mut self, ms: u32) -> Woke {
        let paused = self.paused;
        self.paused = false;
        let ms = if paused { ms.min(PAUSE) } else { ms };
        let Some(door) = &mut self.door else {
            return Woke::Quiet;
        };
        if door.poll.poll(&mut door.events, timeout(Some(ms))).is_err() {
            self.faults = self.faults.saturating_add(1);
            return Woke::Failed;
        }
        if paused || !door.events.is_empty() {
            Woke::Ready
        } else {
            Woke::Quiet
        }
    }

    fn back(&mut self, _link: TcpLink) {}

    fn poller(&mut self, alloc: Global, most: usize) -> Made<TcpPoller, TcpWatch> {
        let made = match new_poll(self.rt) {
            Ok(poll) => TcpPoller::new(poll, alloc, most),
            Err(error) => Err(error),
        };
        match made {
            Ok((poller, watch)) => Made::Both { poller, watch },
            Err(_) => {
                self.faults = self.faults.saturating_add(1);
                Made::Failed
            }
        }
    }

    fn bell(&mut self, _alloc: Global) -> Bell<TcpWatch> {
        let made = match &self.door {
            Some(door) => TcpWatch::new(door.poll.registry()).ok(),
            None => None,
        };
        match made {
            Some(watch) => Bell::Made(watch),
            None => {
                self.faults = self.faults.saturating_add(1);
                Bell::Failed
            }
        }
    }
}

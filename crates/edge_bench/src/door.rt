use crate::slots::{Session, Slot};
use crate::worker::{House, Over};
use lload_links::{Accept, Address, Connect, Harbour, Watch, Watched};
use net_links::{TcpHarbour, TcpLink, TcpWatch};
use std::alloc::Global;
use std::mem;
use std::net::Net;
use std::sync::Wait;

/// What the thread that accepts has for itself.
#[derive(Drop)]
pub(crate) struct Door {
    // What puts links in the charge of each worker's poller.
    watches: Vec<TcpWatch>,
    // The first numbers of pairs of slots that have no session, and how many links of each pair came back.
    free: Vec<u32>,
    back: Vec<u8>,
    turn: usize,
}

/// A port of this machine.
pub(crate) fn here(port: u16) -> Address {
    Address {
        ip: [127, 0, 0, 1],
        port,
    }
}

impl Door {
    /// A door to workers, with what puts links in the charge of each one's poller.
    pub(crate) fn new(alloc: Global, watches: Vec<TcpWatch>) -> Door {
        Door {
            watches,
            free: Vec::new(alloc),
            back: Vec::new(alloc),
            turn: 0,
        }
    }

    /// The first number of a pair of slots that have no session. `None` for want of memory.
    fn take_pair<R: Wait>(&mut self, rt: &R, alloc: Global, house: &House) -> Option<u32> {
        if let Some(first) = self.free.pop() {
            return Some(first);
        }
        // The first slot of a pair has an even number; it may be there without the second.
        let mut number = house.slots.push(rt, Slot::new(alloc)).ok()?;
        if number % 2 == 0 {
            number = house.slots.push(rt, Slot::new(alloc)).ok()?;
        }
        self.back.push(0).ok()?;
        u32::try_from(number & !1).ok()
    }

    /// Takes back the links whose sessions ended.
    pub(crate) fn take_back<R: Net + Wait>(
        &mut self,
        rt: &R,
        alloc: Global,
        house: &House,
        harbour: &mut TcpHarbour<'_, R>,
    ) {
        let over = {
            let mut over = house.over.lock(rt);
            mem::replace(&mut *over, Vec::new(alloc))
        };
        for one in over {
            let Over { number, link } = one;
            harbour.back(link);
            if let Some(back) = self.back.get_mut(number as usize / 2) {
                *back = back.wrapping_add(1);
                if *back == 2 {
                    *back = 0;
                    let _ = self.free.push(number & !1);
                }
            }
        }
    }

    /// Puts a client and its server in a pair of slots, and has a worker's poller tell of them.
    fn admit<R: Wait>(
        &mut self,
        rt: &R,
        alloc: Global,
        house: &House,
        first: u32,
        client: TcpLink,
        server: TcpLink,
    ) {
        let second = first | 1;
        if let (Some(one), Some(other)) = (
            house.slots.get(first as usize),
            house.slots.get(second as usize),
        ) {
            one.open(rt, alloc, client);
            other.open(rt, alloc, server);
        }
        let watched = match self.watches.len() {
            0 => false,
            count => match self.watches.get(first as usize / 2 % count) {
                Some(watch) => {
                    has_watched(rt, house, watch, first) && has_watched(rt, house, watch, second)
                }
                None => false,
            },
        };
        if !watched {
            give_up(rt, alloc, house, first);
            give_up(rt, alloc, house, second);
        }
    }

    /// Accepts all clients that wait, and connects each to a server.
    pub(crate) fn accept_all<R: Net + Wait>(
        &mut self,
        rt: &R,
        alloc: Global,
        house: &House,
        harbour: &mut TcpHarbour<'_, R>,
        servers: &[u16],
    ) {
        for _ in rt.forever() {
            let Accept::Came(client) = harbour.accept() else {
                return;
            };
            self.turn = self.turn.wrapping_add(1);
            let port = match servers.len() {
                0 => return,
                count => servers[self.turn % count],
            };
            let Connect::Made(server) = harbour.connect(here(port)) else {
                harbour.back(client);
                continue;
            };
            match self.take_pair(rt, alloc, house) {
                Some(first) => self.admit(rt, alloc, house, first, client, server),
                None => {
                    harbour.back(client);
                    harbour.back(server);
                }
            }
        }
    }
}

/// Has a poller tell of the session in a slot.
fn has_watched<R: Wait>(rt: &R, house: &House, watch: &TcpWatch, number: u32) -> bool {
    let Some(slot) = house.slots.get(number as usize) else {
        return false;
    };
    let mut held = slot.session().lock(rt);
    match &mut *held {
        Some(session) => watch.watch(&mut session.link, u64::from(number)) == Watched::Done,
        None => true,
    }
}

/// Ends the session of a slot that no worker is told of.
fn give_up<R: Wait>(rt: &R, alloc: Global, house: &House, number: u32) {
    let Some(slot) = house.slots.get(number as usize) else {
        return;
    };
    slot.shut(rt, alloc);
    let session = {
        let mut held = slot.session().lock(rt);
        held.take()
    };
    if let Some(Session { link, .. }) = session {
        let _ = house.over.lock(rt).push(Over { number, link });
    }
}

ghost use Rattle.std.specs.Prelude.{◌<◌, length};

use super::*;
use lload_links::{
    Accept, Address, Bell, Connect, Harbour, Link, LinkRead, LinkWrite, Listen, Made, Poller,
    Ready, Watch, Watched, Woke,
};
use std::test::Fail;

// How often a test waits at most, and for how long.
const WAITS: u32 = 100;

const MS: u32 = 100;

fn here(port: u16) -> Address {
    Address {
        ip: [127, 0, 0, 1],
        port,
    }
}

// A port that nobody listens on, and a harbour that listens there.
fn listening<H: Harbour>(harbour: &mut H) -> Option<u16> {
    for port in 41_389..41_489 {
        if harbour.listen(here(port)) == Listen::Done {
            return Some(port);
        }
    }
    None
}

fn accepted<H: Harbour>(harbour: &mut H) -> Option<H::L> {
    for _ in 0..WAITS {
        if let Accept::Came(link) = harbour.accept() {
            return Some(link);
        }
        if harbour.wait(MS) == Woke::Failed {
            return None;
        }
    }
    None
}

fn connected<H: Harbour>(harbour: &mut H, port: u16) -> Option<H::L> {
    match harbour.connect(here(port)) {
        Connect::Made(link) => Some(link),
        Connect::Failed | Connect::NoMemory => None,
    }
}

// Waits until the one link of a poller has been written to.
fn sent<P: Poller, L: Link>(poller: &mut P, link: &mut L, piece: &[u8]) -> LinkWrite {
    for _ in 0..WAITS {
        match link.write(piece) {
            LinkWrite::NotYet => {}
            answer => return answer,
        }
        poller.wait(Some(MS));
        for _ in 0..4u8 {
            if let Some(told) = poller.next() {
                link.told(told.seen);
            }
        }
    }
    LinkWrite::NotYet
}

// Waits until the one link of a poller has something to read.
fn got<P: Poller, L: Link>(poller: &mut P, link: &mut L, buf: &mut [u8]) -> LinkRead
    requires { 0 < length buf.old }
{
    for _ in 0..WAITS {
        if link.ready() == Ready::Yes {
            match link.read(buf) {
                LinkRead::NotYet => {}
                answer => return answer,
            }
        }
        poller.wait(Some(MS));
        for _ in 0..4u8 {
            if let Some(told) = poller.next() {
                link.told(told.seen);
            }
        }
    }
    LinkRead::NotYet
}

#[test]
fn bytes_go_both_ways_on_the_loopback(rt: HostRuntime) -> Result<(), Fail> {
    let alloc = rt.alloc();
    let mut harbour = TcpHarbour::new(&rt, alloc);
    let port = listening(&mut harbour).ok_or("no free port")?;
    let mut taken = TcpHarbour::new(&rt, alloc);
    assert_eq!(rt; taken.listen(here(port)), Listen::Failed);
    assert!(rt; matches!(harbour.bell(alloc), Bell::Made(_)));
    let mut server = connected(&mut harbour, port).ok_or("no connection")?;
    let mut client = accepted(&mut harbour).ok_or("no client")?;
    let Made::Both { mut poller, watch } = harbour.poller(alloc, 4) else {
        return Err(Fail::from("no poller"));
    };
    let Made::Both {
        poller: mut other,
        watch: other_watch,
    } = harbour.poller(alloc, 4)
    else {
        return Err(Fail::from("no poller"));
    };
    assert_eq!(rt; watch.watch(&mut server, 7), Watched::Done);
    assert_eq!(rt; other_watch.watch(&mut client, 8), Watched::Done);
    let mut buf = [0u8; 8];
    assert_eq!(rt; sent(&mut poller, &mut server, b"there"), LinkWrite::Put(5));
    assert_eq!(rt; got(&mut other, &mut client, &mut buf), LinkRead::Got(5));
    assert_eq!(rt; buf.get(..5), Some(b"there".as_slice()));
    assert_eq!(rt; sent(&mut other, &mut client, b"back"), LinkWrite::Put(4));
    assert_eq!(rt; got(&mut poller, &mut server, &mut buf), LinkRead::Got(4));
    assert_eq!(rt; buf.get(..4), Some(b"back".as_slice()));
    assert_eq!(rt; sent(&mut other, &mut client, b""), LinkWrite::Failed);
    server.close();
    assert_eq!(rt; got(&mut other, &mut client, &mut buf), LinkRead::End);
    harbour.back(server);
    harbour.back(client);
    watch.ring();
    assert_eq!(rt; poller.wait(None), Woke::Ready);
    assert!(rt; poller.next().is_none());
    Ok(())
}

#[test]
fn a_connection_that_is_refused_fails_when_it_is_used(rt: HostRuntime) -> Result<(), Fail> {
    let alloc = rt.alloc();
    let mut harbour = TcpHarbour::new(&rt, alloc);
    let Made::Both { mut poller, watch } = harbour.poller(alloc, 4) else {
        return Err(Fail::from("no poller"));
    };
    // Nobody listens on this port.
    if let Some(mut link) = connected(&mut harbour, 1) {
        assert_eq!(rt; watch.watch(&mut link, 1), Watched::Done);
        assert_eq!(rt; sent(&mut poller, &mut link, b"x"), LinkWrite::Failed);
    }
    Ok(())
}

#[test]
fn a_link_that_is_reset_fails(rt: HostRuntime) -> Result<(), Fail> {
    let alloc = rt.alloc();
    let mut harbour = TcpHarbour::new(&rt, alloc);
    let port = listening(&mut harbour).ok_or("no free port")?;
    let mut server = connected(&mut harbour, port).ok_or("no connection")?;
    let client = accepted(&mut harbour).ok_or("no client")?;
    let Made::Both { mut poller, watch } = harbour.poller(alloc, 4) else {
        return Err(Fail::from("no poller"));
    };
    assert_eq!(rt; watch.watch(&mut server, 7), Watched::Done);
    assert_eq!(rt; sent(&mut poller, &mut server, b"there"), LinkWrite::Put(5));
    // A connection that is dropped with bytes unread is reset.
    harbour.back(client);
    let mut buf = [0u8; 8];
    assert_eq!(rt; got(&mut poller, &mut server, &mut buf), LinkRead::Failed);
    Ok(())
}

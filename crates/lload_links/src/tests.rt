ghost use Rattle.std.specs.Prelude.{◌≡◌, ◌<◌, ◌-◌, ◌^◌, [], length, IfOk};
ghost use Rattle.lload_links.specs.Held.{tells_of};
ghost use Rattle.lload_links.specs.HarbourHeld.{AllUnused, AllMadeUnused};
ghost use Rattle.lload_links.specs.Tells.{IsUnused};

use super::*;
use lload_names::Body;
use std::alloc::Global;
use std::test::Fail;

const HOME: Address = Address {
    ip: [127, 0, 0, 1],
    port: 389,
};

fn read_once<L: Link>(link: &mut L, buf: &mut [u8]) -> LinkRead
    requires { 0 < length buf.old }
{
    link.read(buf)
}

fn write_once<L: Link>(link: &mut L, piece: &[u8]) -> LinkWrite {
    link.write(piece)
}

fn look_once<L: Link>(link: &mut L) -> Ready {
    link.ready()
}

// A link that gives these bytes, and then ends.
fn giving(alloc: Global, bytes: &[u8]) -> Result<MemLink, Fail>
    ensures { IfOk result (λ link. IsUnused (tells_of link)) }
{
    let mut reads = MemReads::new(alloc);
    reads.push(MemRead::Bytes(Body::from_slice(alloc, bytes)?))?;
    Ok(MemLink::new(alloc, reads, MemWrites::new(alloc))?)
}

fn two_links(alloc: Global) -> Result<MemLinks, Fail>
    ensures { IfOk result AllUnused }
{
    let mut links = MemLinks::new(alloc);
    links.push(giving(alloc, b"one")?)?;
    links.push(giving(alloc, b"two")?)?;
    Ok(links)
}

fn two_connects(alloc: Global) -> Result<MemConnects, Fail>
    ensures { IfOk result AllMadeUnused }
{
    let mut connects = MemConnects::new(alloc);
    connects.push(MemConnect::Made(giving(alloc, b"three")?))?;
    connects.push(MemConnect::Fail)?;
    connects.push(MemConnect::Made(giving(alloc, b"four")?))?;
    Ok(connects)
}

fn accept_one<H: Harbour>(harbour: &mut H) -> Option<H::L> {
    match harbour.accept() {
        Accept::Came(link) => Some(link),
        Accept::NotYet | Accept::Failed | Accept::NoMemory => None,
    }
}

fn connect_one<H: Harbour>(harbour: &mut H) -> Option<H::L> {
    match harbour.connect(HOME) {
        Connect::Made(link) => Some(link),
        Connect::Failed | Connect::NoMemory => None,
    }
}

// Reads up to 8 bytes, writes a piece, closes and gives the link back.
fn serve_once<H: Harbour>(harbour: &mut H, mut link: H::L, piece: &[u8]) {
    let mut buf = [0u8; 8];
    link.read(&mut buf);
    link.write(piece);
    link.close();
    harbour.back(link);
}

fn wait_once<H: Harbour>(harbour: &mut H) -> Woke {
    harbour.wait(10)
}

// What a poller tells of one link that is watched under a token, in two waits.
fn polled<H: Harbour>(harbour: &mut H, alloc: Global, link: &mut H::L, token: u64) -> Option<u64>
    requires { token < 2 ^ 64 - 1 }
{
    let Made::Both { mut poller, watch } = harbour.poller(alloc, 8) else {
        return None;
    };
    if poller.wait(Some(0)) != Woke::Quiet || watch.watch(link, token) != Watched::Done {
        return None;
    }
    watch.ring();
    if poller.wait(None) != Woke::Ready {
        return None;
    }
    let told = poller.next()?;
    if poller.next().is_some() {
        return None;
    }
    link.told(told.seen);
    Some(told.token)
}

#[test]
fn a_link_goes_by_its_plans(rt: HostRuntime) -> Result<(), Fail> {
    let alloc = rt.alloc();
    let mut reads = MemReads::new(alloc);
    reads.push(MemRead::Bytes(Body::from_slice(alloc, b"abc")?))?;
    reads.push(MemRead::NotYet)?;
    reads.push(MemRead::Until(2))?;
    reads.push(MemRead::Bytes(Body::new(alloc)))?;
    reads.push(MemRead::Fail)?;
    reads.push(MemRead::Bytes(Body::from_slice(alloc, b"d")?))?;
    let mut writes = MemWrites::new(alloc);
    writes.push(MemWrite::NotYet)?;
    writes.push(MemWrite::Take(1))?;
    writes.push(MemWrite::Take(0))?;
    writes.push(MemWrite::Fail)?;
    let mut link = MemLink::new(alloc, reads, writes)?;
    let mut buf = [0u8; 2];
    assert_eq!(rt; look_once(&mut link), Ready::Yes);
    assert_eq!(rt; read_once(&mut link, &mut buf), LinkRead::Got(2));
    assert_eq!(rt; buf.as_slice(), b"ab".as_slice());
    assert_eq!(rt; read_once(&mut link, &mut buf), LinkRead::Got(1));
    assert_eq!(rt; read_once(&mut link, &mut buf), LinkRead::NotYet);
    assert_eq!(rt; look_once(&mut link), Ready::NotYet);
    assert_eq!(rt; write_once(&mut link, b"xyz"), LinkWrite::NotYet);
    assert_eq!(rt; write_once(&mut link, b"xyz"), LinkWrite::Put(1));
    assert_eq!(rt; read_once(&mut link, &mut buf), LinkRead::NotYet);
    assert_eq!(rt; write_once(&mut link, b"yz"), LinkWrite::Failed);
    assert_eq!(rt; write_once(&mut link, b"yz"), LinkWrite::Failed);
    assert_eq!(rt; write_once(&mut link, b""), LinkWrite::Failed);
    assert_eq!(rt; write_once(&mut link, b"yz"), LinkWrite::Put(2));
    assert_eq!(rt; read_once(&mut link, &mut buf), LinkRead::Failed);
    assert_eq!(rt; read_once(&mut link, &mut buf), LinkRead::Got(1));
    assert_eq!(rt; read_once(&mut link, &mut buf), LinkRead::End);
    assert_eq!(rt; link.was_read(), b"abcd".as_slice());
    assert_eq!(rt; link.written(), b"xyz".as_slice());
    assert_eq!(rt; link.origin(), Origin::Own);
    Ok(())
}

#[test]
fn a_harbour_shows_each_link_that_came_back(rt: HostRuntime) -> Result<(), Fail> {
    let alloc = rt.alloc();
    let mut harbour = MemHarbour::new(alloc, two_links(alloc)?, two_connects(alloc)?, 100, false)?;
    assert_eq!(rt; harbour.listen(HOME), Listen::Done);
    let first = accept_one(&mut harbour).ok_or("no first client")?;
    let second = accept_one(&mut harbour).ok_or("no second client")?;
    assert!(rt; accept_one(&mut harbour).is_none());
    let third = connect_one(&mut harbour).ok_or("no first server")?;
    assert!(rt; connect_one(&mut harbour).is_none());
    let fourth = connect_one(&mut harbour).ok_or("no second server")?;
    assert!(rt; connect_one(&mut harbour).is_none());
    serve_once(&mut harbour, second, b"second");
    serve_once(&mut harbour, fourth, b"fourth");
    assert_eq!(rt; wait_once(&mut harbour), Woke::Quiet);
    assert!(rt; harbour.seen(true, 0).is_none());
    serve_once(&mut harbour, third, b"third");
    serve_once(&mut harbour, first, b"first");
    let links = [(true, 0), (true, 1), (false, 0), (false, 1)];
    let read = [
        b"one".as_slice(),
        b"two".as_slice(),
        b"three".as_slice(),
        b"four".as_slice(),
    ];
    let written = [
        b"first".as_slice(),
        b"second".as_slice(),
        b"third".as_slice(),
        b"fourth".as_slice(),
    ];
    for k in 0..4usize {
        let link = harbour
            .seen(links[k].0, links[k].1)
            .ok_or("a link isn't seen")?;
        assert_eq!(rt; link.was_read(), read[k]);
        assert_eq!(rt; link.written(), written[k]);
    }
    assert!(rt; harbour.seen(true, 2).is_none());
    assert_eq!(rt; wait_once(&mut harbour), Woke::Closed);
    Ok(())
}

#[test]
fn a_harbour_closes_after_its_waits(rt: HostRuntime) -> Result<(), Fail> {
    let alloc = rt.alloc();
    let mut harbour = MemHarbour::new(alloc, two_links(alloc)?, MemConnects::new(alloc), 2, true)?;
    assert_eq!(rt; harbour.listen(HOME), Listen::Failed);
    assert_eq!(rt; wait_once(&mut harbour), Woke::Quiet);
    assert_eq!(rt; wait_once(&mut harbour), Woke::Quiet);
    assert_eq!(rt; wait_once(&mut harbour), Woke::Closed);
    let Made::Both { mut poller, .. } = harbour.poller(alloc, 1) else {
        return Err(Fail::from("no poller"));
    };
    assert_eq!(rt; poller.wait(None), Woke::Closed);
    Ok(())
}

#[test]
fn a_poller_tells_of_the_link_in_its_charge(rt: HostRuntime) -> Result<(), Fail> {
    let alloc = rt.alloc();
    let mut harbour = MemHarbour::new(alloc, two_links(alloc)?, MemConnects::new(alloc), 9, false)?;
    let mut link = accept_one(&mut harbour).ok_or("no client")?;
    assert_eq!(rt; polled(&mut harbour, alloc, &mut link, 7), Some(7));
    assert!(rt; matches!(harbour.bell(alloc), Bell::Made(_)));
    Ok(())
}

#[test]
fn a_still_clock_stands_and_an_open_gate_lets_pass(rt: HostRuntime) -> Result<(), Fail> {
    let clock = StillClock::new(5100);
    OpenGate.pass(PartNo::Client(1));
    OpenGate.pass(PartNo::Up(1));
    assert_eq!(rt; clock.now(), 5100);
    assert_eq!(rt; clock.now(), 5100);
    Ok(())
}

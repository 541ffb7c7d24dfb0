ghost use Rattle.std.specs.Prelude.{◌≡◌, ◌≤◌, None};
ghost use Rattle.lload_outside.specs.Causes.{Rose};
ghost use Rattle.net_links.specs.Tells.{socket_tells};

use lload_links::{Link, LinkRead, LinkWrite, Origin, Ready, Seen, Watched};
use mio::net::TcpStream;
use mio::{Interest, Registry, Token};
use std::io::{ErrorKind, Read, Write};
use std::net::Shutdown;
use std::snapshot::Snapshot;

/// A TCP connection that never blocks. It remembers what its poller last told. What it read and wrote isn't told.
#[derive(Drop)]
pub struct TcpLink {
    stream: TcpStream,
    origin: Origin,
    readable: bool,
    writable: bool,
    ended: bool,
    faults: u64,
    // The answers of the last read and of the last write: for clauses alone, without bytes.
    last_read: Snapshot<Option<LinkRead>>,
    last_write: Snapshot<Option<LinkWrite>>,
}

impl TcpLink {
    /// A link over a stream. One that is still being connected can't be written before its poller says so.
    pub(crate) fn new(stream: TcpStream, origin: Origin) -> TcpLink
        ensures origin { result.origin ≡ origin }
        ensures read { result.last_read.value ≡ None }
        ensures written { result.last_write.value ≡ None }
    {
        TcpLink {
            stream,
            origin,
            readable: false,
            writable: origin == Origin::Accepted,
            ended: false,
            faults: 0,
            last_read: Snapshot::of(&None),
            last_write: Snapshot::of(&None),
        }
    }

    /// Has a poll tell of the link under a token, once for good and edge-triggered.
    pub(crate) fn register(&mut self, registry: &Registry, token: Token) -> Watched
        ensures never_falls { self.old.faults ≤ self.new.faults }
        ensures failed { result ≡ Watched.Failed → Rose self.old.faults self.new.faults }
        ensures same { self.new ≡ record self.old { faults = self.new.faults } }
    {
        let interest = Interest::READABLE | Interest::WRITABLE;
        if registry.register(&mut self.stream, token, interest).is_ok() {
            return Watched::Done;
        }
        self.faults = self.faults.saturating_add(1);
        Watched::Failed
    }
}

impl Link for TcpLink {
    ghost tells = { λ l. socket_tells l.origin l.last_read.value l.last_write.value };

    ghost faults = { λ l. l.faults };

    ghost can_read = { λ _. None };

    ghost can_write = { λ _. None };

    fn told(&mut self, seen: Seen) {
        self.readable |= seen.readable;
        self.writable |= seen.writable;
        self.ended |= seen.ended;
    }

    fn ready(&mut self) -> Ready {
        if self.readable {
            Ready::Yes
        } else {
            Ready::NotYet
        }
    }

    // A read that leaves room in the buffer has taken all that was there, so the next waits for the poller; but not where
    // the peer has ended, since the end is still to be read.
    fn read(&mut self, buf: &mut [u8]) -> LinkRead {
        let answer = if self.readable {
            match self.stream.read(buf) {
                Ok(0) => LinkRead::End,
                Ok(n) => {
                    self.readable = n == buf.len() || self.ended;
                    LinkRead::Got(n)
                }
                Err(error) if error.kind() == ErrorKind::WouldBlock => {
                    self.readable = false;
                    LinkRead::NotYet
                }
                Err(_) => {
                    self.faults = self.faults.saturating_add(1);
                    LinkRead::Failed
                }
            }
        } else {
            LinkRead::NotYet
        };
        self.last_read = Snapshot::of(&Some(answer));
        answer
    }

    // A write that takes less than the piece has filled the system's buffer, so the next waits for the poller.
    fn write(&mut self, piece: &[u8]) -> LinkWrite {
        let answer = if self.writable {
            match self.stream.write(piece) {
                Ok(n) if n > 0 => {
                    self.writable = n == piece.len();
                    LinkWrite::Put(n)
                }
                Err(error) if error.kind() == ErrorKind::WouldBlock => {
                    self.writable = false;
                    LinkWrite::NotYet
                }
                _ => {
                    self.faults = self.faults.saturating_add(1);
                    LinkWrite::Failed
                }
            }
        } else {
            LinkWrite::NotYet
        };
        self.last_write = Snapshot::of(&Some(answer));
        answer
    }

    // A connection that is gone already stays so.
    fn close(&mut self) {
        let _ = self.stream.shutdown(Shutdown::Both);
    }
}

ghost use Rattle.std.specs.Prelude.{ℕ, ◌≡◌, ◌≢◌, ◌≤◌, ◌<◌, length, true, Option, Some, Bool};
ghost use Rattle.lload_outside.specs.Causes.{Rose};
ghost use Rattle.lload_links.specs.Tells.{LinkTells, Reads, Writes, after_read, after_write};

/// Who made a link.
#[derive(Clone, Copy, Debug, PartialEq, Eq, Drop)]
pub enum Origin {
    /// A client connected, and a harbour accepted it.
    Accepted,
    /// A harbour connected it to an address.
    Connected,
    /// Neither: it was made by itself.
    Own,
}

/// Whether a read may give something.
#[derive(Clone, Copy, Debug, PartialEq, Eq, Drop)]
pub enum Ready {
    Yes,
    NotYet,
    /// The link failed.
    Failed,
}

/// What a read of a link answers.
#[derive(Clone, Copy, Debug, PartialEq, Eq, Drop)]
pub enum LinkRead {
    /// So many bytes were moved to the front of the buffer.
    Got(usize),
    /// The peer sends no more.
    End,
    /// Nothing is there yet.
    NotYet,
    /// The link failed.
    Failed,
}

/// What a write to a link answers.
#[derive(Clone, Copy, Debug, PartialEq, Eq, Drop)]
pub enum LinkWrite {
    /// So many bytes from the front of the piece were taken.
    Put(usize),
    /// Nothing can be taken yet.
    NotYet,
    /// The link failed; it took nothing.
    Failed,
}

/// What a poller saw of a link.
#[derive(Clone, Copy, Debug, PartialEq, Eq, Drop)]
pub struct Seen {
    /// A read may give something.
    pub readable: bool,
    /// A write may take something.
    pub writable: bool,
    /// The peer sends no more, or the connection is broken. The link stays readable until a read has answered so.
    pub ended: bool,
}

/// A connection whose calls never wait.
pub trait Link {
    /// What the link tells of itself: who made it, the bytes that are left, were read and were written where it tells
    /// them, and the answers of its last read and of its last write.
    ghost tells: { Self → LinkTells };

    /// How often the link failed.
    ghost faults: { Self → ℕ };

    /// Whether the link's own next step of reading is ready, and of writing; `None` where it doesn't tell.
    ghost can_read: { Self → Option Bool };

    ghost can_write: { Self → Option Bool };

    /// Takes in what a poller saw of this link. It makes no system call.
    fn told(&mut self, seen: Seen)
        ensures faults { faults self.new ≡ faults self.old }
        ensures same { tells self.new ≡ tells self.old };

    /// Whether a read may give something, by what was told.
    fn ready(&mut self) -> Ready
        ensures never_falls { faults self.old ≤ faults self.new }
        ensures failed { result ≡ Ready.Failed → Rose (faults self.old) (faults self.new) }
        ensures not_yet { result ≡ Ready.NotYet → can_read self.old ≢ Some true }
        ensures same { tells self.new ≡ tells self.old };

    /// Moves the next bytes to the front of the buffer: at least 1, and at most as many as the buffer has. What stands
    /// in the buffer behind these bytes, or after another answer, is left open.
    fn read(&mut self, buf: &mut [u8]) -> LinkRead
        requires { 0 < length buf.old }
        ensures never_falls { faults self.old ≤ faults self.new }
        ensures failed { result ≡ LinkRead.Failed → Rose (faults self.old) (faults self.new) }
        ensures not_yet { result ≡ LinkRead.NotYet → can_read self.old ≢ Some true }
        ensures moved { Reads (tells self.old).left buf.new result }
        ensures told { tells self.new ≡ after_read (tells self.old) result buf.new };

    /// Takes bytes from the front of the piece, at least 1. To write nothing is a fault.
    fn write(&mut self, piece: &[u8]) -> LinkWrite
        ensures never_falls { faults self.old ≤ faults self.new }
        ensures failed { result ≡ LinkWrite.Failed → Rose (faults self.old) (faults self.new) }
        ensures not_yet { result ≡ LinkWrite.NotYet → can_write self.old ≢ Some true }
        ensures taken { Writes piece.now result }
        ensures told { tells self.new ≡ after_write (tells self.old) result piece.now };

    /// Ends the connection both ways.
    fn close(&mut self)
        ensures never_falls { faults self.old ≤ faults self.new }
        ensures same { tells self.new ≡ tells self.old };
}

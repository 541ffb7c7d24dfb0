ghost use Rattle.std.specs.Prelude.{ℕ, ◌≡◌, Option, Some};
ghost use Rattle.lload_links.specs.Clocks.{IsMoment};

/// Tells the moment, in milliseconds from a beginning of its own.
pub trait Clock {
    /// The moment that it always tells; `None` where it goes.
    ghost stands_at: { Self → Option ℕ };

    fn now(&self) -> u64
        ensures { IsMoment (stands_at self.now) result };
}

/// Always tells one moment.
#[derive(Clone, Copy, Debug, Drop)]
pub struct StillClock {
    now: u64,
}

impl StillClock {
    /// A clock that stands at this moment.
    pub fn new(now: u64) -> StillClock
        ensures { result ≡ record { now = now } }
    {
        StillClock { now }
    }
}

impl Clock for StillClock {
    ghost stands_at = { λ c. Some c.now };

    fn now(&self) -> u64 {
        self.now
    }
}

/// A part that has a link: a client or an upstream connection, by its number.
#[derive(Clone, Copy, Debug, PartialEq, Eq, Drop)]
pub enum PartNo {
    Client(u32),
    Up(u32),
}

/// Stands before each read of a part's link. A call may take its time, with no lock held; it changes nothing that
/// contracts see.
pub trait Gate {
    fn pass(&self, part: PartNo);
}

/// Lets pass at once.
#[derive(Clone, Copy, Debug, PartialEq, Eq, Drop)]
pub struct OpenGate;

impl Gate for OpenGate {
    fn pass(&self, _part: PartNo) {}
}

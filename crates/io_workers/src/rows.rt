ghost use Rattle.std.specs.Prelude.{◌≡◌, ◌+◌, ◌<◌, ◌^◌, false, Some, None};
ghost use Rattle.io_workers.specs.Places.{has_waited, next_of, linked, lost};
ghost use Rattle.io_workers.specs.Tree.{opens};

/// What is known of a place for upstream connections.
#[derive(Clone, Copy, Debug, Drop)]
pub(crate) struct Row {
    /// The number of the connection that it has, or else of the one that it links next.
    pub(crate) conn: u64,
    /// Whether it has that connection.
    pub(crate) is_linked: bool,
    /// When it last lost a connection or failed to link one, in milliseconds.
    pub(crate) lost: Option<u64>,
    /// How many milliseconds it then waits (`retry` in lloadd.conf(5)).
    pub(crate) retry: u32,
}

impl Row {
    /// A place without a connection that links this one first.
    pub(crate) fn new(conn: u64, retry: u32) -> Row
        ensures { result ≡ record { conn = conn; is_linked = false; lost = None; retry = retry } }
    {
        Row {
            conn,
            is_linked: false,
            lost: None,
            retry,
        }
    }

    /// The connection that a place is to link next, where it is due at a moment.
    pub(crate) fn next(&self, now: u64) -> Option<u32>
        ensures { result ≡ next_of now self.now }
    {
        if self.is_linked || self.conn > u32::MAX as u64 || !self.has_waited(now) {
            return None;
        }
        Some(self.conn as u32)
    }

    /// Whether it has waited long enough at a moment.
    fn has_waited(&self, now: u64) -> bool
        ensures { result ≡ has_waited now self.now }
    {
        match self.lost {
            None => true,
            Some(lost) => now >= lost && now - lost >= self.retry as u64,
        }
    }

    /// A moment before which a place isn't due.
    pub(crate) fn opens(&self) -> u64
        ensures { result ≡ opens self.now }
    {
        if self.is_linked || self.conn > u32::MAX as u64 {
            return u64::MAX;
        }
        match self.lost {
            None => 0,
            Some(lost) => lost.saturating_add(self.retry as u64),
        }
    }

    /// The place with its connection linked.
    pub(crate) fn linked(self) -> Row
        ensures { result ≡ linked self }
    {
        Row {
            is_linked: true,
            ..self
        }
    }

    /// The place where its connection ended at a moment, or couldn't be linked, among so many places.
    pub(crate) fn lost(self, count: u64, now: u64) -> Row
        requires { self.conn + count < 2 ^ 64 }
        ensures { result ≡ lost count now self }
    {
        let conn = if self.is_linked {
            self.conn + count
        } else {
            self.conn
        };
        Row {
            conn,
            is_linked: false,
            lost: Some(now),
            retry: self.retry,
        }
    }
}

ghost use Rattle.std.specs.Prelude.{◌≡◌, ◌≢◌, ◌<◌, ℕ, length, slice_get, slice_set, None};
ghost use Rattle.std.specs.Option.{ForSome};
ghost use Rattle.lload_spec.specs.Choice.{is_within_limit, most_on};

use crate::conns::is_within;
use lload_names::{BackendPlan, ConnKind};

/// The places of a backend for one kind of connection: the indices from one on and before another, that of the
/// connection that was chosen last, and how many of their connections are viable.
#[derive(Clone, Copy, Debug, Drop)]
pub struct Lane {
    pub from: u32,
    pub to: u32,
    pub last: Option<u32>,
    pub viable: u64,
}

/// A backend of the plan in force, how many operations are pending on it, and its places of both kinds.
#[derive(Clone, Copy, Debug, Drop)]
pub struct Server {
    pub plan: BackendPlan,
    pub pending: u64,
    pub regular: Lane,
    pub bind: Lane,
}

impl Server {
    ghost use Rattle.desk_tables.specs.Lanes.{lane_of, with_lane};

    /// Its places for connections of a kind.
    pub fn lane(&self, kind: ConnKind) -> Lane
        ensures { result ≡ lane_of kind self.now }
    {
        match kind {
            ConnKind::Regular => self.regular,
            ConnKind::Bind => self.bind,
        }
    }

    /// The same with other places for connections of a kind.
    pub fn with_lane(self, kind: ConnKind, lane: Lane) -> Server
        ensures { result ≡ with_lane kind lane self }
    {
        match kind {
            ConnKind::Regular => Server {
                regular: lane,
                ..self
            },
            ConnKind::Bind => Server { bind: lane, ..self },
        }
    }

    /// The same where so many of its connections of a kind are viable.
    pub fn seen(self, kind: ConnKind, viable: u64) -> Server
        ensures { result ≡ with_lane kind (record (lane_of kind self) { viable = viable }) self }
    {
        self.with_lane(
            kind,
            Lane {
                viable,
                ..self.lane(kind)
            },
        )
    }

    /// The same where a connection of a kind was chosen at the place with this index, and so many operations are pending.
    pub fn chosen(self, kind: ConnKind, index: u32, pending: u64) -> Server
        ensures { result ≡ record (with_lane kind (record (lane_of kind self) { last = Some index }) self) { pending = pending } }
    {
        let server = self.with_lane(
            kind,
            Lane {
                last: Some(index),
                ..self.lane(kind)
            },
        );
        Server { pending, ..server }
    }

    /// Whether it is under its limit (`max-pending-ops`).
    pub fn is_open(&self) -> bool
        ensures { result ≡ is_within_limit self.now.plan.max_pending self.now.pending }
    {
        is_within(self.plan.max_pending, self.pending)
    }

    /// How many operations each of its connections of a kind takes at a time, where 0 is no limit: a bind connection takes
    /// one (`conn-max-pending`).
    pub fn most_on(&self, kind: ConnKind) -> u32
        ensures { result ≡ most_on self.now.plan kind }
    {
        match kind {
            ConnKind::Regular => self.plan.conn_max_pending,
            ConnKind::Bind => 1,
        }
    }
}

/// The index of the first of these backends with a number.
pub fn numbered(servers: &[Server], number: u32) -> Option<usize>
    ensures number { ForSome result (λ i. ForSome (slice_get servers.now i) (λ v. v.plan.number ≡ number)) }
    ensures within { ForSome result (λ i. i < length servers.now) }
    ensures none { result ≡ None → (j : ℕ) → ForSome (slice_get servers.now j) (λ v. v.plan.number ≢ number) }
{
    for (index, server) in servers.iter().enumerate() {
        if server.plan.number == number {
            return Some(index);
        }
    }
    None
}

/// Writes one of these backends, by its index; one beyond their end changes nothing. It takes no memory.
pub fn write_server(servers: &mut Vec<Server>, index: usize, server: Server)
    ensures { servers.new.items ≡ slice_set servers.old.items index server }
{
    if let Some(held) = servers.get_mut(index) {
        *held = server;
    }
}

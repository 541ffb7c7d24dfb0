ghost use Rattle.std.specs.Prelude.{◌≡◌, ◌≢◌, ℕ, OnOk, OnErr, None};
ghost use Rattle.std.specs.Option.{IsSome};
ghost use Rattle.lload_names.specs.Same.{is_kind};
ghost use Rattle.lload_spec.specs.Choice.{is_within_limit};

use lload_names::{ConnKind, NoMemory, Place};
use std::alloc::Global;
use std::collections::BTreeMap;

/// Where a backend of the plan in force stands: its index among all, the index of its tier, and its place in the tier.
#[derive(Clone, Copy, Debug, Drop)]
pub struct Spot {
    pub server: usize,
    pub tier: usize,
    pub place: u32,
}

/// What the desk knows of a connection: its place, where its backend stands, how many operations it takes at a time (0
/// sets no limit), whether it is viable, and how many operations are pending on it.
#[derive(Clone, Copy, Debug, Drop)]
pub struct Conn {
    pub place: Place,
    pub spot: Spot,
    pub most: u32,
    pub viable: bool,
    pub pending: u64,
}

impl Conn {
    ghost use Rattle.desk_tables.specs.Rows.{index_of, is_ready, is_usable};

    /// The index of its place among those of its plan, counted from 0.
    pub fn index(&self) -> u32
        ensures { result ≡ index_of self.now }
    {
        self.place.place.saturating_sub(1)
    }

    /// Whether it is viable and has room for an operation.
    pub fn is_ready(&self) -> bool
        ensures { result ≡ is_ready self.now }
    {
        self.viable && is_within(self.most, self.pending)
    }

    /// Whether it is viable, and of a kind.
    pub fn is_usable(&self, kind: ConnKind) -> bool
        ensures { result ≡ is_usable kind self.now }
    {
        self.viable && same_kind(kind, self.place.kind)
    }
}

/// Whether two kinds are one.
fn same_kind(a: ConnKind, b: ConnKind) -> bool
    ensures { result ≡ is_kind a b }
{
    match a {
        ConnKind::Regular => matches!(b, ConnKind::Regular),
        ConnKind::Bind => matches!(b, ConnKind::Bind),
    }
}

/// Whether a count is below a limit, where 0 is none.
pub fn is_within(limit: u32, count: u64) -> bool
    ensures { result ≡ is_within_limit limit count }
{
    limit == 0 || count < limit as u64
}

/// The connections that are viable or on which operations are pending.
#[derive(Drop)]
pub struct Conns {
    rows: BTreeMap<u32, Conn>,
}

impl Conns {
    ghost use Rattle.desk_tables.specs.Rows.{row_of, kept};

    pub fn new(alloc: Global) -> Conns
        ensures { (n : ℕ) → row_of result n ≡ None }
    {
        Conns {
            rows: BTreeMap::new(alloc),
        }
    }

    pub fn row(&self, conn: u32) -> Option<Conn>
        ensures { result ≡ row_of self.now conn }
    {
        self.rows.get(&conn).copied()
    }

    /// A row for a connection, in place of the one that it has. For want of memory nothing changes.
    pub fn put(&mut self, conn: u32, row: Conn) -> Result<(), NoMemory>
        ensures here { OnOk result (row_of self.new conn ≡ Some row) }
        ensures others { OnOk result ((n : ℕ) → n ≢ conn → row_of self.new n ≡ row_of self.old n) }
        ensures err { OnErr result ((n : ℕ) → row_of self.new n ≡ row_of self.old n) }
    {
        self.rows.insert(conn, row)?;
        Ok(())
    }

    /// Takes out the row of a connection. It takes no memory.
    pub fn take(&mut self, conn: u32)
        ensures here { row_of self.new conn ≡ None }
        ensures others { (n : ℕ) → n ≢ conn → row_of self.new n ≡ row_of self.old n }
    {
        self.rows.remove(&conn);
    }

    /// Writes the row of a connection that has one, or takes it out where it says nothing. It takes no memory.
    pub fn keep(&mut self, conn: u32, row: Conn)
        ensures here { IsSome (row_of self.old conn) → row_of self.new conn ≡ kept row }
        ensures others { (n : ℕ) → n ≢ conn → row_of self.new n ≡ row_of self.old n }
    {
        if row.pending == 0 && !row.viable {
            self.take(conn);
        } else if let Some(held) = self.rows.get_mut(&conn) {
            *held = row;
        }
    }
}

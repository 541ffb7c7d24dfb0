ghost use Rattle.std.specs.Prelude.{◌≡◌, ◌≤◌, ◌<◌, ◌+◌, ◌++◌, ◌∷◌, [], length, find, filter, map, not, OnOk, OnErr};
ghost use Rattle.std.specs.Option.{option_copied};
ghost use Rattle.client_rows.specs.Rows.{has_number, sent, waiting_body, IsNumbered};

use crate::row::Row;
use lload_names::{Body, NoMemory};
use std::alloc::Global;
use std::collections::BTreeMap;
use std::collections::btree_map::Values;
use std::marker::Model;

/// How many operations came, and those that are live, by rising number.
#[derive(Drop)]
pub(crate) struct FiledRows {
    count: u64,
    rows: BTreeMap<u64, Row>,
}

impl Model for FiledRows {
    ghost use Rattle.std.specs.Prelude.{ℕ, List};
    ghost use Rattle.client_rows.specs.Rows.{Counted};

    ghost Value = { Counted };

    ghost use Rattle.std.specs.Prelude.{◌+◌};
    ghost use Rattle.std.specs.BTreeMap.{values};
    ghost use Rattle.client_rows.specs.Filed.{AreFiled, Rises};

    ghost view = { λ f. record { count = f.count; rows = values f.rows } };

    ghost invariant = { λ f. AreFiled f.rows.entries × Rises 0 f.rows.entries (f.count + 1) };
}

impl FiledRows {
    /// So many operations came, and none is live. It takes no memory.
    pub(crate) fn new(alloc: Global, count: u64) -> FiledRows
        ensures { result ≡ record { count = count; rows = [] } }
    {
        FiledRows {
            count,
            rows: BTreeMap::new(alloc),
        }
    }

    /// How many operations came.
    pub(crate) fn count(&self) -> u64
        ensures { result ≡ self.now.count }
    {
        self.count
    }

    /// How many are live.
    pub(crate) fn len(&self) -> usize
        ensures len { result ≡ length self.now.rows }
        ensures small { result ≤ 9223372036854775807 }
    {
        self.rows.len()
    }

    /// The live operations by rising number.
    pub(crate) fn values(&self) -> Values<'_, u64, Row>
        ensures { result ≡ self.now.rows }
    {
        self.rows.values()
    }

    /// The operation of a number.
    pub(crate) fn get(&self, k: u64) -> Option<&Row>
        ensures { option_copied result ≡ find (has_number k) self.now.rows }
    {
        self.rows.get(&k)
    }

    /// Appends the next operation. For want of memory nothing changes.
    pub(crate) fn push(&mut self, row: Row) -> Result<(), NoMemory>
        requires next { row.k ≡ self.old.count + 1 }
        requires room { self.old.count < 18446744073709551615 }
        ensures ok { OnOk result (self.new ≡ record { count = self.old.count + 1; rows = self.old.rows ++ row ∷ [] }) }
        ensures err { OnErr result (self.new ≡ self.old) }
        ensures numbered { IsNumbered self.new }
    {
        self.rows.insert(row.k, row)?;
        self.count += 1;
        Ok(())
    }

    /// The next operation came, and is none of them.
    pub(crate) fn pass(&mut self)
        requires room { self.old.count < 18446744073709551615 }
        ensures passed { self.new ≡ record { count = self.old.count + 1; rows = self.old.rows } }
        ensures numbered { IsNumbered self.new }
    {
        self.count += 1;
    }

    /// Notes that the operation of a number goes to a connection, and hands out its request, where it waited for one.
    pub(crate) fn send(&mut self, k: u64, conn: u32) -> Option<Body>
        ensures body { result ≡ waiting_body (find (has_number k) self.old.rows) }
        ensures sent { self.new ≡ record { count = self.old.count; rows = map (sent k conn) self.old.rows } }
        ensures numbered { IsNumbered self.new }
    {
        self.rows.get_mut(&k)?.send(conn)
    }

    /// Takes the operation of a number out.
    pub(crate) fn take(&mut self, k: u64) -> Option<Row>
        ensures row { result ≡ find (has_number k) self.old.rows }
        ensures rest { self.new ≡ record { count = self.old.count; rows = filter (λ r. not (has_number k r)) self.old.rows } }
        ensures numbered { IsNumbered self.new }
    {
        self.rows.remove(&k)
    }

    /// Takes all out.
    pub(crate) fn clear(&mut self)
        ensures empty { self.new ≡ record { count = self.old.count; rows = [] } }
        ensures numbered { IsNumbered self.new }
    {
        self.rows.clear();
    }
}

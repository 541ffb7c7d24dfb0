ghost use Rattle.std.specs.Prelude.{◌≡◌, ◌≤◌, ◌<◌, ◌+◌, ◌++◌, ◌∷◌, [], length, find, filter, map, not, OnOk, OnErr, IfOk, IfSome};
ghost use Rattle.std.specs.List.{list_any};
ghost use Rattle.std.specs.Option.{option_copied, option_to_list};
ghost use Rattle.client_rows.specs.Rows.{has_number, has_id, lets_wait, sent, waiting_body, without, IsNumbered};

use crate::filed::FiledRows;
use crate::row::{Row, one};
use lload_names::{Body, NoMemory};
use std::alloc::Global;
use std::collections::BTreeMap;
use std::collections::btree_map::Values;
use std::marker::Model;
use std::mem;

/// How many operations of a client came, and those that are live, by rising number. No two have one identifier.
/// Contracts see the count and the list.
#[derive(Drop)]
pub struct Operations {
    filed: FiledRows,
    numbers: BTreeMap<u32, u64>,
    waiting: usize,
    alloc: Global,
}

impl Model for Operations {
    ghost use Rattle.client_rows.specs.Rows.{Counted};

    ghost Value = { Counted };

    ghost use Rattle.std.specs.Prelude.{◌≡◌, length, filter};
    ghost use Rattle.client_rows.specs.Rows.{lets_wait, IsNumbered};
    ghost use Rattle.client_rows.specs.Index.{Indexes};

    ghost view = { λ o. o.filed };

    ghost invariant = { λ o. IsNumbered o.filed × Indexes o.numbers o.filed.rows × (length (filter lets_wait o.filed.rows) ≡ o.waiting) };
}

impl Operations {
    /// No operation came. It takes no memory; `alloc` serves later growth.
    pub fn new(alloc: Global) -> Operations
        ensures { result ≡ record { count = 0; rows = [] } }
    {
        Operations::behind(alloc, 0)
    }

    /// So many operations came, and none is live.
    fn behind(alloc: Global, count: u64) -> Operations
        ensures { result ≡ record { count = count; rows = [] } }
    {
        Operations {
            filed: FiledRows::new(alloc, count),
            numbers: BTreeMap::new(alloc),
            waiting: 0,
            alloc,
        }
    }

    /// How many operations came.
    pub fn count(&self) -> u64
        ensures { result ≡ self.now.count }
    {
        self.filed.count()
    }

    /// How many are live.
    pub fn len(&self) -> usize
        ensures len { result ≡ length self.now.rows }
        ensures small { result ≤ 9223372036854775807 }
    {
        self.filed.len()
    }

    /// The live operations by rising number.
    pub fn values(&self) -> Values<'_, u64, Row>
        ensures { result ≡ self.now.rows }
    {
        self.filed.values()
    }

    /// Whether one of them lets later messages of the client wait.
    pub fn is_waiting(&self) -> bool
        ensures { result ≡ list_any lets_wait self.now.rows }
    {
        self.waiting > 0
    }

    /// The live operation of a number.
    pub fn of(&self, k: u64) -> Option<&Row>
        ensures found { option_copied result ≡ find (has_number k) self.now.rows }
        ensures alone { IfSome result (λ row. filter (has_id row.now.id) self.now.rows ≡ row.now ∷ []) }
    {
        self.filed.get(k)
    }

    /// The live operation under an identifier.
    pub fn under(&self, id: u32) -> Option<&Row>
        ensures { filter (has_id id) self.now.rows ≡ option_to_list (option_copied result) }
    {
        self.filed.get(*self.numbers.get(&id)?)
    }

    /// Appends the next operation, whose identifier no live one has. For want of memory nothing changes.
    pub fn push(&mut self, row: Row) -> Result<(), NoMemory>
        requires next { row.k ≡ self.old.count + 1 }
        requires room { self.old.count < 18446744073709551615 }
        requires free { filter (has_id row.id) self.old.rows ≡ [] }
        ensures ok { OnOk result (self.new ≡ record { count = self.old.count + 1; rows = self.old.rows ++ row ∷ [] }) }
        ensures err { OnErr result (self.new ≡ self.old) }
        ensures numbered { IsNumbered self.old }
    {
        if self.waiting == usize::MAX {
            return Err(NoMemory);
        }
        let id = row.id;
        let waits = one(row.lets_wait());
        self.numbers.insert(id, row.k)?;
        if self.filed.push(row).is_err() {
            self.numbers.remove(&id);
            return Err(NoMemory);
        }
        self.waiting += waits;
        Ok(())
    }

    /// Ends all live operations, which it hands out, and begins the next one. For want of memory nothing changes.
    pub fn replace(&mut self, row: Row) -> Result<Operations, NoMemory>
        requires next { row.k ≡ self.old.count + 1 }
        requires room { self.old.count < 18446744073709551615 }
        ensures ended { IfOk result (λ ended. ended ≡ self.old) }
        ensures ok { OnOk result (self.new ≡ record { count = self.old.count + 1; rows = row ∷ [] }) }
        ensures err { OnErr result (self.new ≡ self.old) }
    {
        let mut next = Operations::behind(self.alloc, self.count());
        next.push(row)?;
        Ok(mem::replace(self, next))
    }

    /// The next operation came and is over. It takes no memory.
    pub fn pass(&mut self)
        requires room { self.old.count < 18446744073709551615 }
        ensures passed { self.new ≡ record { count = self.old.count + 1; rows = self.old.rows } }
        ensures numbered { IsNumbered self.old }
    {
        self.filed.pass();
    }

    /// Notes that the operation of a number goes to a connection, and hands out its request, where it waited for one.
    /// One that went before stays where it went. It takes no memory.
    pub fn send(&mut self, k: u64, conn: u32) -> Option<Body>
        ensures body { result ≡ waiting_body (find (has_number k) self.old.rows) }
        ensures sent { self.new ≡ record { count = self.old.count; rows = map (sent k conn) self.old.rows } }
        ensures numbered { IsNumbered self.old }
    {
        let row = self.filed.get(k)?;
        let stops = one(row.waits_for_connection());
        let rest = self.filed.send(k, conn);
        self.waiting -= stops;
        rest
    }

    /// Takes the operation of a number out. It takes no memory.
    pub fn take(&mut self, k: u64) -> Option<Row>
        ensures row { result ≡ find (has_number k) self.old.rows }
        ensures rest { self.new ≡ record { count = self.old.count; rows = without k self.old.rows } }
        ensures numbered { IsNumbered self.old }
    {
        let row = self.filed.take(k)?;
        self.numbers.remove(&row.id);
        self.waiting -= one(row.lets_wait());
        Some(row)
    }

    /// Takes all out. It takes no memory.
    pub fn clear(&mut self)
        ensures { self.new ≡ record { count = self.old.count; rows = [] } }
    {
        self.filed.clear();
        self.numbers.clear();
        self.waiting = 0;
    }
}

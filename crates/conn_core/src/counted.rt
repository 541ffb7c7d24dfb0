ghost use Rattle.std.specs.Prelude.{◌≡◌, ◌≤◌, ◌*◌, ◌&&◌, length, nat_lt, IfOk, OnOk, OnErr};
ghost use Rattle.std.specs.Option.{option_copied};
ghost use Rattle.lload_spec.specs.Identifiers.{id_for};
ghost use Rattle.id_table.specs.Rows.{row_of, id_of, first_id};
ghost use Rattle.id_table.specs.Table.{empty, gave, used_up, touched_at, kept_at, ended_at, finished_at, passes_limit, may_own, IsTable};

use id_table::{IdTable, Kept, Row};
use lload_names::{NoMemory, OpKind, OpName};
use std::alloc::Global;
use std::marker::Model;

/// A table of live operations that tells which identifiers were given. Contracts see the table.
#[derive(Drop)]
pub(crate) struct CountedTable {
    table: IdTable,
    next: u32,
}

impl Model for CountedTable {
    ghost use Rattle.std.specs.Prelude.{◌≡◌};
    ghost use Rattle.id_table.specs.Table.{Table};

    ghost Value = { Table };

    ghost view = { λ c. c.table };

    ghost invariant = { λ c. c.next ≡ c.table.ids.next };
}

impl CountedTable {
    /// One from which nothing was given.
    pub(crate) fn new(alloc: Global, limit: u32) -> Result<CountedTable, NoMemory>
        requires least { 2 ≤ limit }
        requires most { limit ≤ 1073741823 }
        ensures empty { IfOk result (λ t. t ≡ empty limit) }
        ensures table { IfOk result (λ t. IsTable t) }
    {
        let table = IdTable::new(alloc, limit)?;
        Ok(CountedTable { table, next: 1 })
    }

    /// Whether an identifier was given. It takes no memory.
    pub(crate) fn was_given(&self, id: u32) -> bool
        ensures { result ≡ (nat_lt 0 id && nat_lt id self.now.ids.next) }
    {
        0 < id && id < self.next
    }

    /// The same as of the table, and so below.
    pub(crate) fn give(
        &mut self,
        op: OpName,
        kind: OpKind,
        ask_who: bool,
        now: u64,
    ) -> Result<u32, NoMemory>
        requires { self.old.ids.next ≤ self.old.limit }
        ensures id { IfOk result (λ id. id ≡ id_for self.old.ids) }
        ensures fresh { IfOk result (λ id. row_of id self.old.rows ≡ None) }
        ensures gave { OnOk result (self.new ≡ gave op kind ask_who now self.old) }
        ensures err { OnErr result (self.new ≡ self.old) }
        ensures table { IsTable self.new }
    {
        let next = self.next.max(self.table.upcoming() + 1);
        let id = self.table.give(op, kind, ask_who, now)?;
        self.next = next;
        Ok(id)
    }

    pub(crate) fn own(&mut self) -> u32
        requires { self.old.ids.next ≤ 2 * self.old.limit }
        ensures next { result ≡ self.old.ids.next }
        ensures used { self.new ≡ used_up self.old }
        ensures table { IsTable self.new }
    {
        let id = self.table.own();
        self.next = id + 1;
        id
    }

    pub(crate) fn may_own(&self) -> bool
        ensures { result ≡ may_own self.now }
    {
        self.table.may_own()
    }

    pub(crate) fn limit(&self) -> u32
        ensures limit { result ≡ self.now.limit }
        ensures table { IsTable self.now }
    {
        self.table.limit()
    }

    pub(crate) fn upcoming(&self) -> u32
        ensures id { result ≡ id_for self.now.ids }
        ensures table { IsTable self.now }
    {
        self.table.upcoming()
    }

    pub(crate) fn len(&self) -> usize
        ensures len { result ≡ length self.now.rows }
        ensures table { IsTable self.now }
    {
        self.table.len()
    }

    pub(crate) fn first(&self) -> Option<u32>
        ensures first { result ≡ first_id self.now.rows }
        ensures table { IsTable self.now }
    {
        self.table.first()
    }

    pub(crate) fn row(&self, id: u32) -> Option<&Row>
        ensures row { option_copied result ≡ row_of id self.now.rows }
        ensures table { IsTable self.now }
    {
        self.table.row(id)
    }

    pub(crate) fn find(&self, op: OpName) -> Option<u32>
        ensures lowest { result ≡ id_of op self.now.rows }
        ensures table { IsTable self.now }
    {
        self.table.find(op)
    }

    pub(crate) fn touch(&mut self, id: u32, now: u64)
        ensures touched { self.new ≡ touched_at id now self.old }
        ensures table { IsTable self.new }
    {
        self.table.touch(id, now);
    }

    pub(crate) fn keep(&mut self, id: u32, now: u64, kept: Kept)
        ensures kept { self.new ≡ kept_at id now kept self.old }
        ensures table { IsTable self.new }
    {
        self.table.keep(id, now, kept);
    }

    pub(crate) fn end(&mut self, id: u32) -> Option<Row>
        ensures row { result ≡ row_of id self.old.rows }
        ensures ended { self.new ≡ ended_at id self.old }
        ensures table { IsTable self.new }
    {
        self.table.end(id)
    }

    pub(crate) fn finish(&mut self, id: u32) -> Option<Row>
        ensures row { result ≡ row_of id self.old.rows }
        ensures finished { self.new ≡ finished_at id self.old }
        ensures table { IsTable self.new }
    {
        self.table.finish(id)
    }

    pub(crate) fn at_limit(&self) -> bool
        ensures { result ≡ passes_limit self.now }
    {
        self.table.at_limit()
    }
}

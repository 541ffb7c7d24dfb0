ghost use Rattle.std.specs.Prelude.{◌≡◌, ◌≤◌, ◌*◌, None, Ok, length, IfOk, OnOk, OnErr};
ghost use Rattle.std.specs.Option.{option_copied};
ghost use Rattle.lload_spec.specs.Identifiers.{id_for};
ghost use Rattle.id_table.specs.Rows.{row_of, id_of, first_id};
ghost use Rattle.id_table.specs.Table.{empty, gave, used_up, touched_at, kept_at, ended_at, finished_at, passes_limit, may_own, IsTable};

use crate::given::GivenIds;
use crate::live::LiveRows;
use crate::row::{Kept, Row};
use crate::rows::Rows;
use lload_names::{NoMemory, OpKind, OpName};
use std::alloc::Global;
use std::marker::Model;

/// The live rows of a connection by rising identifier, its identifiers, and the limit at which it retires.
#[derive(Drop)]
pub struct TableOf<R: Rows> {
    live: R,
    ids: GivenIds,
    limit: u32,
}

/// A table of which each call costs the logarithm of the live rows at most.
pub type IdTable = TableOf<LiveRows>;

impl<R: Rows> Model for TableOf<R> {
    ghost use Rattle.id_table.specs.Table.{Table, IsTable};

    ghost Value = { Table };

    ghost use Rattle.std.specs.Prelude.{◌≤◌, length};

    ghost view = { λ t. record { rows = R.seen t.live; ids = t.ids.ids; limit = t.limit } };

    ghost invariant = { λ t. IsTable (record { rows = R.seen t.live; ids = t.ids.ids; limit = t.limit }) × (length (R.seen t.live) ≤ t.ids.spare) };
}

impl<R: Rows> TableOf<R> {
    /// A table without rows whose first identifier is 1. Identifiers from `limit` on retire the connection. It takes
    /// no memory.
    pub fn new(alloc: Global, limit: u32) -> Result<TableOf<R>, NoMemory>
        requires least { 2 ≤ limit }
        requires most { limit ≤ 1073741823 }
        ensures empty { result ≡ Ok (empty limit) }
        ensures table { IfOk result (λ t. IsTable t) }
    {
        Ok(TableOf {
            live: R::new(alloc),
            ids: GivenIds::new(alloc),
            limit,
        })
    }

    /// Gives an identifier to an operation that is sent at the moment `now`, and keeps a row for it: the identifier that
    /// was freed first, else the next one. For want of memory no identifier is given and nothing changes.
    pub fn give(
        &mut self,
        op: OpName,
        kind: OpKind,
        ask_who: bool,
        now: u64,
    ) -> Result<u32, NoMemory>
        requires { self.old.ids.next ≤ self.old.limit }
        ensures id { IfOk result (λ id. id ≡ id_for self.old.ids) }
        ensures fresh { IfOk result (λ id. row_of id self.old.rows ≡ None) }
        ensures gave { OnOk result (self.new ≡ gave op kind ask_who now self.old) }
        ensures err { OnErr result (self.new ≡ self.old) }
        ensures table { IsTable self.new }
    {
        self.ids.reserve(self.live.len() + 1)?;
        let id = self.ids.first();
        self.live.put(Row {
            id,
            op,
            kind,
            ask_who,
            sent: now,
            last: now,
            kept: None,
        })?;
        self.ids.use_first();
        Ok(id)
    }

    /// Gives the next identifier to a message of the proxy's own, which has no row. It takes no memory.
    pub fn own(&mut self) -> u32
        requires { self.old.ids.next ≤ 2 * self.old.limit }
        ensures next { result ≡ self.old.ids.next }
        ensures used { self.new ≡ used_up self.old }
        ensures table { IsTable self.new }
    {
        let id = self.ids.next();
        self.ids.use_next();
        id
    }

    /// Whether the next identifier is at most twice the limit, so that `own` may give it. It takes no memory.
    pub fn may_own(&self) -> bool
        ensures { result ≡ may_own self.now }
    {
        self.ids.next() <= 2 * self.limit
    }

    /// The limit at which the connection retires. It takes no memory.
    pub fn limit(&self) -> u32
        ensures limit { result ≡ self.now.limit }
        ensures table { IsTable self.now }
    {
        self.limit
    }

    /// The identifier that `give` would give now. It takes no memory.
    pub fn upcoming(&self) -> u32
        ensures id { result ≡ id_for self.now.ids }
        ensures table { IsTable self.now }
    {
        self.ids.first()
    }

    /// How many rows are live. It takes no memory.
    pub fn len(&self) -> usize
        ensures len { result ≡ length self.now.rows }
        ensures table { IsTable self.now }
    {
        self.live.len()
    }

    /// The lowest live identifier; `None` exactly where no row is live. It takes no memory.
    pub fn first(&self) -> Option<u32>
        ensures first { result ≡ first_id self.now.rows }
        ensures table { IsTable self.now }
    {
        self.live.first()
    }

    /// The row of an identifier; `None` exactly where it isn't live. It takes no memory.
    pub fn row(&self, id: u32) -> Option<&Row>
        ensures row { option_copied result ≡ row_of id self.now.rows }
        ensures table { IsTable self.now }
    {
        self.live.row(id)
    }

    /// The lowest identifier whose live row has this operation; `None` exactly where no live row has it. It takes no
    /// memory.
    pub fn find(&self, op: OpName) -> Option<u32>
        ensures lowest { result ≡ id_of op self.now.rows }
        ensures table { IsTable self.now }
    {
        self.live.find(op)
    }

    /// Notes that the operation of this identifier was answered at the moment `now`. Where no such row is live,
    /// nothing changes. It takes no memory.
    pub fn touch(&mut self, id: u32, now: u64)
        ensures touched { self.new ≡ touched_at id now self.old }
        ensures table { IsTable self.new }
    {
        self.live.touch(id, now);
    }

    /// Notes that the operation of this identifier was answered at the moment `now`, and keeps the answer back. Where
    /// no such row is live, nothing changes. It takes no memory.
    pub fn keep(&mut self, id: u32, now: u64, kept: Kept)
        ensures kept { self.new ≡ kept_at id now kept self.old }
        ensures table { IsTable self.new }
    {
        self.live.keep(id, now, kept);
    }

    /// Takes out the row of an identifier, and hands it out; `None` exactly where it isn't live, and then nothing
    /// changes. The identifier isn't given again. It takes no memory.
    pub fn end(&mut self, id: u32) -> Option<Row>
        ensures row { result ≡ row_of id self.old.rows }
        ensures ended { self.new ≡ ended_at id self.old }
        ensures table { IsTable self.new }
    {
        self.live.take(id)
    }

    /// Takes out the row of an identifier whose operation was answered to the end, hands it out, and frees the
    /// identifier, behind those that were freed before; `None` exactly where it isn't live, and then nothing changes. It
    /// takes no memory.
    pub fn finish(&mut self, id: u32) -> Option<Row>
        ensures row { result ≡ row_of id self.old.rows }
        ensures finished { self.new ≡ finished_at id self.old }
        ensures table { IsTable self.new }
    {
        let row = self.live.take(id)?;
        self.ids.free(id);
        Some(row)
    }

    /// Whether an identifier equal to the limit or above was given. Where it wasn't, one may be given to an
    /// operation. It takes no memory.
    pub fn at_limit(&self) -> bool
        ensures { result ≡ passes_limit self.now }
    {
        self.ids.next() > self.limit
    }
}

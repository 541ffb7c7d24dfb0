ghost use Rattle.std.specs.Prelude.{◌≡◌, ◌==◌, ◌&&◌, nat_lt, ◌≤◌, ◌<◌, ◌^◌, ◌+◌, ◌*◌, ◌++◌, ◌∷◌, [], max, true, false, length, map, filter, IfSome, IfOk, OnOk, OnErr, MatchOption};
ghost use Rattle.std.specs.List.{AllByRecursion};
ghost use Rattle.std.specs.Option.{option_copied};
ghost use Rattle.lload_spec.specs.Identifiers.{id_for};
ghost use Rattle.id_table.specs.Rows.{row_of, id_of, first_id};
ghost use Rattle.id_table.specs.Table.{gave, used_up, touched_at, kept_at, ended_at, finished_at, passes_limit, may_own, IsTable};
ghost use Rattle.op_deadlines.specs.Due.{is_due};
ghost use Rattle.lload_names.specs.declared.names.PartName.TheVariants.{Up};
ghost use Rattle.lload_names.specs.declared.names.What.TheVariants.{Down};
ghost use Rattle.conn_core.specs.Conn.{new_conn};
ghost use Rattle.conn_core.specs.Closing.{closing_letters};

use crate::closing::lose_all;
use crate::counted::CountedTable;
use crate::timed::Timed;
use id_table::{Kept, Row};
use lload_names::{
    ConnKind, EndWhy, Entry, Letter, NoMemory, OpKind, OpName, PartName, Posted, What,
};
use outbox::Outbox;
use std::alloc::Global;
use std::marker::Model;
use std::mem;

/// What the parts of both kinds of upstream connection keep.
#[derive(Drop)]
pub struct ConnCore {
    number: u32,
    kind: ConnKind,
    moment: u64,
    linked: bool,
    up: bool,
    down: bool,
    table: CountedTable,
    deadlines: Timed,
    room: Outbox,
    alloc: Global,
}

impl Model for ConnCore {
    ghost use Rattle.conn_core.specs.Conn.{Conn, IsKept};

    ghost Value = { Conn };

    ghost view = { λ c. record { number = c.number; kind = c.kind; moment = c.moment; linked = c.linked; up = c.up; down = c.down; table = c.table; timeout = c.deadlines.timeout } };

    ghost invariant = { λ c. IsKept c.down c.table c.deadlines.moments c.room.entries c.room.letters };
}

impl ConnCore {
    /// A connection that isn't linked yet. `limit` is the identifier at which it retires, `timeout` the seconds after
    /// which an operation is due, 0 for never.
    pub fn new(
        alloc: Global,
        number: u32,
        kind: ConnKind,
        limit: u32,
        timeout: u32,
    ) -> Result<ConnCore, NoMemory>
        requires least { 2 ≤ limit }
        requires most { limit ≤ 1073741823 }
        ensures new { IfOk result (λ c. c ≡ new_conn number kind limit timeout) }
        ensures table { IfOk result (λ c. IsTable c.table) }
    {
        let mut room = Outbox::new(alloc);
        room.reserve(1, 2)?;
        let table = CountedTable::new(alloc, limit)?;
        Ok(ConnCore {
            number,
            kind,
            moment: 0,
            linked: false,
            up: false,
            down: false,
            table,
            deadlines: Timed::new(alloc, timeout),
            room,
            alloc,
        })
    }

    /// The connection's number.
    pub fn number(&self) -> u32
        ensures { result ≡ self.now.number }
    {
        self.number
    }

    /// The moment of an input, in milliseconds: one before that of the last entry counts as that one.
    pub fn moment_for(&self, now: u64) -> u64
        ensures { result ≡ max self.now.moment now }
    {
        self.moment.max(now)
    }

    /// Whether it is linked, or was.
    pub fn is_linked(&self) -> bool
        ensures { result ≡ self.now.linked }
    {
        self.linked
    }

    /// Whether it has ended.
    pub fn is_down(&self) -> bool
        ensures { result ≡ self.now.down }
    {
        self.down
    }

    /// Whether it takes no further operations because an identifier reached the limit.
    pub fn is_retired(&self) -> bool
        ensures { result ≡ passes_limit self.now.table }
    {
        self.table.at_limit()
    }

    /// Whether this identifier is the limit.
    pub fn is_limit(&self, id: u32) -> bool
        ensures { result ≡ (id == self.now.table.limit) }
    {
        self.table.limit() == id
    }

    /// Whether an identifier was given.
    pub fn was_given(&self, id: u32) -> bool
        ensures { result ≡ (nat_lt 0 id && nat_lt id self.now.table.ids.next) }
    {
        self.table.was_given(id)
    }

    /// How many operations are live.
    pub fn len(&self) -> usize
        ensures len { result ≡ length self.now.table.rows }
        ensures small { result < 2 ^ 32 }
    {
        self.table.len()
    }

    /// The lowest identifier under which an operation is live.
    pub fn first(&self) -> Option<u32>
        ensures { result ≡ first_id self.now.table.rows }
    {
        self.table.first()
    }

    /// The live operation under an identifier.
    pub fn row(&self, id: u32) -> Option<&Row>
        ensures { option_copied result ≡ row_of id self.now.table.rows }
    {
        self.table.row(id)
    }

    /// The lowest identifier under which this operation is live.
    pub fn find(&self, op: OpName) -> Option<u32>
        ensures lowest { result ≡ id_of op self.now.table.rows }
        ensures small { IfSome result (λ id. id < 2 ^ 31) }
    {
        self.table.find(op)
    }

    /// Gives an identifier to an operation that is sent at the moment `at`, and keeps a row for it, a deadline, and the
    /// room for its loss. For want of memory nothing changes.
    pub fn send(
        &mut self,
        at: u64,
        op: OpName,
        kind: OpKind,
        ask_who: bool,
    ) -> Result<u32, NoMemory>
        requires { self.old.table.ids.next ≤ self.old.table.limit }
        ensures id { IfOk result (λ id. id ≡ id_for self.old.table.ids) }
        ensures fresh { IfOk result (λ id. row_of id self.old.table.rows ≡ None) }
        ensures sent { OnOk result (self.new ≡ record self.old { moment = at; table = gave op kind ask_who at self.old.table }) }
        ensures err { OnErr result (self.new ≡ self.old) }
        ensures table { IsTable self.new.table }
    {
        let more = 2 * self.table.len() + 4;
        self.room.letters.reserve(more)?;
        let id = self.table.upcoming();
        self.deadlines.start(id, at)?;
        match self.table.give(op, kind, ask_who, at) {
            Ok(id) => {
                self.moment = at;
                Ok(id)
            }
            Err(_) => {
                self.deadlines.stop(id);
                Err(NoMemory)
            }
        }
    }

    /// The moment of its last entry is this one.
    pub fn moved(&mut self, at: u64)
        ensures { self.new ≡ record self.old { moment = at } }
    {
        self.moment = at;
    }

    /// It is linked.
    pub fn link(&mut self, at: u64)
        ensures { self.new ≡ record self.old { moment = at; linked = true } }
    {
        self.moment = at;
        self.linked = true;
    }

    /// It is up.
    pub fn come_up(&mut self, at: u64)
        ensures { self.new ≡ record self.old { moment = at; up = true } }
    {
        self.moment = at;
        self.up = true;
    }

    /// Gives the next identifier to a message of the proxy's own; `None`, and nothing changes, exactly where those are
    /// used up. It takes no memory.
    pub fn own(&mut self) -> Option<u32>
        ensures own { MatchOption result ((may_own self.old.table ≡ false) × (self.new ≡ self.old)) (λ id. (id ≡ self.old.table.ids.next) × (self.new ≡ record self.old { table = used_up self.old.table })) }
        ensures table { IsTable self.new.table }
    {
        if !self.table.may_own() {
            return None;
        }
        Some(self.table.own())
    }

    /// The operation under an identifier was answered at a moment.
    pub fn touch(&mut self, id: u32, at: u64)
        ensures touched { self.new ≡ record self.old { table = touched_at id at self.old.table } }
        ensures table { IsTable self.new.table }
    {
        self.table.touch(id, at);
        self.deadlines.touch(id, at);
    }

    /// The operation under an identifier was answered at a moment, and the answer is kept back.
    pub fn keep(&mut self, id: u32, at: u64, kept: Kept)
        ensures kept { self.new ≡ record self.old { table = kept_at id at kept self.old.table } }
        ensures table { IsTable self.new.table }
    {
        self.table.keep(id, at, kept);
        self.deadlines.touch(id, at);
    }

    /// Takes out the row of an identifier, which isn't freed.
    pub fn end(&mut self, id: u32) -> Option<Row>
        ensures row { result ≡ row_of id self.old.table.rows }
        ensures ended { self.new ≡ record self.old { table = ended_at id self.old.table } }
        ensures table { IsTable self.new.table }
    {
        let row = self.table.end(id);
        self.deadlines.stop(id);
        row
    }

    /// Takes out the row of an identifier, and frees the identifier, where it is live.
    pub fn finish(&mut self, id: u32) -> Option<Row>
        ensures row { result ≡ row_of id self.old.table.rows }
        ensures finished { self.new ≡ record self.old { table = finished_at id self.old.table } }
        ensures table { IsTable self.new.table }
    {
        let row = self.table.finish(id);
        self.deadlines.stop(id);
        row
    }

    /// The identifiers of the operations that are due at a moment, in order.
    pub fn all_due(&self, at: u64) -> Result<Vec<u32>, NoMemory>
        ensures due { IfOk result (λ due. due.items ≡ map (λ r. r.id) (filter (λ r. is_due self.now.timeout at r.last) self.now.table.rows)) }
        ensures small { IfOk result (λ due. AllByRecursion (λ id. id < 2 ^ 31) due.items) }
    {
        self.deadlines.all_due(at)
    }

    /// Whether what is counted from a moment is due at another one.
    pub fn is_past(&self, since: u64, at: u64) -> bool
        ensures { result ≡ is_due self.now.timeout at since }
    {
        self.deadlines.is_past(since, at)
    }

    /// Makes room in an outbox for the connection's end, and for so many entries and letters beside it.
    pub fn reserve_end(
        &self,
        entries: usize,
        letters: usize,
        out: &mut Outbox,
    ) -> Result<(), NoMemory>
        requires entries { entries ≤ 1000 }
        requires letters { letters ≤ 1000 }
        ensures entries { out.new.entries.items ≡ out.old.entries.items }
        ensures letters { out.new.letters.items ≡ out.old.letters.items }
        ensures entry_room { OnOk result (entries + 1 ≤ out.new.entries.spare) }
        ensures letter_room { OnOk result (letters + 2 * length self.now.table.rows + 2 ≤ out.new.letters.spare) }
    {
        let more = 2 * self.table.len() + 2;
        out.reserve(entries + 1, letters + more)?;
        Ok(())
    }

    /// The connection ends: each live operation is lost, then its holder ends, then the desk hears it. There is room
    /// for all that.
    pub fn close(&mut self, at: u64, why: EndWhy, holder: Option<OpName>, out: &mut Outbox)
        requires entry { 1 ≤ out.old.entries.spare }
        requires letters { 2 * length self.old.table.rows + 2 ≤ out.old.letters.spare }
        ensures entries { out.new.entries.items ≡ out.old.entries.items ++ record { part = Up self.old.number; at = at; what = Down why } ∷ [] }
        ensures letters { out.new.letters.items ≡ out.old.letters.items ++ closing_letters self.old.number self.old.kind self.old.table.rows holder }
        ensures closed { self.new ≡ record self.old { moment = at; down = true; table = record self.old.table { rows = [] } } }
        ensures table { IsTable self.new.table }
        ensures entry_room { out.new.entries.spare + 1 ≡ out.old.entries.spare }
        ensures letter_room { out.old.letters.spare ≤ out.new.letters.spare + (2 * length self.old.table.rows + 2) }
    {
        self.moment = at;
        self.down = true;
        out.entries.put(Entry {
            part: PartName::Up(self.number),
            at,
            what: What::Down { why },
        });
        lose_all(&mut self.table, self.number, self.kind, out);
        self.deadlines.clear();
        if let Some(op) = holder {
            out.letters.put(Posted {
                to: PartName::Desk,
                letter: Letter::Ended {
                    op,
                    conn: self.number,
                    latency: None,
                },
            });
        }
        out.letters.put(Posted {
            to: PartName::Desk,
            letter: Letter::IsDown { conn: self.number },
        });
    }

    /// The same by the room that is kept for it; where it has ended, nothing is there. It takes no memory.
    pub fn sever(&mut self, at: u64, why: EndWhy, holder: Option<OpName>) -> Outbox
        requires { self.old.down ≡ false }
        ensures entries { result.entries.items ≡ record { part = Up self.old.number; at = at; what = Down why } ∷ [] }
        ensures letters { result.letters.items ≡ closing_letters self.old.number self.old.kind self.old.table.rows holder }
        ensures closed { self.new ≡ record self.old { moment = at; down = true; table = record self.old.table { rows = [] } } }
        ensures table { IsTable self.new.table }
    {
        let mut out = Outbox::new(self.alloc);
        mem::swap(&mut out, &mut self.room);
        self.down = true;
        self.close(at, why, holder, &mut out);
        out
    }
}

ghost use Rattle.std.specs.Prelude.{◌≡◌};
ghost use Rattle.id_table.specs.Listed.{place_of, place_above};
ghost use Rattle.id_table.specs.Rows.{changed, answered, kept_back};

use crate::row::{Kept, Row};
use crate::rows::Rows;
use crate::table::TableOf;
use lload_names::{NoMemory, OpName};
use std::alloc::Global;
use std::marker::Model;

/// Rows in a plain list, where each call looks at one row after the other.
#[derive(Drop)]
pub struct ListRows {
    rows: Vec<Row>,
}

/// The same table over a plain list.
pub type ListTable = TableOf<ListRows>;

impl Model for ListRows {
    ghost use Rattle.std.specs.Prelude.{List};
    ghost use Rattle.id_table.specs.declared.row.Row.{Row};

    ghost Value = { List Row };

    ghost view = { λ l. l.rows.items };
}

/// The place of the row of an identifier, or the number of rows where it isn't live.
fn place_of(rows: &[Row], id: u32) -> usize
    ensures { result ≡ place_of id rows.now }
{
    for (place, row) in rows.iter().enumerate() {
        if row.id == id {
            return place;
        }
    }
    rows.len()
}

/// The place of the first row above an identifier, or the number of rows where there is none.
fn place_above(rows: &[Row], id: u32) -> usize
    ensures { result ≡ place_above id rows.now }
{
    for (place, row) in rows.iter().enumerate() {
        if id < row.id {
            return place;
        }
    }
    rows.len()
}

fn touch_in(rows: &mut [Row], id: u32, now: u64)
    ensures { rows.new ≡ changed (answered now) id rows.old }
{
    let place = place_of(rows, id);
    if place < rows.len() {
        rows[place].last = now;
    }
}

fn keep_in(rows: &mut [Row], id: u32, now: u64, kept: Kept)
    ensures { rows.new ≡ changed (kept_back now kept) id rows.old }
{
    let place = place_of(rows, id);
    if place < rows.len() {
        let row = &mut rows[place];
        row.last = now;
        row.kept = Some(kept);
    }
}

impl Rows for ListRows {
    ghost seen = { λ rows. rows };

    fn new(alloc: Global) -> ListRows {
        ListRows {
            rows: Vec::new(alloc),
        }
    }

    fn len(&self) -> usize {
        self.rows.len()
    }

    fn first(&self) -> Option<u32> {
        Some(self.rows.first()?.id)
    }

    fn row(&self, id: u32) -> Option<&Row> {
        for row in self.rows.iter() {
            if row.id == id {
                return Some(row);
            }
        }
        None
    }

    fn find(&self, op: OpName) -> Option<u32> {
        for row in self.rows.iter() {
            if row.op == op {
                return Some(row.id);
            }
        }
        None
    }

    fn put(&mut self, row: Row) -> Result<(), NoMemory> {
        let place = place_above(&self.rows, row.id);
        self.rows.insert(place, row)?;
        Ok(())
    }

    fn take(&mut self, id: u32) -> Option<Row> {
        let place = place_of(&self.rows, id);
        if place < self.rows.len() {
            Some(self.rows.remove(place))
        } else {
            None
        }
    }

    fn touch(&mut self, id: u32, now: u64) {
        touch_in(&mut self.rows, id, now);
    }

    fn keep(&mut self, id: u32, now: u64, kept: Kept) {
        keep_in(&mut self.rows, id, now, kept);
    }
}

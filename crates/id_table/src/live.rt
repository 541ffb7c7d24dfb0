use crate::filed::FiledRows;
use crate::row::{Kept, Row};
use crate::rows::Rows;
use lload_names::{NoMemory, OpName};
use std::alloc::Global;
use std::collections::BTreeSet;
use std::marker::Model;

/// The live rows by rising identifier, with an index by operation.
#[derive(Drop)]
pub struct LiveRows {
    rows: FiledRows,
    ids: BTreeSet<(OpName, u32)>,
}

impl Model for LiveRows {
    ghost use Rattle.std.specs.Prelude.{List};
    ghost use Rattle.id_table.specs.declared.row.Row.{Row};

    ghost Value = { List Row };

    ghost use Rattle.id_table.specs.Rows.{Rises};
    ghost use Rattle.id_table.specs.Filed.{rows_of, AreFiled, Indexes};

    ghost view = { λ l. rows_of l.rows };

    ghost invariant = { λ l. AreFiled l.rows × Rises 0 (rows_of l.rows) 4294967296 × Indexes l.ids (rows_of l.rows) };
}

impl Rows for LiveRows {
    ghost seen = { λ rows. rows };

    fn new(alloc: Global) -> LiveRows {
        LiveRows {
            rows: FiledRows::new(alloc),
            ids: BTreeSet::new(alloc),
        }
    }

    fn len(&self) -> usize {
        self.rows.len()
    }

    fn first(&self) -> Option<u32> {
        self.rows.first()
    }

    fn row(&self, id: u32) -> Option<&Row> {
        self.rows.get(id)
    }

    fn find(&self, op: OpName) -> Option<u32> {
        let (found, id) = self.ids.range((op, 0)..).next()?;
        if *found == op { Some(*id) } else { None }
    }

    fn put(&mut self, row: Row) -> Result<(), NoMemory> {
        let key = (row.op, row.id);
        self.ids.insert(key)?;
        if self.rows.insert(row.id, row).is_err() {
            self.ids.remove(&key);
            return Err(NoMemory);
        }
        Ok(())
    }

    fn take(&mut self, id: u32) -> Option<Row> {
        let row = self.rows.remove(id)?;
        self.ids.remove(&(row.op, id));
        Some(row)
    }

    fn touch(&mut self, id: u32, now: u64) {
        self.rows.touch(id, now);
    }

    fn keep(&mut self, id: u32, now: u64, kept: Kept) {
        self.rows.keep(id, now, kept);
    }
}

ghost use Rattle.std.specs.Prelude.{◌≡◌, ◌≤◌, List, [], None, length, OnOk, OnErr};
ghost use Rattle.std.specs.Option.{option_copied};
ghost use Rattle.id_table.specs.declared.row.Row.{Row};
ghost use Rattle.id_table.specs.Rows.{row_of, id_of, first_id, put, without, changed, answered, kept_back};

use crate::row::{Kept, Row};
use lload_names::{NoMemory, OpName};
use std::alloc::Global;

/// The live rows of a connection by rising identifier, however they are kept.
pub trait Rows: Drop {
    /// The rows.
    ghost seen: { Self → List Row };

    /// No row. It takes no memory.
    fn new(alloc: Global) -> Self
        ensures { seen result ≡ [] };

    /// How many rows are live.
    fn len(&self) -> usize
        ensures len { result ≡ length (seen self.now) }
        ensures small { result ≤ 9223372036854775807 };

    /// The lowest identifier that is live.
    fn first(&self) -> Option<u32>
        ensures { result ≡ first_id (seen self.now) };

    /// The row of an identifier.
    fn row(&self, id: u32) -> Option<&Row>
        ensures { option_copied result ≡ row_of id (seen self.now) };

    /// The lowest identifier whose row has this operation.
    fn find(&self, op: OpName) -> Option<u32>
        ensures { result ≡ id_of op (seen self.now) };

    /// Puts a row in, of which no other has the identifier. For want of memory nothing changes.
    fn put(&mut self, row: Row) -> Result<(), NoMemory>
        requires absent { row_of row.id (seen self.old) ≡ None }
        requires small { row.id ≤ 4294967295 }
        ensures put { OnOk result (seen self.new ≡ put row (seen self.old)) }
        ensures err { OnErr result (seen self.new ≡ seen self.old) };

    /// Takes the row of an identifier out.
    fn take(&mut self, id: u32) -> Option<Row>
        ensures row { result ≡ row_of id (seen self.old) }
        ensures taken { seen self.new ≡ without id (seen self.old) };

    /// Notes that the operation of an identifier was answered at a moment.
    fn touch(&mut self, id: u32, now: u64)
        ensures { seen self.new ≡ changed (answered now) id (seen self.old) };

    /// Notes that the operation of an identifier was answered at a moment, and keeps the answer back.
    fn keep(&mut self, id: u32, now: u64, kept: Kept)
        ensures { seen self.new ≡ changed (kept_back now kept) id (seen self.old) };
}

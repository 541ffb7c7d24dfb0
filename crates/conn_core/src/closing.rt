ghost use Rattle.std.specs.Prelude.{◌≡◌, ◌≤◌, ◌+◌, ◌*◌, ◌++◌, ◌∷◌, [], length};
ghost use Rattle.id_table.specs.Table.{IsTable};
ghost use Rattle.conn_core.specs.Kept.{moments_of};
ghost use Rattle.conn_core.specs.Closing.{lost_letters, row_loss};

use crate::counted::CountedTable;
use id_table::Row;
use lload_names::{ConnKind, Letter, PartName, Posted, Refusal};
use outbox::Outbox;

/// Takes out each row by rising identifier, and gives the letters of its loss, for which there is room.
pub(crate) fn lose_all(table: &mut CountedTable, number: u32, kind: ConnKind, out: &mut Outbox)
    requires { 2 * length table.old.rows ≤ out.old.letters.spare }
    ensures table { table.new ≡ record table.old { rows = [] } }
    ensures sound { IsTable table.new }
    ensures entries { out.new.entries ≡ out.old.entries }
    ensures letters { out.new.letters.items ≡ out.old.letters.items ++ lost_letters number kind table.old.rows }
    ensures spare { out.old.letters.spare ≤ out.new.letters.spare + 2 * length table.old.rows }
{
    while let Some(id) = table.first() {
        if let Some(row) = table.end(id) {
            lose(number, kind, &row, out);
        }
    }
}

/// Gives the letters of a row's loss, for which there is room.
fn lose(number: u32, kind: ConnKind, row: &Row, out: &mut Outbox)
    requires { 2 ≤ out.old.letters.spare }
    ensures entries { out.new.entries ≡ out.old.entries }
    ensures letters { out.new.letters.items ≡ out.old.letters.items ++ row_loss number kind row.now }
    ensures spare { out.old.letters.spare ≤ out.new.letters.spare + 2 }
{
    out.letters.put(Posted {
        to: PartName::Client(row.op.client),
        letter: Letter::Failed {
            op: row.op,
            which: Refusal::C4,
        },
    });
    if matches!(kind, ConnKind::Regular) {
        out.letters.put(Posted {
            to: PartName::Desk,
            letter: Letter::Ended {
                op: row.op,
                conn: number,
                latency: None,
            },
        });
    }
}

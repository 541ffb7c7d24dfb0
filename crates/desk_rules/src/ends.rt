ghost use Rattle.std.specs.Prelude.{◌≡◌, ◌≤◌, ◌&&◌, ◌||◌, ◌==◌, ℕ, List, not, false, OnOk, OnErr};
ghost use Rattle.lload_spec.specs.Settings.{Settings};
ghost use Rattle.lload_spec.specs.Choice.{DeskFacts};
ghost use Rattle.ready_set.specs.Keys.{most_conn};
ghost use Rattle.ready_set.specs.Readies.{has};
ghost use Rattle.desk_tables.specs.Rows.{index_of, is_ready};
ghost use Rattle.desk_choice.specs.Tells.{Tells};
ghost use Rattle.desk_rules.specs.Counts.{IsLess};

use crate::servers::server_at;
use desk_choice::Tables;
use desk_tables::{Conn, Server, write_server};
use lload_names::NoMemory;
use ready_set::Ready;

/// One operation less is pending on a connection. For want of memory nothing changes.
pub fn release(tables: &mut Tables, conn: u32) -> Result<(), NoMemory>
    ensures released { OnOk result ((s : Settings) (f : DeskFacts) (less : List ℕ) → Tells s f tables.old → IsLess conn less f.pending → Tells s (record f { pending = less }) tables.new) }
    ensures err { OnErr result ((s : Settings) (f : DeskFacts) → Tells s f tables.old → Tells s f tables.new) }
    ensures rounds { tables.new.rounds ≡ tables.old.rounds }
{
    let Some(row) = tables.conns.row(conn) else {
        return Ok(());
    };
    let Some(server) = server_at(tables, row.spot.server) else {
        return Ok(());
    };
    let less = Conn {
        pending: row.pending.saturating_sub(1),
        ..row
    };
    show(&mut tables.ready, &row, &less, conn)?;
    tables.conns.keep(conn, less);
    let pending = server.pending.saturating_sub(1);
    write_server(
        &mut tables.servers,
        row.spot.server,
        Server { pending, ..server },
    );
    Ok(())
}

/// A connection is ready at its place where its row says so, and didn't before. For want of memory nothing changes.
fn show(ready: &mut Ready, before: &Conn, row: &Conn, conn: u32) -> Result<(), NoMemory>
    ensures here { OnOk result (has ready.new (index_of before.now) conn ≡ (has ready.old (index_of before.now) conn || (is_ready row.now && not (is_ready before.now)))) }
    ensures others { OnOk result ((i n : ℕ) → n ≤ most_conn → (i == index_of before.now && n == conn) ≡ false → has ready.new i n ≡ has ready.old i n) }
    ensures err { OnErr result ((i n : ℕ) → has ready.new i n ≡ has ready.old i n) }
{
    if row.is_ready() && !before.is_ready() {
        ready.put(before.index(), conn)?;
    }
    Ok(())
}

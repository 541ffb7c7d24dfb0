ghost use Rattle.std.specs.Prelude.{◌≡◌, ◌≤◌, ◌&&◌, ◌==◌, ℕ, List, true, false, OnOk, OnErr};
ghost use Rattle.lload_spec.specs.Settings.{Settings};
ghost use Rattle.lload_spec.specs.Choice.{DeskFacts};
ghost use Rattle.ready_set.specs.Keys.{most_conn, is_in};
ghost use Rattle.ready_set.specs.Readies.{has};
ghost use Rattle.desk_tables.specs.Rows.{index_of, is_ready};
ghost use Rattle.desk_choice.specs.Tells.{Tells};
ghost use Rattle.desk_rules.specs.Counts.{IsLess};
ghost use Rattle.desk_rules.specs.Turning.{IsTurn};
ghost use Rattle.std.specs.Prelude.{Option};
ghost use Rattle.lload_names.specs.declared.names.ConnKind.{ConnKind};

use crate::servers::server_at;
use desk_choice::Tables;
use desk_tables::{Conn, Server, write_server};
use lload_names::NoMemory;
use ready_set::Ready;

/// One operation more is pending on a connection that is viable. Where no number is left to count it, nothing changes. It
/// takes no memory.
pub fn take_on(tables: &mut Tables, conn: u32) -> Result<(), NoMemory>
    ensures taken { OnOk result ((s : Settings) (f : DeskFacts) (more : List ℕ) → Tells s f tables.old → is_in conn f.viable ≡ true → IsLess conn f.pending more → Tells s (record f { pending = more }) tables.new) }
    ensures err { OnErr result ((s : Settings) (f : DeskFacts) → Tells s f tables.old → Tells s f tables.new) }
    ensures rounds { tables.new.rounds ≡ tables.old.rounds }
{
    let Some(row) = tables.conns.row(conn) else {
        return Ok(());
    };
    let Some(server) = server_at(tables, row.spot.server) else {
        return Ok(());
    };
    let Some(pending) = row.pending.checked_add(1) else {
        return Err(NoMemory);
    };
    let Some(count) = server.pending.checked_add(1) else {
        return Err(NoMemory);
    };
    let more = Conn { pending, ..row };
    hide(&mut tables.ready, &more, conn);
    tables.conns.keep(conn, more);
    write_server(
        &mut tables.servers,
        row.spot.server,
        Server {
            pending: count,
            ..server
        },
    );
    Ok(())
}

/// The place of a connection that is viable was chosen last of those of its backend and kind. It takes no memory.
pub fn turn_to(tables: &mut Tables, conn: u32)
    ensures turned { (s : Settings) (f : DeskFacts) (last : ℕ → ConnKind → Option ℕ) → Tells s f tables.old → is_in conn f.viable ≡ true → IsTurn s conn f.last_place last → Tells s (record f { last_place = last }) tables.new }
    ensures rounds { tables.new.rounds ≡ tables.old.rounds }
{
    let Some(row) = tables.conns.row(conn) else {
        return;
    };
    let Some(server) = server_at(tables, row.spot.server) else {
        return;
    };
    write_server(
        &mut tables.servers,
        row.spot.server,
        server.chosen(row.place.kind, row.index(), server.pending),
    );
}

/// A connection isn't ready at its place where its row says so. It takes no memory.
fn hide(ready: &mut Ready, row: &Conn, conn: u32)
    ensures here { has ready.new (index_of row.now) conn ≡ (has ready.old (index_of row.now) conn && is_ready row.now) }
    ensures others { (i n : ℕ) → n ≤ most_conn → (i == index_of row.now && n == conn) ≡ false → has ready.new i n ≡ has ready.old i n }
{
    if !row.is_ready() {
        ready.take(row.index(), conn);
    }
}

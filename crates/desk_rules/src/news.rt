ghost use Rattle.std.specs.Prelude.{◌≡◌, ◌≢◌, ◌≤◌, ◌&&◌, ◌||◌, ◌==◌, ◌++◌, ◌∷◌, ◌+◌, ◌<◌, length, [], ℕ, slice_get, true, false, Some, None, OnOk, OnErr};
ghost use Rattle.lload_spec.specs.Settings.{Settings, place_at};
ghost use Rattle.lload_spec.specs.Choice.{DeskFacts};
ghost use Rattle.part_spec.specs.DeskState.{without_connection};
ghost use Rattle.ready_set.specs.Keys.{most_conn, is_in};
ghost use Rattle.ready_set.specs.Readies.{has};
ghost use Rattle.desk_tables.specs.Rows.{row_of, index_of, is_ready};
ghost use Rattle.desk_tables.specs.Turns.{Turn};
ghost use Rattle.std.specs.Option.{ForSome};
ghost use Rattle.desk_choice.specs.Tells.{Tells};
ghost use Rattle.desk_rules.specs.Places.{IsPlaced, IsSpot, IsElsewhere};
ghost use Rattle.desk_rules.specs.Rows.{pending_of};

use crate::servers::server_at;
use desk_choice::Tables;
use desk_tables::{Conn, Round, Spot, numbered, write_server};
use lload_names::{NoMemory, Place};

/// A connection that isn't viable is up, at a place of a backend in force. For want of memory nothing changes.
pub fn up(tables: &mut Tables, conn: u32, place: Place) -> Result<(), NoMemory>
    ensures up { OnOk result ((s : Settings) (f : DeskFacts) → Tells s f tables.old → place_at s conn ≡ Some place → IsPlaced f.tiers place → is_in conn f.viable ≡ false → Tells s (record f { viable = f.viable ++ conn ∷ [] }) tables.new) }
    ensures err { OnErr result ((s : Settings) (f : DeskFacts) → Tells s f tables.old → is_in conn f.viable ≡ false → Tells s f tables.new) }
    ensures rounds { tables.new.rounds ≡ tables.old.rounds }
{
    let Some(index) = numbered(tables.servers.as_slice(), place.backend) else {
        return Ok(());
    };
    let Some(spot) = spot_at(tables.rounds.as_slice(), index) else {
        return Ok(());
    };
    let Some(server) = server_at(tables, index) else {
        return Ok(());
    };
    let Some(viable) = server.lane(place.kind).viable.checked_add(1) else {
        return Err(NoMemory);
    };
    let row = Conn {
        place,
        spot,
        most: server.most_on(place.kind),
        viable: true,
        pending: pending_on(tables, conn),
    };
    enter(tables, conn, row)?;
    write_server(&mut tables.servers, index, server.seen(place.kind, viable));
    Ok(())
}

/// How many operations are pending on a connection, where it has a row.
fn pending_on(tables: &Tables, conn: u32) -> u64
    ensures { result ≡ pending_of (row_of tables.now.conns conn) }
{
    match tables.conns.row(conn) {
        Some(row) => row.pending,
        None => 0,
    }
}

/// Where the backend with this index stands among the tiers.
fn spot_at(rounds: &[Round], index: usize) -> Option<Spot>
    ensures some { ForSome result (λ spot. IsSpot rounds.now index spot) }
    ensures none { result ≡ None → (i : ℕ) → ForSome (slice_get rounds.now i) (IsElsewhere index) }
{
    for (tier, round) in rounds.iter().enumerate() {
        if let Some(place) = place_in(round, index) {
            return Some(Spot {
                server: index,
                tier,
                place,
            });
        }
    }
    None
}

/// The place in a tier of the backend with this index.
fn place_in(round: &Round, index: usize) -> Option<u32>
    ensures among { ForSome result (λ place. round.now.first + place ≡ index) }
    ensures within { ForSome result (λ place. place < length round.now.tier.weights) }
    ensures none { result ≡ None → IsElsewhere index round.now }
{
    let place = index.checked_sub(round.first())?;
    if place < round.count().min(64) {
        Some(place as u32)
    } else {
        None
    }
}

/// Writes the row of a connection, and that it is ready where the row says so. For want of memory nothing changes, where
/// the connection wasn't ready.
fn enter(tables: &mut Tables, conn: u32, row: Conn) -> Result<(), NoMemory>
    ensures servers { tables.new.servers ≡ tables.old.servers }
    ensures rounds { tables.new.rounds ≡ tables.old.rounds }
    ensures row { OnOk result (row_of tables.new.conns conn ≡ Some row) }
    ensures others { OnOk result ((n : ℕ) → n ≢ conn → row_of tables.new.conns n ≡ row_of tables.old.conns n) }
    ensures ready { OnOk result (has tables.new.ready (index_of row) conn ≡ (has tables.old.ready (index_of row) conn || is_ready row)) }
    ensures unready { (i n : ℕ) → n ≤ most_conn → (i == index_of row && n == conn) ≡ false → has tables.new.ready i n ≡ has tables.old.ready i n }
    ensures rows { OnErr result ((n : ℕ) → row_of tables.new.conns n ≡ row_of tables.old.conns n) }
    ensures undone { OnErr result (has tables.old.ready (index_of row) conn ≡ false → has tables.new.ready (index_of row) conn ≡ false) }
{
    if row.is_ready() {
        tables.ready.put(row.index(), conn)?;
    }
    if tables.conns.put(conn, row).is_err() {
        tables.ready.take(row.index(), conn);
        return Err(NoMemory);
    }
    Ok(())
}

/// A connection isn't viable any more: it retired or is down. It takes no memory.
pub fn lost(tables: &mut Tables, conn: u32)
    ensures lost { (s : Settings) (f : DeskFacts) → Tells s f tables.old → Tells s (record f { viable = without_connection conn f.viable }) tables.new }
    ensures rounds { tables.new.rounds ≡ tables.old.rounds }
{
    let Some(row) = tables.conns.row(conn) else {
        return;
    };
    if !row.viable {
        return;
    }
    let Some(server) = server_at(tables, row.spot.server) else {
        return;
    };
    let kind = row.place.kind;
    let viable = server.lane(kind).viable.saturating_sub(1);
    tables.conns.keep(
        conn,
        Conn {
            viable: false,
            ..row
        },
    );
    tables.ready.take(row.index(), conn);
    write_server(
        &mut tables.servers,
        row.spot.server,
        server.seen(kind, viable),
    );
}

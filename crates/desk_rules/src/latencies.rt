ghost use Rattle.std.specs.Prelude.{◌≡◌, ◌≢◌, ◌<◌, ℕ, List, length, slice_get, Some, OnOk, OnErr};
ghost use Rattle.lload_names.specs.declared.plans.TierPlan.{TierPlan};
ghost use Rattle.lload_spec.specs.Settings.{Settings};
ghost use Rattle.lload_spec.specs.Choice.{DeskFacts};
ghost use Rattle.desk_tables.specs.Turns.{Turn};
ghost use Rattle.desk_choice.specs.Tells.{Tells};
ghost use Rattle.desk_rules.specs.Counts.{IsLess};
ghost use Rattle.desk_rules.specs.Latencies.{with_means, AreRings, IsTold, IsHeard};

use crate::ends::release;
use desk_choice::Tables;
use desk_tables::Round;
use lload_names::NoMemory;

/// One operation less is pending on a connection, and it took so many milliseconds: its backend has one latency more, of
/// which the last 16 are kept. For want of memory nothing changes.
pub fn ended(tables: &mut Tables, conn: u32, latency: u32) -> Result<(), NoMemory>
    ensures ended { OnOk result ((s : Settings) (f : DeskFacts) (less : List ℕ) (before after : ℕ → List ℕ) → Tells s (with_means f before) tables.old → IsLess conn less f.pending → AreRings f.tiers before tables.old.rounds.items → IsTold s conn latency before after → Tells s (with_means (record f { pending = less }) after) tables.new) }
    ensures rings { OnOk result ((s : Settings) (f : DeskFacts) (less : List ℕ) (before after : ℕ → List ℕ) → Tells s (with_means f before) tables.old → IsLess conn less f.pending → AreRings f.tiers before tables.old.rounds.items → IsTold s conn latency before after → AreRings f.tiers after tables.new.rounds.items) }
    ensures err { OnErr result ((s : Settings) (f : DeskFacts) → Tells s f tables.old → Tells s f tables.new) }
    ensures rounds { OnErr result (tables.new.rounds ≡ tables.old.rounds) }
{
    let row = tables.conns.row(conn);
    release(tables, conn)?;
    if let Some(row) = row {
        hear_in(&mut tables.rounds, row.spot.tier, row.spot.place, latency);
    }
    Ok(())
}

/// A latency of a backend in one of these tiers was heard, by its place there. It takes no memory.
fn hear_in(rounds: &mut Vec<Round>, tier: usize, place: u32, latency: u32)
    ensures here { (x : Turn) → slice_get rounds.old.items tier ≡ Some x → place < length x.tier.weights → IsHeard place latency x (slice_get rounds.new.items tier) }
    ensures others { (i : ℕ) → i ≢ tier → slice_get rounds.new.items i ≡ slice_get rounds.old.items i }
{
    if let Some(round) = rounds.get_mut(tier) {
        round.heard(place, latency);
    }
}

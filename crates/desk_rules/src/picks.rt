ghost use Rattle.std.specs.Prelude.{◌≡◌, ◌≢◌, ◌<◌, ℕ, List, Option, length, slice_get, true};
ghost use Rattle.lload_names.specs.declared.plans.TierPlan.{TierPlan};
ghost use Rattle.lload_spec.specs.Settings.{Settings};
ghost use Rattle.lload_spec.specs.Choice.{DeskFacts};
ghost use Rattle.ready_set.specs.Keys.{is_in};
ghost use Rattle.desk_tables.specs.Turns.{Turn};
ghost use Rattle.desk_choice.specs.Tells.{Tells};
ghost use Rattle.desk_rules.specs.Turning.{IsPick, IsPicked};
ghost use Rattle.desk_rules.specs.Latencies.{AreRings};

use desk_choice::Tables;
use desk_tables::Round;

/// A free request got a connection that is viable: its backend was picked last in its tier. It takes no memory.
pub fn pick(tables: &mut Tables, conn: u32)
    ensures picked { (s : Settings) (f : DeskFacts) (last : TierPlan → Option ℕ) → Tells s f tables.old → is_in conn f.viable ≡ true → IsPick s conn f last → Tells s (record f { last_backend = last }) tables.new }
    ensures rings { (s : Settings) (f : DeskFacts) (latencies : ℕ → List ℕ) → Tells s f tables.old → is_in conn f.viable ≡ true → AreRings f.tiers latencies tables.old.rounds.items → AreRings f.tiers latencies tables.new.rounds.items }
{
    let Some(row) = tables.conns.row(conn) else {
        return;
    };
    pick_in(&mut tables.rounds, row.spot.tier, row.spot.place);
}

/// A backend was picked in one of these tiers, by its place there. It takes no memory.
fn pick_in(rounds: &mut Vec<Round>, tier: usize, place: u32)
    ensures here { (x : Turn) → slice_get rounds.old.items tier ≡ Some x → place < length x.tier.weights → IsPicked place x (slice_get rounds.new.items tier) }
    ensures others { (i : ℕ) → i ≢ tier → slice_get rounds.new.items i ≡ slice_get rounds.old.items i }
{
    if let Some(round) = rounds.get_mut(tier) {
        round.picked(place);
    }
}

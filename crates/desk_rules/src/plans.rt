ghost use Rattle.std.specs.Prelude.{◌≡◌, ◌≤◌, ◌+◌, ◌++◌, [], length, IfOk, OnOk};
ghost use Rattle.lload_names.specs.Plans.{backends_of, rooms_of, rooms_of_backend, place_count, greatest_number};
ghost use Rattle.lload_spec.specs.Settings.{Settings};
ghost use Rattle.lload_spec.specs.Choice.{DeskFacts};
ghost use Rattle.desk_choice.specs.Tells.{Tells};
ghost use Rattle.desk_rules.specs.Latencies.{AreRings};
ghost use Rattle.desk_rules.specs.Fresh.{IsFresh, new_lane, new_server, new_servers, new_turns};

use desk_choice::Tables;
use desk_tables::{Conns, Lane, Round, Server};
use lload_names::{BackendPlan, DeskPlan, NoMemory};
use ready_set::Ready;
use std::alloc::Global;

/// The tables where the desk has just taken a plan, whose backends are numbered through all plans: no connection is
/// viable, nothing is pending on these backends, and nothing was chosen or told. For want of memory nothing is made.
pub fn fresh(alloc: Global, plan: &DeskPlan) -> Result<Tables, NoMemory>
    requires few { length (backends_of plan.now) ≤ 64 }
    requires places { place_count plan.now ≤ 512 }
    ensures tells { IfOk result (λ tables. (s : Settings) (f : DeskFacts) → f.tiers ≡ plan.now → IsFresh s f → Tells s f tables) }
    ensures rings { IfOk result (λ tables. AreRings plan.now (λ b. []) tables.rounds.items) }
{
    Ok(Tables {
        rounds: rounds_of(alloc, plan)?,
        servers: servers_of(alloc, plan)?,
        conns: Conns::new(alloc),
        ready: Ready::new(alloc),
    })
}

/// The tiers of a plan, of which no backend was picked yet.
fn rounds_of(alloc: Global, plan: &DeskPlan) -> Result<Vec<Round>, NoMemory>
    requires few { length (backends_of plan.now) ≤ 64 }
    requires places { place_count plan.now ≤ 512 }
    ensures { IfOk result (λ rounds. rounds.items ≡ new_turns 0 plan.now) }
{
    let mut rounds = Vec::new(alloc);
    let mut first = 0;
    for tier in plan.as_slice() {
        rounds.push(Round::new(alloc, tier, first)?)?;
        first += tier.backends.len();
    }
    Ok(rounds)
}

/// The backends of all tiers of a plan, each with its places.
fn servers_of(alloc: Global, plan: &DeskPlan) -> Result<Vec<Server>, NoMemory>
    requires { place_count plan.now ≤ greatest_number }
    ensures { IfOk result (λ servers. servers.items ≡ new_servers 0 (backends_of plan.now)) }
{
    let mut servers = Vec::new(alloc);
    let mut from = 0;
    for tier in plan.as_slice() {
        from = add_servers(&mut servers, tier.backends.as_slice(), from)?;
    }
    Ok(servers)
}

/// Appends these backends, whose places begin at an index, and tells the index behind their last place.
fn add_servers(
    servers: &mut Vec<Server>,
    backends: &[BackendPlan],
    from: u32,
) -> Result<u32, NoMemory>
    requires { from + length (rooms_of backends.now) ≤ greatest_number }
    ensures servers { OnOk result (servers.new.items ≡ servers.old.items ++ new_servers from backends.now) }
    ensures next { IfOk result (λ next. next ≡ from + length (rooms_of backends.now)) }
{
    let mut next = from;
    for backend in backends {
        let server = new_server(*backend, next);
        servers.push(server)?;
        next = server.bind.to;
    }
    Ok(next)
}

/// A backend with its places from an index on.
fn new_server(plan: BackendPlan, from: u32) -> Server
    requires { from + (plan.numconns + plan.bindconns) ≤ greatest_number }
    ensures { result ≡ new_server from plan }
{
    let regular = new_lane(from, plan.numconns);
    let bind = new_lane(regular.to, plan.bindconns);
    Server {
        plan,
        pending: 0,
        regular,
        bind,
    }
}

/// So many places from an index on.
fn new_lane(from: u32, count: u32) -> Lane
    requires { from + count ≤ greatest_number }
    ensures { result ≡ new_lane from count }
{
    Lane {
        from,
        to: from + count,
        last: None,
        viable: 0,
    }
}

ghost use Rattle.std.specs.Prelude.{◌≡◌, ◌↔◌, ◌++◌, length, IsTrue, flat_map, IfOk, IfSome, OnOk};
ghost use Rattle.lload_names.specs.Plans.{place_count};
ghost use Rattle.io_workers.specs.Configured.{places_of, retries, retries_of, retry_of};
ghost use Rattle.io_workers.specs.Places.{due, linked, lost, changed_for, index_of, IsNext, IsTurnOf};

use crate::tree::Tree;
use lload_conf::{Config, Hosts};
use lload_names::{BackendPlan, NoMemory};
use std::alloc::Global;
use std::marker::Model;

/// The places for upstream connections, and which connection each has or links next. A place that lost its
/// connection, or failed to link one, waits for the `retry` of its backend before it is due again. (This project's own.)
#[derive(Drop)]
pub struct Places {
    tree: Tree,
    count: usize,
}

impl Model for Places {
    ghost use Rattle.std.specs.Prelude.{List};
    ghost use Rattle.io_workers.specs.declared.rows.Row.{Row};
    ghost use Rattle.io_workers.specs.Places.{ArePlaces};

    ghost Value = { List Row };

    ghost view = { λ p. p.tree };

    ghost invariant = { λ p. ArePlaces p.count p.tree };
}

impl Places {
    /// The places of a configuration, none with a connection. For want of memory nothing is made.
    pub fn new(alloc: Global, config: &Config) -> Result<Places, NoMemory>
        ensures places { IfOk result (λ places. places ≡ places_of config.now) }
        ensures count { IfOk result (λ places. length places ≡ place_count config.now.plan) }
    {
        let retries = retries(alloc, config)?;
        let count = retries.len();
        let tree = Tree::of(alloc, 1, &retries)?;
        Ok(Places { tree, count })
    }

    /// The connection to link next at the lowest place that is due at the moment `now`, in milliseconds: a place that
    /// has none, whose next number isn't above 4,294,967,295, and for which [`Places::lost`] was never called, or
    /// last named a moment at least `retry` milliseconds ago. `None` exactly where no place is due. It takes no memory.
    pub fn due(&self, now: u64) -> Option<u32>
        ensures due { result ≡ due now self.now }
        ensures next { IfSome result (λ conn. IsNext conn self.now) }
        ensures turn { IfSome result (λ conn. IsTurnOf conn self.now) }
    {
        self.tree.due(now)
    }

    /// Whether this is the connection that its place has, or where that has none, the one that it links next: what
    /// [`Places::lost`] asks of a connection. It takes no memory.
    pub fn is_turn_of(&self, conn: u32) -> bool
        ensures { IsTrue result ↔ IsTurnOf conn self.now }
    {
        let count = self.count;
        if conn == 0 || count == 0 {
            return false;
        }
        match self.tree.get((conn as usize - 1) % count) {
            Some(row) => row.conn == conn as u64,
            None => false,
        }
    }

    /// The index of a connection's place.
    fn index_of(&self, conn: u32) -> usize
        requires { IsTurnOf conn self.now }
        ensures { result ≡ index_of conn self.now }
    {
        let count = self.count;
        (conn as usize - 1) % count
    }

    /// A connection was linked. It takes no memory.
    pub fn linked(&mut self, conn: u32)
        requires { IsNext conn self.old }
        ensures linked { self.new ≡ changed_for conn linked self.old }
        ensures turn { IsTurnOf conn self.new }
    {
        let i = self.index_of(conn);
        if let Some(row) = self.tree.get(i) {
            self.tree.set(i, row.linked());
        }
    }

    /// A connection ended at the moment `now`, in milliseconds, or it couldn't be linked then. Where it was linked, the
    /// next connection of its place has the next number of the place, and else the same again. It takes no memory.
    pub fn lost(&mut self, conn: u32, now: u64)
        requires { IsTurnOf conn self.old }
        ensures { self.new ≡ changed_for conn (lost (length self.old) now) self.old }
    {
        let i = self.index_of(conn);
        if let Some(row) = self.tree.get(i) {
            self.tree.set(i, row.lost(self.count as u64, now));
        }
    }
}

/// How long each place of a configuration waits, in milliseconds.
fn retries(alloc: Global, config: &Config) -> Result<Vec<u32>, NoMemory>
    ensures { IfOk result (λ waits. waits.items ≡ retries config.now) }
{
    let mut waits = Vec::new(alloc);
    for tier in config.plan.as_slice() {
        push_retries(&mut waits, &config.hosts, tier.backends.as_slice())?;
    }
    Ok(waits)
}

/// Appends how long each place of these backends waits. For want of memory some may be missing.
fn push_retries(
    waits: &mut Vec<u32>,
    hosts: &Hosts,
    backends: &[BackendPlan],
) -> Result<(), NoMemory>
    ensures { OnOk result (waits.new.items ≡ waits.old.items ++ flat_map (retries_of hosts.now) backends.now) }
{
    for backend in backends {
        let count = backend.numconns as usize + backend.bindconns as usize;
        waits.resize(waits.len() + count, retry_of(hosts, backend.number))?;
    }
    Ok(())
}

/// How long the places of a backend wait, by its number.
fn retry_of(hosts: &Hosts, number: u32) -> u32
    ensures { result ≡ retry_of hosts.now number }
{
    match hosts.get((number as usize).saturating_sub(1)) {
        Some(host) => host.retry,
        None => 0,
    }
}

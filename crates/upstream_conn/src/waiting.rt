ghost use Rattle.std.specs.Prelude.{◌≡◌, ◌==◌, [], not, filter, OnOk, OnErr};
ghost use Rattle.lload_spec.specs.Lists.{put_number};
ghost use Rattle.lload_spec.specs.Pauses.{is_waiting};

use lload_names::NoMemory;
use std::alloc::Global;
use std::collections::BTreeSet;
use std::marker::Model;

/// The clients for which a connection pauses.
#[derive(Drop)]
pub(crate) struct Waiting {
    clients: BTreeSet<u32>,
}

impl Model for Waiting {
    ghost use Rattle.std.specs.Prelude.{ℕ, List};

    ghost Value = { List ℕ };

    ghost use Rattle.upstream_conn.specs.Waits.{RisesFrom};

    ghost view = { λ w. w.clients.keys };

    ghost invariant = { λ w. RisesFrom 0 w.clients.keys };
}

impl Waiting {
    /// None. It takes no memory.
    pub(crate) fn new(alloc: Global) -> Waiting
        ensures { result ≡ [] }
    {
        Waiting {
            clients: BTreeSet::new(alloc),
        }
    }

    /// Whether it pauses for one.
    pub(crate) fn is_any(&self) -> bool
        ensures { result ≡ is_waiting self.now }
    {
        !self.clients.is_empty()
    }

    /// A client has paused it. For want of memory nothing changes.
    pub(crate) fn add(&mut self, client: u32) -> Result<(), NoMemory>
        ensures ok { OnOk result (self.new ≡ put_number client self.old) }
        ensures err { OnErr result (self.new ≡ self.old) }
    {
        self.clients.insert(client)?;
        Ok(())
    }

    /// A client no longer pauses it. It takes no memory.
    pub(crate) fn remove(&mut self, client: u32)
        ensures { self.new ≡ filter (λ d. not (d == client)) self.old }
    {
        self.clients.remove(&client);
    }
}

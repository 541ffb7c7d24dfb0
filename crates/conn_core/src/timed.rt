ghost use Rattle.std.specs.Prelude.{◌≡◌, [], IfOk, OnOk, OnErr};
ghost use Rattle.std.specs.BTreeMap.{insert_entry, is_at};
ghost use Rattle.std.specs.Map.{set_value, remove_entry};
ghost use Rattle.std.specs.Ordering.{nat_cmp};
ghost use Rattle.op_deadlines.specs.Due.{is_due, all_due};

use lload_names::NoMemory;
use op_deadlines::Deadlines;
use std::alloc::Global;
use std::marker::Model;

/// Deadlines that tell whether a moment is past by their timeout. Contracts see the deadlines.
#[derive(Drop)]
pub(crate) struct Timed {
    deadlines: Deadlines,
    timeout: u32,
}

impl Model for Timed {
    ghost use Rattle.std.specs.Prelude.{◌≡◌};
    ghost use Rattle.op_deadlines.specs.Due.{Waiting};

    ghost Value = { Waiting };

    ghost view = { λ t. t.deadlines };

    ghost invariant = { λ t. t.timeout ≡ t.deadlines.timeout };
}

impl Timed {
    /// None waits. `timeout` is in seconds; with 0 nothing is ever due.
    pub(crate) fn new(alloc: Global, timeout: u32) -> Timed
        ensures { result ≡ record { timeout = timeout; moments = [] } }
    {
        Timed {
            deadlines: Deadlines::new(alloc, timeout),
            timeout,
        }
    }

    /// Whether what is counted from a moment is due at another one.
    pub(crate) fn is_past(&self, since: u64, at: u64) -> bool
        ensures { result ≡ is_due self.now.timeout at since }
    {
        self.timeout != 0 && u64::from(self.timeout) * 1000 <= at.saturating_sub(since)
    }

    /// The same as of the deadlines, and so below.
    pub(crate) fn start(&mut self, id: u32, now: u64) -> Result<(), NoMemory>
        ensures started { OnOk result (self.new ≡ record { timeout = self.old.timeout; moments = insert_entry nat_cmp self.old.moments id now }) }
        ensures err { OnErr result (self.new ≡ self.old) }
    {
        self.deadlines.start(id, now)
    }

    pub(crate) fn touch(&mut self, id: u32, now: u64)
        ensures touched { self.new ≡ record { timeout = self.old.timeout; moments = set_value (is_at (nat_cmp id)) self.old.moments now } }
    {
        self.deadlines.touch(id, now);
    }

    pub(crate) fn stop(&mut self, id: u32)
        ensures stopped { self.new ≡ record { timeout = self.old.timeout; moments = remove_entry (is_at (nat_cmp id)) self.old.moments } }
    {
        self.deadlines.stop(id);
    }

    pub(crate) fn clear(&mut self)
        ensures { self.new ≡ record { timeout = self.old.timeout; moments = [] } }
    {
        self.deadlines.clear();
    }

    pub(crate) fn all_due(&self, now: u64) -> Result<Vec<u32>, NoMemory>
        ensures { IfOk result (λ due. due.items ≡ all_due self.now.timeout now self.now.moments) }
    {
        self.deadlines.all_due(now)
    }
}

ghost use Rattle.std.specs.Prelude.{◌≡◌, [], IsSome, IsOk, IfOk, OnOk, OnErr};
ghost use Rattle.std.specs.Ordering.{nat_cmp};
ghost use Rattle.std.specs.BTreeMap.{insert_entry, is_at};
ghost use Rattle.std.specs.Map.{lookup, remove_entry, set_value};
ghost use Rattle.op_deadlines.specs.Due.{lowest_due, all_due};

use crate::tree::Tree;
use lload_names::NoMemory;
use std::alloc::Global;
use std::marker::Model;

/// The identifiers that wait, each with the moment from which it is counted (milliseconds), and the timeout of all
/// (seconds, 0 for none).
#[derive(Drop)]
pub struct Deadlines {
    timeout: u32,
    moments: Tree,
    alloc: Global,
}

impl Model for Deadlines {
    ghost use Rattle.op_deadlines.specs.Due.{Waiting};

    ghost Value = { Waiting };

    ghost view = { λ d. record { timeout = d.timeout; moments = d.moments } };
}

impl Deadlines {
    /// No identifier waits. `timeout` is in seconds; with 0 nothing is ever due. It takes no memory.
    pub fn new(alloc: Global, timeout: u32) -> Deadlines
        ensures { result ≡ record { timeout = timeout; moments = [] } }
    {
        Deadlines {
            timeout,
            moments: Tree::new(),
            alloc,
        }
    }

    /// The identifier waits from the moment `now` on, in milliseconds. For want of memory nothing changes;
    /// for an identifier that waits already none is wanted.
    pub fn start(&mut self, id: u32, now: u64) -> Result<(), NoMemory>
        ensures started { OnOk result (self.new ≡ record { timeout = self.old.timeout; moments = insert_entry nat_cmp self.old.moments id now }) }
        ensures err { OnErr result (self.new ≡ self.old) }
        ensures no_memory { IsSome (lookup (is_at (nat_cmp id)) self.old.moments) → IsOk result }
    {
        self.moments.start(self.alloc, id, now)
    }

    /// The identifier is counted from the moment `now` on, in milliseconds. Where it doesn't wait, nothing changes.
    /// It takes no memory.
    pub fn touch(&mut self, id: u32, now: u64)
        ensures touched { self.new ≡ record { timeout = self.old.timeout; moments = set_value (is_at (nat_cmp id)) self.old.moments now } }
    {
        self.moments.touch(id, now);
    }

    /// The identifier waits no more. Where it doesn't wait, nothing changes. It takes no memory.
    pub fn stop(&mut self, id: u32)
        ensures stopped { self.new ≡ record { timeout = self.old.timeout; moments = remove_entry (is_at (nat_cmp id)) self.old.moments } }
    {
        self.moments.stop(id);
    }

    /// No identifier waits any more. It takes no memory.
    pub fn clear(&mut self)
        ensures { self.new ≡ record { timeout = self.old.timeout; moments = [] } }
    {
        self.moments = Tree::new();
    }

    /// The lowest identifier that is due at the moment `now`, in milliseconds; `None` exactly where none is. It takes
    /// no memory.
    pub fn first_due(&self, now: u64) -> Option<u32>
        ensures lowest { result ≡ lowest_due self.now.timeout now self.now.moments }
    {
        self.moments.first_due(self.timeout, now)
    }

    /// The identifiers that are due at the moment `now`, in milliseconds, by rising identifier. It costs a way down the
    /// tree for each of them.
    pub fn all_due(&self, now: u64) -> Result<Vec<u32>, NoMemory>
        ensures { IfOk result (λ due. due.items ≡ all_due self.now.timeout now self.now.moments) }
    {
        let mut due = Vec::new(self.alloc);
        self.moments.all_due(self.timeout, now, &mut due)?;
        Ok(due)
    }
}

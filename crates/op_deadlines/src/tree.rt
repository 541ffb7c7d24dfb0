ghost use Rattle.std.specs.Prelude.{◌≡◌, ◌==◌, ℕ, ◌+◌, ◌<◌, ◌≤◌, [], ◌∷◌, ◌++◌, length, nat_lt, IsSome, IsOk, OnOk, OnErr};
ghost use Rattle.std.specs.Int.{trailing_zeros, w32};
ghost use Rattle.std.specs.Ordering.{nat_cmp};
ghost use Rattle.std.specs.BTreeMap.{insert_entry, is_at};
ghost use Rattle.std.specs.Map.{lookup, remove_entry, set_value};
ghost use Rattle.op_deadlines.specs.Due.{is_due, lowest_due, all_due};
ghost use Rattle.op_deadlines.specs.Tree.{entries, earliest, IsNode, Within};

use lload_names::NoMemory;
use std::alloc::Global;
use std::marker::Model;
use std::mem;

/// Identifiers, each with a moment in milliseconds, as a search tree that knows the earliest moment below each fork. A
/// fork stands where most twos divide, so that a way down passes 32 forks at most.
#[cycle(tree)]
#[derive(Drop)]
pub(crate) struct Tree {
    node: Node,
}

#[cycle(tree)]
#[derive(Drop)]
enum Node {
    Empty,
    /// An identifier and its moment.
    Leaf(u32, u64),
    /// No identifier is below the first or above the last. Those below the split are on the low side, and the others
    /// on the high one. The last field is the earliest moment of all.
    Fork(u32, u32, u32, Box<Tree>, Box<Tree>, u64),
}

impl Model for Tree {
    ghost use Rattle.std.specs.Prelude.{ℕ, List, length};

    ghost Value = { List (ℕ × ℕ) };

    ghost use Rattle.op_deadlines.specs.Tree.{entries, IsNode};

    ghost view = { λ t. entries t.node };

    ghost invariant = { λ t. IsNode t.node };

    ghost size = { length };

    ghost use Rattle.op_deadlines.specs.TreeFalls.{depth_le-length-entries};

    ghost size_decreases = { λ t h. depth_le-length-entries t.node h };
}

impl Tree {
    /// No identifier.
    pub(crate) fn new() -> Tree
        ensures { result ≡ [] }
    {
        Tree { node: Node::Empty }
    }

    fn leaf(id: u32, moment: u64) -> Tree
        ensures { result ≡ (id, moment) ∷ [] }
    {
        Tree {
            node: Node::Leaf(id, moment),
        }
    }

    fn is_empty(&self) -> bool
        ensures { result ≡ (length self.now == 0) }
    {
        matches!(self.node, Node::Empty)
    }

    /// The earliest moment; the last there is where no identifier waits.
    fn earliest(&self) -> u64
        ensures { result ≡ earliest self.now }
    {
        match self.node {
            Node::Empty => u64::MAX,
            Node::Leaf(_, moment) => moment,
            Node::Fork(_, _, _, _, _, earliest) => earliest,
        }
    }

    /// The lowest identifier that is due at a moment.
    pub(crate) fn first_due(&self, timeout: u32, now: u64) -> Option<u32>
        ensures { result ≡ lowest_due timeout now self.now }
    {
        match &self.node {
            Node::Empty => None,
            Node::Leaf(id, moment) => {
                if is_past(timeout, *moment, now) {
                    Some(*id)
                } else {
                    None
                }
            }
            Node::Fork(_, _, _, low, high, earliest) => {
                if !is_past(timeout, *earliest, now) {
                    return None;
                }
                match low.first_due(timeout, now) {
                    Some(id) => Some(id),
                    None => high.first_due(timeout, now),
                }
            }
        }
    }

    /// Appends the identifiers that are due at a moment, in order. For want of memory some of them may be missing.
    pub(crate) fn all_due(&self, timeout: u32, now: u64, due: &mut Vec<u32>) -> Result<(), NoMemory>
        ensures { OnOk result (due.new.items ≡ due.old.items ++ all_due timeout now self.now) }
    {
        match &self.node {
            Node::Empty => Ok(()),
            Node::Leaf(id, moment) => {
                if is_past(timeout, *moment, now) {
                    due.push(*id)?;
                }
                Ok(())
            }
            Node::Fork(_, _, _, low, high, earliest) => {
                if !is_past(timeout, *earliest, now) {
                    return Ok(());
                }
                low.all_due(timeout, now, due)?;
                high.all_due(timeout, now, due)?;
                Ok(())
            }
        }
    }

    /// Gives an identifier that waits another moment.
    pub(crate) fn touch(&mut self, id: u32, now: u64)
        ensures { self.new ≡ set_value (is_at (nat_cmp id)) self.old now }
    {
        match &mut self.node {
            Node::Empty => {}
            Node::Leaf(other, moment) => {
                if *other == id {
                    *moment = now;
                }
            }
            Node::Fork(_, split, _, low, high, earliest) => {
                if id < *split {
                    low.touch(id, now);
                    *earliest = low.earliest().min(high.earliest());
                } else {
                    high.touch(id, now);
                    *earliest = low.earliest().min(high.earliest());
                }
            }
        }
    }
    /// An identifier waits from a moment on. For want of memory nothing changes; for one that waits already none is
    /// wanted.
    pub(crate) fn start(&mut self, alloc: Global, id: u32, now: u64) -> Result<(), NoMemory>
        ensures started { OnOk result (self.new ≡ insert_entry nat_cmp self.old id now) }
        ensures err { OnErr result (self.new ≡ self.old) }
        ensures no_memory { IsSome (lookup (is_at (nat_cmp id)) self.old) → IsOk result }
    {
        match &mut self.node {
            Node::Empty => {
                self.node = Node::Leaf(id, now);
                Ok(())
            }
            Node::Leaf(other, moment) => {
                let other = *other;
                if id < other {
                    return self.put_before(alloc, id, now, other, other);
                }
                if other < id {
                    return self.put_behind(alloc, id, now, other, other);
                }
                *moment = now;
                Ok(())
            }
            Node::Fork(first, split, last, low, high, earliest) => {
                let (from, to) = (*first, *last);
                if id < from && is_wider(split_between(id, from), *split) {
                    return self.put_before(alloc, id, now, from, to);
                }
                if to < id && is_wider(split_between(to, id), *split) {
                    return self.put_behind(alloc, id, now, from, to);
                }
                if id < *split {
                    low.start(alloc, id, now)?;
                    *first = from.min(id);
                    *earliest = low.earliest().min(high.earliest());
                    return Ok(());
                }
                high.start(alloc, id, now)?;
                *last = to.max(id);
                *earliest = low.earliest().min(high.earliest());
                Ok(())
            }
        }
    }

    /// Puts an identifier below all others, beside them at a fork.
    fn put_before(
        &mut self,
        alloc: Global,
        id: u32,
        now: u64,
        first: u32,
        last: u32,
    ) -> Result<(), NoMemory>
        requires some { 1 ≤ length self.old }
        requires within { Within first (last + 1) self.old }
        requires below { id < first }
        ensures put { OnOk result (self.new ≡ (id, now) ∷ self.old) }
        ensures err { OnErr result (self.new ≡ self.old) }
    {
        let low = Box::new(alloc, Tree::leaf(id, now))?;
        let mut high = Box::new(alloc, Tree::new())?;
        let split = split_between(id, first);
        let earliest = now.min(self.earliest());
        *high = mem::replace(self, Tree::new());
        self.node = Node::Fork(id, split, last, low, high, earliest);
        Ok(())
    }

    /// Puts an identifier above all others, beside them at a fork.
    fn put_behind(
        &mut self,
        alloc: Global,
        id: u32,
        now: u64,
        first: u32,
        last: u32,
    ) -> Result<(), NoMemory>
        requires some { 1 ≤ length self.old }
        requires within { Within first (last + 1) self.old }
        requires above { last < id }
        ensures put { OnOk result (self.new ≡ self.old ++ (id, now) ∷ []) }
        ensures err { OnErr result (self.new ≡ self.old) }
    {
        let mut low = Box::new(alloc, Tree::new())?;
        let high = Box::new(alloc, Tree::leaf(id, now))?;
        let split = split_between(last, id);
        let earliest = self.earliest().min(now);
        *low = mem::replace(self, Tree::new());
        self.node = Node::Fork(first, split, id, low, high, earliest);
        Ok(())
    }

    /// An identifier waits no more.
    pub(crate) fn stop(&mut self, id: u32)
        ensures { self.new ≡ remove_entry (is_at (nat_cmp id)) self.old }
    {
        match &mut self.node {
            Node::Empty => {}
            Node::Leaf(other, _) => {
                if *other == id {
                    self.node = Node::Empty;
                }
            }
            Node::Fork(_, split, _, low, high, earliest) => {
                if id < *split {
                    low.stop(id);
                    if low.is_empty() {
                        let rest = mem::replace(&mut **high, Tree::new());
                        *self = rest;
                        return;
                    }
                    *earliest = low.earliest().min(high.earliest());
                    return;
                }
                high.stop(id);
                if high.is_empty() {
                    let rest = mem::replace(&mut **low, Tree::new());
                    *self = rest;
                    return;
                }
                *earliest = low.earliest().min(high.earliest());
            }
        }
    }
}

/// Whether what is counted from a moment is due at `now`, both in milliseconds, with a timeout in seconds.
fn is_past(timeout: u32, moment: u64, now: u64) -> bool
    ensures { result ≡ is_due timeout now moment }
{
    timeout != 0 && now >= moment && now - moment >= 1000 * timeout as u64
}

/// Whether more twos divide a number than another.
fn is_wider(split: u32, other: u32) -> bool
    ensures { result ≡ nat_lt (trailing_zeros w32 other) (trailing_zeros w32 split) }
{
    split.trailing_zeros() > other.trailing_zeros()
}

/// The number above one and up to another that most twos divide.
fn split_between(low: u32, high: u32) -> u32
    requires { low < high }
    ensures above { low < result }
    ensures within { result ≤ high }
{
    let mut split = high;
    while split & (split - 1) > low {
        split &= split - 1;
    }
    split
}

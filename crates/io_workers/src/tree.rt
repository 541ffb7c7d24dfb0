ghost use Rattle.std.specs.Prelude.{◌≡◌, ◌+◌, ◌<◌, ◌≤◌, ◌^◌, ◌++◌, length, slice_get, slice_set, IfOk};
ghost use Rattle.io_workers.specs.Places.{due, fresh};
ghost use Rattle.io_workers.specs.Tree.{earliest};

use crate::rows::Row;
use lload_names::NoMemory;
use std::alloc::Global;
use std::marker::Model;

/// Places in their order, as a balanced tree that knows of each side when one of it may first be due.
#[cycle(tree)]
#[derive(Drop)]
pub(crate) struct Tree {
    node: Node,
}

#[cycle(tree)]
#[derive(Drop)]
enum Node {
    Empty,
    Leaf(Row),
    /// How many places are on the low side, the two sides, and a moment before which none of all is due.
    Fork(usize, Box<Tree>, Box<Tree>, u64),
}

impl Model for Tree {
    ghost use Rattle.std.specs.Prelude.{List, length};
    ghost use Rattle.io_workers.specs.declared.rows.Row.{Row};

    ghost Value = { List Row };

    ghost use Rattle.io_workers.specs.Tree.{rows_of, IsNode};

    ghost view = { λ t. rows_of t.node };

    ghost invariant = { λ t. IsNode t.node };

    ghost size = { length };

    ghost use Rattle.io_workers.specs.TreeFalls.{depth_le-length-rows};

    ghost size_decreases = { λ t h. depth_le-length-rows t.node h };
}

impl Tree {
    /// Places that wait so long, without connections, with their first connections numbered from `first` on.
    pub(crate) fn of(alloc: Global, first: u64, retries: &[u32]) -> Result<Tree, NoMemory>
        requires { first + length retries.now < 2 ^ 64 }
        ensures { IfOk result (λ tree. tree ≡ fresh first retries.now) }
    {
        match retries {
            [] => Ok(Tree { node: Node::Empty }),
            [retry] => Ok(Tree {
                node: Node::Leaf(Row::new(first, *retry)),
            }),
            _ => {
                let count = retries.len() / 2;
                let (low, high) = retries.split_at(count);
                let low = Tree::of(alloc, first, low)?;
                let high = Tree::of(alloc, first + count as u64, high)?;
                Tree::fork(alloc, count, low, high)
            }
        }
    }

    /// The places of two sides together.
    fn fork(alloc: Global, count: usize, low: Tree, high: Tree) -> Result<Tree, NoMemory>
        requires count { count ≡ length low }
        requires low { 1 ≤ length low }
        requires high { 1 ≤ length high }
        ensures { IfOk result (λ tree. tree ≡ low ++ high) }
    {
        let earliest = low.earliest().min(high.earliest());
        let low = Box::new(alloc, low)?;
        let high = Box::new(alloc, high)?;
        Ok(Tree {
            node: Node::Fork(count, low, high, earliest),
        })
    }

    /// A moment before which none of the places is due.
    fn earliest(&self) -> u64
        ensures { result ≡ earliest self.now }
    {
        match &self.node {
            Node::Empty => u64::MAX,
            Node::Leaf(row) => row.opens(),
            Node::Fork(_, _, _, earliest) => *earliest,
        }
    }

    /// The connection to link next at the lowest place that is due at a moment.
    pub(crate) fn due(&self, now: u64) -> Option<u32>
        ensures { result ≡ due now self.now }
    {
        match &self.node {
            Node::Empty => None,
            Node::Leaf(row) => row.next(now),
            Node::Fork(_, low, high, earliest) => {
                if now < *earliest {
                    return None;
                }
                match low.due(now) {
                    Some(conn) => Some(conn),
                    None => high.due(now),
                }
            }
        }
    }

    /// What is known of the place at an index.
    pub(crate) fn get(&self, i: usize) -> Option<Row>
        ensures { result ≡ slice_get self.now i }
    {
        match &self.node {
            Node::Empty => None,
            Node::Leaf(row) => { if i == 0 { Some(*row) } else { None } }
            Node::Fork(count, low, high, _) => {
                if i < *count {
                    low.get(i)
                } else {
                    high.get(i - *count)
                }
            }
        }
    }

    /// Puts what is known of a place at its index.
    pub(crate) fn set(&mut self, i: usize, row: Row)
        ensures { self.new ≡ slice_set self.old i row }
    {
        match &mut self.node {
            Node::Empty => {}
            Node::Leaf(old) => {
                if i == 0 {
                    *old = row;
                }
            }
            Node::Fork(count, low, high, earliest) => {
                if i < *count {
                    low.set(i, row);
                    *earliest = low.earliest().min(high.earliest());
                } else {
                    high.set(i - *count, row);
                    *earliest = low.earliest().min(high.earliest());
                }
            }
        }
    }
}

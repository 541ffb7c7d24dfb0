ghost use Rattle.std.specs.Prelude.{◌≡◌, ◌≤◌, ◌++◌, ◌∷◌, [], length, slice_get, OnOk, OnErr, MatchOption};

use lload_names::NoMemory;
use std::alloc::Global;
use std::collections::VecDeque;
use std::marker::Model;

/// A list of items of one type that is given to an object in memory, which takes them in order. Contracts see it as the
/// list of its items.
#[derive(Debug, Drop)]
pub struct Queue<T> {
    values: Vec<T>,
}

impl<T> Model for Queue<T> {
    ghost use Rattle.std.specs.Prelude.{List};

    ghost Value = { List T };

    ghost view = { λ q. q.values.items };
}

impl<T> Queue<T> {
    /// The empty list. It takes no memory; `alloc` serves later growth.
    pub fn new(alloc: Global) -> Queue<T>
        ensures { result ≡ [] }
    {
        Queue {
            values: Vec::new(alloc),
        }
    }

    /// How many items there are.
    pub fn len(&self) -> usize
        ensures { result ≡ length self.now }
    {
        self.values.len()
    }

    /// The item at an index, counted from 0; `None` exactly where the index isn't below the length.
    pub fn get(&self, i: usize) -> Option<&T>
        ensures { MatchOption result (length self.now ≤ i) (λ item. slice_get self.now i ≡ Some item.now) }
    {
        self.values.get(i)
    }

    /// The items as a slice.
    pub fn as_slice(&self) -> &[T]
        ensures { result.now ≡ self.now }
    {
        self.values.as_slice()
    }

    /// The items, to be taken from the front. It takes no memory.
    pub(crate) fn into_deque(self) -> VecDeque<T>
        ensures { result.items ≡ self }
    {
        let Queue { values } = self;
        VecDeque::from(values)
    }
}

impl<T: Drop> Queue<T> {
    /// Appends an item. For want of memory the list stays as it was.
    pub fn push(&mut self, item: T) -> Result<(), NoMemory>
        ensures ok { OnOk result (self.new ≡ self.old ++ item ∷ []) }
        ensures err { OnErr result (self.new ≡ self.old) }
    {
        self.values.push(item)?;
        Ok(())
    }
}

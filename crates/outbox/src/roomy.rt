ghost use Rattle.std.specs.Prelude.{◌≡◌, ◌<◌, ◌≤◌, ◌+◌, ◌++◌, ◌∷◌, [], length, OnOk};

use lload_names::NoMemory;
use std::alloc::Global;
use std::marker::Model;

/// A list with room. Contracts see its items, and how many more it takes without memory.
#[derive(Debug, Drop)]
pub struct Roomy<T> {
    values: Vec<T>,
}

impl<T> Model for Roomy<T> {
    ghost use Rattle.std.specs.Prelude.{◌-◌};
    ghost use Rattle.std.specs.Vec.{vec_len, vec_capacity};
    ghost use Rattle.outbox.specs.Room.{Room};

    ghost Value = { Room T };

    ghost view = { λ l. record { items = l.values.items; spare = vec_capacity l.values - vec_len l.values } };
}

impl<T> Roomy<T> {
    /// No items, and no room. It takes no memory; `alloc` serves later growth.
    pub fn new(alloc: Global) -> Roomy<T>
        ensures { result.items ≡ [] }
    {
        Roomy {
            values: Vec::new(alloc),
        }
    }

    /// How many items there are.
    pub fn len(&self) -> usize
        ensures { result ≡ length self.now.items }
    {
        self.values.len()
    }

    /// The items as a slice, in their order.
    pub fn as_slice(&self) -> &[T]
        ensures { result.now ≡ self.now.items }
    {
        self.values.as_slice()
    }

    /// The vector of the items, for which the list is given up. It takes no memory.
    pub fn into_vec(self) -> Vec<T>
        ensures { result.items ≡ self.items }
    {
        let Roomy { values } = self;
        values
    }

    /// Makes room for so many more items. For want of memory the items stay as they were.
    pub fn reserve(&mut self, more: usize) -> Result<(), NoMemory>
        ensures items { self.new.items ≡ self.old.items }
        ensures spare { OnOk result (more ≤ self.new.spare) }
        ensures kept { self.old.spare ≤ self.new.spare }
    {
        self.values.reserve(more)?;
        Ok(())
    }

    /// Appends an item, for which there is room. It takes no memory.
    pub fn put(&mut self, item: T)
        requires { 0 < self.old.spare }
        ensures items { self.new.items ≡ self.old.items ++ item ∷ [] }
        ensures spare { self.new.spare + 1 ≡ self.old.spare }
    {
        self.values.push_reserved(item);
    }
}

impl<T: Drop> Roomy<T> {
    /// Drops all items and keeps their room.
    pub fn clear(&mut self)
        ensures items { self.new.items ≡ [] }
        ensures kept { self.old.spare + length self.old.items ≤ self.new.spare }
    {
        self.values.clear();
    }
}

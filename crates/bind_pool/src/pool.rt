ghost use Rattle.std.specs.Prelude.{◌≡◌, ℕ, [], Option, Some, None, Ok, true, false, OnOk, OnErr, IfOk, IsSome, is_none};
ghost use Rattle.std.specs.Option.{ForSome};
ghost use Rattle.std.specs.Prelude.{◌≤◌};
ghost use Rattle.bind_pool.specs.Holders.{holder_of, taken, without, holds, OthersStay, Rises};

use lload_names::{NoMemory, OpName};
use std::alloc::Global;
use std::collections::{BTreeMap, BTreeSet};
use std::marker::Model;

/// The pairs of a bind connection and the operation that holds it, by rising connection, with an index by operation.
#[derive(Drop)]
pub struct BindPool {
    holders: BTreeMap<u32, OpName>,
    conns: BTreeSet<(OpName, u32)>,
}

impl Model for BindPool {
    ghost use Rattle.std.specs.Prelude.{ℕ, List};
    ghost use Rattle.lload_names.specs.declared.names.OpName.{OpName};

    ghost Value = { List (ℕ × OpName) };

    ghost use Rattle.bind_pool.specs.Holders.{Rises, Indexes};

    ghost view = { λ p. p.holders.entries };

    ghost invariant = { λ p. Rises p.holders.entries × Indexes p.conns p.holders.entries };
}

impl BindPool {
    /// A pool where no connection has a holder. It takes no memory; `alloc` serves later growth.
    pub fn new(alloc: Global) -> BindPool
        ensures { result ≡ [] }
    {
        BindPool {
            holders: BTreeMap::new(alloc),
            conns: BTreeSet::new(alloc),
        }
    }

    /// Makes an operation the holder of a connection; `Ok(false)` exactly where it has a holder, and then nothing
    /// changes and no memory is wanted. For want of memory nothing changes.
    pub fn take(&mut self, conn: u32, op: OpName) -> Result<bool, NoMemory>
        ensures answer { IfOk result (λ taken. taken ≡ is_none (holder_of conn self.old)) }
        ensures taken { result ≡ Ok true → self.new ≡ taken conn op self.old }
        ensures held { result ≡ Ok false → self.new ≡ self.old }
        ensures no_memory { IsSome (holder_of conn self.old) → result ≡ Ok false }
        ensures holder { result ≡ Ok true → holder_of conn self.new ≡ Some op }
        ensures others { OthersStay conn self.old self.new }
        ensures err { OnErr result (self.new ≡ self.old) }
        ensures rises { Rises self.new }
    {
        if self.holders.contains_key(&conn) {
            return Ok(false);
        }
        self.conns.insert((op, conn))?;
        if self.holders.insert(conn, op).is_err() {
            self.conns.remove(&(op, conn));
            return Err(NoMemory);
        }
        Ok(true)
    }

    /// Frees a connection from its holder; `false` exactly where that operation isn't its holder, and then nothing
    /// changes. It takes no memory.
    pub fn give(&mut self, conn: u32, op: OpName) -> bool
        ensures answer { result ≡ holds op (holder_of conn self.old) }
        ensures given { result ≡ true → self.new ≡ without conn self.old }
        ensures freed { result ≡ true → holder_of conn self.new ≡ None }
        ensures held { result ≡ false → self.new ≡ self.old }
        ensures others { OthersStay conn self.old self.new }
        ensures rises { Rises self.new }
    {
        if self.holder(conn) != Some(op) {
            return false;
        }
        self.holders.remove(&conn);
        self.conns.remove(&(op, conn));
        true
    }

    /// The operation that holds a connection; `None` exactly where none does. It takes no memory.
    pub fn holder(&self, conn: u32) -> Option<OpName>
        ensures holder { result ≡ holder_of conn self.now }
        ensures rises { Rises self.now }
    {
        self.holders.get(&conn).copied()
    }

    /// The connection that an operation holds, the lowest where it holds several; `None` exactly where it holds none. It
    /// takes no memory.
    pub fn held_by(&self, op: OpName) -> Option<u32>
        ensures held { ForSome result (λ conn. holds op (holder_of conn self.now) ≡ true) }
        ensures lowest { ForSome result (λ conn. (c : ℕ) → holds op (holder_of c self.now) ≡ true → conn ≤ c) }
        ensures none { result ≡ None → (c : ℕ) → holds op (holder_of c self.now) ≡ false }
    {
        let (found, conn) = self.conns.range((op, 0)..).next()?;
        if *found == op { Some(*conn) } else { None }
    }
}

ghost use Rattle.std.specs.Prelude.{◌≡◌, ◌≤◌, ◌+◌, ◌&&◌, ◌==◌, ℕ, OnErr, Ok, true, false, None};
ghost use Rattle.std.specs.Option.{ForSome};
ghost use Rattle.lload_names.specs.Same.{same_op};
ghost use Rattle.lload_names.specs.declared.names.OpName.{OpName};
ghost use Rattle.lload_names.specs.declared.names.ConnKind.TheVariants.{Bind};

use bind_pool::BindPool;
use lload_names::{ConnKind, NoMemory, OpName};
use std::alloc::Global;
use std::collections::BTreeMap;

/// The pending operations with their connections: those on bind connections are the holders of these.
#[derive(Drop)]
pub struct Pending {
    regular: BTreeMap<OpName, u32>,
    holders: BindPool,
}

impl Pending {
    ghost use Rattle.desk_tables.specs.Pending.{times, one, SomeHolder};

    /// None is pending. It takes no memory; `alloc` serves later growth.
    pub fn new(alloc: Global) -> Pending
        ensures { (op : OpName) (n : ℕ) → times result op n ≡ 0 }
    {
        Pending {
            regular: BTreeMap::new(alloc),
            holders: BindPool::new(alloc),
        }
    }

    /// An operation that isn't pending becomes so on a connection of a kind. `Ok(false)` exactly where a bind connection has
    /// a holder. Then, and for want of memory, nothing changes.
    pub fn put(&mut self, op: OpName, conn: u32, kind: ConnKind) -> Result<bool, NoMemory>
        ensures put { result ≡ Ok true → ((n : ℕ) → times self.old op n ≡ 0) → (o : OpName) (n : ℕ) → times self.new o n ≡ times self.old o n + one (same_op op o && conn == n) }
        ensures held { result ≡ Ok false → SomeHolder conn self.old }
        ensures kind { result ≡ Ok false → kind ≡ Bind }
        ensures same { result ≡ Ok false → (o : OpName) (n : ℕ) → times self.new o n ≡ times self.old o n }
        ensures err { OnErr result ((o : OpName) (n : ℕ) → times self.new o n ≡ times self.old o n) }
    {
        match kind {
            ConnKind::Regular => {
                self.regular.insert(op, conn)?;
                Ok(true)
            }
            ConnKind::Bind => self.holders.take(conn, op),
        }
    }

    /// An operation isn't pending any more; its connection, where it was. It takes no memory.
    pub fn take(&mut self, op: OpName) -> Option<u32>
        ensures taken { ForSome result (λ conn. (n : ℕ) → times self.new op n + one (conn == n) ≡ times self.old op n) }
        ensures none { result ≡ None → (n : ℕ) → times self.old op n ≡ 0 }
        ensures same { result ≡ None → (n : ℕ) → times self.new op n ≡ 0 }
        ensures others { (o : OpName) (n : ℕ) → same_op op o ≡ false → times self.new o n ≡ times self.old o n }
    {
        if let Some(conn) = self.regular.remove(&op) {
            return Some(conn);
        }
        let conn = self.holders.held_by(op)?;
        self.holders.give(conn, op);
        Some(conn)
    }
}

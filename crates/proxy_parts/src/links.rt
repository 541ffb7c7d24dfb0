ghost use Rattle.std.specs.Prelude.{◌≡◌, ◌≢◌, ◌≤◌, ◌<◌, ◌^◌, ◌+◌, ℕ, None, true, OnOk, OnErr, IfOk};
ghost use Rattle.std.specs.Option.{option_copied};
ghost use Rattle.lload_names.specs.declared.inputs.Input.{Input};
ghost use Rattle.lload_names.specs.declared.inputs.Input.TheVariants.{LinkUp};
ghost use Rattle.lload_spec.specs.Settings.{Settings};
ghost use Rattle.part_spec.specs.Inputs.{marked_by};
ghost use Rattle.part_spec.specs.ConnectionState.{ConnectionState, step_connections};
ghost use Rattle.part_spec.specs.Turn.{connection_sever};
ghost use Rattle.proxy_parts.specs.Connections.{connection_part, may_end, ends_left, ConnectionIs, IsSameConnection, IsUnplaced, Took};
ghost use Rattle.proxy_parts.specs.States.{IsMade, MayTake};
ghost use Rattle.conn_core.specs.Turned.{IsSame};
ghost use Rattle.proxy_parts.specs.Room.{lists_of};

use crate::connection::Connection;
use crate::connections::Connections;
use conn_core::{OwnBindBytes, UpSettings};
use lload_names::{ConnKind, EndWhy, Input, NoMemory};
use outbox::Outbox;
use std::alloc::Global;
use std::collections::{BTreeMap, BTreeSet};

impl Connections {
    /// No connection was linked yet. It takes no memory; `alloc` serves later growth.
    pub fn new(alloc: Global, settings: UpSettings) -> Connections
        requires least { 2 ≤ settings.id_limit }
        requires most { settings.id_limit ≤ 1073741823 }
        ensures parts { (u : ℕ) → connection_part result u ≡ None }
        ensures ends { ends_left result ≡ 0 }
        ensures settings { result.settings ≡ settings }
    {
        Connections {
            parts: BTreeMap::new(alloc),
            standing: BTreeSet::new(alloc),
            settings,
            alloc,
        }
    }

    /// The part of a connection, where it was linked. It takes no memory.
    pub fn part(&self, conn: u32) -> Option<&Connection>
        ensures { option_copied result ≡ connection_part self.now conn }
    {
        self.parts.get(&conn)
    }

    /// Of how many connections the end of the link may still give something. It takes no memory.
    pub fn ends_left(&self) -> usize
        ensures ends { result ≡ ends_left self.now }
        ensures small { result < 2 ^ 63 }
    {
        self.standing.len()
    }

    /// The link of a connection of this kind comes up, and what its rule makes is appended: a part comes with the first link.
    /// For want of memory nothing is appended, and each connection stands for what it stood for.
    pub fn link(
        &mut self,
        conn: u32,
        kind: ConnKind,
        now: u64,
        out: &mut Outbox,
    ) -> Result<(), NoMemory>
        ensures took { OnOk result ((s : Settings) (p : ConnectionState) → IsMade s conn kind self.old.settings → ConnectionIs s conn p self.old → Took s conn p (LinkUp now) out.old out.new self.new) }
        ensures out { OnErr result (IsSame out.old out.new) }
        ensures err { OnErr result ((s : Settings) (p : ConnectionState) → ConnectionIs s conn p self.old → ConnectionIs s conn p self.new) }
        ensures part { OnErr result (connection_part self.new conn ≡ connection_part self.old conn) }
        ensures others { (u : ℕ) → u ≢ conn → IsSameConnection u self.old self.new }
        ensures ends { ends_left self.new ≤ ends_left self.old + 1 }
        ensures settings { self.new.settings ≡ self.old.settings }
    {
        let is_new = !self.parts.contains_key(&conn);
        self.admit(conn, kind)?;
        if self.step(conn, Input::LinkUp { now }, out).is_err() {
            if is_new {
                self.forget(conn);
            }
            return Err(NoMemory);
        }
        Ok(())
    }

    /// A part for a connection that has none, of this kind, whose end may give something. For want of memory no part changes.
    fn admit(&mut self, conn: u32, kind: ConnKind) -> Result<(), NoMemory>
        ensures made { OnOk result ((s : Settings) (p : ConnectionState) → IsMade s conn kind self.old.settings → ConnectionIs s conn p self.old → ConnectionIs s conn p self.new) }
        ensures here { OnOk result (connection_part self.new conn ≢ None) }
        ensures kept { connection_part self.old conn ≢ None → connection_part self.new conn ≡ connection_part self.old conn }
        ensures err { OnErr result (connection_part self.new conn ≡ connection_part self.old conn) }
        ensures may_end { may_end self.old conn ≡ true → may_end self.new conn ≡ true }
        ensures others { (u : ℕ) → u ≢ conn → IsSameConnection u self.old self.new }
        ensures ends { ends_left self.new ≤ ends_left self.old + 1 }
        ensures settings { self.new.settings ≡ self.old.settings }
    {
        self.standing.insert(conn)?;
        if self.parts.contains_key(&conn) {
            return Ok(());
        }
        let settings = copied(&self.settings)?;
        let part = Connection::new(self.alloc, conn, kind, settings)?;
        self.parts.insert(conn, part)?;
        Ok(())
    }

    /// The part of a connection goes. It takes no memory.
    fn forget(&mut self, conn: u32)
        ensures here { connection_part self.new conn ≡ None }
        ensures others { (u : ℕ) → u ≢ conn → connection_part self.new u ≡ connection_part self.old u }
        ensures standing { self.new.standing ≡ self.old.standing }
        ensures settings { self.new.settings ≡ self.old.settings }
    {
        self.parts.remove(&conn);
    }

    /// A connection takes an input, and what its rule makes is appended; one without a part gives nothing, where it has no
    /// place or its link doesn't come up. For want of memory nothing changes.
    pub fn step(&mut self, conn: u32, input: Input, out: &mut Outbox) -> Result<(), NoMemory>
        ensures took { OnOk result ((s : Settings) (p : ConnectionState) → ConnectionIs s conn p self.old → IsUnplaced s conn input (connection_part self.old conn) → MayTake p input → Took s conn p input out.old out.new self.new) }
        ensures out { OnErr result (IsSame out.old out.new) }
        ensures err { OnErr result (IsSameConnection conn self.old self.new) }
        ensures others { (u : ℕ) → u ≢ conn → IsSameConnection u self.old self.new }
        ensures none { connection_part self.old conn ≡ None → IsSame out.old out.new }
        ensures absent { connection_part self.old conn ≡ None → connection_part self.new conn ≡ None }
        ensures ends { ends_left self.new ≡ ends_left self.old }
        ensures settings { self.new.settings ≡ self.old.settings }
    {
        match self.parts.get_mut(&conn) {
            Some(part) => part.step(input, out),
            None => Ok(()),
        }
    }

    /// A connection's link ends, for a reason that a link has: what its end gives, which is nothing where the connection
    /// isn't there. It takes no memory.
    pub fn sever(&mut self, conn: u32, now: u64, why: EndWhy) -> Outbox
        ensures entries { (s : Settings) (p : ConnectionState) → ConnectionIs s conn p self.old → result.entries.items ≡ (connection_sever p now why).entries }
        ensures letters { (s : Settings) (p : ConnectionState) → ConnectionIs s conn p self.old → result.letters.items ≡ (connection_sever p now why).letters }
        ensures stands { (s : Settings) (p : ConnectionState) → ConnectionIs s conn p self.old → ConnectionIs s conn (step_connections s p (marked_by None (connection_sever p now why).entries)) self.new }
        ensures others { (u : ℕ) → u ≢ conn → IsSameConnection u self.old self.new }
        ensures absent { connection_part self.old conn ≡ None → connection_part self.new conn ≡ None }
        ensures ends { ends_left self.new + lists_of result.letters.items ≤ ends_left self.old }
        ensures settings { self.new.settings ≡ self.old.settings }
    {
        if !self.standing.contains(&conn) {
            return Outbox::new(self.alloc);
        }
        let Some(part) = self.parts.get_mut(&conn) else {
            return Outbox::new(self.alloc);
        };
        let out = part.sever(now, why);
        if part.ended() || out.letters.len() > 0 {
            self.standing.remove(&conn);
        }
        out
    }
}

/// A copy of what connections' parts are made of. For want of memory nothing is made.
fn copied(settings: &UpSettings) -> Result<UpSettings, NoMemory>
    ensures { IfOk result (λ copy. copy ≡ settings.now) }
{
    let own_bind = copied_bind(&settings.own_bind)?;
    Ok(UpSettings {
        own_bind,
        timeout: settings.timeout,
        id_limit: settings.id_limit,
    })
}

/// A copy of the own Bind's request, where there is one.
fn copied_bind(own: &Option<OwnBindBytes>) -> Result<Option<OwnBindBytes>, NoMemory>
    ensures { IfOk result (λ copy. copy ≡ own.now) }
{
    match own {
        None => Ok(None),
        Some(own) => {
            let rest = own.rest.copy()?;
            Ok(Some(OwnBindBytes { rest }))
        }
    }
}

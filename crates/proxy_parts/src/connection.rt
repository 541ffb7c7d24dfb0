ghost use Rattle.std.specs.Prelude.{◌≡◌, ◌≤◌, ℕ, None, IfOk, OnOk, OnErr};
ghost use Rattle.lload_names.specs.declared.inputs.Input.{Input};
ghost use Rattle.lload_names.specs.declared.names.EndWhy.{EndWhy};
ghost use Rattle.lload_spec.specs.Settings.{Settings};
ghost use Rattle.part_spec.specs.Inputs.{marked_by};
ghost use Rattle.part_spec.specs.ConnectionState.{ConnectionState, empty_connection, is_holding, step_connections};
ghost use Rattle.part_spec.specs.Turn.{connection_turn, connection_sever};
ghost use Rattle.proxy_parts.specs.States.{Stands, IsMade, MayTake};
ghost use Rattle.conn_core.specs.Turned.{Turned, IsSame};

use bind_conn::BindPart;
use conn_core::UpSettings;
use lload_names::{ConnKind, EndWhy, Input, NoMemory};
use outbox::Outbox;
use std::alloc::Global;
use upstream_conn::UpstreamPart;

/// The part of an upstream connection: a regular one, or one for Binds.
#[derive(Drop)]
pub enum Connection {
    Regular(UpstreamPart),
    Bind(BindPart),
}

impl Connection {
    /// The part of a connection that isn't linked yet.
    pub fn new(
        alloc: Global,
        number: u32,
        kind: ConnKind,
        settings: UpSettings,
    ) -> Result<Connection, NoMemory>
        requires least { 2 ≤ settings.id_limit }
        requires most { settings.id_limit ≤ 1073741823 }
        ensures { IfOk result (λ c. (s : Settings) → IsMade s number kind settings → Stands s (empty_connection s number) c) }
    {
        match kind {
            ConnKind::Regular => {
                let part = UpstreamPart::new(alloc, number, settings)?;
                Ok(Connection::Regular(part))
            }
            ConnKind::Bind => {
                let part = BindPart::new(alloc, number, settings)?;
                Ok(Connection::Bind(part))
            }
        }
    }

    /// Takes an input, and appends what its rule makes: entries of the connection's list, and letters to other parts. An
    /// input without a rule leaves the part as it was and gives nothing. A Forward is one that the part may take: the
    /// connection is up; of a regular one, the operation is no Bind and isn't live; of one for Binds, it is a Bind, and
    /// none is live. For want of memory nothing changes.
    pub fn step(&mut self, input: Input, out: &mut Outbox) -> Result<(), NoMemory>
        ensures turned { OnOk result ((s : Settings) (p : ConnectionState) → Stands s p self.old → MayTake p input → Turned s p input out.old out.new (λ q. Stands s q self.new)) }
        ensures out { OnErr result (IsSame out.old out.new) }
        ensures err { OnErr result (self.new ≡ self.old) }
    {
        match self {
            Connection::Regular(part) => part.step(input, out)?,
            Connection::Bind(part) => part.step(input, out)?,
        }
        Ok(())
    }

    /// The link ends, for a reason that a link has: what the end gives, which is nothing where the connection isn't there.
    /// It takes no memory.
    pub fn sever(&mut self, now: u64, why: EndWhy) -> Outbox
        ensures entries { (s : Settings) (p : ConnectionState) → Stands s p self.old → result.entries.items ≡ (connection_sever p now why).entries }
        ensures letters { (s : Settings) (p : ConnectionState) → Stands s p self.old → result.letters.items ≡ (connection_sever p now why).letters }
        ensures stands { (s : Settings) (p : ConnectionState) → Stands s p self.old → Stands s (step_connections s p (marked_by None (connection_sever p now why).entries)) self.new }
    {
        match self {
            Connection::Regular(part) => part.sever(now, why),
            Connection::Bind(part) => part.sever(now, why),
        }
    }

    /// Whether it has ended. It takes no memory.
    pub fn ended(&self) -> bool
        ensures { (s : Settings) (p : ConnectionState) → Stands s p self.now → result ≡ p.down }
    {
        match self {
            Connection::Regular(part) => part.ended(),
            Connection::Bind(part) => part.ended(),
        }
    }

    /// Whether no message may be handed to it yet, since a client doesn't read. It takes no memory.
    pub fn holds(&self) -> bool
        ensures { (s : Settings) (p : ConnectionState) → Stands s p self.now → result ≡ is_holding p }
    {
        match self {
            Connection::Regular(part) => part.holds(),
            Connection::Bind(_) => false,
        }
    }
}

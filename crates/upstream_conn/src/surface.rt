ghost use Rattle.std.specs.Prelude.{◌≡◌, ◌≤◌, ◌*◌, ◌++◌, None, IfOk};
ghost use Rattle.lload_spec.specs.Settings.{Settings};
ghost use Rattle.upstream_conn.specs.Part.{request_of};

use crate::part::UpstreamPart;
use crate::waiting::Waiting;
use conn_core::{ConnCore, OwnBindBytes, UpSettings};
use lload_names::{Body, ConnKind, EndWhy, NoMemory};
use outbox::Outbox;
use std::alloc::Global;

/// The request of an own Bind, where there is one.
fn request_of(own: Option<OwnBindBytes>) -> Option<Body>
    ensures { result ≡ request_of own }
{
    match own {
        None => None,
        Some(own) => Some(own.rest),
    }
}

impl UpstreamPart {
    ghost use Rattle.part_spec.specs.Inputs.{marked_by};
    ghost use Rattle.part_spec.specs.ConnectionState.{ConnectionState, empty_connection, is_holding, step_connections};
    ghost use Rattle.std.specs.Prelude.{ℕ};
    ghost use Rattle.lload_names.specs.declared.inputs.Input.{Input};
    ghost use Rattle.lload_names.specs.declared.names.EndWhy.{EndWhy};
    ghost use Rattle.part_spec.specs.Turn.{connection_turn, connection_sever};
    ghost use Rattle.conn_core.specs.Most.{IsWithin};
    ghost use Rattle.conn_core.specs.Turned.{behind};
    ghost use Rattle.upstream_conn.specs.Most.{most_of};
    ghost use Rattle.upstream_conn.specs.Part.{Stands, IsMade};

    /// The part of a connection that isn't linked yet.
    pub fn new(alloc: Global, number: u32, settings: UpSettings) -> Result<UpstreamPart, NoMemory>
        requires least { 2 ≤ settings.id_limit }
        requires most { settings.id_limit ≤ 1073741823 }
        ensures { IfOk result (λ u. (s : Settings) → IsMade s number settings → Stands s (empty_connection s number) u) }
    {
        let UpSettings {
            own_bind,
            timeout,
            id_limit,
        } = settings;
        let core = ConnCore::new(alloc, number, ConnKind::Regular, id_limit, timeout)?;
        Ok(UpstreamPart {
            core,
            own_bind: request_of(own_bind),
            own: None,
            waiting: Waiting::new(alloc),
            alloc,
        })
    }

    /// Whether it has ended. It takes no memory.
    pub fn ended(&self) -> bool
        ensures { (s : Settings) (p : ConnectionState) → Stands s p self.now → result ≡ p.down }
    {
        self.core.is_down()
    }

    /// Whether no message may be handed to it yet, since a client doesn't read. It takes no memory.
    pub fn holds(&self) -> bool
        ensures { (s : Settings) (p : ConnectionState) → Stands s p self.now → result ≡ is_holding p }
    {
        if self.core.is_down() {
            return false;
        }
        self.waiting.is_any()
    }

    /// The link ends, for a reason that a link has: what the end gives, which is nothing where the connection isn't there.
    /// It takes no memory.
    pub fn sever(&mut self, now: u64, why: EndWhy) -> Outbox
        ensures entries { (s : Settings) (p : ConnectionState) → Stands s p self.old → result.entries.items ≡ (connection_sever p now why).entries }
        ensures letters { (s : Settings) (p : ConnectionState) → Stands s p self.old → result.letters.items ≡ (connection_sever p now why).letters }
        ensures stands { (s : Settings) (p : ConnectionState) → Stands s p self.old → Stands s (step_connections s p (marked_by None (connection_sever p now why).entries)) self.new }
    {
        if !self.core.is_linked() {
            return Outbox::new(self.alloc);
        }
        if self.core.is_down() {
            return Outbox::new(self.alloc);
        }
        let at = self.core.moment_for(now);
        self.core.sever(at, why, None)
    }

    /// How many entries, and how many letters, a step or the end of the link gives now at most. A step doubles it at most.
    /// It takes no memory.
    pub fn most(&self) -> u64
        ensures most { (s : Settings) (p : ConnectionState) → Stands s p self.now → result ≡ most_of p }
        ensures step { (s : Settings) (p : ConnectionState) (input : Input) → Stands s p self.now → IsWithin result (connection_turn s p input) }
        ensures doubles { (s : Settings) (p : ConnectionState) (input : Input) → Stands s p self.now → most_of (behind s p input) ≤ 2 * result }
        ensures sever { (s : Settings) (p : ConnectionState) (now : ℕ) (why : EndWhy) → Stands s p self.now → IsWithin result (connection_sever p now why) }
    {
        3 * self.core.len() as u64 + 4
    }
}

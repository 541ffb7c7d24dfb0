ghost use Rattle.std.specs.Prelude.{◌≡◌, ◌≤◌, ◌*◌, None, IfOk};
ghost use Rattle.lload_spec.specs.Settings.{Settings};

use crate::part::BindPart;
use conn_core::{ConnCore, UpSettings};
use lload_names::{ConnKind, EndWhy, NoMemory};
use outbox::Outbox;
use std::alloc::Global;

impl BindPart {
    ghost use Rattle.std.specs.Prelude.{ℕ};
    ghost use Rattle.lload_names.specs.declared.inputs.Input.{Input};
    ghost use Rattle.lload_names.specs.declared.names.EndWhy.{EndWhy};
    ghost use Rattle.part_spec.specs.Inputs.{marked_by};
    ghost use Rattle.part_spec.specs.ConnectionState.{ConnectionState, empty_connection, step_connections};
    ghost use Rattle.part_spec.specs.Turn.{connection_turn, connection_sever};
    ghost use Rattle.conn_core.specs.Most.{IsWithin};
    ghost use Rattle.conn_core.specs.Turned.{behind};
    ghost use Rattle.bind_conn.specs.Most.{most_of};
    ghost use Rattle.bind_conn.specs.Part.{Stands, IsMade};

    /// The part of a connection that isn't linked yet. It has no own Bind, whatever the settings say.
    pub fn new(alloc: Global, number: u32, settings: UpSettings) -> Result<BindPart, NoMemory>
        requires least { 2 ≤ settings.id_limit }
        requires most { settings.id_limit ≤ 1073741823 }
        ensures { IfOk result (λ b. (s : Settings) → IsMade s number settings → Stands s (empty_connection s number) b) }
    {
        let core = ConnCore::new(
            alloc,
            number,
            ConnKind::Bind,
            settings.id_limit,
            settings.timeout,
        )?;
        Ok(BindPart {
            core,
            holder: None,
            lost: None,
            alloc,
        })
    }

    /// Whether it has ended. It takes no memory.
    pub fn ended(&self) -> bool
        ensures { (s : Settings) (p : ConnectionState) → Stands s p self.now → result ≡ p.down }
    {
        self.core.is_down()
    }

    /// The link ends, for a reason that a link has: what the end gives, which is nothing where the connection isn't there.
    /// It takes no memory.
    pub fn sever(&mut self, now: u64, why: EndWhy) -> Outbox
        ensures entries { (s : Settings) (p : ConnectionState) → Stands s p self.old → result.entries.items ≡ (connection_sever p now why).entries }
        ensures letters { (s : Settings) (p : ConnectionState) → Stands s p self.old → result.letters.items ≡ (connection_sever p now why).letters }
        ensures stands { (s : Settings) (p : ConnectionState) → Stands s p self.old → Stands s (step_connections s p (marked_by None (connection_sever p now why).entries)) self.new }
    {
        if !self.core.is_linked() {
            return Outbox::new(self.alloc);
        }
        if self.core.is_down() {
            return Outbox::new(self.alloc);
        }
        let at = self.core.moment_for(now);
        let holder = self.holder;
        self.lost = holder;
        self.holder = None;
        self.core.sever(at, why, holder)
    }

    /// How many entries, and how many letters, a step or the end of the link gives now at most. A step doubles it at most.
    /// It takes no memory.
    pub fn most(&self) -> u64
        ensures most { (s : Settings) (p : ConnectionState) → Stands s p self.now → result ≡ most_of p }
        ensures step { (s : Settings) (p : ConnectionState) (input : Input) → Stands s p self.now → IsWithin result (connection_turn s p input) }
        ensures doubles { (s : Settings) (p : ConnectionState) (input : Input) → Stands s p self.now → most_of (behind s p input) ≤ 2 * result }
        ensures sever { (s : Settings) (p : ConnectionState) (now : ℕ) (why : EndWhy) → Stands s p self.now → IsWithin result (connection_sever p now why) }
    {
        2 * self.core.len() as u64 + 4
    }
}

ghost use Rattle.std.specs.Prelude.{◌≡◌, ◌≢◌, ◌≤◌, ◌<◌, ◌^◌, ◌+◌, ℕ, None, true, OnOk, OnErr, IfOk};
ghost use Rattle.std.specs.Option.{option_copied};
ghost use Rattle.lload_names.specs.declared.inputs.Input.{Input};
ghost use Rattle.lload_spec.specs.Settings.{Settings};
ghost use Rattle.part_spec.specs.Inputs.{marked_by};
ghost use Rattle.part_spec.specs.ClientState.{ClientState, step_clients};
ghost use Rattle.part_spec.specs.ClientTurn.{client_sever};
ghost use Rattle.client_session.specs.Checks.{Agrees};
ghost use Rattle.proxy_parts.specs.Clients.{client_part, may_end, ends_left, ClientIs, IsSameClient, MayTake, Took};
ghost use Rattle.conn_core.specs.Turned.{IsSame};
ghost use Rattle.proxy_parts.specs.Room.{lists_of};

use client_session::{ClientPart, ClientSettings};
use lload_names::{Body, EndWhy, Input, NoMemory};
use outbox::Outbox;
use std::alloc::Global;
use std::collections::{BTreeMap, BTreeSet};

/// The parts of all clients that came, by number; those whose link wasn't ended from outside; and the settings of which
/// each is made.
#[derive(Drop)]
pub struct Clients {
    parts: BTreeMap<u32, ClientPart>,
    standing: BTreeSet<u32>,
    settings: ClientSettings,
    alloc: Global,
}

impl Clients {
    /// No client came yet. It takes no memory; `alloc` serves later growth.
    pub fn new(alloc: Global, settings: ClientSettings) -> Clients
        ensures parts { (c : ℕ) → client_part result c ≡ None }
        ensures ends { ends_left result ≡ 0 }
        ensures settings { result.settings ≡ settings }
    {
        Clients {
            parts: BTreeMap::new(alloc),
            standing: BTreeSet::new(alloc),
            settings,
            alloc,
        }
    }

    /// The part of a client, where it came. It takes no memory.
    pub fn part(&self, client: u32) -> Option<&ClientPart>
        ensures { option_copied result ≡ client_part self.now client }
    {
        self.parts.get(&client)
    }

    /// Of how many clients the end of the link may still give something. It takes no memory.
    pub fn ends_left(&self) -> usize
        ensures ends { result ≡ ends_left self.now }
        ensures small { result < 2 ^ 63 }
    {
        self.standing.len()
    }

    /// A client takes an input, and what its rule makes is appended: a part comes with its first arrival. For want of memory
    /// nothing is appended, and each client stands for what it stood for.
    pub fn step(&mut self, client: u32, input: Input, out: &mut Outbox) -> Result<(), NoMemory>
        ensures took { OnOk result ((s : Settings) (p : ClientState) → Agrees s self.old.settings → ClientIs s client p self.old → MayTake p input → Took s client p input out.old out.new self.new) }
        ensures out { OnErr result (IsSame out.old out.new) }
        ensures err { OnErr result ((s : Settings) (p : ClientState) → Agrees s self.old.settings → ClientIs s client p self.old → ClientIs s client p self.new) }
        ensures others { (c : ℕ) → c ≢ client → IsSameClient c self.old self.new }
        ensures ends { ends_left self.new ≤ ends_left self.old + 1 }
        ensures settings { self.new.settings ≡ self.old.settings }
    {
        if let Input::Arrive { .. } = &input {
            self.admit(client)?;
        }
        match self.parts.get_mut(&client) {
            Some(part) => part.step(input, out),
            None => Ok(()),
        }
    }

    /// A part for a client that has none, whose end may give something. For want of memory each stands for what it did.
    fn admit(&mut self, client: u32) -> Result<(), NoMemory>
        ensures stands { (s : Settings) (p : ClientState) → Agrees s self.old.settings → ClientIs s client p self.old → ClientIs s client p self.new }
        ensures here { OnOk result (client_part self.new client ≢ None) }
        ensures may_end { OnOk result (may_end self.new client ≡ true) }
        ensures others { (c : ℕ) → c ≢ client → IsSameClient c self.old self.new }
        ensures ends { ends_left self.new ≤ ends_left self.old + 1 }
        ensures settings { self.new.settings ≡ self.old.settings }
    {
        self.standing.insert(client)?;
        if self.parts.contains_key(&client) {
            return Ok(());
        }
        let settings = copied(&self.settings)?;
        let part = ClientPart::new(self.alloc, client, settings);
        self.parts.insert(client, part)?;
        Ok(())
    }

    /// A client's link ends, for a reason that a link has: what its end gives, which is nothing where the client isn't
    /// there. It takes no memory.
    pub fn sever(&mut self, client: u32, now: u64, why: EndWhy) -> Outbox
        ensures entries { (s : Settings) (p : ClientState) → ClientIs s client p self.old → result.entries.items ≡ (client_sever p now why).entries }
        ensures letters { (s : Settings) (p : ClientState) → ClientIs s client p self.old → result.letters.items ≡ (client_sever p now why).letters }
        ensures stands { (s : Settings) (p : ClientState) → ClientIs s client p self.old → ClientIs s client (step_clients s p (marked_by None (client_sever p now why).entries)) self.new }
        ensures others { (c : ℕ) → c ≢ client → IsSameClient c self.old self.new }
        ensures ends { ends_left self.new + lists_of result.letters.items ≤ ends_left self.old }
        ensures settings { self.new.settings ≡ self.old.settings }
    {
        if !self.standing.contains(&client) {
            return Outbox::new(self.alloc);
        }
        let Some(part) = self.parts.get_mut(&client) else {
            return Outbox::new(self.alloc);
        };
        let out = part.sever(now, why);
        if part.ended() || out.letters.len() > 0 {
            self.standing.remove(&client);
        }
        out
    }
}

/// A copy of what clients' parts are made of. For want of memory nothing is made.
fn copied(settings: &ClientSettings) -> Result<ClientSettings, NoMemory>
    ensures { IfOk result (λ copy. copy ≡ settings.now) }
{
    let binddn = copied_name(&settings.binddn)?;
    let restrictions = settings.restrictions.copy()?;
    Ok(ClientSettings {
        max_pending: settings.max_pending,
        proxyauthz: settings.proxyauthz,
        binddn,
        write_coherence: settings.write_coherence,
        restrictions,
    })
}

/// A copy of a name, where there is one.
fn copied_name(name: &Option<Body>) -> Result<Option<Body>, NoMemory>
    ensures { IfOk result (λ copy. copy ≡ name.now) }
{
    match name {
        None => Ok(None),
        Some(name) => {
            let copy = name.copy()?;
            Ok(Some(copy))
        }
    }
}

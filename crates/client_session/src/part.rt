ghost use Rattle.std.specs.Prelude.{◌≡◌, ◌<◌, ◌&&◌, ◌∷◌, ◌++◌, [], false, true, not, OnOk, OnErr, Some, None};
ghost use Rattle.lload_spec.specs.Settings.{Settings};
ghost use Rattle.part_spec.specs.ClientState.{ClientState, empty_client, is_holding};
ghost use Rattle.part_spec.specs.ClientTurn.{client_turn};
ghost use Rattle.client_session.specs.Checks.{Agrees};
ghost use Rattle.lload_names.specs.declared.inputs.Input.TheVariants as Input;
ghost use Rattle.client_session.specs.Stands.{Stands, behind, is_empty};

use crate::kept::Kept;
use crate::settings::ClientSettings;
use client_rows::Operations;
use coherence::Window;
use lload_names::{Body, Entry, NoMemory, OpName, PartName, What};
use outbox::Outbox;
use std::alloc::Global;
use std::collections::BTreeSet;

/// The bind connection that a client holds, and the operation that it was chosen for.
#[derive(Clone, Copy, Debug, PartialEq, Eq, Drop)]
pub struct Held {
    pub conn: u32,
    pub holder: OpName,
}

/// A client's part.
#[derive(Drop)]
pub struct ClientPart {
    pub(crate) number: u32,
    pub(crate) settings: ClientSettings,
    pub(crate) alloc: Global,
    pub(crate) moment: u64,
    pub(crate) arrived: bool,
    pub(crate) gone: bool,
    pub(crate) operations: Operations,
    /// How many operations the desk was asked for and didn't choose yet.
    pub(crate) asked: u64,
    pub(crate) identity: Body,
    pub(crate) in_exchange: bool,
    pub(crate) hold: Option<Held>,
    pub(crate) window: Window,
    pub(crate) stalled: bool,
    /// The connections that it pauses.
    pub(crate) paused: BTreeSet<u32>,
    pub(crate) kept: Kept,
}

impl ClientPart {
    /// The part of a client that hasn't arrived. It takes no memory; `alloc` serves later growth.
    pub fn new(alloc: Global, number: u32, settings: ClientSettings) -> ClientPart
        ensures { (s : Settings) → Agrees s settings → Stands s (empty_client number) result }
    {
        ClientPart {
            number,
            alloc,
            moment: 0,
            arrived: false,
            gone: false,
            operations: Operations::new(alloc),
            asked: 0,
            identity: Body::new(alloc),
            in_exchange: false,
            hold: None,
            window: Window::new(settings.write_coherence),
            settings,
            stalled: false,
            paused: BTreeSet::new(alloc),
            kept: Kept::new(alloc),
        }
    }

    /// Whether it has ended. It takes no memory.
    pub fn ended(&self) -> bool
        ensures { (s : Settings) (p : ClientState) → Stands s p self.now → result ≡ p.gone }
    {
        self.gone
    }

    /// Whether it has ended, and the desk has chosen for each operation that it was asked for. It takes no memory.
    pub fn done(&self) -> bool
        ensures { (s : Settings) (p : ClientState) → Stands s p self.now → result ≡ (p.gone && is_empty p.asked) }
    {
        self.gone && self.asked == 0
    }

    /// Whether no message may be handed to it yet: an operation of it lets later ones wait, or the last number of an
    /// operation has come. It takes no memory.
    pub fn holds(&self) -> bool
        ensures holds { (s : Settings) (p : ClientState) → Stands s p self.now → result ≡ is_holding s p }
        ensures more { result ≡ false → self.now.operations.count < 18446744073709551615 }
    {
        self.operations.is_waiting() || self.operations.count() == u64::MAX
    }

    /// A client arrives. For want of memory nothing changes.
    pub fn arrive(&mut self, now: u64, out: &mut Outbox) -> Result<(), NoMemory>
        ensures entries { OnOk result ((s : Settings) (p : ClientState) → Stands s p self.old → out.new.entries.items ≡ out.old.entries.items ++ (client_turn s p (Input.Arrive now)).entries) }
        ensures letters { OnOk result ((s : Settings) (p : ClientState) → Stands s p self.old → out.new.letters.items ≡ out.old.letters.items ++ (client_turn s p (Input.Arrive now)).letters) }
        ensures state { OnOk result ((s : Settings) (p : ClientState) → Stands s p self.old → Stands s (behind s p (Input.Arrive now)) self.new) }
        ensures out { OnErr result ((out.new.entries.items ≡ out.old.entries.items) × (out.new.letters.items ≡ out.old.letters.items)) }
        ensures err { OnErr result (self.new ≡ self.old) }
    {
        if self.arrived {
            return Ok(());
        }
        out.reserve(1, 0)?;
        let letters = self.most_endings();
        self.kept.reserve(letters, self.paused.len())?;
        let at = self.moment.max(now);
        out.entries.put(Entry {
            part: PartName::Client(self.number),
            at,
            what: What::Arrived,
        });
        self.moment = at;
        self.arrived = true;
        Ok(())
    }
}

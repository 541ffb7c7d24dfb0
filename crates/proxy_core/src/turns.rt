ghost use Rattle.std.specs.Prelude.{◌≡◌, ◌≤◌, ◌+◌, ◌<◌, ℕ, [], true, OnOk, OnErr};
ghost use Rattle.lload_spec.specs.Settings.{Settings};
ghost use Rattle.lload_names.specs.declared.inputs.Input.TheVariants.{LinkUp};
ghost use Rattle.lload_names.specs.declared.names.PartName.TheVariants.{Desk, Client, Up as Connection};
ghost use Rattle.part_spec.specs.World as run;
ghost use Rattle.letter_queues.specs.Queues.{Gains, StaySame};
ghost use Rattle.proxy_parts.specs.Clients.{ends_left as client_ends};
ghost use Rattle.proxy_parts.specs.Connections.{ends_left as connection_ends};
ghost use Rattle.proxy_parts.specs.Room.{lists_of};
ghost use Rattle.proxy_core.specs.States.{Is, Allows, MayTake, is_plain};
ghost use Rattle.proxy_core.specs.Turned.{Took, IsSame, KeepsParts, KeepsLetters};

use crate::world::World;
use letter_queues::LetterQueues;
use lload_names::{Input, NoMemory, PartName};
use outbox::{Outbox, Roomy};
use std::alloc::Global;
use std::mem;

/// The letters of a turn go in flight, behind those that its part gave. It takes no memory: what can't be sorted now is
/// sorted later.
pub(crate) fn send(letters: &mut LetterQueues, alloc: Global, from: PartName, out: &mut Outbox)
    requires { lists_of out.old.letters.items ≤ letters.old.spare }
    ensures gains { Gains from out.old.letters.items letters.old letters.new }
    ensures spare { letters.old.spare ≤ letters.new.spare + lists_of out.old.letters.items }
    ensures entries { out.new.entries ≡ out.old.entries }
    ensures empty { out.new.letters.items ≡ [] }
{
    let given = mem::replace(&mut out.letters, Roomy::new(alloc));
    letters.hold(from, given.into_vec());
    let _ = letters.sort();
}

impl World {
    /// A part takes an input; that a link comes up, and another plan, have turns of their own. For want of memory nothing is
    /// appended, no queue changes, and the world stands for what it stood for.
    pub fn turn(&mut self, part: PartName, input: Input, out: &mut Outbox) -> Result<(), NoMemory>
        requires letters { out.old.letters.items ≡ [] }
        requires plain { is_plain input ≡ true }
        ensures took { OnOk result ((s : Settings) (v : run.World) → Is s v self.old → MayTake s v part input → Took s v part input out.old out.new self.new) }
        ensures sent { out.new.letters.items ≡ [] }
        ensures out { OnErr result (IsSame out.old out.new) }
        ensures err { OnErr result ((s : Settings) (v : run.World) → Is s v self.old → MayTake s v part input → Is s v self.new) }
        ensures kept { OnErr result (KeepsLetters self.old self.new) }
    {
        match part {
            PartName::Desk => self.turn_desk(input, out),
            PartName::Client(client) => self.turn_client(client, input, out),
            PartName::Up(conn) => self.turn_connection(conn, input, out),
        }
    }

    /// Room for the letters of a turn, and of all ends of links behind it. For want of memory nothing changes.
    fn make_room(&mut self) -> Result<(), NoMemory>
        ensures room { OnOk result (client_ends self.new.clients + connection_ends self.new.connections + 2 ≤ self.new.letters.spare) }
        ensures letters { KeepsLetters self.old self.new }
        ensures parts { KeepsParts self.old self.new }
    {
        let ends = self.clients.ends_left() + self.connections.ends_left();
        let Some(room) = ends.checked_add(2) else {
            return Err(NoMemory);
        };
        self.letters.reserve(room)?;
        Ok(())
    }

    /// The desk takes an input.
    fn turn_desk(&mut self, input: Input, out: &mut Outbox) -> Result<(), NoMemory>
        requires letters { out.old.letters.items ≡ [] }
        requires plain { is_plain input ≡ true }
        ensures took { OnOk result ((s : Settings) (v : run.World) → Is s v self.old → MayTake s v Desk input → Took s v Desk input out.old out.new self.new) }
        ensures sent { out.new.letters.items ≡ [] }
        ensures out { OnErr result (IsSame out.old out.new) }
        ensures err { OnErr result ((s : Settings) (v : run.World) → Is s v self.old → MayTake s v Desk input → Is s v self.new) }
        ensures kept { OnErr result (KeepsLetters self.old self.new) }
    {
        self.make_room()?;
        self.desk.step(input, out)?;
        send(&mut self.letters, self.alloc, PartName::Desk, out);
        Ok(())
    }

    /// A client takes an input.
    fn turn_client(&mut self, client: u32, input: Input, out: &mut Outbox) -> Result<(), NoMemory>
        requires { out.old.letters.items ≡ [] }
        ensures took { OnOk result ((s : Settings) (v : run.World) → Is s v self.old → MayTake s v (Client client) input → Took s v (Client client) input out.old out.new self.new) }
        ensures sent { out.new.letters.items ≡ [] }
        ensures out { OnErr result (IsSame out.old out.new) }
        ensures err { OnErr result ((s : Settings) (v : run.World) → Is s v self.old → Is s v self.new) }
        ensures kept { OnErr result (KeepsLetters self.old self.new) }
    {
        self.make_room()?;
        self.clients.step(client, input, out)?;
        send(&mut self.letters, self.alloc, PartName::Client(client), out);
        Ok(())
    }

    /// A connection takes an input.
    fn turn_connection(&mut self, conn: u32, input: Input, out: &mut Outbox) -> Result<(), NoMemory>
        requires letters { out.old.letters.items ≡ [] }
        requires plain { is_plain input ≡ true }
        ensures took { OnOk result ((s : Settings) (v : run.World) → Is s v self.old → MayTake s v (Connection conn) input → Took s v (Connection conn) input out.old out.new self.new) }
        ensures sent { out.new.letters.items ≡ [] }
        ensures out { OnErr result (IsSame out.old out.new) }
        ensures err { OnErr result ((s : Settings) (v : run.World) → Is s v self.old → Is s v self.new) }
        ensures kept { OnErr result (KeepsLetters self.old self.new) }
    {
        self.make_room()?;
        self.connections.step(conn, input, out)?;
        send(&mut self.letters, self.alloc, PartName::Up(conn), out);
        Ok(())
    }

    /// The link of a connection comes up; one without a place gives nothing. For want of memory nothing is appended, and the
    /// world stands for what it stood for.
    pub fn turn_link(&mut self, conn: u32, now: u64, out: &mut Outbox) -> Result<(), NoMemory>
        requires { out.old.letters.items ≡ [] }
        ensures took { OnOk result ((s : Settings) (v : run.World) → Is s v self.old → Allows s (Connection conn) self.old self.new → Took s v (Connection conn) (LinkUp now) out.old out.new self.new) }
        ensures sent { out.new.letters.items ≡ [] }
        ensures out { OnErr result (IsSame out.old out.new) }
        ensures err { OnErr result ((s : Settings) (v : run.World) → Is s v self.old → Is s v self.new) }
    {
        let Some(place) = self.plans.place_of(conn) else {
            return Ok(());
        };
        self.make_room()?;
        self.connections.link(conn, place.kind, now, out)?;
        self.greatest = self.greatest.max(conn);
        send(&mut self.letters, self.alloc, PartName::Up(conn), out);
        Ok(())
    }
}

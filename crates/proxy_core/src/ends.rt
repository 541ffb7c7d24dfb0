ghost use Rattle.std.specs.Prelude.{◌≡◌, ℕ, IsTrue, List};
ghost use Rattle.lload_names.specs.declared.names.PartName.TheVariants.{Client, Up as Connection};
ghost use Rattle.lload_spec.specs.Settings.{Settings};
ghost use Rattle.lload_spec.specs.Entries.{is_link_reason};
ghost use Rattle.part_spec.specs.Merge.{PartMove, Severs};
ghost use Rattle.part_spec.specs.World as run;
ghost use Rattle.proxy_core.specs.Runs.{Stands, Moved};
ghost use Rattle.proxy_core.specs.States.{Is};
ghost use Rattle.proxy_core.specs.Turned.{Severed};

use crate::turns::send;
use crate::world::World;
use lload_names::{EndWhy, Entry, PartName};
use outbox::Roomy;

impl World {
    /// The link of a part ends, for a reason that a link has: the answer is what the journal grows by, which is nothing for
    /// the desk, and for a part that isn't there. It takes no memory.
    pub fn sever(&mut self, part: PartName, now: u64, why: EndWhy) -> Roomy<Entry>
        requires { IsTrue (is_link_reason why) }
        ensures { (s : Settings) (ms : List PartMove) → Stands s ms self.old → Moved s ms part (Severs now why) result.items self.new }
    {
        match part {
            PartName::Desk => Roomy::new(self.alloc),
            PartName::Client(client) => self.sever_client(client, now, why),
            PartName::Up(conn) => self.sever_connection(conn, now, why),
        }
    }

    /// A client's link ends.
    fn sever_client(&mut self, client: u32, now: u64, why: EndWhy) -> Roomy<Entry>
        ensures { (s : Settings) (v : run.World) → Is s v self.old → Severed s v (Client client) now why result.items self.new }
    {
        let mut out = self.clients.sever(client, now, why);
        send(
            &mut self.letters,
            self.alloc,
            PartName::Client(client),
            &mut out,
        );
        out.entries
    }

    /// A connection's link ends.
    fn sever_connection(&mut self, conn: u32, now: u64, why: EndWhy) -> Roomy<Entry>
        ensures { (s : Settings) (v : run.World) → Is s v self.old → Severed s v (Connection conn) now why result.items self.new }
    {
        let mut out = self.connections.sever(conn, now, why);
        send(&mut self.letters, self.alloc, PartName::Up(conn), &mut out);
        out.entries
    }
}

ghost use Rattle.std.specs.Prelude.{◌≡◌, ℕ, List};
ghost use Rattle.lload_spec.specs.Settings.{Settings};
ghost use Rattle.part_spec.specs.Merge.{PartMove, world_of};
ghost use Rattle.part_spec.specs.World as run;
ghost use Rattle.proxy_core.specs.Runs.{Stands};

use crate::world::World;
use lload_names::PartName;

impl World {
    /// Whether no message may be handed to a part yet. It takes no memory.
    pub fn holds(&self, part: PartName) -> bool
        ensures { (s : Settings) (ms : List PartMove) → Stands s ms self.now → result ≡ run.holds s (world_of s ms) part }
    {
        match part {
            PartName::Desk => false,
            PartName::Client(client) => match self.clients.part(client) {
                Some(part) => part.holds(),
                None => false,
            },
            PartName::Up(conn) => match self.connections.part(conn) {
                Some(part) => part.holds(),
                None => false,
            },
        }
    }

    /// The lowest sender of a letter that waits for a part; `None` exactly where none waits. It takes no memory.
    pub fn waiting(&self, part: PartName) -> Option<PartName>
        ensures { (s : Settings) (ms : List PartMove) → Stands s ms self.now → result ≡ run.waiting (world_of s ms) part }
    {
        self.letters.waiting(part)
    }

    /// The lowest part for which a letter waits; `None` exactly where none waits. It takes no memory.
    pub fn lowest_waiting(&self) -> Option<PartName>
        ensures { (s : Settings) (ms : List PartMove) → Stands s ms self.now → result ≡ run.lowest_waiting (world_of s ms) }
    {
        self.letters.lowest_waiting()
    }
}

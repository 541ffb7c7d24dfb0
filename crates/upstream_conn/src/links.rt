ghost use Rattle.std.specs.Prelude.{◌≡◌, ◌≤◌, false, Some, OnOk, OnErr};
ghost use Rattle.lload_spec.specs.Settings.{Settings};

use crate::part::{OwnWait, UpstreamPart};
use lload_names::{Body, NoMemory, What};
use outbox::Outbox;

impl UpstreamPart {
    ghost use Rattle.std.specs.Prelude.{Option};
    ghost use Rattle.part_spec.specs.Marked.{Taken};
    ghost use Rattle.part_spec.specs.RegularTurn.{link_up};
    ghost use Rattle.conn_core.specs.Did.{Did};
    ghost use Rattle.upstream_conn.specs.Part.{Knows, state};

    /// It is linked, and the own Bind goes first.
    fn bind(&mut self, at: u64, rest: Body, out: &mut Outbox) -> Result<(), NoMemory>
        requires unlinked { self.old.core.linked ≡ false }
        requires request { self.old.own_bind ≡ Some rest }
        ensures did { OnOk result ((s : Settings) (mark : Option Taken) → Knows s self.old → Did s (state self.old) at mark (link_up s (state self.old)) out.old out.new (state self.new)) }
        ensures knows { OnOk result ((s : Settings) → Knows s self.old → Knows s self.new) }
        ensures room { OnOk result ((1 ≤ out.new.entries.spare) × (2 ≤ out.new.letters.spare)) }
        ensures out { OnErr result ((out.new.entries.items ≡ out.old.entries.items) × (out.new.letters.items ≡ out.old.letters.items)) }
        ensures err { OnErr result (self.new ≡ self.old) }
    {
        out.reserve(4, 3)?;
        let Some(id) = self.core.own() else {
            return Ok(());
        };
        self.core.put(at, What::Linked, out);
        self.core.link(at);
        self.core.put_giving(at, id, What::Own { id, rest }, out);
        self.core.tell_retired(id, out);
        self.own = Some(OwnWait { id, at });
        Ok(())
    }

    /// It is linked: the own Bind goes first where one is configured, else it is up.
    pub(crate) fn link(&mut self, at: u64, out: &mut Outbox) -> Result<(), NoMemory>
        requires unlinked { self.old.core.linked ≡ false }
        ensures did { OnOk result ((s : Settings) (mark : Option Taken) → Knows s self.old → Did s (state self.old) at mark (link_up s (state self.old)) out.old out.new (state self.new)) }
        ensures knows { OnOk result ((s : Settings) → Knows s self.old → Knows s self.new) }
        ensures room { OnOk result ((1 ≤ out.new.entries.spare) × (2 ≤ out.new.letters.spare)) }
        ensures out { OnErr result ((out.new.entries.items ≡ out.old.entries.items) × (out.new.letters.items ≡ out.old.letters.items)) }
        ensures err { OnErr result (self.new ≡ self.old) }
    {
        match &self.own_bind {
            None => self.begin(at, out),
            Some(rest) => {
                let rest = rest.copy()?;
                self.bind(at, rest, out)
            }
        }
    }
}

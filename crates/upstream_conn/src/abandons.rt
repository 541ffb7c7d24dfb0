ghost use Rattle.std.specs.Prelude.{◌≡◌, ◌≤◌, ◌<◌, ◌^◌, Some, OnOk, OnErr};
ghost use Rattle.lload_spec.specs.Settings.{Settings};
ghost use Rattle.id_table.specs.Rows.{id_of};

use crate::part::UpstreamPart;
use ldap_messages::abandon_rest;
use lload_names::{NoMemory, OpName, What};
use outbox::Outbox;

impl UpstreamPart {
    ghost use Rattle.std.specs.Prelude.{Option};
    ghost use Rattle.part_spec.specs.Marked.{Taken};
    ghost use Rattle.part_spec.specs.RegularTurn.{drops};
    ghost use Rattle.conn_core.specs.Did.{Did};
    ghost use Rattle.upstream_conn.specs.Part.{Knows, state};

    /// A Drop of a live operation: it is abandoned under the next identifier. One is left, since each live operation may
    /// want one.
    fn abandon(&mut self, at: u64, op: OpName, id: u32, out: &mut Outbox) -> Result<(), NoMemory>
        requires live { id_of op self.old.core.table.rows ≡ Some id }
        requires small { id < 2 ^ 31 }
        ensures did { OnOk result ((s : Settings) (mark : Option Taken) → Knows s self.old → Did s (state self.old) at mark (drops s (state self.old) op) out.old out.new (state self.new)) }
        ensures knows { OnOk result ((s : Settings) → Knows s self.old → Knows s self.new) }
        ensures room { OnOk result ((1 ≤ out.new.entries.spare) × (2 ≤ out.new.letters.spare)) }
        ensures out { OnErr result ((out.new.entries.items ≡ out.old.entries.items) × (out.new.letters.items ≡ out.old.letters.items)) }
        ensures err { OnErr result (self.new ≡ self.old) }
    {
        let rest = abandon_rest(self.alloc, id)?;
        out.reserve(3, 4)?;
        let Some(own) = self.core.own() else {
            return Ok(());
        };
        self.core.end(id);
        self.core
            .put_giving(at, own, What::Own { id: own, rest }, out);
        self.core.moved(at);
        self.core.tell_end(op, None, out);
        self.core.tell_retired(own, out);
        Ok(())
    }

    /// A Drop: of a live operation it is abandoned, else it is idle.
    pub(crate) fn give_up(&mut self, at: u64, op: OpName, out: &mut Outbox) -> Result<(), NoMemory>
        ensures did { OnOk result ((s : Settings) (mark : Option Taken) → Knows s self.old → Did s (state self.old) at mark (drops s (state self.old) op) out.old out.new (state self.new)) }
        ensures knows { OnOk result ((s : Settings) → Knows s self.old → Knows s self.new) }
        ensures room { OnOk result ((1 ≤ out.new.entries.spare) × (2 ≤ out.new.letters.spare)) }
        ensures out { OnErr result ((out.new.entries.items ≡ out.old.entries.items) × (out.new.letters.items ≡ out.old.letters.items)) }
        ensures err { OnErr result (self.new ≡ self.old) }
    {
        match self.core.find(op) {
            Some(id) => self.abandon(at, op, id, out),
            None => self.idle(at, op, out),
        }
    }
}

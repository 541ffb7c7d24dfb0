ghost use Rattle.std.specs.Prelude.{◌≡◌, ◌≤◌, ◌&&◌, ◌++◌, not, length, None, OnOk, OnErr, IfOk};
ghost use Rattle.lload_spec.specs.Lists.{rising_once};
ghost use Rattle.lload_spec.specs.Pauses.{pause_letters};
ghost use Rattle.lload_spec.specs.Settings.{Settings};
ghost use Rattle.part_spec.specs.ClientState.{ClientState, is_present};
ghost use Rattle.part_spec.specs.ClientTurn.{stalls, flows};
ghost use Rattle.part_spec.specs.Inputs.{where_so};
ghost use Rattle.client_session.specs.Did.{Did, IsSame};
ghost use Rattle.client_session.specs.Flow.{connection_of, connections, put_all};
ghost use Rattle.client_session.specs.Stands.{Stands};

use crate::closing::put_resumes;
use crate::part::ClientPart;
use client_rows::Row;
use lload_names::{Letter, NoMemory, PartName, Posted, What};
use outbox::Outbox;
use std::collections::BTreeSet;

impl ClientPart {
    /// The client doesn't read: each regular connection that a live operation was forwarded to is paused.
    pub(crate) fn stall(&mut self, at: u64, out: &mut Outbox) -> Result<(), NoMemory>
        ensures did { OnOk result ((s : Settings) (p : ClientState) → Stands s p self.old → Did s p at None (where_so (is_present p && not p.pausing.stalled) (stalls p)) out.old out.new self.new) }
        ensures out { OnErr result (IsSame out.old out.new) }
        ensures err { OnErr result ((s : Settings) (p : ClientState) → Stands s p self.old → Stands s p self.new) }
    {
        if !self.is_present() || self.stalled {
            return Ok(());
        }
        let paused = self.regular_connections()?;
        out.reserve(1, paused.len())?;
        let letters = self.most_endings();
        self.kept.reserve(letters, paused.len())?;
        put_pauses(self.number, &paused, out);
        self.put(at, What::Stalled, out);
        self.paused = paused;
        self.stalled = true;
        self.moment = at;
        Ok(())
    }

    /// The client reads again: so does each connection that it paused.
    pub(crate) fn flow(&mut self, at: u64, out: &mut Outbox) -> Result<(), NoMemory>
        ensures did { OnOk result ((s : Settings) (p : ClientState) → Stands s p self.old → Did s p at None (where_so (is_present p && p.pausing.stalled) (flows p)) out.old out.new self.new) }
        ensures out { OnErr result (IsSame out.old out.new) }
        ensures err { OnErr result (self.new ≡ self.old) }
    {
        if !self.is_present() || !self.stalled {
            return Ok(());
        }
        out.reserve(1, self.paused.len())?;
        put_resumes(self.number, &self.paused, out);
        self.put(at, What::Flowing, out);
        self.paused.clear();
        self.stalled = false;
        self.moment = at;
        Ok(())
    }

    /// The regular connections that live operations were forwarded to.
    fn regular_connections(&self) -> Result<BTreeSet<u32>, NoMemory>
        ensures { IfOk result (λ us. us.keys ≡ rising_once (connections self.now.operations.rows)) }
    {
        let mut us = BTreeSet::new(self.alloc);
        for row in self.operations.values() {
            add_connection(row, &mut us)?;
        }
        Ok(us)
    }
}

/// Adds the regular connection that an operation was forwarded to, if it was.
fn add_connection(row: &Row, us: &mut BTreeSet<u32>) -> Result<(), NoMemory>
    ensures { OnOk result (us.new.keys ≡ put_all (connection_of row.now) us.old.keys) }
{
    if row.is_bind() {
        return Ok(());
    }
    if let Some(conn) = row.connection() {
        us.insert(conn)?;
    }
    Ok(())
}

/// Posts the Pause of each of these connections, by rising number. There is room for them.
fn put_pauses(client: u32, us: &BTreeSet<u32>, out: &mut Outbox)
    requires { length us.now.keys ≤ out.old.letters.spare }
    ensures letters { out.new.letters.items ≡ out.old.letters.items ++ pause_letters client us.now.keys }
    ensures entries { out.new.entries ≡ out.old.entries }
{
    for conn in us {
        out.letters.put(Posted {
            to: PartName::Up(*conn),
            letter: Letter::Pause { client },
        });
    }
}

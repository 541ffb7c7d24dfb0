ghost use Rattle.std.specs.Prelude.{◌≡◌, ◌≤◌, ◌++◌, OnOk, OnErr, None};
ghost use Rattle.lload_spec.specs.FirstCheck.{Abandons};
ghost use Rattle.lload_spec.specs.Settings.{Settings};
ghost use Rattle.part_spec.specs.ClientState.{ClientState, check_at, without};
ghost use Rattle.part_spec.specs.ClientTurn.{by_check};
ghost use Rattle.client_session.specs.Did.{Did, IsSame};
ghost use Rattle.client_session.specs.Stands.{Stands};
ghost use Rattle.client_session.specs.Under.{names, named_drop};

use crate::closing::put_drop;
use crate::part::ClientPart;
use lload_names::{Body, NoMemory, What};
use outbox::Outbox;

impl ClientPart {
    /// An Abandon of an identifier: the live operation that has it ends, unless it is a Bind, and is no longer answered
    /// (RFC 4511, section 4.11).
    pub(crate) fn abandon(
        &mut self,
        at: u64,
        id: u32,
        rest: Body,
        named: u32,
        out: &mut Outbox,
    ) -> Result<(), NoMemory>
        ensures did { OnOk result ((s : Settings) (p : ClientState) → Stands s p self.old → check_at s p (record { id = id; rest = rest }) ≡ Abandons named → Did s p at None (by_check s p at (record { id = id; rest = rest }) (Abandons named)) out.old out.new self.new) }
        ensures out { OnErr result (IsSame out.old out.new) }
        ensures err { OnErr result (self.new ≡ self.old) }
    {
        out.reserve(1, 1)?;
        self.put(at, What::In { id, rest }, out);
        self.end_named(at, named, out);
        self.moment = at;
        Ok(())
    }

    /// Ends the live operation under an identifier, unless it is a Bind, with its Drop, for which there is room.
    fn end_named(&mut self, at: u64, named: u32, out: &mut Outbox)
        requires { 1 ≤ out.old.letters.spare }
        ensures letters { (s : Settings) (p : ClientState) → Stands s p self.old → out.new.letters.items ≡ out.old.letters.items ++ named_drop p named }
        ensures entries { out.new.entries ≡ out.old.entries }
        ensures stands { (s : Settings) (p : ClientState) → Stands s p self.old → Stands s (without (names named) at p) self.new }
    {
        let Some(row) = self.operations.under(named) else {
            return;
        };
        if row.is_bind() {
            return;
        }
        let k = row.k;
        put_drop(self.number, row, out);
        self.end(k, at);
    }
}

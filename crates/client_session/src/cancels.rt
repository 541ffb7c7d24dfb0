ghost use Rattle.std.specs.Prelude.{◌≡◌, ◌<◌, None, OnOk, OnErr};
ghost use Rattle.lload_names.specs.declared.names.OpKind.{OpKind};
ghost use Rattle.lload_spec.specs.FirstCheck.{Cancels};
ghost use Rattle.lload_spec.specs.Settings.{Settings};
ghost use Rattle.part_spec.specs.ClientState.{ClientState, check_at};
ghost use Rattle.part_spec.specs.ClientTurn.{by_check};
ghost use Rattle.client_session.specs.Did.{Did, IsSame};
ghost use Rattle.client_session.specs.Stands.{Stands};

use crate::closing::put_drop;
use crate::part::ClientPart;
use lload_cancel::cancel_rest;
use lload_names::{Body, CancelAnswer, NoMemory, OpKind, What};
use outbox::Outbox;

impl ClientPart {
    /// A Cancel ends the live operation with the named identifier, which is of this kind: that is answered, and then the
    /// Cancel (RFC 3909, section 2.2).
    pub(crate) fn cancel(
        &mut self,
        at: u64,
        id: u32,
        rest: Body,
        named: u32,
        kind: OpKind,
        out: &mut Outbox,
    ) -> Result<(), NoMemory>
        requires { self.old.operations.count < 18446744073709551615 }
        ensures did { OnOk result ((s : Settings) (p : ClientState) → Stands s p self.old → check_at s p (record { id = id; rest = rest }) ≡ Cancels named kind → Did s p at None (by_check s p at (record { id = id; rest = rest }) (Cancels named kind)) out.old out.new self.new) }
        ensures out { OnErr result (IsSame out.old out.new) }
        ensures err { OnErr result (self.new ≡ self.old) }
    {
        let last_words = cancel_rest(self.alloc, kind, CancelAnswer::C13)?;
        let answer = cancel_rest(self.alloc, OpKind::Extended, CancelAnswer::S1)?;
        out.reserve(3, 1)?;
        let Some(row) = self.operations.under(named) else {
            return Ok(());
        };
        let k = row.k;
        put_drop(self.number, row, out);
        self.end(k, at);
        self.operations.pass();
        self.put(at, What::In { id, rest }, out);
        let ended = What::Out {
            id: named,
            rest: last_words,
        };
        self.put(at, ended, out);
        self.put(at, What::Out { id, rest: answer }, out);
        self.moment = at;
        Ok(())
    }
}

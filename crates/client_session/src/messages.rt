ghost use Rattle.std.specs.Prelude.{◌≡◌, ◌<◌, false, None, OnOk, OnErr};
ghost use Rattle.lload_spec.specs.Binding.{action as action_of};
ghost use Rattle.lload_spec.specs.FirstCheck.{GoesOn};
ghost use Rattle.lload_spec.specs.Settings.{Settings};
ghost use Rattle.part_spec.specs.ClientState.{ClientState, check_at};
ghost use Rattle.part_spec.specs.ClientTurn.{by_check, message};
ghost use Rattle.restrictions.specs.Actions.{action_view};
ghost use Rattle.client_session.specs.Did.{Did, IsSame};
ghost use Rattle.client_session.specs.Stands.{Stands};

use crate::check::{Check, kind_of};
use crate::choices::is_bind;
use crate::part::ClientPart;
use lload_names::{Body, NoMemory};
use outbox::Outbox;
use restrictions::Action;

impl ClientPart {
    /// A message comes: while the client is there and its part doesn't hold, the first check that holds decides.
    pub(crate) fn take(
        &mut self,
        at: u64,
        id: u32,
        rest: Body,
        out: &mut Outbox,
    ) -> Result<(), NoMemory>
        ensures did { OnOk result ((s : Settings) (p : ClientState) → Stands s p self.old → Did s p at None (message s p at (record { id = id; rest = rest })) out.old out.new self.new) }
        ensures out { OnErr result (IsSame out.old out.new) }
        ensures err { OnErr result ((s : Settings) (p : ClientState) → Stands s p self.old → Stands s p self.new) }
    {
        if !self.is_present() || self.holds() {
            return Ok(());
        }
        match self.first_check(id, rest.as_slice()) {
            Check::Ends(why) => self.end_by_message(at, id, rest, why, out),
            Check::Unbinds => self.unbind(at, id, rest, out),
            Check::Abandons(named) => self.abandon(at, id, rest, named, out),
            Check::Refuses(which) => self.refuse(at, id, rest, which, out),
            Check::Answers(which) => self.answer_cancel(at, id, rest, which, out),
            Check::Cancels { id: named, kind } => self.cancel(at, id, rest, named, kind, out),
            Check::GoesOn(action) => self.go_on(at, id, rest, action, out),
        }
    }

    /// A request goes on, with this effective action: a Bind in its exchange or to a bind connection, another to a
    /// regular one.
    fn go_on(
        &mut self,
        at: u64,
        id: u32,
        rest: Body,
        action: Action,
        out: &mut Outbox,
    ) -> Result<(), NoMemory>
        requires { self.old.operations.count < 18446744073709551615 }
        ensures did { OnOk result ((s : Settings) (p : ClientState) → Stands s p self.old → p.gone ≡ false → action_view action ≡ action_of s rest → check_at s p (record { id = id; rest = rest }) ≡ GoesOn → Did s p at None (by_check s p at (record { id = id; rest = rest }) GoesOn) out.old out.new self.new) }
        ensures out { OnErr result (IsSame out.old out.new) }
        ensures err { OnErr result ((s : Settings) (p : ClientState) → Stands s p self.old → Stands s p self.new) }
    {
        let Some(kind) = kind_of(rest.as_slice()) else {
            return Ok(());
        };
        if self.is_in_use(id) {
            return Ok(());
        }
        let sent = self.carried(kind, rest.as_slice())?;
        let row = self.next_row(id, kind, action, sent)?;
        if is_bind(kind) {
            self.bind(at, row, rest, out)?;
            return Ok(());
        }
        self.ask(at, row, rest, out)?;
        Ok(())
    }
}

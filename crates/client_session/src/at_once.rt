ghost use Rattle.std.specs.Prelude.{◌≡◌, ◌<◌, ◌==◌, ◌∷◌, [], ℕ, List, true, false, Some, None, OnOk, OnErr};
ghost use Rattle.ldap_spec.specs.Kinds.{kind_of as kind_of_rest, is_final};
ghost use Rattle.lload_names.specs.Same.{same_kind};
ghost use Rattle.lload_names.specs.declared.names.OpKind.{OpKind};
ghost use Rattle.lload_names.specs.declared.names.OpKind.TheVariants.{Bind};
ghost use Rattle.lload_names.specs.declared.names.What.TheVariants.{In, Out};
ghost use Rattle.lload_spec.specs.FirstCheck.{Refuses, Answers, lets_go_on};
ghost use Rattle.lload_spec.specs.Settings.{Settings};
ghost use Rattle.part_spec.specs.ClientState.{ClientState, check_at};
ghost use Rattle.part_spec.specs.ClientTurn.{by_check, endings as endings_of};
ghost use Rattle.ldap_spec.specs.Bodies.{refusal};
ghost use Rattle.lload_names.specs.declared.names.Refusal.{Refusal};
ghost use Rattle.part_spec.specs.Inputs.{act};
ghost use Rattle.client_session.specs.Did.{Did, IsSame};
ghost use Rattle.client_session.specs.Stands.{Stands};

use crate::check::kind_of;
use crate::choices::is_bind;
use crate::part::ClientPart;
use ldap_messages::refusal_rest;
use lload_cancel::cancel_rest;
use lload_names::{Body, CancelAnswer, NoMemory, Refusal, What};
use outbox::Outbox;

impl ClientPart {
    /// A Cancel that ends nothing is answered (RFC 3909, section 2.3).
    pub(crate) fn answer_cancel(
        &mut self,
        at: u64,
        id: u32,
        rest: Body,
        which: CancelAnswer,
        out: &mut Outbox,
    ) -> Result<(), NoMemory>
        requires { self.old.operations.count < 18446744073709551615 }
        ensures did { OnOk result ((s : Settings) (p : ClientState) → Stands s p self.old → check_at s p (record { id = id; rest = rest }) ≡ Answers which → Did s p at None (by_check s p at (record { id = id; rest = rest }) (Answers which)) out.old out.new self.new) }
        ensures out { OnErr result (IsSame out.old out.new) }
        ensures err { OnErr result (self.new ≡ self.old) }
    {
        let Some(kind) = kind_of(rest.as_slice()) else {
            return Ok(());
        };
        let answer = cancel_rest(self.alloc, kind, which)?;
        self.answer_at_once(at, id, rest, answer, out)?;
        Ok(())
    }

    /// A request is refused. A Bind, which is refused for its version, ends all that its client does (RFC 4511, section
    /// 4.2.1).
    pub(crate) fn refuse(
        &mut self,
        at: u64,
        id: u32,
        rest: Body,
        which: Refusal,
        out: &mut Outbox,
    ) -> Result<(), NoMemory>
        requires { self.old.operations.count < 18446744073709551615 }
        ensures did { OnOk result ((s : Settings) (p : ClientState) → Stands s p self.old → check_at s p (record { id = id; rest = rest }) ≡ Refuses which → Did s p at None (by_check s p at (record { id = id; rest = rest }) (Refuses which)) out.old out.new self.new) }
        ensures out { OnErr result (IsSame out.old out.new) }
        ensures err { OnErr result (self.new ≡ self.old) }
    {
        let Some(kind) = kind_of(rest.as_slice()) else {
            return Ok(());
        };
        let answer = refusal_rest(self.alloc, kind, which)?;
        if is_bind(kind) {
            self.refuse_bind(at, id, rest, answer, out)?;
            return Ok(());
        }
        self.answer_at_once(at, id, rest, answer, out)?;
        Ok(())
    }

    /// A Bind is refused: it ends all that its client does, and nobody is known any more.
    fn refuse_bind(
        &mut self,
        at: u64,
        id: u32,
        rest: Body,
        answer: Body,
        out: &mut Outbox,
    ) -> Result<(), NoMemory>
        requires { self.old.operations.count < 18446744073709551615 }
        ensures did { OnOk result ((s : Settings) (p : ClientState) (which : Refusal) → Stands s p self.old → check_at s p (record { id = id; rest = rest }) ≡ Refuses which → kind_of_rest rest ≡ Some Bind → answer ≡ refusal Bind which → Did s p at None (act (In id rest ∷ Out id answer ∷ []) (endings_of p)) out.old out.new self.new) }
        ensures out { OnErr result (IsSame out.old out.new) }
        ensures err { OnErr result (self.new ≡ self.old) }
    {
        out.reserve(2, self.most_endings())?;
        self.put_endings(out);
        self.put(at, What::In { id, rest }, out);
        self.put(at, What::Out { id, rest: answer }, out);
        self.operations.clear();
        self.operations.pass();
        self.identity = Body::new(self.alloc);
        self.in_exchange = false;
        self.hold = None;
        self.window.reset();
        self.moment = at;
        Ok(())
    }

    /// A request other than a Bind is answered, and is over.
    fn answer_at_once(
        &mut self,
        at: u64,
        id: u32,
        rest: Body,
        answer: Body,
        out: &mut Outbox,
    ) -> Result<(), NoMemory>
        requires { self.old.operations.count < 18446744073709551615 }
        ensures did { OnOk result ((s : Settings) (p : ClientState) (kind : OpKind) → Stands s p self.old → kind_of_rest rest ≡ Some kind → same_kind Bind kind ≡ false → is_final kind answer ≡ true → (id == 0) ≡ false → lets_go_on (check_at s p (record { id = id; rest = rest })) ≡ false → Did s p at None (act (In id rest ∷ Out id answer ∷ []) []) out.old out.new self.new) }
        ensures out { OnErr result (IsSame out.old out.new) }
        ensures err { OnErr result (self.new ≡ self.old) }
    {
        out.reserve(2, 0)?;
        self.operations.pass();
        self.put(at, What::In { id, rest }, out);
        self.put(at, What::Out { id, rest: answer }, out);
        self.moment = at;
        Ok(())
    }
}

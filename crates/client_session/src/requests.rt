ghost use Rattle.std.specs.Prelude.{◌≡◌, ◌==◌, ◌<◌, ◌≤◌, ◌+◌, ◌∷◌, ◌++◌, [], length, filter, true, false, ℕ, List, Option, Some, None, OnOk, OnErr, IfOk};
ghost use Rattle.ldap_spec.specs.Kinds.{kind_of as kind_of_rest};
ghost use Rattle.ldap_spec.specs.Messages.{Message};
ghost use Rattle.ldap_spec.specs.Requests.{request as request_of};
ghost use Rattle.lload_names.specs.Same.{same_kind};
ghost use Rattle.lload_names.specs.declared.names.OpKind.{OpKind};
ghost use Rattle.lload_names.specs.declared.names.OpKind.TheVariants.{Bind};
ghost use Rattle.lload_names.specs.declared.names.What.TheVariants.{In};
ghost use Rattle.lload_spec.specs.Binding.{action as action_of, restricts};
ghost use Rattle.lload_spec.specs.FirstCheck.{lets_go_on};
ghost use Rattle.lload_spec.specs.Identity.{carried_for, proxied};
ghost use Rattle.lload_spec.specs.Settings.{Settings};
ghost use Rattle.part_spec.specs.ClientState.{ClientState, check_at, target};
ghost use Rattle.part_spec.specs.ClientTurn.{asks};
ghost use Rattle.part_spec.specs.Inputs.{act};
ghost use Rattle.restrictions.specs.Actions.{action_view};
ghost use Rattle.client_rows.specs.Rows.{has_id};
ghost use Rattle.client_rows.specs.declared.row.Row.{Row};
ghost use Rattle.client_session.specs.Checks.{Agrees};
ghost use Rattle.client_session.specs.Did.{Did, IsSame};
ghost use Rattle.client_session.specs.GoesOn.{waiting_row};
ghost use Rattle.client_session.specs.Stands.{Stands, seen, shown, simple_who};

use crate::choices::is_bind;
use crate::part::ClientPart;
use client_rows::{Row, Way};
use ldap_messages::{BindRequest, Method, Request, classify};
use lload_names::{
    Body, Bound, ConnKind, Letter, NoMemory, OpKind, OpName, PartName, Posted, Want, What,
};
use outbox::Outbox;
use proxy_authz::{proxied, simple_identity};
use restrictions::Action;
use std::alloc::Global;

/// How many octets a request may have, and an identity, so that the one can carry the other: more than any message has.
const MOST_CARRIED: usize = 500_000_000;

impl ClientPart {
    /// A request other than a Bind goes on: the desk is asked for a connection.
    pub(crate) fn ask(
        &mut self,
        at: u64,
        row: Row,
        rest: Body,
        out: &mut Outbox,
    ) -> Result<(), NoMemory>
        requires next { row.k ≡ self.old.operations.count + 1 }
        requires room { self.old.operations.count < 18446744073709551615 }
        requires free { filter (has_id row.id) self.old.operations.rows ≡ [] }
        ensures did { OnOk result ((s : Settings) (p : ClientState) (kind : OpKind) → Stands s p self.old → p.gone ≡ false → kind_of_rest rest ≡ Some kind → same_kind Bind kind ≡ false → (row.id == 0) ≡ false → lets_go_on (check_at s p (record { id = row.id; rest = rest })) ≡ true → shown row ≡ seen s (waiting_row s p (record { id = row.id; rest = rest })) → Did s p at None (act (In row.id rest ∷ []) (asks s p at (record { id = row.id; rest = rest }))) out.old out.new self.new) }
        ensures out { OnErr result (IsSame out.old out.new) }
        ensures err { OnErr result ((s : Settings) (p : ClientState) → Stands s p self.old → Stands s p self.new) }
    {
        if self.asked == u64::MAX {
            return Err(NoMemory);
        }
        out.reserve(1, 1)?;
        let letters = self.most_endings() + 1;
        self.kept.reserve(letters, self.paused.len())?;
        let id = row.id;
        let op = OpName {
            client: self.number,
            k: row.k,
        };
        let bound = self.target(at);
        self.operations.push(row)?;
        self.asked += 1;
        self.moment = at;
        self.put(at, What::In { id, rest }, out);
        let want = Want {
            kind: ConnKind::Regular,
            bound,
        };
        out.letters.put(Posted {
            to: PartName::Desk,
            letter: Letter::Ask { op, want },
        });
        Ok(())
    }

    /// What the client is bound to at a moment.
    fn target(&self, at: u64) -> Bound
        ensures { (s : Settings) (p : ClientState) → Stands s p self.now → p.gone ≡ false → result ≡ target s p at }
    {
        self.window.target(at)
    }

    /// The row of the next operation, which has no connection yet, with its request as it goes upstream.
    pub(crate) fn next_row(
        &self,
        id: u32,
        kind: OpKind,
        action: Action,
        sent: Body,
    ) -> Result<Row, NoMemory>
        requires { self.now.operations.count < 18446744073709551615 }
        ensures row { IfOk result (λ row. (s : Settings) (p : ClientState) (rest : List ℕ) → Stands s p self.now → kind_of_rest rest ≡ Some kind → sent ≡ carried_for s (record { id = id; rest = rest }) p.identity → action_view action ≡ action_of s rest → shown row ≡ seen s (waiting_row s p (record { id = id; rest = rest }))) }
        ensures number { IfOk result (λ row. row.k ≡ self.now.operations.count + 1) }
        ensures id { IfOk result (λ row. row.id ≡ id) }
    {
        let who = simple_who(self.alloc, sent.as_slice())?;
        Ok(Row {
            k: self.operations.count() + 1,
            id,
            kind,
            action,
            restricts: self.restricts(action),
            who,
            way: Way::Waits(sent),
        })
    }

    /// Whether an operation with this action binds its client to where it goes.
    fn restricts(&self, action: Action) -> bool
        ensures { (s : Settings) → Agrees s self.now.settings → result ≡ restricts s (action_view action) }
    {
        match action {
            Action::Backend | Action::Connection => true,
            Action::Write => self.settings.write_coherence != 0,
            Action::Ignore | Action::Reject => false,
        }
    }

    /// A request of this kind as it goes upstream: a Bind as it came, another with the identity of its client where that
    /// is to be carried (RFC 4370).
    pub(crate) fn carried(&self, kind: OpKind, rest: &[u8]) -> Result<Body, NoMemory>
        ensures { IfOk result (λ sent. (s : Settings) (p : ClientState) (id : ℕ) → Stands s p self.now → kind_of_rest rest.now ≡ Some kind → sent ≡ carried_for s (record { id = id; rest = rest.now }) p.identity) }
    {
        if is_bind(kind) {
            return Ok(Body::from_slice(self.alloc, rest)?);
        }
        Ok(self.identified(rest)?)
    }

    /// A request with the identity of its client, where that is to be carried. One of more octets than any link brings
    /// gives want of memory.
    fn identified(&self, rest: &[u8]) -> Result<Body, NoMemory>
        ensures { IfOk result (λ sent. (s : Settings) (p : ClientState) → Stands s p self.now → sent ≡ proxied s rest.now p.identity) }
    {
        if !self.settings.proxyauthz {
            return Ok(Body::from_slice(self.alloc, rest)?);
        }
        if rest.len() > MOST_CARRIED || self.identity.len() > MOST_CARRIED {
            return Err(NoMemory);
        }
        let who = self.identity.as_slice();
        Ok(proxied(self.alloc, rest, who, self.settings.own_name())?)
    }
}

/// The identity that a request gives where it is a simple Bind (RFC 4513, section 5.1).
fn simple_who(alloc: Global, rest: &[u8]) -> Result<Option<Body>, NoMemory>
    ensures { IfOk result (λ who. who ≡ simple_who (request_of rest.now)) }
{
    match classify(rest) {
        Some(
            Request::Bind(
                BindRequest {
                    name,
                    method: Method::Simple { password },
                    ..
                },
            ),
        ) => Ok(Some(simple_identity(alloc, name, password)?)),
        _ => Ok(None),
    }
}

ghost use Rattle.std.specs.Prelude.{◌≡◌, ◌∷◌, [], not, ◌==◌, ◌&&◌, length, Some, None, IsSome, MatchOption};
ghost use Rattle.ldap_spec.specs.Kinds.{is_unbind, is_abandon, kind_of as kind_of_rest};
ghost use Rattle.ldap_spec.specs.Requests.{request as request_of, cancel_id as id_of_cancel};
ghost use Rattle.ldap_messages.specs.Requests.{view};
ghost use Rattle.lload_spec.specs.Entries.{makes_operation};
ghost use Rattle.lload_spec.specs.FirstCheck.{check as check_of, check_named as check_named_of, check_restrictions as check_restrictions_of, check_cancel as check_cancel_of, is_full as is_full_by, is_in_use as is_in_use_by, is_proxied_already as is_proxied_by};
ghost use Rattle.lload_spec.specs.Settings.{Settings};
ghost use Rattle.std.specs.Prelude.{ℕ, List};
ghost use Rattle.lload_spec.specs.Binding.{is_action};
ghost use Rattle.lload_spec.specs.Settings.{Reject};
ghost use Rattle.restrictions.specs.Actions.{action_view};
ghost use Rattle.part_spec.specs.ClientState.{ClientState, check_at};
ghost use Rattle.client_session.specs.Stands.{Stands};
ghost use Rattle.client_session.specs.Checks.{check_view, facts, Agrees, HasAction, name_of};

use crate::part::ClientPart;
use ldap_controls::{has, of_rest};
use ldap_messages::{Request, classify};
use lload_cancel::cancel_id;
use lload_names::{CancelAnswer, EndWhy, OpKind, Refusal};
use proxy_authz::{PROXIED_AUTHORIZATION, privileged};
use restrictions::Action;

/// The OID of StartTLS (RFC 4511, section 4.14).
const START_TLS: &[u8] = b"1.3.6.1.4.1.1466.20037";

/// The OID of Cancel (RFC 3909, section 2.1).
const CANCEL: &[u8] = b"1.3.6.1.1.8";

/// What the first check that holds of a message does.
#[derive(Clone, Copy, Debug, PartialEq, Eq, Drop)]
pub enum Check {
    /// It ends the client, with the protocol error notice.
    Ends(EndWhy),
    /// The client leaves.
    Unbinds,
    /// It takes an Abandon of this identifier.
    Abandons(u32),
    /// It refuses the request.
    Refuses(Refusal),
    /// It answers a Cancel that ends nothing.
    Answers(CancelAnswer),
    /// It ends the live operation with this identifier and of this kind, by a Cancel.
    Cancels { id: u32, kind: OpKind },
    /// The request goes on, with this effective action.
    GoesOn(Action),
}

impl ClientPart {
    /// What the first check does that holds of a message, in the order of the checks: it ends the client, takes an
    /// Unbind or an Abandon, refuses, answers or follows a Cancel, or lets the request go on, with its effective action.
    /// It takes no memory.
    pub fn first_check(&self, id: u32, rest: &[u8]) -> Check
        ensures check { (s : Settings) (p : ClientState) → Stands s p self.now → check_view result ≡ check_at s p (record { id = id; rest = rest.now }) }
        ensures action { (s : Settings) (p : ClientState) → Stands s p self.now → HasAction s rest.now result }
    {
        self.check(id, rest)
    }

    /// The same, by the facts that the part keeps.
    fn check(&self, id: u32, rest: &[u8]) -> Check
        ensures check { (s : Settings) → Agrees s self.now.settings → check_view result ≡ check_of s (facts self.now) (record { id = id; rest = rest.now }) }
        ensures action { (s : Settings) → Agrees s self.now.settings → HasAction s rest.now result }
    {
        if id == 0 {
            return Check::Ends(EndWhy::ZeroId);
        }
        if makes_operation(rest) && self.is_in_use(id) {
            return Check::Ends(EndWhy::IdInUse);
        }
        match classify(rest) {
            None => Check::Ends(EndWhy::Unreadable),
            Some(Request::Bind(bind)) => {
                if bind.version == 3 {
                    Check::GoesOn(Action::Ignore)
                } else {
                    Check::Refuses(Refusal::C11)
                }
            }
            Some(Request::Unbind) => Check::Unbinds,
            Some(Request::Abandon { id }) => Check::Abandons(id),
            Some(request) => self.check_named(id, rest, &request),
        }
    }

    /// The checks of a request other than Bind, Unbind and Abandon.
    fn check_named(&self, id: u32, rest: &[u8], request: &Request<'_>) -> Check
        requires { request_of rest.now ≡ Some (view request.now) }
        ensures check { (s : Settings) → Agrees s self.now.settings → check_view result ≡ check_named_of s (facts self.now) (record { id = id; rest = rest.now }) (name_of request.now) }
        ensures action { (s : Settings) → Agrees s self.now.settings → HasAction s rest.now result }
    {
        if of_rest(rest).is_none() {
            return Check::Ends(EndWhy::Unreadable);
        }
        if self.in_exchange {
            return Check::Refuses(Refusal::C7);
        }
        let name = name_of(request);
        if name == START_TLS {
            return Check::Refuses(Refusal::C10);
        }
        if name == CANCEL {
            return self.check_cancel(id, cancel_id(rest));
        }
        self.check_restrictions(rest, request)
    }

    /// The check of a Cancel that names an identifier, where its value can be read (RFC 3909, section 2.3).
    fn check_cancel(&self, id: u32, named: Option<u32>) -> Check
        ensures check { check_view result ≡ check_cancel_of (facts self.now) id named }
        ensures action { (s : Settings) (rest : List ℕ) → HasAction s rest result }
    {
        let Some(named) = named else {
            return Check::Answers(CancelAnswer::C16);
        };
        if named == id {
            return Check::Answers(CancelAnswer::C15);
        }
        match self.operations.under(named) {
            Some(row) if !row.is_bind() => Check::Cancels {
                id: row.id,
                kind: row.kind,
            },
            _ => Check::Answers(CancelAnswer::C14),
        }
    }

    /// The checks of identity, restrictions and count.
    fn check_restrictions(&self, rest: &[u8], request: &Request<'_>) -> Check
        requires { request_of rest.now ≡ Some (view request.now) }
        ensures check { (s : Settings) → Agrees s self.now.settings → check_view result ≡ check_restrictions_of s (facts self.now) rest.now }
        ensures action { (s : Settings) → Agrees s self.now.settings → HasAction s rest.now result }
    {
        if self.is_proxied_already(rest) {
            return Check::Refuses(Refusal::C8);
        }
        let action = self.settings.restrictions.effective(request, rest);
        if is_reject(action) {
            return Check::Refuses(Refusal::C6);
        }
        if self.is_full() {
            return Check::Refuses(Refusal::C2);
        }
        Check::GoesOn(action)
    }

    /// Whether the identifier is one of a live operation.
    pub(crate) fn is_in_use(&self, id: u32) -> bool
        ensures { result ≡ is_in_use_by (facts self.now) id }
    {
        self.operations.under(id).is_some()
    }

    /// Whether a client that isn't privileged asks for proxied authorization itself, with the feature on.
    fn is_proxied_already(&self, rest: &[u8]) -> bool
        ensures { (s : Settings) → Agrees s self.now.settings → result ≡ is_proxied_by s (facts self.now) rest.now }
    {
        let asks = self.settings.proxyauthz && has(rest, PROXIED_AUTHORIZATION.as_bytes());
        asks && !privileged(self.identity.as_slice(), self.settings.own_name())
    }

    /// Whether as many operations are live as a client may have.
    fn is_full(&self) -> bool
        ensures { (s : Settings) → Agrees s self.now.settings → result ≡ is_full_by s (facts self.now) }
    {
        let most = self.settings.max_pending;
        most != 0 && most as usize <= self.operations.len()
    }
}

/// The name of an Extended request, and none of another.
fn name_of<'a>(request: &Request<'a>) -> &'a [u8]
    ensures { result.now ≡ name_of request.now }
{
    match request {
        Request::Extended { name } => *name,
        _ => b"",
    }
}

/// Whether a request with this rest makes an operation: it is no Unbind and no Abandon, told by its first octet.
pub(crate) fn makes_operation(rest: &[u8]) -> bool
    ensures { result ≡ (not (is_unbind rest.now) && not (is_abandon rest.now)) }
{
    match rest.first() {
        Some(tag) => *tag != 0x42 && *tag != 0x50,
        None => true,
    }
}

/// The kind of the request that a rest begins with, told by its first octet (RFC 4511, section 4.1.1).
pub(crate) fn kind_of(rest: &[u8]) -> Option<OpKind>
    ensures { result ≡ kind_of_rest rest.now }
{
    match rest.first()? {
        0x60 => Some(OpKind::Bind),
        0x63 => Some(OpKind::Search),
        0x66 => Some(OpKind::Modify),
        0x68 => Some(OpKind::Add),
        0x4A => Some(OpKind::Delete),
        0x6C => Some(OpKind::ModifyDn),
        0x6E => Some(OpKind::Compare),
        0x77 => Some(OpKind::Extended),
        _ => None,
    }
}

/// Whether an action is to refuse.
fn is_reject(action: Action) -> bool
    ensures { result ≡ is_action Reject (action_view action) }
{
    matches!(action, Action::Reject)
}

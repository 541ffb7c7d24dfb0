ghost use Rattle.std.specs.Prelude.{◌≡◌, ℕ, List};
ghost use Rattle.ldap_messages.specs.Responses.{IsResponse};
ghost use Rattle.upstream_conn.specs.Told.{told_of, own_told};

use ldap_messages::{ResponseKind, fits, response_kind, result_code};
use lload_names::OpKind;

/// What a message tells of the operation that it is under.
#[derive(Clone, Copy, Debug, PartialEq, Eq, Drop)]
pub enum Told {
    /// It can't answer the operation.
    Unfit,
    /// An answer, behind which others come.
    More,
    /// The last answer.
    Last,
}

/// What a message tells of the own Bind that it is under.
#[derive(Clone, Copy, Debug, PartialEq, Eq, Drop)]
pub enum OwnTold {
    /// It is no Bind response.
    Unfit,
    /// The Bind succeeded.
    Success,
    /// It didn't.
    Refused,
}

/// What the rest of a message tells of an operation of this kind (RFC 4511, sections 4.1.9, 4.5.2 and 4.13).
pub fn told_of(kind: OpKind, rest: &[u8]) -> Told
    ensures { result ≡ told_of kind rest.now }
{
    match response_kind(rest) {
        Some(response) => told_by(kind, response),
        None => Told::Unfit,
    }
}

/// The same by the kind of the response.
fn told_by(kind: OpKind, response: ResponseKind) -> Told
    ensures { (rest : List ℕ) → IsResponse rest response → result ≡ told_of kind rest }
{
    if !fits(kind, response) {
        return Told::Unfit;
    }
    match response {
        ResponseKind::Final(_) => Told::Last,
        _ => Told::More,
    }
}

/// What the rest of a message tells of the own Bind (RFC 4511, section 4.2.2).
pub fn own_told(rest: &[u8]) -> OwnTold
    ensures { result ≡ own_told rest.now }
{
    if rest.first() != Some(&0x61) {
        return OwnTold::Unfit;
    }
    match result_code(rest) {
        Some(0) => OwnTold::Success,
        _ => OwnTold::Refused,
    }
}

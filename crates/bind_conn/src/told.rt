ghost use Rattle.std.specs.Prelude.{◌≡◌};
ghost use Rattle.ldap_spec.specs.Responses.{tells_who};
ghost use Rattle.bind_conn.specs.Told.{told_of, by_code, who_told};

use ldap_messages::{result_code, who_value};
use proxy_authz::readable_who;

/// What a message tells of the Bind that it is under.
#[derive(Clone, Copy, Debug, PartialEq, Eq, Drop)]
pub enum Told {
    /// It can't answer a Bind.
    Unfit,
    /// An intermediate response, behind which others come.
    More,
    /// The Bind is in progress: its exchange goes on with a further Bind.
    Going,
    /// A success whose identity is asked for.
    Success,
    /// The last answer.
    Done,
}

/// What a message tells of the Who Am I that it is under.
#[derive(Clone, Copy, Debug, PartialEq, Eq, Drop)]
pub enum WhoTold {
    /// It can't answer a Who Am I.
    Unfit,
    /// An intermediate response, behind which others come.
    More,
    /// It tells the identity.
    Tells,
    /// It is the last answer, and tells none.
    Refuses,
}

/// What the rest of a message tells of a Bind, whose identity is asked for or not (RFC 4511, section 4.2.2).
pub(crate) fn told_of(ask_who: bool, rest: &[u8]) -> Told
    ensures { result ≡ told_of ask_who rest.now }
{
    if rest.first() == Some(&0x79) {
        return Told::More;
    }
    if rest.first() != Some(&0x61) {
        return Told::Unfit;
    }
    match result_code(rest) {
        Some(code) => by_code(ask_who, code),
        None => Told::Unfit,
    }
}

/// The same by the result code.
fn by_code(ask_who: bool, code: u32) -> Told
    ensures { result ≡ by_code ask_who code }
{
    if code == 14 {
        return Told::Going;
    }
    if ask_who && code == 0 {
        return Told::Success;
    }
    Told::Done
}

/// Whether a response to a Who Am I tells an identity (RFC 4532, section 2.2).
fn tells_who(rest: &[u8]) -> bool
    ensures { result ≡ tells_who rest.now }
{
    result_code(rest) == Some(0) && readable_who(who_value(rest))
}

/// What the rest of a message tells of a Who Am I.
pub(crate) fn who_told(rest: &[u8]) -> WhoTold
    ensures { result ≡ who_told rest.now }
{
    if rest.first() == Some(&0x79) {
        return WhoTold::More;
    }
    if rest.first() != Some(&0x78) {
        return WhoTold::Unfit;
    }
    if tells_who(rest) {
        return WhoTold::Tells;
    }
    WhoTold::Refuses
}

ghost use Rattle.std.specs.Prelude.{◌≡◌, ◌↔◌, ℕ, List, false, None, Some, Option, IsTrue, IsSome, IfSome, IfNone, MatchOption};
ghost use Rattle.ldap_spec.specs.Kinds.{is_response, response_tag, fits as may_answer};
ghost use Rattle.ldap_spec.specs.Responses.{result_code as code_of, who_value as value_of};
ghost use Rattle.ldap_messages.specs.Parts.{IsPart};
ghost use Rattle.ldap_messages.specs.Responses.{IsResponse, fits_kind};

use crate::parts::{first_part, tagged_part};
use ber_envelope::integer_of;
use lload_names::OpKind;

/// The kinds of response (RFC 4511, sections 4.2.2, 4.5.2, 4.6 to 4.10, 4.12 and 4.13).
#[derive(Clone, Copy, Debug, PartialEq, Eq, Drop)]
pub enum ResponseKind {
    /// An entry that a Search found.
    Entry,
    /// A reference that a Search found.
    Reference,
    /// An intermediate response.
    Intermediate,
    /// The last response to a request of this kind.
    Final(OpKind),
}

/// The kind of response that a rest is, told by its first octet; `None` exactly where that is no response's. It takes
/// no memory.
pub fn response_kind(rest: &[u8]) -> Option<ResponseKind>
    ensures some { IfSome result (λ response. IsResponse rest.now response) }
    ensures none { IsSome result ↔ IsTrue (is_response rest.now) }
{
    match rest.first()? {
        0x61 => Some(ResponseKind::Final(OpKind::Bind)),
        0x64 => Some(ResponseKind::Entry),
        0x65 => Some(ResponseKind::Final(OpKind::Search)),
        0x67 => Some(ResponseKind::Final(OpKind::Modify)),
        0x69 => Some(ResponseKind::Final(OpKind::Add)),
        0x6B => Some(ResponseKind::Final(OpKind::Delete)),
        0x6D => Some(ResponseKind::Final(OpKind::ModifyDn)),
        0x6F => Some(ResponseKind::Final(OpKind::Compare)),
        0x73 => Some(ResponseKind::Reference),
        0x78 => Some(ResponseKind::Final(OpKind::Extended)),
        0x79 => Some(ResponseKind::Intermediate),
        _ => None,
    }
}

/// Whether a response may answer a request of this kind (RFC 4511, sections 4.5.2 and 4.13): its last response, an
/// intermediate one, and for a Search an entry or a reference. It takes no memory.
pub fn fits(kind: OpKind, response: ResponseKind) -> bool
    ensures table { result ≡ fits_kind kind response }
    ensures rests { (rest : List ℕ) → IsResponse rest response → result ≡ may_answer kind rest }
{
    match response {
        ResponseKind::Intermediate => true,
        ResponseKind::Entry | ResponseKind::Reference => matches!(kind, OpKind::Search),
        ResponseKind::Final(answered) => final_tag(answered) == final_tag(kind),
    }
}

/// The tag of the last response to a request of this kind.
pub(crate) fn final_tag(kind: OpKind) -> u8
    ensures { result ≡ response_tag kind }
{
    match kind {
        OpKind::Bind => 0x61,
        OpKind::Search => 0x65,
        OpKind::Modify => 0x67,
        OpKind::Add => 0x69,
        OpKind::Delete => 0x6B,
        OpKind::ModifyDn => 0x6D,
        OpKind::Compare => 0x6F,
        OpKind::Extended => 0x78,
    }
}

/// The result code of a response (RFC 4511, section 4.1.9); `None` exactly where the rest is no response, or its first
/// inner element is no result code of one to four octets that isn't negative. It takes no memory.
pub fn result_code(rest: &[u8]) -> Option<u32>
    ensures { result ≡ code_of rest.now }
{
    response_kind(rest)?;
    let response = first_part(rest)?;
    let code = tagged_part(response.contents, 0x0A)?;
    integer_of(code.contents)
}

/// The response value of an extended response, which for Who Am I is the identity (RFC 4532, section 2.2); `None`
/// exactly where no inner element that can be read has its tag. It lends a part of the rest and takes no memory.
pub fn who_value(rest: &[u8]) -> Option<&[u8]>
    ensures value { MatchOption result (value_of rest.now ≡ None) (λ value. value_of rest.now ≡ Some value.now) }
    ensures lent { IfSome result (λ value. IsPart rest.now value.now) }
{
    let mut left = first_part(rest)?.contents;
    while let Some(part) = first_part(left) {
        if part.tag == 0x8B {
            return Some(part.contents);
        }
        left = part.behind;
    }
    None
}

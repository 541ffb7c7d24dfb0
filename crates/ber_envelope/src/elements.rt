ghost use Rattle.std.specs.Prelude.{◌≡◌, ◌≤◌, List, length, drop, IsSome, IfSome, ◌<◌, None, MatchOption};
ghost use Rattle.ldap_spec.specs.Elements.{first_element, elements};
ghost use Rattle.ldap_spec.specs.Streams.{bad_element};
ghost use Rattle.ber_envelope.specs.Places.{IsElementAt};

use crate::lengths::{Length, length_at_front};

/// An element of some bytes: its tag, the place where its contents begin, and the place where they end.
#[derive(Clone, Copy, Debug, PartialEq, Eq, Drop)]
pub struct Element {
    pub tag: u8,
    pub body_at: usize,
    pub end: usize,
}

/// The element that begins at a place; `None` exactly where none is whole there (RFC 4511, section 5.1; this
/// project's own: tags of one octet, lengths of at most four octets behind the first).
pub fn element_at(bytes: &[u8], at: usize) -> Option<Element>
    ensures { MatchOption result (first_element (drop at bytes.now) ≡ None) (λ e. IsElementAt bytes.now at e) }
{
    let (tag, behind) = bytes.get(at..)?.split_first()?;
    if *tag % 32 == 31 {
        return None;
    }
    let Length::Whole { size, value } = length_at_front(behind) else {
        return None;
    };
    let body_at = at + 1 + size;
    let length = value as usize;
    if length > bytes.len() - body_at {
        return None;
    }
    Some(Element {
        tag: *tag,
        body_at,
        end: body_at + length,
    })
}

/// The place of the first element that can't be read; `None` exactly where the bytes are whole elements.
pub(crate) fn first_unread(bytes: &[u8]) -> Option<usize>
    ensures place { MatchOption result (IsSome (elements bytes.now)) (λ at. (elements bytes.now ≡ None) × (bad_element (length bytes.now) bytes.now ≡ at)) }
    ensures within { IfSome result (λ at. at < length bytes.now) }
{
    let mut at = 0;
    while at < bytes.len() {
        match element_at(bytes, at) {
            Some(element) => at = element.end,
            None => return Some(at),
        }
    }
    None
}

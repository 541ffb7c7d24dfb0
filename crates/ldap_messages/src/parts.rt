ghost use Rattle.std.specs.Prelude.{◌≡◌, None, IfSome, MatchOption};
ghost use Rattle.ldap_spec.specs.Elements.{first_element, first_tagged};
ghost use Rattle.ldap_messages.specs.Parts.{IsFirst, ArePartsOf};

use ber_envelope::element_at;

/// The first element of some bytes, by its tag, its contents, and what stands behind it.
#[derive(Clone, Copy)]
pub struct Part<'a> {
    pub tag: u8,
    pub contents: &'a [u8],
    pub behind: &'a [u8],
}

/// The first element, where one is whole. It lends parts of the bytes and takes no memory.
pub fn first_part(bytes: &[u8]) -> Option<Part<'_>>
    ensures first { MatchOption result (first_element bytes.now ≡ None) (λ p. IsFirst (first_element bytes.now) p) }
    ensures lent { IfSome result (ArePartsOf bytes.now) }
{
    let element = element_at(bytes, 0)?;
    Some(Part {
        tag: element.tag,
        contents: &bytes[element.body_at..element.end],
        behind: &bytes[element.end..],
    })
}

/// The first element, where one is whole and has this tag. It lends parts of the bytes and takes no memory.
pub fn tagged_part(bytes: &[u8], tag: u8) -> Option<Part<'_>>
    ensures first { MatchOption result (first_tagged tag bytes.now ≡ None) (λ p. IsFirst (first_tagged tag bytes.now) p) }
    ensures lent { IfSome result (ArePartsOf bytes.now) }
{
    let part = first_part(bytes)?;
    if part.tag == tag { Some(part) } else { None }
}

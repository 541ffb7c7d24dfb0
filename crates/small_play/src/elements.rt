ghost use Rattle.std.specs.Prelude.{◌≡◌};
ghost use Rattle.small_spec.specs.Standing.{is_one_element as is_one_element_of};

use ber_envelope::element_at;

/// Whether the bytes are one whole element with this tag.
pub(crate) fn is_one_element(tag: u8, bytes: &[u8]) -> bool
    ensures { result ≡ is_one_element_of tag bytes.now }
{
    match element_at(bytes, 0) {
        Some(element) => element.tag == tag && element.end == bytes.len(),
        None => false,
    }
}

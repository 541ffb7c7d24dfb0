ghost use Rattle.std.specs.Prelude.{◌≡◌, ℕ, Option, length};
ghost use Rattle.ldap_spec.specs.Elements.{integer_of as integer_from, shortest_integer};

use crate::lengths::number_of_octets;

/// The number of an INTEGER or ENUMERATED of one to four octets that isn't negative; `None` exactly where the octets
/// are none such (RFC 4511, section 5.1; this project's own: at most four octets, which needn't be minimal).
pub fn integer_of(octets: &[u8]) -> Option<u32>
    ensures { result ≡ integer_from octets.now }
{
    if octets.is_empty() || octets.len() > 4 || octets[0] > 0x7F {
        return None;
    }
    Some(number_of_octets(octets))
}

/// How many octets the shortest integer has.
pub(crate) fn integer_size(number: u32) -> usize
    ensures { result ≡ length (shortest_integer number) }
{
    match number {
        0..=0x7F => 1,
        0x80..=0x7FFF => 2,
        0x8000..=0x7F_FFFF => 3,
        _ => 4,
    }
}

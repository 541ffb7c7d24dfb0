ghost use Rattle.std.specs.Prelude.{◌≡◌};
ghost use Rattle.ldap_spec.specs.Requests.{cancel_id as id_of_cancel};

use ber_envelope::integer_of;
use ldap_messages::tagged_part;

/// The identifier that the value of an Extended request names, read as that of a Cancel (RFC 3909, section 2.1); `None`
/// exactly where it can't be read. What stands behind the number, and behind the value, isn't looked at. It takes no
/// memory.
pub fn cancel_id(rest: &[u8]) -> Option<u32>
    ensures { result ≡ id_of_cancel rest.now }
{
    let request = tagged_part(rest, 0x77)?;
    let name = tagged_part(request.contents, 0x80)?;
    let value = tagged_part(name.behind, 0x81)?;
    let sequence = tagged_part(value.contents, 0x30)?;
    if !sequence.behind.is_empty() {
        return None;
    }
    let number = tagged_part(sequence.contents, 0x02)?;
    integer_of(number.contents)
}

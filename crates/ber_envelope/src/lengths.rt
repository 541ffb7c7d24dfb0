ghost use Rattle.std.specs.Prelude.{◌≡◌, ◌+◌, ◌≤◌, ◌∷◌, length};
ghost use Rattle.ldap_spec.specs.Elements.{number_of};
ghost use Rattle.ber_envelope.specs.Lengths.{IsLength};

/// What some bytes begin with, read as a length.
#[derive(Clone, Copy, Drop)]
pub(crate) enum Length {
    /// A length of so many octets that spells this value.
    Whole { size: usize, value: u32 },
    /// The beginning of a length of so many octets, or nothing.
    Short { size: usize },
    /// No length that is read: indefinite, reserved, or of more than four octets behind the first.
    Unread,
}

/// The length that the bytes begin with.
pub(crate) fn length_at_front(bytes: &[u8]) -> Length
    ensures { IsLength bytes.now result }
{
    let Some((first, behind)) = bytes.split_first() else {
        return Length::Short { size: 1 };
    };
    match *first {
        0x00..=0x7F => Length::Whole {
            size: 1,
            value: u32::from(*first),
        },
        0x81..=0x84 => long_length(usize::from(*first) - 0x80, behind),
        _ => Length::Unread,
    }
}

/// The length behind a first octet that says how many octets follow it.
fn long_length(count: usize, behind: &[u8]) -> Length
    requires few { count ≤ 4 }
    requires some { 1 ≤ count }
    ensures { IsLength ((128 + count) ∷ behind.now) result }
{
    let size = 1 + count;
    match behind.get(..count) {
        Some(octets) => Length::Whole {
            size,
            value: number_of_octets(octets),
        },
        None => Length::Short { size },
    }
}

/// The number of at most four octets, most significant first.
pub(crate) fn number_of_octets(octets: &[u8]) -> u32
    requires { length octets.now ≤ 4 }
    ensures { result ≡ number_of octets.now }
{
    let mut number: u32 = 0;
    for octet in octets {
        number = 256 * number + u32::from(*octet);
    }
    number
}

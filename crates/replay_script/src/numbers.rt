ghost use Rattle.std.specs.Prelude.{◌≡◌, ◌<◌, ◌+◌, ◌-◌, ◌*◌, ◌^◌, IsTrue, SomeIff};
ghost use Rattle.lload_spec.specs.Script.{is_digit, number_of, part_number};
ghost use Rattle.replay_script.specs.Digits.{digits_behind};

/// The number that a word says in decimal, with no zero in front of other digits.
pub fn read_u64(word: &[u8]) -> Option<u64>
    ensures { result ≡ number_of 0 (2 ^ 64) word.now }
{
    match word {
        [] | [b'0', _, ..] => None,
        _ => read_digits(word),
    }
}

/// The number that a word says in decimal, where it is a u32.
pub fn read_u32(word: &[u8]) -> Option<u32>
    ensures { result ≡ number_of 0 (2 ^ 32) word.now }
{
    u32::try_from(read_u64(word)?).ok()
}

/// The number of a client or a connection that a word says.
pub fn read_part_number(word: &[u8]) -> Option<u32>
    ensures { result ≡ part_number word.now }
{
    match read_u32(word)? {
        0 => None,
        number => Some(number),
    }
}

/// The number that decimal digits say.
fn read_digits(digits: &[u8]) -> Option<u64>
    ensures { result ≡ digits_behind (2 ^ 64) 0 digits.now }
{
    let mut number = 0u64;
    for digit in digits {
        if !digit.is_ascii_digit() {
            return None;
        }
        number = with_digit(number, *digit)?;
    }
    Some(number)
}

/// The number with one digit more, where it fits.
fn with_digit(number: u64, digit: u8) -> Option<u64>
    requires { IsTrue (is_digit digit) }
    ensures { SomeIff result (10 * number + (digit - 48) < 2 ^ 64) (10 * number + (digit - 48)) }
{
    number.checked_mul(10)?.checked_add(u64::from(digit - b'0'))
}

//! Names that stand for integer keys.

ghost use Rattle.std.specs.Prelude.{◌≡◌, ◌<◌, ◌^◌, ℕ, List};
ghost use Rattle.cbor_serde_options.specs.IntegerKeys.{has_plain_front, key_number, magnitude, number_from};

// The number of these digits after those of another, of at most 65 bits.
#[cycle(number_from)]
fn number_from(n: u128, digits: &[u8]) -> Option<u128>
    requires { n < 2 ^ 68 }
    ensures { result ≡ number_from n digits.now }
{
    match digits {
        [] => Some(n),
        [b, rest @ ..] => {
            if b.is_ascii_digit() && n < 1 << 64 {
                number_from(n * 10 + (*b - b'0') as u128, rest)
            } else {
                None
            }
        }
    }
}

// Whether the digits have no zero in front, but for 0 alone.
fn has_plain_front(digits: &[u8]) -> bool
    ensures { result ≡ has_plain_front digits.now }
{
    match digits {
        [] => false,
        [_] => true,
        [b, ..] => *b != b'0',
    }
}

// The number that these digits alone are.
fn magnitude(digits: &[u8]) -> Option<u128>
    ensures { result ≡ magnitude digits.now }
{
    if has_plain_front(digits) {
        number_from(0, digits)
    } else {
        None
    }
}

/// The integer from -2^64 to 2^64 - 1 of which this is the decimal text: with no `+`, no zero in
/// front, and no `-0`. None, where it is of no such integer.
pub fn number_of(name: &str) -> Option<i128>
    ensures { result ≡ key_number name.now }
{
    match name.as_bytes() {
        [] => None,
        [b'-', digits @ ..] => match magnitude(digits) {
            Some(n) if 0 < n && n <= 1 << 64 => Some(-(n as i128)),
            _ => None,
        },
        digits => match magnitude(digits) {
            Some(n) if n < 1 << 64 => Some(n as i128),
            _ => None,
        },
    }
}

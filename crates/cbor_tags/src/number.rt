//! Numbers of 128 bits, as bytes in network byte order.

ghost use Rattle.std.specs.Prelude.{◌≡◌, ◌≤◌, ◌^◌, IfOk, MatchOption};
ghost use Rattle.cbor_io.specs.Compare.{big_endian};
ghost use Rattle.cbor_tags.specs.Numbers.{HasNoLeadingZero};

use std::alloc::{AllocError, Global};

// Below this, eight more bits fit.
const ROOM: u128 = 1 << 120;

/// The number that these bytes are, or None where 128 bits don't hold it.
pub fn number_of(bytes: &[u8]) -> Option<u128>
    ensures { MatchOption result (2 ^ 128 ≤ big_endian bytes.now)
        (λ n. n ≡ big_endian bytes.now) }
{
    let mut number: u128 = 0;
    for byte in bytes {
        if number >= ROOM {
            return None;
        }
        number = number * 256 + u128::from(*byte);
    }
    Some(number)
}

/// The bytes of this number, without a leading zero: of 0, none. It asks for memory for 16.
pub fn shortest(alloc: Global, number: u128) -> Result<Vec<u8>, AllocError>
    ensures value { IfOk result (λ b. big_endian b.items ≡ number) }
    ensures shortest { IfOk result (λ b. HasNoLeadingZero b.items) }
{
    let mut bytes = Vec::with_capacity(alloc, 16)?;
    let mut rest = number;
    while rest != 0 {
        bytes.push((rest % 256) as u8)?;
        rest /= 256;
    }
    bytes.reverse();
    Ok(bytes)
}

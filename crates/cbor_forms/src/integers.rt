//! The integers that floats are.

ghost use Rattle.std.specs.Prelude.{◌≡◌, ◌<◌, ◌^◌, IfSome, leb};
ghost use Rattle.cbor_value.specs.Floats.{number_of};
ghost use Rattle.cbor_value.specs.View.{view};
ghost use Rattle.cbor_forms.specs.Reduced.{integer_of, reduced_number, signed};
ghost use Rattle.cbor_forms.specs.WholeOfBits.{whole_of};

use cbor_value::{Float, Value};
use std::num::f64_to_bits_with_nan;

/// The integer from -2^63 to 2^64 - 1 that a float is, if it is one: those that dCBOR has
/// (draft-mcnally-deterministic-cbor, numeric reduction). Of both zeros it is 0.
///
/// ```rust
/// assert_eq!(rt; integer_of(Float::from(-2.0f64)), Some(-2));
/// assert_eq!(rt; integer_of(Float::from(1.5f64)), None);
/// ```
pub fn integer_of(float: Float) -> Option<i128>
    ensures { result ≡ integer_of (number_of float) }
{
    let bits = f64_to_bits_with_nan(float.to_f64());
    match whole_of(bits) {
        Some(n) => signed(1 << 63 <= bits, n),
        None => None,
    }
}

/// What dCBOR writes of a float (draft-mcnally-deterministic-cbor, numeric reduction): the integer
/// that it is, if it is one from -2^63 to 2^64 - 1, and else the float
/// [`shortened`](Float::shortened). So a NaN is `f9 7e 00`.
///
/// ```rust
/// assert_eq!(rt; reduced_number(Float::from(2.0f64)), Value::Integer(2));
/// assert_eq!(rt; reduced_number(Float::from(1.5f64)), Value::Float(Float::Half(0x3e00)));
/// ```
pub fn reduced_number(float: Float) -> Value
    ensures { view result ≡ reduced_number (number_of float) }
{
    match integer_of(float) {
        Some(i) => Value::Integer(i),
        None => Value::Float(float.shortened()),
    }
}

// The whole number that the bits are, without their sign, if it is below 2^64.
fn whole_of(bits: u64) -> Option<u64>
    ensures value { result ≡ whole_of bits }
{
    let exponent = bits / (1 << 52) % 2048;
    let fraction = bits % (1 << 52);
    if exponent == 0 && fraction == 0 {
        return Some(0);
    }
    let digits = (1 << 52) + fraction;
    if 1023 <= exponent && exponent <= 1074 {
        let unit = 1u64 << (1075 - exponent);
        if digits % unit == 0 {
            return Some(digits / unit);
        }
    }
    if 1075 <= exponent && exponent <= 1086 {
        return Some(digits * (1u64 << (exponent - 1075)));
    }
    None
}

// n with this sign, from -2^63 to 2^64 - 1.
fn signed(is_negative: bool, n: u64) -> Option<i128>
    ensures { result ≡ signed is_negative n }
{
    if !is_negative {
        Some(n as i128)
    } else if n <= 1 << 63 {
        Some(-(n as i128))
    } else {
        None
    }
}

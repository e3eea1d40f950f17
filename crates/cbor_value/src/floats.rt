//! Floats as numbers.

ghost use Rattle.std.specs.Prelude.{◌≡◌, ◌<◌, ◌+◌, false, T, leb, MatchOption, pos};
ghost use Rattle.std.specs.Float.{binary32, binary64};
ghost use Rattle.std.specs.Float.Ieee.{of_bits, to_bits, fits, odd};
ghost use Rattle.cbor_model.specs.Raw.{single, double};
ghost use Rattle.cbor_model.specs.Plain as plain;
ghost use Rattle.cbor_value.specs.declared.Float.TheVariants.{Single, Double};
ghost use Rattle.cbor_value.specs.Floats.{half_parts, half_number, number_of};
ghost use Rattle.cbor_value.specs.View.{view};

use super::{Float, Value};
use std::num::{
    f32_from_bits_with_nan, f32_to_bits_with_nan, f32_to_f64_with_nan, f64_from_bits_with_nan,
    f64_to_bits_with_nan, nearest_f64_to_f32_with_nan,
};

// The digits times 2^exponent / 2^24, by a product that is exact.
fn scaled(digits: u16, exponent: u16) -> f32
    requires few_digits { digits < 2048 }
    requires small { exponent < 31 }
    ensures { result ≡ odd 11 false digits exponent 24 }
{
    let unit = f32::from_bits((exponent as u32 + 103) * 0x80_0000);
    digits as f32 * unit
}

// The number without its sign, by the two parts of its bits.
fn half_size(exponent: u16, fraction: u16) -> f32
    requires exponent { exponent < 32 }
    requires fraction { fraction < 1024 }
    ensures { result ≡ half_parts false exponent fraction }
{
    if exponent == 0 {
        scaled(fraction, 0)
    } else if exponent == 31 {
        if fraction == 0 {
            f32::INFINITY
        } else {
            f32::NAN
        }
    } else {
        scaled(1024 + fraction, exponent - 1)
    }
}

fn half_to_f32(bits: u16) -> f32
    ensures { result ≡ half_number bits }
{
    let size = half_size(bits / 1024 % 32, bits % 1024);
    if 0x8000 <= bits { -size } else { size }
}

// The nearest number of fewer bits, where it is the same.
fn double_to_f32(bits: u64) -> Option<f32>
    ensures { MatchOption result (T (fits binary32 (of_bits binary64 bits)) → ⊥)
        (λ x. x ≡ of_bits binary64 bits) }
{
    let exact = f64_from_bits_with_nan(bits);
    let nearest = nearest_f64_to_f32_with_nan(exact);
    let again = f32_to_f64_with_nan(nearest);
    // The bits tell the zeros apart, and are the same for every NaN.
    if f64_to_bits_with_nan(again) == f64_to_bits_with_nan(exact) {
        Some(nearest)
    } else {
        None
    }
}

impl Float {
    /// The number, which an `f64` holds exactly whatever the width. Zeros and infinities keep their
    /// signs. A NaN gives a NaN, of no particular sign or payload.
    ///
    /// ```rust
    /// assert_eq!(rt; Float::Half(0x3e00).to_f64(), 1.5);
    /// assert_eq!(rt; Float::Single(0xbfc0_0000).to_f64(), -1.5);
    /// ```
    pub fn to_f64(self) -> f64
        ensures { result ≡ number_of self }
    {
        match self {
            Float::Half(bits) => f32_to_f64_with_nan(half_to_f32(bits)),
            Float::Single(bits) => f32_to_f64_with_nan(f32_from_bits_with_nan(bits)),
            Float::Double(bits) => f64_from_bits_with_nan(bits),
        }
    }

    /// The number where an `f32` holds it exactly, and otherwise `None`. A NaN gives a NaN, of no
    /// particular sign or payload.
    ///
    /// ```rust
    /// assert_eq!(rt; Float::from(1.5f64).to_f32(), Some(1.5));
    /// assert_eq!(rt; Float::from(0.1f64).to_f32(), None);
    /// ```
    pub fn to_f32(self) -> Option<f32>
        ensures { MatchOption result (T (fits binary32 (number_of self)) → ⊥)
            (λ x. x ≡ number_of self) }
    {
        match self {
            Float::Half(bits) => Some(half_to_f32(bits)),
            Float::Single(bits) => Some(f32_from_bits_with_nan(bits)),
            Float::Double(bits) => double_to_f32(bits),
        }
    }
}

/// Of 32 bits. A NaN is the quiet NaN `0x7fc0_0000`, since a program can't tell one NaN from
/// another.
impl From<f32> for Float {
    ghost from_gives = { λ x float. float ≡ Single (to_bits binary32 x) };

    fn from(x: f32) -> Float {
        Float::Single(f32_to_bits_with_nan(x))
    }
}

/// Of 64 bits. A NaN is the quiet NaN `0x7ff8_0000_0000_0000`, since a program can't tell one NaN
/// from another.
impl From<f64> for Float {
    ghost from_gives = { λ x float. float ≡ Double (to_bits binary64 x) };

    fn from(x: f64) -> Float {
        Float::Double(f64_to_bits_with_nan(x))
    }
}

/// A float of 32 bits, as `Float::from(x)`.
impl From<f32> for Value {
    ghost from_gives = { λ x v. view v ≡ plain.float single (to_bits binary32 x) };

    fn from(x: f32) -> Value {
        Value::Float(Float::from(x))
    }
}

/// A float of 64 bits, as `Float::from(x)`.
impl From<f64> for Value {
    ghost from_gives = { λ x v. view v ≡ plain.float double (to_bits binary64 x) };

    fn from(x: f64) -> Value {
        Value::Float(Float::from(x))
    }
}

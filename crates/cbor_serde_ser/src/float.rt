//! The widths in which a float is written.

ghost use Rattle.std.specs.Prelude.{◌≡◌};
ghost use Rattle.cbor_serde_ser.specs.Floats.{single_bytes, double_bytes};
ghost use Rattle.cbor_serde_ser.specs.FloatBytes.{encoded_bytes};

use cbor_halves::half_of;
use std::num::{
    f32_to_bits_with_nan, f32_to_f64_with_nan, f64_to_bits_with_nan, nearest_f64_to_f32_with_nan,
};

/// A float in a width that holds it.
#[derive(Clone, Copy)]
pub(crate) enum Encoded {
    Half(u16),
    Single(u32),
    Double(u64),
}

/// A number of 32 bits, in its own width or, where that is asked for, in the shortest.
pub(crate) fn of_single(v: f32, shortest: bool) -> Encoded
    ensures { encoded_bytes result ≡ single_bytes shortest v }
{
    let bits = f32_to_bits_with_nan(v);
    if !shortest {
        return Encoded::Single(bits);
    }
    match half_of(bits) {
        Some(half) => Encoded::Half(half),
        None => Encoded::Single(bits),
    }
}

/// A number of 64 bits, in its own width or, where that is asked for, in the shortest.
pub(crate) fn of_double(v: f64, shortest: bool) -> Encoded
    ensures { encoded_bytes result ≡ double_bytes shortest v }
{
    let bits = f64_to_bits_with_nan(v);
    if !shortest {
        return Encoded::Double(bits);
    }
    let nearest = nearest_f64_to_f32_with_nan(v);
    let again = f32_to_f64_with_nan(nearest);
    // The bits tell the zeros apart, and are the same for every NaN.
    if f64_to_bits_with_nan(again) == bits {
        of_single(nearest, true)
    } else {
        Encoded::Double(bits)
    }
}

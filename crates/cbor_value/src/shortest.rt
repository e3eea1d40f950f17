//! The shortest float of a number.

ghost use Rattle.std.specs.Prelude.{◌≡◌, ◌≤◌};
ghost use Rattle.std.specs.Float.{nan};
ghost use Rattle.cbor_value.specs.declared.Float.{Float};
ghost use Rattle.cbor_value.specs.declared.Float.TheVariants.{Half};
ghost use Rattle.cbor_value.specs.Floats.{number_of};
ghost use Rattle.cbor_value.specs.Shortest.{shortest, width};
ghost use Rattle.cbor_value.specs.View.{float_view};

use super::Float;
use cbor_halves::half_of;
use std::num::{f32_to_bits_with_nan, f64_to_bits_with_nan};

// The shortest float of a number that 32 bits hold.
fn half_or_single(x: f32) -> Float
    ensures shortest { float_view result ≡ shortest x }
    ensures number { number_of result ≡ x }
    ensures narrowest { (other : Float) → number_of other ≡ x → width result ≤ width other }
    ensures not_a_number { x ≡ nan → result ≡ Half 0x7e00 }
{
    let bits = f32_to_bits_with_nan(x);
    match half_of(bits) {
        Some(half) => Float::Half(half),
        None => Float::Single(bits),
    }
}

impl Float {
    /// The float of this number in the narrowest width that holds it exactly (RFC 8949, section
    /// 4.2.1). Zeros and infinities keep their signs. A NaN is `f9 7e 00`, as section 4.2.2 has it
    /// for protocols that don't use its sign and payload. `Float::from` keeps all 64 bits.
    ///
    /// ```rust
    /// assert_eq!(rt; Float::shortest(1.5), Float::Half(0x3e00));
    /// assert_eq!(rt; Float::shortest(0.1), Float::from(0.1f64));
    /// ```
    pub fn shortest(x: f64) -> Float
        ensures shortest { float_view result ≡ shortest x }
        ensures number { number_of result ≡ x }
        // No float of fewer bits is that number.
        ensures narrowest { (other : Float) → number_of other ≡ x → width result ≤ width other }
        ensures not_a_number { x ≡ nan → result ≡ Half 0x7e00 }
    {
        Float::from(x).shortened()
    }

    /// The float of the same number in the narrowest width that holds it exactly, as by
    /// [`shortest`](Float::shortest). A NaN is `f9 7e 00`, whatever its sign and payload.
    ///
    /// ```rust
    /// assert_eq!(rt; Float::Double(0x3ff8_0000_0000_0000).shortened(), Float::Half(0x3e00));
    /// assert_eq!(rt; Float::Single(0xff80_0001).shortened(), Float::Half(0x7e00));
    /// ```
    pub fn shortened(self) -> Float
        ensures shortest { float_view result ≡ shortest (number_of self) }
        ensures number { number_of result ≡ number_of self }
        // No float of fewer bits is that number.
        ensures narrowest { (other : Float) → number_of other ≡ number_of self
            → width result ≤ width other }
        ensures not_a_number { number_of self ≡ nan → result ≡ Half 0x7e00 }
    {
        match self.to_f32() {
            Some(x) => half_or_single(x),
            None => Float::Double(f64_to_bits_with_nan(self.to_f64())),
        }
    }
}

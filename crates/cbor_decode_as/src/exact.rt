//! The numbers that heads are, where a float holds them.

ghost use Rattle.std.specs.Prelude.{◌≡◌, T, MatchOption, pos, negsuc};
ghost use Rattle.std.specs.Float.{binary32};
ghost use Rattle.std.specs.Float.Ieee as ieee;
ghost use Rattle.std.specs.Float.Ieee.{fits};
ghost use Rattle.cbor_decode_as.specs.Scalars.{IsWhole, IsFloatHead, IsSingleHead};

use cbor_decode::Head;
use cbor_value::Float;
use std::num::nearest_u64_to_f64;

// The number n. An f64 holds it where at most 53 binary digits stand before the zeros at its end.
fn from_zero(n: u64) -> Option<f64>
    ensures { MatchOption result ((x : ieee.Float) → IsWhole (pos n) x → ⊥) (λ x. IsWhole (pos n) x) }
{
    if n == 0 {
        return Some(0.0);
    }
    if n >> n.trailing_zeros() < 1 << 53 {
        Some(nearest_u64_to_f64(n))
    } else {
        None
    }
}

// The number -1 - n.
fn below_zero(n: u64) -> Option<f64>
    ensures { MatchOption result ((x : ieee.Float) → IsWhole (negsuc n) x → ⊥)
        (λ x. IsWhole (negsuc n) x) }
{
    if n == u64::MAX {
        return Some(-18446744073709551616.0);
    }
    match from_zero(n + 1) {
        Some(x) => Some(-x),
        None => None,
    }
}

/// The number that a head is, where an `f64` holds it.
#[inline(always)]
pub(crate) fn exact_f64(head: Head) -> Option<f64>
    ensures { MatchOption result ((x : ieee.Float) → IsFloatHead head x → ⊥)
        (λ x. IsFloatHead head x) }
{
    match head {
        Head::Float(float) => Some(float.to_f64()),
        Head::Unsigned(n) => from_zero(n),
        Head::Negative(n) => below_zero(n),
        _ => None,
    }
}

// The same number of fewer bits.
fn narrow(x: f64) -> Option<f32>
    ensures { MatchOption result (T (fits binary32 x) → ⊥) (λ y. y ≡ x) }
{
    Float::from(x).to_f32()
}

/// The number that a head is, where an `f32` holds it.
#[inline(always)]
pub(crate) fn exact_f32(head: Head) -> Option<f32>
    ensures { MatchOption result ((x : ieee.Float) → IsSingleHead head x → ⊥)
        (λ x. IsSingleHead head x) }
{
    if let Head::Float(float) = head {
        return float.to_f32();
    }
    match exact_f64(head) {
        Some(x) => narrow(x),
        None => None,
    }
}

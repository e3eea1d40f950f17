//! The core deterministic encoding, and dCBOR.

ghost use Rattle.std.specs.Prelude.{IfOk, IfErr, OnOk};
ghost use Rattle.cbor_model.specs.Canonical.{IsOrdered};
ghost use Rattle.cbor_model.specs.Document.{IsStorableDocument};
ghost use Rattle.cbor_convert.specs.Meaning.{value_of};
ghost use Rattle.cbor_forms.specs.Shortened.{shortened, reduced, IsReducible, KeepsKeys};
ghost use Rattle.cbor_forms.specs.Deterministic.{IsDcborSpelling, IsDeterministicSpelling};
ghost use Rattle.cbor_forms.specs.Deterministic.{IsNotWrittenIn};
ghost use Rattle.cbor_forms.specs.FormEncoding.{SpellsAtDepth};
ghost use Rattle.cbor_forms.specs.declared.values.Form.TheVariants.{Core, Dcbor};

use crate::values::{reduced, shortened};
use cbor_convert::to_value;
use cbor_io::error::Result;
use cbor_ser::{Serialize, to_vec};
use std::alloc::Global;

/// The core deterministic encoding of what a value of any type stands for (RFC 8949, section
/// 4.2.1): that of `to_vec_canonical`, but with each float in the narrowest width that holds its
/// number, as by `Float::shortened`. So values that differ only in the widths of their
/// floats have the same bytes. A NaN is `f9 7e 00`. What a tag contains isn't looked at: a big
/// number (tags 2 and 3) that an integer could hold stays a big number.
///
/// It refuses what `to_vec` refuses; and a map of which two keys become equal so, as `1.0` of 16
/// and of 64 bits, with the message `Two keys of a map are equal with floats at their shortest`.
///
/// ```rust
/// let bytes = to_vec_deterministic(alloc, &(1.5f64, 0.1f32))?;
/// assert_eq!(rt; bytes.as_slice(), b"\x82\xf9\x3e\0\xfa\x3d\xcc\xcc\xcd".as_slice());
/// ```
pub fn to_vec_deterministic<T: Serialize>(alloc: Global, value: &T) -> Result<Vec<u8>>
    ensures deterministic { IfOk result
        (λ bytes. IsDeterministicSpelling bytes.items (value_of (T.document value.now))) }
    // So it is read back, where it nests at most 127 levels.
    ensures ordered { OnOk result (IsOrdered (shortened (value_of (T.document value.now)))) }
    // However deep it nests, the bytes encode one item, of which it is the value.
    ensures encoded { IfOk result
        (λ bytes. SpellsAtDepth bytes.items (shortened (value_of (T.document value.now)))) }
    // Memory aside, it refuses exactly what can't be stored, and keys that become one.
    ensures storable { OnOk result (IsStorableDocument (T.document value.now)) }
    ensures kept { OnOk result (KeepsKeys (value_of (T.document value.now))) }
    ensures refused { IfErr result (IsNotWrittenIn Core
        (IsStorableDocument (T.document value.now)) (KeepsKeys (value_of (T.document value.now)))) }
{
    let value = to_value(alloc, value)?;
    let value = shortened(alloc, &value)?;
    to_vec(alloc, &value)
}

/// The dCBOR encoding of what a value of any type stands for (draft-mcnally-deterministic-cbor):
/// that of [`to_vec_deterministic`], but a float that is an integer from -2^63 to 2^64 - 1 is
/// encoded as that integer, as by [`reduced_number`](crate::reduced_number()). So numbers that are
/// equal have the same bytes, whether they are integers or floats; -0.0 is `00`.
///
/// It refuses what `to_vec` refuses; a map of which two keys become equal so, as `1` and `1.0`,
/// with the message `Two keys of a map are equal as dCBOR's numbers`; and an integer below -2^63,
/// which dCBOR doesn't have, with `An integer is below -2^63`. Text is encoded as it is: that it
/// is in Unicode's normalization form C, as the draft asks, is left to the caller.
///
/// ```rust
/// let bytes = to_vec_dcbor(alloc, &(2.0f64, 1.5f64, -0.0f64))?;
/// assert_eq!(rt; bytes.as_slice(), b"\x83\x02\xf9\x3e\0\0".as_slice());
/// ```
pub fn to_vec_dcbor<T: Serialize>(alloc: Global, value: &T) -> Result<Vec<u8>>
    ensures dcbor { IfOk result
        (λ bytes. IsDcborSpelling bytes.items (value_of (T.document value.now))) }
    // So it is read back, where it nests at most 127 levels.
    ensures ordered { OnOk result (IsOrdered (reduced (value_of (T.document value.now)))) }
    // However deep it nests, the bytes encode one item, of which it is the value.
    ensures encoded { IfOk result
        (λ bytes. SpellsAtDepth bytes.items (reduced (value_of (T.document value.now)))) }
    // Memory aside, it refuses exactly what can't be stored, and what dCBOR doesn't have: keys that
    // become one, and integers below -2^63.
    ensures storable { OnOk result (IsStorableDocument (T.document value.now)) }
    ensures reducible { OnOk result (IsReducible (value_of (T.document value.now))) }
    ensures refused { IfErr result (IsNotWrittenIn Dcbor
        (IsStorableDocument (T.document value.now))
        (IsReducible (value_of (T.document value.now)))) }
{
    let value = to_value(alloc, value)?;
    let value = reduced(alloc, &value)?;
    to_vec(alloc, &value)
}

//! Laws over calls: what a form's call writes, the form's rules accept.

ghost use Rattle.std.specs.Prelude.{IfErr, OnOk};
ghost use Rattle.cbor_model.specs.Canonical.{canon};
ghost use Rattle.cbor_model.specs.Document.{IsStorableDocument};
ghost use Rattle.cbor_convert.specs.Meaning.{value_of};
ghost use Rattle.cbor_forms.specs.LengthFirst.{length_first};
ghost use Rattle.cbor_forms.specs.Shortened.{IsReducible, KeepsKeys, reduced, shortened};
ghost use Rattle.cbor_forms.specs.declared.values.Form.TheVariants.{Core, Dcbor};
ghost use Rattle.cbor_rules.specs.Presets.{IsReadBack};
ghost use Rattle.cbor_rules.specs.NotReadBack.{IsNotReadBack, IsReadable};

use crate::answers::Refusal;
use crate::canonical_key::are_bytes;
use crate::from::from_slice_with;
use crate::laws::{
    dcbor_written_is_accepted, deterministic_written_is_accepted, length_first_written_is_accepted,
    reduced_has_reduced_numbers, shortened_has_shortest_floats,
};
use crate::settings::Rules;
use cbor_forms::{to_vec_dcbor, to_vec_deterministic, to_vec_length_first};
use cbor_ser::Serialize;
use cbor_value::Value;
use std::alloc::Global;

/// Writes a value by [`to_vec_deterministic`], and reads that by [`Rules::DETERMINISTIC`]: as the
/// value with its floats at their shortest.
///
/// It refuses what `to_vec_deterministic` refuses, and what is nested deeper than the 127 levels
/// that are read; and it returns `OutOfMemory` where an allocation fails. Nothing else is refused:
/// what is written departs from none of the rules.
///
/// ```rust
/// let Ok(value) = write_and_read_deterministic(alloc, &1.5f64) else {
///     return Err(Fail::from("refused"));
/// };
/// assert_eq!(rt; value.as_f64(), Some(1.5));
/// ```
pub fn write_and_read_deterministic<T: Serialize>(
    alloc: Global,
    value: &T,
) -> Result<Value, Refusal>
    // What can be written, and nests at most 127 levels, is read as itself with its floats at their
    // shortest, unless memory runs out.
    ensures read_back { IsStorableDocument (T.document value.now)
        → KeepsKeys (value_of (T.document value.now))
        → IsReadBack (shortened (value_of (T.document value.now))) result }
    // Nothing else is read.
    ensures readable { OnOk result (IsReadable Core (T.document value.now)) }
    // What can't be written is refused as in writing; what can, where memory runs out, and where it
    // nests deeper, for that. Nothing is refused for a departure.
    ensures refused { IfErr result (IsNotReadBack Core canon (T.document value.now)) }
{
    deterministic_written_is_accepted();
    shortened_has_shortest_floats();
    let bytes = to_vec_deterministic(alloc, value)?;
    are_bytes(&bytes);
    from_slice_with(alloc, &bytes, Rules::DETERMINISTIC)
}

/// The same by [`to_vec_length_first`] and [`Rules::LENGTH_FIRST`].
///
/// ```rust
/// let Ok(value) = write_and_read_length_first(alloc, &1.5f64) else {
///     return Err(Fail::from("refused"));
/// };
/// assert_eq!(rt; value.as_f64(), Some(1.5));
/// ```
pub fn write_and_read_length_first<T: Serialize>(alloc: Global, value: &T) -> Result<Value, Refusal>
    // What can be written, and nests at most 127 levels, is read as itself with its floats at their
    // shortest, unless memory runs out.
    ensures read_back { IsStorableDocument (T.document value.now)
        → KeepsKeys (value_of (T.document value.now))
        → IsReadBack (shortened (value_of (T.document value.now))) result }
    // Nothing else is read.
    ensures readable { OnOk result (IsReadable Core (T.document value.now)) }
    // What can't be written is refused as in writing; what can, where memory runs out, and where it
    // nests deeper, for that. Nothing is refused for a departure.
    ensures refused { IfErr result (IsNotReadBack Core length_first (T.document value.now)) }
{
    length_first_written_is_accepted();
    shortened_has_shortest_floats();
    let bytes = to_vec_length_first(alloc, value)?;
    are_bytes(&bytes);
    from_slice_with(alloc, &bytes, Rules::LENGTH_FIRST)
}

/// The same by [`to_vec_dcbor`] and [`Rules::DCBOR`]: it is read as the value with dCBOR's numbers.
///
/// ```rust
/// let Ok(value) = write_and_read_dcbor(alloc, &2.0f64) else {
///     return Err(Fail::from("refused"));
/// };
/// assert_eq!(rt; value.as_integer(), Some(2));
/// ```
pub fn write_and_read_dcbor<T: Serialize>(alloc: Global, value: &T) -> Result<Value, Refusal>
    // What can be written, and nests at most 127 levels, is read as itself with dCBOR's numbers,
    // unless memory runs out.
    ensures read_back { IsStorableDocument (T.document value.now)
        → IsReducible (value_of (T.document value.now))
        → IsReadBack (reduced (value_of (T.document value.now))) result }
    // Nothing else is read.
    ensures readable { OnOk result (IsReadable Dcbor (T.document value.now)) }
    // What can't be written is refused as in writing; what can, where memory runs out, and where it
    // nests deeper, for that. Nothing is refused for a departure.
    ensures refused { IfErr result (IsNotReadBack Dcbor canon (T.document value.now)) }
{
    dcbor_written_is_accepted();
    reduced_has_reduced_numbers();
    let bytes = to_vec_dcbor(alloc, value)?;
    are_bytes(&bytes);
    from_slice_with(alloc, &bytes, Rules::DCBOR)
}

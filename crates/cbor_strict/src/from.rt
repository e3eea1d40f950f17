//! Reading a whole input that is encoded canonically.

ghost use Rattle.std.specs.Prelude.{◌≡◌, ◌⊎◌, IfErr, IfOk, take};
ghost use Rattle.cbor_model.specs.Laws.{SpellsValue};
ghost use Rattle.cbor_model.specs.Plain.{Val};
ghost use Rattle.cbor_value.specs.View.{view};
ghost use Rattle.cbor_io.specs.Error.{code_of, offset_of, IsOutOfMemory};
ghost use Rattle.cbor_io.specs.declared.error.ErrorCode.TheVariants.{NotCanonical};
ghost use Rattle.cbor_de.specs.Whole.{from_slice_asks, from_slice_context};
ghost use Rattle.cbor_strict.specs.Strict.{SpellsCanonically};
ghost use Rattle.cbor_strict.specs.StrictAnswers.{AnswersStrictly, ReportsFirstStrictly};
ghost use Rattle.cbor_strict.specs.StrictAnswers.{ReportsItsDeparture};

use crate::walk::first_departure;
use cbor_de::{Deserialize, from_slice};
use cbor_io::error::{Error, ErrorCode, Result};
use cbor_read::SliceRead;
use cbor_value::Value;
use std::alloc::Global;

/// The value whose canonical encoding the bytes are: heads as short as they can be, lengths
/// definite, each map's keys ascending, and no undefined (docs/FORMAT.md).
///
/// Use it in place of [`from_slice`] before a signature is checked, or where bytes are an address:
/// each value has one encoding that it reads, which is what `to_vec` writes.
///
/// The refusals are those of `from_slice`, and `NotCanonical` at the first departure from the
/// canonical encoding, after the bytes that show it: a head that isn't the shortest, after the
/// head; an indefinite length, after its first byte; undefined, after it; a key that isn't above
/// the one before it, after that key. Of all it returns the one that comes first; at one place a
/// departure comes after a text that isn't UTF-8, and before all others.
///
/// ```rust
/// let value = from_slice_canonical(alloc, &[0xa1, 0x01, 0x02])?;
/// let refused = from_slice_canonical(alloc, &[0x18, 0x17]);
/// assert_eq!(rt; refused.is_err(), true);
/// ```
pub fn from_slice_canonical(alloc: Global, slice: &[u8]) -> Result<Value>
    // The bytes are the canonical encoding of what is read.
    ensures found { IfOk result (λ v. SpellsCanonically slice.now (view v)) }
    // Each such value is read, unless memory runs out.
    ensures accepted { (v : Val) → SpellsCanonically slice.now v → IfErr result IsOutOfMemory }
    // An item that `from_slice` reads is refused by its first departure alone.
    ensures departs { (v : Val) → (spelt : SpellsValue slice.now v)
        → IfErr result (ReportsItsDeparture spelt.item) }
    // A refusal is the first that the bytes allow, or memory ran out.
    ensures refused { IfErr result (λ e. IsOutOfMemory e ⊎ ReportsFirstStrictly slice.now e) }
{
    from_slice_canonical_as(alloc, slice)
}

/// What the one item is read as whose canonical encoding the bytes are, as by
/// [`from_slice_canonical`], of any type.
///
/// It reads as [`from_slice`] does, and lends what that lends. Where `from_slice` reads bytes that
/// aren't encoded canonically, it refuses them with `NotCanonical` at the first departure; and
/// where `from_slice` refuses them at an offset, it does so too, if a departure comes no later than
/// that. Otherwise it refuses as `from_slice` does. It takes no memory beyond that of `from_slice`.
///
/// An item has one canonical encoding; a record of a type may have several. A struct is read by its
/// fields' names and by their numbers, with fields that it doesn't know and within tags, each in
/// canonical bytes of its own. Where a record has to have one encoding, compare the bytes with
/// `to_vec_canonical` of what was read, or with the encoding that the protocol fixes.
///
/// ```rust
/// let name: &str = from_slice_canonical_as(alloc, b"\x63CID")?;
/// assert_eq!(rt; name, "CID");
/// let refused = from_slice_canonical_as::<&str>(alloc, b"\x78\x03CID");
/// assert!(rt; refused.is_err());
/// ```
pub fn from_slice_canonical_as<'a, T: Deserialize<'a, SliceRead<'a>>>(
    alloc: Global,
    slice: &'a [u8],
) -> Result<T>
    ensures answers { AnswersStrictly T.passes_over T.total T.reports_faults T.wrong_forms
        (T.reads from_slice_context) (T.asks_memory from_slice_asks) slice.now result }
{
    match from_slice::<T>(alloc, slice) {
        Ok(value) => match first_departure(slice) {
            Some(offset) => Err(not_canonical(offset)),
            None => Ok(value),
        },
        Err(e) => match first_departure(up_to(slice, e.offset())) {
            Some(offset) => Err(not_canonical(offset)),
            None => Err(e),
        },
    }
}

// The bytes before this offset.
fn up_to(slice: &[u8], offset: u64) -> &[u8]
    ensures { result.now ≡ take offset slice.now }
{
    let end = (offset as usize).min(slice.len());
    &slice[..end]
}

// The departure at this offset.
fn not_canonical(offset: usize) -> Error
    ensures code { code_of result ≡ NotCanonical }
    ensures offset { offset_of result ≡ offset }
{
    Error::at(ErrorCode::NotCanonical, offset as u64)
}

//! The canonical encoding of a key's value, by which keys of one value are found.

ghost use Rattle.std.specs.Prelude.{◌≡◌, ◌<◌, ◌^◌, length, IfErr, IfOk, IsOk, IsTrue};
ghost use Rattle.std.specs.Cow.{cow_slice_items};
ghost use Rattle.cbor_model.specs.Canonical.{canon, IsStorable};
ghost use Rattle.cbor_model.specs.Plain.{Val};
ghost use Rattle.cbor_model.specs.Raw.{AreBytes};
ghost use Rattle.cbor_value.specs.View.{view};
ghost use Rattle.cbor_io.specs.Error.{IsOutOfMemory};
ghost use Rattle.cbor_strict.specs.Strict.{SpellsCanonically};
ghost use Rattle.cbor_rules.specs.Rules.{canonical_key};

use cbor_de::{IgnoredAny, from_slice};
use cbor_io::error::Result;
use cbor_model::reader_finds;
use cbor_ser::to_vec;
use cbor_strict::from_slice_canonical_as;
use cbor_value::Value;
use std::alloc::Global;
use std::borrow::CowSlice;

/// That of the value that the key encodes, which is the key itself where it is encoded so; bytes
/// that encode no value stand for themselves. Two keys are of one value exactly where these are
/// equal.
///
/// It takes memory, for the value and for its encoding, only where the key isn't encoded
/// canonically.
pub(crate) fn canonical_key(alloc: Global, key: &[u8]) -> Result<CowSlice<'_, u8>>
    ensures bytes { IfOk result (λ bytes. cow_slice_items bytes ≡ canonical_key key.now) }
    ensures memory { IfErr result IsOutOfMemory }
    ensures canonical { (v : Val) → SpellsCanonically key.now v → IsOk result }
{
    reader_finds();
    are_bytes(key);
    if is_canonical(alloc, key) {
        return Ok(CowSlice::Borrowed(key));
    }
    match from_slice::<Value>(alloc, key) {
        Ok(value) => encoding(alloc, &value),
        Err(e) if e.is_memory() => Err(e),
        Err(_) => Ok(CowSlice::Borrowed(key)),
    }
}

/// The value's canonical encoding.
fn encoding<'a>(alloc: Global, value: &Value) -> Result<CowSlice<'a, u8>>
    ensures bytes { IfOk result (λ bytes. cow_slice_items bytes ≡ canon (view value.now)) }
    ensures memory { IsStorable (view value.now) → IfErr result IsOutOfMemory }
{
    match to_vec(alloc, value) {
        Ok(bytes) => Ok(CowSlice::Owned(bytes)),
        Err(e) => Err(e),
    }
}

/// Whether the key is encoded canonically. It takes no memory, but for one that isn't.
fn is_canonical(alloc: Global, key: &[u8]) -> bool
    ensures itself { IsTrue result → canonical_key key.now ≡ key.now }
    ensures each { (v : Val) → SpellsCanonically key.now v → IsTrue result }
{
    are_bytes(key);
    from_slice_canonical_as::<IgnoredAny>(alloc, key).is_ok()
}

// Tells a proof that what a slice holds is below 256, and fewer than 2^64.
pub(crate) fn are_bytes(slice: &[u8])
    ensures bytes { AreBytes slice.now }
    ensures short { length slice.now < 2 ^ 64 }
{
    let _ = slice.len();
}

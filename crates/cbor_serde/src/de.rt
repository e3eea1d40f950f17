//! Reading any type that the kit's `serde` reads.

ghost use Rattle.std.specs.Prelude.{OnOk};
ghost use Rattle.cbor_model.specs.Plain.{Val};
ghost use Rattle.cbor_strict.specs.Strict.{SpellsCanonically};

use cbor_de::IgnoredAny;
use cbor_io::error::Result;
use cbor_serde_de::Cbor;
use cbor_serde_options::Options;
use cbor_strict::from_slice_canonical_as;
use serde::{Deserialize, Deserializer};
use std::alloc::Global;

/// What the one item that the bytes encode is read as. A borrowed string is lent by the slice.
///
/// A struct is read from a map by its fields' names or numbers, or from an array of its fields in
/// order; an enum's variant by its name. Tags are passed over, heads may be longer than they have
/// to be, and lengths indefinite.
///
/// It refuses bytes that aren't well formed, by the code and at the offset that
/// [`cbor_de::from_slice`] gives; bytes after the item (`TrailingData`); arrays, maps and tags
/// nested more than 127 levels deep (`RecursionLimitExceeded`); and what the type doesn't read, by
/// a `Message` without an offset. It returns `OutOfMemory` where an allocation fails; a length
/// field alone takes no memory.
///
/// ```rust
/// let (port, name): (u16, &str) = from_slice(alloc, b"\x82\x18\x50\x64http")?;
/// assert_eq!(rt; port, 80);
/// assert_eq!(rt; name, "http");
/// ```
pub fn from_slice<'de, T: Deserialize<'de>>(alloc: Global, bytes: &'de [u8]) -> Result<T> {
    from_slice_with(Options::new(), alloc, bytes)
}

/// What the one item that the bytes encode is read as by these options, as by [`from_slice`].
pub fn from_slice_with<'de, T: Deserialize<'de>>(
    options: Options,
    alloc: Global,
    bytes: &'de [u8],
) -> Result<T> {
    let mut format = Cbor::new(alloc, bytes, options);
    let value = read_one(alloc, bytes, &mut format)?;
    format.end()?;
    Ok(value)
}

fn read_one<'de, T: Deserialize<'de>>(
    alloc: Global,
    bytes: &'de [u8],
    format: &mut Cbor<'_>,
) -> Result<T> {
    match T::deserialize(alloc, &mut Deserializer::new(bytes, format)) {
        Ok(value) => Ok(value),
        Err(refusal) => Err(refusal.into()),
    }
}

/// What the one item is read as whose canonical encoding the bytes are, as by [`from_slice`].
///
/// Bytes that are no canonical encoding are refused before anything is read: with `NotCanonical` at
/// the first departure, or as `from_slice` refuses them.
///
/// ```rust
/// let numbers: Vec<u8> = from_slice_canonical(alloc, b"\x81\x17")?;
/// let refused = from_slice_canonical::<Vec<u8>>(alloc, b"\x81\x18\x17");
/// assert_eq!(rt; refused.unwrap_err().offset(), 3);
/// ```
pub fn from_slice_canonical<'de, T: Deserialize<'de>>(alloc: Global, bytes: &'de [u8]) -> Result<T>
    // The bytes are the canonical encoding of a value.
    ensures canonical { OnOk result ((v : Val) × SpellsCanonically bytes.now v) }
{
    from_slice_canonical_with(Options::new(), alloc, bytes)
}

/// What the one item is read as whose canonical encoding the bytes are, by these options.
pub fn from_slice_canonical_with<'de, T: Deserialize<'de>>(
    options: Options,
    alloc: Global,
    bytes: &'de [u8],
) -> Result<T>
    ensures canonical { OnOk result ((v : Val) × SpellsCanonically bytes.now v) }
{
    is_canonical(alloc, bytes)?;
    from_slice_with(options, alloc, bytes)
}

// Refuses what is no canonical encoding.
fn is_canonical(alloc: Global, bytes: &[u8]) -> Result<()>
    ensures { OnOk result ((v : Val) × SpellsCanonically bytes.now v) }
{
    match from_slice_canonical_as::<IgnoredAny>(alloc, bytes) {
        Ok(_passed) => Ok(()),
        Err(error) => Err(error),
    }
}

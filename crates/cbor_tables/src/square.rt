//! A value, its bytes and its `Value`: each is made of the others.

use cbor_convert::{from_value, to_value, to_vec_canonical};
use cbor_de::from_slice;
use cbor_io::error::Result;
use cbor_ser::{Serialize, to_vec};
use cbor_strict::from_slice_canonical;
use cbor_value::Value;
use std::alloc::Global;

/// Whether `to_value` makes of a value what is read of its bytes, `from_value` reads that again,
/// and `to_vec_canonical` writes the canonical encoding of it.
pub fn closes<T: Serialize>(alloc: Global, value: &T) -> Result<bool> {
    let read: Value = from_slice(alloc, &to_vec(alloc, value)?)?;
    let made = to_value(alloc, value)?;
    let canonical = to_vec_canonical(alloc, value)?;
    let again = from_slice_canonical(alloc, &canonical)?;
    let is_made = made == read && from_value::<Value>(alloc, made)? == read;
    Ok(is_made && again == read && canonical.as_slice() == to_vec(alloc, &read)?.as_slice())
}

//! The one encoding of what a value of any type stands for.

ghost use Rattle.std.specs.Prelude.{IfOk, IfErr, OnOk};
ghost use Rattle.cbor_model.specs.Document.{IsStorableDocument};
ghost use Rattle.cbor_ser.specs.Bytes.{IsCanonicalSpelling};
ghost use Rattle.cbor_ser.specs.Written.{IsNotWritten};
ghost use Rattle.cbor_convert.specs.Meaning.{value_of};

use crate::values::to_value;
use cbor_io::error::Result;
use cbor_ser::{Serialize, to_vec};
use std::alloc::Global;

/// The canonical encoding of what a value of any type stands for: the bytes of `to_vec` of its
/// `to_value`. They are what to sign, to hash, or to look up by, and `from_slice_canonical` reads
/// no others.
///
/// `to_vec` of a type is no such encoding: it writes a struct's fields in the order of their
/// declaration, and a `BTreeMap`'s pairs in that of its keys. Here each map's pairs are in the
/// order of their keys' bytes. Floats keep their width: where a protocol asks for the shortest one
/// (RFC 8949, section 4.2.1), `to_vec_deterministic` of `serde_cbor` writes it.
///
/// It refuses what `to_vec` refuses.
///
/// ```rust
/// let mut map = BTreeMap::new(alloc);
/// map.insert(-1i8, 1u8)?;
/// map.insert(0, 2)?;
/// assert_eq!(rt; to_vec(alloc, &map)?.as_slice(), b"\xa2\x20\x01\0\x02".as_slice());
/// assert_eq!(rt; to_vec_canonical(alloc, &map)?.as_slice(), b"\xa2\0\x02\x20\x01".as_slice());
/// ```
pub fn to_vec_canonical<T: Serialize>(alloc: Global, value: &T) -> Result<Vec<u8>>
    ensures canonical { IfOk result
        (λ bytes. IsCanonicalSpelling bytes.items (value_of (T.document value.now))) }
    // Memory aside, it refuses exactly what can't be stored.
    ensures storable { OnOk result (IsStorableDocument (T.document value.now)) }
    ensures refused { IfErr result (IsNotWritten (IsStorableDocument (T.document value.now))) }
{
    let value = to_value(alloc, value)?;
    to_vec(alloc, &value)
}

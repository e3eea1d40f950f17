//! Writing any type that the kit's `serde` writes.

ghost use Rattle.std.specs.Prelude.{Some, [], IfOk, OnOk};
ghost use Rattle.serde.specs.Event.{Log};
ghost use Rattle.cbor_serde_options.specs.Defaults.{default_options};
ghost use Rattle.cbor_serde_ser.specs.Document.{AreBytesOf, IsItem};
ghost use Rattle.cbor_serde.specs.Item.{Appends, IsCanonicalOf};

use cbor_io::error::Result;
use cbor_io::write::Write;
use cbor_serde_options::Options;
use cbor_serde_ser::Logged;
use cbor_value::Value;
use serde::Serialize;
use std::alloc::Global;

/// The bytes of a value: shortest heads, fields and variants by their names, floats in their own
/// width, and definite lengths where the type says them ahead. A struct with a flattened field is a
/// map of indefinite length.
///
/// It refuses an integer outside `-2^64..=2^64-1` with the message
/// `The number can't be stored in CBOR`; what nests more than 127 levels, with
/// `RecursionLimitExceeded`; and by a message what a type may not send: more or fewer items than it
/// declared, a flattened field that is no struct or map, or anything after a step that was refused.
/// It returns `OutOfMemory` where an allocation fails, and what the type's own `serialize` returns.
///
/// ```rust
/// #[derive(Drop, Serialize)]
/// struct User {
///     user_id: u32,
///     admin: bool,
/// }
/// let bytes = to_vec(alloc, &User { user_id: 7, admin: true })?;
/// assert_eq!(rt; bytes.as_slice(), b"\xa2\x67user_id\x07\x65admin\xf5".as_slice());
/// ```
pub fn to_vec<T: Serialize>(alloc: Global, value: &T) -> Result<Vec<u8>>
    // The bytes are those of the events that the value sent, by the default options.
    ensures events { IfOk result (λ bytes. (log : Log) × T.writes value.now (Some []) log
        × AreBytesOf default_options log bytes.items) }
    // They encode one acceptable item.
    ensures item { IfOk result (λ bytes. IsItem bytes.items) }
{
    to_vec_with(Options::new(), alloc, value)
}

/// The bytes of a value by these options, as by [`to_vec`].
///
/// ```rust
/// let shortest = Options::new().shortest_floats();
/// assert_eq!(rt; to_vec_with(shortest, alloc, &1.5f64)?.as_slice(), b"\xf9\x3e\0".as_slice());
/// ```
pub fn to_vec_with<T: Serialize>(options: Options, alloc: Global, value: &T) -> Result<Vec<u8>>
    ensures events { IfOk result (λ bytes. (log : Log) × T.writes value.now (Some []) log
        × AreBytesOf options log bytes.items) }
    ensures item { IfOk result (λ bytes. IsItem bytes.items) }
{
    let mut out = Logged::new(alloc, options);
    value.serialize(&mut out)?;
    match out.finish(options) {
        Ok(bytes) => Ok(bytes),
        Err(refusal) => Err(refusal.into()),
    }
}

/// The canonical encoding of what a value stands for: what to sign, to hash or to look up by. A map
/// has its keys in the order of their bytes, floats keep their width, and lengths are definite. It
/// refuses what [`to_vec`] refuses.
///
/// ```rust
/// let mut map = BTreeMap::new(alloc);
/// map.insert(-1i8, 1u8)?;
/// map.insert(0, 2)?;
/// assert_eq!(rt; to_vec_canonical(alloc, &map)?.as_slice(), b"\xa2\0\x02\x20\x01".as_slice());
/// ```
pub fn to_vec_canonical<T: Serialize>(alloc: Global, value: &T) -> Result<Vec<u8>>
    ensures canonical { IfOk result (λ bytes. (log : Log) × T.writes value.now (Some []) log
        × IsCanonicalOf default_options log bytes.items) }
{
    to_vec_canonical_with(Options::new(), alloc, value)
}

/// The canonical encoding of what a value stands for by these options.
pub fn to_vec_canonical_with<T: Serialize>(
    options: Options,
    alloc: Global,
    value: &T,
) -> Result<Vec<u8>>
    // It is that of the value which the bytes of `to_vec_with` encode.
    ensures canonical { IfOk result (λ bytes. (log : Log) × T.writes value.now (Some []) log
        × IsCanonicalOf options log bytes.items) }
{
    let bytes = to_vec_with(options, alloc, value)?;
    let value: Value = cbor_de::from_slice(alloc, &bytes)?;
    cbor_ser::to_vec(alloc, &value)
}

/// Appends the bytes of a value to a sink: those of [`to_vec`], which it makes first. It refuses
/// what `to_vec` refuses, before anything is written, and what the sink refuses.
///
/// ```rust
/// let mut out = Vec::new(alloc);
/// to_writer(alloc, &mut out, &true)?;
/// assert_eq!(rt; out.as_slice(), b"\xf5".as_slice());
/// ```
pub fn to_writer<W: Write, T: Serialize>(alloc: Global, writer: &mut W, value: &T) -> Result<()>
    ensures { OnOk result (Appends default_options (T.writes value.now)
        (W.written writer.old) (W.written writer.new)) }
{
    to_writer_with(Options::new(), alloc, writer, value)
}

/// Appends the bytes of a value to a sink by these options, as by [`to_writer`].
pub fn to_writer_with<W: Write, T: Serialize>(
    options: Options,
    alloc: Global,
    writer: &mut W,
    value: &T,
) -> Result<()>
    ensures { OnOk result (Appends options (T.writes value.now)
        (W.written writer.old) (W.written writer.new)) }
{
    let bytes = to_vec_with(options, alloc, value)?;
    writer.write_all(&bytes)
}

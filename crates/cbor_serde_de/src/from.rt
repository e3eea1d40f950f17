//! Reading a type from what a reader gives.

ghost use Rattle.std.specs.Prelude.{◌≡◌, ◌⊎◌, IfErr, IfSome, OnOk};
ghost use Rattle.cbor_model.specs.Acceptable.{max_depth};
ghost use Rattle.cbor_serde_de.specs.Fronts.{IsItem, IsOwn, MayRefuse};

use crate::cbor::Cbor;
use crate::kept::Kept;
use cbor_io::error::{Error, Result};
use cbor_serde_options::Options;
use serde::{DeserializeOwned, Deserializer};
use std::alloc::Global;
use std::io;

/// What the one item that a reader gives is read as. The bytes of the item are taken to memory
/// while `T` reads them, and one byte more is asked for, to see that none follows: give it a `take`
/// where an item may be too long, and a `BufReader` where asking for a few bytes is dear.
///
/// It refuses as `from_slice` does, and with `Io` where the reader fails. [`Stream`](crate::Stream)
/// reads items that follow one another.
///
/// ```rust
/// let number: u8 = from_reader(alloc, b"\x18\x2a".as_slice())?;
/// assert_eq!(rt; number, 42);
/// ```
pub fn from_reader<R: io::Read + Drop, T: DeserializeOwned>(alloc: Global, reader: R) -> Result<T>
    // What the reader had to give is one acceptable item.
    ensures found { OnOk result (IfSome (R.remaining reader) (IsItem max_depth)) }
    // A refusal is the reader's fault, lack of memory or the type's, or one that its bytes allow.
    ensures refused { IfErr result
        (λ e. IsOwn e ⊎ IfSome (R.remaining reader) (λ bytes. MayRefuse max_depth bytes e)) }
{
    from_reader_with(Options::new(), alloc, reader)
}

/// What the one item that a reader gives is read as by these options, as by [`from_reader`].
pub fn from_reader_with<R: io::Read + Drop, T: DeserializeOwned>(
    options: Options,
    alloc: Global,
    reader: R,
) -> Result<T>
    ensures found { OnOk result (IfSome (R.remaining reader) (IsItem options.levels)) }
    ensures refused { IfErr result
        (λ e. IsOwn e ⊎ IfSome (R.remaining reader) (λ bytes. MayRefuse options.levels bytes e)) }
{
    let mut kept = Kept::new(alloc, reader);
    match kept.only_item(options.levels) {
        Ok(()) => from_bytes(options, alloc, kept.bytes()),
        Err(fault) => Err(first_fault::<T>(options, alloc, fault, kept.bytes())),
    }
}

/// What the bytes are read as, of which nothing is borrowed.
pub fn from_bytes<T: DeserializeOwned>(options: Options, alloc: Global, bytes: &[u8]) -> Result<T> {
    let mut format = Cbor::new(alloc, bytes, options);
    let value = read_owned(alloc, bytes, &mut format)?;
    format.end()?;
    Ok(value)
}

fn read_owned<T: DeserializeOwned>(
    alloc: Global,
    bytes: &[u8],
    format: &mut Cbor<'_>,
) -> Result<T> {
    match T::deserialize_owned(alloc, &mut Deserializer::new(bytes, format)) {
        Ok(value) => Ok(value),
        Err(refusal) => Err(refusal.into()),
    }
}

// What a type says of an item, before the other error.
fn if_own(error: Error, other: Error) -> Error
    ensures { IsOwn result ⊎ (result ≡ other) }
{
    if error.is_data() || error.is_memory() {
        error
    } else {
        other
    }
}

// The fault of an item of which these bytes came, or what the type refuses that stands before it.
pub(crate) fn first_fault<T: DeserializeOwned>(
    options: Options,
    alloc: Global,
    fault: Error,
    bytes: &[u8],
) -> Error
    ensures { IsOwn result ⊎ (result ≡ fault) }
{
    if fault.is_io() || fault.is_memory() {
        return fault;
    }
    match from_bytes::<T>(options, alloc, bytes) {
        Ok(_value) => fault,
        Err(error) => if_own(error, fault),
    }
}

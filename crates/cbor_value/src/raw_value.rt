//! Items that aren't decoded, as the bytes that encode them.
ghost use Rattle.std.specs.Prelude.{◌≡◌};
ghost use Rattle.cbor_model.specs.Encoding.{Encodes, IsEncoding, encoded_item};

use cbor_io::error::{Error, Result};
use std::alloc::Global;
use std::convert::AsSlice;
use std::fmt;

/// One item that isn't decoded: the bytes that encode it, exactly as they came.
///
/// It is read in place of any item, and written as it is: a signature is checked over the very bytes
/// that were signed, and what a program doesn't look at is passed on unchanged. What it holds is read
/// from its bytes, by `from_slice`. [`RawSlice`] is one that is borrowed.
///
/// Its bytes are always those of one item that is well formed, with texts that are UTF-8. An item
/// that is read as a `RawValue` may be nested as deep as one that is read as a [`Value`](super::Value)
/// in its place. Two are equal where their bytes are.
///
/// ```rust
/// // Two items, of which the first is [1, 2] with its 1 encoded in two bytes.
/// let message: (RawValue, bool) = from_slice(alloc, b"\x82\x82\x18\x01\x02\xf5")?;
/// assert_eq!(rt; message.0.as_bytes(), b"\x82\x18\x01\x02".as_slice());
/// let signed: Vec<u8> = from_slice(alloc, message.0.as_bytes())?;
/// ```
#[derive(Drop, PartialEq, Eq)]
pub struct RawValue {
    bytes: Vec<u8>,
    ghost encodes: { IsEncoding bytes.items },
}

/// One item that isn't decoded and is borrowed: a slice of the bytes that encode it.
///
/// It is read where the source lends it for the input's life, as a slice does, and written as it is.
#[derive(Clone, Copy, PartialEq, Eq)]
pub struct RawSlice<'a> {
    bytes: &'a [u8],
    ghost encodes: { IsEncoding bytes.now },
}

/// The item that these bytes encode: they have to encode one, and one alone.
///
/// `from_slice` reads a `RawValue` from any bytes, and refuses those that encode none.
pub fn raw_value(bytes: Vec<u8>) -> RawValue
    requires { IsEncoding bytes.items }
    ensures { result.bytes ≡ bytes }
{
    RawValue { bytes }
}

/// The same of bytes that are borrowed.
pub fn raw_slice(bytes: &[u8]) -> RawSlice<'_>
    requires { IsEncoding bytes.now }
    ensures { result.bytes.now ≡ bytes.now }
{
    RawSlice { bytes }
}

// The bytes, of which it is said that they encode an item.
#[inline(always)]
fn lent(bytes: &[u8]) -> &[u8]
    requires { IsEncoding bytes.now }
    ensures same { result.now ≡ bytes.now }
    ensures encodes { Encodes result.now (encoded_item result.now) }
{
    bytes
}

impl RawValue {
    ghost use Rattle.std.specs.Prelude.{IfErr, IfOk};
    ghost use Rattle.cbor_io.specs.Error.{IsOutOfMemory};
    ghost use Rattle.cbor_value.specs.RawBytes.{raw_bytes, slice_bytes};

    /// The bytes that encode it.
    pub fn as_bytes(&self) -> &[u8]
        ensures bytes { result.now ≡ raw_bytes self.now }
        ensures encodes { Encodes result.now (encoded_item result.now) }
    {
        lent(&self.bytes)
    }

    /// The bytes alone.
    pub fn into_bytes(self) -> Vec<u8>
        ensures bytes { result.items ≡ raw_bytes self }
        ensures encodes { Encodes result.items (encoded_item result.items) }
    {
        let _ = lent(&self.bytes);
        self.bytes
    }

    /// The same item, borrowed.
    pub fn as_raw(&self) -> RawSlice<'_>
        ensures { slice_bytes result ≡ raw_bytes self.now }
    {
        RawSlice { bytes: &self.bytes }
    }

    /// An equal one in this memory.
    pub fn clone(&self, alloc: Global) -> Result<RawValue>
        ensures equal { IfOk result (λ v. raw_bytes v ≡ raw_bytes self.now) }
        ensures memory { IfErr result IsOutOfMemory }
    {
        self.as_raw().to_owned(alloc)
    }
}

impl<'a> RawSlice<'a> {
    ghost use Rattle.std.specs.Prelude.{IfErr, IfOk};
    ghost use Rattle.cbor_io.specs.Error.{IsOutOfMemory};
    ghost use Rattle.cbor_value.specs.RawBytes.{raw_bytes, slice_bytes};

    /// The bytes that encode it.
    pub fn as_bytes(&self) -> &'a [u8]
        ensures bytes { result.now ≡ slice_bytes self.now }
        ensures encodes { Encodes result.now (encoded_item result.now) }
    {
        lent(self.bytes)
    }

    /// The same item, with its bytes in this memory.
    pub fn to_owned(&self, alloc: Global) -> Result<RawValue>
        ensures equal { IfOk result (λ v. raw_bytes v ≡ slice_bytes self.now) }
        ensures memory { IfErr result IsOutOfMemory }
    {
        match Vec::from_slice(alloc, self.bytes) {
            Ok(bytes) => Ok(RawValue { bytes }),
            Err(full) => Err(Error::from(full)),
        }
    }
}

impl AsSlice<u8> for RawValue {
    ghost items = { λ v. v.bytes.items };

    fn as_slice(&self) -> &[u8] {
        &self.bytes
    }
}

impl AsSlice<u8> for RawSlice<'_> {
    ghost items = { λ v. v.bytes.now };

    fn as_slice(&self) -> &[u8] {
        self.bytes
    }
}

// The bytes aren't printed: they may be many, or hold what is no reader's to see.
impl fmt::Debug for RawValue {
    fn fmt<W: fmt::Write>(&self, f: &mut fmt::Formatter<W>) -> fmt::Result {
        f.debug_struct("RawValue")
            .field("bytes", &self.bytes.len())
            .finish_non_exhaustive()
    }
}

impl fmt::Debug for RawSlice<'_> {
    fn fmt<W: fmt::Write>(&self, f: &mut fmt::Formatter<W>) -> fmt::Result {
        f.debug_struct("RawSlice")
            .field("bytes", &self.bytes.len())
            .finish_non_exhaustive()
    }
}

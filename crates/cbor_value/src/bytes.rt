//! Byte strings as types of their own: a hash, a key or a signature.
//!
//! `Vec<u8>` and `[u8; N]` are read and written as arrays of numbers, one item for each byte. These
//! types stand for one byte string (RFC 7049, section 2.1, major type 2), under the names of the
//! Rust crate `serde_bytes`.
ghost use Rattle.std.specs.Prelude.{◌≡◌, []};

use std::alloc::Global;
use std::convert::AsSlice;

/// A byte string that is borrowed.
///
/// It is read where the source lends it for the input's life.
#[derive(Clone, Copy, Debug, PartialEq, Eq, PartialOrd, Ord)]
pub struct Bytes<'a>(pub &'a [u8]);

impl<'a> Bytes<'a> {
    /// Wraps these bytes.
    pub fn new(bytes: &'a [u8]) -> Bytes<'a>
        ensures { result.0.now ≡ bytes.now }
    {
        Bytes(bytes)
    }
}

impl<'a> From<&'a [u8]> for Bytes<'a> {
    ghost use Rattle.std.specs.Prelude.{◌≡◌};

    ghost from_gives = { λ bytes b. b.0.now ≡ bytes.now };

    fn from(bytes: &'a [u8]) -> Bytes<'a> {
        Bytes(bytes)
    }
}

impl AsSlice<u8> for Bytes<'_> {
    ghost items = { λ b. b.0.now };

    fn as_slice(&self) -> &[u8] {
        self.0
    }
}

/// A byte string that owns its bytes.
///
/// ```rust
/// let key = ByteBuf::from([1, 2].to_vec(alloc)?);
/// assert_eq!(rt; to_vec(alloc, &key)?.as_slice(), b"\x42\x01\x02".as_slice());
/// let again: ByteBuf = from_slice(alloc, b"\x42\x01\x02")?;
/// assert_eq!(rt; again, key);
/// ```
#[derive(Clone, Debug, Drop, PartialEq, Eq, PartialOrd, Ord)]
pub struct ByteBuf(pub Vec<u8>);

impl ByteBuf {
    /// No bytes.
    pub fn new(alloc: Global) -> ByteBuf
        ensures { result.0.items ≡ [] }
    {
        ByteBuf(Vec::new(alloc))
    }

    /// The bytes alone.
    pub fn into_vec(self) -> Vec<u8>
        ensures { result ≡ self.0 }
    {
        self.0
    }
}

impl From<Vec<u8>> for ByteBuf {
    ghost use Rattle.std.specs.Prelude.{◌≡◌};

    ghost from_gives = { λ bytes b. b.0 ≡ bytes };

    fn from(bytes: Vec<u8>) -> ByteBuf {
        ByteBuf(bytes)
    }
}

impl From<ByteBuf> for Vec<u8> {
    ghost use Rattle.std.specs.Prelude.{◌≡◌};

    ghost from_gives = { λ b bytes. bytes ≡ b.0 };

    fn from(b: ByteBuf) -> Vec<u8> {
        b.0
    }
}

impl AsSlice<u8> for ByteBuf {
    ghost items = { λ b. b.0.items };

    fn as_slice(&self) -> &[u8] {
        self.0.as_slice()
    }
}

/// A byte string of exactly `N` bytes, as a hash or a key.
///
/// A byte string of another length is refused with `invalid length n, expected N`.
///
/// ```rust
/// let hash: ByteArray<2> = from_slice(alloc, b"\x42\x01\x02")?;
/// assert_eq!(rt; hash, ByteArray::new([1, 2]));
/// assert!(rt; from_slice::<ByteArray<3>>(alloc, b"\x42\x01\x02").is_err());
/// ```
#[derive(Clone, Copy, Debug, PartialEq, Eq, PartialOrd, Ord)]
pub struct ByteArray<const N: usize>(pub [u8; N]);

impl<const N: usize> ByteArray<N> {
    /// Wraps these bytes.
    pub fn new(bytes: [u8; N]) -> ByteArray<N>
        ensures { result.0 ≡ bytes.entry }
    {
        ByteArray(bytes)
    }

    /// The bytes alone.
    pub fn into_array(self) -> [u8; N]
        ensures { result ≡ self.entry.0 }
    {
        self.0
    }
}

impl<const N: usize> From<[u8; N]> for ByteArray<N> {
    ghost use Rattle.std.specs.Prelude.{◌≡◌};

    ghost from_gives = { λ bytes b. b.0 ≡ bytes };

    fn from(bytes: [u8; N]) -> ByteArray<N> {
        ByteArray(bytes)
    }
}

impl<const N: usize> AsSlice<u8> for ByteArray<N> {
    ghost items = { λ b. b.0 };

    fn as_slice(&self) -> &[u8] {
        self.0.as_slice()
    }
}

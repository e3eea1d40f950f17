//! Byte strings as fields of a type that derives.

ghost use Rattle.std.specs.Prelude.{IfOk};
ghost use Rattle.serde.specs.Event.{octets};
ghost use Rattle.serde.specs.Steps.{Gives};

use serde::{
    Described, Deserialize, DeserializeOwned, Deserializer, Format, Serialize, Serializer,
};
use std::alloc::Global;
use std::convert::AsSlice;

/// A byte string (RFC 7049, section 2.1, major type 2) that the input lends.
///
/// It is refused where the input has it in chunks, or within other text, as JSON has it.
///
/// ```rust
/// let key: Bytes = from_slice(alloc, b"\x42\x01\x02")?;
/// assert_eq!(rt; key, Bytes(b"\x01\x02"));
/// assert_eq!(rt; to_vec(alloc, &key)?.as_slice(), b"\x42\x01\x02".as_slice());
/// ```
#[derive(Clone, Copy, Debug, PartialEq, Eq, PartialOrd, Ord)]
pub struct Bytes<'a>(pub &'a [u8]);

impl<'a> From<&'a [u8]> for Bytes<'a> {
    ghost use Rattle.std.specs.Prelude.{◌≡◌};

    ghost from_gives = { λ bytes b. b.0.now ≡ bytes.now };

    fn from(bytes: &'a [u8]) -> Bytes<'a> {
        Bytes(bytes)
    }
}

impl AsSlice<u8> for Bytes<'_> {
    ghost items = { λ b. b.0.now };

    fn as_slice(&self) -> &[u8] {
        self.0
    }
}

impl Described for Bytes<'_> {
    ghost use Rattle.serde.specs.Event.{Logs, octets};

    ghost writes = { λ b old new. Logs old new (octets b.0.now) };
}

impl Serialize for Bytes<'_> {
    fn serialize<S: Serializer>(&self, out: &mut S) -> Result<(), S::Error> {
        out.bytes(self.0)
    }
}

impl<'de> Deserialize<'de> for Bytes<'de> {
    fn deserialize<F: Format>(
        _alloc: Global,
        from: &mut Deserializer<'de, '_, F>,
    ) -> Result<Bytes<'de>, F::Error>
        ensures { IfOk result (λ b. Gives F.gives from.old (octets b.0.now) from.new) }
    {
        Ok(Bytes(from.borrowed_bytes()?))
    }
}

/// A byte string that owns its bytes.
///
/// ```rust
/// let key: ByteBuf = from_slice(alloc, b"\x5f\x41\x01\x41\x02\xff")?;
/// assert_eq!(rt; to_vec(alloc, &key)?.as_slice(), b"\x42\x01\x02".as_slice());
/// ```
#[derive(Clone, Debug, Drop, PartialEq, Eq, PartialOrd, Ord)]
pub struct ByteBuf(pub Vec<u8>);

impl From<Vec<u8>> for ByteBuf {
    ghost use Rattle.std.specs.Prelude.{◌≡◌};

    ghost from_gives = { λ bytes b. b.0 ≡ bytes };

    fn from(bytes: Vec<u8>) -> ByteBuf {
        ByteBuf(bytes)
    }
}

impl AsSlice<u8> for ByteBuf {
    ghost items = { λ b. b.0.items };

    fn as_slice(&self) -> &[u8] {
        self.0.as_slice()
    }
}

impl Described for ByteBuf {
    ghost use Rattle.serde.specs.Event.{Logs, octets};

    ghost writes = { λ b old new. Logs old new (octets b.0.items) };
}

impl Serialize for ByteBuf {
    fn serialize<S: Serializer>(&self, out: &mut S) -> Result<(), S::Error> {
        out.bytes(&self.0)
    }
}

impl<'de> Deserialize<'de> for ByteBuf {
    fn deserialize<F: Format>(
        alloc: Global,
        from: &mut Deserializer<'de, '_, F>,
    ) -> Result<ByteBuf, F::Error>
        ensures { IfOk result (λ b. Gives F.gives from.old (octets b.0.items) from.new) }
    {
        Ok(ByteBuf(from.byte_buf(alloc)?))
    }
}

impl DeserializeOwned for ByteBuf {
    fn deserialize_owned<F: Format>(
        alloc: Global,
        from: &mut Deserializer<'_, '_, F>,
    ) -> Result<ByteBuf, F::Error>
        ensures { IfOk result (λ b. Gives F.gives from.old (octets b.0.items) from.new) }
    {
        Ok(ByteBuf(from.byte_buf(alloc)?))
    }
}

/// A byte string of exactly `N` bytes, as a hash or a key. One of another length is refused.
///
/// ```rust
/// let hash: ByteArray<2> = from_slice(alloc, b"\x42\x01\x02")?;
/// assert_eq!(rt; hash, ByteArray([1, 2]));
/// assert!(rt; from_slice::<ByteArray<3>>(alloc, b"\x42\x01\x02").is_err());
/// ```
#[derive(Clone, Copy, Debug, PartialEq, Eq, PartialOrd, Ord)]
pub struct ByteArray<const N: usize>(pub [u8; N]);

impl<const N: usize> From<[u8; N]> for ByteArray<N> {
    ghost use Rattle.std.specs.Prelude.{◌≡◌};

    ghost from_gives = { λ bytes b. b.0 ≡ bytes };

    fn from(bytes: [u8; N]) -> ByteArray<N> {
        ByteArray(bytes)
    }
}

impl<const N: usize> AsSlice<u8> for ByteArray<N> {
    ghost items = { λ b. b.0 };

    fn as_slice(&self) -> &[u8] {
        self.0.as_slice()
    }
}

impl<const N: usize> Described for ByteArray<N> {
    ghost use Rattle.serde.specs.Event.{Logs, octets};

    ghost writes = { λ b old new. Logs old new (octets b.0) };
}

impl<const N: usize> Serialize for ByteArray<N> {
    fn serialize<S: Serializer>(&self, out: &mut S) -> Result<(), S::Error> {
        out.bytes(self.0.as_slice())
    }
}

impl<'de, const N: usize> Deserialize<'de> for ByteArray<N> {
    fn deserialize<F: Format>(
        alloc: Global,
        from: &mut Deserializer<'de, '_, F>,
    ) -> Result<ByteArray<N>, F::Error>
        ensures { IfOk result (λ b. Gives F.gives from.old (octets b.0) from.new) }
    {
        fetch_array(alloc, from)
    }
}

impl<const N: usize> DeserializeOwned for ByteArray<N> {
    fn deserialize_owned<F: Format>(
        alloc: Global,
        from: &mut Deserializer<'_, '_, F>,
    ) -> Result<ByteArray<N>, F::Error>
        ensures { IfOk result (λ b. Gives F.gives from.old (octets b.0) from.new) }
    {
        fetch_array(alloc, from)
    }
}

fn fetch_array<F: Format, const N: usize>(
    alloc: Global,
    from: &mut Deserializer<'_, '_, F>,
) -> Result<ByteArray<N>, F::Error>
    ensures { IfOk result (λ b. Gives F.gives from.old (octets b.0) from.new) }
{
    let bytes = from.byte_buf(alloc)?;
    match <[u8; N]>::try_from(bytes.as_slice()) {
        Ok(array) => Ok(ByteArray(array)),
        Err(_) => Err(from.wrong_len()),
    }
}

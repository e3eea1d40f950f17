//! An encoded item, kept as its bytes within a byte string.

ghost use Rattle.std.specs.Prelude.{◌≡◌, IfErr, IfOk, OnOk, None, false};
ghost use Rattle.cbor_model.specs.Document.{document_bytes, IsStorableDocument};
ghost use Rattle.cbor_model.specs.Formats.{all_formats};
ghost use Rattle.cbor_io.specs.Error.{IsOutOfMemory};
ghost use Rattle.cbor_read.specs.Source.{start_of_slice};
ghost use Rattle.cbor_de.specs.Forms.{MayReport};
ghost use Rattle.cbor_de.specs.Whole.{Answers, from_slice_asks, from_slice_context};
ghost use Rattle.cbor_ser.specs.Written.{IsNotWritten};
ghost use Rattle.cbor_convert.specs.Encoded.{encoding};

use crate::required::Required;
use cbor_de::{Deserialize, DeserializeOwned, Deserializer, Readable, SliceRead, from_slice};
use cbor_io::error::Result;
use cbor_read::Read;
use cbor_ser::{Serialize, Serializer, Write, to_vec};
use cbor_value::bytes::ByteBuf;
use std::alloc::Global;
use std::fmt;
use std::marker::PhantomData;

/// The encoding of a `T` within a byte string, under tag 24 (RFC 8949, section 3.4.5.1).
///
/// Its bytes are read and written as they are, whatever they hold, so that a signature over them
/// can be checked before [`decode`](Encoded::decode) reads them. What `Required<24, ByteBuf>`
/// refuses, it refuses.
///
/// ```rust
/// let header = Encoded::new(alloc, &(1u8, -7i8))?;
/// let bytes = to_vec(alloc, &header)?;
/// assert_eq!(rt; bytes.as_slice(), b"\xd8\x18\x43\x82\x01\x26".as_slice());
/// let header: Encoded<(u8, i8)> = from_slice(alloc, &bytes)?;
/// assert_eq!(rt; header.as_slice(), b"\x82\x01\x26".as_slice()); // what a signature is over
/// assert_eq!(rt; header.decode(alloc)?, (1, -7));
/// ```
#[derive(Clone, Drop, PartialEq, Eq, PartialOrd, Ord)]
pub struct Encoded<T> {
    tagged: Required<24, ByteBuf>,
    item: PhantomData<T>,
}

impl<T> Encoded<T> {
    /// These bytes, as the encoding of a `T`. That they are one isn't looked at: `decode` does.
    pub fn from_bytes(bytes: ByteBuf) -> Encoded<T>
        ensures { encoding result ≡ bytes.0.items }
    {
        Encoded {
            tagged: Required(bytes),
            item: PhantomData,
        }
    }

    /// The bytes of the encoding.
    pub fn as_slice(&self) -> &[u8]
        ensures { result.now ≡ encoding self.now }
    {
        self.tagged.0.0.as_slice()
    }
}

impl<T: Serialize> Encoded<T> {
    /// The encoding that `to_vec` gives. It refuses what `to_vec` refuses.
    pub fn new(alloc: Global, value: &T) -> Result<Encoded<T>>
        ensures written { IfOk result
            (λ e. encoding e ≡ document_bytes (T.document value.now) false false) }
        ensures storable { OnOk result (IsStorableDocument (T.document value.now)) }
        ensures refused { IfErr result (IsNotWritten (IsStorableDocument (T.document value.now))) }
    {
        let bytes = to_vec(alloc, value)?;
        Ok(Encoded::from_bytes(ByteBuf(bytes)))
    }
}

impl<T> Encoded<T> {
    /// What the bytes encode, as `from_slice` reads it: strings may be borrowed from them. It
    /// refuses as `from_slice` does, by offsets within these bytes, and promises what that does.
    pub fn decode<'a>(&'a self, alloc: Global) -> Result<T>
    where
        T: Deserialize<'a, SliceRead<'a>>,
        ensures answers { Answers T.passes_over T.total T.reports_faults
            (T.reads from_slice_context) (T.asks_memory from_slice_asks) IsOutOfMemory None
            (encoding self.now) result }
        ensures form { IfErr result
            (MayReport T.wrong_forms all_formats (start_of_slice (encoding self.now) None)) }
    {
        from_slice(alloc, self.as_slice())
    }
}

/// The tag, and the byte string.
impl<T> Serialize for Encoded<T> {
    ghost document = { λ e. ⟦<Required<24, ByteBuf> as Serialize>⟧.document e.tagged };

    fn serialize<W: Write>(&self, ser: &mut Serializer<W>) -> Result<()> {
        self.tagged.serialize(ser)
    }
}

/// The byte string within the tag.
impl<T> Readable for Encoded<T> {
    ghost reads = { λ c r e. ⟦<Required<24, ByteBuf> as Readable>⟧.reads c r e.tagged };

    ghost wrong_forms = { ⟦<Required<24, ByteBuf> as Readable>⟧.wrong_forms };

    ghost reports_faults = { ⟦<Required<24, ByteBuf> as Readable>⟧.reports_faults };
}

impl<'de, R: Read<'de>, T> Deserialize<'de, R> for Encoded<T> {
    fn deserialize(de: &mut Deserializer<R>) -> Result<Encoded<T>> {
        match Required::<24, ByteBuf>::deserialize(de) {
            Ok(tagged) => Ok(Encoded {
                tagged,
                item: PhantomData,
            }),
            Err(e) => Err(e),
        }
    }
}

impl<T> DeserializeOwned for Encoded<T> {
    ghost same = { λ f a b r e h. h };
}

/// The bytes, as `Encoded(ByteBuf([130, 1, 38]))`.
impl<T> fmt::Debug for Encoded<T> {
    fn fmt<W: fmt::Write>(&self, f: &mut fmt::Formatter<W>) -> fmt::Result {
        f.debug_tuple("Encoded").field(&self.tagged.0).finish()
    }
}

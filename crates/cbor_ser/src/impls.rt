//! The documents of the standard library's types but its tuples, of byte strings and of values.

ghost use Rattle.std.specs.Prelude.{string_bytes, encode_utf8};
ghost use Rattle.std.specs.Cow.{cow_str_bytes};
ghost use Rattle.cbor_model.specs.Document.{null, bool, bytes, text, sequence, mapping};
ghost use Rattle.cbor_model.specs.Document.{declared};
ghost use Rattle.cbor_model.specs.Document.{docs, doc_pairs, document_of};
ghost use Rattle.cbor_value.specs.View.{view};
ghost use Rattle.cbor_ser.specs.Documents.{option_document};

use crate::items::WriteDone;
use crate::serialize::Serialize;
use crate::serializer::Serializer;
use cbor_io::error::{Error, Result};
use cbor_io::write::Write;
use cbor_value::Value;
use cbor_value::bytes::{ByteArray, ByteBuf, Bytes};
use std::borrow::CowStr;
use std::collections::{BTreeMap, BTreeSet};

mod numbers;

impl Serialize for bool {
    ghost document = { bool };

    fn serialize<W: Write>(&self, ser: &mut Serializer<W>) -> Result<()> {
        ser.serialize_bool(*self)
    }

    #[inline(always)]
    fn serialize_step<W: Write>(
        &self,
        ser: &mut Serializer<W>,
        refusal: &mut Option<Error>,
    ) -> WriteDone {
        ser.bool_step(*self, refusal)
    }
}

impl Serialize for char {
    ghost document = { λ c. text (encode_utf8 c) };

    fn serialize<W: Write>(&self, ser: &mut Serializer<W>) -> Result<()> {
        ser.serialize_char(*self)
    }

    #[inline(always)]
    fn serialize_step<W: Write>(
        &self,
        ser: &mut Serializer<W>,
        refusal: &mut Option<Error>,
    ) -> WriteDone {
        let mut bytes = [0; 4];
        ser.text_step(self.encode_utf8(&mut bytes), refusal)
    }
}

impl Serialize for String {
    ghost document = { λ s. text (string_bytes s) };

    fn serialize<W: Write>(&self, ser: &mut Serializer<W>) -> Result<()> {
        ser.serialize_str(self.as_str())
    }

    #[inline(always)]
    fn serialize_step<W: Write>(
        &self,
        ser: &mut Serializer<W>,
        refusal: &mut Option<Error>,
    ) -> WriteDone {
        ser.text_step(self.as_str(), refusal)
    }
}

impl Serialize for &str {
    ghost document = { λ s. text s.now };

    fn serialize<W: Write>(&self, ser: &mut Serializer<W>) -> Result<()> {
        ser.serialize_str(*self)
    }

    #[inline(always)]
    fn serialize_step<W: Write>(
        &self,
        ser: &mut Serializer<W>,
        refusal: &mut Option<Error>,
    ) -> WriteDone {
        ser.text_step(*self, refusal)
    }
}

/// As the text that it lends or owns.
impl Serialize for CowStr<'_> {
    ghost document = { λ s. text (cow_str_bytes s) };

    fn serialize<W: Write>(&self, ser: &mut Serializer<W>) -> Result<()> {
        ser.serialize_str(self.as_str())
    }

    #[inline(always)]
    fn serialize_step<W: Write>(
        &self,
        ser: &mut Serializer<W>,
        refusal: &mut Option<Error>,
    ) -> WriteDone {
        ser.text_step(self.as_str(), refusal)
    }
}

/// As a byte string, which a `Vec<u8>` isn't: that is an array of numbers, as any `Vec`.
impl Serialize for &[u8] {
    ghost document = { λ b. bytes b.now };

    fn serialize<W: Write>(&self, ser: &mut Serializer<W>) -> Result<()> {
        ser.serialize_bytes(*self)
    }

    #[inline(always)]
    fn serialize_step<W: Write>(
        &self,
        ser: &mut Serializer<W>,
        refusal: &mut Option<Error>,
    ) -> WriteDone {
        ser.bytes_step(*self, refusal)
    }
}

impl Serialize for Bytes<'_> {
    ghost document = { λ b. bytes b.0.now };

    fn serialize<W: Write>(&self, ser: &mut Serializer<W>) -> Result<()> {
        ser.serialize_bytes(self.0)
    }

    #[inline(always)]
    fn serialize_step<W: Write>(
        &self,
        ser: &mut Serializer<W>,
        refusal: &mut Option<Error>,
    ) -> WriteDone {
        ser.bytes_step(self.0, refusal)
    }
}

impl Serialize for ByteBuf {
    ghost document = { λ b. bytes b.0.items };

    fn serialize<W: Write>(&self, ser: &mut Serializer<W>) -> Result<()> {
        ser.serialize_bytes(self.0.as_slice())
    }

    #[inline(always)]
    fn serialize_step<W: Write>(
        &self,
        ser: &mut Serializer<W>,
        refusal: &mut Option<Error>,
    ) -> WriteDone {
        ser.bytes_step(self.0.as_slice(), refusal)
    }
}

impl<const N: usize> Serialize for ByteArray<N> {
    ghost document = { λ b. bytes b.0 };

    fn serialize<W: Write>(&self, ser: &mut Serializer<W>) -> Result<()> {
        ser.serialize_bytes(self.0.as_slice())
    }

    #[inline(always)]
    fn serialize_step<W: Write>(
        &self,
        ser: &mut Serializer<W>,
        refusal: &mut Option<Error>,
    ) -> WriteDone {
        ser.bytes_step(self.0.as_slice(), refusal)
    }
}

impl Serialize for () {
    ghost document = { λ _. null };

    fn serialize<W: Write>(&self, ser: &mut Serializer<W>) -> Result<()> {
        ser.serialize_unit()
    }
}

/// Its canonical encoding, whatever the settings.
impl Serialize for Value {
    ghost document = { λ v. document_of (view v) };

    fn serialize<W: Write>(&self, ser: &mut Serializer<W>) -> Result<()> {
        ser.write_value(self)
    }
}

impl<T: Serialize> Serialize for Option<T> {
    ghost document = { option_document T.document };

    fn serialize<W: Write>(&self, ser: &mut Serializer<W>) -> Result<()> {
        match self {
            Some(value) => ser.serialize_some(value),
            None => ser.serialize_none(),
        }
    }

    #[inline(always)]
    fn serialize_step<W: Write>(
        &self,
        ser: &mut Serializer<W>,
        refusal: &mut Option<Error>,
    ) -> WriteDone {
        match self {
            Some(value) => value.serialize_step(ser, refusal),
            None => ser.null_step(refusal),
        }
    }
}

/// As what it refers to, so that what is kept elsewhere is written without a copy.
impl<'a, T: Serialize> Serialize for &'a T {
    ghost document = { λ r. T.document r.now };

    fn serialize<W: Write>(&self, ser: &mut Serializer<W>) -> Result<()> {
        T::serialize(*self, ser)
    }

    #[inline(always)]
    fn serialize_step<W: Write>(
        &self,
        ser: &mut Serializer<W>,
        refusal: &mut Option<Error>,
    ) -> WriteDone {
        T::serialize_step(*self, ser, refusal)
    }
}

/// As what it holds.
impl<T: Serialize> Serialize for Box<T> {
    ghost document = { λ b. T.document b.value };

    fn serialize<W: Write>(&self, ser: &mut Serializer<W>) -> Result<()> {
        T::serialize(&**self, ser)
    }

    #[inline(always)]
    fn serialize_step<W: Write>(
        &self,
        ser: &mut Serializer<W>,
        refusal: &mut Option<Error>,
    ) -> WriteDone {
        T::serialize_step(&**self, ser, refusal)
    }
}

/// The items of a slice, which is written as the array of them: a `&[u8]` by itself is a byte
/// string.
///
/// ```rust
/// let bytes = to_vec(alloc, &Items(&[1u8, 2]))?;
/// assert_eq!(rt; bytes.as_slice(), b"\x82\x01\x02".as_slice());
/// ```
#[derive(Clone, Copy, Debug)]
pub struct Items<'a, T>(pub &'a [T]);

impl<'a, T: Serialize> Serialize for Items<'a, T> {
    ghost document = { λ s. sequence declared (docs T.document s.0.now) };

    fn serialize<W: Write>(&self, ser: &mut Serializer<W>) -> Result<()> {
        ser.write_sequence(self.0)
    }
}

impl<T: Serialize> Serialize for Vec<T> {
    ghost document = { λ v. sequence declared (docs T.document v.items) };

    fn serialize<W: Write>(&self, ser: &mut Serializer<W>) -> Result<()> {
        ser.write_sequence(self)
    }

    fn serialize_step<W: Write>(
        &self,
        ser: &mut Serializer<W>,
        refusal: &mut Option<Error>,
    ) -> WriteDone {
        ser.sequence_step(self, refusal)
    }
}

impl<T: Serialize, const N: usize> Serialize for [T; N] {
    ghost document = { λ a. sequence declared (docs T.document a) };

    fn serialize<W: Write>(&self, ser: &mut Serializer<W>) -> Result<()> {
        ser.write_sequence(self)
    }
}

/// In the order of its keys.
impl<K: Serialize + Ord, V: Serialize> Serialize for BTreeMap<K, V> {
    ghost document = { λ m. mapping declared (doc_pairs K.document V.document m.entries) };

    fn serialize<W: Write>(&self, ser: &mut Serializer<W>) -> Result<()> {
        ser.write_mapping(self)
    }
}

/// As an array, in the order of its items.
impl<T: Serialize + Ord> Serialize for BTreeSet<T> {
    ghost document = { λ s. sequence declared (docs T.document s.keys) };

    fn serialize<W: Write>(&self, ser: &mut Serializer<W>) -> Result<()> {
        ser.write_set(self)
    }

    fn serialize_step<W: Write>(
        &self,
        ser: &mut Serializer<W>,
        refusal: &mut Option<Error>,
    ) -> WriteDone {
        ser.set_step(self, refusal)
    }
}

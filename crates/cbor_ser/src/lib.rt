//! Writing documents.
//!
//! A type says by [`Serialize`] what its document is, and [`to_vec`] writes that document's bytes.
//! The crate names the definitions of `cbor_model`, the error and the major types of `cbor_io`,
//! whose sinks it passes on, and the values of `cbor_value` with their facts; nothing of reading.
//! Others rely on the contracts, on `specs/Serialized.antt`, which says what a call leaves in a
//! serializer's sink, on `specs/Written.antt`, which says when a document is refused, and on the
//! published facts, by which a type's own `serialize` is proved.
#![tactic(auto)]

ghost use Rattle.std.specs.Prelude.{◌≡◌, ℕ, List, false, true, IfOk, IfErr, OnOk};
ghost use Rattle.cbor_ser.specs.Serialized.{WroteValues};
ghost use Rattle.cbor_model.specs.Document.{document_bytes, IsStorableDocument, IsDocumentInRange};
ghost use Rattle.cbor_model.specs.Unstored.{StandsBefore};
ghost use Rattle.cbor_io.specs.Write.{AppendsBeginning, Wrote, TakesWhatFits};
ghost use Rattle.cbor_ser.specs.Bytes.{SpellsValues};
ghost use Rattle.cbor_ser.specs.Written.{IsNotWritten, DocumentRefused};

use cbor_io::error::Result;
pub use cbor_io::write::{IoWrite, SliceWrite, Write};
use std::alloc::Global;

mod collection;
mod described;
mod encoded;
mod field;
mod fields;
mod impls;
mod items;
mod keys;
mod part_list;
mod schema;
mod serialize;
mod serializer;
mod tuple_documents;
mod tuples;

pub use collection::{CollectionSerializer, StructSerializer};
pub use described::{NamedFields, SerializeVariant};
pub use field::{OptionalField, SerializeField};
pub use fields::SerializeFields;
pub use impls::Items;
pub use items::{WriteDone, WriteRefused};
pub use keys::{ByLabels, ByNames, SerializeKeys};
pub use schema::{PartsDocument, VariantDocument, WrittenBy};
pub use serialize::Serialize;
pub use serializer::Serializer;
pub use tuple_documents::{FieldDocument, FieldsDocument, TupleDocuments};
pub use tuples::SerializeTuple;

/// The bytes of a value's document: shortest heads, fields and variants by their names, and
/// definite lengths where the document declares them. A [`Value`](cbor_value::Value) is written as
/// its canonical encoding.
///
/// It refuses an integer outside `-2^64..=2^64-1`, at any depth, with the message
/// `The number can't be stored in CBOR`, and returns `OutOfMemory` where an allocation fails. A
/// value may be nested deeper than the 127 levels that are read.
///
/// ```rust
/// let bytes = to_vec(alloc, &Value::Integer(-300))?;
/// assert_eq!(rt; bytes.as_slice(), [0x39, 0x01, 0x2b].as_slice());
/// ```
pub fn to_vec<T: Serialize>(alloc: Global, value: &T) -> Result<Vec<u8>>
    // What is written has only integers that CBOR stores; all else in a document always fits.
    ensures storable { IfOk result (λ bytes. IsStorableDocument (T.document value.now)) }
    ensures in_range { IfOk result (λ bytes. IsDocumentInRange (T.document value.now)) }
    ensures written { IfOk result
        (λ bytes. bytes.items ≡ document_bytes (T.document value.now) false false) }
    // Where the document is that of a `Value`, these are the value's canonical encoding, stand for
    // it among all values, and are read as it, if it is ordered and nests at most 127 levels.
    ensures canonical { IfOk result (λ bytes. SpellsValues bytes.items (T.document value.now)) }
    ensures refused { IfErr result (IsNotWritten (IsStorableDocument (T.document value.now))) }
{
    let mut ser = Serializer::new(alloc, Vec::new(alloc));
    value.serialize(&mut ser)?;
    Ok(ser.into_inner())
}

/// The bytes of a value's document as [`to_vec`] answers them, but in the packed format: fields and
/// unit variants by their numbers in place of their names, and the keys of struct variants too. A
/// [`Value`](cbor_value::Value) is written as its canonical encoding here too.
///
/// It refuses what `to_vec` refuses.
///
/// ```rust
/// assert_eq!(rt; to_vec_packed(alloc, &Some(7u8))?.as_slice(), b"\x07".as_slice());
/// ```
pub fn to_vec_packed<T: Serialize>(alloc: Global, value: &T) -> Result<Vec<u8>>
    ensures storable { IfOk result (λ bytes. IsStorableDocument (T.document value.now)) }
    ensures in_range { IfOk result (λ bytes. IsDocumentInRange (T.document value.now)) }
    ensures written { IfOk result
        (λ bytes. bytes.items ≡ document_bytes (T.document value.now) true false) }
    // A `Value` has no fields: it is written as `to_vec` writes it.
    ensures canonical { IfOk result (λ bytes. SpellsValues bytes.items (T.document value.now)) }
    ensures refused { IfErr result (IsNotWritten (IsStorableDocument (T.document value.now))) }
{
    let mut ser = Serializer::new(alloc, Vec::new(alloc)).packed_format();
    value.serialize(&mut ser)?;
    Ok(ser.into_inner())
}

/// Appends a value's document to a sink: the bytes that [`to_vec`] answers.
///
/// It refuses an integer outside `-2^64..=2^64-1`, at any depth, with the message
/// `The number can't be stored in CBOR`, and whatever the sink refuses. The allocator is for the
/// text of the first refusal alone. After an Err, a sink that reports its bytes holds what it had
/// and a prefix of the document's bytes: where a [`SliceWrite`] is too short, the bytes written are
/// a prefix of what `to_vec` returns, and where a number is refused, nothing of what follows it was
/// written. A sink that has a capacity, as a [`SliceWrite`] has its length, refuses no document
/// that can be stored and fits what is left of it.
///
/// A `Vec<u8>` grows:
///
/// ```rust
/// let mut bytes: Vec<u8> = Vec::new(alloc);
/// to_writer(alloc, &mut bytes, &Value::Integer(-300))?;
/// assert_eq!(rt; bytes.as_slice(), b"\x39\x01\x2b".as_slice());
/// ```
///
/// A [`SliceWrite`] takes what fits:
///
/// ```rust
/// let mut room = [0; 4];
/// let mut sink = SliceWrite::new(&mut room);
/// to_writer(alloc, &mut sink, &Value::Integer(-300))?;
/// assert!(rt; to_writer(alloc, &mut sink, &Value::Integer(-300)).is_err());
/// assert_eq!(rt; sink.bytes_written(), 3);
/// assert_eq!(rt; &*sink.into_inner(), b"\x39\x01\x2b\0".as_slice());
/// ```
///
/// An [`IoWrite`] gives it to a writer of the standard library:
///
/// ```rust
/// let mut file: Vec<u8> = Vec::new(alloc); // or any other `io::Write`
/// to_writer(alloc, &mut IoWrite::new(&mut file), &Value::Integer(-300))?;
/// assert_eq!(rt; file.as_slice(), b"\x39\x01\x2b".as_slice());
/// ```
pub fn to_writer<W: Write, T: Serialize>(alloc: Global, writer: &mut W, value: &T) -> Result<()>
    ensures storable { OnOk result (IsStorableDocument (T.document value.now)) }
    ensures in_range { OnOk result (IsDocumentInRange (T.document value.now)) }
    // Ok has appended the document's bytes, and an Err a prefix of them.
    ensures written { Wrote (W.written writer.old)
        (document_bytes (T.document value.now) false false) (W.written writer.new) result }
    ensures refused { IfErr result
        (DocumentRefused W.refuses writer.new (T.document value.now)) }
    // Of a document that can't be stored, a prefix of what stands before its first such number.
    ensures before { (front : List ℕ) → StandsBefore (T.document value.now) false false front
        → AppendsBeginning front (W.written writer.old) (W.written writer.new) }
    // A document that can be stored is written where it fits what is left of the sink's capacity.
    ensures fits { IsStorableDocument (T.document value.now) →
        TakesWhatFits (W.capacity writer.old) (W.written writer.old)
        (document_bytes (T.document value.now) false false) result }
    ensures same_references { W.references writer.new ≡ W.references writer.old }
    ensures same_capacity { W.capacity writer.new ≡ W.capacity writer.old }
    // Where the document is that of a `Value`, the bytes are the value's canonical encoding.
    ensures canonical { WroteValues W.written W.refuses writer.old (T.document value.now)
        writer.new result }
{
    let mut ser = Serializer::new(alloc, writer);
    value.serialize(&mut ser)
}

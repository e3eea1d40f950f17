//! Writing: [`to_vec`] encodes a value, or a type that says its document ([`Serialize`]), and
//! [`to_writer`] writes it to a sink, as a [`Serializer`] does one after the other, and
//! [`to_io_writer`] to a writer of the standard library; [`encoded_len`] tells how long it will be.

pub use cbor_length::{ByteCount, encoded_len};
pub use cbor_ser::{
    ByLabels, ByNames, CollectionSerializer, FieldDocument, FieldsDocument, IoWrite, Items,
    NamedFields, OptionalField, PartsDocument, Serialize, SerializeField, SerializeFields,
    SerializeKeys, SerializeTuple, SerializeVariant, Serializer, SliceWrite, StructSerializer,
    TupleDocuments, VariantDocument, Write, WriteDone, WriteRefused, WrittenBy, to_vec,
    to_vec_packed, to_writer,
};
pub use cbor_writer::{BufferedWrite, to_io_writer};

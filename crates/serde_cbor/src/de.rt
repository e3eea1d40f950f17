//! Reading: the four `from_*` read a whole input as a type, and a [`Deserializer`] reads types
//! from a source, one after the other. A struct or an enum is read by its description
//! ([`read_described`]), or part by part ([`Deserialize`]). Where bytes come in pieces,
//! [`PushedItems`] says when the next item is whole.

pub use cbor_buffered::{Block, BufferedRead, HeapBlock, InlineBlock};
pub use cbor_de::{
    Deserialize, DeserializeOwned, Deserializer, EitherLifetime, EitherStr, Field, FieldType,
    Formats, IgnoredAny, IoRead, MapAccess, MutSliceRead, Offset, Read, ReadError, ReadErrorCode,
    Readable, SeqAccess, SliceRead, SliceReadFixed, Source, StreamDeserializer, StructAccess,
    Unread, VariantAccess, VecRead, duplicate_field, element_taken, end_taken, first_is_fault,
    from_mut_slice, from_reader, from_slice, from_slice_with_scratch, from_vec, heads_taken,
    item_refused_first, item_taken, key_taken, missing_field, owned_agree, part_taken,
    sources_agree, tag_taken, variant_newtype_taken, variant_taken, variant_tuple_taken,
    variant_unit_taken,
};
pub use cbor_described::{
    ReadBy, ReadParts, ReadableParts, ReadableTuple, Variant, read_described,
};
pub use cbor_pushed::PushedItems;
pub use cbor_round_trip::RoundTrip;
pub use cbor_strict::{from_slice_canonical, from_slice_canonical_as};

//! Reading: the four `from_*` read a whole input as a type, and a [`Deserializer`] reads types
//! from a source, one after the other.
//!
//! [`from_slice`] joins strings in chunks in memory, [`from_slice_with_scratch`] in a scratch of
//! the caller's, and [`from_mut_slice`] in the slice itself; [`from_reader`] takes its bytes from
//! any reader, and reads ahead. All four return the same `Value`; what is borrowed depends on what
//! the source lends.
//!
//! A type says which items it reads, and as what ([`Readable`]); [`Deserialize`] reads them. A
//! `Value` is read from any item.
#![tactic(auto)]

mod all_items;
mod de;
mod deserialize;
mod field;
mod field_type;
mod from;
mod gather;
mod item_list;
mod laws;
mod map;
mod ready;
mod scalars;
mod sequence;
pub mod steps;
mod stream;
mod stream_laws;
mod structure;
mod tags;
mod tuple_parts;
mod types;
mod variant;

pub use all_items::read_items;
pub use cbor_decode::{Formats, Remaining};
pub use cbor_decode_as::borrowed::{EitherStr, Unread};
pub use cbor_decode_as::variant::Form;
pub use cbor_read::{
    EitherLifetime, IoRead, MutSliceRead, Offset, Read, ReadError, ReadErrorCode, SliceRead,
    SliceReadFixed, Source, VecRead,
};
pub use de::Deserializer;
pub use deserialize::{Deserialize, DeserializeOwned, Readable};
pub use field::{Field, duplicate_field, missing_field, next_key};
pub use field_type::FieldType;
pub use from::{from_mut_slice, from_reader, from_slice, from_slice_with_scratch, from_vec};
pub use item_list::{ReadTuple, ReadableTuple};
pub use laws::{
    element_taken, end_taken, first_is_fault, heads_taken, item_refused_first, item_taken,
    key_taken, owned_agree, part_taken, sources_agree, tag_taken, variant_newtype_taken,
    variant_taken, variant_tuple_taken, variant_unit_taken,
};
pub use map::MapAccess;
pub use sequence::SeqAccess;
pub use stream::StreamDeserializer;
pub use stream_laws::{
    all_are_most, has_longest_list, one_list_of_items, one_longest_list, stream_answers,
};
pub use structure::StructAccess;
pub use types::IgnoredAny;
pub use variant::{VariantAccess, one_part};

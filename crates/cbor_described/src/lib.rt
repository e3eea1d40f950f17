//! Reading by description: a struct or an enum that says what its parts are (`cbor_parts::Schema`)
//! is read by that, and no proof is written for it.
//!
//! The fields of a struct are read as a tuple, or its one unnamed part as a `Newtype` of it, and
//! the variants of an enum as one of `OneOf1` to `OneOf8` ([`Variant`]). [`read_described`] makes
//! the type of them, and [`ReadBy`] says as what it is read.
#![tactic(auto)]

mod field_list;
mod field_slot;
mod fields_to_eight;
mod fields_to_twelve;
mod one_of;
mod one_of_to_eight;
mod parts;
mod tuple_fields;
mod variant;
mod variant_list;

pub use cbor_de::{ReadTuple, ReadableTuple};
pub use parts::{ReadBy, ReadParts, ReadableParts, read_described};
pub use variant::{ReadVariant, Variant};
pub use variant_list::{Never, OneOf};

//! The law that what is written is read back.
//!
//! `cbor_ser` says what a type is written as, and `cbor_de` as what it reads items; they don't
//! know each other. A type whose values come back is [`RoundTrip`], and [`written_reads_back_as`]
//! gives a caller the law.
//!
//! The crate names the definitions of `cbor_model` and its facts, and the types and traits of the
//! crates below; it has no code but [`write_and_read`]. Others rely on `specs/ReadBack.antt`, which
//! says what the law is, and on the laws of types in `specs/`, by which a type's own law is proved.
#![tactic(auto)]

mod fits;
mod laws;
mod one_of;
mod parts;
mod round_trip;
mod tuples;
mod types;

pub use fits::{
    ascending_keys_fit, bools_within_fit, boxes_fit, byte_arrays_fit, encodings_fit, integers_fit,
    items_fit, longer_tuples_fit, naturals_fit, ordered_values_fit, required_fit, scalars_fit,
    strings_fit, tuples_fit, undecoded_items_fit,
};
pub use laws::{one_value, write_and_read, written_reads_back_as};
pub use parts::{
    FieldRoundTrip, FieldsRoundTrip, PartsRoundTrip, RoundTripBy, TupleRoundTrip, VariantRoundTrip,
};
pub use round_trip::{RoundTrip, RoundTripKey};

//! CBOR (RFC 7049, and RFC 8949, which replaced it), with one canonical encoding of each value.
//!
//! [`from_slice`], [`from_slice_with_scratch`], [`from_mut_slice`] and [`from_reader`] decode any
//! item as a [`Value`], or as a type that says which items it reads ([`de::Deserialize`]).
//! [`to_vec`] encodes a value, or a type that says its document ([`ser::Serialize`]).
//! [`to_vec_canonical`] gives the canonical encoding of what a value of any type stands for, to
//! sign or to hash, and [`from_slice_canonical`] accepts canonical encodings alone. Values compare
//! as the bytes of their canonical encodings do, and a map lists its keys in that order.
//! [`to_vec_deterministic`] and [`to_vec_length_first`] write the forms that RFC 8949 names, in
//! which floats are at their shortest, and [`to_vec_dcbor`] dCBOR, in which floats that are
//! integers are these.
//!
//! - [`de`], [`stream`], [`strict`]: reading; [`ser`]: writing
//! - [`rules`]: reading by rules of your own, each a switch, or by the form that a name stands for:
//!   a whole slice, items one after the other, or what a reader gives, as it comes
//! - [`value`]: `Value`, `Map`, `Float`, and the way between a value and a type
//! - [`parts`]: the description by which a struct or an enum of yours is read and written;
//!   [`round_trip`]: the law that it is read back
//! - [`bytes`], [`tags`]: byte strings and tags as types; [`RawValue`], [`RawSlice`]: items that
//!   aren't decoded, as their bytes
//! - [`cbor!`](crate::cbor): a value as a literal
//! - [`error`]; [`read`] and [`write`]: sources and sinks; [`model`]: definitions and laws
//!
//! In the repository `docs/FORMAT.md` has the format in rules, `docs/OWN_TYPES.md` a type of your
//! own step by step, `docs/GUARANTEES.md` what is proved and what isn't, and `SECURITY.md` what
//! hostile input can cost.
//!
//! ```rust
//! let value: Value = from_slice(alloc, &[0xbf, 2, 0, 1, 0, 0xff])?;
//! let bytes = to_vec(alloc, &value)?;
//! assert_eq!(rt; bytes.as_slice(), [0xa2, 1, 0, 2, 0].as_slice());
//! ```
//!
//! The items stand in crates of their own, as `cbor_value`, `cbor_ser` and `cbor_de`. This one
//! has them all under the paths of the Rust crate, and passes on the words that their contracts
//! use, so that a crate above names no other; only one whose specs or proofs name the type `Value`
//! names `cbor_value` too.
#![tactic(auto)]

pub mod de;
pub mod literal;
pub mod ser;
pub mod stream;
pub mod tags;

pub use cbor_convert::to_vec_canonical;
pub use cbor_de::{
    Deserializer, Formats, StreamDeserializer, from_mut_slice, from_reader, from_slice,
    from_slice_with_scratch,
};
pub use cbor_forms::{to_vec_dcbor, to_vec_deterministic, to_vec_length_first};
pub use cbor_io::error::{Error, Result};
pub use cbor_io::{error, write};
pub use cbor_length::encoded_len;
pub use cbor_model as model;
pub use cbor_parts as parts;
pub use cbor_read as read;
pub use cbor_round_trip as round_trip;
pub use cbor_round_trip::RoundTrip;
pub use cbor_rules as rules;
pub use cbor_ser::{Serializer, to_vec, to_vec_packed, to_writer};
pub use cbor_strict as strict;
pub use cbor_strict::{from_slice_canonical, from_slice_canonical_as};
pub use cbor_value::raw_value::{RawSlice, RawValue};
pub use cbor_value::{Value, bytes};
pub use cbor_writer::to_io_writer;

pub mod value;

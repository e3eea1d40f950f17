//! CBOR for the types of the kit's `serde`, derived or by hand.
//!
//! The bytes are those that the Rust crate `serde_cbor` writes for a derived type, but for floats,
//! which keep their width, and what docs/DIFFERENCES.md names: fields and variants by their names,
//! a variant that holds something as a map of one pair.
//!
//! ```rust
//! #[derive(Debug, Drop, Serialize, Deserialize)]
//! struct User {
//!     user_id: u32,
//!     admin: bool,
//! }
//!
//! let bytes = cbor_serde::to_vec(alloc, &User { user_id: 7, admin: true })?;
//! let user: User = cbor_serde::from_slice(alloc, &bytes)?;
//! ```
#![tactic(auto)]

pub mod bytes;
mod de;
mod ser;
mod value;

pub use cbor_io::error::{Category, Error, ErrorCode, Result};
pub use cbor_io::write::{IoWrite, SliceWrite, Write};
pub use cbor_serde_de::{Stream, from_reader, from_reader_with};
pub use cbor_serde_options::Options;
pub use cbor_serde_value::{FloatItem, Item};
pub use cbor_value::{Float, Value};
pub use de::{from_slice, from_slice_canonical, from_slice_canonical_with, from_slice_with};
pub use ser::{
    to_vec, to_vec_canonical, to_vec_canonical_with, to_vec_with, to_writer, to_writer_with,
};
pub use value::{from_value, from_value_with, to_value, to_value_with};

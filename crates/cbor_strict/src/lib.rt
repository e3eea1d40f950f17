//! Strict reading: only the canonical encoding of a value is read.
//!
//! The ordinary reader reads; a walk over the same bytes then looks for the first departure from
//! the canonical encoding, without memory.
#![tactic(auto)]

mod from;
mod laws;
mod walk;
mod words;

pub use from::{from_slice_canonical, from_slice_canonical_as};
pub use laws::{
    first_shown_is_first, keys_compare_by_bytes, none_where_canonical, one_first_strict_refusal,
};

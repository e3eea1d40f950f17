//! Decoding: a [`Decoder`] takes heads, strings and whole values from a source.
//!
//! What a type's reading takes of it stands above (`cbor_decode_as`), and what reads types above
//! that (`cbor_de`).
//!
//! This crate names the definitions of `cbor_model` and its facts on the reference reader, the
//! errors of `cbor_io`, the sources of `cbor_read`, and the values of `cbor_value` with their
//! facts; nothing of writing. Others rely on the contracts, and on the words that they use:
//! `specs/Gives.antt` says when an error reports a fault of the reference reader,
//! `specs/Steps.antt` the same of a decoder before and after a step, and `specs/Decoder.antt` what
//! a decoder reads from, and what of it stays.
#![tactic(auto)]

mod at_hand;
pub mod capacity;
mod cursor;
mod formats;
mod gather;
mod head;
mod number;
mod refusal;
mod skip;
mod skip_strings;
mod step;
mod strings;
mod value;

use cbor_read::ReadError;
pub use cursor::{BREAK, Collection, Remaining};
pub use formats::Formats;
pub use head::Head;
pub use refusal::{Done, Refused};
use std::alloc::Global;

/// Takes items from a source. Arrays, maps and tags may be nested 127 levels deep.
///
/// ```rust
/// let mut decoder = Decoder::new(alloc, SliceRead::new(alloc, b"\x05"));
/// assert!(rt; matches!(decoder.value(), Ok(Value::Integer(5))));
/// assert!(rt; decoder.ended().is_ok());
/// ```
#[derive(Drop)]
pub struct Decoder<R> {
    pub alloc: Global,
    pub source: R,
    // How many levels of arrays, maps and tags are left.
    pub levels: u64,
    // Which formats are read.
    pub formats: Formats,
    // Why the last step that was refused was refused; an end of input at 0 until one is.
    pub refusal: ReadError,
}

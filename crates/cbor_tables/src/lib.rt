//! Rows of tables: some bytes, what they are read as or refused with, and what that is written as;
//! and the desk where it is judged what came of a row's steps.
//!
//! A row is a line of six columns:
//!
//! ```text
//! type | how | bytes | answer | written | what the row shows
//! ```
//!
//! - **type**: what the bytes are read as, as `u8` or `Vec<u8>` ([`types`]).
//! - **how**: words with commas between, of which none need stand ([`How`]): the source (else each,
//!   and for a type that borrows each but the reader), formats that are not read, and the form that
//!   is written (`canonical`: by `to_vec_canonical`).
//! - **bytes**: hexadecimal digits, `"text"`, and `f6*3` for three times f6 ([`bytes`]).
//! - **answer**: the value as `{:?}` prints it, or `error: ` and the error's text. Where it is
//!   empty, any value is right. Of a stream the answers in turn, with semicolons between, and
//!   `None` at the end.
//! - **written**: the bytes that the value is written as, `=` for those that were read, or nothing,
//!   and then nothing is written.
//!
//! A row of a `Value` by each source, which is read, shows too that each proper front of its bytes
//! is refused as an end of input, and that what is written of it is read strictly, and written
//! again. Of each row that is written, `to_value` has to give what its bytes are read as, and
//! `to_vec_canonical` has to write that, which strict reading reads. A reader is asked for no byte
//! behind an item, and what is read in place keeps its bytes, in some order.
//!
//! [`Desk`] judges what is read as a type, and what that is written as. [`types`] has the types
//! that a row may name, but for those that users write; [`values`] and [`strict`] read the rows of
//! a `Value`.
#![tactic(auto)]

pub mod bytes;
mod desk;
mod fronts;
mod how;
mod pieces;
pub mod rewritten;
mod row;
mod square;
mod streams;
pub mod strict;
pub mod types;
pub mod values;

pub use desk::{Desk, Outcome, Step};
pub use how::{Formats, How, SCRATCH, Source};
pub use pieces::Pieces;
pub use row::{Malformed, Row};

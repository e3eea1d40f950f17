//! What reading and writing CBOR share: the errors that both return; the major types that begin
//! each item; the sinks that are written to; the test that bytes are UTF-8, and the order of byte
//! strings of one length.
//!
//! It names the definitions of `cbor_model`, and no value. The crates above rely on the contracts
//! of its public calls and on the words of `specs/`: `Error` and `ReadError` (an error is a code
//! and an offset), `Head` (a major type is its number), and `Write` (what a piece leaves in a
//! sink).
#![tactic(auto)]

pub mod compare;
pub mod error;
pub mod head;
pub mod read_error;
pub mod utf8;
pub mod write;

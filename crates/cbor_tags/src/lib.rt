//! Times and big numbers, by their tags (RFC 8949, section 3.4).
//!
//! [`DateTime`] and [`EpochTime`] are times, of the tags 0 and 1; [`BigUint`] and [`BigInt`] are
//! integers of any length, of the tags 2 and 3. Each is written and read as one item within its
//! tag, refuses any other by a message, and is read back as it was written (`RoundTrip`).
//!
//! It names the definitions of `cbor_model`, the values of `cbor_value`, `Required` and `Tagged`
//! of `cbor_convert`, and the law of `cbor_round_trip`. What a time and a big number are is said by
//! `specs/Times.antt` and `specs/Numbers.antt`.
#![tactic(auto)]

mod big;
mod fits;
mod number;
mod tag;
mod time;

pub use big::{BigInt, BigUint};
pub use fits::{big_numbers_fit, times_fit};
pub use time::{DateTime, EpochTime};

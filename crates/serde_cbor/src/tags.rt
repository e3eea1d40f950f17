//! Values with the outermost tag of their item, or within one tag (RFC 7049, section 2.4); times
//! and big numbers, by their tags (RFC 8949, section 3.4).

pub use cbor_convert::{Encoded, Required, Tagged};
pub use cbor_tags::{BigInt, BigUint, DateTime, EpochTime, big_numbers_fit, times_fit};

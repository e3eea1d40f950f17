//! Deterministic encodings that standards name.
//!
//! [`to_vec_deterministic`] writes the core deterministic encoding (RFC 8949, section 4.2.1) of a
//! value of any type, and [`to_vec_length_first`] the length-first one (section 4.2.3).
//! [`shortened`] is the value that they write. [`to_vec_dcbor`] writes dCBOR, of a value's numbers
//! as by [`reduced_number`] and [`reduced`].
//!
//! It names the definitions of `cbor_model`, their facts and its laws, the error of `cbor_io`, the
//! values of `cbor_value`, and the contracts of `to_vec` of `cbor_ser` and `to_value` of
//! `cbor_convert`.
#![tactic(auto)]

mod deterministic;
mod integers;
mod laws;
mod length_first;
mod values;

pub use deterministic::{to_vec_dcbor, to_vec_deterministic};
pub use integers::{integer_of, reduced_number};
pub use laws::{
    length_first_reads_back, reduced_once, same_dcbor_numbers_same_bytes, same_number_in_dcbor,
    same_number_same_float, same_numbers_same_bytes, shortened_once, shorter_keys_first,
};
pub use length_first::to_vec_length_first;
pub use values::{reduced, shortened};

//! What a type's reading takes of a [`Decoder`](cbor_decode::Decoder): an item as a simple value,
//! a number, a string, a name among given ones; and what stands around the items of an array, a map
//! or an enum: heads, whether another one comes, ends, the names of variants; and the tags before.
//!
//! What reads types stands above it (`cbor_de`), which knows the types of the items within.
//!
//! This crate names the definitions of `cbor_model` and its facts on the reference reader, the
//! errors of `cbor_io`, the sources of `cbor_read`, the floats of `cbor_value`, and `cbor_decode`
//! with its facts. Others rely on the contracts, on the words that they use, and on the published
//! facts.
#![tactic(auto)]

pub mod borrowed;
pub mod byte_string;
pub mod character;
pub mod collection;
pub mod content;
mod exact;
pub mod floats;
pub mod head;
pub mod identifier;
pub mod integer;
pub mod label;
pub mod null;
pub mod raw;
pub mod scalar;
pub mod string;
pub mod tags;
pub mod variant;
pub mod variant_at_hand;

//! Structs and enums as a user of `serde_cbor` writes them, by description: a type within another,
//! and variants of each kind; and a type that contains itself, with the proofs that it takes. To
//! write a type of one's own, begin here.
#![tactic(auto)]

pub mod enums;
pub mod nested;
pub mod structs;
pub mod tree;

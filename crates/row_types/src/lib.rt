//! Further types by description, which rows of tables name: as many fields as are described, fields
//! of many kinds, generic structs, units, and enums of one to three variants; and a text within a
//! tag, by hand with the proofs that it takes.
#![tactic(auto)]

pub mod assorted;
pub mod bookmark;
pub mod choice;
pub mod enums;
pub mod floats;
pub mod labels;
pub mod letters;
pub mod private_keys;
pub mod structs;
pub mod weather;

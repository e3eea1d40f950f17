//! Items that stay undecoded: what takes the bytes of one from any source, also from one that shows
//! only some of those to come.
#![tactic(auto)]

pub mod gather;
pub mod owned;

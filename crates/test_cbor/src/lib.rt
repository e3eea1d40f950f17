//! Tests over all of `serde_cbor`: what a user knows by the public contracts alone (`laws`), a
//! function that says by these what it finds in a map (`lookup`), a tree of a user's own that is
//! refused, what is written to sinks of each kind, and how long it is, what values of types stand
//! for, boxes, sets and what is lent, a stream that goes on after a message of the wrong type, and
//! what a struct and an enum ask of a peer.
#![tactic(auto)]

#[cfg(test)]
mod builders;
#[cfg(test)]
mod checks;
#[cfg(test)]
mod counter;
#[cfg(test)]
mod floats;
#[cfg(test)]
mod holders;
#[cfg(test)]
mod laws;
#[cfg(test)]
mod lengths;
#[cfg(test)]
mod literal;
pub mod lookup;
#[cfg(test)]
mod messages;
#[cfg(test)]
mod peer;
#[cfg(test)]
mod sets;
#[cfg(test)]
mod sinks;
#[cfg(test)]
mod trees;
#[cfg(test)]
mod values;

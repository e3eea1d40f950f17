//! Tests at the limits: what is long, how much room is taken, what a reader is asked for, which
//! fault of a device is reported, and tuples that are too short.
#![tactic(auto)]

#[cfg(test)]
mod devices;
#[cfg(test)]
mod long;
#[cfg(test)]
mod memory;
#[cfg(test)]
mod peer;
#[cfg(test)]
mod tuples;

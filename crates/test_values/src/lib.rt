//! Tests of values: what they hold, their order, copies and conversions, and floats as numbers.
#![tactic(auto)]

#[cfg(test)]
mod accessors;
#[cfg(test)]
mod byte_order;
#[cfg(test)]
mod checks;
#[cfg(test)]
mod floats;
#[cfg(test)]
mod nests;
#[cfg(test)]
mod values;

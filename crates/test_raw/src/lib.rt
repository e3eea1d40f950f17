//! Tests of items that aren't decoded.
#![tactic(auto)]

#[cfg(test)]
mod kept;
#[cfg(test)]
mod refused;
#[cfg(test)]
mod taken;

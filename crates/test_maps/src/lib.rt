//! Tests of maps.
#![tactic(auto)]

#[cfg(test)]
mod checks;
#[cfg(test)]
mod cost;
#[cfg(test)]
mod in_place;
#[cfg(test)]
mod maps;

//! Tests of items whose bytes come in pieces.
#![tactic(auto)]

#[cfg(test)]
mod checks;
#[cfg(test)]
mod long;
#[cfg(test)]
mod pieces;
#[cfg(test)]
mod refusals;

//! Tests of diagnostic notation.
#![tactic(auto)]

#[cfg(test)]
mod appendix_a;
#[cfg(test)]
mod checks;
#[cfg(test)]
mod texts;

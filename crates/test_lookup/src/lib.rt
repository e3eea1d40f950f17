//! Tests of looking into values: by keys, positions and paths.
#![tactic(auto)]

#[cfg(test)]
mod checks;
#[cfg(test)]
mod lookup;
#[cfg(test)]
mod pointer;

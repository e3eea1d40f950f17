//! Tests of times and big numbers, with the examples of RFC 8949, Appendix A.
#![tactic(auto)]

#[cfg(test)]
mod checks;
#[cfg(test)]
mod numbers;
#[cfg(test)]
mod times;

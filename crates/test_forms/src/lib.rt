//! Tests of the forms of writing by name, against RFC 8949's own examples and what authenticators
//! write.
#![tactic(auto)]

#[cfg(test)]
mod checks;
#[cfg(test)]
mod dcbor;
#[cfg(test)]
mod floats;
#[cfg(test)]
mod keys;
#[cfg(test)]
mod once;
#[cfg(test)]
mod protocols;

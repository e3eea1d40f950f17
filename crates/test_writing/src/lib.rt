//! Tests of a `Serializer` and its sinks, and of what can't be stored.
#![tactic(auto)]

#[cfg(test)]
mod beginnings;
#[cfg(test)]
mod checks;
#[cfg(test)]
mod floats;
#[cfg(test)]
mod once;
#[cfg(test)]
mod serializer;
#[cfg(test)]
mod sinks;
#[cfg(test)]
mod unstorable;

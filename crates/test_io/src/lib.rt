//! Tests of `cbor_io`: errors and their text, what sources hold between calls, what is left of
//! bytes that are read in place, what sinks take, readers and writers that fail, and UTF-8.
#![tactic(auto)]

#[cfg(test)]
mod checks;
#[cfg(test)]
mod debug_tests;
#[cfg(test)]
mod devices;
#[cfg(test)]
mod error_tests;
#[cfg(test)]
mod offset_tests;
#[cfg(test)]
mod own_source;
#[cfg(test)]
mod rewritten_tests;
#[cfg(test)]
mod script;
#[cfg(test)]
mod source_tests;
#[cfg(test)]
mod utf8_tests;
#[cfg(test)]
mod write_tests;

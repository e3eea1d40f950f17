//! Tests over `cbor_serde`: each call once, what a type may not send, how often it is asked,
//! options, values, byte strings, want of memory, devices that fail or wait, and streams of items.
#![tactic(auto)]

#[cfg(test)]
mod arrays;
#[cfg(test)]
mod byte_strings;
#[cfg(test)]
mod calls;
#[cfg(test)]
mod checks;
#[cfg(test)]
mod devices;
#[cfg(test)]
mod floats;
#[cfg(test)]
mod items;
#[cfg(test)]
mod long;
#[cfg(test)]
mod memory;
#[cfg(test)]
mod once;
#[cfg(test)]
mod peer;
#[cfg(test)]
mod sent;
#[cfg(test)]
mod streams;

//! Tests of the source that reads ahead, of the sink that holds what is written, and of documents
//! that go to a writer by blocks: their calls, what they ask of their devices, and items by them.
#![tactic(auto)]

#[cfg(test)]
mod calls;
#[cfg(test)]
mod checks;
#[cfg(test)]
mod devices;
#[cfg(test)]
mod faults;
#[cfg(test)]
mod items;
#[cfg(test)]
mod peer;
#[cfg(test)]
mod script;
#[cfg(test)]
mod sink;
#[cfg(test)]
mod whole;
#[cfg(test)]
mod writer;

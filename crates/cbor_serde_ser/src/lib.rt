//! Writing the events of the kit's `serde` as CBOR.
//!
//! `specs/Document.antt` says what bytes a list of events is written as, and which events may not
//! come. [`Logged`] is a `Serializer` whose bytes are those of the events that it was sent.
#![tactic(auto)]

mod bytes;
mod event_error;
mod events;
mod float;
mod level;
mod log;
mod logged;
mod reason;
mod writer;
mod written;

pub use event_error::EventError;
pub use logged::Logged;

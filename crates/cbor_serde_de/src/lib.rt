//! Reading CBOR for the kit's `serde`: [`Cbor`] is a `Format` over a slice.
//!
//! `specs/Given.antt` says what each step read. [`from_reader`] and [`Stream`] read types from what
//! a reader gives: `specs/Fronts.antt` and `specs/Streams.antt` say what is taken, and why not.
#![tactic(auto)]

mod any;
mod cbor;
mod format;
mod from;
mod kept;
mod kind;
mod laws;
mod outline;
mod places;
mod step_error;
mod stream;

pub use cbor::{Cbor, Mark};
pub use from::{from_bytes, from_reader, from_reader_with};
pub use laws::whole_item;
pub use step_error::StepError;
pub use stream::Stream;

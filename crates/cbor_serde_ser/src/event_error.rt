//! Why a step writes nothing more.

ghost use Rattle.cbor_serde_ser.specs.Reasons.{IsMessage, IsEventErrorFor};

use crate::reason::Reason;
use cbor_io::error::{Error, ErrorCode};
use std::alloc::Global;

/// Why a step of a [`Logged`](crate::Logged) is refused. It is smaller than an [`Error`], as the
/// result of a step is moved at each call.
#[derive(Drop)]
pub enum EventError {
    /// An allocation failed.
    OutOfMemory,
    /// An array or a map stands inside 127 others. It holds how many bytes are before its items.
    TooDeep(u64),
    /// The message of a value that isn't written.
    Message(Box<String>),
}

impl EventError {
    /// With this message, where there is memory for it.
    #[cold]
    #[inline(never)]
    pub(crate) fn message(alloc: Global, text: &str) -> EventError
        ensures { IsMessage result }
    {
        let Ok(text) = String::from_str(alloc, text) else {
            return EventError::OutOfMemory;
        };
        match Box::new(alloc, text) {
            Ok(text) => EventError::Message(text),
            Err(_) => EventError::OutOfMemory,
        }
    }

    /// For this reason, after so many bytes.
    pub(crate) fn of(alloc: Global, reason: Reason, offset: u64) -> EventError
        ensures { IsEventErrorFor reason offset result }
    {
        match reason {
            Reason::OutOfMemory => EventError::OutOfMemory,
            Reason::TooDeep => EventError::TooDeep(offset),
            other => EventError::message(alloc, other.message()),
        }
    }
}

impl From<EventError> for Error {
    ghost use Rattle.std.specs.Prelude.{◌≡◌};
    ghost use Rattle.cbor_io.specs.Error.{code_of, offset_of};
    ghost use Rattle.cbor_serde_ser.specs.EventErrors.{code_of_event_error, offset_of_event_error};

    ghost from_gives = { λ r e. (code_of e ≡ code_of_event_error r)
        × (offset_of e ≡ offset_of_event_error r) };

    fn from(refusal: EventError) -> Error {
        match refusal {
            EventError::OutOfMemory => Error::at(ErrorCode::OutOfMemory, 0),
            EventError::TooDeep(offset) => Error::at(ErrorCode::RecursionLimitExceeded, offset),
            EventError::Message(text) => Error::at(ErrorCode::Message(Box::into_inner(text)), 0),
        }
    }
}

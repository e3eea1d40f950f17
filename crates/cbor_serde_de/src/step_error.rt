//! Why a step reads nothing.

ghost use Rattle.cbor_serde_de.specs.StepErrors.{Carries, IsOutOfMemory};

use cbor_io::error::{Error, ErrorCode};
use std::alloc::{AllocError, AllocFailed, Global};

/// Why a step of a [`Cbor`](crate::Cbor) is refused. The error stands behind a pointer: an
/// [`Error`] is large, and the result of a step is moved at each call.
#[derive(Drop)]
pub enum StepError {
    /// An allocation failed.
    OutOfMemory,
    /// This error.
    Error(Box<Error>),
}

/// What a step returns.
pub(crate) type Step<T> = std::result::Result<T, StepError>;

impl StepError {
    /// With this error, where there is memory for it.
    #[cold]
    #[inline(never)]
    pub(crate) fn of(alloc: Global, error: Error) -> StepError
        ensures { Carries error result }
    {
        match Box::new(alloc, error) {
            Ok(error) => StepError::Error(error),
            Err(_) => StepError::OutOfMemory,
        }
    }
}

impl From<AllocError> for StepError {
    ghost from_gives = { λ _ r. IsOutOfMemory r };

    fn from(_error: AllocError) -> StepError {
        StepError::OutOfMemory
    }
}

impl<T: Drop> From<AllocFailed<T>> for StepError {
    ghost from_gives = { λ _ r. IsOutOfMemory r };

    fn from(_error: AllocFailed<T>) -> StepError {
        StepError::OutOfMemory
    }
}

impl From<StepError> for Error {
    ghost use Rattle.cbor_serde_de.specs.StepErrors.{IsErrorOf};

    ghost from_gives = { λ r e. IsErrorOf r e };

    fn from(refusal: StepError) -> Error {
        match refusal {
            StepError::OutOfMemory => Error::at(ErrorCode::OutOfMemory, 0),
            StepError::Error(error) => Box::into_inner(error),
        }
    }
}

//! Why an event may not come.

use std::alloc::{AllocError, AllocFailed};

/// Why a step of a [`Writer`](crate::writer::Writer) is refused.
#[derive(Clone, Copy)]
pub(crate) enum Reason {
    OutOfMemory,
    /// An array or a map stands inside 127 others.
    TooDeep,
    NotStored,
    NotFlat,
    TooManyFlat,
    NoPlace,
    TooManyItems,
    TooFewItems,
    NothingOpen,
    NotWhole,
    OtherOptions,
    RefusedBefore,
}

/// What a step returns.
pub(crate) type Step<T> = std::result::Result<T, Reason>;

impl Reason {
    /// What is said of it.
    pub(crate) fn message(self) -> &'static str {
        match self {
            Reason::OutOfMemory => "out of memory",
            Reason::TooDeep => "recursion limit exceeded",
            Reason::NotStored => "The number can't be stored in CBOR",
            Reason::NotFlat => "can only flatten structs and maps",
            Reason::TooManyFlat => "too many maps are flattened",
            Reason::NoPlace => "a flattened field has no place in an array",
            Reason::TooManyItems => "more items than the length that was declared",
            Reason::TooFewItems => "fewer items than the length that was declared",
            Reason::NothingOpen => "nothing is open that could end",
            Reason::NotWhole => "no whole item was written",
            Reason::OtherOptions => "the options changed",
            Reason::RefusedBefore => "a step was refused",
        }
    }
}

impl From<AllocError> for Reason {
    ghost use Rattle.std.specs.Prelude.{◌≡◌};
    ghost use Rattle.cbor_serde_ser.specs.declared.reason.Reason.TheVariants as reason;

    ghost from_gives = { λ _ r. r ≡ reason.OutOfMemory };

    fn from(_error: AllocError) -> Reason {
        Reason::OutOfMemory
    }
}

impl<T: Drop> From<AllocFailed<T>> for Reason {
    ghost use Rattle.std.specs.Prelude.{◌≡◌};
    ghost use Rattle.cbor_serde_ser.specs.declared.reason.Reason.TheVariants as reason;

    ghost from_gives = { λ _ r. r ≡ reason.OutOfMemory };

    fn from(_error: AllocFailed<T>) -> Reason {
        Reason::OutOfMemory
    }
}

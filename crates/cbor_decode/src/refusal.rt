//! How a step of reading is refused.
//!
//! A step returns no more than that it was refused, and the decoder keeps why until the call
//! that the step belongs to ends: an error is large, and would be copied at each step on the way
//! out.

ghost use Rattle.std.specs.Prelude.{◌≡◌, ◌≢◌, ◌+◌, ◌≤◌};
ghost use Rattle.cbor_io.specs.Error.{code_of};
ghost use Rattle.cbor_io.specs.declared.error.ErrorCode.TheVariants.{OutOfMemory};
ghost use Rattle.cbor_io.specs.ReadError.{why, place, HasNoPlace};
ghost use Rattle.cbor_decode.specs.Decoder.{SameSettings};
ghost use Rattle.cbor_decode.specs.Gives.{IsAt, IsErrorOf, ReportsNoForm, ReportsNoKey, ReportsNoMemory};
ghost use Rattle.cbor_decode.specs.declared.refusal.Refused.TheVariants.{Kept};
ghost use Rattle.cbor_io.specs.declared.read_error.ReadErrorCode.TheVariants.{InvalidUtf8};

use crate::Decoder;
use cbor_io::error::Error;
use cbor_read::{ReadError, ReadErrorCode, Source};
use std::alloc::{AllocError, AllocFailed};
use std::mem;

/// A step was refused.
#[derive(Clone, Copy)]
pub enum Refused {
    /// An allocation failed.
    OutOfMemory,
    /// The reason is in the decoder's `refusal`.
    Kept,
}

/// What a step returns.
pub type Done<T> = std::result::Result<T, Refused>;

impl From<AllocError> for Refused {
    ghost use Rattle.std.specs.Prelude.{◌≡◌};
    ghost use Rattle.cbor_decode.specs.declared.refusal.Refused.TheVariants.{OutOfMemory};

    ghost from_gives = { λ _ r. r ≡ OutOfMemory };

    fn from(_error: AllocError) -> Refused {
        Refused::OutOfMemory
    }
}

impl<T: Drop> From<AllocFailed<T>> for Refused {
    ghost use Rattle.std.specs.Prelude.{◌≡◌};
    ghost use Rattle.cbor_decode.specs.declared.refusal.Refused.TheVariants.{OutOfMemory};

    ghost from_gives = { λ _ r. r ≡ OutOfMemory };

    fn from(_error: AllocFailed<T>) -> Refused {
        Refused::OutOfMemory
    }
}

impl<R: Source> Decoder<R> {
    /// Refuses for this.
    #[cold]
    pub fn keep(&mut self, refusal: ReadError) -> Refused
        ensures refused { result ≡ Kept }
        ensures kept { self.new.refusal ≡ refusal }
        ensures source { self.new.source ≡ self.old.source }
        ensures settings { SameSettings self.old self.new }
    {
        self.refusal = refusal;
        Refused::Kept
    }

    /// Refuses before the bytes to come.
    #[cold]
    pub fn refuse(&mut self, code: ReadErrorCode) -> Refused
        requires { HasNoPlace code → ⊥ }
        ensures refused { result ≡ Kept }
        ensures kept { IsAt code (R.source self.old.source).offset self.new.refusal }
        ensures source { self.new.source ≡ self.old.source }
        ensures settings { SameSettings self.old self.new }
    {
        self.refuse_back(code, 0)
    }

    /// Keeps a refusal of this code, so many bytes before the offset.
    #[cold]
    pub fn refuse_back(&mut self, code: ReadErrorCode, back: usize) -> Refused
        requires code { HasNoPlace code → ⊥ }
        requires taken { back ≤ (R.source self.old.source).offset }
        ensures refused { result ≡ Kept }
        ensures kept { (why self.new.refusal ≡ code)
            × (place self.new.refusal + back ≡ (R.source self.old.source).offset) }
        ensures source { self.new.source ≡ self.old.source }
        ensures settings { SameSettings self.old self.new }
    {
        let place = self.source.offset() - back as u64;
        self.refusal = ReadError::at(code, place);
        Refused::Kept
    }

    /// Refuses a text that isn't UTF-8, so many bytes before that.
    #[cold]
    #[inline(never)]
    pub fn refuse_text(&mut self, back: usize) -> Refused
        requires taken { back ≤ (R.source self.old.source).offset }
        ensures refused { result ≡ Kept }
        ensures kept { (why self.new.refusal ≡ InvalidUtf8)
            × (place self.new.refusal + back ≡ (R.source self.old.source).offset) }
        ensures source { self.new.source ≡ self.old.source }
        ensures settings { SameSettings self.old self.new }
    {
        self.refuse_back(ReadErrorCode::InvalidUtf8, back)
    }

    /// Takes the refusal that is kept.
    pub fn take_refusal(&mut self) -> ReadError
        ensures kept { result ≡ self.old.refusal }
        ensures source { self.new.source ≡ self.old.source }
        ensures settings { SameSettings self.old self.new }
    {
        mem::replace(&mut self.refusal, ReadError::eof(0))
    }

    /// The error of a call whose step was refused.
    pub fn error(&mut self, refused: Refused) -> Error
        ensures reports { IsErrorOf self.old.refusal refused result }
        ensures no_form { ReportsNoKey self.old.refusal refused → ReportsNoForm (code_of result) }
        ensures memory { ReportsNoMemory self.old.refusal refused → code_of result ≢ OutOfMemory }
        ensures source { self.new.source ≡ self.old.source }
        ensures settings { SameSettings self.old self.new }
    {
        match refused {
            Refused::OutOfMemory => Error::from(AllocError),
            Refused::Kept => Error::from(self.take_refusal()),
        }
    }
}

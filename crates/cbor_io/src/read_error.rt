//! Why reading stopped, without a text.

ghost use Rattle.std.specs.Prelude.{◌≡◌};
ghost use Rattle.cbor_io.specs.Place.{HasNoPlace};
ghost use Rattle.cbor_io.specs.declared.read_error.ReadErrorCode.TheVariants as refusal;

use crate::error::{Error, ErrorCode};
use std::alloc::{AllocError, AllocFailed};
use std::io;

/// Why a source, or a reader over it, refused: the codes of [`ErrorCode`] that need no text.
///
/// `Io` and `OutOfMemory` have no place in the input: their offset is 0.
#[derive(Debug, Drop)]
pub enum ReadErrorCode {
    /// A reader reported this fault.
    Io(io::Error),
    /// The scratch has too little room.
    ScratchTooSmall,
    /// The input ended where an item, or a part of it, was wanted.
    EofWhileParsingValue,
    /// The input ended where an element or the break of an array of indefinite length was wanted.
    EofWhileParsingArray,
    /// The input ended where a key or the break of a map of indefinite length was wanted.
    EofWhileParsingMap,
    /// A definite text string would end past byte 2^64 - 1, or the input goes on past it.
    LengthOutOfRange,
    /// A text string isn't UTF-8.
    InvalidUtf8,
    /// A first byte that begins no item.
    UnassignedCode,
    /// A first byte that may not stand here.
    UnexpectedCode,
    /// Bytes follow the item.
    TrailingData,
    /// Arrays, maps and tags are nested too deep.
    RecursionLimitExceeded,
    /// A key of a map is of a format that isn't read.
    WrongStructFormat,
    /// An allocation failed.
    OutOfMemory,
}

/// Why reading stopped, and where: how many bytes of the input come before that place.
///
/// It owns no memory, so that it can be returned in place of bytes that a source lends. `?` makes
/// an [`Error`] of it, of the same code and offset.
///
/// ```rust
/// let refused: Error = ReadError::eof(9).into();
/// assert_eq!(rt; refused.to_string(alloc)?.as_str(), "EOF while parsing a value at offset 9");
/// ```
#[derive(Debug, Drop)]
pub struct ReadError {
    code: ReadErrorCode,
    offset: u64,
    ghost placed: { HasNoPlace code → offset ≡ 0 },
}

impl ReadError {
    ghost use Rattle.cbor_io.specs.ReadError.{why, place};

    /// The refusal of this code at this offset.
    ///
    /// `Io` and `OutOfMemory` want the offset 0.
    ///
    /// ```rust
    /// let refused = ReadError::at(ReadErrorCode::LengthOutOfRange, u64::MAX);
    /// assert_eq!(rt; refused.offset(), u64::MAX);
    /// ```
    pub fn at(code: ReadErrorCode, offset: u64) -> ReadError
        requires { HasNoPlace code → offset ≡ 0 }
        ensures code { why result ≡ code }
        ensures offset { place result ≡ offset }
    {
        ReadError { code, offset }
    }

    /// An end of input within a value, at this offset.
    pub fn eof(offset: u64) -> ReadError
        ensures code { why result ≡ refusal.EofWhileParsingValue }
        ensures offset { place result ≡ offset }
    {
        ReadError::at(ReadErrorCode::EofWhileParsingValue, offset)
    }

    /// How many bytes of the input come before the place of the fault; 0 where it has none.
    pub fn offset(&self) -> u64
        ensures value { result ≡ place self.now }
        ensures placed { HasNoPlace (why self.now) → result ≡ 0 }
    {
        self.offset
    }

    /// Why reading stopped.
    pub fn code(&self) -> &ReadErrorCode
        ensures { result.now ≡ why self.now }
    {
        &self.code
    }
}

impl From<ReadErrorCode> for ErrorCode {
    ghost use Rattle.std.specs.Prelude.{◌≡◌};
    ghost use Rattle.cbor_io.specs.ReadError.{error_code};

    ghost from_gives = { λ r code. code ≡ error_code r };

    fn from(code: ReadErrorCode) -> ErrorCode {
        match code {
            ReadErrorCode::Io(fault) => ErrorCode::Io(fault),
            ReadErrorCode::ScratchTooSmall => ErrorCode::ScratchTooSmall,
            ReadErrorCode::EofWhileParsingValue => ErrorCode::EofWhileParsingValue,
            ReadErrorCode::EofWhileParsingArray => ErrorCode::EofWhileParsingArray,
            ReadErrorCode::EofWhileParsingMap => ErrorCode::EofWhileParsingMap,
            ReadErrorCode::LengthOutOfRange => ErrorCode::LengthOutOfRange,
            ReadErrorCode::InvalidUtf8 => ErrorCode::InvalidUtf8,
            ReadErrorCode::UnassignedCode => ErrorCode::UnassignedCode,
            ReadErrorCode::UnexpectedCode => ErrorCode::UnexpectedCode,
            ReadErrorCode::TrailingData => ErrorCode::TrailingData,
            ReadErrorCode::RecursionLimitExceeded => ErrorCode::RecursionLimitExceeded,
            ReadErrorCode::WrongStructFormat => ErrorCode::WrongStructFormat,
            ReadErrorCode::OutOfMemory => ErrorCode::OutOfMemory,
        }
    }
}

impl From<ReadError> for Error {
    ghost use Rattle.std.specs.Prelude.{◌≡◌};
    ghost use Rattle.cbor_io.specs.Error.{code_of, offset_of};
    ghost use Rattle.cbor_io.specs.ReadError.{why, place, error_code};

    ghost from_gives = { λ r e. (code_of e ≡ error_code (why r)) × (offset_of e ≡ place r) };

    fn from(refused: ReadError) -> Error {
        let ReadError { code, offset } = refused;
        Error::at(ErrorCode::from(code), offset)
    }
}

impl From<AllocError> for ReadError {
    ghost use Rattle.cbor_io.specs.ReadError.{IsMemory};

    ghost from_gives = { λ _ r. IsMemory r };

    fn from(_error: AllocError) -> ReadError {
        ReadError::at(ReadErrorCode::OutOfMemory, 0)
    }
}

impl<T: Drop> From<AllocFailed<T>> for ReadError {
    ghost use Rattle.cbor_io.specs.ReadError.{IsMemory};

    ghost from_gives = { λ _ r. IsMemory r };

    fn from(_error: AllocFailed<T>) -> ReadError {
        ReadError::from(AllocError)
    }
}

impl From<io::Error> for ReadError {
    ghost use Rattle.std.specs.Prelude.{◌≡◌};
    ghost use Rattle.cbor_io.specs.ReadError.{why, place};
    ghost use Rattle.cbor_io.specs.declared.read_error.ReadErrorCode.TheVariants.{Io};

    ghost from_gives = { λ fault r. (why r ≡ Io fault) × (place r ≡ 0) };

    fn from(error: io::Error) -> ReadError {
        ReadError::at(ReadErrorCode::Io(error), 0)
    }
}

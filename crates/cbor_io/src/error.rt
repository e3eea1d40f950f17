//! The error of reading and writing: a code, and an offset in the input.

ghost use Rattle.std.specs.Prelude.{◌≡◌, ◌↔◌, IsTrue};
ghost use Rattle.cbor_io.specs.Place.{HasNoOffset};
ghost use Rattle.cbor_io.specs.declared.error.ErrorCode.TheVariants.{ScratchTooSmall};
ghost use Rattle.cbor_io.specs.declared.error.ErrorCode.TheVariants.{EofWhileParsingValue};
ghost use Rattle.cbor_io.specs.declared.error.ErrorCode.TheVariants.{OutOfMemory};
ghost use Rattle.cbor_io.specs.declared.error.Category.TheVariants as category;

use std::alloc::{AllocError, AllocFailed, Global};
use std::{error, fmt, io};

/// What fallible calls return.
pub type Result<T> = std::result::Result<T, Error>;

/// The reason for an error.
///
/// `Message`, `Io` and `OutOfMemory` have no place in the input: their offset is 0.
#[derive(Debug, Drop)]
pub enum ErrorCode {
    /// A text of the caller's, or of a value that doesn't fit.
    Message(String),
    /// A reader or writer reported this fault.
    Io(io::Error),
    /// The scratch, or the slice that is written to, has too little room.
    ScratchTooSmall,
    /// The input ended where an item, or a part of it, was wanted.
    EofWhileParsingValue,
    /// The input ended where an element or the break of an array of indefinite length was wanted.
    EofWhileParsingArray,
    /// The input ended where a key or the break of a map of indefinite length was wanted.
    EofWhileParsingMap,
    /// A definite text string, by the length that it names, would end past byte 2^64 - 1, or a
    /// reader gave a byte past it. (A byte string or a chunk of such a length is an end of input.)
    LengthOutOfRange,
    /// A text string isn't UTF-8. The offset is the end of the string, less its bytes from the
    /// first bad sequence on: of a definite string that is where the bad sequence begins. The
    /// chunks of an indefinite one are tested joined, and its end is after its break, so
    /// `7f 61 c3 61 28 ff` is refused at offset 4.
    InvalidUtf8,
    /// A first byte that begins no item of RFC 7049, or begins a simple value other than false,
    /// true, null and undefined (`e0` to `f3`, and `f8`), which this library doesn't have.
    UnassignedCode,
    /// A first byte that may not stand here.
    UnexpectedCode,
    /// Bytes follow the item.
    TrailingData,
    /// A variant of an enum in an array form has an array with too few items: no identifier, or
    /// nothing after it where a newtype or struct variant has its content. The offset is after
    /// the items that were read.
    ArrayTooShort,
    /// A unit variant of an enum in an array form has nothing after its identifier, where a null
    /// is wanted. The offset is after the identifier. (Items left in such an array are
    /// `TrailingData`.)
    ArrayTooLong,
    /// Arrays, maps and tags are nested deeper than the limit: 127 levels, or as many as
    /// `nesting_limit` of a `Deserializer` sets.
    RecursionLimitExceeded,
    /// An enum in a form that is disabled.
    WrongEnumFormat,
    /// A map's key in a form that is disabled.
    WrongStructFormat,
    /// Bytes that depart from the canonical encoding; strict reading alone returns it.
    NotCanonical,
    /// An allocation failed.
    OutOfMemory,
}

/// The kinds of [`ErrorCode`].
#[derive(Clone, Copy, Debug, PartialEq, Eq)]
pub enum Category {
    /// A device's fault, or too little room or memory.
    Io,
    /// The input isn't well formed, or isn't accepted.
    Syntax,
    /// The input is well formed, and of another type than was asked for.
    Data,
    /// The input ended too early.
    Eof,
}

/// The reason for an error, and its offset: how many bytes of the input come before the fault. The
/// offset of a code that has no place is 0.
///
/// ```rust
/// let Err(error) = from_slice::<Value>(alloc, &[0x82, 0x01]) else {
///     return Err(Fail::from("an array of one item is no array of two"));
/// };
/// assert_eq!(rt; error.offset(), 2);
/// assert!(rt; error.is_eof());
/// assert_eq!(rt; error.to_string(alloc)?.as_str(), "EOF while parsing a value at offset 2");
/// ```
#[derive(Debug, Drop)]
pub struct Error {
    code: ErrorCode,
    offset: u64,
    ghost placed: { HasNoOffset code → offset ≡ 0 },
}

impl Error {
    ghost use Rattle.cbor_io.specs.Error.{code_of, offset_of, category_of, IsFurther, IsMessageOf};

    /// The error of this code at this offset.
    ///
    /// `Message`, `Io` and `OutOfMemory` want the offset 0.
    ///
    /// ```rust
    /// let error = Error::at(ErrorCode::TrailingData, 7);
    /// assert_eq!(rt; error.to_string(alloc)?.as_str(), "trailing data at offset 7");
    /// ```
    pub fn at(code: ErrorCode, offset: u64) -> Error
        requires { HasNoOffset code → offset ≡ 0 }
        ensures code { code_of result ≡ code }
        ensures offset { offset_of result ≡ offset }
    {
        Error { code, offset }
    }

    /// An end of input within a value, at this offset.
    pub fn eof(offset: u64) -> Error
        ensures code { code_of result ≡ EofWhileParsingValue }
        ensures offset { offset_of result ≡ offset }
    {
        Error::at(ErrorCode::EofWhileParsingValue, offset)
    }

    /// Too little room in a scratch or a slice, at this offset.
    pub fn scratch_too_small(offset: u64) -> Error
        ensures code { code_of result ≡ ScratchTooSmall }
        ensures offset { offset_of result ≡ offset }
    {
        Error::at(ErrorCode::ScratchTooSmall, offset)
    }

    /// An error with a text of the caller's; or `OutOfMemory`, where its text finds no memory.
    ///
    /// ```rust
    /// let error = Error::message(alloc, "no such key");
    /// assert_eq!(rt; error.to_string(alloc)?.as_str(), "no such key");
    /// ```
    pub fn message<T: fmt::Display + Drop>(alloc: Global, msg: T) -> Error
        ensures code { IsMessageOf (T.output msg) (code_of result) }
        ensures offset { offset_of result ≡ 0 }
    {
        let code = match format!(in alloc; "{msg}") {
            Ok(text) => ErrorCode::Message(text),
            Err(_) => ErrorCode::OutOfMemory,
        };
        Error::at(code, 0)
    }

    /// How many bytes of the input come before the place of the fault; 0 where it has none.
    pub fn offset(&self) -> u64
        ensures value { result ≡ offset_of self.now }
        ensures placed { HasNoOffset (code_of self.now) → result ≡ 0 }
    {
        self.offset
    }

    /// Why the call refused.
    ///
    /// ```rust
    /// let error = Error::at(ErrorCode::RecursionLimitExceeded, 128);
    /// assert!(rt; matches!(error.code(), ErrorCode::RecursionLimitExceeded));
    /// ```
    pub fn code(&self) -> &ErrorCode
        ensures { result.now ≡ code_of self.now }
    {
        &self.code
    }

    /// The kind of the code.
    ///
    /// ```rust
    /// assert_eq!(rt; Error::eof(3).classify(), Category::Eof);
    /// assert_eq!(rt; Error::at(ErrorCode::InvalidUtf8, 4).classify(), Category::Syntax);
    /// ```
    pub fn classify(&self) -> Category
        ensures { result ≡ category_of (code_of self.now) }
    {
        match &self.code {
            ErrorCode::Message(_) => Category::Data,
            ErrorCode::Io(_) | ErrorCode::ScratchTooSmall | ErrorCode::OutOfMemory => Category::Io,
            ErrorCode::EofWhileParsingValue
            | ErrorCode::EofWhileParsingArray
            | ErrorCode::EofWhileParsingMap => Category::Eof,
            ErrorCode::LengthOutOfRange
            | ErrorCode::InvalidUtf8
            | ErrorCode::UnassignedCode
            | ErrorCode::UnexpectedCode
            | ErrorCode::TrailingData
            | ErrorCode::ArrayTooShort
            | ErrorCode::ArrayTooLong
            | ErrorCode::RecursionLimitExceeded
            | ErrorCode::WrongEnumFormat
            | ErrorCode::WrongStructFormat
            | ErrorCode::NotCanonical => Category::Syntax,
        }
    }

    /// Whether a device failed, or room or memory was wanting.
    pub fn is_io(&self) -> bool
        ensures { IsTrue result ↔ (category_of (code_of self.now) ≡ category.Io) }
    {
        self.classify() == Category::Io
    }

    /// Whether the input isn't well formed, or isn't accepted.
    pub fn is_syntax(&self) -> bool
        ensures { IsTrue result ↔ (category_of (code_of self.now) ≡ category.Syntax) }
    {
        self.classify() == Category::Syntax
    }

    /// Whether the input is of another type than was asked for.
    pub fn is_data(&self) -> bool
        ensures { IsTrue result ↔ (category_of (code_of self.now) ≡ category.Data) }
    {
        self.classify() == Category::Data
    }

    /// Whether the input ended too early.
    pub fn is_eof(&self) -> bool
        ensures { IsTrue result ↔ (category_of (code_of self.now) ≡ category.Eof) }
    {
        self.classify() == Category::Eof
    }

    /// Whether a scratch or a slice had too little room.
    ///
    /// ```rust
    /// let read = from_slice_with_scratch::<Value>(alloc, b"\x7f\x62ab\x61c\xff", &mut [0; 2]);
    /// assert!(rt; matches!(read, Err(e) if e.is_scratch_too_small()));
    /// ```
    pub fn is_scratch_too_small(&self) -> bool
        ensures { IsTrue result ↔ (code_of self.now ≡ ScratchTooSmall) }
    {
        matches!(&self.code, ErrorCode::ScratchTooSmall)
    }

    /// Whether an allocation failed.
    pub fn is_memory(&self) -> bool
        ensures { IsTrue result ↔ (code_of self.now ≡ OutOfMemory) }
    {
        matches!(&self.code, ErrorCode::OutOfMemory)
    }

    /// The same error of bytes that so many others precede: its place is so many bytes further, and
    /// at most 2^64 - 1. One that has no place stays as it is.
    ///
    /// ```rust
    /// assert_eq!(rt; Error::eof(2).further(10).offset(), 12);
    /// assert_eq!(rt; Error::message(alloc, "no such key").further(10).offset(), 0);
    /// ```
    pub fn further(self, before: u64) -> Error
        ensures { IsFurther before self result }
    {
        let Error { code, offset } = self;
        let offset = match &code {
            ErrorCode::Message(_) | ErrorCode::Io(_) | ErrorCode::OutOfMemory => offset,
            _ => offset.saturating_add(before),
        };
        Error { code, offset }
    }
}

impl From<AllocError> for Error {
    ghost use Rattle.cbor_io.specs.Error.{IsOutOfMemory};

    ghost from_gives = { λ _ e. IsOutOfMemory e };

    fn from(_error: AllocError) -> Error {
        Error::at(ErrorCode::OutOfMemory, 0)
    }
}

impl<T: Drop> From<AllocFailed<T>> for Error {
    ghost use Rattle.cbor_io.specs.Error.{IsOutOfMemory};

    ghost from_gives = { λ _ e. IsOutOfMemory e };

    fn from(_error: AllocFailed<T>) -> Error {
        Error::from(AllocError)
    }
}

impl From<io::Error> for Error {
    ghost use Rattle.cbor_io.specs.declared.error.ErrorCode.TheVariants.{Io};
    ghost use Rattle.cbor_io.specs.Error.{code_of, offset_of};
    ghost use Rattle.std.specs.Prelude.{◌≡◌};

    ghost from_gives = { λ fault e. (code_of e ≡ Io fault) × (offset_of e ≡ 0) };

    fn from(error: io::Error) -> Error {
        Error::at(ErrorCode::Io(error), 0)
    }
}

impl ErrorCode {
    ghost use Rattle.cbor_io.specs.Error.{code_text};

    // The text of a message, or the words for the code.
    fn words(&self) -> &str
        ensures { result.now ≡ code_text self.now }
    {
        match self {
            ErrorCode::Message(text) => text,
            ErrorCode::Io(_) => "I/O error",
            ErrorCode::ScratchTooSmall => "Scratch buffer too small",
            ErrorCode::EofWhileParsingValue => "EOF while parsing a value",
            ErrorCode::EofWhileParsingArray => "EOF while parsing an array",
            ErrorCode::EofWhileParsingMap => "EOF while parsing a map",
            ErrorCode::LengthOutOfRange => "length out of range",
            ErrorCode::InvalidUtf8 => "invalid UTF-8",
            ErrorCode::UnassignedCode => "unassigned type",
            ErrorCode::UnexpectedCode => "unexpected code",
            ErrorCode::TrailingData => "trailing data",
            ErrorCode::ArrayTooShort => "array too short",
            ErrorCode::ArrayTooLong => "array too long",
            ErrorCode::RecursionLimitExceeded => "recursion limit exceeded",
            ErrorCode::WrongEnumFormat => "wrong enum format",
            ErrorCode::WrongStructFormat => "wrong struct format",
            ErrorCode::NotCanonical => "not canonical",
            ErrorCode::OutOfMemory => "out of memory",
        }
    }
}

impl fmt::Display for ErrorCode {
    ghost use Rattle.std.specs.Prelude.{Some};
    ghost use Rattle.cbor_io.specs.Error.{code_text};

    ghost output = { λ code. Some (code_text code) };

    ghost styled_output = { λ code _. Some (code_text code) };

    fn fmt<W: fmt::Write>(&self, f: &mut fmt::Formatter<W>) -> fmt::Result {
        f.write_str(self.words())
    }
}

impl fmt::Display for Error {
    ghost use Rattle.std.specs.Prelude.{Some};
    ghost use Rattle.cbor_io.specs.Error.{error_text, styled_error_text};

    ghost output = { λ e. Some (error_text e) };

    ghost styled_output = { λ e _. styled_error_text e };

    fn fmt<W: fmt::Write>(&self, f: &mut fmt::Formatter<W>) -> fmt::Result {
        if self.offset == 0 {
            return self.code.fmt(f);
        }
        write!(f, "{} at offset {}", self.code, self.offset)
    }
}

impl error::Error for Error {}

//! The bytes of the item at the front of a source that doesn't show what is to come.

ghost use Rattle.std.specs.Prelude.{◌≡◌, ◌+◌, ◌-◌, ◌^◌, ◌<◌, min, IfErr, IfOk, OnOk};
ghost use Rattle.cbor_model.specs.Raw.{AreBytes};
ghost use Rattle.cbor_io.specs.Error.{HasNoOffset, code_of, offset_of};
ghost use Rattle.cbor_read.specs.Source.{Input, TookKept};
ghost use Rattle.cbor_decode.specs.Decoder.{SameSettings};
ghost use Rattle.cbor_pushed.specs.ItemAtFront.{HasNoItem};
ghost use Rattle.cbor_pushed.specs.Scanned.{Follows};
ghost use Rattle.cbor_raw.specs.Gathered.{GathersNone, GathersUnread, IsExcused, IsGathered};
ghost use Rattle.cbor_raw.specs.Gathered.{TakesByte, TakesMore};

use cbor_decode::Decoder;
use cbor_io::error::{Error, ErrorCode, Result};
use cbor_pushed::{Scan, end_of_input};
use cbor_read::Source;

/// Takes the item at the front, which may have the levels that are left: its bytes, one by one,
/// and none behind it.
///
/// Bytes that no item begins with are refused as soon as they show it, and a source that ends
/// before the item does, by the error that reading the item returns. Each growth may find no
/// memory.
pub fn gather<R: Source>(decoder: &mut Decoder<R>) -> Result<Vec<u8>>
    ensures ok { IfOk result (λ bytes. IsGathered decoder.old.levels
        (R.source decoder.old.source) (R.source decoder.new.source) bytes.items) }
    ensures err { IfErr result (GathersNone R.refusals decoder.old.levels
        (R.source decoder.old.source) (R.source decoder.new.source)) }
    ensures unread { IfErr result (GathersUnread R.refusals decoder.old.levels
        (R.source decoder.old.source) (R.source decoder.new.source)) }
    ensures settings { SameSettings decoder.old decoder.new }
{
    let start = decoder.source.offset();
    let mut bytes = Vec::new(decoder.alloc);
    let mut scan = Scan::new(decoder.alloc);
    'bytes: loop {
        match take_more(decoder, start, &mut bytes, &mut scan) {
            Ok(true) => return Ok(bytes),
            Ok(false) => {}
            Err(error) => return Err(error),
        }
    }
}

/// Takes one more byte of the item at the front, behind these, of which the first stands at this
/// offset: whether the item is whole then.
///
/// It is refused as by [`gather`]. The scan is what has gone through the bytes so far.
pub fn take_more<R: Source>(
    decoder: &mut Decoder<R>,
    start: u64,
    bytes: &mut Vec<u8>,
    scan: &mut Scan,
) -> Result<bool>
    requires follows { Follows decoder.old.levels scan.old bytes.old.items }
    requires none { HasNoItem decoder.old.levels bytes.old.items }
    ensures ok { IfOk result (TakesMore decoder.old.levels
        (R.source decoder.old.source) (R.source decoder.new.source)
        bytes.old.items bytes.new.items) }
    ensures follows { OnOk result (Follows decoder.old.levels scan.new bytes.new.items) }
    ensures counted { OnOk result ((R.source decoder.new.source).offset < 2 ^ 64) }
    ensures err { (s : Input) → TookKept s (R.source decoder.old.source) bytes.old.items
        → IfErr result (GathersNone R.refusals decoder.old.levels s
        (R.source decoder.new.source)) }
    ensures unread { (s : Input) → TookKept s (R.source decoder.old.source) bytes.old.items
        → IfErr result (GathersUnread R.refusals decoder.old.levels s
        (R.source decoder.new.source)) }
    ensures settings { SameSettings decoder.old decoder.new }
{
    let alloc = decoder.alloc;
    let levels = decoder.levels as usize;
    match take_byte(decoder, bytes) {
        Ok(true) => {}
        Ok(false) => return Err(further(end_of_input(alloc, shown(bytes), levels), start)),
        Err(error) => return Err(error),
    }
    match scan.find(alloc, shown(bytes), levels) {
        Ok(end) => Ok(end.is_some()),
        Err(error) => Err(further(error, start)),
    }
}

// These bytes, of which it is said that they are below 256.
#[inline(always)]
fn shown(bytes: &[u8]) -> &[u8]
    ensures same { result.now ≡ bytes.now }
    ensures bytes { AreBytes result.now }
{
    bytes
}

// Takes the next byte to the end of these; false where none is to come.
fn take_byte<R: Source>(decoder: &mut Decoder<R>, bytes: &mut Vec<u8>) -> Result<bool>
    ensures ok { IfOk result (TakesByte (R.source decoder.old.source) (R.source decoder.new.source)
        bytes.old.items bytes.new.items) }
    ensures counted { OnOk result ((R.source decoder.new.source).offset < 2 ^ 64) }
    ensures err { IfErr result (IsExcused R.refusals
        (R.source decoder.old.source) (R.source decoder.new.source)) }
    ensures settings { SameSettings decoder.old decoder.new }
{
    match decoder.source.next() {
        Ok(Some(byte)) => match bytes.push(byte) {
            Ok(()) => Ok(true),
            Err(full) => Err(Error::from(full)),
        },
        Ok(None) => Ok(false),
        Err(refusal) => {
            let refused = decoder.keep(refusal);
            Err(decoder.error(refused))
        }
    }
}

// The same error, so many bytes further into the input where it has a place.
pub(crate) fn further(error: Error, start: u64) -> Error
    ensures code { code_of result ≡ code_of error }
    ensures stays { HasNoOffset (code_of error) → result ≡ error }
    ensures offset { (HasNoOffset (code_of error) → ⊥)
        → offset_of result ≡ min (start + offset_of error) (2 ^ 64 - 1) }
{
    let code = match error.code() {
        ErrorCode::Message(_) | ErrorCode::Io(_) | ErrorCode::OutOfMemory => return error,
        ErrorCode::ScratchTooSmall => ErrorCode::ScratchTooSmall,
        ErrorCode::EofWhileParsingValue => ErrorCode::EofWhileParsingValue,
        ErrorCode::EofWhileParsingArray => ErrorCode::EofWhileParsingArray,
        ErrorCode::EofWhileParsingMap => ErrorCode::EofWhileParsingMap,
        ErrorCode::LengthOutOfRange => ErrorCode::LengthOutOfRange,
        ErrorCode::InvalidUtf8 => ErrorCode::InvalidUtf8,
        ErrorCode::UnassignedCode => ErrorCode::UnassignedCode,
        ErrorCode::UnexpectedCode => ErrorCode::UnexpectedCode,
        ErrorCode::TrailingData => ErrorCode::TrailingData,
        ErrorCode::ArrayTooShort => ErrorCode::ArrayTooShort,
        ErrorCode::ArrayTooLong => ErrorCode::ArrayTooLong,
        ErrorCode::RecursionLimitExceeded => ErrorCode::RecursionLimitExceeded,
        ErrorCode::WrongEnumFormat => ErrorCode::WrongEnumFormat,
        ErrorCode::WrongStructFormat => ErrorCode::WrongStructFormat,
        ErrorCode::NotCanonical => ErrorCode::NotCanonical,
    };
    Error::at(code, start.saturating_add(error.offset()))
}

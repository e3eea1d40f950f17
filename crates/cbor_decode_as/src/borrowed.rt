//! Strings that are lent.

ghost use Rattle.std.specs.Prelude.{◌≡◌, ◌≤◌, length, true, IfErr, Ok, OnOk};
ghost use types.Logic.{sem};
ghost use Rattle.std.specs.Io.BufRead.{Rests};
ghost use Rattle.cbor_read.specs.Source.{asks_for, part_bytes};
ghost use Rattle.cbor_decode.specs.Decoder.{SameSettings};
ghost use Rattle.cbor_decode.specs.declared.head.Head.TheVariants.{Bytes, Text};
ghost use Rattle.cbor_io.specs.Error.{code_of};
ghost use Rattle.cbor_decode.specs.Gives.{ReportsNoForm};
ghost use Rattle.cbor_decode_as.specs.Strings.{BytesOf, IsBadAt, IsKept, IsMadeOf, IsNoKey};
ghost use Rattle.cbor_decode_as.specs.Strings.{Lent, LentText, LendsBytes, LendsString, LendsText};
ghost use Rattle.cbor_decode_as.specs.TaggedHeads.{AsksBehind};
ghost use Rattle.cbor_decode_as.specs.Strings.{AsksForString, PartText, UnreadOnly, asks_head};
ghost use Rattle.cbor_decode_as.specs.Strings.{AsksForBytes, AsksToLend, LendsWhole};
ghost use Rattle.cbor_decode_as.specs.Strings.{UnreadBehind, UnreadBy};
ghost use Rattle.cbor_decode_as.specs.Strings.{Utf8Of, behind_string};
ghost use Rattle.cbor_decode_as.specs.Takes.{context, formats_of};
ghost use Rattle.cbor_decode.specs.contracts.Decoder.{the_row};
ghost use Rattle.cbor_decode.specs.Steps as step;

use crate::head::{HeadAt, pass_over};
use crate::scalar::scalar_head;
use cbor_decode::{Decoder, Head, Refused};
use cbor_io::error::Error;
use cbor_io::head::Major;
use cbor_io::utf8::from_utf8;
use cbor_read::{EitherLifetime, Read, ReadError, ReadErrorCode, Source};
use std::alloc::AllocError;

/// A text that is lent: by the source until its next call, or by the input for its whole life.
#[derive(Debug, Drop)]
pub enum EitherStr<'short, 'long> {
    /// Lent by the source.
    Short(&'short str),
    /// Lent by the input.
    Long(&'long str),
}

/// Why no string was lent. It owns no memory, so that it can be returned in place of what a source
/// lends.
#[derive(Debug, Drop)]
pub enum Unread {
    /// Reading stopped.
    Stopped(ReadError),
    /// An item of another kind is there.
    Other,
}

impl From<ReadError> for Unread {
    ghost use Rattle.std.specs.Prelude.{◌≡◌};
    ghost use Rattle.cbor_decode_as.specs.declared.borrowed.Unread.TheVariants.{Stopped};

    ghost from_gives = { λ e u. u ≡ Stopped e };

    fn from(e: ReadError) -> Unread {
        Unread::Stopped(e)
    }
}

/// The result of a borrowing read.
type Result<T> = std::result::Result<T, Unread>;

// Hands a part on.
#[inline(always)]
fn given<'a, 'de>(part: EitherLifetime<'a, 'de>) -> Result<EitherLifetime<'a, 'de>>
    ensures { result ≡ Ok part.entry }
{
    Ok(part)
}

// The text of a part that ends at this offset.
#[inline(always)]
fn text_of<'a, 'de>(part: EitherLifetime<'a, 'de>, end: u64) -> Result<EitherStr<'a, 'de>>
    requires { length (part_bytes part) ≤ end }
    ensures { PartText part.entry end result }
{
    match part {
        EitherLifetime::Short(bytes) => match from_utf8(bytes) {
            Ok(text) => Ok(EitherStr::Short(text)),
            Err(e) => Err(not_utf8(end, bytes.len() - e.valid_up_to())),
        },
        EitherLifetime::Long(bytes) => match from_utf8(bytes) {
            Ok(text) => Ok(EitherStr::Long(text)),
            Err(e) => Err(not_utf8(end, bytes.len() - e.valid_up_to())),
        },
    }
}

// The refusal of a text that isn't UTF-8, so many bytes before this offset.
#[cold]
#[inline(never)]
fn not_utf8(end: u64, back: usize) -> Unread
    requires { back ≤ end }
    ensures { IsBadAt end back result }
{
    Unread::Stopped(ReadError::at(ReadErrorCode::InvalidUtf8, end - back as u64))
}

// Why a step was refused.
#[cold]
#[inline(never)]
fn stopped<R: Source>(decoder: &mut Decoder<R>, refused: Refused) -> ReadError
    ensures kept { IsKept decoder.old.refusal refused result }
    ensures source { decoder.new.source ≡ decoder.old.source }
    ensures settings { SameSettings decoder.old decoder.new }
{
    match refused {
        Refused::OutOfMemory => ReadError::from(AllocError),
        Refused::Kept => decoder.take_refusal(),
    }
}

// Takes the bytes of a byte string after its head.
#[inline(always)]
#[tactic(auto, using(crate::proofs::texts::MemoryAsked::kept_only))]
pub(crate) fn bytes_part<'a, 'de, R: Read<'de>>(
    decoder: &'a mut Decoder<R>,
    n: Option<u64>,
) -> Result<EitherLifetime<'a, 'de>>
    ensures* after_borrow { sem 𝓛 (Rests (the_row R.row) decoder.entry (λ new.
        (new.levels ≡ decoder.old.levels) × (new.formats ≡ decoder.old.formats)
        × Lent R.refusals R.lends (Bytes n)
        (R.source decoder.old.source) (R.source new.source) result
        × IfErr result IsNoKey
        × IfErr result (UnreadOnly (asks_head (asks_for R.refusals R.lends) (Bytes n) ≡ true))
        × IfErr result (UnreadBy R.refusals (behind_string (Bytes n))
        (R.source decoder.old.source)))) }
{
    match n {
        Some(n) => match decoder.source.read(n as usize) {
            Ok(part) => given(part),
            Err(refusal) => Err(Unread::Stopped(refusal)),
        },
        None => {
            if let Err(refused) = decoder.join(Major::ByteString) {
                return Err(Unread::Stopped(stopped(decoder, refused)));
            }
            given(decoder.source.take_buffer())
        }
    }
}

// Takes the bytes of a text after its head.
#[inline(always)]
#[tactic(auto, using(crate::proofs::texts::MemoryAsked::kept_only, crate::proofs::texts::MemoryAsked::kept_at))]
pub(crate) fn text_part<'a, 'de, R: Read<'de>>(
    decoder: &'a mut Decoder<R>,
    n: Option<u64>,
) -> Result<EitherStr<'a, 'de>>
    ensures* after_borrow { sem 𝓛 (Rests (the_row R.row) decoder.entry (λ new.
        (new.levels ≡ decoder.old.levels) × (new.formats ≡ decoder.old.formats)
        × LentText R.refusals R.lends (Text n)
        (R.source decoder.old.source) (R.source new.source) result
        × IfErr result IsNoKey
        × IfErr result (UnreadOnly (asks_head (asks_for R.refusals R.lends) (Text n) ≡ true))
        × IfErr result (UnreadBy R.refusals (behind_string (Text n))
        (R.source decoder.old.source)))) }
{
    match n {
        Some(n) => {
            if !decoder.has_room(n) {
                let refused = decoder.refuse(ReadErrorCode::LengthOutOfRange);
                return Err(Unread::Stopped(stopped(decoder, refused)));
            }
            let end = decoder.source.offset() + n;
            match decoder.source.read(n as usize) {
                Ok(part) => text_of(part, end),
                Err(refusal) => Err(Unread::Stopped(refusal)),
            }
        }
        None => {
            match decoder.join(Major::TextString) {
                Ok(()) => {}
                Err(refused) => return Err(Unread::Stopped(stopped(decoder, refused))),
            }
            let end = decoder.source.offset();
            text_of(decoder.source.take_buffer(), end)
        }
    }
}

// The text of a part, if it is UTF-8.
#[inline(always)]
fn utf8<'a, 'de>(part: EitherLifetime<'a, 'de>) -> Result<EitherStr<'a, 'de>>
    ensures { Utf8Of part.entry result }
{
    match part {
        EitherLifetime::Short(bytes) => match from_utf8(bytes) {
            Ok(text) => Ok(EitherStr::Short(text)),
            Err(_) => Err(Unread::Other),
        },
        EitherLifetime::Long(bytes) => match from_utf8(bytes) {
            Ok(text) => Ok(EitherStr::Long(text)),
            Err(_) => Err(Unread::Other),
        },
    }
}

// The bytes of a text.
#[inline(always)]
fn bytes_of<'a, 'de>(text: EitherStr<'a, 'de>) -> Result<EitherLifetime<'a, 'de>>
    ensures { BytesOf text.entry result }
{
    match text {
        EitherStr::Short(text) => Ok(EitherLifetime::Short(text.as_bytes())),
        EitherStr::Long(text) => Ok(EitherLifetime::Long(text.as_bytes())),
    }
}

// The refusal of an item of another kind, after its head: the fault of what follows, if it has one.
#[cold]
#[inline(never)]
#[tactic(auto, using(crate::proofs::texts::MemoryAsked::kept_only))]
fn other<R: Source>(decoder: &mut Decoder<R>, found: HeadAt) -> Unread
    ensures fault { UnreadBehind R.refusals found (R.source decoder.old.source) result }
    ensures memory { UnreadOnly (AsksBehind (asks_for R.refusals R.lends) found
        (R.source decoder.old.source)) result }
    ensures took { step.TookSome R.source decoder.old decoder.new }
    ensures no_key { IsNoKey result }
    ensures settings { SameSettings decoder.old decoder.new }
{
    match pass_over(decoder, found) {
        Ok(()) => Unread::Other,
        Err(refused) => Unread::Stopped(stopped(decoder, refused)),
    }
}

/// The error of a string that wasn't lent; the message is for an item of another kind.
#[cold]
#[inline(never)]
pub fn unread_error<R: Source>(decoder: &mut Decoder<R>, why: Unread, message: &str) -> Error
    ensures made { IsMadeOf why result }
    ensures no_form { IsNoKey why → ReportsNoForm (code_of result) }
    ensures source { decoder.new.source ≡ decoder.old.source }
    ensures settings { SameSettings decoder.old decoder.new }
{
    match why {
        Unread::Stopped(refusal) => Error::from(refusal),
        Unread::Other => Error::message(decoder.alloc, message),
    }
}

/// Lends a text, or a byte string that is UTF-8 (RFC 7049, section 2.1, major types 2 and 3).
///
/// Another item, as a byte string that isn't UTF-8, is [`Unread::Other`], and was passed over. What
/// isn't whole, of any kind, a text that isn't UTF-8 (`InvalidUtf8`), and a break
/// (`UnexpectedCode`) are refused, and what the source refuses.
#[inline(always)]
pub fn read_text<'a, 'de, R: Read<'de>>(decoder: &'a mut Decoder<R>) -> Result<EitherStr<'a, 'de>>
    ensures* after_borrow { sem 𝓛 (Rests (the_row R.row) decoder.entry (λ new.
        (new.levels ≡ decoder.old.levels)
        × (new.formats ≡ decoder.old.formats)
        × LendsText R.refusals (context decoder.old.formats R.lends) decoder.old.levels
        (R.source decoder.old.source) (R.source new.source) result
        × IfErr result IsNoKey
        × IfErr result (UnreadOnly (AsksToLend AsksForString (asks_for R.refusals R.lends)
        (formats_of decoder.old.formats) decoder.old.levels (R.source decoder.old.source)))
        × LendsWhole R.refusals decoder.old.levels (R.source decoder.old.source) result
        × OnOk result (step.Advances R.source decoder.old new))) }
{
    match decoder.short_text() {
        Some(n) => text_part(decoder, Some(n)),
        None => text_by_head(decoder),
    }
}

// Lends a text, or a byte string that is UTF-8, by its head, within its tags.
#[inline(never)]
#[tactic(auto, using(crate::proofs::texts::MemoryAsked::kept_none))]
fn text_by_head<'a, 'de, R: Read<'de>>(decoder: &'a mut Decoder<R>) -> Result<EitherStr<'a, 'de>>
    ensures* after_borrow { sem 𝓛 (Rests (the_row R.row) decoder.entry (λ new.
        (new.levels ≡ decoder.old.levels)
        × (new.formats ≡ decoder.old.formats)
        × LendsText R.refusals (context decoder.old.formats R.lends) decoder.old.levels
        (R.source decoder.old.source) (R.source new.source) result
        × IfErr result IsNoKey
        × IfErr result (UnreadOnly (AsksToLend AsksForString (asks_for R.refusals R.lends)
        (formats_of decoder.old.formats) decoder.old.levels (R.source decoder.old.source)))
        × LendsWhole R.refusals decoder.old.levels (R.source decoder.old.source) result
        × OnOk result (step.Advances R.source decoder.old new))) }
{
    let found = match scalar_head(decoder) {
        Ok(found) => found,
        Err(refused) => return Err(Unread::Stopped(stopped(decoder, refused))),
    };
    match found.head {
        Head::Text(n) => text_part(decoder, n),
        Head::Bytes(n) => utf8(bytes_part(decoder, n)?),
        _ => Err(other(
            decoder,
            HeadAt {
                head: found.head,
                levels: found.levels,
            },
        )),
    }
}

/// Lends the bytes of a byte string, or of a text. It refuses as [`read_text`] does, but for bytes
/// that aren't UTF-8 in a byte string.
#[tactic(auto, using(crate::proofs::texts::MemoryAsked::kept_none))]
pub fn read_bytes<'a, 'de, R: Read<'de>>(
    decoder: &'a mut Decoder<R>,
) -> Result<EitherLifetime<'a, 'de>>
    ensures* after_borrow { sem 𝓛 (Rests (the_row R.row) decoder.entry (λ new.
        (new.levels ≡ decoder.old.levels)
        × (new.formats ≡ decoder.old.formats)
        × LendsString R.refusals (context decoder.old.formats R.lends) decoder.old.levels
        (R.source decoder.old.source) (R.source new.source) result
        × IfErr result IsNoKey
        × IfErr result (UnreadOnly (AsksToLend AsksForString (asks_for R.refusals R.lends)
        (formats_of decoder.old.formats) decoder.old.levels (R.source decoder.old.source)))
        × LendsWhole R.refusals decoder.old.levels (R.source decoder.old.source) result
        × OnOk result (step.Advances R.source decoder.old new))) }
{
    let found = match scalar_head(decoder) {
        Ok(found) => found,
        Err(refused) => return Err(Unread::Stopped(stopped(decoder, refused))),
    };
    match found.head {
        Head::Bytes(n) => bytes_part(decoder, n),
        Head::Text(n) => bytes_of(text_part(decoder, n)?),
        _ => Err(other(
            decoder,
            HeadAt {
                head: found.head,
                levels: found.levels,
            },
        )),
    }
}

/// Lends the bytes of a byte string; a text is another item. It refuses as [`read_bytes`] does.
#[tactic(auto, using(crate::proofs::texts::MemoryAsked::kept_none))]
pub fn read_byte_string<'a, 'de, R: Read<'de>>(
    decoder: &'a mut Decoder<R>,
) -> Result<EitherLifetime<'a, 'de>>
    ensures* after_borrow { sem 𝓛 (Rests (the_row R.row) decoder.entry (λ new.
        (new.levels ≡ decoder.old.levels)
        × (new.formats ≡ decoder.old.formats)
        × LendsBytes R.refusals (context decoder.old.formats R.lends) decoder.old.levels
        (R.source decoder.old.source) (R.source new.source) result
        × IfErr result IsNoKey
        × IfErr result (UnreadOnly (AsksToLend AsksForBytes (asks_for R.refusals R.lends)
        (formats_of decoder.old.formats) decoder.old.levels (R.source decoder.old.source)))
        × LendsWhole R.refusals decoder.old.levels (R.source decoder.old.source) result
        × OnOk result (step.Advances R.source decoder.old new))) }
{
    let found = match scalar_head(decoder) {
        Ok(found) => found,
        Err(refused) => return Err(Unread::Stopped(stopped(decoder, refused))),
    };
    match found.head {
        Head::Bytes(n) => bytes_part(decoder, n),
        _ => Err(other(
            decoder,
            HeadAt {
                head: found.head,
                levels: found.levels,
            },
        )),
    }
}

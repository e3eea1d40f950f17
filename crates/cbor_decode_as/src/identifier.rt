//! What names a field of a struct, or a variant of an enum.

ghost use Rattle.std.specs.Prelude.{◌≡◌, ◌<◌, ◌≤◌, true, length, take, Some, None};
ghost use Rattle.std.specs.Prelude.{IfOk, IfErr, IfSome, OnOk};
ghost use Rattle.std.specs.Str.{IsUtf8};
ghost use Rattle.cbor_io.specs.declared.error.Error.{Error};
ghost use Rattle.cbor_read.specs.Source.{asks_for, part_bytes};
ghost use Rattle.cbor_model.specs.Readable.{PassesTags};
ghost use Rattle.cbor_decode.specs.Decoder.{SameSettings};
ghost use Rattle.cbor_decode.specs.Gives.{ReportsNoForm, ReportsNoKey, ReportsWhy};
ghost use Rattle.cbor_decode.specs.Memory.{MemoryOnly};
ghost use Rattle.cbor_decode.specs.declared.head.Head.TheVariants.{Bytes, Text};
ghost use Rattle.cbor_io.specs.Error.{code_of};
ghost use Rattle.cbor_decode_as.specs.Identifiers.{IsIdentifier, IsPlace, place_of, texts};
ghost use Rattle.cbor_decode_as.specs.Identifiers.{IsMadeBy, IsShortName, NamesNoKey, NamesText};
ghost use Rattle.cbor_decode_as.specs.Identifiers.{TakesBytesName, TakesName};
ghost use Rattle.cbor_decode_as.specs.Identifiers.{AsksForName, IsNoName, IsWhyOf, IsWhyOfHead};
ghost use Rattle.cbor_decode_as.specs.Identifiers.{NamesFault, NamesFront, NamesOnly};
ghost use Rattle.cbor_decode_as.specs.Strings.{IsMadeOf, IsNoKey, asks_head, behind_string};
ghost use Rattle.cbor_decode_as.specs.Takes.{OnceMade};
ghost use Rattle.cbor_decode.specs.Steps as step;
ghost use Rattle.cbor_decode_as.specs.DecoderCalls as call;

use crate::borrowed::{Unread, bytes_part};
use crate::scalar::scalar_head;
use cbor_decode::{Decoder, Done, Head, Refused};
use cbor_io::error::Error;
use cbor_io::head::Major;
use cbor_io::utf8::from_utf8;
use cbor_read::{EitherLifetime, Read, ReadErrorCode, Source};

/// The result of reading a field's or a variant's name.
pub type Lookup<T> = std::result::Result<T, Why>;

/// Why nothing was named. It is small: the decoder keeps the refusal, and the call that the
/// step belongs to makes the error ([`unnamed`]).
#[derive(Clone, Copy)]
pub enum Why {
    /// A step was refused.
    Refused(Refused),
    /// An item of another kind is there.
    Other,
}

impl From<Refused> for Why {
    ghost use Rattle.std.specs.Prelude.{◌≡◌};
    ghost use Rattle.cbor_decode_as.specs.declared.identifier.Why.TheVariants as why;

    ghost from_gives = { λ r w. w ≡ why.Refused r };

    fn from(refused: Refused) -> Why {
        Why::Refused(refused)
    }
}

// The place of the first of the names that is this text.
fn place(names: &[&str], text: &[u8]) -> Option<usize>
    ensures place { IsPlace (texts names.now) text.now result }
    ensures utf8 { IfSome result (λ i. IsUtf8 text.now) }
    ensures below { IfSome result (λ i. i < length names.now) }
{
    let mut i = 0;
    'names: while i < names.len() {
        if names[i].as_bytes() == text {
            return Some(i);
        }
        i += 1;
    }
    None
}

// The place that a number is.
#[inline(always)]
#[tactic(auto, using(crate::proofs::texts::Identifiers::number_place))]
fn place_of_number(names: &[&str], n: u64) -> Option<usize>
    ensures place { result ≡ place_of (texts names.now) n }
    ensures below { IfSome result (λ i. i < length names.now) }
{
    if n < names.len() as u64 {
        Some(n as usize)
    } else {
        None
    }
}

// The place that the bytes begin with, as a number below 24 or a name of up to 23 bytes, and how many
// bytes that takes.
#[inline(always)]
pub(crate) fn short_name(names: &[&str], bytes: &[u8]) -> Option<(usize, usize)>
    ensures name { IfSome result (λ v. IsShortName (texts names.now) (take v.1 bytes.now) v.0) }
    ensures within { IfSome result (λ v. v.1 ≤ length bytes.now) }
    ensures some { IfSome result (λ v. 0 < v.1) }
    ensures below { IfSome result (λ v. v.0 < length names.now) }
{
    let (head, behind) = bytes.split_first()?;
    match *head {
        number @ 0x00..=0x17 => {
            let index = place_of_number(names, number as u64)?;
            Some((index, 1))
        }
        head @ 0x60..=0x77 => {
            let n = usize::from(head - 0x60);
            let index = place(names, behind.get(..n)?)?;
            Some((index, 1 + n))
        }
        _ => None,
    }
}

// The place of the name that a part is.
#[inline(always)]
fn place_of_part(names: &[&str], part: EitherLifetime<'_, '_>) -> Option<usize>
    ensures place { IsPlace (texts names.now) (part_bytes part.entry) result }
    ensures below { IfSome result (λ i. i < length names.now) }
{
    match part {
        EitherLifetime::Short(bytes) => place(names, bytes),
        EitherLifetime::Long(bytes) => place(names, bytes),
    }
}

// The place of the name that a text is; or, where it isn't UTF-8, how many of its bytes stand from
// the first bad one on. A name is UTF-8, so only a text that is no name is tested for that.
#[inline(always)]
fn place_of_text(names: &[&str], text: &[u8]) -> std::result::Result<Option<usize>, usize>
    ensures place { NamesText (texts names.now) text.now result }
    ensures back { IfErr result (λ back. back ≤ length text.now) }
    ensures below { IfOk result (λ place. IfSome place (λ i. i < length names.now)) }
{
    if let Some(i) = place(names, text) {
        return Ok(Some(i));
    }
    match from_utf8(text) {
        Ok(_) => Ok(None),
        Err(e) => Err(text.len() - e.valid_up_to()),
    }
}

// The place of the name that a part of the input is, which is a text.
#[inline(always)]
fn place_of_text_part(
    names: &[&str],
    part: EitherLifetime<'_, '_>,
) -> std::result::Result<Option<usize>, usize>
    ensures place { NamesText (texts names.now) (part_bytes part.entry) result }
    ensures back { IfErr result (λ back. back ≤ length (part_bytes part.entry)) }
    ensures below { IfOk result (λ place. IfSome place (λ i. i < length names.now)) }
{
    match part {
        EitherLifetime::Short(text) => place_of_text(names, text),
        EitherLifetime::Long(text) => place_of_text(names, text),
    }
}

// Why nothing was named where no string was lent.
#[cold]
#[inline(never)]
fn kept<R: Source>(decoder: &mut Decoder<R>, unread: Unread) -> Why
    ensures kept { (e : Error) → IsMadeBy decoder.new.refusal result e → IsMadeOf unread e }
    ensures same { IsWhyOf unread decoder.new.refusal result }
    ensures source { decoder.new.source ≡ decoder.old.source }
    ensures no_key { IsNoKey unread → NamesNoKey decoder.new.refusal result }
    ensures settings { SameSettings decoder.old decoder.new }
{
    match unread {
        Unread::Stopped(refusal) => Why::Refused(decoder.keep(refusal)),
        Unread::Other => Why::Other,
    }
}

// Why an item of another kind names nothing, after its head.
#[cold]
#[inline(never)]
pub(crate) fn no_name<R: Source>(decoder: &mut Decoder<R>, head: Head) -> Why
    ensures why { IsWhyOfHead head (R.source decoder.old.source).offset decoder.new.refusal
        result }
    ensures no_key { NamesNoKey decoder.new.refusal result }
    ensures source { decoder.new.source ≡ decoder.old.source }
    ensures settings { SameSettings decoder.old decoder.new }
{
    if let Head::Break = head {
        return Why::Refused(decoder.refuse(ReadErrorCode::UnexpectedCode));
    }
    Why::Other
}

/// The error of what names nothing; the message is for an item of another kind.
#[cold]
#[inline(never)]
pub fn unnamed<R: Source>(decoder: &mut Decoder<R>, why: Why, message: &str) -> Error
    ensures made { IsMadeBy decoder.old.refusal why result }
    ensures source { decoder.new.source ≡ decoder.old.source }
    ensures no_form { NamesNoKey decoder.old.refusal why → ReportsNoForm (code_of result) }
    ensures settings { SameSettings decoder.old decoder.new }
{
    match why {
        Why::Refused(refused) => decoder.error(refused),
        Why::Other => Error::message(decoder.alloc, message),
    }
}

// Reads a text of n bytes after its head, as a name.
#[inline(always)]
#[tactic(auto, using(crate::proofs::texts::Lending::hand_step))]
fn definite_name<'de, R: Read<'de>>(
    decoder: &mut Decoder<R>,
    names: &[&str],
    n: u64,
) -> Done<Option<usize>>
    ensures read { TakesName R.refusals (texts names.now) (Text (Some n))
        (R.source decoder.old.source) (R.source decoder.new.source)
        decoder.new.refusal result }
    ensures fault { IfErr result (ReportsWhy R.refusals (behind_string (Text (Some n)))
        (R.source decoder.old.source) decoder.new.refusal) }
    ensures memory { IfErr result (MemoryOnly
        (asks_head (asks_for R.refusals R.lends) (Text (Some n)) ≡ true) decoder.new.refusal) }
    ensures below { IfOk result (λ place. IfSome place (λ i. i < length names.now)) }
    ensures no_key { IfErr result (ReportsNoKey decoder.new.refusal) }
    ensures settings { SameSettings decoder.old decoder.new }
{
    let ahead = decoder.source.ahead();
    if n <= ahead.len() as u64 {
        let named = place_of_text(names, &ahead[..n as usize]);
        decoder.source.advance(n as usize);
        return match named {
            Ok(place) => Ok(place),
            Err(back) => Err(decoder.refuse_text(back)),
        };
    }
    name_slow(decoder, names, n)
}

// Reads it as a name where too few bytes are buffered: the source is asked for them.
#[inline(never)]
fn name_slow<'de, R: Read<'de>>(
    decoder: &mut Decoder<R>,
    names: &[&str],
    n: u64,
) -> Done<Option<usize>>
    ensures read { TakesName R.refusals (texts names.now) (Text (Some n))
        (R.source decoder.old.source) (R.source decoder.new.source)
        decoder.new.refusal result }
    ensures fault { IfErr result (ReportsWhy R.refusals (behind_string (Text (Some n)))
        (R.source decoder.old.source) decoder.new.refusal) }
    ensures memory { IfErr result (MemoryOnly
        (asks_head (asks_for R.refusals R.lends) (Text (Some n)) ≡ true) decoder.new.refusal) }
    ensures below { IfOk result (λ place. IfSome place (λ i. i < length names.now)) }
    ensures no_key { IfErr result (ReportsNoKey decoder.new.refusal) }
    ensures settings { SameSettings decoder.old decoder.new }
{
    if !decoder.has_room(n) {
        return Err(decoder.refuse(ReadErrorCode::LengthOutOfRange));
    }
    let named = match decoder.source.read(n as usize) {
        Ok(part) => place_of_text_part(names, part),
        Err(refusal) => return Err(decoder.keep(refusal)),
    };
    match named {
        Ok(place) => Ok(place),
        Err(back) => Err(decoder.refuse_text(back)),
    }
}

// Reads a text in chunks after its head, as a name.
#[inline(never)]
fn joined_name<'de, R: Read<'de>>(decoder: &mut Decoder<R>, names: &[&str]) -> Done<Option<usize>>
    ensures read { TakesName R.refusals (texts names.now) (Text None)
        (R.source decoder.old.source) (R.source decoder.new.source)
        decoder.new.refusal result }
    ensures fault { IfErr result (ReportsWhy R.refusals (behind_string (Text None))
        (R.source decoder.old.source) decoder.new.refusal) }
    ensures memory { IfErr result (MemoryOnly
        (asks_head (asks_for R.refusals R.lends) (Text None) ≡ true) decoder.new.refusal) }
    ensures below { IfOk result (λ place. IfSome place (λ i. i < length names.now)) }
    ensures no_key { IfErr result (ReportsNoKey decoder.new.refusal) }
    ensures settings { SameSettings decoder.old decoder.new }
{
    decoder.join(Major::TextString)?;
    match place_of_text_part(names, decoder.source.take_buffer()) {
        Ok(place) => Ok(place),
        Err(back) => Err(decoder.refuse_text(back)),
    }
}

// Reads a text after its head, as a name.
#[inline(always)]
pub(crate) fn text_name<'de, R: Read<'de>>(
    decoder: &mut Decoder<R>,
    names: &[&str],
    n: Option<u64>,
) -> Done<Option<usize>>
    ensures read { TakesName R.refusals (texts names.now) (Text n)
        (R.source decoder.old.source) (R.source decoder.new.source)
        decoder.new.refusal result }
    ensures fault { IfErr result (ReportsWhy R.refusals (behind_string (Text n))
        (R.source decoder.old.source) decoder.new.refusal) }
    ensures memory { IfErr result (MemoryOnly
        (asks_head (asks_for R.refusals R.lends) (Text n) ≡ true) decoder.new.refusal) }
    ensures below { IfOk result (λ place. IfSome place (λ i. i < length names.now)) }
    ensures no_key { IfErr result (ReportsNoKey decoder.new.refusal) }
    ensures settings { SameSettings decoder.old decoder.new }
{
    match n {
        Some(n) => definite_name(decoder, names, n),
        None => joined_name(decoder, names),
    }
}

// Reads a byte string after its head, as a name.
pub(crate) fn bytes_name<'de, R: Read<'de>>(
    decoder: &mut Decoder<R>,
    names: &[&str],
    n: Option<u64>,
) -> Lookup<Option<usize>>
    ensures read { TakesBytesName R.refusals (texts names.now) (Bytes n)
        (R.source decoder.old.source) (R.source decoder.new.source)
        decoder.new.refusal result }
    ensures fault { IfErr result (NamesFault ⊥ R.refusals (behind_string (Bytes n))
        (R.source decoder.old.source) decoder.new.refusal) }
    ensures memory { IfErr result (NamesOnly
        (asks_head (asks_for R.refusals R.lends) (Bytes n) ≡ true) decoder.new.refusal) }
    ensures below { IfOk result (λ place. IfSome place (λ i. i < length names.now)) }
    ensures no_key { IfErr result (NamesNoKey decoder.new.refusal) }
    ensures settings { SameSettings decoder.old decoder.new }
{
    match bytes_part(decoder, n) {
        Ok(part) => Ok(place_of_part(names, part)),
        Err(unread) => Err(kept(decoder, unread)),
    }
}

/// Reads an identifier: a number from 0, which is a place among the names, or a name as a text or
/// a byte string. None is one that no name is of. It takes no memory but what the source takes to
/// hand out the string, or to join its chunks.
///
/// Another item is [`Why::Other`]. What isn't whole, a text that isn't UTF-8 (`InvalidUtf8`), and
/// a break (`UnexpectedCode`) are refused, and what the source refuses.
#[inline(always)]
pub fn identifier<'de, R: Read<'de>>(
    decoder: &mut Decoder<R>,
    names: &[&str],
) -> Lookup<Option<usize>>
    ensures read { OnceMade (IsMadeBy decoder.new.refusal)
        (call.TakesItem R.source R.refusals (PassesTags (IsIdentifier (texts names.now)))
        decoder.old decoder.new) result }
    ensures taken { OnOk result (step.Advances R.source decoder.old decoder.new) }
    ensures fault { IfErr result (NamesFront IsNoName R.refusals decoder.old.levels
        (R.source decoder.old.source) decoder.new.refusal) }
    ensures memory { IfErr result (NamesOnly (AsksForName (asks_for R.refusals R.lends)
        decoder.old.levels (R.source decoder.old.source)) decoder.new.refusal) }
    ensures below { IfOk result (λ place. IfSome place (λ i. i < length names.now)) }
    ensures no_key { IfErr result (NamesNoKey decoder.new.refusal) }
    ensures settings { SameSettings decoder.old decoder.new }
{
    match decoder.short_text() {
        Some(n) => Ok(definite_name(decoder, names, n)?),
        None => identifier_slow(decoder, names),
    }
}

// Reads an identifier by its head, within its tags.
#[inline(never)]
fn identifier_slow<'de, R: Read<'de>>(
    decoder: &mut Decoder<R>,
    names: &[&str],
) -> Lookup<Option<usize>>
    ensures read { OnceMade (IsMadeBy decoder.new.refusal)
        (call.TakesItem R.source R.refusals (PassesTags (IsIdentifier (texts names.now)))
        decoder.old decoder.new) result }
    ensures taken { OnOk result (step.Advances R.source decoder.old decoder.new) }
    ensures fault { IfErr result (NamesFront IsNoName R.refusals decoder.old.levels
        (R.source decoder.old.source) decoder.new.refusal) }
    ensures memory { IfErr result (NamesOnly (AsksForName (asks_for R.refusals R.lends)
        decoder.old.levels (R.source decoder.old.source)) decoder.new.refusal) }
    ensures below { IfOk result (λ place. IfSome place (λ i. i < length names.now)) }
    ensures no_key { IfErr result (NamesNoKey decoder.new.refusal) }
    ensures settings { SameSettings decoder.old decoder.new }
{
    let found = scalar_head(decoder)?;
    match found.head {
        Head::Unsigned(n) => Ok(place_of_number(names, n)),
        Head::Text(n) => Ok(text_name(decoder, names, n)?),
        Head::Bytes(n) => bytes_name(decoder, names, n),
        _ => Err(no_name(decoder, found.head)),
    }
}

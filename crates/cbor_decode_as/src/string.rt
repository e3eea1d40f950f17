//! Strings: texts, and byte strings (RFC 7049, section 2.1, major types 2 and 3; in chunks, section
//! 2.2.2).

ghost use Rattle.std.specs.Prelude.{◌≡◌, ◌≤◌, length, IfOk, IfErr, OnOk, OnSome};
ghost use Rattle.std.specs.String.{string_bytes};
ghost use Rattle.cbor_model.specs.Readable.{PassesTags, IsText};
ghost use Rattle.cbor_io.specs.Error.{code_of};
ghost use Rattle.cbor_decode.specs.Decoder.{SameSettings};
ghost use Rattle.cbor_decode.specs.Gives.{ReportsNoForm, ReportsNoKey};
ghost use Rattle.cbor_decode_as.specs.Identifiers.{IsMadeBy, NamesNoKey, NamesWhole};
ghost use Rattle.cbor_decode.specs.declared.head.Head.TheVariants.{Bytes, Text};
ghost use Rattle.cbor_decode_as.specs.Strings.{content_at, KeepsTextOf, SeeksItem, TakesText};
ghost use Rattle.cbor_decode_as.specs.Strings.{SeeksWhole, ReportsString};
ghost use Rattle.cbor_decode_as.specs.Takes.{OnceMade, formats_of};
ghost use Rattle.cbor_decode.specs.Steps as step;
ghost use Rattle.cbor_decode_as.specs.DecoderCalls as call;

use crate::head::pass_over;
use crate::identifier::{Lookup, Why, unnamed};
use crate::scalar::scalar_head;
use cbor_decode::{Decoder, Done, Head};
use cbor_io::error::Result;
use cbor_io::head::Major;
use cbor_io::utf8::{from_utf8, string_from_utf8};
use cbor_read::{ReadErrorCode, Source};

// Takes the bytes of a byte string after its head.
#[inline(always)]
pub(crate) fn byte_string<R: Source>(decoder: &mut Decoder<R>, n: Option<u64>) -> Done<Vec<u8>>
    ensures read { step.Gives R.source R.refusals (λ v. v.items) (λ l. content_at l (Bytes n))
        decoder.old decoder.new result }
    ensures no_key { IfErr result (ReportsNoKey decoder.new.refusal) }
    ensures settings { SameSettings decoder.old decoder.new }
{
    match n {
        Some(n) => decoder.bytes(n),
        None => decoder.chunks(Major::ByteString),
    }
}

// Takes the bytes of a text after its head.
#[inline(always)]
fn text_content<R: Source>(decoder: &mut Decoder<R>, n: Option<u64>) -> Done<Vec<u8>>
    ensures read { step.Gives R.source R.refusals (λ v. v.items) (λ l. content_at l (Text n))
        decoder.old decoder.new result }
    ensures counted { IfOk result
        (λ v. length v.items ≤ (R.source decoder.new.source).offset) }
    ensures no_key { IfErr result (ReportsNoKey decoder.new.refusal) }
    ensures settings { SameSettings decoder.old decoder.new }
{
    match n {
        Some(n) => {
            if !decoder.has_room(n) {
                return Err(decoder.refuse(ReadErrorCode::LengthOutOfRange));
            }
            decoder.bytes(n)
        }
        None => decoder.chunks(Major::TextString),
    }
}

// The text of these bytes, which were taken just now, if they are UTF-8.
#[inline(always)]
fn checked<R: Source>(decoder: &mut Decoder<R>, bytes: Vec<u8>) -> Done<String>
    requires taken { length bytes.items ≤ (R.source decoder.old.source).offset }
    ensures read { KeepsTextOf (λ s. string_bytes s) bytes.items
        (R.source decoder.old.source).offset decoder.new.refusal result }
    ensures source { decoder.new.source ≡ decoder.old.source }
    ensures no_key { IfErr result (ReportsNoKey decoder.new.refusal) }
    ensures settings { SameSettings decoder.old decoder.new }
{
    let len = bytes.len();
    match string_from_utf8(bytes) {
        Ok(text) => Ok(text),
        Err(e) => {
            let valid = e.utf8_error().valid_up_to();
            Err(decoder.refuse_back(ReadErrorCode::InvalidUtf8, len - valid))
        }
    }
}

// Takes a text of n bytes after its head. It is copied once it is known to be UTF-8.
#[inline(always)]
fn definite_text<R: Source>(decoder: &mut Decoder<R>, n: u64) -> Done<String>
    ensures read { TakesText R.refusals (λ s. string_bytes s) (Text (Some n))
        (R.source decoder.old.source) (R.source decoder.new.source)
        decoder.new.refusal result }
    ensures fault { IfErr result (ReportsString R.refusals (Text (Some n))
        (R.source decoder.old.source) decoder.new.refusal) }
    ensures no_key { IfErr result (ReportsNoKey decoder.new.refusal) }
    ensures settings { SameSettings decoder.old decoder.new }
{
    let ahead = decoder.source.ahead();
    if n <= ahead.len() as u64 {
        let bytes = &ahead[..n as usize];
        return match from_utf8(bytes) {
            Ok(text) => {
                let text = String::from_str(decoder.alloc, text)?;
                decoder.source.advance(n as usize);
                Ok(text)
            }
            Err(e) => {
                let back = bytes.len() - e.valid_up_to();
                decoder.source.advance(n as usize);
                Err(decoder.refuse_text(back))
            }
        };
    }
    text_slow(decoder, Some(n))
}

// Takes a text after its head; its bytes need not be available.
#[inline(never)]
fn text_slow<R: Source>(decoder: &mut Decoder<R>, n: Option<u64>) -> Done<String>
    ensures read { TakesText R.refusals (λ s. string_bytes s) (Text n)
        (R.source decoder.old.source) (R.source decoder.new.source)
        decoder.new.refusal result }
    ensures fault { IfErr result (ReportsString R.refusals (Text n)
        (R.source decoder.old.source) decoder.new.refusal) }
    ensures no_key { IfErr result (ReportsNoKey decoder.new.refusal) }
    ensures settings { SameSettings decoder.old decoder.new }
{
    let bytes = text_content(decoder, n)?;
    checked(decoder, bytes)
}

// Seeks a text, or a byte string that is UTF-8; None where an item of another kind is there.
#[inline(always)]
fn string<R: Source>(decoder: &mut Decoder<R>) -> Done<Option<String>>
    ensures read { SeeksItem R.refusals (formats_of decoder.old.formats)
        (PassesTags (λ r s. IsText r (string_bytes s))) decoder.old.levels
        (R.source decoder.old.source) (R.source decoder.new.source)
        decoder.new.refusal result }
    ensures taken { OnOk result (step.Advances R.source decoder.old decoder.new) }
    ensures fault { SeeksWhole R.refusals decoder.old.levels (R.source decoder.old.source)
        decoder.new.refusal result }
    ensures no_key { IfErr result (ReportsNoKey decoder.new.refusal) }
    ensures settings { SameSettings decoder.old decoder.new }
{
    if let Some(n) = decoder.short_text() {
        let text = definite_text(decoder, n)?;
        return Ok(Some(text));
    }
    string_slow(decoder)
}

// Seeks a string by its head, within its tags.
#[inline(always)]
fn string_slow<R: Source>(decoder: &mut Decoder<R>) -> Done<Option<String>>
    ensures read { SeeksItem R.refusals (formats_of decoder.old.formats)
        (PassesTags (λ r s. IsText r (string_bytes s))) decoder.old.levels
        (R.source decoder.old.source) (R.source decoder.new.source)
        decoder.new.refusal result }
    ensures taken { OnOk result (step.Advances R.source decoder.old decoder.new) }
    ensures fault { SeeksWhole R.refusals decoder.old.levels (R.source decoder.old.source)
        decoder.new.refusal result }
    ensures no_key { IfErr result (ReportsNoKey decoder.new.refusal) }
    ensures settings { SameSettings decoder.old decoder.new }
{
    let found = scalar_head(decoder)?;
    match found.head {
        Head::Text(n) => {
            let text = text_slow(decoder, n)?;
            Ok(Some(text))
        }
        Head::Bytes(n) => {
            let bytes = byte_string(decoder, n)?;
            match string_from_utf8(bytes) {
                Ok(text) => Ok(Some(text)),
                Err(_) => Ok(None),
            }
        }
        _ => match pass_over(decoder, found) {
            Ok(()) => Ok(None),
            Err(refused) => Err(refused),
        },
    }
}

/// Reads a text of up to 23 bytes that is at hand, without tags, to memory of its own. None where
/// another item comes, too few bytes are at hand, or memory is wanting; then nothing is taken.
#[inline(always)]
pub fn text_at_hand<R: Source>(decoder: &mut Decoder<R>) -> Option<String>
    ensures read { call.TakesAtHand R.source R.refusals
        (PassesTags (λ r s. IsText r (string_bytes s))) decoder.old decoder.new result }
    ensures taken { OnSome result (step.Advances R.source decoder.old decoder.new) }
    ensures settings { SameSettings decoder.old decoder.new }
{
    let (head, behind) = decoder.source.ahead().split_first()?;
    let n = match *head {
        head @ 0x60..=0x77 => usize::from(head - 0x60),
        _ => return None,
    };
    let text = from_utf8(behind.get(..n)?).ok()?;
    let text = String::from_str(decoder.alloc, text).ok()?;
    decoder.source.advance(1 + n);
    Some(text)
}

// Reads a string; an item of another kind is `Why::Other`.
#[inline(always)]
fn own_string<R: Source>(decoder: &mut Decoder<R>) -> Lookup<String>
    ensures read { OnceMade (IsMadeBy decoder.new.refusal)
        (call.TakesItem R.source R.refusals (PassesTags (λ r s. IsText r (string_bytes s)))
        decoder.old decoder.new) result }
    ensures taken { OnOk result (step.Advances R.source decoder.old decoder.new) }
    ensures fault { IfErr result (NamesWhole R.refusals decoder.old.levels
        (R.source decoder.old.source) decoder.new.refusal) }
    ensures no_key { IfErr result (NamesNoKey decoder.new.refusal) }
    ensures settings { SameSettings decoder.old decoder.new }
{
    match string(decoder) {
        Ok(Some(text)) => Ok(text),
        Ok(None) => Err(Why::Other),
        Err(refused) => Err(Why::Refused(refused)),
    }
}

// The same, once its source has tried to bring it to hand.
#[inline(always)]
fn gathered_text<R: Source>(decoder: &mut Decoder<R>) -> Option<String>
    ensures read { call.TakesGathered R.source R.refusals
        (PassesTags (λ r s. IsText r (string_bytes s))) decoder.old decoder.new result }
    ensures taken { OnSome result (step.Advances R.source decoder.old decoder.new) }
    ensures settings { SameSettings decoder.old decoder.new }
{
    if !decoder.gather_text() {
        return None;
    }
    text_at_hand(decoder)
}

/// Reads a text, or a byte string that is UTF-8, to memory of its own.
///
/// Another item, as a byte string that isn't UTF-8, is refused with [`NO_STRING`]; a text that
/// isn't UTF-8 with `InvalidUtf8`, and what isn't whole, of any kind, by its fault.
pub fn read_string<R: Source>(decoder: &mut Decoder<R>) -> Result<String>
    ensures read { call.TakesItem R.source R.refusals
        (PassesTags (λ r s. IsText r (string_bytes s))) decoder.old decoder.new result }
    ensures taken { OnOk result (step.Advances R.source decoder.old decoder.new) }
    ensures fault { IfErr result (call.RefusesWhole R.source R.refusals decoder.old) }
    ensures no_form { IfErr result (λ e. ReportsNoForm (code_of e)) }
    ensures settings { SameSettings decoder.old decoder.new }
{
    match gathered_text(decoder) {
        Some(text) => Ok(text),
        None => read_text_or_bytes(decoder),
    }
}

// The same, as its bytes come.
#[inline(always)]
fn read_text_or_bytes<R: Source>(decoder: &mut Decoder<R>) -> Result<String>
    ensures read { call.TakesItem R.source R.refusals
        (PassesTags (λ r s. IsText r (string_bytes s))) decoder.old decoder.new result }
    ensures taken { OnOk result (step.Advances R.source decoder.old decoder.new) }
    ensures fault { IfErr result (call.RefusesWhole R.source R.refusals decoder.old) }
    ensures no_form { IfErr result (λ e. ReportsNoForm (code_of e)) }
    ensures settings { SameSettings decoder.old decoder.new }
{
    match own_string(decoder) {
        Ok(text) => Ok(text),
        Err(why) => Err(unnamed(decoder, why, NO_STRING)),
    }
}

/// The message of an item that isn't a string.
pub const NO_STRING: &str = "invalid type: expected a string";

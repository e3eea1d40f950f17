//! Arrays and maps around what they hold (RFC 7049, section 2.1, major types 4 and 5).

ghost use Rattle.std.specs.Prelude.{◌≡◌, ◌≢◌, ◌<◌, IfOk, IfErr, IfSome, OnOk, OnErr, OnSome, Ok};
ghost use Rattle.std.specs.Prelude.{MatchOption, true, false};
ghost use Rattle.cbor_io.specs.Error.{code_of};
ghost use Rattle.cbor_decode.specs.Decoder.{SameSettings};
ghost use Rattle.cbor_decode.specs.Cursor.{Counts};
ghost use Rattle.cbor_decode.specs.Gives.{ReportsNoForm, ReportsNoMemory, ReportsWhy, IsAt};
ghost use Rattle.cbor_decode.specs.Gives.{IsErrorOf};
ghost use Rattle.cbor_decode.specs.Heads.{remaining_of};
ghost use Rattle.cbor_decode.specs.Heads.{HeadGives, opening_at};
ghost use Rattle.cbor_decode_as.specs.Accesses.{TakesMore};
ghost use Rattle.cbor_decode_as.specs.Begins.{BeginningFault, MemoryForOther, TakesBeginning};
ghost use Rattle.cbor_decode_as.specs.Takes.{OnceMade, ReportsFault, formats_of};
ghost use Rattle.cbor_model.specs.Formats.{may_begin_key};
ghost use Rattle.cbor_model.specs.Reader.{next_at};
ghost use Rattle.cbor_model.specs.Refusal.{end_in_array};
ghost use Rattle.cbor_decode.specs.declared.refusal.Refused.TheVariants.{Kept};
ghost use Rattle.cbor_io.specs.declared.error.Error.{Error};
ghost use Rattle.cbor_io.specs.declared.error.ErrorCode.TheVariants.{OutOfMemory};
ghost use Rattle.cbor_decode_as.specs.Cases.{HasCase, ReportsBadKey, key_cases};
ghost use Rattle.cbor_decode_as.specs.Collections.{TakesEndOf, TakesHeadOf, head_of};
ghost use Rattle.cbor_decode_as.specs.MapAccesses.{TakesMorePairs};
ghost use Rattle.cbor_decode_as.specs.MapAccesses.{key_front, pair_front};
ghost use Rattle.cbor_decode.specs.declared.cursor.Remaining.{Remaining};
ghost use Rattle.cbor_decode.specs.declared.cursor.Remaining.TheVariants.{Counted};
ghost use Rattle.cbor_io.specs.declared.read_error.ReadErrorCode.TheVariants as reading;
ghost use Rattle.cbor_decode.specs.Steps as step;

use crate::head::{mismatch, tagged_head};
use cbor_decode::{Collection, Decoder, Done, Head, Remaining};
use cbor_io::error::Result;
use cbor_read::{ReadErrorCode, Source};

/// Takes the head of an array of up to 23 items, or of a map of as many pairs, that is at hand, without
/// tags, and goes one level in. None where another head comes, no byte is at hand, or no level is left;
/// then nothing is taken.
#[inline(always)]
pub fn head_at_hand<R: Source>(decoder: &mut Decoder<R>, of: Collection) -> Option<Remaining>
    ensures read { MatchOption result (R.source decoder.new.source ≡ R.source decoder.old.source)
        (λ remaining. TakesHeadOf of R.refusals (formats_of decoder.old.formats)
        decoder.old.levels (R.source decoder.old.source) (R.source decoder.new.source)
        decoder.new.levels (Ok remaining)) }
    ensures opened { IfSome result (λ remaining. TakesBeginning (head_of of) R.refusals
        decoder.old.levels (R.source decoder.old.source) (R.source decoder.new.source)
        decoder.new.levels (Ok remaining)) }
    ensures taken { OnSome result (step.Advances R.source decoder.old decoder.new) }
    ensures levels { MatchOption result (decoder.new.levels ≡ decoder.old.levels)
        (λ remaining. decoder.new.levels < decoder.old.levels) }
    ensures formats { decoder.new.formats ≡ decoder.old.formats }
{
    if decoder.levels == 0 {
        return None;
    }
    match short(decoder, of) {
        Some(n) => {
            decoder.levels -= 1;
            Some(Remaining::Counted(n))
        }
        None => None,
    }
}

// Takes the head of a short one, and returns how many items or pairs it has. The level stays.
#[inline(always)]
fn short<R: Source>(decoder: &mut Decoder<R>, of: Collection) -> Option<u64>
    ensures read { MatchOption result (R.source decoder.new.source ≡ R.source decoder.old.source)
        (λ n. HeadGives R.refusals opening_at (R.source decoder.old.source)
        (R.source decoder.new.source) decoder.new.refusal (Ok (head_of of (Counted n)))) }
    ensures taken { OnSome result (step.Advances R.source decoder.old decoder.new) }
    ensures settings { SameSettings decoder.old decoder.new }
{
    match of {
        Collection::Array => decoder.short_array(),
        Collection::Map => decoder.short_map(),
    }
}

/// Takes the tags and the head of an array or a map, and goes one level in.
///
/// An item of another kind is refused with `invalid type: expected an array`, or `a map`, and one for
/// which no level is left with `RecursionLimitExceeded`. No level is entered then.
#[inline(always)]
pub fn head<R: Source>(decoder: &mut Decoder<R>, of: Collection) -> Result<Remaining>
    ensures read { TakesHeadOf of R.refusals (formats_of decoder.old.formats)
        decoder.old.levels (R.source decoder.old.source) (R.source decoder.new.source)
        decoder.new.levels result }
    ensures opened { TakesBeginning (head_of of) R.refusals decoder.old.levels
        (R.source decoder.old.source) (R.source decoder.new.source)
        decoder.new.levels result }
    ensures taken { OnOk result (step.Advances R.source decoder.old decoder.new) }
    ensures no_form { IfErr result (λ e. ReportsNoForm (code_of e)) }
    ensures fault { IfErr result (BeginningFault (head_of of) R.refusals decoder.old.levels
        (R.source decoder.old.source)) }
    ensures memory { IfErr result (MemoryForOther (head_of of) decoder.old.levels
        (R.source decoder.old.source)) }
    ensures inside { IfOk result (λ r. decoder.new.levels < decoder.old.levels) }
    ensures outer { OnErr result (decoder.new.levels ≡ decoder.old.levels) }
    ensures formats { decoder.new.formats ≡ decoder.old.formats }
{
    match head_at_hand(decoder, of) {
        Some(remaining) => Ok(remaining),
        None => head_slow(decoder, of),
    }
}

// The same where no such head is at hand.
#[inline(never)]
fn head_slow<R: Source>(decoder: &mut Decoder<R>, of: Collection) -> Result<Remaining>
    ensures read { TakesHeadOf of R.refusals (formats_of decoder.old.formats)
        decoder.old.levels (R.source decoder.old.source) (R.source decoder.new.source)
        decoder.new.levels result }
    ensures opened { TakesBeginning (head_of of) R.refusals decoder.old.levels
        (R.source decoder.old.source) (R.source decoder.new.source)
        decoder.new.levels result }
    ensures taken { OnOk result (step.Advances R.source decoder.old decoder.new) }
    ensures no_form { IfErr result (λ e. ReportsNoForm (code_of e)) }
    ensures fault { IfErr result (BeginningFault (head_of of) R.refusals decoder.old.levels
        (R.source decoder.old.source)) }
    ensures memory { IfErr result (MemoryForOther (head_of of) decoder.old.levels
        (R.source decoder.old.source)) }
    ensures inside { IfOk result (λ r. decoder.new.levels < decoder.old.levels) }
    ensures outer { OnErr result (decoder.new.levels ≡ decoder.old.levels) }
    ensures formats { decoder.new.formats ≡ decoder.old.formats }
{
    let outer = decoder.levels;
    let head = match tagged_head(decoder) {
        Ok(head) => head,
        Err(refused) => {
            decoder.levels = outer;
            return Err(decoder.error(refused));
        }
    };
    match remaining_in(head, of) {
        Some(remaining) => match decoder.enter() {
            Ok(()) => Ok(remaining),
            Err(refused) => {
                decoder.levels = outer;
                Err(decoder.error(refused))
            }
        },
        None => {
            decoder.levels = outer;
            Err(mismatch(decoder, head, expected(of)))
        }
    }
}

// How much follows the head, where it is that of such a one.
fn remaining_in(head: Head, of: Collection) -> Option<Remaining>
    ensures { MatchOption result ((r : Remaining) → head ≢ head_of of r)
        (λ remaining. head ≡ head_of of remaining) }
{
    match (of, head) {
        (Collection::Array, Head::Array(remaining)) => Some(remaining),
        (Collection::Map, Head::Map(remaining)) => Some(remaining),
        _ => None,
    }
}

// The message on an item of another kind.
fn expected(of: Collection) -> &'static str {
    match of {
        Collection::Array => "invalid type: expected an array",
        Collection::Map => "invalid type: expected a map",
    }
}

/// Takes the end of an array or a map of which so much remains. Items or pairs that weren't read are
/// refused with `TrailingData`.
pub fn end<R: Source>(decoder: &mut Decoder<R>, remaining: Remaining, of: Collection) -> Result<()>
    ensures read { TakesEndOf of R.refusals remaining
        (R.source decoder.old.source) (R.source decoder.new.source) result }
    ensures no_form { IfErr result (λ e. ReportsNoForm (code_of e)) }
    ensures memory { IfErr result (λ e. code_of e ≢ OutOfMemory) }
    ensures settings { SameSettings decoder.old decoder.new }
{
    match decoder.end_of(remaining, of) {
        Ok(()) => Ok(()),
        Err(refused) => Err(decoder.error(refused)),
    }
}

/// Whether another item of an array comes, of which so much remains; its first byte stays. An array
/// of indefinite length that has no end is refused with `EofWhileParsingArray`.
#[inline(always)]
pub fn more_items<R: Source>(decoder: &mut Decoder<R>, remaining: &mut Remaining) -> Result<bool>
    ensures read { TakesMore R.refusals remaining.old remaining.new
        (R.source decoder.old.source) (R.source decoder.new.source) result }
    ensures counts { IfOk result (λ more. Counts remaining.old more remaining.new) }
    ensures fault { IfErr result (ReportsFault R.refusals
        (λ l. next_at end_in_array (remaining_of remaining.old)) (R.source decoder.old.source)) }
    ensures no_form { IfErr result (λ e. ReportsNoForm (code_of e)) }
    ensures memory { IfErr result (λ e. code_of e ≢ OutOfMemory) }
    ensures settings { SameSettings decoder.old decoder.new }
{
    match decoder.more(remaining, Collection::Array) {
        Ok(more) => Ok(more),
        Err(refused) => Err(decoder.error(refused)),
    }
}

// Refuses a key that may not begin as it does; its first byte stays.
#[inline(always)]
#[tactic(auto, unfolding(cbor_model::specs::Reader::key_at))]
pub(crate) fn key_begins<R: Source>(decoder: &mut Decoder<R>) -> Done<()>
    ensures read { step.Gives R.source R.refusals (λ u. u)
        (λ l. key_front (formats_of decoder.old.formats)) decoder.old decoder.new result }
    ensures memory { IfErr result (ReportsNoMemory decoder.new.refusal) }
    ensures settings { SameSettings decoder.old decoder.new }
{
    match decoder.source.ahead().first().copied() {
        Some(first) => key_may_begin(decoder, first),
        None => key_begins_peeked(decoder),
    }
}

// Refuses such a key where no byte is buffered: the source is asked to show one.
#[inline(never)]
#[tactic(auto, unfolding(cbor_model::specs::Reader::key_at))]
fn key_begins_peeked<R: Source>(decoder: &mut Decoder<R>) -> Done<()>
    ensures read { step.Gives R.source R.refusals (λ u. u)
        (λ l. key_front (formats_of decoder.old.formats)) decoder.old decoder.new result }
    ensures memory { IfErr result (ReportsNoMemory decoder.new.refusal) }
    ensures settings { SameSettings decoder.old decoder.new }
{
    match decoder.source.peek() {
        Ok(Some(first)) => key_may_begin(decoder, first),
        Ok(None) => Err(decoder.refuse(ReadErrorCode::EofWhileParsingValue)),
        Err(refusal) => Err(decoder.keep(refusal)),
    }
}

// Refuses a key that may not begin with this byte.
#[inline(always)]
fn key_may_begin<R: Source>(decoder: &mut Decoder<R>, first: u8) -> Done<()>
    ensures allowed { OnOk result
        (may_begin_key (formats_of decoder.old.formats) first ≡ true) }
    ensures refused { IfErr result (λ r. r ≡ Kept) }
    ensures kept { OnErr result
        (IsAt reading.WrongStructFormat (R.source decoder.old.source).offset decoder.new.refusal) }
    ensures not_allowed { OnErr result
        (may_begin_key (formats_of decoder.old.formats) first ≡ false) }
    ensures source { decoder.new.source ≡ decoder.old.source }
    ensures settings { SameSettings decoder.old decoder.new }
{
    if !decoder.formats.may_begin_key(first) {
        return Err(decoder.refuse(ReadErrorCode::WrongStructFormat));
    }
    Ok(())
}

/// Whether another pair of a map comes, of which so much remains; its first byte stays. A key that
/// may not begin as it does is refused with `WrongStructFormat`, and a map of indefinite length
/// that has no end with `EofWhileParsingMap`.
#[inline(always)]
#[tactic(auto, using(crate::proofs::refused::Cases::made_stands, crate::proofs::refused::Cases::key_stands, crate::proofs::maps::BadKeys::bad_key_first, crate::proofs::maps::BadKeys::bad_key_reported))]
pub fn more_pairs<R: Source>(decoder: &mut Decoder<R>, remaining: &mut Remaining) -> Done<bool>
    ensures read { OnceMade (IsErrorOf decoder.new.refusal)
        (TakesMorePairs R.refusals (formats_of decoder.old.formats)
        remaining.old remaining.new
        (R.source decoder.old.source) (R.source decoder.new.source)) result }
    ensures fault { IfErr result (ReportsWhy R.refusals
        (λ l. pair_front (formats_of decoder.old.formats) (remaining_of remaining.old))
        (R.source decoder.old.source) decoder.new.refusal) }
    ensures cases { IfErr result (λ r. (e : Error) → IsErrorOf decoder.new.refusal r e
        → HasCase (R.source decoder.old.source) e
        (key_cases (formats_of decoder.old.formats) remaining.old)) }
    ensures bad_key { IfErr result (λ r. (e : Error) → IsErrorOf decoder.new.refusal r e
        → ReportsBadKey R.refusals (formats_of decoder.old.formats) remaining.old
        (R.source decoder.old.source) e) }
    ensures memory { IfErr result (ReportsNoMemory decoder.new.refusal) }
    ensures counts { IfOk result (λ more. Counts remaining.old more remaining.new) }
    ensures settings { SameSettings decoder.old decoder.new }
{
    if !decoder.more(remaining, Collection::Map)? {
        return Ok(false);
    }
    key_begins(decoder)?;
    Ok(true)
}

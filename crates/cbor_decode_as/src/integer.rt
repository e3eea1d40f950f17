//! Whole numbers (RFC 7049, section 2.1, major types 0 and 1).

ghost use Rattle.std.specs.Prelude.{◌≡◌, ◌≤◌, ◌<◌, ◌-◌, ◌^◌, ℕ, ℤ, pos, negsuc, IfOk, IfErr};
ghost use Rattle.std.specs.Prelude.{MatchOption, OnOk, OnSome, IfSome};
ghost use Rattle.cbor_model.specs.Readable.{PassesTags, IsInteger, IsFromZero, IsSigned, IsWithin};
ghost use Rattle.cbor_io.specs.Error.{code_of};
ghost use Rattle.cbor_decode.specs.Decoder.{SameSettings};
ghost use Rattle.cbor_decode.specs.Gives.{ReportsNoForm};
ghost use Rattle.cbor_decode_as.specs.TaggedHeads.{RefusesBehind};
ghost use Rattle.cbor_decode_as.specs.Scalars.{IsNumber};
ghost use Rattle.cbor_decode.specs.Steps as step;
ghost use Rattle.cbor_decode_as.specs.DecoderCalls as call;

use crate::head::{HeadAt, skip_mismatch};
use crate::scalar::scalar_head;
use cbor_decode::{Decoder, Head};
use cbor_io::error::{Error, Result};
use cbor_read::Source;

// The number that a head is.
#[inline(always)]
pub(crate) fn integer(head: Head) -> Option<i128>
    ensures { MatchOption result ((z : ℤ) → IsNumber head z → ⊥) (λ z. IsNumber head z) }
{
    match head {
        Head::Unsigned(n) => Some(n as i128),
        Head::Negative(n) => Some(-1 - n as i128),
        _ => None,
    }
}

// The number that a head is, from 0 to the most.
#[inline(always)]
fn from_zero(head: Head, most: u64) -> Option<u64>
    ensures { MatchOption result ((n : ℕ) → IsNumber head (pos n) → n ≤ most → ⊥)
        (λ n. IsNumber head (pos n) × (n ≤ most)) }
{
    match head {
        Head::Unsigned(n) => { if n <= most { Some(n) } else { None } }
        _ => None,
    }
}

// The number that a head is, from 0.
#[inline(always)]
fn natural(head: Head) -> Option<u128>
    ensures { MatchOption result ((n : ℕ) → IsNumber head (pos n) → ⊥)
        (λ n. IsNumber head (pos n) × (n ≤ 2 ^ 128 - 1)) }
{
    match head {
        Head::Unsigned(n) => Some(n as u128),
        _ => None,
    }
}

// The number that a head is, from -1 - most to the most.
#[inline(always)]
fn signed(head: Head, most: u64) -> Option<i64>
    requires { most < 2 ^ 63 }
    ensures { MatchOption result ((z : ℤ) → IsNumber head z → IsWithin most z → ⊥)
        (λ z. IsNumber head z × IsWithin most z) }
{
    match head {
        Head::Unsigned(n) => { if n <= most { Some(n as i64) } else { None } }
        Head::Negative(n) => { if n <= most { Some(-1 - n as i64) } else { None } }
        _ => None,
    }
}

// The number -1 - n.
#[inline(always)]
fn below_zero(n: u64) -> i64
    requires { n < 2 ^ 63 }
    ensures { result ≡ negsuc n }
{
    -1 - n as i64
}

/// Reads a whole number. What isn't whole is refused by its fault, and another item by a message.
#[inline(always)]
pub fn read_integer<R: Source>(decoder: &mut Decoder<R>) -> Result<i128>
    ensures read { call.TakesItem R.source R.refusals (PassesTags IsInteger)
        decoder.old decoder.new result }
    ensures taken { OnOk result (step.Advances R.source decoder.old decoder.new) }
    ensures fault { IfErr result (call.RefusesWhole R.source R.refusals decoder.old) }
    ensures no_form { IfErr result (λ e. ReportsNoForm (code_of e)) }
    ensures memory { IfErr result (call.TakesNoMemory R.source (PassesTags IsInteger) decoder.old) }
    ensures settings { SameSettings decoder.old decoder.new }
{
    let found = match scalar_head(decoder) {
        Ok(found) => found,
        Err(refused) => return Err(decoder.error(refused)),
    };
    match integer(found.head) {
        Some(number) => Ok(number),
        None => Err(skip_mismatch(
            decoder,
            HeadAt {
                head: found.head,
                levels: found.levels,
            },
            "invalid type: expected an integer",
        )),
    }
}

/// Reads a number from 0 to the most that is whole at hand, without tags. None where another item
/// comes, or its end isn't at hand; then nothing is taken.
#[inline(always)]
pub fn from_zero_at_hand<R: Source>(decoder: &mut Decoder<R>, most: u64) -> Option<u64>
    ensures read { call.TakesAtHand R.source R.refusals (PassesTags (IsFromZero most))
        decoder.old decoder.new result }
    ensures taken { OnSome result (step.Advances R.source decoder.old decoder.new) }
    ensures bound { IfSome result (λ n. n ≤ most) }
    ensures settings { SameSettings decoder.old decoder.new }
{
    match decoder.unsigned(most) {
        Some(number) => Some(number),
        None => None,
    }
}

/// Reads a number from 0 to the most; the message is for another number. It refuses as
/// [`read_integer`] does.
#[inline(always)]
pub fn read_from_zero<R: Source>(
    decoder: &mut Decoder<R>,
    most: u64,
    message: &'static str,
) -> Result<u64>
    ensures read { call.TakesItem R.source R.refusals (PassesTags (IsFromZero most))
        decoder.old decoder.new result }
    ensures taken { OnOk result (step.Advances R.source decoder.old decoder.new) }
    ensures bound { IfOk result (λ n. n ≤ most) }
    ensures fault { IfErr result (call.RefusesWhole R.source R.refusals decoder.old) }
    ensures no_form { IfErr result (λ e. ReportsNoForm (code_of e)) }
    ensures memory { IfErr result
        (call.TakesNoMemory R.source (PassesTags (IsFromZero most)) decoder.old) }
    ensures settings { SameSettings decoder.old decoder.new }
{
    match from_zero_at_hand(decoder, most) {
        Some(number) => Ok(number),
        None => from_zero_slow(decoder, most, message),
    }
}

// The same where no such number is whole at hand.
#[inline(never)]
fn from_zero_slow<R: Source>(
    decoder: &mut Decoder<R>,
    most: u64,
    message: &'static str,
) -> Result<u64>
    ensures read { call.TakesItem R.source R.refusals (PassesTags (IsFromZero most))
        decoder.old decoder.new result }
    ensures taken { OnOk result (step.Advances R.source decoder.old decoder.new) }
    ensures bound { IfOk result (λ n. n ≤ most) }
    ensures fault { IfErr result (call.RefusesWhole R.source R.refusals decoder.old) }
    ensures no_form { IfErr result (λ e. ReportsNoForm (code_of e)) }
    ensures memory { IfErr result
        (call.TakesNoMemory R.source (PassesTags (IsFromZero most)) decoder.old) }
    ensures settings { SameSettings decoder.old decoder.new }
{
    let found = match scalar_head(decoder) {
        Ok(found) => found,
        Err(refused) => return Err(decoder.error(refused)),
    };
    match from_zero(found.head, most) {
        Some(number) => Ok(number),
        None => Err(no_number(
            decoder,
            HeadAt {
                head: found.head,
                levels: found.levels,
            },
            message,
        )),
    }
}

/// Reads a number from 0. It refuses as [`read_integer`] does.
#[inline(always)]
pub fn read_u128<R: Source>(decoder: &mut Decoder<R>) -> Result<u128>
    ensures read { call.TakesItem R.source R.refusals (PassesTags (IsFromZero (2 ^ 128 - 1)))
        decoder.old decoder.new result }
    ensures taken { OnOk result (step.Advances R.source decoder.old decoder.new) }
    ensures fault { IfErr result (call.RefusesWhole R.source R.refusals decoder.old) }
    ensures no_form { IfErr result (λ e. ReportsNoForm (code_of e)) }
    ensures memory { IfErr result
        (call.TakesNoMemory R.source (PassesTags (IsFromZero (2 ^ 128 - 1))) decoder.old) }
    ensures settings { SameSettings decoder.old decoder.new }
{
    let found = match scalar_head(decoder) {
        Ok(found) => found,
        Err(refused) => return Err(decoder.error(refused)),
    };
    match natural(found.head) {
        Some(number) => Ok(number),
        None => Err(no_number(
            decoder,
            HeadAt {
                head: found.head,
                levels: found.levels,
            },
            "integer out of range: expected u128",
        )),
    }
}

/// Reads a number from -1 - most to the most that is whole at hand, as [`from_zero_at_hand`] does.
#[inline(always)]
pub fn signed_at_hand<R: Source>(decoder: &mut Decoder<R>, most: u64) -> Option<i64>
    requires { most < 2 ^ 63 }
    ensures read { call.TakesAtHand R.source R.refusals (PassesTags (IsSigned most))
        decoder.old decoder.new result }
    ensures taken { OnSome result (step.Advances R.source decoder.old decoder.new) }
    ensures bounds { IfSome result (IsWithin most) }
    ensures settings { SameSettings decoder.old decoder.new }
{
    if let Some(number) = decoder.unsigned(most) {
        return Some(number as i64);
    }
    match decoder.negative(most) {
        Some(number) => Some(below_zero(number)),
        None => None,
    }
}

/// Reads a number from -1 - most to the most; the message is for another number. It refuses as
/// [`read_integer`] does.
#[inline(always)]
pub fn read_signed<R: Source>(
    decoder: &mut Decoder<R>,
    most: u64,
    message: &'static str,
) -> Result<i64>
    requires { most < 2 ^ 63 }
    ensures read { call.TakesItem R.source R.refusals (PassesTags (IsSigned most))
        decoder.old decoder.new result }
    ensures taken { OnOk result (step.Advances R.source decoder.old decoder.new) }
    ensures bounds { IfOk result (IsWithin most) }
    ensures fault { IfErr result (call.RefusesWhole R.source R.refusals decoder.old) }
    ensures no_form { IfErr result (λ e. ReportsNoForm (code_of e)) }
    ensures memory { IfErr result
        (call.TakesNoMemory R.source (PassesTags (IsSigned most)) decoder.old) }
    ensures settings { SameSettings decoder.old decoder.new }
{
    match signed_at_hand(decoder, most) {
        Some(number) => Ok(number),
        None => signed_slow(decoder, most, message),
    }
}

// The same where no such number is whole at hand.
#[inline(never)]
fn signed_slow<R: Source>(decoder: &mut Decoder<R>, most: u64, message: &'static str) -> Result<i64>
    requires { most < 2 ^ 63 }
    ensures read { call.TakesItem R.source R.refusals (PassesTags (IsSigned most))
        decoder.old decoder.new result }
    ensures taken { OnOk result (step.Advances R.source decoder.old decoder.new) }
    ensures bounds { IfOk result (IsWithin most) }
    ensures fault { IfErr result (call.RefusesWhole R.source R.refusals decoder.old) }
    ensures no_form { IfErr result (λ e. ReportsNoForm (code_of e)) }
    ensures memory { IfErr result
        (call.TakesNoMemory R.source (PassesTags (IsSigned most)) decoder.old) }
    ensures settings { SameSettings decoder.old decoder.new }
{
    let found = match scalar_head(decoder) {
        Ok(found) => found,
        Err(refused) => return Err(decoder.error(refused)),
    };
    match signed(found.head, most) {
        Some(number) => Ok(number),
        None => Err(no_number(
            decoder,
            HeadAt {
                head: found.head,
                levels: found.levels,
            },
            message,
        )),
    }
}

// The error of an item that isn't a number in the range.
#[cold]
#[inline(never)]
fn no_number<R: Source>(decoder: &mut Decoder<R>, found: HeadAt, message: &'static str) -> Error
    ensures fault { RefusesBehind R.refusals found (R.source decoder.old.source) result }
    ensures no_form { ReportsNoForm (code_of result) }
    ensures took { step.TookSome R.source decoder.old decoder.new }
    ensures settings { SameSettings decoder.old decoder.new }
{
    match found.head {
        Head::Unsigned(_) | Head::Negative(_) => Error::message(decoder.alloc, message),
        _ => skip_mismatch(
            decoder,
            HeadAt {
                head: found.head,
                levels: found.levels,
            },
            "invalid type: expected an integer",
        ),
    }
}

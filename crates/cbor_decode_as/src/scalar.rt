//! Simple values and numbers.

ghost use Rattle.std.specs.Prelude.{IfErr, OnOk, OnSome};
ghost use Rattle.cbor_model.specs.Readable.{PassesTags, IsBool, IsUnit};
ghost use Rattle.cbor_io.specs.Error.{code_of};
ghost use Rattle.cbor_decode.specs.Decoder.{SameSettings};
ghost use Rattle.cbor_decode.specs.Gives.{ReportsNoForm, ReportsNoKey, ReportsNoMemory};
ghost use Rattle.cbor_decode_as.specs.TaggedHeads.{TakesHeadInside, TakesItemHead, found_head};
ghost use Rattle.cbor_decode_as.specs.TaggedHeads.{opened_at, opened_inside};
ghost use Rattle.cbor_decode_as.specs.Scalars.{IsFloatItem};
ghost use Rattle.cbor_decode_as.specs.Takes.{formats_of};
ghost use Rattle.cbor_decode.specs.Steps as step;
ghost use Rattle.cbor_decode_as.specs.DecoderCalls as call;

use crate::head::{HeadAt, skip_mismatch, tagged_head_inside, take_head};
use cbor_decode::{Decoder, Done, Head};
use cbor_io::error::Result;
use cbor_read::Source;
use cbor_value::Float;

// Takes the tags of an item and the head after them, and restores the nesting level; what was found
// says how many levels are left for what follows.
#[inline(always)]
pub(crate) fn scalar_head<R: Source>(decoder: &mut Decoder<R>) -> Done<HeadAt>
    ensures read { TakesItemHead R.refusals (formats_of decoder.old.formats)
        decoder.old.levels
        (R.source decoder.old.source) (R.source decoder.new.source)
        decoder.new.refusal (found_head result) }
    ensures opened { step.Gives R.source R.refusals (λ found. (found.levels, found.head))
        (λ l. opened_at decoder.old.levels) decoder.old decoder.new result }
    ensures taken { OnOk result (step.Advances R.source decoder.old decoder.new) }
    ensures no_key { IfErr result (ReportsNoKey decoder.new.refusal) }
    ensures memory { IfErr result (ReportsNoMemory decoder.new.refusal) }
    ensures settings { SameSettings decoder.old decoder.new }
{
    let head = take_head(decoder)?;
    if let Head::Tag(_) = head {
        return scalar_head_inside(decoder);
    }
    Ok(HeadAt {
        head,
        levels: decoder.levels,
    })
}

// Takes further tags and the head, one level further in, and restores the level.
#[inline(always)]
fn scalar_head_inside<R: Source>(decoder: &mut Decoder<R>) -> Done<HeadAt>
    ensures read { TakesHeadInside R.refusals (formats_of decoder.old.formats)
        decoder.old.levels
        (R.source decoder.old.source) (R.source decoder.new.source)
        decoder.new.refusal (found_head result) }
    ensures opened { step.Gives R.source R.refusals (λ found. (found.levels, found.head))
        (λ l. opened_inside decoder.old.levels) decoder.old decoder.new result }
    ensures taken { OnOk result (step.Advances R.source decoder.old decoder.new) }
    ensures no_key { IfErr result (ReportsNoKey decoder.new.refusal) }
    ensures memory { IfErr result (ReportsNoMemory decoder.new.refusal) }
    ensures settings { SameSettings decoder.old decoder.new }
{
    let levels = decoder.levels;
    let head = tagged_head_inside(decoder);
    let left = decoder.levels;
    decoder.levels = levels;
    match head {
        Ok(head) => Ok(HeadAt { head, levels: left }),
        Err(refused) => Err(refused),
    }
}

/// Reads false or true, without tags. None where another item comes, or none is at hand; then
/// nothing is taken.
#[inline(always)]
pub fn bool_at_hand<R: Source>(decoder: &mut Decoder<R>) -> Option<bool>
    ensures read { call.TakesAtHand R.source R.refusals (PassesTags IsBool)
        decoder.old decoder.new result }
    ensures taken { OnSome result (step.Advances R.source decoder.old decoder.new) }
    ensures settings { SameSettings decoder.old decoder.new }
{
    match decoder.boolean() {
        Some(b) => Some(b),
        None => None,
    }
}

/// Reads false or true (RFC 7049, section 2.3).
///
/// What isn't whole is refused by its fault, and another item by a message.
#[inline(always)]
pub fn read_bool<R: Source>(decoder: &mut Decoder<R>) -> Result<bool>
    ensures read { call.TakesItem R.source R.refusals (PassesTags IsBool)
        decoder.old decoder.new result }
    ensures taken { OnOk result (step.Advances R.source decoder.old decoder.new) }
    ensures fault { IfErr result (call.RefusesWhole R.source R.refusals decoder.old) }
    ensures no_form { IfErr result (λ e. ReportsNoForm (code_of e)) }
    ensures memory { IfErr result (call.TakesNoMemory R.source (PassesTags IsBool) decoder.old) }
    ensures settings { SameSettings decoder.old decoder.new }
{
    match bool_at_hand(decoder) {
        Some(b) => Ok(b),
        None => bool_slow(decoder),
    }
}

// The same where no bool is at hand.
#[inline(never)]
fn bool_slow<R: Source>(decoder: &mut Decoder<R>) -> Result<bool>
    ensures read { call.TakesItem R.source R.refusals (PassesTags IsBool)
        decoder.old decoder.new result }
    ensures taken { OnOk result (step.Advances R.source decoder.old decoder.new) }
    ensures fault { IfErr result (call.RefusesWhole R.source R.refusals decoder.old) }
    ensures no_form { IfErr result (λ e. ReportsNoForm (code_of e)) }
    ensures memory { IfErr result (call.TakesNoMemory R.source (PassesTags IsBool) decoder.old) }
    ensures settings { SameSettings decoder.old decoder.new }
{
    let found = match scalar_head(decoder) {
        Ok(found) => found,
        Err(refused) => return Err(decoder.error(refused)),
    };
    match found.head {
        Head::Bool(b) => Ok(b),
        _ => Err(skip_mismatch(
            decoder,
            HeadAt {
                head: found.head,
                levels: found.levels,
            },
            "invalid type: expected a boolean",
        )),
    }
}

/// Reads a float of 16, 32 or 64 bits (RFC 7049, section 2.3).
///
/// What isn't whole is refused by its fault, and another item by a message.
#[inline(always)]
pub fn read_float<R: Source>(decoder: &mut Decoder<R>) -> Result<Float>
    ensures read { call.TakesItem R.source R.refusals (PassesTags IsFloatItem)
        decoder.old decoder.new result }
    ensures taken { OnOk result (step.Advances R.source decoder.old decoder.new) }
    ensures fault { call.ReadsWhole R.source R.refusals decoder.old result }
    ensures no_form { IfErr result (λ e. ReportsNoForm (code_of e)) }
    ensures memory { IfErr result
        (call.TakesNoMemory R.source (PassesTags IsFloatItem) decoder.old) }
    ensures settings { SameSettings decoder.old decoder.new }
{
    let found = match scalar_head(decoder) {
        Ok(found) => found,
        Err(refused) => return Err(decoder.error(refused)),
    };
    match found.head {
        Head::Float(float) => Ok(float),
        _ => Err(skip_mismatch(
            decoder,
            HeadAt {
                head: found.head,
                levels: found.levels,
            },
            "invalid type: expected a float",
        )),
    }
}

/// Reads null or undefined (RFC 7049, section 2.3).
///
/// What isn't whole is refused by its fault, and another item by a message.
#[inline(always)]
pub fn read_unit<R: Source>(decoder: &mut Decoder<R>) -> Result<()>
    ensures read { call.TakesItem R.source R.refusals (PassesTags IsUnit)
        decoder.old decoder.new result }
    ensures taken { OnOk result (step.Advances R.source decoder.old decoder.new) }
    ensures fault { IfErr result (call.RefusesWhole R.source R.refusals decoder.old) }
    ensures no_form { IfErr result (λ e. ReportsNoForm (code_of e)) }
    ensures memory { IfErr result (call.TakesNoMemory R.source (PassesTags IsUnit) decoder.old) }
    ensures settings { SameSettings decoder.old decoder.new }
{
    let found = match scalar_head(decoder) {
        Ok(found) => found,
        Err(refused) => return Err(decoder.error(refused)),
    };
    match found.head {
        Head::Null | Head::Undefined => Ok(()),
        _ => Err(skip_mismatch(
            decoder,
            HeadAt {
                head: found.head,
                levels: found.levels,
            },
            "invalid type: expected unit",
        )),
    }
}

//! Floats as numbers.

ghost use Rattle.std.specs.Prelude.{IfErr, OnOk, OnSome};
ghost use Rattle.cbor_model.specs.Readable.{PassesTags};
ghost use Rattle.cbor_io.specs.Error.{code_of};
ghost use Rattle.cbor_decode.specs.Decoder.{SameSettings};
ghost use Rattle.cbor_decode.specs.Gives.{ReportsNoForm};
ghost use Rattle.cbor_decode_as.specs.Scalars.{IsFloatOf, IsSingleOf};
ghost use Rattle.cbor_decode_as.specs.TaggedHeads.{RefusesBehind};
ghost use Rattle.cbor_decode.specs.Steps as step;
ghost use Rattle.cbor_decode_as.specs.DecoderCalls as call;

use crate::exact::{exact_f32, exact_f64};
use crate::head::{HeadAt, skip_mismatch};
use crate::scalar::scalar_head;
use cbor_decode::{Decoder, Head};
use cbor_io::error::{Error, Result};
use cbor_read::Source;
use cbor_value::Float;
use std::num::{f32_from_bits_with_nan, f64_from_bits_with_nan};

/// Reads a float of 64 bits that is whole at hand, without tags. None where another item comes, or
/// its end isn't at hand; then nothing is taken.
#[inline(always)]
pub fn f64_at_hand<R: Source>(decoder: &mut Decoder<R>) -> Option<f64>
    ensures read { call.TakesAtHand R.source R.refusals (PassesTags IsFloatOf)
        decoder.old decoder.new result }
    ensures taken { OnSome result (step.Advances R.source decoder.old decoder.new) }
    ensures settings { SameSettings decoder.old decoder.new }
{
    match decoder.double() {
        Some(bits) => Some(f64_from_bits_with_nan(bits)),
        None => None,
    }
}

/// Reads a float of 32 bits that is whole at hand, as [`f64_at_hand`] does.
#[inline(always)]
pub fn f32_at_hand<R: Source>(decoder: &mut Decoder<R>) -> Option<f32>
    ensures read { call.TakesAtHand R.source R.refusals (PassesTags IsSingleOf)
        decoder.old decoder.new result }
    ensures taken { OnSome result (step.Advances R.source decoder.old decoder.new) }
    ensures settings { SameSettings decoder.old decoder.new }
{
    match decoder.single() {
        Some(bits) => Some(f32_from_bits_with_nan(bits)),
        None => None,
    }
}

/// Reads a float of 16, 32 or 64 bits, or an integer that an `f64` holds exactly, as the number that
/// it is. What isn't whole is refused by its fault, and another item by a message.
#[inline(always)]
pub fn read_f64<R: Source>(decoder: &mut Decoder<R>) -> Result<f64>
    ensures read { call.TakesItem R.source R.refusals (PassesTags IsFloatOf)
        decoder.old decoder.new result }
    ensures taken { OnOk result (step.Advances R.source decoder.old decoder.new) }
    ensures fault { IfErr result (call.RefusesWhole R.source R.refusals decoder.old) }
    ensures no_form { IfErr result (λ e. ReportsNoForm (code_of e)) }
    ensures memory { IfErr result (call.TakesNoMemory R.source (PassesTags IsFloatOf) decoder.old) }
    ensures settings { SameSettings decoder.old decoder.new }
{
    match f64_at_hand(decoder) {
        Some(number) => Ok(number),
        None => other_f64(decoder),
    }
}

// The same where no float of 64 bits stands at the front.
#[inline(never)]
fn other_f64<R: Source>(decoder: &mut Decoder<R>) -> Result<f64>
    ensures read { call.TakesItem R.source R.refusals (PassesTags IsFloatOf)
        decoder.old decoder.new result }
    ensures taken { OnOk result (step.Advances R.source decoder.old decoder.new) }
    ensures fault { IfErr result (call.RefusesWhole R.source R.refusals decoder.old) }
    ensures no_form { IfErr result (λ e. ReportsNoForm (code_of e)) }
    ensures memory { IfErr result (call.TakesNoMemory R.source (PassesTags IsFloatOf) decoder.old) }
    ensures settings { SameSettings decoder.old decoder.new }
{
    match decoder.single() {
        Some(bits) => Ok(Float::Single(bits).to_f64()),
        None => f64_slow(decoder),
    }
}

// Reads a float of any width or an integer, within its tags, as an `f64`.
#[inline(always)]
fn f64_slow<R: Source>(decoder: &mut Decoder<R>) -> Result<f64>
    ensures read { call.TakesItem R.source R.refusals (PassesTags IsFloatOf)
        decoder.old decoder.new result }
    ensures taken { OnOk result (step.Advances R.source decoder.old decoder.new) }
    ensures fault { IfErr result (call.RefusesWhole R.source R.refusals decoder.old) }
    ensures no_form { IfErr result (λ e. ReportsNoForm (code_of e)) }
    ensures memory { IfErr result (call.TakesNoMemory R.source (PassesTags IsFloatOf) decoder.old) }
    ensures settings { SameSettings decoder.old decoder.new }
{
    let found = match scalar_head(decoder) {
        Ok(found) => found,
        Err(refused) => return Err(decoder.error(refused)),
    };
    match exact_f64(found.head) {
        Some(number) => Ok(number),
        None => Err(no_float(
            decoder,
            HeadAt {
                head: found.head,
                levels: found.levels,
            },
            "integer out of range: expected f64",
        )),
    }
}

/// Reads a float of 16, 32 or 64 bits or an integer, whose number an `f32` holds exactly. It refuses
/// as [`read_f64`] does.
#[inline(always)]
pub fn read_f32<R: Source>(decoder: &mut Decoder<R>) -> Result<f32>
    ensures read { call.TakesItem R.source R.refusals (PassesTags IsSingleOf)
        decoder.old decoder.new result }
    ensures taken { OnOk result (step.Advances R.source decoder.old decoder.new) }
    ensures fault { IfErr result (call.RefusesWhole R.source R.refusals decoder.old) }
    ensures no_form { IfErr result (λ e. ReportsNoForm (code_of e)) }
    ensures memory { IfErr result
        (call.TakesNoMemory R.source (PassesTags IsSingleOf) decoder.old) }
    ensures settings { SameSettings decoder.old decoder.new }
{
    match f32_at_hand(decoder) {
        Some(number) => Ok(number),
        None => f32_slow(decoder),
    }
}

// Reads a float of any width or an integer, within its tags, as an `f32`.
#[inline(never)]
fn f32_slow<R: Source>(decoder: &mut Decoder<R>) -> Result<f32>
    ensures read { call.TakesItem R.source R.refusals (PassesTags IsSingleOf)
        decoder.old decoder.new result }
    ensures taken { OnOk result (step.Advances R.source decoder.old decoder.new) }
    ensures fault { IfErr result (call.RefusesWhole R.source R.refusals decoder.old) }
    ensures no_form { IfErr result (λ e. ReportsNoForm (code_of e)) }
    ensures memory { IfErr result
        (call.TakesNoMemory R.source (PassesTags IsSingleOf) decoder.old) }
    ensures settings { SameSettings decoder.old decoder.new }
{
    let found = match scalar_head(decoder) {
        Ok(found) => found,
        Err(refused) => return Err(decoder.error(refused)),
    };
    match exact_f32(found.head) {
        Some(x) => Ok(x),
        None => Err(no_float(
            decoder,
            HeadAt {
                head: found.head,
                levels: found.levels,
            },
            "integer out of range: expected f32",
        )),
    }
}

// The error of an item that isn't a number that the type holds; the message is for an integer. An
// f64 holds each float.
#[cold]
#[inline(never)]
fn no_float<R: Source>(decoder: &mut Decoder<R>, found: HeadAt, message: &'static str) -> Error
    ensures fault { RefusesBehind R.refusals found (R.source decoder.old.source) result }
    ensures no_form { ReportsNoForm (code_of result) }
    ensures took { step.TookSome R.source decoder.old decoder.new }
    ensures settings { SameSettings decoder.old decoder.new }
{
    match found.head {
        Head::Unsigned(_) | Head::Negative(_) => Error::message(decoder.alloc, message),
        Head::Float(_) => Error::message(decoder.alloc, "float out of range: expected f32"),
        _ => skip_mismatch(
            decoder,
            HeadAt {
                head: found.head,
                levels: found.levels,
            },
            "invalid type: expected a float",
        ),
    }
}

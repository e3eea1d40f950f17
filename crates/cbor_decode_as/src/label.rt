//! Integers that are keys of a struct's fields, its labels.

ghost use Rattle.std.specs.Prelude.{◌≡◌, ◌≢◌, ◌<◌, length, IfOk, IfErr, IfSome, MatchBool, OnOk};
ghost use Rattle.cbor_model.specs.Readable.{PassesTags};
ghost use Rattle.cbor_decode.specs.Decoder.{SameSettings};
ghost use Rattle.cbor_read.specs.Source.{asks_for};
ghost use Rattle.cbor_decode_as.specs.Identifiers.{IsLabel, IsMadeBy, IsPlace, NamesNoKey};
ghost use Rattle.cbor_decode_as.specs.Identifiers.{AsksForName, IsNoLabel, NamesFront, NamesOnly};
ghost use Rattle.cbor_decode_as.specs.Takes.{OnceMade};
ghost use Rattle.cbor_decode.specs.Steps as step;
ghost use Rattle.cbor_decode_as.specs.DecoderCalls as call;

use crate::identifier::{Lookup, bytes_name, no_name, text_name};
use crate::integer::integer;
use crate::scalar::scalar_head;
use cbor_decode::{Decoder, Head};
use cbor_read::Read;

// Whether the label is this integer.
#[inline(always)]
fn is_number(label: i64, number: i128) -> bool
    ensures { MatchBool result (label ≡ number) (label ≢ number) }
{
    label as i128 == number
}

/// The place of the first of the labels that is this integer.
pub fn place_of_label(labels: &[i64], label: i128) -> Option<usize>
    ensures place { IsPlace labels.now label result }
    ensures below { IfSome result (λ i. i < length labels.now) }
{
    let mut i = 0;
    'labels: while i < labels.len() {
        if is_number(labels[i], label) {
            return Some(i);
        }
        i += 1;
    }
    None
}

/// Reads a label, an integer: its place among these. None is one that isn't among them, or a text
/// or a byte string, which is no label. It takes memory as
/// [`identifier`](crate::identifier::identifier) does.
///
/// Another item is [`Why::Other`](crate::identifier::Why::Other). What isn't whole, a text that
/// isn't UTF-8 (`InvalidUtf8`), and a break (`UnexpectedCode`) are refused, and what the source
/// refuses.
#[inline(never)]
pub fn label<'de, R: Read<'de>>(decoder: &mut Decoder<R>, labels: &[i64]) -> Lookup<Option<usize>>
    ensures read { OnceMade (IsMadeBy decoder.new.refusal)
        (call.TakesItem R.source R.refusals (PassesTags (IsLabel labels.now))
        decoder.old decoder.new) result }
    ensures taken { OnOk result (step.Advances R.source decoder.old decoder.new) }
    ensures fault { IfErr result (NamesFront IsNoLabel R.refusals decoder.old.levels
        (R.source decoder.old.source) decoder.new.refusal) }
    ensures memory { IfErr result (NamesOnly (AsksForName (asks_for R.refusals R.lends)
        decoder.old.levels (R.source decoder.old.source)) decoder.new.refusal) }
    ensures below { IfOk result (λ place. IfSome place (λ i. i < length labels.now)) }
    ensures no_key { IfErr result (NamesNoKey decoder.new.refusal) }
    ensures settings { SameSettings decoder.old decoder.new }
{
    let found = scalar_head(decoder)?;
    if let Some(number) = integer(found.head) {
        return Ok(place_of_label(labels, number));
    }
    match found.head {
        Head::Text(n) => Ok(text_name(decoder, &[], n)?),
        Head::Bytes(n) => bytes_name(decoder, &[], n),
        _ => Err(no_name(decoder, found.head)),
    }
}

//! An item that isn't decoded, whose bytes are in memory of their own.

ghost use Rattle.std.specs.Prelude.{◌≤◌, Err, IfErr, length, IfOk, Ok, OnOk};
ghost use Rattle.cbor_model.specs.Encoding.{IsEncoding};
ghost use Rattle.cbor_decode.specs.Decoder.{SameSettings, formats_of};
ghost use Rattle.cbor_decode_as.specs.RawItems.{StandsWithin};
ghost use Rattle.cbor_decode.specs.Steps as step;
ghost use Rattle.cbor_decode_as.specs.DecoderCalls as call;
ghost use Rattle.cbor_raw.specs.Gathered.{IsBytesOf};

use crate::gather::{further, gather};
use cbor_decode::Decoder;
use cbor_decode_as::raw::{end_at_hand, end_of_item};
use cbor_io::error::{Error, Result};
use cbor_read::Source;

/// Reads an item without decoding it, from any source: the bytes that encode it, as they came.
///
/// It has to be acceptable within the levels that are left, with keys of the formats that are read
/// and strings in chunks that fit the source's scratch, as an item that is passed over. Where it
/// isn't at hand as a whole, its bytes are taken one by one, and bytes that no item begins with are
/// refused as soon as they show it.
pub fn read_owned<R: Source>(decoder: &mut Decoder<R>) -> Result<Vec<u8>>
    ensures read { IfOk result (λ bytes. call.TakesItem R.source R.refusals IsBytesOf
        decoder.old decoder.new (Ok bytes.items)) }
    ensures refused { IfErr result (λ e. call.TakesItem R.source R.refusals IsBytesOf
        decoder.old decoder.new (Err e)) }
    ensures encodes { IfOk result (λ bytes. IsEncoding bytes.items) }
    ensures taken { OnOk result (step.Advances R.source decoder.old decoder.new) }
    ensures settings { SameSettings decoder.old decoder.new }
{
    match end_at_hand(decoder) {
        Ok(n) => take_at_hand(decoder, n),
        Err(error) if error.is_memory() => Err(error),
        Err(_) => gather_within(decoder),
    }
}

// Takes the item at hand, which ends there.
fn take_at_hand<R: Source>(decoder: &mut Decoder<R>, n: usize) -> Result<Vec<u8>>
    requires found { StandsWithin (formats_of decoder.old.formats) decoder.old.levels
        (R.source decoder.old.source).room (R.at_hand decoder.old.source) n }
    requires within { n ≤ length (R.at_hand decoder.old.source) }
    ensures read { IfOk result (λ bytes. call.TakesItem R.source R.refusals IsBytesOf
        decoder.old decoder.new (Ok bytes.items)) }
    ensures refused { IfErr result (λ e. call.TakesItem R.source R.refusals IsBytesOf
        decoder.old decoder.new (Err e)) }
    ensures encodes { IfOk result (λ bytes. IsEncoding bytes.items) }
    ensures taken { OnOk result (step.Advances R.source decoder.old decoder.new) }
    ensures settings { SameSettings decoder.old decoder.new }
{
    // That it is below 2^64 is for `taken`.
    let _ = decoder.source.offset();
    let hand = decoder.source.ahead();
    match Vec::from_slice(decoder.alloc, &hand[..n]) {
        Ok(bytes) => {
            decoder.source.advance(n);
            Ok(bytes)
        }
        Err(full) => Err(Error::from(full)),
    }
}

// Takes the bytes of the item at the front one by one, of which no more is known.
fn gather_within<R: Source>(decoder: &mut Decoder<R>) -> Result<Vec<u8>>
    ensures read { IfOk result (λ bytes. call.TakesItem R.source R.refusals IsBytesOf
        decoder.old decoder.new (Ok bytes.items)) }
    ensures refused { IfErr result (λ e. call.TakesItem R.source R.refusals IsBytesOf
        decoder.old decoder.new (Err e)) }
    ensures encodes { IfOk result (λ bytes. IsEncoding bytes.items) }
    ensures taken { OnOk result (step.Advances R.source decoder.old decoder.new) }
    ensures settings { SameSettings decoder.old decoder.new }
{
    let (levels, formats) = (decoder.levels, decoder.formats);
    let start = decoder.source.offset();
    let room = decoder.source.buffer_room();
    let bytes = match gather(decoder) {
        Ok(bytes) => bytes,
        Err(error) => return Err(error),
    };
    match end_of_item(decoder.alloc, &bytes, levels, formats, room) {
        Ok(_) => Ok(bytes),
        Err(error) => Err(further(error, start)),
    }
}

//! Items that aren't decoded, whose bytes are lent.

ghost use Rattle.std.specs.Prelude.{◌<◌, ◌≤◌, ◌^◌, Err, IfErr, Ok, length, IfOk, None, OnOk, Some};
ghost use Rattle.cbor_model.specs.Encoding.{IsEncoding};
ghost use Rattle.cbor_model.specs.Raw.{AreBytes};
ghost use Rattle.cbor_decode.specs.Decoder.{SameSettings, formats_of};
ghost use Rattle.cbor_decode_as.specs.RawItems.{FindsEnd, IsLentItem, ShowsFront};
ghost use Rattle.cbor_decode_as.specs.Takes.{ItemFault, context};
ghost use Rattle.cbor_decode.specs.Steps as step;
ghost use Rattle.cbor_decode_as.specs.DecoderCalls as call;

use cbor_decode::{Decoder, Formats};
use cbor_io::error::{Error, Result};
use cbor_read::{EitherLifetime, Read, SliceRead, SliceReadFixed, Source};
use std::alloc::Global;

/// Where the item at the front of the bytes ends, which may be so many levels deep, has keys of
/// these formats, and whose strings in chunks fit the room; or why none does.
///
/// Memory is asked for where it has a string in chunks, and where the room is less than the item.
pub fn end_of_item(
    alloc: Global,
    bytes: &[u8],
    levels: u64,
    formats: Formats,
    room: Option<usize>,
) -> Result<usize>
    ensures found { FindsEnd (formats_of formats) levels room bytes.now result }
    ensures bytes { AreBytes bytes.now }
{
    let end = end_in_slice(alloc, bytes, levels, formats)?;
    match room {
        // Strings in chunks are no longer than their item.
        Some(most) if most < end => {
            let mut scratch = match Vec::from_elem(alloc, 0, most) {
                Ok(scratch) => scratch,
                Err(full) => return Err(Error::from(full)),
            };
            end_with_scratch(alloc, bytes, levels, formats, &mut scratch)
        }
        _ => Ok(end),
    }
}

// The same, where strings in chunks may have any length.
fn end_in_slice(alloc: Global, bytes: &[u8], levels: u64, formats: Formats) -> Result<usize>
    ensures { FindsEnd (formats_of formats) levels None bytes.now result }
{
    let mut decoder = Decoder::new(alloc, SliceRead::new(alloc, bytes));
    decoder.levels = levels;
    decoder.formats = formats;
    match decoder.skip() {
        Ok(()) => Ok(decoder.source.offset() as usize),
        Err(refused) => Err(decoder.error(refused)),
    }
}

// The same, where they have to fit the scratch.
fn end_with_scratch(
    alloc: Global,
    bytes: &[u8],
    levels: u64,
    formats: Formats,
    scratch: &mut [u8],
) -> Result<usize>
    ensures { FindsEnd (formats_of formats) levels (Some (length scratch.old)) bytes.now result }
{
    let mut decoder = Decoder::new(alloc, SliceReadFixed::new(bytes, scratch));
    decoder.levels = levels;
    decoder.formats = formats;
    match decoder.skip() {
        Ok(()) => Ok(decoder.source.offset() as usize),
        Err(refused) => Err(decoder.error(refused)),
    }
}

/// What is read as an item that isn't decoded where none is lent.
const NOT_LENT: &str = "invalid type: expected an item that the input lends";

/// Where the item at hand ends, within what the decoder reads; or why none is at hand as a whole.
pub fn end_at_hand<R: Source>(decoder: &Decoder<R>) -> Result<usize>
    ensures found { FindsEnd (formats_of decoder.now.formats) decoder.now.levels
        (R.source decoder.now.source).room (R.at_hand decoder.now.source) result }
    ensures within { IfOk result (λ n. n ≤ length (R.at_hand decoder.now.source)) }
    ensures shows { ShowsFront R.lends (R.source decoder.now.source)
        (R.at_hand decoder.now.source) }
    ensures counted { (R.source decoder.now.source).offset < 2 ^ 64 }
{
    // That it is below 2^64 is for `counted`.
    let _ = decoder.source.offset();
    let room = decoder.source.buffer_room();
    let ahead = decoder.source.ahead();
    end_of_item(decoder.alloc, ahead, decoder.levels, decoder.formats, room)
}

// The refusal of what isn't lent: the item's fault, if it has one.
#[cold]
#[inline(never)]
fn not_lent<R: Source>(decoder: &mut Decoder<R>, error: Error) -> Error
    requires found { FindsEnd (formats_of decoder.old.formats) decoder.old.levels
        (R.source decoder.old.source).room (R.at_hand decoder.old.source) (Err error) }
    requires shows { ShowsFront R.lends (R.source decoder.old.source)
        (R.at_hand decoder.old.source) }
    ensures read { call.TakesItem R.source R.refusals
        (IsLentItem (context decoder.old.formats R.lends)) decoder.old decoder.new (Err result) }
    ensures fault { ItemFault R.refusals decoder.old.levels (R.source decoder.old.source) result }
    ensures settings { SameSettings decoder.old decoder.new }
{
    if error.is_memory() {
        return error;
    }
    match decoder.skip() {
        Ok(()) => Error::message(decoder.alloc, NOT_LENT),
        Err(refused) => decoder.error(refused),
    }
}

/// Reads an item without decoding it: the bytes that encode it, which the source lends for the
/// input's life.
///
/// It has to be acceptable within the levels that are left, with keys of the formats that are read,
/// as an item that is passed over. Where the source lends nothing for the input's life, an item is
/// refused with `invalid type: expected an item that the input lends`. Memory is asked for where
/// the item has a string in chunks, and where the source's scratch is shorter than the item, as
/// much as that scratch.
pub fn read_raw<'de, R: Read<'de>>(decoder: &mut Decoder<R>) -> Result<&'de [u8]>
    ensures read { IfOk result (λ bytes. call.TakesItem R.source R.refusals
        (IsLentItem (context decoder.old.formats R.lends)) decoder.old decoder.new
        (Ok bytes.now)) }
    ensures refused { IfErr result (λ e. call.TakesItem R.source R.refusals
        (IsLentItem (context decoder.old.formats R.lends)) decoder.old decoder.new (Err e)) }
    ensures fault { IfErr result (ItemFault R.refusals decoder.old.levels
        (R.source decoder.old.source)) }
    ensures encodes { IfOk result (λ bytes. IsEncoding bytes.now) }
    ensures taken { OnOk result (step.Advances R.source decoder.old decoder.new) }
    ensures settings { SameSettings decoder.old decoder.new }
{
    let n = match end_at_hand(decoder) {
        Ok(n) => n,
        Err(error) => return Err(not_lent(decoder, error)),
    };
    match decoder.source.read(n) {
        Ok(EitherLifetime::Long(bytes)) => Ok(bytes),
        Ok(EitherLifetime::Short(_)) => Err(Error::message(decoder.alloc, NOT_LENT)),
        Err(refusal) => {
            let refused = decoder.keep(refusal);
            Err(decoder.error(refused))
        }
    }
}

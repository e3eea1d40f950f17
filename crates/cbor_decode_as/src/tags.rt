//! Tags (RFC 7049, section 2.4).

ghost use Rattle.std.specs.Prelude.{◌≡◌, ◌≢◌, ◌≤◌, IfOk, IfErr, IfSome, OnOk};
ghost use Rattle.cbor_io.specs.Error.{code_of};
ghost use Rattle.cbor_io.specs.declared.error.ErrorCode.TheVariants.{OutOfMemory};
ghost use Rattle.cbor_decode.specs.Decoder.{SameSettings};
ghost use Rattle.cbor_decode.specs.Gives.{ReportsNoForm, ReportsNoKey, ReportsNoMemory};
ghost use Rattle.cbor_decode_as.specs.Tags.{begins_tag, tag_first_at, tag_head_at};
ghost use Rattle.cbor_decode_as.specs.Tags.{ReadsTag, LevelsBehind, PassesAll, TagIs, passed_at};
ghost use Rattle.cbor_decode_as.specs.Takes.{formats_of};
ghost use Rattle.cbor_decode.specs.Steps as step;

use cbor_decode::{Decoder, Done};
use cbor_io::error::Result;
use cbor_read::Source;

// Whether this is the first byte of a tag's head.
#[inline(always)]
fn begins_tag(first: u8) -> bool
    ensures { result ≡ begins_tag first }
{
    match first {
        0xc0..=0xdb => true,
        _ => false,
    }
}

/// Takes a tag's head and goes one level in, to the item that the tag is of; None, which takes
/// nothing, where the next byte isn't one of c0 to db or the input is at its end. After that
/// item the caller goes back out.
///
/// It is refused with `EofWhileParsingValue` where the input ends in the head, with
/// `RecursionLimitExceeded`, after the head, where no level is left, and as the source is. No
/// level is entered then.
pub fn read_tag<R: Source>(decoder: &mut Decoder<R>) -> Result<Option<u64>>
    ensures read { ReadsTag R.refusals decoder.old.levels
        (R.source decoder.old.source) (R.source decoder.new.source) result }
    ensures item { IfOk result (λ o. IfSome o (λ n.
        TagIs (formats_of decoder.old.formats) decoder.old.levels n
        (R.source decoder.old.source) (R.source decoder.new.source))) }
    ensures no_form { IfErr result (λ e. ReportsNoForm (code_of e)) }
    ensures memory { IfErr result (λ e. code_of e ≢ OutOfMemory) }
    ensures levels { LevelsBehind result decoder.old.levels decoder.new.levels }
    ensures formats { decoder.new.formats ≡ decoder.old.formats }
{
    match take_tag(decoder) {
        Ok(tag) => Ok(tag),
        Err(refused) => Err(decoder.error(refused)),
    }
}

// Takes a tag's head and goes one level in, if one stands at the front.
pub(crate) fn take_tag<R: Source>(decoder: &mut Decoder<R>) -> Done<Option<u64>>
    ensures read { step.Gives R.source R.refusals (λ o. o) (λ l. tag_head_at decoder.old.levels)
        decoder.old decoder.new result }
    ensures no_key { IfErr result (ReportsNoKey decoder.new.refusal) }
    ensures memory { IfErr result (ReportsNoMemory decoder.new.refusal) }
    ensures levels { LevelsBehind result decoder.old.levels decoder.new.levels }
    ensures formats { decoder.new.formats ≡ decoder.old.formats }
{
    let first = match tag_first(decoder) {
        Ok(Some(first)) => first,
        Ok(None) => return Ok(None),
        Err(refused) => return Err(refused),
    };
    let n = decoder.argument(first % 32)?;
    decoder.enter()?;
    Ok(Some(n))
}

// Takes the first byte of a tag's head, if one stands at the front.
fn tag_first<R: Source>(decoder: &mut Decoder<R>) -> Done<Option<u8>>
    ensures read { step.Gives R.source R.refusals (λ o. o) (λ l. tag_first_at)
        decoder.old decoder.new result }
    ensures no_key { IfErr result (ReportsNoKey decoder.new.refusal) }
    ensures memory { IfErr result (ReportsNoMemory decoder.new.refusal) }
    ensures settings { SameSettings decoder.old decoder.new }
{
    match decoder.source.peek() {
        Ok(Some(first)) => {
            if !begins_tag(first) {
                return Ok(None);
            }
            decoder.source.discard();
            Ok(Some(first))
        }
        Ok(None) => Ok(None),
        Err(refusal) => Err(decoder.keep(refusal)),
    }
}

/// Passes over the tags at the front, each a level further in. It is refused as [`read_tag`] is.
#[cycle(pass_tags)]
pub fn pass_tags<R: Source>(decoder: &mut Decoder<R>) -> Done<()>
    ensures read { PassesAll R.refusals (formats_of decoder.old.formats)
        decoder.old.levels
        (R.source decoder.old.source) (R.source decoder.new.source)
        decoder.new.levels decoder.new.refusal result }
    ensures passed { step.Gives R.source R.refusals (λ u. decoder.new.levels)
        (λ l. passed_at decoder.old.levels) decoder.old decoder.new result }
    ensures no_key { IfErr result (ReportsNoKey decoder.new.refusal) }
    ensures memory { IfErr result (ReportsNoMemory decoder.new.refusal) }
    ensures levels { OnOk result (decoder.new.levels ≤ decoder.old.levels) }
    ensures formats { decoder.new.formats ≡ decoder.old.formats }
{
    match take_tag(decoder)? {
        Some(_) => pass_tags(decoder),
        None => Ok(()),
    }
}

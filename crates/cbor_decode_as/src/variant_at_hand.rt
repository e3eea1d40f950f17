//! Enums whose beginning is at hand, up to the content of a variant.

ghost use Rattle.std.specs.Prelude.{◌≡◌, ◌+◌, ◌<◌, length, IfSome, MatchOption, OnSome, Ok};
ghost use Rattle.cbor_decode.specs.Decoder.{SameSettings};
ghost use Rattle.cbor_decode_as.specs.BeginsEnum.{TakesVariantHead};
ghost use Rattle.cbor_decode_as.specs.Identifiers.{texts};
ghost use Rattle.cbor_decode_as.specs.Takes.{formats_of};
ghost use Rattle.cbor_decode_as.specs.Variants.{IsInside, TakesVariant};
ghost use Rattle.cbor_decode_as.specs.declared.variant.Form.TheVariants as form;
ghost use Rattle.cbor_decode.specs.Steps as step;

use crate::identifier::short_name;
use crate::variant::{Form, ONE_PAIR, Shape, reads_shape};
use cbor_decode::Decoder;
use cbor_read::Source;

/// Takes an enum up to its identifier, as `variant_head` does, where that is at hand: a number below
/// 24 or a name of up to 23 bytes, alone or as the key of a map of one pair, without tags. None where
/// the bytes at hand don't begin so, name no variant, or may not be read so; then nothing is taken.
#[inline(always)]
pub fn variant_at_hand<R: Source>(decoder: &mut Decoder<R>, names: &[&str]) -> Option<(usize, Form)>
    ensures read { MatchOption result (decoder.new ≡ decoder.old)
        (λ v. TakesVariant R.refusals (formats_of decoder.old.formats)
        (texts names.now) decoder.old.levels
        (R.source decoder.old.source) (R.source decoder.new.source)
        decoder.new.levels (Ok v)) }
    ensures opened { IfSome result (λ v. TakesVariantHead R.refusals
        (formats_of decoder.old.formats) (texts names.now) decoder.old.levels
        (R.source decoder.old.source) (R.source decoder.new.source)
        decoder.new.levels (Ok v)) }
    ensures taken { OnSome result (step.Advances R.source decoder.old decoder.new) }
    ensures below { IfSome result (λ v. v.0 < length names.now) }
    ensures inside { IfSome result (λ v. IsInside v.1 decoder.new.levels decoder.old.levels) }
    ensures formats { decoder.new.formats ≡ decoder.old.formats }
{
    match pair_at_hand(decoder, names) {
        Some(index) => Some((index, Form::Map)),
        None => match name_at_hand(decoder, names) {
            Some(index) => Some((index, Form::Alone)),
            None => None,
        },
    }
}

// Takes the head of a map of one pair and its key, which names a variant.
#[inline(always)]
fn pair_at_hand<R: Source>(decoder: &mut Decoder<R>, names: &[&str]) -> Option<usize>
    ensures read { MatchOption result (decoder.new ≡ decoder.old)
        (λ i. TakesVariant R.refusals (formats_of decoder.old.formats)
        (texts names.now) decoder.old.levels
        (R.source decoder.old.source) (R.source decoder.new.source)
        decoder.new.levels (Ok (i, form.Map))) }
    ensures opened { IfSome result (λ i. TakesVariantHead R.refusals
        (formats_of decoder.old.formats) (texts names.now) decoder.old.levels
        (R.source decoder.old.source) (R.source decoder.new.source)
        decoder.new.levels (Ok (i, form.Map))) }
    ensures taken { OnSome result (step.Advances R.source decoder.old decoder.new) }
    ensures below { IfSome result (λ i. i < length names.now) }
    ensures inside { OnSome result (decoder.old.levels ≡ decoder.new.levels + 1) }
    ensures formats { decoder.new.formats ≡ decoder.old.formats }
{
    if !reads_shape(decoder, Shape::Map) || decoder.levels == 0 {
        return None;
    }
    let (head, key) = decoder.source.ahead().split_first()?;
    let (first, _) = key.split_first()?;
    if *head != ONE_PAIR || !decoder.formats.may_begin_key(*first) {
        return None;
    }
    let (index, n) = short_name(names, key)?;
    decoder.source.advance(1 + n);
    decoder.levels -= 1;
    Some(index)
}

// Takes a variant's identifier alone.
#[inline(always)]
fn name_at_hand<R: Source>(decoder: &mut Decoder<R>, names: &[&str]) -> Option<usize>
    ensures read { MatchOption result (decoder.new ≡ decoder.old)
        (λ i. TakesVariant R.refusals (formats_of decoder.old.formats)
        (texts names.now) decoder.old.levels
        (R.source decoder.old.source) (R.source decoder.new.source)
        decoder.new.levels (Ok (i, form.Alone))) }
    ensures opened { IfSome result (λ i. TakesVariantHead R.refusals
        (formats_of decoder.old.formats) (texts names.now) decoder.old.levels
        (R.source decoder.old.source) (R.source decoder.new.source)
        decoder.new.levels (Ok (i, form.Alone))) }
    ensures taken { OnSome result (step.Advances R.source decoder.old decoder.new) }
    ensures below { IfSome result (λ i. i < length names.now) }
    ensures settings { SameSettings decoder.old decoder.new }
{
    if !reads_shape(decoder, Shape::Alone) {
        return None;
    }
    let (index, n) = short_name(names, decoder.source.ahead())?;
    decoder.source.advance(n);
    Some(index)
}

//! Steps of reading, for the crates above that read structs, enums and tags. Users have
//! [`MapAccess`](crate::MapAccess), [`StructAccess`](crate::StructAccess),
//! [`SeqAccess`](crate::SeqAccess) and [`VariantAccess`](crate::VariantAccess), which keep count of
//! the levels.

ghost use Rattle.std.specs.Prelude.{◌≡◌, ◌≢◌, ◌^◌, ◌<◌, [], ◌∷◌, codes, length, take};
ghost use Rattle.std.specs.Prelude.{IfOk, IfErr, IfSome, MatchOption, Ok, OnOk, OnErr, OnSome};
ghost use Rattle.cbor_io.specs.Error.{code_of};
ghost use Rattle.cbor_io.specs.ReadError.{why};
ghost use Rattle.cbor_io.specs.declared.read_error.ReadErrorCode.TheVariants as reading;
ghost use Rattle.cbor_read.specs.Source.{Input, RefusedByte, Stays, TookKept, asks_for};
ghost use Rattle.cbor_decode.specs.Decoder.{SameSettings};
ghost use Rattle.cbor_decode.specs.Gives.{IsErrorOf, ReportsNoForm};
ghost use Rattle.cbor_decode.specs.declared.head.Head.TheVariants as kind;
ghost use Rattle.cbor_decode.specs.declared.refusal.Refused.TheVariants.{Kept};
ghost use Rattle.cbor_decode_as.specs.Identifiers.{texts};
ghost use Rattle.cbor_decode_as.specs.Contents.{ContentFault, PartsFault};
ghost use Rattle.cbor_decode_as.specs.Contents.{MemoryForNull, MemoryForParts};
ghost use Rattle.cbor_decode_as.specs.Strings.{IsAskedString};
ghost use Rattle.cbor_decode_as.specs.Takes.{formats_of, ItemFault};
ghost use Rattle.cbor_decode_as.specs.Begins.{BeginningFault, MemoryForOther, TakesBeginning};
ghost use Rattle.cbor_decode_as.specs.BeginsEnum.{MemoryForVariant, TakesPartsHead};
ghost use Rattle.cbor_decode_as.specs.BeginsEnum.{TakesVariantHead};
ghost use Rattle.cbor_io.specs.declared.error.ErrorCode.TheVariants.{ArrayTooLong, OutOfMemory};
ghost use Rattle.cbor_decode_as.specs.Cases.{FormAlone, IsEnumCode, HasCase};
ghost use Rattle.cbor_decode_as.specs.Cases.{enum_cases, unit_cases};
ghost use Rattle.cbor_decode_as.specs.Enums.{IsNothing};
ghost use Rattle.cbor_decode_as.specs.Collections.{TakesEndOf, TakesHeadOf};
ghost use Rattle.cbor_decode_as.specs.Variants.{IsEntered, IsInside, TakesContent, TakesParts};
ghost use Rattle.cbor_decode_as.specs.Variants.{TakesVariant, ReportsAlone, alone_text};
ghost use Rattle.cbor_pushed.specs.ItemAtFront.{HasNoItem};
ghost use Rattle.cbor_pushed.specs.Scanned.{Follows};
ghost use Rattle.cbor_raw.specs.Gathered.{GathersNone, TakesMore};
ghost use Rattle.cbor_de.specs.Calls as call;
ghost use Rattle.cbor_decode.specs.declared.cursor.Collection.TheVariants as of;

use crate::de::Deserializer;
use cbor_decode::{Collection, Remaining};
use cbor_decode_as::collection;
use cbor_decode_as::variant::Form;
use cbor_io::error::{Error, Result};
use cbor_pushed::Scan;
use cbor_raw::gather;
use cbor_read::{Read, ReadError, Source};

// ---- one byte

/// The next byte, which stays; None at the end.
#[inline(always)]
pub fn peek<R: Source>(de: &mut Deserializer<R>) -> std::result::Result<Option<u8>, ReadError>
    ensures stays { OnOk result (Stays (R.source de.old.decoder.source)
        (R.source de.new.decoder.source)) }
    ensures front { IfOk result (λ o. MatchOption o
        (IfSome (R.source de.old.decoder.source).to_come (λ bs. bs ≡ []))
        (λ b. IfSome (R.source de.old.decoder.source).to_come (λ bs. take 1 bs ≡ b ∷ []))) }
    ensures err { IfErr result (RefusedByte R.refusals (R.source de.old.decoder.source)
        (R.source de.new.decoder.source)) }
    ensures settings { SameSettings de.old.decoder de.new.decoder }
{
    de.decoder.source.peek()
}

/// The error of a call whose source refused.
#[cold]
#[inline(never)]
pub fn error_of<R: Source>(de: &mut Deserializer<R>, refusal: ReadError) -> Error
    ensures reports { IsErrorOf refusal Kept result }
    ensures memory { why refusal ≢ reading.OutOfMemory → code_of result ≢ OutOfMemory }
    ensures source { de.new.decoder.source ≡ de.old.decoder.source }
    ensures settings { SameSettings de.old.decoder de.new.decoder }
{
    let refused = de.decoder.keep(refusal);
    de.decoder.error(refused)
}

// ---- levels

/// Leaves arrays, maps and tags, up to where so many levels were left.
#[inline(always)]
pub fn leave_to<R>(de: &mut Deserializer<R>, outer: u64)
    ensures levels { de.new.decoder.levels ≡ outer }
    ensures source { de.new.decoder.source ≡ de.old.decoder.source }
    ensures formats { de.new.decoder.formats ≡ de.old.decoder.formats }
{
    de.decoder.levels = outer;
}

// ---- maps

/// Takes the tags and the head of a map, and goes one level in, as [`Deserializer::map`] does.
#[inline(always)]
pub fn map_head<R: Source>(de: &mut Deserializer<R>) -> Result<Remaining>
    ensures read { TakesHeadOf of.Map R.refusals (formats_of de.old.decoder.formats)
        de.old.decoder.levels (R.source de.old.decoder.source)
        (R.source de.new.decoder.source) de.new.decoder.levels result }
    ensures taken { OnOk result (call.Advances R.source de.old de.new) }
    ensures opened { TakesBeginning kind.Map R.refusals de.old.decoder.levels
        (R.source de.old.decoder.source) (R.source de.new.decoder.source)
        de.new.decoder.levels result }
    ensures no_form { IfErr result (λ e. ReportsNoForm (code_of e)) }
    ensures fault { IfErr result (BeginningFault kind.Map R.refusals de.old.decoder.levels
        (R.source de.old.decoder.source)) }
    ensures memory { IfErr result (MemoryForOther kind.Map de.old.decoder.levels
        (R.source de.old.decoder.source)) }
    ensures inside { IfOk result (λ r. de.new.decoder.levels < de.old.decoder.levels) }
    ensures outer { OnErr result (de.new.decoder.levels ≡ de.old.decoder.levels) }
    ensures formats { de.new.decoder.formats ≡ de.old.decoder.formats }
{
    collection::head(&mut de.decoder, Collection::Map)
}

/// Takes the end of a map of which so much remains. Pairs that weren't read are refused with
/// `TrailingData`.
#[inline(always)]
pub fn end_map<R: Source>(de: &mut Deserializer<R>, remaining: Remaining) -> Result<()>
    ensures read { TakesEndOf of.Map R.refusals remaining
        (R.source de.old.decoder.source) (R.source de.new.decoder.source) result }
    ensures no_form { IfErr result (λ e. ReportsNoForm (code_of e)) }
    ensures memory { IfErr result (λ e. code_of e ≢ OutOfMemory) }
    ensures settings { SameSettings de.old.decoder de.new.decoder }
{
    collection::end(&mut de.decoder, remaining, Collection::Map)
}

// ---- enums

/// Takes an enum up to its identifier, of which it returns the place among the names. It refuses
/// what [`Deserializer::variant`] refuses, and leaves the levels then that it took.
#[inline(always)]
pub fn variant_head<'de, R: Read<'de>>(
    de: &mut Deserializer<R>,
    names: &[&str],
) -> Result<(usize, Form)>
    ensures read { TakesVariant R.refusals (formats_of de.old.decoder.formats)
        (texts names.now) de.old.decoder.levels
        (R.source de.old.decoder.source) (R.source de.new.decoder.source)
        de.new.decoder.levels result }
    ensures taken { OnOk result (call.Advances R.source de.old de.new) }
    ensures opened { TakesVariantHead R.refusals
        (formats_of de.old.decoder.formats) (texts names.now) de.old.decoder.levels
        (R.source de.old.decoder.source) (R.source de.new.decoder.source)
        de.new.decoder.levels result }
    ensures fault { IfErr result (ItemFault R.refusals de.old.decoder.levels
        (R.source de.old.decoder.source)) }
    ensures memory { IfErr result (MemoryForVariant
        (IsAskedString (asks_for R.refusals R.lends)) (formats_of de.old.decoder.formats)
        (texts names.now) de.old.decoder.levels (R.source de.old.decoder.source)) }
    ensures cases { IfErr result (λ e. HasCase (R.source de.old.decoder.source) e
        (enum_cases (formats_of de.old.decoder.formats)
        de.old.decoder.levels)) }
    ensures code { IfErr result (λ e. IsEnumCode (code_of e)) }
    ensures below { IfOk result (λ v. v.0 < length names.now) }
    ensures inside { IfOk result (λ v. IsInside v.1 de.new.decoder.levels
        de.old.decoder.levels) }
    ensures outer { OnErr result (de.new.decoder.levels ≡ de.old.decoder.levels) }
    ensures formats { de.new.decoder.formats ≡ de.old.decoder.formats }
{
    cbor_decode_as::variant::variant_head(&mut de.decoder, names)
}

/// Takes an enum up to its identifier, as [`variant_head`] does, where that is at hand: a short name or
/// a number, alone or as the key of a map of one pair, without tags. None where it isn't; then nothing
/// is taken.
#[inline(always)]
pub fn variant_at_hand<R: Source>(de: &mut Deserializer<R>, names: &[&str]) -> Option<(usize, Form)>
    ensures read { MatchOption result (de.new.decoder ≡ de.old.decoder)
        (λ v. TakesVariant R.refusals (formats_of de.old.decoder.formats)
        (texts names.now) de.old.decoder.levels
        (R.source de.old.decoder.source) (R.source de.new.decoder.source)
        de.new.decoder.levels (Ok v)) }
    ensures taken { OnSome result (call.Advances R.source de.old de.new) }
    ensures opened { IfSome result (λ v. TakesVariantHead R.refusals
        (formats_of de.old.decoder.formats) (texts names.now) de.old.decoder.levels
        (R.source de.old.decoder.source) (R.source de.new.decoder.source)
        de.new.decoder.levels (Ok v)) }
    ensures below { IfSome result (λ v. v.0 < length names.now) }
    ensures inside { IfSome result (λ v. IsInside v.1 de.new.decoder.levels
        de.old.decoder.levels) }
    ensures formats { de.new.decoder.formats ≡ de.old.decoder.formats }
{
    cbor_decode_as::variant_at_hand::variant_at_hand(&mut de.decoder, names)
}

/// Has the source bring the beginning of an enum to hand, where it can, as far as
/// [`variant_at_hand`] reads it. An enum has to be wanted. Nothing is taken.
#[inline(always)]
pub fn gather_variant<R: Source>(de: &mut Deserializer<R>)
    ensures stays { Stays (R.source de.old.decoder.source) (R.source de.new.decoder.source) }
    ensures settings { SameSettings de.old.decoder de.new.decoder }
{
    crate::gather::gather_variant(&mut de.decoder)
}

/// Takes the content of a variant of several parts up to the first of them.
///
/// An identifier alone is refused with `invalid type: unit variant, expected tuple variant`, and in
/// a map an item that is no array as [`Deserializer::array`] refuses it.
#[inline(always)]
pub fn parts<R: Source>(de: &mut Deserializer<R>, form: Form) -> Result<Remaining>
    ensures read { TakesParts R.refusals (formats_of de.old.decoder.formats)
        de.old.decoder.levels form
        (R.source de.old.decoder.source) (R.source de.new.decoder.source)
        de.new.decoder.levels result }
    ensures opened { TakesPartsHead R.refusals de.old.decoder.levels form
        (R.source de.old.decoder.source) (R.source de.new.decoder.source)
        de.new.decoder.levels result }
    ensures fault { IfErr result (PartsFault R.refusals de.old.decoder.levels form
        (R.source de.old.decoder.source)) }
    ensures memory { IfErr result (MemoryForParts de.old.decoder.levels form
        (R.source de.old.decoder.source)) }
    ensures alone { IfErr result (ReportsAlone (alone_text (codes "tuple")) form) }
    ensures no_form { IfErr result (λ e. ReportsNoForm (code_of e)) }
    ensures inside { IfOk result (λ r. IsEntered form de.old.decoder.levels
        de.new.decoder.levels) }
    ensures formats { de.new.decoder.formats ≡ de.old.decoder.formats }
{
    cbor_decode_as::content::parts(&mut de.decoder, form)
}

/// Reads the content of a variant of no part: nothing, or null or undefined where the enum is an
/// array or a map.
///
/// An array in which nothing follows the identifier is refused with `ArrayTooLong`.
#[inline(always)]
pub fn no_part<R: Source>(de: &mut Deserializer<R>, form: Form) -> Result<()>
    ensures read { TakesContent R.refusals (formats_of de.old.decoder.formats)
        IsNothing
        de.old.decoder.levels form
        (R.source de.old.decoder.source) (R.source de.new.decoder.source) result }
    ensures cases { IfErr result (λ e. HasCase (R.source de.old.decoder.source) e
        (unit_cases form)) }
    ensures fault { IfErr result (ContentFault R.refusals de.old.decoder.levels form
        (R.source de.old.decoder.source)) }
    ensures memory { IfErr result (MemoryForNull (formats_of de.old.decoder.formats)
        de.old.decoder.levels form (R.source de.old.decoder.source)) }
    ensures code { IfErr result (λ e. FormAlone ArrayTooLong (code_of e)) }
    ensures settings { SameSettings de.old.decoder de.new.decoder }
{
    cbor_decode_as::content::no_part(&mut de.decoder, form)
}

// ---- items that stay undecoded

/// The offset of the next byte.
pub fn offset<R: Source>(de: &Deserializer<R>) -> u64
    ensures { result ≡ (R.source de.now.decoder.source).offset }
{
    de.decoder.source.offset()
}

/// Takes one more byte of the item at the front, behind these, of which the first stands at this
/// offset: whether the item is whole then. The scan is what has gone through the bytes so far.
pub fn take_more<R: Source>(
    de: &mut Deserializer<R>,
    start: u64,
    bytes: &mut Vec<u8>,
    scan: &mut Scan,
) -> Result<bool>
    requires follows { Follows de.old.decoder.levels scan.old bytes.old.items }
    requires none { HasNoItem de.old.decoder.levels bytes.old.items }
    ensures ok { IfOk result (TakesMore de.old.decoder.levels (R.source de.old.decoder.source)
        (R.source de.new.decoder.source) bytes.old.items bytes.new.items) }
    ensures follows { OnOk result (Follows de.old.decoder.levels scan.new bytes.new.items) }
    ensures counted { OnOk result ((R.source de.new.decoder.source).offset < 2 ^ 64) }
    ensures err { (s : Input) → TookKept s (R.source de.old.decoder.source) bytes.old.items
        → IfErr result (GathersNone R.refusals de.old.decoder.levels s
        (R.source de.new.decoder.source)) }
    ensures settings { SameSettings de.old.decoder de.new.decoder }
{
    gather::take_more(&mut de.decoder, start, bytes, scan)
}

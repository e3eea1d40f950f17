//! Enums, up to the content of a variant.

ghost use Rattle.std.specs.Prelude.{◌≡◌, ◌≢◌, ◌+◌, ◌<◌, length, true};
ghost use Rattle.std.specs.Prelude.{OnOk, OnErr, IfOk, IfErr};
ghost use Rattle.cbor_io.specs.Error.{code_of, offset_of, HasNoOffset};
ghost use Rattle.cbor_io.specs.declared.error.ErrorCode.TheVariants.{OutOfMemory};
ghost use Rattle.cbor_read.specs.Source.{asks_for};
ghost use Rattle.cbor_decode.specs.Decoder.{SameSettings};
ghost use Rattle.cbor_decode.specs.Gives.{Stopped, ReportsNoForm, ReportsNoKey, ReportsNoMemory};
ghost use Rattle.cbor_decode_as.specs.Cases.{HasCase, IsEnumCode, enum_cases, form_cases};
ghost use Rattle.cbor_decode_as.specs.Cases.{untagged_cases};
ghost use Rattle.cbor_decode_as.specs.Enums.{IsName};
ghost use Rattle.cbor_decode_as.specs.Identifiers.{texts};
ghost use Rattle.cbor_decode_as.specs.Strings.{IsAskedString};
ghost use Rattle.cbor_decode_as.specs.Takes.{ItemFault, formats_of};
ghost use Rattle.cbor_decode_as.specs.BeginsEnum.{TakesVariantHead, TakesForm, TakesFormOf};
ghost use Rattle.cbor_decode_as.specs.BeginsEnum.{FaultOfForm, MemoryForForm, MemoryForFormOf};
ghost use Rattle.cbor_decode_as.specs.BeginsEnum.{MemoryForIdentifier, MemoryForVariant};
ghost use Rattle.cbor_decode_as.specs.Variants.{HasNoTag, HasShape, IsAlone, IsInside};
ghost use Rattle.cbor_decode_as.specs.Variants.{TakesShape, TakesShaped, TakesVariant};
ghost use Rattle.cbor_decode_as.specs.Variants.{pair_head_at, reads_shape, shape_of};
ghost use Rattle.cbor_decode_as.specs.Variants.{unassigned_at};
ghost use Rattle.cbor_decode_as.specs.declared.variant.Form.TheVariants.{Array};
ghost use Rattle.cbor_decode_as.specs.declared.variant.Shape.TheVariants as shape;
ghost use Rattle.cbor_decode.specs.Steps as step;
ghost use Rattle.cbor_decode_as.specs.DecoderCalls as call;

use crate::collection::{self, key_begins};
use crate::content::expect_item;
use crate::identifier::{identifier, unnamed};
use crate::tags::pass_tags;
use cbor_decode::{Collection, Decoder, Done, Refused, Remaining};
use cbor_io::error::{Error, ErrorCode, Result};
use cbor_read::{Read, ReadErrorCode, Source};

/// How an enum is encoded.
#[derive(Clone, Copy)]
pub enum Form {
    /// An array of the identifier and the parts, of which so much remains.
    Array(Remaining),
    /// A map of one pair, of the identifier and the content.
    Map,
    /// The identifier alone.
    Alone,
}

/// The first byte of a map of one pair.
pub(crate) const ONE_PAIR: u8 = 0xa1;

// How an enum is encoded, by its first byte.
#[derive(Clone, Copy)]
pub(crate) enum Shape {
    Array,
    Map,
    Alone,
    // Not at all: no item begins so.
    Unassigned,
}

// How an enum is encoded that begins with this byte.
fn shape_of(first: u8) -> Shape
    ensures { result ≡ shape_of first }
{
    match first {
        0x80..=0x9b | 0x9f => Shape::Array,
        0x9c..=0x9e => Shape::Unassigned,
        ONE_PAIR => Shape::Map,
        _ => Shape::Alone,
    }
}

// How the enum at the front is encoded, where that is read. Its first byte stays.
#[tactic(auto, using(crate::proofs::refused::Codes::kept_enum, crate::proofs::refused::Codes::other_enum))]
fn enum_shape<R: Source>(decoder: &mut Decoder<R>) -> Result<Shape>
    ensures read { TakesShape R.refusals (formats_of decoder.old.formats)
        (R.source decoder.old.source) (R.source decoder.new.source) result }
    ensures cases { IfErr result (λ e. HasCase (R.source decoder.old.source) e
        (form_cases (formats_of decoder.old.formats))) }
    ensures fault { IfErr result (ItemFault R.refusals decoder.old.levels
        (R.source decoder.old.source)) }
    ensures code { IfErr result (λ e. IsEnumCode (code_of e)) }
    ensures memory { IfErr result (λ e. code_of e ≢ OutOfMemory) }
    ensures settings { SameSettings decoder.old decoder.new }
{
    let first = match decoder.source.peek() {
        Ok(Some(first)) => first,
        Ok(None) => {
            let refused = decoder.refuse(ReadErrorCode::EofWhileParsingValue);
            return Err(decoder.error(refused));
        }
        Err(refusal) => {
            let refused = decoder.keep(refusal);
            return Err(decoder.error(refused));
        }
    };
    let shape = shape_of(first);
    if reads_shape(decoder, shape) {
        Ok(shape)
    } else {
        Err(refuse_here(decoder, ErrorCode::WrongEnumFormat))
    }
}

// Whether enums that are encoded so are read.
pub(crate) fn reads_shape<R: Source>(decoder: &Decoder<R>, shape: Shape) -> bool
    ensures { result ≡ reads_shape (formats_of decoder.now.formats) shape }
{
    let formats = decoder.formats;
    match shape {
        Shape::Array => formats.legacy_enums,
        Shape::Map => formats.standard_enums,
        Shape::Alone => formats.standard_enums || formats.legacy_enums,
        Shape::Unassigned => true,
    }
}

// The error of this code, before the bytes to come.
#[cold]
#[inline(never)]
pub(crate) fn refuse_here<R: Source>(decoder: &Decoder<R>, code: ErrorCode) -> Error
    requires { HasNoOffset code → ⊥ }
    ensures code { code_of result ≡ code }
    ensures offset { offset_of result ≡ (R.source decoder.now.source).offset }
{
    Error::at(code, decoder.source.offset())
}

// Takes the head of a map of one pair, and goes one level in, to a key that may begin so.
fn pair_head<R: Source>(decoder: &mut Decoder<R>) -> Done<()>
    ensures read { step.Gives R.source R.refusals (λ u. u)
        (λ l. pair_head_at (formats_of decoder.old.formats) decoder.old.levels)
        decoder.old decoder.new result }
    ensures memory { IfErr result (ReportsNoMemory decoder.new.refusal) }
    ensures inside { OnOk result (decoder.old.levels ≡ decoder.new.levels + 1) }
    ensures formats { decoder.new.formats ≡ decoder.old.formats }
{
    decoder.byte()?;
    decoder.enter()?;
    key_begins(decoder)
}

/// Takes an enum up to its identifier: the tags, the head of an array or of a map of one pair, and
/// the identifier, of which it returns the place among the names. Refused, it leaves the levels
/// that it took.
///
/// It is refused with `WrongEnumFormat`, before the first byte after the tags, where that form
/// isn't read; with `UnassignedCode`, after that byte, where it is one of `9c` to `9e`, whatever is
/// read; with `ArrayTooShort` where an array has no identifier; with `unknown variant` where
/// no name is of the identifier, and with `invalid type: expected a variant name` where another
/// item stands in its place.
pub fn variant_head<'de, R: Read<'de>>(
    decoder: &mut Decoder<R>,
    names: &[&str],
) -> Result<(usize, Form)>
    ensures read { TakesVariant R.refusals (formats_of decoder.old.formats)
        (texts names.now) decoder.old.levels
        (R.source decoder.old.source) (R.source decoder.new.source)
        decoder.new.levels result }
    ensures opened { TakesVariantHead R.refusals
        (formats_of decoder.old.formats) (texts names.now) decoder.old.levels
        (R.source decoder.old.source) (R.source decoder.new.source)
        decoder.new.levels result }
    ensures taken { OnOk result (step.Advances R.source decoder.old decoder.new) }
    ensures fault { IfErr result (ItemFault R.refusals decoder.old.levels
        (R.source decoder.old.source)) }
    ensures memory { IfErr result (MemoryForVariant
        (IsAskedString (asks_for R.refusals R.lends)) (formats_of decoder.old.formats)
        (texts names.now) decoder.old.levels (R.source decoder.old.source)) }
    ensures cases { IfErr result (λ e. HasCase (R.source decoder.old.source) e
        (enum_cases (formats_of decoder.old.formats)
        decoder.old.levels)) }
    ensures code { IfErr result (λ e. IsEnumCode (code_of e)) }
    ensures below { IfOk result (λ v. v.0 < length names.now) }
    ensures inside { IfOk result (λ v. IsInside v.1 decoder.new.levels
        decoder.old.levels) }
    ensures outer { OnErr result (decoder.new.levels ≡ decoder.old.levels) }
    ensures formats { decoder.new.formats ≡ decoder.old.formats }
{
    let outer = decoder.levels;
    match tagged_variant(decoder, names) {
        Ok(head) => Ok(head),
        Err(e) => {
            decoder.levels = outer;
            Err(e)
        }
    }
}

// As `variant_head`, but an Err doesn't restore the nesting level.
#[tactic(auto, using(crate::proofs::refused::Cases::other_stands, crate::proofs::refused::Cases::tagged_stand, crate::proofs::refused::Codes::kept_enum))]
fn tagged_variant<'de, R: Read<'de>>(
    decoder: &mut Decoder<R>,
    names: &[&str],
) -> Result<(usize, Form)>
    ensures read { TakesVariant R.refusals (formats_of decoder.old.formats)
        (texts names.now) decoder.old.levels
        (R.source decoder.old.source) (R.source decoder.new.source)
        decoder.new.levels result }
    ensures opened { TakesVariantHead R.refusals
        (formats_of decoder.old.formats) (texts names.now) decoder.old.levels
        (R.source decoder.old.source) (R.source decoder.new.source)
        decoder.new.levels result }
    ensures taken { OnOk result (step.Advances R.source decoder.old decoder.new) }
    ensures fault { IfErr result (ItemFault R.refusals decoder.old.levels
        (R.source decoder.old.source)) }
    ensures memory { IfErr result (MemoryForVariant
        (IsAskedString (asks_for R.refusals R.lends)) (formats_of decoder.old.formats)
        (texts names.now) decoder.old.levels (R.source decoder.old.source)) }
    ensures cases { IfErr result (λ e. HasCase (R.source decoder.old.source) e
        (enum_cases (formats_of decoder.old.formats)
        decoder.old.levels)) }
    ensures code { IfErr result (λ e. IsEnumCode (code_of e)) }
    ensures below { IfOk result (λ v. v.0 < length names.now) }
    ensures inside { IfOk result (λ v. IsInside v.1 decoder.new.levels
        decoder.old.levels) }
    ensures formats { decoder.new.formats ≡ decoder.old.formats }
{
    match pass_tags(decoder) {
        Ok(()) => untagged_variant(decoder, names),
        Err(refused) => Err(decoder.error(refused)),
    }
}

// Takes an enum that has no tag up to its identifier.
#[tactic(auto, using(crate::proofs::refused::Cases::others_stand, crate::proofs::refused::Cases::other_stands, crate::proofs::refused::Cases::forms_stand, crate::proofs::refused::Cases::shaped_stand, crate::proofs::refused::Codes::kept_enum, crate::proofs::refused::Codes::plain_enums))]
fn untagged_variant<'de, R: Read<'de>>(
    decoder: &mut Decoder<R>,
    names: &[&str],
) -> Result<(usize, Form)>
    ensures read { TakesShaped HasNoTag R.refusals
        (formats_of decoder.old.formats) (texts names.now) decoder.old.levels
        (R.source decoder.old.source) (R.source decoder.new.source)
        decoder.new.levels result }
    ensures opened { TakesForm R.refusals
        (formats_of decoder.old.formats) (texts names.now) decoder.old.levels
        (R.source decoder.old.source) (R.source decoder.new.source)
        decoder.new.levels result }
    ensures taken { OnOk result (step.Advances R.source decoder.old decoder.new) }
    ensures fault { IfErr result (ItemFault R.refusals decoder.old.levels
        (R.source decoder.old.source)) }
    ensures memory { IfErr result (MemoryForForm
        (IsAskedString (asks_for R.refusals R.lends)) (formats_of decoder.old.formats)
        (texts names.now) decoder.old.levels (R.source decoder.old.source)) }
    ensures cases { IfErr result (λ e. HasCase (R.source decoder.old.source) e
        (untagged_cases (formats_of decoder.old.formats)
        decoder.old.levels)) }
    ensures code { IfErr result (λ e. IsEnumCode (code_of e)) }
    ensures below { IfOk result (λ v. v.0 < length names.now) }
    ensures inside { IfOk result (λ v. IsInside v.1 decoder.new.levels
        decoder.old.levels) }
    ensures formats { decoder.new.formats ≡ decoder.old.formats }
{
    match enum_shape(decoder)? {
        Shape::Array => array_variant(decoder, names),
        Shape::Map => map_variant(decoder, names),
        Shape::Alone => name_alone(decoder, names),
        Shape::Unassigned => {
            let refused = unassigned_byte(decoder);
            Err(decoder.error(refused))
        }
    }
}

// Takes a byte that begins no item, and refuses it.
#[cold]
#[inline(never)]
#[tactic(auto, using(crate::proofs::enums::VariantShapes::unassigned_stops))]
fn unassigned_byte<R: Source>(decoder: &mut Decoder<R>) -> Refused
    ensures read { Stopped R.refusals (λ l. unassigned_at) (R.source decoder.old.source)
        (R.source decoder.new.source) decoder.new.refusal result }
    ensures no_key { ReportsNoKey decoder.new.refusal result }
    ensures memory { ReportsNoMemory decoder.new.refusal result }
    ensures settings { SameSettings decoder.old decoder.new }
{
    match decoder.byte() {
        Ok(_) => decoder.refuse(ReadErrorCode::UnassignedCode),
        Err(refused) => refused,
    }
}

// Takes the identifier of an enum that is an identifier alone.
fn name_alone<'de, R: Read<'de>>(decoder: &mut Decoder<R>, names: &[&str]) -> Result<(usize, Form)>
    requires { reads_shape (formats_of decoder.old.formats) shape.Alone ≡ true }
    ensures read { TakesShaped IsAlone R.refusals
        (formats_of decoder.old.formats) (texts names.now) decoder.old.levels
        (R.source decoder.old.source) (R.source decoder.new.source)
        decoder.new.levels result }
    ensures opened { TakesFormOf shape.Alone R.refusals
        (formats_of decoder.old.formats) (texts names.now) decoder.old.levels
        (R.source decoder.old.source) (R.source decoder.new.source)
        decoder.new.levels result }
    ensures taken { OnOk result (step.Advances R.source decoder.old decoder.new) }
    ensures fault { IfErr result (FaultOfForm shape.Alone R.refusals decoder.old.levels
        (R.source decoder.old.source)) }
    ensures memory { IfErr result (MemoryForFormOf shape.Alone
        (IsAskedString (asks_for R.refusals R.lends)) (formats_of decoder.old.formats)
        (texts names.now) decoder.old.levels (R.source decoder.old.source)) }
    ensures no_form { IfErr result (λ e. ReportsNoForm (code_of e)) }
    ensures below { IfOk result (λ v. v.0 < length names.now) }
    ensures inside { IfOk result (λ v. IsInside v.1 decoder.new.levels
        decoder.old.levels) }
    ensures formats { decoder.new.formats ≡ decoder.old.formats }
{
    let index = variant_name(decoder, names)?;
    Ok((index, Form::Alone))
}

// Takes the head and the identifier of an enum in an array.
#[tactic(auto, using(crate::proofs::refused::Cases::other_stands, crate::proofs::refused::Codes::plain_enum, crate::proofs::refused::Codes::none_enum))]
fn array_variant<'de, R: Read<'de>>(
    decoder: &mut Decoder<R>,
    names: &[&str],
) -> Result<(usize, Form)>
    requires { reads_shape (formats_of decoder.old.formats) shape.Array ≡ true }
    ensures read { TakesShaped (HasShape shape.Array) R.refusals
        (formats_of decoder.old.formats) (texts names.now) decoder.old.levels
        (R.source decoder.old.source) (R.source decoder.new.source)
        decoder.new.levels result }
    ensures opened { TakesFormOf shape.Array R.refusals
        (formats_of decoder.old.formats) (texts names.now) decoder.old.levels
        (R.source decoder.old.source) (R.source decoder.new.source)
        decoder.new.levels result }
    ensures taken { OnOk result (step.Advances R.source decoder.old decoder.new) }
    ensures fault { IfErr result (FaultOfForm shape.Array R.refusals decoder.old.levels
        (R.source decoder.old.source)) }
    ensures memory { IfErr result (MemoryForFormOf shape.Array
        (IsAskedString (asks_for R.refusals R.lends)) (formats_of decoder.old.formats)
        (texts names.now) decoder.old.levels (R.source decoder.old.source)) }
    ensures cases { IfErr result (λ e. HasCase (R.source decoder.old.source) e
        (untagged_cases (formats_of decoder.old.formats)
        decoder.old.levels)) }
    ensures code { IfErr result (λ e. IsEnumCode (code_of e)) }
    ensures below { IfOk result (λ v. v.0 < length names.now) }
    ensures inside { IfOk result (λ v. IsInside v.1 decoder.new.levels
        decoder.old.levels) }
    ensures formats { decoder.new.formats ≡ decoder.old.formats }
{
    let mut remaining = collection::head(decoder, Collection::Array)?;
    expect_item(decoder, &mut remaining, ErrorCode::ArrayTooShort)?;
    let index = variant_name(decoder, names)?;
    Ok((index, Form::Array(remaining)))
}

// Takes the head and the identifier of an enum in a map of one pair.
#[tactic(auto, using(crate::proofs::refused::Cases::other_stands, crate::proofs::refused::Cases::pair_stands, crate::proofs::refused::Codes::plain_enum, crate::proofs::refused::Codes::kept_enum))]
fn map_variant<'de, R: Read<'de>>(decoder: &mut Decoder<R>, names: &[&str]) -> Result<(usize, Form)>
    requires { reads_shape (formats_of decoder.old.formats) shape.Map ≡ true }
    ensures read { TakesShaped (HasShape shape.Map) R.refusals
        (formats_of decoder.old.formats) (texts names.now) decoder.old.levels
        (R.source decoder.old.source) (R.source decoder.new.source)
        decoder.new.levels result }
    ensures opened { TakesFormOf shape.Map R.refusals
        (formats_of decoder.old.formats) (texts names.now) decoder.old.levels
        (R.source decoder.old.source) (R.source decoder.new.source)
        decoder.new.levels result }
    ensures taken { OnOk result (step.Advances R.source decoder.old decoder.new) }
    ensures fault { IfErr result (FaultOfForm shape.Map R.refusals decoder.old.levels
        (R.source decoder.old.source)) }
    ensures memory { IfErr result (MemoryForFormOf shape.Map
        (IsAskedString (asks_for R.refusals R.lends)) (formats_of decoder.old.formats)
        (texts names.now) decoder.old.levels (R.source decoder.old.source)) }
    ensures cases { IfErr result (λ e. HasCase (R.source decoder.old.source) e
        (untagged_cases (formats_of decoder.old.formats)
        decoder.old.levels)) }
    ensures code { IfErr result (λ e. IsEnumCode (code_of e)) }
    ensures below { IfOk result (λ v. v.0 < length names.now) }
    ensures inside { IfOk result (λ v. IsInside v.1 decoder.new.levels
        decoder.old.levels) }
    ensures formats { decoder.new.formats ≡ decoder.old.formats }
{
    match pair_head(decoder) {
        Ok(()) => {}
        Err(refused) => return Err(decoder.error(refused)),
    }
    let index = variant_name(decoder, names)?;
    Ok((index, Form::Map))
}

// Reads a variant's identifier.
fn variant_name<'de, R: Read<'de>>(decoder: &mut Decoder<R>, names: &[&str]) -> Result<usize>
    ensures read { call.TakesItem R.source R.refusals (IsName (texts names.now))
        decoder.old decoder.new result }
    ensures taken { OnOk result (step.Advances R.source decoder.old decoder.new) }
    ensures fault { IfErr result (ItemFault R.refusals decoder.old.levels
        (R.source decoder.old.source)) }
    ensures memory { IfErr result (MemoryForIdentifier
        (IsAskedString (asks_for R.refusals R.lends)) (formats_of decoder.old.formats)
        (texts names.now) decoder.old.levels (R.source decoder.old.source)) }
    ensures no_form { IfErr result (λ e. ReportsNoForm (code_of e)) }
    ensures below { IfOk result (λ i. i < length names.now) }
    ensures settings { SameSettings decoder.old decoder.new }
{
    match identifier(decoder, names) {
        Ok(Some(index)) => Ok(index),
        Ok(None) => Err(Error::message(decoder.alloc, "unknown variant")),
        Err(why) => Err(unnamed(decoder, why, "invalid type: expected a variant name")),
    }
}

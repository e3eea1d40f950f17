//! The content of a variant.

ghost use Rattle.std.specs.Prelude.{◌≡◌, ◌≢◌, ◌⊎◌, codes, OnOk, IfOk, IfErr};
ghost use Rattle.cbor_model.specs.Readable.{PassesTags, IsUnit};
ghost use Rattle.cbor_model.specs.Refusal.{end_in_array};
ghost use Rattle.cbor_model.specs.Reader.{next_at};
ghost use Rattle.cbor_decode.specs.Decoder.{SameSettings};
ghost use Rattle.cbor_decode.specs.Heads.{remaining_of};
ghost use Rattle.cbor_io.specs.Error.{code_of, HasNoOffset};
ghost use Rattle.cbor_decode.specs.Gives.{ReportsNoForm, ReportsNoKey, ReportsNoMemory};
ghost use Rattle.cbor_io.specs.declared.error.ErrorCode.TheVariants.{ArrayTooLong, OutOfMemory};
ghost use Rattle.cbor_decode_as.specs.Cases.{FormAlone, HasCase, NoItemHere, unit_cases};
ghost use Rattle.cbor_decode_as.specs.Contents.{ContentFault, MemoryForNull};
ghost use Rattle.cbor_decode_as.specs.Contents.{MemoryForParts, PartsFault};
ghost use Rattle.cbor_decode_as.specs.Enums.{IsNothing, IsPart};
ghost use Rattle.cbor_decode_as.specs.Takes.{ReportsFault, formats_of};
ghost use Rattle.cbor_decode_as.specs.BeginsEnum.{TakesPartsHead};
ghost use Rattle.cbor_decode_as.specs.Variants.{ExpectsItem, IsEntered, TakesComing, TakesContent};
ghost use Rattle.cbor_decode_as.specs.Variants.{TakesParts, ReportsAlone, alone_text};
ghost use Rattle.cbor_decode_as.specs.declared.variant.Form.TheVariants.{Array};

use crate::collection;
use crate::scalar::read_unit;
use crate::variant::{Form, refuse_here};
use cbor_decode::{BREAK, Collection, Decoder, Done, Remaining};
use cbor_io::error::{Error, ErrorCode, Result};
use cbor_read::{ReadErrorCode, Source};

// Whether another item of an array comes, of which so much remains. Nothing is taken.
#[tactic(auto, unfolding(cbor_model::specs::Reader::next_at))]
fn item_comes<R: Source>(decoder: &mut Decoder<R>, remaining: &mut Remaining) -> Done<bool>
    ensures read { TakesComing R.refusals remaining.old remaining.new
        (R.source decoder.old.source) (R.source decoder.new.source)
        decoder.new.refusal result }
    ensures no_key { IfErr result (ReportsNoKey decoder.new.refusal) }
    ensures memory { IfErr result (ReportsNoMemory decoder.new.refusal) }
    ensures stays { OnOk result ((R.source decoder.new.source).offset
        ≡ (R.source decoder.old.source).offset) }
    ensures settings { SameSettings decoder.old decoder.new }
{
    match remaining {
        Remaining::Counted(0) => Ok(false),
        Remaining::Counted(n) => {
            *n -= 1;
            Ok(true)
        }
        Remaining::ToBreak => match decoder.source.peek() {
            Ok(Some(BREAK)) => Ok(false),
            Ok(Some(_)) => Ok(true),
            Ok(None) => Err(decoder.refuse(ReadErrorCode::EofWhileParsingArray)),
            Err(refusal) => Err(decoder.keep(refusal)),
        },
    }
}

/// Refuses with this code, at the present offset, where no item of an array comes, of which so much
/// remains. Nothing is taken of an item that comes.
#[tactic(auto, using(crate::proofs::refused::Cases::coming_fault))]
pub fn expect_item<R: Source>(
    decoder: &mut Decoder<R>,
    remaining: &mut Remaining,
    none: ErrorCode,
) -> Result<()>
    requires { HasNoOffset none → ⊥ }
    ensures read { ExpectsItem R.refusals remaining.old remaining.new
        (R.source decoder.old.source) (R.source decoder.new.source) result }
    ensures none { IfErr result (λ e. ReportsNoForm (code_of e)
        ⊎ NoItemHere none remaining.old (R.source decoder.old.source) e) }
    ensures fault { IfErr result (λ e. ReportsFault R.refusals
        (λ l. next_at end_in_array (remaining_of remaining.old))
        (R.source decoder.old.source) e
        ⊎ NoItemHere none remaining.old (R.source decoder.old.source) e) }
    ensures memory { IfErr result (λ e. code_of e ≢ OutOfMemory) }
    ensures settings { SameSettings decoder.old decoder.new }
{
    match item_comes(decoder, remaining) {
        Ok(true) => Ok(()),
        Ok(false) => Err(refuse_here(decoder, none)),
        Err(refused) => Err(decoder.error(refused)),
    }
}

/// Takes the content of a variant of several parts up to the first of them.
///
/// An identifier alone is refused with `invalid type: unit variant, expected tuple variant`, and in
/// a map an item that is no array as [`head`](collection::head) refuses it.
pub fn parts<R: Source>(decoder: &mut Decoder<R>, form: Form) -> Result<Remaining>
    ensures read { TakesParts R.refusals (formats_of decoder.old.formats)
        decoder.old.levels form
        (R.source decoder.old.source) (R.source decoder.new.source)
        decoder.new.levels result }
    ensures opened { TakesPartsHead R.refusals decoder.old.levels form
        (R.source decoder.old.source) (R.source decoder.new.source)
        decoder.new.levels result }
    ensures fault { IfErr result (PartsFault R.refusals decoder.old.levels form
        (R.source decoder.old.source)) }
    ensures memory { IfErr result (MemoryForParts decoder.old.levels form
        (R.source decoder.old.source)) }
    ensures alone { IfErr result (ReportsAlone (alone_text (codes "tuple")) form) }
    ensures no_form { IfErr result (λ e. ReportsNoForm (code_of e)) }
    ensures inside { IfOk result (λ r. IsEntered form decoder.old.levels
        decoder.new.levels) }
    ensures formats { decoder.new.formats ≡ decoder.old.formats }
{
    match form {
        Form::Array(remaining) => Ok(remaining),
        Form::Map => collection::head(decoder, Collection::Array),
        Form::Alone => Err(Error::message(
            decoder.alloc,
            "invalid type: unit variant, expected tuple variant",
        )),
    }
}

// Reads null or undefined, the only item of an array that remains.
#[tactic(auto, using(crate::proofs::refused::Cases::other_stands, crate::proofs::refused::Cases::full_stands, crate::proofs::refused::Codes::none_alone, crate::proofs::refused::Codes::plain_alone))]
fn only_null<R: Source>(decoder: &mut Decoder<R>, mut remaining: Remaining) -> Result<()>
    ensures read { TakesContent R.refusals (formats_of decoder.old.formats)
        (IsPart (PassesTags IsUnit))
        decoder.old.levels (Array remaining)
        (R.source decoder.old.source) (R.source decoder.new.source) result }
    ensures cases { IfErr result (λ e. HasCase (R.source decoder.old.source) e
        (unit_cases (Array remaining))) }
    ensures fault { IfErr result (ContentFault R.refusals decoder.old.levels (Array remaining)
        (R.source decoder.old.source)) }
    ensures memory { IfErr result (MemoryForNull (formats_of decoder.old.formats)
        decoder.old.levels (Array remaining) (R.source decoder.old.source)) }
    ensures code { IfErr result (λ e. FormAlone ArrayTooLong (code_of e)) }
    ensures settings { SameSettings decoder.old decoder.new }
{
    expect_item(decoder, &mut remaining, ErrorCode::ArrayTooLong)?;
    read_unit(decoder)?;
    collection::end(decoder, remaining, Collection::Array)?;
    Ok(())
}

/// Reads the content of a variant of no part: nothing, or null or undefined where the enum is an
/// array or a map.
///
/// An array in which nothing follows the identifier is refused with `ArrayTooLong`.
#[tactic(auto, using(crate::proofs::refused::Cases::others_stand, crate::proofs::refused::Codes::plain_alones))]
pub fn no_part<R: Source>(decoder: &mut Decoder<R>, form: Form) -> Result<()>
    ensures read { TakesContent R.refusals (formats_of decoder.old.formats)
        IsNothing
        decoder.old.levels form
        (R.source decoder.old.source) (R.source decoder.new.source) result }
    ensures cases { IfErr result (λ e. HasCase (R.source decoder.old.source) e
        (unit_cases form)) }
    ensures fault { IfErr result (ContentFault R.refusals decoder.old.levels form
        (R.source decoder.old.source)) }
    ensures memory { IfErr result (MemoryForNull (formats_of decoder.old.formats)
        decoder.old.levels form (R.source decoder.old.source)) }
    ensures code { IfErr result (λ e. FormAlone ArrayTooLong (code_of e)) }
    ensures settings { SameSettings decoder.old decoder.new }
{
    match form {
        Form::Array(remaining) => only_null(decoder, remaining),
        Form::Map => read_unit(decoder),
        Form::Alone => Ok(()),
    }
}

//! A variant of an enum, and how its content is read: of no part, of one, of several, or of named fields.

ghost use Rattle.std.specs.Prelude.{◌≡◌, IfErr, MatchOption, Ok};
ghost use Rattle.cbor_read.specs.Source.{asks_for};
ghost use Rattle.cbor_decode.specs.Decoder.{SameSettings};
ghost use Rattle.cbor_decode_as.specs.Takes.{context, formats_of};
ghost use Rattle.cbor_decode_as.specs.Variants.{TakesContent};
ghost use Rattle.cbor_parts.specs.Keys.{AreKeysOf, named_keys, keys_of};
ghost use Rattle.cbor_de.specs.Forms.{MayReportContent};
ghost use Rattle.cbor_described.specs.Contents.{OwnContentFault};
ghost use Rattle.cbor_described.specs.EnumMemory.{MemoryForContent};

use crate::parts::{ReadParts, ReadableParts};
use cbor_de::steps::{no_part, parts};
use cbor_de::{
    Deserialize, Deserializer, Form, Read, ReadTuple, Readable, ReadableTuple, Source, one_part,
};
use cbor_io::error::Result;
use cbor_parts::{AtMostEightParts, FieldKeys, FieldNames, Newtype, Struct, Tuple};

/// A variant: `()` of no part, [`Newtype`], [`Tuple`] or [`Struct`].
pub trait Variant: Sized + Drop {
    ghost use Rattle.std.specs.Prelude.{Bool};
    ghost use Rattle.cbor_model.specs.Readable.{Context};
    ghost use Rattle.cbor_io.specs.declared.error.Error.{Error};
    ghost use Rattle.cbor_read.specs.Source.{Asks};
    ghost use Rattle.cbor_decode_as.specs.Enums.{Content};
    ghost use Rattle.cbor_decode_as.specs.declared.variant.Form.{Form};
    ghost use Rattle.cbor_de.specs.Forms.{WrongForms};

    // What a variant's content means.
    ghost means: { Context → Content → Self → Type 0 };

    // By which codes an enum may be refused for the form of this content, and where.
    ghost wrong_forms: { WrongForms };

    // Whether a refusal reports the fault of the bytes, if it reports one: that of the content.
    ghost reports_faults: { Bool };

    // For which content memory may be asked.
    ghost asks_memory: { Asks → Content → Type 0 };

    // How an identifier alone is refused, if it is.
    ghost alone: { Form → Error → Type 0 };

    /// Reads the content of a variant, after its identifier, where it is at hand, without room for an
    /// error. None where it isn't, and for some kinds always; then nothing is taken.
    #[inline(always)]
    fn content_at_hand<R: Source>(de: &mut Deserializer<R>, form: Form) -> Option<Self>
        ensures read { MatchOption result
            (R.source de.new.decoder.source ≡ R.source de.old.decoder.source)
            (λ x. TakesContent R.refusals (formats_of de.old.decoder.formats)
            (means (context de.old.decoder.formats R.lends)) de.old.decoder.levels form
            (R.source de.old.decoder.source) (R.source de.new.decoder.source) (Ok x)) }
        ensures settings { SameSettings de.old.decoder de.new.decoder }
    {
        let _ = de;
        let _ = form;
        None
    }
}

/// A variant that is read from a source.
pub trait ReadVariant<'de, R: Read<'de>>: Variant {
    /// Reads the content of a variant, after its identifier. It may leave fewer levels.
    fn read_content(de: &mut Deserializer<R>, form: Form) -> Result<Self>
        ensures read { TakesContent R.refusals (formats_of de.old.decoder.formats)
            (Self.means (context de.old.decoder.formats R.lends)) de.old.decoder.levels form
            (R.source de.old.decoder.source) (R.source de.new.decoder.source) result }
        ensures form { IfErr result (MayReportContent Self.wrong_forms
            (formats_of de.old.decoder.formats) form (R.source de.old.decoder.source)) }
        ensures fault { IfErr result (OwnContentFault R.refusals Self.reports_faults
            de.old.decoder.levels form (R.source de.old.decoder.source)) }
        ensures memory { IfErr result (MemoryForContent
            (Self.asks_memory (asks_for R.refusals R.lends)) (formats_of de.old.decoder.formats)
            (Self.means (context de.old.decoder.formats R.lends)) de.old.decoder.levels form
            (R.source de.old.decoder.source)) }
        ensures alone { IfErr result (Self.alone form) }
        ensures formats { de.new.decoder.formats ≡ de.old.decoder.formats };
}

impl Variant for () {
    ghost use Rattle.std.specs.Prelude.{true};
    ghost use Rattle.cbor_decode_as.specs.Enums.{IsNothing};
    ghost use Rattle.cbor_de.specs.Forms.{unit_form};
    ghost use Rattle.cbor_described.specs.EnumMemory.{AsksNone};

    ghost means = { λ c content u. IsNothing content u };

    ghost wrong_forms = { unit_form };

    ghost reports_faults = { true };

    ghost asks_memory = { λ a. AsksNone };

    ghost alone = { λ form e. Unit {0} };

    #[inline(always)]
    fn content_at_hand<R: Source>(_de: &mut Deserializer<R>, form: Form) -> Option<()> {
        match form {
            Form::Alone => Some(()),
            _ => None,
        }
    }
}

impl<'de, R: Read<'de>> ReadVariant<'de, R> for () {
    fn read_content(de: &mut Deserializer<R>, form: Form) -> Result<()> {
        no_part(de, form)
    }
}

impl<T: Readable> Variant for Newtype<T> {
    ghost use Rattle.std.specs.Prelude.{codes};
    ghost use Rattle.cbor_decode_as.specs.Enums.{IsPart};
    ghost use Rattle.cbor_decode_as.specs.Variants.{ReportsAlone, alone_text};
    ghost use Rattle.cbor_de.specs.Calls.{reports_any};
    ghost use Rattle.cbor_de.specs.Forms.{any_of, part_form};
    ghost use Rattle.cbor_described.specs.EnumMemory.{AsksForPart};

    ghost means = { λ c content y. IsPart (T.reads c) content y.0 };

    ghost wrong_forms = { any_of part_form T.wrong_forms };

    ghost reports_faults = { reports_any T.passes_over T.total T.reports_faults };

    ghost asks_memory = { λ a. AsksForPart (T.asks_memory a) };

    ghost alone = { ReportsAlone (alone_text (codes "newtype")) };

    #[inline(always)]
    fn content_at_hand<R: Source>(de: &mut Deserializer<R>, form: Form) -> Option<Newtype<T>> {
        match form {
            Form::Map => match T::at_hand(de) {
                Some(part) => Some(Newtype(part)),
                None => None,
            },
            _ => None,
        }
    }
}

impl<'de, R: Read<'de>, T: Deserialize<'de, R>> ReadVariant<'de, R> for Newtype<T> {
    fn read_content(de: &mut Deserializer<R>, form: Form) -> Result<Newtype<T>> {
        match one_part::<R, T>(
            de,
            form,
            "invalid type: unit variant, expected newtype variant",
        ) {
            Ok(part) => Ok(Newtype(part)),
            Err(e) => Err(e),
        }
    }
}

impl<F: ReadableTuple + AtMostEightParts> Variant for Tuple<F> {
    ghost use Rattle.std.specs.Prelude.{codes};
    ghost use Rattle.cbor_decode_as.specs.Enums.{AreParts};
    ghost use Rattle.cbor_decode_as.specs.Variants.{ReportsAlone, alone_text};
    ghost use Rattle.cbor_described.specs.EnumMemory.{AsksForParts};

    ghost means = { λ c content y. AreParts (F.parts c) content y.0 };

    ghost wrong_forms = { F.wrong_forms };

    ghost reports_faults = { F.reports_faults };

    ghost asks_memory = { λ a. AsksForParts };

    ghost alone = { ReportsAlone (alone_text (codes "tuple")) };
}

impl<'de, R: Read<'de>, F: ReadTuple<'de, R> + AtMostEightParts> ReadVariant<'de, R> for Tuple<F> {
    #[tactic(auto, using(cbor_de::proofs::facts::Forms::content_plain))]
    fn read_content(de: &mut Deserializer<R>, form: Form) -> Result<Tuple<F>> {
        let remaining = parts(de, form)?;
        match F::read_tuple(de, remaining) {
            Ok(parts) => Ok(Tuple(parts)),
            Err(e) => Err(e),
        }
    }
}

// The named fields of a variant, as a type that is read.
#[derive(Drop)]
struct NamedParts<N: FieldNames>(N::Parts);

impl<N: FieldNames> Readable for NamedParts<N>
where
    N::Parts: ReadableParts,
{
    ghost reads = { λ c r y. N.Parts.reads (named_keys N.names) c r y.0 };

    ghost wrong_forms = { N.Parts.wrong_forms };

    ghost reports_faults = { N.Parts.reports_faults };

    ghost asks_memory = { N.Parts.asks_memory (named_keys N.names) };
}

impl<'de, R: Read<'de>, N: FieldNames> Deserialize<'de, R> for NamedParts<N>
where
    N::Parts: ReadParts<'de, R>,
{
    fn deserialize(de: &mut Deserializer<R>) -> Result<NamedParts<N>> {
        let keys = FieldKeys {
            names: N::names(),
            labels: None,
        };
        match <N::Parts as ReadParts<'de, R>>::read_parts(de, &keys) {
            Ok(fields) => Ok(NamedParts(fields)),
            Err(e) => Err(e),
        }
    }
}

impl<N: FieldNames> Variant for Struct<N>
where
    N::Parts: ReadableParts,
{
    ghost use Rattle.std.specs.Prelude.{codes};
    ghost use Rattle.cbor_decode_as.specs.Enums.{IsPart};
    ghost use Rattle.cbor_decode_as.specs.Variants.{ReportsAlone, alone_text};
    ghost use Rattle.cbor_de.specs.Forms.{any_of, part_form};
    ghost use Rattle.cbor_described.specs.EnumMemory.{AsksForPart};

    ghost means = { λ c content y. IsPart (N.Parts.reads (named_keys N.names) c) content y.0 };

    ghost wrong_forms = { any_of part_form N.Parts.wrong_forms };

    ghost reports_faults = { N.Parts.reports_faults };

    ghost asks_memory = { λ a. AsksForPart (N.Parts.asks_memory (named_keys N.names) a) };

    ghost alone = { ReportsAlone (alone_text (codes "struct")) };
}

impl<'de, R: Read<'de>, N: FieldNames> ReadVariant<'de, R> for Struct<N>
where
    N::Parts: ReadParts<'de, R>,
{
    fn read_content(de: &mut Deserializer<R>, form: Form) -> Result<Struct<N>> {
        match one_part::<R, NamedParts<N>>(
            de,
            form,
            "invalid type: unit variant, expected struct variant",
        ) {
            Ok(named) => Ok(Struct(named.0)),
            Err(e) => Err(e),
        }
    }
}

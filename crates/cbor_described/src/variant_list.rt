//! Lists of variants, of which enums are read.

ghost use Rattle.std.specs.Prelude.{◌≡◌, IfErr, MatchOption, Ok, OnOk};
ghost use Rattle.cbor_read.specs.Source.{asks_for};
ghost use Rattle.cbor_decode.specs.Decoder.{SameSettings};
ghost use Rattle.cbor_decode_as.specs.Enums.{IsEnum};
ghost use Rattle.cbor_decode_as.specs.Identifiers.{texts};
ghost use Rattle.cbor_decode_as.specs.Takes.{context, formats_of};
ghost use Rattle.cbor_decode_as.specs.Variants.{TakesContent};
ghost use Rattle.cbor_model.specs.Readable.{PassesTags};
ghost use Rattle.cbor_de.specs.Forms.{MayReportContent, any_of, enum_form};
ghost use Rattle.cbor_de.specs.Calls as call;
ghost use Rattle.cbor_described.specs.Contents.{OwnContentFault};
ghost use Rattle.cbor_described.specs.EnumMemory.{AsksForEnum, MemoryForContent};

use crate::variant::{ReadVariant, Variant};
use cbor_de::steps::{gather_variant, leave_to, variant_at_hand, variant_head};
use cbor_de::{Deserializer, Form, Read, Source};
use cbor_io::error::{Error, Result};

/// The first variant of an enum, or one of the others: the variants as a list, by which they are
/// read, and by which what is said of each is said of all.
#[derive(Drop)]
pub enum OneOf<V, Vs> {
    This(V),
    Other(Vs),
}

/// No variant, which ends a list of variants.
#[derive(Drop)]
pub enum Never {}

// The variants of an enum: `Never`, or `OneOf` a variant and the list of the others.
pub(crate) trait VariantList: Sized + Drop {
    ghost use Rattle.std.specs.Prelude.{ℕ, Bool};
    ghost use Rattle.cbor_model.specs.Readable.{Context};
    ghost use Rattle.cbor_read.specs.Source.{Asks};
    ghost use Rattle.cbor_decode_as.specs.Enums.{Content};
    ghost use Rattle.cbor_de.specs.Forms.{WrongForms};

    // What the content of the variant in this place means.
    ghost means: { Context → ℕ → Content → Self → Type 0 };

    // By which codes an enum may be refused for the form of the content of one of them, and where.
    ghost wrong_forms: { WrongForms };

    // Whether the refusals of each report the faults of the bytes.
    ghost reports_faults: { Bool };

    // For which content memory may be asked, of the variant in each place.
    ghost asks_memory: { Asks → ℕ → Content → Type 0 };

    // Reads the content of the i-th variant where it is at hand, without room for an error. Else
    // nothing is taken.
    fn variant_at_hand<R: Source>(de: &mut Deserializer<R>, form: Form, i: usize) -> Option<Self>
        ensures read { MatchOption result
            (R.source de.new.decoder.source ≡ R.source de.old.decoder.source)
            (λ x. TakesContent R.refusals (formats_of de.old.decoder.formats)
            (means (context de.old.decoder.formats R.lends) i) de.old.decoder.levels form
            (R.source de.old.decoder.source) (R.source de.new.decoder.source) (Ok x)) }
        ensures settings { SameSettings de.old.decoder de.new.decoder };
}

// The variants of an enum, which are read from a source.
pub(crate) trait ReadVariants<'de, R: Read<'de>>: VariantList {
    // Reads the content of the i-th variant. It may leave fewer levels.
    fn read_variant(de: &mut Deserializer<R>, form: Form, i: usize) -> Result<Self>
        ensures read { TakesContent R.refusals (formats_of de.old.decoder.formats)
            (Self.means (context de.old.decoder.formats R.lends) i) de.old.decoder.levels form
            (R.source de.old.decoder.source) (R.source de.new.decoder.source) result }
        ensures form { IfErr result (MayReportContent Self.wrong_forms
            (formats_of de.old.decoder.formats) form (R.source de.old.decoder.source)) }
        ensures fault { IfErr result (OwnContentFault R.refusals Self.reports_faults
            de.old.decoder.levels form (R.source de.old.decoder.source)) }
        ensures memory { IfErr result (MemoryForContent
            (Self.asks_memory (asks_for R.refusals R.lends) i) (formats_of de.old.decoder.formats)
            (Self.means (context de.old.decoder.formats R.lends) i) de.old.decoder.levels form
            (R.source de.old.decoder.source)) }
        ensures formats { de.new.decoder.formats ≡ de.old.decoder.formats };
}

impl VariantList for Never {
    ghost use Rattle.std.specs.Prelude.{true};
    ghost use Rattle.cbor_de.specs.Forms.{never};
    ghost use Rattle.cbor_described.specs.EnumMemory.{asks_no_variant};

    ghost means = { λ c i content x. ⊥ };

    ghost wrong_forms = { never };

    ghost reports_faults = { true };

    ghost asks_memory = { λ a. asks_no_variant };

    #[inline(always)]
    fn variant_at_hand<R: Source>(
        _de: &mut Deserializer<R>,
        _form: Form,
        _i: usize,
    ) -> Option<Never> {
        None
    }
}

impl<'de, R: Read<'de>> ReadVariants<'de, R> for Never {
    fn read_variant(de: &mut Deserializer<R>, _form: Form, _i: usize) -> Result<Never> {
        Err(Error::message(de.alloc(), "unknown variant"))
    }
}

impl<V: Variant, Vs: VariantList> VariantList for OneOf<V, Vs> {
    ghost use Rattle.cbor_de.specs.Calls.{and_reports};
    ghost use Rattle.cbor_de.specs.Forms.{any_of};
    ghost use Rattle.cbor_described.specs.EnumMemory.{asks_either};
    ghost use Rattle.cbor_described.specs.OneOfs.{either};

    ghost means = { λ c. either (V.means c) (Vs.means c) };

    ghost wrong_forms = { any_of V.wrong_forms Vs.wrong_forms };

    ghost reports_faults = { and_reports V.reports_faults Vs.reports_faults };

    ghost asks_memory = { λ a. asks_either (V.asks_memory a) (Vs.asks_memory a) };

    #[inline(always)]
    fn variant_at_hand<R: Source>(
        de: &mut Deserializer<R>,
        form: Form,
        i: usize,
    ) -> Option<OneOf<V, Vs>> {
        if i != 0 {
            return match Vs::variant_at_hand(de, form, i - 1) {
                Some(other) => Some(OneOf::Other(other)),
                None => None,
            };
        }
        match V::content_at_hand(de, form) {
            Some(this) => Some(OneOf::This(this)),
            None => None,
        }
    }
}

impl<'de, R: Read<'de>, V: ReadVariant<'de, R>, Vs: ReadVariants<'de, R>> ReadVariants<'de, R>
    for OneOf<V, Vs> {
    fn read_variant(de: &mut Deserializer<R>, form: Form, i: usize) -> Result<OneOf<V, Vs>> {
        if i != 0 {
            return match Vs::read_variant(de, form, i - 1) {
                Ok(other) => Ok(OneOf::Other(other)),
                Err(e) => Err(e),
            };
        }
        match V::read_content(de, form) {
            Ok(this) => Ok(OneOf::This(this)),
            Err(e) => Err(e),
        }
    }
}

// Reads an enum of these variants, by their names or their numbers.
pub(crate) fn read_variants<'de, R: Read<'de>, E: ReadVariants<'de, R>>(
    de: &mut Deserializer<R>,
    names: &[&str],
) -> Result<E>
    ensures read { call.TakesItem R.source R.refusals
        (PassesTags (IsEnum (formats_of de.old.decoder.formats) (texts names.now)
        (E.means (context de.old.decoder.formats R.lends)))) de.old de.new result }
    ensures taken { OnOk result (call.Advances R.source de.old de.new) }
    ensures form { IfErr result (call.MayReport R.source (any_of enum_form E.wrong_forms) de.old) }
    ensures fault { IfErr result (call.OwnFault R.source R.refusals E.reports_faults de.old) }
    ensures memory { IfErr result (call.MemoryFor R.source
        (AsksForEnum (texts names.now) (asks_for R.refusals R.lends)
        (E.asks_memory (asks_for R.refusals R.lends)))
        (PassesTags (IsEnum (formats_of de.old.decoder.formats) (texts names.now)
        (E.means (context de.old.decoder.formats R.lends)))) de.old) }
    ensures settings { SameSettings de.old.decoder de.new.decoder }
{
    let outer = de.levels_left();
    let read = variants_gathered::<R, E>(de, names);
    leave_to(de, outer);
    read
}

// Reads the variant, once its source was asked to bring its beginning to hand, and leaves any number
// of levels.
#[inline(always)]
fn variants_gathered<'de, R: Read<'de>, E: ReadVariants<'de, R>>(
    de: &mut Deserializer<R>,
    names: &[&str],
) -> Result<E>
    ensures read { call.TakesItem R.source R.refusals
        (PassesTags (IsEnum (formats_of de.old.decoder.formats) (texts names.now)
        (E.means (context de.old.decoder.formats R.lends)))) de.old de.new result }
    ensures taken { OnOk result (call.Advances R.source de.old de.new) }
    ensures form { IfErr result (call.MayReport R.source (any_of enum_form E.wrong_forms) de.old) }
    ensures fault { IfErr result (call.OwnFault R.source R.refusals E.reports_faults de.old) }
    ensures memory { IfErr result (call.MemoryFor R.source
        (AsksForEnum (texts names.now) (asks_for R.refusals R.lends)
        (E.asks_memory (asks_for R.refusals R.lends)))
        (PassesTags (IsEnum (formats_of de.old.decoder.formats) (texts names.now)
        (E.means (context de.old.decoder.formats R.lends)))) de.old) }
    ensures formats { de.new.decoder.formats ≡ de.old.decoder.formats }
{
    gather_variant(de);
    variants_within::<R, E>(de, names)
}

// Reads the variant, and leaves any number of levels.
#[inline(always)]
fn variants_within<'de, R: Read<'de>, E: ReadVariants<'de, R>>(
    de: &mut Deserializer<R>,
    names: &[&str],
) -> Result<E>
    ensures read { call.TakesItem R.source R.refusals
        (PassesTags (IsEnum (formats_of de.old.decoder.formats) (texts names.now)
        (E.means (context de.old.decoder.formats R.lends)))) de.old de.new result }
    ensures taken { OnOk result (call.Advances R.source de.old de.new) }
    ensures form { IfErr result (call.MayReport R.source (any_of enum_form E.wrong_forms) de.old) }
    ensures fault { IfErr result (call.OwnFault R.source R.refusals E.reports_faults de.old) }
    ensures memory { IfErr result (call.MemoryFor R.source
        (AsksForEnum (texts names.now) (asks_for R.refusals R.lends)
        (E.asks_memory (asks_for R.refusals R.lends)))
        (PassesTags (IsEnum (formats_of de.old.decoder.formats) (texts names.now)
        (E.means (context de.old.decoder.formats R.lends)))) de.old) }
    ensures formats { de.new.decoder.formats ≡ de.old.decoder.formats }
{
    match variant_at_hand(de, names) {
        Some((index, form)) => content::<R, E>(de, form, index),
        None => variants_slow::<R, E>(de, names),
    }
}

// Reads the content of the i-th variant. It may leave fewer levels.
#[inline(always)]
fn content<'de, R: Read<'de>, E: ReadVariants<'de, R>>(
    de: &mut Deserializer<R>,
    form: Form,
    i: usize,
) -> Result<E>
    ensures read { TakesContent R.refusals (formats_of de.old.decoder.formats)
        (E.means (context de.old.decoder.formats R.lends) i) de.old.decoder.levels form
        (R.source de.old.decoder.source) (R.source de.new.decoder.source) result }
    ensures form { IfErr result (MayReportContent E.wrong_forms
        (formats_of de.old.decoder.formats) form (R.source de.old.decoder.source)) }
    ensures fault { IfErr result (OwnContentFault R.refusals E.reports_faults
        de.old.decoder.levels form (R.source de.old.decoder.source)) }
    ensures memory { IfErr result (MemoryForContent
        (E.asks_memory (asks_for R.refusals R.lends) i) (formats_of de.old.decoder.formats)
        (E.means (context de.old.decoder.formats R.lends) i) de.old.decoder.levels form
        (R.source de.old.decoder.source)) }
    ensures formats { de.new.decoder.formats ≡ de.old.decoder.formats }
{
    match E::variant_at_hand(de, form, i) {
        Some(read) => Ok(read),
        None => E::read_variant(de, form, i),
    }
}

// Reads the variant where its head isn't at hand.
#[inline(never)]
fn variants_slow<'de, R: Read<'de>, E: ReadVariants<'de, R>>(
    de: &mut Deserializer<R>,
    names: &[&str],
) -> Result<E>
    ensures read { call.TakesItem R.source R.refusals
        (PassesTags (IsEnum (formats_of de.old.decoder.formats) (texts names.now)
        (E.means (context de.old.decoder.formats R.lends)))) de.old de.new result }
    ensures taken { OnOk result (call.Advances R.source de.old de.new) }
    ensures form { IfErr result (call.MayReport R.source (any_of enum_form E.wrong_forms) de.old) }
    ensures fault { IfErr result (call.OwnFault R.source R.refusals E.reports_faults de.old) }
    ensures memory { IfErr result (call.MemoryFor R.source
        (AsksForEnum (texts names.now) (asks_for R.refusals R.lends)
        (E.asks_memory (asks_for R.refusals R.lends)))
        (PassesTags (IsEnum (formats_of de.old.decoder.formats) (texts names.now)
        (E.means (context de.old.decoder.formats R.lends)))) de.old) }
    ensures formats { de.new.decoder.formats ≡ de.old.decoder.formats }
{
    let (index, form) = variant_head(de, names)?;
    E::read_variant(de, form, index)
}

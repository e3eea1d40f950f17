//! Enums, of which an item names the variant and holds its content.

ghost use Rattle.std.specs.Prelude.{◌≡◌, ◌<◌, codes, length};
ghost use Rattle.std.specs.Prelude.{IfOk, IfErr};
ghost use Rattle.std.specs.Borrow.{sem, RestsIfErr};
ghost use Rattle.cbor_io.specs.Error.{code_of};
ghost use Rattle.cbor_read.specs.Source.{asks_for};
ghost use Rattle.cbor_decode.specs.Decoder.{SameSettings};
ghost use Rattle.cbor_decode.specs.Gives.{ReportsNoForm};
ghost use Rattle.cbor_io.specs.declared.error.ErrorCode.TheVariants.{ArrayTooLong};
ghost use Rattle.cbor_decode_as.specs.Cases.{FormAlone, IsEnumCode, HasCase};
ghost use Rattle.cbor_decode_as.specs.Cases.{enum_cases, unit_cases, ReportsTooShort};
ghost use Rattle.cbor_decode_as.specs.Enums.{IsNothing, IsPart};
ghost use Rattle.cbor_decode_as.specs.Identifiers.{texts};
ghost use Rattle.cbor_decode_as.specs.Strings.{IsAskedString};
ghost use Rattle.cbor_decode_as.specs.Takes.{context, formats_of};
ghost use Rattle.cbor_decode_as.specs.Variants.{IsInside};
ghost use Rattle.cbor_decode_as.specs.Variants.{ReportsAlone, alone_text};
ghost use Rattle.cbor_decode_as.specs.declared.variant.Form.TheVariants.{Array};
ghost use Rattle.cbor_de.specs.Forms.{MayReportPart};
ghost use Rattle.cbor_de.specs.contracts.de.Deserializer.{the_row};
ghost use Rattle.cbor_de.specs.Access as access;
ghost use Rattle.cbor_de.specs.Calls as call;

use crate::de::Deserializer;
use crate::deserialize::Deserialize;
use crate::sequence::SeqAccess;
use cbor_decode::{Collection, Remaining};
use cbor_decode_as::collection;
use cbor_decode_as::content::{expect_item, no_part, parts};
use cbor_decode_as::variant::{Form, variant_head};
use cbor_io::error::{Error, ErrorCode, Result};
use cbor_read::{Read, Source};

impl<'de, R: Read<'de>> Deserializer<R> {
    /// Takes an enum up to its identifier: the tags, the head of an array or of a map of one pair,
    /// and the identifier, a number or a name.
    ///
    /// It is refused with `WrongEnumFormat`, before the first byte after the tags, where that form
    /// isn't read; with `ArrayTooShort` where an array has no identifier; with `unknown variant`
    /// where no name is of the identifier, and with `invalid type: expected a variant name` where
    /// another item stands in its place; with `UnassignedCode` at 9c to 9e, which begin no item,
    /// and with `WrongStructFormat` where the map's key may not begin as it does. What follows the
    /// identifier isn't looked at: it is for the call that ends the access to refuse.
    ///
    /// ```rust
    /// let mut de = Deserializer::from_slice(alloc, b"\xa1\x66Number\x18\x2a");
    /// let access = de.variant(&["Empty", "Number"])?;
    /// assert_eq!(rt; access.index(), 1);
    /// assert_eq!(rt; access.newtype::<u8>()?, 42);
    /// ```
    pub fn variant<'a>(&'a mut self, names: &[&str]) -> Result<VariantAccess<'a, R>>
        ensures* rests { sem 𝓛 (RestsIfErr (the_row R.row) self.entry (λ v. v.de.ghost_name) result
            (λ last. access.Rests R.source self.old.decoder.levels self.old last)) }
        ensures same_reference { IfOk result (λ v. v.de.ghost_name ≡ self.entry.ghost_name) }
        ensures head { IfOk result
            (λ v. access.OpensVariant R.source (texts names.now) self.old v.de.now v.index v.form) }
        ensures refused { IfErr result
            (access.RefusesVariant R.source R.refusals (texts names.now) self.old) }
        // The enum up to its identifier, whatever follows it.
        ensures opened { IfOk result
            (λ v. access.BeginsVariant R.source (texts names.now) self.old v.de.now v.index
            v.form) }
        ensures unopened { IfErr result
            (access.RefusesVariantHead R.source R.refusals (texts names.now) self.old) }
        ensures cases { IfErr result (λ e. HasCase (R.source self.old.decoder.source) e
            (enum_cases (formats_of self.old.decoder.formats)
            self.old.decoder.levels)) }
        ensures fault { IfErr result (access.VariantFault R.source R.refusals self.old) }
        ensures memory { IfErr result (access.MemoryForVariant R.source
            (IsAskedString (asks_for R.refusals R.lends)) (texts names.now) self.old) }
        ensures code { IfErr result (λ e. IsEnumCode (code_of e)) }
        ensures below { IfOk result (λ v. v.index < length names.now) }
        ensures taken { IfOk result (λ v. call.Advances R.source self.old v.de.now) }
        ensures outer { IfOk result (λ v. v.outer ≡ self.old.decoder.levels) }
        ensures inside { IfOk result (λ v. IsInside v.form v.de.now.decoder.levels v.outer) }
        ensures formats { IfOk result (λ v. v.de.now.decoder.formats ≡ self.old.decoder.formats) }
    {
        let outer = self.decoder.levels;
        let (index, form) = variant_head(&mut self.decoder, names)?;
        Ok(VariantAccess {
            de: self,
            index,
            form,
            outer,
        })
    }

    // Reads the only item of an array that remains.
    #[tactic(auto, using(cbor_decode_as::proofs::facts::Places::too_short_first, cbor_decode_as::proofs::facts::Places::too_short_later, crate::proofs::refusals::Forms::part_plain))]
    fn only_item<T: Deserialize<'de, R>>(&mut self, mut remaining: Remaining) -> Result<T>
        ensures read { access.TakesContent R.source R.refusals
            (IsPart (T.reads (context self.old.decoder.formats R.lends))) (Array remaining)
            self.old self.new result }
        ensures fault { IfErr result (access.PartFault R.source R.refusals
            T.passes_over T.total T.reports_faults
            (T.reads (context self.old.decoder.formats R.lends)) (Array remaining) self.old) }
        ensures memory { IfErr result (access.MemoryForPart R.source
            (T.asks_memory (asks_for R.refusals R.lends))
            (T.reads (context self.old.decoder.formats R.lends)) (Array remaining) self.old) }
        ensures form { IfErr result (MayReportPart T.wrong_forms
            (formats_of self.old.decoder.formats) (Array remaining)
            (R.source self.old.decoder.source)) }
        ensures too_short { IfErr result (ReportsTooShort R.refusals (Array remaining)
            (R.source self.old.decoder.source)) }
        ensures settings { SameSettings self.old.decoder self.new.decoder }
    {
        expect_item(&mut self.decoder, &mut remaining, ErrorCode::ArrayTooShort)?;
        let item = T::deserialize(self)?;
        collection::end(&mut self.decoder, remaining, Collection::Array)?;
        Ok(item)
    }
}

/// Reads the content of a variant of one part, after its identifier. An identifier alone is refused
/// with this text, and an array in which nothing follows it with `ArrayTooShort`.
#[tactic(auto, using(crate::proofs::refusals::Forms::part_plain))]
pub fn one_part<'de, R: Read<'de>, T: Deserialize<'de, R>>(
    de: &mut Deserializer<R>,
    form: Form,
    alone: &str,
) -> Result<T>
    ensures read { access.TakesContent R.source R.refusals
        (IsPart (T.reads (context de.old.decoder.formats R.lends))) form de.old de.new result }
    ensures fault { IfErr result (access.PartFault R.source R.refusals
        T.passes_over T.total T.reports_faults
        (T.reads (context de.old.decoder.formats R.lends)) form de.old) }
    ensures memory { IfErr result (access.MemoryForPart R.source
        (T.asks_memory (asks_for R.refusals R.lends))
        (T.reads (context de.old.decoder.formats R.lends)) form de.old) }
    ensures alone { IfErr result (ReportsAlone alone.now form) }
    ensures form { IfErr result (MayReportPart T.wrong_forms
        (formats_of de.old.decoder.formats) form (R.source de.old.decoder.source)) }
    ensures too_short { IfErr result (ReportsTooShort R.refusals form
        (R.source de.old.decoder.source)) }
    ensures settings { SameSettings de.old.decoder de.new.decoder }
{
    match form {
        Form::Array(remaining) => de.only_item::<T>(remaining),
        Form::Map => T::deserialize(de),
        Form::Alone => Err(Error::message(de.decoder.alloc, alone)),
    }
}

/// An enum whose identifier was read, and whose content is still to be read.
///
/// It holds the levels that the enum took. Each call on it but [`index`](VariantAccess::index) ends
/// it and leaves those levels, Ok or Err; but [`tuple`](VariantAccess::tuple), where it returns Ok,
/// hands them on.
#[derive(Drop)]
pub struct VariantAccess<'a, R> {
    // What reads the content.
    pub(crate) de: &'a mut Deserializer<R>,
    // The variant's place among the names.
    pub(crate) index: usize,
    // How the enum is written.
    pub(crate) form: Form,
    // How many levels were left before the enum.
    pub(crate) outer: u64,
}

impl<'a, R: Source> VariantAccess<'a, R> {
    /// The variant's place among the names.
    ///
    /// ```rust
    /// let mut de = Deserializer::from_slice(alloc, b"\x65Right");
    /// let variant = de.variant(&["Left", "Right"])?;
    /// assert_eq!(rt; variant.index(), 1);
    /// variant.unit()?;
    /// ```
    pub fn index(&self) -> usize
        ensures { result ≡ self.now.index }
    {
        self.index
    }

    /// Reads the content of a variant of no part: nothing, or null or undefined where the enum is
    /// an array or a map.
    ///
    /// An array in which nothing follows the identifier is refused with `ArrayTooLong`.
    pub fn unit<'de>(self) -> Result<()>
    where
        R: Read<'de>,
        ensures read { access.TakesContent R.source R.refusals IsNothing self.entry.form
            self.entry.de.now self.exit.0.now result }
        ensures cases { IfErr result (λ e. HasCase (R.source self.entry.de.now.decoder.source) e
            (unit_cases self.entry.form)) }
        ensures fault { IfErr result
            (access.ContentFault R.source R.refusals self.entry.form self.entry.de.now) }
        ensures memory { IfErr result
            (access.MemoryForNull R.source self.entry.form self.entry.de.now) }
        ensures code { IfErr result (λ e. FormAlone ArrayTooLong (code_of e)) }
        ensures settings { call.BackTo self.entry.outer self.entry.de.now self.exit.0.now }
    {
        let VariantAccess {
            de,
            index: _,
            form,
            outer,
        } = self;
        let read = no_part(&mut de.decoder, form);
        de.decoder.levels = outer;
        read
    }

    /// Reads the content of a variant of one part.
    ///
    /// An array in which nothing follows the identifier is refused with `ArrayTooShort`, and an
    /// identifier alone with `invalid type: unit variant, expected newtype variant`.
    ///
    /// ```rust
    /// let mut de = Deserializer::from_slice(alloc, b"\xa1\x63Dot\x07");
    /// let variant = de.variant(&["Dot"])?;
    /// assert_eq!(rt; variant.newtype::<u8>()?, 7);
    /// ```
    pub fn newtype<'de, T: Deserialize<'de, R>>(self) -> Result<T>
    where
        R: Read<'de>,
        ensures read { access.TakesContent R.source R.refusals
            (IsPart (T.reads (context self.entry.de.now.decoder.formats R.lends))) self.entry.form
            self.entry.de.now self.exit.0.now result }
        ensures alone { IfErr result
            (ReportsAlone (alone_text (codes "newtype")) self.entry.form) }
        ensures fault { IfErr result (access.PartFault R.source R.refusals
            T.passes_over T.total T.reports_faults
            (T.reads (context self.entry.de.now.decoder.formats R.lends)) self.entry.form
            self.entry.de.now) }
        ensures memory { IfErr result (access.MemoryForPart R.source
            (T.asks_memory (asks_for R.refusals R.lends))
            (T.reads (context self.entry.de.now.decoder.formats R.lends)) self.entry.form
            self.entry.de.now) }
        // That nothing follows the identifier is reported there alone.
        ensures form { IfErr result (MayReportPart T.wrong_forms
            (formats_of self.entry.de.now.decoder.formats) self.entry.form
            (R.source self.entry.de.now.decoder.source)) }
        ensures too_short { IfErr result (ReportsTooShort R.refusals self.entry.form
            (R.source self.entry.de.now.decoder.source)) }
        ensures settings { call.BackTo self.entry.outer self.entry.de.now self.exit.0.now }
    {
        let VariantAccess {
            de,
            index: _,
            form,
            outer,
        } = self;
        let text = "invalid type: unit variant, expected newtype variant";
        let read = one_part::<R, T>(de, form, text);
        de.decoder.levels = outer;
        read
    }

    /// Reads the content of a variant of named fields, as the struct of these fields.
    ///
    /// `T` reads the map of the fields, by [`Deserializer::structure`]: of names or of numbers, in
    /// any order. It refuses what isn't such a map. An array in which nothing follows the
    /// identifier is refused with `ArrayTooShort`, and an identifier alone with
    /// `invalid type: unit variant, expected struct variant`.
    ///
    /// ```rust
    /// let mut de = Deserializer::from_slice(alloc, b"\xa1\x62At\xa1\x61x\x05");
    /// let variant = de.variant(&["At"])?;
    /// // A type of one's own has a struct of these fields in place of the map.
    /// let fields: BTreeMap<String, u8> = variant.structure()?;
    /// assert_eq!(rt; fields.len(), 1);
    /// ```
    pub fn structure<'de, T: Deserialize<'de, R>>(self) -> Result<T>
    where
        R: Read<'de>,
        ensures read { access.TakesContent R.source R.refusals
            (IsPart (T.reads (context self.entry.de.now.decoder.formats R.lends))) self.entry.form
            self.entry.de.now self.exit.0.now result }
        ensures alone { IfErr result
            (ReportsAlone (alone_text (codes "struct")) self.entry.form) }
        ensures fault { IfErr result (access.PartFault R.source R.refusals
            T.passes_over T.total T.reports_faults
            (T.reads (context self.entry.de.now.decoder.formats R.lends)) self.entry.form
            self.entry.de.now) }
        ensures memory { IfErr result (access.MemoryForPart R.source
            (T.asks_memory (asks_for R.refusals R.lends))
            (T.reads (context self.entry.de.now.decoder.formats R.lends)) self.entry.form
            self.entry.de.now) }
        // That nothing follows the identifier is reported there alone.
        ensures form { IfErr result (MayReportPart T.wrong_forms
            (formats_of self.entry.de.now.decoder.formats) self.entry.form
            (R.source self.entry.de.now.decoder.source)) }
        ensures too_short { IfErr result (ReportsTooShort R.refusals self.entry.form
            (R.source self.entry.de.now.decoder.source)) }
        ensures settings { call.BackTo self.entry.outer self.entry.de.now self.exit.0.now }
    {
        let VariantAccess {
            de,
            index: _,
            form,
            outer,
        } = self;
        let text = "invalid type: unit variant, expected struct variant";
        let read = one_part::<R, T>(de, form, text);
        de.decoder.levels = outer;
        read
    }

    /// Goes on to the parts of a variant of several.
    ///
    /// An identifier alone is refused with `invalid type: unit variant, expected tuple variant`.
    ///
    /// ```rust
    /// let mut de = Deserializer::from_slice(alloc, b"\xa1\x63Box\x82\x03\x04");
    /// let variant = de.variant(&["Dot", "Box"])?;
    /// let mut parts = variant.tuple()?;
    /// assert_eq!(rt; parts.part::<u8>(0, 2)?, 3);
    /// assert_eq!(rt; parts.part::<u8>(1, 2)?, 4);
    /// parts.end()?;
    /// ```
    pub fn tuple(self) -> Result<SeqAccess<'a, R>>
        // The levels are those that `variant` left.
        requires { IsInside self.form self.de.now.decoder.levels self.outer }
        ensures* rests { sem 𝓛 (RestsIfErr (the_row R.row) self.entry.de (λ s. s.de.ghost_name)
            result (λ last. access.Rests R.source self.entry.outer self.entry.de.now last)) }
        ensures same_reference { IfOk result (λ s. s.de.ghost_name ≡ self.entry.de.ghost_name) }
        ensures head { IfOk result
            (λ s. access.OpensParts R.source self.entry.form self.entry.de.now s.de.now
            s.remaining) }
        ensures refused { IfErr result
            (access.RefusesParts R.source R.refusals self.entry.form self.entry.de.now) }
        // Up to the parts, whatever follows.
        ensures opened { IfOk result
            (λ s. access.BeginsParts R.source self.entry.form self.entry.de.now s.de.now
            s.remaining) }
        ensures unopened { IfErr result
            (access.RefusesPartsHead R.source R.refusals self.entry.form self.entry.de.now) }
        ensures alone { IfErr result
            (ReportsAlone (alone_text (codes "tuple")) self.entry.form) }
        ensures fault { IfErr result
            (access.PartsFault R.source R.refusals self.entry.form self.entry.de.now) }
        ensures memory { IfErr result
            (access.MemoryForParts R.source self.entry.form self.entry.de.now) }
        ensures no_form { IfErr result (λ e. ReportsNoForm (code_of e)) }
        ensures settings { IfOk result
            (λ s. call.Within self.entry.outer s.outer self.entry.de.now s.de.now) }
    {
        let VariantAccess {
            de,
            index: _,
            form,
            outer,
        } = self;
        match parts(&mut de.decoder, form) {
            Ok(remaining) => Ok(SeqAccess {
                de,
                remaining,
                outer,
            }),
            Err(e) => {
                de.decoder.levels = outer;
                Err(e)
            }
        }
    }

    /// Leaves the enum for this error, which it passes on.
    pub fn refuse(self, e: Error) -> Error
        ensures error { result ≡ e }
        ensures source { self.exit.0.now.decoder.source ≡ self.entry.de.now.decoder.source }
        ensures settings { call.BackTo self.entry.outer self.entry.de.now self.exit.0.now }
    {
        let VariantAccess {
            de,
            index: _,
            form: _,
            outer,
        } = self;
        de.decoder.levels = outer;
        e
    }
}

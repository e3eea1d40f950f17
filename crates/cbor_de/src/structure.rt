//! Structs of named fields, which are read from maps (RFC 7049, section 2.1, major type 5).

ghost use Rattle.std.specs.Prelude.{◌≡◌, ◌≢◌, ◌<◌, true, false, length, IfOk, IfErr, IfSome};
ghost use Rattle.std.specs.Prelude.{Some};
ghost use Rattle.std.specs.Option.{is_some};
ghost use Rattle.std.specs.Borrow.{sem, RestsIfErr};
ghost use Rattle.cbor_io.specs.Error.{code_of, offset_of, IsMessageOf};
ghost use Rattle.cbor_io.specs.declared.error.Error.{Error};
ghost use Rattle.cbor_model.specs.Reader.{item_at};
ghost use Rattle.cbor_read.specs.Source.{asks_for};
ghost use Rattle.cbor_decode.specs.HasChunks.{AsksWhere, HasChunks};
ghost use Rattle.cbor_decode.specs.declared.cursor.Remaining.TheVariants.{Counted};
ghost use Rattle.cbor_decode.specs.Gives.{Step, ReportsNoForm};
ghost use Rattle.cbor_decode.specs.declared.head.Head.TheVariants as kind;
ghost use Rattle.cbor_decode_as.specs.Accesses.{size_of};
ghost use Rattle.cbor_io.specs.declared.error.ErrorCode.TheVariants.{OutOfMemory, WrongStructFormat};
ghost use Rattle.cbor_decode_as.specs.Cases.{FormAlone, HasCase, ReportsBadKey, key_cases};
ghost use Rattle.cbor_decode_as.specs.Identifiers.{texts};
ghost use Rattle.cbor_decode_as.specs.Collections.{TakesEndOf};
ghost use Rattle.cbor_decode_as.specs.Strings.{IsAskedString};
ghost use Rattle.cbor_de.specs.Structs.{IsAny, IsField, place_in, missing_text, duplicate_text};
ghost use Rattle.cbor_decode_as.specs.Takes.{IsRead, IsNotRead, Refuses};
ghost use Rattle.cbor_decode_as.specs.Takes.{context, formats_of, raws};
ghost use Rattle.cbor_de.specs.Forms.{key_form};
ghost use Rattle.cbor_de.specs.contracts.de.Deserializer.{the_row};
ghost use Rattle.cbor_de.specs.Access as access;
ghost use Rattle.cbor_de.specs.Calls as call;
ghost use Rattle.cbor_decode.specs.declared.cursor.Collection.TheVariants as of;

use crate::de::Deserializer;
use crate::deserialize::Deserialize;
use crate::field::{Field, duplicate_field, missing_field};
use crate::types::IgnoredAny;
use cbor_decode::{Collection, Remaining};
use cbor_decode_as::collection;
use cbor_decode_as::identifier::unnamed;
use cbor_io::error::{Error, Result};
use cbor_parts::FieldKeys;
use cbor_read::{Read, Source};

impl<R: Source> Deserializer<R> {
    /// Takes the tags and the head of a map, and goes one level in for the fields of a struct with
    /// these names.
    ///
    /// An item of another kind is refused with `invalid type: expected a map`, and a map for which
    /// no level is left with `RecursionLimitExceeded`. What follows the head isn't looked at: it is
    /// for the calls of the access to refuse.
    ///
    /// ```rust
    /// let mut de = Deserializer::from_slice(alloc, b"\xa2\x61x\x05\x61z\x00");
    /// let mut fields = de.structure(&["x", "y"])?;
    /// let mut x: Option<u8> = None;
    /// while let Some(field) = fields.next_field()? {
    ///     match field {
    ///         Field::Known(0) => fields.once("x", &mut x)?,
    ///         _ => fields.skip()?,
    ///     }
    /// }
    /// assert_eq!(rt; fields.required("x", x)?, 5);
    /// fields.end()?;
    /// ```
    pub fn structure<'a>(&'a mut self, names: &'a [&'a str]) -> Result<StructAccess<'a, R>>
        ensures* rests { sem 𝓛 (RestsIfErr (the_row R.row) self.entry (λ m. m.de.ghost_name) result
            (λ last. access.Rests R.source self.old.decoder.levels self.old last)) }
        ensures same_reference { IfOk result (λ m.
            m.de.ghost_name ≡ self.entry.ghost_name) }
        ensures head { IfOk result (λ m. access.Opens R.source of.Map self.old m.de.now m.remaining) }
        ensures refused { IfErr result (access.RefusesOpening R.source of.Map R.refusals self.old) }
        // The head alone, whatever follows it.
        ensures opened { IfOk result
            (λ m. access.Begins R.source kind.Map self.old m.de.now m.remaining) }
        ensures unopened { IfErr result
            (access.RefusesBeginning R.source R.refusals kind.Map self.old) }
        ensures fault { IfErr result
            (access.BeginningFault R.source R.refusals kind.Map self.old) }
        ensures no_form { IfErr result (λ e. ReportsNoForm (code_of e)) }
        ensures memory { IfErr result (access.MemoryForOther R.source kind.Map self.old) }
        ensures taken { IfOk result (λ m. call.Advances R.source self.old m.de.now) }
        ensures settings { IfOk result
            (λ m. call.Within self.old.decoder.levels m.outer self.old m.de.now) }
        ensures due { IfOk result (λ m. m.value_due ≡ false) }
        ensures names { IfOk result (λ m. texts m.names.now ≡ texts names.now) }
    {
        let outer = self.decoder.levels;
        let remaining = collection::head(&mut self.decoder, Collection::Map)?;
        Ok(StructAccess {
            de: self,
            remaining,
            outer,
            value_due: false,
            names,
        })
    }
}

/// The fields of a struct that are still to be read, each a key that names it and its value.
///
/// It holds the level that the map took. [`end`](StructAccess::end),
/// [`missing`](StructAccess::missing), [`duplicate`](StructAccess::duplicate),
/// [`refuse`](StructAccess::refuse) and each call that returns Err leave that level. After an Err
/// no call follows.
///
/// ```rust
/// let mut de = Deserializer::new(alloc, SliceRead::new(alloc, b"\xa2\x61b\xf5\x00\x0a"));
/// let mut fields = de.structure(&["a", "b"])?;
/// assert_eq!(rt; fields.next_field()?, Some(Field::Known(1)));
/// assert!(rt; fields.value::<bool>()?);
/// assert_eq!(rt; fields.next_field()?, Some(Field::Known(0)));
/// fields.skip()?;
/// assert_eq!(rt; fields.next_field()?, None);
/// fields.end()?;
/// ```
#[derive(Drop)]
pub struct StructAccess<'a, R> {
    // What reads the keys and the values.
    pub(crate) de: &'a mut Deserializer<R>,
    // What remains of the map, after the pair that was begun.
    pub(crate) remaining: Remaining,
    // How many levels were left before the map.
    pub(crate) outer: u64,
    // Whether a field was named whose value wasn't read.
    pub(crate) value_due: bool,
    // The names of the fields, in the order of their numbers.
    pub(crate) names: &'a [&'a str],
}

impl<'a, R: Source> StructAccess<'a, R> {
    /// Reads the field that the next key names; None where the map's last pair was read.
    ///
    /// A number from 0 is the place of a field, and a text or a byte string its name. A key of
    /// another kind is refused with `invalid type: expected a field name`, a key of a format that
    /// isn't read with `WrongStructFormat`, and a map of indefinite length that has no end with
    /// `EofWhileParsingMap`.
    #[inline(always)]
    pub fn next_field<'de>(&mut self) -> Result<Option<Field>>
    where
        R: Read<'de>,
        // The access is live: no call on it has answered Err.
        requires live { self.old.de.now.decoder.levels < self.old.outer }
        requires due { self.old.value_due ≡ false }
        ensures same_reference { self.new.de.ghost_name ≡ self.old.de.ghost_name }
        ensures read { access.TakesKey R.source R.refusals (IsField (texts self.old.names.now))
            self.old.remaining self.new.remaining self.old.de.now self.new.de.now result }
        // Memory is asked for a name alone, to hand it out or to join its chunks.
        ensures memory { IfErr result (access.MemoryForKey R.source
            (IsAskedString (asks_for R.refusals R.lends)) (IsField (texts self.old.names.now))
            self.old.remaining self.old.de.now) }
        ensures fault { IfErr result (access.NameFault R.source R.refusals self.old.remaining
            self.old.de.now) }
        ensures below { IfOk result (λ next. IfSome next (λ field.
            IfSome (place_in field) (λ i. i < length self.old.names.now))) }
        // Nothing remains after the last pair, and a loop over the fields ends.
        ensures remains { IfOk result
            (access.Ends R.source self.old.remaining self.new.remaining self.old.de.now
            self.new.de.now) }
        ensures cases { IfErr result (λ e. HasCase (R.source self.old.de.now.decoder.source) e
            (key_cases (formats_of self.old.de.now.decoder.formats) self.old.remaining)) }
        ensures code { IfErr result (λ e. FormAlone WrongStructFormat (code_of e)) }
        // The other way: that key is reported.
        ensures bad_key { IfErr result (ReportsBadKey R.refusals
            (formats_of self.old.de.now.decoder.formats) self.old.remaining
            (R.source self.old.de.now.decoder.source)) }
        ensures due { IfOk result (λ next. self.new.value_due ≡ is_some next) }
        ensures settings { call.StaysInside self.old.outer self.old.de.now self.new.de.now result }
        ensures outer { self.new.outer ≡ self.old.outer }
        ensures names { self.new.names ≡ self.old.names }
    {
        let keys = FieldKeys {
            names: self.names,
            labels: None,
        };
        match self.de.next_field(&mut self.remaining, &keys) {
            Ok(next) => {
                self.value_due = next.is_some();
                Ok(next)
            }
            Err(why) => {
                self.de.decoder.levels = self.outer;
                Err(unnamed(
                    &mut self.de.decoder,
                    why,
                    "invalid type: expected a field name",
                ))
            }
        }
    }

    /// Reads the value of the field that was named last. It refuses as the reading of `V` does.
    #[inline(always)]
    pub fn value<'de, V: Deserialize<'de, R>>(&mut self) -> Result<V>
    where
        R: Read<'de>,
        requires live { self.old.de.now.decoder.levels < self.old.outer }
        requires due { self.old.value_due ≡ true }
        ensures same_reference { self.new.de.ghost_name ≡ self.old.de.ghost_name }
        ensures read { call.TakesItem R.source R.refusals
            (V.reads (context self.old.de.now.decoder.formats R.lends))
            self.old.de.now self.new.de.now result }
        ensures memory { IfErr result
            (call.MemoryFor R.source (V.asks_memory (asks_for R.refusals R.lends))
            (V.reads (context self.old.de.now.decoder.formats R.lends)) self.old.de.now) }
        ensures fault { IfErr result (call.ReportsItem R.source R.refusals V.passes_over V.total
            self.old.de.now) }
        ensures own_fault { IfErr result
            (call.OwnFault R.source R.refusals V.reports_faults self.old.de.now) }
        ensures form { IfErr result (call.MayReport R.source V.wrong_forms self.old.de.now) }
        ensures due { IfOk result (λ v. self.new.value_due ≡ false) }
        ensures settings { call.StaysInside self.old.outer self.old.de.now self.new.de.now result }
        ensures outer { self.new.outer ≡ self.old.outer }
        ensures remaining { self.new.remaining ≡ self.old.remaining }
        // A loop over the fields ends.
        ensures remains { IfOk result
            (λ v. access.NoMore R.source self.old.remaining self.new.remaining self.old.de.now
            self.new.de.now) }
        ensures names { self.new.names ≡ self.old.names }
    {
        match V::deserialize(self.de) {
            Ok(value) => {
                self.value_due = false;
                Ok(value)
            }
            Err(e) => {
                self.de.decoder.levels = self.outer;
                Err(e)
            }
        }
    }

    /// Reads the value of the field that was named last into its slot. A slot that has a value is
    /// refused with ``duplicate field `id` ``, and keeps it.
    #[tactic(auto, using(crate::proofs::refusals::Forms::plain))]
    pub fn once<'de, V: Deserialize<'de, R>>(
        &mut self,
        name: &str,
        slot: &mut Option<V>,
    ) -> Result<()>
    where
        R: Read<'de>,
        requires live { self.old.de.now.decoder.levels < self.old.outer }
        requires due { self.old.value_due ≡ true }
        ensures same_reference { self.new.de.ghost_name ≡ self.old.de.ghost_name }
        ensures only_once { IfOk result (λ u. is_some slot.old ≡ false) }
        ensures holds { IfOk result (λ u. is_some slot.new ≡ true) }
        ensures read { IfOk result (λ u. IfSome slot.new (λ v.
            Step (R.source self.old.de.now.decoder.source)
            (R.source self.new.de.now.decoder.source)
            (λ l bs rest. IsRead (V.reads (context self.old.de.now.decoder.formats R.lends))
            (item_at (raws (formats_of self.old.de.now.decoder.formats) l)
            self.old.de.now.decoder.levels bs) v rest))) }
        ensures refused { IfErr result (λ e. Refuses R.refusals
            (R.source self.old.de.now.decoder.source) (R.source self.new.de.now.decoder.source)
            (code_of e) (offset_of e)
            (λ l bs. is_some slot.old ≡ false
            → IsNotRead (V.reads (context self.old.de.now.decoder.formats R.lends))
            (item_at (raws (formats_of self.old.de.now.decoder.formats) l)
            self.old.de.now.decoder.levels bs))) }
        ensures memory { IfErr result (λ e. is_some slot.old ≡ false
            → call.MemoryFor R.source (V.asks_memory (asks_for R.refusals R.lends))
            (V.reads (context self.old.de.now.decoder.formats R.lends)) self.old.de.now e) }
        ensures fault { IfErr result (λ e. is_some slot.old ≡ false
            → call.ReportsItem R.source R.refusals V.passes_over V.total self.old.de.now e) }
        ensures own_fault { IfErr result (λ e. is_some slot.old ≡ false
            → call.OwnFault R.source R.refusals V.reports_faults self.old.de.now e) }
        ensures form { IfErr result (call.MayReport R.source V.wrong_forms self.old.de.now) }
        ensures text { IfErr result (λ e. is_some slot.old ≡ true →
            IsMessageOf (Some (duplicate_text name.now)) (code_of e)) }
        ensures offset { IfErr result (λ e. is_some slot.old ≡ true → offset_of e ≡ 0) }
        ensures kept { IfErr result (λ e. slot.new ≡ slot.old) }
        ensures due { IfOk result (λ u. self.new.value_due ≡ false) }
        ensures settings { call.StaysInside self.old.outer self.old.de.now self.new.de.now result }
        ensures outer { self.new.outer ≡ self.old.outer }
        ensures remaining { self.new.remaining ≡ self.old.remaining }
        ensures remains { IfOk result
            (λ u. access.NoMore R.source self.old.remaining self.new.remaining self.old.de.now
            self.new.de.now) }
        ensures names { self.new.names ≡ self.old.names }
    {
        if slot.is_some() {
            self.de.decoder.levels = self.outer;
            return Err(duplicate_field(self.de.decoder.alloc, name));
        }
        match V::deserialize(self.de) {
            Ok(value) => {
                self.value_due = false;
                *slot = Some(value);
                Ok(())
            }
            Err(e) => {
                self.de.decoder.levels = self.outer;
                Err(e)
            }
        }
    }

    /// The value of a field's slot, after the map's last pair. A slot that has none is refused
    /// with ``missing field `id` ``, which leaves the map.
    pub fn required<V: Drop>(&mut self, name: &'static str, slot: Option<V>) -> Result<V>
        requires live { self.old.de.now.decoder.levels < self.old.outer }
        requires due { self.old.value_due ≡ false }
        ensures same_reference { self.new.de.ghost_name ≡ self.old.de.ghost_name }
        ensures value { IfOk result (λ v. slot ≡ Some v) }
        ensures absent { IfErr result (λ e. is_some slot ≡ false) }
        ensures text { IfErr result (λ e.
            IsMessageOf (Some (missing_text name.now)) (code_of e)) }
        ensures offset { IfErr result (λ e. offset_of e ≡ 0) }
        ensures source { self.new.de.now.decoder.source ≡ self.old.de.now.decoder.source }
        ensures settings { call.StaysInside self.old.outer self.old.de.now self.new.de.now result }
        ensures due { self.new.value_due ≡ false }
        ensures outer { self.new.outer ≡ self.old.outer }
        ensures remaining { self.new.remaining ≡ self.old.remaining }
        ensures names { self.new.names ≡ self.old.names }
    {
        match slot {
            Some(value) => Ok(value),
            None => {
                self.de.decoder.levels = self.outer;
                Err(missing_field(self.de.decoder.alloc, name))
            }
        }
    }

    /// Passes over the value of the field that was named last, of which nothing is kept. It has to
    /// be acceptable, with keys of the formats that are read.
    #[inline(always)]
    pub fn skip<'de>(&mut self) -> Result<()>
    where
        R: Read<'de>,
        requires live { self.old.de.now.decoder.levels < self.old.outer }
        requires due { self.old.value_due ≡ true }
        ensures same_reference { self.new.de.ghost_name ≡ self.old.de.ghost_name }
        ensures read { call.TakesItem R.source R.refusals IsAny
            self.old.de.now self.new.de.now result }
        ensures memory { IfErr result (call.MemoryFor R.source
            (λ r. AsksWhere (asks_for R.refusals R.lends) (HasChunks r)) IsAny self.old.de.now) }
        // Every item is passed over: what is refused is the first fault there.
        ensures fault { IfErr result (call.ReportsItem R.source R.refusals false true
            self.old.de.now) }
        ensures form { IfErr result (call.MayReport R.source key_form self.old.de.now) }
        ensures due { IfOk result (λ u. self.new.value_due ≡ false) }
        ensures settings { call.StaysInside self.old.outer self.old.de.now self.new.de.now result }
        ensures outer { self.new.outer ≡ self.old.outer }
        ensures remaining { self.new.remaining ≡ self.old.remaining }
        ensures remains { IfOk result
            (λ u. access.NoMore R.source self.old.remaining self.new.remaining self.old.de.now
            self.new.de.now) }
        ensures names { self.new.names ≡ self.old.names }
    {
        match self.value::<IgnoredAny>() {
            Ok(_) => Ok(()),
            Err(e) => Err(e),
        }
    }

    /// How many fields of a declared count are still to be read, without one whose key was read;
    /// None where no count was declared, or where it doesn't fit a `usize`.
    pub fn size_hint(&self) -> Option<usize>
        ensures { result ≡ size_of self.now.remaining }
    {
        match self.remaining {
            Remaining::Counted(n) => usize::try_from(n).ok(),
            Remaining::ToBreak => None,
        }
    }

    /// Leaves the map for the error of a field that isn't there, as ``missing field `id` ``.
    pub fn missing(self, name: &'static str) -> Error
        requires { self.de.now.decoder.levels < self.outer }
        ensures text { IsMessageOf (Some (missing_text name.now)) (code_of result) }
        ensures offset { offset_of result ≡ 0 }
        ensures source { self.exit.0.now.decoder.source ≡ self.entry.de.now.decoder.source }
        ensures settings { call.BackTo self.entry.outer self.entry.de.now self.exit.0.now }
    {
        let alloc = self.de.decoder.alloc;
        self.refuse(missing_field(alloc, name))
    }

    /// Leaves the map for the error of a field that is there twice, as ``duplicate field `id` ``.
    pub fn duplicate(self, name: &'static str) -> Error
        requires { self.de.now.decoder.levels < self.outer }
        ensures text { IsMessageOf (Some (duplicate_text name.now)) (code_of result) }
        ensures offset { offset_of result ≡ 0 }
        ensures source { self.exit.0.now.decoder.source ≡ self.entry.de.now.decoder.source }
        ensures settings { call.BackTo self.entry.outer self.entry.de.now self.exit.0.now }
    {
        let alloc = self.de.decoder.alloc;
        self.refuse(duplicate_field(alloc, name))
    }

    /// Leaves the map for this error, which it passes on.
    pub fn refuse(self, e: Error) -> Error
        requires { self.de.now.decoder.levels < self.outer }
        ensures error { result ≡ e }
        ensures source { self.exit.0.now.decoder.source ≡ self.entry.de.now.decoder.source }
        ensures settings { call.BackTo self.entry.outer self.entry.de.now self.exit.0.now }
    {
        let StructAccess {
            de,
            remaining: _,
            outer,
            value_due: _,
            names: _,
        } = self;
        de.decoder.levels = outer;
        e
    }

    /// Takes the end of the map. Pairs that weren't read are refused as by `MapAccess::end`.
    pub fn end(self) -> Result<()>
        requires live { self.de.now.decoder.levels < self.outer }
        requires due { self.value_due ≡ false }
        ensures read { TakesEndOf of.Map R.refusals self.entry.remaining
            (R.source self.entry.de.now.decoder.source)
            (R.source self.exit.0.now.decoder.source) result }
        ensures no_form { IfErr result (λ e. ReportsNoForm (code_of e)) }
        ensures memory { IfErr result (λ e. code_of e ≢ OutOfMemory) }
        ensures settings { call.BackTo self.entry.outer self.entry.de.now self.exit.0.now }
    {
        let StructAccess {
            de,
            remaining,
            outer,
            value_due: _,
            names: _,
        } = self;
        de.decoder.levels = outer;
        collection::end(&mut de.decoder, remaining, Collection::Map)
    }
}

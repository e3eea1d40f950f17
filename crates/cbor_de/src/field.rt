//! The fields of a struct, which keys name.

ghost use Rattle.std.specs.Prelude.{◌≡◌, ◌<◌, length, IfOk, IfErr, IfSome};
ghost use Rattle.std.specs.Prelude.{MatchOption, OnOk, Some};
ghost use Rattle.cbor_io.specs.Error.{code_of, offset_of, IsMessageOf};
ghost use Rattle.cbor_io.specs.declared.error.Error.{Error};
ghost use Rattle.cbor_read.specs.Source.{asks_for};
ghost use Rattle.cbor_decode.specs.Decoder.{SameSettings};
ghost use Rattle.cbor_decode.specs.declared.cursor.Remaining.TheVariants.{Counted};
ghost use Rattle.cbor_decode.specs.Gives.{ReportsNoForm};
ghost use Rattle.cbor_decode_as.specs.Accesses.{most_left};
ghost use Rattle.cbor_decode_as.specs.Cases.{HasCase, ReportsBadKey, key_cases};
ghost use Rattle.cbor_decode_as.specs.Identifiers.{IsMadeBy, NamesNoKey, place_of, texts};
ghost use Rattle.cbor_decode_as.specs.MapAccesses.{MemoryForKey, TakesKey};
ghost use Rattle.cbor_decode_as.specs.Strings.{IsAskedString};
ghost use Rattle.cbor_parts.specs.Keys.{AreKeysOf, keys_of};
ghost use Rattle.cbor_de.specs.Structs.{IsField, IsKeyed, IsLabelled, place_in};
ghost use Rattle.cbor_de.specs.Structs.{missing_text, duplicate_text};
ghost use Rattle.cbor_decode_as.specs.Takes.{ItemFault, OnceMade, formats_of};
ghost use Rattle.cbor_de.specs.Forms.{MayReportKey, never};
ghost use Rattle.cbor_de.specs.Access as access;
ghost use Rattle.cbor_de.specs.Calls as call;

use crate::de::Deserializer;
use crate::gather::gather_name;
use cbor_decode::Remaining;
use cbor_decode_as::collection::more_pairs;
use cbor_decode_as::identifier::{Lookup, identifier, unnamed};
use cbor_decode_as::integer::{from_zero_at_hand, signed_at_hand};
use cbor_decode_as::label::{label, place_of_label};
use cbor_io::error::{Error, Result};
use cbor_parts::FieldKeys;
use cbor_read::Read;
use std::alloc::Global;

/// A field that a key names.
#[derive(Clone, Copy, Debug, PartialEq, Eq)]
pub enum Field {
    /// The field in this place among the names, from 0.
    Known(usize),
    /// A number or a name that no field has.
    Unknown,
}

// The field of this number.
#[inline(always)]
#[tactic(auto, using(crate::proofs::structs::FieldNames::number_place))]
fn numbered(names: &[&str], n: u64) -> Field
    ensures place { place_in result ≡ place_of (texts names.now) n }
    ensures below { IfSome (place_in result) (λ i. i < length names.now) }
{
    if n < names.len() as u64 {
        Field::Known(n as usize)
    } else {
        Field::Unknown
    }
}

// The field in this place, if there is one.
#[inline(always)]
fn placed(place: Option<usize>) -> Field
    ensures { place_in result ≡ place }
{
    match place {
        Some(place) => Field::Known(place),
        None => Field::Unknown,
    }
}

impl<'de, R: Read<'de>> Deserializer<R> {
    // Reads the field that a key names.
    #[inline(always)]
    fn field(&mut self, names: &[&str]) -> Lookup<Field>
        ensures read { OnceMade (IsMadeBy self.new.decoder.refusal)
            (call.TakesItem R.source R.refusals (IsField (texts names.now))
            self.old self.new) result }
        ensures taken { OnOk result (call.Advances R.source self.old self.new) }
        ensures below { IfOk result (λ field. IfSome (place_in field) (λ i. i < length names.now)) }
        ensures memory { IfErr result (λ w. (e : Error) → IsMadeBy self.new.decoder.refusal w e
            → call.MemoryFor R.source (IsAskedString (asks_for R.refusals R.lends))
            (IsField (texts names.now)) self.old e) }
        ensures fault { IfErr result (λ w. (e : Error) → IsMadeBy self.new.decoder.refusal w e
            → ItemFault R.refusals self.old.decoder.levels (R.source self.old.decoder.source) e) }
        ensures no_key { IfErr result (NamesNoKey self.new.decoder.refusal) }
        ensures settings { SameSettings self.old.decoder self.new.decoder }
    {
        if let Some(n) = from_zero_at_hand(&mut self.decoder, u64::MAX) {
            return Ok(numbered(names, n));
        }
        gather_name(&mut self.decoder);
        let place = identifier(&mut self.decoder, names)?;
        Ok(placed(place))
    }

    // Reads the field whose label a key is.
    #[inline(always)]
    fn labelled(&mut self, labels: &[i64]) -> Lookup<Field>
        ensures read { OnceMade (IsMadeBy self.new.decoder.refusal)
            (call.TakesItem R.source R.refusals (IsLabelled labels.now) self.old self.new) result }
        ensures taken { OnOk result (call.Advances R.source self.old self.new) }
        ensures below { IfOk result (λ field. IfSome (place_in field)
            (λ i. i < length labels.now)) }
        ensures memory { IfErr result (λ w. (e : Error) → IsMadeBy self.new.decoder.refusal w e
            → call.MemoryFor R.source (IsAskedString (asks_for R.refusals R.lends))
            (IsLabelled labels.now) self.old e) }
        ensures fault { IfErr result (λ w. (e : Error) → IsMadeBy self.new.decoder.refusal w e
            → ItemFault R.refusals self.old.decoder.levels (R.source self.old.decoder.source) e) }
        ensures no_key { IfErr result (NamesNoKey self.new.decoder.refusal) }
        ensures settings { SameSettings self.old.decoder self.new.decoder }
    {
        if let Some(number) = signed_at_hand(&mut self.decoder, i64::MAX as u64) {
            return Ok(placed(place_of_label(labels, number as i128)));
        }
        gather_name(&mut self.decoder);
        let place = label(&mut self.decoder, labels)?;
        Ok(placed(place))
    }

    // Reads the field that a key means by these.
    #[inline(always)]
    fn keyed(&mut self, keys: &FieldKeys<'_>) -> Lookup<Field>
        requires { AreKeysOf (length keys.now.names.now) (keys_of keys.now) }
        ensures read { OnceMade (IsMadeBy self.new.decoder.refusal)
            (call.TakesItem R.source R.refusals (IsKeyed (keys_of keys.now)) self.old self.new)
            result }
        ensures taken { OnOk result (call.Advances R.source self.old self.new) }
        ensures below { IfOk result (λ field. IfSome (place_in field)
            (λ i. i < length keys.now.names.now)) }
        ensures memory { IfErr result (λ w. (e : Error) → IsMadeBy self.new.decoder.refusal w e
            → call.MemoryFor R.source (IsAskedString (asks_for R.refusals R.lends))
            (IsKeyed (keys_of keys.now)) self.old e) }
        ensures fault { IfErr result (λ w. (e : Error) → IsMadeBy self.new.decoder.refusal w e
            → ItemFault R.refusals self.old.decoder.levels (R.source self.old.decoder.source) e) }
        ensures no_key { IfErr result (NamesNoKey self.new.decoder.refusal) }
        ensures settings { SameSettings self.old.decoder self.new.decoder }
    {
        match keys.labels {
            None => self.field(keys.names),
            Some(labels) => self.labelled(labels),
        }
    }

    // Reads the field that the next key means; None where no pair remains.
    #[inline(always)]
    #[tactic(auto, using(cbor_decode_as::proofs::facts::Places::unnamed_stands))]
    pub(crate) fn next_field(
        &mut self,
        remaining: &mut Remaining,
        keys: &FieldKeys<'_>,
    ) -> Lookup<Option<Field>>
        requires { AreKeysOf (length keys.now.names.now) (keys_of keys.now) }
        ensures read { OnceMade (IsMadeBy self.new.decoder.refusal)
            (TakesKey R.refusals (formats_of self.old.decoder.formats) (IsKeyed (keys_of keys.now))
            self.old.decoder.levels remaining.old remaining.new
            (R.source self.old.decoder.source) (R.source self.new.decoder.source)) result }
        ensures below { IfOk result (λ next. IfSome next (λ field.
            IfSome (place_in field) (λ i. i < length keys.now.names.now))) }
        // Nothing remains after the last pair, and a loop over the fields ends.
        ensures remains { IfOk result (λ next. MatchOption next (remaining.new ≡ Counted 0)
            (λ k. most_left remaining.new (R.source self.new.decoder.source)
            < most_left remaining.old (R.source self.old.decoder.source))) }
        ensures memory { IfErr result (λ w. (e : Error) → IsMadeBy self.new.decoder.refusal w e
            → MemoryForKey (IsAskedString (asks_for R.refusals R.lends))
            (formats_of self.old.decoder.formats) (IsKeyed (keys_of keys.now))
            self.old.decoder.levels remaining.old (R.source self.old.decoder.source) e) }
        ensures fault { IfErr result (λ w. (e : Error) → IsMadeBy self.new.decoder.refusal w e
            → access.NameFault R.source R.refusals remaining.old self.old e) }
        ensures cases { IfErr result (λ w. (e : Error) → IsMadeBy self.new.decoder.refusal w e
            → HasCase (R.source self.old.decoder.source) e
            (key_cases (formats_of self.old.decoder.formats) remaining.old)) }
        ensures bad_key { IfErr result (λ w. (e : Error) → IsMadeBy self.new.decoder.refusal w e
            → ReportsBadKey R.refusals (formats_of self.old.decoder.formats) remaining.old
            (R.source self.old.decoder.source) e) }
        ensures settings { SameSettings self.old.decoder self.new.decoder }
    {
        if !more_pairs(&mut self.decoder, remaining)? {
            return Ok(None);
        }
        let field = self.keyed(keys)?;
        Ok(Some(field))
    }
}

// The message for a key that means nothing.
#[cold]
fn expected(keys: &FieldKeys<'_>) -> &'static str {
    match keys.labels {
        None => "invalid type: expected a field name",
        Some(_) => "invalid type: expected a field label",
    }
}

/// Reads the field that the next key means by these, of a map of which so much remains; None where
/// no pair does. It refuses what [`StructAccess::next_field`](crate::StructAccess::next_field)
/// refuses.
#[inline(always)]
pub fn next_key<'de, R: Read<'de>>(
    de: &mut Deserializer<R>,
    remaining: &mut Remaining,
    keys: &FieldKeys<'_>,
) -> Result<Option<Field>>
    requires { AreKeysOf (length keys.now.names.now) (keys_of keys.now) }
    ensures read { TakesKey R.refusals (formats_of de.old.decoder.formats)
        (IsKeyed (keys_of keys.now)) de.old.decoder.levels remaining.old remaining.new
        (R.source de.old.decoder.source) (R.source de.new.decoder.source) result }
    ensures below { IfOk result (λ next. IfSome next (λ field.
        IfSome (place_in field) (λ i. i < length keys.now.names.now))) }
    // Nothing remains after the last pair, and a loop over the fields ends.
    ensures remains { IfOk result (λ next. MatchOption next (remaining.new ≡ Counted 0)
        (λ k. most_left remaining.new (R.source de.new.decoder.source)
        < most_left remaining.old (R.source de.old.decoder.source))) }
    // Memory is asked for a name alone, to hand it out or to join its chunks.
    ensures memory { IfErr result (MemoryForKey (IsAskedString (asks_for R.refusals R.lends))
        (formats_of de.old.decoder.formats) (IsKeyed (keys_of keys.now)) de.old.decoder.levels
        remaining.old (R.source de.old.decoder.source)) }
    ensures fault { IfErr result
        (access.NameFault R.source R.refusals remaining.old de.old) }
    ensures form { IfErr result (MayReportKey never (formats_of de.old.decoder.formats)
        remaining.old (R.source de.old.decoder.source)) }
    ensures settings { SameSettings de.old.decoder de.new.decoder }
{
    match de.next_field(remaining, keys) {
        Ok(next) => Ok(next),
        Err(why) => Err(unnamed(&mut de.decoder, why, expected(keys))),
    }
}

/// The error of a field that isn't there, as ``missing field `id` ``.
#[cold]
#[inline(never)]
#[tactic(auto, using(crate::proofs::refusals::Forms::message_form))]
pub fn missing_field(alloc: Global, name: &str) -> Error
    ensures text { IsMessageOf (Some (missing_text name.now)) (code_of result) }
    ensures offset { offset_of result ≡ 0 }
    ensures no_form { ReportsNoForm (code_of result) }
{
    match format!(in alloc; "missing field `{name}`") {
        Ok(text) => Error::message(alloc, text),
        Err(e) => Error::from(e),
    }
}

/// The error of a field that is there twice, as ``duplicate field `id` ``.
#[cold]
#[inline(never)]
#[tactic(auto, using(crate::proofs::refusals::Forms::message_form))]
pub fn duplicate_field(alloc: Global, name: &str) -> Error
    ensures text { IsMessageOf (Some (duplicate_text name.now)) (code_of result) }
    ensures offset { offset_of result ≡ 0 }
    ensures no_form { ReportsNoForm (code_of result) }
{
    match format!(in alloc; "duplicate field `{name}`") {
        Ok(text) => Error::message(alloc, text),
        Err(e) => Error::from(e),
    }
}

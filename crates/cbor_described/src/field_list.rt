//! Lists of fields, of which structs are read.

ghost use Rattle.std.specs.Prelude.{◌≡◌, ◌≤◌, true, length, map, Some, IfOk, IfErr, OnOk};
ghost use Rattle.std.specs.Prelude.{MatchBool};
ghost use Rattle.std.specs.Bool.{OnFalse};
ghost use Rattle.cbor_model.specs.Readable.{Context};
ghost use Rattle.cbor_parts.specs.Keys.{AreKeysOf, keys_of};
ghost use Rattle.cbor_decode.specs.Decoder.{SameSettings};
ghost use Rattle.cbor_read.specs.Source.{asks_for};
ghost use Rattle.cbor_decode.specs.HasChunks.{AsksWhere, HasChunks};
ghost use Rattle.cbor_described.specs.FieldLists.{FieldTaken, MemoryForField, NamesLacking};
ghost use Rattle.cbor_described.specs.FieldLists.{ReadBefore, TakesField};
ghost use Rattle.cbor_de.specs.StructMemory.{AsksForFields};
ghost use Rattle.cbor_de.specs.Fields.{AreHeld, IsHeld, Lacks, none_yet};
ghost use Rattle.cbor_de.specs.Structs.{IsAny, IsKeyed, IsMapOf, duplicate_text, missing_text};
ghost use Rattle.cbor_io.specs.Error.{IsMessageOf, code_of, offset_of};
ghost use Rattle.cbor_decode.specs.Gives.{ReportsNoForm};
ghost use Rattle.cbor_decode_as.specs.Takes.{context, formats_of};
ghost use Rattle.cbor_de.specs.Forms.{any_of, key_form};
ghost use Rattle.cbor_de.specs.Calls as call;

use crate::field_slot::{ReadField, slot_at_hand};
use cbor_de::steps::{end_map, leave_to, map_head};
use cbor_de::{
    Deserialize, Deserializer, Field, FieldType, IgnoredAny, Read, missing_field, next_key,
};
use cbor_io::error::Result;
use cbor_parts::FieldKeys;
use std::alloc::Global;

// The fields of a struct: `()`, or a field and the list of the others, as `(u32, (String, ()))`, or
// four and the list of the others.
pub(crate) trait FieldList: Sized + Drop {
    ghost use Rattle.std.specs.Prelude.{Bool, List, ℕ};
    ghost use Rattle.cbor_model.specs.Raw.{Raw};
    ghost use Rattle.cbor_model.specs.Readable.{Context};
    ghost use Rattle.cbor_read.specs.Source.{Asks};
    ghost use Rattle.cbor_de.specs.Fields.{Slots};
    ghost use Rattle.cbor_de.specs.Forms.{WrongForms};
    ghost use Rattle.cbor_de.specs.Structs.{FieldOf};

    // What was read of them so far.
    type Slots: Drop;

    // How many they are.
    ghost count: { ℕ };

    // As what each field is read.
    ghost fields: { Context → List (FieldOf Self) };

    ghost slots: { (c : Context) → Self.Slots → Slots (fields c) };

    // By which codes the value of one of them may be refused for its form, and where.
    ghost wrong_forms: { WrongForms };

    // Whether the refusals of all of them report the faults of the bytes.
    ghost reports_faults: { Bool };

    // For which values memory may be asked, of the field in each place.
    ghost asks: { Asks → ℕ → Raw → Type 0 };

    // No field was read.
    fn none() -> Self::Slots
        ensures { (c : Context) → slots c result ≡ none_yet (fields c) };

    // The fields that were read. The first one that wasn't is refused with
    // ``missing field `id` ``, by its name.
    fn required(alloc: Global, names: &[&str], held: Self::Slots) -> Result<Self>
        requires { length names.now ≡ Self.count }
        ensures all { IfOk result (λ x. (c : Context)
            → AreHeld (fields c) (slots c held) x) }
        ensures lacking { IfErr result (λ e. (c : Context) → NamesLacking (fields c)
            (map (λ n. n.now) names.now) (slots c held) (code_of e)) }
        ensures offset { IfErr result (λ e. offset_of e ≡ 0) }
        ensures no_form { IfErr result (λ e. ReportsNoForm (code_of e)) };
}

// The fields of a struct, which are read from a source.
pub(crate) trait ReadFields<'de, R: Read<'de>>: FieldList {
    // Reads the value of a field into its slot, the i-th, and passes over an item where there are
    // fewer. A slot that has a value is refused with ``duplicate field `id` ``.
    fn take(de: &mut Deserializer<R>, i: usize, name: &str, held: &mut Self::Slots) -> Result<()>
        ensures read { let c = context de.old.decoder.formats R.lends in
            TakesField (formats_of de.old.decoder.formats) de.old.decoder.levels R.refusals
            (Self.fields c) i (Self.slots c held.old) (Self.slots c held.new)
            (R.source de.old.decoder.source) (R.source de.new.decoder.source) result }
        // A slot that has a value is refused by the name.
        ensures twice { IfErr result (λ e. (c : Context)
            → ReadBefore (Self.fields c) i (Self.slots c held.old)
            → IsMessageOf (Some (duplicate_text name.now)) (code_of e)) }
        ensures form { IfErr result
            (call.MayReport R.source (any_of key_form Self.wrong_forms) de.old) }
        // The fault of the value, where each type reports its own.
        ensures fault { IfErr result
            (call.OwnFault R.source R.refusals Self.reports_faults de.old) }
        ensures memory { let c = context de.old.decoder.formats R.lends in
            IfErr result (MemoryForField (formats_of de.old.decoder.formats)
            de.old.decoder.levels (Self.asks (asks_for R.refusals R.lends)) (Self.fields c) i
            (Self.slots c held.old) (R.source de.old.decoder.source)) }
        ensures forward { IfOk result (λ u. (R.source de.old.decoder.source).offset
            ≤ (R.source de.new.decoder.source).offset) }
        ensures settings { SameSettings de.old.decoder de.new.decoder };

    // Reads it so where it is at hand and the slot has no value: without room for an error. Where it
    // isn't, it answers false and changes nothing.
    fn take_at_hand(de: &mut Deserializer<R>, i: usize, held: &mut Self::Slots) -> bool
        ensures read { let c = context de.old.decoder.formats R.lends in
            MatchBool result (FieldTaken (formats_of de.old.decoder.formats) de.old.decoder.levels
            (Self.fields c) i (Self.slots c held.old) (Self.slots c held.new)
            (R.source de.old.decoder.source) (R.source de.new.decoder.source))
            (R.source de.new.decoder.source ≡ R.source de.old.decoder.source) }
        ensures held { OnFalse result (held.new ≡ held.old) }
        ensures forward { (R.source de.old.decoder.source).offset
            ≤ (R.source de.new.decoder.source).offset }
        ensures settings { SameSettings de.old.decoder de.new.decoder };
}

impl FieldList for () {
    ghost use Rattle.std.specs.Prelude.{[], true};
    ghost use Rattle.cbor_de.specs.Forms.{never};
    ghost use Rattle.cbor_de.specs.StructMemory.{passed_over};

    type Slots = ();

    ghost count = { 0 };

    ghost fields = { λ c. [] };

    ghost slots = { λ c held. held };

    ghost wrong_forms = { never };

    ghost reports_faults = { true };

    ghost asks = { passed_over };

    fn none() -> () {}

    fn required(_alloc: Global, _names: &[&str], _held: ()) -> Result<()> {
        Ok(())
    }
}

impl<'de, R: Read<'de>> ReadFields<'de, R> for () {
    fn take(de: &mut Deserializer<R>, _i: usize, _name: &str, _held: &mut ()) -> Result<()> {
        skip_item(de)
    }

    fn take_at_hand(_de: &mut Deserializer<R>, _i: usize, _held: &mut ()) -> bool {
        false
    }
}

impl<A: FieldType, F: FieldList> FieldList for (A, F) {
    ghost use Rattle.std.specs.Prelude.{◌∷◌, ◌+◌};
    ghost use Rattle.cbor_de.specs.Calls.{and_reports, reports_any};
    ghost use Rattle.cbor_de.specs.Forms.{any_of};
    ghost use Rattle.cbor_described.specs.FieldLists.{over, slots_over};
    ghost use Rattle.cbor_de.specs.Structs.{field_or};
    ghost use Rattle.cbor_de.specs.StructMemory.{field_then};

    type Slots = (Option<A>, F::Slots);

    ghost count = { F.count + 1 };

    ghost fields = { λ c. field_or (A.reads c) A.missing (λ p. p.0)
        ∷ over (λ p. p.1) (F.fields c) };

    ghost slots = { λ c held. (held.0, slots_over (λ p. p.1) (F.fields c) (F.slots c held.1)) };

    ghost wrong_forms = { any_of A.Of.wrong_forms F.wrong_forms };

    ghost reports_faults = { and_reports
        (reports_any A.Of.passes_over A.Of.total A.Of.reports_faults) F.reports_faults };

    ghost asks = { λ a. field_then (A.Of.asks_memory a) (F.asks a) };

    fn none() -> (Option<A>, F::Slots) {
        (None, F::none())
    }

    fn required(alloc: Global, names: &[&str], held: (Option<A>, F::Slots)) -> Result<(A, F)> {
        let (first, others) = held;
        let first = required_field::<A>(alloc, names[0], first)?;
        let others = F::required(alloc, &names[1..], others)?;
        Ok((first, others))
    }
}

// Four fields and the list of the others. What the check passes on of a list's bounds doubles with
// each pair within a pair, so long lists go by fours.
impl<A: FieldType, B: FieldType, C: FieldType, D: FieldType, F: FieldList> FieldList
    for (A, B, C, D, F) {
    ghost use Rattle.std.specs.Prelude.{◌∷◌, ◌+◌};
    ghost use Rattle.cbor_de.specs.Calls.{and_reports, reports_any};
    ghost use Rattle.cbor_de.specs.Forms.{any_of};
    ghost use Rattle.cbor_described.specs.FieldLists.{over, slots_over};
    ghost use Rattle.cbor_de.specs.Structs.{field_or};
    ghost use Rattle.cbor_de.specs.StructMemory.{field_then};

    type Slots = (Option<A>, Option<B>, Option<C>, Option<D>, F::Slots);

    ghost count = { F.count + 4 };

    ghost fields = { λ c. field_or (A.reads c) A.missing (λ p. p.0)
        ∷ field_or (B.reads c) B.missing (λ p. p.1)
        ∷ field_or (C.reads c) C.missing (λ p. p.2)
        ∷ field_or (D.reads c) D.missing (λ p. p.3)
        ∷ over (λ p. p.4) (F.fields c) };

    ghost slots = { λ c held. (
      held.0,
      (
        held.1,
        (
          held.2,
          (
            held.3,
            slots_over (λ p. p.4) (F.fields c) (F.slots c held.4),
          ),
        ),
      ),
    ) };

    ghost wrong_forms = { any_of A.Of.wrong_forms (any_of B.Of.wrong_forms (any_of C.Of.wrong_forms
        (any_of D.Of.wrong_forms F.wrong_forms))) };

    ghost reports_faults = { and_reports
        (reports_any A.Of.passes_over A.Of.total A.Of.reports_faults) (and_reports
        (reports_any B.Of.passes_over B.Of.total B.Of.reports_faults) (and_reports
        (reports_any C.Of.passes_over C.Of.total C.Of.reports_faults) (and_reports
        (reports_any D.Of.passes_over D.Of.total D.Of.reports_faults) F.reports_faults))) };

    ghost asks = { λ a. field_then (A.Of.asks_memory a) (field_then (B.Of.asks_memory a)
        (field_then (C.Of.asks_memory a) (field_then (D.Of.asks_memory a) (F.asks a)))) };

    fn none() -> (Option<A>, Option<B>, Option<C>, Option<D>, F::Slots) {
        (None, None, None, None, F::none())
    }

    fn required(
        alloc: Global,
        names: &[&str],
        held: (Option<A>, Option<B>, Option<C>, Option<D>, F::Slots),
    ) -> Result<(A, B, C, D, F)> {
        let (a, b, c, d, others) = held;
        let a = required_field::<A>(alloc, names[0], a)?;
        let b = required_field::<B>(alloc, names[1], b)?;
        let c = required_field::<C>(alloc, names[2], c)?;
        let d = required_field::<D>(alloc, names[3], d)?;
        let others = F::required(alloc, &names[4..], others)?;
        Ok((a, b, c, d, others))
    }
}

// What was read of a field, or what stands for it.
fn required_field<A: FieldType>(alloc: Global, name: &str, held: Option<A>) -> Result<A>
    ensures held { IfOk result (λ x. IsHeld held A.missing x) }
    ensures lacks { IfErr result (λ e. Lacks A.missing held) }
    ensures text { IfErr result (λ e. IsMessageOf (Some (missing_text name.now)) (code_of e)) }
    ensures offset { IfErr result (λ e. offset_of e ≡ 0) }
    ensures no_form { IfErr result (λ e. ReportsNoForm (code_of e)) }
{
    match held {
        Some(value) => Ok(value),
        None => match A::missing(alloc) {
            Some(value) => Ok(value),
            None => Err(missing_field(alloc, name)),
        },
    }
}

impl<'de, R: Read<'de>, A: ReadField<'de, R>, F: ReadFields<'de, R>> ReadFields<'de, R> for (A, F) {
    fn take(
        de: &mut Deserializer<R>,
        i: usize,
        name: &str,
        held: &mut (Option<A>, F::Slots),
    ) -> Result<()> {
        if i != 0 {
            return F::take(de, i - 1, name, &mut held.1);
        }
        A::take_slot(de, name, &mut held.0)
    }

    #[inline(always)]
    fn take_at_hand(de: &mut Deserializer<R>, i: usize, held: &mut (Option<A>, F::Slots)) -> bool {
        if i != 0 {
            return F::take_at_hand(de, i - 1, &mut held.1);
        }
        slot_at_hand::<R, A>(de, &mut held.0)
    }
}

impl<
    'de,
    R: Read<'de>,
    A: ReadField<'de, R>,
    B: ReadField<'de, R>,
    C: ReadField<'de, R>,
    D: ReadField<'de, R>,
    F: ReadFields<'de, R>,
> ReadFields<'de, R> for (A, B, C, D, F) {
    fn take(
        de: &mut Deserializer<R>,
        i: usize,
        name: &str,
        held: &mut (Option<A>, Option<B>, Option<C>, Option<D>, F::Slots),
    ) -> Result<()> {
        match i {
            0 => A::take_slot(de, name, &mut held.0),
            1 => B::take_slot(de, name, &mut held.1),
            2 => C::take_slot(de, name, &mut held.2),
            3 => D::take_slot(de, name, &mut held.3),
            _ => F::take(de, i - 4, name, &mut held.4),
        }
    }

    #[inline(always)]
    fn take_at_hand(
        de: &mut Deserializer<R>,
        i: usize,
        held: &mut (Option<A>, Option<B>, Option<C>, Option<D>, F::Slots),
    ) -> bool {
        match i {
            0 => slot_at_hand::<R, A>(de, &mut held.0),
            1 => slot_at_hand::<R, B>(de, &mut held.1),
            2 => slot_at_hand::<R, C>(de, &mut held.2),
            3 => slot_at_hand::<R, D>(de, &mut held.3),
            _ => F::take_at_hand(de, i - 4, &mut held.4),
        }
    }
}

// Passes over an item.
fn skip_item<'de, R: Read<'de>>(de: &mut Deserializer<R>) -> Result<()>
    ensures read { call.TakesItem R.source R.refusals IsAny de.old de.new result }
    ensures form { IfErr result (call.MayReport R.source key_form de.old) }
    ensures fault { IfErr result (call.OwnFault R.source R.refusals true de.old) }
    ensures memory { IfErr result (call.MemoryFor R.source
        (λ r. AsksWhere (asks_for R.refusals R.lends) (HasChunks r)) IsAny de.old) }
    ensures settings { SameSettings de.old.decoder de.new.decoder }
{
    match IgnoredAny::deserialize(de) {
        Ok(_) => Ok(()),
        Err(e) => Err(e),
    }
}

// Reads a struct of these fields, in any order, by their keys.
pub(crate) fn read_fields<'de, R: Read<'de>, F: ReadFields<'de, R>>(
    de: &mut Deserializer<R>,
    keys: &FieldKeys<'_>,
) -> Result<F>
    requires { AreKeysOf F.count (keys_of keys.now) }
    ensures read { call.TakesItem R.source R.refusals
        (IsMapOf (IsKeyed (keys_of keys.now)) (F.fields (context de.old.decoder.formats R.lends)))
        de.old de.new result }
    ensures taken { OnOk result (call.Advances R.source de.old de.new) }
    ensures form { IfErr result (call.MayReport R.source (any_of key_form F.wrong_forms) de.old) }
    ensures fault { IfErr result (call.OwnFault R.source R.refusals F.reports_faults de.old) }
    ensures memory { IfErr result (call.MemoryFor R.source
        (AsksForFields (IsKeyed (keys_of keys.now)) (asks_for R.refusals R.lends)
        (F.asks (asks_for R.refusals R.lends)))
        (IsMapOf (IsKeyed (keys_of keys.now)) (F.fields (context de.old.decoder.formats R.lends)))
        de.old) }
    ensures settings { SameSettings de.old.decoder de.new.decoder }
{
    let outer = de.levels_left();
    let read = fields_within::<R, F>(de, keys);
    leave_to(de, outer);
    read
}

// Reads the fields, and leaves any number of levels.
#[tactic(auto, using(cbor_de::proofs::facts::Forms::plain))]
fn fields_within<'de, R: Read<'de>, F: ReadFields<'de, R>>(
    de: &mut Deserializer<R>,
    keys: &FieldKeys<'_>,
) -> Result<F>
    requires { AreKeysOf F.count (keys_of keys.now) }
    ensures read { call.TakesItem R.source R.refusals
        (IsMapOf (IsKeyed (keys_of keys.now)) (F.fields (context de.old.decoder.formats R.lends)))
        de.old de.new result }
    ensures taken { OnOk result (call.Advances R.source de.old de.new) }
    ensures form { IfErr result (call.MayReport R.source (any_of key_form F.wrong_forms) de.old) }
    ensures fault { IfErr result (call.OwnFault R.source R.refusals F.reports_faults de.old) }
    ensures memory { IfErr result (call.MemoryFor R.source
        (AsksForFields (IsKeyed (keys_of keys.now)) (asks_for R.refusals R.lends)
        (F.asks (asks_for R.refusals R.lends)))
        (IsMapOf (IsKeyed (keys_of keys.now)) (F.fields (context de.old.decoder.formats R.lends)))
        de.old) }
    ensures formats { de.new.decoder.formats ≡ de.old.decoder.formats }
{
    let mut remaining = map_head(de)?;
    let mut held = F::none();
    'fields: while let Some(field) = next_key(de, &mut remaining, keys)? {
        match field {
            Field::Known(i) => {
                if F::take_at_hand(de, i, &mut held) {
                    continue;
                }
                F::take(de, i, keys.names[i], &mut held)?
            }
            Field::Unknown => skip_item(de)?,
        }
    }
    let parts = F::required(de.alloc(), keys.names, held)?;
    end_map(de, remaining)?;
    Ok(parts)
}

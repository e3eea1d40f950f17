//! The value of one field, which is read into its slot.

ghost use Rattle.std.specs.Prelude.{◌≡◌, ◌≤◌, true, Some, Ok, IfOk, IfErr, MatchBool};
ghost use Rattle.std.specs.Bool.{OnFalse};
ghost use Rattle.std.specs.Option.{is_some};
ghost use Rattle.cbor_decode.specs.Decoder.{SameSettings};
ghost use Rattle.cbor_read.specs.Source.{Stays, asks_for};
ghost use Rattle.cbor_described.specs.FieldLists.{MemoryForSlot, TakesSlot};
ghost use Rattle.cbor_de.specs.Structs.{duplicate_text};
ghost use Rattle.cbor_io.specs.Error.{IsMessageOf, code_of};
ghost use Rattle.cbor_decode_as.specs.Takes.{context, formats_of};
ghost use Rattle.cbor_de.specs.Calls as call;

use cbor_de::{Deserialize, Deserializer, FieldType, Read, Readable, Source, duplicate_field};
use cbor_io::error::Result;

// A field of a struct, which is read from a source. What has several fields asks for this of each:
// of a type's own promises only those that a field needs are passed on then.
pub(crate) trait ReadField<'de, R: Read<'de>>: FieldType {
    // Reads the value of the field into its slot. A slot that has a value is refused with
    // ``duplicate field `id` ``.
    fn take_slot(de: &mut Deserializer<R>, name: &str, slot: &mut Option<Self>) -> Result<()>
        ensures read { TakesSlot
            (formats_of de.old.decoder.formats) de.old.decoder.levels R.refusals
            (Self.reads (context de.old.decoder.formats R.lends)) slot.old slot.new
            (R.source de.old.decoder.source) (R.source de.new.decoder.source) result }
        // A slot that has a value is refused by the name.
        ensures twice { IfErr result (λ e. is_some slot.old ≡ true
            → IsMessageOf (Some (duplicate_text name.now)) (code_of e)) }
        ensures form { IfErr result (call.MayReport R.source Self.Of.wrong_forms de.old) }
        ensures fault { IfErr result (call.OwnFault R.source R.refusals (call.reports_any
            Self.Of.passes_over Self.Of.total Self.Of.reports_faults) de.old) }
        ensures memory { IfErr result (MemoryForSlot (formats_of de.old.decoder.formats)
            de.old.decoder.levels (Self.Of.asks_memory (asks_for R.refusals R.lends))
            (Self.reads (context de.old.decoder.formats R.lends)) slot.old
            (R.source de.old.decoder.source)) }
        ensures forward { IfOk result (λ u. (R.source de.old.decoder.source).offset
            ≤ (R.source de.new.decoder.source).offset) }
        ensures settings { SameSettings de.old.decoder de.new.decoder };
}

impl<'de, R: Read<'de>, A: FieldType> ReadField<'de, R> for A
where
    A::Of: Deserialize<'de, R>,
{
    fn take_slot(de: &mut Deserializer<R>, name: &str, slot: &mut Option<A>) -> Result<()> {
        if slot_gathered::<R, A>(de, slot) {
            return Ok(());
        }
        fill_slot::<R, A>(de, name, slot)
    }
}

// Reads the value of a field into its slot, where it is at hand and the slot has no value.
#[inline(always)]
pub(crate) fn slot_at_hand<R: Source, A: FieldType>(
    de: &mut Deserializer<R>,
    slot: &mut Option<A>,
) -> bool
    ensures read { MatchBool result
        (TakesSlot (formats_of de.old.decoder.formats) de.old.decoder.levels R.refusals
        (A.reads (context de.old.decoder.formats R.lends)) slot.old slot.new
        (R.source de.old.decoder.source) (R.source de.new.decoder.source) (Ok tt))
        (R.source de.new.decoder.source ≡ R.source de.old.decoder.source) }
    ensures held { OnFalse result (slot.new ≡ slot.old) }
    ensures forward { (R.source de.old.decoder.source).offset
        ≤ (R.source de.new.decoder.source).offset }
    ensures settings { SameSettings de.old.decoder de.new.decoder }
{
    match slot {
        Some(_) => false,
        None => match <A::Of as Readable>::at_hand(de) {
            Some(value) => {
                *slot = Some(A::given(value));
                true
            }
            None => false,
        },
    }
}

// Reads it so where the source can bring it to hand.
#[tactic(auto, using(cbor_read::proofs::facts::Sources::stays_same))]
fn slot_gathered<R: Source, A: FieldType>(de: &mut Deserializer<R>, slot: &mut Option<A>) -> bool
    ensures read { MatchBool result
        (TakesSlot (formats_of de.old.decoder.formats) de.old.decoder.levels R.refusals
        (A.reads (context de.old.decoder.formats R.lends)) slot.old slot.new
        (R.source de.old.decoder.source) (R.source de.new.decoder.source) (Ok tt))
        (Stays (R.source de.old.decoder.source) (R.source de.new.decoder.source)) }
    ensures held { OnFalse result (slot.new ≡ slot.old) }
    ensures forward { (R.source de.old.decoder.source).offset
        ≤ (R.source de.new.decoder.source).offset }
    ensures settings { SameSettings de.old.decoder de.new.decoder }
{
    match slot {
        Some(_) => false,
        None => match <A::Of as Readable>::gathered(de) {
            Some(value) => {
                *slot = Some(A::given(value));
                true
            }
            None => false,
        },
    }
}

// Reads the value of a field into its slot. A slot that has a value is refused with
// ``duplicate field `id` ``.
#[tactic(auto, using(cbor_de::proofs::facts::Forms::plain))]
fn fill_slot<'de, R: Read<'de>, A: FieldType>(
    de: &mut Deserializer<R>,
    name: &str,
    slot: &mut Option<A>,
) -> Result<()>
where
    A::Of: Deserialize<'de, R>,
    ensures read { TakesSlot (formats_of de.old.decoder.formats) de.old.decoder.levels R.refusals
        (A.reads (context de.old.decoder.formats R.lends)) slot.old slot.new
        (R.source de.old.decoder.source) (R.source de.new.decoder.source) result }
    ensures twice { IfErr result (λ e. is_some slot.old ≡ true
        → IsMessageOf (Some (duplicate_text name.now)) (code_of e)) }
    ensures form { IfErr result (call.MayReport R.source A.Of.wrong_forms de.old) }
    ensures fault { IfErr result (call.OwnFault R.source R.refusals
        (call.reports_any A.Of.passes_over A.Of.total A.Of.reports_faults) de.old) }
    ensures memory { IfErr result (MemoryForSlot (formats_of de.old.decoder.formats)
        de.old.decoder.levels (A.Of.asks_memory (asks_for R.refusals R.lends))
        (A.reads (context de.old.decoder.formats R.lends)) slot.old
        (R.source de.old.decoder.source)) }
    ensures forward { IfOk result (λ u. (R.source de.old.decoder.source).offset
        ≤ (R.source de.new.decoder.source).offset) }
    ensures settings { SameSettings de.old.decoder de.new.decoder }
{
    if slot.is_some() {
        return Err(duplicate_field(de.alloc(), name));
    }
    match <A::Of as Deserialize<'de, R>>::deserialize(de) {
        Ok(value) => {
            *slot = Some(A::given(value));
            Ok(())
        }
        Err(e) => Err(e),
    }
}

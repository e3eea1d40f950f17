//! Structs that are read as tuples of their fields.
//!
//! Each type of a user's that is described so has to show that its fields are read, which is most
//! of what a check of it takes. So up to four fields ask for what their types promise
//! (`Deserialize`), which is the shortest to show. More, in `fields_to_eight` and
//! `fields_to_twelve`, ask for one promise of each field (`ReadField`) and of the list of those
//! behind the fourth, since the functions there, proved once, would take minutes else.

use crate::field_list::read_fields;
use crate::parts::{ReadParts, ReadableParts};
use cbor_de::{Deserialize, Deserializer, FieldType, Read};
use cbor_io::error::Result;
use cbor_parts::FieldKeys;

impl<A: FieldType> ReadableParts for (A,) {
    ghost use Rattle.std.specs.Prelude.{[], ◌∷◌, true};
    ghost use Rattle.cbor_de.specs.Calls.{and_reports, reports_any};
    ghost use Rattle.cbor_de.specs.Forms.{any_of, key_form, never};
    ghost use Rattle.cbor_de.specs.Structs.{IsKeyed, IsMapOf, field_or};
    ghost use Rattle.cbor_de.specs.StructMemory.{AsksForFields, field_then, passed_over};

    ghost reads = { λ keys c r x. IsMapOf {S = A × Unit {0}} (IsKeyed keys)
        (field_or (A.reads c) A.missing (λ p. p.0) ∷ [])
        r (x.0, tt) };

    ghost wrong_forms = { any_of key_form (any_of A.Of.wrong_forms never) };

    ghost reports_faults = { and_reports
        (reports_any A.Of.passes_over A.Of.total A.Of.reports_faults) true };

    ghost asks_memory = { λ keys a. AsksForFields (IsKeyed keys) a
        (field_then (A.Of.asks_memory a) (passed_over a)) };
}

impl<'de, R: Read<'de>, A: FieldType> ReadParts<'de, R> for (A,)
where
    A::Of: Deserialize<'de, R>,
{
    fn read_parts(de: &mut Deserializer<R>, keys: &FieldKeys<'_>) -> Result<(A,)> {
        match read_fields::<R, (A, ())>(de, keys) {
            Ok(parts) => {
                let (a, ()) = parts;
                Ok((a,))
            }
            Err(e) => Err(e),
        }
    }
}

impl<A: FieldType, B: FieldType> ReadableParts for (A, B) {
    ghost use Rattle.std.specs.Prelude.{[], ◌∷◌, true};
    ghost use Rattle.cbor_de.specs.Calls.{and_reports, reports_any};
    ghost use Rattle.cbor_de.specs.Forms.{any_of, key_form, never};
    ghost use Rattle.cbor_de.specs.Structs.{IsKeyed, IsMapOf, field_or};
    ghost use Rattle.cbor_de.specs.StructMemory.{AsksForFields, field_then, passed_over};

    ghost reads = { λ keys c r x. IsMapOf {S = A × (B × Unit {0})} (IsKeyed keys)
        (field_or (A.reads c) A.missing (λ p. p.0)
        ∷ field_or (B.reads c) B.missing (λ p. p.1.0) ∷ [])
        r (x.0, (x.1, tt)) };

    ghost wrong_forms = { any_of key_form (any_of A.Of.wrong_forms
        (any_of B.Of.wrong_forms never)) };

    ghost reports_faults = { and_reports
        (reports_any A.Of.passes_over A.Of.total A.Of.reports_faults) (and_reports
        (reports_any B.Of.passes_over B.Of.total B.Of.reports_faults) true) };

    ghost asks_memory = { λ keys a. AsksForFields (IsKeyed keys) a
        (field_then (A.Of.asks_memory a) (field_then (B.Of.asks_memory a) (passed_over a))) };
}

impl<'de, R: Read<'de>, A: FieldType, B: FieldType> ReadParts<'de, R> for (A, B)
where
    A::Of: Deserialize<'de, R>,
    B::Of: Deserialize<'de, R>,
{
    fn read_parts(de: &mut Deserializer<R>, keys: &FieldKeys<'_>) -> Result<(A, B)> {
        match read_fields::<R, (A, (B, ()))>(de, keys) {
            Ok(parts) => {
                let (a, (b, ())) = parts;
                Ok((a, b))
            }
            Err(e) => Err(e),
        }
    }
}

impl<A: FieldType, B: FieldType, C: FieldType> ReadableParts for (A, B, C) {
    ghost use Rattle.std.specs.Prelude.{[], ◌∷◌, true};
    ghost use Rattle.cbor_de.specs.Calls.{and_reports, reports_any};
    ghost use Rattle.cbor_de.specs.Forms.{any_of, key_form, never};
    ghost use Rattle.cbor_de.specs.Structs.{IsKeyed, IsMapOf, field_or};
    ghost use Rattle.cbor_de.specs.StructMemory.{AsksForFields, field_then, passed_over};

    ghost reads = { λ keys c r x. IsMapOf {S = A × (B × (C × Unit {0}))} (IsKeyed keys)
        (field_or (A.reads c) A.missing (λ p. p.0)
        ∷ field_or (B.reads c) B.missing (λ p. p.1.0)
        ∷ field_or (C.reads c) C.missing (λ p. p.1.1.0) ∷ [])
        r (x.0, (x.1, (x.2, tt))) };

    ghost wrong_forms = { any_of key_form (any_of A.Of.wrong_forms (any_of B.Of.wrong_forms
        (any_of C.Of.wrong_forms never))) };

    ghost reports_faults = { and_reports
        (reports_any A.Of.passes_over A.Of.total A.Of.reports_faults) (and_reports
        (reports_any B.Of.passes_over B.Of.total B.Of.reports_faults) (and_reports
        (reports_any C.Of.passes_over C.Of.total C.Of.reports_faults) true)) };

    ghost asks_memory = { λ keys a. AsksForFields (IsKeyed keys) a
        (field_then (A.Of.asks_memory a) (field_then (B.Of.asks_memory a)
        (field_then (C.Of.asks_memory a) (passed_over a)))) };
}

impl<'de, R: Read<'de>, A: FieldType, B: FieldType, C: FieldType> ReadParts<'de, R> for (A, B, C)
where
    A::Of: Deserialize<'de, R>,
    B::Of: Deserialize<'de, R>,
    C::Of: Deserialize<'de, R>,
{
    fn read_parts(de: &mut Deserializer<R>, keys: &FieldKeys<'_>) -> Result<(A, B, C)> {
        match read_fields::<R, (A, (B, (C, ())))>(de, keys) {
            Ok(parts) => {
                let (a, (b, (c, ()))) = parts;
                Ok((a, b, c))
            }
            Err(e) => Err(e),
        }
    }
}

impl<A: FieldType, B: FieldType, C: FieldType, D: FieldType> ReadableParts for (A, B, C, D) {
    ghost use Rattle.std.specs.Prelude.{[], ◌∷◌, true};
    ghost use Rattle.cbor_de.specs.Calls.{and_reports, reports_any};
    ghost use Rattle.cbor_de.specs.Forms.{any_of, key_form, never};
    ghost use Rattle.cbor_de.specs.Structs.{IsKeyed, IsMapOf, field_or};
    ghost use Rattle.cbor_de.specs.StructMemory.{AsksForFields, field_then, passed_over};

    ghost reads = { λ keys c r x. IsMapOf {S = A × B × C × D × Unit {0}} (IsKeyed keys)
        (field_or (A.reads c) A.missing (λ p. p.0)
        ∷ field_or (B.reads c) B.missing (λ p. p.1)
        ∷ field_or (C.reads c) C.missing (λ p. p.2)
        ∷ field_or (D.reads c) D.missing (λ p. p.3) ∷ [])
        r (x.0, x.1, x.2, x.3, tt) };

    ghost wrong_forms = { any_of key_form (any_of A.Of.wrong_forms (any_of B.Of.wrong_forms
        (any_of C.Of.wrong_forms (any_of D.Of.wrong_forms never)))) };

    ghost reports_faults = { and_reports
        (reports_any A.Of.passes_over A.Of.total A.Of.reports_faults) (and_reports
        (reports_any B.Of.passes_over B.Of.total B.Of.reports_faults) (and_reports
        (reports_any C.Of.passes_over C.Of.total C.Of.reports_faults) (and_reports
        (reports_any D.Of.passes_over D.Of.total D.Of.reports_faults) true))) };

    ghost asks_memory = { λ keys a. AsksForFields (IsKeyed keys) a
        (field_then (A.Of.asks_memory a) (field_then (B.Of.asks_memory a)
        (field_then (C.Of.asks_memory a) (field_then (D.Of.asks_memory a) (passed_over a))))) };
}

impl<'de, R: Read<'de>, A: FieldType, B: FieldType, C: FieldType, D: FieldType> ReadParts<'de, R>
    for (A, B, C, D)
where
    A::Of: Deserialize<'de, R>,
    B::Of: Deserialize<'de, R>,
    C::Of: Deserialize<'de, R>,
    D::Of: Deserialize<'de, R>,
{
    fn read_parts(de: &mut Deserializer<R>, keys: &FieldKeys<'_>) -> Result<(A, B, C, D)> {
        match read_fields::<R, (A, B, C, D, ())>(de, keys) {
            Ok(parts) => {
                let (a, b, c, d, ()) = parts;
                Ok((a, b, c, d))
            }
            Err(e) => Err(e),
        }
    }
}

//! Structs of five to eight fields, that are read as tuples of them.

use crate::field_list::{ReadFields, read_fields};
use crate::field_slot::ReadField;
use crate::parts::{ReadParts, ReadableParts};
use cbor_de::{Deserializer, FieldType, Read};
use cbor_io::error::Result;
use cbor_parts::FieldKeys;

impl<A: FieldType, B: FieldType, C: FieldType, D: FieldType, E: FieldType> ReadableParts
    for (A, B, C, D, E) {
    ghost use Rattle.std.specs.Prelude.{[], ◌∷◌, true};
    ghost use Rattle.cbor_de.specs.Calls.{and_reports, reports_any};
    ghost use Rattle.cbor_de.specs.Forms.{any_of, key_form, never};
    ghost use Rattle.cbor_de.specs.Structs.{IsKeyed, IsMapOf, field_or};
    ghost use Rattle.cbor_de.specs.StructMemory.{AsksForFields, field_then, passed_over};

    ghost reads = { λ keys c r x. IsMapOf {S = A × B × C × D × (E × Unit {0})} (IsKeyed keys)
        (field_or (A.reads c) A.missing (λ p. p.0)
        ∷ field_or (B.reads c) B.missing (λ p. p.1)
        ∷ field_or (C.reads c) C.missing (λ p. p.2)
        ∷ field_or (D.reads c) D.missing (λ p. p.3)
        ∷ field_or (E.reads c) E.missing (λ p. p.4.0) ∷ [])
        r (x.0, x.1, x.2, x.3, (x.4, tt)) };

    ghost wrong_forms = { any_of key_form (any_of A.Of.wrong_forms (any_of B.Of.wrong_forms
        (any_of C.Of.wrong_forms (any_of D.Of.wrong_forms (any_of E.Of.wrong_forms never))))) };

    ghost reports_faults = { and_reports
        (reports_any A.Of.passes_over A.Of.total A.Of.reports_faults) (and_reports
        (reports_any B.Of.passes_over B.Of.total B.Of.reports_faults) (and_reports
        (reports_any C.Of.passes_over C.Of.total C.Of.reports_faults) (and_reports
        (reports_any D.Of.passes_over D.Of.total D.Of.reports_faults) (and_reports
        (reports_any E.Of.passes_over E.Of.total E.Of.reports_faults) true)))) };

    ghost asks_memory = { λ keys a. AsksForFields (IsKeyed keys) a
        (field_then (A.Of.asks_memory a) (field_then (B.Of.asks_memory a)
        (field_then (C.Of.asks_memory a) (field_then (D.Of.asks_memory a)
        (field_then (E.Of.asks_memory a) (passed_over a)))))) };
}

impl<
    'de,
    R: Read<'de>,
    A: ReadField<'de, R>,
    B: ReadField<'de, R>,
    C: ReadField<'de, R>,
    D: ReadField<'de, R>,
    E: FieldType,
> ReadParts<'de, R> for (A, B, C, D, E)
where
    (E, ()): ReadFields<'de, R, Slots = (Option<E>, ())>,
{
    fn read_parts(de: &mut Deserializer<R>, keys: &FieldKeys<'_>) -> Result<(A, B, C, D, E)> {
        match read_fields::<R, (A, B, C, D, (E, ()))>(de, keys) {
            Ok(parts) => {
                let (a, b, c, d, (e, ())) = parts;
                Ok((a, b, c, d, e))
            }
            Err(e) => Err(e),
        }
    }
}

impl<
    A: FieldType,
    B: FieldType,
    C: FieldType,
    D: FieldType,
    E: FieldType,
    F: FieldType,
> ReadableParts for (A, B, C, D, E, F) {
    ghost use Rattle.std.specs.Prelude.{[], ◌∷◌, true};
    ghost use Rattle.cbor_de.specs.Calls.{and_reports, reports_any};
    ghost use Rattle.cbor_de.specs.Forms.{any_of, key_form, never};
    ghost use Rattle.cbor_de.specs.Structs.{IsKeyed, IsMapOf, field_or};
    ghost use Rattle.cbor_de.specs.StructMemory.{AsksForFields, field_then, passed_over};

    ghost reads = { λ keys c r x. IsMapOf {S = A × B × C × D × (E × (F × Unit {0}))} (IsKeyed keys)
        (field_or (A.reads c) A.missing (λ p. p.0)
        ∷ field_or (B.reads c) B.missing (λ p. p.1)
        ∷ field_or (C.reads c) C.missing (λ p. p.2)
        ∷ field_or (D.reads c) D.missing (λ p. p.3)
        ∷ field_or (E.reads c) E.missing (λ p. p.4.0)
        ∷ field_or (F.reads c) F.missing (λ p. p.4.1.0) ∷ [])
        r (x.0, x.1, x.2, x.3, (x.4, (x.5, tt))) };

    ghost wrong_forms = { any_of key_form (any_of A.Of.wrong_forms (any_of B.Of.wrong_forms
        (any_of C.Of.wrong_forms (any_of D.Of.wrong_forms (any_of E.Of.wrong_forms
        (any_of F.Of.wrong_forms never)))))) };

    ghost reports_faults = { and_reports
        (reports_any A.Of.passes_over A.Of.total A.Of.reports_faults) (and_reports
        (reports_any B.Of.passes_over B.Of.total B.Of.reports_faults) (and_reports
        (reports_any C.Of.passes_over C.Of.total C.Of.reports_faults) (and_reports
        (reports_any D.Of.passes_over D.Of.total D.Of.reports_faults) (and_reports
        (reports_any E.Of.passes_over E.Of.total E.Of.reports_faults) (and_reports
        (reports_any F.Of.passes_over F.Of.total F.Of.reports_faults) true))))) };

    ghost asks_memory = { λ keys a. AsksForFields (IsKeyed keys) a
        (field_then (A.Of.asks_memory a) (field_then (B.Of.asks_memory a)
        (field_then (C.Of.asks_memory a) (field_then (D.Of.asks_memory a)
        (field_then (E.Of.asks_memory a) (field_then (F.Of.asks_memory a)
        (passed_over a))))))) };
}

impl<
    'de,
    R: Read<'de>,
    A: ReadField<'de, R>,
    B: ReadField<'de, R>,
    C: ReadField<'de, R>,
    D: ReadField<'de, R>,
    E: FieldType,
    F: FieldType,
> ReadParts<'de, R> for (A, B, C, D, E, F)
where
    (E, (F, ())): ReadFields<'de, R, Slots = (Option<E>, (Option<F>, ()))>,
{
    fn read_parts(de: &mut Deserializer<R>, keys: &FieldKeys<'_>) -> Result<(A, B, C, D, E, F)> {
        match read_fields::<R, (A, B, C, D, (E, (F, ())))>(de, keys) {
            Ok(parts) => {
                let (a, b, c, d, (e, (f, ()))) = parts;
                Ok((a, b, c, d, e, f))
            }
            Err(e) => Err(e),
        }
    }
}

impl<
    A: FieldType,
    B: FieldType,
    C: FieldType,
    D: FieldType,
    E: FieldType,
    F: FieldType,
    G: FieldType,
> ReadableParts for (A, B, C, D, E, F, G) {
    ghost use Rattle.std.specs.Prelude.{[], ◌∷◌, true};
    ghost use Rattle.cbor_de.specs.Calls.{and_reports, reports_any};
    ghost use Rattle.cbor_de.specs.Forms.{any_of, key_form, never};
    ghost use Rattle.cbor_de.specs.Structs.{IsKeyed, IsMapOf, field_or};
    ghost use Rattle.cbor_de.specs.StructMemory.{AsksForFields, field_then, passed_over};

    ghost reads = { λ keys c r x. IsMapOf {S = A × B × C × D × (E × (F × (G × Unit {0})))} (IsKeyed keys)
        (field_or (A.reads c) A.missing (λ p. p.0)
        ∷ field_or (B.reads c) B.missing (λ p. p.1)
        ∷ field_or (C.reads c) C.missing (λ p. p.2)
        ∷ field_or (D.reads c) D.missing (λ p. p.3)
        ∷ field_or (E.reads c) E.missing (λ p. p.4.0)
        ∷ field_or (F.reads c) F.missing (λ p. p.4.1.0)
        ∷ field_or (G.reads c) G.missing (λ p. p.4.1.1.0) ∷ [])
        r (x.0, x.1, x.2, x.3, (x.4, (x.5, (x.6, tt)))) };

    ghost wrong_forms = { any_of key_form (any_of A.Of.wrong_forms (any_of B.Of.wrong_forms
        (any_of C.Of.wrong_forms (any_of D.Of.wrong_forms (any_of E.Of.wrong_forms
        (any_of F.Of.wrong_forms
        (any_of G.Of.wrong_forms never))))))) };

    ghost reports_faults = { and_reports
        (reports_any A.Of.passes_over A.Of.total A.Of.reports_faults) (and_reports
        (reports_any B.Of.passes_over B.Of.total B.Of.reports_faults) (and_reports
        (reports_any C.Of.passes_over C.Of.total C.Of.reports_faults) (and_reports
        (reports_any D.Of.passes_over D.Of.total D.Of.reports_faults) (and_reports
        (reports_any E.Of.passes_over E.Of.total E.Of.reports_faults) (and_reports
        (reports_any F.Of.passes_over F.Of.total F.Of.reports_faults) (and_reports
        (reports_any G.Of.passes_over G.Of.total G.Of.reports_faults) true)))))) };

    ghost asks_memory = { λ keys a. AsksForFields (IsKeyed keys) a
        (field_then (A.Of.asks_memory a) (field_then (B.Of.asks_memory a)
        (field_then (C.Of.asks_memory a) (field_then (D.Of.asks_memory a)
        (field_then (E.Of.asks_memory a) (field_then (F.Of.asks_memory a)
        (field_then (G.Of.asks_memory a) (passed_over a)))))))) };
}

impl<
    'de,
    R: Read<'de>,
    A: ReadField<'de, R>,
    B: ReadField<'de, R>,
    C: ReadField<'de, R>,
    D: ReadField<'de, R>,
    E: FieldType,
    F: FieldType,
    G: FieldType,
> ReadParts<'de, R> for (A, B, C, D, E, F, G)
where
    (E, (F, (G, ()))): ReadFields<'de, R, Slots = (Option<E>, (Option<F>, (Option<G>, ())))>,
{
    fn read_parts(de: &mut Deserializer<R>, keys: &FieldKeys<'_>) -> Result<(A, B, C, D, E, F, G)> {
        match read_fields::<R, (A, B, C, D, (E, (F, (G, ()))))>(de, keys) {
            Ok(parts) => {
                let (a, b, c, d, (e, (f, (g, ())))) = parts;
                Ok((a, b, c, d, e, f, g))
            }
            Err(e) => Err(e),
        }
    }
}

impl<
    A: FieldType,
    B: FieldType,
    C: FieldType,
    D: FieldType,
    E: FieldType,
    F: FieldType,
    G: FieldType,
    H: FieldType,
> ReadableParts for (A, B, C, D, E, F, G, H) {
    ghost use Rattle.std.specs.Prelude.{[], ◌∷◌, true};
    ghost use Rattle.cbor_de.specs.Calls.{and_reports, reports_any};
    ghost use Rattle.cbor_de.specs.Forms.{any_of, key_form, never};
    ghost use Rattle.cbor_de.specs.Structs.{IsKeyed, IsMapOf, field_or};
    ghost use Rattle.cbor_de.specs.StructMemory.{AsksForFields, field_then, passed_over};

    ghost reads = { λ keys c r x. IsMapOf {S = A × B × C × D × (E × F × G × H × Unit {0})} (IsKeyed keys)
        (field_or (A.reads c) A.missing (λ p. p.0)
        ∷ field_or (B.reads c) B.missing (λ p. p.1)
        ∷ field_or (C.reads c) C.missing (λ p. p.2)
        ∷ field_or (D.reads c) D.missing (λ p. p.3)
        ∷ field_or (E.reads c) E.missing (λ p. p.4.0)
        ∷ field_or (F.reads c) F.missing (λ p. p.4.1)
        ∷ field_or (G.reads c) G.missing (λ p. p.4.2)
        ∷ field_or (H.reads c) H.missing (λ p. p.4.3) ∷ [])
        r (x.0, x.1, x.2, x.3, (x.4, x.5, x.6, x.7, tt)) };

    ghost wrong_forms = { any_of key_form (any_of A.Of.wrong_forms (any_of B.Of.wrong_forms
        (any_of C.Of.wrong_forms (any_of D.Of.wrong_forms (any_of E.Of.wrong_forms
        (any_of F.Of.wrong_forms
        (any_of G.Of.wrong_forms (any_of H.Of.wrong_forms never)))))))) };

    ghost reports_faults = { and_reports
        (reports_any A.Of.passes_over A.Of.total A.Of.reports_faults) (and_reports
        (reports_any B.Of.passes_over B.Of.total B.Of.reports_faults) (and_reports
        (reports_any C.Of.passes_over C.Of.total C.Of.reports_faults) (and_reports
        (reports_any D.Of.passes_over D.Of.total D.Of.reports_faults) (and_reports
        (reports_any E.Of.passes_over E.Of.total E.Of.reports_faults) (and_reports
        (reports_any F.Of.passes_over F.Of.total F.Of.reports_faults) (and_reports
        (reports_any G.Of.passes_over G.Of.total G.Of.reports_faults) (and_reports
        (reports_any H.Of.passes_over H.Of.total H.Of.reports_faults) true))))))) };

    ghost asks_memory = { λ keys a. AsksForFields (IsKeyed keys) a
        (field_then (A.Of.asks_memory a) (field_then (B.Of.asks_memory a)
        (field_then (C.Of.asks_memory a) (field_then (D.Of.asks_memory a)
        (field_then (E.Of.asks_memory a) (field_then (F.Of.asks_memory a)
        (field_then (G.Of.asks_memory a) (field_then (H.Of.asks_memory a)
        (passed_over a))))))))) };
}

impl<
    'de,
    R: Read<'de>,
    A: ReadField<'de, R>,
    B: ReadField<'de, R>,
    C: ReadField<'de, R>,
    D: ReadField<'de, R>,
    E: FieldType,
    F: FieldType,
    G: FieldType,
    H: FieldType,
> ReadParts<'de, R> for (A, B, C, D, E, F, G, H)
where
    (E, F, G, H, ()): ReadFields<'de, R, Slots = (Option<E>, Option<F>, Option<G>, Option<H>, ())>,
{
    fn read_parts(
        de: &mut Deserializer<R>,
        keys: &FieldKeys<'_>,
    ) -> Result<(A, B, C, D, E, F, G, H)> {
        match read_fields::<R, (A, B, C, D, (E, F, G, H, ()))>(de, keys) {
            Ok(parts) => {
                let (a, b, c, d, (e, f, g, h, ())) = parts;
                Ok((a, b, c, d, e, f, g, h))
            }
            Err(e) => Err(e),
        }
    }
}

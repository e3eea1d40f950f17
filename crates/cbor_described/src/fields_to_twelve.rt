//! Structs of nine to twelve fields, that are read as tuples of them.

use crate::field_list::{ReadFields, read_fields};
use crate::field_slot::ReadField;
use crate::parts::{ReadParts, ReadableParts};
use cbor_de::{Deserializer, FieldType, Read};
use cbor_io::error::Result;
use cbor_parts::FieldKeys;

impl<
    A: FieldType,
    B: FieldType,
    C: FieldType,
    D: FieldType,
    E: FieldType,
    F: FieldType,
    G: FieldType,
    H: FieldType,
    I: FieldType,
> ReadableParts for (A, B, C, D, E, F, G, H, I) {
    ghost use Rattle.std.specs.Prelude.{[], ◌∷◌, true};
    ghost use Rattle.cbor_de.specs.Calls.{and_reports, reports_any};
    ghost use Rattle.cbor_de.specs.Forms.{any_of, key_form, never};
    ghost use Rattle.cbor_de.specs.Structs.{IsKeyed, IsMapOf, field_or};
    ghost use Rattle.cbor_de.specs.StructMemory.{AsksForFields, field_then, passed_over};

    ghost reads = { λ keys c r x. IsMapOf
        {S = A × B × C × D × (E × F × G × H × (I × Unit {0}))} (IsKeyed keys)
        (field_or (A.reads c) A.missing (λ p. p.0)
        ∷ field_or (B.reads c) B.missing (λ p. p.1)
        ∷ field_or (C.reads c) C.missing (λ p. p.2)
        ∷ field_or (D.reads c) D.missing (λ p. p.3)
        ∷ field_or (E.reads c) E.missing (λ p. p.4.0)
        ∷ field_or (F.reads c) F.missing (λ p. p.4.1)
        ∷ field_or (G.reads c) G.missing (λ p. p.4.2)
        ∷ field_or (H.reads c) H.missing (λ p. p.4.3)
        ∷ field_or (I.reads c) I.missing (λ p. p.4.4.0) ∷ [])
        r (x.0, x.1, x.2, x.3, (x.4, x.5, x.6, x.7, (x.8, tt))) };

    ghost wrong_forms = { any_of key_form (any_of A.Of.wrong_forms (any_of B.Of.wrong_forms
        (any_of C.Of.wrong_forms (any_of D.Of.wrong_forms (any_of E.Of.wrong_forms
        (any_of F.Of.wrong_forms
        (any_of G.Of.wrong_forms (any_of H.Of.wrong_forms (any_of I.Of.wrong_forms never))))))))) };

    ghost reports_faults = { and_reports
        (reports_any A.Of.passes_over A.Of.total A.Of.reports_faults) (and_reports
        (reports_any B.Of.passes_over B.Of.total B.Of.reports_faults) (and_reports
        (reports_any C.Of.passes_over C.Of.total C.Of.reports_faults) (and_reports
        (reports_any D.Of.passes_over D.Of.total D.Of.reports_faults) (and_reports
        (reports_any E.Of.passes_over E.Of.total E.Of.reports_faults) (and_reports
        (reports_any F.Of.passes_over F.Of.total F.Of.reports_faults) (and_reports
        (reports_any G.Of.passes_over G.Of.total G.Of.reports_faults) (and_reports
        (reports_any H.Of.passes_over H.Of.total H.Of.reports_faults) (and_reports
        (reports_any I.Of.passes_over I.Of.total I.Of.reports_faults) true)))))))) };

    ghost asks_memory = { λ keys a. AsksForFields (IsKeyed keys) a
        (field_then (A.Of.asks_memory a) (field_then (B.Of.asks_memory a)
        (field_then (C.Of.asks_memory a) (field_then (D.Of.asks_memory a)
        (field_then (E.Of.asks_memory a) (field_then (F.Of.asks_memory a)
        (field_then (G.Of.asks_memory a) (field_then (H.Of.asks_memory a)
        (field_then (I.Of.asks_memory a) (passed_over a)))))))))) };
}

impl<
    'de,
    R: Read<'de>,
    A: ReadField<'de, R>,
    B: ReadField<'de, R>,
    C: ReadField<'de, R>,
    D: ReadField<'de, R>,
    E: FieldType,
    F: FieldType,
    G: FieldType,
    H: FieldType,
    I: FieldType,
> ReadParts<'de, R> for (A, B, C, D, E, F, G, H, I)
where
    (E, F, G, H, (I, ())): ReadFields<
        'de,
        R,
        Slots = (Option<E>, Option<F>, Option<G>, Option<H>, (Option<I>, ())),
    >,
{
    fn read_parts(
        de: &mut Deserializer<R>,
        keys: &FieldKeys<'_>,
    ) -> Result<(A, B, C, D, E, F, G, H, I)> {
        match read_fields::<R, (A, B, C, D, (E, F, G, H, (I, ())))>(de, keys) {
            Ok(parts) => {
                let (a, b, c, d, (e, f, g, h, (i, ()))) = parts;
                Ok((a, b, c, d, e, f, g, h, i))
            }
            Err(e) => Err(e),
        }
    }
}

impl<
    A: FieldType,
    B: FieldType,
    C: FieldType,
    D: FieldType,
    E: FieldType,
    F: FieldType,
    G: FieldType,
    H: FieldType,
    I: FieldType,
    J: FieldType,
> ReadableParts for (A, B, C, D, E, F, G, H, I, J) {
    ghost use Rattle.std.specs.Prelude.{[], ◌∷◌, true};
    ghost use Rattle.cbor_de.specs.Calls.{and_reports, reports_any};
    ghost use Rattle.cbor_de.specs.Forms.{any_of, key_form, never};
    ghost use Rattle.cbor_de.specs.Structs.{IsKeyed, IsMapOf, field_or};
    ghost use Rattle.cbor_de.specs.StructMemory.{AsksForFields, field_then, passed_over};

    ghost reads = { λ keys c r x. IsMapOf
        {S = A × B × C × D × (E × F × G × H × (I × (J × Unit {0})))} (IsKeyed keys)
        (field_or (A.reads c) A.missing (λ p. p.0)
        ∷ field_or (B.reads c) B.missing (λ p. p.1)
        ∷ field_or (C.reads c) C.missing (λ p. p.2)
        ∷ field_or (D.reads c) D.missing (λ p. p.3)
        ∷ field_or (E.reads c) E.missing (λ p. p.4.0)
        ∷ field_or (F.reads c) F.missing (λ p. p.4.1)
        ∷ field_or (G.reads c) G.missing (λ p. p.4.2)
        ∷ field_or (H.reads c) H.missing (λ p. p.4.3)
        ∷ field_or (I.reads c) I.missing (λ p. p.4.4.0)
        ∷ field_or (J.reads c) J.missing (λ p. p.4.4.1.0) ∷ [])
        r (x.0, x.1, x.2, x.3, (x.4, x.5, x.6, x.7, (x.8, (x.9, tt)))) };

    ghost wrong_forms = { any_of key_form (any_of A.Of.wrong_forms (any_of B.Of.wrong_forms
        (any_of C.Of.wrong_forms (any_of D.Of.wrong_forms (any_of E.Of.wrong_forms
        (any_of F.Of.wrong_forms
        (any_of G.Of.wrong_forms (any_of H.Of.wrong_forms (any_of I.Of.wrong_forms
        (any_of J.Of.wrong_forms never)))))))))) };

    ghost reports_faults = { and_reports
        (reports_any A.Of.passes_over A.Of.total A.Of.reports_faults) (and_reports
        (reports_any B.Of.passes_over B.Of.total B.Of.reports_faults) (and_reports
        (reports_any C.Of.passes_over C.Of.total C.Of.reports_faults) (and_reports
        (reports_any D.Of.passes_over D.Of.total D.Of.reports_faults) (and_reports
        (reports_any E.Of.passes_over E.Of.total E.Of.reports_faults) (and_reports
        (reports_any F.Of.passes_over F.Of.total F.Of.reports_faults) (and_reports
        (reports_any G.Of.passes_over G.Of.total G.Of.reports_faults) (and_reports
        (reports_any H.Of.passes_over H.Of.total H.Of.reports_faults) (and_reports
        (reports_any I.Of.passes_over I.Of.total I.Of.reports_faults) (and_reports
        (reports_any J.Of.passes_over J.Of.total J.Of.reports_faults) true))))))))) };

    ghost asks_memory = { λ keys a. AsksForFields (IsKeyed keys) a
        (field_then (A.Of.asks_memory a) (field_then (B.Of.asks_memory a)
        (field_then (C.Of.asks_memory a) (field_then (D.Of.asks_memory a)
        (field_then (E.Of.asks_memory a) (field_then (F.Of.asks_memory a)
        (field_then (G.Of.asks_memory a) (field_then (H.Of.asks_memory a)
        (field_then (I.Of.asks_memory a) (field_then (J.Of.asks_memory a)
        (passed_over a))))))))))) };
}

impl<
    'de,
    R: Read<'de>,
    A: ReadField<'de, R>,
    B: ReadField<'de, R>,
    C: ReadField<'de, R>,
    D: ReadField<'de, R>,
    E: FieldType,
    F: FieldType,
    G: FieldType,
    H: FieldType,
    I: FieldType,
    J: FieldType,
> ReadParts<'de, R> for (A, B, C, D, E, F, G, H, I, J)
where
    (E, F, G, H, (I, (J, ()))): ReadFields<
        'de,
        R,
        Slots = (
            Option<E>,
            Option<F>,
            Option<G>,
            Option<H>,
            (Option<I>, (Option<J>, ())),
        ),
    >,
{
    fn read_parts(
        de: &mut Deserializer<R>,
        keys: &FieldKeys<'_>,
    ) -> Result<(A, B, C, D, E, F, G, H, I, J)> {
        match read_fields::<R, (A, B, C, D, (E, F, G, H, (I, (J, ()))))>(de, keys) {
            Ok(parts) => {
                let (a, b, c, d, (e, f, g, h, (i, (j, ())))) = parts;
                Ok((a, b, c, d, e, f, g, h, i, j))
            }
            Err(e) => Err(e),
        }
    }
}

impl<
    A: FieldType,
    B: FieldType,
    C: FieldType,
    D: FieldType,
    E: FieldType,
    F: FieldType,
    G: FieldType,
    H: FieldType,
    I: FieldType,
    J: FieldType,
    K: FieldType,
> ReadableParts for (A, B, C, D, E, F, G, H, I, J, K) {
    ghost use Rattle.std.specs.Prelude.{[], ◌∷◌, true};
    ghost use Rattle.cbor_de.specs.Calls.{and_reports, reports_any};
    ghost use Rattle.cbor_de.specs.Forms.{any_of, key_form, never};
    ghost use Rattle.cbor_de.specs.Structs.{IsKeyed, IsMapOf, field_or};
    ghost use Rattle.cbor_de.specs.StructMemory.{AsksForFields, field_then, passed_over};

    ghost reads = { λ keys c r x. IsMapOf
        {S = A × B × C × D × (E × F × G × H × (I × (J × (K × Unit {0}))))} (IsKeyed keys)
        (field_or (A.reads c) A.missing (λ p. p.0)
        ∷ field_or (B.reads c) B.missing (λ p. p.1)
        ∷ field_or (C.reads c) C.missing (λ p. p.2)
        ∷ field_or (D.reads c) D.missing (λ p. p.3)
        ∷ field_or (E.reads c) E.missing (λ p. p.4.0)
        ∷ field_or (F.reads c) F.missing (λ p. p.4.1)
        ∷ field_or (G.reads c) G.missing (λ p. p.4.2)
        ∷ field_or (H.reads c) H.missing (λ p. p.4.3)
        ∷ field_or (I.reads c) I.missing (λ p. p.4.4.0)
        ∷ field_or (J.reads c) J.missing (λ p. p.4.4.1.0)
        ∷ field_or (K.reads c) K.missing (λ p. p.4.4.1.1.0) ∷ [])
        r (x.0, x.1, x.2, x.3, (x.4, x.5, x.6, x.7, (x.8, (x.9, (x.10, tt))))) };

    ghost wrong_forms = { any_of key_form (any_of A.Of.wrong_forms (any_of B.Of.wrong_forms
        (any_of C.Of.wrong_forms (any_of D.Of.wrong_forms (any_of E.Of.wrong_forms
        (any_of F.Of.wrong_forms
        (any_of G.Of.wrong_forms (any_of H.Of.wrong_forms (any_of I.Of.wrong_forms
        (any_of J.Of.wrong_forms
        (any_of K.Of.wrong_forms never))))))))))) };

    ghost reports_faults = { and_reports
        (reports_any A.Of.passes_over A.Of.total A.Of.reports_faults) (and_reports
        (reports_any B.Of.passes_over B.Of.total B.Of.reports_faults) (and_reports
        (reports_any C.Of.passes_over C.Of.total C.Of.reports_faults) (and_reports
        (reports_any D.Of.passes_over D.Of.total D.Of.reports_faults) (and_reports
        (reports_any E.Of.passes_over E.Of.total E.Of.reports_faults) (and_reports
        (reports_any F.Of.passes_over F.Of.total F.Of.reports_faults) (and_reports
        (reports_any G.Of.passes_over G.Of.total G.Of.reports_faults) (and_reports
        (reports_any H.Of.passes_over H.Of.total H.Of.reports_faults) (and_reports
        (reports_any I.Of.passes_over I.Of.total I.Of.reports_faults) (and_reports
        (reports_any J.Of.passes_over J.Of.total J.Of.reports_faults) (and_reports
        (reports_any K.Of.passes_over K.Of.total K.Of.reports_faults) true)))))))))) };

    ghost asks_memory = { λ keys a. AsksForFields (IsKeyed keys) a
        (field_then (A.Of.asks_memory a) (field_then (B.Of.asks_memory a)
        (field_then (C.Of.asks_memory a) (field_then (D.Of.asks_memory a)
        (field_then (E.Of.asks_memory a) (field_then (F.Of.asks_memory a)
        (field_then (G.Of.asks_memory a) (field_then (H.Of.asks_memory a)
        (field_then (I.Of.asks_memory a) (field_then (J.Of.asks_memory a)
        (field_then (K.Of.asks_memory a) (passed_over a)))))))))))) };
}

impl<
    'de,
    R: Read<'de>,
    A: ReadField<'de, R>,
    B: ReadField<'de, R>,
    C: ReadField<'de, R>,
    D: ReadField<'de, R>,
    E: FieldType,
    F: FieldType,
    G: FieldType,
    H: FieldType,
    I: FieldType,
    J: FieldType,
    K: FieldType,
> ReadParts<'de, R> for (A, B, C, D, E, F, G, H, I, J, K)
where
    (E, F, G, H, (I, (J, (K, ())))): ReadFields<
        'de,
        R,
        Slots = (
            Option<E>,
            Option<F>,
            Option<G>,
            Option<H>,
            (Option<I>, (Option<J>, (Option<K>, ()))),
        ),
    >,
{
    fn read_parts(
        de: &mut Deserializer<R>,
        keys: &FieldKeys<'_>,
    ) -> Result<(A, B, C, D, E, F, G, H, I, J, K)> {
        match read_fields::<R, (A, B, C, D, (E, F, G, H, (I, (J, (K, ())))))>(de, keys) {
            Ok(parts) => {
                let (a, b, c, d, (e, f, g, h, (i, (j, (k, ()))))) = parts;
                Ok((a, b, c, d, e, f, g, h, i, j, k))
            }
            Err(e) => Err(e),
        }
    }
}

impl<
    A: FieldType,
    B: FieldType,
    C: FieldType,
    D: FieldType,
    E: FieldType,
    F: FieldType,
    G: FieldType,
    H: FieldType,
    I: FieldType,
    J: FieldType,
    K: FieldType,
    L: FieldType,
> ReadableParts for (A, B, C, D, E, F, G, H, I, J, K, L) {
    ghost use Rattle.std.specs.Prelude.{[], ◌∷◌, true};
    ghost use Rattle.cbor_de.specs.Calls.{and_reports, reports_any};
    ghost use Rattle.cbor_de.specs.Forms.{any_of, key_form, never};
    ghost use Rattle.cbor_de.specs.Structs.{IsKeyed, IsMapOf, field_or};
    ghost use Rattle.cbor_de.specs.StructMemory.{AsksForFields, field_then, passed_over};

    ghost reads = { λ keys c r x. IsMapOf
        {S = A × B × C × D × (E × F × G × H × (I × J × K × L × Unit {0}))} (IsKeyed keys)
        (field_or (A.reads c) A.missing (λ p. p.0)
        ∷ field_or (B.reads c) B.missing (λ p. p.1)
        ∷ field_or (C.reads c) C.missing (λ p. p.2)
        ∷ field_or (D.reads c) D.missing (λ p. p.3)
        ∷ field_or (E.reads c) E.missing (λ p. p.4.0)
        ∷ field_or (F.reads c) F.missing (λ p. p.4.1)
        ∷ field_or (G.reads c) G.missing (λ p. p.4.2)
        ∷ field_or (H.reads c) H.missing (λ p. p.4.3)
        ∷ field_or (I.reads c) I.missing (λ p. p.4.4.0)
        ∷ field_or (J.reads c) J.missing (λ p. p.4.4.1)
        ∷ field_or (K.reads c) K.missing (λ p. p.4.4.2)
        ∷ field_or (L.reads c) L.missing (λ p. p.4.4.3) ∷ [])
        r (x.0, x.1, x.2, x.3, (x.4, x.5, x.6, x.7, (x.8, x.9, x.10, x.11, tt))) };

    ghost wrong_forms = { any_of key_form (any_of A.Of.wrong_forms (any_of B.Of.wrong_forms
        (any_of C.Of.wrong_forms (any_of D.Of.wrong_forms (any_of E.Of.wrong_forms
        (any_of F.Of.wrong_forms
        (any_of G.Of.wrong_forms (any_of H.Of.wrong_forms (any_of I.Of.wrong_forms
        (any_of J.Of.wrong_forms
        (any_of K.Of.wrong_forms (any_of L.Of.wrong_forms never)))))))))))) };

    ghost reports_faults = { and_reports
        (reports_any A.Of.passes_over A.Of.total A.Of.reports_faults) (and_reports
        (reports_any B.Of.passes_over B.Of.total B.Of.reports_faults) (and_reports
        (reports_any C.Of.passes_over C.Of.total C.Of.reports_faults) (and_reports
        (reports_any D.Of.passes_over D.Of.total D.Of.reports_faults) (and_reports
        (reports_any E.Of.passes_over E.Of.total E.Of.reports_faults) (and_reports
        (reports_any F.Of.passes_over F.Of.total F.Of.reports_faults) (and_reports
        (reports_any G.Of.passes_over G.Of.total G.Of.reports_faults) (and_reports
        (reports_any H.Of.passes_over H.Of.total H.Of.reports_faults) (and_reports
        (reports_any I.Of.passes_over I.Of.total I.Of.reports_faults) (and_reports
        (reports_any J.Of.passes_over J.Of.total J.Of.reports_faults) (and_reports
        (reports_any K.Of.passes_over K.Of.total K.Of.reports_faults) (and_reports
        (reports_any L.Of.passes_over L.Of.total L.Of.reports_faults) true))))))))))) };

    ghost asks_memory = { λ keys a. AsksForFields (IsKeyed keys) a
        (field_then (A.Of.asks_memory a) (field_then (B.Of.asks_memory a)
        (field_then (C.Of.asks_memory a) (field_then (D.Of.asks_memory a)
        (field_then (E.Of.asks_memory a) (field_then (F.Of.asks_memory a)
        (field_then (G.Of.asks_memory a) (field_then (H.Of.asks_memory a)
        (field_then (I.Of.asks_memory a) (field_then (J.Of.asks_memory a)
        (field_then (K.Of.asks_memory a) (field_then (L.Of.asks_memory a)
        (passed_over a))))))))))))) };
}

impl<
    'de,
    R: Read<'de>,
    A: ReadField<'de, R>,
    B: ReadField<'de, R>,
    C: ReadField<'de, R>,
    D: ReadField<'de, R>,
    E: FieldType,
    F: FieldType,
    G: FieldType,
    H: FieldType,
    I: FieldType,
    J: FieldType,
    K: FieldType,
    L: FieldType,
> ReadParts<'de, R> for (A, B, C, D, E, F, G, H, I, J, K, L)
where
    (E, F, G, H, (I, J, K, L, ())): ReadFields<
        'de,
        R,
        Slots = (
            Option<E>,
            Option<F>,
            Option<G>,
            Option<H>,
            (Option<I>, Option<J>, Option<K>, Option<L>, ()),
        ),
    >,
{
    fn read_parts(
        de: &mut Deserializer<R>,
        keys: &FieldKeys<'_>,
    ) -> Result<(A, B, C, D, E, F, G, H, I, J, K, L)> {
        match read_fields::<R, (A, B, C, D, (E, F, G, H, (I, J, K, L, ())))>(de, keys) {
            Ok(parts) => {
                let (a, b, c, d, (e, f, g, h, (i, j, k, l, ()))) = parts;
                Ok((a, b, c, d, e, f, g, h, i, j, k, l))
            }
            Err(e) => Err(e),
        }
    }
}

//! Tuples, as types, as the fields of a struct and as the parts of a variant.

use crate::parts::{FieldRoundTrip, FieldsRoundTrip, TupleRoundTrip};
use crate::round_trip::RoundTrip;

impl<A: RoundTrip> RoundTrip for (A,) {
    ghost use Rattle.cbor_round_trip.specs.Lists.{last_back, tuple_back};
    ghost use Rattle.cbor_round_trip.specs.TypeLaws.{law_of};

    ghost law = { law_of (tuple_back (last_back {part = λ t. t.0} A.law.back)) };

    ghost back = { tuple_back (last_back A.back) };
}

impl<A: RoundTrip, B: RoundTrip> RoundTrip for (A, B) {
    ghost use Rattle.cbor_round_trip.specs.Lists.{last_back, part_back, tuple_back};
    ghost use Rattle.cbor_round_trip.specs.PartsLaws.{tuple2};
    ghost use Rattle.cbor_round_trip.specs.TypeLaws.{law_of};

    ghost law = { law_of (tuple_back (tuple2 A.law B.law).back) };

    ghost back = { tuple_back (part_back A.back (last_back B.back)) };
}

impl<A: RoundTrip, B: RoundTrip, C: RoundTrip> RoundTrip for (A, B, C) {
    ghost use Rattle.cbor_round_trip.specs.Lists.{last_back, part_back, tuple_back};
    ghost use Rattle.cbor_round_trip.specs.PartsLaws.{tuple3};
    ghost use Rattle.cbor_round_trip.specs.TypeLaws.{law_of};

    ghost law = { law_of (tuple_back (tuple3 A.law B.law C.law).back) };

    ghost back = { tuple_back (part_back A.back (part_back B.back (last_back C.back))) };
}

impl<A: RoundTrip, B: RoundTrip, C: RoundTrip, D: RoundTrip> RoundTrip for (A, B, C, D) {
    ghost use Rattle.cbor_round_trip.specs.Lists.{last_back, part_back, tuple_back};
    ghost use Rattle.cbor_round_trip.specs.PartsLaws.{tuple4};
    ghost use Rattle.cbor_round_trip.specs.TypeLaws.{law_of};

    ghost law = { law_of (tuple_back (tuple4 A.law B.law C.law D.law).back) };

    ghost back = { tuple_back (part_back A.back (part_back B.back (part_back C.back
        (last_back D.back)))) };
}

impl<A: RoundTrip, B: RoundTrip, C: RoundTrip, D: RoundTrip, E: RoundTrip> RoundTrip
    for (A, B, C, D, E) {
    ghost use Rattle.cbor_round_trip.specs.Lists.{last_back, part_back, tuple_back};
    ghost use Rattle.cbor_round_trip.specs.PartsLaws.{tuple5};
    ghost use Rattle.cbor_round_trip.specs.TypeLaws.{law_of};

    ghost law = { law_of (tuple_back (tuple5 A.law B.law C.law D.law E.law).back) };

    ghost back = { tuple_back (part_back A.back (part_back B.back (part_back C.back
        (part_back D.back (last_back E.back))))) };
}

impl<A: RoundTrip, B: RoundTrip, C: RoundTrip, D: RoundTrip, E: RoundTrip, F: RoundTrip> RoundTrip
    for (A, B, C, D, E, F) {
    ghost use Rattle.cbor_round_trip.specs.Lists.{last_back, part_back, tuple_back};
    ghost use Rattle.cbor_round_trip.specs.PartsLaws.{tuple6};
    ghost use Rattle.cbor_round_trip.specs.TypeLaws.{law_of};

    ghost law = { law_of (tuple_back (tuple6 A.law B.law C.law D.law E.law F.law).back) };

    ghost back = { tuple_back (part_back A.back (part_back B.back (part_back C.back
        (part_back D.back (part_back E.back (last_back F.back)))))) };
}

impl<
    A: RoundTrip,
    B: RoundTrip,
    C: RoundTrip,
    D: RoundTrip,
    E: RoundTrip,
    F: RoundTrip,
    G: RoundTrip,
> RoundTrip for (A, B, C, D, E, F, G) {
    ghost use Rattle.cbor_round_trip.specs.Lists.{last_back, part_back, tuple_back};
    ghost use Rattle.cbor_round_trip.specs.PartsLaws.{tuple7};
    ghost use Rattle.cbor_round_trip.specs.TypeLaws.{law_of};

    ghost law = { law_of (tuple_back (tuple7 A.law B.law C.law D.law E.law F.law G.law).back) };

    ghost back = { tuple_back (part_back A.back (part_back B.back (part_back C.back
        (part_back D.back (part_back E.back (part_back F.back (last_back G.back))))))) };
}

impl<
    A: RoundTrip,
    B: RoundTrip,
    C: RoundTrip,
    D: RoundTrip,
    E: RoundTrip,
    F: RoundTrip,
    G: RoundTrip,
    H: RoundTrip,
> RoundTrip for (A, B, C, D, E, F, G, H) {
    ghost use Rattle.cbor_round_trip.specs.Lists.{last_back, part_back, tuple_back};
    ghost use Rattle.cbor_round_trip.specs.PartsLaws.{tuple8};
    ghost use Rattle.cbor_round_trip.specs.TypeLaws.{law_of};

    ghost law = { law_of (tuple_back
        (tuple8 A.law B.law C.law D.law E.law F.law G.law H.law).back) };

    ghost back = { tuple_back (part_back A.back (part_back B.back (part_back C.back
        (part_back D.back (part_back E.back (part_back F.back (part_back G.back
        (last_back H.back)))))))) };
}

impl<A: FieldRoundTrip> FieldsRoundTrip for (A,) {
    ghost use Rattle.std.specs.Prelude.{refl};
    ghost use Rattle.cbor_round_trip.specs.StructFields.{last_field_back, struct_back};
    ghost use Rattle.cbor_round_trip.specs.TypeLaws.{struct_law};

    ghost law = { struct_law 1
        (last_field_back {S = A × Unit {0}} {view = λ t. (t.0, tt)} {of = λ p. p.0} A.law.back)
        (λ t. refl) };

    ghost back = { struct_back (last_field_back A.read_back) (λ t. refl) };
}

impl<A: FieldRoundTrip, B: FieldRoundTrip> FieldsRoundTrip for (A, B) {
    ghost use Rattle.std.specs.Prelude.{refl};
    ghost use Rattle.cbor_round_trip.specs.StructFields.{field_back, last_field_back, struct_back};
    ghost use Rattle.cbor_round_trip.specs.PartsLaws.{fields2};

    ghost law = { fields2 A.law B.law };

    ghost back = { struct_back (field_back A.read_back (last_field_back B.read_back)) (λ t. refl) };
}

impl<A: FieldRoundTrip, B: FieldRoundTrip, C: FieldRoundTrip> FieldsRoundTrip for (A, B, C) {
    ghost use Rattle.std.specs.Prelude.{refl};
    ghost use Rattle.cbor_round_trip.specs.StructFields.{field_back, last_field_back, struct_back};
    ghost use Rattle.cbor_round_trip.specs.PartsLaws.{fields3};

    ghost law = { fields3 A.law B.law C.law };

    ghost back = { struct_back (field_back A.read_back (field_back B.read_back
        (last_field_back C.read_back))) (λ t. refl) };
}

impl<A: FieldRoundTrip, B: FieldRoundTrip, C: FieldRoundTrip, D: FieldRoundTrip> FieldsRoundTrip
    for (A, B, C, D) {
    ghost use Rattle.std.specs.Prelude.{refl};
    ghost use Rattle.cbor_round_trip.specs.StructFields.{field_back, last_field_back, struct_back};
    ghost use Rattle.cbor_round_trip.specs.PartsLaws.{fields4};

    ghost law = { fields4 A.law B.law C.law D.law };

    ghost back = { struct_back (field_back A.read_back (field_back B.read_back (field_back
        C.read_back (last_field_back D.read_back)))) (λ t. refl) };
}

impl<
    A: FieldRoundTrip,
    B: FieldRoundTrip,
    C: FieldRoundTrip,
    D: FieldRoundTrip,
    E: FieldRoundTrip,
> FieldsRoundTrip for (A, B, C, D, E) {
    ghost use Rattle.std.specs.Prelude.{refl};
    ghost use Rattle.cbor_round_trip.specs.StructFields.{field_back, last_field_back, struct_back};
    ghost use Rattle.cbor_round_trip.specs.PartsLaws.{fields5};

    ghost law = { fields5 A.law B.law C.law D.law E.law };

    ghost back = { struct_back (field_back A.read_back (field_back B.read_back (field_back
        C.read_back (field_back D.read_back (last_field_back E.read_back))))) (λ t. refl) };
}

impl<
    A: FieldRoundTrip,
    B: FieldRoundTrip,
    C: FieldRoundTrip,
    D: FieldRoundTrip,
    E: FieldRoundTrip,
    F: FieldRoundTrip,
> FieldsRoundTrip for (A, B, C, D, E, F) {
    ghost use Rattle.std.specs.Prelude.{refl};
    ghost use Rattle.cbor_round_trip.specs.StructFields.{field_back, last_field_back, struct_back};
    ghost use Rattle.cbor_round_trip.specs.PartsLaws.{fields6};

    ghost law = { fields6 A.law B.law C.law D.law E.law F.law };

    ghost back = { struct_back (field_back A.read_back (field_back B.read_back (field_back
        C.read_back (field_back D.read_back (field_back E.read_back (last_field_back
        F.read_back)))))) (λ t. refl) };
}

impl<
    A: FieldRoundTrip,
    B: FieldRoundTrip,
    C: FieldRoundTrip,
    D: FieldRoundTrip,
    E: FieldRoundTrip,
    F: FieldRoundTrip,
    G: FieldRoundTrip,
> FieldsRoundTrip for (A, B, C, D, E, F, G) {
    ghost use Rattle.std.specs.Prelude.{refl};
    ghost use Rattle.cbor_round_trip.specs.StructFields.{field_back, last_field_back, struct_back};
    ghost use Rattle.cbor_round_trip.specs.PartsLaws.{fields7};

    ghost law = { fields7 A.law B.law C.law D.law E.law F.law G.law };

    ghost back = { struct_back (field_back A.read_back (field_back B.read_back (field_back
        C.read_back (field_back D.read_back (field_back E.read_back (field_back F.read_back
        (last_field_back G.read_back))))))) (λ t. refl) };
}

impl<
    A: FieldRoundTrip,
    B: FieldRoundTrip,
    C: FieldRoundTrip,
    D: FieldRoundTrip,
    E: FieldRoundTrip,
    F: FieldRoundTrip,
    G: FieldRoundTrip,
    H: FieldRoundTrip,
> FieldsRoundTrip for (A, B, C, D, E, F, G, H) {
    ghost use Rattle.std.specs.Prelude.{refl};
    ghost use Rattle.cbor_round_trip.specs.StructFields.{field_back, last_field_back, struct_back};
    ghost use Rattle.cbor_round_trip.specs.PartsLaws.{fields8};

    ghost law = { fields8 A.law B.law C.law D.law E.law F.law G.law H.law };

    ghost back = { struct_back (field_back A.read_back (field_back B.read_back (field_back
        C.read_back (field_back D.read_back (field_back E.read_back (field_back F.read_back
        (field_back G.read_back (last_field_back H.read_back)))))))) (λ t. refl) };
}

impl<
    A: FieldRoundTrip,
    B: FieldRoundTrip,
    C: FieldRoundTrip,
    D: FieldRoundTrip,
    E: FieldRoundTrip,
    F: FieldRoundTrip,
    G: FieldRoundTrip,
    H: FieldRoundTrip,
    I: FieldRoundTrip,
> FieldsRoundTrip for (A, B, C, D, E, F, G, H, I) {
    ghost use Rattle.std.specs.Prelude.{refl};
    ghost use Rattle.cbor_round_trip.specs.StructFields.{field_back, last_field_back, struct_back};
    ghost use Rattle.cbor_round_trip.specs.PartsLaws.{fields9};

    ghost law = { fields9 A.law B.law C.law D.law E.law F.law G.law H.law I.law };

    ghost back = { struct_back (field_back A.read_back (field_back B.read_back (field_back
        C.read_back (field_back D.read_back (field_back E.read_back (field_back F.read_back
        (field_back G.read_back (field_back H.read_back (last_field_back I.read_back)))))))))
        (λ t. refl) };
}

impl<
    A: FieldRoundTrip,
    B: FieldRoundTrip,
    C: FieldRoundTrip,
    D: FieldRoundTrip,
    E: FieldRoundTrip,
    F: FieldRoundTrip,
    G: FieldRoundTrip,
    H: FieldRoundTrip,
    I: FieldRoundTrip,
    J: FieldRoundTrip,
> FieldsRoundTrip for (A, B, C, D, E, F, G, H, I, J) {
    ghost use Rattle.std.specs.Prelude.{refl};
    ghost use Rattle.cbor_round_trip.specs.StructFields.{field_back, last_field_back, struct_back};
    ghost use Rattle.cbor_round_trip.specs.PartsLaws.{fields10};

    ghost law = { fields10 A.law B.law C.law D.law E.law F.law G.law H.law I.law J.law };

    ghost back = { struct_back (field_back A.read_back (field_back B.read_back (field_back
        C.read_back (field_back D.read_back (field_back E.read_back (field_back F.read_back
        (field_back G.read_back (field_back H.read_back (field_back I.read_back (last_field_back
        J.read_back)))))))))) (λ t. refl) };
}

impl<
    A: FieldRoundTrip,
    B: FieldRoundTrip,
    C: FieldRoundTrip,
    D: FieldRoundTrip,
    E: FieldRoundTrip,
    F: FieldRoundTrip,
    G: FieldRoundTrip,
    H: FieldRoundTrip,
    I: FieldRoundTrip,
    J: FieldRoundTrip,
    K: FieldRoundTrip,
> FieldsRoundTrip for (A, B, C, D, E, F, G, H, I, J, K) {
    ghost use Rattle.std.specs.Prelude.{refl};
    ghost use Rattle.cbor_round_trip.specs.StructFields.{field_back, last_field_back, struct_back};
    ghost use Rattle.cbor_round_trip.specs.PartsLaws.{fields11};

    ghost law = { fields11 A.law B.law C.law D.law E.law F.law G.law H.law I.law J.law K.law };

    ghost back = { struct_back (field_back A.read_back (field_back B.read_back (field_back
        C.read_back (field_back D.read_back (field_back E.read_back (field_back F.read_back
        (field_back G.read_back (field_back H.read_back (field_back I.read_back (field_back
        J.read_back (last_field_back K.read_back))))))))))) (λ t. refl) };
}

impl<
    A: FieldRoundTrip,
    B: FieldRoundTrip,
    C: FieldRoundTrip,
    D: FieldRoundTrip,
    E: FieldRoundTrip,
    F: FieldRoundTrip,
    G: FieldRoundTrip,
    H: FieldRoundTrip,
    I: FieldRoundTrip,
    J: FieldRoundTrip,
    K: FieldRoundTrip,
    L: FieldRoundTrip,
> FieldsRoundTrip for (A, B, C, D, E, F, G, H, I, J, K, L) {
    ghost use Rattle.std.specs.Prelude.{refl};
    ghost use Rattle.cbor_round_trip.specs.StructFields.{field_back, last_field_back, struct_back};
    ghost use Rattle.cbor_round_trip.specs.PartsLaws.{fields12};

    ghost law = { fields12 A.law B.law C.law D.law E.law F.law G.law
        H.law I.law J.law K.law L.law };

    ghost back = { struct_back (field_back A.read_back (field_back B.read_back (field_back
        C.read_back (field_back D.read_back (field_back E.read_back (field_back F.read_back
        (field_back G.read_back (field_back H.read_back (field_back I.read_back (field_back
        J.read_back (field_back K.read_back (last_field_back L.read_back)))))))))))) (λ t. refl) };
}

impl<A: RoundTrip + Drop> TupleRoundTrip for (A,) {
    ghost use Rattle.cbor_round_trip.specs.Lists.{last_back};
    ghost use Rattle.cbor_round_trip.specs.TypeLaws.{tuple_law};

    ghost law = { tuple_law (last_back {part = λ t. t.0} A.law.back) };

    ghost back = { last_back A.back };
}

impl<A: RoundTrip + Drop, B: RoundTrip + Drop> TupleRoundTrip for (A, B) {
    ghost use Rattle.cbor_round_trip.specs.Lists.{part_back, last_back};
    ghost use Rattle.cbor_round_trip.specs.PartsLaws.{tuple2};

    ghost law = { tuple2 A.law B.law };

    ghost back = { part_back A.back (last_back B.back) };
}

impl<A: RoundTrip + Drop, B: RoundTrip + Drop, C: RoundTrip + Drop> TupleRoundTrip for (A, B, C) {
    ghost use Rattle.cbor_round_trip.specs.Lists.{part_back, last_back};
    ghost use Rattle.cbor_round_trip.specs.PartsLaws.{tuple3};

    ghost law = { tuple3 A.law B.law C.law };

    ghost back = { part_back A.back (part_back B.back (last_back C.back)) };
}

impl<
    A: RoundTrip + Drop,
    B: RoundTrip + Drop,
    C: RoundTrip + Drop,
    D: RoundTrip + Drop,
> TupleRoundTrip for (A, B, C, D) {
    ghost use Rattle.cbor_round_trip.specs.Lists.{part_back, last_back};
    ghost use Rattle.cbor_round_trip.specs.PartsLaws.{tuple4};

    ghost law = { tuple4 A.law B.law C.law D.law };

    ghost back = { part_back A.back (part_back B.back (part_back C.back (last_back D.back))) };
}

impl<
    A: RoundTrip + Drop,
    B: RoundTrip + Drop,
    C: RoundTrip + Drop,
    D: RoundTrip + Drop,
    E: RoundTrip + Drop,
> TupleRoundTrip for (A, B, C, D, E) {
    ghost use Rattle.cbor_round_trip.specs.Lists.{part_back, last_back};
    ghost use Rattle.cbor_round_trip.specs.PartsLaws.{tuple5};

    ghost law = { tuple5 A.law B.law C.law D.law E.law };

    ghost back = { part_back A.back (part_back B.back (part_back C.back (part_back D.back
        (last_back E.back)))) };
}

impl<
    A: RoundTrip + Drop,
    B: RoundTrip + Drop,
    C: RoundTrip + Drop,
    D: RoundTrip + Drop,
    E: RoundTrip + Drop,
    F: RoundTrip + Drop,
> TupleRoundTrip for (A, B, C, D, E, F) {
    ghost use Rattle.cbor_round_trip.specs.Lists.{part_back, last_back};
    ghost use Rattle.cbor_round_trip.specs.PartsLaws.{tuple6};

    ghost law = { tuple6 A.law B.law C.law D.law E.law F.law };

    ghost back = { part_back A.back (part_back B.back (part_back C.back (part_back D.back
        (part_back E.back (last_back F.back))))) };
}

impl<
    A: RoundTrip + Drop,
    B: RoundTrip + Drop,
    C: RoundTrip + Drop,
    D: RoundTrip + Drop,
    E: RoundTrip + Drop,
    F: RoundTrip + Drop,
    G: RoundTrip + Drop,
> TupleRoundTrip for (A, B, C, D, E, F, G) {
    ghost use Rattle.cbor_round_trip.specs.Lists.{part_back, last_back};
    ghost use Rattle.cbor_round_trip.specs.PartsLaws.{tuple7};

    ghost law = { tuple7 A.law B.law C.law D.law E.law F.law G.law };

    ghost back = { part_back A.back (part_back B.back (part_back C.back (part_back D.back
        (part_back E.back (part_back F.back (last_back G.back)))))) };
}

impl<
    A: RoundTrip + Drop,
    B: RoundTrip + Drop,
    C: RoundTrip + Drop,
    D: RoundTrip + Drop,
    E: RoundTrip + Drop,
    F: RoundTrip + Drop,
    G: RoundTrip + Drop,
    H: RoundTrip + Drop,
> TupleRoundTrip for (A, B, C, D, E, F, G, H) {
    ghost use Rattle.cbor_round_trip.specs.Lists.{part_back, last_back};
    ghost use Rattle.cbor_round_trip.specs.PartsLaws.{tuple8};

    ghost law = { tuple8 A.law B.law C.law D.law E.law F.law G.law H.law };

    ghost back = { part_back A.back (part_back B.back (part_back C.back (part_back D.back
        (part_back E.back (part_back F.back (part_back G.back (last_back H.back))))))) };
}

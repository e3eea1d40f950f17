//! Enums, as one of their variants.

use crate::parts::{PartsRoundTrip, VariantRoundTrip};
use cbor_parts::{OneOf1, OneOf2, OneOf3, OneOf4, OneOf5, OneOf6, OneOf7, OneOf8};

impl<A: VariantRoundTrip> PartsRoundTrip for OneOf1<A> {
    ghost use Rattle.cbor_round_trip.specs.Enums.{same1};
    ghost use Rattle.cbor_round_trip.specs.Variants.{variant_back, no_variants_back, enum_back};
    ghost use Rattle.cbor_round_trip.specs.PartsLaws.{enum1};

    ghost law = { enum1 A.law };

    ghost back = { enum_back (variant_back A.back no_variants_back) (same1 A.document) };
}

impl<A: VariantRoundTrip, B: VariantRoundTrip> PartsRoundTrip for OneOf2<A, B> {
    ghost use Rattle.cbor_round_trip.specs.Enums.{same2};
    ghost use Rattle.cbor_round_trip.specs.Variants.{variant_back, no_variants_back, enum_back};
    ghost use Rattle.cbor_round_trip.specs.PartsLaws.{enum2};

    ghost law = { enum2 A.law B.law };

    ghost back = { enum_back (variant_back A.back (variant_back B.back no_variants_back))
        (same2 A.document B.document) };
}

impl<A: VariantRoundTrip, B: VariantRoundTrip, C: VariantRoundTrip> PartsRoundTrip
    for OneOf3<A, B, C> {
    ghost use Rattle.cbor_round_trip.specs.Enums.{same3};
    ghost use Rattle.cbor_round_trip.specs.Variants.{variant_back, no_variants_back, enum_back};
    ghost use Rattle.cbor_round_trip.specs.PartsLaws.{enum3};

    ghost law = { enum3 A.law B.law C.law };

    ghost back = { enum_back (variant_back A.back (variant_back B.back
        (variant_back C.back no_variants_back))) (same3 A.document B.document C.document) };
}

impl<
    A: VariantRoundTrip,
    B: VariantRoundTrip,
    C: VariantRoundTrip,
    D: VariantRoundTrip,
> PartsRoundTrip for OneOf4<A, B, C, D> {
    ghost use Rattle.cbor_round_trip.specs.Enums.{same4};
    ghost use Rattle.cbor_round_trip.specs.Variants.{variant_back, no_variants_back, enum_back};
    ghost use Rattle.cbor_round_trip.specs.PartsLaws.{enum4};

    ghost law = { enum4 A.law B.law C.law D.law };

    ghost back = { enum_back (variant_back A.back (variant_back B.back (variant_back C.back
        (variant_back D.back no_variants_back))))
        (same4 A.document B.document C.document D.document) };
}

impl<
    A: VariantRoundTrip,
    B: VariantRoundTrip,
    C: VariantRoundTrip,
    D: VariantRoundTrip,
    E: VariantRoundTrip,
> PartsRoundTrip for OneOf5<A, B, C, D, E> {
    ghost use Rattle.cbor_round_trip.specs.Enums.{same5};
    ghost use Rattle.cbor_round_trip.specs.Variants.{variant_back, no_variants_back, enum_back};
    ghost use Rattle.cbor_round_trip.specs.PartsLaws.{enum5};

    ghost law = { enum5 A.law B.law C.law D.law E.law };

    ghost back = { enum_back (variant_back A.back (variant_back B.back (variant_back C.back
        (variant_back D.back (variant_back E.back no_variants_back)))))
        (same5 A.document B.document C.document D.document E.document) };
}

impl<
    A: VariantRoundTrip,
    B: VariantRoundTrip,
    C: VariantRoundTrip,
    D: VariantRoundTrip,
    E: VariantRoundTrip,
    F: VariantRoundTrip,
> PartsRoundTrip for OneOf6<A, B, C, D, E, F> {
    ghost use Rattle.cbor_round_trip.specs.Enums.{same6};
    ghost use Rattle.cbor_round_trip.specs.Variants.{variant_back, no_variants_back, enum_back};
    ghost use Rattle.cbor_round_trip.specs.PartsLaws.{enum6};

    ghost law = { enum6 A.law B.law C.law D.law E.law F.law };

    ghost back = { enum_back (variant_back A.back (variant_back B.back (variant_back C.back
        (variant_back D.back (variant_back E.back (variant_back F.back no_variants_back))))))
        (same6 A.document B.document C.document D.document E.document F.document) };
}

impl<
    A: VariantRoundTrip,
    B: VariantRoundTrip,
    C: VariantRoundTrip,
    D: VariantRoundTrip,
    E: VariantRoundTrip,
    F: VariantRoundTrip,
    G: VariantRoundTrip,
> PartsRoundTrip for OneOf7<A, B, C, D, E, F, G> {
    ghost use Rattle.cbor_round_trip.specs.Enums.{same7};
    ghost use Rattle.cbor_round_trip.specs.Variants.{variant_back, no_variants_back, enum_back};
    ghost use Rattle.cbor_round_trip.specs.PartsLaws.{enum7};

    ghost law = { enum7 A.law B.law C.law D.law E.law F.law G.law };

    ghost back = { enum_back (variant_back A.back (variant_back B.back (variant_back C.back
        (variant_back D.back (variant_back E.back (variant_back F.back
        (variant_back G.back no_variants_back)))))))
        (same7 A.document B.document C.document D.document E.document F.document G.document) };
}

impl<
    A: VariantRoundTrip,
    B: VariantRoundTrip,
    C: VariantRoundTrip,
    D: VariantRoundTrip,
    E: VariantRoundTrip,
    F: VariantRoundTrip,
    G: VariantRoundTrip,
    H: VariantRoundTrip,
> PartsRoundTrip for OneOf8<A, B, C, D, E, F, G, H> {
    ghost use Rattle.cbor_round_trip.specs.Enums.{same8};
    ghost use Rattle.cbor_round_trip.specs.Variants.{variant_back, no_variants_back, enum_back};
    ghost use Rattle.cbor_round_trip.specs.PartsLaws.{enum8};

    ghost law = { enum8 A.law B.law C.law D.law E.law F.law G.law H.law };

    ghost back = { enum_back (variant_back A.back (variant_back B.back (variant_back C.back
        (variant_back D.back (variant_back E.back (variant_back F.back (variant_back G.back
        (variant_back H.back no_variants_back))))))))
        (same8 A.document B.document C.document D.document
        E.document F.document G.document H.document) };
}

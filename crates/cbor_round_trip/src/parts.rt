//! The parts of structs and enums, by whose description these are read back.

use crate::round_trip::RoundTrip;
use cbor_de::FieldType;
use cbor_described::{ReadableParts, ReadableTuple, Variant};
use cbor_parts::{
    FieldLabels, FieldNames, Labelled, Newtype, Optional, OrDefault, Schema, Struct, Tuple,
};
use cbor_ser::{FieldDocument, FieldsDocument, PartsDocument, TupleDocuments, VariantDocument};

/// The parts of a struct or an enum, which are read back where the names are as many, and no two of
/// them (of a [`Labelled`] no two labels) the same.
pub trait PartsRoundTrip: PartsDocument + ReadableParts {
    ghost use Rattle.cbor_parts.specs.Keys.{named_keys};
    ghost use Rattle.cbor_round_trip.specs.TypeLaws.{ByNames, PartsLaw};

    // The law as a value, with what it asks of a value (`fits`), and of defaults (`determined`).
    ghost law: { PartsLaw Self };

    // By such names the parts are read back.
    ghost back: { ByNames law.count law.told Self.document (λ names. Self.reads (named_keys names))
        law.fits law.determined };
}

/// A field of a struct that is read back: what is `RoundTrip`, or [`Optional`] or [`OrDefault`] of
/// it.
pub trait FieldRoundTrip: FieldDocument + FieldType {
    ghost use Rattle.cbor_round_trip.specs.StructFields.{IsFieldReadBack};
    ghost use Rattle.cbor_round_trip.specs.TypeLaws.{FieldLaw};

    // The law as a value, with what it asks of a value (`fits`), and of defaults (`determined`).
    ghost law: { FieldLaw Self };

    // It is read back where it is written, and is as it was where it is left out.
    ghost read_back: { IsFieldReadBack Self.document Self.reads Self.missing law.fits
        law.determined };
}

impl<T: RoundTrip + Drop> FieldRoundTrip for T {
    ghost use Rattle.cbor_round_trip.specs.StructFields.{required_back};
    ghost use Rattle.cbor_round_trip.specs.TypeLaws.{field_law};

    ghost law = { field_law (required_back T.law.back) };

    ghost read_back = { required_back T.back };
}

impl<T: RoundTrip + Drop> FieldRoundTrip for Optional<T> {
    ghost use Rattle.cbor_round_trip.specs.StructFields.{optional_back};
    ghost use Rattle.cbor_round_trip.specs.TypeLaws.{field_law};

    ghost law = { field_law (optional_back T.law.back {part = λ o. o.0}) };

    ghost read_back = { optional_back T.back };
}

impl<T: RoundTrip + Default + Drop> FieldRoundTrip for OrDefault<T> {
    ghost use Rattle.cbor_round_trip.specs.StructFields.{OneDefault, default_back};
    ghost use Rattle.cbor_round_trip.specs.StructFields.{field_where_determined};
    ghost use Rattle.cbor_round_trip.specs.TypeLaws.{field_law_asking};

    ghost law = { field_law_asking
        (OneDefault {F = Self} T.document (λ o. o.0) (λ o. T.is_default o.0))
        (default_back T.law.back (λ o. o.0) (λ o. T.is_default o.0)) };

    ghost read_back = { field_where_determined (λ d. (d.0.0, d.1))
        (default_back T.back (λ o. o.0) (λ o. T.is_default o.0)) };
}

/// The fields of a struct: a tuple of what is read back.
pub trait FieldsRoundTrip: FieldsDocument + ReadableParts {
    ghost use Rattle.cbor_round_trip.specs.TypeLaws.{ByKeys, FieldsLaw};

    // The law as a value, with what it asks of a value (`fits`), and of defaults (`determined`).
    ghost law: { FieldsLaw Self };

    // By such keys the fields are read back.
    ghost back: { ByKeys law.count Self.fields Self.reads law.fits law.determined };
}

impl<F: FieldsRoundTrip> PartsRoundTrip for F {
    ghost use Rattle.cbor_round_trip.specs.TypeLaws.{by_names_alone, parts_law};

    ghost law = { parts_law F.law.count (by_names_alone F.law.fields F.law.back) };

    ghost back = { by_names_alone F.fields F.back };
}

/// The labels are as many as the fields, and no two of them the same.
impl<L: FieldLabels> PartsRoundTrip for Labelled<L>
where
    L::Parts: FieldsRoundTrip,
{
    ghost use Rattle.cbor_round_trip.specs.ReadBack.{by_part};
    ghost use Rattle.cbor_round_trip.specs.TypeLaws.{labelled_back, parts_law};

    ghost law = { parts_law L.Parts.law.count (λ names as_many told. by_part (λ p. p.0)
        (labelled_back L.Parts.law.fields L.labels L.Parts.law.back names as_many told)) };

    ghost back = { λ names as_many told. by_part (λ p. p.0)
        (labelled_back L.Parts.fields L.labels L.Parts.back names as_many told) };
}

impl<T: RoundTrip + Drop> PartsRoundTrip for Newtype<T> {
    ghost use Rattle.std.specs.Prelude.{true};
    ghost use Rattle.cbor_round_trip.specs.ReadBack.{by_part};
    ghost use Rattle.cbor_round_trip.specs.TypeLaws.{parts_law};

    ghost law = { parts_law 0 {told = λ names. true}
        (λ names as_many told. by_part (λ p. p.0) T.law.back) };

    ghost back = { λ names as_many told. by_part (λ p. p.0) T.back };
}

/// The law of a struct or an enum by its description, which a type with a
/// [`Schema`](cbor_parts::Schema) has where its parts are read back, and quotes. The two `refl`
/// show that its names are as many as its parts, and no two of them (of a [`Labelled`] its labels)
/// the same.
///
/// ```rust
/// impl RoundTrip for User {
///     ghost use Rattle.std.specs.Prelude.{refl};
///
///     ghost law = { ⟦<Self as RoundTripBy<<Self as Schema>::Parts>>⟧.law.by_names refl refl };
///
///     ghost back = { Self.law.back };
/// }
/// ```
pub trait RoundTripBy<P>: Sized {
    ghost use Rattle.cbor_round_trip.specs.TypeLaws.{DescribedLaw};

    ghost law: { DescribedLaw Self };
}

impl<P: PartsRoundTrip, T: Schema<Parts = P>> RoundTripBy<P> for T {
    ghost use Rattle.cbor_round_trip.specs.TypeLaws.{described_law};

    ghost law = { described_law T.names T.parts P.law };
}

/// The parts of a variant: a tuple of what is read back.
pub trait TupleRoundTrip: TupleDocuments + ReadableTuple {
    ghost use Rattle.cbor_round_trip.specs.TypeLaws.{TupleLaw};
    ghost use Rattle.cbor_round_trip.specs.Lists.{ArePartsReadBack};

    // The law as a value, with what it asks of a value (`fits`), and of defaults (`determined`).
    ghost law: { TupleLaw Self };

    // They are read back as the items of an array.
    ghost back: { ArePartsReadBack Self.documents (λ c t rs. Self.parts c rs t) law.fits
        law.determined };
}

/// A variant that is read back, in whatever place it is.
pub trait VariantRoundTrip: VariantDocument + Variant {
    ghost use Rattle.cbor_round_trip.specs.TypeLaws.{VariantLaw};
    ghost use Rattle.cbor_round_trip.specs.Variants.{IsVariantReadBack};

    // The law as a value, with what it asks of a value (`fits`), and of defaults (`determined`).
    ghost law: { VariantLaw Self };

    // It is read back by whatever number and name.
    ghost back: { IsVariantReadBack Self.document Self.means law.fits law.determined };
}

impl VariantRoundTrip for () {
    ghost use Rattle.cbor_round_trip.specs.Variants.{unit_back};
    ghost use Rattle.cbor_round_trip.specs.TypeLaws.{variant_law};

    ghost law = { variant_law unit_back };

    ghost back = { Self.law.back };
}

impl<T: RoundTrip + Drop> VariantRoundTrip for Newtype<T> {
    ghost use Rattle.cbor_round_trip.specs.Variants.{newtype_back};
    ghost use Rattle.cbor_round_trip.specs.TypeLaws.{variant_law};

    ghost law = { variant_law (newtype_back (λ v. v.0) T.law.back) };

    ghost back = { newtype_back (λ v. v.0) T.back };
}

impl<F: TupleRoundTrip> VariantRoundTrip for Tuple<F> {
    ghost use Rattle.cbor_round_trip.specs.Variants.{tuple_back};
    ghost use Rattle.cbor_round_trip.specs.TypeLaws.{variant_law};

    ghost law = { variant_law (tuple_back (λ v. v.0) F.law.back) };

    ghost back = { tuple_back (λ v. v.0) F.back };
}

/// The names of the fields are told apart.
impl<N: FieldNames> VariantRoundTrip for Struct<N>
where
    N::Parts: FieldsRoundTrip,
{
    ghost use Rattle.cbor_round_trip.specs.Variants.{struct_variant_back};
    ghost use Rattle.cbor_round_trip.specs.TypeLaws.{by_names_alone, variant_law};

    ghost law = { variant_law (struct_variant_back (λ v. v.0) N.Parts.law.fields N.names
        N.Parts.law.count (by_names_alone N.Parts.law.fields N.Parts.law.back)) };

    ghost back = { struct_variant_back (λ v. v.0) N.Parts.fields N.names N.Parts.law.count
        (by_names_alone N.Parts.fields N.Parts.back) };
}

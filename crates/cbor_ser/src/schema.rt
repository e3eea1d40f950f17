//! The documents of structs and enums that are described by their parts.

ghost use Rattle.cbor_model.specs.Document.{structure};
ghost use Rattle.cbor_model.specs.Document.{unit_variant, newtype_variant, tuple_variant};
ghost use Rattle.cbor_model.specs.Document.{struct_variant};
ghost use Rattle.cbor_ser.specs.Labels.{labelled};

use crate::serialize::Serialize;
use crate::tuple_documents::{FieldsDocument, TupleDocuments};
use cbor_parts::{
    AtMostTwelveParts, FieldLabels, FieldNames, Labelled, Newtype, OneOf1, OneOf2, OneOf3, OneOf4,
    OneOf5, OneOf6, OneOf7, OneOf8, Schema, Struct, Tuple,
};

/// A variant that has a document.
pub trait VariantDocument: Drop {
    ghost use Rattle.std.specs.Prelude.{List, ℕ};
    ghost use Rattle.cbor_model.specs.Document.{Doc};

    // What the variant of this number and this name is written as.
    ghost document: { ℕ → List ℕ → Self → Doc };
}

impl VariantDocument for () {
    ghost document = { λ i n u. unit_variant i n };
}

impl<T: Serialize + Drop> VariantDocument for Newtype<T> {
    ghost document = { λ i n v. newtype_variant i n (T.document v.0) };
}

impl<F: TupleDocuments> VariantDocument for Tuple<F> {
    ghost document = { λ i n v. tuple_variant i n (F.documents v.0) };
}

impl<N: FieldNames> VariantDocument for Struct<N>
where
    N::Parts: FieldsDocument,
{
    ghost document = { λ i n v. struct_variant i n (N.Parts.fields N.names v.0) };
}

/// The parts of a struct or an enum, which have a document.
pub trait PartsDocument {
    ghost use Rattle.std.specs.Prelude.{List, ℕ};
    ghost use Rattle.cbor_model.specs.Document.{Doc};

    // What the parts are written as, by the names of the fields or the variants.
    ghost document: { List (List ℕ) → Self → Doc };
}

/// What a struct or an enum is written as by its description: the document of its parts, by the
/// names that the description gives. Each type with a [`Schema`] has it, and quotes it.
///
/// ```rust
/// impl Serialize for User {
///     ghost document = { ⟦<Self as WrittenBy<<Self as Schema>::Parts>>⟧.document };
///
///     fn serialize<W: Write>(&self, ser: &mut Serializer<W>) -> Result<()> {
///         ser.serialize_fields(self, &(&self.user_id, &self.admin))
///     }
/// }
/// ```
pub trait WrittenBy<P>: Sized {
    ghost use Rattle.cbor_model.specs.Document.{Doc};

    ghost document: { Self → Doc };
}

impl<P: PartsDocument + AtMostTwelveParts, T: Schema<Parts = P>> WrittenBy<P> for T {
    ghost document = { λ x. P.document T.names (T.parts x) };
}

impl<F: FieldsDocument> PartsDocument for F {
    ghost document = { λ names p. structure (F.fields names p) };
}

/// The keys of a struct are its labels.
impl<L: FieldLabels> PartsDocument for Labelled<L>
where
    L::Parts: FieldsDocument,
{
    ghost document = { λ names p. labelled L.labels (L.Parts.fields names p.0) };
}

/// A struct is written as its one part.
impl<T: Serialize + Drop> PartsDocument for Newtype<T> {
    ghost document = { λ names p. T.document p.0 };
}

impl<A: VariantDocument> PartsDocument for OneOf1<A> {
    ghost use Rattle.cbor_ser.specs.OneOfs.{document1};

    ghost document = { document1 A.document };
}

impl<A: VariantDocument, B: VariantDocument> PartsDocument for OneOf2<A, B> {
    ghost use Rattle.cbor_ser.specs.OneOfs.{document2};

    ghost document = { document2 A.document B.document };
}

impl<A: VariantDocument, B: VariantDocument, C: VariantDocument> PartsDocument for OneOf3<A, B, C> {
    ghost use Rattle.cbor_ser.specs.OneOfs.{document3};

    ghost document = { document3 A.document B.document C.document };
}

impl<A: VariantDocument, B: VariantDocument, C: VariantDocument, D: VariantDocument> PartsDocument
    for OneOf4<A, B, C, D> {
    ghost use Rattle.cbor_ser.specs.OneOfs.{document4};

    ghost document = { document4 A.document B.document C.document D.document };
}

impl<
    A: VariantDocument,
    B: VariantDocument,
    C: VariantDocument,
    D: VariantDocument,
    E: VariantDocument,
> PartsDocument for OneOf5<A, B, C, D, E> {
    ghost use Rattle.cbor_ser.specs.OneOfs.{document5};

    ghost document = { document5 A.document B.document C.document D.document E.document };
}

impl<
    A: VariantDocument,
    B: VariantDocument,
    C: VariantDocument,
    D: VariantDocument,
    E: VariantDocument,
    F: VariantDocument,
> PartsDocument for OneOf6<A, B, C, D, E, F> {
    ghost use Rattle.cbor_ser.specs.OneOfs.{document6};

    ghost document = { document6 A.document B.document C.document
        D.document E.document F.document };
}

impl<
    A: VariantDocument,
    B: VariantDocument,
    C: VariantDocument,
    D: VariantDocument,
    E: VariantDocument,
    F: VariantDocument,
    G: VariantDocument,
> PartsDocument for OneOf7<A, B, C, D, E, F, G> {
    ghost use Rattle.cbor_ser.specs.OneOfs.{document7};

    ghost document = { document7 A.document B.document C.document D.document
        E.document F.document G.document };
}

impl<
    A: VariantDocument,
    B: VariantDocument,
    C: VariantDocument,
    D: VariantDocument,
    E: VariantDocument,
    F: VariantDocument,
    G: VariantDocument,
    H: VariantDocument,
> PartsDocument for OneOf8<A, B, C, D, E, F, G, H> {
    ghost use Rattle.cbor_ser.specs.OneOfs.{document8};

    ghost document = { document8 A.document B.document C.document D.document
        E.document F.document G.document H.document };
}

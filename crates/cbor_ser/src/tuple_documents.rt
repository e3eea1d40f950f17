//! The documents of tuples: of the fields of a struct, and of the parts of a variant.

use crate::serialize::Serialize;
use cbor_parts::{AtMostEightParts, AtMostTwelveParts, Optional, OrDefault};

/// What a field of a struct is that has a document: a type that is written; [`OrDefault`] of one,
/// which is written too; or [`Optional`] of one, which is left out where it is None.
pub trait FieldDocument: Sized + Drop {
    ghost use Rattle.std.specs.Prelude.{Option};
    ghost use Rattle.cbor_model.specs.Document.{Doc};

    // What the field is written as; None where it is left out.
    ghost document: { Self → Option Doc };
}

impl<T: Serialize + Drop> FieldDocument for T {
    ghost use Rattle.std.specs.Prelude.{Some};

    ghost document = { λ x. Some (T.document x) };
}

impl<T: Serialize + Drop> FieldDocument for Optional<T> {
    ghost use Rattle.cbor_ser.specs.PartLists.{document_if};

    ghost document = { λ x. document_if T.document x.0 };
}

impl<T: Serialize + Drop> FieldDocument for OrDefault<T> {
    ghost use Rattle.std.specs.Prelude.{Some};

    ghost document = { λ x. Some (T.document x.0) };
}

/// The fields of a struct that have documents: a tuple.
pub trait FieldsDocument: AtMostTwelveParts {
    ghost use Rattle.std.specs.Prelude.{List, ℕ};
    ghost use Rattle.cbor_model.specs.Document.{Fields};

    // What they are written as under these names, with the numbers from 0 on.
    ghost fields: { List (List ℕ) → Self → Fields };
}

/// The parts of a variant that have documents: a tuple.
pub trait TupleDocuments: AtMostEightParts {
    ghost use Rattle.cbor_model.specs.Document.{Docs};

    // What the parts are written as.
    ghost documents: { Self → Docs };
}

impl<A: FieldDocument> FieldsDocument for (A,) {
    ghost use Rattle.cbor_model.specs.Document.{no_fields};
    ghost use Rattle.cbor_ser.specs.PartLists.{field_if, name_in};

    ghost fields = { λ ns p.
        field_if 0 (name_in ns 0) (A.document p.0) no_fields };
}

impl<A: FieldDocument, B: FieldDocument> FieldsDocument for (A, B) {
    ghost use Rattle.cbor_model.specs.Document.{no_fields};
    ghost use Rattle.cbor_ser.specs.PartLists.{field_if, name_in};

    ghost fields = { λ ns p.
        field_if 0 (name_in ns 0) (A.document p.0)
        (field_if 1 (name_in ns 1) (B.document p.1) no_fields) };
}

impl<A: FieldDocument, B: FieldDocument, C: FieldDocument> FieldsDocument for (A, B, C) {
    ghost use Rattle.cbor_model.specs.Document.{no_fields};
    ghost use Rattle.cbor_ser.specs.PartLists.{field_if, name_in};

    ghost fields = { λ ns p.
        field_if 0 (name_in ns 0) (A.document p.0)
        (field_if 1 (name_in ns 1) (B.document p.1)
        (field_if 2 (name_in ns 2) (C.document p.2) no_fields)) };
}

impl<A: FieldDocument, B: FieldDocument, C: FieldDocument, D: FieldDocument> FieldsDocument
    for (A, B, C, D) {
    ghost use Rattle.cbor_model.specs.Document.{no_fields};
    ghost use Rattle.cbor_ser.specs.PartLists.{field_if, name_in};

    ghost fields = { λ ns p.
        field_if 0 (name_in ns 0) (A.document p.0)
        (field_if 1 (name_in ns 1) (B.document p.1)
        (field_if 2 (name_in ns 2) (C.document p.2)
        (field_if 3 (name_in ns 3) (D.document p.3) no_fields))) };
}

impl<
    A: FieldDocument,
    B: FieldDocument,
    C: FieldDocument,
    D: FieldDocument,
    E: FieldDocument,
> FieldsDocument for (A, B, C, D, E) {
    ghost use Rattle.cbor_model.specs.Document.{no_fields};
    ghost use Rattle.cbor_ser.specs.PartLists.{field_if, name_in};

    ghost fields = { λ ns p.
        field_if 0 (name_in ns 0) (A.document p.0)
        (field_if 1 (name_in ns 1) (B.document p.1)
        (field_if 2 (name_in ns 2) (C.document p.2)
        (field_if 3 (name_in ns 3) (D.document p.3)
        (field_if 4 (name_in ns 4) (E.document p.4) no_fields)))) };
}

impl<
    A: FieldDocument,
    B: FieldDocument,
    C: FieldDocument,
    D: FieldDocument,
    E: FieldDocument,
    F: FieldDocument,
> FieldsDocument for (A, B, C, D, E, F) {
    ghost use Rattle.cbor_model.specs.Document.{no_fields};
    ghost use Rattle.cbor_ser.specs.PartLists.{field_if, name_in};

    ghost fields = { λ ns p.
        field_if 0 (name_in ns 0) (A.document p.0)
        (field_if 1 (name_in ns 1) (B.document p.1)
        (field_if 2 (name_in ns 2) (C.document p.2)
        (field_if 3 (name_in ns 3) (D.document p.3)
        (field_if 4 (name_in ns 4) (E.document p.4)
        (field_if 5 (name_in ns 5) (F.document p.5) no_fields))))) };
}

impl<
    A: FieldDocument,
    B: FieldDocument,
    C: FieldDocument,
    D: FieldDocument,
    E: FieldDocument,
    F: FieldDocument,
    G: FieldDocument,
> FieldsDocument for (A, B, C, D, E, F, G) {
    ghost use Rattle.cbor_model.specs.Document.{no_fields};
    ghost use Rattle.cbor_ser.specs.PartLists.{field_if, name_in};

    ghost fields = { λ ns p.
        field_if 0 (name_in ns 0) (A.document p.0)
        (field_if 1 (name_in ns 1) (B.document p.1)
        (field_if 2 (name_in ns 2) (C.document p.2)
        (field_if 3 (name_in ns 3) (D.document p.3)
        (field_if 4 (name_in ns 4) (E.document p.4)
        (field_if 5 (name_in ns 5) (F.document p.5)
        (field_if 6 (name_in ns 6) (G.document p.6) no_fields)))))) };
}

impl<
    A: FieldDocument,
    B: FieldDocument,
    C: FieldDocument,
    D: FieldDocument,
    E: FieldDocument,
    F: FieldDocument,
    G: FieldDocument,
    H: FieldDocument,
> FieldsDocument for (A, B, C, D, E, F, G, H) {
    ghost use Rattle.cbor_model.specs.Document.{no_fields};
    ghost use Rattle.cbor_ser.specs.PartLists.{field_if, name_in};

    ghost fields = { λ ns p.
        field_if 0 (name_in ns 0) (A.document p.0)
        (field_if 1 (name_in ns 1) (B.document p.1)
        (field_if 2 (name_in ns 2) (C.document p.2)
        (field_if 3 (name_in ns 3) (D.document p.3)
        (field_if 4 (name_in ns 4) (E.document p.4)
        (field_if 5 (name_in ns 5) (F.document p.5)
        (field_if 6 (name_in ns 6) (G.document p.6)
        (field_if 7 (name_in ns 7) (H.document p.7) no_fields))))))) };
}

impl<
    A: FieldDocument,
    B: FieldDocument,
    C: FieldDocument,
    D: FieldDocument,
    E: FieldDocument,
    F: FieldDocument,
    G: FieldDocument,
    H: FieldDocument,
    I: FieldDocument,
> FieldsDocument for (A, B, C, D, E, F, G, H, I) {
    ghost use Rattle.cbor_model.specs.Document.{no_fields};
    ghost use Rattle.cbor_ser.specs.PartLists.{field_if, name_in};

    ghost fields = { λ ns p.
        field_if 0 (name_in ns 0) (A.document p.0)
        (field_if 1 (name_in ns 1) (B.document p.1)
        (field_if 2 (name_in ns 2) (C.document p.2)
        (field_if 3 (name_in ns 3) (D.document p.3)
        (field_if 4 (name_in ns 4) (E.document p.4)
        (field_if 5 (name_in ns 5) (F.document p.5)
        (field_if 6 (name_in ns 6) (G.document p.6)
        (field_if 7 (name_in ns 7) (H.document p.7)
        (field_if 8 (name_in ns 8) (I.document p.8) no_fields)))))))) };
}

impl<
    A: FieldDocument,
    B: FieldDocument,
    C: FieldDocument,
    D: FieldDocument,
    E: FieldDocument,
    F: FieldDocument,
    G: FieldDocument,
    H: FieldDocument,
    I: FieldDocument,
    J: FieldDocument,
> FieldsDocument for (A, B, C, D, E, F, G, H, I, J) {
    ghost use Rattle.cbor_model.specs.Document.{no_fields};
    ghost use Rattle.cbor_ser.specs.PartLists.{field_if, name_in};

    ghost fields = { λ ns p.
        field_if 0 (name_in ns 0) (A.document p.0)
        (field_if 1 (name_in ns 1) (B.document p.1)
        (field_if 2 (name_in ns 2) (C.document p.2)
        (field_if 3 (name_in ns 3) (D.document p.3)
        (field_if 4 (name_in ns 4) (E.document p.4)
        (field_if 5 (name_in ns 5) (F.document p.5)
        (field_if 6 (name_in ns 6) (G.document p.6)
        (field_if 7 (name_in ns 7) (H.document p.7)
        (field_if 8 (name_in ns 8) (I.document p.8)
        (field_if 9 (name_in ns 9) (J.document p.9) no_fields))))))))) };
}

impl<
    A: FieldDocument,
    B: FieldDocument,
    C: FieldDocument,
    D: FieldDocument,
    E: FieldDocument,
    F: FieldDocument,
    G: FieldDocument,
    H: FieldDocument,
    I: FieldDocument,
    J: FieldDocument,
    K: FieldDocument,
> FieldsDocument for (A, B, C, D, E, F, G, H, I, J, K) {
    ghost use Rattle.cbor_model.specs.Document.{no_fields};
    ghost use Rattle.cbor_ser.specs.PartLists.{field_if, name_in};

    ghost fields = { λ ns p.
        field_if 0 (name_in ns 0) (A.document p.0)
        (field_if 1 (name_in ns 1) (B.document p.1)
        (field_if 2 (name_in ns 2) (C.document p.2)
        (field_if 3 (name_in ns 3) (D.document p.3)
        (field_if 4 (name_in ns 4) (E.document p.4)
        (field_if 5 (name_in ns 5) (F.document p.5)
        (field_if 6 (name_in ns 6) (G.document p.6)
        (field_if 7 (name_in ns 7) (H.document p.7)
        (field_if 8 (name_in ns 8) (I.document p.8)
        (field_if 9 (name_in ns 9) (J.document p.9)
        (field_if 10 (name_in ns 10) (K.document p.10) no_fields)))))))))) };
}

impl<
    A: FieldDocument,
    B: FieldDocument,
    C: FieldDocument,
    D: FieldDocument,
    E: FieldDocument,
    F: FieldDocument,
    G: FieldDocument,
    H: FieldDocument,
    I: FieldDocument,
    J: FieldDocument,
    K: FieldDocument,
    L: FieldDocument,
> FieldsDocument for (A, B, C, D, E, F, G, H, I, J, K, L) {
    ghost use Rattle.cbor_model.specs.Document.{no_fields};
    ghost use Rattle.cbor_ser.specs.PartLists.{field_if, name_in};

    ghost fields = { λ ns p.
        field_if 0 (name_in ns 0) (A.document p.0)
        (field_if 1 (name_in ns 1) (B.document p.1)
        (field_if 2 (name_in ns 2) (C.document p.2)
        (field_if 3 (name_in ns 3) (D.document p.3)
        (field_if 4 (name_in ns 4) (E.document p.4)
        (field_if 5 (name_in ns 5) (F.document p.5)
        (field_if 6 (name_in ns 6) (G.document p.6)
        (field_if 7 (name_in ns 7) (H.document p.7)
        (field_if 8 (name_in ns 8) (I.document p.8)
        (field_if 9 (name_in ns 9) (J.document p.9)
        (field_if 10 (name_in ns 10) (K.document p.10)
        (field_if 11 (name_in ns 11) (L.document p.11) no_fields))))))))))) };
}

impl<A: Serialize + Drop> TupleDocuments for (A,) {
    ghost use Rattle.cbor_model.specs.Document.{doc, no_docs};

    ghost documents = { λ p.
        doc (A.document p.0) no_docs };
}

impl<A: Serialize + Drop, B: Serialize + Drop> TupleDocuments for (A, B) {
    ghost use Rattle.cbor_model.specs.Document.{doc, no_docs};

    ghost documents = { λ p.
        doc (A.document p.0)
        (doc (B.document p.1) no_docs) };
}

impl<A: Serialize + Drop, B: Serialize + Drop, C: Serialize + Drop> TupleDocuments for (A, B, C) {
    ghost use Rattle.cbor_model.specs.Document.{doc, no_docs};

    ghost documents = { λ p.
        doc (A.document p.0)
        (doc (B.document p.1)
        (doc (C.document p.2) no_docs)) };
}

impl<
    A: Serialize + Drop,
    B: Serialize + Drop,
    C: Serialize + Drop,
    D: Serialize + Drop,
> TupleDocuments for (A, B, C, D) {
    ghost use Rattle.cbor_model.specs.Document.{doc, no_docs};

    ghost documents = { λ p.
        doc (A.document p.0)
        (doc (B.document p.1)
        (doc (C.document p.2)
        (doc (D.document p.3) no_docs))) };
}

impl<
    A: Serialize + Drop,
    B: Serialize + Drop,
    C: Serialize + Drop,
    D: Serialize + Drop,
    E: Serialize + Drop,
> TupleDocuments for (A, B, C, D, E) {
    ghost use Rattle.cbor_model.specs.Document.{doc, no_docs};

    ghost documents = { λ p.
        doc (A.document p.0)
        (doc (B.document p.1)
        (doc (C.document p.2)
        (doc (D.document p.3)
        (doc (E.document p.4) no_docs)))) };
}

impl<
    A: Serialize + Drop,
    B: Serialize + Drop,
    C: Serialize + Drop,
    D: Serialize + Drop,
    E: Serialize + Drop,
    F: Serialize + Drop,
> TupleDocuments for (A, B, C, D, E, F) {
    ghost use Rattle.cbor_model.specs.Document.{doc, no_docs};

    ghost documents = { λ p.
        doc (A.document p.0)
        (doc (B.document p.1)
        (doc (C.document p.2)
        (doc (D.document p.3)
        (doc (E.document p.4)
        (doc (F.document p.5) no_docs))))) };
}

impl<
    A: Serialize + Drop,
    B: Serialize + Drop,
    C: Serialize + Drop,
    D: Serialize + Drop,
    E: Serialize + Drop,
    F: Serialize + Drop,
    G: Serialize + Drop,
> TupleDocuments for (A, B, C, D, E, F, G) {
    ghost use Rattle.cbor_model.specs.Document.{doc, no_docs};

    ghost documents = { λ p.
        doc (A.document p.0)
        (doc (B.document p.1)
        (doc (C.document p.2)
        (doc (D.document p.3)
        (doc (E.document p.4)
        (doc (F.document p.5)
        (doc (G.document p.6) no_docs)))))) };
}

impl<
    A: Serialize + Drop,
    B: Serialize + Drop,
    C: Serialize + Drop,
    D: Serialize + Drop,
    E: Serialize + Drop,
    F: Serialize + Drop,
    G: Serialize + Drop,
    H: Serialize + Drop,
> TupleDocuments for (A, B, C, D, E, F, G, H) {
    ghost use Rattle.cbor_model.specs.Document.{doc, no_docs};

    ghost documents = { λ p.
        doc (A.document p.0)
        (doc (B.document p.1)
        (doc (C.document p.2)
        (doc (D.document p.3)
        (doc (E.document p.4)
        (doc (F.document p.5)
        (doc (G.document p.6)
        (doc (H.document p.7) no_docs))))))) };
}

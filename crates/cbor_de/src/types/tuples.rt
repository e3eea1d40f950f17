//! The standard library's tuples, which are read from arrays of as many items.

use crate::de::Deserializer;
use crate::deserialize::{Deserialize, DeserializeOwned, Readable};
use crate::item_list::read_array;
use cbor_io::error::Result;
use cbor_read::Read;

/// An array of exactly one item.
impl<A: Readable> Readable for (A,) {
    ghost use Rattle.std.specs.Prelude.{true};
    ghost use Rattle.cbor_de.specs.Calls.{and_reports, reports_any};
    ghost use Rattle.cbor_de.specs.Forms.{any_of, never};
    ghost use Rattle.cbor_model.specs.Readable.{PassesTags};
    ghost use Rattle.cbor_decode_as.specs.Arrays.{AsArray, FirstThen, AreNone};

    ghost reads = { λ c. PassesTags (AsArray (λ rs t. FirstThen (A.reads c) t.0 AreNone rs)) };

    ghost wrong_forms = { any_of A.wrong_forms never };

    ghost reports_faults = { and_reports (reports_any A.passes_over A.total A.reports_faults)
        true };
}

impl<'de, R: Read<'de>, A: Deserialize<'de, R>> Deserialize<'de, R> for (A,) {
    fn deserialize(de: &mut Deserializer<R>) -> Result<(A,)> {
        read_array::<R, (A,)>(de)
    }
}

impl<A: DeserializeOwned> DeserializeOwned for (A,) {
    ghost use Rattle.cbor_model.specs.Readable.{untagged};
    ghost use Rattle.cbor_de.specs.ItemLists.{none_same, then_same, tuple_same};

    ghost same = { λ f a b r v h. tuple_same (λ t. (t.0, tt))
        (then_same (A.same f a b) none_same)
        (untagged r) v h };
}

/// An array of exactly two items.
impl<A: Readable, B: Readable> Readable for (A, B) {
    ghost use Rattle.std.specs.Prelude.{true};
    ghost use Rattle.cbor_de.specs.Calls.{and_reports, reports_any};
    ghost use Rattle.cbor_de.specs.Forms.{any_of, never};
    ghost use Rattle.cbor_model.specs.Readable.{PassesTags};
    ghost use Rattle.cbor_decode_as.specs.Arrays.{AsArray, FirstThen, AreNone};

    ghost reads = { λ c. PassesTags (AsArray (λ rs t. FirstThen (A.reads c) t.0
        (FirstThen (B.reads c) t.1 AreNone) rs)) };

    ghost wrong_forms = { any_of A.wrong_forms (any_of B.wrong_forms never) };

    ghost reports_faults = { and_reports (reports_any A.passes_over A.total A.reports_faults)
        (and_reports (reports_any B.passes_over B.total B.reports_faults)
        true) };
}

impl<'de, R: Read<'de>, A: Deserialize<'de, R>, B: Deserialize<'de, R>> Deserialize<'de, R>
    for (A, B) {
    fn deserialize(de: &mut Deserializer<R>) -> Result<(A, B)> {
        read_array::<R, (A, B)>(de)
    }
}

impl<A: DeserializeOwned, B: DeserializeOwned> DeserializeOwned for (A, B) {
    ghost use Rattle.cbor_model.specs.Readable.{untagged};
    ghost use Rattle.cbor_de.specs.ItemLists.{none_same, then_same, tuple_same};

    ghost same = { λ f a b r v h. tuple_same (λ t. (t.0, (t.1, tt)))
        (then_same (A.same f a b)
        (then_same (B.same f a b) none_same))
        (untagged r) v h };
}

/// An array of exactly three items.
impl<A: Readable, B: Readable, C: Readable> Readable for (A, B, C) {
    ghost use Rattle.std.specs.Prelude.{true};
    ghost use Rattle.cbor_de.specs.Calls.{and_reports, reports_any};
    ghost use Rattle.cbor_de.specs.Forms.{any_of, never};
    ghost use Rattle.cbor_model.specs.Readable.{PassesTags};
    ghost use Rattle.cbor_decode_as.specs.Arrays.{AsArray, FirstThen, AreNone};

    ghost reads = { λ c. PassesTags (AsArray (λ rs t. FirstThen (A.reads c) t.0
        (FirstThen (B.reads c) t.1
        (FirstThen (C.reads c) t.2 AreNone)) rs)) };

    ghost wrong_forms = { any_of A.wrong_forms (any_of B.wrong_forms
        (any_of C.wrong_forms never)) };

    ghost reports_faults = { and_reports (reports_any A.passes_over A.total A.reports_faults)
        (and_reports (reports_any B.passes_over B.total B.reports_faults)
        (and_reports (reports_any C.passes_over C.total C.reports_faults)
        true)) };
}

impl<
    'de,
    R: Read<'de>,
    A: Deserialize<'de, R>,
    B: Deserialize<'de, R>,
    C: Deserialize<'de, R>,
> Deserialize<'de, R> for (A, B, C) {
    fn deserialize(de: &mut Deserializer<R>) -> Result<(A, B, C)> {
        read_array::<R, (A, B, C)>(de)
    }
}

impl<A: DeserializeOwned, B: DeserializeOwned, C: DeserializeOwned> DeserializeOwned for (A, B, C) {
    ghost use Rattle.cbor_model.specs.Readable.{untagged};
    ghost use Rattle.cbor_de.specs.ItemLists.{none_same, then_same, tuple_same};

    ghost same = { λ f a b r v h. tuple_same (λ t. (t.0, (t.1, (t.2, tt))))
        (then_same (A.same f a b)
        (then_same (B.same f a b)
        (then_same (C.same f a b) none_same)))
        (untagged r) v h };
}

/// An array of exactly four items.
impl<A: Readable, B: Readable, C: Readable, D: Readable> Readable for (A, B, C, D) {
    ghost use Rattle.std.specs.Prelude.{true};
    ghost use Rattle.cbor_de.specs.Calls.{and_reports, reports_any};
    ghost use Rattle.cbor_de.specs.Forms.{any_of, never};
    ghost use Rattle.cbor_model.specs.Readable.{PassesTags};
    ghost use Rattle.cbor_decode_as.specs.Arrays.{AsArray, FirstThen, AreNone};

    ghost reads = { λ c. PassesTags (AsArray (λ rs t. FirstThen (A.reads c) t.0
        (FirstThen (B.reads c) t.1
        (FirstThen (C.reads c) t.2
        (FirstThen (D.reads c) t.3 AreNone))) rs)) };

    ghost wrong_forms = { any_of A.wrong_forms (any_of B.wrong_forms (any_of C.wrong_forms
        (any_of D.wrong_forms never))) };

    ghost reports_faults = { and_reports (reports_any A.passes_over A.total A.reports_faults)
        (and_reports (reports_any B.passes_over B.total B.reports_faults)
        (and_reports (reports_any C.passes_over C.total C.reports_faults)
        (and_reports (reports_any D.passes_over D.total D.reports_faults)
        true))) };
}

impl<
    'de,
    R: Read<'de>,
    A: Deserialize<'de, R>,
    B: Deserialize<'de, R>,
    C: Deserialize<'de, R>,
    D: Deserialize<'de, R>,
> Deserialize<'de, R> for (A, B, C, D) {
    fn deserialize(de: &mut Deserializer<R>) -> Result<(A, B, C, D)> {
        read_array::<R, (A, B, C, D)>(de)
    }
}

impl<
    A: DeserializeOwned,
    B: DeserializeOwned,
    C: DeserializeOwned,
    D: DeserializeOwned,
> DeserializeOwned for (A, B, C, D) {
    ghost use Rattle.cbor_model.specs.Readable.{untagged};
    ghost use Rattle.cbor_de.specs.ItemLists.{none_same, then_same, tuple_same};

    ghost same = { λ f a b r v h. tuple_same (λ t. (t.0, (t.1, (t.2, (t.3, tt)))))
        (then_same (A.same f a b)
        (then_same (B.same f a b)
        (then_same (C.same f a b)
        (then_same (D.same f a b) none_same))))
        (untagged r) v h };
}

/// An array of exactly five items.
impl<A: Readable, B: Readable, C: Readable, D: Readable, E: Readable> Readable for (A, B, C, D, E) {
    ghost use Rattle.std.specs.Prelude.{true};
    ghost use Rattle.cbor_de.specs.Calls.{and_reports, reports_any};
    ghost use Rattle.cbor_de.specs.Forms.{any_of, never};
    ghost use Rattle.cbor_model.specs.Readable.{PassesTags};
    ghost use Rattle.cbor_decode_as.specs.Arrays.{AsArray, FirstThen, AreNone};

    ghost reads = { λ c. PassesTags (AsArray (λ rs t. FirstThen (A.reads c) t.0
        (FirstThen (B.reads c) t.1
        (FirstThen (C.reads c) t.2
        (FirstThen (D.reads c) t.3
        (FirstThen (E.reads c) t.4 AreNone)))) rs)) };

    ghost wrong_forms = { any_of A.wrong_forms (any_of B.wrong_forms (any_of C.wrong_forms
        (any_of D.wrong_forms (any_of E.wrong_forms never)))) };

    ghost reports_faults = { and_reports (reports_any A.passes_over A.total A.reports_faults)
        (and_reports (reports_any B.passes_over B.total B.reports_faults)
        (and_reports (reports_any C.passes_over C.total C.reports_faults)
        (and_reports (reports_any D.passes_over D.total D.reports_faults)
        (and_reports (reports_any E.passes_over E.total E.reports_faults)
        true)))) };
}

impl<
    'de,
    R: Read<'de>,
    A: Deserialize<'de, R>,
    B: Deserialize<'de, R>,
    C: Deserialize<'de, R>,
    D: Deserialize<'de, R>,
    E: Deserialize<'de, R>,
> Deserialize<'de, R> for (A, B, C, D, E) {
    fn deserialize(de: &mut Deserializer<R>) -> Result<(A, B, C, D, E)> {
        read_array::<R, (A, B, C, D, E)>(de)
    }
}

impl<
    A: DeserializeOwned,
    B: DeserializeOwned,
    C: DeserializeOwned,
    D: DeserializeOwned,
    E: DeserializeOwned,
> DeserializeOwned for (A, B, C, D, E) {
    ghost use Rattle.cbor_model.specs.Readable.{untagged};
    ghost use Rattle.cbor_de.specs.ItemLists.{none_same, then_same, tuple_same};

    ghost same = { λ f a b r v h. tuple_same (λ t. (t.0, (t.1, (t.2, (t.3, (t.4, tt))))))
        (then_same (A.same f a b)
        (then_same (B.same f a b)
        (then_same (C.same f a b)
        (then_same (D.same f a b)
        (then_same (E.same f a b) none_same)))))
        (untagged r) v h };
}

/// An array of exactly six items.
impl<A: Readable, B: Readable, C: Readable, D: Readable, E: Readable, F: Readable> Readable
    for (A, B, C, D, E, F) {
    ghost use Rattle.std.specs.Prelude.{true};
    ghost use Rattle.cbor_de.specs.Calls.{and_reports, reports_any};
    ghost use Rattle.cbor_de.specs.Forms.{any_of, never};
    ghost use Rattle.cbor_model.specs.Readable.{PassesTags};
    ghost use Rattle.cbor_decode_as.specs.Arrays.{AsArray, FirstThen, AreNone};

    ghost reads = { λ c. PassesTags (AsArray (λ rs t. FirstThen (A.reads c) t.0
        (FirstThen (B.reads c) t.1
        (FirstThen (C.reads c) t.2
        (FirstThen (D.reads c) t.3
        (FirstThen (E.reads c) t.4
        (FirstThen (F.reads c) t.5 AreNone))))) rs)) };

    ghost wrong_forms = { any_of A.wrong_forms (any_of B.wrong_forms (any_of C.wrong_forms
        (any_of D.wrong_forms (any_of E.wrong_forms (any_of F.wrong_forms never))))) };

    ghost reports_faults = { and_reports (reports_any A.passes_over A.total A.reports_faults)
        (and_reports (reports_any B.passes_over B.total B.reports_faults)
        (and_reports (reports_any C.passes_over C.total C.reports_faults)
        (and_reports (reports_any D.passes_over D.total D.reports_faults)
        (and_reports (reports_any E.passes_over E.total E.reports_faults)
        (and_reports (reports_any F.passes_over F.total F.reports_faults)
        true))))) };
}

impl<
    'de,
    R: Read<'de>,
    A: Deserialize<'de, R>,
    B: Deserialize<'de, R>,
    C: Deserialize<'de, R>,
    D: Deserialize<'de, R>,
    E: Deserialize<'de, R>,
    F: Deserialize<'de, R>,
> Deserialize<'de, R> for (A, B, C, D, E, F) {
    fn deserialize(de: &mut Deserializer<R>) -> Result<(A, B, C, D, E, F)> {
        read_array::<R, (A, B, C, D, E, F)>(de)
    }
}

impl<
    A: DeserializeOwned,
    B: DeserializeOwned,
    C: DeserializeOwned,
    D: DeserializeOwned,
    E: DeserializeOwned,
    F: DeserializeOwned,
> DeserializeOwned for (A, B, C, D, E, F) {
    ghost use Rattle.cbor_model.specs.Readable.{untagged};
    ghost use Rattle.cbor_de.specs.ItemLists.{none_same, then_same, tuple_same};

    ghost same = { λ f a b r v h. tuple_same (λ t. (t.0, (t.1, (t.2, (t.3, (t.4, (t.5, tt)))))))
        (then_same (A.same f a b)
        (then_same (B.same f a b)
        (then_same (C.same f a b)
        (then_same (D.same f a b)
        (then_same (E.same f a b)
        (then_same (F.same f a b) none_same))))))
        (untagged r) v h };
}

/// An array of exactly seven items.
impl<
    A: Readable,
    B: Readable,
    C: Readable,
    D: Readable,
    E: Readable,
    F: Readable,
    G: Readable,
> Readable for (A, B, C, D, E, F, G) {
    ghost use Rattle.std.specs.Prelude.{true};
    ghost use Rattle.cbor_de.specs.Calls.{and_reports, reports_any};
    ghost use Rattle.cbor_de.specs.Forms.{any_of, never};
    ghost use Rattle.cbor_model.specs.Readable.{PassesTags};
    ghost use Rattle.cbor_decode_as.specs.Arrays.{AsArray, FirstThen, AreNone};

    ghost reads = { λ c. PassesTags (AsArray (λ rs t. FirstThen (A.reads c) t.0
        (FirstThen (B.reads c) t.1
        (FirstThen (C.reads c) t.2
        (FirstThen (D.reads c) t.3
        (FirstThen (E.reads c) t.4
        (FirstThen (F.reads c) t.5
        (FirstThen (G.reads c) t.6 AreNone)))))) rs)) };

    ghost wrong_forms = { any_of A.wrong_forms (any_of B.wrong_forms (any_of C.wrong_forms
        (any_of D.wrong_forms (any_of E.wrong_forms (any_of F.wrong_forms
        (any_of G.wrong_forms never)))))) };

    ghost reports_faults = { and_reports (reports_any A.passes_over A.total A.reports_faults)
        (and_reports (reports_any B.passes_over B.total B.reports_faults)
        (and_reports (reports_any C.passes_over C.total C.reports_faults)
        (and_reports (reports_any D.passes_over D.total D.reports_faults)
        (and_reports (reports_any E.passes_over E.total E.reports_faults)
        (and_reports (reports_any F.passes_over F.total F.reports_faults)
        (and_reports (reports_any G.passes_over G.total G.reports_faults)
        true)))))) };
}

impl<
    'de,
    R: Read<'de>,
    A: Deserialize<'de, R>,
    B: Deserialize<'de, R>,
    C: Deserialize<'de, R>,
    D: Deserialize<'de, R>,
    E: Deserialize<'de, R>,
    F: Deserialize<'de, R>,
    G: Deserialize<'de, R>,
> Deserialize<'de, R> for (A, B, C, D, E, F, G) {
    fn deserialize(de: &mut Deserializer<R>) -> Result<(A, B, C, D, E, F, G)> {
        read_array::<R, (A, B, C, D, E, F, G)>(de)
    }
}

impl<
    A: DeserializeOwned,
    B: DeserializeOwned,
    C: DeserializeOwned,
    D: DeserializeOwned,
    E: DeserializeOwned,
    F: DeserializeOwned,
    G: DeserializeOwned,
> DeserializeOwned for (A, B, C, D, E, F, G) {
    ghost use Rattle.cbor_model.specs.Readable.{untagged};
    ghost use Rattle.cbor_de.specs.ItemLists.{none_same, then_same, tuple_same};

    ghost same = { λ f a b r v h. tuple_same
        (λ t. (t.0, (t.1, (t.2, (t.3, (t.4, (t.5, (t.6, tt))))))))
        (then_same (A.same f a b)
        (then_same (B.same f a b)
        (then_same (C.same f a b)
        (then_same (D.same f a b)
        (then_same (E.same f a b)
        (then_same (F.same f a b)
        (then_same (G.same f a b) none_same)))))))
        (untagged r) v h };
}

/// An array of exactly eight items.
impl<
    A: Readable,
    B: Readable,
    C: Readable,
    D: Readable,
    E: Readable,
    F: Readable,
    G: Readable,
    H: Readable,
> Readable for (A, B, C, D, E, F, G, H) {
    ghost use Rattle.std.specs.Prelude.{true};
    ghost use Rattle.cbor_de.specs.Calls.{and_reports, reports_any};
    ghost use Rattle.cbor_de.specs.Forms.{any_of, never};
    ghost use Rattle.cbor_model.specs.Readable.{PassesTags};
    ghost use Rattle.cbor_decode_as.specs.Arrays.{AsArray, FirstThen, AreNone};

    ghost reads = { λ c. PassesTags (AsArray (λ rs t. FirstThen (A.reads c) t.0
        (FirstThen (B.reads c) t.1
        (FirstThen (C.reads c) t.2
        (FirstThen (D.reads c) t.3
        (FirstThen (E.reads c) t.4
        (FirstThen (F.reads c) t.5
        (FirstThen (G.reads c) t.6
        (FirstThen (H.reads c) t.7 AreNone))))))) rs)) };

    ghost wrong_forms = { any_of A.wrong_forms (any_of B.wrong_forms (any_of C.wrong_forms
        (any_of D.wrong_forms (any_of E.wrong_forms (any_of F.wrong_forms (any_of G.wrong_forms
        (any_of H.wrong_forms never))))))) };

    ghost reports_faults = { and_reports (reports_any A.passes_over A.total A.reports_faults)
        (and_reports (reports_any B.passes_over B.total B.reports_faults)
        (and_reports (reports_any C.passes_over C.total C.reports_faults)
        (and_reports (reports_any D.passes_over D.total D.reports_faults)
        (and_reports (reports_any E.passes_over E.total E.reports_faults)
        (and_reports (reports_any F.passes_over F.total F.reports_faults)
        (and_reports (reports_any G.passes_over G.total G.reports_faults)
        (and_reports (reports_any H.passes_over H.total H.reports_faults)
        true))))))) };
}

impl<
    'de,
    R: Read<'de>,
    A: Deserialize<'de, R>,
    B: Deserialize<'de, R>,
    C: Deserialize<'de, R>,
    D: Deserialize<'de, R>,
    E: Deserialize<'de, R>,
    F: Deserialize<'de, R>,
    G: Deserialize<'de, R>,
    H: Deserialize<'de, R>,
> Deserialize<'de, R> for (A, B, C, D, E, F, G, H) {
    fn deserialize(de: &mut Deserializer<R>) -> Result<(A, B, C, D, E, F, G, H)> {
        read_array::<R, (A, B, C, D, E, F, G, H)>(de)
    }
}

impl<
    A: DeserializeOwned,
    B: DeserializeOwned,
    C: DeserializeOwned,
    D: DeserializeOwned,
    E: DeserializeOwned,
    F: DeserializeOwned,
    G: DeserializeOwned,
    H: DeserializeOwned,
> DeserializeOwned for (A, B, C, D, E, F, G, H) {
    ghost use Rattle.cbor_model.specs.Readable.{untagged};
    ghost use Rattle.cbor_de.specs.ItemLists.{none_same, then_same, tuple_same};

    ghost same = { λ f a b r v h. tuple_same
        (λ t. (t.0, (t.1, (t.2, (t.3, (t.4, (t.5, (t.6, (t.7, tt)))))))))
        (then_same (A.same f a b)
        (then_same (B.same f a b)
        (then_same (C.same f a b)
        (then_same (D.same f a b)
        (then_same (E.same f a b)
        (then_same (F.same f a b)
        (then_same (G.same f a b)
        (then_same (H.same f a b) none_same))))))))
        (untagged r) v h };
}

//! Tuples of fields, of which structs are written.

ghost use Rattle.std.specs.Prelude.{◌≡◌};
ghost use Rattle.cbor_model.specs.Document.{field_count, no_fields};
ghost use Rattle.cbor_ser.specs.Labels.{keyed_fields};
ghost use Rattle.cbor_ser.specs.PartLists.{field_if, name_in};
ghost use Rattle.cbor_ser.specs.Serialized.{Stepped};

use crate::field::SerializeField;
use crate::items::WriteDone;
use crate::keys::SerializeKeys;
use crate::part_list::WriteFields;
use crate::serializer::Serializer;
use cbor_io::error::Error;
use cbor_io::write::Write;

mod long;

/// The fields of a struct, to be written: a tuple of references, as `(&self.x, &self.y)`, and of
/// [`OptionalField`](crate::OptionalField)s.
pub trait SerializeFields {
    ghost use Rattle.std.specs.Prelude.{List, ℕ};
    ghost use Rattle.cbor_model.specs.Document.{Fields};

    // How many they are.
    ghost count: { ℕ };

    // What they are written as under these names, with the numbers from 0 on.
    ghost fields: { List (List ℕ) → Self → Fields };

    /// How many of them are written.
    fn len(&self) -> usize
        ensures { (ns : List (List ℕ)) → result ≡ field_count (fields ns self.now) };

    /// Appends those that are written, without the map's head, and leaves an error in `refusal`:
    /// by their labels where there are labels, and else by their names, or their numbers where the
    /// format is packed.
    fn serialize_as_fields<W: Write, S: SerializeKeys>(
        &self,
        ser: &mut Serializer<W>,
        keys: S,
        refusal: &mut Option<Error>,
    ) -> WriteDone
        requires { S.count keys ≡ count }
        ensures { Stepped W.written W.refuses W.references W.capacity ser.old
            (keyed_fields (S.labels keys) (fields (S.names keys) self.now)) ser.new result
            refusal.new };
}

impl<A: SerializeField> SerializeFields for (A,) {
    ghost count = { 1 };

    ghost fields = { λ ns p.
        field_if 0 (name_in ns 0) (A.document p.0) no_fields };

    fn len(&self) -> usize {
        let fields = (&self.0, ());
        fields.written()
    }

    fn serialize_as_fields<W: Write, S: SerializeKeys>(
        &self,
        ser: &mut Serializer<W>,
        keys: S,
        refusal: &mut Option<Error>,
    ) -> WriteDone {
        let fields = (&self.0, ());
        fields.write_fields(ser, keys, 0, refusal)
    }
}

impl<A: SerializeField, B: SerializeField> SerializeFields for (A, B) {
    ghost count = { 2 };

    ghost fields = { λ ns p.
        field_if 0 (name_in ns 0) (A.document p.0)
        (field_if 1 (name_in ns 1) (B.document p.1) no_fields) };

    fn len(&self) -> usize {
        let fields = (&self.0, (&self.1, ()));
        fields.written()
    }

    fn serialize_as_fields<W: Write, S: SerializeKeys>(
        &self,
        ser: &mut Serializer<W>,
        keys: S,
        refusal: &mut Option<Error>,
    ) -> WriteDone {
        let fields = (&self.0, (&self.1, ()));
        fields.write_fields(ser, keys, 0, refusal)
    }
}

impl<A: SerializeField, B: SerializeField, C: SerializeField> SerializeFields for (A, B, C) {
    ghost count = { 3 };

    ghost fields = { λ ns p.
        field_if 0 (name_in ns 0) (A.document p.0)
        (field_if 1 (name_in ns 1) (B.document p.1)
        (field_if 2 (name_in ns 2) (C.document p.2) no_fields)) };

    fn len(&self) -> usize {
        let fields = (&self.0, (&self.1, (&self.2, ())));
        fields.written()
    }

    fn serialize_as_fields<W: Write, S: SerializeKeys>(
        &self,
        ser: &mut Serializer<W>,
        keys: S,
        refusal: &mut Option<Error>,
    ) -> WriteDone {
        let fields = (&self.0, (&self.1, (&self.2, ())));
        fields.write_fields(ser, keys, 0, refusal)
    }
}

impl<A: SerializeField, B: SerializeField, C: SerializeField, D: SerializeField> SerializeFields
    for (A, B, C, D) {
    ghost count = { 4 };

    ghost fields = { λ ns p.
        field_if 0 (name_in ns 0) (A.document p.0)
        (field_if 1 (name_in ns 1) (B.document p.1)
        (field_if 2 (name_in ns 2) (C.document p.2)
        (field_if 3 (name_in ns 3) (D.document p.3) no_fields))) };

    fn len(&self) -> usize {
        let fields = (&self.0, &self.1, &self.2, &self.3, ());
        fields.written()
    }

    fn serialize_as_fields<W: Write, S: SerializeKeys>(
        &self,
        ser: &mut Serializer<W>,
        keys: S,
        refusal: &mut Option<Error>,
    ) -> WriteDone {
        let fields = (&self.0, &self.1, &self.2, &self.3, ());
        fields.write_fields(ser, keys, 0, refusal)
    }
}

impl<
    A: SerializeField,
    B: SerializeField,
    C: SerializeField,
    D: SerializeField,
    E: SerializeField,
> SerializeFields for (A, B, C, D, E) {
    ghost count = { 5 };

    ghost fields = { λ ns p.
        field_if 0 (name_in ns 0) (A.document p.0)
        (field_if 1 (name_in ns 1) (B.document p.1)
        (field_if 2 (name_in ns 2) (C.document p.2)
        (field_if 3 (name_in ns 3) (D.document p.3)
        (field_if 4 (name_in ns 4) (E.document p.4) no_fields)))) };

    fn len(&self) -> usize {
        let fields = (&self.0, &self.1, &self.2, &self.3, (&self.4, ()));
        fields.written()
    }

    fn serialize_as_fields<W: Write, S: SerializeKeys>(
        &self,
        ser: &mut Serializer<W>,
        keys: S,
        refusal: &mut Option<Error>,
    ) -> WriteDone {
        let fields = (&self.0, &self.1, &self.2, &self.3, (&self.4, ()));
        fields.write_fields(ser, keys, 0, refusal)
    }
}

impl<
    A: SerializeField,
    B: SerializeField,
    C: SerializeField,
    D: SerializeField,
    E: SerializeField,
    F: SerializeField,
> SerializeFields for (A, B, C, D, E, F) {
    ghost count = { 6 };

    ghost fields = { λ ns p.
        field_if 0 (name_in ns 0) (A.document p.0)
        (field_if 1 (name_in ns 1) (B.document p.1)
        (field_if 2 (name_in ns 2) (C.document p.2)
        (field_if 3 (name_in ns 3) (D.document p.3)
        (field_if 4 (name_in ns 4) (E.document p.4)
        (field_if 5 (name_in ns 5) (F.document p.5) no_fields))))) };

    fn len(&self) -> usize {
        let fields = (&self.0, &self.1, &self.2, &self.3, (&self.4, (&self.5, ())));
        fields.written()
    }

    fn serialize_as_fields<W: Write, S: SerializeKeys>(
        &self,
        ser: &mut Serializer<W>,
        keys: S,
        refusal: &mut Option<Error>,
    ) -> WriteDone {
        let fields = (&self.0, &self.1, &self.2, &self.3, (&self.4, (&self.5, ())));
        fields.write_fields(ser, keys, 0, refusal)
    }
}

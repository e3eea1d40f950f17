//! Tuples of seven fields and more.

ghost use Rattle.cbor_model.specs.Document.{no_fields};
ghost use Rattle.cbor_ser.specs.PartLists.{field_if, name_in};

use super::SerializeFields;
use crate::field::SerializeField;
use crate::items::WriteDone;
use crate::keys::SerializeKeys;
use crate::part_list::WriteFields;
use crate::serializer::Serializer;
use cbor_io::error::Error;
use cbor_io::write::Write;

impl<
    A: SerializeField,
    B: SerializeField,
    C: SerializeField,
    D: SerializeField,
    E: SerializeField,
    F: SerializeField,
    G: SerializeField,
> SerializeFields for (A, B, C, D, E, F, G) {
    ghost count = { 7 };

    ghost fields = { λ ns p.
        field_if 0 (name_in ns 0) (A.document p.0)
        (field_if 1 (name_in ns 1) (B.document p.1)
        (field_if 2 (name_in ns 2) (C.document p.2)
        (field_if 3 (name_in ns 3) (D.document p.3)
        (field_if 4 (name_in ns 4) (E.document p.4)
        (field_if 5 (name_in ns 5) (F.document p.5)
        (field_if 6 (name_in ns 6) (G.document p.6) no_fields)))))) };

    fn len(&self) -> usize {
        let fields = (
            &self.0,
            &self.1,
            &self.2,
            &self.3,
            (&self.4, (&self.5, (&self.6, ()))),
        );
        fields.written()
    }

    fn serialize_as_fields<W: Write, S: SerializeKeys>(
        &self,
        ser: &mut Serializer<W>,
        keys: S,
        refusal: &mut Option<Error>,
    ) -> WriteDone {
        let fields = (
            &self.0,
            &self.1,
            &self.2,
            &self.3,
            (&self.4, (&self.5, (&self.6, ()))),
        );
        fields.write_fields(ser, keys, 0, refusal)
    }
}

impl<
    A: SerializeField,
    B: SerializeField,
    C: SerializeField,
    D: SerializeField,
    E: SerializeField,
    F: SerializeField,
    G: SerializeField,
    H: SerializeField,
> SerializeFields for (A, B, C, D, E, F, G, H) {
    ghost count = { 8 };

    ghost fields = { λ ns p.
        field_if 0 (name_in ns 0) (A.document p.0)
        (field_if 1 (name_in ns 1) (B.document p.1)
        (field_if 2 (name_in ns 2) (C.document p.2)
        (field_if 3 (name_in ns 3) (D.document p.3)
        (field_if 4 (name_in ns 4) (E.document p.4)
        (field_if 5 (name_in ns 5) (F.document p.5)
        (field_if 6 (name_in ns 6) (G.document p.6)
        (field_if 7 (name_in ns 7) (H.document p.7) no_fields))))))) };

    fn len(&self) -> usize {
        let fields = (
            &self.0,
            &self.1,
            &self.2,
            &self.3,
            (&self.4, &self.5, &self.6, &self.7, ()),
        );
        fields.written()
    }

    fn serialize_as_fields<W: Write, S: SerializeKeys>(
        &self,
        ser: &mut Serializer<W>,
        keys: S,
        refusal: &mut Option<Error>,
    ) -> WriteDone {
        let fields = (
            &self.0,
            &self.1,
            &self.2,
            &self.3,
            (&self.4, &self.5, &self.6, &self.7, ()),
        );
        fields.write_fields(ser, keys, 0, refusal)
    }
}

impl<
    A: SerializeField,
    B: SerializeField,
    C: SerializeField,
    D: SerializeField,
    E: SerializeField,
    F: SerializeField,
    G: SerializeField,
    H: SerializeField,
    I: SerializeField,
> SerializeFields for (A, B, C, D, E, F, G, H, I) {
    ghost count = { 9 };

    ghost fields = { λ ns p.
        field_if 0 (name_in ns 0) (A.document p.0)
        (field_if 1 (name_in ns 1) (B.document p.1)
        (field_if 2 (name_in ns 2) (C.document p.2)
        (field_if 3 (name_in ns 3) (D.document p.3)
        (field_if 4 (name_in ns 4) (E.document p.4)
        (field_if 5 (name_in ns 5) (F.document p.5)
        (field_if 6 (name_in ns 6) (G.document p.6)
        (field_if 7 (name_in ns 7) (H.document p.7)
        (field_if 8 (name_in ns 8) (I.document p.8) no_fields)))))))) };

    fn len(&self) -> usize {
        let fields = (
            &self.0,
            &self.1,
            &self.2,
            &self.3,
            (&self.4, &self.5, &self.6, &self.7, (&self.8, ())),
        );
        fields.written()
    }

    fn serialize_as_fields<W: Write, S: SerializeKeys>(
        &self,
        ser: &mut Serializer<W>,
        keys: S,
        refusal: &mut Option<Error>,
    ) -> WriteDone {
        let fields = (
            &self.0,
            &self.1,
            &self.2,
            &self.3,
            (&self.4, &self.5, &self.6, &self.7, (&self.8, ())),
        );
        fields.write_fields(ser, keys, 0, refusal)
    }
}

impl<
    A: SerializeField,
    B: SerializeField,
    C: SerializeField,
    D: SerializeField,
    E: SerializeField,
    F: SerializeField,
    G: SerializeField,
    H: SerializeField,
    I: SerializeField,
    J: SerializeField,
> SerializeFields for (A, B, C, D, E, F, G, H, I, J) {
    ghost count = { 10 };

    ghost fields = { λ ns p.
        field_if 0 (name_in ns 0) (A.document p.0)
        (field_if 1 (name_in ns 1) (B.document p.1)
        (field_if 2 (name_in ns 2) (C.document p.2)
        (field_if 3 (name_in ns 3) (D.document p.3)
        (field_if 4 (name_in ns 4) (E.document p.4)
        (field_if 5 (name_in ns 5) (F.document p.5)
        (field_if 6 (name_in ns 6) (G.document p.6)
        (field_if 7 (name_in ns 7) (H.document p.7)
        (field_if 8 (name_in ns 8) (I.document p.8)
        (field_if 9 (name_in ns 9) (J.document p.9) no_fields))))))))) };

    fn len(&self) -> usize {
        let fields = (
            &self.0,
            &self.1,
            &self.2,
            &self.3,
            (&self.4, &self.5, &self.6, &self.7, (&self.8, (&self.9, ()))),
        );
        fields.written()
    }

    fn serialize_as_fields<W: Write, S: SerializeKeys>(
        &self,
        ser: &mut Serializer<W>,
        keys: S,
        refusal: &mut Option<Error>,
    ) -> WriteDone {
        let fields = (
            &self.0,
            &self.1,
            &self.2,
            &self.3,
            (&self.4, &self.5, &self.6, &self.7, (&self.8, (&self.9, ()))),
        );
        fields.write_fields(ser, keys, 0, refusal)
    }
}

impl<
    A: SerializeField,
    B: SerializeField,
    C: SerializeField,
    D: SerializeField,
    E: SerializeField,
    F: SerializeField,
    G: SerializeField,
    H: SerializeField,
    I: SerializeField,
    J: SerializeField,
    K: SerializeField,
> SerializeFields for (A, B, C, D, E, F, G, H, I, J, K) {
    ghost count = { 11 };

    ghost fields = { λ ns p.
        field_if 0 (name_in ns 0) (A.document p.0)
        (field_if 1 (name_in ns 1) (B.document p.1)
        (field_if 2 (name_in ns 2) (C.document p.2)
        (field_if 3 (name_in ns 3) (D.document p.3)
        (field_if 4 (name_in ns 4) (E.document p.4)
        (field_if 5 (name_in ns 5) (F.document p.5)
        (field_if 6 (name_in ns 6) (G.document p.6)
        (field_if 7 (name_in ns 7) (H.document p.7)
        (field_if 8 (name_in ns 8) (I.document p.8)
        (field_if 9 (name_in ns 9) (J.document p.9)
        (field_if 10 (name_in ns 10) (K.document p.10) no_fields)))))))))) };

    fn len(&self) -> usize {
        let fields = (
            &self.0,
            &self.1,
            &self.2,
            &self.3,
            (
                &self.4,
                &self.5,
                &self.6,
                &self.7,
                (&self.8, (&self.9, (&self.10, ()))),
            ),
        );
        fields.written()
    }

    fn serialize_as_fields<W: Write, S: SerializeKeys>(
        &self,
        ser: &mut Serializer<W>,
        keys: S,
        refusal: &mut Option<Error>,
    ) -> WriteDone {
        let fields = (
            &self.0,
            &self.1,
            &self.2,
            &self.3,
            (
                &self.4,
                &self.5,
                &self.6,
                &self.7,
                (&self.8, (&self.9, (&self.10, ()))),
            ),
        );
        fields.write_fields(ser, keys, 0, refusal)
    }
}

impl<
    A: SerializeField,
    B: SerializeField,
    C: SerializeField,
    D: SerializeField,
    E: SerializeField,
    F: SerializeField,
    G: SerializeField,
    H: SerializeField,
    I: SerializeField,
    J: SerializeField,
    K: SerializeField,
    L: SerializeField,
> SerializeFields for (A, B, C, D, E, F, G, H, I, J, K, L) {
    ghost count = { 12 };

    ghost fields = { λ ns p.
        field_if 0 (name_in ns 0) (A.document p.0)
        (field_if 1 (name_in ns 1) (B.document p.1)
        (field_if 2 (name_in ns 2) (C.document p.2)
        (field_if 3 (name_in ns 3) (D.document p.3)
        (field_if 4 (name_in ns 4) (E.document p.4)
        (field_if 5 (name_in ns 5) (F.document p.5)
        (field_if 6 (name_in ns 6) (G.document p.6)
        (field_if 7 (name_in ns 7) (H.document p.7)
        (field_if 8 (name_in ns 8) (I.document p.8)
        (field_if 9 (name_in ns 9) (J.document p.9)
        (field_if 10 (name_in ns 10) (K.document p.10)
        (field_if 11 (name_in ns 11) (L.document p.11) no_fields))))))))))) };

    fn len(&self) -> usize {
        let fields = (
            &self.0,
            &self.1,
            &self.2,
            &self.3,
            (
                &self.4,
                &self.5,
                &self.6,
                &self.7,
                (&self.8, &self.9, &self.10, &self.11, ()),
            ),
        );
        fields.written()
    }

    fn serialize_as_fields<W: Write, S: SerializeKeys>(
        &self,
        ser: &mut Serializer<W>,
        keys: S,
        refusal: &mut Option<Error>,
    ) -> WriteDone {
        let fields = (
            &self.0,
            &self.1,
            &self.2,
            &self.3,
            (
                &self.4,
                &self.5,
                &self.6,
                &self.7,
                (&self.8, &self.9, &self.10, &self.11, ()),
            ),
        );
        fields.write_fields(ser, keys, 0, refusal)
    }
}

//! Lists of references to the parts of structs, variants and tuples, by which tuples of them are
//! written.

ghost use Rattle.std.specs.Prelude.{◌≡◌, ◌+◌, ◌^◌, ◌<◌, ◌≤◌, ℕ};
ghost use Rattle.std.specs.Prelude.{List, Some, OnErr, OnOk};
ghost use Rattle.std.specs.Option.{IsSomeAnd};
ghost use Rattle.cbor_model.specs.Document.{no_docs, doc, no_fields, field_count};
ghost use Rattle.cbor_model.specs.Parts.{items, ending};
ghost use Rattle.cbor_ser.specs.Labels.{keyed_fields};
ghost use Rattle.cbor_ser.specs.PartLists.{field_if};
ghost use Rattle.cbor_ser.specs.Serialized.{Serialized, Stepped, Stopped};

use crate::field::SerializeField;
use crate::items::{WriteDone, WriteRefused, answer};
use crate::keys::SerializeKeys;
use crate::serialize::Serialize;
use crate::serializer::Serializer;
use cbor_io::error::{Error, Result};
use cbor_io::write::Write;

// References to fields: a pair of the first and the others, or `()`. What the check passes on of
// a list's bounds doubles with each pair within a pair, so long lists go by fours: four fields, and
// those after them.
pub(crate) trait WriteFields {
    ghost use Rattle.std.specs.Prelude.{List, ℕ};
    ghost use Rattle.cbor_model.specs.Document.{Fields};

    // How many they are.
    ghost slots: { ℕ };

    // What they are written as, by these names, from the number and the name in this place on.
    ghost fields_from: { ℕ → List (List ℕ) → Self → Fields };

    // How many of them are written.
    fn written(&self) -> usize
        requires { slots < 2 ^ 32 }
        ensures counted { (i : ℕ) (ns : List (List ℕ)) → result
            ≡ field_count (fields_from i ns self.now) }
        ensures few { result ≤ slots };

    // Appends those that are written, by the keys from the one in this place on.
    fn write_fields<W: Write, K: SerializeKeys>(
        &self,
        ser: &mut Serializer<W>,
        keys: K,
        number: u32,
        refusal: &mut Option<Error>,
    ) -> WriteDone
        requires as_many { number + slots ≡ K.count keys }
        requires numbers { number + slots < 2 ^ 32 }
        ensures { Stepped W.written W.refuses W.references W.capacity ser.old
            (keyed_fields (K.labels keys) (fields_from number (K.names keys) self.now))
            ser.new result refusal.new };
}

impl WriteFields for () {
    ghost slots = { 0 };

    ghost fields_from = { λ i ns u. no_fields };

    fn written(&self) -> usize {
        0
    }

    fn write_fields<W: Write, K: SerializeKeys>(
        &self,
        _ser: &mut Serializer<W>,
        _keys: K,
        _number: u32,
        _refusal: &mut Option<Error>,
    ) -> WriteDone {
        Ok(())
    }
}

impl<'a, A: SerializeField, F: WriteFields> WriteFields for (&'a A, F) {
    ghost use Rattle.std.specs.Prelude.{◌+◌, suc};
    ghost use Rattle.cbor_ser.specs.PartLists.{name_in};

    ghost slots = { F.slots + 1 };

    ghost fields_from = { λ i ns p. field_if i (name_in ns i) (A.document p.0.now)
        (F.fields_from (suc i) ns p.1) };

    fn written(&self) -> usize {
        let others = self.1.written();
        if !self.0.is_written() {
            return others;
        }
        others + 1
    }

    fn write_fields<W: Write, K: SerializeKeys>(
        &self,
        ser: &mut Serializer<W>,
        keys: K,
        number: u32,
        refusal: &mut Option<Error>,
    ) -> WriteDone {
        if !self.0.is_written() {
            return self.1.write_fields(ser, keys, number + 1, refusal);
        }
        keys.serialize_keyed(ser, number, self.0, refusal)?;
        self.1.write_fields(ser, keys, number + 1, refusal)
    }
}

impl<'a, F: WriteFields> WriteFields for &'a F {
    ghost slots = { F.slots };

    ghost fields_from = { λ i ns p. F.fields_from i ns p.now };

    fn written(&self) -> usize {
        (**self).written()
    }

    fn write_fields<W: Write, K: SerializeKeys>(
        &self,
        ser: &mut Serializer<W>,
        keys: K,
        number: u32,
        refusal: &mut Option<Error>,
    ) -> WriteDone {
        (**self).write_fields(ser, keys, number, refusal)
    }
}

impl<
    'a,
    A: SerializeField,
    B: SerializeField,
    C: SerializeField,
    D: SerializeField,
    F: WriteFields,
> WriteFields for (&'a A, &'a B, &'a C, &'a D, F) {
    ghost use Rattle.std.specs.Prelude.{◌+◌, suc};
    ghost use Rattle.cbor_ser.specs.PartLists.{name_in};

    ghost slots = { F.slots + 1 + 1 + 1 + 1 };

    ghost fields_from = { λ i ns p.
        field_if i (name_in ns i) (A.document p.0.now)
        (field_if (suc i) (name_in ns (suc i)) (B.document p.1.now)
        (field_if (suc (suc i)) (name_in ns (suc (suc i))) (C.document p.2.now)
        (field_if (suc (suc (suc i))) (name_in ns (suc (suc (suc i)))) (D.document p.3.now)
        (F.fields_from (suc (suc (suc (suc i)))) ns p.4)))) };

    fn written(&self) -> usize {
        let fields = (self.0, (self.1, (self.2, (self.3, &self.4))));
        fields.written()
    }

    fn write_fields<W: Write, K: SerializeKeys>(
        &self,
        ser: &mut Serializer<W>,
        keys: K,
        number: u32,
        refusal: &mut Option<Error>,
    ) -> WriteDone {
        let fields = (self.0, (self.1, (self.2, (self.3, &self.4))));
        fields.write_fields(ser, keys, number, refusal)
    }
}

// References to the items of an array but the last: a pair of the first and the others, or `()`; or
// four, and those after them.
pub(crate) trait WriteItems {
    ghost use Rattle.std.specs.Prelude.{Result};
    ghost use Rattle.cbor_io.specs.declared.error.Error.{Error};
    ghost use Rattle.cbor_model.specs.Document.{Docs};
    ghost use Rattle.cbor_ser.specs.declared.serializer.Serializer.{Serializer};

    // What they are written as, before these documents.
    ghost documents: { Self → Docs → Docs };

    // Appends them. What refuses one of them is left in `refusal`: an `Error` is large, and a
    // `Result` with one would be copied at each item.
    fn write_items<W: Write>(
        &self,
        ser: &mut Serializer<W>,
        refusal: &mut Option<Error>,
    ) -> WriteDone
        // Where the others are written next, all are.
        ensures ok { OnOk result ((ds : Docs) (last : Serializer W) (r : Result (Unit {0}) Error)
            → Serialized W.written W.refuses W.references W.capacity ser.new
            (items ds (ending (Some 0))) last r
            → Serialized W.written W.refuses W.references W.capacity ser.old
            (items (documents self.now ds) (ending (Some 0))) last r) }
        ensures err { OnErr result (IsSomeAnd refusal.new (λ e. (ds : Docs)
            → Stopped W.written W.refuses W.references W.capacity ser.old
            (items (documents self.now ds) (ending (Some 0))) ser.new e)) };
}

impl<W: Write> Serializer<W> {
    // Appends the items of an array of which a count was declared, and its end: the first ones, and
    // the last.
    #[inline(always)]
    pub(crate) fn write_parts<F: WriteItems, L: Serialize>(
        &mut self,
        first: &F,
        last: &L,
    ) -> Result<()>
        ensures { Serialized W.written W.refuses W.references W.capacity self.old
            (items (F.documents first.now (doc (L.document last.now) no_docs)) (ending (Some 0)))
            self.new result }
    {
        let mut refusal = None;
        match first.write_items(self, &mut refusal) {
            Ok(()) => last.serialize(self),
            Err(WriteRefused) => answer(Err(WriteRefused), refusal),
        }
    }
}

impl WriteItems for () {
    ghost documents = { λ u ds. ds };

    #[inline(always)]
    fn write_items<W: Write>(
        &self,
        _ser: &mut Serializer<W>,
        _refusal: &mut Option<Error>,
    ) -> WriteDone {
        Ok(())
    }
}

impl<'a, A: Serialize, F: WriteItems> WriteItems for (&'a A, F) {
    ghost documents = { λ p ds. doc (A.document p.0.now) (F.documents p.1 ds) };

    #[inline(always)]
    fn write_items<W: Write>(
        &self,
        ser: &mut Serializer<W>,
        refusal: &mut Option<Error>,
    ) -> WriteDone {
        self.0.serialize_step(ser, refusal)?;
        self.1.write_items(ser, refusal)
    }
}

impl<'a, F: WriteItems> WriteItems for &'a F {
    ghost documents = { λ p. F.documents p.now };

    #[inline(always)]
    fn write_items<W: Write>(
        &self,
        ser: &mut Serializer<W>,
        refusal: &mut Option<Error>,
    ) -> WriteDone {
        (**self).write_items(ser, refusal)
    }
}

impl<'a, A: Serialize, B: Serialize, C: Serialize, D: Serialize, F: WriteItems> WriteItems
    for (&'a A, &'a B, &'a C, &'a D, F) {
    ghost documents = { λ p ds.
        doc (A.document p.0.now)
        (doc (B.document p.1.now)
        (doc (C.document p.2.now)
        (doc (D.document p.3.now) (F.documents p.4 ds)))) };

    #[inline(always)]
    fn write_items<W: Write>(
        &self,
        ser: &mut Serializer<W>,
        refusal: &mut Option<Error>,
    ) -> WriteDone {
        let items = (self.0, (self.1, (self.2, (self.3, &self.4))));
        items.write_items(ser, refusal)
    }
}

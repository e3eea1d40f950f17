//! Tuples: those of references, by which variants of several parts are written, and the standard
//! library's, which are written by the same recursion.

ghost use Rattle.std.specs.Prelude.{◌≡◌, ◌^◌, ◌<◌, Some};
ghost use Rattle.cbor_model.specs.Document.{declared, doc_count, no_docs, doc, sequence};
ghost use Rattle.cbor_model.specs.Parts.{item, items, ending};
ghost use Rattle.cbor_ser.specs.Serialized.{Serialized};

use crate::serialize::Serialize;
use crate::serializer::Serializer;
use cbor_io::error::Result;
use cbor_io::write::Write;

/// References to the parts of a variant: a tuple, as `(&self.x, &self.y)`.
pub trait SerializeTuple {
    ghost use Rattle.cbor_model.specs.Document.{Docs};

    // What they are written as.
    ghost documents: { Self → Docs };

    /// How many they are.
    fn len(&self) -> usize
        ensures documents { result ≡ doc_count (documents self.now) }
        ensures few { result < 2 ^ 32 };

    /// Appends them as the items of an array of which a count was declared, and its end.
    fn serialize_items<W: Write>(&self, ser: &mut Serializer<W>) -> Result<()>
        ensures { Serialized W.written W.refuses W.references W.capacity ser.old
            (items (documents self.now) (ending (Some 0))) ser.new result };
}

impl<'a, A: Serialize> SerializeTuple for (&'a A,) {
    ghost documents = { λ p.
        doc (A.document p.0.now) no_docs };

    fn len(&self) -> usize {
        1
    }

    #[inline(always)]
    fn serialize_items<W: Write>(&self, ser: &mut Serializer<W>) -> Result<()> {
        ser.write_parts(&(), self.0)
    }
}

impl<'a, A: Serialize, B: Serialize> SerializeTuple for (&'a A, &'a B) {
    ghost documents = { λ p.
        doc (A.document p.0.now)
        (doc (B.document p.1.now) no_docs) };

    fn len(&self) -> usize {
        2
    }

    #[inline(always)]
    fn serialize_items<W: Write>(&self, ser: &mut Serializer<W>) -> Result<()> {
        let first = (self.0, ());
        ser.write_parts(&first, self.1)
    }
}

impl<'a, A: Serialize, B: Serialize, C: Serialize> SerializeTuple for (&'a A, &'a B, &'a C) {
    ghost documents = { λ p.
        doc (A.document p.0.now)
        (doc (B.document p.1.now)
        (doc (C.document p.2.now) no_docs)) };

    fn len(&self) -> usize {
        3
    }

    #[inline(always)]
    fn serialize_items<W: Write>(&self, ser: &mut Serializer<W>) -> Result<()> {
        let first = (self.0, (self.1, ()));
        ser.write_parts(&first, self.2)
    }
}

impl<'a, A: Serialize, B: Serialize, C: Serialize, D: Serialize> SerializeTuple
    for (&'a A, &'a B, &'a C, &'a D) {
    ghost documents = { λ p.
        doc (A.document p.0.now)
        (doc (B.document p.1.now)
        (doc (C.document p.2.now)
        (doc (D.document p.3.now) no_docs))) };

    fn len(&self) -> usize {
        4
    }

    #[inline(always)]
    fn serialize_items<W: Write>(&self, ser: &mut Serializer<W>) -> Result<()> {
        let first = (self.0, (self.1, (self.2, ())));
        ser.write_parts(&first, self.3)
    }
}

impl<'a, A: Serialize, B: Serialize, C: Serialize, D: Serialize, E: Serialize> SerializeTuple
    for (&'a A, &'a B, &'a C, &'a D, &'a E) {
    ghost documents = { λ p.
        doc (A.document p.0.now)
        (doc (B.document p.1.now)
        (doc (C.document p.2.now)
        (doc (D.document p.3.now)
        (doc (E.document p.4.now) no_docs)))) };

    fn len(&self) -> usize {
        5
    }

    #[inline(always)]
    fn serialize_items<W: Write>(&self, ser: &mut Serializer<W>) -> Result<()> {
        let first = (self.0, self.1, self.2, self.3, ());
        ser.write_parts(&first, self.4)
    }
}

impl<
    'a,
    A: Serialize,
    B: Serialize,
    C: Serialize,
    D: Serialize,
    E: Serialize,
    F: Serialize,
> SerializeTuple for (&'a A, &'a B, &'a C, &'a D, &'a E, &'a F) {
    ghost documents = { λ p.
        doc (A.document p.0.now)
        (doc (B.document p.1.now)
        (doc (C.document p.2.now)
        (doc (D.document p.3.now)
        (doc (E.document p.4.now)
        (doc (F.document p.5.now) no_docs))))) };

    fn len(&self) -> usize {
        6
    }

    #[inline(always)]
    fn serialize_items<W: Write>(&self, ser: &mut Serializer<W>) -> Result<()> {
        let first = (self.0, self.1, self.2, self.3, (self.4, ()));
        ser.write_parts(&first, self.5)
    }
}

impl<
    'a,
    A: Serialize,
    B: Serialize,
    C: Serialize,
    D: Serialize,
    E: Serialize,
    F: Serialize,
    G: Serialize,
> SerializeTuple for (&'a A, &'a B, &'a C, &'a D, &'a E, &'a F, &'a G) {
    ghost documents = { λ p.
        doc (A.document p.0.now)
        (doc (B.document p.1.now)
        (doc (C.document p.2.now)
        (doc (D.document p.3.now)
        (doc (E.document p.4.now)
        (doc (F.document p.5.now)
        (doc (G.document p.6.now) no_docs)))))) };

    fn len(&self) -> usize {
        7
    }

    #[inline(always)]
    fn serialize_items<W: Write>(&self, ser: &mut Serializer<W>) -> Result<()> {
        let first = (self.0, self.1, self.2, self.3, (self.4, (self.5, ())));
        ser.write_parts(&first, self.6)
    }
}

impl<
    'a,
    A: Serialize,
    B: Serialize,
    C: Serialize,
    D: Serialize,
    E: Serialize,
    F: Serialize,
    G: Serialize,
    H: Serialize,
> SerializeTuple for (&'a A, &'a B, &'a C, &'a D, &'a E, &'a F, &'a G, &'a H) {
    ghost documents = { λ p.
        doc (A.document p.0.now)
        (doc (B.document p.1.now)
        (doc (C.document p.2.now)
        (doc (D.document p.3.now)
        (doc (E.document p.4.now)
        (doc (F.document p.5.now)
        (doc (G.document p.6.now)
        (doc (H.document p.7.now) no_docs))))))) };

    fn len(&self) -> usize {
        8
    }

    #[inline(always)]
    fn serialize_items<W: Write>(&self, ser: &mut Serializer<W>) -> Result<()> {
        let first = (
            self.0,
            self.1,
            self.2,
            self.3,
            (self.4, (self.5, (self.6, ()))),
        );
        ser.write_parts(&first, self.7)
    }
}

// ---- the standard library's tuples

impl<W: Write> Serializer<W> {
    // Appends these parts as a sequence.
    #[inline(always)]
    fn write_tuple<F: SerializeTuple>(&mut self, parts: &F) -> Result<()>
        ensures { Serialized W.written W.refuses W.references W.capacity self.old
            (item (sequence declared (F.documents parts.now))) self.new result }
    {
        self.write_array_head(Some(parts.len()))?;
        parts.serialize_items(self)
    }
}

impl<A: Serialize> Serialize for (A,) {
    ghost document = { λ t. sequence declared (doc (A.document t.0) no_docs) };

    fn serialize<W: Write>(&self, ser: &mut Serializer<W>) -> Result<()> {
        ser.write_tuple(&(&self.0,))
    }
}

impl<A: Serialize, B: Serialize> Serialize for (A, B) {
    ghost document = { λ t. sequence declared (doc (A.document t.0)
        (doc (B.document t.1) no_docs)) };

    fn serialize<W: Write>(&self, ser: &mut Serializer<W>) -> Result<()> {
        ser.write_tuple(&(&self.0, &self.1))
    }
}

impl<A: Serialize, B: Serialize, C: Serialize> Serialize for (A, B, C) {
    ghost document = { λ t. sequence declared (doc (A.document t.0)
        (doc (B.document t.1)
        (doc (C.document t.2) no_docs))) };

    fn serialize<W: Write>(&self, ser: &mut Serializer<W>) -> Result<()> {
        ser.write_tuple(&(&self.0, &self.1, &self.2))
    }
}

impl<A: Serialize, B: Serialize, C: Serialize, D: Serialize> Serialize for (A, B, C, D) {
    ghost document = { λ t. sequence declared (doc (A.document t.0)
        (doc (B.document t.1)
        (doc (C.document t.2)
        (doc (D.document t.3) no_docs)))) };

    fn serialize<W: Write>(&self, ser: &mut Serializer<W>) -> Result<()> {
        ser.write_tuple(&(&self.0, &self.1, &self.2, &self.3))
    }
}

impl<A: Serialize, B: Serialize, C: Serialize, D: Serialize, E: Serialize> Serialize
    for (A, B, C, D, E) {
    ghost document = { λ t. sequence declared (doc (A.document t.0)
        (doc (B.document t.1)
        (doc (C.document t.2)
        (doc (D.document t.3)
        (doc (E.document t.4) no_docs))))) };

    fn serialize<W: Write>(&self, ser: &mut Serializer<W>) -> Result<()> {
        ser.write_tuple(&(&self.0, &self.1, &self.2, &self.3, &self.4))
    }
}

impl<A: Serialize, B: Serialize, C: Serialize, D: Serialize, E: Serialize, F: Serialize> Serialize
    for (A, B, C, D, E, F) {
    ghost document = { λ t. sequence declared (doc (A.document t.0)
        (doc (B.document t.1)
        (doc (C.document t.2)
        (doc (D.document t.3)
        (doc (E.document t.4)
        (doc (F.document t.5) no_docs)))))) };

    fn serialize<W: Write>(&self, ser: &mut Serializer<W>) -> Result<()> {
        ser.write_tuple(&(&self.0, &self.1, &self.2, &self.3, &self.4, &self.5))
    }
}

impl<
    A: Serialize,
    B: Serialize,
    C: Serialize,
    D: Serialize,
    E: Serialize,
    F: Serialize,
    G: Serialize,
> Serialize for (A, B, C, D, E, F, G) {
    ghost document = { λ t. sequence declared (doc (A.document t.0)
        (doc (B.document t.1)
        (doc (C.document t.2)
        (doc (D.document t.3)
        (doc (E.document t.4)
        (doc (F.document t.5)
        (doc (G.document t.6) no_docs))))))) };

    fn serialize<W: Write>(&self, ser: &mut Serializer<W>) -> Result<()> {
        ser.write_tuple(&(
            &self.0, &self.1, &self.2, &self.3, &self.4, &self.5, &self.6,
        ))
    }
}

impl<
    A: Serialize,
    B: Serialize,
    C: Serialize,
    D: Serialize,
    E: Serialize,
    F: Serialize,
    G: Serialize,
    H: Serialize,
> Serialize for (A, B, C, D, E, F, G, H) {
    ghost document = { λ t. sequence declared (doc (A.document t.0)
        (doc (B.document t.1)
        (doc (C.document t.2)
        (doc (D.document t.3)
        (doc (E.document t.4)
        (doc (F.document t.5)
        (doc (G.document t.6)
        (doc (H.document t.7) no_docs)))))))) };

    fn serialize<W: Write>(&self, ser: &mut Serializer<W>) -> Result<()> {
        ser.write_tuple(&(
            &self.0, &self.1, &self.2, &self.3, &self.4, &self.5, &self.6, &self.7,
        ))
    }
}

//! Structs and enums that are written from tuples of references.

ghost use Rattle.std.specs.Prelude.{◌≡◌, ◌<◌};
ghost use Rattle.cbor_model.specs.Document.{structure, unit_variant, newtype_variant};
ghost use Rattle.cbor_model.specs.Document.{tuple_variant, struct_variant};
ghost use Rattle.cbor_model.specs.Parts.{item};
ghost use Rattle.cbor_ser.specs.Labels.{keyed_document, labelled};
ghost use Rattle.cbor_ser.specs.PartLists.{name_in};
ghost use Rattle.cbor_ser.specs.Serialized.{Serialized, Stepped};

use crate::fields::SerializeFields;
use crate::items::{WriteDone, answer};
use crate::keys::{ByLabels, ByNames, SerializeKeys};
use crate::serialize::Serialize;
use crate::serializer::Serializer;
use crate::tuples::SerializeTuple;
use cbor_io::error::{Error, Result};
use cbor_io::write::Write;
use cbor_parts::{AtMostEightParts, FieldLabels, FieldNames, Labelled, Newtype, Schema, Tuple};

/// The content of a variant, to be written: `()`, [`Newtype`] of a reference, [`Tuple`] of a tuple
/// of references, or [`NamedFields`].
pub trait SerializeVariant {
    ghost use Rattle.std.specs.Prelude.{List, ℕ};
    ghost use Rattle.cbor_model.specs.Document.{Doc};

    // What the variant of this number and this name is written as.
    ghost document: { ℕ → List ℕ → Self → Doc };

    // It has as many names as fields.
    ghost is_named: { Self → Type 0 };

    /// Appends the variant.
    fn serialize_variant<W: Write>(
        &self,
        ser: &mut Serializer<W>,
        number: u32,
        name: &str,
    ) -> Result<()>
        requires { is_named self.now }
        ensures { Serialized W.written W.refuses W.references W.capacity ser.old
            (item (document number name.now self.now)) ser.new result };
}

impl SerializeVariant for () {
    ghost document = { λ i n u. unit_variant i n };

    ghost is_named = { λ u. Unit {0} };

    fn serialize_variant<W: Write>(
        &self,
        ser: &mut Serializer<W>,
        number: u32,
        name: &str,
    ) -> Result<()> {
        ser.write_identifier(number, name)
    }
}

impl<'a, T: Serialize> SerializeVariant for Newtype<&'a T> {
    ghost document = { λ i n v. newtype_variant i n (T.document v.0.now) };

    ghost is_named = { λ u. Unit {0} };

    fn serialize_variant<W: Write>(
        &self,
        ser: &mut Serializer<W>,
        number: u32,
        name: &str,
    ) -> Result<()> {
        ser.write_newtype_head(number, name)?;
        self.0.serialize(ser)
    }
}

impl<F: SerializeTuple + AtMostEightParts> SerializeVariant for Tuple<F> {
    ghost document = { λ i n v. tuple_variant i n (F.documents v.0) };

    ghost is_named = { λ u. Unit {0} };

    fn serialize_variant<W: Write>(
        &self,
        ser: &mut Serializer<W>,
        number: u32,
        name: &str,
    ) -> Result<()> {
        ser.write_tuple_head(number, name, self.0.len())?;
        self.0.serialize_items(ser)
    }
}

/// The content of a variant of named fields, to be written: the type that names them, and
/// references to them.
#[derive(Drop)]
pub struct NamedFields<N, F>(pub N, pub F);

impl<N: FieldNames, F: SerializeFields> SerializeVariant for NamedFields<N, F> {
    ghost document = { λ i n v. struct_variant i n (F.fields N.names v.1) };

    ghost is_named = { λ v. F.count ≡ N.Parts.count };

    fn serialize_variant<W: Write>(
        &self,
        ser: &mut Serializer<W>,
        number: u32,
        name: &str,
    ) -> Result<()> {
        ser.write_struct_head(number, name, self.1.len())?;
        let mut refusal = None;
        let done = self
            .1
            .serialize_as_fields(ser, ByNames(N::names()), &mut refusal);
        answer(done, refusal)
    }
}

impl<W: Write> Serializer<W> {
    /// Writes a struct of these fields, by the names that its description gives, or their numbers
    /// where the format is packed. An [`OptionalField`](crate::OptionalField) that is None is left
    /// out.
    ///
    /// ```rust
    /// impl Serialize for User {
    ///     ghost document = { ⟦<Self as WrittenBy<<Self as Schema>::Parts>>⟧.document };
    ///
    ///     fn serialize<W: Write>(&self, ser: &mut Serializer<W>) -> Result<()> {
    ///         ser.serialize_fields(self, &(&self.user_id, &self.admin))
    ///     }
    /// }
    /// ```
    pub fn serialize_fields<T: Schema, F: SerializeFields>(
        &mut self,
        _of: &T,
        fields: &F,
    ) -> Result<()>
        requires { F.count ≡ T.Parts.count }
        ensures { Serialized W.written W.refuses W.references W.capacity self.old
            (item (structure (F.fields T.names fields.now))) self.new result }
    {
        let mut refusal = None;
        let done = self.fields_step(fields, ByNames(T::names()), &mut refusal);
        answer(done, refusal)
    }

    /// Writes a struct of these fields, whose keys are the labels that its description gives, packed
    /// or not. An [`OptionalField`](crate::OptionalField) that is None is left out.
    ///
    /// ```rust
    /// const SYMMETRIC: &[i64] = &[-1, 1, 3]; // a key of COSE (RFC 9053, section 7.3)
    ///
    /// struct SymmetricLabels;
    ///
    /// impl FieldLabels for SymmetricLabels {
    ///     type Parts = (ByteBuf, i64, Optional<i64>);
    ///
    ///     ghost labels = { SYMMETRIC.now };
    ///
    ///     fn labels() -> &'static [i64] {
    ///         SYMMETRIC
    ///     }
    /// }
    ///
    /// // whose `Schema` has the parts `Labelled<SymmetricLabels>`
    /// impl Serialize for SymmetricKey {
    ///     ghost document = { ⟦<Self as WrittenBy<<Self as Schema>::Parts>>⟧.document };
    ///
    ///     fn serialize<W: Write>(&self, ser: &mut Serializer<W>) -> Result<()> {
    ///         ser.serialize_labelled(self, &(&self.k, &self.kty, OptionalField(&self.alg)))
    ///     }
    /// }
    ///
    /// let key = SymmetricKey { k: ByteBuf::from(vec![in alloc; 0x66, 0x84]?), kty: 4, alg: None };
    /// assert_eq!(rt; to_vec(alloc, &key)?.as_slice(), b"\xa2\x20\x42\x66\x84\x01\x04".as_slice());
    /// ```
    pub fn serialize_labelled<L: FieldLabels, T: Schema<Parts = Labelled<L>>, F: SerializeFields>(
        &mut self,
        _of: &T,
        fields: &F,
    ) -> Result<()>
        requires { F.count ≡ L.Parts.count }
        ensures { Serialized W.written W.refuses W.references W.capacity self.old
            (item (labelled L.labels (F.fields T.names fields.now))) self.new result }
    {
        let mut refusal = None;
        let keys = ByLabels {
            names: T::names(),
            labels: L::labels(),
        };
        let done = self.fields_step(fields, keys, &mut refusal);
        answer(done, refusal)
    }

    // Appends the map of these fields, by these keys.
    fn fields_step<F: SerializeFields, K: SerializeKeys>(
        &mut self,
        fields: &F,
        keys: K,
        refusal: &mut Option<Error>,
    ) -> WriteDone
        requires { K.count keys ≡ F.count }
        ensures { Stepped W.written W.refuses W.references W.capacity self.old
            (item (keyed_document (K.labels keys) (F.fields (K.names keys) fields.now)))
            self.new result refusal.new }
    {
        self.map_step(fields.len(), refusal)?;
        fields.serialize_as_fields(self, keys, refusal)
    }

    /// Writes a variant of an enum, by its number among those that the enum's description names.
    ///
    /// ```rust
    /// match self {
    ///     Shape::Nothing => ser.serialize_variant(self, 0, &()),
    ///     Shape::Circle(radius) => ser.serialize_variant(self, 1, &Newtype(radius)),
    /// }
    /// ```
    pub fn serialize_variant<T: Schema, V: SerializeVariant>(
        &mut self,
        _of: &T,
        number: u32,
        content: &V,
    ) -> Result<()>
        requires numbered { number < T.Parts.count }
        requires named { V.is_named content.now }
        ensures { Serialized W.written W.refuses W.references W.capacity self.old
            (item (V.document number (name_in T.names number) content.now)) self.new result }
    {
        let names = T::names();
        content.serialize_variant(self, number, names[number as usize])
    }
}

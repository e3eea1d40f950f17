//! Enums, with variants of each kind.

use serde_cbor::de::{Deserialize, DeserializeOwned, Read, ReadBy, Readable, read_described};
use serde_cbor::parts::{FieldNames, Newtype, OneOf1, OneOf2, OneOf3, Schema, Struct, Tuple};
use serde_cbor::ser::{NamedFields, Serialize, Serializer, Write, WrittenBy};
use serde_cbor::{Deserializer, Result};

#[derive(Debug, Drop)]
pub enum DataEnum {
    A(i32),
    B(bool, u8),
    C { x: u8, y: String },
}

/// The names of its variants.
const DATA: &[&str] = &["A", "B", "C"];

/// The named fields of its last variant.
#[derive(Drop)]
pub struct DataFields;

const POINT: &[&str] = &["x", "y"];

impl FieldNames for DataFields {
    ghost use Rattle.std.specs.Prelude.{map};
    ghost use Rattle.row_types.specs.declared.enums.TheConstants.{POINT};

    type Parts = (u8, String);

    ghost names = { map (λ n. n.now) POINT.now };

    fn names() -> &'static [&'static str] {
        POINT
    }
}

impl Schema for DataEnum {
    ghost use Rattle.std.specs.Prelude.{map};
    ghost use Rattle.serde_cbor.specs.Schemas.{newtype, tuple, structure};
    ghost use Rattle.serde_cbor.specs.OneOf3 as one_of;
    ghost use Rattle.row_types.specs.declared.enums.DataEnum.TheVariants as at;
    ghost use Rattle.row_types.specs.declared.enums.TheConstants.{DATA};

    type Parts = OneOf3<Newtype<i32>, Tuple<(bool, u8)>, Struct<DataFields>>;

    ghost names = { map (λ n. n.now) DATA.now };

    ghost parts = { elim [
      | at.A n ↦ one_of.first (newtype n)
      | at.B a b ↦ one_of.second (tuple (a, b))
      | at.C x y ↦ one_of.third (structure (x, y))
    ] };

    fn names() -> &'static [&'static str] {
        DATA
    }

    fn from_parts(from: Self::Parts) -> DataEnum {
        match from {
            OneOf3::First(Newtype(n)) => DataEnum::A(n),
            OneOf3::Second(Tuple(parts)) => {
                let (a, b) = parts;
                DataEnum::B(a, b)
            }
            OneOf3::Third(Struct(fields)) => {
                let (x, y) = fields;
                DataEnum::C { x, y }
            }
        }
    }
}

impl Serialize for DataEnum {
    ghost document = { ⟦<Self as WrittenBy<<Self as Schema>::Parts>>⟧.document };

    fn serialize<W: Write>(&self, ser: &mut Serializer<W>) -> Result<()> {
        match self {
            DataEnum::A(n) => ser.serialize_variant(self, 0, &Newtype(n)),
            DataEnum::B(a, b) => ser.serialize_variant(self, 1, &Tuple((a, b))),
            DataEnum::C { x, y } => ser.serialize_variant(
                self,
                2,
                &NamedFields(DataFields, (x, y)),
            ),
        }
    }
}

impl Readable for DataEnum {
    ghost reads = { ⟦<Self as ReadBy<<Self as Schema>::Parts>>⟧.reads };

    ghost wrong_forms = { ⟦<Self as ReadBy<<Self as Schema>::Parts>>⟧.wrong_forms };
}

impl<'de, R: Read<'de>> Deserialize<'de, R> for DataEnum {
    fn deserialize(de: &mut Deserializer<R>) -> Result<DataEnum> {
        read_described(de)
    }
}

impl DeserializeOwned for DataEnum {
    ghost same = { λ f a b r v h. h };
}

#[derive(Debug, Drop)]
pub enum TwoVariants {
    FirstVariant,
    SecondVariant(u8),
}

/// The names of its variants.
const TWO: &[&str] = &["FirstVariant", "SecondVariant"];

impl Schema for TwoVariants {
    ghost use Rattle.std.specs.Prelude.{map};
    ghost use Rattle.serde_cbor.specs.Schemas.{newtype};
    ghost use Rattle.serde_cbor.specs.OneOf2 as one_of;
    ghost use Rattle.row_types.specs.declared.enums.TwoVariants.TheVariants as at;
    ghost use Rattle.row_types.specs.declared.enums.TheConstants.{TWO};

    type Parts = OneOf2<(), Newtype<u8>>;

    ghost names = { map (λ n. n.now) TWO.now };

    ghost parts = { elim [
      | at.FirstVariant ↦ one_of.first tt
      | at.SecondVariant n ↦ one_of.second (newtype n)
    ] };

    fn names() -> &'static [&'static str] {
        TWO
    }

    fn from_parts(from: Self::Parts) -> TwoVariants {
        match from {
            OneOf2::First(()) => TwoVariants::FirstVariant,
            OneOf2::Second(Newtype(n)) => TwoVariants::SecondVariant(n),
        }
    }
}

impl Serialize for TwoVariants {
    ghost document = { ⟦<Self as WrittenBy<<Self as Schema>::Parts>>⟧.document };

    fn serialize<W: Write>(&self, ser: &mut Serializer<W>) -> Result<()> {
        match self {
            TwoVariants::FirstVariant => ser.serialize_variant(self, 0, &()),
            TwoVariants::SecondVariant(n) => ser.serialize_variant(self, 1, &Newtype(n)),
        }
    }
}

impl Readable for TwoVariants {
    ghost reads = { ⟦<Self as ReadBy<<Self as Schema>::Parts>>⟧.reads };

    ghost wrong_forms = { ⟦<Self as ReadBy<<Self as Schema>::Parts>>⟧.wrong_forms };
}

impl<'de, R: Read<'de>> Deserialize<'de, R> for TwoVariants {
    fn deserialize(de: &mut Deserializer<R>) -> Result<TwoVariants> {
        read_described(de)
    }
}

impl DeserializeOwned for TwoVariants {
    ghost same = { λ f a b r v h. h };
}

/// An enum of one variant, which is written in small letters.
#[derive(Debug, Drop)]
pub enum Wish {
    Require,
}

/// The names of its variants.
const WISH: &[&str] = &["require"];

impl Schema for Wish {
    ghost use Rattle.std.specs.Prelude.{map};
    ghost use Rattle.serde_cbor.specs.OneOf1 as one_of;
    ghost use Rattle.row_types.specs.declared.enums.Wish.TheVariants as at;
    ghost use Rattle.row_types.specs.declared.enums.TheConstants.{WISH};

    type Parts = OneOf1<()>;

    ghost names = { map (λ n. n.now) WISH.now };

    ghost parts = { elim [
      | at.Require ↦ one_of.first tt
    ] };

    fn names() -> &'static [&'static str] {
        WISH
    }

    fn from_parts(from: Self::Parts) -> Wish {
        match from {
            OneOf1::First(()) => Wish::Require,
        }
    }
}

impl Serialize for Wish {
    ghost document = { ⟦<Self as WrittenBy<<Self as Schema>::Parts>>⟧.document };

    fn serialize<W: Write>(&self, ser: &mut Serializer<W>) -> Result<()> {
        match self {
            Wish::Require => ser.serialize_variant(self, 0, &()),
        }
    }
}

impl Readable for Wish {
    ghost reads = { ⟦<Self as ReadBy<<Self as Schema>::Parts>>⟧.reads };

    ghost wrong_forms = { ⟦<Self as ReadBy<<Self as Schema>::Parts>>⟧.wrong_forms };
}

impl<'de, R: Read<'de>> Deserialize<'de, R> for Wish {
    fn deserialize(de: &mut Deserializer<R>) -> Result<Wish> {
        read_described(de)
    }
}

impl DeserializeOwned for Wish {
    ghost same = { λ f a b r v h. h };
}

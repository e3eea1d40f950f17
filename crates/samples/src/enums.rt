//! Enums, with variants of each kind.

use serde_cbor::de::{Deserialize, DeserializeOwned, Read, ReadBy, Readable, read_described};
use serde_cbor::parts::{FieldNames, Newtype, OneOf4, Schema, Struct, Tuple};
use serde_cbor::ser::{NamedFields, Serialize, Serializer, Write, WrittenBy};
use serde_cbor::{Deserializer, Result};

/// An enum with variants of three kinds.
#[derive(Debug, Drop)]
pub enum Color {
    Blue,
    Other(u64),
    Yellow(u8),
    Alpha(u64, u8),
}

/// The names of its variants.
const COLOR: &[&str] = &["Blue", "Other", "Yellow", "Alpha"];

impl Schema for Color {
    ghost use Rattle.std.specs.Prelude.{map};
    ghost use Rattle.serde_cbor.specs.Schemas.{newtype, tuple};
    ghost use Rattle.serde_cbor.specs.OneOf4 as one_of;
    ghost use Rattle.samples.specs.declared.enums.Color.TheVariants as at;
    ghost use Rattle.samples.specs.declared.enums.TheConstants.{COLOR};

    type Parts = OneOf4<(), Newtype<u64>, Newtype<u8>, Tuple<(u64, u8)>>;

    ghost names = { map (λ n. n.now) COLOR.now };

    ghost parts = { elim [
      | at.Blue ↦ one_of.first tt
      | at.Other n ↦ one_of.second (newtype n)
      | at.Yellow n ↦ one_of.third (newtype n)
      | at.Alpha a b ↦ one_of.fourth (tuple (a, b))
    ] };

    fn names() -> &'static [&'static str] {
        COLOR
    }

    fn from_parts(from: Self::Parts) -> Color {
        match from {
            OneOf4::First(()) => Color::Blue,
            OneOf4::Second(Newtype(n)) => Color::Other(n),
            OneOf4::Third(Newtype(n)) => Color::Yellow(n),
            OneOf4::Fourth(Tuple(parts)) => {
                let (a, b) = parts;
                Color::Alpha(a, b)
            }
        }
    }
}

impl Serialize for Color {
    ghost document = { ⟦<Self as WrittenBy<<Self as Schema>::Parts>>⟧.document };

    fn serialize<W: Write>(&self, ser: &mut Serializer<W>) -> Result<()> {
        match self {
            Color::Blue => ser.serialize_variant(self, 0, &()),
            Color::Other(n) => ser.serialize_variant(self, 1, &Newtype(n)),
            Color::Yellow(n) => ser.serialize_variant(self, 2, &Newtype(n)),
            Color::Alpha(a, b) => ser.serialize_variant(self, 3, &Tuple((a, b))),
        }
    }
}

impl Readable for Color {
    ghost reads = { ⟦<Self as ReadBy<<Self as Schema>::Parts>>⟧.reads };

    ghost wrong_forms = { ⟦<Self as ReadBy<<Self as Schema>::Parts>>⟧.wrong_forms };
}

impl<'de, R: Read<'de>> Deserialize<'de, R> for Color {
    fn deserialize(de: &mut Deserializer<R>) -> Result<Color> {
        read_described(de)
    }
}

impl DeserializeOwned for Color {
    ghost same = { λ f a b r v h. h };
}

/// An enum with variants of each kind.
#[derive(Debug, Drop)]
pub enum EachKind {
    Empty,
    Number(i64),
    Flag(String, bool),
    Point { x: i64, y: i64 },
}

/// The names of its variants.
const EACH_KIND: &[&str] = &["Empty", "Number", "Flag", "Point"];

/// The named fields of its last variant.
#[derive(Drop)]
pub struct PointFields;

const POINT: &[&str] = &["x", "y"];

impl FieldNames for PointFields {
    ghost use Rattle.std.specs.Prelude.{map};
    ghost use Rattle.samples.specs.declared.enums.TheConstants.{POINT};

    type Parts = (i64, i64);

    ghost names = { map (λ n. n.now) POINT.now };

    fn names() -> &'static [&'static str] {
        POINT
    }
}

impl Schema for EachKind {
    ghost use Rattle.std.specs.Prelude.{map};
    ghost use Rattle.serde_cbor.specs.Schemas.{newtype, tuple, structure};
    ghost use Rattle.serde_cbor.specs.OneOf4 as one_of;
    ghost use Rattle.samples.specs.declared.enums.EachKind.TheVariants as at;
    ghost use Rattle.samples.specs.declared.enums.TheConstants.{EACH_KIND};

    type Parts = OneOf4<(), Newtype<i64>, Tuple<(String, bool)>, Struct<PointFields>>;

    ghost names = { map (λ n. n.now) EACH_KIND.now };

    ghost parts = { elim [
      | at.Empty ↦ one_of.first tt
      | at.Number n ↦ one_of.second (newtype n)
      | at.Flag a b ↦ one_of.third (tuple (a, b))
      | at.Point x y ↦ one_of.fourth (structure (x, y))
    ] };

    fn names() -> &'static [&'static str] {
        EACH_KIND
    }

    fn from_parts(from: Self::Parts) -> EachKind {
        match from {
            OneOf4::First(()) => EachKind::Empty,
            OneOf4::Second(Newtype(n)) => EachKind::Number(n),
            OneOf4::Third(Tuple(parts)) => {
                let (a, b) = parts;
                EachKind::Flag(a, b)
            }
            OneOf4::Fourth(Struct(point)) => {
                let (x, y) = point;
                EachKind::Point { x, y }
            }
        }
    }
}

impl Serialize for EachKind {
    ghost document = { ⟦<Self as WrittenBy<<Self as Schema>::Parts>>⟧.document };

    fn serialize<W: Write>(&self, ser: &mut Serializer<W>) -> Result<()> {
        match self {
            EachKind::Empty => ser.serialize_variant(self, 0, &()),
            EachKind::Number(n) => ser.serialize_variant(self, 1, &Newtype(n)),
            EachKind::Flag(a, b) => ser.serialize_variant(self, 2, &Tuple((a, b))),
            EachKind::Point { x, y } => ser.serialize_variant(
                self,
                3,
                &NamedFields(PointFields, (x, y)),
            ),
        }
    }
}

impl Readable for EachKind {
    ghost reads = { ⟦<Self as ReadBy<<Self as Schema>::Parts>>⟧.reads };

    ghost wrong_forms = { ⟦<Self as ReadBy<<Self as Schema>::Parts>>⟧.wrong_forms };
}

impl<'de, R: Read<'de>> Deserialize<'de, R> for EachKind {
    fn deserialize(de: &mut Deserializer<R>) -> Result<EachKind> {
        read_described(de)
    }
}

impl DeserializeOwned for EachKind {
    ghost same = { λ f a b r v h. h };
}

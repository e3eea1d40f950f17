//! An enum with a variant of each kind.

ghost use Rattle.std.specs.Prelude.{map, refl};
ghost use Rattle.serde_cbor.specs.Schemas.{newtype, structure, tuple};
ghost use Rattle.own_types.specs.declared.shapes.TheConstants.{SHAPE, SQUARE};

use serde_cbor::de::{Deserialize, DeserializeOwned, Read, ReadBy, Readable, read_described};
use serde_cbor::parts::{FieldNames, Newtype, OneOf4, Schema, Struct, Tuple};
use serde_cbor::round_trip::RoundTripBy;
use serde_cbor::ser::{NamedFields, Serialize, Serializer, Write, WrittenBy};
use serde_cbor::{Deserializer, Result, RoundTrip};

/// What is drawn.
#[derive(Debug, Drop)]
pub enum Shape {
    Nothing,
    Circle(u32),
    Line(u32, u32),
    Square { side: u32, filled: bool },
}

/// The names of the variants.
const SHAPE: &[&str] = &["Nothing", "Circle", "Line", "Square"];

/// The names of a square's fields.
const SQUARE: &[&str] = &["side", "filled"];

/// The fields of a square.
#[derive(Drop)]
pub struct SquareFields;

impl FieldNames for SquareFields {
    type Parts = (u32, bool);

    ghost names = { map (λ n. n.now) SQUARE.now };

    fn names() -> &'static [&'static str] {
        SQUARE
    }
}

impl Schema for Shape {
    ghost use Rattle.serde_cbor.specs.OneOf4 as one_of;
    ghost use Rattle.own_types.specs.declared.shapes.Shape.TheVariants as shape;

    type Parts = OneOf4<(), Newtype<u32>, Tuple<(u32, u32)>, Struct<SquareFields>>;

    ghost names = { map (λ n. n.now) SHAPE.now };

    ghost parts = { elim [
      | shape.Nothing ↦ one_of.first tt
      | shape.Circle radius ↦ one_of.second (newtype radius)
      | shape.Line x y ↦ one_of.third (tuple (x, y))
      | shape.Square side filled ↦ one_of.fourth (structure (side, filled))
    ] };

    fn names() -> &'static [&'static str] {
        SHAPE
    }

    fn from_parts(from: Self::Parts) -> Shape {
        match from {
            OneOf4::First(()) => Shape::Nothing,
            OneOf4::Second(Newtype(radius)) => Shape::Circle(radius),
            OneOf4::Third(Tuple(parts)) => {
                let (x, y) = parts;
                Shape::Line(x, y)
            }
            OneOf4::Fourth(Struct(fields)) => {
                let (side, filled) = fields;
                Shape::Square { side, filled }
            }
        }
    }
}

impl Serialize for Shape {
    ghost document = { ⟦<Self as WrittenBy<<Self as Schema>::Parts>>⟧.document };

    fn serialize<W: Write>(&self, ser: &mut Serializer<W>) -> Result<()> {
        match self {
            Shape::Nothing => ser.serialize_variant(self, 0, &()),
            Shape::Circle(radius) => ser.serialize_variant(self, 1, &Newtype(radius)),
            Shape::Line(x, y) => ser.serialize_variant(self, 2, &Tuple((x, y))),
            Shape::Square { side, filled } => {
                ser.serialize_variant(self, 3, &NamedFields(SquareFields, (side, filled)))
            }
        }
    }
}

impl Readable for Shape {
    ghost reads = { ⟦<Self as ReadBy<<Self as Schema>::Parts>>⟧.reads };

    ghost wrong_forms = { ⟦<Self as ReadBy<<Self as Schema>::Parts>>⟧.wrong_forms };
}

impl<'de, R: Read<'de>> Deserialize<'de, R> for Shape {
    fn deserialize(de: &mut Deserializer<R>) -> Result<Shape> {
        read_described(de)
    }
}

impl DeserializeOwned for Shape {
    ghost same = { λ f a b r s h. h };
}

impl RoundTrip for Shape {
    ghost law = { ⟦<Self as RoundTripBy<<Self as Schema>::Parts>>⟧.law.by_names refl refl };

    ghost back = { Self.law.back };
}

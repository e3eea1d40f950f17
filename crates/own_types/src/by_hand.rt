//! An enum and a struct whose parts are read one by one, and the struct's written so, as types are
//! that no description fits, with the proofs that it takes.

use serde_cbor::de::{Deserialize, DeserializeOwned, Field, Read, Readable};
use serde_cbor::ser::{Serialize, Serializer, Write};
use serde_cbor::{Deserializer, Result};

/// An enum with a variant of each kind.
#[derive(Debug, Drop)]
pub enum Bar {
    Empty,
    Number(i64),
    Flag(String, bool),
    Point { x: i64, y: i64 },
}

/// The names of its variants.
const BAR: &[&str] = &["Empty", "Number", "Flag", "Point"];

/// The fields of its last variant.
#[derive(Drop)]
pub struct Point {
    pub x: i64,
    pub y: i64,
}

/// The names of its fields.
const POINT: &[&str] = &["x", "y"];

impl Serialize for Point {
    ghost use Rattle.std.specs.Prelude.{codes};
    ghost use Rattle.serde_cbor.specs.Document.{structure, field, no_fields};

    ghost document = { λ p. structure
        (field 0 (codes "x") (⟦<i64 as Serialize>⟧.document p.x)
        (field 1 (codes "y") (⟦<i64 as Serialize>⟧.document p.y)
        no_fields)) };

    fn serialize<W: Write>(&self, ser: &mut Serializer<W>) -> Result<()> {
        let mut fields = ser.serialize_struct("Point", 2)?;
        fields.serialize_field("x", &self.x)?;
        fields.serialize_field("y", &self.y)?;
        fields.end()
    }
}

impl Readable for Point {
    ghost use Rattle.std.specs.Prelude.{[], ◌∷◌, map};
    ghost use Rattle.serde_cbor.specs.Structs.{IsStruct, field};
    ghost use Rattle.own_types.specs.declared.by_hand.TheConstants.{POINT};

    ghost reads = { λ c. IsStruct (map (λ n. n.now) POINT.now)
        (field (⟦<i64 as Readable>⟧.reads c) (λ p. p.x)
        ∷ field (⟦<i64 as Readable>⟧.reads c) (λ p. p.y)
        ∷ []) };
}

impl<'de, R: Read<'de>> Deserialize<'de, R> for Point {
    fn deserialize(de: &mut Deserializer<R>) -> Result<Point> {
        let mut x: Option<i64> = None;
        let mut y: Option<i64> = None;
        let mut access = de.structure(POINT)?;
        'fields: while let Some(field) = access.next_field()? {
            match field {
                Field::Known(0) => access.once("x", &mut x)?,
                Field::Known(1) => access.once("y", &mut y)?,
                _ => access.skip()?,
            }
        }
        let x = access.required("x", x)?;
        let y = access.required("y", y)?;
        access.end()?;
        Ok(Point { x, y })
    }
}

impl Readable for Bar {
    ghost use Rattle.std.specs.Prelude.{[], ◌∷◌, map};
    ghost use Rattle.serde_cbor.specs.Readable.{PassesTags};
    ghost use Rattle.serde_cbor.specs.Enums.{IsEnum, variants, unit, newtype, tuple};
    ghost use Rattle.serde_cbor.specs.Enums.{part_then, no_part};
    ghost use Rattle.own_types.specs.declared.by_hand.TheConstants.{BAR};
    ghost use Rattle.own_types.specs.declared.by_hand.Bar.TheVariants as bar;

    ghost reads = { λ c. PassesTags (IsEnum c.formats (map (λ n. n.now) BAR.now) (variants
        (unit bar.Empty
        ∷ newtype (⟦<i64 as Readable>⟧.reads c) bar.Number
        ∷ tuple (part_then (⟦<String as Readable>⟧.reads c)
        (part_then (⟦<bool as Readable>⟧.reads c) no_part)) (λ y. bar.Flag y.0 y.1.0)
        ∷ newtype (⟦<Point as Readable>⟧.reads c) (λ p. bar.Point p.x p.y)
        ∷ []))) };
}

impl<'de, R: Read<'de>> Deserialize<'de, R> for Bar {
    fn deserialize(de: &mut Deserializer<R>) -> Result<Bar> {
        let access = de.variant(BAR)?;
        match access.index() {
            0 => {
                access.unit()?;
                Ok(Bar::Empty)
            }
            1 => {
                let number = access.newtype::<i64>()?;
                Ok(Bar::Number(number))
            }
            2 => {
                let mut parts = access.tuple()?;
                let name = parts.part::<String>(0, 2)?;
                let flag = parts.part::<bool>(1, 2)?;
                parts.end()?;
                Ok(Bar::Flag(name, flag))
            }
            _ => {
                let point = access.structure::<Point>()?;
                Ok(Bar::Point {
                    x: point.x,
                    y: point.y,
                })
            }
        }
    }
}

impl DeserializeOwned for Bar {
    ghost same = { λ f a b r v h. h };
}

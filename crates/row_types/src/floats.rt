//! An enum that holds a float.

use serde_cbor::de::{Deserialize, DeserializeOwned, Read, ReadBy, Readable, read_described};
use serde_cbor::parts::{Newtype, OneOf1, Schema};
use serde_cbor::ser::{Serialize, Serializer, Write, WrittenBy};
use serde_cbor::value::Float;
use serde_cbor::{Deserializer, Result};

/// An enum that holds a float.
#[derive(Debug, Drop)]
pub enum FloatEnum {
    Alpha(Float),
}

/// The name of its variant.
const FLOAT: &[&str] = &["Alpha"];

impl Schema for FloatEnum {
    ghost use Rattle.std.specs.Prelude.{map};
    ghost use Rattle.serde_cbor.specs.OneOf1 as one_of;
    ghost use Rattle.serde_cbor.specs.Schemas.{newtype};
    ghost use Rattle.row_types.specs.declared.floats.FloatEnum.TheVariants as at;
    ghost use Rattle.row_types.specs.declared.floats.TheConstants.{FLOAT};

    type Parts = OneOf1<Newtype<Float>>;

    ghost names = { map (λ n. n.now) FLOAT.now };

    ghost parts = { elim [
      | at.Alpha x ↦ one_of.first (newtype x)
    ] };

    fn names() -> &'static [&'static str] {
        FLOAT
    }

    fn from_parts(from: Self::Parts) -> FloatEnum {
        let OneOf1::First(Newtype(x)) = from;
        FloatEnum::Alpha(x)
    }
}

impl Serialize for FloatEnum {
    ghost document = { ⟦<Self as WrittenBy<<Self as Schema>::Parts>>⟧.document };

    fn serialize<W: Write>(&self, ser: &mut Serializer<W>) -> Result<()> {
        let FloatEnum::Alpha(x) = self;
        ser.serialize_variant(self, 0, &Newtype(x))
    }
}

impl Readable for FloatEnum {
    ghost reads = { ⟦<Self as ReadBy<<Self as Schema>::Parts>>⟧.reads };

    ghost wrong_forms = { ⟦<Self as ReadBy<<Self as Schema>::Parts>>⟧.wrong_forms };
}

impl<'de, R: Read<'de>> Deserialize<'de, R> for FloatEnum {
    fn deserialize(de: &mut Deserializer<R>) -> Result<FloatEnum> {
        read_described(de)
    }
}

impl DeserializeOwned for FloatEnum {
    ghost same = { λ f a b r v h. h };
}

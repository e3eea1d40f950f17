//! An enum of a unit and a newtype variant.

use serde_cbor::de::{Deserialize, DeserializeOwned, Read, ReadBy, Readable, read_described};
use serde_cbor::parts::{Newtype, OneOf2, Schema};
use serde_cbor::ser::{Serialize, Serializer, Write, WrittenBy};
use serde_cbor::{Deserializer, Result};

/// An enum of which one variant holds a number.
#[derive(Debug, Drop)]
pub enum Choice {
    Unit,
    NewType(i32),
}

/// The names of its variants.
const CHOICE: &[&str] = &["Unit", "NewType"];

impl Schema for Choice {
    ghost use Rattle.std.specs.Prelude.{map};
    ghost use Rattle.serde_cbor.specs.Schemas.{newtype};
    ghost use Rattle.serde_cbor.specs.OneOf2 as one_of;
    ghost use Rattle.row_types.specs.declared.choice.Choice.TheVariants as at;
    ghost use Rattle.row_types.specs.declared.choice.TheConstants.{CHOICE};

    type Parts = OneOf2<(), Newtype<i32>>;

    ghost names = { map (λ n. n.now) CHOICE.now };

    ghost parts = { elim [
      | at.Unit ↦ one_of.first tt
      | at.NewType n ↦ one_of.second (newtype n)
    ] };

    fn names() -> &'static [&'static str] {
        CHOICE
    }

    fn from_parts(from: Self::Parts) -> Choice {
        match from {
            OneOf2::First(()) => Choice::Unit,
            OneOf2::Second(Newtype(n)) => Choice::NewType(n),
        }
    }
}

impl Serialize for Choice {
    ghost document = { ⟦<Self as WrittenBy<<Self as Schema>::Parts>>⟧.document };

    fn serialize<W: Write>(&self, ser: &mut Serializer<W>) -> Result<()> {
        match self {
            Choice::Unit => ser.serialize_variant(self, 0, &()),
            Choice::NewType(n) => ser.serialize_variant(self, 1, &Newtype(n)),
        }
    }
}

impl Readable for Choice {
    ghost reads = { ⟦<Self as ReadBy<<Self as Schema>::Parts>>⟧.reads };

    ghost wrong_forms = { ⟦<Self as ReadBy<<Self as Schema>::Parts>>⟧.wrong_forms };
}

impl<'de, R: Read<'de>> Deserialize<'de, R> for Choice {
    fn deserialize(de: &mut Deserializer<R>) -> Result<Choice> {
        read_described(de)
    }
}

impl DeserializeOwned for Choice {
    ghost same = { λ f a b r v h. h };
}

//! An enum of a struct of another, which holds an enum.

use samples::nested::Example;
use serde_cbor::de::{Deserialize, DeserializeOwned, Read, ReadBy, Readable, read_described};
use serde_cbor::parts::{Newtype, OneOf2, Schema};
use serde_cbor::ser::{Serialize, Serializer, Write, WrittenBy};
use serde_cbor::{Deserializer, Result};

/// What is sent.
#[derive(Debug, Drop)]
pub enum Message {
    Ping,
    Send(Example),
}

/// The names of its variants.
const MESSAGE: &[&str] = &["Ping", "Send"];

impl Schema for Message {
    ghost use Rattle.std.specs.Prelude.{map};
    ghost use Rattle.serde_cbor.specs.Schemas.{newtype};
    ghost use Rattle.serde_cbor.specs.OneOf2 as one_of;
    ghost use Rattle.cbor_rows.specs.declared.message.Message.TheVariants as at;
    ghost use Rattle.cbor_rows.specs.declared.message.TheConstants.{MESSAGE};

    type Parts = OneOf2<(), Newtype<Example>>;

    ghost names = { map (λ n. n.now) MESSAGE.now };

    ghost parts = { elim [
      | at.Ping ↦ one_of.first tt
      | at.Send x ↦ one_of.second (newtype x)
    ] };

    fn names() -> &'static [&'static str] {
        MESSAGE
    }

    fn from_parts(from: Self::Parts) -> Message {
        match from {
            OneOf2::First(()) => Message::Ping,
            OneOf2::Second(Newtype(x)) => Message::Send(x),
        }
    }
}

impl Serialize for Message {
    ghost document = { ⟦<Self as WrittenBy<<Self as Schema>::Parts>>⟧.document };

    fn serialize<W: Write>(&self, ser: &mut Serializer<W>) -> Result<()> {
        match self {
            Message::Ping => ser.serialize_variant(self, 0, &()),
            Message::Send(x) => ser.serialize_variant(self, 1, &Newtype(x)),
        }
    }
}

impl Readable for Message {
    ghost reads = { ⟦<Self as ReadBy<<Self as Schema>::Parts>>⟧.reads };

    ghost wrong_forms = { ⟦<Self as ReadBy<<Self as Schema>::Parts>>⟧.wrong_forms };
}

impl<'de, R: Read<'de>> Deserialize<'de, R> for Message {
    fn deserialize(de: &mut Deserializer<R>) -> Result<Message> {
        read_described(de)
    }
}

impl DeserializeOwned for Message {
    ghost same = { λ f a b r v h. h };
}

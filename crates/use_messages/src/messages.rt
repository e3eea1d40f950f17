//! The messages, by their descriptions.

ghost use Rattle.std.specs.Prelude.{map};
ghost use Rattle.serde_cbor.specs.OneOf3 as one_of;
ghost use Rattle.serde_cbor.specs.Schemas.{newtype, tuple};
ghost use Rattle.use_messages.specs.declared.messages.TheConstants.{REPLY, REQUEST};

use serde_cbor::de::{Deserialize, DeserializeOwned, Read, ReadBy, Readable, read_described};
use serde_cbor::parts::{Newtype, OneOf3, Schema, Tuple};
use serde_cbor::ser::{Serialize, Serializer, Write, WrittenBy};
use serde_cbor::{Deserializer, Result};

/// What a client asks.
#[derive(Debug, Drop)]
pub enum Request {
    /// Whether the service is there.
    Ping,
    /// The sum of two numbers.
    Add(u32, u32),
    /// How many bytes a text has.
    Measure(String),
}

/// The names of the requests.
const REQUEST: &[&str] = &["Ping", "Add", "Measure"];

impl Schema for Request {
    ghost use Rattle.use_messages.specs.declared.messages.Request.TheVariants as request;

    type Parts = OneOf3<(), Tuple<(u32, u32)>, Newtype<String>>;

    ghost names = { map (λ n. n.now) REQUEST.now };

    ghost parts = { elim [
      | request.Ping ↦ one_of.first tt
      | request.Add x y ↦ one_of.second (tuple (x, y))
      | request.Measure text ↦ one_of.third (newtype text)
    ] };

    fn names() -> &'static [&'static str] {
        REQUEST
    }

    fn from_parts(from: Self::Parts) -> Request {
        match from {
            OneOf3::First(()) => Request::Ping,
            OneOf3::Second(Tuple(parts)) => {
                let (x, y) = parts;
                Request::Add(x, y)
            }
            OneOf3::Third(Newtype(text)) => Request::Measure(text),
        }
    }
}

impl Readable for Request {
    ghost reads = { ⟦<Self as ReadBy<<Self as Schema>::Parts>>⟧.reads };

    ghost wrong_forms = { ⟦<Self as ReadBy<<Self as Schema>::Parts>>⟧.wrong_forms };
}

impl<'de, R: Read<'de>> Deserialize<'de, R> for Request {
    fn deserialize(de: &mut Deserializer<R>) -> Result<Request> {
        read_described(de)
    }
}

impl DeserializeOwned for Request {
    ghost same = { λ f a b r x h. h };
}

/// What the service answers.
#[derive(Debug, Drop)]
pub enum Reply {
    Pong,
    Sum(u64),
    Length(u64),
}

/// The names of the replies.
const REPLY: &[&str] = &["Pong", "Sum", "Length"];

impl Schema for Reply {
    ghost use Rattle.use_messages.specs.declared.messages.Reply.TheVariants as reply;

    type Parts = OneOf3<(), Newtype<u64>, Newtype<u64>>;

    ghost names = { map (λ n. n.now) REPLY.now };

    ghost parts = { elim [
      | reply.Pong ↦ one_of.first tt
      | reply.Sum sum ↦ one_of.second (newtype sum)
      | reply.Length length ↦ one_of.third (newtype length)
    ] };

    fn names() -> &'static [&'static str] {
        REPLY
    }

    fn from_parts(from: Self::Parts) -> Reply {
        match from {
            OneOf3::First(()) => Reply::Pong,
            OneOf3::Second(Newtype(sum)) => Reply::Sum(sum),
            OneOf3::Third(Newtype(length)) => Reply::Length(length),
        }
    }
}

impl Serialize for Reply {
    ghost document = { ⟦<Self as WrittenBy<<Self as Schema>::Parts>>⟧.document };

    fn serialize<W: Write>(&self, ser: &mut Serializer<W>) -> Result<()> {
        match self {
            Reply::Pong => ser.serialize_variant(self, 0, &()),
            Reply::Sum(sum) => ser.serialize_variant(self, 1, &Newtype(sum)),
            Reply::Length(length) => ser.serialize_variant(self, 2, &Newtype(length)),
        }
    }
}

impl Readable for Reply {
    ghost reads = { ⟦<Self as ReadBy<<Self as Schema>::Parts>>⟧.reads };

    ghost wrong_forms = { ⟦<Self as ReadBy<<Self as Schema>::Parts>>⟧.wrong_forms };
}

impl<'de, R: Read<'de>> Deserialize<'de, R> for Reply {
    fn deserialize(de: &mut Deserializer<R>) -> Result<Reply> {
        read_described(de)
    }
}

impl DeserializeOwned for Reply {
    ghost same = { λ f a b r x h. h };
}

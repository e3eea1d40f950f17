//! A struct of an enum, and a struct of that.

use crate::enums::Color;
use serde_cbor::de::{Deserialize, DeserializeOwned, Read, ReadBy, Readable, read_described};
use serde_cbor::parts::Schema;
use serde_cbor::ser::{Serialize, Serializer, Write, WrittenBy};
use serde_cbor::{Deserializer, Result};

/// A struct that holds an enum.
#[derive(Debug, Drop)]
pub struct Foo {
    pub x: u8,
    pub color: Color,
}

/// The names of its fields.
const FOO: &[&str] = &["x", "color"];

impl Schema for Foo {
    ghost use Rattle.std.specs.Prelude.{map};
    ghost use Rattle.samples.specs.declared.nested.TheConstants.{FOO};

    type Parts = (u8, Color);

    ghost names = { map (λ n. n.now) FOO.now };

    ghost parts = { λ f. (f.x, f.color) };

    fn names() -> &'static [&'static str] {
        FOO
    }

    fn from_parts((x, color): Self::Parts) -> Foo {
        Foo { x, color }
    }
}

impl Serialize for Foo {
    ghost document = { ⟦<Self as WrittenBy<<Self as Schema>::Parts>>⟧.document };

    fn serialize<W: Write>(&self, ser: &mut Serializer<W>) -> Result<()> {
        ser.serialize_fields(self, &(&self.x, &self.color))
    }
}

impl Readable for Foo {
    ghost reads = { ⟦<Self as ReadBy<<Self as Schema>::Parts>>⟧.reads };

    ghost wrong_forms = { ⟦<Self as ReadBy<<Self as Schema>::Parts>>⟧.wrong_forms };
}

impl<'de, R: Read<'de>> Deserialize<'de, R> for Foo {
    fn deserialize(de: &mut Deserializer<R>) -> Result<Foo> {
        read_described(de)
    }
}

impl DeserializeOwned for Foo {
    ghost same = { λ f a b r v h. h };
}

/// A struct that holds it.
#[derive(Debug, Drop)]
pub struct Example {
    pub foo: Foo,
    pub payload: u8,
}

/// The names of its fields.
const EXAMPLE: &[&str] = &["foo", "payload"];

impl Schema for Example {
    ghost use Rattle.std.specs.Prelude.{map};
    ghost use Rattle.samples.specs.declared.nested.TheConstants.{EXAMPLE};

    type Parts = (Foo, u8);

    ghost names = { map (λ n. n.now) EXAMPLE.now };

    ghost parts = { λ e. (e.foo, e.payload) };

    fn names() -> &'static [&'static str] {
        EXAMPLE
    }

    fn from_parts((foo, payload): Self::Parts) -> Example {
        Example { foo, payload }
    }
}

impl Serialize for Example {
    ghost document = { ⟦<Self as WrittenBy<<Self as Schema>::Parts>>⟧.document };

    fn serialize<W: Write>(&self, ser: &mut Serializer<W>) -> Result<()> {
        ser.serialize_fields(self, &(&self.foo, &self.payload))
    }
}

impl Readable for Example {
    ghost reads = { ⟦<Self as ReadBy<<Self as Schema>::Parts>>⟧.reads };

    ghost wrong_forms = { ⟦<Self as ReadBy<<Self as Schema>::Parts>>⟧.wrong_forms };
}

impl<'de, R: Read<'de>> Deserialize<'de, R> for Example {
    fn deserialize(de: &mut Deserializer<R>) -> Result<Example> {
        read_described(de)
    }
}

impl DeserializeOwned for Example {
    ghost same = { λ f a b r v h. h };
}

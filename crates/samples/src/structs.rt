//! Structs, written as maps of their fields.

use serde_cbor::de::{Deserialize, DeserializeOwned, Read, ReadBy, Readable, read_described};
use serde_cbor::parts::Schema;
use serde_cbor::ser::{Serialize, Serializer, Write, WrittenBy};
use serde_cbor::{Deserializer, Result};

/// A struct of two fields.
#[derive(Debug, Drop)]
pub struct Credentials {
    pub user_id: u32,
    pub password_hash: [u8; 4],
}

/// The names of its fields.
const CREDENTIALS: &[&str] = &["user_id", "password_hash"];

impl Schema for Credentials {
    ghost use Rattle.std.specs.Prelude.{map};
    ghost use Rattle.samples.specs.declared.structs.TheConstants.{CREDENTIALS};

    type Parts = (u32, [u8; 4]);

    ghost names = { map (λ n. n.now) CREDENTIALS.now };

    ghost parts = { λ c. (c.user_id, c.password_hash) };

    fn names() -> &'static [&'static str] {
        CREDENTIALS
    }

    fn from_parts((user_id, password_hash): Self::Parts) -> Credentials {
        Credentials {
            user_id,
            password_hash,
        }
    }
}

impl Serialize for Credentials {
    ghost document = { ⟦<Self as WrittenBy<<Self as Schema>::Parts>>⟧.document };

    fn serialize<W: Write>(&self, ser: &mut Serializer<W>) -> Result<()> {
        ser.serialize_fields(self, &(&self.user_id, &self.password_hash))
    }
}

impl Readable for Credentials {
    ghost reads = { ⟦<Self as ReadBy<<Self as Schema>::Parts>>⟧.reads };

    ghost wrong_forms = { ⟦<Self as ReadBy<<Self as Schema>::Parts>>⟧.wrong_forms };
}

impl<'de, R: Read<'de>> Deserialize<'de, R> for Credentials {
    fn deserialize(de: &mut Deserializer<R>) -> Result<Credentials> {
        read_described(de)
    }
}

impl DeserializeOwned for Credentials {
    ghost same = { λ f a b r v h. h };
}

/// A struct of small numbers.
#[derive(Debug, Drop)]
pub struct SmallStruct {
    pub spam: u32,
    pub eggs: u32,
}

/// The names of its fields.
const SMALL: &[&str] = &["spam", "eggs"];

impl Schema for SmallStruct {
    ghost use Rattle.std.specs.Prelude.{map};
    ghost use Rattle.samples.specs.declared.structs.TheConstants.{SMALL};

    type Parts = (u32, u32);

    ghost names = { map (λ n. n.now) SMALL.now };

    ghost parts = { λ s. (s.spam, s.eggs) };

    fn names() -> &'static [&'static str] {
        SMALL
    }

    fn from_parts((spam, eggs): Self::Parts) -> SmallStruct {
        SmallStruct { spam, eggs }
    }
}

impl Serialize for SmallStruct {
    ghost document = { ⟦<Self as WrittenBy<<Self as Schema>::Parts>>⟧.document };

    fn serialize<W: Write>(&self, ser: &mut Serializer<W>) -> Result<()> {
        ser.serialize_fields(self, &(&self.spam, &self.eggs))
    }
}

impl Readable for SmallStruct {
    ghost reads = { ⟦<Self as ReadBy<<Self as Schema>::Parts>>⟧.reads };

    ghost wrong_forms = { ⟦<Self as ReadBy<<Self as Schema>::Parts>>⟧.wrong_forms };
}

impl<'de, R: Read<'de>> Deserialize<'de, R> for SmallStruct {
    fn deserialize(de: &mut Deserializer<R>) -> Result<SmallStruct> {
        read_described(de)
    }
}

impl DeserializeOwned for SmallStruct {
    ghost same = { λ f a b r v h. h };
}

/// A struct of texts and a number.
#[derive(Debug, Drop)]
pub struct Mascot {
    pub name: String,
    pub species: String,
    pub year_of_birth: u32,
}

/// The names of its fields.
const MASCOT: &[&str] = &["name", "species", "year_of_birth"];

impl Schema for Mascot {
    ghost use Rattle.std.specs.Prelude.{map};
    ghost use Rattle.samples.specs.declared.structs.TheConstants.{MASCOT};

    type Parts = (String, String, u32);

    ghost names = { map (λ n. n.now) MASCOT.now };

    ghost parts = { λ m. (m.name, m.species, m.year_of_birth) };

    fn names() -> &'static [&'static str] {
        MASCOT
    }

    fn from_parts((name, species, year_of_birth): Self::Parts) -> Mascot {
        Mascot {
            name,
            species,
            year_of_birth,
        }
    }
}

impl Serialize for Mascot {
    ghost document = { ⟦<Self as WrittenBy<<Self as Schema>::Parts>>⟧.document };

    fn serialize<W: Write>(&self, ser: &mut Serializer<W>) -> Result<()> {
        ser.serialize_fields(self, &(&self.name, &self.species, &self.year_of_birth))
    }
}

impl Readable for Mascot {
    ghost reads = { ⟦<Self as ReadBy<<Self as Schema>::Parts>>⟧.reads };

    ghost wrong_forms = { ⟦<Self as ReadBy<<Self as Schema>::Parts>>⟧.wrong_forms };
}

impl<'de, R: Read<'de>> Deserialize<'de, R> for Mascot {
    fn deserialize(de: &mut Deserializer<R>) -> Result<Mascot> {
        read_described(de)
    }
}

impl DeserializeOwned for Mascot {
    ghost same = { λ f a b r v h. h };
}

/// A struct with a field that may be null.
#[derive(Debug, Drop)]
pub struct Person {
    pub name: String,
    pub year_of_birth: u16,
    pub profession: Option<String>,
}

/// The names of its fields.
const PERSON: &[&str] = &["name", "year_of_birth", "profession"];

impl Schema for Person {
    ghost use Rattle.std.specs.Prelude.{map};
    ghost use Rattle.samples.specs.declared.structs.TheConstants.{PERSON};

    type Parts = (String, u16, Option<String>);

    ghost names = { map (λ n. n.now) PERSON.now };

    ghost parts = { λ p. (p.name, p.year_of_birth, p.profession) };

    fn names() -> &'static [&'static str] {
        PERSON
    }

    fn from_parts((name, year_of_birth, profession): Self::Parts) -> Person {
        Person {
            name,
            year_of_birth,
            profession,
        }
    }
}

impl Serialize for Person {
    ghost document = { ⟦<Self as WrittenBy<<Self as Schema>::Parts>>⟧.document };

    fn serialize<W: Write>(&self, ser: &mut Serializer<W>) -> Result<()> {
        ser.serialize_fields(self, &(&self.name, &self.year_of_birth, &self.profession))
    }
}

impl Readable for Person {
    ghost reads = { ⟦<Self as ReadBy<<Self as Schema>::Parts>>⟧.reads };

    ghost wrong_forms = { ⟦<Self as ReadBy<<Self as Schema>::Parts>>⟧.wrong_forms };
}

impl<'de, R: Read<'de>> Deserialize<'de, R> for Person {
    fn deserialize(de: &mut Deserializer<R>) -> Result<Person> {
        read_described(de)
    }
}

impl DeserializeOwned for Person {
    ghost same = { λ f a b r v h. h };
}

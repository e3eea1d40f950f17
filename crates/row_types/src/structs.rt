//! A struct of a field that may be absent, one of an unnamed part, one of none, and one of names of
//! one letter.

use serde_cbor::de::{Deserialize, DeserializeOwned, Read, ReadBy, Readable, read_described};
use serde_cbor::parts::{Newtype, Optional, Schema};
use serde_cbor::ser::{OptionalField, Serialize, Serializer, Write, WrittenBy};
use serde_cbor::{Deserializer, Result};

/// A struct of which a field is left out where it isn't known.
#[derive(Debug, Drop)]
pub struct OptionalPerson {
    pub name: String,
    pub year_of_birth: Option<u16>,
    pub profession: String,
}

/// The names of its fields.
const OPTIONAL_PERSON: &[&str] = &["name", "year_of_birth", "profession"];

impl Schema for OptionalPerson {
    ghost use Rattle.std.specs.Prelude.{map};
    ghost use Rattle.serde_cbor.specs.Schemas.{optional};
    ghost use Rattle.row_types.specs.declared.structs.TheConstants.{OPTIONAL_PERSON};

    type Parts = (String, Optional<u16>, String);

    ghost names = { map (λ n. n.now) OPTIONAL_PERSON.now };

    ghost parts = { λ p. (p.name, optional p.year_of_birth, p.profession) };

    fn names() -> &'static [&'static str] {
        OPTIONAL_PERSON
    }

    fn from_parts((name, year_of_birth, profession): Self::Parts) -> OptionalPerson {
        OptionalPerson {
            name,
            year_of_birth: year_of_birth.0,
            profession,
        }
    }
}

impl Serialize for OptionalPerson {
    ghost document = { ⟦<Self as WrittenBy<<Self as Schema>::Parts>>⟧.document };

    fn serialize<W: Write>(&self, ser: &mut Serializer<W>) -> Result<()> {
        let fields = (
            &self.name,
            OptionalField(&self.year_of_birth),
            &self.profession,
        );
        ser.serialize_fields(self, &fields)
    }
}

impl Readable for OptionalPerson {
    ghost reads = { ⟦<Self as ReadBy<<Self as Schema>::Parts>>⟧.reads };

    ghost wrong_forms = { ⟦<Self as ReadBy<<Self as Schema>::Parts>>⟧.wrong_forms };
}

impl<'de, R: Read<'de>> Deserialize<'de, R> for OptionalPerson {
    fn deserialize(de: &mut Deserializer<R>) -> Result<OptionalPerson> {
        read_described(de)
    }
}

impl DeserializeOwned for OptionalPerson {
    ghost same = { λ f a b r v h. h };
}

/// A struct of one unnamed part.
#[derive(Debug, Drop)]
pub struct NewtypeStruct<T>(pub T);

impl<T: Drop> Schema for NewtypeStruct<T> {
    ghost use Rattle.std.specs.Prelude.{[]};
    ghost use Rattle.serde_cbor.specs.Schemas.{newtype};

    type Parts = Newtype<T>;

    ghost names = { [] };

    ghost parts = { λ n. newtype n.0 };

    fn names() -> &'static [&'static str] {
        &[]
    }

    fn from_parts(Newtype(part): Newtype<T>) -> NewtypeStruct<T> {
        NewtypeStruct(part)
    }
}

impl<T: Serialize + Drop> Serialize for NewtypeStruct<T> {
    ghost document = { ⟦<Self as WrittenBy<<Self as Schema>::Parts>>⟧.document };

    fn serialize<W: Write>(&self, ser: &mut Serializer<W>) -> Result<()> {
        ser.serialize_newtype_struct("NewtypeStruct", &self.0)
    }
}

impl<T: Readable> Readable for NewtypeStruct<T> {
    ghost reads = { ⟦<Self as ReadBy<<Self as Schema>::Parts>>⟧.reads };

    ghost wrong_forms = { ⟦<Self as ReadBy<<Self as Schema>::Parts>>⟧.wrong_forms };
}

impl<'de, R: Read<'de>, T: Deserialize<'de, R>> Deserialize<'de, R> for NewtypeStruct<T> {
    fn deserialize(de: &mut Deserializer<R>) -> Result<NewtypeStruct<T>> {
        read_described(de)
    }
}

impl<T: DeserializeOwned> DeserializeOwned for NewtypeStruct<T> {
    ghost same = { λ f a b r v h. T.same f a b r v.0 h };
}

/// A struct of no part.
#[derive(Debug, Drop)]
pub struct UnitStruct;

impl Schema for UnitStruct {
    ghost use Rattle.std.specs.Prelude.{[]};
    ghost use Rattle.serde_cbor.specs.Schemas.{newtype};

    type Parts = Newtype<()>;

    ghost names = { [] };

    ghost parts = { λ _. newtype tt };

    fn names() -> &'static [&'static str] {
        &[]
    }

    fn from_parts(Newtype(()): Self::Parts) -> UnitStruct {
        UnitStruct
    }
}

impl Serialize for UnitStruct {
    ghost document = { ⟦<Self as WrittenBy<<Self as Schema>::Parts>>⟧.document };

    fn serialize<W: Write>(&self, ser: &mut Serializer<W>) -> Result<()> {
        ser.serialize_unit_struct("UnitStruct")
    }
}

impl Readable for UnitStruct {
    ghost reads = { ⟦<Self as ReadBy<<Self as Schema>::Parts>>⟧.reads };

    ghost wrong_forms = { ⟦<Self as ReadBy<<Self as Schema>::Parts>>⟧.wrong_forms };
}

impl<'de, R: Read<'de>> Deserialize<'de, R> for UnitStruct {
    fn deserialize(de: &mut Deserializer<R>) -> Result<UnitStruct> {
        read_described(de)
    }
}

impl DeserializeOwned for UnitStruct {
    ghost same = { λ f a b r v h. h };
}

/// A struct whose fields have names of one letter.
#[derive(Debug, Drop)]
pub struct Brief {
    pub a: u8,
    pub b: Vec<u8>,
}

/// The names of its fields.
const BRIEF: &[&str] = &["a", "b"];

impl Schema for Brief {
    ghost use Rattle.std.specs.Prelude.{map};
    ghost use Rattle.row_types.specs.declared.structs.TheConstants.{BRIEF};

    type Parts = (u8, Vec<u8>);

    ghost names = { map (λ n. n.now) BRIEF.now };

    ghost parts = { λ s. (s.a, s.b) };

    fn names() -> &'static [&'static str] {
        BRIEF
    }

    fn from_parts((a, b): Self::Parts) -> Brief {
        Brief { a, b }
    }
}

impl Serialize for Brief {
    ghost document = { ⟦<Self as WrittenBy<<Self as Schema>::Parts>>⟧.document };

    fn serialize<W: Write>(&self, ser: &mut Serializer<W>) -> Result<()> {
        ser.serialize_fields(self, &(&self.a, &self.b))
    }
}

impl Readable for Brief {
    ghost reads = { ⟦<Self as ReadBy<<Self as Schema>::Parts>>⟧.reads };

    ghost wrong_forms = { ⟦<Self as ReadBy<<Self as Schema>::Parts>>⟧.wrong_forms };
}

impl<'de, R: Read<'de>> Deserialize<'de, R> for Brief {
    fn deserialize(de: &mut Deserializer<R>) -> Result<Brief> {
        read_described(de)
    }
}

impl DeserializeOwned for Brief {
    ghost same = { λ f a b r v h. h };
}

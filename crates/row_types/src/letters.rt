//! Enums of units, and structs that hold one.

use serde_cbor::de::{Deserialize, DeserializeOwned, Read, ReadBy, Readable, read_described};
use serde_cbor::parts::{OneOf2, Schema};
use serde_cbor::ser::{Serialize, Serializer, Write, WrittenBy};
use serde_cbor::{Deserializer, Result};

/// A letter.
#[derive(Debug, Drop)]
pub enum Letter {
    A,
    B,
}

/// The names of its variants.
const LETTER: &[&str] = &["A", "B"];

impl Schema for Letter {
    ghost use Rattle.std.specs.Prelude.{map};
    ghost use Rattle.serde_cbor.specs.OneOf2 as one_of;
    ghost use Rattle.row_types.specs.declared.letters.Letter.TheVariants as at;
    ghost use Rattle.row_types.specs.declared.letters.TheConstants.{LETTER};

    type Parts = OneOf2<(), ()>;

    ghost names = { map (λ n. n.now) LETTER.now };

    ghost parts = { elim [
      | at.A ↦ one_of.first tt
      | at.B ↦ one_of.second tt
    ] };

    fn names() -> &'static [&'static str] {
        LETTER
    }

    fn from_parts(from: Self::Parts) -> Letter {
        match from {
            OneOf2::First(()) => Letter::A,
            OneOf2::Second(()) => Letter::B,
        }
    }
}

impl Serialize for Letter {
    ghost document = { ⟦<Self as WrittenBy<<Self as Schema>::Parts>>⟧.document };

    fn serialize<W: Write>(&self, ser: &mut Serializer<W>) -> Result<()> {
        match self {
            Letter::A => ser.serialize_variant(self, 0, &()),
            Letter::B => ser.serialize_variant(self, 1, &()),
        }
    }
}

impl Readable for Letter {
    ghost reads = { ⟦<Self as ReadBy<<Self as Schema>::Parts>>⟧.reads };

    ghost wrong_forms = { ⟦<Self as ReadBy<<Self as Schema>::Parts>>⟧.wrong_forms };
}

impl<'de, R: Read<'de>> Deserialize<'de, R> for Letter {
    fn deserialize(de: &mut Deserializer<R>) -> Result<Letter> {
        read_described(de)
    }
}

impl DeserializeOwned for Letter {
    ghost same = { λ f a b r v h. h };
}

/// A letter with a number of its own, which is not what it is written as.
#[derive(Debug, Drop)]
pub enum ReprEnum {
    A = 7,
    B = 9,
}

/// The names of its variants.
const REPR: &[&str] = &["A", "B"];

impl Schema for ReprEnum {
    ghost use Rattle.std.specs.Prelude.{map};
    ghost use Rattle.serde_cbor.specs.OneOf2 as one_of;
    ghost use Rattle.row_types.specs.declared.letters.ReprEnum.TheVariants as at;
    ghost use Rattle.row_types.specs.declared.letters.TheConstants.{REPR};

    type Parts = OneOf2<(), ()>;

    ghost names = { map (λ n. n.now) REPR.now };

    ghost parts = { elim [
      | at.A ↦ one_of.first tt
      | at.B ↦ one_of.second tt
    ] };

    fn names() -> &'static [&'static str] {
        REPR
    }

    fn from_parts(from: Self::Parts) -> ReprEnum {
        match from {
            OneOf2::First(()) => ReprEnum::A,
            OneOf2::Second(()) => ReprEnum::B,
        }
    }
}

impl Serialize for ReprEnum {
    ghost document = { ⟦<Self as WrittenBy<<Self as Schema>::Parts>>⟧.document };

    fn serialize<W: Write>(&self, ser: &mut Serializer<W>) -> Result<()> {
        match self {
            ReprEnum::A => ser.serialize_variant(self, 0, &()),
            ReprEnum::B => ser.serialize_variant(self, 1, &()),
        }
    }
}

impl Readable for ReprEnum {
    ghost reads = { ⟦<Self as ReadBy<<Self as Schema>::Parts>>⟧.reads };

    ghost wrong_forms = { ⟦<Self as ReadBy<<Self as Schema>::Parts>>⟧.wrong_forms };
}

impl<'de, R: Read<'de>> Deserialize<'de, R> for ReprEnum {
    fn deserialize(de: &mut Deserializer<R>) -> Result<ReprEnum> {
        read_described(de)
    }
}

impl DeserializeOwned for ReprEnum {
    ghost same = { λ f a b r v h. h };
}

/// A struct that holds an enum.
#[derive(Debug, Drop)]
pub struct EnumStruct {
    pub e: Letter,
}

/// The name of its field.
const ENUM_FIELD: &[&str] = &["e"];

impl Schema for EnumStruct {
    ghost use Rattle.std.specs.Prelude.{map};
    ghost use Rattle.row_types.specs.declared.letters.TheConstants.{ENUM_FIELD};

    type Parts = (Letter,);

    ghost names = { map (λ n. n.now) ENUM_FIELD.now };

    ghost parts = { λ s. record { 0 = s.e } };

    fn names() -> &'static [&'static str] {
        ENUM_FIELD
    }

    fn from_parts((e,): Self::Parts) -> EnumStruct {
        EnumStruct { e }
    }
}

impl Serialize for EnumStruct {
    ghost document = { ⟦<Self as WrittenBy<<Self as Schema>::Parts>>⟧.document };

    fn serialize<W: Write>(&self, ser: &mut Serializer<W>) -> Result<()> {
        ser.serialize_fields(self, &(&self.e,))
    }
}

impl Readable for EnumStruct {
    ghost reads = { ⟦<Self as ReadBy<<Self as Schema>::Parts>>⟧.reads };

    ghost wrong_forms = { ⟦<Self as ReadBy<<Self as Schema>::Parts>>⟧.wrong_forms };
}

impl<'de, R: Read<'de>> Deserialize<'de, R> for EnumStruct {
    fn deserialize(de: &mut Deserializer<R>) -> Result<EnumStruct> {
        read_described(de)
    }
}

impl DeserializeOwned for EnumStruct {
    ghost same = { λ f a b r v h. h };
}

/// A struct that holds an enum with numbers of its own.
#[derive(Debug, Drop)]
pub struct ReprEnumStruct {
    pub e: ReprEnum,
}

/// The name of its field.
const REPR_FIELD: &[&str] = &["e"];

impl Schema for ReprEnumStruct {
    ghost use Rattle.std.specs.Prelude.{map};
    ghost use Rattle.row_types.specs.declared.letters.TheConstants.{REPR_FIELD};

    type Parts = (ReprEnum,);

    ghost names = { map (λ n. n.now) REPR_FIELD.now };

    ghost parts = { λ s. record { 0 = s.e } };

    fn names() -> &'static [&'static str] {
        REPR_FIELD
    }

    fn from_parts((e,): Self::Parts) -> ReprEnumStruct {
        ReprEnumStruct { e }
    }
}

impl Serialize for ReprEnumStruct {
    ghost document = { ⟦<Self as WrittenBy<<Self as Schema>::Parts>>⟧.document };

    fn serialize<W: Write>(&self, ser: &mut Serializer<W>) -> Result<()> {
        ser.serialize_fields(self, &(&self.e,))
    }
}

impl Readable for ReprEnumStruct {
    ghost reads = { ⟦<Self as ReadBy<<Self as Schema>::Parts>>⟧.reads };

    ghost wrong_forms = { ⟦<Self as ReadBy<<Self as Schema>::Parts>>⟧.wrong_forms };
}

impl<'de, R: Read<'de>> Deserialize<'de, R> for ReprEnumStruct {
    fn deserialize(de: &mut Deserializer<R>) -> Result<ReprEnumStruct> {
        read_described(de)
    }
}

impl DeserializeOwned for ReprEnumStruct {
    ghost same = { λ f a b r v h. h };
}

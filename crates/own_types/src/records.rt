//! Structs with other fields: optional, borrowed, generic and unnamed ones.

ghost use Rattle.std.specs.Prelude.{◌≡◌, [], length, map, refl};
ghost use Rattle.serde_cbor.specs.Schemas.{newtype, optional, or_default};
ghost use Rattle.own_types.specs.declared.records.TheConstants.{LABEL, PAIR, READING, SETTINGS};

use serde_cbor::bytes::ByteArray;
use serde_cbor::de::{Deserialize, DeserializeOwned, Read, ReadBy, Readable, read_described};
use serde_cbor::parts::{Newtype, Optional, OrDefault, Schema};
use serde_cbor::round_trip::RoundTripBy;
use serde_cbor::ser::{OptionalField, Serialize, Serializer, Write, WrittenBy};
use serde_cbor::{Deserializer, Result, RoundTrip};

/// What a sensor reported.
#[derive(Debug, Drop)]
pub struct Reading {
    pub sensor: ByteArray<4>,
    pub degrees: f64,
}

/// The names of a reading's fields.
const READING: &[&str] = &["sensor", "degrees"];

impl Schema for Reading {
    type Parts = (ByteArray<4>, f64);

    ghost names = { map (λ n. n.now) READING.now };

    ghost parts = { λ r. (r.sensor, r.degrees) };

    fn names() -> &'static [&'static str] {
        READING
    }

    fn from_parts((sensor, degrees): Self::Parts) -> Reading {
        Reading { sensor, degrees }
    }
}

impl Serialize for Reading {
    ghost document = { ⟦<Self as WrittenBy<<Self as Schema>::Parts>>⟧.document };

    fn serialize<W: Write>(&self, ser: &mut Serializer<W>) -> Result<()> {
        ser.serialize_fields(self, &(&self.sensor, &self.degrees))
    }
}

impl Readable for Reading {
    ghost reads = { ⟦<Self as ReadBy<<Self as Schema>::Parts>>⟧.reads };

    ghost wrong_forms = { ⟦<Self as ReadBy<<Self as Schema>::Parts>>⟧.wrong_forms };

    ghost reports_faults = { ⟦<Self as ReadBy<<Self as Schema>::Parts>>⟧.reports_faults };
}

impl<'de, R: Read<'de>> Deserialize<'de, R> for Reading {
    fn deserialize(de: &mut Deserializer<R>) -> Result<Reading> {
        read_described(de)
    }
}

/// What a server is set to, of which only the port has to be given.
#[derive(Debug, Drop)]
pub struct Settings {
    pub port: u16,
    pub limit: Option<u32>,
    pub verbose: bool,
}

/// The names of the settings.
const SETTINGS: &[&str] = &["port", "limit", "verbose"];

impl Schema for Settings {
    type Parts = (u16, Optional<u32>, OrDefault<bool>);

    ghost names = { map (λ n. n.now) SETTINGS.now };

    ghost parts = { λ s. (s.port, optional s.limit, or_default s.verbose) };

    fn names() -> &'static [&'static str] {
        SETTINGS
    }

    fn from_parts((port, limit, verbose): Self::Parts) -> Settings {
        Settings {
            port,
            limit: limit.0,
            verbose: verbose.0,
        }
    }
}

impl Serialize for Settings {
    ghost document = { ⟦<Self as WrittenBy<<Self as Schema>::Parts>>⟧.document };

    fn serialize<W: Write>(&self, ser: &mut Serializer<W>) -> Result<()> {
        let fields = (&self.port, OptionalField(&self.limit), &self.verbose);
        ser.serialize_fields(self, &fields)
    }
}

impl Readable for Settings {
    ghost reads = { ⟦<Self as ReadBy<<Self as Schema>::Parts>>⟧.reads };

    ghost wrong_forms = { ⟦<Self as ReadBy<<Self as Schema>::Parts>>⟧.wrong_forms };
}

impl<'de, R: Read<'de>> Deserialize<'de, R> for Settings {
    fn deserialize(de: &mut Deserializer<R>) -> Result<Settings> {
        read_described(de)
    }
}

impl DeserializeOwned for Settings {
    ghost same = { λ f a b r s h. h };
}

impl RoundTrip for Settings {
    ghost law = { ⟦<Self as RoundTripBy<<Self as Schema>::Parts>>⟧.law.by_names refl refl };

    ghost back = { Self.law.back };
}

/// A name that lies in the bytes that it was read from.
#[derive(Debug, Drop)]
pub struct Label<'a> {
    pub name: &'a str,
    pub size: u8,
}

/// The names of a label's fields.
const LABEL: &[&str] = &["name", "size"];

impl<'a> Schema for Label<'a> {
    type Parts = (&'a str, u8);

    ghost names = { map (λ n. n.now) LABEL.now };

    ghost parts = { λ l. (l.name, l.size) };

    fn names() -> &'static [&'static str]
        ensures names { map (λ n. n.now) result.now ≡ map (λ n. n.now) LABEL.now }
        ensures as_many { length result.now ≡ 2 }
    {
        LABEL
    }

    fn from_parts((name, size): (&'a str, u8)) -> Label<'a> {
        Label { name, size }
    }
}

impl<'a> Readable for Label<'a> {
    ghost reads = { ⟦<Self as ReadBy<<Self as Schema>::Parts>>⟧.reads };

    ghost wrong_forms = { ⟦<Self as ReadBy<<Self as Schema>::Parts>>⟧.wrong_forms };
}

impl<'de, R: Read<'de>> Deserialize<'de, R> for Label<'de> {
    fn deserialize(de: &mut Deserializer<R>) -> Result<Label<'de>> {
        read_described(de)
    }
}

/// Two of one type.
#[derive(Debug, Drop)]
pub struct Pair<T> {
    pub first: T,
    pub second: T,
}

/// The names of a pair's fields.
const PAIR: &[&str] = &["first", "second"];

impl<T: Drop> Schema for Pair<T> {
    type Parts = (T, T);

    ghost names = { map (λ n. n.now) PAIR.now };

    ghost parts = { λ p. (p.first, p.second) };

    fn names() -> &'static [&'static str] {
        PAIR
    }

    fn from_parts((first, second): (T, T)) -> Pair<T> {
        Pair { first, second }
    }
}

impl<T: Serialize + Drop> Serialize for Pair<T> {
    ghost document = { ⟦<Self as WrittenBy<<Self as Schema>::Parts>>⟧.document };

    fn serialize<W: Write>(&self, ser: &mut Serializer<W>) -> Result<()> {
        ser.serialize_fields(self, &(&self.first, &self.second))
    }
}

impl<T: Readable> Readable for Pair<T> {
    ghost reads = { ⟦<Self as ReadBy<<Self as Schema>::Parts>>⟧.reads };

    ghost wrong_forms = { ⟦<Self as ReadBy<<Self as Schema>::Parts>>⟧.wrong_forms };
}

impl<'de, R: Read<'de>, T: Deserialize<'de, R>> Deserialize<'de, R> for Pair<T> {
    fn deserialize(de: &mut Deserializer<R>) -> Result<Pair<T>> {
        read_described(de)
    }
}

/// A distance, which is written and read as its number.
#[derive(Debug, Drop)]
pub struct Metres(pub u32);

impl Schema for Metres {
    type Parts = Newtype<u32>;

    ghost names = { [] };

    ghost parts = { λ m. newtype m.0 };

    fn names() -> &'static [&'static str] {
        &[]
    }

    fn from_parts(Newtype(metres): Self::Parts) -> Metres {
        Metres(metres)
    }
}

impl Serialize for Metres {
    ghost document = { ⟦<Self as WrittenBy<<Self as Schema>::Parts>>⟧.document };

    fn serialize<W: Write>(&self, ser: &mut Serializer<W>) -> Result<()> {
        ser.serialize_newtype_struct("Metres", &self.0)
    }
}

impl Readable for Metres {
    ghost reads = { ⟦<Self as ReadBy<<Self as Schema>::Parts>>⟧.reads };

    ghost wrong_forms = { ⟦<Self as ReadBy<<Self as Schema>::Parts>>⟧.wrong_forms };
}

impl<'de, R: Read<'de>> Deserialize<'de, R> for Metres {
    fn deserialize(de: &mut Deserializer<R>) -> Result<Metres> {
        read_described(de)
    }
}

impl DeserializeOwned for Metres {
    ghost same = { λ f a b r m h. h };
}

impl RoundTrip for Metres {
    ghost law = { ⟦<Self as RoundTripBy<<Self as Schema>::Parts>>⟧.law.by_names refl refl };

    ghost back = { Self.law.back };
}

//! The configuration of a device, by its description.

ghost use Rattle.std.specs.Prelude.{map};
ghost use Rattle.serde_cbor.specs.Schemas.{newtype, optional, or_default};
ghost use Rattle.use_device_config.specs.declared.config.TheConstants.{CONFIG, MODE};

use serde_cbor::de::{Deserialize, DeserializeOwned, Read, ReadBy, Readable, read_described};
use serde_cbor::parts::{Newtype, OneOf2, Optional, OrDefault, Schema};
use serde_cbor::round_trip::RoundTripBy;
use serde_cbor::ser::{OptionalField, Serialize, Serializer, Write, WrittenBy};
use serde_cbor::{Deserializer, Result, RoundTrip};

/// When a device measures.
#[derive(Debug, Drop)]
pub enum Mode {
    /// Never.
    Idle,
    /// Every so many seconds.
    Every(u32),
}

/// The names of the modes.
const MODE: &[&str] = &["Idle", "Every"];

impl Schema for Mode {
    ghost use Rattle.serde_cbor.specs.OneOf2 as one_of;
    ghost use Rattle.use_device_config.specs.declared.config.Mode.TheVariants as mode;

    type Parts = OneOf2<(), Newtype<u32>>;

    ghost names = { map (λ n. n.now) MODE.now };

    ghost parts = { elim [
      | mode.Idle ↦ one_of.first tt
      | mode.Every seconds ↦ one_of.second (newtype seconds)
    ] };

    fn names() -> &'static [&'static str] {
        MODE
    }

    fn from_parts(from: Self::Parts) -> Mode {
        match from {
            OneOf2::First(()) => Mode::Idle,
            OneOf2::Second(Newtype(seconds)) => Mode::Every(seconds),
        }
    }
}

impl Serialize for Mode {
    ghost document = { ⟦<Self as WrittenBy<<Self as Schema>::Parts>>⟧.document };

    fn serialize<W: Write>(&self, ser: &mut Serializer<W>) -> Result<()> {
        match self {
            Mode::Idle => ser.serialize_variant(self, 0, &()),
            Mode::Every(seconds) => ser.serialize_variant(self, 1, &Newtype(seconds)),
        }
    }
}

impl Readable for Mode {
    ghost reads = { ⟦<Self as ReadBy<<Self as Schema>::Parts>>⟧.reads };

    ghost wrong_forms = { ⟦<Self as ReadBy<<Self as Schema>::Parts>>⟧.wrong_forms };
}

impl<'de, R: Read<'de>> Deserialize<'de, R> for Mode {
    fn deserialize(de: &mut Deserializer<R>) -> Result<Mode> {
        read_described(de)
    }
}

impl DeserializeOwned for Mode {
    ghost same = { λ f a b r m h. h };
}

impl RoundTrip for Mode {
    ghost use Rattle.std.specs.Prelude.{refl};

    ghost law = { ⟦<Self as RoundTripBy<<Self as Schema>::Parts>>⟧.law.by_names refl refl };

    ghost back = { Self.law.back };
}

/// By what a device runs.
#[derive(Debug, Drop)]
pub struct Config {
    pub mode: Mode,
    /// The channels that are measured.
    pub channels: Vec<u8>,
    pub name: Option<String>,
    pub verbose: bool,
}

/// The names of the fields. A later version adds its own behind them.
const CONFIG: &[&str] = &["mode", "channels", "name", "verbose"];

impl Schema for Config {
    type Parts = (Mode, Vec<u8>, Optional<String>, OrDefault<bool>);

    ghost names = { map (λ n. n.now) CONFIG.now };

    ghost parts = { λ c. (c.mode, c.channels, optional c.name, or_default c.verbose) };

    fn names() -> &'static [&'static str] {
        CONFIG
    }

    fn from_parts((mode, channels, name, verbose): Self::Parts) -> Config {
        Config {
            mode,
            channels,
            name: name.0,
            verbose: verbose.0,
        }
    }
}

impl Serialize for Config {
    ghost document = { ⟦<Self as WrittenBy<<Self as Schema>::Parts>>⟧.document };

    fn serialize<W: Write>(&self, ser: &mut Serializer<W>) -> Result<()> {
        let name = OptionalField(&self.name);
        ser.serialize_fields(self, &(&self.mode, &self.channels, name, &self.verbose))
    }
}

impl Readable for Config {
    ghost reads = { ⟦<Self as ReadBy<<Self as Schema>::Parts>>⟧.reads };

    ghost wrong_forms = { ⟦<Self as ReadBy<<Self as Schema>::Parts>>⟧.wrong_forms };
}

impl<'de, R: Read<'de>> Deserialize<'de, R> for Config {
    fn deserialize(de: &mut Deserializer<R>) -> Result<Config> {
        read_described(de)
    }
}

impl DeserializeOwned for Config {
    ghost same = { λ f a b r c h. h };
}

impl RoundTrip for Config {
    ghost use Rattle.std.specs.Prelude.{refl};

    ghost law = { ⟦<Self as RoundTripBy<<Self as Schema>::Parts>>⟧.law.by_names refl refl };

    ghost back = { Self.law.back };
}

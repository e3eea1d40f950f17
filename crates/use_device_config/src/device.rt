//! A device that is given its configuration.

ghost use Rattle.std.specs.Prelude.{◌≡◌, ◌≤◌, true, false, IfErr, IfOk, OnErr, OnOk, length};
ghost use Rattle.serde_cbor.specs.Acceptable.{FitsScratch};
ghost use Rattle.serde_cbor.specs.Document.{document_bytes, IsStorableDocument};
ghost use Rattle.serde_cbor.specs.Error.{IsOutOfMemory};
ghost use Rattle.serde_cbor.specs.NewFields.{PassesOverNewFields};
ghost use Rattle.serde_cbor.specs.Raw.{AreBytes};
ghost use Rattle.serde_cbor.specs.Whole.{from_slice_context};
ghost use Rattle.use_device_config.specs.Configs.{IsFactorySetting, Says, SaysOnly};

use crate::config::{Config, Mode};
use serde_cbor::de::{Deserialize, Readable, item_taken};
use serde_cbor::parts::Schema;
use serde_cbor::round_trip::written_reads_back_as;
use serde_cbor::ser::{Serialize, to_vec_packed};
use serde_cbor::{Deserializer, Result, RoundTrip};
use std::alloc::Global;

/// How deep the arrays, maps and tags of a configuration may be nested: its own two levels, and two
/// more for what a later version adds.
const LEVELS: u8 = 4;

/// A device, and the configuration that it runs by.
#[derive(Debug, Drop)]
pub struct Device {
    pub config: Config,
}

impl Device {
    /// A device as it leaves the factory.
    pub fn new(alloc: Global) -> Device
        ensures { IsFactorySetting result.config }
    {
        let config = Config {
            mode: Mode::Idle,
            channels: Vec::new(alloc),
            name: None,
            verbose: false,
        };
        Device { config }
    }

    /// Takes the configuration that the bytes say. Refused, the device keeps the one that it has.
    /// The error says why, and at which byte, but for a field of another type, which has no place,
    /// and one that is missing or there twice, which it names.
    ///
    /// Strings in chunks are joined in the scratch.
    pub fn update(&mut self, alloc: Global, bytes: &[u8], scratch: &mut [u8]) -> Result<()>
        ensures says { OnOk result
            (Says (⟦<Config as Readable>⟧.reads from_slice_context) bytes.now self.new.config) }
        ensures kept { OnErr result (self.new.config ≡ self.old.config) }
        // What says a configuration is refused for lack of memory alone, where the scratch is long
        // enough.
        ensures accepted { (config : Config)
            → (said : Says (⟦<Config as Readable>⟧.reads from_slice_context) bytes.now config)
            → FitsScratch (Some (length scratch.old)) said.item → IfErr result IsOutOfMemory }
        // A field of a later version, which has no name here, is passed over.
        ensures new_fields { PassesOverNewFields ⟦<Config as Schema>⟧.names
            (⟦<Config as Readable>⟧.reads from_slice_context) }
    {
        item_taken::<Config>();
        let de = Deserializer::from_slice_with_scratch(alloc, bytes, scratch);
        let mut de = de.nesting_limit(LEVELS);
        let config = Config::deserialize(&mut de)?;
        de.end()?;
        self.config = config;
        Ok(())
    }

    /// The bytes of the configuration, in the packed format: its fields by their numbers.
    pub fn save(&self, alloc: Global) -> Result<Vec<u8>>
        ensures packed { IfOk result (λ bytes. bytes.items
            ≡ document_bytes (⟦<Config as Serialize>⟧.document self.now.config) true false) }
        // They say the configuration, and no other, so that an update by them restores it.
        ensures says { IfOk result (λ bytes. SaysOnly ⟦<Config as Serialize>⟧.document
            (⟦<Config as Readable>⟧.reads from_slice_context) bytes.items self.now.config) }
        ensures memory { IfErr result IsOutOfMemory }
    {
        written_reads_back_as::<Config>();
        are_in_range(&self.config);
        to_vec_packed(alloc, &self.config)
    }

    /// Another device, which is given what this one saves: it runs by the same configuration.
    pub fn copy(&self, alloc: Global) -> Result<Device>
        ensures same { IfOk result (λ copy. ⟦<Config as Serialize>⟧.document copy.config
            ≡ ⟦<Config as Serialize>⟧.document self.now.config) }
        ensures memory { IfErr result IsOutOfMemory }
    {
        let saved = self.save(alloc)?;
        let mut copy = Device::new(alloc);
        copy.update(alloc, saved.as_slice(), &mut [])?;
        Ok(copy)
    }
}

// Tells a proof that each number of the configuration is in its type's range.
fn are_in_range(config: &Config)
    ensures fits { ⟦<Config as RoundTrip>⟧.law.fits config.now }
    ensures storable { IsStorableDocument (⟦<Config as Serialize>⟧.document config.now) }
{
    if let Mode::Every(seconds) = &config.mode {
        let _seconds = *seconds;
    }
    are_bytes(config.channels.as_slice());
}

// Tells it that each number of a slice of bytes is below 256.
fn are_bytes(slice: &[u8])
    ensures { AreBytes slice.now }
{
    let _ = slice.len();
}

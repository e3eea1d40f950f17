//! A type that implements the kit's `serde` by hand, which says what it sends and what a step of it
//! reads; and of whole bytes it is read by a call of the format, so that what they encode is proved.

ghost use Rattle.std.specs.Prelude.{◌≡◌, IfOk};
ghost use Rattle.serde.specs.Event.{Sends, signed};
ghost use Rattle.serde.specs.Steps.{Gives};
ghost use Rattle.cbor_serde_de.specs.Given.{Given};
ghost use Rattle.cbor_serde_de.specs.Whole.{Encodes};

use cbor_serde::{Options, Result};
use cbor_serde_de::{Cbor, whole_item};
use serde::{Described, Deserialize, Deserializer, Format, Serialize, Serializer};
use std::alloc::Global;

/// A temperature in hundredths of a degree.
#[derive(Debug, Drop)]
pub struct Hundredths(pub i64);

impl Described for Hundredths {
    ghost writes = { λ t. Sends (signed t.0) };
}

impl Serialize for Hundredths {
    fn serialize<S: Serializer>(&self, out: &mut S) -> std::result::Result<(), S::Error> {
        out.i64(self.0)
    }
}

impl<'de> Deserialize<'de> for Hundredths {
    fn deserialize<F: Format>(
        _alloc: Global,
        from: &mut Deserializer<'de, '_, F>,
    ) -> std::result::Result<Hundredths, F::Error>
        ensures { IfOk result (λ t. Gives F.gives from.old (signed t.0) from.new) }
    {
        let hundredths = from.i64()?;
        Ok(Hundredths(hundredths))
    }
}

/// The temperature that the bytes encode, within 127 levels of tags.
pub fn temperature(alloc: Global, bytes: &[u8]) -> Result<Hundredths>
    ensures { IfOk result (λ t. Encodes 127 bytes.now (signed t.0)) }
{
    let _ = bytes.len();
    let mut format = Cbor::new(alloc, bytes, Options::new());
    let temperature = next_temperature(bytes, &mut format)?;
    format.end()?;
    whole_item();
    Ok(temperature)
}

fn next_temperature(bytes: &[u8], format: &mut Cbor<'_>) -> Result<Hundredths>
    ensures { IfOk result (λ t. Given format.old (signed t.0) format.new) }
{
    let hundredths = format.i64(bytes)?;
    Ok(Hundredths(hundredths))
}

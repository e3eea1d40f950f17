//! Items of which nothing is kept.

use crate::de::Deserializer;
use crate::deserialize::{Deserialize, DeserializeOwned, Readable};
use cbor_io::error::Result;
use cbor_read::Read;

/// Any item, of which nothing is kept: it has to be acceptable, with keys of the formats that are
/// read. From a slice that is only read, memory may be asked for where the item has a string in
/// chunks, and for no other item.
///
/// ```rust
/// let mut de = Deserializer::new(alloc, SliceRead::new(alloc, b"\x82\x01\xf6\x05"));
/// IgnoredAny::deserialize(&mut de)?;
/// assert_eq!(rt; u8::deserialize(&mut de)?, 5);
/// ```
#[derive(Clone, Copy, Debug)]
pub struct IgnoredAny;

impl Readable for IgnoredAny {
    ghost use Rattle.std.specs.Prelude.{⊤, true};
    ghost use Rattle.cbor_decode.specs.HasChunks.{AsksWhere, HasChunks};
    ghost use Rattle.cbor_de.specs.Forms.{key_form};

    ghost reads = { λ c r x. ⊤ };

    ghost total = { true };

    ghost asks_memory = { λ a r. AsksWhere a (HasChunks r) };

    ghost wrong_forms = { key_form };
}

impl<'de, R: Read<'de>> Deserialize<'de, R> for IgnoredAny {
    fn deserialize(de: &mut Deserializer<R>) -> Result<IgnoredAny> {
        match de.decoder.skip() {
            Ok(()) => Ok(IgnoredAny),
            Err(refused) => Err(de.decoder.error(refused)),
        }
    }
}

impl DeserializeOwned for IgnoredAny {
    ghost same = { λ f a b r x h. h };
}

//! Values: any item, with its tags.

use crate::de::Deserializer;
use crate::deserialize::{Deserialize, DeserializeOwned, Readable};
use cbor_io::error::Result;
use cbor_read::Read;
use cbor_value::Value;

impl Readable for Value {
    ghost use Rattle.std.specs.Prelude.{◌≡◌, true};
    ghost use Rattle.cbor_model.specs.Value.{value};
    ghost use Rattle.cbor_value.specs.View.{view};
    ghost use Rattle.cbor_decode.specs.Memory.{IsStored};
    ghost use Rattle.cbor_de.specs.Forms.{key_form};

    ghost reads = { λ c r v. view v ≡ value r };

    ghost total = { true };

    ghost asks_memory = { λ a r. IsStored (value r) };

    ghost wrong_forms = { key_form };
}

impl<'de, R: Read<'de>> Deserialize<'de, R> for Value {
    // A loop over items that hands each one through a call takes twice as long.
    #[inline(always)]
    fn deserialize(de: &mut Deserializer<R>) -> Result<Value> {
        match de.decoder.value() {
            Ok(value) => Ok(value),
            Err(refused) => Err(de.decoder.error(refused)),
        }
    }
}

impl DeserializeOwned for Value {
    ghost same = { λ f a b r x h. h };
}

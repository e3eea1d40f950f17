//! What lies in a box.

use crate::de::Deserializer;
use crate::deserialize::{Deserialize, DeserializeOwned, Readable};
use cbor_io::error::{Error, Result};
use cbor_read::Read;

/// As what it holds. The box takes memory once that is read.
impl<T: Readable> Readable for Box<T> {
    ghost use Rattle.cbor_de.specs.Calls.{reports_any};

    ghost reads = { λ c r b. T.reads c r b.value };

    ghost wrong_forms = { T.wrong_forms };

    ghost reports_faults = { reports_any T.passes_over T.total T.reports_faults };
}

impl<'de, R: Read<'de>, T: Deserialize<'de, R>> Deserialize<'de, R> for Box<T> {
    #[tactic(auto, using(crate::proofs::refusals::Forms::plain))]
    fn deserialize(de: &mut Deserializer<R>) -> Result<Box<T>> {
        let value = match T::deserialize(de) {
            Ok(value) => value,
            Err(e) => return Err(e),
        };
        match Box::new(de.decoder.alloc, value) {
            Ok(boxed) => Ok(boxed),
            Err(e) => Err(Error::from(e)),
        }
    }
}

impl<T: DeserializeOwned> DeserializeOwned for Box<T> {
    ghost same = { λ f a b r x h. T.same f a b r x.value h };
}

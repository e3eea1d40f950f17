//! What may be absent.

use crate::de::Deserializer;
use crate::deserialize::{Deserialize, DeserializeOwned, Readable};
use cbor_decode_as::null::{null_at_hand, take_null};
use cbor_io::error::Result;
use cbor_read::{Read, Source};

// Null is None, by its first byte alone: neither undefined nor a tagged null is.
impl<T: Readable> Readable for Option<T> {
    ghost use Rattle.cbor_model.specs.Readable.{IsOptional};
    ghost use Rattle.cbor_decode_as.specs.Nulls.{UnlessNull};
    ghost use Rattle.cbor_de.specs.Calls.{reports_any};

    ghost reads = { λ c. IsOptional (T.reads c) };

    ghost asks_memory = { λ a. UnlessNull (T.asks_memory a) };

    ghost wrong_forms = { T.wrong_forms };

    ghost passes_over = { T.passes_over };

    ghost reports_faults = { reports_any T.passes_over T.total T.reports_faults };

    #[inline(always)]
    fn at_hand<R: Source>(de: &mut Deserializer<R>) -> Option<Option<T>> {
        match null_at_hand(&mut de.decoder) {
            Some(true) => return Some(None),
            Some(false) => {}
            None => return None,
        }
        match T::at_hand(de) {
            Some(value) => Some(Some(value)),
            None => None,
        }
    }
}

impl<'de, R: Read<'de>, T: Deserialize<'de, R>> Deserialize<'de, R> for Option<T> {
    #[inline(always)]
    #[tactic(auto, using(crate::proofs::refusals::Forms::plain))]
    fn deserialize(de: &mut Deserializer<R>) -> Result<Option<T>> {
        match take_null(&mut de.decoder) {
            Ok(true) => return Ok(None),
            Ok(false) => {}
            Err(refused) => return Err(de.decoder.error(refused)),
        }
        match T::deserialize(de) {
            Ok(value) => Ok(Some(value)),
            Err(e) => Err(e),
        }
    }
}

impl<T: DeserializeOwned> DeserializeOwned for Option<T> {
    ghost use Rattle.cbor_de.specs.Absent.{same_optional};

    ghost same = { λ f a b. same_optional _ _ (T.same f a b) };
}

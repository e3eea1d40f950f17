//! Simple values and floats.

use crate::de::Deserializer;
use crate::deserialize::{Deserialize, DeserializeOwned, Readable};
use cbor_decode_as::scalar::bool_at_hand;
use cbor_io::error::Result;
use cbor_read::{Read, Source};
use cbor_value::Float;

impl Readable for bool {
    ghost use Rattle.std.specs.Prelude.{true};
    ghost use Rattle.cbor_model.specs.Readable.{PassesTags, IsBool};
    ghost use Rattle.cbor_de.specs.Forms.{never};

    ghost reads = { λ c. PassesTags IsBool };

    ghost asks_memory = { λ a r. ⊥ };

    ghost wrong_forms = { never };

    ghost passes_over = { true };

    #[inline(always)]
    fn at_hand<R: Source>(de: &mut Deserializer<R>) -> Option<bool> {
        bool_at_hand(&mut de.decoder)
    }

    #[inline(always)]
    #[tactic(auto, using(crate::proofs::taken::Gathered::then_at_hand))]
    fn gathered<R: Source>(de: &mut Deserializer<R>) -> Option<bool> {
        if de.decoder.gather_head() {
            Self::at_hand(de)
        } else {
            None
        }
    }
}

impl<'de, R: Read<'de>> Deserialize<'de, R> for bool {
    #[inline(always)]
    fn deserialize(de: &mut Deserializer<R>) -> Result<bool> {
        de.read_bool()
    }
}

impl DeserializeOwned for bool {
    ghost same = { λ f a b r x h. h };
}

impl Readable for () {
    ghost use Rattle.std.specs.Prelude.{true};
    ghost use Rattle.cbor_model.specs.Readable.{PassesTags, IsUnit};
    ghost use Rattle.cbor_de.specs.Forms.{never};

    ghost reads = { λ c. PassesTags IsUnit };

    ghost asks_memory = { λ a r. ⊥ };

    ghost wrong_forms = { never };

    ghost passes_over = { true };
}

impl<'de, R: Read<'de>> Deserialize<'de, R> for () {
    #[inline(always)]
    fn deserialize(de: &mut Deserializer<R>) -> Result<()> {
        de.read_unit()
    }
}

impl DeserializeOwned for () {
    ghost same = { λ f a b r x h. h };
}

impl Readable for Float {
    ghost use Rattle.std.specs.Prelude.{true};
    ghost use Rattle.cbor_model.specs.Readable.{PassesTags};
    ghost use Rattle.cbor_decode_as.specs.Scalars.{IsFloatItem};
    ghost use Rattle.cbor_de.specs.Forms.{never};

    ghost reads = { λ c. PassesTags IsFloatItem };

    ghost asks_memory = { λ a r. ⊥ };

    ghost wrong_forms = { never };

    ghost passes_over = { true };
}

impl<'de, R: Read<'de>> Deserialize<'de, R> for Float {
    #[inline(always)]
    fn deserialize(de: &mut Deserializer<R>) -> Result<Float> {
        de.read_float()
    }
}

impl DeserializeOwned for Float {
    ghost same = { λ f a b r x h. h };
}

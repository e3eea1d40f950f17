//! Floats as numbers.

use crate::de::Deserializer;
use crate::deserialize::{Deserialize, DeserializeOwned, Readable};
use cbor_decode_as::floats::{f32_at_hand, f64_at_hand, read_f32, read_f64};
use cbor_io::error::Result;
use cbor_read::{Read, Source};

/// A float of 16, 32 or 64 bits, or an integer, whose number an `f32` holds exactly. Another float is
/// refused with `float out of range: expected f32`, another integer with
/// `integer out of range: expected f32`, and another item with `invalid type: expected a float`. A
/// NaN is read as a NaN, of no particular sign or payload.
impl Readable for f32 {
    ghost use Rattle.std.specs.Prelude.{true};
    ghost use Rattle.cbor_model.specs.Readable.{PassesTags};
    ghost use Rattle.cbor_decode_as.specs.Scalars.{IsSingleOf};
    ghost use Rattle.cbor_de.specs.Forms.{never};

    ghost reads = { λ c. PassesTags IsSingleOf };

    ghost asks_memory = { λ a r. ⊥ };

    ghost wrong_forms = { never };

    ghost passes_over = { true };

    #[inline(always)]
    fn at_hand<R: Source>(de: &mut Deserializer<R>) -> Option<f32> {
        f32_at_hand(&mut de.decoder)
    }

    #[inline(always)]
    #[tactic(auto, using(crate::proofs::taken::Gathered::then_at_hand))]
    fn gathered<R: Source>(de: &mut Deserializer<R>) -> Option<f32> {
        if de.decoder.gather_head() {
            Self::at_hand(de)
        } else {
            None
        }
    }
}

impl<'de, R: Read<'de>> Deserialize<'de, R> for f32 {
    #[inline(always)]
    fn deserialize(de: &mut Deserializer<R>) -> Result<f32> {
        read_f32(&mut de.decoder)
    }
}

impl DeserializeOwned for f32 {
    ghost same = { λ f a b r x h. h };
}

/// A float of 16, 32 or 64 bits, of which an `f64` holds each number exactly, or an integer that it
/// holds exactly, as those from -2^53 to 2^53. Another integer is refused with `integer out of
/// range: expected f64`, and another item with `invalid type: expected a float`. A NaN is read as a
/// NaN, of no particular sign or payload.
impl Readable for f64 {
    ghost use Rattle.std.specs.Prelude.{true};
    ghost use Rattle.cbor_model.specs.Readable.{PassesTags};
    ghost use Rattle.cbor_decode_as.specs.Scalars.{IsFloatOf};
    ghost use Rattle.cbor_de.specs.Forms.{never};

    ghost reads = { λ c. PassesTags IsFloatOf };

    ghost asks_memory = { λ a r. ⊥ };

    ghost wrong_forms = { never };

    ghost passes_over = { true };

    #[inline(always)]
    fn at_hand<R: Source>(de: &mut Deserializer<R>) -> Option<f64> {
        f64_at_hand(&mut de.decoder)
    }

    #[inline(always)]
    #[tactic(auto, using(crate::proofs::taken::Gathered::then_at_hand))]
    fn gathered<R: Source>(de: &mut Deserializer<R>) -> Option<f64> {
        if de.decoder.gather_head() {
            Self::at_hand(de)
        } else {
            None
        }
    }
}

impl<'de, R: Read<'de>> Deserialize<'de, R> for f64 {
    #[inline(always)]
    fn deserialize(de: &mut Deserializer<R>) -> Result<f64> {
        read_f64(&mut de.decoder)
    }
}

impl DeserializeOwned for f64 {
    ghost same = { λ f a b r x h. h };
}

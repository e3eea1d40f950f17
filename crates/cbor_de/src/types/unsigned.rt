//! Whole numbers from zero.

use crate::de::Deserializer;
use crate::deserialize::{Deserialize, DeserializeOwned, Readable};
use cbor_decode_as::integer::{from_zero_at_hand, read_from_zero, read_u128};
use cbor_io::error::Result;
use cbor_read::{Read, Source};

impl Readable for u8 {
    ghost use Rattle.std.specs.Prelude.{◌-◌, ◌^◌, true};
    ghost use Rattle.cbor_model.specs.Readable.{PassesTags, IsFromZero};
    ghost use Rattle.cbor_de.specs.Forms.{never};

    ghost reads = { λ c. PassesTags (IsFromZero (2 ^ 8 - 1)) };

    ghost asks_memory = { λ a r. ⊥ };

    ghost wrong_forms = { never };

    ghost passes_over = { true };

    #[inline(always)]
    fn at_hand<R: Source>(de: &mut Deserializer<R>) -> Option<u8> {
        match from_zero_at_hand(&mut de.decoder, u8::MAX as u64) {
            Some(number) => Some(number as u8),
            None => None,
        }
    }

    #[inline(always)]
    #[tactic(auto, using(crate::proofs::taken::Gathered::then_at_hand))]
    fn gathered<R: Source>(de: &mut Deserializer<R>) -> Option<u8> {
        if de.decoder.gather_head() {
            Self::at_hand(de)
        } else {
            None
        }
    }
}

impl<'de, R: Read<'de>> Deserialize<'de, R> for u8 {
    #[inline(always)]
    fn deserialize(de: &mut Deserializer<R>) -> Result<u8> {
        match read_from_zero(
            &mut de.decoder,
            u8::MAX as u64,
            "integer out of range: expected u8",
        ) {
            Ok(number) => Ok(number as u8),
            Err(e) => Err(e),
        }
    }
}

impl DeserializeOwned for u8 {
    ghost same = { λ f a b r x h. h };
}

impl Readable for u16 {
    ghost use Rattle.std.specs.Prelude.{◌-◌, ◌^◌, true};
    ghost use Rattle.cbor_model.specs.Readable.{PassesTags, IsFromZero};
    ghost use Rattle.cbor_de.specs.Forms.{never};

    ghost reads = { λ c. PassesTags (IsFromZero (2 ^ 16 - 1)) };

    ghost asks_memory = { λ a r. ⊥ };

    ghost wrong_forms = { never };

    ghost passes_over = { true };

    #[inline(always)]
    fn at_hand<R: Source>(de: &mut Deserializer<R>) -> Option<u16> {
        match from_zero_at_hand(&mut de.decoder, u16::MAX as u64) {
            Some(number) => Some(number as u16),
            None => None,
        }
    }

    #[inline(always)]
    #[tactic(auto, using(crate::proofs::taken::Gathered::then_at_hand))]
    fn gathered<R: Source>(de: &mut Deserializer<R>) -> Option<u16> {
        if de.decoder.gather_head() {
            Self::at_hand(de)
        } else {
            None
        }
    }
}

impl<'de, R: Read<'de>> Deserialize<'de, R> for u16 {
    #[inline(always)]
    fn deserialize(de: &mut Deserializer<R>) -> Result<u16> {
        match read_from_zero(
            &mut de.decoder,
            u16::MAX as u64,
            "integer out of range: expected u16",
        ) {
            Ok(number) => Ok(number as u16),
            Err(e) => Err(e),
        }
    }
}

impl DeserializeOwned for u16 {
    ghost same = { λ f a b r x h. h };
}

impl Readable for u32 {
    ghost use Rattle.std.specs.Prelude.{◌-◌, ◌^◌, true};
    ghost use Rattle.cbor_model.specs.Readable.{PassesTags, IsFromZero};
    ghost use Rattle.cbor_de.specs.Forms.{never};

    ghost reads = { λ c. PassesTags (IsFromZero (2 ^ 32 - 1)) };

    ghost asks_memory = { λ a r. ⊥ };

    ghost wrong_forms = { never };

    ghost passes_over = { true };

    #[inline(always)]
    fn at_hand<R: Source>(de: &mut Deserializer<R>) -> Option<u32> {
        match from_zero_at_hand(&mut de.decoder, u32::MAX as u64) {
            Some(number) => Some(number as u32),
            None => None,
        }
    }

    #[inline(always)]
    #[tactic(auto, using(crate::proofs::taken::Gathered::then_at_hand))]
    fn gathered<R: Source>(de: &mut Deserializer<R>) -> Option<u32> {
        if de.decoder.gather_head() {
            Self::at_hand(de)
        } else {
            None
        }
    }
}

impl<'de, R: Read<'de>> Deserialize<'de, R> for u32 {
    #[inline(always)]
    fn deserialize(de: &mut Deserializer<R>) -> Result<u32> {
        match read_from_zero(
            &mut de.decoder,
            u32::MAX as u64,
            "integer out of range: expected u32",
        ) {
            Ok(number) => Ok(number as u32),
            Err(e) => Err(e),
        }
    }
}

impl DeserializeOwned for u32 {
    ghost same = { λ f a b r x h. h };
}

impl Readable for u64 {
    ghost use Rattle.std.specs.Prelude.{◌-◌, ◌^◌, true};
    ghost use Rattle.cbor_model.specs.Readable.{PassesTags, IsFromZero};
    ghost use Rattle.cbor_de.specs.Forms.{never};

    ghost reads = { λ c. PassesTags (IsFromZero (2 ^ 64 - 1)) };

    ghost asks_memory = { λ a r. ⊥ };

    ghost wrong_forms = { never };

    ghost passes_over = { true };

    #[inline(always)]
    fn at_hand<R: Source>(de: &mut Deserializer<R>) -> Option<u64> {
        match from_zero_at_hand(&mut de.decoder, u64::MAX as u64) {
            Some(number) => Some(number as u64),
            None => None,
        }
    }

    #[inline(always)]
    #[tactic(auto, using(crate::proofs::taken::Gathered::then_at_hand))]
    fn gathered<R: Source>(de: &mut Deserializer<R>) -> Option<u64> {
        if de.decoder.gather_head() {
            Self::at_hand(de)
        } else {
            None
        }
    }
}

impl<'de, R: Read<'de>> Deserialize<'de, R> for u64 {
    #[inline(always)]
    fn deserialize(de: &mut Deserializer<R>) -> Result<u64> {
        match read_from_zero(
            &mut de.decoder,
            u64::MAX as u64,
            "integer out of range: expected u64",
        ) {
            Ok(number) => Ok(number as u64),
            Err(e) => Err(e),
        }
    }
}

impl DeserializeOwned for u64 {
    ghost same = { λ f a b r x h. h };
}

impl Readable for usize {
    ghost use Rattle.std.specs.Prelude.{◌-◌, ◌^◌, true};
    ghost use Rattle.cbor_model.specs.Readable.{PassesTags, IsFromZero};
    ghost use Rattle.cbor_de.specs.Forms.{never};

    ghost reads = { λ c. PassesTags (IsFromZero (2 ^ 64 - 1)) };

    ghost asks_memory = { λ a r. ⊥ };

    ghost wrong_forms = { never };

    ghost passes_over = { true };

    #[inline(always)]
    fn at_hand<R: Source>(de: &mut Deserializer<R>) -> Option<usize> {
        match from_zero_at_hand(&mut de.decoder, usize::MAX as u64) {
            Some(number) => Some(number as usize),
            None => None,
        }
    }

    #[inline(always)]
    #[tactic(auto, using(crate::proofs::taken::Gathered::then_at_hand))]
    fn gathered<R: Source>(de: &mut Deserializer<R>) -> Option<usize> {
        if de.decoder.gather_head() {
            Self::at_hand(de)
        } else {
            None
        }
    }
}

impl<'de, R: Read<'de>> Deserialize<'de, R> for usize {
    #[inline(always)]
    fn deserialize(de: &mut Deserializer<R>) -> Result<usize> {
        match read_from_zero(
            &mut de.decoder,
            usize::MAX as u64,
            "integer out of range: expected usize",
        ) {
            Ok(number) => Ok(number as usize),
            Err(e) => Err(e),
        }
    }
}

impl DeserializeOwned for usize {
    ghost same = { λ f a b r x h. h };
}

impl Readable for u128 {
    ghost use Rattle.std.specs.Prelude.{◌-◌, ◌^◌, true};
    ghost use Rattle.cbor_model.specs.Readable.{PassesTags, IsFromZero};
    ghost use Rattle.cbor_de.specs.Forms.{never};

    ghost reads = { λ c. PassesTags (IsFromZero (2 ^ 128 - 1)) };

    ghost asks_memory = { λ a r. ⊥ };

    ghost wrong_forms = { never };

    ghost passes_over = { true };
}

impl<'de, R: Read<'de>> Deserialize<'de, R> for u128 {
    #[inline(always)]
    fn deserialize(de: &mut Deserializer<R>) -> Result<u128> {
        read_u128(&mut de.decoder)
    }
}

impl DeserializeOwned for u128 {
    ghost same = { λ f a b r x h. h };
}

//! Signed whole numbers.

use crate::de::Deserializer;
use crate::deserialize::{Deserialize, DeserializeOwned, Readable};
use cbor_decode_as::integer::{read_signed, signed_at_hand};
use cbor_io::error::Result;
use cbor_read::{Read, Source};

impl Readable for i8 {
    ghost use Rattle.std.specs.Prelude.{◌-◌, ◌^◌, true};
    ghost use Rattle.cbor_model.specs.Readable.{PassesTags, IsSigned};
    ghost use Rattle.cbor_de.specs.Forms.{never};

    ghost reads = { λ c. PassesTags (IsSigned (2 ^ 7 - 1)) };

    ghost asks_memory = { λ a r. ⊥ };

    ghost wrong_forms = { never };

    ghost passes_over = { true };

    #[inline(always)]
    fn at_hand<R: Source>(de: &mut Deserializer<R>) -> Option<i8> {
        match signed_at_hand(&mut de.decoder, i8::MAX as u64) {
            Some(number) => Some(number as i8),
            None => None,
        }
    }

    #[inline(always)]
    #[tactic(auto, using(crate::proofs::taken::Gathered::then_at_hand))]
    fn gathered<R: Source>(de: &mut Deserializer<R>) -> Option<i8> {
        if de.decoder.gather_head() {
            Self::at_hand(de)
        } else {
            None
        }
    }
}

impl<'de, R: Read<'de>> Deserialize<'de, R> for i8 {
    #[inline(always)]
    fn deserialize(de: &mut Deserializer<R>) -> Result<i8> {
        match read_signed(
            &mut de.decoder,
            i8::MAX as u64,
            "integer out of range: expected i8",
        ) {
            Ok(number) => Ok(number as i8),
            Err(e) => Err(e),
        }
    }
}

impl DeserializeOwned for i8 {
    ghost same = { λ f a b r x h. h };
}

impl Readable for i16 {
    ghost use Rattle.std.specs.Prelude.{◌-◌, ◌^◌, true};
    ghost use Rattle.cbor_model.specs.Readable.{PassesTags, IsSigned};
    ghost use Rattle.cbor_de.specs.Forms.{never};

    ghost reads = { λ c. PassesTags (IsSigned (2 ^ 15 - 1)) };

    ghost asks_memory = { λ a r. ⊥ };

    ghost wrong_forms = { never };

    ghost passes_over = { true };

    #[inline(always)]
    fn at_hand<R: Source>(de: &mut Deserializer<R>) -> Option<i16> {
        match signed_at_hand(&mut de.decoder, i16::MAX as u64) {
            Some(number) => Some(number as i16),
            None => None,
        }
    }

    #[inline(always)]
    #[tactic(auto, using(crate::proofs::taken::Gathered::then_at_hand))]
    fn gathered<R: Source>(de: &mut Deserializer<R>) -> Option<i16> {
        if de.decoder.gather_head() {
            Self::at_hand(de)
        } else {
            None
        }
    }
}

impl<'de, R: Read<'de>> Deserialize<'de, R> for i16 {
    #[inline(always)]
    fn deserialize(de: &mut Deserializer<R>) -> Result<i16> {
        match read_signed(
            &mut de.decoder,
            i16::MAX as u64,
            "integer out of range: expected i16",
        ) {
            Ok(number) => Ok(number as i16),
            Err(e) => Err(e),
        }
    }
}

impl DeserializeOwned for i16 {
    ghost same = { λ f a b r x h. h };
}

impl Readable for i32 {
    ghost use Rattle.std.specs.Prelude.{◌-◌, ◌^◌, true};
    ghost use Rattle.cbor_model.specs.Readable.{PassesTags, IsSigned};
    ghost use Rattle.cbor_de.specs.Forms.{never};

    ghost reads = { λ c. PassesTags (IsSigned (2 ^ 31 - 1)) };

    ghost asks_memory = { λ a r. ⊥ };

    ghost wrong_forms = { never };

    ghost passes_over = { true };

    #[inline(always)]
    fn at_hand<R: Source>(de: &mut Deserializer<R>) -> Option<i32> {
        match signed_at_hand(&mut de.decoder, i32::MAX as u64) {
            Some(number) => Some(number as i32),
            None => None,
        }
    }

    #[inline(always)]
    #[tactic(auto, using(crate::proofs::taken::Gathered::then_at_hand))]
    fn gathered<R: Source>(de: &mut Deserializer<R>) -> Option<i32> {
        if de.decoder.gather_head() {
            Self::at_hand(de)
        } else {
            None
        }
    }
}

impl<'de, R: Read<'de>> Deserialize<'de, R> for i32 {
    #[inline(always)]
    fn deserialize(de: &mut Deserializer<R>) -> Result<i32> {
        match read_signed(
            &mut de.decoder,
            i32::MAX as u64,
            "integer out of range: expected i32",
        ) {
            Ok(number) => Ok(number as i32),
            Err(e) => Err(e),
        }
    }
}

impl DeserializeOwned for i32 {
    ghost same = { λ f a b r x h. h };
}

impl Readable for i64 {
    ghost use Rattle.std.specs.Prelude.{◌-◌, ◌^◌, true};
    ghost use Rattle.cbor_model.specs.Readable.{PassesTags, IsSigned};
    ghost use Rattle.cbor_de.specs.Forms.{never};

    ghost reads = { λ c. PassesTags (IsSigned (2 ^ 63 - 1)) };

    ghost asks_memory = { λ a r. ⊥ };

    ghost wrong_forms = { never };

    ghost passes_over = { true };

    #[inline(always)]
    fn at_hand<R: Source>(de: &mut Deserializer<R>) -> Option<i64> {
        match signed_at_hand(&mut de.decoder, i64::MAX as u64) {
            Some(number) => Some(number as i64),
            None => None,
        }
    }

    #[inline(always)]
    #[tactic(auto, using(crate::proofs::taken::Gathered::then_at_hand))]
    fn gathered<R: Source>(de: &mut Deserializer<R>) -> Option<i64> {
        if de.decoder.gather_head() {
            Self::at_hand(de)
        } else {
            None
        }
    }
}

impl<'de, R: Read<'de>> Deserialize<'de, R> for i64 {
    #[inline(always)]
    fn deserialize(de: &mut Deserializer<R>) -> Result<i64> {
        match read_signed(
            &mut de.decoder,
            i64::MAX as u64,
            "integer out of range: expected i64",
        ) {
            Ok(number) => Ok(number as i64),
            Err(e) => Err(e),
        }
    }
}

impl DeserializeOwned for i64 {
    ghost same = { λ f a b r x h. h };
}

impl Readable for isize {
    ghost use Rattle.std.specs.Prelude.{◌-◌, ◌^◌, true};
    ghost use Rattle.cbor_model.specs.Readable.{PassesTags, IsSigned};
    ghost use Rattle.cbor_de.specs.Forms.{never};

    ghost reads = { λ c. PassesTags (IsSigned (2 ^ 63 - 1)) };

    ghost asks_memory = { λ a r. ⊥ };

    ghost wrong_forms = { never };

    ghost passes_over = { true };

    #[inline(always)]
    fn at_hand<R: Source>(de: &mut Deserializer<R>) -> Option<isize> {
        match signed_at_hand(&mut de.decoder, isize::MAX as u64) {
            Some(number) => Some(number as isize),
            None => None,
        }
    }

    #[inline(always)]
    #[tactic(auto, using(crate::proofs::taken::Gathered::then_at_hand))]
    fn gathered<R: Source>(de: &mut Deserializer<R>) -> Option<isize> {
        if de.decoder.gather_head() {
            Self::at_hand(de)
        } else {
            None
        }
    }
}

impl<'de, R: Read<'de>> Deserialize<'de, R> for isize {
    #[inline(always)]
    fn deserialize(de: &mut Deserializer<R>) -> Result<isize> {
        match read_signed(
            &mut de.decoder,
            isize::MAX as u64,
            "integer out of range: expected isize",
        ) {
            Ok(number) => Ok(number as isize),
            Err(e) => Err(e),
        }
    }
}

impl DeserializeOwned for isize {
    ghost same = { λ f a b r x h. h };
}

impl Readable for i128 {
    ghost use Rattle.std.specs.Prelude.{true};
    ghost use Rattle.cbor_model.specs.Readable.{PassesTags, IsInteger};
    ghost use Rattle.cbor_de.specs.Forms.{never};

    ghost reads = { λ c. PassesTags IsInteger };

    ghost asks_memory = { λ a r. ⊥ };

    ghost wrong_forms = { never };

    ghost passes_over = { true };
}

impl<'de, R: Read<'de>> Deserialize<'de, R> for i128 {
    #[inline(always)]
    fn deserialize(de: &mut Deserializer<R>) -> Result<i128> {
        de.read_integer()
    }
}

impl DeserializeOwned for i128 {
    ghost same = { λ f a b r x h. h };
}

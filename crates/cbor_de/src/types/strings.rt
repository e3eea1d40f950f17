//! Strings.

use crate::de::Deserializer;
use crate::deserialize::{Deserialize, DeserializeOwned, Readable};
use cbor_decode_as::borrowed::EitherStr;
use cbor_decode_as::string::{NO_STRING, read_string, text_at_hand};
use cbor_io::error::{Error, Result};
use cbor_read::{EitherLifetime, Read, Source};
use std::borrow::CowStr;

impl Readable for String {
    ghost use Rattle.std.specs.Prelude.{true};
    ghost use Rattle.std.specs.String.{string_bytes};
    ghost use Rattle.cbor_model.specs.Readable.{PassesTags, IsText};
    ghost use Rattle.cbor_de.specs.Forms.{never};

    ghost reads = { λ c. PassesTags (λ r s. IsText r (string_bytes s)) };

    ghost wrong_forms = { never };

    ghost passes_over = { true };

    #[inline(always)]
    fn at_hand<R: Source>(de: &mut Deserializer<R>) -> Option<String> {
        text_at_hand(&mut de.decoder)
    }
}

impl<'de, R: Read<'de>> Deserialize<'de, R> for String {
    fn deserialize(de: &mut Deserializer<R>) -> Result<String> {
        read_string(&mut de.decoder)
    }
}

impl DeserializeOwned for String {
    ghost same = { λ f a b r x h. h };
}

// A text is read where the source lends it for the input's life.
impl Readable for &str {
    ghost use Rattle.std.specs.Prelude.{true};
    ghost use Rattle.cbor_model.specs.Readable.{PassesTags};
    ghost use Rattle.cbor_decode_as.specs.Strings.{IsBorrowedText};
    ghost use Rattle.cbor_de.specs.Forms.{never};

    ghost reads = { λ c. PassesTags (λ r s. IsBorrowedText c r s.now) };

    ghost asks_memory = { λ a r. ⊥ };

    ghost wrong_forms = { never };

    ghost passes_over = { true };
}

impl<'de, R: Read<'de>> Deserialize<'de, R> for &'de str {
    fn deserialize(de: &mut Deserializer<R>) -> Result<&'de str> {
        let alloc = de.decoder.alloc;
        match de.read_text() {
            Ok(EitherStr::Long(text)) => Ok(text),
            Ok(EitherStr::Short(_)) => {
                Err(Error::message(alloc, "invalid type: expected a borrowed string"))
            }
            Err(why) => Err(de.unread(why, NO_STRING)),
        }
    }
}

/// A text that is lent where the source lends it for the input's life, and else a copy of it.
impl Readable for CowStr<'_> {
    ghost use Rattle.std.specs.Prelude.{true};
    ghost use Rattle.cbor_model.specs.Readable.{PassesTags};
    ghost use Rattle.cbor_de.specs.Cows.{IsCowText};
    ghost use Rattle.cbor_de.specs.Forms.{never};

    ghost reads = { λ c. PassesTags (λ r s. IsCowText c r s) };

    ghost wrong_forms = { never };

    ghost passes_over = { true };
}

impl<'de, R: Read<'de>> Deserialize<'de, R> for CowStr<'de> {
    fn deserialize(de: &mut Deserializer<R>) -> Result<CowStr<'de>> {
        let alloc = de.decoder.alloc;
        match de.read_text() {
            Ok(EitherStr::Long(text)) => Ok(CowStr::Borrowed(text)),
            Ok(EitherStr::Short(text)) => match String::from_str(alloc, text) {
                Ok(text) => Ok(CowStr::Owned(text)),
                Err(full) => Err(Error::from(full)),
            },
            Err(why) => Err(de.unread(why, NO_STRING)),
        }
    }
}

// Bytes are read where the source lends them for the input's life.
impl Readable for &[u8] {
    ghost use Rattle.std.specs.Prelude.{true};
    ghost use Rattle.cbor_model.specs.Readable.{PassesTags};
    ghost use Rattle.cbor_decode_as.specs.Strings.{IsBorrowedString};
    ghost use Rattle.cbor_de.specs.Forms.{never};

    ghost reads = { λ c. PassesTags (λ r s. IsBorrowedString c r s.now) };

    ghost asks_memory = { λ a r. ⊥ };

    ghost wrong_forms = { never };

    ghost passes_over = { true };
}

impl<'de, R: Read<'de>> Deserialize<'de, R> for &'de [u8] {
    fn deserialize(de: &mut Deserializer<R>) -> Result<&'de [u8]> {
        let alloc = de.decoder.alloc;
        match de.read_bytes() {
            Ok(EitherLifetime::Long(bytes)) => Ok(bytes),
            Ok(EitherLifetime::Short(_)) => {
                Err(Error::message(alloc, "invalid type: expected borrowed bytes"))
            }
            Err(why) => Err(de.unread(why, "invalid type: expected bytes")),
        }
    }
}

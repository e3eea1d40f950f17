//! Byte strings.

ghost use Rattle.std.specs.Prelude.{IfErr};
ghost use Rattle.cbor_io.specs.Error.{code_of};
ghost use Rattle.cbor_read.specs.Source.{part_bytes};
ghost use Rattle.cbor_decode.specs.Gives.{ReportsNoForm};
ghost use Rattle.cbor_decode_as.specs.Takes.{IsMessage};
ghost use Rattle.cbor_de.specs.ByteStrings.{IsArrayOf};

use crate::de::Deserializer;
use crate::deserialize::{Deserialize, DeserializeOwned, Readable};
use crate::sequence::invalid_length;
use cbor_decode_as::byte_string::{NO_BYTES, read_byte_string};
use cbor_io::error::{Error, Result};
use cbor_read::{EitherLifetime, Read};
use cbor_value::bytes::{ByteArray, ByteBuf, Bytes};
use std::alloc::Global;

/// A byte string. A text isn't one.
impl Readable for ByteBuf {
    ghost use Rattle.std.specs.Prelude.{true};
    ghost use Rattle.cbor_model.specs.Readable.{PassesTags};
    ghost use Rattle.cbor_decode_as.specs.Strings.{IsByteString};
    ghost use Rattle.cbor_de.specs.Forms.{never};

    ghost reads = { λ c. PassesTags (λ r b. IsByteString r b.0.items) };

    ghost wrong_forms = { never };

    ghost passes_over = { true };
}

impl<'de, R: Read<'de>> Deserialize<'de, R> for ByteBuf {
    fn deserialize(de: &mut Deserializer<R>) -> Result<ByteBuf> {
        match read_byte_string(&mut de.decoder) {
            Ok(bytes) => Ok(ByteBuf(bytes)),
            Err(e) => Err(e),
        }
    }
}

impl DeserializeOwned for ByteBuf {
    ghost same = { λ f a b r x h. h };
}

/// A byte string of exactly `N` bytes. One of another length is refused with
/// `invalid length n, expected N`.
impl<const N: usize> Readable for ByteArray<N> {
    ghost use Rattle.std.specs.Prelude.{true};
    ghost use Rattle.cbor_model.specs.Readable.{PassesTags};
    ghost use Rattle.cbor_decode_as.specs.Strings.{AsksForString, IsByteArray};
    ghost use Rattle.cbor_de.specs.Forms.{never};

    ghost reads = { λ c. PassesTags (λ r b. IsByteArray N r b.0) };

    ghost asks_memory = { AsksForString };

    ghost wrong_forms = { never };

    ghost passes_over = { true };
}

impl<'de, R: Read<'de>, const N: usize> Deserialize<'de, R> for ByteArray<N> {
    fn deserialize(de: &mut Deserializer<R>) -> Result<ByteArray<N>> {
        let alloc = de.decoder.alloc;
        match de.read_byte_string() {
            Ok(part) => array_of(part, alloc),
            Err(why) => Err(de.unread(why, NO_BYTES)),
        }
    }
}

impl<const N: usize> DeserializeOwned for ByteArray<N> {
    ghost same = { λ f a b r x h. h };
}

// The array that a part is.
#[inline(always)]
fn array_of<const N: usize>(part: EitherLifetime<'_, '_>, alloc: Global) -> Result<ByteArray<N>>
    ensures read { IsArrayOf N (part_bytes part.entry) result }
    ensures message { IfErr result IsMessage }
    ensures no_form { IfErr result (λ e. ReportsNoForm (code_of e)) }
{
    match part {
        EitherLifetime::Short(bytes) => array_from(bytes, alloc),
        EitherLifetime::Long(bytes) => array_from(bytes, alloc),
    }
}

fn array_from<const N: usize>(bytes: &[u8], alloc: Global) -> Result<ByteArray<N>>
    ensures read { IsArrayOf N bytes.now result }
    ensures message { IfErr result IsMessage }
    ensures no_form { IfErr result (λ e. ReportsNoForm (code_of e)) }
{
    match <[u8; N]>::try_from(bytes) {
        Ok(array) => Ok(ByteArray(array)),
        Err(_) => Err(invalid_length(alloc, bytes.len(), N)),
    }
}

/// A byte string, where the source lends it for the input's life.
impl Readable for Bytes<'_> {
    ghost use Rattle.std.specs.Prelude.{true};
    ghost use Rattle.cbor_model.specs.Readable.{PassesTags};
    ghost use Rattle.cbor_decode_as.specs.Strings.{IsBorrowedBytes};
    ghost use Rattle.cbor_de.specs.Forms.{never};

    ghost reads = { λ c. PassesTags (λ r b. IsBorrowedBytes c r b.0.now) };

    ghost asks_memory = { λ a r. ⊥ };

    ghost wrong_forms = { never };

    ghost passes_over = { true };
}

impl<'de, R: Read<'de>> Deserialize<'de, R> for Bytes<'de> {
    fn deserialize(de: &mut Deserializer<R>) -> Result<Bytes<'de>> {
        let alloc = de.decoder.alloc;
        match de.read_byte_string() {
            Ok(EitherLifetime::Long(bytes)) => Ok(Bytes(bytes)),
            Ok(EitherLifetime::Short(_)) => {
                Err(Error::message(alloc, "invalid type: expected borrowed bytes"))
            }
            Err(why) => Err(de.unread(why, NO_BYTES)),
        }
    }
}

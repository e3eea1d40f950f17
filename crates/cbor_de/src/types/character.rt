//! Characters.

ghost use Rattle.std.specs.Prelude.{IfErr};
ghost use Rattle.cbor_io.specs.Error.{code_of};
ghost use Rattle.cbor_decode.specs.Gives.{ReportsNoForm};
ghost use Rattle.cbor_decode_as.specs.Strings.{IsOneOf, text_bytes};
ghost use Rattle.cbor_decode_as.specs.Takes.{IsMessage};

use crate::de::Deserializer;
use crate::deserialize::{Deserialize, DeserializeOwned, Readable};
use cbor_decode_as::borrowed::EitherStr;
use cbor_decode_as::character::ascii_at_hand;
use cbor_io::error::{Error, Result};
use cbor_read::{Read, Source};
use std::alloc::Global;

const NO_CHARACTER: &str = "invalid type: expected a character";

// The one character that a text is.
#[tactic(auto, using(crate::proofs::refusals::Forms::message_form))]
fn one_of(text: &str, alloc: Global) -> Result<char>
    ensures read { IsOneOf text.now result }
    ensures message { IfErr result IsMessage }
    ensures no_form { IfErr result (λ e. ReportsNoForm (code_of e)) }
{
    match text.chars().next() {
        Some(first) => {
            if first.len_utf8() == text.len() {
                return Ok(first);
            }
            Err(Error::message(alloc, NO_CHARACTER))
        }
        None => Err(Error::message(alloc, NO_CHARACTER)),
    }
}

// The one character of a borrowed text.
#[inline(always)]
fn character(text: EitherStr<'_, '_>, alloc: Global) -> Result<char>
    ensures read { IsOneOf (text_bytes text.entry) result }
    ensures message { IfErr result IsMessage }
    ensures no_form { IfErr result (λ e. ReportsNoForm (code_of e)) }
{
    match text {
        EitherStr::Short(text) => one_of(text, alloc),
        EitherStr::Long(text) => one_of(text, alloc),
    }
}

impl Readable for char {
    ghost use Rattle.std.specs.Prelude.{true};
    ghost use Rattle.cbor_model.specs.Readable.{PassesTags};
    ghost use Rattle.cbor_decode_as.specs.Strings.{AsksForString, IsCharacter};
    ghost use Rattle.cbor_de.specs.Forms.{never};

    ghost reads = { λ c. PassesTags IsCharacter };

    ghost asks_memory = { AsksForString };

    ghost wrong_forms = { never };

    ghost passes_over = { true };

    #[inline(always)]
    fn at_hand<R: Source>(de: &mut Deserializer<R>) -> Option<char> {
        ascii_at_hand(&mut de.decoder)
    }

    #[inline(always)]
    #[tactic(auto, using(crate::proofs::taken::Gathered::then_at_hand))]
    fn gathered<R: Source>(de: &mut Deserializer<R>) -> Option<char> {
        if de.decoder.gather_head() {
            Self::at_hand(de)
        } else {
            None
        }
    }
}

impl<'de, R: Read<'de>> Deserialize<'de, R> for char {
    fn deserialize(de: &mut Deserializer<R>) -> Result<char> {
        let alloc = de.decoder.alloc;
        match de.read_text() {
            Ok(text) => character(text, alloc),
            Err(why) => Err(de.unread(why, NO_CHARACTER)),
        }
    }
}

impl DeserializeOwned for char {
    ghost same = { λ f a b r x h. h };
}

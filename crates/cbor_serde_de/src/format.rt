//! CBOR as a `Format` of the kit's `serde`.

ghost use Rattle.std.specs.Prelude.{◌≡◌, IfOk, IfSome, slice_range};
ghost use Rattle.cbor_decode_as.specs.Strings.{IsOneCharacter, text_bytes};

use crate::cbor::{Cbor, Mark};
use crate::step_error::{Step, StepError};
use cbor_decode::Collection;
use cbor_decode_as::borrowed::{EitherStr, read_byte_string, read_text};
use cbor_decode_as::byte_string::read_byte_string as read_own_bytes;
use cbor_decode_as::collection;
use cbor_decode_as::integer::{from_zero_at_hand, read_u128, signed_at_hand};
use cbor_decode_as::scalar::bool_at_hand;
use cbor_io::error::{Error, ErrorCode};
use cbor_read::{EitherLifetime, Offset, Source};
use serde::{Format, Kind, Name};
use std::alloc::Global;
use std::num::{
    nearest_f64_to_f32_with_nan, nearest_i64_to_f32, nearest_i64_to_f64, nearest_u64_to_f32,
    nearest_u64_to_f64,
};

/// The message of what doesn't stand in the input as it reads, or is of another kind.
const NOT_LENT: &str = "invalid type: expected a borrowed string";

/// The message of an item that isn't a character.
const NO_CHARACTER: &str = "invalid type: expected a character";

// Where the string that ends here stands in the input.
fn part_of(input: &[u8], end: usize, string: &[u8]) -> Option<(usize, usize)>
    ensures { IfSome result (λ part. slice_range input.now part.0 part.1 ≡ string.now) }
{
    let start = end.checked_sub(string.len())?;
    if input.get(start..end)? == string {
        Some((start, end))
    } else {
        None
    }
}

// The one character that a text is.
fn one_char(text: &str) -> Option<char>
    ensures { IfSome result (λ c. IsOneCharacter text.now c) }
{
    let first = text.chars().next()?;
    if first.len_utf8() == text.len() {
        Some(first)
    } else {
        None
    }
}

// The one character that a lent text is.
fn character(text: EitherStr<'_, '_>) -> Option<char>
    ensures { IfSome result (λ c. IsOneCharacter (text_bytes text.entry) c) }
{
    match text {
        EitherStr::Short(text) => one_char(text),
        EitherStr::Long(text) => one_char(text),
    }
}

impl<'i> Cbor<'i> {
    // Where the string that was just taken stands in the input.
    #[inline(always)]
    fn lent_part(&self, input: &[u8], string: &[u8]) -> Step<(usize, usize)>
        ensures { IfOk result (λ part. slice_range input.now part.0 part.1 ≡ string.now) }
    {
        match part_of(input, self.decoder.source.byte_offset(), string) {
            Some(part) => Ok(part),
            None => Err(self.message(NOT_LENT)),
        }
    }
}

impl<'i> Format for Cbor<'i> {
    ghost use Rattle.std.specs.Prelude.{OnOk};
    ghost use Rattle.cbor_serde_de.specs.Given.{Given, IsAny, Looked, Picked, ReadsAs};

    type Error = StepError;

    type Mark = Mark;

    ghost gives = { λ old _ e new. Given old e new };

    ghost picks = { λ old _ is_key names at new. Picked old is_key names at new };

    ghost stays = { λ old new. Looked old new };

    #[inline(always)]
    fn bool(&mut self, _input: &[u8]) -> Step<bool> {
        match bool_at_hand(&mut self.decoder) {
            Some(value) => Ok(value),
            None => self.any_bool(),
        }
    }

    #[inline(always)]
    fn i64(&mut self, _input: &[u8]) -> Step<i64> {
        match signed_at_hand(&mut self.decoder, i64::MAX as u64) {
            Some(number) => Ok(number),
            None => self.any_signed(),
        }
    }

    #[inline(always)]
    fn u64(&mut self, _input: &[u8]) -> Step<u64> {
        match from_zero_at_hand(&mut self.decoder, u64::MAX) {
            Some(number) => Ok(number),
            None => self.any_from_zero(),
        }
    }

    fn i128(&mut self, _input: &[u8]) -> Step<i128> {
        self.any_integer()
    }

    fn u128(&mut self, _input: &[u8]) -> Step<u128> {
        match read_u128(&mut self.decoder) {
            Ok(number) => Ok(number),
            Err(error) => Err(self.refused(error)),
        }
    }

    // A float of any width, to the nearest, or a whole number, as in Rust.
    #[inline(always)]
    fn f32(&mut self, input: &[u8]) -> Step<f32> {
        match self.kind()? {
            Kind::Unsigned => Ok(nearest_u64_to_f32(self.u64(input)?)),
            Kind::Signed => Ok(nearest_i64_to_f32(self.i64(input)?)),
            _ => Ok(nearest_f64_to_f32_with_nan(self.any_float()?)),
        }
    }

    #[inline(always)]
    fn f64(&mut self, input: &[u8]) -> Step<f64> {
        match self.kind()? {
            Kind::Unsigned => Ok(nearest_u64_to_f64(self.u64(input)?)),
            Kind::Signed => Ok(nearest_i64_to_f64(self.i64(input)?)),
            _ => self.any_float(),
        }
    }

    fn char(&mut self, _input: &[u8]) -> Step<char> {
        let alloc = self.decoder.alloc;
        match read_text(&mut self.decoder) {
            Ok(text) => match character(text) {
                Some(c) => Ok(c),
                None => Err(StepError::of(alloc, Error::message(alloc, NO_CHARACTER))),
            },
            Err(why) => Err(self.unread(why, NO_CHARACTER)),
        }
    }

    // What is in chunks isn't lent by the input.
    #[inline(always)]
    fn plain_str(&mut self, input: &[u8]) -> Step<(usize, usize)> {
        match read_text(&mut self.decoder) {
            Ok(EitherStr::Long(text)) => self.lent_part(input, text.as_bytes()),
            Ok(EitherStr::Short(_)) => Err(self.message(NOT_LENT)),
            Err(why) => Err(self.unread(why, NOT_LENT)),
        }
    }

    fn plain_bytes(&mut self, input: &[u8]) -> Step<(usize, usize)> {
        match read_byte_string(&mut self.decoder) {
            Ok(EitherLifetime::Long(bytes)) => self.lent_part(input, bytes),
            Ok(EitherLifetime::Short(_)) => Err(self.message(NOT_LENT)),
            Err(why) => Err(self.unread(why, NOT_LENT)),
        }
    }

    #[inline(always)]
    fn string(&mut self, _alloc: Global, _input: &[u8]) -> Step<String> {
        match self.text_at_hand()? {
            Some(text) => Ok(text),
            None => self.any_string(),
        }
    }

    fn byte_buf(&mut self, _alloc: Global, _input: &[u8]) -> Step<Vec<u8>> {
        match read_own_bytes(&mut self.decoder) {
            Ok(bytes) => Ok(bytes),
            Err(error) => Err(self.refused(error)),
        }
    }

    // Where names may be integers, an integer may be the name of a variant, as a text is.
    #[inline(always)]
    fn peek(&mut self, _input: &[u8]) -> Step<Kind> {
        match self.kind()? {
            Kind::Unsigned | Kind::Signed if self.options.integer_keys => Ok(Kind::Str),
            kind => Ok(kind),
        }
    }

    #[inline(always)]
    fn take_unit(&mut self, _input: &[u8]) -> Step<bool> {
        match self.decoder.source.ahead().first().copied() {
            Some(0xf6 | 0xf7) | None => {
                self.any_unit()?;
                Ok(true)
            }
            Some(0xc0..=0xdb) => self.take_unit_within(),
            Some(_) => Ok(false),
        }
    }

    // Null alone, as in Rust: what undefined is, the value's type says.
    #[inline(always)]
    fn take_none(&mut self, _input: &[u8]) -> Step<bool> {
        match self.decoder.source.ahead().first().copied() {
            Some(0xf6) => {
                self.any_unit()?;
                Ok(true)
            }
            _ => Ok(false),
        }
    }

    #[inline(always)]
    fn begin_seq(&mut self, _input: &[u8]) -> Step<()> {
        let levels = self.decoder.levels;
        match collection::head_at_hand(&mut self.decoder, Collection::Array) {
            Some(remaining) => self.enter(remaining, levels),
            None => self.any_array(),
        }
    }

    #[inline(always)]
    fn next_item(&mut self, _input: &[u8]) -> Step<bool> {
        if self.is_counted_down() {
            return Ok(true);
        }
        self.more_items()
    }

    // Items that are left of a tuple are `TrailingData`, as for a described type.
    fn end_tuple(&mut self, _input: &[u8]) -> Step<()> {
        match collection::end(
            &mut self.decoder,
            self.innermost.remaining,
            Collection::Array,
        ) {
            Ok(()) => self.leave(),
            Err(error) => Err(self.refused(error)),
        }
    }

    #[inline(always)]
    fn begin_map(&mut self, _input: &[u8]) -> Step<()> {
        let levels = self.decoder.levels;
        match collection::head_at_hand(&mut self.decoder, Collection::Map) {
            Some(remaining) => self.enter(remaining, levels),
            None => self.any_map(),
        }
    }

    // A struct is a map, or an array of its fields.
    #[inline(always)]
    fn begin_struct(&mut self, _input: &[u8]) -> Step<bool> {
        let levels = self.decoder.levels;
        match collection::head_at_hand(&mut self.decoder, Collection::Map) {
            Some(remaining) => {
                self.enter(remaining, levels)?;
                Ok(false)
            }
            None => self.any_struct(),
        }
    }

    #[inline(always)]
    fn next_key(&mut self, _input: &[u8], names: &[Name<'_>]) -> Step<Option<usize>> {
        match self.key_at_hand(names) {
            Some(place) => Ok(Some(place)),
            None => self.any_key(names),
        }
    }

    fn next_entry(&mut self, _input: &[u8]) -> Step<bool> {
        self.more()
    }

    fn variant(&mut self, _input: &[u8], names: &[Name<'_>]) -> Step<usize> {
        self.named(names, self.options.integer_keys)
    }

    #[inline(always)]
    fn skip(&mut self, _input: &[u8]) -> Step<()>
        ensures { OnOk result (ReadsAs IsAny self.old tt self.new) }
    {
        match self.decoder.skip() {
            Ok(()) => Ok(()),
            Err(refused) => Err(self.stopped(refused)),
        }
    }

    fn mark(&mut self) -> Mark {
        self.here()
    }

    fn rewind(&mut self, mark: Mark) {
        self.go_to(mark)
    }

    fn release(&mut self, _mark: Mark) {}

    // A message is of what doesn't fit, and items that are left of a tuple too.
    fn is_fatal(&self, refusal: &StepError) -> bool {
        match refusal {
            StepError::OutOfMemory => true,
            StepError::Error(error) => !matches!(
                error.code(),
                ErrorCode::Message(_) | ErrorCode::TrailingData
            ),
        }
    }

    fn missing(&self, name: &str) -> StepError {
        self.about(format!(in self.decoder.alloc; "missing field `{name}`"))
    }

    fn duplicate(&self, name: &str) -> StepError {
        self.about(format!(in self.decoder.alloc; "duplicate field `{name}`"))
    }

    fn unknown_key(&self) -> StepError {
        self.message("unknown field")
    }

    fn unknown_variant(&self) -> StepError {
        self.message("unknown variant")
    }

    fn wrong_len(&self) -> StepError {
        self.message("invalid length")
    }

    fn invalid(&self) -> StepError {
        self.message("invalid value")
    }

    fn no_memory(&self) -> StepError {
        StepError::OutOfMemory
    }

    fn custom(&self, message: &str) -> StepError {
        self.message(message)
    }
}

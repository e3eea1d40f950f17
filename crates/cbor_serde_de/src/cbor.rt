//! What reads the items of a slice.

ghost use Rattle.std.specs.Prelude.{◌≡◌, ◌≤◌, length, string_bytes, IfOk, IfSome, OnOk};
ghost use Rattle.std.specs.Prelude.{MatchBool, MatchOption};
ghost use Rattle.cbor_read.specs.Sources.{input_of_slice};
ghost use Rattle.cbor_model.specs.Readable.{IsText, IsUnit};
ghost use Rattle.cbor_model.specs.Refusal.{end_in_array, end_in_map};
ghost use Rattle.cbor_serde_de.specs.Given.{Closes, CountsItem, CountsPair, ReadsAs, TakesKey};
ghost use Rattle.cbor_serde_de.specs.Given.{TakesName};
ghost use Rattle.cbor_serde_de.specs.AtHand.{BeginsText, CountsDown};
ghost use Rattle.cbor_serde_de.specs.StepErrors.{Carries};
ghost use Rattle.cbor_serde_de.specs.Places.{EndsSlice, Enters, IsAt, Leaves, Returns};
ghost use Rattle.cbor_serde_de.specs.Places.{Starts, mark_of};

use crate::kind::{kind_at, kind_within};
use crate::places::{place_of_integer, place_of_part, place_of_plain, place_of_text};
use crate::step_error::{Step, StepError};
use cbor_decode::{Decoder, Refused, Remaining};
use cbor_decode_as::borrowed::{Unread, read_bytes, read_text, unread_error};
use cbor_decode_as::collection::{more_items, more_pairs};
use cbor_decode_as::head::tagged_head;
use cbor_decode_as::scalar::read_unit;
use cbor_io::error::{Error, ErrorCode, Result};
use cbor_io::utf8::from_utf8;
use cbor_read::{Offset, ReadErrorCode, SliceRead, Source};
use cbor_serde_options::Options;
use serde::{Kind, Name};
use std::alloc::{AllocError, Global};

/// An array or a map that is open: what remains of it, and the levels that are left outside.
#[derive(Clone, Copy)]
pub(crate) struct Open {
    pub(crate) remaining: Remaining,
    pub(crate) levels: u64,
}

/// Reads the items of a slice, as a [`Format`](serde::Format) of the kit's `serde`.
///
/// Its refusals carry errors with the codes and the offsets of `cbor_decode_as`; what a derived type
/// says of an item that doesn't fit it is a `Message`.
#[derive(Drop)]
pub struct Cbor<'i> {
    whole: &'i [u8],
    pub(crate) decoder: Decoder<SliceRead<'i>>,
    pub(crate) options: Options,
    // What is open and innermost. At the top nothing remains of it.
    pub(crate) innermost: Open,
    // What is around it, the nearest last.
    pub(crate) outer: Vec<Open>,
}

/// A place to come back to.
#[derive(Clone, Copy, Drop)]
pub struct Mark {
    taken: usize,
    levels: u64,
    innermost: Open,
    depth: usize,
}

/// The message of a key or a variant that is no name.
const NO_NAME: &str = "invalid type: expected an identifier";

// The bytes of a text of up to 23 bytes, where it stands here.
#[inline(always)]
fn short_text(ahead: &[u8]) -> Option<&[u8]>
    ensures { IfSome result (λ text. BeginsText ahead.now text.now) }
{
    if ahead.is_empty() || ahead[0] < 0x60 || 0x77 < ahead[0] {
        return None;
    }
    let end = (ahead[0] - 0x60) as usize + 1;
    if ahead.len() < end {
        return None;
    }
    Some(&ahead[1..end])
}

// The slice, of which so many bytes were taken.
#[tactic(auto, using(crate::proofs::Rewinds::rewound, crate::proofs::Rewinds::none_behind))]
fn source_at<'i>(alloc: Global, whole: &'i [u8], taken: usize) -> SliceRead<'i>
    ensures { taken ≤ length whole.now → IsAt whole.now taken (input_of_slice result) }
{
    let mut source = SliceRead::new(alloc, whole);
    if source.ahead().len() < taken {
        return source;
    }
    source.advance(taken);
    source
}

// Whether an item that is no unit stands at the front of these bytes, whole.
fn is_other(alloc: Global, bytes: &[u8], levels: u64) -> Result<bool> {
    let mut decoder = Decoder::new(alloc, SliceRead::new(alloc, bytes));
    decoder.levels = levels;
    match read_unit(&mut decoder) {
        Err(error) if error.is_data() => Ok(true),
        Err(error) if error.is_memory() => Err(error),
        _ => Ok(false),
    }
}

impl<'i> Cbor<'i> {
    /// Reads from the beginning of the slice, by these options.
    pub fn new(alloc: Global, whole: &'i [u8], options: Options) -> Cbor<'i>
        ensures { Starts whole.now options result }
    {
        let mut decoder = Decoder::new(alloc, SliceRead::new(alloc, whole));
        decoder.levels = options.levels as u64;
        Cbor {
            whole,
            decoder,
            options,
            innermost: Open {
                remaining: Remaining::Counted(0),
                levels: 0,
            },
            outer: Vec::new(alloc),
        }
    }

    /// Takes the end of the slice: `TrailingData` where bytes follow.
    pub fn end(&mut self) -> Result<()>
        ensures { OnOk result (EndsSlice self.old) }
    {
        match self.decoder.ended() {
            Ok(()) => Ok(()),
            Err(refused) => Err(self.decoder.error(refused)),
        }
    }

    #[cold]
    #[inline(never)]
    pub(crate) fn message(&self, message: &str) -> StepError {
        StepError::of(
            self.decoder.alloc,
            Error::message(self.decoder.alloc, message),
        )
    }

    #[cold]
    #[inline(never)]
    pub(crate) fn about(&self, text: std::result::Result<String, AllocError>) -> StepError {
        match text {
            Ok(text) => {
                StepError::of(self.decoder.alloc, Error::at(ErrorCode::Message(text), 0))
            }
            Err(_) => StepError::OutOfMemory,
        }
    }

    /// The refusal with this error.
    #[cold]
    #[inline(never)]
    pub(crate) fn refused(&self, error: Error) -> StepError
        ensures { Carries error result }
    {
        StepError::of(self.decoder.alloc, error)
    }

    // The refusal of a step of the decoder.
    #[cold]
    #[inline(never)]
    pub(crate) fn stopped(&mut self, why: Refused) -> StepError {
        let error = self.decoder.error(why);
        StepError::of(self.decoder.alloc, error)
    }

    // The refusal of a string that isn't lent.
    #[cold]
    #[inline(never)]
    pub(crate) fn unread(&mut self, why: Unread, message: &str) -> StepError {
        let error = unread_error(&mut self.decoder, why, message);
        StepError::of(self.decoder.alloc, error)
    }

    /// The place where it stands.
    pub(crate) fn here(&self) -> Mark
        ensures { result ≡ mark_of self.now }
    {
        Mark {
            taken: self.decoder.source.byte_offset(),
            levels: self.decoder.levels,
            innermost: self.innermost,
            depth: self.outer.len(),
        }
    }

    /// Goes back to a place of this slice.
    pub(crate) fn go_to(&mut self, mark: Mark)
        ensures { Returns self.old mark self.new }
    {
        let source = source_at(self.decoder.alloc, self.whole, mark.taken);
        self.decoder.source = source;
        self.decoder.levels = mark.levels;
        self.innermost = mark.innermost;
        self.outer.truncate(mark.depth);
    }

    // The kind of the item at the front, where a look at its first byte doesn't show it.
    #[inline(never)]
    fn kind_in_tags(&mut self) -> Step<Kind>
        ensures { OnOk result (self.new ≡ self.old) }
    {
        let alloc = self.decoder.alloc;
        let levels = self.decoder.levels;
        match kind_within(alloc, self.decoder.source.ahead(), levels) {
            Some(kind) => Ok(kind),
            None => Err(self.no_kind()),
        }
    }

    // Why no head of an item stands at the front within tags.
    #[cold]
    #[inline(never)]
    fn no_kind(&mut self) -> StepError {
        let levels = self.decoder.levels;
        let head = tagged_head(&mut self.decoder);
        self.decoder.levels = levels;
        match head {
            Ok(_) => {
                let refused = self.decoder.refuse(ReadErrorCode::UnexpectedCode);
                self.stopped(refused)
            }
            Err(refused) => self.stopped(refused),
        }
    }

    /// The kind of the item at the front, within its tags; nothing is taken.
    #[inline(always)]
    pub(crate) fn kind(&mut self) -> Step<Kind>
        ensures { OnOk result (self.new ≡ self.old) }
    {
        match self.decoder.source.ahead().first().copied() {
            Some(first) => match kind_at(first) {
                Some(kind) => Ok(kind),
                None => self.kind_in_tags(),
            },
            None => self.kind_in_tags(),
        }
    }

    /// Takes a unit within tags, if one comes.
    #[inline(never)]
    pub(crate) fn take_unit_within(&mut self) -> Step<bool>
        ensures { IfOk result (λ b. MatchBool b (ReadsAs IsUnit self.old tt self.new)
            (self.new ≡ self.old)) }
    {
        let alloc = self.decoder.alloc;
        let levels = self.decoder.levels;
        match is_other(alloc, self.decoder.source.ahead(), levels) {
            Ok(true) => Ok(false),
            Ok(false) => {
                self.any_unit()?;
                Ok(true)
            }
            Err(error) => Err(self.refused(error)),
        }
    }

    /// An array or a map has begun, outside of which so many levels are left.
    pub(crate) fn enter(&mut self, remaining: Remaining, levels: u64) -> Step<()>
        ensures { OnOk result (Enters self.old remaining levels self.new) }
    {
        self.outer.push(self.innermost)?;
        self.innermost = Open { remaining, levels };
        Ok(())
    }

    /// What is innermost has ended. It refuses where nothing is open.
    pub(crate) fn leave(&mut self) -> Step<()>
        ensures { OnOk result (Leaves self.old self.new) }
    {
        let Some(outer) = self.outer.pop() else {
            return Err(self.message("no array or map is open"));
        };
        self.decoder.levels = self.innermost.levels;
        self.innermost = outer;
        Ok(())
    }

    /// Whether another pair comes of the map that is innermost. At its end it is left.
    #[inline(always)]
    pub(crate) fn more(&mut self) -> Step<bool>
        ensures { IfOk result (λ b. MatchBool b (CountsPair self.old self.new)
            (Closes end_in_map self.old self.new)) }
    {
        match more_pairs(&mut self.decoder, &mut self.innermost.remaining) {
            Ok(true) => Ok(true),
            Ok(false) => {
                self.leave()?;
                Ok(false)
            }
            Err(refused) => Err(self.stopped(refused)),
        }
    }

    /// Counts an item, where a count says that one comes.
    #[inline(always)]
    pub(crate) fn is_counted_down(&mut self) -> bool
        ensures { MatchBool result (CountsDown self.old self.new) (self.new ≡ self.old) }
    {
        match &mut self.innermost.remaining {
            Remaining::Counted(n) if 0 < *n => {
                *n -= 1;
                true
            }
            _ => false,
        }
    }

    /// Whether another item comes of the array that is innermost. At its end it is left.
    #[inline(never)]
    pub(crate) fn more_items(&mut self) -> Step<bool>
        ensures { IfOk result (λ b. MatchBool b (CountsItem self.old self.new)
            (Closes end_in_array self.old self.new)) }
    {
        match more_items(&mut self.decoder, &mut self.innermost.remaining) {
            Ok(true) => Ok(true),
            Ok(false) => {
                self.leave()?;
                Ok(false)
            }
            Err(error) => Err(self.refused(error)),
        }
    }

    /// Takes a text of up to 23 bytes that are at hand.
    #[inline(always)]
    pub(crate) fn text_at_hand(&mut self) -> std::result::Result<Option<String>, AllocError>
        ensures { IfOk result (λ o. MatchOption o (self.new ≡ self.old)
            (λ text. ReadsAs IsText self.old (string_bytes text) self.new)) }
    {
        let Some(bytes) = short_text(self.decoder.source.ahead()) else {
            return Ok(None);
        };
        let Ok(text) = from_utf8(bytes) else {
            return Ok(None);
        };
        let taken = 1 + text.len();
        let text = String::from_str(self.decoder.alloc, text)?;
        self.decoder.source.advance(taken);
        Ok(Some(text))
    }

    /// Takes the next key of a map, where it is a text at hand and one of the names.
    #[inline(always)]
    pub(crate) fn key_at_hand(&mut self, names: &[Name<'_>]) -> Option<usize>
        ensures { MatchOption result (self.new ≡ self.old)
            (λ at. TakesKey self.old names.now at self.new) }
    {
        if self.options.integer_keys {
            return None;
        }
        let key = short_text(self.decoder.source.ahead())?;
        let place = place_of_plain(names, key)?;
        let taken = 1 + key.len();
        if !self.is_counted_down() {
            return None;
        }
        self.decoder.source.advance(taken);
        Some(place)
    }

    /// The place of the next key of a map; None at its end.
    #[inline(never)]
    pub(crate) fn any_key(&mut self, names: &[Name<'_>]) -> Step<Option<usize>>
        ensures { IfOk result (λ o. MatchOption o (Closes end_in_map self.old self.new)
            (λ at. TakesKey self.old names.now at self.new)) }
    {
        let integer_keys = self.options.integer_keys;
        if !self.more()? {
            return Ok(None);
        }
        let place = self.named(names, integer_keys)?;
        Ok(Some(place))
    }

    /// Takes a name, and finds it.
    #[inline(always)]
    pub(crate) fn named(&mut self, names: &[Name<'_>], integer_keys: bool) -> Step<usize>
        ensures { IfOk result (λ at. TakesName integer_keys self.old names.now at self.new) }
    {
        match self.kind()? {
            Kind::Str => self.text_name(names, integer_keys),
            Kind::Bytes => self.bytes_name(names, integer_keys),
            Kind::Unsigned | Kind::Signed => self.integer_name(names, integer_keys),
            _ => Err(self.message(NO_NAME)),
        }
    }

    // Takes a text: the name that it is.
    #[inline(always)]
    fn text_name(&mut self, names: &[Name<'_>], integer_keys: bool) -> Step<usize>
        ensures { IfOk result (λ at. TakesName integer_keys self.old names.now at self.new) }
    {
        match read_text(&mut self.decoder) {
            Ok(key) => Ok(place_of_text(names, key, integer_keys)),
            Err(why) => Err(self.unread(why, NO_NAME)),
        }
    }

    // Takes a byte string: the name that it is.
    #[inline(never)]
    fn bytes_name(&mut self, names: &[Name<'_>], integer_keys: bool) -> Step<usize>
        ensures { IfOk result (λ at. TakesName integer_keys self.old names.now at self.new) }
    {
        match read_bytes(&mut self.decoder) {
            Ok(key) => Ok(place_of_part(names, key, integer_keys)),
            Err(why) => Err(self.unread(why, NO_NAME)),
        }
    }

    // Takes an integer: the name that is its text, or the number of a field.
    #[inline(never)]
    fn integer_name(&mut self, names: &[Name<'_>], integer_keys: bool) -> Step<usize>
        ensures { IfOk result (λ at. TakesName integer_keys self.old names.now at self.new) }
    {
        let number = self.any_integer()?;
        let place = place_of_integer(self.decoder.alloc, names, number, integer_keys)?;
        Ok(place)
    }
}

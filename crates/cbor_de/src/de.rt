//! What reads types from a source.

ghost use Rattle.std.specs.Prelude.{◌≡◌, ◌≤◌, false, None, Some, length};
ghost use Rattle.cbor_model.specs.Acceptable.{max_depth};
ghost use Rattle.cbor_model.specs.Formats.{all_formats};
ghost use Rattle.cbor_read.specs.Source.{start_of_slice, start_of_reader};
ghost use Rattle.cbor_read.specs.Sources.{input_of_slice, input_of_slice_fixed, input_of_mut_slice};
ghost use Rattle.cbor_read.specs.Sources.{input_of_reader};
ghost use Rattle.cbor_decode.specs.Decoder.{SameSettings};
ghost use Rattle.cbor_decode.specs.AtEnd.{EndTakes};
ghost use Rattle.cbor_decode.specs.Gives.{Ends};
ghost use Rattle.cbor_decode_as.specs.Takes.{formats_of};

use cbor_decode::Decoder;
use cbor_io::error::Result;
use cbor_read::{IoRead, MutSliceRead, Offset, SliceRead, SliceReadFixed, Source};
use std::alloc::Global;
use std::{fmt, io};

/// Reads types from a source: a slice, a slice with a scratch, a slice that is rewritten, any
/// reader, or a source of the caller's own. Arrays, maps and tags may be nested 127 levels deep, or
/// as many as [`nesting_limit`](Deserializer::nesting_limit) says.
///
/// ```rust
/// let mut de = Deserializer::from_slice(alloc, b"\x18\x2a\xf5");
/// assert_eq!(rt; u8::deserialize(&mut de)?, 42);
/// assert_eq!(rt; de.byte_offset(), 2);
/// assert!(rt; bool::deserialize(&mut de)?);
/// de.end()?;
/// ```
#[derive(Drop)]
pub struct Deserializer<R> {
    // What reads items.
    pub(crate) decoder: Decoder<R>,
}

impl<'a> Deserializer<SliceRead<'a>> {
    /// Reads from a slice. Strings in chunks are joined in memory.
    ///
    /// ```rust
    /// let mut de = Deserializer::from_slice(alloc, b"\x01\x02");
    /// assert_eq!(rt; u8::deserialize(&mut de)?, 1);
    /// assert_eq!(rt; u8::deserialize(&mut de)?, 2);
    /// de.end()?;
    /// ```
    pub fn from_slice(alloc: Global, slice: &'a [u8]) -> Deserializer<SliceRead<'a>>
        ensures input { input_of_slice result.decoder.source ≡ start_of_slice slice.now None }
        ensures levels { result.decoder.levels ≡ max_depth }
        ensures formats { formats_of result.decoder.formats ≡ all_formats }
    {
        Deserializer::new(alloc, SliceRead::new(alloc, slice))
    }
}

impl<'a, 'b> Deserializer<SliceReadFixed<'a, 'b>> {
    /// Reads from a slice. Strings in chunks are joined in the scratch: where they don't fit,
    /// `ScratchTooSmall` is returned.
    ///
    /// ```rust
    /// let mut scratch = [0; 2];
    /// let chunks = b"\x7f\x61a\x61b\xff";
    /// let mut de = Deserializer::from_slice_with_scratch(alloc, chunks, &mut scratch);
    /// assert_eq!(rt; String::deserialize(&mut de)?.as_str(), "ab");
    /// ```
    pub fn from_slice_with_scratch(
        alloc: Global,
        slice: &'a [u8],
        scratch: &'b mut [u8],
    ) -> Deserializer<SliceReadFixed<'a, 'b>>
        ensures input { input_of_slice_fixed result.decoder.source
            ≡ start_of_slice slice.now (Some (length scratch.old)) }
        ensures levels { result.decoder.levels ≡ max_depth }
        ensures formats { formats_of result.decoder.formats ≡ all_formats }
    {
        Deserializer::new(alloc, SliceReadFixed::new(slice, scratch))
    }
}

impl<'a> Deserializer<MutSliceRead<'a>> {
    /// Reads from a slice that is rewritten: strings in chunks are joined in place.
    ///
    /// ```rust
    /// let mut input = *b"\x7f\x61a\x61b\xff";
    /// let mut de = Deserializer::from_mut_slice(alloc, &mut input);
    /// assert_eq!(rt; String::deserialize(&mut de)?.as_str(), "ab");
    /// ```
    pub fn from_mut_slice(alloc: Global, slice: &'a mut [u8]) -> Deserializer<MutSliceRead<'a>>
        ensures input { input_of_mut_slice result.decoder.source ≡ start_of_slice slice.old None }
        ensures levels { result.decoder.levels ≡ max_depth }
        ensures formats { formats_of result.decoder.formats ≡ all_formats }
    {
        Deserializer::new(alloc, MutSliceRead::new(slice))
    }
}

impl<R: io::Read + Drop> Deserializer<IoRead<R>> {
    /// Reads from a reader. No byte is taken that isn't asked for.
    ///
    /// ```rust
    /// let mut de = Deserializer::from_reader(alloc, b"\x01\x02".as_slice());
    /// assert_eq!(rt; u8::deserialize(&mut de)?, 1);
    /// assert_eq!(rt; u8::deserialize(&mut de)?, 2);
    /// ```
    pub fn from_reader(alloc: Global, reader: R) -> Deserializer<IoRead<R>>
        ensures input { input_of_reader R.remaining result.decoder.source
            ≡ start_of_reader (R.remaining reader) }
        ensures levels { result.decoder.levels ≡ max_depth }
        ensures formats { formats_of result.decoder.formats ≡ all_formats }
    {
        Deserializer::new(alloc, IoRead::new(alloc, reader))
    }
}

impl<R: Offset> Deserializer<R> {
    /// How many bytes of the input were taken.
    ///
    /// ```rust
    /// let mut de = Deserializer::from_slice(alloc, b"\x19\x01\x00\x02");
    /// assert_eq!(rt; u16::deserialize(&mut de)?, 256);
    /// assert_eq!(rt; de.byte_offset(), 3);
    /// ```
    pub fn byte_offset(&self) -> usize
        ensures { result ≡ (R.source self.now.decoder.source).offset }
    {
        self.decoder.source.byte_offset()
    }
}

impl<R> Deserializer<R> {
    /// The allocator that it was made with.
    pub fn alloc(&self) -> Global
        ensures { result ≡ self.now.decoder.alloc }
    {
        self.decoder.alloc
    }

    /// How many arrays, maps and tags may still stand inside one another at this place.
    ///
    /// ```rust
    /// let mut de = Deserializer::from_slice(alloc, b"\xc1\x05");
    /// assert_eq!(rt; de.levels_left(), 127);
    /// assert_eq!(rt; de.read_tag()?, Some(1));
    /// assert_eq!(rt; de.levels_left(), 126);
    /// ```
    pub fn levels_left(&self) -> u64
        ensures { result ≡ self.now.decoder.levels }
    {
        self.decoder.levels
    }
}

impl<R: Source> Deserializer<R> {
    /// Reads from this source, in all formats.
    pub fn new(alloc: Global, source: R) -> Deserializer<R>
        ensures source { result.decoder.source ≡ source }
        ensures levels { result.decoder.levels ≡ 127 }
        ensures formats { formats_of result.decoder.formats ≡ all_formats }
    {
        Deserializer {
            decoder: Decoder::new(alloc, source),
        }
    }

    /// Arrays, maps and tags may be nested so many levels deep from now on, in place of 127, and at
    /// most 254: else `RecursionLimitExceeded`, after the head of the array, map or tag that is one
    /// level more. The chunks of a string are no level. It and the other switches may come in any
    /// order.
    ///
    /// That `n` is at most 254, and that no tag of [`read_tag`](Deserializer::read_tag) stands, are
    /// the caller's conditions.
    ///
    /// ```rust
    /// let mut de = Deserializer::from_slice(alloc, b"\x81\x81\x00").nesting_limit(1);
    /// assert!(rt; Value::deserialize(&mut de).is_err());
    /// assert_eq!(rt; de.byte_offset(), 2);
    /// ```
    pub fn nesting_limit(mut self, n: u8) -> Deserializer<R>
        requires { n ≤ 254 }
        ensures levels { result.decoder.levels ≡ n }
        ensures source { result.decoder.source ≡ self.decoder.source }
        ensures formats { formats_of result.decoder.formats ≡ formats_of self.decoder.formats }
    {
        self.decoder.levels = n as u64;
        self
    }

    /// Maps with names among their keys are refused from now on: a key that is a text is
    /// `WrongStructFormat`, at the key, in every map.
    ///
    /// ```rust
    /// let source = SliceRead::new(alloc, b"\xa1\x61a\x01");
    /// let mut de = Deserializer::new(alloc, source).disable_named_format();
    /// let refused = Value::deserialize(&mut de);
    /// assert!(rt; matches!(refused, Err(e) if e.offset() == 1));
    /// ```
    pub fn disable_named_format(mut self) -> Deserializer<R>
        ensures formats { formats_of result.decoder.formats
            ≡ record (formats_of self.decoder.formats) { named = false } }
        ensures source { result.decoder.source ≡ self.decoder.source }
        ensures levels { result.decoder.levels ≡ self.decoder.levels }
    {
        self.decoder.formats.named = false;
        self
    }

    /// Maps with numbers among their keys are refused from now on: a key that is a number from 0 is
    /// `WrongStructFormat`, at the key, in every map. A negative number names no field, and passes.
    ///
    /// ```rust
    /// let mut de = Deserializer::from_slice(alloc, b"\xa1\x00\x01").disable_packed_format();
    /// assert!(rt; Value::deserialize(&mut de).is_err());
    /// ```
    pub fn disable_packed_format(mut self) -> Deserializer<R>
        ensures formats { formats_of result.decoder.formats
            ≡ record (formats_of self.decoder.formats) { packed = false } }
        ensures source { result.decoder.source ≡ self.decoder.source }
        ensures levels { result.decoder.levels ≡ self.decoder.levels }
    {
        self.decoder.formats.packed = false;
        self
    }

    /// Enums that are a map of one pair are refused from now on with `WrongEnumFormat`, and, where
    /// `disable_legacy_enums` is set too, those that are an identifier alone.
    ///
    /// ```rust
    /// let mut de = Deserializer::from_slice(alloc, b"\xa1\x63Dot\x07").disable_standard_enums();
    /// assert!(rt; de.variant(&["Dot"]).is_err());
    /// ```
    pub fn disable_standard_enums(mut self) -> Deserializer<R>
        ensures formats { formats_of result.decoder.formats
            ≡ record (formats_of self.decoder.formats) { standard_enums = false } }
        ensures source { result.decoder.source ≡ self.decoder.source }
        ensures levels { result.decoder.levels ≡ self.decoder.levels }
    {
        self.decoder.formats.standard_enums = false;
        self
    }

    /// Enums that are an array are refused from now on with `WrongEnumFormat`, and, where
    /// `disable_standard_enums` is set too, those that are an identifier alone.
    ///
    /// ```rust
    /// let mut de = Deserializer::from_slice(alloc, b"\x82\x63Dot\x07").disable_legacy_enums();
    /// assert!(rt; de.variant(&["Dot"]).is_err());
    /// ```
    pub fn disable_legacy_enums(mut self) -> Deserializer<R>
        ensures formats { formats_of result.decoder.formats
            ≡ record (formats_of self.decoder.formats) { legacy_enums = false } }
        ensures source { result.decoder.source ≡ self.decoder.source }
        ensures levels { result.decoder.levels ≡ self.decoder.levels }
    {
        self.decoder.formats.legacy_enums = false;
        self
    }

    /// Checks that the input has ended: Ok where nothing is to come, and then nothing is taken.
    ///
    /// Else it takes just the next byte, and refuses with `TrailingData`, after that byte. Where
    /// the source is a reader that reports a fault, it takes nothing and returns `Io`.
    ///
    /// ```rust
    /// let mut de = Deserializer::from_slice(alloc, b"\x01\x02");
    /// assert_eq!(rt; u8::deserialize(&mut de)?, 1);
    /// assert!(rt; matches!(de.end(), Err(e) if e.offset() == 2)); // a second item
    /// ```
    #[tactic(auto, using(crate::proofs::refusals::Faults::end_reported))]
    pub fn end(&mut self) -> Result<()>
        ensures read { Ends R.refusals (R.source self.old.decoder.source) result }
        ensures takes { EndTakes R.refusals (R.source self.old.decoder.source)
            (R.source self.new.decoder.source) result }
        ensures settings { SameSettings self.old.decoder self.new.decoder }
    {
        match self.decoder.ended() {
            Ok(()) => Ok(()),
            Err(refused) => Err(self.decoder.error(refused)),
        }
    }
}

impl<R: fmt::Debug> fmt::Debug for Deserializer<R> {
    fn fmt<W: fmt::Write>(&self, f: &mut fmt::Formatter<W>) -> fmt::Result {
        f.debug_struct("Deserializer")
            .field("source", &self.decoder.source)
            .field("levels_left", &self.decoder.levels)
            .field("formats", &self.decoder.formats)
            .finish_non_exhaustive()
    }
}

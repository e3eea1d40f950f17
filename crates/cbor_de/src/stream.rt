//! A stream of items.

ghost use Rattle.std.specs.Prelude.{◌≡◌, false};
ghost use Rattle.cbor_model.specs.Acceptable.{max_depth};
ghost use Rattle.cbor_model.specs.Formats.{all_formats};
ghost use Rattle.cbor_decode_as.specs.Takes.{formats_of};
ghost use Rattle.cbor_de.specs.Streams.{begun, standing};

use crate::de::Deserializer;
use crate::deserialize::Deserialize;
use cbor_io::error::{Error, Result};
use cbor_read::{Offset, Read, Source};
use std::alloc::Global;
use std::fmt;
use std::marker::PhantomData;

/// The items of an input, one after the other, each read as `T`.
///
/// `next` looks at the next byte and reads the item that begins with it. It returns None at the end
/// of the input. After an error it returns None for good: the error reports where the fault stands,
/// and `byte_offset` how many bytes were taken, some of the refused item's among them. An item is
/// answered before the byte after it is asked for, so that a reader that waits for its peer isn't
/// asked too early.
///
/// An input that ends within an item is an error, an end of input: who reads from a socket keeps
/// the bytes from the offset after the last whole item on (`byte_offset` before each `next`), and
/// begins a stream there again when more have come.
///
/// A stream sets no bound to an item: a peer may send one without end. To bound each message, read
/// it by a deserializer of its own, over as many bytes of the reader as it may have:
///
/// ```rust
/// let mut socket = b"\x01\x18\x2a".as_slice();
/// let mut de = Deserializer::from_reader(alloc, std::io::Read::take(&mut socket, 16));
/// assert_eq!(rt; u8::deserialize(&mut de)?, 1);
/// assert_eq!(rt; socket, b"\x18\x2a".as_slice());
/// ```
///
/// ```rust
/// let mut stream = Deserializer::from_slice(alloc, b"\x01\x18\x2a").into_iter::<u8>();
/// assert_eq!(rt; stream.next().ok_or("none")??, 1);
/// assert_eq!(rt; stream.byte_offset(), 1);
/// assert_eq!(rt; stream.next().ok_or("none")??, 42);
/// assert!(rt; stream.next().is_none());
/// ```
#[derive(Drop)]
pub struct StreamDeserializer<'de, R, T> {
    de: Deserializer<R>,
    // Whether no more is given.
    done: bool,
    input: PhantomData<&'de ()>,
    item: PhantomData<T>,
}

impl<'de, R: Read<'de>, T: Deserialize<'de, R>> StreamDeserializer<'de, R, T> {
    /// Reads from this source, in all formats, items nested at most 127 levels deep.
    pub fn new(alloc: Global, source: R) -> StreamDeserializer<'de, R, T>
        ensures begun { standing R.source result
            ≡ begun (R.source source) max_depth all_formats }
    {
        Deserializer::new(alloc, source).into_iter()
    }
}

impl<R: Source> Deserializer<R> {
    /// The items that are to come, each read as `T`, as deep and in the formats that this
    /// deserializer reads.
    pub fn into_iter<'de, T: Deserialize<'de, R>>(self) -> StreamDeserializer<'de, R, T>
    where
        R: Read<'de>,
        ensures begun { standing R.source result ≡ begun (R.source self.decoder.source)
            self.decoder.levels (formats_of self.decoder.formats) }
    {
        StreamDeserializer {
            de: self,
            done: false,
            input: PhantomData,
            item: PhantomData,
        }
    }
}

impl<'de, R: Offset, T> StreamDeserializer<'de, R, T> {
    /// How many bytes of the input were taken.
    ///
    /// ```rust
    /// let mut stream = Deserializer::from_slice(alloc, b"\x01\x19\x01\x00").into_iter::<u16>();
    /// assert!(rt; matches!(stream.next(), Some(Ok(1))));
    /// assert_eq!(rt; stream.byte_offset(), 1);
    /// ```
    pub fn byte_offset(&self) -> usize
        ensures { result ≡ (standing R.source self.now).input.offset }
    {
        self.de.byte_offset()
    }
}

impl<'de, R: Read<'de> + Drop, T: Deserialize<'de, R>> Iterator for StreamDeserializer<'de, R, T> {
    type Item = Result<T>;

    ghost use Rattle.cbor_decode_as.specs.Takes.{lending};
    ghost use Rattle.cbor_de.specs.Streams.{StreamGives, most_items, standing};

    ghost next_gives = { λ s r t. StreamGives R.refusals (λ f. T.reads (lending f R.lends)) T.total
        (standing R.source s) r (standing R.source t) };

    ghost remaining = { λ s. most_items (standing R.source s) };

    fn next(&mut self) -> Option<Result<T>> {
        if self.done {
            return None;
        }
        // An offset is below 2^64: by that a loop over the items ends.
        let _offset = self.de.decoder.source.offset();
        match self.de.decoder.source.peek() {
            Ok(Some(_)) => {}
            Ok(None) => return None,
            Err(refusal) => {
                self.done = true;
                return Some(Err(Error::from(refusal)));
            }
        }
        match T::deserialize(&mut self.de) {
            Ok(item) => Some(Ok(item)),
            Err(e) => {
                self.done = true;
                Some(Err(e))
            }
        }
    }

    fn size_hint(&self) -> (usize, Option<usize>) {
        (0, None)
    }
}

impl<R: fmt::Debug, T> fmt::Debug for StreamDeserializer<'_, R, T> {
    fn fmt<W: fmt::Write>(&self, f: &mut fmt::Formatter<W>) -> fmt::Result {
        f.debug_struct("StreamDeserializer")
            .field("de", &self.de)
            .field("done", &self.done)
            .finish_non_exhaustive()
    }
}

//! The items of a reader, one after the other.

ghost use Rattle.std.specs.Prelude.{◌≡◌, ◌⊎◌, ◌≤◌, true, false, length, drop, MatchOption, MatchResult};
ghost use Rattle.cbor_serde_options.specs.Defaults.{default_options};
ghost use Rattle.cbor_serde_de.specs.Fronts.{IsEmptyEnd, IsOwn};

use crate::from::{first_fault, from_bytes};
use crate::kept::Kept;
use cbor_io::error::{Error, Result};
use cbor_serde_options::Options;
use serde::DeserializeOwned;
use std::alloc::Global;
use std::io;
use std::marker::PhantomData;

/// The items that a reader gives one after the other, each read as `T`.
///
/// `next` takes the bytes of one item, holds them while `T` reads them, and asks for none behind
/// them; it returns None where the reader ends before an item. After an error it returns None for
/// good. An error is [`from_reader`](crate::from_reader)'s, and its offset counts from the
/// beginning of its item. A stream sets no bound to an item.
///
/// ```rust
/// let mut numbers = Stream::<_, u8>::new(alloc, b"\x01\x18\x2a".as_slice());
/// assert_eq!(rt; numbers.next().ok_or("none")??, 1);
/// assert_eq!(rt; numbers.next().ok_or("none")??, 42);
/// assert!(rt; numbers.next().is_none());
/// ```
#[derive(Drop)]
pub struct Stream<R, T> {
    options: Options,
    alloc: Global,
    kept: Kept<R>,
    // Whether no more is given.
    is_done: bool,
    item: PhantomData<T>,
}

impl<R: io::Read + Drop, T: DeserializeOwned> Stream<R, T> {
    ghost use Rattle.cbor_serde_de.specs.Streams.{begun, standing};

    /// The items of this reader.
    pub fn new(alloc: Global, reader: R) -> Stream<R, T>
        ensures { standing R.remaining result ≡ begun (R.remaining reader) default_options }
    {
        Stream::with_options(Options::new(), alloc, reader)
    }

    /// The items of this reader by these options.
    pub fn with_options(options: Options, alloc: Global, reader: R) -> Stream<R, T>
        ensures { standing R.remaining result ≡ begun (R.remaining reader) options }
    {
        Stream {
            options,
            alloc,
            kept: Kept::new(alloc, reader),
            is_done: false,
            item: PhantomData,
        }
    }

    // What the item is read as that ends here, which then is done with.
    fn read_front(&mut self, end: usize) -> Result<T>
        requires { end ≤ length self.old.kept.bytes.items }
        ensures reader { self.new.kept.reader ≡ self.old.kept.reader }
        ensures bytes { self.new.kept.bytes.items ≡ drop end self.old.kept.bytes.items }
        ensures options { self.new.options ≡ self.old.options }
        ensures done { MatchResult result (λ x. self.new.is_done ≡ false)
            (λ e. self.new.is_done ≡ true) }
    {
        let read = from_bytes::<T>(self.options, self.alloc, self.kept.front(end));
        self.kept.forget(end);
        match read {
            Ok(value) => {
                self.is_done = false;
                Ok(value)
            }
            Err(error) => {
                self.is_done = true;
                Err(error)
            }
        }
    }

    // The fault of the next item; None where nothing is to come. No more is given.
    fn end_by(&mut self, fault: Error) -> Option<Error>
        ensures kept { self.new.kept ≡ self.old.kept }
        ensures options { self.new.options ≡ self.old.options }
        ensures done { self.new.is_done ≡ true }
        ensures fault { MatchOption result (IsEmptyEnd self.old.kept.bytes.items fault)
            (λ e. IsOwn e ⊎ ((e ≡ fault) × (IsEmptyEnd self.old.kept.bytes.items fault → ⊥))) }
    {
        self.is_done = true;
        if fault.is_eof() && self.kept.bytes().is_empty() {
            return None;
        }
        Some(first_fault::<T>(self.options, self.alloc, fault, self.kept.bytes()))
    }
}

impl<R: io::Read + Drop, T: DeserializeOwned> Iterator for Stream<R, T> {
    type Item = Result<T>;

    ghost use Rattle.cbor_serde_de.specs.Streams.{StreamGives, standing};

    ghost next_gives = { λ s r t. StreamGives (standing R.remaining s) r
        (standing R.remaining t) };

    fn next(&mut self) -> Option<Result<T>> {
        if self.is_done {
            return None;
        }
        match self.kept.next_item(self.options.levels) {
            Ok(end) => Some(self.read_front(end)),
            Err(fault) => match self.end_by(fault) {
                Some(error) => Some(Err(error)),
                None => None,
            },
        }
    }

    fn size_hint(&self) -> (usize, Option<usize>) {
        (0, None)
    }
}

//! The bytes that a reader gives for its items.

ghost use Rattle.std.specs.Prelude.{◌≡◌, ◌<◌, ◌≤◌, [], length, take, drop, MatchResult};
ghost use Rattle.cbor_serde_de.specs.Fronts.{FindsItem, HasItem};

use crate::outline::{Outline, bytes_behind, head_of};
use cbor_decode::Decoder;
use cbor_io::error::{Error, ErrorCode, Result};
use cbor_read::{Offset, SliceRead};
use std::alloc::Global;
use std::io;

// The most that is taken by one call of the reader, and what is taken of short strings.
const LARGE: usize = 4096;

const SMALL: usize = 64;

// Where the item at the front of the bytes ends; or why none stands there.
fn end_of_item(alloc: Global, bytes: &[u8], levels: u8) -> Result<usize>
    ensures { FindsItem levels bytes.now result }
{
    let mut decoder = Decoder::new(alloc, SliceRead::new(alloc, bytes));
    decoder.levels = levels as u64;
    match decoder.skip() {
        Ok(()) => Ok(decoder.source.byte_offset()),
        Err(refused) => Err(decoder.error(refused)),
    }
}

/// A reader, and the bytes that it gave and that aren't read yet.
#[derive(Drop)]
pub struct Kept<R> {
    reader: R,
    bytes: Vec<u8>,
    alloc: Global,
}

impl<R: io::Read> Kept<R> {
    ghost use Rattle.cbor_serde_de.specs.Readers.{Fails, Filled, KeepsMore, TakesItem};
    ghost use Rattle.cbor_serde_de.specs.Readers.{TakesOnly, TookMissing, TookPiece};

    /// Nothing was given.
    pub fn new(alloc: Global, reader: R) -> Kept<R>
        ensures reader { result.reader ≡ reader }
        ensures bytes { result.bytes.items ≡ [] }
    {
        Kept {
            reader,
            bytes: Vec::new(alloc),
            alloc,
        }
    }

    /// What was given and isn't read yet.
    pub fn bytes(&self) -> &[u8]
        ensures { result.now ≡ self.now.bytes.items }
    {
        &self.bytes
    }

    // Takes some bytes by one call of the reader, and returns how many.
    fn take_some(&mut self, piece: &mut [u8]) -> Result<usize>
        requires { 0 < length piece.old }
        ensures { MatchResult result (TookPiece R.remaining self.old self.new)
            (Fails R.remaining self.old self.new) }
    {
        let count = match self.reader.read(piece) {
            Ok(count) => count,
            Err(fault) => return Err(Error::from(fault)),
        };
        match self.bytes.extend_from_slice(&piece[..count]) {
            Ok(()) => Ok(count),
            Err(full) => Err(Error::from(full)),
        }
    }

    // Takes at most so many bytes.
    fn take(&mut self, most: u64) -> Result<usize>
        requires { 0 < most }
        ensures { MatchResult result (TookPiece R.remaining self.old self.new)
            (Fails R.remaining self.old self.new) }
    {
        if most <= SMALL as u64 {
            return self.take_some(&mut [0; SMALL][..most as usize]);
        }
        let most = most.min(LARGE as u64) as usize;
        self.take_some(&mut [0; LARGE][..most])
    }

    // Takes bytes until so many are kept; false where the reader ended before.
    fn fill(&mut self, end: u64) -> Result<bool>
        ensures { MatchResult result (Filled R.remaining self.old self.new end)
            (Fails R.remaining self.old self.new) }
    {
        'pieces: while (self.bytes.len() as u64) < end {
            let missing = end - self.bytes.len() as u64;
            match self.take(missing) {
                Ok(0) => return Ok(false),
                Ok(_) => {}
                Err(error) => return Err(error),
            }
        }
        Ok(true)
    }

    // Takes the head that begins here and the string behind it, if there is one, and returns where
    // they end; None where nothing is known of what follows.
    fn take_head(&mut self, outline: &mut Outline, at: usize) -> Result<Option<usize>>
        ensures { MatchResult result (λ _. KeepsMore R.remaining self.old self.new)
            (Fails R.remaining self.old self.new) }
    {
        match self.fill((at as u64).saturating_add(1)) {
            Ok(true) => self.take_behind(outline, at),
            Ok(false) => Ok(None),
            Err(error) => Err(error),
        }
    }

    // Takes what is behind the first byte of a head.
    fn take_behind(&mut self, outline: &mut Outline, at: usize) -> Result<Option<usize>>
        ensures { MatchResult result (λ _. KeepsMore R.remaining self.old self.new)
            (Fails R.remaining self.old self.new) }
    {
        let Some(first) = self.bytes.get(at).copied() else {
            return Ok(None);
        };
        let behind = at.saturating_add(1 + bytes_behind(first) as usize);
        match self.fill(behind as u64) {
            Ok(true) => self.take_string(outline, at, behind),
            Ok(false) => Ok(None),
            Err(error) => Err(error),
        }
    }

    // Takes the string, if there is one, behind the head that stands between these places.
    fn take_string(
        &mut self,
        outline: &mut Outline,
        at: usize,
        behind: usize,
    ) -> Result<Option<usize>>
        ensures { MatchResult result (λ _. KeepsMore R.remaining self.old self.new)
            (Fails R.remaining self.old self.new) }
    {
        let Some(bytes) = self.bytes.get(at..behind) else {
            return Ok(None);
        };
        let Some(head) = head_of(self.alloc, bytes) else {
            return Ok(None);
        };
        let length = match outline.follow(head) {
            Ok(length) => length,
            Err(full) => return Err(Error::from(full)),
        };
        let end = (behind as u64).saturating_add(length);
        match self.fill(end) {
            Ok(true) => Ok(Some(end as usize)),
            Ok(false) => Ok(None),
            Err(error) => Err(error),
        }
    }

    // Takes what is missing of the item at the front, as far as its heads say, and one byte at the
    // least; false where the reader is at its end.
    fn take_missing(&mut self, levels: u8) -> Result<bool>
        ensures { MatchResult result (TookMissing R.remaining self.old self.new)
            (Fails R.remaining self.old self.new) }
    {
        match self.take(1) {
            Ok(0) => return Ok(false),
            Ok(_) => {}
            Err(error) => return Err(error),
        }
        match self.take_outlined(levels) {
            Ok(()) => Ok(true),
            Err(error) => Err(error),
        }
    }

    // Takes what the heads say that are at the front.
    fn take_outlined(&mut self, levels: u8) -> Result<()>
        ensures { MatchResult result (λ _. KeepsMore R.remaining self.old self.new)
            (Fails R.remaining self.old self.new) }
    {
        let mut outline = match Outline::new(self.alloc, levels) {
            Ok(outline) => outline,
            Err(full) => return Err(Error::from(full)),
        };
        let mut at = 0;
        'heads: for _ in 0..u64::MAX {
            if !outline.is_open() {
                return Ok(());
            }
            match self.take_head(&mut outline, at) {
                Ok(Some(end)) => at = end,
                Ok(None) => return Ok(()),
                Err(error) => return Err(error),
            }
        }
        Ok(())
    }

    /// Where the item at the front ends; or its fault. Bytes are taken as long as it isn't whole.
    pub fn next_item(&mut self, levels: u8) -> Result<usize>
        ensures { TakesItem R.remaining levels self.old self.new result }
    {
        'pieces: for _ in 0..u64::MAX {
            let fault = match end_of_item(self.alloc, &self.bytes, levels) {
                Ok(end) => return Ok(end),
                Err(fault) => fault,
            };
            if !fault.is_eof() {
                return Err(fault);
            }
            match self.take_missing(levels) {
                Ok(true) => {}
                Ok(false) => return Err(fault),
                Err(error) => return Err(error),
            }
        }
        Err(Error::at(ErrorCode::OutOfMemory, 0))
    }

    /// Takes the item at the front, and the reader's end: `TrailingData` where more follows.
    pub fn only_item(&mut self, levels: u8) -> Result<()>
        ensures { TakesOnly R.remaining levels self.old self.new result }
    {
        match self.next_item(levels) {
            Ok(end) => self.end_behind(levels, end),
            Err(fault) => Err(fault),
        }
    }

    // Takes the reader's end, where the item at the front ends there.
    fn end_behind(&mut self, levels: u8, end: usize) -> Result<()>
        requires { HasItem levels self.old.bytes.items end }
        ensures { TakesOnly R.remaining levels self.old self.new result }
    {
        if end < self.bytes.len() {
            return Err(Error::at(ErrorCode::TrailingData, end as u64 + 1));
        }
        match self.take(1) {
            Ok(0) => Ok(()),
            Ok(_) => Err(Error::at(ErrorCode::TrailingData, end as u64 + 1)),
            Err(error) => Err(error),
        }
    }

    /// The first of the bytes.
    pub fn front(&self, end: usize) -> &[u8]
        requires { end ≤ length self.now.bytes.items }
        ensures { result.now ≡ take end self.now.bytes.items }
    {
        &self.bytes[..end]
    }

    /// Those bytes are read.
    pub fn forget(&mut self, end: usize)
        requires { end ≤ length self.old.bytes.items }
        ensures reader { self.new.reader ≡ self.old.reader }
        ensures bytes { self.new.bytes.items ≡ drop end self.old.bytes.items }
    {
        let rest = self.bytes.len() - end;
        if rest == 0 {
            self.bytes.clear();
            return;
        }
        self.bytes.rotate_left(end);
        self.bytes.truncate(rest);
    }
}

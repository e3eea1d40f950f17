//! A reader of the standard library as a source, read ahead in blocks.

ghost use Rattle.std.specs.Prelude.{◌≡◌, ◌+◌, ◌-◌, ◌^◌, ◌<◌, ◌≤◌, [], length, drop, take};
ghost use Rattle.std.specs.Prelude.{IfSome, OnOk, OnErr, IfOk, IfErr};
ghost use Rattle.std.specs.Io.KnownBytes.{prepend_known};
ghost use Rattle.std.specs.Str.Lossy.{utf8_valid_len};

use super::blocks::{Block, HeapBlock, InlineBlock, ROOM};
use cbor_io::utf8::from_utf8;
use cbor_read::{EitherLifetime, Offset, Read, ReadError, ReadErrorCode, Source};
use std::alloc::Global;
use std::{fmt, io, mem};

// What the calls of a source answer.
type Result<T> = std::result::Result<T, ReadError>;

/// The bytes that a reader gives, read ahead in blocks. What is read is lent until the next call.
///
/// Where a byte is wanted that isn't there, it asks its reader for a block, or for the rest of one,
/// by one call, and goes on with what that call gave: [`IoRead`](cbor_read::IoRead) asks for each
/// head and string. Use it for whole files, and for sockets. A block is 8 KiB of memory, which
/// [`new`](BufferedRead::new) takes, or 1 KiB in the source itself
/// ([`inline`](BufferedRead::inline), an [`InlineBlock`]).
///
/// Up to a block that nobody asked for is gone from the reader. `into_inner` hands it back; a
/// `Deserializer` over this source loses it with it. Take [`IoRead`](cbor_read::IoRead) where
/// others go on with the reader, and where a peer waits for the answer to an item while the
/// reader's `read` waits for all that it was asked for (that of a file or of a socket returns what
/// is there).
///
/// Its calls return
///
/// - `Io` where the reader reports a fault; an interrupted read is one, and isn't tried again. What
///   was read ahead comes first, and the next call asks the reader anew;
/// - `EofWhileParsingValue` where too few bytes are to come;
/// - `LengthOutOfRange` at the offset 2^64 - 1, where another byte is there;
/// - `OutOfMemory` where the buffer or the vector to fill can't grow, in `read`, `read_to_buffer`,
///   `read_to_vec` and `skip_text` alone.
///
/// ```rust
/// let mut source = BufferedRead::new(alloc, b"\x62hi\x00".as_slice())?;
/// assert_eq!(rt; source.next()?, Some(0x62)); // a text string of two bytes
/// assert!(rt; matches!(source.read(2)?, EitherLifetime::Short(b"hi")));
/// let (reader, ahead) = source.into_inner();
/// assert_eq!(rt; ahead.as_slice(), b"\x00".as_slice());
/// assert_eq!(rt; reader, b"".as_slice());
/// ```
#[derive(Drop)]
pub struct BufferedRead<R, B: Block = HeapBlock> {
    reader: R,
    // `block[taken..filled]` was read and is to come. The offset counts no more than those up to
    // `end`, which are all but at the last offset there is.
    block: B,
    taken: usize,
    end: usize,
    filled: usize,
    // the offset of the block's first byte
    start: u64,
    buffer: Vec<u8>,
    // what the reader reported behind the block's bytes
    fault: Option<io::Error>,
    ghost ordered: { taken ≤ end },
    ghost counted: { end ≤ filled },
    ghost within: { filled ≤ B.size },
    ghost room: { 0 < B.size },
    ghost offsets: { start + end < 2 ^ 64 },
    ghost limit: { end < filled → start + end ≡ 2 ^ 64 - 1 },
}

impl<R: io::Read> BufferedRead<R> {
    ghost use Rattle.std.specs.Prelude.{None};
    ghost use Rattle.cbor_io.specs.ReadError.{IsMemory};
    ghost use Rattle.cbor_read.specs.Source.{start_of_reader, reader_input};
    ghost use Rattle.cbor_buffered.specs.Block.{input_of_buffered, held_reader, read_ahead};

    /// The bytes of this reader, none of them taken.
    ///
    /// `OutOfMemory` where there is no memory for the block; the reader is dropped then, and no
    /// byte of it was taken.
    ///
    /// ```rust
    /// let mut source = BufferedRead::new(alloc, b"\x18\x2a".as_slice())?;
    /// assert_eq!(rt; source.next()?, Some(0x18));
    /// assert_eq!(rt; source.offset(), 1);
    /// ```
    pub fn new(alloc: Global, reader: R) -> Result<BufferedRead<R>>
    where
        R: Drop,
        ensures ok { IfOk result (λ s. input_of_buffered R.remaining s
            ≡ start_of_reader (R.remaining reader)) }
        ensures reader { IfOk result (λ s. held_reader s ≡ reader) }
        ensures ahead { IfOk result (λ s. read_ahead s ≡ []) }
        ensures err { IfErr result IsMemory }
    {
        BufferedRead::at_offset(alloc, reader, 0)
    }

    /// The bytes of this reader, the first of which stands at this offset of an input whose bytes
    /// before were taken elsewhere: offsets, those of errors too, count from that input's start.
    ///
    /// `OutOfMemory` as [`new`](BufferedRead::new).
    ///
    /// ```rust
    /// let mut source = BufferedRead::at_offset(alloc, b"\x2a".as_slice(), 1)?;
    /// assert_eq!(rt; source.next()?, Some(0x2a));
    /// assert_eq!(rt; source.offset(), 2);
    /// ```
    pub fn at_offset(alloc: Global, reader: R, offset: u64) -> Result<BufferedRead<R>>
    where
        R: Drop,
        ensures ok { IfOk result (λ s. input_of_buffered R.remaining s
            ≡ reader_input None (R.remaining reader) [] offset) }
        ensures reader { IfOk result (λ s. held_reader s ≡ reader) }
        ensures ahead { IfOk result (λ s. read_ahead s ≡ []) }
        ensures err { IfErr result IsMemory }
    {
        let block = HeapBlock::new(alloc)?;
        Ok(BufferedRead::over(alloc, reader, block, offset))
    }

    /// The reader, and the bytes that were read ahead of it and not taken: these come first, and
    /// then the reader's. What was joined in the buffer is dropped, and so is a fault of the reader
    /// that was met behind these bytes.
    ///
    /// ```rust
    /// let mut source = BufferedRead::new(alloc, b"\x00\x01\x02".as_slice())?;
    /// assert_eq!(rt; source.next()?, Some(0));
    /// let (_reader, ahead) = source.into_inner();
    /// assert_eq!(rt; ahead.as_slice(), b"\x01\x02".as_slice());
    /// ```
    pub fn into_inner(self) -> (R, Vec<u8>)
        ensures reader { result.0 ≡ held_reader self }
        ensures ahead { result.1.items ≡ read_ahead self }
        ensures to_come { prepend_known result.1.items (R.remaining result.0)
            ≡ (input_of_buffered R.remaining self).to_come }
    {
        let BufferedRead {
            reader,
            block,
            taken,
            filled,
            ..
        } = self;
        let mut ahead = block.into_vec();
        ahead.truncate(filled);
        ahead.drain(..taken);
        (reader, ahead)
    }
}

impl<R: io::Read> BufferedRead<R, InlineBlock> {
    ghost use Rattle.cbor_read.specs.Source.{start_of_reader};
    ghost use Rattle.cbor_buffered.specs.Block.{input_of_buffered};

    /// The bytes of this reader, none of them taken, read ahead into a block of 1 KiB in the source
    /// itself: it takes no memory, and so can't fail.
    ///
    /// ```rust
    /// let mut source = BufferedRead::inline(alloc, b"\x18\x2a".as_slice());
    /// assert_eq!(rt; source.next()?, Some(0x18));
    /// assert_eq!(rt; source.offset(), 1);
    /// ```
    pub fn inline(alloc: Global, reader: R) -> BufferedRead<R, InlineBlock>
        ensures { input_of_buffered R.remaining result ≡ start_of_reader (R.remaining reader) }
    {
        BufferedRead::over(alloc, reader, InlineBlock::new(), 0)
    }
}

impl<R: io::Read, B: Block> BufferedRead<R, B> {
    ghost use Rattle.std.specs.Prelude.{None, Ok, true, ◌≢◌};
    ghost use Rattle.cbor_io.specs.ReadError.{why};
    ghost use Rattle.cbor_io.specs.declared.read_error.ReadErrorCode.TheVariants.{OutOfMemory};
    ghost use Rattle.cbor_read.specs.Source.{reader_input, Buffered, Stays};
    ghost use Rattle.cbor_read.specs.Source.{RefusedByte, reader_refusals};
    ghost use Rattle.cbor_buffered.specs.Block.{input_of_buffered, in_block, RefusedHere};
    ghost use Rattle.cbor_buffered.specs.Block.{held_reader, read_ahead};

    // The bytes of this reader, read into this block. The first stands at this offset.
    #[inline(always)]
    fn over(alloc: Global, reader: R, block: B, offset: u64) -> BufferedRead<R, B>
        ensures ok { input_of_buffered R.remaining result
            ≡ reader_input None (R.remaining reader) [] offset }
        ensures reader { held_reader result ≡ reader }
        ensures ahead { read_ahead result ≡ [] }
    {
        BufferedRead {
            reader,
            block,
            taken: 0,
            end: 0,
            filled: 0,
            start: offset,
            buffer: Vec::new(alloc),
            fault: None,
        }
    }

    // Reads a block, where no byte of the last is left, or returns the fault that was kept. The
    // offset may be too high to count all that came.
    fn read_block(&mut self) -> Result<()>
        requires { self.old.filled ≤ self.old.taken }
        ensures stays { OnOk result (Stays (input_of_buffered R.remaining self.old)
            (input_of_buffered R.remaining self.new)) }
        ensures end { OnOk result (self.new.taken ≡ self.new.filled
            → IfSome (input_of_buffered R.remaining self.old).to_come (λ bs. bs ≡ [])) }
        ensures err { IfErr result (RefusedByte reader_refusals
            (input_of_buffered R.remaining self.old) (input_of_buffered R.remaining self.new)) }
    {
        if let Some(fault) = self.fault.take() {
            return Err(ReadError::from(fault));
        }
        let count = self.block.read_from(&mut self.reader)?;
        self.start += self.end as u64;
        self.end = count.min((u64::MAX - self.start) as usize);
        self.filled = count;
        self.taken = 0;
        Ok(())
    }

    // Reads a block, where all of the last is taken that the offset can count.
    #[inline(never)]
    fn fill(&mut self) -> Result<()>
        requires { self.old.taken ≡ self.old.end }
        ensures stays { OnOk result (Stays (input_of_buffered R.remaining self.old)
            (input_of_buffered R.remaining self.new)) }
        ensures end { OnOk result (self.new.taken ≡ self.new.end
            → IfSome (input_of_buffered R.remaining self.old).to_come (λ bs. bs ≡ [])) }
        ensures err { IfErr result (RefusedByte reader_refusals
            (input_of_buffered R.remaining self.old) (input_of_buffered R.remaining self.new)) }
    {
        if self.end < self.filled {
            return Err(ReadError::at(ReadErrorCode::LengthOutOfRange, u64::MAX));
        }
        self.read_block()?;
        if self.taken == self.end && self.end < self.filled {
            return Err(ReadError::at(ReadErrorCode::LengthOutOfRange, u64::MAX));
        }
        Ok(())
    }

    // Begins the block anew, where no byte of it is left.
    #[inline(always)]
    fn restart(&mut self)
        ensures { Stays (input_of_buffered R.remaining self.old)
            (input_of_buffered R.remaining self.new) }
    {
        if self.taken == self.filled {
            self.start += self.taken as u64;
            self.taken = 0;
            self.end = 0;
            self.filled = 0;
        }
    }

    // Reads behind what the block has, by one call, and returns whether any came; where there is
    // little room, none is asked for. A fault is kept.
    #[inline(always)]
    fn extend(&mut self) -> bool
        ensures stays { Stays (input_of_buffered R.remaining self.old)
            (input_of_buffered R.remaining self.new) }
        ensures more { result ≡ true → self.old.filled < self.new.filled }
    {
        let room = self.block.bytes().len() - self.filled;
        if room < ROOM || self.end < self.filled || self.fault.is_some() {
            return false;
        }
        match self.block.read_behind(self.filled, &mut self.reader) {
            Ok(count) => {
                self.filled += count;
                self.end = self.filled.min((u64::MAX - self.start) as usize);
                count > 0
            }
            Err(fault) => {
                self.fault = Some(fault);
                false
            }
        }
    }

    // Sees to it that a byte is in the block, if any is to come.
    #[inline(always)]
    fn prepare(&mut self) -> Result<()>
        ensures stays { OnOk result (Stays (input_of_buffered R.remaining self.old)
            (input_of_buffered R.remaining self.new)) }
        ensures end { OnOk result (self.new.taken ≡ self.new.end
            → IfSome (input_of_buffered R.remaining self.old).to_come (λ bs. bs ≡ [])) }
        ensures held { self.old.taken < self.old.end
            → (result ≡ Ok tt) × (in_block self.new ≡ in_block self.old) }
        ensures err { IfErr result (RefusedByte reader_refusals
            (input_of_buffered R.remaining self.old) (input_of_buffered R.remaining self.new)) }
    {
        if self.taken == self.end {
            self.fill()?;
        }
        Ok(())
    }

    // How many of the next bytes, at most so many, are in the block, which is read anew where it
    // has none left. An end is refused.
    fn wanted(&mut self, most: usize) -> Result<usize>
        requires { 0 < most }
        ensures stays { OnOk result (Stays (input_of_buffered R.remaining self.old)
            (input_of_buffered R.remaining self.new)) }
        ensures count { IfOk result
            (λ n. (0 < n) × (n ≤ most) × (self.new.taken + n ≤ self.new.end)) }
        ensures err { IfErr result (RefusedHere (input_of_buffered R.remaining self.old)
            (input_of_buffered R.remaining self.new) most) }
        ensures memory { IfErr result (λ e. why e ≢ OutOfMemory) }
    {
        self.prepare()?;
        if self.taken == self.end {
            return Err(ReadError::eof(self.start + self.taken as u64));
        }
        Ok(most.min(self.end - self.taken))
    }

    // Takes some of the next bytes, at most so many, to the buffer's end, and returns how many.
    fn join_piece(&mut self, most: usize) -> Result<usize>
        requires { 0 < most }
        ensures within { IfOk result (λ n. (0 < n) × (n ≤ most)) }
        ensures ok { IfOk result (Buffered (input_of_buffered R.remaining self.old)
            (input_of_buffered R.remaining self.new)) }
        ensures err { IfErr result (RefusedHere (input_of_buffered R.remaining self.old)
            (input_of_buffered R.remaining self.new) most) }
    {
        let count = self.wanted(most)?;
        let end = self.taken + count;
        self.buffer
            .extend_from_slice(&self.block.bytes()[self.taken..end])?;
        self.taken = end;
        Ok(count)
    }
}

impl<R: io::Read, B: Block> Source for BufferedRead<R, B> {
    ghost use Rattle.std.specs.Prelude.{false};
    ghost use Rattle.cbor_read.specs.Source.{reader_refusals, first_of};
    ghost use Rattle.cbor_buffered.specs.Block.{input_of_buffered, in_block};

    ghost source = { input_of_buffered R.remaining };

    ghost peeked = { λ s. first_of (in_block s) };

    ghost at_hand = { λ s. in_block s };

    ghost refusals = { reader_refusals };

    ghost lends = { record { whole = false; joined = false } };

    fn next(&mut self) -> Result<Option<u8>> {
        let byte = self.peek()?;
        if byte.is_some() {
            self.discard();
        }
        Ok(byte)
    }

    fn peek(&mut self) -> Result<Option<u8>> {
        self.prepare()?;
        Ok(self.ahead().first().copied())
    }

    #[inline(always)]
    fn ahead(&self) -> &[u8] {
        &self.block.bytes()[self.taken..self.end]
    }

    #[inline(always)]
    fn advance(&mut self, n: usize) {
        self.taken += n;
    }

    #[inline(always)]
    fn lacks(&self, n: usize) -> bool {
        self.end < self.taken.saturating_add(n)
    }

    #[inline(always)]
    fn gather(&mut self, n: usize) {
        self.restart();
        'calls: while self.end - self.taken < n && self.extend() {}
    }

    fn clear_buffer(&mut self) {
        self.buffer.clear();
    }

    fn read_to_buffer(&mut self, n: usize) -> Result<()> {
        let mut left = n;
        'pieces: while left > 0 {
            left -= self.join_piece(left)?;
        }
        Ok(())
    }

    fn buffer(&self) -> &[u8] {
        &self.buffer
    }

    fn buffer_room(&self) -> Option<usize> {
        None
    }

    // The vector stands in the buffer's place, so that the bytes go straight after it.
    fn read_to_vec(&mut self, n: usize, out: &mut Vec<u8>) -> Result<()> {
        mem::swap(&mut self.buffer, out);
        let answer = self.read_to_buffer(n);
        mem::swap(&mut self.buffer, out);
        answer
    }

    fn read_into(&mut self, buf: &mut [u8]) -> Result<()> {
        let mut filled = 0;
        'pieces: while filled < buf.len() {
            let count = self.wanted(buf.len() - filled)?;
            buf[filled..filled + count].copy_from_slice(&self.ahead()[..count]);
            self.advance(count);
            filled += count;
        }
        Ok(())
    }

    fn skip(&mut self, n: usize) -> Result<()> {
        let mut left = n;
        'pieces: while left > 0 {
            let count = self.wanted(left)?;
            self.advance(count);
            left -= count;
        }
        Ok(())
    }

    fn skip_text(&mut self, n: usize) -> Result<usize> {
        if n <= self.end - self.taken {
            let valid = valid_in(&self.ahead()[..n]);
            self.advance(n);
            return Ok(valid);
        }
        self.buffer.clear();
        self.read_to_buffer(n)?;
        Ok(valid_in(&self.buffer))
    }

    fn discard(&mut self) {
        self.taken += 1;
    }

    fn offset(&self) -> u64 {
        self.start + self.taken as u64
    }
}

impl<'de, R: io::Read, B: Block> Read<'de> for BufferedRead<R, B> {
    fn read<'a>(&'a mut self, n: usize) -> Result<EitherLifetime<'a, 'de>> {
        if n <= self.end - self.taken {
            let start = self.taken;
            self.taken += n;
            let whole = &*self;
            return Ok(EitherLifetime::Short(&whole.block.bytes()[start..start + n]));
        }
        self.buffer.clear();
        self.read_to_buffer(n)?;
        Ok(EitherLifetime::Short(&self.buffer))
    }

    fn take_buffer<'a>(&'a mut self) -> EitherLifetime<'a, 'de> {
        EitherLifetime::Short(&self.buffer)
    }
}

impl<R: io::Read, B: Block> Offset for BufferedRead<R, B> {
    fn byte_offset(&self) -> usize {
        (self.start + self.taken as u64) as usize
    }
}

// How many of these bytes, from the front, are UTF-8.
#[tactic(auto, using(crate::proofs::BlockBytes::all_valid))]
fn valid_in(bytes: &[u8]) -> usize
    ensures { result ≡ utf8_valid_len bytes.now }
{
    match from_utf8(bytes) {
        Ok(text) => text.len(),
        Err(e) => e.valid_up_to(),
    }
}

// Neither the input nor the reader is printed: what they hold may be no reader's to see.
impl<R, B: Block> fmt::Debug for BufferedRead<R, B> {
    fn fmt<W: fmt::Write>(&self, f: &mut fmt::Formatter<W>) -> fmt::Result {
        f.debug_struct("BufferedRead")
            .field("offset", &(self.start + self.taken as u64))
            .finish_non_exhaustive()
    }
}

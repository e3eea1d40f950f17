//! A reader of the standard library as a source.

ghost use Rattle.std.specs.Prelude.{◌≡◌, ◌+◌, ◌<◌, ◌≤◌, [], length, IfSome, OnOk, IfOk, IfErr, Ok};
ghost use Rattle.std.specs.Prelude.{OnErr, Some, None};
ghost use Rattle.std.specs.Io.KnownBytes.{Keeps};
ghost use Rattle.cbor_read.specs.Reader.{ByteRead, Filled, SomeRead, PieceTaken};
ghost use Rattle.cbor_read.specs.Source.{reader_input, with_peeked, start_of_reader};
ghost use Rattle.cbor_read.specs.Sources.{AsksFor, asked_to};

use super::front::valid_in;
use super::{EitherLifetime, Offset, Read, ReadError, ReadErrorCode, Result, Source};
use std::alloc::Global;
use std::{fmt, io, mem};

/// The bytes that a reader of the standard library gives. What is read is lent until the next call.
///
/// It takes no byte of the reader that isn't asked for, but for one that is peeked. Long strings
/// are read in pieces of some thousand bytes, and memory is taken for what came, however long a
/// string claims to be.
///
/// Its calls return
///
/// - `Io` where the reader reports a fault; an interrupted read is one, and isn't tried again;
/// - `EofWhileParsingValue` where too few bytes are to come;
/// - `LengthOutOfRange` at the offset 2^64 - 1, where another byte is there;
/// - `OutOfMemory` where the buffer or the vector to fill can't grow, in `read`, `read_to_buffer`,
///   `read_to_vec`, `skip` and `skip_text` alone.
///
/// ```rust
/// let mut source = IoRead::new(alloc, b"\x62hi\x00".as_slice());
/// assert_eq!(rt; source.next()?, Some(0x62)); // a text string of two bytes
/// match source.read(2)? {
///     EitherLifetime::Short(text) => assert_eq!(rt; text, b"hi".as_slice()),
///     EitherLifetime::Long(_) => assert!(rt; false), // a reader lends nothing for longer
/// }
/// ```
#[derive(Drop)]
pub struct IoRead<R> {
    reader: R,
    buffer: Vec<u8>,
    peeked: Option<u8>,
    offset: u64,
}

impl<R: io::Read> IoRead<R> {
    ghost use Rattle.cbor_read.specs.Source.{Buffered, Lengthened, RefusedToBuffer};
    ghost use Rattle.cbor_read.specs.Source.{reader_refusals};
    ghost use Rattle.cbor_read.specs.Sources.{input_of_reader};

    /// The bytes of this reader, none of them taken.
    ///
    /// ```rust
    /// let mut source = IoRead::new(alloc, b"\x18\x2a".as_slice());
    /// assert_eq!(rt; source.next()?, Some(0x18));
    /// assert_eq!(rt; source.offset(), 1);
    /// ```
    pub fn new(alloc: Global, reader: R) -> IoRead<R>
        ensures input { input_of_reader R.remaining result
            ≡ start_of_reader (R.remaining reader) }
        ensures asks { asked_to result ≡ 0 }
    {
        IoRead {
            reader,
            buffer: Vec::new(alloc),
            peeked: None,
            offset: 0,
        }
    }

    /// The bytes of this reader, the first of which stands at this offset of an input whose bytes
    /// before were taken elsewhere: offsets, those of errors too, count from that input's start.
    ///
    /// ```rust
    /// let mut source = IoRead::at_offset(alloc, b"\x2a".as_slice(), 1);
    /// assert_eq!(rt; source.next()?, Some(0x2a));
    /// assert_eq!(rt; source.offset(), 2);
    /// ```
    pub fn at_offset(alloc: Global, reader: R, offset: u64) -> IoRead<R>
        ensures input { input_of_reader R.remaining result
            ≡ reader_input None (R.remaining reader) [] offset }
        ensures asks { asked_to result ≡ offset }
    {
        IoRead {
            reader,
            buffer: Vec::new(alloc),
            peeked: None,
            offset,
        }
    }

    // Takes some of the next bytes to the front of a piece, and returns how many. It returns 0 only
    // at the end.
    fn take_piece(&mut self, piece: &mut [u8]) -> Result<usize>
        requires { 0 < length piece.old }
        ensures took { PieceTaken (input_of_reader R.remaining self.old)
            (input_of_reader R.remaining self.new) piece.new result }
        ensures asks { AsksFor (length piece.old) self.old self.new }
    {
        if self.peeked.is_some() || self.offset == u64::MAX {
            return self.take_first(piece);
        }
        let most = piece.len().min((u64::MAX - self.offset) as usize);
        let count = read_some(&mut self.reader, piece, most)?;
        self.offset += count as u64;
        Ok(count)
    }

    // Takes one byte at most to the front of a piece, and returns how many.
    #[tactic(auto, using(crate::proofs::ReaderSteps::stays_kept, crate::proofs::ReaderSteps::stays_end))]
    fn take_first(&mut self, piece: &mut [u8]) -> Result<usize>
        requires { 0 < length piece.old }
        ensures took { PieceTaken (input_of_reader R.remaining self.old)
            (input_of_reader R.remaining self.new) piece.new result }
        ensures asks { AsksFor 1 self.old self.new }
    {
        match self.next()? {
            Some(byte) => {
                piece[0] = byte;
                Ok(1)
            }
            None => Ok(0),
        }
    }

    // Takes some of the next bytes to the buffer's end, by way of a piece, and returns how many.
    #[tactic(auto, using(crate::proofs::Lengthened::none_came))]
    fn join_piece(&mut self, piece: &mut [u8]) -> Result<usize>
        requires { 0 < length piece.old }
        ensures within { IfOk result (λ n. (0 < n) × (n ≤ length piece.old)) }
        ensures ok { IfOk result (λ n. Buffered (input_of_reader R.remaining self.old)
            (input_of_reader R.remaining self.new) n) }
        ensures err { IfErr result (RefusedToBuffer reader_refusals
            (input_of_reader R.remaining self.old) (input_of_reader R.remaining self.new)
            (length piece.old)) }
        ensures kept { OnErr result (Lengthened (input_of_reader R.remaining self.old)
            (input_of_reader R.remaining self.new) (input_of_reader R.remaining self.old).buffer
            (input_of_reader R.remaining self.new).buffer) }
        ensures asks { AsksFor (length piece.old) self.old self.new }
    {
        let count = self.take_piece(piece)?;
        if count == 0 {
            return Err(ReadError::eof(self.offset));
        }
        self.buffer.extend_from_slice(&piece[..count])?;
        Ok(count)
    }

    // Takes n bytes to the buffer's end, in pieces of this size at most.
    #[tactic(auto, using(crate::proofs::Asking::asks_more))]
    fn join(&mut self, n: usize, piece: &mut [u8]) -> Result<()>
        requires { 0 < length piece.old }
        ensures ok { OnOk result (Buffered (input_of_reader R.remaining self.old)
            (input_of_reader R.remaining self.new) n) }
        ensures err { IfErr result (RefusedToBuffer reader_refusals
            (input_of_reader R.remaining self.old) (input_of_reader R.remaining self.new) n) }
        ensures kept { OnErr result (Lengthened (input_of_reader R.remaining self.old)
            (input_of_reader R.remaining self.new) (input_of_reader R.remaining self.old).buffer
            (input_of_reader R.remaining self.new).buffer) }
        ensures asks { AsksFor n self.old self.new }
    {
        let mut left = n;
        'pieces: while left > 0 {
            let most = left.min(piece.len());
            left -= self.join_piece(&mut piece[..most])?;
        }
        Ok(())
    }
}

impl<R: io::Read> Source for IoRead<R> {
    ghost use Rattle.std.specs.Prelude.{ℕ, ◌∷◌, ◌^◌, ◌≢◌, IsSome, MatchOption, take, true, false};
    ghost use Rattle.cbor_io.specs.ReadError.{why};
    ghost use Rattle.cbor_io.specs.declared.read_error.ReadErrorCode.TheVariants.{OutOfMemory};
    ghost use Rattle.cbor_read.specs.Source.{reader_refusals, or_memory, MemoryWhere};
    ghost use Rattle.cbor_read.specs.Source.{Buffered, FitsRoom, KeepsBytes, Lengthened, NextDoes};
    ghost use Rattle.cbor_read.specs.Source.{RefusedByte, RefusedInto, RefusedPart, RefusedToBuffer};
    ghost use Rattle.cbor_read.specs.Source.{Skipped, SkippedText, Stays, TookBehind, TookKept};
    ghost use Rattle.cbor_read.specs.Reader.{peeked_at};
    ghost use Rattle.cbor_read.specs.Sources.{input_of_reader};

    ghost source = { input_of_reader R.remaining };

    ghost peeked = { λ s. peeked_at s.offset s.peeked };

    ghost at_hand = { λ s. [] };

    ghost refusals = { reader_refusals };

    ghost lends = { record { whole = false; joined = false } };

    fn next(&mut self) -> Result<Option<u8>>
        ensures does { NextDoes reader_refusals (input_of_reader R.remaining self.old)
            (input_of_reader R.remaining self.new) result }
        ensures counted { (input_of_reader R.remaining self.new).offset < 2 ^ 64 }
        ensures peeked { IfSome (peeked_at self.old.offset self.old.peeked)
            (λ b. IfOk result (λ o. o ≡ Some b)) }
        ensures asks { AsksFor 1 self.old self.new }
    {
        let offset = self.offset;
        fill(&mut self.reader, &mut self.peeked)?;
        let Some(byte) = self.peeked else {
            return Ok(None);
        };
        if offset == u64::MAX {
            return Err(ReadError::at(ReadErrorCode::LengthOutOfRange, u64::MAX));
        }
        self.discard();
        Ok(Some(byte))
    }

    fn peek(&mut self) -> Result<Option<u8>>
        ensures stays { OnOk result (Stays (input_of_reader R.remaining self.old)
            (input_of_reader R.remaining self.new)) }
        ensures peeked { IfOk result (λ o. peeked_at self.new.offset self.new.peeked ≡ o) }
        ensures same { IfSome (peeked_at self.old.offset self.old.peeked)
            (λ b. IfOk result (λ o. o ≡ Some b)) }
        ensures front { IfOk result (λ o. MatchOption o
            (IfSome (input_of_reader R.remaining self.old).to_come (λ bs. bs ≡ []))
            (λ b. IfSome (input_of_reader R.remaining self.old).to_come
            (λ bs. take 1 bs ≡ b ∷ []))) }
        ensures err { IfErr result (RefusedByte reader_refusals
            (input_of_reader R.remaining self.old) (input_of_reader R.remaining self.new)) }
        ensures asks { AsksFor 1 self.old self.new }
    {
        fill(&mut self.reader, &mut self.peeked)?;
        if self.offset == u64::MAX && self.peeked.is_some() {
            return Err(ReadError::at(ReadErrorCode::LengthOutOfRange, u64::MAX));
        }
        Ok(self.peeked)
    }

    // A reader is asked for each byte.
    #[inline(always)]
    fn ahead(&self) -> &[u8] {
        &[]
    }

    #[inline(always)]
    fn advance(&mut self, n: usize)
        requires { n ≤ length {A = ℕ} [] }
        ensures took { TookKept (input_of_reader R.remaining self.old)
            (input_of_reader R.remaining self.new) (take n []) }
        ensures counted { (input_of_reader R.remaining self.new).offset < 2 ^ 64 }
        ensures asks { AsksFor 0 self.old self.new }
    {
        self.offset += n as u64;
    }

    #[inline(always)]
    #[tactic(auto, using(crate::proofs::ReaderSteps::stays_same))]
    fn gather(&mut self, n: usize)
        ensures stays { Stays (input_of_reader R.remaining self.old)
            (input_of_reader R.remaining self.new) }
        ensures asks { AsksFor 0 self.old self.new }
    {
        let _ = n;
    }

    fn clear_buffer(&mut self)
        ensures bytes { KeepsBytes (input_of_reader R.remaining self.old)
            (input_of_reader R.remaining self.new) }
        ensures empty { (input_of_reader R.remaining self.new).buffer ≡ [] }
        ensures asks { AsksFor 0 self.old self.new }
    {
        self.buffer.clear();
    }

    fn read_to_buffer(&mut self, n: usize) -> Result<()>
        ensures ok { OnOk result (Buffered (input_of_reader R.remaining self.old)
            (input_of_reader R.remaining self.new) n) }
        ensures fits { OnOk result (FitsRoom (input_of_reader R.remaining self.new)) }
        ensures err { IfErr result (RefusedToBuffer reader_refusals
            (input_of_reader R.remaining self.old) (input_of_reader R.remaining self.new) n) }
        ensures kept { OnErr result (Lengthened (input_of_reader R.remaining self.old)
            (input_of_reader R.remaining self.new) (input_of_reader R.remaining self.old).buffer
            (input_of_reader R.remaining self.new).buffer) }
        ensures memory { IfErr result (MemoryWhere true) }
        ensures asks { AsksFor n self.old self.new }
    {
        if n <= SMALL {
            self.join(n, &mut [0; SMALL])
        } else {
            self.join(n, &mut [0; LARGE])
        }
    }

    fn buffer(&self) -> &[u8] {
        &self.buffer
    }

    fn buffer_room(&self) -> Option<usize> {
        None
    }

    // The vector stands in the buffer's place, so that the bytes go straight after it.
    fn read_to_vec(&mut self, n: usize, out: &mut Vec<u8>) -> Result<()>
        ensures ok { OnOk result (TookBehind (input_of_reader R.remaining self.old)
            (input_of_reader R.remaining self.new) n out.old.items out.new.items) }
        ensures err { IfErr result (RefusedInto (or_memory reader_refusals)
            (input_of_reader R.remaining self.old) (input_of_reader R.remaining self.new) n) }
        ensures kept { OnErr result (Lengthened (input_of_reader R.remaining self.old)
            (input_of_reader R.remaining self.new) out.old.items out.new.items) }
        ensures asks { AsksFor n self.old self.new }
    {
        mem::swap(&mut self.buffer, out);
        let answer = self.read_to_buffer(n);
        mem::swap(&mut self.buffer, out);
        answer
    }

    #[tactic(auto, using(crate::proofs::Asking::asks_more))]
    fn read_into(&mut self, buf: &mut [u8]) -> Result<()>
        ensures ok { OnOk result (TookKept (input_of_reader R.remaining self.old)
            (input_of_reader R.remaining self.new) buf.new) }
        ensures err { IfErr result (RefusedInto reader_refusals
            (input_of_reader R.remaining self.old) (input_of_reader R.remaining self.new)
            (length buf.old)) }
        ensures memory { IfErr result (λ e. why e ≢ OutOfMemory) }
        ensures asks { AsksFor (length buf.old) self.old self.new }
    {
        let mut filled = 0;
        'pieces: while filled < buf.len() {
            let count = self.take_piece(&mut buf[filled..])?;
            if count == 0 {
                return Err(ReadError::eof(self.offset));
            }
            filled += count;
        }
        Ok(())
    }

    // By way of the buffer.
    fn skip(&mut self, n: usize) -> Result<()>
        ensures ok { OnOk result (Skipped (input_of_reader R.remaining self.old)
            (input_of_reader R.remaining self.new) n) }
        ensures err { IfErr result (RefusedPart reader_refusals
            (input_of_reader R.remaining self.old) (input_of_reader R.remaining self.new) n) }
        ensures memory { IfErr result (MemoryWhere true) }
        ensures asks { AsksFor n self.old self.new }
    {
        self.buffer.clear();
        self.read_to_buffer(n)
    }

    fn skip_text(&mut self, n: usize) -> Result<usize>
        ensures ok { IfOk result (SkippedText (input_of_reader R.remaining self.old)
            (input_of_reader R.remaining self.new) n) }
        ensures err { IfErr result (RefusedPart reader_refusals
            (input_of_reader R.remaining self.old) (input_of_reader R.remaining self.new) n) }
        ensures memory { IfErr result (MemoryWhere true) }
        ensures asks { AsksFor n self.old self.new }
    {
        self.buffer.clear();
        self.read_to_buffer(n)?;
        Ok(valid_in(&self.buffer))
    }

    fn discard(&mut self)
        requires { IsSome (peeked_at self.old.offset self.old.peeked) }
        ensures took { IfSome (peeked_at self.old.offset self.old.peeked)
            (λ b. TookKept (input_of_reader R.remaining self.old)
            (input_of_reader R.remaining self.new) (b ∷ [])) }
        ensures asks { AsksFor 0 self.old self.new }
    {
        self.peeked = None;
        self.offset += 1;
    }

    fn offset(&self) -> u64 {
        self.offset
    }
}

impl<'de, R: io::Read> Read<'de> for IoRead<R> {
    ghost use Rattle.std.specs.Prelude.{take, true, false};
    ghost use Rattle.std.specs.Io.BufRead.{Rests};
    ghost use Rattle.cbor_read.specs.Source.{KeepsBytes, MemoryWhere, ReadLeaves, is_long};
    ghost use Rattle.cbor_read.specs.Source.{part_bytes, reader_refusals};
    ghost use Rattle.cbor_read.specs.Sources.{input_of_reader};
    ghost use Rattle.cbor_read.specs.contracts.io_read.IoRead.{the_row};
    ghost use types.Logic.{sem};

    fn read<'a>(&'a mut self, n: usize) -> Result<EitherLifetime<'a, 'de>>
        ensures count { IfOk result (λ p. length (part_bytes p) ≡ n) }
        ensures front { IfOk result (λ p. IfSome (input_of_reader R.remaining self.old).to_come
            (λ bs. part_bytes p ≡ take n bs)) }
        ensures long { IfOk result (λ p. is_long p ≡ false) }
        ensures memory { IfErr result (MemoryWhere true) }
        ensures* after_borrow { sem 𝓛 (Rests (the_row R.row) self.entry (λ new.
            ReadLeaves reader_refusals (input_of_reader R.remaining self.old)
            (input_of_reader R.remaining new) n result
            × AsksFor n self.old new)) }
    {
        self.clear_buffer();
        self.read_to_buffer(n)?;
        Ok(EitherLifetime::Short(&self.buffer))
    }

    fn take_buffer<'a>(&'a mut self) -> EitherLifetime<'a, 'de>
        ensures bytes { part_bytes result ≡ (input_of_reader R.remaining self.old).buffer }
        ensures long { is_long result ≡ false }
        ensures* after_borrow { sem 𝓛 (Rests (the_row R.row) self.entry (λ new.
            KeepsBytes (input_of_reader R.remaining self.old) (input_of_reader R.remaining new)
            × AsksFor 0 self.old new)) }
    {
        EitherLifetime::Short(&self.buffer)
    }
}

impl<R: io::Read> Offset for IoRead<R> {
    fn byte_offset(&self) -> usize {
        self.offset as usize
    }
}

// A string of up to so many bytes is read by way of a small piece, which costs little to clear.
const SMALL: usize = 64;

// The most that is taken by one call of the reader.
const LARGE: usize = 4096;

// Sees to it that the next byte is peeked, if there is one.
fn fill<R: io::Read>(reader: &mut R, peeked: &mut Option<u8>) -> Result<()>
    ensures kept { Keeps (with_peeked peeked.old (R.remaining reader.old))
        (with_peeked peeked.new (R.remaining reader.new)) }
    ensures held { IfSome peeked.old (λ b. (peeked.new ≡ Some b) × (result ≡ Ok tt)) }
    ensures filled { Filled (with_peeked peeked.old (R.remaining reader.old)) peeked.new result }
{
    if peeked.is_none() {
        *peeked = read_byte(reader)?;
    }
    Ok(())
}

// Reads the next byte, if there is one.
fn read_byte<R: io::Read>(reader: &mut R) -> Result<Option<u8>>
    ensures { ByteRead (R.remaining reader.old) (R.remaining reader.new) result }
{
    let mut byte = [0; 1];
    match reader.read(&mut byte)? {
        0 => Ok(None),
        _ => Ok(Some(byte[0])),
    }
}

// Reads some of the next bytes to the front of a piece, and returns how many. It returns 0 only at
// the end.
fn read_some<R: io::Read>(reader: &mut R, piece: &mut [u8], most: usize) -> Result<usize>
    requires { (0 < most) × (most ≤ length piece.old) }
    ensures { SomeRead (R.remaining reader.old) (R.remaining reader.new) most piece.new result }
{
    Ok(reader.read(&mut piece[..most])?)
}

// Neither the input nor the reader is printed: what they hold may be no reader's to see.
impl<R> fmt::Debug for IoRead<R> {
    fn fmt<W: fmt::Write>(&self, f: &mut fmt::Formatter<W>) -> fmt::Result {
        f.debug_struct("IoRead")
            .field("offset", &self.offset)
            .finish_non_exhaustive()
    }
}

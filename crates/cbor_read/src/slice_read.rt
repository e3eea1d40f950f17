//! A slice as a source.

ghost use Rattle.std.specs.Prelude.{◌≡◌, ◌≤◌, [], length, None};

use super::front::{append, byte_at, end_of, valid_in};
use super::{EitherLifetime, Offset, Read, Result, Source};
use std::alloc::Global;
use std::fmt;

/// The bytes of a slice. What is read is lent by the slice; parts that are joined stand in a buffer
/// that grows.
///
/// Its calls return `EofWhileParsingValue` where too few bytes are to come; `read_to_buffer` and
/// `read_to_vec` take memory, and return `OutOfMemory` where there is none.
///
/// ```rust
/// let mut source = SliceRead::new(alloc, b"\x63foo");
/// assert_eq!(rt; source.next()?, Some(0x63));
/// assert!(rt; matches!(source.read(3)?, EitherLifetime::Long(b"foo")));
/// assert_eq!(rt; source.read(1).unwrap_err().offset(), 4);
/// ```
#[derive(Drop)]
pub struct SliceRead<'a> {
    slice: &'a [u8],
    buffer: Vec<u8>,
    taken: usize,
    ghost within: { taken ≤ length slice.now },
}

impl<'a> SliceRead<'a> {
    ghost use Rattle.cbor_read.specs.Source.{start_of_slice};
    ghost use Rattle.cbor_read.specs.Sources.{input_of_slice};

    /// The bytes of this slice, none of them taken.
    pub fn new(alloc: Global, slice: &'a [u8]) -> SliceRead<'a>
        ensures { input_of_slice result ≡ start_of_slice slice.now None }
    {
        SliceRead {
            slice,
            buffer: Vec::new(alloc),
            taken: 0,
        }
    }
}

impl<'a> Source for SliceRead<'a> {
    ghost use Rattle.std.specs.Prelude.{true, false, drop};
    ghost use Rattle.cbor_read.specs.Source.{slice_refusals, first_of};
    ghost use Rattle.cbor_read.specs.Sources.{input_of_slice};

    ghost source = { input_of_slice };

    ghost peeked = { λ s. first_of (drop s.taken s.slice.now) };

    ghost at_hand = { λ s. drop s.taken s.slice.now };

    ghost refusals = { slice_refusals };

    ghost lends = { record { whole = true; joined = false } };

    fn next(&mut self) -> Result<Option<u8>> {
        let byte = byte_at(self.slice, self.taken);
        if byte.is_some() {
            self.taken += 1;
        }
        Ok(byte)
    }

    fn peek(&mut self) -> Result<Option<u8>> {
        Ok(byte_at(self.slice, self.taken))
    }

    #[inline(always)]
    fn ahead(&self) -> &[u8] {
        &self.slice[self.taken..]
    }

    #[inline(always)]
    fn advance(&mut self, n: usize) {
        self.taken += n;
    }

    fn clear_buffer(&mut self) {
        self.buffer.clear();
    }

    #[tactic(auto, using(crate::proofs::Lengthened::none_taken))]
    fn read_to_buffer(&mut self, n: usize) -> Result<()> {
        let end = end_of(self.slice, self.taken, n)?;
        let part = &self.slice[self.taken..end];
        self.buffer.extend_from_slice(part)?;
        self.taken = end;
        Ok(())
    }

    fn buffer(&self) -> &[u8] {
        &self.buffer
    }

    fn buffer_room(&self) -> Option<usize> {
        None
    }

    #[inline(always)]
    #[tactic(auto, using(crate::proofs::Lengthened::none_taken))]
    fn read_to_vec(&mut self, n: usize, out: &mut Vec<u8>) -> Result<()> {
        let end = end_of(self.slice, self.taken, n)?;
        append(out, &self.slice[self.taken..end])?;
        self.taken = end;
        Ok(())
    }

    fn read_into(&mut self, buf: &mut [u8]) -> Result<()> {
        let end = end_of(self.slice, self.taken, buf.len())?;
        buf.copy_from_slice(&self.slice[self.taken..end]);
        self.taken = end;
        Ok(())
    }

    #[inline]
    fn skip(&mut self, n: usize) -> Result<()> {
        let end = end_of(self.slice, self.taken, n)?;
        self.taken = end;
        Ok(())
    }

    #[inline]
    fn skip_text(&mut self, n: usize) -> Result<usize> {
        let end = end_of(self.slice, self.taken, n)?;
        let valid = valid_in(&self.slice[self.taken..end]);
        self.taken = end;
        Ok(valid)
    }

    fn discard(&mut self) {
        self.taken += 1;
    }

    fn offset(&self) -> u64 {
        self.taken as u64
    }
}

impl<'a> Read<'a> for SliceRead<'a> {
    fn read<'b>(&'b mut self, n: usize) -> Result<EitherLifetime<'b, 'a>> {
        let end = end_of(self.slice, self.taken, n)?;
        let part = &self.slice[self.taken..end];
        self.taken = end;
        Ok(EitherLifetime::Long(part))
    }

    fn take_buffer<'b>(&'b mut self) -> EitherLifetime<'b, 'a> {
        EitherLifetime::Short(&self.buffer)
    }
}

impl<'a> Offset for SliceRead<'a> {
    fn byte_offset(&self) -> usize {
        self.taken
    }
}

// The input isn't printed: it may be long, or hold what is no reader's to see.
impl fmt::Debug for SliceRead<'_> {
    fn fmt<W: fmt::Write>(&self, f: &mut fmt::Formatter<W>) -> fmt::Result {
        f.debug_struct("SliceRead")
            .field("offset", &self.taken)
            .field("remaining", &(self.slice.len() - self.taken))
            .finish_non_exhaustive()
    }
}

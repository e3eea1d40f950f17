//! A slice as a source, with a scratch that the caller lends.

ghost use Rattle.std.specs.Prelude.{◌≡◌, ◌+◌, ◌<◌, ◌≤◌, [], length, IfOk, IfErr, Some};
ghost use Rattle.cbor_io.specs.ReadError.{why, place};
ghost use Rattle.cbor_io.specs.declared.read_error.ReadErrorCode.TheVariants.{ScratchTooSmall};

use super::front::{append, byte_at, end_of, valid_in};
use super::{EitherLifetime, Offset, Read, ReadError, ReadErrorCode, Result, Source};
use std::fmt;

/// The bytes of a slice. What is read is lent by the slice; parts that are joined stand in a
/// scratch that the caller lends. `read_to_vec` takes memory, for the vector that it fills; no
/// other call does.
///
/// Its calls return `EofWhileParsingValue` where too few bytes are to come. `read_to_buffer`
/// returns `ScratchTooSmall` where the bytes are there and what was joined would be longer than the
/// scratch: at the present offset, with nothing taken. `read_to_vec` alone returns `OutOfMemory`.
///
/// ```rust
/// let mut scratch = [0; 4];
/// let mut source = SliceReadFixed::new(b"foobar", &mut scratch);
/// source.read_to_buffer(3)?;
/// assert!(rt; source.read_to_buffer(2).is_err());
/// assert_eq!(rt; source.offset(), 3);
/// source.read_to_buffer(1)?;
/// assert!(rt; matches!(source.take_buffer(), EitherLifetime::Short(b"foob")));
/// ```
#[derive(Drop)]
pub struct SliceReadFixed<'a, 'b> {
    slice: &'a [u8],
    scratch: &'b mut [u8],
    taken: usize,
    joined: usize,
    ghost within: { taken ≤ length slice.now },
    ghost scratch_within: { joined ≤ length scratch.now },
}

impl<'a, 'b> SliceReadFixed<'a, 'b> {
    ghost use Rattle.cbor_read.specs.Source.{start_of_slice};
    ghost use Rattle.cbor_read.specs.Sources.{input_of_slice_fixed};

    /// The bytes of this slice, none of them taken, and room for as many joined bytes as the
    /// scratch is long.
    ///
    /// ```rust
    /// let mut scratch = [0; 1];
    /// let mut source = SliceReadFixed::new(b"ab", &mut scratch);
    /// source.read_to_buffer(1)?;
    /// assert!(rt; source.read_to_buffer(1).is_err()); // the scratch is full
    /// assert_eq!(rt; source.offset(), 1);
    /// ```
    pub fn new(slice: &'a [u8], scratch: &'b mut [u8]) -> SliceReadFixed<'a, 'b>
        ensures { input_of_slice_fixed result ≡ start_of_slice slice.now
            (Some (length scratch.old)) }
    {
        SliceReadFixed {
            slice,
            scratch,
            taken: 0,
            joined: 0,
        }
    }

    // Where n more joined bytes end in the scratch.
    fn scratch_end_of(&self, n: usize) -> Result<usize>
        ensures ok { IfOk result
            (λ end. (end ≡ self.now.joined + n) × (end ≤ length self.now.scratch.now)) }
        ensures err { IfErr result (λ e. (why e ≡ ScratchTooSmall)
            × (place e ≡ self.now.taken)
            × (length self.now.scratch.now < self.now.joined + n)) }
    {
        if n <= self.scratch.len() - self.joined {
            Ok(self.joined + n)
        } else {
            Err(ReadError::at(ReadErrorCode::ScratchTooSmall, self.taken as u64))
        }
    }
}

impl<'a, 'b> Source for SliceReadFixed<'a, 'b> {
    ghost use Rattle.std.specs.Prelude.{true, false, drop};
    ghost use Rattle.cbor_read.specs.Source.{fixed_refusals, first_of};
    ghost use Rattle.cbor_read.specs.Sources.{input_of_slice_fixed};

    ghost source = { input_of_slice_fixed };

    ghost peeked = { λ s. first_of (drop s.taken s.slice.now) };

    ghost at_hand = { λ s. drop s.taken s.slice.now };

    ghost refusals = { fixed_refusals };

    ghost lends = { record { whole = true; joined = false } };

    fn next(&mut self) -> Result<Option<u8>> {
        let byte = byte_at(self.slice, self.taken);
        if byte.is_some() {
            self.taken += 1;
        }
        Ok(byte)
    }

    fn peek(&mut self) -> Result<Option<u8>> {
        Ok(byte_at(self.slice, self.taken))
    }

    #[inline(always)]
    fn ahead(&self) -> &[u8] {
        &self.slice[self.taken..]
    }

    #[inline(always)]
    fn advance(&mut self, n: usize) {
        self.taken += n;
    }

    fn clear_buffer(&mut self) {
        self.joined = 0;
    }

    #[tactic(auto, using(crate::proofs::Lengthened::none_taken))]
    fn read_to_buffer(&mut self, n: usize) -> Result<()> {
        let end = end_of(self.slice, self.taken, n)?;
        let scratch_end = self.scratch_end_of(n)?;
        let part = &self.slice[self.taken..end];
        self.scratch[self.joined..scratch_end].copy_from_slice(part);
        self.taken = end;
        self.joined = scratch_end;
        Ok(())
    }

    fn buffer(&self) -> &[u8] {
        &self.scratch[..self.joined]
    }

    fn buffer_room(&self) -> Option<usize> {
        Some(self.scratch.len())
    }

    #[tactic(auto, using(crate::proofs::Lengthened::none_taken))]
    fn read_to_vec(&mut self, n: usize, out: &mut Vec<u8>) -> Result<()> {
        let end = end_of(self.slice, self.taken, n)?;
        append(out, &self.slice[self.taken..end])?;
        self.taken = end;
        Ok(())
    }

    fn read_into(&mut self, buf: &mut [u8]) -> Result<()> {
        let end = end_of(self.slice, self.taken, buf.len())?;
        buf.copy_from_slice(&self.slice[self.taken..end]);
        self.taken = end;
        Ok(())
    }

    #[inline]
    fn skip(&mut self, n: usize) -> Result<()> {
        let end = end_of(self.slice, self.taken, n)?;
        self.taken = end;
        Ok(())
    }

    #[inline]
    fn skip_text(&mut self, n: usize) -> Result<usize> {
        let end = end_of(self.slice, self.taken, n)?;
        let valid = valid_in(&self.slice[self.taken..end]);
        self.taken = end;
        Ok(valid)
    }

    fn discard(&mut self) {
        self.taken += 1;
    }

    fn offset(&self) -> u64 {
        self.taken as u64
    }
}

impl<'a, 'b> Read<'a> for SliceReadFixed<'a, 'b> {
    fn read<'c>(&'c mut self, n: usize) -> Result<EitherLifetime<'c, 'a>> {
        let end = end_of(self.slice, self.taken, n)?;
        let part = &self.slice[self.taken..end];
        self.taken = end;
        Ok(EitherLifetime::Long(part))
    }

    fn take_buffer<'c>(&'c mut self) -> EitherLifetime<'c, 'a> {
        let whole = &*self;
        EitherLifetime::Short(&whole.scratch[..whole.joined])
    }
}

impl<'a, 'b> Offset for SliceReadFixed<'a, 'b> {
    fn byte_offset(&self) -> usize {
        self.taken
    }
}

// The input isn't printed: it may be long, or hold what is no reader's to see.
impl fmt::Debug for SliceReadFixed<'_, '_> {
    fn fmt<W: fmt::Write>(&self, f: &mut fmt::Formatter<W>) -> fmt::Result {
        f.debug_struct("SliceReadFixed")
            .field("offset", &self.taken)
            .field("remaining", &(self.slice.len() - self.taken))
            .finish_non_exhaustive()
    }
}

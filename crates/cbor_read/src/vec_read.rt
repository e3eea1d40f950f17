//! The bytes of a vector, as a source.

ghost use Rattle.std.specs.Prelude.{◌≡◌, ◌+◌, ◌<◌, ◌≤◌, [], length, drop, None, IfOk, IfErr};
ghost use Rattle.std.specs.Prelude.{vec_len};
ghost use Rattle.cbor_io.specs.ReadError.{why, place};
ghost use Rattle.cbor_io.specs.declared.read_error.ReadErrorCode.TheVariants as refusal;

use super::front::valid_in;
use super::{EitherLifetime, Offset, Read, ReadError, Result, Source};
use std::alloc::Global;
use std::fmt;

/// The bytes of a vector that the source owns, so that it lends none of them for longer than until
/// its next call. Parts that are joined stand in memory.
///
/// It returns `EofWhileParsingValue`, and `OutOfMemory` where the buffer or the vector to fill
/// can't grow.
///
/// ```rust
/// let mut source = VecRead::new(alloc, b"\x62hi".to_vec(alloc)?);
/// assert_eq!(rt; source.next()?, Some(0x62));
/// assert!(rt; matches!(source.read(2)?, EitherLifetime::Short(b"hi")));
/// assert_eq!(rt; source.offset(), 3);
/// ```
#[derive(Drop)]
pub struct VecRead {
    bytes: Vec<u8>,
    buffer: Vec<u8>,
    taken: usize,
    ghost within: { taken ≤ vec_len bytes },
}

impl VecRead {
    ghost use Rattle.cbor_read.specs.Source.{start_of_slice};
    ghost use Rattle.cbor_read.specs.Sources.{input_of_vec};

    /// The bytes of this vector, none of them taken.
    pub fn new(alloc: Global, bytes: Vec<u8>) -> VecRead
        ensures { input_of_vec result ≡ start_of_slice bytes.items None }
    {
        VecRead {
            bytes,
            buffer: Vec::new(alloc),
            taken: 0,
        }
    }

    // Where the next n bytes end.
    fn end_of(&self, n: usize) -> Result<usize>
        ensures ok { IfOk result
            (λ end. (end ≡ self.now.taken + n) × (end ≤ vec_len self.now.bytes)) }
        ensures err { IfErr result (λ e. (why e ≡ refusal.EofWhileParsingValue)
            × (place e ≡ vec_len self.now.bytes)
            × (vec_len self.now.bytes < self.now.taken + n)) }
    {
        if n <= self.bytes.len() - self.taken {
            Ok(self.taken + n)
        } else {
            Err(ReadError::eof(self.bytes.len() as u64))
        }
    }
}

impl Source for VecRead {
    ghost use Rattle.std.specs.Prelude.{false};
    ghost use Rattle.cbor_read.specs.Source.{slice_refusals, first_of};
    ghost use Rattle.cbor_read.specs.Sources.{input_of_vec};

    ghost source = { input_of_vec };

    ghost peeked = { λ s. first_of (drop s.taken s.bytes.items) };

    ghost at_hand = { λ s. drop s.taken s.bytes.items };

    ghost refusals = { slice_refusals };

    ghost lends = { record { whole = false; joined = false } };

    fn next(&mut self) -> Result<Option<u8>> {
        let byte = self.peek()?;
        if byte.is_some() {
            self.taken += 1;
        }
        Ok(byte)
    }

    fn peek(&mut self) -> Result<Option<u8>> {
        Ok(if self.taken < self.bytes.len() {
            Some(self.bytes[self.taken])
        } else {
            None
        })
    }

    fn ahead(&self) -> &[u8] {
        &self.bytes[self.taken..]
    }

    fn advance(&mut self, n: usize) {
        self.taken += n;
    }

    fn clear_buffer(&mut self) {
        self.buffer.clear();
    }

    #[tactic(auto, using(crate::proofs::Lengthened::none_taken))]
    fn read_to_buffer(&mut self, n: usize) -> Result<()> {
        let end = self.end_of(n)?;
        self.buffer.extend_from_slice(&self.bytes[self.taken..end])?;
        self.taken = end;
        Ok(())
    }

    fn buffer(&self) -> &[u8] {
        &self.buffer
    }

    fn buffer_room(&self) -> Option<usize> {
        None
    }

    #[tactic(auto, using(crate::proofs::Lengthened::none_taken))]
    fn read_to_vec(&mut self, n: usize, out: &mut Vec<u8>) -> Result<()> {
        let end = self.end_of(n)?;
        out.extend_from_slice(&self.bytes[self.taken..end])?;
        self.taken = end;
        Ok(())
    }

    fn read_into(&mut self, buf: &mut [u8]) -> Result<()> {
        let end = self.end_of(buf.len())?;
        buf.copy_from_slice(&self.bytes[self.taken..end]);
        self.taken = end;
        Ok(())
    }

    fn skip(&mut self, n: usize) -> Result<()> {
        self.skip_text(n)?;
        Ok(())
    }

    fn skip_text(&mut self, n: usize) -> Result<usize> {
        let end = self.end_of(n)?;
        let valid = valid_in(&self.bytes[self.taken..end]);
        self.taken = end;
        Ok(valid)
    }

    fn discard(&mut self) {
        self.taken += 1;
    }

    fn offset(&self) -> u64 {
        self.taken as u64
    }
}

impl<'de> Read<'de> for VecRead {
    fn read<'a>(&'a mut self, n: usize) -> Result<EitherLifetime<'a, 'de>> {
        let end = self.end_of(n)?;
        let start = self.taken;
        self.taken = end;
        let whole = &*self;
        Ok(EitherLifetime::Short(&whole.bytes[start..end]))
    }

    fn take_buffer<'a>(&'a mut self) -> EitherLifetime<'a, 'de> {
        EitherLifetime::Short(&self.buffer)
    }
}

impl Offset for VecRead {
    fn byte_offset(&self) -> usize {
        self.taken
    }
}

// The input isn't printed: it may be long, or hold what is no reader's to see.
impl fmt::Debug for VecRead {
    fn fmt<W: fmt::Write>(&self, f: &mut fmt::Formatter<W>) -> fmt::Result {
        f.debug_struct("VecRead")
            .field("offset", &self.taken)
            .field("remaining", &(self.bytes.len() - self.taken))
            .finish_non_exhaustive()
    }
}

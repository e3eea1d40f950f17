//! A source of a user's own: the bytes of a vector that it owns.

ghost use Rattle.std.specs.Prelude.{◌≡◌, ◌+◌, ◌<◌, ◌≤◌, [], length, drop, None, IfOk, IfErr};
ghost use Rattle.std.specs.Prelude.{vec_len};
ghost use Rattle.std.specs.Str.Lossy.{utf8_valid_len};
ghost use Rattle.cbor_io.specs.ReadError.{why, place};
ghost use Rattle.cbor_io.specs.declared.read_error.ReadErrorCode.TheVariants as refusal;

use cbor_read::{EitherLifetime, Read, ReadError, Source};
use std::alloc::{AllocError, Global};

#[derive(Drop)]
pub struct OwnBytes {
    bytes: Vec<u8>,
    buffer: Vec<u8>,
    taken: usize,
    ghost within: { taken ≤ vec_len bytes },
}

impl OwnBytes {
    ghost use Rattle.cbor_read.specs.Source.{slice_input, start_of_slice};

    fn new(alloc: Global, bytes: Vec<u8>) -> OwnBytes
        ensures { slice_input result.bytes.items result.taken result.buffer.items None
            ≡ start_of_slice bytes.items None }
    {
        OwnBytes {
            bytes,
            buffer: Vec::new(alloc),
            taken: 0,
        }
    }

    // Where the next n bytes end.
    fn end_of(&self, n: usize) -> Result<usize, ReadError>
        ensures ok { IfOk result
            (λ end. (end ≡ self.now.taken + n) × (end ≤ vec_len self.now.bytes)) }
        ensures err { IfErr result (λ e. (why e ≡ refusal.EofWhileParsingValue)
            × (place e ≡ vec_len self.now.bytes)
            × (vec_len self.now.bytes < self.now.taken + n)) }
    {
        if n <= self.bytes.len() - self.taken {
            Ok(self.taken + n)
        } else {
            Err(ReadError::eof(self.bytes.len() as u64))
        }
    }
}

// How many of these bytes, from the front, are UTF-8.
#[tactic(auto, using(crate::proofs::OwnSource::all_valid))]
fn valid_in(bytes: &[u8]) -> usize
    ensures { result ≡ utf8_valid_len bytes.now }
{
    match str::from_utf8(bytes) {
        Ok(text) => text.len(),
        Err(e) => e.valid_up_to(),
    }
}

impl Source for OwnBytes {
    ghost use Rattle.std.specs.Prelude.{false};
    ghost use Rattle.cbor_read.specs.Source.{slice_input, slice_refusals, first_of};

    ghost source = { λ s. slice_input s.bytes.items s.taken s.buffer.items None };

    ghost peeked = { λ s. first_of (drop s.taken s.bytes.items) };

    ghost at_hand = { λ s. drop s.taken s.bytes.items };

    ghost refusals = { slice_refusals };

    ghost lends = { record { whole = false; joined = false } };

    fn next(&mut self) -> Result<Option<u8>, ReadError> {
        let byte = self.peek()?;
        if byte.is_some() {
            self.taken += 1;
        }
        Ok(byte)
    }

    fn peek(&mut self) -> Result<Option<u8>, ReadError> {
        Ok(if self.taken < self.bytes.len() {
            Some(self.bytes[self.taken])
        } else {
            None
        })
    }

    fn ahead(&self) -> &[u8] {
        &self.bytes[self.taken..]
    }

    fn advance(&mut self, n: usize) {
        self.taken += n;
    }

    fn clear_buffer(&mut self) {
        self.buffer.clear();
    }

    #[tactic(auto, using(crate::proofs::OwnSource::none_taken))]
    fn read_to_buffer(&mut self, n: usize) -> Result<(), ReadError> {
        let end = self.end_of(n)?;
        self.buffer.extend_from_slice(&self.bytes[self.taken..end])?;
        self.taken = end;
        Ok(())
    }

    fn buffer(&self) -> &[u8] {
        &self.buffer
    }

    fn buffer_room(&self) -> Option<usize> {
        None
    }

    #[tactic(auto, using(crate::proofs::OwnSource::none_taken))]
    fn read_to_vec(&mut self, n: usize, out: &mut Vec<u8>) -> Result<(), ReadError> {
        let end = self.end_of(n)?;
        out.extend_from_slice(&self.bytes[self.taken..end])?;
        self.taken = end;
        Ok(())
    }

    fn read_into(&mut self, buf: &mut [u8]) -> Result<(), ReadError> {
        let end = self.end_of(buf.len())?;
        buf.copy_from_slice(&self.bytes[self.taken..end]);
        self.taken = end;
        Ok(())
    }

    fn skip(&mut self, n: usize) -> Result<(), ReadError> {
        self.skip_text(n)?;
        Ok(())
    }

    fn skip_text(&mut self, n: usize) -> Result<usize, ReadError> {
        let end = self.end_of(n)?;
        let valid = valid_in(&self.bytes[self.taken..end]);
        self.taken = end;
        Ok(valid)
    }

    fn discard(&mut self) {
        self.taken += 1;
    }

    fn offset(&self) -> u64 {
        self.taken as u64
    }
}

impl<'de> Read<'de> for OwnBytes {
    fn read<'a>(&'a mut self, n: usize) -> Result<EitherLifetime<'a, 'de>, ReadError> {
        let end = self.end_of(n)?;
        let start = self.taken;
        self.taken = end;
        let whole = &*self;
        Ok(EitherLifetime::Short(&whole.bytes[start..end]))
    }

    fn take_buffer<'a>(&'a mut self) -> EitherLifetime<'a, 'de> {
        EitherLifetime::Short(&self.buffer)
    }
}

/// A source of these bytes.
pub fn owned(alloc: Global, bytes: &[u8]) -> Result<OwnBytes, AllocError> {
    let mut all = Vec::with_capacity(alloc, bytes.len())?;
    all.extend_from_slice(bytes)?;
    Ok(OwnBytes::new(alloc, all))
}

//! Readers and writers that give and take in pieces, and fail.

use std::alloc::{AllocError, Global};
use std::io;
use std::io::ErrorKind;

/// A reader that gives at most so many bytes a call, counts its calls, and fails at one of them.
#[derive(Drop)]
pub struct PieceReader<'a> {
    pub rest: &'a [u8],
    piece: usize,
    pub calls: usize,
    fails_at: usize,
    kind: ErrorKind,
}

impl<'a> PieceReader<'a> {
    /// It never fails.
    pub fn new(rest: &'a [u8], piece: usize) -> PieceReader<'a> {
        PieceReader::failing(rest, piece, 0, ErrorKind::Other)
    }

    /// It fails at this call, of which the first is 1.
    pub fn failing(
        rest: &'a [u8],
        piece: usize,
        fails_at: usize,
        kind: ErrorKind,
    ) -> PieceReader<'a> {
        PieceReader {
            rest,
            piece,
            calls: 0,
            fails_at,
            kind,
        }
    }
}

impl<'a> io::Read for PieceReader<'a> {
    fn read(&mut self, buf: &mut [u8]) -> io::Result<usize> {
        self.calls = self.calls.saturating_add(1);
        if self.calls == self.fails_at {
            return Err(io::Error::from(self.kind));
        }
        let count = buf.len().min(self.rest.len()).min(self.piece);
        buf[..count].copy_from_slice(&self.rest[..count]);
        self.rest = &self.rest[count..];
        Ok(count)
    }
}

/// A reader that takes memory for each byte that it gives, and reports its want of it as a fault.
#[derive(Drop)]
pub struct HungryReader<'a> {
    rest: &'a [u8],
    eaten: Vec<u8>,
    pub is_refused: bool,
}

impl<'a> HungryReader<'a> {
    pub fn new(alloc: Global, rest: &'a [u8]) -> HungryReader<'a> {
        HungryReader {
            rest,
            eaten: Vec::new(alloc),
            is_refused: false,
        }
    }
}

impl<'a> io::Read for HungryReader<'a> {
    fn read(&mut self, buf: &mut [u8]) -> io::Result<usize> {
        let (Some(place), Some((first, rest))) = (buf.first_mut(), self.rest.split_first()) else {
            return Ok(0);
        };
        if self.eaten.push(*first).is_err() {
            self.is_refused = true;
            return Err(io::Error::from(ErrorKind::OutOfMemory));
        }
        *place = *first;
        self.rest = rest;
        Ok(1)
    }
}

/// A writer that takes two bytes a write, counts its calls, and fails at the write after so many.
/// Each other write is interrupted.
#[derive(Drop)]
pub struct FailingWriter {
    pub taken: Vec<u8>,
    pub calls: usize,
    left: usize,
    is_interrupted: bool,
    kind: ErrorKind,
}

impl FailingWriter {
    /// It has its memory from the beginning, so that no write can fail for want of it.
    pub fn new(alloc: Global, left: usize, kind: ErrorKind) -> Result<FailingWriter, AllocError> {
        Ok(FailingWriter {
            taken: Vec::with_capacity(alloc, 16)?,
            calls: 0,
            left,
            is_interrupted: false,
            kind,
        })
    }
}

impl io::Write for FailingWriter {
    fn write(&mut self, buf: &[u8]) -> io::Result<usize> {
        self.calls = self.calls.saturating_add(1);
        self.is_interrupted = !self.is_interrupted;
        if self.is_interrupted {
            return Err(io::Error::from(ErrorKind::Interrupted));
        }
        if self.left == 0 {
            return Err(io::Error::from(self.kind));
        }
        self.left -= 1;
        let count = buf.len().min(2);
        io::Write::write(&mut self.taken, &buf[..count])
    }

    fn flush(&mut self) -> io::Result<()> {
        Ok(())
    }
}

/// A writer that takes nothing.
#[derive(Drop)]
pub struct FullWriter;

impl io::Write for FullWriter {
    fn write(&mut self, _buf: &[u8]) -> io::Result<usize> {
        Ok(0)
    }

    fn flush(&mut self) -> io::Result<()> {
        Ok(())
    }
}

//! A reader that gives its bytes in pieces, a writer that takes them in pieces, and failures of both
//! at one of their calls.

use std::alloc::{AllocError, Global};
use std::io;
use std::io::ErrorKind;

/// It gives at most so many bytes a call, and counts its calls.
#[derive(Drop)]
pub struct Pieces<'a> {
    pub rest: &'a [u8],
    piece: usize,
    pub calls: usize,
    fails_at: usize,
    kind: ErrorKind,
}

impl<'a> Pieces<'a> {
    /// It never fails.
    pub fn new(rest: &'a [u8], piece: usize) -> Pieces<'a> {
        Pieces::failing(rest, piece, 0, ErrorKind::Other)
    }

    /// It fails at this call, of which the first is 1, and goes on after it.
    pub fn failing(rest: &'a [u8], piece: usize, fails_at: usize, kind: ErrorKind) -> Pieces<'a> {
        Pieces {
            rest,
            piece,
            calls: 0,
            fails_at,
            kind,
        }
    }
}

impl io::Read for Pieces<'_> {
    fn read(&mut self, buf: &mut [u8]) -> io::Result<usize> {
        self.calls = self.calls.saturating_add(1);
        if self.calls == self.fails_at {
            return Err(io::Error::from(self.kind));
        }
        let count = buf.len().min(self.rest.len()).min(self.piece);
        buf[..count].copy_from_slice(&self.rest[..count]);
        self.rest = &self.rest[count..];
        Ok(count)
    }
}

/// A writer that takes at most so many bytes a call, and counts its calls.
#[derive(Drop)]
pub struct Taker {
    pub taken: Vec<u8>,
    pub calls: usize,
    pub flushes: usize,
    piece: usize,
    fails_at: usize,
    kind: ErrorKind,
    interruptions: usize,
    left: usize,
}

impl Taker {
    /// It never fails.
    pub fn new(alloc: Global, piece: usize) -> Result<Taker, AllocError> {
        Taker::failing(alloc, piece, 0, ErrorKind::Other)
    }

    /// It fails at this call, of which the first is 1, and goes on after it. It has its memory from
    /// the beginning: no write of up to 10,000 bytes fails for want of it.
    pub fn failing(
        alloc: Global,
        piece: usize,
        fails_at: usize,
        kind: ErrorKind,
    ) -> Result<Taker, AllocError> {
        Ok(Taker {
            taken: Vec::with_capacity(alloc, 10_000)?,
            calls: 0,
            flushes: 0,
            piece,
            fails_at,
            kind,
            interruptions: 0,
            left: 0,
        })
    }

    /// It takes one byte a call, and is interrupted so many times before each.
    pub fn interrupted(alloc: Global, times: usize) -> Result<Taker, AllocError> {
        let mut writer = Taker::new(alloc, 1)?;
        writer.interruptions = times;
        writer.left = times;
        Ok(writer)
    }
}

impl io::Write for Taker {
    fn write(&mut self, buf: &[u8]) -> io::Result<usize> {
        if self.left > 0 {
            self.left -= 1;
            return Err(io::Error::from(ErrorKind::Interrupted));
        }
        self.left = self.interruptions;
        self.calls = self.calls.saturating_add(1);
        if self.calls == self.fails_at {
            return Err(io::Error::from(self.kind));
        }
        let count = buf.len().min(self.piece);
        io::Write::write(&mut self.taken, &buf[..count])
    }

    fn flush(&mut self) -> io::Result<()> {
        self.flushes = self.flushes.saturating_add(1);
        Ok(())
    }
}

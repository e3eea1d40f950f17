//! A reader that gives its bytes in pieces.

use std::io;
use std::io::ErrorKind;

/// A reader that gives some bytes at a call, and reports a fault or the end after them.
#[derive(Drop)]
pub struct Pieces<'a> {
    rest: &'a [u8],
    piece: usize,
    fails: bool,
    /// Whether it was asked for more than its bytes, and reported its fault.
    pub failed: bool,
}

impl<'a> Pieces<'a> {
    /// Gives these bytes, so many at a call, and then the end.
    pub fn new(rest: &'a [u8], piece: u8) -> Pieces<'a> {
        Pieces {
            rest,
            piece: usize::from(piece),
            fails: false,
            failed: false,
        }
    }

    /// Gives these bytes, one at a call, and is interrupted then, which is a fault like any other.
    pub fn failing(rest: &'a [u8]) -> Pieces<'a> {
        Pieces {
            rest,
            piece: 1,
            fails: true,
            failed: false,
        }
    }
}

impl<'a> io::Read for Pieces<'a> {
    fn read(&mut self, buf: &mut [u8]) -> io::Result<usize> {
        if self.fails && self.rest.is_empty() {
            self.failed = true;
            return Err(io::Error::from(ErrorKind::Interrupted));
        }
        let count = buf.len().min(self.rest.len()).min(self.piece);
        buf[..count].copy_from_slice(&self.rest[..count]);
        self.rest = &self.rest[count..];
        Ok(count)
    }
}

//! A reader that gives its bytes in pieces.

use std::io;

/// A reader of a slice that gives at most seven bytes a call.
#[derive(Drop)]
pub struct Sevens<'a> {
    rest: &'a [u8],
}

impl<'a> Sevens<'a> {
    pub fn new(rest: &'a [u8]) -> Sevens<'a> {
        Sevens { rest }
    }
}

impl<'a> io::Read for Sevens<'a> {
    fn read(&mut self, buf: &mut [u8]) -> io::Result<usize> {
        let count = buf.len().min(self.rest.len()).min(7);
        buf[..count].copy_from_slice(&self.rest[..count]);
        self.rest = &self.rest[count..];
        Ok(count)
    }
}

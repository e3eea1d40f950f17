//! Readers that hand out their bytes one by one.

use std::io;
use std::io::ErrorKind;

/// A reader that hands out its bytes one by one, and then zeros without end.
#[derive(Drop)]
pub struct Endless<'a> {
    pub bytes: &'a [u8],
    pub given: usize,
}

impl io::Read for Endless<'_> {
    fn read(&mut self, buf: &mut [u8]) -> io::Result<usize> {
        let Some(place) = buf.first_mut() else {
            return Ok(0);
        };
        *place = self.bytes.get(self.given).copied().unwrap_or(0);
        self.given = self.given.saturating_add(1);
        Ok(1)
    }
}

/// A reader that hands out its bytes one by one, and then reports a fault.
#[derive(Drop)]
pub struct Failing<'a> {
    pub bytes: &'a [u8],
}

impl io::Read for Failing<'_> {
    fn read(&mut self, buf: &mut [u8]) -> io::Result<usize> {
        let (Some(place), Some((first, rest))) = (buf.first_mut(), self.bytes.split_first()) else {
            return Err(io::Error::from(ErrorKind::BrokenPipe));
        };
        *place = *first;
        self.bytes = rest;
        Ok(1)
    }
}

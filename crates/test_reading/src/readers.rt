//! A reader that has no end.

use cbor_de::from_reader;
use cbor_value::Value;
use std::io;
use test_checks::{Verdict, is_refused};

/// Gives this byte, and never ends.
#[derive(Drop)]
struct Endless(u8);

impl io::Read for Endless {
    fn read(&mut self, buf: &mut [u8]) -> io::Result<usize> {
        buf.fill(self.0);
        Ok(buf.len())
    }
}

#[test]
fn stops_where_a_reader_has_no_end(rt: HostRuntime) -> Verdict {
    let alloc = rt.alloc();
    let deep = from_reader::<Value, _>(alloc, Endless(0x81));
    is_refused(deep, "recursion limit exceeded at offset 128")?;
    let more = from_reader::<u8, _>(alloc, Endless(0x00));
    is_refused(more, "trailing data at offset 2")
}

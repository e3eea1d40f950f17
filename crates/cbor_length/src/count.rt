//! A sink that counts.

ghost use Rattle.std.specs.Prelude.{◌≡◌, ◌++◌, [], length};

use crate::trace::{Piece, Trace};
use cbor_io::error::{Error, ErrorCode, Result};
use cbor_io::write::Write;

/// A sink that counts the bytes it is given, and keeps none of them. It takes no memory.
///
/// It takes up to 2^64 - 1 bytes, and refuses a piece that goes beyond, with `length out of range`
/// at the number of bytes that it counted; that number stays.
///
/// ```rust
/// let mut ser = Serializer::new(alloc, ByteCount::new()).packed_format();
/// ser.serialize_unit_variant("Side", 1, "Right")?;
/// assert_eq!(rt; ser.into_inner().count(), 1);
/// ```
#[derive(Drop)]
pub struct ByteCount {
    count: u64,
    trace: Trace,
    ghost counted: { count ≡ length trace.bytes },
}

impl ByteCount {
    ghost use Rattle.cbor_length.specs.Count.{counted_bytes};

    /// No byte was counted.
    pub fn new() -> ByteCount
        ensures { counted_bytes result ≡ [] }
    {
        ByteCount {
            count: 0,
            trace: Trace::new(),
        }
    }

    /// How many bytes it was given.
    pub fn count(&self) -> u64
        ensures { result ≡ length (counted_bytes self.now) }
    {
        self.count
    }
}

impl Write for ByteCount {
    ghost use Rattle.cbor_length.specs.Count.{IsTooLong, counted_bytes};
    ghost use Rattle.std.specs.Prelude.{Some, ◌-◌, ◌^◌};

    ghost written = { λ c. Some (counted_bytes c) };

    ghost refuses = { λ c e. IsTooLong c e };

    ghost capacity = { λ _. Some (2 ^ 64 - 1) };

    fn write_all(&mut self, buf: &[u8]) -> Result<()> {
        match self.count.checked_add(buf.len() as u64) {
            Some(count) => {
                *self = ByteCount {
                    count,
                    trace: self.trace.then(&Piece { bytes: buf }),
                };
                Ok(())
            }
            None => Err(Error::at(ErrorCode::LengthOutOfRange, self.count)),
        }
    }
}

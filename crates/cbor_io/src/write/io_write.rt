ghost use Rattle.std.specs.Prelude.{◌≡◌, ◌↔◌, ◌<◌, ◌≤◌, length, IfOk, IsTrue};
ghost use Rattle.std.specs.declared.io.ErrorKind.TheVariants.{Interrupted};
ghost use Rattle.std.specs.Io.KnownBytes.{WriteAppends};
ghost use Rattle.cbor_io.specs.Write.{IsFault, Wrote, io_writer};

use super::Write;
use crate::error::Result;
use std::io::ErrorKind;
use std::{fmt, io};

/// A writer of the standard library as a sink.
///
/// A fault of the writer is returned as an I/O error, which says nothing of how much of the piece
/// went out. A write that was interrupted is tried again, and one that takes nothing is a fault.
///
/// ```rust
/// let mut file: Vec<u8> = Vec::new(alloc); // or any other `io::Write`
/// let mut sink = IoWrite::new(&mut file);
/// sink.write_all(b"\xf6")?;
/// assert_eq!(rt; file.as_slice(), b"\xf6".as_slice());
/// ```
#[derive(Drop)]
pub struct IoWrite<W> {
    writer: W,
}

impl<W: io::Write> IoWrite<W> {
    /// The writer as a sink.
    pub fn new(writer: W) -> IoWrite<W>
        ensures { io_writer result ≡ writer }
    {
        IoWrite { writer }
    }
}

impl<W: io::Write> Write for IoWrite<W> {
    ghost written = { λ w. W.contents w.writer };

    ghost refuses = { λ _ e. IsFault e };

    fn write_all(&mut self, buf: &[u8]) -> Result<()> {
        write_whole(&mut self.writer, buf)?;
        Ok(())
    }
}

// Writes the bytes, as `io::Write::write_all` does. A clause says what stands after a fault.
fn write_whole<W: io::Write>(writer: &mut W, bytes: &[u8]) -> io::Result<()>
    ensures { Wrote (W.contents writer.old) bytes.now (W.contents writer.new) result }
{
    let mut rest = bytes;
    'bytes: while !rest.is_empty() {
        let count = write_some(writer, rest)?;
        rest = &rest[count..];
    }
    Ok(())
}

// Writes a front of the bytes, and returns how long it is. An interrupted write is tried again.
fn write_some<W: io::Write>(writer: &mut W, bytes: &[u8]) -> io::Result<usize>
    ensures within { IfOk result (λ n. (0 < n) × (n ≤ length bytes.now)) }
    ensures written { WriteAppends
        (W.contents writer.old) (W.contents writer.new) result bytes.now }
{
    'tries: for _ in 0..u64::MAX {
        match writer.write(bytes) {
            Ok(0) => return Err(io::Error::from(ErrorKind::WriteZero)),
            Ok(count) => return Ok(count),
            Err(fault) => {
                if !is_tried_again(fault.kind()) {
                    return Err(fault);
                }
            }
        }
    }
    Err(io::Error::from(ErrorKind::Interrupted))
}

// Whether a write that failed so is tried again: one that was interrupted, and no other.
fn is_tried_again(kind: ErrorKind) -> bool
    ensures { IsTrue result ↔ (kind ≡ Interrupted) }
{
    kind == ErrorKind::Interrupted
}

// The writer isn't printed: what it holds may be no reader's to see.
impl<W> fmt::Debug for IoWrite<W> {
    fn fmt<F: fmt::Write>(&self, f: &mut fmt::Formatter<F>) -> fmt::Result {
        f.debug_struct("IoWrite").finish_non_exhaustive()
    }
}

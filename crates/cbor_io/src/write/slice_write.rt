ghost use Rattle.std.specs.Prelude.{◌≤◌, length};

use super::Write;
use crate::error::{Error, Result};
use std::fmt;

/// A slice of fixed length as a sink. It takes no memory.
///
/// It takes all of a piece, or refuses it: exactly where the piece is longer than what is left of
/// the slice, with `Scratch buffer too small` at the number of bytes written, which stay as they
/// were. A shorter piece may still be taken afterwards. So a document whose numbers can be stored
/// is written exactly where all of it fits what is left.
///
/// ```rust
/// let mut room = [0; 3];
/// let mut sink = SliceWrite::new(&mut room);
/// sink.write_all(b"\x66")?;
/// assert!(rt; sink.write_all(b"foobar").is_err());
/// assert_eq!(rt; sink.bytes_written(), 1);
/// assert_eq!(rt; &*sink.into_inner(), b"\x66\0\0".as_slice());
/// ```
#[derive(Drop)]
pub struct SliceWrite<'a> {
    slice: &'a mut [u8],
    count: usize,
    ghost within: { count ≤ length slice.now },
}

impl<'a> SliceWrite<'a> {
    ghost use Rattle.cbor_io.specs.Write.{written_bytes, unwritten_bytes, slice_reference};
    ghost use Rattle.std.specs.Prelude.{◌≡◌, ◌++◌, []};

    /// The slice as a sink, with nothing written.
    pub fn new(slice: &'a mut [u8]) -> SliceWrite<'a>
        ensures written { written_bytes result ≡ [] }
        ensures unwritten { unwritten_bytes result ≡ slice.old }
        ensures same_reference { slice_reference result ≡ slice.entry.ghost_name }
    {
        SliceWrite { slice, count: 0 }
    }

    /// How many bytes are written.
    pub fn bytes_written(&self) -> usize
        ensures { result ≡ length (written_bytes self.now) }
    {
        self.count
    }

    /// The slice: the bytes written, and then the rest of it, unchanged.
    pub fn into_inner(self) -> &'a mut [u8]
        ensures whole { result.now ≡ written_bytes self.entry ++ unwritten_bytes self.entry }
        ensures same_reference { result.ghost_name ≡ slice_reference self.entry }
    {
        let SliceWrite { slice, count: _ } = self;
        slice
    }
}

impl Write for SliceWrite<'_> {
    ghost use Rattle.cbor_io.specs.Write.{Wrote, TakesWhatFits, IsFull, written_bytes};
    ghost use Rattle.cbor_io.specs.Write.{unwritten_bytes, slice_reference, slice_capacity};
    ghost use Rattle.std.specs.Prelude.{◌≡◌, ◌↔◌, ◌∷◌, [], Some, drop, OnOk, OnErr, IfErr, IsOk};

    ghost written = { λ s. Some (written_bytes s) };

    ghost refuses = { λ s e. IsFull s e };

    ghost references = { λ s. slice_reference s ∷ [] };

    ghost capacity = { λ s. Some (slice_capacity s) };

    fn write_all(&mut self, buf: &[u8]) -> Result<()>
        ensures written { Wrote (Some (written_bytes self.old)) buf.now
            (Some (written_bytes self.new)) result }
        ensures refused { IfErr result (λ e. IsFull self.new e) }
        ensures same_reference { slice_reference self.new ≡ slice_reference self.old }
        ensures same_capacity { slice_capacity self.new ≡ slice_capacity self.old }
        // A piece that fits leaves the bytes after it as they were.
        ensures behind { OnOk result
            (unwritten_bytes self.new ≡ drop (length buf.now) (unwritten_bytes self.old)) }
        // A piece is taken exactly where it fits, and of one that is refused nothing is taken.
        ensures fits { IsOk result ↔ (length buf.now ≤ length (unwritten_bytes self.old)) }
        ensures taken { TakesWhatFits (Some (slice_capacity self.old))
            (Some (written_bytes self.old)) buf.now result }
        ensures kept { OnErr result (written_bytes self.new ≡ written_bytes self.old) }
        ensures kept_behind { OnErr result (unwritten_bytes self.new ≡ unwritten_bytes self.old) }
    {
        if self.slice.len() - self.count < buf.len() {
            return Err(Error::scratch_too_small(self.count as u64));
        }
        let end = self.count + buf.len();
        self.slice[self.count..end].copy_from_slice(buf);
        self.count = end;
        Ok(())
    }
}

// What was written isn't printed: it may be long, or hold what is no reader's to see.
impl fmt::Debug for SliceWrite<'_> {
    fn fmt<W: fmt::Write>(&self, f: &mut fmt::Formatter<W>) -> fmt::Result {
        f.debug_struct("SliceWrite")
            .field("bytes_written", &self.count)
            .field("remaining", &(self.slice.len() - self.count))
            .finish_non_exhaustive()
    }
}

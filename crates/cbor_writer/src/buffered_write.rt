//! A writer of the standard library as a sink, written to in blocks.

ghost use Rattle.std.specs.Prelude.{◌≡◌, ◌+◌, ◌≤◌, [], length, take};
ghost use Rattle.std.specs.Prelude.{IfOk, IfErr, OnOk, vec_len};
ghost use Rattle.std.specs.Io.KnownBytes.{append_known, Appends, Keeps};

use crate::send::{PieceRefused, send};
use cbor_io::error::{Error, Result};
use cbor_io::write::Write;
use std::alloc::Global;
use std::io::ErrorKind;
use std::{fmt, io};

// How many bytes the block holds.
const BLOCK: usize = 8192;

/// A writer of the standard library as a sink, which is written to in blocks of 8 KiB.
///
/// What is written is held in the block until that is full, so that few calls are made of the
/// writer. [`flush`](BufferedWrite::flush) sends what is held: **what is held when the sink is
/// dropped is lost**, so flush it once all is written, and take its writer back by `into_inner`. An
/// [`IoWrite`](cbor_io::write::IoWrite) holds nothing, and calls its writer for each piece.
///
/// A fault of the writer is returned as an I/O error. A write that was interrupted is tried again,
/// and one that takes nothing is a fault. What was written before the call is with the writer then,
/// or is held still, and a later call tries to send it anew; of the call's own piece a prefix may
/// have been written, none of it included.
///
/// ```rust
/// let mut file: Vec<u8> = Vec::new(alloc); // or any other `io::Write`
/// let mut sink = BufferedWrite::new(alloc, &mut file)?;
/// sink.write_all(b"\x62")?;
/// sink.write_all(b"hi")?;
/// sink.flush()?;
/// drop(sink);
/// assert_eq!(rt; file.as_slice(), b"\x62hi".as_slice());
/// ```
#[derive(Drop)]
pub struct BufferedWrite<W> {
    writer: W,
    // `block[sent..held]` is to be sent.
    block: Vec<u8>,
    sent: usize,
    held: usize,
    // why the last piece that was refused was
    fault: io::Error,
    ghost ordered: { sent ≤ held },
    ghost within: { held ≤ vec_len block },
}

impl<W: io::Write> BufferedWrite<W> {
    ghost use Rattle.cbor_io.specs.Error.{IsOutOfMemory};
    ghost use Rattle.cbor_io.specs.Write.{IsFault, Wrote};
    ghost use Rattle.cbor_writer.specs.Unsent.{held_writer, unsent_bytes, buffered_contents};

    /// The writer as a sink, with nothing held.
    ///
    /// `OutOfMemory` where there is no memory for the block; the writer is dropped then, and
    /// nothing was written to it. No other call asks for memory.
    ///
    /// ```rust
    /// let file: Vec<u8> = Vec::new(alloc); // or any other `io::Write`
    /// let mut sink = BufferedWrite::new(alloc, file)?;
    /// sink.write_all(b"\xf4")?;
    /// sink.flush()?;
    /// let (file, _unsent) = sink.into_inner();
    /// assert_eq!(rt; file.as_slice(), b"\xf4".as_slice());
    /// ```
    pub fn new(alloc: Global, writer: W) -> Result<BufferedWrite<W>>
    where
        W: Drop,
        ensures ok { IfOk result (λ s. buffered_contents W.contents s ≡ W.contents writer) }
        ensures writer { IfOk result (λ s. held_writer s ≡ writer) }
        ensures unsent { IfOk result (λ s. unsent_bytes s ≡ []) }
        ensures err { IfErr result IsOutOfMemory }
    {
        Ok(BufferedWrite {
            writer,
            block: vec![in alloc; 0; BLOCK]?,
            sent: 0,
            held: 0,
            fault: io::Error::from(ErrorKind::Other),
        })
    }

    /// Sends what is held, and flushes the writer.
    ///
    /// After an I/O error what the writer didn't take is held still.
    ///
    /// ```rust
    /// let mut file: Vec<u8> = Vec::new(alloc);
    /// let mut sink = BufferedWrite::new(alloc, &mut file)?;
    /// sink.write_all(b"\xf6")?;
    /// sink.flush()?;
    /// drop(sink);
    /// assert_eq!(rt; file.as_slice(), b"\xf6".as_slice());
    /// ```
    pub fn flush(&mut self) -> Result<()>
        // All that was written is with the writer.
        ensures sent { OnOk result (Keeps (buffered_contents W.contents self.old)
            (W.contents (held_writer self.new))) }
        ensures unsent { OnOk result (unsent_bytes self.new ≡ []) }
        ensures kept { Keeps (buffered_contents W.contents self.old)
            (buffered_contents W.contents self.new) }
        ensures refused { IfErr result IsFault }
    {
        self.send_block()?;
        self.writer.flush()?;
        Ok(())
    }

    /// The writer, and the bytes that it has not been sent, which come after those that it has.
    /// After a [`flush`](BufferedWrite::flush) there are none.
    ///
    /// ```rust
    /// let file: Vec<u8> = Vec::new(alloc);
    /// let mut sink = BufferedWrite::new(alloc, file)?;
    /// sink.write_all(b"\xf5")?;
    /// let (file, unsent) = sink.into_inner();
    /// assert!(rt; file.is_empty());
    /// assert_eq!(rt; unsent.as_slice(), b"\xf5".as_slice());
    /// ```
    pub fn into_inner(self) -> (W, Vec<u8>)
        ensures writer { result.0 ≡ held_writer self }
        ensures unsent { result.1.items ≡ unsent_bytes self }
        ensures written { append_known (W.contents result.0) result.1.items
            ≡ buffered_contents W.contents self }
    {
        let BufferedWrite {
            writer,
            mut block,
            sent,
            held,
            fault: _,
        } = self;
        block.truncate(held);
        block.drain(..sent);
        (writer, block)
    }

    // Sends what is held. What the writer doesn't take stays.
    fn send_block(&mut self) -> io::Result<()>
        ensures kept { Keeps (buffered_contents W.contents self.old)
            (buffered_contents W.contents self.new) }
        ensures emptied { OnOk result (self.new.held ≡ 0) }
        ensures same_block { vec_len self.new.block ≡ vec_len self.old.block }
    {
        let (count, answer) = send(&mut self.writer, &self.block[self.sent..self.held], 0);
        self.sent += count;
        answer?;
        self.sent = 0;
        self.held = 0;
        Ok(())
    }

    // Puts a piece into the block.
    #[inline(always)]
    fn hold(&mut self, piece: &[u8])
        requires { self.old.held + length piece.now ≤ vec_len self.old.block }
        ensures { Appends (buffered_contents W.contents self.old)
            (buffered_contents W.contents self.new) piece.now }
    {
        let end = self.held + piece.len();
        self.block[self.held..end].copy_from_slice(piece);
        self.held = end;
    }

    // Sends the block before a piece that it has no room for, and a piece of a block's length or
    // more by itself.
    fn write_through(&mut self, piece: &[u8]) -> io::Result<()>
        ensures { Wrote (buffered_contents W.contents self.old) piece.now
            (buffered_contents W.contents self.new) result }
    {
        self.send_block()?;
        if piece.len() < self.block.len() {
            self.hold(piece);
            return Ok(());
        }
        let (_, answer) = send(&mut self.writer, piece, 0);
        answer
    }

    // The same. A fault is left in the sink: where a result holds it, each piece for which there is
    // room clears a place for it.
    #[cold]
    #[inline(never)]
    fn write_past_block(&mut self, piece: &[u8]) -> std::result::Result<(), PieceRefused>
        ensures { Wrote (buffered_contents W.contents self.old) piece.now
            (buffered_contents W.contents self.new) result }
    {
        match self.write_through(piece) {
            Ok(()) => Ok(()),
            Err(fault) => {
                self.fault = fault;
                Err(PieceRefused)
            }
        }
    }
}

impl<W: io::Write> Write for BufferedWrite<W> {
    ghost use Rattle.cbor_io.specs.Write.{IsFault};
    ghost use Rattle.cbor_writer.specs.Unsent.{buffered_contents};

    ghost written = { buffered_contents W.contents };

    ghost refuses = { λ _ e. IsFault e };

    #[inline(always)]
    fn write_all(&mut self, buf: &[u8]) -> Result<()> {
        if self.block.len() - self.held < buf.len() {
            return match self.write_past_block(buf) {
                Ok(()) => Ok(()),
                Err(PieceRefused) => Err(Error::from(self.fault)),
            };
        }
        self.hold(buf);
        Ok(())
    }
}

// Neither what is held nor the writer is printed: they may hold what is no reader's to see.
impl<W> fmt::Debug for BufferedWrite<W> {
    fn fmt<F: fmt::Write>(&self, f: &mut fmt::Formatter<F>) -> fmt::Result {
        f.debug_struct("BufferedWrite")
            .field("held", &(self.held - self.sent))
            .finish_non_exhaustive()
    }
}

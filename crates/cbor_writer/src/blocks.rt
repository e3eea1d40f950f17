//! A sink before a writer of the standard library, which holds a block.

ghost use Rattle.std.specs.Prelude.{◌≡◌, ◌+◌, ◌^◌, ◌<◌, ◌≤◌, length, take, IfErr, OnOk};
ghost use Rattle.std.specs.Io.KnownBytes.{Appends, Keeps};

use crate::send::{PieceRefused, send};
use cbor_io::error::{Error, Result};
use cbor_io::write::Write;
use std::io;
use std::io::ErrorKind;

// How many bytes the block holds.
const BLOCK: usize = 1024;

// What is written is held in the block until that is full.
#[derive(Drop)]
pub(super) struct Blocks<'a, W> {
    writer: &'a mut W,
    block: [u8; BLOCK],
    // `block[from..held]` is to be sent.
    from: usize,
    held: usize,
    // How many bytes the writer took.
    sent: u64,
    // why the last piece that was refused was
    fault: io::Error,
    ghost whole: { length block ≡ 1024 },
    ghost ordered: { from ≤ held },
    ghost within: { held ≤ 1024 },
}

impl<'a, W: io::Write> Blocks<'a, W> {
    ghost use Rattle.std.specs.Prelude.{[]};
    ghost use Rattle.cbor_io.specs.Write.{IsFault, Wrote};
    ghost use Rattle.cbor_writer.specs.Held.{contents_of, given_to, reference_of, unsent_in};
    ghost use Rattle.cbor_writer.specs.GivenByBlocks.{given};

    // The writer, with nothing held.
    pub(super) fn new(writer: &'a mut W) -> Blocks<'a, W>
        ensures begun { given_to W.contents result ≡ given (W.contents writer.entry.now) 0 [] }
        ensures same_reference { reference_of result ≡ writer.entry.ghost_name }
    {
        Blocks {
            writer,
            block: [0; BLOCK],
            from: 0,
            held: 0,
            sent: 0,
            fault: io::Error::from(ErrorKind::Other),
        }
    }

    // Sends what is held.
    pub(super) fn finish(&mut self) -> Result<()>
        ensures sent { Wrote (contents_of W.contents self.old) (unsent_in self.old)
            (contents_of W.contents self.new) result }
        ensures refused { IfErr result IsFault }
        ensures same_reference { reference_of self.new ≡ reference_of self.old }
    {
        match self.send_block() {
            Ok(()) => Ok(()),
            Err(fault) => Err(Error::from(fault)),
        }
    }

    // Sends what is held. What the writer doesn't take stays.
    fn send_block(&mut self) -> io::Result<()>
        ensures kept { Keeps (given_to W.contents self.old) (given_to W.contents self.new) }
        ensures sent { Wrote (contents_of W.contents self.old) (unsent_in self.old)
            (contents_of W.contents self.new) result }
        ensures all { OnOk result (self.new.from ≡ self.new.held) }
        ensures same_reference { reference_of self.new ≡ reference_of self.old }
    {
        let block: &[u8] = &self.block;
        let (count, answer) = send(self.writer, &block[self.from..self.held], self.sent);
        self.from += count;
        self.sent += count as u64;
        answer
    }

    // Puts a piece into the block.
    #[inline(always)]
    fn hold(&mut self, piece: &[u8])
        requires { self.old.held + length piece.now ≤ 1024 }
        ensures given { Appends (given_to W.contents self.old) (given_to W.contents self.new)
            piece.now }
        ensures same_reference { reference_of self.new ≡ reference_of self.old }
    {
        let end = self.held + piece.len();
        self.block[self.held..end].copy_from_slice(piece);
        self.held = end;
    }

    // Sends the block before a piece that it has no room for, and a piece of a block's length or
    // more by itself.
    fn write_through(&mut self, piece: &[u8]) -> io::Result<()>
        ensures given { Wrote (given_to W.contents self.old) piece.now
            (given_to W.contents self.new) result }
        ensures same_reference { reference_of self.new ≡ reference_of self.old }
    {
        self.send_block()?;
        self.from = 0;
        self.held = 0;
        if piece.len() < BLOCK {
            self.hold(piece);
            return Ok(());
        }
        let (count, answer) = send(self.writer, piece, self.sent);
        self.sent += count as u64;
        answer
    }

    // The same. A fault is left in the sink: where a result holds it, each piece for which there is
    // room clears a place for it.
    #[cold]
    #[inline(never)]
    fn write_past_block(&mut self, piece: &[u8]) -> std::result::Result<(), PieceRefused>
        ensures given { Wrote (given_to W.contents self.old) piece.now
            (given_to W.contents self.new) result }
        ensures same_reference { reference_of self.new ≡ reference_of self.old }
    {
        match self.write_through(piece) {
            Ok(()) => Ok(()),
            Err(fault) => {
                self.fault = fault;
                Err(PieceRefused)
            }
        }
    }
}

impl<W: io::Write> Write for Blocks<'_, W> {
    ghost use Rattle.std.specs.Prelude.{[], ◌∷◌};
    ghost use Rattle.cbor_io.specs.Write.{IsFault};
    ghost use Rattle.cbor_writer.specs.Held.{given_to, reference_of};

    ghost written = { given_to W.contents };

    ghost refuses = { λ _ e. IsFault e };

    ghost references = { λ s. reference_of s ∷ [] };

    #[inline(always)]
    fn write_all(&mut self, buf: &[u8]) -> Result<()> {
        if BLOCK - self.held < buf.len() {
            return match self.write_past_block(buf) {
                Ok(()) => Ok(()),
                Err(PieceRefused) => Err(Error::from(self.fault)),
            };
        }
        self.hold(buf);
        Ok(())
    }
}

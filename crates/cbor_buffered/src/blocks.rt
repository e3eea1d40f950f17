//! The blocks that a source reads ahead into: one in memory of its own, and one that stands in the
//! source itself.

ghost use Rattle.std.specs.Prelude.{◌≡◌, ◌<◌, ◌≤◌, List, ℕ, length, take, drop, IfOk};
ghost use Rattle.std.specs.Io.{ReadsAtMost};
ghost use Rattle.std.specs.Io.KnownBytes.{ReadConsumes};

use std::alloc::{AllocError, Global};
use std::io;

// How many bytes a block in memory of its own holds.
const HEAP: usize = 8192;

// How many bytes a block in the source holds.
const INLINE: usize = 1024;

// How many bytes a block has room for behind what it has, where more is read there.
pub(super) const ROOM: usize = 512;

/// A block of bytes, which a reader fills from the front.
pub trait Block {
    // how many bytes it holds
    ghost size: { ℕ };

    // those bytes
    ghost held: { Self → List ℕ };

    /// The bytes that it holds.
    fn bytes(&self) -> &[u8]
        ensures { result.now ≡ held self.now };

    /// Reads into its front, by one call of the reader, and returns how many bytes came.
    fn read_from<R: io::Read>(&mut self, reader: &mut R) -> io::Result<usize>
        ensures bound { ReadsAtMost result (held self.new) }
        ensures bytes { ReadConsumes (R.remaining reader.old) (R.remaining reader.new) result
            (held self.new) };

    /// Reads behind its first `at` bytes, by one call of the reader, and returns how many bytes
    /// came. The first stay.
    fn read_behind<R: io::Read>(&mut self, at: usize, reader: &mut R) -> io::Result<usize>
        requires { at ≤ size }
        ensures kept { take at (held self.new) ≡ take at (held self.old) }
        ensures bound { ReadsAtMost result (drop at (held self.new)) }
        ensures bytes { ReadConsumes (R.remaining reader.old) (R.remaining reader.new) result
            (drop at (held self.new)) };

    ghost whole: { (b : Self) → length (held b) ≡ size };

    ghost some: { 0 < size };
}

/// A block in memory of its own, of 8 KiB.
#[derive(Drop)]
pub struct HeapBlock {
    bytes: Vec<u8>,
    ghost whole: { length bytes.items ≡ 8192 },
}

impl HeapBlock {
    // `AllocError` where there is no memory for it.
    pub(super) fn new(alloc: Global) -> Result<HeapBlock, AllocError> {
        let bytes = vec![in alloc; 0; HEAP]?;
        Ok(HeapBlock { bytes })
    }

    // The memory that it stands in.
    pub(super) fn into_vec(self) -> Vec<u8>
        ensures { result ≡ self.bytes }
    {
        self.bytes
    }
}

impl Block for HeapBlock {
    ghost use Rattle.std.proofs.Common.{rules};

    ghost size = { 8192 };

    ghost held = { λ b. b.bytes.items };

    #[inline(always)]
    fn bytes(&self) -> &[u8] {
        &self.bytes
    }

    #[inline(always)]
    fn read_from<R: io::Read>(&mut self, reader: &mut R) -> io::Result<usize> {
        reader.read(&mut self.bytes)
    }

    #[inline(always)]
    fn read_behind<R: io::Read>(&mut self, at: usize, reader: &mut R) -> io::Result<usize> {
        reader.read(&mut self.bytes[at..])
    }

    ghost whole = { λ b. b.whole };

    ghost some = { Prim.search rules };
}

/// A block that stands in the source itself, of 1 KiB.
#[derive(Drop)]
pub struct InlineBlock {
    bytes: [u8; INLINE],
    ghost whole: { length bytes ≡ 1024 },
}

impl InlineBlock {
    #[inline(always)]
    pub(super) fn new() -> InlineBlock {
        InlineBlock { bytes: [0; INLINE] }
    }
}

impl Block for InlineBlock {
    ghost use Rattle.std.proofs.Common.{rules};

    ghost size = { 1024 };

    ghost held = { λ b. b.bytes };

    #[inline(always)]
    fn bytes(&self) -> &[u8] {
        &self.bytes
    }

    #[inline(always)]
    fn read_from<R: io::Read>(&mut self, reader: &mut R) -> io::Result<usize> {
        reader.read(&mut self.bytes)
    }

    #[inline(always)]
    fn read_behind<R: io::Read>(&mut self, at: usize, reader: &mut R) -> io::Result<usize> {
        reader.read(&mut self.bytes[at..])
    }

    ghost whole = { λ b. b.whole };

    ghost some = { Prim.search rules };
}

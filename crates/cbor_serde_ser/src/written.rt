//! The bytes that are written so far.

ghost use Rattle.std.specs.Prelude.{◌≡◌, ◌≤◌, ◌+◌, ◌++◌, ◌∷◌, ℕ, List, [], length, take, drop, OnOk};

use std::alloc::{AllocError, Global};
use std::marker::Model;

/// What a step that only allocates returns.
pub(crate) type Appended = std::result::Result<(), AllocError>;

/// How many bytes of room are made ready at once.
const ROOM: usize = 1024;

/// Bytes to which more are appended. A piece is copied to room that is ready, which takes fewer
/// instructions than to append it to a vector.
#[derive(Drop)]
pub(crate) struct Written {
    // The bytes, and room behind them.
    block: Vec<u8>,
    len: usize,
}

impl Model for Written {
    ghost Value = { List ℕ };

    ghost view = { λ w. take w.len w.block.items };

    ghost invariant = { λ w. w.len ≤ length w.block.items };
}

// Copies a piece to this place.
#[inline(always)]
fn copy_to(block: &mut [u8], at: usize, piece: &[u8])
    requires { at + length piece.now ≤ length block.old }
    ensures { block.new
        ≡ take at block.old ++ (piece.now ++ drop (at + length piece.now) block.old) }
{
    block[at..at + piece.len()].copy_from_slice(piece);
}

impl Written {
    /// Nothing is written.
    pub(crate) fn new(alloc: Global) -> Written
        ensures { result ≡ [] }
    {
        Written {
            block: Vec::new(alloc),
            len: 0,
        }
    }

    /// How many bytes are written.
    pub(crate) fn len(&self) -> usize
        ensures { result ≡ length self.now }
    {
        self.len
    }

    /// The bytes as a vector.
    pub(crate) fn into_vec(self) -> Vec<u8>
        ensures { result.items ≡ self }
    {
        let Written { mut block, len } = self;
        block.truncate(len);
        block
    }

    /// Appends a piece.
    #[inline(always)]
    pub(crate) fn put(&mut self, piece: &[u8]) -> Appended
        ensures { OnOk result (self.new ≡ self.old ++ piece.now) }
    {
        if self.block.len() - self.len < piece.len() {
            return self.put_anew(piece);
        }
        let end = self.len + piece.len();
        copy_to(self.block.as_mut_slice(), self.len, piece);
        self.len = end;
        Ok(())
    }

    /// Appends a byte and a piece.
    #[inline(always)]
    pub(crate) fn put_behind(&mut self, first: u8, piece: &[u8]) -> Appended
        ensures { OnOk result (self.new ≡ self.old ++ first ∷ piece.now) }
    {
        if self.block.len() - self.len <= piece.len() {
            return self.put_both(first, piece);
        }
        let at = self.len + 1;
        let end = at + piece.len();
        self.block[self.len] = first;
        copy_to(self.block.as_mut_slice(), at, piece);
        self.len = end;
        Ok(())
    }

    // The same where no room is ready.
    #[inline(never)]
    fn put_both(&mut self, first: u8, piece: &[u8]) -> Appended
        ensures { OnOk result (self.new ≡ self.old ++ first ∷ piece.now) }
    {
        self.put_anew(&[first])?;
        self.put_anew(piece)
    }

    // Appends a piece, and makes room ready behind it.
    #[inline(never)]
    fn put_anew(&mut self, piece: &[u8]) -> Appended
        ensures { OnOk result (self.new ≡ self.old ++ piece.now) }
    {
        self.block.truncate(self.len);
        self.block.extend_from_slice(piece)?;
        self.len = self.block.len();
        let ready = self.block.capacity().min(self.len.saturating_add(ROOM));
        self.block.resize(ready.max(self.len), 0)
    }
}

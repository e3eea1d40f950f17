//! Sinks: what takes the bytes that are written.

use crate::error::Result;

mod io_write;
mod slice_write;

pub use io_write::IoWrite;
pub use slice_write::SliceWrite;

/// What takes bytes, piece by piece.
///
/// A head is one piece, and so is what a string holds. Implement it for a device of your own, or
/// pass a `Vec<u8>`, an [`IoWrite`], a [`SliceWrite`], or a `&mut` of any of these.
///
/// ```rust
/// let mut bytes: Vec<u8> = Vec::new(alloc);
/// bytes.write_all(b"\x61")?;
/// bytes.write_all(b"a")?;
/// assert_eq!(rt; bytes.as_slice(), b"\x61a".as_slice());
/// ```
///
/// A sink of one's own says in `written` which bytes it was given and in `refuses` which errors it
/// returns. One that holds a `&mut`, say in a field `to`, names it in `references`, as
/// `λ s. s.to.ghost_name ∷ []`. One that reports its bytes and refuses a piece only for want of
/// room says in `capacity` how many it takes in all, as `λ s. Some s.most`. Others leave these out,
/// as this one does:
///
/// ```rust
/// struct Counter { count: usize }
///
/// impl Write for Counter {
///     ghost written = { λ _. None };
///
///     ghost refuses = { λ _ _. ⊥ }; // no error
///
///     fn write_all(&mut self, buf: &[u8]) -> Result<()> {
///         self.count = self.count.saturating_add(buf.len());
///         Ok(())
///     }
/// }
/// ```
pub trait Write {
    ghost use Rattle.cbor_io.specs.Write.{Wrote, TakesWhatFits};
    ghost use Rattle.cbor_io.specs.declared.error.Error.{Error};
    ghost use Rattle.std.specs.Prelude.{◌≡◌, ℕ, List, [], Option, None, IfErr};

    // The bytes that it was given; None where it doesn't report them.
    ghost written: { Self → Option (List ℕ) };

    // Which errors it returns, by what the refusal leaves.
    ghost refuses: { Self → Error → Type 0 };

    // The references that it writes through, by their ghost names. Writing changes none of them, so
    // that what a reference leads to is known once the sink is gone.
    ghost references: { Self → List ℕ } = { λ _. [] };

    // How many bytes it takes in all, where it refuses none but a piece that goes beyond. A device,
    // which may fail, and a vector, which may find no memory, have no such capacity.
    ghost capacity: { Self → Option ℕ } = { λ _. None };

    /// Appends a piece to the bytes written, or refuses. What a refusal has appended is a prefix
    /// of the piece, nothing and all of it included. A sink that has a capacity refuses a piece
    /// only where it would hold more with it.
    fn write_all(&mut self, buf: &[u8]) -> Result<()>
        ensures written { Wrote (written self.old) buf.now (written self.new) result }
        ensures refused { IfErr result (λ e. refuses self.new e) }
        ensures same_references { references self.new ≡ references self.old }
        ensures same_capacity { capacity self.new ≡ capacity self.old }
        ensures fits { TakesWhatFits (capacity self.old) (written self.old) buf.now result };
}

/// It grows by each piece. Where a growth is refused it returns `OutOfMemory`, and stays as it was.
impl Write for Vec<u8> {
    ghost use Rattle.cbor_io.specs.Error.{IsOutOfMemory};
    ghost use Rattle.cbor_io.specs.Write.{Wrote};
    ghost use Rattle.std.specs.Prelude.{◌≡◌, Some, IfErr, OnErr};

    ghost written = { λ v. Some v.items };

    ghost refuses = { λ _ e. IsOutOfMemory e };

    fn write_all(&mut self, buf: &[u8]) -> Result<()>
        ensures written { Wrote (Some self.old.items) buf.now (Some self.new.items) result }
        ensures refused { IfErr result (λ e. IsOutOfMemory e) }
        ensures unchanged { OnErr result (self.new.items ≡ self.old.items) }
    {
        self.extend_from_slice(buf)?;
        Ok(())
    }
}

impl<W: Write> Write for &mut W {
    ghost use Rattle.std.specs.Prelude.{◌∷◌};

    ghost written = { λ w. W.written w.now };

    ghost refuses = { λ w e. W.refuses w.now e };

    ghost references = { λ w. w.ghost_name ∷ W.references w.now };

    ghost capacity = { λ w. W.capacity w.now };

    fn write_all(&mut self, buf: &[u8]) -> Result<()> {
        W::write_all(*self, buf)
    }
}

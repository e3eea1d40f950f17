// The bytes that a count was given. They exist only in proofs.
ghost use Rattle.std.specs.Prelude.{◌≡◌, ◌++◌, List, ℕ, []};
ghost use base.Fml.{ftrue};
ghost use Rattle.cbor_length.specs.Trace.{bytes_code};

use std::marker::Model;

#[derive(Drop)]
pub(crate) struct Trace {
    ghost bytes: { List ℕ } by { bytes_code },
}

impl Model for Trace {
    ghost also_owns = { λ _. ftrue };
}

// One piece of them.
#[derive(Clone, Copy, Drop)]
pub(crate) struct Piece<'a> {
    pub(crate) bytes: &'a [u8],
}

impl Trace {
    pub(crate) fn new() -> Trace
        ensures { result.bytes ≡ [] }
    {
        Trace {}
    }

    #[inline(always)]
    pub(crate) fn then(&self, _piece: &Piece<'_>) -> Trace
        ensures { result.bytes ≡ self.now.bytes ++ _piece.now.bytes.now }
    {
        Trace {}
    }
}

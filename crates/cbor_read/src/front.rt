//! What is left of a slice, where some bytes were taken from its front.

ghost use Rattle.std.specs.Prelude.{◌≡◌, ◌+◌, ◌++◌, ◌<◌, ◌≤◌, length, drop, IfOk, IfErr, OnOk};
ghost use Rattle.std.specs.Prelude.{OnErr};
ghost use Rattle.std.specs.Str.Lossy.{utf8_valid_len};
ghost use Rattle.cbor_io.specs.ReadError.{why, place};
ghost use Rattle.cbor_read.specs.Source.{first_of};
ghost use Rattle.cbor_io.specs.declared.read_error.ReadErrorCode.TheVariants as refusal;

use super::{ReadError, Result};
use cbor_io::utf8::from_utf8;
use std::alloc::AllocError;

// The next byte, where so many were taken; None at the end.
#[inline]
pub(super) fn byte_at(slice: &[u8], taken: usize) -> Option<u8>
    ensures { result ≡ first_of (drop taken slice.now) }
{
    slice.get(taken).copied()
}

// Where the next n bytes end.
#[inline]
pub(super) fn end_of(slice: &[u8], taken: usize, n: usize) -> Result<usize>
    requires { taken ≤ length slice.now }
    ensures ok { IfOk result (λ end. (end ≡ taken + n) × (end ≤ length slice.now)) }
    ensures err { IfErr result (λ e. (why e ≡ refusal.EofWhileParsingValue)
        × (place e ≡ length slice.now)
        × (length slice.now < taken + n)) }
{
    if n <= slice.len() - taken {
        Ok(taken + n)
    } else {
        Err(ReadError::eof(slice.len() as u64))
    }
}

// Appends a part to a vector. One that has no memory yet takes as much as the part needs: most
// strings are whole then.
#[inline(always)]
pub(super) fn append(out: &mut Vec<u8>, part: &[u8]) -> std::result::Result<(), AllocError>
    ensures ok { OnOk result (out.new.items ≡ out.old.items ++ part.now) }
    ensures err { OnErr result (out.new.items ≡ out.old.items) }
{
    if out.capacity() == 0 {
        out.reserve_exact(part.len())?;
    }
    out.extend_from_slice(part)?;
    Ok(())
}

// How many of these bytes, from the front, are UTF-8.
#[inline]
#[tactic(auto, using(crate::proofs::Inputs::all_valid))]
pub(super) fn valid_in(bytes: &[u8]) -> usize
    ensures { result ≡ utf8_valid_len bytes.now }
{
    match from_utf8(bytes) {
        Ok(text) => text.len(),
        Err(e) => e.valid_up_to(),
    }
}

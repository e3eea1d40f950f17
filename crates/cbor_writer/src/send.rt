//! Bytes to a writer of the standard library.

ghost use Rattle.std.specs.Prelude.{◌≡◌, ◌+◌, ◌^◌, ◌<◌, ◌≤◌, length, take, OnOk};
ghost use Rattle.std.specs.Io.KnownBytes.{Appends};

use std::io;
use std::io::ErrorKind;

/// A sink refused a piece, for the fault that is left in the sink.
pub(super) struct PieceRefused;

// Writes bytes until all are written or a write fails, and returns how many were, behind so many
// before. An interrupted write is tried again.
pub(super) fn send<W: io::Write>(
    writer: &mut W,
    bytes: &[u8],
    before: u64,
) -> (usize, io::Result<()>)
    ensures bound { result.0 ≤ length bytes.now }
    ensures counted { before + result.0 < 2 ^ 64 }
    ensures all { OnOk result.1 (result.0 ≡ length bytes.now) }
    ensures written { Appends (W.contents writer.old) (W.contents writer.new)
        (take result.0 bytes.now) }
{
    let mut sent = 0;
    if u64::MAX - before < bytes.len() as u64 {
        return (sent, Err(io::Error::from(ErrorKind::FileTooLarge)));
    }
    'tries: for _ in 0..u64::MAX {
        if sent == bytes.len() {
            return (sent, Ok(()));
        }
        match writer.write(&bytes[sent..]) {
            Ok(0) => return (sent, Err(io::Error::from(ErrorKind::WriteZero))),
            Ok(count) => sent += count,
            Err(fault) => {
                if fault.kind() != ErrorKind::Interrupted {
                    return (sent, Err(fault));
                }
            }
        }
    }
    (sent, Err(io::Error::from(ErrorKind::Interrupted)))
}

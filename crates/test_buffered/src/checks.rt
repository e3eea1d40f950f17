//! What the tests ask of a source. These promise nothing, so that a test of many calls carries no
//! facts from one to the next.

use crate::devices::Pieces;
use cbor_buffered::BufferedRead;
use cbor_io::error::Error;
use cbor_read::{EitherLifetime, Read, ReadError, ReadErrorCode, Source};
use std::alloc::Global;
use std::io::ErrorKind;
use std::process::Abort;
use std::test::Fail;
use test_checks::{Verdict, is_refused};

/// A source of these bytes, of which its reader gives so many a call.
pub fn in_pieces<'a>(
    alloc: Global,
    bytes: &'a [u8],
    piece: usize,
) -> Result<BufferedRead<Pieces<'a>>, ReadError> {
    BufferedRead::new(alloc, Pieces::new(bytes, piece))
}

/// The next byte is this one, or there is none.
pub fn is_next(rt: &impl Abort, source: &mut impl Source, want: Option<u8>) -> Verdict {
    assert!(rt; source.peek()? == want);
    assert!(rt; source.next()? == want);
    Ok(())
}

/// The next bytes are these.
pub fn is_read<'de>(rt: &impl Abort, source: &mut impl Read<'de>, want: &[u8]) -> Verdict {
    match source.read(want.len())? {
        EitherLifetime::Short(bytes) => assert!(rt; bytes == want),
        EitherLifetime::Long(_) => panic!(rt; "a reader lends nothing for longer"),
    }
    Ok(())
}

/// The next bytes, taken into a place of up to 16, are these.
pub fn is_filled(rt: &impl Abort, source: &mut impl Source, want: &[u8]) -> Verdict {
    let mut room = [0; 16];
    let place = &mut room[..want.len().min(16)];
    source.read_into(place)?;
    assert!(rt; &*place == want);
    Ok(())
}

/// The next bytes, taken behind a byte, are these.
pub fn is_behind(rt: &impl Abort, alloc: Global, source: &mut impl Source, want: &[u8]) -> Verdict {
    let mut out = Vec::from_slice(alloc, b"=")?;
    source.read_to_vec(want.len(), &mut out)?;
    assert!(rt; out.strip_prefix(b"=") == Some(want));
    Ok(())
}

/// The call was refused, with these words.
pub fn refused<T: Drop>(answer: Result<T, ReadError>, words: &str) -> Verdict {
    is_refused(answer.map_err(Error::from), words)
}

/// The call reports a fault of the reader, of this kind.
pub fn is_fault<T: Drop>(
    rt: &impl Abort,
    answer: Result<T, ReadError>,
    kind: ErrorKind,
) -> Verdict {
    let Err(e) = answer else {
        return Err(Fail::from("no fault"));
    };
    match e.code() {
        ReadErrorCode::Io(fault) => assert!(rt; fault.kind() == kind),
        _ => return Err(Fail::from(e)),
    }
    assert!(rt; e.offset() == 0);
    Ok(())
}

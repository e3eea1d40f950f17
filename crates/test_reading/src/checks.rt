//! What a test asks. These promise nothing, so that a test of many calls carries no facts from one
//! to the next.

use cbor_de::{Deserialize, Deserializer, Offset, SliceRead, Source};
use std::process::Abort;
use test_checks::{Verdict, is_refused};

/// The next item is read so.
pub fn gives<'a, T: Deserialize<'a, SliceRead<'a>> + PartialEq>(
    rt: &impl Abort,
    de: &mut Deserializer<SliceRead<'a>>,
    want: T,
) -> Verdict {
    assert!(rt; T::deserialize(de)? == want);
    Ok(())
}

/// The next item is refused with these words.
pub fn refuses<'a, T: Deserialize<'a, SliceRead<'a>>>(
    rt: &impl Abort,
    de: &mut Deserializer<SliceRead<'a>>,
    words: &str,
) -> Verdict {
    is_refused(T::deserialize(de), words)
}

/// So many bytes were taken.
pub fn has_taken<R: Source + Offset>(rt: &impl Abort, de: &Deserializer<R>, want: usize) {
    assert!(rt; de.byte_offset() == want);
}

/// Nothing follows.
pub fn ends_here(de: &mut Deserializer<SliceRead<'_>>) -> Verdict {
    de.end()?;
    Ok(())
}

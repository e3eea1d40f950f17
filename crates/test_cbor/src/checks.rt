//! What one row of a test asks. These promise nothing, so that a test of many rows carries no facts
//! from one to the next.

use serde_cbor::de::{Deserialize, SliceRead};
use serde_cbor::ser::Serialize;
use serde_cbor::{from_slice, to_vec};
use std::alloc::Global;
use std::process::Abort;
use test_checks::{Verdict, is_refused};

/// What refuses a number that CBOR doesn't store.
pub const UNSTORED: &str = "The number can't be stored in CBOR";

/// The value is written as these bytes.
pub fn is_written<T: Serialize>(
    rt: &impl Abort,
    alloc: Global,
    value: &T,
    bytes: &[u8],
) -> Verdict {
    let written = to_vec(alloc, value)?;
    assert!(rt; written.as_slice() == bytes);
    Ok(())
}

/// The bytes aren't read as this type, with these words.
pub fn is_unread<'a, T: Deserialize<'a, SliceRead<'a>> + Drop>(
    alloc: Global,
    bytes: &'a [u8],
    words: &str,
) -> Verdict {
    is_refused(from_slice::<T>(alloc, bytes), words)
}

//! What one row of a test asks. It promises nothing, so that a test of many rows carries no facts
//! from one to the next.

use cbor_de::{Deserialize, SliceRead, from_slice};
use cbor_ser::{Serialize, to_vec};
use std::alloc::Global;
use std::process::Abort;
use test_checks::Verdict;

/// The value is written as these bytes, and they are read as it.
pub fn is_encoded<'a, T: Serialize + PartialEq + Deserialize<'a, SliceRead<'a>>>(
    rt: &impl Abort,
    alloc: Global,
    value: T,
    bytes: &'a [u8],
) -> Verdict {
    assert!(rt; to_vec(alloc, &value)?.as_slice() == bytes);
    assert!(rt; from_slice::<T>(alloc, bytes)? == value);
    Ok(())
}

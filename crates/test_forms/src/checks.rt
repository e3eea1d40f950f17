//! What one row of a test asks. These promise nothing, so that a test of many rows carries no facts
//! from one to the next.

use cbor_forms::to_vec_deterministic;
use cbor_ser::Serialize;
use std::alloc::Global;
use std::process::Abort;
use test_checks::Verdict;

/// The value has this core deterministic encoding.
pub fn encodes<T: Serialize>(rt: &impl Abort, alloc: Global, value: &T, want: &[u8]) -> Verdict {
    assert!(rt; to_vec_deterministic(alloc, value)?.as_slice() == want);
    Ok(())
}

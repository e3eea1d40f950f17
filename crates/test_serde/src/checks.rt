//! What one row of a test asks. These promise nothing, so that a test of many rows carries no facts
//! from one to the next. A message says which row was answered otherwise.

use cbor_serde::{Options, Result as Answer, from_slice, to_vec, to_vec_with};
use serde::{Deserialize, Serialize};
use std::alloc::Global;
use std::fmt::InlineText;
use std::process::Abort;
use std::test::Fail;
use test_checks::Verdict;

/// The value is written as these bytes.
pub fn is_written<T: Serialize>(
    rt: &impl Abort,
    alloc: Global,
    value: &T,
    bytes: &[u8],
) -> Verdict {
    let written = to_vec(alloc, value)?;
    assert_eq!(rt; written.as_slice(), bytes);
    Ok(())
}

/// The value is written as these bytes by these options.
pub fn is_written_with<T: Serialize>(
    rt: &impl Abort,
    options: Options,
    alloc: Global,
    value: &T,
    bytes: &[u8],
) -> Verdict {
    let written = to_vec_with(options, alloc, value)?;
    assert_eq!(rt; written.as_slice(), bytes);
    Ok(())
}

/// The bytes are read as this.
pub fn is_read<'a, T: Deserialize<'a> + PartialEq>(
    rt: &impl Abort,
    alloc: Global,
    bytes: &'a [u8],
    expected: T,
) -> Verdict {
    let value: T = from_slice(alloc, bytes)?;
    assert!(rt; value == expected, "{bytes:?}");
    Ok(())
}

/// The call of this row was refused, with these words, for which no memory is taken.
pub fn is_refused_at<T: Drop>(row: usize, answer: Answer<T>, words: &str) -> Verdict {
    let Err(e) = answer else {
        return Err(Fail::new(format_args!("row {row}: not refused")));
    };
    if e.is_memory() {
        return Err(Fail::from(e));
    }
    if InlineText::<96>::of(&e).as_str() != words {
        return Err(Fail::new(format_args!("row {row}: {e}")));
    }
    Ok(())
}

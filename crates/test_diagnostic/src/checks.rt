//! What the tests ask of a notation. These promise nothing, so that a test of many rows carries no
//! facts from one to the next.

use cbor_de::from_slice;
use cbor_diagnostic::{Diagnostic, to_diagnostic, to_diagnostic_pretty};
use cbor_value::Value;
use hex::FromHexError;
use std::alloc::{AllocError, Global};
use std::process::Abort;
use std::test::Fail;
use test_checks::Verdict;

/// The value that the hexadecimal encodes.
fn value_of(alloc: Global, encoding: &str) -> Result<Value, Fail> {
    let bytes = hex::decode(alloc, encoding).map_err(|e| match e {
        FromHexError::OutOfMemory => Fail::from(AllocError),
        _ => Fail::from("not hexadecimal"),
    })?;
    Ok(from_slice(alloc, &bytes)?)
}

/// The item is shown so, on one line.
pub fn is_shown(rt: &impl Abort, alloc: Global, encoding: &str, want: &str) -> Verdict {
    let value = value_of(alloc, encoding)?;
    assert_eq!(rt; to_diagnostic(alloc, &value)?.as_str(), want);
    assert_eq!(rt; format!(in alloc; "{}", Diagnostic(&value))?.as_str(), want);
    Ok(())
}

/// The item is shown so, over lines.
pub fn is_shown_pretty(rt: &impl Abort, alloc: Global, encoding: &str, want: &str) -> Verdict {
    let value = value_of(alloc, encoding)?;
    assert_eq!(rt; to_diagnostic_pretty(alloc, &value)?.as_str(), want);
    assert_eq!(rt;
        format!(in alloc; "{:#}", Diagnostic(&value))?.as_str(),
        want
    );
    Ok(())
}

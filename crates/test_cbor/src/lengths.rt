//! How long encodings are: the lengths of RFC 8949's examples (Appendix A), and of other settings.

use crate::checks::UNSTORED;
use samples::structs::SmallStruct;
use serde_cbor::ser::{ByteCount, Serialize};
use serde_cbor::{Serializer, Value, encoded_len, from_slice};
use std::alloc::Global;
use std::process::Abort;
use test_checks::{Verdict, is_refused};

/// The encoding of the value is so long.
fn is_long<T: Serialize>(rt: &impl Abort, alloc: Global, value: &T, length: u64) -> Verdict {
    assert!(rt; encoded_len(alloc, value)? == length);
    Ok(())
}

#[test]
fn a_value_is_as_long_as_its_encoding(rt: HostRuntime) -> Verdict {
    let alloc = rt.alloc();
    for (number, length) in [(0i128, 1), (1_000_000, 5), (-18_446_744_073_709_551_616, 9)] {
        is_long(&rt, alloc, &number, length)?;
    }
    is_long(&rt, alloc, &"IETF", 5)?;
    // {"a": 1, "b": [2, 3]}
    let value: Value = from_slice(alloc, b"\xbf\x61a\x01\x61b\x9f\x02\x03\xff\xff")?;
    is_long(&rt, alloc, &value, 9)
}

#[test]
fn a_number_that_is_not_stored_has_no_length(rt: HostRuntime) -> Verdict {
    is_refused(encoded_len(rt.alloc(), &(1u8, 1u128 << 64)), UNSTORED)
}

// {"spam": 17, "eggs": 42}, and {0: 17, 1: 42} before true.
#[test]
fn a_count_tells_the_length_in_any_form(rt: HostRuntime) -> Verdict {
    let alloc = rt.alloc();
    let small = SmallStruct { spam: 17, eggs: 42 };
    is_long(&rt, alloc, &small, 14)?;
    let mut ser = Serializer::new(alloc, ByteCount::new()).packed_format();
    ser.serialize_some(&small)?;
    ser.serialize_bool(true)?;
    assert!(&rt; ser.into_inner().count() == 7);
    Ok(())
}

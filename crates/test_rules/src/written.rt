//! What a form's call writes, read by the form's rules.

use crate::checks::{error_of, value_of};
use cbor_de::from_slice;
use cbor_rules::{
    Refusal, write_and_read_dcbor, write_and_read_deterministic, write_and_read_length_first,
};
use cbor_value::{Float, Map, Value};
use std::alloc::Global;
use std::process::Abort;
use std::test::Fail;
use test_checks::{Verdict, is_refused};

const UNSTORED: &str = "The number can't be stored in CBOR";

const TOO_DEEP: &str = "recursion limit exceeded at offset 128";

/// What is read is the value that these bytes encode.
fn has_read(
    rt: &impl Abort,
    alloc: Global,
    answer: Result<Value, Refusal>,
    bytes: &[u8],
) -> Verdict {
    let expected: Value = from_slice(alloc, bytes)?;
    assert!(rt; value_of(answer)? == expected);
    Ok(())
}

/// It is refused with these words, and not for a departure.
fn is_unread(answer: Result<Value, Refusal>, words: &str) -> Verdict {
    let e = error_of(answer)?;
    is_refused::<Value>(Err(e), words)
}

/// Each form refuses the value with these words, dCBOR with its own.
fn none_has_read(alloc: Global, value: &Value, words: &str, in_dcbor: &str) -> Verdict {
    is_unread(write_and_read_deterministic(alloc, value), words)?;
    is_unread(write_and_read_length_first(alloc, value), words)?;
    is_unread(write_and_read_dcbor(alloc, value), in_dcbor)
}

/// Null in so many arrays, one in another.
fn nested(alloc: Global, levels: u8) -> Result<Value, Fail> {
    let mut value = Value::Null;
    for _ in 0..levels {
        value = Value::Array(vec![in alloc; value]?);
    }
    Ok(value)
}

// 1.5 and -4.0 of 64 bits, of which RFC 8949, Appendix A, has the shortest encodings; in dCBOR
// -4.0 is -4.
#[test]
fn reads_back_what_a_form_writes(rt: HostRuntime) -> Verdict {
    let alloc = rt.alloc();
    let numbers = (1.5f64, -4.0f64);
    let shortest = b"\x82\xf9\x3e\0\xf9\xc4\0";
    let read = write_and_read_deterministic(alloc, &numbers);
    has_read(&rt, alloc, read, shortest)?;
    let read = write_and_read_length_first(alloc, &numbers);
    has_read(&rt, alloc, read, shortest)?;
    let read = write_and_read_dcbor(alloc, &numbers);
    has_read(&rt, alloc, read, b"\x82\xf9\x3e\0\x23")
}

// docs/FORMAT.md has the words: 2^64; 1.0 of 16 and of 32 bits as keys; and -2^63 - 1, which dCBOR
// alone doesn't have.
#[test]
fn tells_why_a_form_writes_nothing(rt: HostRuntime) -> Verdict {
    let alloc = rt.alloc();
    none_has_read(alloc, &Value::Integer(1 << 64), UNSTORED, UNSTORED)?;
    let pairs = vec![in alloc;
        (Value::Float(Float::Half(0x3c00)), Value::Null),
        (Value::Float(Float::Single(0x3f80_0000)), Value::Null),
    ]?;
    none_has_read(
        alloc,
        &Value::Map(Map::from_pairs(pairs)?),
        "Two keys of a map are equal with floats at their shortest",
        "Two keys of a map are equal as dCBOR's numbers",
    )?;
    let low = i64::MIN as i128 - 1;
    is_unread(
        write_and_read_dcbor(alloc, &low),
        "An integer is below -2^63",
    )?;
    let read = write_and_read_deterministic(alloc, &low);
    has_read(&rt, alloc, read, b"\x3b\x80\0\0\0\0\0\0\0")
}

// 127 arrays are read; of 128, the head of the last ends at offset 128.
#[test]
fn tells_what_is_nested_too_deep(rt: HostRuntime) -> Verdict {
    let alloc = rt.alloc();
    none_has_read(alloc, &nested(alloc, 128)?, TOO_DEEP, TOO_DEEP)?;
    let value = nested(alloc, 127)?;
    let mut bytes = [0x81; 128];
    bytes[127] = 0xf6;
    let read = write_and_read_deterministic(alloc, &value);
    has_read(&rt, alloc, read, &bytes)?;
    let read = write_and_read_length_first(alloc, &value);
    has_read(&rt, alloc, read, &bytes)?;
    let read = write_and_read_dcbor(alloc, &value);
    has_read(&rt, alloc, read, &bytes)
}

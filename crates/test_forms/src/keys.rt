//! Maps: the order of their keys, and keys that become equal.

use crate::checks::encodes;
use cbor_forms::{shortened, to_vec_deterministic, to_vec_length_first};
use cbor_value::{Float, Map, Value};
use std::alloc::Global;
use test_checks::{Verdict, is_refused};

const EQUAL_KEYS: &str = "Two keys of a map are equal with floats at their shortest";

// The keys of RFC 8949, section 4.2.1, from the last to the first, each with null.
fn example(alloc: Global) -> cbor_io::error::Result<Value> {
    let pairs = vec![in alloc;
        (Value::Bool(false), Value::Null),
        (
            Value::Array(vec![in alloc; Value::Integer(-1)]?),
            Value::Null
        ),
        (
            Value::Array(vec![in alloc; Value::Integer(100)]?),
            Value::Null
        ),
        (Value::Text(String::from_str(alloc, "aa")?), Value::Null),
        (Value::Text(String::from_str(alloc, "z")?), Value::Null),
        (Value::Integer(-1), Value::Null),
        (Value::Integer(100), Value::Null),
        (Value::Integer(10), Value::Null),
    ]?;
    Ok(Value::Map(Map::from_pairs(pairs)?))
}

// The order that section 4.2.1 lists.
#[test]
fn writes_keys_in_the_order_of_their_bytes(rt: HostRuntime) -> Verdict {
    let want =
        b"\xa8\x0a\xf6\x18\x64\xf6\x20\xf6\x61z\xf6\x62aa\xf6\x81\x18\x64\xf6\x81\x20\xf6\xf4\xf6";
    encodes(&rt, rt.alloc(), &example(rt.alloc())?, want.as_slice())
}

// 1.5 of 32 bits stands after 2.0 of 16 bits, and 1.5 of 16 bits before it.
#[test]
fn puts_pairs_in_order_anew(rt: HostRuntime) -> Verdict {
    let alloc = rt.alloc();
    let pairs = vec![in alloc;
        (Value::Float(Float::Half(0x4000)), Value::Integer(2)),
        (Value::Float(Float::Single(0x3fc0_0000)), Value::Integer(1)),
    ]?;
    let map = Value::Map(Map::from_pairs(pairs)?);
    let want = b"\xa2\xf9\x3e\0\x01\xf9\x40\0\x02";
    encodes(&rt, alloc, &map, want.as_slice())
}

#[test]
fn refuses_keys_that_become_equal(rt: HostRuntime) -> Verdict {
    let alloc = rt.alloc();
    let pairs = vec![in alloc;
        (Value::Float(Float::Half(0x3c00)), Value::Integer(1)),
        (Value::Float(Float::Single(0x3f80_0000)), Value::Integer(2)),
    ]?;
    let map = Value::Map(Map::from_pairs(pairs)?);
    is_refused(shortened(alloc, &map), EQUAL_KEYS)?;
    is_refused(to_vec_deterministic(alloc, &map), EQUAL_KEYS)?;
    let array = Value::Array(vec![in alloc; Value::Null, map]?);
    is_refused(to_vec_deterministic(alloc, &array), EQUAL_KEYS)
}

#[test]
fn refuses_numbers_that_are_too_far_out(rt: HostRuntime) -> Verdict {
    let answer = to_vec_deterministic(rt.alloc(), &Value::Integer(1 << 64));
    is_refused(answer, "The number can't be stored in CBOR")
}

// The order that section 4.2.3 lists.
#[test]
fn writes_shorter_keys_first(rt: HostRuntime) -> Verdict {
    let alloc = rt.alloc();
    let want =
        b"\xa8\x0a\xf6\x20\xf6\xf4\xf6\x18\x64\xf6\x61z\xf6\x81\x20\xf6\x62aa\xf6\x81\x18\x64\xf6";
    let bytes = to_vec_length_first(alloc, &example(alloc)?)?;
    assert_eq!(rt; bytes.as_slice(), want.as_slice());
    Ok(())
}

//! Values: their order, copies and conversions.

use crate::checks::{tag, text};
use cbor_value::{Float, Map, Value};
use std::alloc::{AllocError, Global};
use std::cmp::Ordering;
use std::process::Abort;
use test_checks::Verdict;

// The checks below promise nothing, so that a test of many rows carries no facts from one to the
// next.

fn bytes(alloc: Global, bytes: &[u8]) -> Result<Value, AllocError> {
    Ok(Value::Bytes(bytes.to_owned(alloc)?))
}

/// The value is this one.
fn is_value(rt: &impl Abort, made: Value, want: Value) {
    assert_eq!(rt; made, want);
}

/// The copy of the value is the value.
fn is_copied(rt: &impl Abort, alloc: Global, value: &Value) -> Verdict {
    assert_eq!(rt; value.clone(alloc)?, *value);
    Ok(())
}

/// The list, sorted from its reverse, is the list again.
fn stands_sorted(rt: &impl Abort, alloc: Global, list: &[Value]) -> Verdict {
    let mut sorted = Vec::new(alloc);
    for value in list.iter().rev() {
        sorted.push(value.clone(alloc)?)?;
    }
    sorted.sort()?;
    assert_eq!(rt; sorted.as_slice(), list);
    Ok(())
}

#[test]
fn sorts_integers(rt: HostRuntime) -> Verdict {
    let mut list = Vec::new(rt.alloc());
    for i in [
        0,
        23,
        24,
        255,
        256,
        65535,
        65536,
        4294967295,
        -1,
        -24,
        -25,
        -256,
        -257,
        -65536,
        -65537,
        -4294967296,
    ] {
        list.push(Value::Integer(i))?;
    }
    stands_sorted(&rt, rt.alloc(), &list)?;
    let least = Value::Integer(i128::MIN);
    assert_eq!(rt;
        least.cmp(&Value::Integer(-18446744073709551616)),
        Ordering::Greater
    );
    Ok(())
}

#[test]
fn sorts_texts(rt: HostRuntime) -> Verdict {
    let alloc = rt.alloc();
    let mut list = Vec::new(alloc);
    for word in ["", "a", "b", "aa"] {
        list.push(text(alloc, word)?)?;
    }
    stands_sorted(&rt, alloc, &list)
}

#[test]
fn sorts_byte_strings(rt: HostRuntime) -> Verdict {
    let alloc = rt.alloc();
    let mut list = Vec::new(alloc);
    for string in [&[][..], &[0], &[1], &[0, 0]] {
        list.push(bytes(alloc, string)?)?;
    }
    stands_sorted(&rt, alloc, &list)
}

#[test]
fn sorts_simple_values(rt: HostRuntime) -> Verdict {
    stands_sorted(
        &rt,
        rt.alloc(),
        &[Value::Bool(false), Value::Bool(true), Value::Null],
    )
}

#[test]
fn sorts_floats_by_width(rt: HostRuntime) {
    let ascending = [
        Float::Half(0),
        Float::Half(0xffff),
        Float::Single(0),
        Float::Single(u32::MAX),
        Float::Double(0),
        Float::Double(u64::MAX),
    ];
    for (i, a) in ascending.iter().enumerate() {
        for (j, b) in ascending.iter().enumerate() {
            assert_eq!(rt; a.cmp(b), i.cmp(&j));
            assert_eq!(rt; a == b, i == j);
        }
    }
}

#[test]
fn sorts_kinds(rt: HostRuntime) -> Verdict {
    let alloc = rt.alloc();
    stands_sorted(
        &rt,
        alloc,
        &[
            Value::Integer(0),
            Value::Integer(-1),
            bytes(alloc, &[])?,
            text(alloc, "")?,
            Value::Null,
        ],
    )
}

#[test]
fn sorts_keys(rt: HostRuntime) -> Verdict {
    let alloc = rt.alloc();
    let mut list = vec![in alloc; Value::Integer(10), Value::Integer(100), Value::Integer(-1)]?;
    list.push(text(alloc, "z")?)?;
    list.push(text(alloc, "aa")?)?;
    list.push(array_of(alloc, 100)?)?;
    list.push(array_of(alloc, -1)?)?;
    list.push(Value::Bool(false))?;
    stands_sorted(&rt, alloc, &list)
}

/// The array of this number alone.
fn array_of(alloc: Global, i: i128) -> Result<Value, AllocError> {
    Ok(Value::Array(vec![in alloc; Value::Integer(i)]?))
}

#[test]
fn copies_values(rt: HostRuntime) -> Verdict {
    let alloc = rt.alloc();
    is_copied(&rt, alloc, &Value::Null)?;
    is_copied(&rt, alloc, &Value::Float(Float::Single(0x7fc0_0001)))?;
    is_copied(&rt, alloc, &bytes(alloc, b"\x01\x02")?)?;
    let mut map = Map::new(alloc);
    map.insert(Value::Integer(1), Value::Null)?;
    is_copied(&rt, alloc, &tag(alloc, 55799, Value::Map(map))?)
}

#[test]
fn makes_values_of_signed_numbers(rt: HostRuntime) {
    is_value(&rt, Value::from(-1i8), Value::Integer(-1));
    is_value(&rt, Value::from(i16::MIN), Value::Integer(-32768));
    is_value(&rt, Value::from(-3i32), Value::Integer(-3));
    is_value(
        &rt,
        Value::from(i64::MIN),
        Value::Integer(-9223372036854775808),
    );
}

#[test]
fn makes_values_of_unsigned_numbers(rt: HostRuntime) {
    is_value(&rt, Value::from(255u8), Value::Integer(255));
    is_value(&rt, Value::from(6u16), Value::Integer(6));
    is_value(&rt, Value::from(7u32), Value::Integer(7));
    is_value(
        &rt,
        Value::from(u64::MAX),
        Value::Integer(18446744073709551615),
    );
}

#[test]
fn makes_values_of_other_types(rt: HostRuntime) -> Verdict {
    let alloc = rt.alloc();
    is_value(&rt, Value::from(true), Value::Bool(true));
    let one = Float::Half(0x3c00);
    is_value(&rt, Value::from(one), Value::Float(Float::Half(0x3c00)));
    let made = Value::from(Vec::from_slice(alloc, b"ab")?);
    is_value(&rt, made, bytes(alloc, b"ab")?);
    let made = Value::from("ab".to_owned(alloc)?);
    is_value(&rt, made, text(alloc, "ab")?);
    let made = Value::from(vec![in alloc; Value::Null]?);
    is_value(&rt, made, Value::Array(vec![in alloc; Value::Null]?));
    let made = Value::from(Map::new(alloc));
    is_value(&rt, made, Value::Map(Map::new(alloc)));
    Ok(())
}

//! What values of types stand for and are written as, and what values are read as.

use crate::checks::{UNSTORED, is_written};
use serde_cbor::Value;
use serde_cbor::round_trip::write_and_read;
use serde_cbor::tags::Tagged;
use serde_cbor::value::{Map, ToValue, from_value, to_value};
use std::alloc::{AllocError, Global};
use std::test::Fail;
use test_checks::{Verdict, is_refused};

#[test]
fn keeps_a_tag(rt: HostRuntime) -> Verdict {
    let alloc = rt.alloc();
    let tagged = to_value(alloc, &Tagged::new(Some(1), 5u8))?;
    is_written(&rt, alloc, &tagged, b"\xc1\x05")?;
    let number: u8 = from_value(alloc, tagged.to_value(alloc)?)?;
    assert!(rt; number == 5);
    let again: Tagged<u8> = from_value(alloc, tagged)?;
    assert!(rt; again.tag == Some(1));
    assert!(rt; again.value == 5);
    Ok(())
}

#[test]
fn makes_a_value_within_a_tag(rt: HostRuntime) -> Verdict {
    for (tag, bytes) in [(Some(24), b"\xd8\x18\x05".as_slice()), (None, b"\x05")] {
        is_written(&rt, rt.alloc(), &Tagged::new(tag, 5u8), bytes)?;
    }
    Ok(())
}

/// What an integer is read as where a float is wanted.
fn float_of(alloc: Global, number: i128) -> serde_cbor::Result<f64> {
    from_value(alloc, Value::Integer(number))
}

#[test]
fn reads_an_integer_as_a_float(rt: HostRuntime) -> Verdict {
    let alloc = rt.alloc();
    assert!(rt; float_of(alloc, -52)? == -52.0);
    let too_long = float_of(alloc, (1 << 53) + 1);
    is_refused(too_long, "integer out of range: expected f64")
}

#[test]
fn reads_again_what_it_wrote(rt: HostRuntime) -> Verdict {
    let alloc = rt.alloc();
    let again: (u32, Option<bool>) = write_and_read(alloc, &(500u32, Some(true)))?;
    assert!(rt; again == (500, Some(true)));
    Ok(())
}

#[test]
fn reads_again_eight_parts(rt: HostRuntime) -> Verdict {
    let alloc = rt.alloc();
    let parts = (1u8, true, 300u16, 'a', -5i8, (), 70_000u32, Some(2u8));
    let again: (u8, bool, u16, char, i8, (), u32, Option<u8>) = write_and_read(alloc, &parts)?;
    assert!(rt; again.1);
    assert!(rt; (again.0, again.2, again.6) == (1, 300, 70_000));
    assert!(rt; (again.3, again.4, again.7) == ('a', -5, Some(2)));
    Ok(())
}

// 2^64 as each type that holds it.
#[test]
fn refuses_a_number_that_is_not_stored(rt: HostRuntime) -> Verdict {
    let alloc = rt.alloc();
    is_refused(to_value(alloc, &(1u128 << 64)), UNSTORED)?;
    is_refused(to_value(alloc, &(1i128 << 64)), UNSTORED)?;
    is_refused(
        from_value::<Value>(alloc, Value::Integer(1 << 64)),
        UNSTORED,
    )
}

/// Null within so many arrays.
fn nested(alloc: Global, levels: u16) -> Result<Value, AllocError> {
    let mut value = Value::Null;
    for _ in 0..levels {
        value = Value::Array(vec![in alloc; value]?);
    }
    Ok(value)
}

#[test]
fn reads_127_levels_of_a_value(rt: HostRuntime) -> Verdict {
    let alloc = rt.alloc();
    let value: Value = from_value(alloc, nested(alloc, 127)?)?;
    assert!(rt; value == nested(alloc, 127)?);
    let deeper = from_value::<Value>(alloc, nested(alloc, 128)?);
    is_refused(deeper, "recursion limit exceeded at offset 128")
}

#[test]
fn makes_a_value_at_any_depth(rt: HostRuntime) -> Verdict {
    let alloc = rt.alloc();
    let value = nested(alloc, 300)?;
    assert!(rt; to_value(alloc, &value)? == value);
    Ok(())
}

fn array(alloc: Global, items: &[i128]) -> Result<Value, AllocError> {
    let mut values = Vec::new(alloc);
    for item in items {
        values.push(Value::Integer(*item))?;
    }
    Ok(Value::Array(values))
}

// A map of arrays to null, put in out of order.
#[test]
fn orders_keys_that_are_arrays(rt: HostRuntime) -> Verdict {
    let alloc = rt.alloc();
    let mut pairs = Vec::new(alloc);
    for items in [&[0, -1][..], &[0, 0], &[-2], &[-1], &[100], &[0]] {
        pairs.push((array(alloc, items)?, Value::Null))?;
    }
    let Ok(map) = Map::from_pairs(pairs) else {
        return Err(Fail::from(AllocError));
    };
    let value = to_value(alloc, &Value::Map(map))?;
    let bytes = b"\xa6\x81\0\xf6\x81\x18\x64\xf6\x81\x20\xf6\x81\x21\xf6\x82\0\0\xf6\x82\0\x20\xf6";
    is_written(&rt, alloc, &value, bytes)
}

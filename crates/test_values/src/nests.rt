//! Values within values: a copy, or a comparison, that went twice into one would not end.

use crate::checks::tag;
use cbor_value::{Map, Value};
use std::alloc::Global;
use std::cmp::Ordering;
use std::test::Fail;
use test_checks::Verdict;

/// A value in an array, in a map, in a map's key, and under a tag, so many times.
fn nest(alloc: Global, times: u8) -> Result<Value, Fail> {
    let mut value = Value::Null;
    for _ in 0..times {
        let array = Value::Array(vec![in alloc; value]?);
        let map = Map::from_pairs(vec![in alloc; (Value::Null, array)]?)?;
        let keys = Map::from_pairs(vec![in alloc; (Value::Map(map), Value::Null)]?)?;
        value = tag(alloc, 1, Value::Map(keys))?;
    }
    Ok(value)
}

#[test]
fn copies_and_compares_each_part_once(rt: HostRuntime) -> Verdict {
    let alloc = rt.alloc();
    let value = nest(alloc, 40)?;
    let copy = value.clone(alloc)?;
    assert!(rt; copy == value);
    assert!(rt; copy.cmp(&value) == Ordering::Equal);
    Ok(())
}

//! Maps: which pairs they list, how they are searched, and how they change.

use crate::checks::{tag, text};
use cbor_value::{Map, Value};
use std::alloc::{AllocError, Global};
use std::process::Abort;
use std::test::Fail;
use test_checks::Verdict;

// The checks below promise nothing, so that a test of many rows carries no facts from one to the
// next.

/// The map has so many pairs.
fn has_len(rt: &impl Abort, map: &Map, want: usize) {
    assert_eq!(rt; map.len(), want);
    assert_eq!(rt; map.is_empty(), want == 0);
}

/// The map takes the key to this value.
fn takes_to(rt: &impl Abort, map: &Map, key: i128, want: Option<&Value>) {
    let key = Value::Integer(key);
    assert_eq!(rt; map.get(&key), want);
    assert_eq!(rt; map.contains_key(&key), want.is_some());
}

/// The map takes the key to the value from now on, and took it to that one before.
fn inserts(
    rt: &impl Abort,
    map: &mut Map,
    key: Value,
    value: Value,
    before: Option<Value>,
) -> Verdict {
    assert_eq!(rt; map.insert(key, value)?, before);
    Ok(())
}

/// The key is gone, which the map took to this value.
fn removes(rt: &impl Abort, map: &mut Map, key: i128, before: Option<Value>) {
    assert_eq!(rt; map.remove(&Value::Integer(key)), before);
}

#[test]
fn keeps_one_pair_of_a_key(rt: HostRuntime) -> Verdict {
    let alloc = rt.alloc();
    let mut map = Map::new(alloc);
    let one = Value::Integer(1);
    inserts(&rt, &mut map, one, text(alloc, "a")?, None)?;
    let (one, a) = (Value::Integer(1), text(alloc, "a")?);
    inserts(&rt, &mut map, one, text(alloc, "b")?, Some(a))?;
    has_len(&rt, &map, 1);
    let b = text(alloc, "b")?;
    takes_to(&rt, &map, 1, Some(&b));
    takes_to(&rt, &map, 2, None);
    removes(&rt, &mut map, 2, None);
    has_len(&rt, &map, 1);
    removes(&rt, &mut map, 1, Some(b));
    has_len(&rt, &map, 0);
    removes(&rt, &mut map, 1, None);
    Ok(())
}

/// The map of the keys from 0 below n, each to itself.
fn counting(alloc: Global, n: u16) -> Result<Map, Fail> {
    let mut pairs = Vec::new(alloc);
    for key in 0..n as i128 {
        pairs.push((Value::Integer(key), Value::Integer(key)))?;
    }
    Ok(Map::from_pairs(pairs)?)
}

/// Each key of such a map is found by so many comparisons at most, and so is that a key is missing.
fn searches_by(rt: &impl Abort, alloc: Global, n: u16, most: u32) -> Verdict {
    let map = counting(alloc, n)?;
    for key in 0..n {
        let wanted = Value::from(key);
        let (value, count) = map.get_counted(&wanted);
        assert_eq!(rt; value, Some(&wanted));
        assert!(rt; count >= 1 && count <= most);
    }
    let (value, count) = map.get_counted(&Value::from(n));
    assert_eq!(rt; value, None);
    assert!(rt; count >= 1 && count <= most);
    Ok(())
}

#[test]
fn compares_no_key_of_an_empty_map(rt: HostRuntime) -> Verdict {
    let map = Map::new(rt.alloc());
    let (value, count) = map.get_counted(&Value::Null);
    assert_eq!(rt; value, None);
    assert_eq!(rt; count, 0);
    Ok(())
}

#[test]
fn compares_1_of_1_key(rt: HostRuntime) -> Verdict {
    searches_by(&rt, rt.alloc(), 1, 1)
}

#[test]
fn compares_3_of_7_keys(rt: HostRuntime) -> Verdict {
    searches_by(&rt, rt.alloc(), 7, 3)
}

#[test]
fn compares_4_of_8_keys(rt: HostRuntime) -> Verdict {
    searches_by(&rt, rt.alloc(), 8, 4)
}

#[test]
fn compares_10_of_1000_keys(rt: HostRuntime) -> Verdict {
    searches_by(&rt, rt.alloc(), 1000, 10)
}

#[test]
fn counts_the_keys_that_it_compares(rt: HostRuntime) -> Verdict {
    let map = counting(rt.alloc(), 7)?;
    let (_, count) = map.get_counted(&Value::Integer(3));
    assert_eq!(rt; count, 1);
    for missing in [Value::Integer(-1), Value::Integer(7), Value::Null] {
        let (_, count) = map.get_counted(&missing);
        assert_eq!(rt; count, 3);
    }
    Ok(())
}

/// The pairs of numbers, as values.
fn pairs_of(alloc: Global, numbers: &[(i128, i128)]) -> Result<Vec<(Value, Value)>, AllocError> {
    let mut pairs = Vec::new(alloc);
    for (key, value) in numbers {
        pairs.push((Value::Integer(*key), Value::Integer(*value)))?;
    }
    Ok(pairs)
}

/// The map of pairs of numbers lists these pairs.
fn makes(
    rt: &impl Abort,
    alloc: Global,
    given: &[(i128, i128)],
    listed: &[(i128, i128)],
) -> Verdict {
    let map = Map::from_pairs(pairs_of(alloc, given)?)?;
    let wanted = pairs_of(alloc, listed)?;
    assert_eq!(rt; map.iter().as_slice(), wanted.as_slice());
    Ok(())
}

#[test]
fn makes_a_map_of_no_pairs(rt: HostRuntime) -> Verdict {
    makes(&rt, rt.alloc(), &[], &[])
}

#[test]
fn makes_a_map_of_one_pair(rt: HostRuntime) -> Verdict {
    makes(&rt, rt.alloc(), &[(5, 1)], &[(5, 1)])
}

#[test]
fn makes_a_map_of_ascending_keys(rt: HostRuntime) -> Verdict {
    makes(
        &rt,
        rt.alloc(),
        &[(1, 9), (2, 8), (3, 7)],
        &[(1, 9), (2, 8), (3, 7)],
    )
}

#[test]
fn makes_a_map_of_descending_keys(rt: HostRuntime) -> Verdict {
    makes(
        &rt,
        rt.alloc(),
        &[(3, 7), (2, 8), (1, 9)],
        &[(1, 9), (2, 8), (3, 7)],
    )
}

#[test]
fn keeps_the_last_of_all_equal_keys(rt: HostRuntime) -> Verdict {
    makes(
        &rt,
        rt.alloc(),
        &[(4, 1), (4, 2), (4, 3), (4, 4)],
        &[(4, 4)],
    )
}

#[test]
fn keeps_the_last_of_equal_keys_far_apart(rt: HostRuntime) -> Verdict {
    let given = [
        (9, 0),
        (1, 1),
        (7, 2),
        (3, 3),
        (5, 4),
        (2, 5),
        (9, 6),
        (8, 7),
        (1, 8),
    ];
    let listed = [(1, 8), (2, 5), (3, 3), (5, 4), (7, 2), (8, 7), (9, 6)];
    makes(&rt, rt.alloc(), &given, &listed)
}

#[test]
fn reports_that_a_map_has_no_ends(rt: HostRuntime) {
    let map = Map::new(rt.alloc());
    assert!(rt; map.first_key_value().is_none());
    assert!(rt; map.last_key_value().is_none());
    assert!(rt; !map.contains_key(&Value::Null));
}

#[test]
fn reports_the_ends_of_a_map(rt: HostRuntime) -> Verdict {
    let map = counting(rt.alloc(), 3)?;
    takes_to(&rt, &map, 2, Some(&Value::Integer(2)));
    takes_to(&rt, &map, 3, None);
    is_pair(&rt, map.first_key_value(), 0)?;
    is_pair(&rt, map.last_key_value(), 2)?;
    assert_eq!(rt; map.into_pairs().len(), 3);
    Ok(())
}

/// The pair takes this number to itself.
fn is_pair(rt: &impl Abort, pair: Option<(&Value, &Value)>, want: i128) -> Verdict {
    let (key, value) = pair.ok_or("no pair")?;
    assert_eq!(rt; *key, Value::Integer(want));
    assert_eq!(rt; *value, Value::Integer(want));
    Ok(())
}

/// Inserts a key. Where the allocation fails, the map is as it was.
fn insert_or_keep(rt: &impl Abort, alloc: Global, map: &mut Map, key: Value) -> Verdict {
    let before = Value::Map(map.clone(alloc)?);
    match map.insert(key, Value::Null) {
        Ok(_) => Ok(()),
        Err(e) => {
            assert!(rt; e.is_memory());
            assert!(rt; Value::Map(map.clone(alloc)?) == before);
            Err(Fail::from(e))
        }
    }
}

#[test]
fn keeps_a_map_that_cannot_grow(rt: HostRuntime) -> Verdict {
    let mut map = Map::new(rt.alloc());
    for key in 0..5u8 {
        insert_or_keep(&rt, rt.alloc(), &mut map, Value::from(key))?;
    }
    assert_eq!(rt; map.len(), 5);
    Ok(())
}

#[test]
fn iterates_in_key_order(rt: HostRuntime) -> Verdict {
    let alloc = rt.alloc();
    let mut map = Map::new(alloc);
    put(&mut map, pairs_of(alloc, &[(2, 0), (1, 1)])?)?;
    inserts(&rt, &mut map, text(alloc, "z")?, Value::Integer(2), None)?;
    put(&mut map, pairs_of(alloc, &[(-1, 3), (10, 4)])?)?;
    lists_in_order(&rt, alloc, &map)?;
    removes(&rt, &mut map, 10, Some(Value::Integer(4)));
    has_len(&rt, &map, 4);
    takes_to(&rt, &map, -1, Some(&Value::Integer(3)));
    takes_to(&rt, &map, 10, None);
    Ok(())
}

/// Puts the pairs into the map, one after the other.
fn put(map: &mut Map, pairs: Vec<(Value, Value)>) -> Verdict {
    for (key, value) in pairs {
        map.insert(key, value)?;
    }
    Ok(())
}

/// The map of the test above lists its pairs so.
fn lists_in_order(rt: &impl Abort, alloc: Global, map: &Map) -> Verdict {
    let mut wanted = pairs_of(alloc, &[(1, 1), (2, 0), (10, 4), (-1, 3)])?;
    wanted.push((text(alloc, "z")?, Value::Integer(2)))?;
    assert_eq!(rt; map.iter().as_slice(), wanted.as_slice());
    Ok(())
}

#[test]
fn copies_maps(rt: HostRuntime) -> Verdict {
    let alloc = rt.alloc();
    let mut map = Map::new(alloc);
    let list = vec![in alloc; Value::Integer(-7), Value::Null]?;
    map.insert(text(alloc, "b")?, Value::Array(list))?;
    map.insert(text(alloc, "a")?, tag(alloc, 1, Value::Bool(true))?)?;
    assert_eq!(rt; map.clone(alloc)?.iter().as_slice(), map.iter().as_slice());
    Ok(())
}

//! Looking into values and maps.

use crate::checks::{tag, text};
use cbor_value::{Float, Map, Value};
use std::alloc::Global;
use std::process::Abort;
use std::test::Fail;
use test_checks::Verdict;

/// A map of so many text keys, "0" and on, and of as many integers before and after 0; and of keys
/// of other kinds.
fn mixed(alloc: Global) -> Result<Map, Fail> {
    let mut pairs = Vec::new(alloc);
    for word in [
        "",
        "a",
        "b",
        "z",
        "aa",
        "水",
        "ports",
        "a longer one",
        "a longer two",
    ] {
        pairs.push((text(alloc, word)?, text(alloc, word)?))?;
    }
    for number in [
        0,
        1,
        23,
        24,
        -1,
        -24,
        18446744073709551615,
        -18446744073709551616,
    ] {
        pairs.push((Value::Integer(number), Value::Integer(number)))?;
    }
    pairs.push((Value::Bytes(Vec::from_slice(alloc, b"a")?), Value::Null))?;
    pairs.push((Value::Array(Vec::new(alloc)), Value::Null))?;
    pairs.push((Value::Map(Map::new(alloc)), Value::Null))?;
    pairs.push((tag(alloc, 0, Value::Null)?, Value::Null))?;
    pairs.push((Value::Bool(true), Value::Null))?;
    pairs.push((Value::Float(Float::Half(0)), Value::Null))?;
    Ok(Map::from_pairs(pairs)?)
}

/// The text is found, with itself, exactly where it is a key; so it is by its value.
fn finds_text(rt: &impl Abort, alloc: Global, map: &Map, key: &str, there: bool) -> Verdict {
    let own = text(alloc, key)?;
    assert_eq!(rt; map.get_str(key), if there { Some(&own) } else { None });
    assert_eq!(rt; map.get_str(key), map.get(&own));
    Ok(())
}

#[test]
fn finds_texts(rt: HostRuntime) -> Verdict {
    let alloc = rt.alloc();
    let map = mixed(alloc)?;
    for key in [
        "",
        "a",
        "b",
        "z",
        "aa",
        "水",
        "ports",
        "a longer one",
        "a longer two",
    ] {
        finds_text(&rt, alloc, &map, key, true)?;
    }
    for key in ["A", "ab", "port", "a longer ane", "a longer zoo", "0"] {
        finds_text(&rt, alloc, &map, key, false)?;
    }
    Ok(())
}

/// The integer is found, with itself, exactly where it is a key; so it is by its value.
fn finds_integer(rt: &impl Abort, map: &Map, key: i128, there: bool) {
    let own = Value::Integer(key);
    assert_eq!(rt; map.get_integer(key), if there { Some(&own) } else { None });
    assert_eq!(rt; map.get_integer(key), map.get(&own));
}

#[test]
fn finds_integers(rt: HostRuntime) -> Verdict {
    let map = mixed(rt.alloc())?;
    for key in [
        0,
        1,
        23,
        24,
        -1,
        -24,
        18446744073709551615,
        -18446744073709551616,
    ] {
        finds_integer(&rt, &map, key, true);
    }
    for key in [2, -2, 25, i128::MAX, i128::MIN] {
        finds_integer(&rt, &map, key, false);
    }
    Ok(())
}

#[test]
fn compares_as_few_texts_and_integers(rt: HostRuntime) -> Verdict {
    let map = mixed(rt.alloc())?;
    assert_eq!(rt; map.len(), 23);
    let (value, count) = map.get_str_counted("nothing");
    assert_eq!(rt; value, None);
    assert!(rt; count >= 1 && count <= 5);
    let (value, count) = map.get_integer_counted(-1);
    assert_eq!(rt; value, Some(&Value::Integer(-1)));
    assert!(rt; count >= 1 && count <= 5);
    Ok(())
}

/// `{"a": [10, 20], 0: "zero"}`
fn nested(alloc: Global) -> Result<Value, Fail> {
    let mut map = Map::new(alloc);
    let items = vec![in alloc; Value::Integer(10), Value::Integer(20)]?;
    map.insert(text(alloc, "a")?, Value::Array(items))?;
    map.insert(Value::Integer(0), text(alloc, "zero")?)?;
    Ok(Value::Map(map))
}

#[test]
fn looks_into_maps_and_arrays(rt: HostRuntime) -> Verdict {
    let alloc = rt.alloc();
    let value = nested(alloc)?;
    let items = value.get_str("a").ok_or("no a")?;
    assert_eq!(rt; items.get_index(0), Some(&Value::Integer(10)));
    assert_eq!(rt; items.get_index(1), Some(&Value::Integer(20)));
    assert_eq!(rt; items.get_index(2), None);
    assert_eq!(rt; value.get_integer(0), Some(&text(alloc, "zero")?));
    assert_eq!(rt; value.get_integer(1), None);
    assert_eq!(rt; value.get_str("zero"), None);
    Ok(())
}

#[test]
fn finds_nothing_in_other_kinds(rt: HostRuntime) -> Verdict {
    let value = nested(rt.alloc())?;
    assert_eq!(rt; value.get_index(0), None);
    let items = value.get_str("a").ok_or("no a")?;
    assert_eq!(rt; items.get_integer(0), None);
    assert_eq!(rt; items.get_str("a"), None);
    assert_eq!(rt; Value::Null.get_index(0), None);
    Ok(())
}

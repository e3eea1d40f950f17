//! Paths into values. The document and its paths are those of RFC 6901, section 5.

use crate::checks::{tag, text};
use cbor_value::{Map, Value};
use std::alloc::Global;
use std::process::Abort;
use std::test::Fail;
use test_checks::Verdict;

/// The document: a key for each number from 0 to 8, and "foo" for `["bar", "baz"]`.
fn document(alloc: Global) -> Result<Value, Fail> {
    let keys = ["", "a/b", "c%d", "e^f", "g|h", "i\\j", "k\"l", " ", "m~n"];
    let mut map = Map::new(alloc);
    for (i, key) in keys.iter().enumerate() {
        map.insert(text(alloc, key)?, Value::Integer(i as i128))?;
    }
    let items = vec![in alloc; text(alloc, "bar")?, text(alloc, "baz")?]?;
    map.insert(text(alloc, "foo")?, Value::Array(items))?;
    Ok(Value::Map(map))
}

/// The path leads to this number.
fn leads_to(rt: &impl Abort, value: &Value, path: &str, number: i128) {
    assert_eq!(rt; value.pointer(path), Some(&Value::Integer(number)));
}

#[test]
fn leads_to_numbers(rt: HostRuntime) -> Verdict {
    let value = document(rt.alloc())?;
    leads_to(&rt, &value, "/", 0);
    leads_to(&rt, &value, "/a~1b", 1);
    leads_to(&rt, &value, "/c%d", 2);
    leads_to(&rt, &value, "/e^f", 3);
    leads_to(&rt, &value, "/g|h", 4);
    leads_to(&rt, &value, "/i\\j", 5);
    leads_to(&rt, &value, "/k\"l", 6);
    leads_to(&rt, &value, "/ ", 7);
    leads_to(&rt, &value, "/m~0n", 8);
    Ok(())
}

#[test]
fn leads_to_the_whole_and_into_the_array(rt: HostRuntime) -> Verdict {
    let alloc = rt.alloc();
    let value = document(alloc)?;
    assert_eq!(rt; value.pointer(""), Some(&value));
    let items = value.pointer("/foo").ok_or("no foo")?;
    assert_eq!(rt; items.as_array().map_or(0, |items| items.len()), 2);
    assert_eq!(rt; value.pointer("/foo/0"), Some(&text(alloc, "bar")?));
    assert_eq!(rt; value.pointer("/foo/1"), Some(&text(alloc, "baz")?));
    Ok(())
}

#[test]
fn leads_nowhere(rt: HostRuntime) -> Verdict {
    let value = document(rt.alloc())?;
    for path in [
        "foo", "/bar", "/foo/2", "/foo/-", "/foo/", "/a/b", "//", "/foo/0/0", "/m~1n",
    ] {
        assert_eq!(rt; value.pointer(path), None);
    }
    Ok(())
}

#[test]
fn takes_positions_in_one_spelling(rt: HostRuntime) -> Verdict {
    let alloc = rt.alloc();
    let value = Value::Array(vec![in alloc; Value::Null, Value::Null]?);
    for token in ["0", "1"] {
        assert!(rt; leads_by(alloc, &value, token)?);
    }
    for token in [
        "00",
        "01",
        "+1",
        "-0",
        " 1",
        "1.0",
        "1e0",
        "2",
        "18446744073709551616",
        "",
    ] {
        assert!(rt; !leads_by(alloc, &value, token)?);
    }
    Ok(())
}

/// Whether the token leads anywhere.
fn leads_by(alloc: Global, value: &Value, token: &str) -> Result<bool, Fail> {
    let mut path = String::from_str(alloc, "/")?;
    path.push_str(token)?;
    Ok(value.pointer(path.as_str()).is_some())
}

/// The one key of a map is found by this token, and by none that is its neighbour.
fn is_token_of(rt: &impl Abort, alloc: Global, key: &str, token: &str) -> Verdict {
    let mut map = Map::new(alloc);
    map.insert(text(alloc, key)?, Value::Null)?;
    let value = Value::Map(map);
    assert!(rt; leads_by(alloc, &value, token)?);
    let mut longer = String::from_str(alloc, token)?;
    longer.push('~')?;
    assert!(rt; !leads_by(alloc, &value, longer.as_str())?);
    Ok(())
}

#[test]
fn unescapes_once(rt: HostRuntime) -> Verdict {
    let alloc = rt.alloc();
    is_token_of(&rt, alloc, "~1", "~01")?;
    is_token_of(&rt, alloc, "~0", "~00")?;
    is_token_of(&rt, alloc, "/~", "~1~0")?;
    is_token_of(&rt, alloc, "水/", "水~1")?;
    is_token_of(&rt, alloc, "~2", "~2")
}

#[test]
fn passes_no_tag_and_no_other_key(rt: HostRuntime) -> Verdict {
    let alloc = rt.alloc();
    let mut map = Map::new(alloc);
    map.insert(Value::Integer(0), Value::Null)?;
    map.insert(Value::Bytes(Vec::from_slice(alloc, b"0")?), Value::Null)?;
    let value = Value::Map(map);
    assert_eq!(rt; value.pointer("/0"), None);
    let tagged = tag(alloc, 1, document(alloc)?)?;
    assert_eq!(rt; tagged.pointer("/foo"), None);
    Ok(())
}

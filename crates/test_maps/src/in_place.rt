//! Changing the values of a map in place.

ghost use Rattle.std.specs.Prelude.{◌≡◌, IsTrue};
ghost use Rattle.cbor_model.specs.Canonical.{KeysAscend};
ghost use Rattle.cbor_model.specs.Value.{put};
ghost use Rattle.cbor_value.specs.View.{view, map_view};

use crate::checks::text;
use cbor_value::{Map, Value};
use std::alloc::Global;
use std::process::Abort;
use std::test::Fail;
use test_checks::Verdict;

/// `{1: 10, 2: 20, -1: 30, "a": 40}`
fn four(alloc: Global) -> Result<Map, Fail> {
    let mut map = Map::new(alloc);
    for (key, value) in [(1, 10), (2, 20), (-1, 30)] {
        map.insert(Value::Integer(key), Value::Integer(value))?;
    }
    map.insert(text(alloc, "a")?, Value::Integer(40))?;
    Ok(map)
}

/// The map lists these values, each under its key.
fn lists(rt: &impl Abort, map: &Map, wanted: [i128; 4]) {
    assert_eq!(rt; map.len(), 4);
    assert_eq!(rt; map.get_integer(1), Some(&Value::Integer(wanted[0])));
    assert_eq!(rt; map.get_integer(2), Some(&Value::Integer(wanted[1])));
    assert_eq!(rt; map.get_integer(-1), Some(&Value::Integer(wanted[2])));
    assert_eq!(rt; map.get_str("a"), Some(&Value::Integer(wanted[3])));
}

/// The value is the first number, and from now on the second.
fn changes(rt: &impl Abort, value: Option<&mut Value>, before: i128, after: i128) -> Verdict {
    let value = value.ok_or("no value")?;
    assert_eq!(rt; *value, Value::Integer(before));
    *value = Value::Integer(after);
    Ok(())
}

/// Gives a key another value, where it is there: what a caller knows of a map that lends a value.
fn replace(map: &mut Map, key: &Value, value: Value) -> bool
    ensures { KeysAscend (map_view map.old) → IsTrue result
        → map_view map.new ≡ put (view key.now) (view value) (map_view map.old) }
{
    match map.get_mut(key) {
        Some(place) => {
            *place = value;
            true
        }
        None => false,
    }
}

#[test]
fn replaces_one_value(rt: HostRuntime) -> Verdict {
    let mut map = four(rt.alloc())?;
    assert!(rt; replace(&mut map, &Value::Integer(1), Value::Integer(11)));
    lists(&rt, &map, [11, 20, 30, 40]);
    assert!(rt; !replace(&mut map, &Value::Null, Value::Integer(12)));
    lists(&rt, &map, [11, 20, 30, 40]);
    Ok(())
}

#[test]
fn changes_one_value(rt: HostRuntime) -> Verdict {
    let mut map = four(rt.alloc())?;
    changes(&rt, map.get_mut(&Value::Integer(2)), 20, 21)?;
    lists(&rt, &map, [10, 21, 30, 40]);
    changes(&rt, map.get_integer_mut(-1), 30, 31)?;
    lists(&rt, &map, [10, 21, 31, 40]);
    changes(&rt, map.get_str_mut("a"), 40, 41)?;
    lists(&rt, &map, [10, 21, 31, 41]);
    Ok(())
}

#[test]
fn lends_no_value_of_a_key_that_is_missing(rt: HostRuntime) -> Verdict {
    let mut map = four(rt.alloc())?;
    assert!(rt; map.get_mut(&Value::Null).is_none());
    assert!(rt; map.get_integer_mut(3).is_none());
    assert!(rt; map.get_str_mut("b").is_none());
    lists(&rt, &map, [10, 20, 30, 40]);
    Ok(())
}

//! What maps cost: one that compared each key, or moved each pair, would take minutes.

use cbor_value::{Map, Value};
use std::alloc::Global;
use std::process::Abort;
use std::test::Fail;
use test_checks::Verdict;

const MANY: u32 = 262_144;

/// The pairs of the keys from 0 on, each to itself, in an order in which each is far from the next.
fn scattered(alloc: Global) -> Result<Vec<(Value, Value)>, Fail> {
    let mut pairs = Vec::with_capacity(alloc, MANY as usize)?;
    for i in 0..MANY {
        let key = i.wrapping_mul(40_503) % MANY;
        pairs.push((Value::from(key), Value::from(key)))?;
    }
    Ok(pairs)
}

/// The map takes each key to itself.
fn takes_each_to_itself(rt: &impl Abort, map: &Map) {
    assert!(rt; map.len() == MANY as usize);
    for key in 0..MANY {
        let value = Value::from(key);
        assert!(rt; map.get(&value) == Some(&value));
    }
}

#[test]
fn sorts_many_pairs_once(rt: HostRuntime) -> Verdict {
    let map = Map::from_pairs(scattered(rt.alloc())?)?;
    takes_each_to_itself(&rt, &map);
    Ok(())
}

/// Puts the keys from 0 on in, each to itself.
fn put_each(map: &mut Map) -> Verdict {
    for key in 0..MANY {
        map.insert(Value::from(key), Value::from(key))?;
    }
    Ok(())
}

// A new key stands last, and the last is taken out, so that no pair moves.
#[test]
fn finds_the_place_of_a_key_by_halves(rt: HostRuntime) -> Verdict {
    let mut map = Map::new(rt.alloc());
    put_each(&mut map)?;
    put_each(&mut map)?;
    takes_each_to_itself(&rt, &map);
    for key in (0..MANY).rev() {
        assert!(&rt; map.remove(&Value::from(key)).is_some());
    }
    assert!(&rt; map.is_empty());
    Ok(())
}

// A text stands behind all integers (RFC 8949, section 4.2.1): a search from the front would meet
// all of them, and one from the back most of them for most integers.
#[test]
fn finds_numbers_and_texts_by_halves(rt: HostRuntime) -> Verdict {
    let alloc = rt.alloc();
    let mut map = Map::new(alloc);
    put_each(&mut map)?;
    map.insert(Value::Text("a".to_owned(alloc)?), Value::Null)?;
    for key in 0..MANY {
        let value = Value::from(key);
        assert!(&rt; map.get_integer(i128::from(key)) == Some(&value));
        assert!(&rt; map.get_integer_mut(i128::from(key)) == Some(&mut value.clone(alloc)?));
        assert!(&rt; map.get_str("a") == Some(&Value::Null));
        assert!(&rt; map.get_mut(&value).is_some());
        assert!(&rt; map.get_str("").is_none());
    }
    Ok(())
}

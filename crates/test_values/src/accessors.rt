//! What a value holds, by its kind. The numbers are of RFC 7049, Appendix A.

use crate::checks::{tag, text};
use cbor_value::{Float, Map, Value};
use std::alloc::Global;
use std::process::Abort;
use std::test::Fail;
use test_checks::Verdict;

/// The value holds something of this kind, and of no other.
fn is_of_kind(rt: &impl Abort, value: &Value, kind: usize) {
    let held = [
        value.is_null(),
        value.as_bool().is_some(),
        value.as_integer().is_some(),
        value.as_f64().is_some(),
        value.as_bytes().is_some(),
        value.as_str().is_some(),
        value.as_array().is_some(),
        value.as_map().is_some(),
        value.as_tag().is_some(),
    ];
    for (i, some) in held.iter().enumerate() {
        assert_eq!(rt; *some, i == kind);
    }
}

/// `h'0102'`
fn bytes(alloc: Global) -> Result<Value, Fail> {
    Ok(Value::Bytes(Vec::from_slice(alloc, &[1, 2])?))
}

/// `[1, 2]`
fn array(alloc: Global) -> Result<Value, Fail> {
    let items = vec![in alloc; Value::Integer(1), Value::Integer(2)]?;
    Ok(Value::Array(items))
}

/// `{1: 2}`
fn map(alloc: Global) -> Result<Value, Fail> {
    let mut map = Map::new(alloc);
    map.insert(Value::Integer(1), Value::Integer(2))?;
    Ok(Value::Map(map))
}

/// `1(1363896240)`
fn time(alloc: Global) -> Result<Value, Fail> {
    Ok(tag(alloc, 1, Value::Integer(1363896240))?)
}

/// One value of each kind.
fn each_kind(alloc: Global) -> Result<Vec<Value>, Fail> {
    let mut values = Vec::new(alloc);
    values.push(Value::Null)?;
    values.push(Value::Bool(false))?;
    values.push(Value::Integer(0))?;
    values.push(Value::Float(Float::Half(0)))?;
    values.push(bytes(alloc)?)?;
    values.push(text(alloc, "IETF")?)?;
    values.push(array(alloc)?)?;
    values.push(map(alloc)?)?;
    values.push(time(alloc)?)?;
    Ok(values)
}

#[test]
fn tells_kinds_apart(rt: HostRuntime) -> Verdict {
    for (kind, value) in each_kind(rt.alloc())?.iter().enumerate() {
        is_of_kind(&rt, value, kind);
    }
    Ok(())
}

/// The number is held by these types.
fn fits(rt: &impl Abort, number: i128, as_u64: Option<u64>, as_i64: Option<i64>) {
    let value = Value::Integer(number);
    assert_eq!(rt; value.as_integer(), Some(number));
    assert_eq!(rt; value.as_u64(), as_u64);
    assert_eq!(rt; value.as_i64(), as_i64);
}

#[test]
fn gives_integers_that_fit(rt: HostRuntime) {
    fits(&rt, 0, Some(0), Some(0));
    fits(&rt, 1000000, Some(1000000), Some(1000000));
    fits(&rt, -1, None, Some(-1));
    fits(&rt, -1000, None, Some(-1000));
}

#[test]
fn gives_no_integer_that_is_too_far_out(rt: HostRuntime) {
    fits(
        &rt,
        9223372036854775807,
        Some(9223372036854775807),
        Some(i64::MAX),
    );
    fits(&rt, 9223372036854775808, Some(9223372036854775808), None);
    fits(&rt, 18446744073709551615, Some(18446744073709551615), None);
    fits(&rt, 18446744073709551616, None, None);
    fits(&rt, -9223372036854775808, None, Some(i64::MIN));
    fits(&rt, -9223372036854775809, None, None);
    fits(&rt, -18446744073709551616, None, None);
}

/// The float is this number.
fn is_number(rt: &impl Abort, float: Float, number: f64) {
    assert_eq!(rt; Value::Float(float).as_f64(), Some(number));
}

#[test]
fn gives_floats_of_each_width(rt: HostRuntime) {
    is_number(&rt, Float::Half(0x3e00), 1.5);
    is_number(&rt, Float::Half(0x7bff), 65504.0);
    is_number(&rt, Float::Single(0x47c35000), 100000.0);
    is_number(&rt, Float::Double(0x3ff199999999999a), 1.1);
    is_number(&rt, Float::Double(0xc010666666666666), -4.1);
    is_number(&rt, Float::Double(0x7ff0000000000000), f64::INFINITY);
}

#[test]
fn gives_no_number_for_a_nan(rt: HostRuntime) {
    let number = Value::Float(Float::Half(0x7e00)).as_f64();
    assert!(rt; number.is_some_and(|x| x.is_nan()));
}

#[test]
fn gives_what_strings_hold(rt: HostRuntime) -> Verdict {
    let alloc = rt.alloc();
    let value = Value::Bytes(Vec::from_slice(alloc, b"\x01\x02\x03\x04")?);
    assert!(rt; value.as_bytes() == Some(&b"\x01\x02\x03\x04"[..]));
    assert!(rt; text(alloc, "水")?.as_str() == Some("水"));
    Ok(())
}

#[test]
fn gives_what_lies_inside(rt: HostRuntime) -> Verdict {
    assert_eq!(rt; Value::Bool(false).as_bool(), Some(false));
    let array = array(rt.alloc())?;
    let items = array.as_array().ok_or("no array")?;
    assert!(rt; items == &[Value::Integer(1), Value::Integer(2)][..]);
    let map = map(rt.alloc())?;
    let pairs = map.as_map().ok_or("no map")?;
    assert_eq!(rt; pairs.get(&Value::Integer(1)), Some(&Value::Integer(2)));
    Ok(())
}

#[test]
fn gives_a_tag_and_what_is_in_it(rt: HostRuntime) -> Verdict {
    let time = time(rt.alloc())?;
    let (tag, inner) = time.as_tag().ok_or("no tag")?;
    assert_eq!(rt; tag, 1);
    assert_eq!(rt; inner, &Value::Integer(1363896240));
    Ok(())
}

/// The value lends something to be changed, of this kind and of no other.
fn lends_kind(rt: &impl Abort, value: &mut Value, kind: usize) {
    assert_eq!(rt; value.as_bytes_mut().is_some(), kind == 4);
    assert_eq!(rt; value.as_text_mut().is_some(), kind == 5);
    assert_eq!(rt; value.as_array_mut().is_some(), kind == 6);
    assert_eq!(rt; value.as_map_mut().is_some(), kind == 7);
}

#[test]
fn lends_of_each_kind(rt: HostRuntime) -> Verdict {
    for (kind, value) in each_kind(rt.alloc())?.iter_mut().enumerate() {
        lends_kind(&rt, value, kind);
    }
    Ok(())
}

#[test]
fn changes_strings_in_place(rt: HostRuntime) -> Verdict {
    let alloc = rt.alloc();
    let mut bytes = bytes(alloc)?;
    bytes.as_bytes_mut().ok_or("no bytes")?.push(3)?;
    assert!(rt; bytes.as_bytes() == Some(&[1, 2, 3][..]));
    let mut word = text(alloc, "IETF")?;
    word.as_text_mut().ok_or("no text")?.push('!')?;
    assert!(rt; word.as_str() == Some("IETF!"));
    Ok(())
}

#[test]
fn changes_arrays_and_maps_in_place(rt: HostRuntime) -> Verdict {
    let alloc = rt.alloc();
    let mut array = array(alloc)?;
    array.as_array_mut().ok_or("no array")?.push(Value::Null)?;
    assert_eq!(rt; array.as_array().map_or(0, |items| items.len()), 3);
    let mut map = map(alloc)?;
    let pairs = map.as_map_mut().ok_or("no map")?;
    assert_eq!(rt; pairs.remove(&Value::Integer(1)), Some(Value::Integer(2)));
    assert_eq!(rt; map, Value::Map(Map::new(alloc)));
    Ok(())
}

/// The value is given up as something of this kind; of another it is given back, as it was.
fn gives_up(rt: &impl Abort, alloc: Global, kind: usize) -> Verdict {
    for (i, value) in each_kind(alloc)?.into_iter().enumerate() {
        let before = value.clone(alloc)?;
        let given_back = match kind {
            4 => value.into_bytes().err(),
            5 => value.into_text().err(),
            6 => value.into_array().err(),
            7 => value.into_map().err(),
            _ => value.into_tag().err(),
        };
        assert_eq!(rt; given_back, if i == kind { None } else { Some(before) });
    }
    Ok(())
}

#[test]
fn gives_back_what_is_no_string(rt: HostRuntime) -> Verdict {
    gives_up(&rt, rt.alloc(), 4)?;
    gives_up(&rt, rt.alloc(), 5)
}

#[test]
fn gives_back_what_holds_no_values(rt: HostRuntime) -> Verdict {
    gives_up(&rt, rt.alloc(), 6)?;
    gives_up(&rt, rt.alloc(), 7)?;
    gives_up(&rt, rt.alloc(), 8)
}

#[test]
fn gives_up_its_string(rt: HostRuntime) -> Verdict {
    let alloc = rt.alloc();
    let bytes = bytes(alloc)?.into_bytes();
    assert!(rt; bytes.is_ok_and(|bytes| bytes.as_slice() == &[1, 2][..]));
    let word = text(alloc, "IETF")?.into_text();
    assert!(rt; word.is_ok_and(|word| word.as_str() == "IETF"));
    Ok(())
}

#[test]
fn gives_up_its_values(rt: HostRuntime) -> Verdict {
    let alloc = rt.alloc();
    let items = array(alloc)?.into_array();
    assert!(rt; items.is_ok_and(|items| items.len() == 2));
    let pairs = map(alloc)?.into_map();
    assert!(rt; pairs.is_ok_and(|pairs| pairs.len() == 1));
    let tagged = time(alloc)?.into_tag();
    assert!(rt; tagged.is_ok_and(|(tag, inner)| tag == 1 && inner == Value::Integer(1363896240)));
    Ok(())
}

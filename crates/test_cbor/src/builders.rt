//! What builders make, by what `to_value` makes of the whole; and what they hold after a refusal.

use crate::checks::{UNSTORED, is_written};
use samples::enums::EachKind;
use serde_cbor::Value;
use serde_cbor::value::{
    SerializeMap, SerializeStructVariant, SerializeTupleVariant, SerializeVec, to_value,
};
use std::test::Fail;
use test_checks::{Verdict, is_refused};

/// A number that CBOR doesn't store.
const GREAT: u128 = 1 << 64;

#[test]
fn makes_a_tuple_variant(rt: HostRuntime) -> Verdict {
    let alloc = rt.alloc();
    let mut flag = SerializeTupleVariant::new(alloc, "Flag");
    flag.serialize_field(&"foo")?;
    flag.serialize_field(&true)?;
    let whole = EachKind::Flag("foo".to_owned(alloc)?, true);
    assert!(rt; flag.end()? == to_value(alloc, &whole)?);
    Ok(())
}

#[test]
fn makes_a_struct_variant(rt: HostRuntime) -> Verdict {
    let alloc = rt.alloc();
    let mut point = SerializeStructVariant::new(alloc, "Point");
    point.serialize_field("x", &5i64)?;
    point.serialize_field("y", &-5i64)?;
    assert!(rt; point.end()? == to_value(alloc, &EachKind::Point { x: 5, y: -5 })?);
    Ok(())
}

#[test]
fn makes_a_map(rt: HostRuntime) -> Verdict {
    let alloc = rt.alloc();
    let mut map = SerializeMap::new(alloc);
    map.serialize_key(&1u8)?;
    map.serialize_value(&2u8)?;
    is_written(&rt, alloc, &map.end()?, b"\xa1\x01\x02")
}

#[test]
fn holds_the_items_before_a_refused_one(rt: HostRuntime) -> Verdict {
    let alloc = rt.alloc();
    let mut list = SerializeVec::new(alloc);
    list.serialize_element(&1u8)?;
    is_refused(list.serialize_element(&GREAT), UNSTORED)?;
    list.serialize_field(&2u8)?;
    assert!(rt; list.end()? == to_value(alloc, &(1u8, 2u8))?);
    Ok(())
}

#[test]
fn holds_the_key_of_a_refused_value(rt: HostRuntime) -> Verdict {
    let alloc = rt.alloc();
    let mut map = SerializeMap::new(alloc);
    let Err(refused) = map.serialize_key(&GREAT) else {
        return Err(Fail::from("not refused"));
    };
    is_refused::<()>(Err(refused), UNSTORED)?;
    map.serialize_key(&1u8)?;
    let Err(refused) = map.serialize_value(&GREAT) else {
        return Err(Fail::from("not refused"));
    };
    is_refused::<()>(Err(refused), UNSTORED)?;
    map.serialize_value(&2u8)?;
    is_refused(map.serialize_field("a", &GREAT), UNSTORED)?;
    is_written(&rt, alloc, &map.end()?, b"\xa1\x01\x02")
}

#[test]
fn holds_the_parts_before_a_refused_one(rt: HostRuntime) -> Verdict {
    let alloc = rt.alloc();
    let mut flag = SerializeTupleVariant::new(alloc, "A");
    is_refused(flag.serialize_field(&GREAT), UNSTORED)?;
    flag.serialize_field(&true)?;
    is_written(&rt, alloc, &flag.end()?, b"\xa1\x61A\x81\xf5")
}

#[test]
fn holds_the_fields_before_a_refused_one(rt: HostRuntime) -> Verdict {
    let alloc = rt.alloc();
    let mut point = SerializeStructVariant::new(alloc, "B");
    is_refused(point.serialize_field("x", &GREAT), UNSTORED)?;
    point.serialize_field("y", &Value::Null)?;
    is_written(&rt, alloc, &point.end()?, b"\xa1\x61B\xa1\x61y\xf6")
}

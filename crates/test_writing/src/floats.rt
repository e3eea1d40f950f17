//! Floats in the narrowest width that holds them, by the setting.

use crate::checks::{tag, text};
use cbor_ser::{Serialize, Serializer};
use cbor_value::{Float, Map, Value};
use std::alloc::Global;
use std::process::Abort;
use test_checks::Verdict;

/// With the setting the value is written so.
fn writes_shortest<T: Serialize>(
    rt: &impl Abort,
    alloc: Global,
    value: &T,
    want: &'static [u8],
) -> Verdict {
    let mut ser = Serializer::new(alloc, Vec::new(alloc)).shortest_floats();
    value.serialize(&mut ser)?;
    let bytes = ser.into_inner();
    assert!(rt; bytes.as_slice() == want);
    Ok(())
}

// Rows of RFC 8949, Appendix A.
#[test]
fn writes_the_floats_of_appendix_a(rt: HostRuntime) -> Verdict {
    let rows: [(f64, &'static [u8]); 10] = [
        (-0.0, b"\xf9\x80\0".as_slice()),
        (1.0, b"\xf9\x3c\0".as_slice()),
        (1.1, b"\xfb\x3f\xf1\x99\x99\x99\x99\x99\x9a".as_slice()),
        (1.5, b"\xf9\x3e\0".as_slice()),
        (65504.0, b"\xf9\x7b\xff".as_slice()),
        (100000.0, b"\xfa\x47\xc3\x50\0".as_slice()),
        (5.960464477539063e-8, b"\xf9\0\x01".as_slice()),
        (f64::INFINITY, b"\xf9\x7c\0".as_slice()),
        (f64::NAN, b"\xf9\x7e\0".as_slice()),
        (f64::NEG_INFINITY, b"\xf9\xfc\0".as_slice()),
    ];
    for (number, want) in rows {
        writes_shortest(&rt, rt.alloc(), &number, want)?;
        writes_shortest(&rt, rt.alloc(), &Value::Float(Float::from(number)), want)?;
    }
    Ok(())
}

// Appendix A has infinity and a NaN in all three widths.
#[test]
fn writes_each_width_alike(rt: HostRuntime) -> Verdict {
    let alloc = rt.alloc();
    writes_shortest(&rt, alloc, &Float::Half(0x7c00), b"\xf9\x7c\0")?;
    writes_shortest(&rt, alloc, &Float::Single(0x7f80_0000), b"\xf9\x7c\0")?;
    writes_shortest(
        &rt,
        alloc,
        &Float::Double(0x7ff0_0000_0000_0000),
        b"\xf9\x7c\0",
    )?;
    writes_shortest(&rt, alloc, &Float::Single(0xff80_0001), b"\xf9\x7e\0")?;
    writes_shortest(&rt, alloc, &100000.0f32, b"\xfa\x47\xc3\x50\0")
}

// The parts of a tuple, a list and a variant, and what is no float.
#[test]
fn writes_parts_shortest(rt: HostRuntime) -> Verdict {
    let alloc = rt.alloc();
    writes_shortest(
        &rt,
        alloc,
        &(1.5f64, true, 1.0f32),
        b"\x83\xf9\x3e\0\xf5\xf9\x3c\0",
    )?;
    let list: Vec<f64> = vec![in alloc; 1.5; 2]?;
    writes_shortest(&rt, alloc, &list, b"\x82\xf9\x3e\0\xf9\x3e\0")?;
    writes_shortest(&rt, alloc, &Some(-4.0f64), b"\xf9\xc4\0")
}

// {"x": 1.5}, by the field's name, or by its number where the format is packed too, in either order
// of the settings.
#[test]
fn writes_fields_shortest(rt: HostRuntime) -> Verdict {
    let alloc = rt.alloc();
    let named = Serializer::new(alloc, Vec::new(alloc)).shortest_floats();
    writes_a_field(&rt, named, b"\xa1\x61x\xf9\x3e\0")?;
    let later = Serializer::new(alloc, Vec::new(alloc))
        .shortest_floats()
        .packed_format();
    writes_a_field(&rt, later, b"\xa1\0\xf9\x3e\0")?;
    let first = Serializer::new(alloc, Vec::new(alloc))
        .packed_format()
        .shortest_floats();
    writes_a_field(&rt, first, b"\xa1\0\xf9\x3e\0")?;
    let wide = Serializer::new(alloc, Vec::new(alloc));
    writes_a_field(&rt, wide, b"\xa1\x61x\xfb\x3f\xf8\0\0\0\0\0\0")
}

fn writes_a_field(rt: &impl Abort, mut ser: Serializer<Vec<u8>>, want: &'static [u8]) -> Verdict {
    let mut fields = ser.serialize_struct("Point", 1)?;
    fields.serialize_field("x", &1.5f64)?;
    fields.end()?;
    let bytes = ser.into_inner();
    assert!(rt; bytes.as_slice() == want);
    Ok(())
}

const ONE_AND_A_HALF: Float = Float::Double(0x3ff8_0000_0000_0000);

// {1.5: 1([null, h'07', 1.1]), "a": -1}
#[test]
fn writes_within_values_shortest(rt: HostRuntime) -> Verdict {
    let alloc = rt.alloc();
    let bytes = Value::Bytes(vec![in alloc; 7; 1]?);
    let number = Value::Float(Float::from(1.1f64));
    let within = tag(
        alloc,
        1,
        Value::Array(vec![in alloc; Value::Null, bytes, number]?),
    )?;
    let mut map = Map::new(alloc);
    map.insert(text(alloc, "a")?, Value::Integer(-1))?;
    map.insert(Value::Float(ONE_AND_A_HALF), within)?;
    let want = b"\xa2\x61a\x20\xf9\x3e\0\xc1\x83\xf6\x41\x07\xfb\x3f\xf1\x99\x99\x99\x99\x99\x9a";
    writes_shortest(&rt, alloc, &Value::Map(map), want)
}

// Two floats of one number are two keys of a value, and stay two.
#[test]
fn keeps_the_pairs_of_a_map(rt: HostRuntime) -> Verdict {
    let alloc = rt.alloc();
    let mut map = Map::new(alloc);
    map.insert(Value::Float(ONE_AND_A_HALF), Value::Integer(2))?;
    map.insert(Value::Float(Float::Half(0x3e00)), Value::Integer(1))?;
    writes_shortest(
        &rt,
        alloc,
        &Value::Map(map),
        b"\xa2\xf9\x3e\0\x01\xf9\x3e\0\x02",
    )
}

//! Structs, read field by field.

use crate::checks::ends_here;
use cbor_de::{Deserializer, Field};
use cbor_io::error::Result as Answer;
use test_checks::{Verdict, is_refused};

#[test]
fn reads_field_by_field(rt: HostRuntime) -> Verdict {
    let mut de = Deserializer::from_slice(rt.alloc(), b"\xa2\x61b\xf5\x00\x0a");
    let mut fields = de.structure(&["a", "b"])?;
    assert!(rt; fields.size_hint() == Some(2));
    assert!(rt; fields.next_field()? == Some(Field::Known(1)));
    assert!(rt; fields.value::<bool>()?);
    assert!(rt; fields.next_field()? == Some(Field::Known(0)));
    fields.skip()?;
    assert!(rt; fields.next_field()?.is_none());
    fields.end()?;
    ends_here(&mut de)
}

#[test]
fn leaves_a_struct_for_an_error(rt: HostRuntime) -> Verdict {
    let mut de = Deserializer::from_slice(rt.alloc(), b"\xa1\x00\x01");
    let fields = de.structure(&["a"])?;
    let e = fields.duplicate("a");
    is_refused(Answer::<()>::Err(e), "duplicate field `a`")?;
    Ok(())
}

#[test]
fn ends_no_struct_before_its_fields(rt: HostRuntime) -> Verdict {
    let mut de = Deserializer::from_slice(rt.alloc(), b"\xa1\x00\x01");
    let fields = de.structure(&["a"])?;
    is_refused(fields.end(), "trailing data at offset 1")?;
    Ok(())
}

// A slot that is full is left as it is, and one that is empty is asked for in vain.
#[test]
fn reads_a_field_into_its_slot_once(rt: HostRuntime) -> Verdict {
    let mut de = Deserializer::from_slice(rt.alloc(), b"\xa2\x61a\x05\x00\x06");
    let mut fields = de.structure(&["a", "b"])?;
    let mut a: Option<u8> = None;
    assert!(rt; fields.next_field()? == Some(Field::Known(0)));
    fields.once("a", &mut a)?;
    assert!(rt; a == Some(5));
    assert!(rt; fields.next_field()? == Some(Field::Known(0)));
    is_refused(fields.once("a", &mut a), "duplicate field `a`")?;
    assert!(rt; a == Some(5));
    Ok(())
}

#[test]
fn asks_for_a_field(rt: HostRuntime) -> Verdict {
    let mut de = Deserializer::from_slice(rt.alloc(), b"\xa0");
    let mut fields = de.structure(&["a"])?;
    assert!(rt; fields.next_field()?.is_none());
    assert!(rt; fields.required("a", Some(5u8))? == 5);
    let absent = fields.required::<u8>("a", None);
    is_refused(absent, "missing field `a`")?;
    Ok(())
}

#[test]
fn reads_floats_in_fields(rt: HostRuntime) -> Verdict {
    let bytes = b"\xa2\x61b\xfa\x47\xc3\x50\0\x61a\xfb\x3f\xf1\x99\x99\x99\x99\x99\x9a";
    let mut de = Deserializer::from_slice(rt.alloc(), bytes);
    let mut fields = de.structure(&["a", "b"])?;
    assert!(rt; fields.next_field()? == Some(Field::Known(1)));
    assert!(rt; fields.value::<f64>()? == 100000.0);
    assert!(rt; fields.next_field()? == Some(Field::Known(0)));
    is_refused(fields.value::<f32>(), "float out of range: expected f32")?;
    Ok(())
}

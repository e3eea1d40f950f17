//! The calls of a serializer.

use crate::checks::{FailingWriter, is_too_far_out};
use cbor_ser::{IoWrite, Serializer, SliceWrite};
use cbor_value::Float;
use std::alloc::Global;
use std::process::Abort;
use test_checks::{Verdict, is_refused};

/// What was written is this.
fn is_written(rt: &impl Abort, ser: Serializer<Vec<u8>>, bytes: &'static [u8]) {
    let written = ser.into_inner();
    assert!(rt; written.as_slice() == bytes);
}

fn to_vector(alloc: Global) -> Serializer<Vec<u8>> {
    Serializer::new(alloc, Vec::new(alloc))
}

#[test]
fn writes_wide_numbers(rt: HostRuntime) -> Verdict {
    let mut ser = to_vector(rt.alloc());
    ser.serialize_i64(i64::MIN)?;
    ser.serialize_u64(4294967296)?;
    let bytes = b"\x3b\x7f\xff\xff\xff\xff\xff\xff\xff\x1b\0\0\0\x01\0\0\0\0";
    is_written(&rt, ser, bytes);
    Ok(())
}

#[test]
fn writes_whole_numbers(rt: HostRuntime) -> Verdict {
    let mut ser = to_vector(rt.alloc());
    write_small_numbers(&mut ser)?;
    write_greater_numbers(&mut ser)?;
    let bytes = b"\x18\x18\x24\x39\x01\x2b\x3a\x01\x67\x9e\x7c\x19\x03\xe8\x1a\0\x0f\x42\x40";
    is_written(&rt, ser, bytes);
    Ok(())
}

fn write_small_numbers(ser: &mut Serializer<Vec<u8>>) -> Verdict {
    ser.serialize_u8(24)?;
    ser.serialize_i8(-5)?;
    ser.serialize_i16(-300)?;
    Ok(())
}

fn write_greater_numbers(ser: &mut Serializer<Vec<u8>>) -> Verdict {
    ser.serialize_i32(-23567997)?;
    ser.serialize_u16(1000)?;
    ser.serialize_u32(1000000)?;
    Ok(())
}

#[test]
fn writes_numbers_of_128_bits(rt: HostRuntime) -> Verdict {
    let mut ser = to_vector(rt.alloc());
    ser.serialize_i128(-1 - u64::MAX as i128)?;
    refuses_numbers_of_128_bits(&rt, &mut ser)?;
    ser.serialize_u128(9)?;
    is_written(&rt, ser, b"\x3b\xff\xff\xff\xff\xff\xff\xff\xff\x09");
    Ok(())
}

fn refuses_numbers_of_128_bits(rt: &impl Abort, ser: &mut Serializer<Vec<u8>>) -> Verdict {
    is_too_far_out(rt, ser.serialize_i128(1 << 64))?;
    is_too_far_out(rt, ser.serialize_u128(1 << 64))?;
    is_too_far_out(rt, ser.serialize_i128(-2 - u64::MAX as i128))
}

#[test]
fn writes_tags_and_simple_values(rt: HostRuntime) -> Verdict {
    let mut ser = to_vector(rt.alloc());
    write_tags(&mut ser)?;
    write_simple_values(&mut ser)?;
    write_floats(&mut ser)?;
    let bytes = b"\xd9\xd9\xf7\xf5\xd9\xd9\xf7\x09\xf4\xf6\xf6\xf6\xf9\x3c\0\xfa\x47\xc3\x50\0";
    is_written(&rt, ser, bytes);
    Ok(())
}

fn write_tags(ser: &mut Serializer<Vec<u8>>) -> Verdict {
    ser.serialize_tag(55799)?;
    ser.serialize_bool(true)?;
    ser.self_describe()?;
    ser.serialize_u64(9)?;
    Ok(())
}

fn write_simple_values(ser: &mut Serializer<Vec<u8>>) -> Verdict {
    ser.serialize_bool(false)?;
    ser.serialize_unit()?;
    ser.serialize_none()?;
    ser.serialize_unit_struct("Empty")?;
    Ok(())
}

fn write_floats(ser: &mut Serializer<Vec<u8>>) -> Verdict {
    ser.serialize_float(Float::Half(0x3c00))?;
    ser.serialize_float(Float::Single(0x47c35000))?;
    Ok(())
}

#[test]
fn writes_strings(rt: HostRuntime) -> Verdict {
    let mut ser = to_vector(rt.alloc());
    ser.serialize_char('é')?;
    ser.serialize_str("aâø↓é")?;
    ser.serialize_bytes(b"\x01\x23")?;
    let bytes = b"\x62\xc3\xa9\x6a\x61\xc3\xa2\xc3\xb8\xe2\x86\x93\xc3\xa9\x42\x01\x23";
    is_written(&rt, ser, bytes);
    Ok(())
}

#[test]
fn writes_long_strings(rt: HostRuntime) -> Verdict {
    let alloc = rt.alloc();
    let content: Vec<u8> = vec![in alloc; 7; 65536]?;
    writes_head(&rt, alloc, &content[..24], b"\x58\x18")?;
    writes_head(&rt, alloc, &content[..256], b"\x59\x01\0")?;
    writes_head(&rt, alloc, &content, b"\x5a\0\x01\0\0")
}

/// This head stands before the content.
fn writes_head(rt: &impl Abort, alloc: Global, content: &[u8], head: &[u8]) -> Verdict {
    let mut ser = to_vector(alloc);
    ser.serialize_bytes(content)?;
    let bytes = ser.into_inner();
    assert!(rt; bytes.starts_with(head));
    assert!(rt; bytes.len().checked_sub(head.len()) == Some(content.len()));
    Ok(())
}

#[test]
fn stops_where_a_slice_is_full(rt: HostRuntime) -> Verdict {
    let mut room = [0; 3];
    let mut ser = Serializer::new(rt.alloc(), SliceWrite::new(&mut room));
    let refused = ser.serialize_str("foobar");
    is_refused(refused, "Scratch buffer too small at offset 1")?;
    let sink = ser.into_inner();
    assert!(rt; sink.bytes_written() == 1);
    assert!(rt; &*sink.into_inner() == b"\x66\0\0".as_slice());
    Ok(())
}

#[test]
fn fills_a_slice(rt: HostRuntime) -> Verdict {
    let mut room = [0; 7];
    let mut ser = Serializer::new(rt.alloc(), SliceWrite::new(&mut room));
    ser.serialize_str("foobar")?;
    is_refused(ser.serialize_unit(), "Scratch buffer too small at offset 7")?;
    let sink = ser.into_inner();
    assert!(rt; sink.bytes_written() == 7);
    assert!(rt; &*sink.into_inner() == b"\x66foobar".as_slice());
    Ok(())
}

// A text is two pieces, and its head is one.
#[test]
fn reports_a_writers_fault(rt: HostRuntime) -> Verdict {
    let alloc = rt.alloc();
    for left in 0..2usize {
        let mut ser = Serializer::new(alloc, IoWrite::new(FailingWriter::new(alloc, left)?));
        is_refused(ser.serialize_str("foobar"), "I/O error")?;
    }
    let mut ser = Serializer::new(alloc, IoWrite::new(FailingWriter::new(alloc, 2)?));
    ser.serialize_str("foobar")?;
    Ok(())
}

// A serializer is printed by its settings, with no byte of what was written.
#[test]
fn prints_no_bytes(rt: HostRuntime) -> Verdict {
    let alloc = rt.alloc();
    let mut ser = Serializer::new(alloc, Vec::new(alloc)).packed_format();
    ser.serialize_u64(9)?;
    let text = format!(in alloc; "{ser:?}")?;
    assert!(rt; text.as_str() == "Serializer { packed: true, legacy: false, shortest: false, .. }");
    Ok(())
}

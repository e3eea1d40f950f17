//! What is written to sinks of each kind.

use crate::checks::{FailingWriter, is_written_up_to, tag, text, writes};
use cbor_io::error;
use cbor_ser::{IoWrite, Serializer, SliceWrite, to_writer};
use cbor_value::bytes::ByteBuf;
use cbor_value::{Float, Map, Value};
use std::alloc::Global;
use std::process::Abort;
use std::test::Fail;
use test_checks::{Verdict, is_refused};

/// A value with each kind of item in it, whose encoding `EACH_KIND` puts together from RFC 7049,
/// sections 2.1 to 2.4 and appendix A.
fn each_kind(alloc: Global) -> Result<Value, Fail> {
    let mut items = plain(alloc)?;
    push_others(alloc, &mut items)?;
    Ok(Value::Array(items))
}

fn plain(alloc: Global) -> Result<Vec<Value>, Fail> {
    Ok(vec![in alloc;
        Value::Null,
        Value::Bool(true),
        Value::Integer(-300),
        Value::Float(Float::Half(0x3c00)),
        Value::Float(Float::Single(0x47c35000)),
        Value::Float(Float::Double(0x3ff1_9999_9999_999a)),
    ]?)
}

fn push_others(alloc: Global, items: &mut Vec<Value>) -> Verdict {
    items.push(Value::Bytes(vec![in alloc; 0x01, 0x23]?))?;
    items.push(text(alloc, "ab")?)?;
    items.push(one_pair(alloc)?)?;
    items.push(tag(alloc, 1, Value::Integer(1363896240))?)?;
    Ok(())
}

fn one_pair(alloc: Global) -> Result<Value, Fail> {
    let mut map = Map::new(alloc);
    let pair = vec![in alloc; Value::Integer(2), Value::Integer(3)]?;
    let _ = map.insert(Value::Integer(1), Value::Array(pair))?;
    Ok(Value::Map(map))
}

const EACH_KIND: [u8; 40] = [
    0x8a, 0xf6, 0xf5, 0x39, 0x01, 0x2b, 0xf9, 0x3c, 0x00, 0xfa, 0x47, 0xc3, 0x50, 0x00, 0xfb, 0x3f,
    0xf1, 0x99, 0x99, 0x99, 0x99, 0x99, 0x9a, 0x42, 0x01, 0x23, 0x62, b'a', b'b', 0xa1, 0x01, 0x82,
    0x02, 0x03, 0xc1, 0x1a, 0x51, 0x4b, 0x67, 0xb0,
];

// How many pieces these are: 16 heads and floats, and what two strings hold.
const PIECES: usize = 18;

#[test]
fn spells_each_kind(rt: HostRuntime) -> Verdict {
    let alloc = rt.alloc();
    writes(&rt, alloc, &each_kind(alloc)?, EACH_KIND.as_slice())
}

#[test]
fn makes_values_of_byte_strings(rt: HostRuntime) -> Verdict {
    let alloc = rt.alloc();
    let made = Value::from(ByteBuf::from(Vec::from_slice(alloc, b"ab")?));
    writes(&rt, alloc, &made, b"\x42ab")?;
    writes(&rt, alloc, &b"ab".as_slice(), b"\x42ab")
}

#[test]
fn appends_each_kind(rt: HostRuntime) -> Verdict {
    let alloc = rt.alloc();
    let mut bytes = vec![in alloc; 0x9f]?;
    to_writer(alloc, &mut bytes, &each_kind(alloc)?)?;
    assert!(rt; bytes[0] == 0x9f);
    assert!(rt; &bytes[1..] == EACH_KIND.as_slice());
    Ok(())
}

// A slice of each length: what a refusal leaves is a prefix of the whole.
#[test]
fn fills_slices_of_each_length(rt: HostRuntime) -> Verdict {
    let alloc = rt.alloc();
    let value = each_kind(alloc)?;
    for len in 0..=EACH_KIND.len() {
        fills_a_slice_of(&rt, alloc, &value, len);
    }
    Ok(())
}

/// A slice of this length holds a prefix of the bytes. What is after them is untouched.
fn fills_a_slice_of(rt: &impl Abort, alloc: Global, value: &Value, len: usize) {
    let mut room = [0; 40];
    assert!(rt; len <= room.len());
    let mut sink = SliceWrite::new(&mut room[..len]);
    let done = to_writer(alloc, &mut sink, value);
    let count = sink.bytes_written();
    ends_there(rt, done, len, count);
    holds(rt, sink.into_inner(), count);
}

/// The slice holds so many of the bytes, and nothing after them.
fn holds(rt: &impl Abort, slice: &[u8], count: usize) {
    assert!(rt; count <= slice.len());
    assert!(rt; EACH_KIND.starts_with(&slice[..count]));
    assert!(rt; [0; 40].starts_with(&slice[count..]));
}

/// A slice of this length, of which so many bytes were written, ends the call so.
fn ends_there(rt: &impl Abort, done: error::Result<()>, len: usize, count: usize) {
    match done {
        Ok(()) => assert!(rt; len == 40 && count == 40),
        Err(error) => {
            assert!(rt; len < 40);
            assert!(rt; error.is_scratch_too_small());
            assert!(rt; error.offset() == count as u64);
        }
    }
}

#[test]
fn reports_a_writers_fault_at_each_call(rt: HostRuntime) -> Verdict {
    let alloc = rt.alloc();
    let value = each_kind(alloc)?;
    let mut writer = FailingWriter::new(alloc, 0)?;
    for left in 0..=PIECES {
        writer.taken.clear();
        writer.left = left;
        let done = to_writer(alloc, &mut IoWrite::new(&mut writer), &value);
        fails_after(&rt, done, left, writer.taken.len())?;
        assert!(rt; EACH_KIND.starts_with(writer.taken.as_slice()));
    }
    Ok(())
}

/// A writer that takes so many pieces, of so many bytes, ends the call so.
fn fails_after(rt: &impl Abort, done: error::Result<()>, left: usize, count: usize) -> Verdict {
    if left == PIECES {
        done?;
        return Ok(());
    }
    assert!(rt; count < EACH_KIND.len());
    is_refused(done, "I/O error")
}

#[test]
fn refuses_any_byte_where_there_is_no_room(rt: HostRuntime) -> Verdict {
    let mut room: [u8; 0] = [];
    let mut ser = Serializer::new(rt.alloc(), SliceWrite::new(&mut room));
    is_refused(ser.serialize_unit(), "Scratch buffer too small")?;
    assert!(rt; ser.into_inner().bytes_written() == 0);
    Ok(())
}

#[test]
fn refuses_numbers_that_are_too_far_out(rt: HostRuntime) -> Verdict {
    for i in [1 << 64, -2 - u64::MAX as i128] {
        stops_at(&rt, rt.alloc(), i)?;
    }
    Ok(())
}

/// The number is not written, alone, in an array and under a tag.
fn stops_at(rt: &impl Abort, alloc: Global, i: i128) -> Verdict {
    is_written_up_to(rt, alloc, &Value::Integer(i), b"")?;
    let array = vec![in alloc; Value::Null, Value::Integer(i)]?;
    is_written_up_to(rt, alloc, &Value::Array(array), b"\x82\xf6")?;
    is_written_up_to(rt, alloc, &tag(alloc, 1, Value::Integer(i))?, b"\xc1")
}

// These calls take no allocator, so that no memory is asked for.
#[test]
fn fills_a_slice_without_memory(rt: HostRuntime) -> Verdict {
    let mut room = [0; 28];
    let mut ser = Serializer::new(rt.alloc(), SliceWrite::new(&mut room));
    write_plain(&mut ser)?;
    write_more(&mut ser)?;
    let sink = ser.into_inner();
    assert!(rt; sink.bytes_written() == 25);
    let bytes = b"\xf4\xf6\x1b\xff\xff\xff\xff\xff\xff\xff\xff\
        \x39\x01\x2b\xf9\x3c\0\x61a\x62ab\x42\x01\x23\0\0\0";
    assert!(rt; &*sink.into_inner() == bytes.as_slice());
    Ok(())
}

fn write_plain(ser: &mut Serializer<SliceWrite<'_>>) -> Verdict {
    ser.serialize_bool(false)?;
    ser.serialize_unit()?;
    ser.serialize_u64(u64::MAX)?;
    ser.serialize_i64(-300)?;
    Ok(())
}

fn write_more(ser: &mut Serializer<SliceWrite<'_>>) -> Verdict {
    ser.serialize_float(Float::Half(0x3c00))?;
    ser.serialize_char('a')?;
    ser.serialize_str("ab")?;
    ser.serialize_bytes(b"\x01\x23")?;
    Ok(())
}

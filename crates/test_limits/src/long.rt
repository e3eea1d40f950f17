//! Strings, chunks, arrays, maps and messages of 65,536 bytes or items, by each source and sink.

use cbor_de::{
    Deserializer, IgnoredAny, from_mut_slice, from_reader, from_slice, from_slice_with_scratch,
};
use cbor_io::error::{Error, Result as Answer};
use cbor_ser::{IoWrite, SliceWrite, to_vec, to_writer};
use cbor_strict::from_slice_canonical;
use cbor_value::Value;
use std::alloc::{AllocError, Global};
use std::process::Abort;
use std::test::Fail;
use test_checks::{Verdict, is_refused};

const MANY: usize = 65_536;

/// A front, and this many times after it.
fn times(alloc: Global, front: &[u8], part: &[u8], count: usize) -> Result<Vec<u8>, AllocError> {
    let len = part.len().saturating_mul(count).saturating_add(front.len());
    let mut bytes = Vec::with_capacity(alloc, len.saturating_add(1))?;
    bytes.extend_from_slice(front)?;
    for _ in 0..count {
        bytes.extend_from_slice(part)?;
    }
    Ok(bytes)
}

/// A front, this many times after it, and a break.
fn up_to_break(
    alloc: Global,
    front: &[u8],
    part: &[u8],
    count: usize,
) -> Result<Vec<u8>, AllocError> {
    let mut bytes = times(alloc, front, part, count)?;
    bytes.push(0xff)?;
    Ok(bytes)
}

/// The value is written as these bytes by each sink.
fn writes(rt: &impl Abort, alloc: Global, value: &Value, want: &[u8]) -> Verdict {
    assert!(rt; to_vec(alloc, value)?.as_slice() == want);
    let mut file: Vec<u8> = Vec::with_capacity(alloc, want.len())?;
    to_writer(alloc, &mut IoWrite::new(&mut file), value)?;
    assert!(rt; file.as_slice() == want);
    fills(rt, alloc, value, want)
}

/// A slice of their length is filled by the value's bytes.
fn fills(rt: &impl Abort, alloc: Global, value: &Value, want: &[u8]) -> Verdict {
    let mut room: Vec<u8> = vec![in alloc; 0; want.len()]?;
    let mut sink = SliceWrite::new(&mut room);
    to_writer(alloc, &mut sink, value)?;
    assert!(rt; sink.bytes_written() == want.len());
    assert!(rt; &*sink.into_inner() == want);
    Ok(())
}

#[derive(Clone, Copy)]
enum By {
    Slice,
    Scratch,
    MutSlice,
    Reader,
}

fn read(alloc: Global, bytes: &[u8], by: By) -> Answer<Value> {
    match by {
        By::Slice => from_slice(alloc, bytes),
        By::Scratch => {
            let mut scratch: Vec<u8> = vec![in alloc; 0; 131_072]?;
            from_slice_with_scratch(alloc, bytes, &mut scratch)
        }
        By::MutSlice => from_mut_slice(alloc, &mut Vec::from_slice(alloc, bytes)?),
        By::Reader => from_reader(alloc, bytes),
    }
}

/// The bytes are a value by each source, which is written as those.
fn becomes(rt: &impl Abort, alloc: Global, bytes: &[u8], want: &[u8]) -> Verdict {
    for by in [By::Slice, By::Scratch, By::MutSlice, By::Reader] {
        writes(rt, alloc, &read(alloc, bytes, by)?, want)?;
    }
    Ok(())
}

/// They are the canonical encoding of it.
fn stays(rt: &impl Abort, alloc: Global, bytes: &[u8]) -> Verdict {
    becomes(rt, alloc, bytes, bytes)?;
    writes(rt, alloc, &from_slice_canonical(alloc, bytes)?, bytes)
}

#[test]
fn keeps_long_strings(rt: HostRuntime) -> Verdict {
    let alloc = rt.alloc();
    for (head, part) in [
        (b"\x5a\0\x01\0\0", &b"\x2a"[..]),
        (b"\x7a\0\x01\0\0", b"a"),
        (b"\x7a\0\x03\0\0", "水".as_bytes()),
    ] {
        stays(&rt, alloc, &times(alloc, head, part, MANY)?)?;
    }
    Ok(())
}

#[test]
fn joins_many_chunks(rt: HostRuntime) -> Verdict {
    let alloc = rt.alloc();
    for (open, chunk, head, part) in [
        (b"\x5f", b"\x41\x2a", b"\x5a\0\x01\0\0", b"\x2a"),
        (b"\x7f", b"\x61a", b"\x7a\0\x01\0\0", b"a"),
    ] {
        let bytes = up_to_break(alloc, open, chunk, MANY)?;
        becomes(&rt, alloc, &bytes, &times(alloc, head, part, MANY)?)?;
    }
    Ok(())
}

// Bytes that were moved for each chunk would take minutes.
#[test]
fn joins_two_million_chunks_in_place(rt: HostRuntime) -> Verdict {
    let alloc = rt.alloc();
    let chunks = times(alloc, b"", b"\x41\x2a", MANY)?;
    let mut bytes = up_to_break(alloc, b"\x5f", &chunks, 32)?;
    let joined = from_mut_slice::<&[u8]>(alloc, &mut bytes)?;
    assert!(rt; joined.len() == 2_097_152);
    assert!(rt; joined.iter().all(|&byte| byte == 0x2a));
    Ok(())
}

#[test]
fn joins_long_chunks(rt: HostRuntime) -> Verdict {
    let alloc = rt.alloc();
    let chunk = times(alloc, b"\x7a\0\x01\0\0", b"a", MANY)?;
    let bytes = up_to_break(alloc, b"\x7f", &chunk, 2)?;
    let joined = times(alloc, b"\x7a\0\x02\0\0", b"aa", MANY)?;
    becomes(&rt, alloc, &bytes, &joined)
}

#[test]
fn keeps_long_arrays(rt: HostRuntime) -> Verdict {
    let alloc = rt.alloc();
    let array = times(alloc, b"\x9a\0\x01\0\0", b"\xf6", MANY)?;
    stays(&rt, alloc, &array)?;
    becomes(
        &rt,
        alloc,
        &up_to_break(alloc, b"\x9f", b"\xf6", MANY)?,
        &array,
    )
}

/// The pairs from 0 to 65,535, each to null, in ascending order of their keys.
fn push_pairs(bytes: &mut Vec<u8>) -> Result<(), AllocError> {
    for key in 0..=u16::MAX {
        let [high, low] = key.to_be_bytes();
        match key {
            0..24 => bytes.push(low)?,
            24..256 => bytes.extend_from_slice(&[0x18, low])?,
            _ => bytes.extend_from_slice(&[0x19, high, low])?,
        }
        bytes.push(0xf6)?;
    }
    Ok(())
}

#[test]
fn keeps_long_maps(rt: HostRuntime) -> Verdict {
    let alloc = rt.alloc();
    let mut map = Vec::from_slice(alloc, b"\xba\0\x01\0\0")?;
    push_pairs(&mut map)?;
    stays(&rt, alloc, &map)?;
    let mut open = Vec::from_slice(alloc, b"\xbf")?;
    push_pairs(&mut open)?;
    open.push(0xff)?;
    becomes(&rt, alloc, &open, &map)
}

/// How many items a stream over a reader has.
fn counts(alloc: Global, bytes: &[u8]) -> Result<usize, Fail> {
    let mut count = 0usize;
    for item in Deserializer::from_reader(alloc, bytes).into_iter::<IgnoredAny>() {
        item?;
        count = count.saturating_add(1);
    }
    Ok(count)
}

#[test]
fn reads_long_streams(rt: HostRuntime) -> Verdict {
    let alloc = rt.alloc();
    let count = counts(alloc, &times(alloc, b"", b"\x62ab", MANY)?)?;
    assert!(rt; count == MANY);
    Ok(())
}

fn text_by_reader(alloc: Global, bytes: &[u8]) -> Answer<String> {
    from_reader(alloc, bytes)
}

fn skipped_by_reader(alloc: Global, bytes: &[u8]) -> Answer<IgnoredAny> {
    from_reader(alloc, bytes)
}

#[test]
fn refuses_long_items_that_are_cut_off(rt: HostRuntime) -> Verdict {
    let alloc = rt.alloc();
    let text = times(alloc, b"\x7a\0\x01\0\x01", b"a", MANY)?;
    let end = "EOF while parsing a value at offset 65541";
    is_refused(read(alloc, &text, By::Slice), end)?;
    is_refused(text_by_reader(alloc, &text), end)?;
    let array = times(alloc, b"\x9f", b"\xf6", MANY)?;
    let end = "EOF while parsing an array at offset 65537";
    is_refused(read(alloc, &array, By::Slice), end)?;
    is_refused(skipped_by_reader(alloc, &array), end)
}

#[test]
fn refuses_a_long_text_that_is_not_utf8(rt: HostRuntime) -> Verdict {
    let alloc = rt.alloc();
    let mut text = times(alloc, b"\x7a\0\x01\0\x01", b"a", MANY)?;
    text.push(0xff)?;
    let bad = "invalid UTF-8 at offset 65541";
    is_refused(read(alloc, &text, By::Slice), bad)?;
    is_refused(text_by_reader(alloc, &text), bad)
}

// A message owns its text, which is printed whole.
#[test]
fn prints_long_messages(rt: HostRuntime) -> Verdict {
    let alloc = rt.alloc();
    let bytes = times(alloc, b"", b"a", MANY)?;
    let text = str::from_utf8(&bytes).map_err(|_| Fail::from("no text"))?;
    let e = Error::message(alloc, text);
    if e.is_memory() {
        return Err(Fail::from(e));
    }
    assert!(rt; e.to_string(alloc)?.as_str() == text);
    Ok(())
}

//! How much room is taken for what is read and written.

use cbor_de::from_slice;
use cbor_io::error::Result as Answer;
use cbor_read::{IoRead, Source};
use cbor_ser::to_vec;
use cbor_strict::from_slice_canonical_as;
use cbor_value::Value;
use std::alloc::Global;
use std::process::Abort;
use std::test::Fail;
use test_checks::{Verdict, is_refused};

/// An array of indefinite length, of so many zeros (RFC 7049, section 2.2.1).
fn zeros(alloc: Global, count: usize) -> Result<Vec<u8>, Fail> {
    let mut bytes = Vec::with_capacity(alloc, count.saturating_add(2))?;
    bytes.push(0x9f)?;
    for _ in 0..count {
        bytes.push(0)?;
    }
    bytes.push(0xff)?;
    Ok(bytes)
}

/// A vector of so many that grew by doubling has room for at most twice as many, and for half as
/// many again where they were just too many.
fn has_doubled(rt: &impl Abort, len: usize, capacity: usize) {
    assert!(rt; len == 65_537);
    assert!(rt; capacity >= 98_304);
    assert!(rt; capacity <= 131_072);
}

fn numbers(alloc: Global, bytes: &[u8]) -> Answer<Vec<u8>> {
    from_slice(alloc, bytes)
}

fn values(alloc: Global, bytes: &[u8]) -> Result<Vec<Value>, Fail> {
    let value: Value = from_slice(alloc, bytes)?;
    let Ok(items) = value.into_array() else {
        return Err(Fail::from("no array"));
    };
    Ok(items)
}

#[test]
fn grows_by_doubling(rt: HostRuntime) -> Verdict {
    let alloc = rt.alloc();
    let bytes = zeros(alloc, 65_537)?;
    let numbers = numbers(alloc, &bytes)?;
    has_doubled(&rt, numbers.len(), numbers.capacity());
    let values = values(alloc, &bytes)?;
    has_doubled(&rt, values.len(), values.capacity());
    Ok(())
}

// The head of 65,533 items is of three bytes, and one more is written than 65,536.
#[test]
fn writes_by_doubling(rt: HostRuntime) -> Verdict {
    let alloc = rt.alloc();
    let written = to_vec(alloc, &numbers(alloc, &zeros(alloc, 65_534)?)?)?;
    has_doubled(&rt, written.len(), written.capacity());
    Ok(())
}

/// So many zeros are read into a vector of at most so much room.
fn takes_room(rt: &impl Abort, alloc: Global, bytes: &[u8], count: usize, most: usize) -> Verdict {
    let numbers = numbers(alloc, bytes)?;
    assert!(rt; numbers.len() == count && numbers.capacity() <= most);
    let values = values(alloc, bytes)?;
    assert!(rt; values.len() == count && values.capacity() <= most);
    Ok(())
}

#[test]
fn takes_room_for_the_items_that_there_are(rt: HostRuntime) -> Verdict {
    for (bytes, count, most) in [
        (&b"\x80"[..], 0, 0),
        (b"\x81\0", 1, 1),
        (b"\x82\0\0", 2, 8),
        (b"\x83\0\0\0", 3, 8),
        (b"\x9f\0\0\0\xff", 3, 8),
        (b"\x89\0\0\0\0\0\0\0\0\0", 9, 16),
    ] {
        takes_room(&rt, rt.alloc(), bytes, count, most)?;
    }
    Ok(())
}

// What a reader passes over is held one string at a time.
#[test]
fn holds_what_it_skips_alone(rt: HostRuntime) -> Verdict {
    let alloc = rt.alloc();
    let bytes = zeros(alloc, 65_536)?;
    let mut source = IoRead::new(alloc, bytes.as_slice());
    for _ in 0..500u16 {
        source.skip(64)?;
        assert!(rt; source.buffer().len() <= 64);
        source.skip_text(65)?;
        assert!(rt; source.buffer().len() <= 65);
    }
    Ok(())
}

fn strict_number(alloc: Global, bytes: &[u8]) -> Answer<u32> {
    from_slice_canonical_as(alloc, bytes)
}

// A text that is lent, a number, and a head that isn't the shortest (.ci/growths).
#[test]
fn reads_strictly_without_memory(rt: HostRuntime) -> Verdict {
    let alloc = rt.alloc();
    let text: &str = from_slice_canonical_as(alloc, b"\x65hello")?;
    assert!(rt; text == "hello");
    assert!(rt; strict_number(alloc, b"\x1a\x00\x01\x00\x00")? == 65_536);
    is_refused(
        strict_number(alloc, b"\x18\x17"),
        "not canonical at offset 2",
    )
}

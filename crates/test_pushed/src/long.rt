//! Many bytes, and many items, in time that grows with their number.

use crate::checks::{gives, waits};
use cbor_pushed::PushedItems;
use std::alloc::{AllocError, Global};
use std::process::Abort;
use test_checks::Verdict;

const MANY: usize = 20_000;

// A front, and this part many times after it.
fn times(alloc: Global, front: &[u8], part: &[u8]) -> Result<Vec<u8>, AllocError> {
    let mut bytes = Vec::new(alloc);
    bytes.extend_from_slice(front)?;
    for _ in 0..MANY {
        bytes.extend_from_slice(part)?;
    }
    Ok(bytes)
}

// An item comes byte by byte, and is asked for at each.
fn comes(rt: &impl Abort, alloc: Global, item: &[u8]) -> Verdict {
    let mut items = PushedItems::new(alloc);
    for byte in item {
        waits(&mut items)?;
        items.push(&[*byte])?;
    }
    gives(rt, &mut items, item)
}

// 20,000 numbers in an array, of each length
#[test]
fn a_long_array_comes_byte_by_byte(rt: HostRuntime) -> Verdict {
    let counted = times(rt.alloc(), b"\x99\x4e\x20", b"\x05")?;
    comes(&rt, rt.alloc(), &counted)?;
    let mut endless = times(rt.alloc(), b"\x9f", b"\x05")?;
    endless.push(0xff)?;
    comes(&rt, rt.alloc(), &endless)
}

// 20,000 bytes of a string, and as many chunks
#[test]
fn a_long_string_comes_byte_by_byte(rt: HostRuntime) -> Verdict {
    let text = times(rt.alloc(), b"\x79\x4e\x20", b"a")?;
    comes(&rt, rt.alloc(), &text)?;
    let mut chunks = times(rt.alloc(), b"\x5f", b"\x41a")?;
    chunks.push(0xff)?;
    comes(&rt, rt.alloc(), &chunks)
}

// 20,000 arrays, each of an array of a map of a tag, within one
#[test]
fn nested_items_come_byte_by_byte(rt: HostRuntime) -> Verdict {
    let mut nested = times(rt.alloc(), b"\x9f", b"\x81\x81\xa1\x01\xc1\x02")?;
    nested.push(0xff)?;
    comes(&rt, rt.alloc(), &nested)
}

// 20,000 items in one piece
#[test]
fn many_items_come_in_one_piece(rt: HostRuntime) -> Verdict {
    let all = times(rt.alloc(), b"", b"\x18\x18\x81\x02")?;
    let mut items = PushedItems::new(rt.alloc());
    items.push(&all)?;
    for _ in 0..MANY {
        gives(&rt, &mut items, b"\x18\x18")?;
        gives(&rt, &mut items, b"\x81\x02")?;
    }
    waits(&mut items)?;
    assert!(rt; items.bytes().is_empty());
    Ok(())
}

// Items are taken as they come, each with the beginning of the next: what was taken makes room.
#[test]
fn items_are_taken_as_they_come(rt: HostRuntime) -> Verdict {
    let mut items = PushedItems::new(rt.alloc());
    items.push(b"\x82")?;
    for _ in 0..MANY {
        items.push(b"\x01\x02\x82")?;
        gives(&rt, &mut items, b"\x82\x01\x02")?;
    }
    waits(&mut items)?;
    assert!(rt; items.bytes() == b"\x82".as_slice());
    Ok(())
}

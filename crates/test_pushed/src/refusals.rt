//! Bytes that no item begins with, each refused with the byte that shows it.

use crate::checks::{gives, is_refused_singly, waits};
use cbor_pushed::PushedItems;
use std::alloc::AllocError;
use test_checks::{Verdict, is_refused};

#[test]
fn refuses_what_no_item_begins_with(rt: HostRuntime) -> Verdict {
    let rows: [(&[u8], &str); 14] = [
        (b"\xff".as_slice(), "unexpected code at offset 1"),
        (b"\x1c".as_slice(), "unassigned type at offset 1"),
        (b"\xf8".as_slice(), "unassigned type at offset 1"),
        (b"\x82\x01\x1c".as_slice(), "unassigned type at offset 3"),
        (b"\x82\x01\xff".as_slice(), "unexpected code at offset 3"),
        (b"\xa1\xff".as_slice(), "unexpected code at offset 2"),
        // a break where the value of a key is wanted
        (b"\xbf\x01\xff".as_slice(), "unexpected code at offset 3"),
        (b"\xc1\xff".as_slice(), "unexpected code at offset 2"),
        // a byte string among the chunks of a text, and chunks within chunks
        (b"\x7f\x61a\x41".as_slice(), "unexpected code at offset 4"),
        (b"\x5f\x41a\x5f".as_slice(), "unexpected code at offset 4"),
        (b"\x5f\x41a\x5c".as_slice(), "unexpected code at offset 4"),
        // texts that aren't UTF-8
        (b"\x61\xff".as_slice(), "invalid UTF-8 at offset 1"),
        (b"\x82\x62a\xc3".as_slice(), "invalid UTF-8 at offset 3"),
        (
            b"\x7f\x61\xc3\x61\x28\xff".as_slice(),
            "invalid UTF-8 at offset 4",
        ),
    ];
    for (bytes, words) in rows {
        is_refused_singly(&rt, rt.alloc(), bytes, words)?;
    }
    Ok(())
}

// So many arrays, each within the one before it.
fn arrays(alloc: std::alloc::Global, count: usize) -> Result<Vec<u8>, AllocError> {
    vec![in alloc; 0x81; count]
}

#[test]
fn nests_127_levels(rt: HostRuntime) -> Verdict {
    let mut items = PushedItems::new(rt.alloc());
    let opened = arrays(rt.alloc(), 127)?;
    items.push(&opened)?;
    waits(&mut items)?;
    items.push(b"\x01\x02")?;
    assert_eq!(rt; items.item_len()?, Some(128));
    items.advance(128);
    gives(&rt, &mut items, b"\x02")
}

#[test]
fn refuses_more_levels(rt: HostRuntime) -> Verdict {
    let opened = arrays(rt.alloc(), 128)?;
    is_refused_singly(
        &rt,
        rt.alloc(),
        &opened,
        "recursion limit exceeded at offset 128",
    )
}

// An item before what is refused is given, and the offset counts from behind it.
#[test]
fn refuses_behind_an_item(rt: HostRuntime) -> Verdict {
    let mut items = PushedItems::new(rt.alloc());
    items.push(b"\x82\x01\x02\x81\x1d")?;
    gives(&rt, &mut items, b"\x82\x01\x02")?;
    is_refused(items.item_len(), "unassigned type at offset 2")?;
    assert!(rt; items.bytes() == b"\x81\x1d".as_slice());
    Ok(())
}

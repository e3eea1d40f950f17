//! What the tests ask. These promise nothing, so that a test of many rows carries no facts from one
//! to the next.

use cbor_pushed::PushedItems;
use std::alloc::Global;
use std::process::Abort;
use std::test::Fail;
use test_checks::{Verdict, is_refused};

/// No item is whole.
pub fn waits(items: &mut PushedItems) -> Verdict {
    match items.item_len() {
        Ok(None) => Ok(()),
        Ok(Some(_)) => Err(Fail::from("an item is whole")),
        Err(e) => Err(Fail::from(e)),
    }
}

/// An item of so many bytes is at the front; they are taken.
pub fn gives(rt: &impl Abort, items: &mut PushedItems, want: &[u8]) -> Verdict {
    match items.item_len() {
        Ok(Some(n)) => {
            assert!(rt; &items.bytes()[..n] == want);
            items.advance(n);
            Ok(())
        }
        Ok(None) => Err(Fail::from("no item is whole")),
        Err(e) => Err(Fail::from(e)),
    }
}

/// An item comes byte by byte: it is whole with its last byte, and not before.
pub fn comes_singly(rt: &impl Abort, alloc: Global, item: &[u8]) -> Verdict {
    let mut items = PushedItems::new(alloc);
    for byte in item {
        waits(&mut items)?;
        items.push(&[*byte])?;
    }
    gives(rt, &mut items, item)?;
    waits(&mut items)
}

/// It is whole, whatever follows it.
pub fn is_followed(rt: &impl Abort, alloc: Global, item: &[u8]) -> Verdict {
    let mut items = PushedItems::new(alloc);
    items.push(item)?;
    items.push(b"\x1c\xff")?;
    gives(rt, &mut items, item)
}

/// Bytes come one by one, and are refused with the last, by these words; all of them stay.
pub fn is_refused_singly(rt: &impl Abort, alloc: Global, bytes: &[u8], words: &str) -> Verdict {
    let mut items = PushedItems::new(alloc);
    for byte in bytes {
        waits(&mut items)?;
        items.push(&[*byte])?;
    }
    is_refused(items.item_len(), words)?;
    // whatever comes then
    items.push(b"\0\xff\xff")?;
    is_refused(items.item_len(), words)?;
    assert_eq!(rt; items.bytes().len(), bytes.len().saturating_add(3));
    Ok(())
}

//! Sets, which are arrays of their items in order.

use crate::checks::{is_unread, is_written};
use serde_cbor::from_slice;
use std::collections::BTreeSet;
use test_checks::Verdict;

#[test]
fn a_set_has_each_item_once(rt: HostRuntime) -> Verdict {
    let alloc = rt.alloc();
    let set: BTreeSet<u8> = from_slice(alloc, b"\x83\x03\x01\x18\x03")?;
    assert!(&rt; set.len() == 2);
    is_written(&rt, alloc, &set, b"\x82\x01\x03")
}

#[test]
fn a_set_ends_at_a_break(rt: HostRuntime) -> Verdict {
    let alloc = rt.alloc();
    let set: BTreeSet<String> = from_slice(alloc, b"\x9f\x61b\x61a\xff")?;
    is_written(&rt, alloc, &set, b"\x82\x61a\x61b")
}

const NO_SETS: &[(&[u8], &str)] = &[
    (b"\xa0", "invalid type: expected an array"),
    (b"\x81\xf5", "invalid type: expected an integer"),
    (b"\x82\x01", "EOF while parsing a value at offset 2"),
];

#[test]
fn what_is_no_set_is_refused(rt: HostRuntime) -> Verdict {
    for (bytes, words) in NO_SETS {
        is_unread::<BTreeSet<u8>>(rt.alloc(), bytes, words)?;
    }
    Ok(())
}

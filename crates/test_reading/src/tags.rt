//! Tags, entered and left.

use crate::checks::{ends_here, gives, has_taken};
use cbor_de::{Deserializer, SliceRead};
use std::process::Abort;
use test_checks::{Verdict, is_refused};

/// A tag of this number comes, and is entered; None where another item comes.
fn enters(rt: &impl Abort, de: &mut Deserializer<SliceRead<'_>>, want: Option<u64>) -> Verdict {
    assert!(rt; de.read_tag()? == want);
    Ok(())
}

fn leaves(rt: &impl Abort, de: &mut Deserializer<SliceRead<'_>>) {
    assert!(rt; de.levels_left() < 127);
    de.leave_tag();
}

#[test]
fn enters_and_leaves_tags(rt: HostRuntime) -> Verdict {
    let mut de = Deserializer::from_slice(rt.alloc(), b"\xd8\x18\xc1\x05\x06");
    enters(&rt, &mut de, Some(24))?;
    enters(&rt, &mut de, Some(1))?;
    enters(&rt, &mut de, None)?;
    gives(&rt, &mut de, 5u8)?;
    leaves(&rt, &mut de);
    leaves(&rt, &mut de);
    has_taken(&rt, &de, 4);
    gives(&rt, &mut de, 6u8)?;
    enters(&rt, &mut de, None)?;
    ends_here(&mut de)
}

#[test]
fn takes_nothing_of_another_item(rt: HostRuntime) -> Verdict {
    let alloc = rt.alloc();
    for bytes in [&b"\xbf"[..], b"\xdc", b"\xdf", b"\xe0", b"\x06", b""] {
        let mut de = Deserializer::from_slice(alloc, bytes);
        enters(&rt, &mut de, None)?;
        has_taken(&rt, &de, 0);
    }
    let mut de = Deserializer::from_slice(alloc, b"\xdb\xff\xff\xff\xff\xff\xff\xff\xff");
    enters(&rt, &mut de, Some(u64::MAX))
}

#[test]
fn refuses_a_head_cut_off(rt: HostRuntime) -> Verdict {
    let alloc = rt.alloc();
    let mut de = Deserializer::from_slice(alloc, b"\xd9\x01");
    let end = "EOF while parsing a value at offset 2";
    is_refused(de.read_tag(), end)
}

#[test]
fn refuses_a_level_too_many(rt: HostRuntime) -> Verdict {
    let alloc = rt.alloc();
    let deep = [0xc1; 128];
    let mut de = Deserializer::from_slice(alloc, &deep);
    for _ in 0..127 {
        enters(&rt, &mut de, Some(1))?;
    }
    let words = "recursion limit exceeded at offset 128";
    is_refused(de.read_tag(), words)
}

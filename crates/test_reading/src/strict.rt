//! Types that are read strictly, or refused by what comes first.

use cbor_io::error::Result as Answer;
use cbor_strict::from_slice_canonical_as;
use std::alloc::Global;
use test_checks::{Verdict, is_refused};

fn number(alloc: Global, bytes: &[u8]) -> Answer<u8> {
    from_slice_canonical_as(alloc, bytes)
}

#[test]
fn reads_types_from_canonical_spellings(rt: HostRuntime) -> Verdict {
    let alloc = rt.alloc();
    assert!(rt; number(alloc, b"\x18\x2a")? == 42);
    let bytes = b"\x63CID";
    let name: &str = from_slice_canonical_as(alloc, bytes)?;
    assert!(rt; name == "CID");
    let flags: Vec<bool> = from_slice_canonical_as(alloc, b"\x82\xf5\xf4")?;
    assert!(rt; flags.as_slice() == [true, false].as_slice());
    Ok(())
}

// 23 in a longer head, 300, 23 in a longer head before another byte, and 23 before undefined.
#[test]
fn refuses_types_by_the_first_departure(rt: HostRuntime) -> Verdict {
    for (bytes, words) in [
        (&b"\x18\x17"[..], "not canonical at offset 2"),
        (b"\x19\x01\x2c", "integer out of range: expected u8"),
        (b"\x18\x17\x00", "not canonical at offset 2"),
        (b"\x17\xf7", "trailing data at offset 2"),
    ] {
        is_refused(number(rt.alloc(), bytes), words)?;
    }
    Ok(())
}

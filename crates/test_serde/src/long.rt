// A text and a list of 65,536 bytes and numbers.

use cbor_serde::{from_reader, from_slice, from_slice_canonical, to_vec, to_vec_canonical};
use std::alloc::{AllocError, Global};
use test_checks::Verdict;

/// A head, and this byte 65,536 times after it.
fn long(alloc: Global, head: &[u8], byte: u8) -> Result<Vec<u8>, AllocError> {
    let mut bytes = Vec::with_capacity(alloc, 65_541)?;
    bytes.extend_from_slice(head)?;
    for _ in 0..65_536u32 {
        bytes.push(byte)?;
    }
    Ok(bytes)
}

#[test]
fn writes_and_reads_a_long_text(rt: HostRuntime) -> Verdict {
    let alloc = rt.alloc();
    let bytes = long(alloc, b"\x7a\0\x01\0\0", b'a')?;
    let text: &str = from_slice_canonical(alloc, &bytes)?;
    assert!(rt; text.len() == 65_536);
    assert!(rt; to_vec(alloc, &text)?.as_slice() == bytes.as_slice());
    let text: String = from_reader(alloc, bytes.as_slice())?;
    assert!(rt; to_vec_canonical(alloc, &text)?.as_slice() == bytes.as_slice());
    Ok(())
}

#[test]
fn writes_and_reads_a_long_list(rt: HostRuntime) -> Verdict {
    let alloc = rt.alloc();
    let bytes = long(alloc, b"\x9a\0\x01\0\0", 7)?;
    let list: Vec<u8> = from_slice(alloc, &bytes)?;
    assert!(rt; list.len() == 65_536);
    assert!(rt; to_vec(alloc, &list)?.as_slice() == bytes.as_slice());
    let list: Vec<u8> = from_reader(alloc, bytes.as_slice())?;
    assert!(rt; to_vec_canonical(alloc, &list)?.as_slice() == bytes.as_slice());
    Ok(())
}

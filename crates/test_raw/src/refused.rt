//! What encodes no item is refused where any item would be, and what isn't lent.

use cbor_de::{
    Deserialize, Deserializer, IoRead, SliceRead, from_reader, from_slice, from_slice_with_scratch,
};
use cbor_value::raw_value::{RawSlice, RawValue};
use std::process::Abort;
use test_checks::{Verdict, is_refused};

// The rows: bytes that encode no item, and how they are refused.
const ROWS: [(&[u8], &str); 8] = [
    (b"", "EOF while parsing a value"),
    (b"\x82\x01", "EOF while parsing a value at offset 2"),
    (b"\x9f\x01", "EOF while parsing an array at offset 2"),
    (b"\xbf", "EOF while parsing a map at offset 1"),
    (b"\x61\xff", "invalid UTF-8 at offset 1"),
    (b"\x1c", "unassigned type at offset 1"),
    (b"\xff", "unexpected code at offset 1"),
    (b"\x01\x02", "trailing data at offset 2"),
];

#[test]
fn refuses_what_encodes_no_item(rt: HostRuntime) -> Verdict {
    let alloc = rt.alloc();
    for (bytes, words) in ROWS {
        is_refused(from_slice::<RawSlice>(alloc, bytes), words)?;
        is_refused(from_slice::<RawValue>(alloc, bytes), words)?;
        is_refused(from_reader::<RawValue, _>(alloc, bytes), words)?;
    }
    Ok(())
}

#[test]
fn refuses_what_the_settings_refuse(rt: HostRuntime) -> Verdict {
    let alloc = rt.alloc();
    let mut de = Deserializer::new(alloc, SliceRead::new(alloc, b"\x81\x81\0")).nesting_limit(1);
    is_refused(
        RawSlice::deserialize(&mut de),
        "recursion limit exceeded at offset 2",
    )?;
    let mut de = Deserializer::new(
        alloc,
        SliceRead::new(alloc, b"\xa1\x61a\0"),
    ).disable_named_format();
    is_refused(
        RawSlice::deserialize(&mut de),
        "wrong struct format at offset 1",
    )?;
    let mut scratch = [0; 1];
    let chunks = b"\x5f\x41a\x41b\xff";
    is_refused(
        from_slice_with_scratch::<RawSlice>(alloc, chunks, &mut scratch),
        "Scratch buffer too small at offset 4",
    )?;
    is_refused(
        from_slice_with_scratch::<RawValue>(alloc, chunks, &mut scratch),
        "Scratch buffer too small at offset 4",
    )
}

// The same of a reader, behind an item of one byte.
#[test]
fn refuses_of_a_reader_what_the_settings_refuse(rt: HostRuntime) -> Verdict {
    let alloc = rt.alloc();
    let deep: &[u8] = b"\x05\x81\x81\0";
    let mut de = Deserializer::new(alloc, IoRead::new(alloc, deep)).nesting_limit(1);
    assert_eq!(rt; u8::deserialize(&mut de)?, 5);
    is_refused(
        RawValue::deserialize(&mut de),
        "recursion limit exceeded at offset 3",
    )?;
    let named: &[u8] = b"\x05\xa1\x61a\0";
    let mut de = Deserializer::new(alloc, IoRead::new(alloc, named)).disable_named_format();
    assert_eq!(rt; u8::deserialize(&mut de)?, 5);
    is_refused(
        RawValue::deserialize(&mut de),
        "wrong struct format at offset 2",
    )
}

// A reader lends nothing for the input's life: the item is passed over.
#[test]
fn refuses_what_is_not_lent(rt: HostRuntime) -> Verdict {
    let alloc = rt.alloc();
    let bytes: &[u8] = b"\x82\x01\x02\x05";
    let mut de = Deserializer::new(alloc, IoRead::new(alloc, bytes));
    is_refused(
        RawSlice::deserialize(&mut de),
        "invalid type: expected an item that the input lends",
    )?;
    assert_eq!(rt; u8::deserialize(&mut de)?, 5);
    Ok(())
}

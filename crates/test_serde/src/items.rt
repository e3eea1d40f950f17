// Values as items of the kit's `serde`.

use crate::checks::{is_refused_at, is_written};
use cbor_serde::{
    Float, Item, Options, Result as Answer, Value, from_reader, from_slice, from_slice_with, to_vec,
};
use std::alloc::Global;
use test_checks::{Verdict, is_refused};

fn read_item(alloc: Global, bytes: &[u8]) -> Answer<Item> {
    from_slice(alloc, bytes)
}

// RFC 7049, Appendix A: what is written again as it was read.
const ITEMS: [&[u8]; 12] = [
    b"\x18\x18",
    b"\x1b\xff\xff\xff\xff\xff\xff\xff\xff",
    b"\x3b\xff\xff\xff\xff\xff\xff\xff\xff",
    b"\xf4",
    b"\xf6",
    b"\xfb\x3f\xf1\x99\x99\x99\x99\x99\x9a",
    b"\x44\x01\x02\x03\x04",
    b"\x64IETF",
    b"\x83\x01\x82\x02\x03\x82\x04\x05",
    b"\xa2\x61a\x01\x61b\x82\x02\x03",
    b"\xa2\x01\x02\x03\x04",
    b"\x82\x61a\xa1\x61b\x61c",
];

#[test]
fn reads_and_writes_items(rt: HostRuntime) -> Verdict {
    let alloc = rt.alloc();
    for bytes in &ITEMS {
        let read = read_item(alloc, bytes)?;
        is_written(&rt, alloc, &read, bytes)?;
        let again: Item = from_reader(alloc, *bytes)?;
        assert!(rt; again.0 == read.0, "{bytes:?}");
    }
    Ok(())
}

// The same values from outside, where the encoding has a choice.
#[test]
fn reads_other_encodings(rt: HostRuntime) -> Verdict {
    let alloc = rt.alloc();
    let tagged = read_item(alloc, b"\xc1\x1a\x51\x4b\x67\xb0")?;
    assert_eq!(rt; tagged.0, Value::Integer(1363896240));
    let half = read_item(alloc, b"\xf9\x3e\0")?;
    assert_eq!(rt; half.0.as_f64(), Some(1.5));
    Ok(())
}

// An array up to its break, of which a text is in chunks; and a key that is there twice.
const OTHERWISE: &[(&[u8], &[u8])] = &[
    (
        b"\x9f\x01\x7f\x65strea\x64ming\xff\xff",
        b"\x82\x01\x69streaming",
    ),
    (b"\xa2\x01\x02\x01\x03", b"\xa1\x01\x03"),
];

#[test]
fn writes_other_encodings_as_its_own(rt: HostRuntime) -> Verdict {
    for (bytes, written) in OTHERWISE {
        is_written(&rt, rt.alloc(), &read_item(rt.alloc(), bytes)?, written)?;
    }
    Ok(())
}

// Where names may be integers, an integer is one still.
#[test]
fn reads_integers_as_such(rt: HostRuntime) -> Verdict {
    let bytes = b"\x83\x05\x26\x61\x35";
    let integers = Options::new().integer_keys();
    let item: Item = from_slice_with(integers, rt.alloc(), bytes)?;
    is_written(&rt, rt.alloc(), &item, bytes)
}

#[test]
fn writes_floats_and_refuses_tags(rt: HostRuntime) -> Verdict {
    let alloc = rt.alloc();
    let half = Item(Value::Float(Float::Half(0x3e00)));
    is_written(&rt, alloc, &half, b"\xfa\x3f\xc0\0\0")?;
    let tagged = Item(Value::Tag(1, Box::new(alloc, Value::Null)?));
    is_refused(to_vec(alloc, &tagged), "a tag is no item of serde's")
}

const NO_ITEMS: &[(&[u8], &str)] = &[
    (b"\x82\x01", "EOF while parsing a value at offset 2"),
    (b"\x1c", "unassigned type at offset 1"),
];

#[test]
fn refuses_what_is_no_item(rt: HostRuntime) -> Verdict {
    for (row, (bytes, words)) in NO_ITEMS.iter().enumerate() {
        is_refused_at(row, read_item(rt.alloc(), bytes), words)?;
    }
    Ok(())
}

// RFC 8259, of items of RFC 7049, Appendix A: literals, numbers, a string whose characters are
// escaped, arrays and an object.
#[test]
fn go_to_json(rt: HostRuntime) -> Verdict {
    let alloc = rt.alloc();
    for (bytes, text) in [
        (b"\xf6".as_slice(), "null"),
        (b"\xf5", "true"),
        (b"\x39\x03\xe7", "-1000"),
        (b"\xfb\x3f\xf1\x99\x99\x99\x99\x99\x9a", "1.1"),
        (b"\x62\"\\", "\"\\\"\\\\\""),
        (b"\x83\x01\x82\x02\x03\x82\x04\x05", "[1,[2,3],[4,5]]"),
        (b"\xa2\x61a\x01\x61b\x82\x02\x03", "{\"a\":1,\"b\":[2,3]}"),
    ] {
        let read = read_item(alloc, bytes)?;
        assert_eq!(rt; serde_json::to_string(alloc, &read)?.as_str(), text);
        let again: Item = serde_json::from_str(alloc, text)?;
        assert!(rt; again == read);
    }
    Ok(())
}

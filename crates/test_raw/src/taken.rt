//! The next item of a reader, taken as its bytes.

ghost use Rattle.std.specs.Prelude.{◌≤◌};

use cbor_de::{Deserialize, Deserializer};
use cbor_io::error::Result as Answer;
use cbor_value::raw_value::RawValue;
use std::alloc::Global;
use test_checks::{Verdict, is_refused};

// What is taken of these bytes behind two items of one byte, and the offset behind it.
fn third(alloc: Global, bytes: &[u8], levels: u8) -> Answer<(RawValue, usize)>
    requires { levels ≤ 254 }
{
    let mut de = Deserializer::from_reader(alloc, bytes).nesting_limit(levels);
    u8::deserialize(&mut de)?;
    u8::deserialize(&mut de)?;
    let item = de.raw_item()?;
    Ok((item, de.byte_offset()))
}

// The bytes that follow are left: the reader isn't asked for them.
#[test]
fn takes_the_next_item(rt: HostRuntime) -> Verdict {
    let alloc = rt.alloc();
    let rows: [&[u8]; 6] = [
        b"\x19\x03\xe8",
        b"\x5f\x41a\x42bc\xff",
        b"\x7f\x61a\x62bc\xff",
        b"\xbf\x01\x82\x02\x03\x04\x05\xff",
        b"\xc1\xfb\x40\0\0\0\0\0\0\0",
        b"\x80",
    ];
    for row in rows {
        let mut bytes = b"\0\0".to_vec(alloc)?;
        bytes.extend_from_slice(row)?;
        bytes.push(0x42)?;
        let (item, offset) = third(alloc, &bytes, 127)?;
        assert!(rt; item.as_bytes() == row);
        assert_eq!(rt; offset, row.len() + 2);
    }
    Ok(())
}

#[test]
fn refuses_bytes_that_no_item_begins_with(rt: HostRuntime) -> Verdict {
    let alloc = rt.alloc();
    let rows: [(&[u8], &str); 9] = [
        (b"", "EOF while parsing a value at offset 2"),
        (b"\x9f\x01", "EOF while parsing an array at offset 4"),
        (b"\xbf\x01\x02", "EOF while parsing a map at offset 5"),
        (b"\x65abc", "EOF while parsing a value at offset 6"),
        (b"\xff", "unexpected code at offset 3"),
        (b"\x82\x01\x1c", "unassigned type at offset 5"),
        (b"\x82\x62a\xc3", "invalid UTF-8 at offset 5"),
        (b"\x7f\x61\xc3\x61\x28\xff", "invalid UTF-8 at offset 6"),
        (b"\x81\x81\0", "recursion limit exceeded at offset 4"),
    ];
    for (row, words) in rows {
        let mut bytes = b"\0\0".to_vec(alloc)?;
        bytes.extend_from_slice(row)?;
        is_refused(third(alloc, &bytes, 1), words)?;
    }
    Ok(())
}

// As many levels as `nesting_limit` says, more than 127 too.
#[test]
fn takes_as_many_levels_as_are_left(rt: HostRuntime) -> Verdict {
    let alloc = rt.alloc();
    let mut bytes = b"\0\0".to_vec(alloc)?;
    bytes.resize(256, 0x81)?;
    bytes.push(1)?;
    let (item, _) = third(alloc, &bytes, 254)?;
    assert_eq!(rt; item.as_bytes().len(), 255);
    is_refused(
        third(alloc, &bytes, 253),
        "recursion limit exceeded at offset 256",
    )
}

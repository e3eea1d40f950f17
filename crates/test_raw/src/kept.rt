//! The bytes of an item are kept as they came, and written as they are.

use cbor_convert::{to_value, to_vec_canonical};
use cbor_de::{
    Deserialize, Deserializer, SliceRead, from_mut_slice, from_reader, from_slice,
    from_slice_with_scratch,
};
use cbor_ser::to_vec;
use cbor_value::Value;
use cbor_value::raw_value::{RawSlice, RawValue};
use std::alloc::Global;
use std::collections::BTreeMap;
use std::process::Abort;
use test_checks::Verdict;

// Arrays, maps, tags, strings in chunks and numbers of every width, not one of them canonical but the
// last (the examples of RFC 8949, Appendix A, with longer heads).
const ITEMS: [&[u8]; 8] = [
    b"\x18\x01",
    b"\x5f\x42\x01\x02\x43\x03\x04\x05\xff",
    b"\x7f\x65strea\x64ming\xff",
    b"\xbf\x61a\x01\x61b\x9f\x02\x03\xff\xff",
    b"\x9b\0\0\0\0\0\0\0\x02\x01\xfa\x3f\x80\0\0",
    b"\xd8\x18\x45\x64IETF",
    b"\xa2\x02\x01\x01\x02",
    b"\xf6",
];

/// The item is read as its bytes, borrowed and owned, of a slice and of a reader, and written as them.
fn is_kept(rt: &impl Abort, alloc: Global, item: &[u8]) -> Verdict {
    let borrowed: RawSlice = from_slice(alloc, item)?;
    assert!(rt; borrowed.as_bytes() == item);
    assert!(rt; to_vec(alloc, &borrowed)?.as_slice() == item);
    let owned: RawValue = from_slice(alloc, item)?;
    assert!(rt; owned.as_raw() == borrowed);
    assert!(rt; to_vec(alloc, &owned)?.as_slice() == item);
    let read: RawValue = from_reader(alloc, item)?;
    assert!(rt; read == owned);
    let copy = owned.clone(alloc)?;
    assert!(rt; copy.into_bytes().as_slice() == item);
    Ok(())
}

#[test]
fn keeps_the_bytes_of_an_item(rt: HostRuntime) -> Verdict {
    let alloc = rt.alloc();
    for item in ITEMS {
        is_kept(&rt, alloc, item)?;
    }
    Ok(())
}

// [1, [2, 3], "a"], whose numbers have longer heads
#[test]
fn keeps_parts_of_an_array(rt: HostRuntime) -> Verdict {
    let alloc = rt.alloc();
    let bytes = b"\x83\x18\x01\x82\x02\x19\0\x03\x61a";
    let parts: Vec<RawSlice> = from_slice(alloc, bytes)?;
    assert_eq!(rt; parts.len(), 3);
    assert!(rt; parts[0].as_bytes() == b"\x18\x01".as_slice());
    assert!(rt; parts[1].as_bytes() == b"\x82\x02\x19\0\x03".as_slice());
    assert!(rt; parts[2].as_bytes() == b"\x61a".as_slice());
    assert!(rt; to_vec(alloc, &parts)?.as_slice() == bytes.as_slice());
    let inner: Vec<u8> = from_slice(alloc, parts[1].as_bytes())?;
    assert!(rt; inner.as_slice() == [2, 3].as_slice());
    Ok(())
}

// The same array, of a reader.
#[test]
fn keeps_parts_of_what_is_read(rt: HostRuntime) -> Verdict {
    let alloc = rt.alloc();
    let bytes: &[u8] = b"\x83\x18\x01\x82\x02\x19\0\x03\x61a";
    let (number, list, text): (u8, RawValue, String) = from_reader(alloc, bytes)?;
    assert_eq!(rt; number, 1);
    assert!(rt; list.as_bytes() == b"\x82\x02\x19\0\x03".as_slice());
    assert!(rt; text.as_str() == "a");
    Ok(())
}

#[test]
fn keeps_the_values_of_a_map(rt: HostRuntime) -> Verdict {
    let alloc = rt.alloc();
    let bytes = b"\xa2\x61a\x18\x01\x61b\x9f\xff";
    let map: BTreeMap<String, RawValue> = from_slice(alloc, bytes)?;
    assert!(rt; to_vec(alloc, &map)?.as_slice() == bytes.as_slice());
    let some: Option<RawValue> = from_slice(alloc, b"\x18\x01")?;
    let Some(one) = some else {
        panic!(rt; "an item is there");
    };
    assert!(rt; one.as_bytes() == b"\x18\x01".as_slice());
    let none: Option<RawValue> = from_slice(alloc, b"\xf6")?;
    assert!(rt; none.is_none());
    Ok(())
}

// The item that follows is read next.
#[test]
fn goes_on_behind_the_item(rt: HostRuntime) -> Verdict {
    let alloc = rt.alloc();
    let mut de = Deserializer::new(alloc, SliceRead::new(alloc, b"\xc1\x18\x01\x05"));
    let first = RawSlice::deserialize(&mut de)?;
    assert!(rt; first.as_bytes() == b"\xc1\x18\x01".as_slice());
    assert_eq!(rt; de.byte_offset(), 3);
    assert_eq!(rt; u8::deserialize(&mut de)?, 5);
    Ok(())
}

// A scratch that chunks fit, and bytes that may be rewritten: they come as they were.
#[test]
fn keeps_chunks_from_every_slice(rt: HostRuntime) -> Verdict {
    let alloc = rt.alloc();
    let mut bytes = *b"\x82\x5f\x41a\x41b\xff\x7f\x61c\xff";
    let mut scratch = [0; 2];
    let parts: Vec<RawValue> = from_slice_with_scratch(alloc, &bytes, &mut scratch)?;
    assert!(rt; to_vec(alloc, &parts)?.as_slice() == bytes.as_slice());
    let parts: Vec<RawSlice> = from_mut_slice(alloc, &mut bytes)?;
    assert_eq!(rt; parts.len(), 2);
    assert!(rt; parts[0].as_bytes() == b"\x5f\x41a\x41b\xff".as_slice());
    assert!(rt; parts[1].as_bytes() == b"\x7f\x61c\xff".as_slice());
    Ok(())
}

// What it stands for: {1: 2, 2: 1}, whose keys are in the other order.
#[test]
fn stands_for_its_value(rt: HostRuntime) -> Verdict {
    let alloc = rt.alloc();
    let raw: RawSlice = from_slice(alloc, b"\xa2\x02\x18\x01\x01\x02")?;
    assert!(rt; to_vec_canonical(alloc, &raw)?.as_slice() == b"\xa2\x01\x02\x02\x01".as_slice());
    let value: Value = from_slice(alloc, raw.as_bytes())?;
    assert!(rt; to_value(alloc, &raw)? == value);
    Ok(())
}

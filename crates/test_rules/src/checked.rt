//! Limits and other rules that are looked at before anything is read.

use crate::checks::{error_of, has_departed, value_of};
use cbor_de::{Deserialize, Deserializer, SliceRead};
use cbor_io::error::ErrorCode;
use cbor_rules::{
    Refusal, Rule, Rules, from_slice_checked, from_slice_checked_with_tags, from_slice_with,
};
use cbor_value::Value;
use cbor_value::raw_value::RawValue;
use std::alloc::Global;
use std::process::Abort;
use test_checks::{Verdict, is_refused};

const LIMITS: Rules = Rules {
    most_items: Some(2),
    most_pairs: Some(1),
    most_bytes: Some(3),
    ..Rules::ANY
};

const NO_TAGS: Rules = Rules {
    no_tags: true,
    ..Rules::ANY
};

// What is too long, which limit it exceeds, and the offset after what shows it (RFC 8949, section 3).
const LONG: &[(&[u8], Rule, u64)] = &[
    // [1, 2, 3], with its count in the first byte, in a byte of its own, and without one
    (b"\x83\x01\x02\x03", Rule::MostItems, 1),
    (b"\x98\x03\x01\x02\x03", Rule::MostItems, 2),
    (b"\x9f\x01\x02\x03\xff", Rule::MostItems, 4),
    // {1: 2, 3: 4}
    (b"\xa2\x01\x02\x03\x04", Rule::MostPairs, 1),
    (b"\xbf\x01\x02\x03\x04\xff", Rule::MostPairs, 4),
    // the bytes 61 62 63 64, and "abcd"
    (b"\x44abcd", Rule::MostBytes, 1),
    (b"\x64abcd", Rule::MostBytes, 1),
    // [null, "abcd"], and the tag 1 of [1, 2, 3]
    (b"\x82\xf6\x64abcd", Rule::MostBytes, 3),
    (b"\xc1\x83\x01\x02\x03", Rule::MostItems, 2),
];

/// The answer is a message.
fn is_message<T: Drop>(rt: &impl Abort, answer: Result<T, Refusal>) -> Verdict {
    let e = error_of(answer)?;
    assert!(rt; matches!(e.code(), ErrorCode::Message(_)));
    Ok(())
}

/// A value within the limits, or why it isn't read.
fn value_in(alloc: Global, bytes: &[u8]) -> Result<Value, Refusal> {
    from_slice_checked(alloc, bytes, LIMITS)
}

/// The same of another type.
fn bool_in(alloc: Global, bytes: &[u8]) -> Result<bool, Refusal> {
    from_slice_checked(alloc, bytes, LIMITS)
}

/// The bytes depart so, read as this type.
fn departs_as<'a, T: Deserialize<'a, SliceRead<'a>>>(
    rt: &impl Abort,
    alloc: Global,
    (bytes, rule, offset): (&'a [u8], Rule, u64),
) -> Verdict {
    let answer = from_slice_checked::<T>(alloc, bytes, LIMITS);
    has_departed(rt, answer, rule, offset)
}

/// The bytes keep the limits, and are read so.
fn reads<'a, T: Deserialize<'a, SliceRead<'a>> + PartialEq>(
    rt: &impl Abort,
    alloc: Global,
    bytes: &'a [u8],
    expected: T,
) -> Verdict {
    let value: T = value_of(from_slice_checked(alloc, bytes, LIMITS))?;
    assert!(rt; value == expected);
    Ok(())
}

// No allocation is made, also for a type that would take memory for the items before the one that
// is too long (.ci/growths).
#[test]
fn refuses_by_rules_without_memory(rt: HostRuntime) -> Verdict {
    for row in LONG {
        has_departed(&rt, value_in(rt.alloc(), row.0), row.1, row.2)?;
        departs_as::<Vec<Value>>(&rt, rt.alloc(), *row)?;
        departs_as::<String>(&rt, rt.alloc(), *row)?;
        departs_as::<u8>(&rt, rt.alloc(), *row)?;
    }
    Ok(())
}

// A bool is none of these, which `from_slice_with` tells first.
#[test]
fn tells_a_departure_before_another_type(rt: HostRuntime) -> Verdict {
    for (bytes, rule, offset) in LONG {
        is_message(&rt, from_slice_with::<bool>(rt.alloc(), bytes, LIMITS))?;
        has_departed(&rt, bool_in(rt.alloc(), bytes), *rule, *offset)?;
    }
    Ok(())
}

// The chunks "ab" and "cd", of which the second is told after its head.
#[test]
fn refuses_long_chunks(rt: HostRuntime) -> Verdict {
    let bytes = b"\x7f\x62ab\x62cd\xff";
    has_departed(&rt, value_in(rt.alloc(), bytes), Rule::MostBytes, 5)?;
    has_departed(&rt, bool_in(rt.alloc(), bytes), Rule::MostBytes, 5)
}

#[test]
fn reads_what_keeps_the_limits(rt: HostRuntime) -> Verdict {
    let alloc = rt.alloc();
    reads(&rt, alloc, b"\x82\x01\x02", (1u8, 2u8))?;
    reads(&rt, alloc, b"\x9f\x01\x02\xff", (1u8, 2u8))
}

#[test]
fn reads_texts_and_numbers_within_the_limits(rt: HostRuntime) -> Verdict {
    let alloc = rt.alloc();
    reads(&rt, alloc, b"\x63abc", "abc")?;
    reads(&rt, alloc, b"\x18\x64", 100u8)?;
    reads(&rt, alloc, b"\xc1\x03", 3u8)
}

// And what is of another type is refused as ever: an array and a map.
#[test]
fn refuses_another_type_within_the_limits(rt: HostRuntime) -> Verdict {
    is_message(&rt, bool_in(rt.alloc(), b"\x82\x01\x02"))?;
    is_message(&rt, bool_in(rt.alloc(), b"\xa1\x01\x02"))
}

// What is no item, though what there is of it is too long: cut off at its end, and where a byte
// follows after that.
const NO_ITEMS: &[(&[u8], &str)] = &[
    (b"\x83\x01\x02", "EOF while parsing a value at offset 3"),
    (
        b"\x9f\x01\x02\x03",
        "EOF while parsing an array at offset 4",
    ),
    (b"\xa2\x01\x02\x03", "EOF while parsing a value at offset 4"),
    (
        b"\xbf\x01\x02\x03\x04",
        "EOF while parsing a map at offset 5",
    ),
    (b"\x64abc", "EOF while parsing a value at offset 4"),
    (b"\x83\x01\x02\x03\0\0", "trailing data at offset 5"),
    (b"\x83\x01\x02\xfc", "unassigned type at offset 4"),
];

// It is refused as such, whichever type it is to be read as.
#[test]
fn refuses_what_is_no_item_first(rt: HostRuntime) -> Verdict {
    for (bytes, words) in NO_ITEMS {
        let e = error_of(value_in(rt.alloc(), bytes))?;
        is_refused::<()>(Err(e), words)?;
        let e = error_of(bool_in(rt.alloc(), bytes))?;
        is_refused::<()>(Err(e), words)?;
    }
    Ok(())
}

// 1(100), where tag 1 stands, and where tag 2 alone does.
#[test]
fn lets_tags_of_a_list_stand(rt: HostRuntime) -> Verdict {
    let alloc = rt.alloc();
    let time = b"\xc1\x18\x64";
    let seconds = from_slice_checked_with_tags::<u64>(alloc, time, NO_TAGS, &[0, 1]);
    assert_eq!(rt; value_of(seconds)?, 100);
    let other = from_slice_checked_with_tags::<u64>(alloc, time, NO_TAGS, &[2]);
    has_departed(&rt, other, Rule::NoTags, 1)?;
    let none = from_slice_checked::<bool>(alloc, time, NO_TAGS);
    has_departed(&rt, none, Rule::NoTags, 1)
}

// Where it stands, what is of another type is refused as ever.
#[test]
fn refuses_another_type_in_a_tag(rt: HostRuntime) -> Verdict {
    let time = b"\xc1\x18\x64";
    let answer = from_slice_checked_with_tags::<bool>(rt.alloc(), time, NO_TAGS, &[0, 1]);
    is_message(&rt, answer)
}

// [1, 2, 3], 5: an item of a reader is kept as its bytes, and read of them where it keeps the limits.
#[test]
fn limits_an_item_of_a_reader(rt: HostRuntime) -> Verdict {
    let alloc = rt.alloc();
    let reader: &[u8] = b"\x83\x01\x02\x03\x05";
    let mut de = Deserializer::from_reader(alloc, reader);
    let item = RawValue::deserialize(&mut de)?;
    has_departed(&rt, value_in(alloc, item.as_bytes()), Rule::MostItems, 1)?;
    assert!(rt; u8::deserialize(&mut de)? == 5);
    Ok(())
}

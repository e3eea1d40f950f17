//! Items of a source whose bytes are taken, and gone over by the rules while they come.

use crate::checks::{error_of, has_departed, value_of};
use crate::readers::Endless;
use cbor_de::{Deserialize, Deserializer, Source};
use cbor_rules::{Refusal, Rule, Rules, next_raw_item, next_raw_item_with_tags};
use cbor_value::raw_value::RawValue;
use std::alloc::{AllocError, Global};
use std::process::Abort;
use test_checks::{Verdict, is_refused};

const LIMITS: Rules = Rules {
    most_items: Some(2),
    most_pairs: Some(1),
    most_bytes: Some(3),
    ..Rules::ANY
};

const NO_TAGS: Rules = Rules {
    no_tags: true,
    ..Rules::ANY
};

/// The next item keeps the rules, and has these bytes.
fn takes<R: Source>(
    rt: &impl Abort,
    de: &mut Deserializer<R>,
    rules: Rules,
    bytes: &[u8],
) -> Verdict {
    let item = value_of(next_raw_item(de, rules))?;
    assert!(rt; matches!(&item, Some(it) if it.as_bytes() == bytes));
    Ok(())
}

/// The next item departs from this rule first, at this offset.
fn departs<R: Source>(
    rt: &impl Abort,
    de: &mut Deserializer<R>,
    rules: Rules,
    rule: Rule,
    offset: u64,
) -> Verdict {
    has_departed(rt, next_raw_item(de, rules), rule, offset)
}

/// The next item is no item, which is reported with these words.
fn faults<R: Source>(de: &mut Deserializer<R>, rules: Rules, words: &str) -> Verdict {
    let e = error_of(next_raw_item(de, rules))?;
    is_refused::<()>(Err(e), words)
}

// These bytes without end, of which no more than so many are taken.
fn departs_early(
    rt: &impl Abort,
    alloc: Global,
    bytes: &[u8],
    departure: (Rule, u64),
    most: usize,
) -> Verdict {
    let mut de = Deserializer::from_reader(alloc, Endless { bytes, given: 0 });
    departs(rt, &mut de, LIMITS, departure.0, departure.1)?;
    assert!(rt; de.byte_offset() <= most);
    Ok(())
}

// What is too long, by RFC 8949, section 3, and how many bytes at most show it and came with them:
// fewer than twice as many.
const LONG: &[(&[u8], (Rule, u64), usize)] = &[
    (b"\x83", (Rule::MostItems, 1), 1),
    (b"\x9a\xff\xff\xff\xff", (Rule::MostItems, 5), 8),
    (b"\x9f\x01\x02\x03", (Rule::MostItems, 4), 4),
    (b"\xbb\0\0\0\x01\0\0\0\0", (Rule::MostPairs, 9), 16),
    (b"\xbf\x01\x02\x03\x04", (Rule::MostPairs, 4), 4),
    (b"\x5a\x7f\xff\xff\xff", (Rule::MostBytes, 5), 8),
    (b"\x7f\x62ab\x65", (Rule::MostBytes, 5), 8),
    (b"\x82\xf6\x5b\0\0\0\x10\0\0\0\0", (Rule::MostBytes, 11), 16),
];

// The peer never ends.
#[test]
fn takes_no_more_than_shows_a_limit(rt: HostRuntime) -> Verdict {
    for (bytes, departure, most) in LONG {
        departs_early(&rt, rt.alloc(), bytes, *departure, *most)?;
    }
    Ok(())
}

const HEADS: Rules = Rules {
    shortest_heads: true,
    ..Rules::ANY
};

// An item of no power of two bytes departs by its last, and offsets count from the input's start.
#[test]
fn tells_where_an_item_departs(rt: HostRuntime) -> Verdict {
    let reader: &[u8] = b"\x05\x82\x01\x18\x17\x05";
    let mut de = Deserializer::from_reader(rt.alloc(), reader);
    takes(&rt, &mut de, HEADS, b"\x05")?;
    departs(&rt, &mut de, HEADS, Rule::ShortestHeads, 5)?;
    // the item's bytes alone were taken
    takes(&rt, &mut de, HEADS, b"\x05")?;
    assert!(rt; matches!(next_raw_item(&mut de, HEADS), Ok(None)));
    Ok(())
}

const KEPT: &[&[u8]] = &[
    b"\x82\x01\x02",
    b"\x9f\x01\x02\xff",
    b"\xa1\x01\x82\x02\x03",
    b"\x63abc",
    b"\x7f\x61a\x62bc\xff",
    b"\xc1\x18\x64",
    b"\xf7",
];

/// The bytes are taken, and 5 behind them is left.
fn is_taken(rt: &impl Abort, alloc: Global, item: &[u8]) -> Verdict {
    let mut bytes = item.to_vec(alloc)?;
    bytes.push(0x05)?;
    let mut de = Deserializer::from_reader(alloc, bytes.as_slice());
    takes(rt, &mut de, LIMITS, item)?;
    assert_eq!(rt; u8::deserialize(&mut de)?, 5);
    Ok(())
}

#[test]
fn takes_what_keeps_the_rules(rt: HostRuntime) -> Verdict {
    for item in KEPT {
        is_taken(&rt, rt.alloc(), item)?;
    }
    Ok(())
}

/// Of {1: 2, 3: 4} and {1: 2, 1: 4} the second has a key twice.
fn departs_in_the_second<R: Source>(rt: &impl Abort, de: &mut Deserializer<R>) -> Verdict {
    takes(rt, de, Rules::UNIQUE_KEYS, b"\xa2\x01\x02\x03\x04")?;
    departs(rt, de, Rules::UNIQUE_KEYS, Rule::UniqueKeys, 9)
}

// From a slice, whose bytes are at hand, and from a reader.
#[test]
fn looks_at_the_keys_of_each_map(rt: HostRuntime) -> Verdict {
    let bytes: &[u8] = b"\xa2\x01\x02\x03\x04\xa2\x01\x02\x01\x04";
    departs_in_the_second(&rt, &mut Deserializer::from_slice(rt.alloc(), bytes))?;
    departs_in_the_second(&rt, &mut Deserializer::from_reader(rt.alloc(), bytes))
}

/// What a reader of these bytes gives, where these tags stand.
fn of_tags(alloc: Global, bytes: &[u8], tags: &[u64]) -> Result<Option<RawValue>, Refusal> {
    let mut de = Deserializer::from_reader(alloc, bytes);
    next_raw_item_with_tags(&mut de, NO_TAGS, tags)
}

// 1(100), where tag 1 stands, and where tag 2 alone does.
#[test]
fn lets_tags_of_a_list_stand(rt: HostRuntime) -> Verdict {
    let alloc = rt.alloc();
    let time: &[u8] = b"\xc1\x18\x64";
    let item = value_of(of_tags(alloc, time, &[0, 1]))?;
    assert!(rt; matches!(&item, Some(it) if it.as_bytes() == time));
    has_departed(&rt, of_tags(alloc, time, &[2]), Rule::NoTags, 1)?;
    let mut none = Deserializer::from_reader(alloc, time);
    departs(&rt, &mut none, NO_TAGS, Rule::NoTags, 1)
}

// What is no item is told as `raw_item` of a deserializer tells it.
const NO_ITEMS: &[(&[u8], &str)] = &[
    (b"\x82\x01", "EOF while parsing a value at offset 2"),
    (b"\x9f\x01", "EOF while parsing an array at offset 2"),
    (b"\xbf\x01\x02", "EOF while parsing a map at offset 3"),
    (b"\x82\x01\x1c", "unassigned type at offset 3"),
    (b"\x62a\xc3", "invalid UTF-8 at offset 2"),
];

#[test]
fn refuses_what_is_no_item(rt: HostRuntime) -> Verdict {
    for (bytes, words) in NO_ITEMS {
        let mut de = Deserializer::from_reader(rt.alloc(), *bytes);
        faults(&mut de, LIMITS, words)?;
    }
    Ok(())
}

/// 23 in a longer head, within 127 arrays.
fn deep(alloc: Global) -> Result<Vec<u8>, AllocError> {
    let mut bytes = vec![in alloc; 0x81; 127]?;
    bytes.extend_from_slice(b"\x18\x17")?;
    Ok(bytes)
}

// 127 arrays are within the levels.
#[test]
fn keeps_to_the_levels(rt: HostRuntime) -> Verdict {
    let bytes = deep(rt.alloc())?;
    let mut any = Deserializer::from_reader(rt.alloc(), bytes.as_slice());
    takes(&rt, &mut any, Rules::ANY, &bytes)?;
    let mut strict = Deserializer::from_reader(rt.alloc(), bytes.as_slice());
    departs(&rt, &mut strict, Rules::CTAP2, Rule::ShortestHeads, 129)
}

// Of more levels a departure is told only where it comes first.
#[test]
fn refuses_a_level_too_many(rt: HostRuntime) -> Verdict {
    let bytes = deep(rt.alloc())?;
    let peer = Endless {
        bytes: &bytes,
        given: 0,
    };
    let mut de = Deserializer::from_reader(rt.alloc(), peer).nesting_limit(126);
    let words = "recursion limit exceeded at offset 127";
    faults(&mut de, Rules::ANY, words)
}

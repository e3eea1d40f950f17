//! Limits: of an array's items, a map's pairs and a string's bytes.

use crate::checks::Expected::{Departs, Keeps};
use crate::checks::{Row, all_depart, all_keep, all_pass, judges};
use cbor_rules::{Rule, Rules};
use test_checks::Verdict;

const TWO_ITEMS: Rules = Rules {
    most_items: Some(2),
    ..Rules::ANY
};

const ONE_PAIR: Rules = Rules {
    most_pairs: Some(1),
    ..Rules::ANY
};

const THREE_BYTES: Rules = Rules {
    most_bytes: Some(3),
    ..Rules::ANY
};

const NONE_AT_ALL: Rules = Rules {
    most_items: Some(0),
    most_pairs: Some(0),
    most_bytes: Some(0),
    ..Rules::ANY
};

// Too long, and the offset after what shows it.
const LONG_ARRAYS: &[(&[u8], u64)] = &[
    // [1, 2, 3], with its count in a byte, and without one
    (b"\x83\x01\x02\x03", 1),
    (b"\x98\x03\x01\x02\x03", 2),
    (b"\x9f\x01\x02\x03\xff", 4),
    // the third item is [1]
    (b"\x9f\x01\x02\x81\x01\xff", 5),
    // in an array, a map's key, its value, a tag, and an array without a length
    (b"\x81\x83\x01\x02\x03", 2),
    (b"\xa1\x83\0\0\0\x01", 2),
    (b"\xa1\x01\x83\0\0\0", 3),
    (b"\xc1\x83\0\0\0", 2),
    (b"\x9f\x9f\0\0\0\xff\0\xff", 5),
];

const SHORT_ARRAYS: &[&[u8]] = &[
    b"\x80",
    b"\x82\x01\x02",
    b"\x98\x02\x01\x02",
    b"\x9f\xff",
    b"\x9f\x01\x02\xff",
    // [[1, 2], [3, 4]], and without lengths
    b"\x82\x82\x01\x02\x82\x03\x04",
    b"\x9f\x9f\x01\x02\xff\x9f\x03\x04\xff\xff",
    // three pairs, three bytes, three chunks, and an integer and a tag of 3
    b"\xa3\x01\0\x02\0\x03\0",
    b"\x43abc",
    b"\x5f\x41a\x41b\x41c\xff",
    b"\xc3\x03",
];

const LONG_MAPS: &[(&[u8], u64)] = &[
    // {1: 2, 3: 4}, with and without a count: after it, and after the second key
    (b"\xa2\x01\x02\x03\x04", 1),
    (b"\xb8\x02\x01\x02\x03\x04", 2),
    (b"\xbf\x01\x02\x03\x04\xff", 4),
    // the second key is "ab"
    (b"\xbf\x01\x02\x62ab\x04\xff", 6),
    // in an array, a value and a key
    (b"\x81\xa2\x01\x02\x03\x04", 2),
    (b"\xa1\x01\xbf\x01\x02\x03\x04\xff", 6),
    (b"\xa1\xa2\x01\x02\x03\x04\x01", 2),
];

const SHORT_MAPS: &[&[u8]] = &[
    b"\xa0",
    b"\xbf\xff",
    b"\xa1\x01\x02",
    b"\xbf\x01\x02\xff",
    b"\xa1\x01\xa1\x01\x02",
    b"\x82\x01\x02",
    b"\x42ab",
];

const LONG_STRINGS: &[(&[u8], u64)] = &[
    (b"\x44abcd", 1),
    (b"\x64abcd", 1),
    (b"\x58\x04abcd", 2),
    // "éé", of four bytes
    (b"\x64\xc3\xa9\xc3\xa9", 1),
    // after the head of the chunk with which they are four
    (b"\x5f\x42ab\x42cd\xff", 5),
    (b"\x7f\x61a\x62bc\x61d\xff", 7),
    (b"\x7f\x61a\x64bcde\xff", 4),
    (b"\x5f\x44abcd\xff", 2),
    // as a key, and in an array
    (b"\xa1\x44abcd\0", 2),
    (b"\x82\x41a\x64abcd", 4),
];

const SHORT_STRINGS: &[&[u8]] = &[
    b"\x40",
    b"\x43abc",
    b"\x63abc",
    b"\x7f\xff",
    b"\x5f\x42ab\x41c\xff",
    b"\x7f\x60\x63abc\x60\xff",
    b"\x84\x43abc\x43abc\x04\xc4\0",
    b"\xa4\x01\0\x02\0\x03\0\x04\0",
];

#[test]
fn refuses_long_arrays(rt: HostRuntime) -> Verdict {
    let alloc = rt.alloc();
    all_depart(&rt, alloc, TWO_ITEMS, Rule::MostItems, LONG_ARRAYS)?;
    all_pass(alloc, Rules::ANY, LONG_ARRAYS)?;
    all_keep(alloc, TWO_ITEMS, SHORT_ARRAYS)
}

#[test]
fn refuses_long_maps(rt: HostRuntime) -> Verdict {
    let alloc = rt.alloc();
    all_depart(&rt, alloc, ONE_PAIR, Rule::MostPairs, LONG_MAPS)?;
    all_pass(alloc, Rules::ANY, LONG_MAPS)?;
    all_keep(alloc, ONE_PAIR, SHORT_MAPS)
}

#[test]
fn refuses_long_strings(rt: HostRuntime) -> Verdict {
    let alloc = rt.alloc();
    all_depart(&rt, alloc, THREE_BYTES, Rule::MostBytes, LONG_STRINGS)?;
    all_pass(alloc, Rules::ANY, LONG_STRINGS)?;
    all_keep(alloc, THREE_BYTES, SHORT_STRINGS)
}

// The limit of each kind may be none at all, which the empty ones keep.
const NONE_OR_ONE: &[Row] = &[
    (NONE_AT_ALL, b"\x80", Keeps),
    (NONE_AT_ALL, b"\x9f\xff", Keeps),
    (NONE_AT_ALL, b"\xa0", Keeps),
    (NONE_AT_ALL, b"\xbf\xff", Keeps),
    (NONE_AT_ALL, b"\x40", Keeps),
    (NONE_AT_ALL, b"\x5f\xff", Keeps),
    (NONE_AT_ALL, b"\x7f\x60\xff", Keeps),
    (NONE_AT_ALL, b"\xc1\x18\x64", Keeps),
    (NONE_AT_ALL, b"\x81\0", Departs(Rule::MostItems, 1)),
    (NONE_AT_ALL, b"\x9f\0\xff", Departs(Rule::MostItems, 2)),
    (NONE_AT_ALL, b"\xa1\0\0", Departs(Rule::MostPairs, 1)),
    (NONE_AT_ALL, b"\xbf\0\0\xff", Departs(Rule::MostPairs, 2)),
    (NONE_AT_ALL, b"\x61a", Departs(Rule::MostBytes, 1)),
    (NONE_AT_ALL, b"\x5f\x41a\xff", Departs(Rule::MostBytes, 2)),
];

#[test]
fn refuses_all_but_empty_ones(rt: HostRuntime) -> Verdict {
    judges(&rt, rt.alloc(), NONE_OR_ONE)
}

const CANONICAL: Rules = Rules {
    most_items: Some(2),
    most_pairs: Some(1),
    ..Rules::CANONICAL
};

const UNIQUE: Rules = Rules {
    most_pairs: Some(1),
    ..Rules::UNIQUE_KEYS
};

// A limit is reported before another rule that is broken at the same place.
const LIMIT_FIRST: &[Row] = &[
    (
        CANONICAL,
        b"\x98\x03\x01\x02\x03",
        Departs(Rule::MostItems, 2),
    ),
    (
        CANONICAL,
        b"\x9f\0\0\0\xff",
        Departs(Rule::DefiniteLengths, 1),
    ),
    (UNIQUE, b"\xbf\x01\0\x01\0\xff", Departs(Rule::MostPairs, 4)),
];

#[test]
fn reports_a_limit_first(rt: HostRuntime) -> Verdict {
    judges(&rt, rt.alloc(), LIMIT_FIRST)
}

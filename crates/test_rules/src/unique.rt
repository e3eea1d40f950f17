//! Keys that may stand in any order, each value once.

use crate::checks::Expected::Departs;
use crate::checks::{Row, all_depart, all_keep, all_pass, departs, judges, keeps};
use cbor_rules::{Rule, Rules};
use test_checks::Verdict;

const TWICE: Rule = Rule::UniqueKeys;

// Each map has one key twice: in two encodings of one value, or not side by side. The offset is
// after the second of them.
const DUPLICATES: &[(&[u8], u64)] = &[
    // {1: 2, 1: 3}, and as the second key in a longer head (RFC 8949, section 3)
    (b"\xa2\x01\x02\x01\x03", 4),
    (b"\xa2\x01\x02\x18\x01\x03", 5),
    (b"\xa2\x1b\0\0\0\0\0\0\0\x01\x02\x01\x03", 12),
    // {"a": 1, "b": 2, "a": 3}, and with the last key in chunks, in a map without a length
    (b"\xa3\x61a\x01\x61b\x02\x61a\x03", 9),
    (b"\xbf\x61a\x01\x61b\x02\x7f\x61a\xff\x03\xff", 11),
    // {-1: 0, h'': 0, -1: 0} and {h'': 0, -1: 0, h'': 0}
    (b"\xa3\x20\0\x40\0\x20\0", 6),
    (b"\xa3\x40\0\x20\0\x5f\xff\0", 7),
    // {[1]: 0, [_ 1]: 0}, {1(0): 0, 1(0): 0}, {null: 0, undefined: 0}, which is read as null
    (b"\xa2\x81\x01\0\x9f\x01\xff\0", 7),
    (b"\xa2\xc1\0\0\xd8\x01\0\0", 7),
    (b"\xa2\xf6\0\xf7\0", 4),
    // {{1: 2, 3: 4}: 0, {3: 4, 1: 2}: 0}
    (b"\xa2\xa2\x01\x02\x03\x04\0\xa2\x03\x04\x01\x02\0", 12),
    // in a value and in a key, and the first of two
    (b"\xa1\x01\xa2\x05\0\x05\0", 6),
    (b"\xa1\xa2\x05\0\x05\0\x01", 5),
    (b"\x82\xa2\x05\0\x05\0\xa2\x05\0\x05\0", 5),
];

// No map has a key twice: what differs in type, width or content is another key.
const UNIQUE: &[&[u8]] = &[
    b"\xa0",
    b"\xbf\xff",
    // {2: 0, 1: 0}, and one key in two maps
    b"\xa2\x02\0\x01\0",
    b"\x82\xa1\x01\x02\xa1\x18\x01\x02",
    b"\xa1\x01\xa1\x01\0",
    b"\xa1\xa1\x01\0\x01",
    // {1: 0, 1.0: 0, "1": 0, h'31': 0, [1]: 0, 0(1): 0, -2: 0}
    b"\xa7\x01\0\xf9\x3c\0\0\x611\0\x411\0\x81\x01\0\xc0\x01\0\x21\0",
    // {1.0: 0, 1.0: 0} in floats of 16 and of 32 bits, and {0.0: 0, -0.0: 0}
    b"\xa2\xf9\x3c\0\0\xfa\x3f\x80\0\0\0",
    b"\xa2\xf9\0\0\0\xf9\x80\0\0",
    // {false: 0, true: 0, null: 0}, {"a": 0, "": 0, "ab": 0}
    b"\xa3\xf4\0\xf5\0\xf6\0",
    b"\xa3\x61a\0\x60\0\x62ab\0",
];

#[test]
fn refuses_a_key_twice(rt: HostRuntime) -> Verdict {
    all_depart(&rt, rt.alloc(), Rules::UNIQUE_KEYS, TWICE, DUPLICATES)?;
    // which is read otherwise
    all_pass(rt.alloc(), Rules::ANY, DUPLICATES)
}

#[test]
fn reads_keys_in_any_order(rt: HostRuntime) -> Verdict {
    all_keep(rt.alloc(), Rules::UNIQUE_KEYS, UNIQUE)
}

const SHORTEST_AND_UNIQUE: Rules = Rules {
    shortest_heads: true,
    ..Rules::UNIQUE_KEYS
};

// Which comes first: another rule's departure, or a key twice.
const BOTH: &[Row] = &[
    // the head of the second key ends where that key does
    (
        SHORTEST_AND_UNIQUE,
        b"\xa2\x01\x02\x18\x01\x03",
        Departs(Rule::ShortestHeads, 5),
    ),
    (
        SHORTEST_AND_UNIQUE,
        b"\xa2\x01\x02\x01\x18\x03",
        Departs(TWICE, 4),
    ),
];

#[test]
fn returns_the_first_departure(rt: HostRuntime) -> Verdict {
    judges(&rt, rt.alloc(), BOTH)
}

// 600 keys from the greatest to the least, and then one of them again, in a longer head.
#[test]
fn reads_many_keys(rt: HostRuntime) -> Verdict {
    let mut bytes = Vec::new(rt.alloc());
    bytes.push(0xbf)?;
    for n in 0..600u16 {
        bytes.push(0x19)?;
        bytes.extend_from_slice(&(40_000 - n).to_be_bytes())?;
        bytes.push(0xf6)?;
    }
    let whole = bytes.len() as u64;
    bytes.push(0xff)?;
    keeps(rt.alloc(), Rules::UNIQUE_KEYS, &bytes)?;
    let _ = bytes.pop();
    bytes.extend_from_slice(b"\x1a\0\0\x9b\xdc\xf6\xff")?;
    departs(
        &rt,
        rt.alloc(),
        Rules::UNIQUE_KEYS,
        &bytes,
        TWICE,
        whole + 5,
    )
}

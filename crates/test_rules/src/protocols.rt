//! What public protocols print: whether CTAP2 would accept it, and whether a map has a key twice.

use crate::checks::Expected::{Departs, Keeps};
use crate::checks::{Row, all_depart, all_keep, all_pass, departs, judges, keeps};
use crate::published::{
    ATTESTATION, CLAIMS, CREDENTIAL_KEY, ENCRYPTED, INFO, ISSUED, KEY_SET, MACED, MACED_ISSUED,
    MESSAGE, NESTED, SIGNING_KEY, SYMMETRIC_128, SYMMETRIC_256, TOKEN,
};
use cbor_rules::{KeyOrder, Rule, Rules};
use std::alloc::Global;
use std::process::Abort;
use test_checks::Verdict;

/// The bytes after the first.
fn behind_first(bytes: &[u8]) -> &[u8] {
    match bytes.split_first() {
        Some((_, rest)) => rest,
        None => bytes,
    }
}

/// A map with one pair more has a key twice: its head is this one, its pairs are those of a map
/// whose head is one byte, and then this pair.
fn repeats(
    rt: &impl Abort,
    alloc: Global,
    head: &[u8],
    map: &[u8],
    pair: &[u8],
    offset: u64,
) -> Verdict {
    let mut bytes = head.to_vec(alloc)?;
    bytes.extend_from_slice(behind_first(map))?;
    bytes.extend_from_slice(pair)?;
    keeps(alloc, Rules::ANY, &bytes)?;
    let rule = Rule::UniqueKeys;
    departs(rt, alloc, Rules::UNIQUE_KEYS, &bytes, rule, offset)
}

// The key's labels are 01, 03, 20, 21 and 22: those of the first type, and then those of the
// second, all of one byte. The members of the answer are 1 to 6, and its options are texts: `rk`,
// `up` and `uv` of two bytes, `plat` of four, `clientPin` of nine. So both are in the order of
// CTAP2 and in that of lengths. Heads are the shortest: 58 20 has 32 bytes, and 19 04 b0 is 1200.
#[test]
fn reads_answers_of_authenticators(rt: HostRuntime) -> Verdict {
    let answers = [CREDENTIAL_KEY, INFO];
    all_keep(rt.alloc(), Rules::CTAP2, &answers)?;
    all_keep(rt.alloc(), Rules::LENGTH_FIRST, &answers)
}

// `fmt`, `attStmt` and `authData` have three, seven and eight bytes; `alg`, `sig` and `x5c` have
// three each, in the order of the alphabet. The strings have 70 (58 46), 732 (59 02 dc) and 196
// bytes (58 c4).
#[test]
fn reads_an_attestation(rt: HostRuntime) -> Verdict {
    keeps(rt.alloc(), Rules::CTAP2, ATTESTATION)?;
    keeps(rt.alloc(), Rules::LENGTH_FIRST, ATTESTATION)
}

// COSE leaves the order of labels open, and these RFCs print the negative ones first: so 1, of the
// first type, follows -1 or -3, of the second; and -3, which is 22, follows -4, which is 23.
const KEYS: &[(&[u8], u64)] = &[
    // a4, 20, 50 and 16 bytes, 01: 1 + 1 + 17 + 1
    (SYMMETRIC_128, 20),
    // a4, 20, 58 20 and 32 bytes, 01: 1 + 1 + 34 + 1
    (SYMMETRIC_256, 37),
    // a7, 23, 58 20 and 32 bytes, 22: 1 + 1 + 34 + 1
    (SIGNING_KEY, 37),
    // 84 a5, 20 01, 21 and 34 bytes, 22 and 34 bytes, 01: 2 + 2 + 35 + 35 + 1
    (KEY_SET, 75),
];

#[test]
fn refuses_keys_of_cose_in_the_order_of_rfcs(rt: HostRuntime) -> Verdict {
    all_depart(&rt, rt.alloc(), Rules::CTAP2, Rule::AscendingKeys, KEYS)?;
    // the order is all that CTAP2 has against them
    let unique = Rules::CTAP2.with_keys(KeyOrder::Unique);
    all_pass(rt.alloc(), unique, KEYS)
}

// CTAP2 has no tags: d0, d1 and d2 are one each, in one byte. What they tag is an array of a
// string, as h'a10126', a map of 4 to a string, where it is encrypted of 5 to another, and one or
// two more strings, with the shortest heads: that keeps the rules. The protected header, {1: -7},
// and the claims are items by themselves, which stand in byte strings there.
#[test]
fn refuses_messages_with_their_tags(rt: HostRuntime) -> Verdict {
    for bytes in [TOKEN, MESSAGE, ENCRYPTED, NESTED, MACED_ISSUED] {
        departs(&rt, rt.alloc(), Rules::CTAP2, bytes, Rule::NoTags, 1)?;
        keeps(rt.alloc(), Rules::CTAP2, behind_first(bytes))?;
    }
    keeps(rt.alloc(), Rules::CTAP2, CLAIMS)?;
    keeps(rt.alloc(), Rules::CTAP2, b"\xa1\x01\x26")
}

// 61 is d8 3d, and within it 17 is d1.
#[test]
fn refuses_each_tag_of_a_token(rt: HostRuntime) -> Verdict {
    departs(&rt, rt.alloc(), Rules::CTAP2, MACED, Rule::NoTags, 2)?;
    let within = behind_first(behind_first(MACED));
    departs(&rt, rt.alloc(), Rules::CTAP2, within, Rule::NoTags, 1)?;
    keeps(rt.alloc(), Rules::CTAP2, behind_first(within))
}

const TOKENS: &[&[u8]] = &[TOKEN, MACED, ENCRYPTED, NESTED, MACED_ISSUED];

// The others have tags. The labels 4 and 5 ascend, and heads are the shortest: 58 50 has 80 bytes,
// 58 58 has 88 and 58 b7 has 183. What byte strings hold, a float also, is not looked at.
#[test]
fn reads_tokens_with_their_tags(rt: HostRuntime) -> Verdict {
    let alloc = rt.alloc();
    all_keep(alloc, Rules::UNIQUE_KEYS, TOKENS)?;
    all_keep(alloc, Rules::CANONICAL, TOKENS)?;
    all_keep(alloc, Rules::LENGTH_FIRST, TOKENS)?;
    all_keep(alloc, Rules::DCBOR, TOKENS)
}

const WHOLE: &[u8] = b"\xa1\x06\xfb\x41\xd5\x84\x36\x7c\0\0\0";

// 1443944944.5 is 2887889889 halves, an odd number of 32 binary digits. A single has 24: so the
// double is the shortest. Without its half it has 27 up to the last 1, and is no shorter, but an
// integer.
const TIMES: &[Row] = &[
    (Rules::CTAP2, ISSUED, Keeps),
    (Rules::LENGTH_FIRST, ISSUED, Keeps),
    (Rules::DCBOR, ISSUED, Keeps),
    (Rules::DETERMINISTIC, WHOLE, Keeps),
    (Rules::DCBOR, WHOLE, Departs(Rule::ReducedNumbers, 11)),
];

#[test]
fn reads_a_time_with_a_fraction(rt: HostRuntime) -> Verdict {
    judges(&rt, rt.alloc(), TIMES)
}

// RFC 9052, section 9, asks that no label stands twice in a map, and asks for no order.
#[test]
fn reads_keys_of_cose_in_any_order(rt: HostRuntime) -> Verdict {
    all_pass(rt.alloc(), Rules::UNIQUE_KEYS, KEYS)?;
    keeps(rt.alloc(), Rules::UNIQUE_KEYS, CREDENTIAL_KEY)
}

// A map, the head of the same with one pair more, that pair, and the offset behind its key, which
// the map has: the keys have 37, 132 and 77 bytes.
const LABELS_TWICE: &[(&[u8], &[u8], &[u8], u64)] = &[
    (SYMMETRIC_128, b"\xa5", b"\x03\x0a", 38),
    // within an array, and with the label 3 in a longer head
    (SYMMETRIC_128, b"\x81\xa5", b"\x03\x0a", 39),
    (SYMMETRIC_128, b"\xa5", b"\x18\x03\x0a", 39),
    (SIGNING_KEY, b"\xa8", b"\x03\x26", 133),
    (CREDENTIAL_KEY, b"\xa6", b"\x20\x01", 78),
    // the claim 6 as a whole number
    (ISSUED, b"\xa2", b"\x06\x1a\x56\x10\xd9\xf0", 12),
];

#[test]
fn refuses_a_label_twice(rt: HostRuntime) -> Verdict {
    for (map, head, pair, offset) in LABELS_TWICE {
        repeats(&rt, rt.alloc(), head, map, pair, *offset)?;
    }
    Ok(())
}

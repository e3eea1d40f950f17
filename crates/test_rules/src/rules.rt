//! Each rule by itself, and what is reported first.

use crate::checks::Expected::{Departs, Keeps};
use crate::checks::{Row, agrees, all_depart, judges};
use cbor_rules::{Refusal, Rule, Rules, from_slice_with};
use cbor_value::Value;
use std::alloc::Global;
use std::process::Abort;
use std::test::Fail;
use test_checks::Verdict;

// One rule each.
const HEADS: Rules = Rules {
    shortest_heads: true,
    ..Rules::ANY
};

const LENGTHS: Rules = Rules {
    definite_lengths: true,
    ..Rules::ANY
};

const KEYS: Rules = Rules {
    plain_keys: true,
    ..Rules::ANY
};

const FLOATS: Rules = Rules {
    shortest_floats: true,
    ..Rules::ANY
};

const NAN: Rules = Rules {
    one_nan: true,
    ..Rules::ANY
};

const NO_UNDEFINED: Rules = Rules {
    no_undefined: true,
    ..Rules::ANY
};

const NO_TAGS: Rules = Rules {
    no_tags: true,
    ..Rules::ANY
};

const REDUCED: Rules = Rules {
    reduced_numbers: true,
    ..Rules::ANY
};

// Bytes that break one rule alone, and the place; the same without rules; and bytes that keep it.
const EACH: &[Row] = &[
    (HEADS, b"\x82\x01\x58\x01a", Departs(Rule::ShortestHeads, 4)),
    (Rules::ANY, b"\x82\x01\x58\x01a", Keeps),
    (HEADS, b"\x9f\x01\x41a\xff", Keeps),
    (LENGTHS, b"\xc1\x7f\xff", Departs(Rule::DefiniteLengths, 2)),
    (Rules::ANY, b"\xc1\x7f\xff", Keeps),
    (LENGTHS, b"\xd8\x01\x78\0", Keeps),
    (
        KEYS,
        b"\xa2\xf5\xf6\xc1\x05\xf6",
        Departs(Rule::PlainKeys, 5),
    ),
    (Rules::ANY, b"\xa2\xf5\xf6\xc1\x05\xf6", Keeps),
    (KEYS, b"\xa3\x20\x80\x7f\xff\xa0\xf9\x3e\0\xc1\0", Keeps),
    (
        FLOATS,
        b"\x81\xfa\x3f\xc0\0\0",
        Departs(Rule::ShortestFloats, 6),
    ),
    (Rules::ANY, b"\x81\xfa\x3f\xc0\0\0", Keeps),
    (FLOATS, b"\x98\x02\xf9\x3e\0\xf9\x7e\x01", Keeps),
    (NAN, b"\x81\xf9\xfe\0", Departs(Rule::OneNan, 4)),
    (Rules::ANY, b"\x81\xf9\xfe\0", Keeps),
    (NAN, b"\x82\xf9\x7e\0\xfa\x3f\xc0\0\0", Keeps),
    (NO_UNDEFINED, b"\xa1\xf7\xf7", Departs(Rule::NoUndefined, 2)),
    (Rules::ANY, b"\xa1\xf7\xf7", Keeps),
    (NO_UNDEFINED, b"\x83\xf6\xf5\xf4", Keeps),
    (NO_TAGS, b"\x81\xd8\x20\x60", Departs(Rule::NoTags, 3)),
    (Rules::ANY, b"\x81\xd8\x20\x60", Keeps),
    (NO_TAGS, b"\x81\x18\x06", Keeps),
];

#[test]
fn reports_each_rule(rt: HostRuntime) -> Verdict {
    judges(&rt, rt.alloc(), EACH)
}

// Numbers of RFC 8949, Appendix A, of which dCBOR has another encoding or none: 1.0, 100000.0,
// 65504.0 after 1, and -18446744073709551616. This rule alone lets 23 stand in a longer head, 1.5
// in a wider float, another NaN, and 1.0e300, an integer beyond 2^64 - 1.
const NUMBERS: &[Row] = &[
    (REDUCED, b"\xf9\x3c\0", Departs(Rule::ReducedNumbers, 3)),
    (
        REDUCED,
        b"\xfa\x47\xc3\x50\0",
        Departs(Rule::ReducedNumbers, 5),
    ),
    (
        REDUCED,
        b"\x82\x01\xf9\x7b\xff",
        Departs(Rule::ReducedNumbers, 5),
    ),
    (
        REDUCED,
        b"\x3b\xff\xff\xff\xff\xff\xff\xff\xff",
        Departs(Rule::ReducedNumbers, 9),
    ),
    (REDUCED, b"\x18\x17", Keeps),
    (REDUCED, b"\xfa\x3f\xc0\0\0", Keeps),
    (REDUCED, b"\xf9\x7e\x01", Keeps),
    (REDUCED, b"\xfb\x7e\x37\xe4\x3c\x88\0\x75\x9c", Keeps),
];

#[test]
fn reports_numbers_that_are_not_reduced(rt: HostRuntime) -> Verdict {
    judges(&rt, rt.alloc(), NUMBERS)
}

// d8 01 is a tag in a head that isn't the shortest; and 18 01 a key that is a second 1 besides.
const HEAD_FIRST: &[(&[u8], u64)] = &[(b"\xd8\x01\0", 2), (b"\xa2\x01\0\x18\x01\x02", 5)];

#[test]
fn reports_a_head_before_what_it_says(rt: HostRuntime) -> Verdict {
    let rule = Rule::ShortestHeads;
    all_depart(&rt, rt.alloc(), Rules::CTAP2, rule, HEAD_FIRST)
}

/// The bytes are no item, which is reported at this offset.
fn is_no_item(rt: &impl Abort, alloc: Global, bytes: &[u8], offset: u64) -> Verdict {
    let Err(Refusal::Unread(e)) = from_slice_with::<Value>(alloc, bytes, Rules::DETERMINISTIC)
    else {
        return Err(Fail::from("not refused as no item"));
    };
    if e.is_memory() {
        return Err(Fail::from(e));
    }
    assert_eq!(rt; e.offset(), offset);
    Ok(())
}

// What is no item is refused as such, also where a departure comes before.
#[test]
fn refuses_what_is_no_item(rt: HostRuntime) -> Verdict {
    let alloc = rt.alloc();
    is_no_item(&rt, alloc, b"\x82\x18\x01", 3)?;
    is_no_item(&rt, alloc, b"\x18\x01\0", 3)?;
    is_no_item(&rt, alloc, b"\x81\xfc", 2)
}

// Each kind of departure from the canonical encoding, and what departs nowhere.
const CANONICAL_OR_NOT: &[&[u8]] = &[
    b"\xa2\x01\xf6\x20\x82\xfb\x3f\xf8\0\0\0\0\0\0\x60",
    b"\xa2\x18\x64\xf6\x20\xf6",
    b"\xa2\x20\xf6\x18\x64\xf6",
    b"\xa2\x01\xf6\x01\xf6",
    b"\xa2\x01\xf6\x18\x01\xf6",
    b"\x81\x19\0\xff",
    b"\x82\x58\x01a\xf7",
    b"\xd8\x01\x81\xf7",
    b"\x83\x01\xf7\x18\x01",
    b"\x9f\xff",
    b"\x81\xbf\x01\x02\xff",
    b"\xa1\x61a\x7f\x61b\xff",
];

#[test]
fn reads_canonically_as_strict_reading_does(rt: HostRuntime) -> Verdict {
    for bytes in CANONICAL_OR_NOT {
        agrees(&rt, rt.alloc(), bytes)?;
    }
    Ok(())
}

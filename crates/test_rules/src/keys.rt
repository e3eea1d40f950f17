//! The orders of keys.

use crate::checks::Expected::{Departs, Keeps};
use crate::checks::{Form, Row, all_depart, departs, is_written, judges, keeps};
use cbor_rules::{KeyOrder, Rule, Rules};
use test_checks::Verdict;

// The keys of RFC 8949, section 4.2.1, in the order given there, each with null.
const BYTEWISE: &[u8] =
    b"\xa8\x0a\xf6\x18\x64\xf6\x20\xf6\x61z\xf6\x62aa\xf6\x81\x18\x64\xf6\x81\x20\xf6\xf4\xf6";

// The same keys in the order of section 4.2.3.
const LENGTH_FIRST: &[u8] =
    b"\xa8\x0a\xf6\x20\xf6\xf4\xf6\x18\x64\xf6\x61z\xf6\x81\x20\xf6\x62aa\xf6\x81\x18\x64\xf6";

const ANY_ORDER: Rules = Rules {
    keys: KeyOrder::Any,
    ..Rules::DETERMINISTIC
};

const IN_ITS_ORDER: &[Row] = &[
    (Rules::DETERMINISTIC, BYTEWISE, Keeps),
    (Rules::LENGTH_FIRST, LENGTH_FIRST, Keeps),
    // 20 after 18 64, and 18 64 after f4
    (
        Rules::LENGTH_FIRST,
        BYTEWISE,
        Departs(Rule::AscendingKeys, 7),
    ),
    (
        Rules::DETERMINISTIC,
        LENGTH_FIRST,
        Departs(Rule::AscendingKeys, 9),
    ),
    (ANY_ORDER, BYTEWISE, Keeps),
    (ANY_ORDER, LENGTH_FIRST, Keeps),
];

#[test]
fn reads_the_example_in_its_order_alone(rt: HostRuntime) -> Verdict {
    judges(&rt, rt.alloc(), IN_ITS_ORDER)
}

// Each order is what its form writes.
#[test]
fn reads_what_its_form_writes(rt: HostRuntime) -> Verdict {
    let alloc = rt.alloc();
    let form = Form::Deterministic;
    is_written(
        &rt,
        alloc,
        LENGTH_FIRST,
        form,
        BYTEWISE,
        Rules::DETERMINISTIC,
    )?;
    let form = Form::LengthFirst;
    is_written(
        &rt,
        alloc,
        BYTEWISE,
        form,
        LENGTH_FIRST,
        Rules::LENGTH_FIRST,
    )
}

const TYPE_FIRST: Rules = Rules {
    keys: KeyOrder::TypeFirst,
    ..Rules::DETERMINISTIC
};

// By type, length and bytes: [-1] stands before [100], which is longer, and both before false.
const BY_TYPE: &[u8] =
    b"\xa8\x0a\xf6\x18\x64\xf6\x20\xf6\x61z\xf6\x62aa\xf6\x81\x20\xf6\x81\x18\x64\xf6\xf4\xf6";

const BY_TYPE_AND_LENGTH: &[Row] = &[
    (TYPE_FIRST, BY_TYPE, Keeps),
    (TYPE_FIRST, BYTEWISE, Departs(Rule::AscendingKeys, 21)),
    (TYPE_FIRST, LENGTH_FIRST, Departs(Rule::AscendingKeys, 9)),
    // [-1] and [100] are no keys of CTAP2
    (Rules::CTAP2, BY_TYPE, Departs(Rule::PlainKeys, 17)),
];

#[test]
fn reads_keys_by_type_and_length(rt: HostRuntime) -> Verdict {
    judges(&rt, rt.alloc(), BY_TYPE_AND_LENGTH)
}

// A key of COSE as in WebAuthn, with labels 1, 3, -1, -2 and -3, is in the order of CTAP2.
const SORTED: &[u8] = b"\xa5\x01\x02\x03\x26\x20\x01\x21\x41\x0a\x22\x41\x0b";

const UNSORTED: &[u8] = b"\xa5\x20\x01\x21\x41\x0a\x22\x41\x0b\x01\x02\x03\x26";

#[test]
fn reads_what_is_written_for_ctap2(rt: HostRuntime) -> Verdict {
    let alloc = rt.alloc();
    keeps(alloc, Rules::CTAP2, SORTED)?;
    departs(&rt, alloc, Rules::CTAP2, UNSORTED, Rule::AscendingKeys, 10)?;
    is_written(&rt, alloc, UNSORTED, Form::Plain, SORTED, Rules::CTAP2)
}

// {1: 2, 1: 3} has one key twice (RFC 8949, section 5.6), with a count and without one.
const TWICE: &[(&[u8], u64)] = &[
    (b"\xa2\x01\x02\x01\x03", 4),
    (b"\xbf\x01\x02\x01\x03\xff", 4),
];

#[test]
fn refuses_equal_keys(rt: HostRuntime) -> Verdict {
    for order in [
        KeyOrder::Bytewise,
        KeyOrder::LengthFirst,
        KeyOrder::TypeFirst,
    ] {
        let rules = Rules::ANY.with_keys(order);
        all_depart(&rt, rt.alloc(), rules, Rule::AscendingKeys, TWICE)?;
        // one key in each of two maps
        keeps(rt.alloc(), rules, b"\x82\xa1\x01\x02\xa1\x01\x02")?;
    }
    keeps(rt.alloc(), Rules::ANY, b"\xa2\x01\x02\x01\x03")
}

//! The examples of RFC 8949, Appendix A.

use crate::checks::Expected::{Departs, Keeps};
use crate::checks::{Row, all_depart, all_keep, all_pass, judges};
use cbor_rules::{Rule, Rules};
use test_checks::Verdict;

// Those of definite lengths are encoded deterministically, undefined aside.
const DETERMINISTIC: &[&[u8]] = &[
    b"\0",
    b"\x17",
    b"\x18\x18",
    b"\x19\x03\xe8",
    b"\x1a\0\x0f\x42\x40",
    b"\x1b\0\0\0\xe8\xd4\xa5\x10\0",
    b"\x3b\xff\xff\xff\xff\xff\xff\xff\xff",
    b"\x39\x03\xe7",
    b"\xf9\x3e\0",
    b"\xfa\x47\xc3\x50\0",
    b"\xfb\x3f\xf1\x99\x99\x99\x99\x99\x9a",
    b"\xf9\x7e\0",
    b"\xf9\xfc\0",
    b"\xc1\x1a\x51\x4b\x67\xb0",
    b"\xd8\x18\x45\x64IETF",
    b"\x44\x01\x02\x03\x04",
    b"\x64\xf0\x90\x85\x91",
    b"\x83\x01\x82\x02\x03\x82\x04\x05",
    b"\xa2\x01\x02\x03\x04",
    b"\xa2\x61a\x01\x61b\x82\x02\x03",
    b"\xa5\x61a\x61A\x61b\x61B\x61c\x61C\x61d\x61D\x61e\x61E",
];

#[test]
fn reads_deterministic_examples(rt: HostRuntime) -> Verdict {
    all_keep(rt.alloc(), Rules::DETERMINISTIC, DETERMINISTIC)?;
    all_keep(rt.alloc(), Rules::LENGTH_FIRST, DETERMINISTIC)?;
    all_keep(rt.alloc(), Rules::ANY, DETERMINISTIC)
}

// No value is written as undefined: what accepts what is written alone refuses it, until that rule
// is switched off.
const UNDEFINED: &[Row] = &[
    (Rules::CANONICAL, b"\xf7", Departs(Rule::NoUndefined, 1)),
    (
        Rules {
            no_undefined: false,
            ..Rules::CANONICAL
        },
        b"\xf7",
        Keeps,
    ),
    (Rules::DETERMINISTIC, b"\xf7", Departs(Rule::NoUndefined, 1)),
    (
        Rules {
            no_undefined: false,
            ..Rules::DETERMINISTIC
        },
        b"\xf7",
        Keeps,
    ),
    (Rules::LENGTH_FIRST, b"\xf7", Departs(Rule::NoUndefined, 1)),
    (
        Rules {
            no_undefined: false,
            ..Rules::LENGTH_FIRST
        },
        b"\xf7",
        Keeps,
    ),
    (Rules::CTAP2, b"\xf7", Departs(Rule::NoUndefined, 1)),
    (
        Rules {
            no_undefined: false,
            ..Rules::CTAP2
        },
        b"\xf7",
        Keeps,
    ),
    (Rules::DCBOR, b"\xf7", Departs(Rule::NoUndefined, 1)),
    (
        Rules {
            no_undefined: false,
            ..Rules::DCBOR
        },
        b"\xf7",
        Keeps,
    ),
];

#[test]
fn refuses_undefined(rt: HostRuntime) -> Verdict {
    judges(&rt, rt.alloc(), UNDEFINED)
}

// The appendix has infinity and a NaN in all three widths.
const WIDE_FLOATS: &[(&[u8], u64)] = &[
    (b"\xfa\x7f\x80\0\0", 5),
    (b"\xfa\x7f\xc0\0\0", 5),
    (b"\xfa\xff\x80\0\0", 5),
    (b"\xfb\x7f\xf0\0\0\0\0\0\0", 9),
    (b"\xfb\x7f\xf8\0\0\0\0\0\0", 9),
    (b"\xfb\xff\xf0\0\0\0\0\0\0", 9),
];

#[test]
fn refuses_wide_floats(rt: HostRuntime) -> Verdict {
    let rule = Rule::ShortestFloats;
    all_depart(&rt, rt.alloc(), Rules::DETERMINISTIC, rule, WIDE_FLOATS)?;
    all_depart(&rt, rt.alloc(), Rules::LENGTH_FIRST, rule, WIDE_FLOATS)?;
    // these keep the width that a float has
    all_pass(rt.alloc(), Rules::CANONICAL, WIDE_FLOATS)?;
    all_pass(rt.alloc(), Rules::CTAP2, WIDE_FLOATS)
}

// The appendix has these of indefinite lengths.
const INDEFINITE: &[(&[u8], u64)] = &[
    (b"\x5f\x42\x01\x02\x43\x03\x04\x05\xff", 1),
    (b"\x7f\x65strea\x64ming\xff", 1),
    (b"\x9f\xff", 1),
    (b"\x9f\x01\x82\x02\x03\x9f\x04\x05\xff\xff", 1),
    (b"\x83\x01\x82\x02\x03\x9f\x04\x05\xff", 6),
    (b"\x83\x01\x9f\x02\x03\xff\x82\x04\x05", 3),
    (b"\xbf\x61a\x01\x61b\x9f\x02\x03\xff\xff", 1),
    (b"\x82\x61a\xbf\x61b\x61c\xff", 4),
];

const OPEN: Rules = Rules {
    definite_lengths: false,
    ..Rules::DETERMINISTIC
};

#[test]
fn refuses_indefinite_lengths(rt: HostRuntime) -> Verdict {
    let rule = Rule::DefiniteLengths;
    all_depart(&rt, rt.alloc(), Rules::DETERMINISTIC, rule, INDEFINITE)?;
    all_depart(&rt, rt.alloc(), Rules::CTAP2, rule, INDEFINITE)?;
    all_pass(rt.alloc(), OPEN, INDEFINITE)
}

//! dCBOR (draft-mcnally-deterministic-cbor).

use crate::checks::Expected::{Departs, Keeps};
use crate::checks::{Form, Row, all_depart, all_keep, all_pass, is_written, judges};
use cbor_rules::{Rule, Rules};
use test_checks::Verdict;

// Examples of RFC 8949, Appendix A, whose numbers are reduced: integers, floats that are none, and
// what holds them.
const REDUCED: &[&[u8]] = &[
    b"\0",
    b"\x1b\xff\xff\xff\xff\xff\xff\xff\xff",
    b"\x39\x03\xe7",
    b"\xf9\x3e\0",
    b"\xfb\x3f\xf1\x99\x99\x99\x99\x99\x9a",
    b"\xfa\x7f\x7f\xff\xff",
    b"\xf9\x7e\0",
    b"\xf9\xfc\0",
    b"\xc1\xfb\x41\xd4\x52\xd9\xec\x20\0\0",
    b"\xa2\x61a\x01\x61b\x82\x02\x03",
    b"\x83\xf4\xf5\xf6",
];

#[test]
fn reads_reduced_examples(rt: HostRuntime) -> Verdict {
    all_keep(rt.alloc(), Rules::DCBOR, REDUCED)
}

// Floats of Appendix A that are integers, and the ends of the range.
const UNREDUCED: &[(&[u8], u64)] = &[
    (b"\xf9\0\0", 3),
    (b"\x81\xf9\x80\0", 4),
    (b"\xfa\x47\xc3\x50\0", 5),
    (b"\xf9\xc4\0", 3),
    (b"\xfa\xdf\0\0\0", 5),
    (b"\xfb\x43\xef\xff\xff\xff\xff\xff\xff", 9),
    (b"\x3b\x80\0\0\0\0\0\0\0", 9),
    (b"\x3b\xff\xff\xff\xff\xff\xff\xff\xff", 9),
];

// What else dCBOR leaves out, and the same without rules.
const OTHERS: &[Row] = &[
    (Rules::DCBOR, b"\xf7", Departs(Rule::NoUndefined, 1)),
    (Rules::ANY, b"\xf7", Keeps),
    (Rules::DCBOR, b"\xf9\x7e\x01", Departs(Rule::OneNan, 3)),
    (Rules::ANY, b"\xf9\x7e\x01", Keeps),
    (
        Rules::DCBOR,
        b"\xfa\x3f\xc0\0\0",
        Departs(Rule::ShortestFloats, 5),
    ),
    (Rules::ANY, b"\xfa\x3f\xc0\0\0", Keeps),
];

const IN_ITS_FORM: &[&[u8]] = &[
    // 2^64 and -2^64, which are out of the range
    b"\xfa\x5f\x80\0\0",
    b"\xfa\xdf\x80\0\0",
    // the least integer, and an unsigned one with the same number in its head as the next below
    b"\x3b\x7f\xff\xff\xff\xff\xff\xff\xff",
    b"\x1b\x80\0\0\0\0\0\0\0",
];

#[test]
fn refuses_what_it_does_not_have(rt: HostRuntime) -> Verdict {
    let alloc = rt.alloc();
    all_depart(&rt, alloc, Rules::DCBOR, Rule::ReducedNumbers, UNREDUCED)?;
    all_pass(alloc, Rules::ANY, UNREDUCED)?;
    judges(&rt, alloc, OTHERS)?;
    all_keep(alloc, Rules::DCBOR, IN_ITS_FORM)
}

// Integers at each edge of a width of a head (RFC 8949, section 3).
const INTEGERS: &[&[u8]] = &[
    b"\x01",
    b"\x17",
    b"\x18\x18",
    b"\x18\xff",
    b"\x19\x01\0",
    b"\x19\xff\xff",
    b"\x1a\0\x01\0\0",
    b"\x1a\xff\xff\xff\xff",
    b"\x1b\0\0\0\x01\0\0\0\0",
    b"\x20",
    b"\x37",
    b"\x38\x18",
    b"\x38\xff",
    b"\x39\x01\0",
    b"\x39\xff\xff",
    b"\x3a\0\x01\0\0",
    b"\x3a\x7f\xff\xff\xff",
    b"\x3a\xff\xff\xff\xff",
    b"\x3b\0\0\0\x01\0\0\0\0",
];

#[test]
fn reads_integers_at_each_edge_of_a_width(rt: HostRuntime) -> Verdict {
    all_keep(rt.alloc(), Rules::DCBOR, INTEGERS)
}

// A float below -2^63; numbers of as many binary digits as a half (11) or a single (24) has, and
// of one more; each width's least number and least normal one; infinity.
const FLOATS: &[&[u8]] = &[
    b"\xfb\xc3\xef\xff\xff\xff\xff\xff\xff",
    b"\xf9\x60\x01",
    b"\xfa\x44\x80\x10\0",
    b"\xfa\x4a\x80\0\x01",
    b"\xfb\x41\x60\0\0\x10\0\0\0",
    b"\xfa\x4a\x0f\x2b\x39",
    b"\xfb\x3f\xf3\x33\x33\x33\x33\x33\x33",
    b"\xf9\x03\xff",
    b"\xfa\0\0\0\x01",
    b"\xfa\0\x80\0\0",
    b"\xfb\0\0\0\0\0\0\0\x01",
    b"\xfb\0\x10\0\0\0\0\0\0",
    b"\xf9\0\x01",
    b"\xf9\x04\0",
    b"\xf9\x7c\0",
];

#[test]
fn reads_floats_at_each_edge_of_a_width(rt: HostRuntime) -> Verdict {
    all_keep(rt.alloc(), Rules::DCBOR, FLOATS)
}

// These integers in the head of the next width, and 1 in three bytes.
const LONGER_HEADS: &[(&[u8], u64)] = &[
    (b"\x18\0", 2),
    (b"\x18\x17", 2),
    (b"\x19\0\x01", 3),
    (b"\x19\0\x18", 3),
    (b"\x19\0\xff", 3),
    (b"\x1a\0\0\x01\0", 5),
    (b"\x1a\0\0\xff\xff", 5),
    (b"\x1b\0\0\0\0\0\x01\0\0", 9),
    (b"\x1b\0\0\0\0\xff\xff\xff\xff", 9),
    (b"\x38\0", 2),
    (b"\x38\x17", 2),
    (b"\x39\0\xff", 3),
    (b"\x3a\0\0\xff\xff", 5),
    (b"\x3b\0\0\0\0\xff\xff\xff\xff", 9),
];

#[test]
fn refuses_integers_in_a_longer_head(rt: HostRuntime) -> Verdict {
    let rule = Rule::ShortestHeads;
    all_depart(&rt, rt.alloc(), Rules::DCBOR, rule, LONGER_HEADS)
}

// 1.5, 512.5, 1024.5, 4194304.5, 2^-24, 2^-149, 2^-126 and the infinities, wider than they have to
// be, and two NaN, for which f9 7e 00 stands.
const WIDER_FLOATS: &[(&[u8], u64)] = &[
    (b"\xfb\x3f\xf8\0\0\0\0\0\0", 9),
    (b"\xfa\x44\0\x20\0", 5),
    (b"\xfb\x40\x90\x02\0\0\0\0\0", 9),
    (b"\xfb\x41\x50\0\0\x20\0\0\0", 9),
    (b"\xfa\x33\x80\0\0", 5),
    (b"\xfb\x36\xa0\0\0\0\0\0\0", 9),
    (b"\xfb\x38\x10\0\0\0\0\0\0", 9),
    (b"\xfa\x7f\x80\0\0", 5),
    (b"\xfb\xff\xf0\0\0\0\0\0\0", 9),
    (b"\xfa\x7f\xc0\0\0", 5),
    (b"\xfb\x7f\xf8\0\0\0\0\0\x01", 9),
];

#[test]
fn refuses_wider_floats(rt: HostRuntime) -> Verdict {
    let rule = Rule::ShortestFloats;
    all_depart(&rt, rt.alloc(), Rules::DCBOR, rule, WIDER_FLOATS)
}

// 12.0, -0.0, 42.0, 2345678.0, -2345678.0, 33554430.0, 1024 - 2^63, and -2^63, which is the least
// in the range.
const INTEGERS_AS_FLOATS: &[(&[u8], u64)] = &[
    (b"\xf9\x4a\0", 3),
    (b"\xf9\x80\0", 3),
    (b"\xfa\x42\x28\0\0", 5),
    (b"\xfa\x4a\x0f\x2b\x38", 5),
    (b"\xfa\xca\x0f\x2b\x38", 5),
    (b"\xfb\x41\x7f\xff\xff\xe0\0\0\0", 9),
    (b"\xfb\xc3\xdf\xff\xff\xff\xff\xff\xff", 9),
    (b"\xfb\xc3\xe0\0\0\0\0\0\0", 9),
];

#[test]
fn refuses_integers_as_floats(rt: HostRuntime) -> Verdict {
    let rule = Rule::ReducedNumbers;
    all_depart(&rt, rt.alloc(), Rules::DCBOR, rule, INTEGERS_AS_FLOATS)
}

// A byte string, a text, an array and a map, each empty, whose first byte says it already.
const INDEFINITE: &[(&[u8], u64)] = &[
    (b"\x5f\xff", 1),
    (b"\x7f\xff", 1),
    (b"\x9f\xff", 1),
    (b"\xbf\xff", 1),
];

#[test]
fn refuses_indefinite_lengths(rt: HostRuntime) -> Verdict {
    let rule = Rule::DefiniteLengths;
    all_depart(&rt, rt.alloc(), Rules::DCBOR, rule, INDEFINITE)
}

#[test]
fn reads_what_is_written(rt: HostRuntime) -> Verdict {
    let bytes = b"\xbf\xfa\x3f\xc0\0\0\x01\xf9\x40\0\xf9\x80\0\xff";
    let want = b"\xa2\x02\0\xf9\x3e\0\x01";
    is_written(&rt, rt.alloc(), bytes, Form::Dcbor, want, Rules::DCBOR)
}

//! dCBOR: numbers that are integers, and what it refuses.

use cbor_forms::{integer_of, reduced, to_vec_dcbor};
use cbor_ser::Serialize;
use cbor_value::{Float, Map, Value};
use std::alloc::Global;
use std::process::Abort;
use test_checks::{Verdict, is_refused};

const EQUAL_KEYS: &str = "Two keys of a map are equal as dCBOR's numbers";

const TOO_LOW: &str = "An integer is below -2^63";

/// The value has this dCBOR encoding.
fn encodes<T: Serialize>(rt: &impl Abort, alloc: Global, value: &T, want: &[u8]) -> Verdict {
    assert!(rt; to_vec_dcbor(alloc, value)?.as_slice() == want);
    Ok(())
}

// The floats of RFC 8949, Appendix A: those that are integers have the encodings that it gives for
// these integers, or the head of section 3 that it gives no example of (19 ff e0, 1a 00 01 86 a0),
// and the others those that it gives for them.
#[test]
fn writes_the_floats_of_appendix_a(rt: HostRuntime) -> Verdict {
    let rows: [(f64, &[u8]); 16] = [
        (0.0, b"\0".as_slice()),
        (-0.0, b"\0".as_slice()),
        (1.0, b"\x01".as_slice()),
        (1.1, b"\xfb\x3f\xf1\x99\x99\x99\x99\x99\x9a".as_slice()),
        (1.5, b"\xf9\x3e\0".as_slice()),
        (65504.0, b"\x19\xff\xe0".as_slice()),
        (100000.0, b"\x1a\0\x01\x86\xa0".as_slice()),
        (3.4028234663852886e38, b"\xfa\x7f\x7f\xff\xff".as_slice()),
        (1.0e300, b"\xfb\x7e\x37\xe4\x3c\x88\0\x75\x9c".as_slice()),
        (5.960464477539063e-8, b"\xf9\0\x01".as_slice()),
        (0.00006103515625, b"\xf9\x04\0".as_slice()),
        (-4.0, b"\x23".as_slice()),
        (-4.1, b"\xfb\xc0\x10\x66\x66\x66\x66\x66\x66".as_slice()),
        (f64::INFINITY, b"\xf9\x7c\0".as_slice()),
        (f64::NAN, b"\xf9\x7e\0".as_slice()),
        (f64::NEG_INFINITY, b"\xf9\xfc\0".as_slice()),
    ];
    for (number, want) in rows {
        encodes(&rt, rt.alloc(), &number, want)?;
    }
    Ok(())
}

// The integers of RFC 8949, Appendix A, as floats have its encodings of these integers.
#[test]
fn writes_floats_as_the_integers_of_appendix_a(rt: HostRuntime) -> Verdict {
    let rows: [(f64, &[u8]); 12] = [
        (10.0, b"\x0a".as_slice()),
        (23.0, b"\x17".as_slice()),
        (24.0, b"\x18\x18".as_slice()),
        (25.0, b"\x18\x19".as_slice()),
        (100.0, b"\x18\x64".as_slice()),
        (1000.0, b"\x19\x03\xe8".as_slice()),
        (1.0e6, b"\x1a\0\x0f\x42\x40".as_slice()),
        (1.0e12, b"\x1b\0\0\0\xe8\xd4\xa5\x10\0".as_slice()),
        (-1.0, b"\x20".as_slice()),
        (-10.0, b"\x29".as_slice()),
        (-100.0, b"\x38\x63".as_slice()),
        (-1000.0, b"\x39\x03\xe7".as_slice()),
    ];
    for (number, want) in rows {
        encodes(&rt, rt.alloc(), &number, want)?;
    }
    Ok(())
}

// The ends of the range that the draft gives: -2^63 and 2^64 - 1. Doubles are 2^11 apart there.
#[test]
fn writes_integers_up_to_the_ends(rt: HostRuntime) -> Verdict {
    let rows: [(f64, &[u8]); 5] = [
        (
            18446744073709549568.0,
            b"\x1b\xff\xff\xff\xff\xff\xff\xf8\0".as_slice(),
        ),
        (18446744073709551616.0, b"\xfa\x5f\x80\0\0".as_slice()),
        (
            -9223372036854775808.0,
            b"\x3b\x7f\xff\xff\xff\xff\xff\xff\xff".as_slice(),
        ),
        (
            -9223372036854777856.0,
            b"\xfb\xc3\xe0\0\0\0\0\0\x01".as_slice(),
        ),
        (-18446744073709551616.0, b"\xfa\xdf\x80\0\0".as_slice()),
    ];
    for (number, want) in rows {
        encodes(&rt, rt.alloc(), &number, want)?;
    }
    let most = b"\x1b\xff\xff\xff\xff\xff\xff\xff\xff".as_slice();
    encodes(&rt, rt.alloc(), &u64::MAX, most)?;
    let least = b"\x3b\x7f\xff\xff\xff\xff\xff\xff\xff".as_slice();
    encodes(&rt, rt.alloc(), &i64::MIN, least)
}

// Integers at each edge of a width of a head (RFC 8949, section 3).
#[test]
fn writes_integers_at_each_edge_of_a_width(rt: HostRuntime) -> Verdict {
    let rows: [(i128, &[u8]); 22] = [
        (0, b"\0".as_slice()),
        (1, b"\x01".as_slice()),
        (23, b"\x17".as_slice()),
        (24, b"\x18\x18".as_slice()),
        (255, b"\x18\xff".as_slice()),
        (256, b"\x19\x01\0".as_slice()),
        (65535, b"\x19\xff\xff".as_slice()),
        (65536, b"\x1a\0\x01\0\0".as_slice()),
        (4294967295, b"\x1a\xff\xff\xff\xff".as_slice()),
        (4294967296, b"\x1b\0\0\0\x01\0\0\0\0".as_slice()),
        (
            18446744073709551615,
            b"\x1b\xff\xff\xff\xff\xff\xff\xff\xff".as_slice(),
        ),
        (-1, b"\x20".as_slice()),
        (-24, b"\x37".as_slice()),
        (-25, b"\x38\x18".as_slice()),
        (-256, b"\x38\xff".as_slice()),
        (-257, b"\x39\x01\0".as_slice()),
        (-65536, b"\x39\xff\xff".as_slice()),
        (-65537, b"\x3a\0\x01\0\0".as_slice()),
        (-2147483648, b"\x3a\x7f\xff\xff\xff".as_slice()),
        (-4294967296, b"\x3a\xff\xff\xff\xff".as_slice()),
        (-4294967297, b"\x3b\0\0\0\x01\0\0\0\0".as_slice()),
        (
            -9223372036854775808,
            b"\x3b\x7f\xff\xff\xff\xff\xff\xff\xff".as_slice(),
        ),
    ];
    for (number, want) in rows {
        encodes(&rt, rt.alloc(), &number, want)?;
    }
    Ok(())
}

// Integers as floats; one below -2^63; numbers of as many binary digits as a half (11) or a single
// (24) has, and of one more; each width's least number and least normal one.
#[test]
fn writes_floats_at_each_edge_of_a_width(rt: HostRuntime) -> Verdict {
    let rows: [(f64, &[u8]); 17] = [
        (42.0, b"\x18\x2a".as_slice()),
        (2345678.0, b"\x1a\0\x23\xca\xce".as_slice()),
        (-2345678.0, b"\x3a\0\x23\xca\xcd".as_slice()),
        (33554430.0, b"\x1a\x01\xff\xff\xfe".as_slice()),
        (
            -9223372036854774784.0,
            b"\x3b\x7f\xff\xff\xff\xff\xff\xfb\xff".as_slice(),
        ),
        (
            -18446744073709549568.0,
            b"\xfb\xc3\xef\xff\xff\xff\xff\xff\xff".as_slice(),
        ),
        (512.5, b"\xf9\x60\x01".as_slice()),
        (1024.5, b"\xfa\x44\x80\x10\0".as_slice()),
        (4194304.5, b"\xfa\x4a\x80\0\x01".as_slice()),
        (8388608.5, b"\xfb\x41\x60\0\0\x10\0\0\0".as_slice()),
        (2345678.25, b"\xfa\x4a\x0f\x2b\x39".as_slice()),
        (1.2, b"\xfb\x3f\xf3\x33\x33\x33\x33\x33\x33".as_slice()),
        (0.00006097555160522461, b"\xf9\x03\xff".as_slice()),
        (1.401298464324817e-45, b"\xfa\0\0\0\x01".as_slice()),
        (1.1754943508222875e-38, b"\xfa\0\x80\0\0".as_slice()),
        (5.0e-324, b"\xfb\0\0\0\0\0\0\0\x01".as_slice()),
        (
            2.2250738585072014e-308,
            b"\xfb\0\x10\0\0\0\0\0\0".as_slice(),
        ),
    ];
    for (number, want) in rows {
        encodes(&rt, rt.alloc(), &number, want)?;
    }
    Ok(())
}

// Digits past the point, in each of the widths.
#[test]
fn finds_integers_in_each_width(rt: HostRuntime) -> Verdict {
    let rows = [
        (Float::Half(0x3c00), Some(1)),
        (Float::Half(0x3bff), None),
        (Float::Half(0x0001), None),
        (Float::Half(0x8000), Some(0)),
        (Float::Half(0x7c00), None),
        (Float::Half(0x7e01), None),
        (Float::Single(0x4b00_0001), Some(8388609)),
        (Float::Single(0x4aff_ffff), None),
        (Float::Double(0x4340_0000_0000_0001), Some(9007199254740994)),
        (Float::Double(0x432f_ffff_ffff_ffff), None),
        (Float::Double(1), None),
    ];
    for (float, want) in rows {
        assert_eq!(rt; integer_of(float), want);
    }
    Ok(())
}

// 1 and 1.0 are one key, and so are 0.0 and -0.0; 1 and 1.5 are two.
#[test]
fn refuses_keys_that_become_equal(rt: HostRuntime) -> Verdict {
    let alloc = rt.alloc();
    let pairs = vec![in alloc;
        (Value::Integer(1), Value::Null),
        (Value::Float(Float::Half(0x3c00)), Value::Null),
    ]?;
    let map = Value::Map(Map::from_pairs(pairs)?);
    is_refused(reduced(alloc, &map), EQUAL_KEYS)?;
    is_refused(to_vec_dcbor(alloc, &map), EQUAL_KEYS)?;
    let pairs = vec![in alloc;
        (Value::Float(Float::Half(0)), Value::Null),
        (Value::Float(Float::Half(0x8000)), Value::Null),
    ]?;
    let map = Value::Map(Map::from_pairs(pairs)?);
    is_refused(to_vec_dcbor(alloc, &map), EQUAL_KEYS)?;
    let pairs = vec![in alloc;
        (Value::Float(Float::Single(0x3fc0_0000)), Value::Integer(1)),
        (Value::Float(Float::Half(0x4000)), Value::Integer(2)),
    ]?;
    let map = Value::Map(Map::from_pairs(pairs)?);
    let want = b"\xa2\x02\x02\xf9\x3e\0\x01".as_slice();
    encodes(&rt, alloc, &map, want)
}

#[test]
fn refuses_integers_below_its_range(rt: HostRuntime) -> Verdict {
    let alloc = rt.alloc();
    let low = i64::MIN as i128 - 1;
    is_refused(to_vec_dcbor(alloc, &low), TOO_LOW)?;
    let array = Value::Array(vec![in alloc; Value::Integer(low)]?);
    is_refused(reduced(alloc, &array), TOO_LOW)?;
    let most = Value::Integer(1 << 64);
    is_refused(
        to_vec_dcbor(alloc, &most),
        "The number can't be stored in CBOR",
    )
}

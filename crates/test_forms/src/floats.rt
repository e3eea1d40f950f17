//! Floats at their shortest.

use crate::checks::encodes;
use cbor_value::Float;
use test_checks::Verdict;

// The floats of RFC 8949, Appendix A, each of which is given there at its shortest.
#[test]
fn writes_the_floats_of_appendix_a(rt: HostRuntime) -> Verdict {
    let rows: [(f64, &[u8]); 16] = [
        (0.0, b"\xf9\0\0".as_slice()),
        (-0.0, b"\xf9\x80\0".as_slice()),
        (1.0, b"\xf9\x3c\0".as_slice()),
        (1.1, b"\xfb\x3f\xf1\x99\x99\x99\x99\x99\x9a".as_slice()),
        (1.5, b"\xf9\x3e\0".as_slice()),
        (65504.0, b"\xf9\x7b\xff".as_slice()),
        (100000.0, b"\xfa\x47\xc3\x50\0".as_slice()),
        (3.4028234663852886e38, b"\xfa\x7f\x7f\xff\xff".as_slice()),
        (1.0e300, b"\xfb\x7e\x37\xe4\x3c\x88\0\x75\x9c".as_slice()),
        (5.960464477539063e-8, b"\xf9\0\x01".as_slice()),
        (0.00006103515625, b"\xf9\x04\0".as_slice()),
        (-4.0, b"\xf9\xc4\0".as_slice()),
        (-4.1, b"\xfb\xc0\x10\x66\x66\x66\x66\x66\x66".as_slice()),
        (f64::INFINITY, b"\xf9\x7c\0".as_slice()),
        (f64::NAN, b"\xf9\x7e\0".as_slice()),
        (f64::NEG_INFINITY, b"\xf9\xfc\0".as_slice()),
    ];
    for (number, want) in rows {
        encodes(&rt, rt.alloc(), &number, want)?;
    }
    Ok(())
}

// Appendix A has infinity and a NaN in all three widths.
#[test]
fn writes_each_width_alike(rt: HostRuntime) -> Verdict {
    let rows = [
        (Float::Single(0x7f80_0000), Float::Half(0x7c00)),
        (Float::Double(0x7ff0_0000_0000_0000), Float::Half(0x7c00)),
        (Float::Single(0x7fc0_0000), Float::Half(0x7e00)),
        (Float::Double(0x7ff8_0000_0000_0000), Float::Half(0x7e00)),
        // NaNs of other signs and payloads
        (Float::Half(0xfe01), Float::Half(0x7e00)),
        (Float::Single(0xff80_0001), Float::Half(0x7e00)),
        (Float::Double(0x7ff0_0000_0000_0001), Float::Half(0x7e00)),
        // the greatest half less than the least normal one, and half of the least one
        (Float::Single(0x387f_c000), Float::Half(0x03ff)),
        (Float::Single(0x3300_0000), Float::Single(0x3300_0000)),
        // 2049, which has twelve digits, and 65536
        (
            Float::Double(0x40a0_0200_0000_0000),
            Float::Single(0x4500_1000),
        ),
        (
            Float::Double(0x40f0_0000_0000_0000),
            Float::Single(0x4780_0000),
        ),
    ];
    for (float, want) in rows {
        assert_eq!(rt; float.shortened(), want);
    }
    Ok(())
}

// 1.5, 100000.0, 1.1 and the NaN of Appendix A, and 0.1, which needs all 64 bits.
#[test]
fn is_the_shortest_of_a_number(rt: HostRuntime) -> Verdict {
    let rows = [
        (1.5, Float::Half(0x3e00)),
        (100000.0, Float::Single(0x47c3_5000)),
        (1.1, Float::Double(0x3ff1_9999_9999_999a)),
        (f64::NAN, Float::Half(0x7e00)),
        (0.1, Float::Double(0x3fb9_9999_9999_999a)),
    ];
    for (number, want) in rows {
        assert_eq!(rt; Float::shortest(number), want);
    }
    Ok(())
}

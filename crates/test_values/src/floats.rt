//! Floats as numbers. The bits that are wanted are those of Python's module `struct`.

use cbor_value::{Float, Value};
use std::num::{f32_to_bits_with_nan, f64_to_bits_with_nan};
use std::process::Abort;

// The checks below promise nothing, so that a test of many rows carries no facts from one to the
// next.

/// The number has these bits in 64.
fn widens(rt: &impl Abort, float: Float, bits: u64) {
    assert_eq!(rt; f64_to_bits_with_nan(float.to_f64()), bits);
}

/// The number has these bits in 32.
fn narrows(rt: &impl Abort, float: Float, bits: u32) {
    match float.to_f32() {
        Some(x) => assert_eq!(rt; f32_to_bits_with_nan(x), bits),
        None => assert!(rt; false),
    }
}

/// 32 bits don't hold the number.
fn is_out(rt: &impl Abort, double: u64) {
    assert!(rt; Float::Double(double).to_f32().is_none());
}

/// No number.
fn is_nan(rt: &impl Abort, float: Float) {
    assert!(rt; float.to_f64().is_nan());
    match float.to_f32() {
        Some(x) => assert!(rt; x.is_nan()),
        None => assert!(rt; false),
    }
}

/// Of a float and of a value, these are the bits.
fn doubles(rt: &impl Abort, x: f64, bits: u64) {
    assert_eq!(rt; Float::from(x), Float::Double(bits));
    assert_eq!(rt; Value::from(x), Value::Float(Float::Double(bits)));
}

fn singles(rt: &impl Abort, x: f32, bits: u32) {
    assert_eq!(rt; Float::from(x), Float::Single(bits));
    assert_eq!(rt; Value::from(x), Value::Float(Float::Single(bits)));
}

#[test]
fn widens_halves(rt: HostRuntime) {
    for (half, bits) in [
        (0x0000, 0x0000_0000_0000_0000),
        (0x8000, 0x8000_0000_0000_0000),
        (0x0001, 0x3e70_0000_0000_0000),
        (0x8001, 0xbe70_0000_0000_0000),
        (0x03ff, 0x3f0f_f800_0000_0000),
        (0x0400, 0x3f10_0000_0000_0000),
        (0x3c00, 0x3ff0_0000_0000_0000),
        (0x3e00, 0x3ff8_0000_0000_0000),
        (0xc400, 0xc010_0000_0000_0000),
        (0x7bff, 0x40ef_fc00_0000_0000),
        (0x7c00, 0x7ff0_0000_0000_0000),
        (0xfc00, 0xfff0_0000_0000_0000),
    ] {
        widens(&rt, Float::Half(half), bits);
    }
}

#[test]
fn widens_singles(rt: HostRuntime) {
    for (single, bits) in [
        (0x0000_0001, 0x36a0_0000_0000_0000),
        (0x007f_ffff, 0x380f_ffff_c000_0000),
        (0x0080_0000, 0x3810_0000_0000_0000),
        (0x7f7f_ffff, 0x47ef_ffff_e000_0000),
        (0x8000_0000, 0x8000_0000_0000_0000),
        (0x7f80_0000, 0x7ff0_0000_0000_0000),
        (0xff80_0000, 0xfff0_0000_0000_0000),
        (0x4049_0fdb, 0x4009_21fb_6000_0000),
        (0xbfc0_0000, 0xbff8_0000_0000_0000),
    ] {
        widens(&rt, Float::Single(single), bits);
    }
}

#[test]
fn keeps_doubles(rt: HostRuntime) {
    for bits in [
        0,
        1,
        0x8000_0000_0000_0000,
        0x000f_ffff_ffff_ffff,
        0x0010_0000_0000_0000,
        0xc010_6666_6666_6666,
        0x7fef_ffff_ffff_ffff,
        0xfff0_0000_0000_0000,
    ] {
        widens(&rt, Float::Double(bits), bits);
    }
}

/// All halves from 0 on, and their negatives: each is the last one and a step, which is 2^-24 up to
/// the second exponent and then doubles at each.
#[test]
fn widens_every_half(rt: HostRuntime) {
    let mut wanted = 0.0;
    let mut step = 5.9604644775390625e-8;
    for exponent in 0..31u16 {
        for fraction in 0..1024u16 {
            let bits = exponent * 1024 + fraction;
            widens(&rt, Float::Half(bits), f64_to_bits_with_nan(wanted));
            widens(
                &rt,
                Float::Half(bits + 0x8000),
                f64_to_bits_with_nan(-wanted),
            );
            wanted += step;
        }
        if exponent > 0 {
            step *= 2.0;
        }
    }
}

#[test]
fn narrows_halves_and_singles(rt: HostRuntime) {
    for (half, bits) in [
        (0x0001, 0x3380_0000),
        (0x03ff, 0x387f_c000),
        (0x8000, 0x8000_0000),
        (0x7bff, 0x477f_e000),
        (0x7c00, 0x7f80_0000),
    ] {
        narrows(&rt, Float::Half(half), bits);
    }
    for single in [1, 0x8000_0000, 0x007f_ffff, 0x7f7f_ffff, 0xff80_0000] {
        narrows(&rt, Float::Single(single), single);
    }
}

#[test]
fn narrows_doubles(rt: HostRuntime) {
    for (double, bits) in [
        (0x3ff8_0000_0000_0000, 0x3fc0_0000),
        (0x3ff0_0000_2000_0000, 0x3f80_0001),
        (0x36a0_0000_0000_0000, 0x0000_0001),
        (0x380f_ffff_c000_0000, 0x007f_ffff),
        (0x47ef_ffff_e000_0000, 0x7f7f_ffff),
        (0x8000_0000_0000_0000, 0x8000_0000),
        (0x7ff0_0000_0000_0000, 0x7f80_0000),
        (0xfff0_0000_0000_0000, 0xff80_0000),
    ] {
        narrows(&rt, Float::Double(double), bits);
    }
}

#[test]
fn narrows_no_double_that_loses(rt: HostRuntime) {
    for double in [
        // One bit from fitting, at 1 and among those below 2^-126.
        0x3ff0_0000_1000_0000,
        0x380f_ffff_e000_0000,
        // 2^-150, half the least; past the greatest; 2^128; and the ends of 64 bits.
        0x3690_0000_0000_0000,
        0x47ef_ffff_f000_0000,
        0x47f0_0000_0000_0000,
        0x0000_0000_0000_0001,
        0x7fef_ffff_ffff_ffff,
        // 0.1 and -4.1
        0x3fb9_9999_9999_999a,
        0xc010_6666_6666_6666,
    ] {
        is_out(&rt, double);
    }
}

#[test]
fn takes_every_nan_for_one(rt: HostRuntime) {
    for half in [0x7c01, 0x7e00, 0xfc01, 0xffff] {
        is_nan(&rt, Float::Half(half));
    }
    for single in [0x7f80_0001, 0x7fc0_0000, 0xffff_ffff] {
        is_nan(&rt, Float::Single(single));
    }
    for double in [0x7ff0_0000_0000_0001, 0x7ff8_0000_0000_0000, u64::MAX] {
        is_nan(&rt, Float::Double(double));
    }
}

#[test]
fn makes_floats_of_numbers(rt: HostRuntime) {
    doubles(&rt, 1.5, 0x3ff8_0000_0000_0000);
    doubles(&rt, -0.0, 0x8000_0000_0000_0000);
    doubles(&rt, -4.1, 0xc010_6666_6666_6666);
    doubles(&rt, f64::MAX, 0x7fef_ffff_ffff_ffff);
    doubles(&rt, f64::NEG_INFINITY, 0xfff0_0000_0000_0000);
    doubles(&rt, f64::NAN, 0x7ff8_0000_0000_0000);
    singles(&rt, 1.5, 0x3fc0_0000);
    singles(&rt, -0.0, 0x8000_0000);
    singles(&rt, 100000.0, 0x47c3_5000);
    singles(&rt, f32::MAX, 0x7f7f_ffff);
    singles(&rt, f32::NEG_INFINITY, 0xff80_0000);
    singles(&rt, f32::NAN, 0x7fc0_0000);
}

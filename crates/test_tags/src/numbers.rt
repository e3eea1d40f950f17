//! Big numbers.

use crate::checks::is_encoded;
use cbor_de::from_slice;
use cbor_tags::{BigInt, BigUint};
use std::alloc::Global;
use std::process::Abort;
use test_checks::{Verdict, is_refused};

/// The number is written as these bytes, and they are read as it.
fn is_natural(rt: &impl Abort, alloc: Global, number: u128, bytes: &[u8]) -> Verdict {
    is_encoded(rt, alloc, BigUint::from_u128(alloc, number)?, bytes)?;
    assert!(rt; from_slice::<BigUint>(alloc, bytes)?.to_u128() == Some(number));
    Ok(())
}

fn is_integer(rt: &impl Abort, alloc: Global, number: i128, bytes: &[u8]) -> Verdict {
    is_encoded(rt, alloc, BigInt::from_i128(alloc, number)?, bytes)?;
    assert!(rt; from_slice::<BigInt>(alloc, bytes)?.to_i128() == Some(number));
    Ok(())
}

#[test]
fn writes_and_reads_big_numbers(rt: HostRuntime) -> Verdict {
    let alloc = rt.alloc();
    is_natural(&rt, alloc, 1 << 64, b"\xc2\x49\x01\0\0\0\0\0\0\0\0")?;
    is_natural(&rt, alloc, 0, b"\xc2\x40")?;
    is_natural(&rt, alloc, 256, b"\xc2\x42\x01\0")?;
    is_integer(&rt, alloc, 1 << 64, b"\xc2\x49\x01\0\0\0\0\0\0\0\0")?;
    is_integer(&rt, alloc, -1 - (1 << 64), b"\xc3\x49\x01\0\0\0\0\0\0\0\0")?;
    is_integer(&rt, alloc, -1, b"\xc3\x40")?;
    let least = b"\xc3\x50\x7f\xff\xff\xff\xff\xff\xff\xff\xff\xff\xff\xff\xff\xff\xff\xff";
    is_integer(&rt, alloc, i128::MIN, least)
}

// Leading zeros are kept, and count for nothing; and the first number that is too far out.
#[test]
fn keeps_bytes_as_they_came(rt: HostRuntime) -> Verdict {
    let alloc = rt.alloc();
    let mut bytes = *b"\xc2\x51\0\xff\xff\xff\xff\xff\xff\xff\xff\xff\xff\xff\xff\xff\xff\xff\xff";
    let most: BigUint = from_slice(alloc, &bytes)?;
    assert!(rt; most.to_u128() == Some(u128::MAX));
    is_encoded(&rt, alloc, most, &bytes)?;
    bytes[2] = 1;
    assert!(rt; from_slice::<BigUint>(alloc, &bytes)?.to_u128().is_none());
    for tag in [0xc2, 0xc3] {
        let bytes = [tag, 0x50, 0x80, 0, 0, 0, 0, 0, 0, 0, 0, 0, 0, 0, 0, 0, 0, 0];
        assert!(rt; from_slice::<BigInt>(alloc, &bytes)?.to_i128().is_none());
    }
    Ok(())
}

#[test]
fn refuses_what_is_no_big_number(rt: HostRuntime) -> Verdict {
    let alloc = rt.alloc();
    for bytes in [&b"\x40"[..], b"\xc3\x40"] {
        let number = from_slice::<BigUint>(alloc, bytes);
        is_refused(number, "invalid type: expected tag 2")?;
    }
    for bytes in [&b"\x01"[..], b"\xc2\x60"] {
        let number = from_slice::<BigUint>(alloc, bytes);
        is_refused(number, "invalid type: expected bytes")?;
    }
    for bytes in [&b"\x40"[..], b"\xc1\x40"] {
        let number = from_slice::<BigInt>(alloc, bytes);
        is_refused(number, "invalid type: expected tag 2 or 3")?;
    }
    for bytes in [&b"\x01"[..], b"\xc3\x60"] {
        let number = from_slice::<BigInt>(alloc, bytes);
        is_refused(number, "invalid type: expected bytes")?;
    }
    Ok(())
}

//! Times.

use crate::checks::is_encoded;
use cbor_de::from_slice;
use cbor_tags::{DateTime, EpochTime};
use cbor_value::Float;
use test_checks::{Verdict, is_refused};

#[test]
fn writes_and_reads_times(rt: HostRuntime) -> Verdict {
    let alloc = rt.alloc();
    let text = DateTime(String::from_str(alloc, "2013-03-21T20:04:00Z")?);
    is_encoded(&rt, alloc, text, b"\xc0\x742013-03-21T20:04:00Z")?;
    let whole = EpochTime::Seconds(1363896240);
    is_encoded(&rt, alloc, whole, b"\xc1\x1a\x51\x4b\x67\xb0")?;
    let half = EpochTime::Float(Float::from(1363896240.5));
    is_encoded(&rt, alloc, half, b"\xc1\xfb\x41\xd4\x52\xd9\xec\x20\0\0")?;
    let zero = EpochTime::Float(Float::Half(0));
    is_encoded(&rt, alloc, zero, b"\xc1\xf9\0\0")?;
    let first = EpochTime::Seconds(i64::MIN);
    is_encoded(
        &rt,
        alloc,
        first,
        b"\xc1\x3b\x7f\xff\xff\xff\xff\xff\xff\xff",
    )
}

#[test]
fn refuses_what_is_no_time(rt: HostRuntime) -> Verdict {
    let alloc = rt.alloc();
    for bytes in [&b"\x60"[..], b"\xc1\x60"] {
        let text = from_slice::<DateTime>(alloc, bytes);
        is_refused(text, "invalid type: expected tag 0")?;
    }
    for bytes in [&b"\x00"[..], b"\xc0\x00"] {
        let text = from_slice::<DateTime>(alloc, bytes);
        is_refused(text, "invalid type: expected a string")?;
    }
    for bytes in [&b"\x00"[..], b"\xc0\x00"] {
        let time = from_slice::<EpochTime>(alloc, bytes);
        is_refused(time, "invalid type: expected tag 1")?;
    }
    for bytes in [&b"\xc1\x60"[..], b"\xc1\xc1\x00"] {
        let time = from_slice::<EpochTime>(alloc, bytes);
        is_refused(time, "invalid type: expected an integer or a float")?;
    }
    for bytes in [
        &b"\xc1\x1b\x80\0\0\0\0\0\0\0"[..],
        b"\xc1\x3b\x80\0\0\0\0\0\0\0",
    ] {
        let time = from_slice::<EpochTime>(alloc, bytes);
        is_refused(time, "integer out of range: expected i64")?;
    }
    let time = from_slice::<EpochTime>(alloc, b"\xc1\x1a\0");
    is_refused(time, "EOF while parsing a value at offset 3")
}

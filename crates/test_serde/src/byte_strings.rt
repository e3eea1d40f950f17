// Byte strings and floats as fields.

use crate::checks::{is_read, is_refused_at, is_written, is_written_with};
use cbor_serde::bytes::{ByteArray, ByteBuf, Bytes};
use cbor_serde::{
    Float, FloatItem, Options, Result as Answer, from_reader, from_slice, to_vec_canonical,
};
use serde::{Deserialize, Serialize};
use std::alloc::Global;
use std::process::Abort;
use test_checks::Verdict;

#[derive(Debug, Drop, PartialEq, Serialize, Deserialize)]
struct Parcel {
    key: ByteBuf,
    hash: ByteArray<2>,
    weight: FloatItem,
    rest: Vec<ByteBuf>,
}

// {"key": h'01020304', "hash": h'0102', "weight": 1.5, "rest": [h'']}, by RFC 7049, Appendix A.
const PARCEL: &[u8] = b"\xa4\x63key\x44\x01\x02\x03\x04\x64hash\x42\x01\x02\
      \x66weight\xfb\x3f\xf8\0\0\0\0\0\0\x64rest\x81\x40";

fn read_parcel(alloc: Global) -> Answer<Parcel> {
    from_slice(alloc, PARCEL)
}

#[test]
fn are_fields(rt: HostRuntime) -> Verdict {
    let alloc = rt.alloc();
    let parcel = read_parcel(alloc)?;
    assert_eq!(rt; parcel.key.0.as_slice(), [1, 2, 3, 4].as_slice());
    assert_eq!(rt; parcel.hash, ByteArray([1, 2]));
    assert_eq!(rt; parcel.weight, FloatItem(Float::from(1.5f64)));
    is_written(&rt, alloc, &parcel, PARCEL)?;
    let again: Parcel = from_reader(alloc, PARCEL)?;
    assert!(rt; again == parcel);
    Ok(())
}

// RFC 7049, Appendix A: h'', h'01020304', and (_ h'0102', h'030405').
#[test]
fn are_byte_strings(rt: HostRuntime) -> Verdict {
    let alloc = rt.alloc();
    let empty: ByteBuf = from_slice(alloc, b"\x40")?;
    is_written(&rt, alloc, &empty, b"\x40")?;
    let four = b"\x44\x01\x02\x03\x04";
    is_read(&rt, alloc, four, Bytes(b"\x01\x02\x03\x04"))?;
    is_written(&rt, alloc, &from_slice::<Bytes>(alloc, four)?, four)
}

#[test]
fn are_one_string_of_chunks(rt: HostRuntime) -> Verdict {
    let alloc = rt.alloc();
    let chunks: ByteArray<5> = from_slice(alloc, b"\x5f\x42\x01\x02\x43\x03\x04\x05\xff")?;
    assert_eq!(rt;
        to_vec_canonical(alloc, &chunks)?.as_slice(),
        b"\x45\x01\x02\x03\x04\x05".as_slice()
    );
    Ok(())
}

#[derive(Clone, Copy)]
enum As {
    ByteBuf,
    Two,
    Lent,
}

// Whether the bytes are read as this type.
fn reads(alloc: Global, bytes: &[u8], of: As) -> Answer<()> {
    match of {
        As::ByteBuf => {
            from_slice::<ByteBuf>(alloc, bytes)?;
        }
        As::Two => {
            from_slice::<ByteArray<2>>(alloc, bytes)?;
        }
        As::Lent => {
            from_slice::<Bytes>(alloc, bytes)?;
        }
    }
    Ok(())
}

const NOTHING_ELSE: &[(As, &[u8], &str)] = &[
    (As::ByteBuf, b"\x82\x01\x02", "invalid type: expected bytes"),
    (As::ByteBuf, b"\x62\x61\x62", "invalid type: expected bytes"),
    (As::Two, b"\x43\x01\x02\x03", "invalid length"),
    (
        As::Lent,
        b"\x5f\x41\x01\xff",
        "invalid type: expected a borrowed string",
    ),
    (
        As::Two,
        b"\x42\x01",
        "EOF while parsing a value at offset 2",
    ),
];

#[test]
fn are_nothing_else(rt: HostRuntime) -> Verdict {
    for (row, (of, bytes, words)) in NOTHING_ELSE.iter().enumerate() {
        is_refused_at(row, reads(rt.alloc(), bytes, *of), words)?;
    }
    Ok(())
}

fn read_float(alloc: Global, bytes: &[u8]) -> Answer<FloatItem> {
    from_slice(alloc, bytes)
}

// RFC 7049, Appendix A: 1.5 in 16 bits, 100000.0 in 32, and 1.1 in 64; and 100000.0 as the integer.
const HALF: &[u8] = b"\xf9\x3e\0";

const SINGLE: &[u8] = b"\xfa\x47\xc3\x50\0";

const DOUBLE: &[u8] = b"\xfb\x3f\xf1\x99\x99\x99\x99\x99\x9a";

const WHOLE: &[u8] = b"\x1a\0\x01\x86\xa0";

#[test]
fn keeps_the_numbers_of_floats(rt: HostRuntime) -> Verdict {
    let alloc = rt.alloc();
    assert_eq!(rt; read_float(alloc, HALF)?, FloatItem(Float::from(1.5f64)));
    let single = read_float(alloc, SINGLE)?;
    assert_eq!(rt; single.0.to_f64(), 100000.0);
    assert_eq!(rt; read_float(alloc, WHOLE)?, single);
    Ok(())
}

// The last is written by the option for shortest floats.
#[test]
fn keeps_the_width_of_floats(rt: HostRuntime) -> Verdict {
    let alloc = rt.alloc();
    is_written(&rt, alloc, &read_float(alloc, DOUBLE)?, DOUBLE)?;
    is_written(&rt, alloc, &FloatItem(Float::Single(0x47c3_5000)), SINGLE)?;
    let shortest = Options::new().shortest_floats();
    is_written_with(&rt, shortest, alloc, &read_float(alloc, HALF)?, HALF)
}

// JSON has no byte strings: the kit's `serde_json` writes and reads an array of numbers.
#[test]
fn go_to_json(rt: HostRuntime) -> Verdict {
    let alloc = rt.alloc();
    let parcel = read_parcel(alloc)?;
    let text = serde_json::to_string(alloc, &parcel)?;
    assert_eq!(rt;
        text.as_str(),
        "{\"key\":[1,2,3,4],\"hash\":[1,2],\"weight\":1.5,\"rest\":[[]]}"
    );
    let again: Parcel = serde_json::from_str(alloc, text.as_str())?;
    assert!(rt; again == parcel);
    Ok(())
}

#[test]
fn are_lent_by_json(rt: HostRuntime) -> Verdict {
    let lent: Bytes = serde_json::from_str(rt.alloc(), "\"IETF\"")?;
    assert_eq!(rt; lent, Bytes(b"IETF"));
    Ok(())
}

// Each call at types of std's.

use crate::checks::{is_read, is_refused_at, is_written};
use cbor_serde::{
    Options, Result as Answer, SliceWrite, Value, from_reader, from_slice, from_slice_canonical,
    from_slice_with, from_value, to_value, to_vec, to_vec_canonical, to_writer,
};
use std::alloc::Global;
use std::collections::BTreeMap;
use test_checks::{Verdict, is_refused};

// RFC 7049, Appendix A: [1, [2, 3], [4, 5]] and "IETF".
#[test]
fn writes_and_reads(rt: HostRuntime) -> Verdict {
    let alloc = rt.alloc();
    let nested = (1u8, (2u8, 3u8), (4u8, 5u8));
    let bytes = b"\x83\x01\x82\x02\x03\x82\x04\x05";
    is_written(&rt, alloc, &nested, bytes)?;
    is_read(&rt, alloc, bytes, nested)?;
    is_read(&rt, alloc, b"\x64IETF", "IETF")
}

#[test]
fn reads_from_a_reader(rt: HostRuntime) -> Verdict {
    let number: u32 = from_reader(rt.alloc(), b"\x1a\x00\x0f\x42\x40".as_slice())?;
    assert_eq!(rt; number, 1000000);
    Ok(())
}

// RFC 7049, section 3.9: the keys in the order of their encodings.
#[test]
fn writes_canonically(rt: HostRuntime) -> Verdict {
    let alloc = rt.alloc();
    let mut map = BTreeMap::new(alloc);
    map.insert(-1i16, 1u8)?;
    map.insert(10, 2)?;
    let bytes = to_vec_canonical(alloc, &map)?;
    assert_eq!(rt; bytes.as_slice(), b"\xa2\x0a\x02\x20\x01".as_slice());
    Ok(())
}

fn canonical(alloc: Global, bytes: &[u8]) -> Answer<BTreeMap<i16, u8>> {
    from_slice_canonical(alloc, bytes)
}

#[test]
fn reads_canonical_bytes_alone(rt: HostRuntime) -> Verdict {
    let alloc = rt.alloc();
    assert_eq!(rt; canonical(alloc, b"\xa2\x0a\x02\x20\x01")?.len(), 2);
    is_refused(
        canonical(alloc, b"\xa2\x20\x01\x0a\x02"),
        "not canonical at offset 4",
    )
}

#[test]
fn appends_to_a_sink(rt: HostRuntime) -> Verdict {
    let alloc = rt.alloc();
    let mut room = [0; 4];
    let mut out = SliceWrite::new(&mut room);
    to_writer(alloc, &mut out, &true)?;
    to_writer(alloc, &mut out, &"a")?;
    assert_eq!(rt; out.bytes_written(), 3);
    is_refused(
        to_writer(alloc, &mut out, &"b"),
        "Scratch buffer too small at offset 3",
    )?;
    drop(out);
    assert_eq!(rt; room, *b"\xf5\x61a\0");
    Ok(())
}

#[test]
fn makes_and_reads_values(rt: HostRuntime) -> Verdict {
    let alloc = rt.alloc();
    let value = to_value(alloc, &(true, -5i8))?;
    let expected = vec![in alloc; Value::Bool(true), Value::Integer(-5)]?;
    assert_eq!(rt; value, Value::Array(expected));
    let read: (bool, i8) = from_value(alloc, &value)?;
    assert_eq!(rt; read, (true, -5));
    Ok(())
}

fn nested(alloc: Global, levels: u8) -> Answer<((u8,),)> {
    from_slice_with(Options::new().nesting_limit(levels), alloc, b"\x81\x81\x01")
}

// [[1]] nests two levels.
#[test]
fn counts_levels(rt: HostRuntime) -> Verdict {
    let alloc = rt.alloc();
    assert_eq!(rt; nested(alloc, 2)?, ((1,),));
    is_refused(nested(alloc, 1), "recursion limit exceeded at offset 2")
}

#[test]
fn gives_levels_back_between_arrays(rt: HostRuntime) -> Verdict {
    let two = Options::new().nesting_limit(2);
    let beside: ((u8,), (u8,)) = from_slice_with(two, rt.alloc(), b"\x82\x81\x01\x81\x02")?;
    assert_eq!(rt; beside, ((1,), (2,)));
    Ok(())
}

#[derive(Clone, Copy)]
enum As {
    Number,
    Text,
    List,
}

// Whether the bytes are read as this type.
fn reads(alloc: Global, bytes: &[u8], of: As) -> Answer<()> {
    match of {
        As::Number => {
            from_slice::<u8>(alloc, bytes)?;
        }
        As::Text => {
            from_slice::<&str>(alloc, bytes)?;
        }
        As::List => {
            from_slice::<Vec<u8>>(alloc, bytes)?;
        }
    }
    Ok(())
}

const MISFITS: &[(As, &[u8], &str)] = &[
    (As::Number, b"\x01\x02", "trailing data at offset 2"),
    (
        As::Text,
        b"\x7f\x61a\x61b\xff",
        "invalid type: expected a borrowed string",
    ),
    (
        As::List,
        b"\x9b\xff\xff\xff\xff\xff\xff\xff\xff",
        "EOF while parsing a value at offset 9",
    ),
];

#[test]
fn refuses_what_does_not_fit(rt: HostRuntime) -> Verdict {
    for (row, (of, bytes, words)) in MISFITS.iter().enumerate() {
        is_refused_at(row, reads(rt.alloc(), bytes, *of), words)?;
    }
    is_refused(
        to_vec(rt.alloc(), &(1i128 << 64)),
        "The number can't be stored in CBOR",
    )
}

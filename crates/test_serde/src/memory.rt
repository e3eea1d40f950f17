// Types that derive, where each allocation may be refused, and what is read without memory
// (.ci/growths).

use crate::checks::is_read;
use cbor_serde::bytes::Bytes;
use cbor_serde::{Options, SliceWrite, from_slice, to_vec_with, to_writer};
use derived_types::{Answer, Event, Folder, Note, Shape};
use serde::{Deserialize, Serialize};
use std::alloc::Global;
use std::fmt::Debug;
use std::process::Abort;
use test_checks::{Verdict, is_refused};

// The bytes are read as what is shown so, and written again, floats in the shortest width: rows of
// crates/derived_rows/data, or a part of one.
fn is_read_and_written<'a, T: Deserialize<'a> + Serialize + Debug>(
    rt: &impl Abort,
    alloc: Global,
    bytes: &'a [u8],
    shown: &str,
) -> Verdict {
    let value: T = from_slice(alloc, bytes)?;
    assert_eq!(rt; format!(in alloc; "{value:?}")?.as_str(), shown);
    let shortest = Options::new().shortest_floats();
    let written = to_vec_with(shortest, alloc, &value)?;
    assert_eq!(rt; written.as_slice(), bytes);
    Ok(())
}

#[test]
fn reads_and_writes_shapes(rt: HostRuntime) -> Verdict {
    for (bytes, shown) in [
        (b"\x63dot".as_slice(), "Dot"),
        (b"\xa1\x66circle\xfa\x3f\x8c\xcc\xcd", "Circle(1.1)"),
        (b"\xa1\x64line\x82\x01\x21", "Line(1, -2)"),
        (
            b"\xa1\x69long_rect\xa2\x65width\x01\x66height\x02",
            "LongRect { width: 1, height: 2 }",
        ),
    ] {
        is_read_and_written::<Shape>(&rt, rt.alloc(), bytes, shown)?;
    }
    Ok(())
}

#[test]
fn reads_and_writes_events(rt: HostRuntime) -> Verdict {
    for (bytes, shown) in [
        (
            b"\xa2\x64type\x65Start\x62at\x05".as_slice(),
            "Start { at: 5 }",
        ),
        (b"\xa1\x64type\x64Stop", "Stop"),
    ] {
        is_read_and_written::<Event>(&rt, rt.alloc(), bytes, shown)?;
    }
    Ok(())
}

#[test]
fn reads_and_writes_answers(rt: HostRuntime) -> Verdict {
    for (bytes, shown) in [
        (
            b"\xa2\x61t\x66Shapes\x61c\x83\x63dot\xa1\x66circle\xf9\x3e\0\
              \xa1\x69long_rect\xa2\x65width\x01\x66height\x02"
                .as_slice(),
            "Shapes([Dot, Circle(1.5), LongRect { width: 1, height: 2 }])",
        ),
        (b"\xa2\x61t\x67Refused\x61c\x82\x01\xf5", "Refused(1, true)"),
        (b"\xa1\x61t\x67Nothing", "Nothing"),
    ] {
        is_read_and_written::<Answer>(&rt, rt.alloc(), bytes, shown)?;
    }
    Ok(())
}

#[test]
fn reads_and_writes_notes(rt: HostRuntime) -> Verdict {
    for (bytes, shown) in [
        (b"\x09".as_slice(), "Number(9)"),
        (b"\x63abc", "Text(\"abc\")"),
    ] {
        is_read_and_written::<Note>(&rt, rt.alloc(), bytes, shown)?;
    }
    Ok(())
}

#[test]
fn reads_and_writes_folders(rt: HostRuntime) -> Verdict {
    is_read_and_written::<Folder>(
        &rt,
        rt.alloc(),
        b"\xbf\x68fileName\x61a\x64type\x65Start\x62at\x05\x64note\x09\x67folders\x81\
          \xbf\x68fileName\x61b\x64type\x64Stop\x67folders\x80\xff\xff",
        "Folder { file_name: \"a\", event: Start { at: 5 }, note: Some(Number(9)), \
         folders: [Folder { file_name: \"b\", event: Stop, note: None, folders: [] }] }",
    )
}

// For its number and for want of memory the pair is refused before the sink has a byte of it.
#[test]
fn leaves_a_sink_as_it_was(rt: HostRuntime) -> Verdict {
    let mut room = [0; 16];
    let mut out = SliceWrite::new(&mut room);
    let answer = to_writer(rt.alloc(), &mut out, &(true, 1i128 << 64));
    assert!(rt; out.bytes_written() == 0);
    drop(out);
    assert!(rt; room == [0; 16]);
    is_refused(answer, "The number can't be stored in CBOR")
}

// RFC 7049, Appendix A: true, null, "ü" and 1(1363896240).
#[test]
fn reads_plain_items_without_memory(rt: HostRuntime) -> Verdict {
    let alloc = rt.alloc();
    is_read(&rt, alloc, b"\xf5", true)?;
    is_read(&rt, alloc, b"\xf6", ())?;
    is_read(&rt, alloc, b"\x62\xc3\xbc", 'ü')?;
    is_read(&rt, alloc, b"\xc1\x1a\x51\x4b\x67\xb0", 1363896240u32)
}

// RFC 7049, Appendix A: 0, 2^64 - 1, -1000 and -2^64.
#[test]
fn reads_integers_without_memory(rt: HostRuntime) -> Verdict {
    let alloc = rt.alloc();
    is_read(&rt, alloc, b"\x00", 0u8)?;
    is_read(
        &rt,
        alloc,
        b"\x1b\xff\xff\xff\xff\xff\xff\xff\xff",
        u64::MAX,
    )?;
    is_read(&rt, alloc, b"\x39\x03\xe7", -1000i16)?;
    is_read(
        &rt,
        alloc,
        b"\x3b\xff\xff\xff\xff\xff\xff\xff\xff",
        -(1i128 << 64),
    )
}

// RFC 7049, Appendix A: 1.5, 100000.0 and 1.1 in 16, 32 and 64 bits, and 1.
#[test]
fn reads_floats_without_memory(rt: HostRuntime) -> Verdict {
    let alloc = rt.alloc();
    is_read(&rt, alloc, b"\xf9\x3e\0", 1.5f32)?;
    for (bytes, number) in [
        (b"\xfa\x47\xc3\x50\0".as_slice(), 100000.0),
        (b"\xfb\x3f\xf1\x99\x99\x99\x99\x99\x9a", 1.1),
        (b"\x01", 1.0),
    ] {
        is_read::<f64>(&rt, alloc, bytes, number)?;
    }
    Ok(())
}

// The second has a head of two bytes.
#[test]
fn reads_lent_strings_without_memory(rt: HostRuntime) -> Verdict {
    let alloc = rt.alloc();
    for bytes in [b"\x64IETF".as_slice(), b"\x78\x04IETF"] {
        is_read(&rt, alloc, bytes, "IETF")?;
    }
    is_read(
        &rt,
        alloc,
        b"\x44\x01\x02\x03\x04",
        Bytes(b"\x01\x02\x03\x04"),
    )
}

#[test]
fn reads_options_without_memory(rt: HostRuntime) -> Verdict {
    let alloc = rt.alloc();
    for (bytes, text) in [(b"\xf6".as_slice(), None), (b"\x64IETF", Some("IETF"))] {
        is_read::<Option<&str>>(&rt, alloc, bytes, text)?;
    }
    is_read(&rt, alloc, b"\x18\x18", Some(24u8))?;
    is_read(&rt, alloc, b"\xf4", Some(false))
}

// A variant that holds nothing, of an enum of others that do.
#[test]
fn reads_a_name_without_memory(rt: HostRuntime) -> Verdict {
    is_read(&rt, rt.alloc(), b"\x63dot", Shape::Dot)
}

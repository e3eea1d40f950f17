//! Items by the source: examples of RFC 8949, Appendix A, in its notation; sequences of items, and
//! inputs that end too early.

use crate::devices::Pieces;
use cbor_buffered::BufferedRead;
use cbor_de::{Deserialize, Deserializer, StreamDeserializer, from_slice};
use cbor_diagnostic::to_diagnostic;
use cbor_io::error::Result as Answer;
use cbor_read::ReadError;
use cbor_value::Value;
use std::alloc::Global;
use std::process::Abort;
use std::test::Fail;
use test_checks::{Verdict, is_refused};

// How many bytes a reader gives a call.
pub const PIECES: [usize; 3] = [1, 7, 10_000];

pub const EXAMPLES: [(&[u8], &str); 9] = [
    (b"\x19\x03\xe8", "1000"),
    (
        b"\x3b\xff\xff\xff\xff\xff\xff\xff\xff",
        "-18446744073709551616",
    ),
    (b"\xfb\x3f\xf1\x99\x99\x99\x99\x99\x9a", "1.1"),
    (b"\xd7\x44\x01\x02\x03\x04", "23(h'01020304')"),
    (b"\x64IETF", "\"IETF\""),
    (b"\x7f\x65strea\x64ming\xff", "\"streaming\""),
    (b"\x5f\x42\x01\x02\x43\x03\x04\x05\xff", "h'0102030405'"),
    (b"\x82\x61a\xbf\x61b\x61c\xff", "[\"a\", {\"b\": \"c\"}]"),
    (
        b"\xbf\x63Fun\xf5\x63Amt\x21\xff",
        "{\"Amt\": -2, \"Fun\": true}",
    ),
];

// Others, whose spellings are what is written.
pub const WRITTEN: [(&[u8], &str); 6] = [
    (b"\x19\x03\xe8", "1000"),
    (b"\x39\x03\xe7", "-1000"),
    (b"\xfb\x3f\xf1\x99\x99\x99\x99\x99\x9a", "1.1"),
    (b"\x64IETF", "\"IETF\""),
    (b"\x60", "\"\""),
    (b"\x82\x01\xf5", "[1, true]"),
];

/// An example by its bytes, which is the one of this notation.
pub fn example(
    rt: &impl Abort,
    alloc: Global,
    bytes: &[u8],
    notation: &str,
) -> Result<Value, Fail> {
    let value = from_slice(alloc, bytes)?;
    is_noted(rt, alloc, &value, notation)?;
    Ok(value)
}

/// The value has this notation.
pub fn is_noted(rt: &impl Abort, alloc: Global, value: &Value, notation: &str) -> Verdict {
    assert!(rt; to_diagnostic(alloc, value)?.as_str() == notation);
    Ok(())
}

type Reader<'a> = Deserializer<BufferedRead<Pieces<'a>>>;

fn reader<'a>(alloc: Global, bytes: &'a [u8], piece: usize) -> Result<Reader<'a>, ReadError> {
    let source = BufferedRead::new(alloc, Pieces::new(bytes, piece))?;
    Ok(Deserializer::new(alloc, source))
}

fn next(de: &mut Reader<'_>) -> Answer<Value> {
    Value::deserialize(de)
}

fn is_read(rt: &impl Abort, alloc: Global, bytes: &[u8], piece: usize, want: &str) -> Verdict {
    let mut de = reader(alloc, bytes, piece)?;
    is_noted(rt, alloc, &next(&mut de)?, want)?;
    de.end()?;
    Ok(())
}

#[test]
fn reads_the_examples_of_the_standard(rt: HostRuntime) -> Verdict {
    for piece in PIECES {
        for (bytes, notation) in &EXAMPLES {
            is_read(&rt, rt.alloc(), bytes, piece, notation)?;
        }
    }
    Ok(())
}

fn streams(rt: &impl Abort, alloc: Global, piece: usize) -> Verdict {
    let source = BufferedRead::new(alloc, Pieces::new(b"\x01\x18\x2a\x19\x03\xe8", piece))?;
    let mut stream = StreamDeserializer::<_, u16>::new(alloc, source);
    for (want, offset) in [(1, 1), (42, 3), (1000, 6)] {
        assert!(rt; stream.next().ok_or("none")?? == want);
        assert!(rt; stream.byte_offset() == offset);
    }
    assert!(rt; stream.next().is_none());
    Ok(())
}

#[test]
fn reads_a_sequence(rt: HostRuntime) -> Verdict {
    for piece in PIECES {
        streams(&rt, rt.alloc(), piece)?;
    }
    Ok(())
}

// Within a head, within a string, and where the last element of an array is wanted.
#[test]
fn refuses_what_ends_too_early(rt: HostRuntime) -> Verdict {
    for piece in PIECES {
        for bytes in [b"\x19\x03", b"\x64I", b"\x82\x01"] {
            let mut de = reader(rt.alloc(), bytes, piece)?;
            is_refused(next(&mut de), "EOF while parsing a value at offset 2")?;
        }
    }
    Ok(())
}

// A text of 9,000 bytes that is given in pieces, behind another item.
#[test]
fn reads_a_text_that_is_longer_than_a_block(rt: HostRuntime) -> Verdict {
    let alloc = rt.alloc();
    let mut bytes = Vec::from_slice(alloc, b"\x01\x79\x23\x28")?;
    bytes.resize(9004, b'x')?;
    for piece in [1000, 10_000] {
        let mut de = reader(alloc, &bytes, piece)?;
        is_noted(&rt, alloc, &next(&mut de)?, "1")?;
        let text = String::deserialize(&mut de)?;
        assert!(&rt; text.len() == 9000 && text.bytes().all(|b| b == b'x'));
        de.end()?;
    }
    Ok(())
}

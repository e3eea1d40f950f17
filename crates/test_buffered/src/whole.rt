//! Whole inputs by `from_reader`, which reads ahead: how often it asks its reader, and what it
//! leaves.

use crate::devices::Pieces;
use crate::items::{EXAMPLES, PIECES, is_noted};
use cbor_de::from_reader;
use cbor_io::error::Result as Answer;
use cbor_value::Value;
use std::alloc::{AllocError, Global};
use std::io::ErrorKind;
use std::process::Abort;
use std::test::Fail;
use test_checks::{Verdict, is_refused};

// The head of an array or a text, and then so often this byte that there are so many in all.
fn filled(alloc: Global, head: &[u8], length: usize, byte: u8) -> Result<Vec<u8>, AllocError> {
    let mut bytes = Vec::from_slice(alloc, head)?;
    bytes.resize(length, byte)?;
    Ok(bytes)
}

fn list(alloc: Global, reader: &mut Pieces<'_>) -> Answer<Vec<u8>> {
    from_reader(alloc, reader)
}

fn value(alloc: Global, reader: &mut Pieces<'_>) -> Answer<Value> {
    from_reader(alloc, reader)
}

/// An item is read, by so many calls.
fn is_read(
    rt: &impl Abort,
    alloc: Global,
    bytes: &[u8],
    piece: usize,
    want: &str,
) -> Result<usize, Fail> {
    let mut reader = Pieces::new(bytes, piece);
    is_noted(rt, alloc, &value(alloc, &mut reader)?, want)?;
    Ok(reader.calls)
}

#[test]
fn reads_the_examples_of_the_standard(rt: HostRuntime) -> Verdict {
    for piece in PIECES {
        for (bytes, notation) in &EXAMPLES {
            is_read(&rt, rt.alloc(), bytes, piece, notation)?;
        }
    }
    Ok(())
}

// 5,003 bytes by 1,024 or by 7 a call, and a last call, which gives none.
#[test]
fn reads_a_list_by_few_calls(rt: HostRuntime) -> Verdict {
    let bytes = filled(rt.alloc(), b"\x99\x13\x88", 5003, 7)?;
    for (piece, calls) in [(10_000, 6), (7, 716)] {
        let mut reader = Pieces::new(&bytes, piece);
        let numbers = list(rt.alloc(), &mut reader)?;
        assert!(&rt; numbers.len() == 5000 && numbers.iter().all(|n| *n == 7));
        assert!(&rt; reader.calls == calls && reader.rest.is_empty());
    }
    Ok(())
}

// The same of a text, 3,003 bytes.
#[test]
fn reads_a_text_by_few_calls(rt: HostRuntime) -> Verdict {
    let bytes = filled(rt.alloc(), b"\x79\x0b\xb8", 3003, b'x')?;
    for (piece, calls) in [(10_000, 4), (7, 430)] {
        let mut reader = Pieces::new(&bytes, piece);
        let text: String = from_reader(rt.alloc(), &mut reader)?;
        assert!(&rt; text.len() == 3000 && text.bytes().all(|b| b == b'x'));
        assert!(&rt; reader.calls == calls && reader.rest.is_empty());
    }
    Ok(())
}

// One call for the item, and one for the end.
#[test]
fn reads_a_short_item_by_two_calls(rt: HostRuntime) -> Verdict {
    let calls = is_read(&rt, rt.alloc(), b"\x19\x03\xe8", 10_000, "1000")?;
    assert!(&rt; calls == 2);
    Ok(())
}

// A break, and then bytes of which 1,023 are gone.
#[test]
fn leaves_what_is_beyond_the_block(rt: HostRuntime) -> Verdict {
    let alloc = rt.alloc();
    let bytes = filled(alloc, b"\xff", 5000, 0)?;
    let mut reader = Pieces::new(&bytes, 10_000);
    is_refused(value(alloc, &mut reader), "unexpected code at offset 1")?;
    assert!(&rt; reader.calls == 1 && reader.rest.len() == 3976);
    Ok(())
}

// A fault that comes with the second block; what was read before ends within the list.
#[test]
fn tells_a_fault_of_a_later_call(rt: HostRuntime) -> Verdict {
    let alloc = rt.alloc();
    let bytes = filled(alloc, b"\x99\x13\x88", 5003, 7)?;
    let mut reader = Pieces::failing(&bytes, 10_000, 2, ErrorKind::BrokenPipe);
    is_refused(list(alloc, &mut reader), "I/O error")
}

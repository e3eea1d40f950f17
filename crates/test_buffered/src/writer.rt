//! Documents that go to a writer by blocks: what it is given, by how many calls, and what a fault
//! leaves.

use crate::devices::Taker;
use crate::items::{WRITTEN, example};
use crate::sink::{are_numbers, is_fault, numbers};
use cbor_io::error::Result as Answer;
use cbor_value::Value;
use cbor_writer::to_io_writer;
use std::alloc::{AllocError, Global};
use std::io::ErrorKind;
use std::process::Abort;
use std::test::Fail;
use test_checks::{Verdict, is_refused};

/// The writer takes so many bytes a call, and is given these.
fn is_given(rt: &impl Abort, alloc: Global, piece: usize, value: &Value, want: &[u8]) -> Verdict {
    let mut writer = Taker::new(alloc, piece)?;
    to_io_writer(alloc, &mut writer, value)?;
    assert!(rt; writer.taken.as_slice() == want);
    assert!(rt; writer.flushes == 0);
    Ok(())
}

#[test]
fn gives_the_examples_of_the_standard(rt: HostRuntime) -> Verdict {
    let alloc = rt.alloc();
    for (bytes, notation) in &WRITTEN {
        let value = example(&rt, alloc, bytes, notation)?;
        for piece in [1, 700, 20_000] {
            is_given(&rt, alloc, piece, &value, bytes)?;
        }
    }
    Ok(())
}

#[test]
fn goes_on_behind_what_the_writer_has(rt: HostRuntime) -> Verdict {
    let alloc = rt.alloc();
    let mut file: Vec<u8> = Vec::with_capacity(alloc, 8)?;
    to_io_writer(alloc, &mut file, &"IETF")?;
    to_io_writer(alloc, &mut file, &1000u16)?;
    assert!(&rt; file.as_slice() == b"\x64IETF\x19\x03\xe8".as_slice());
    Ok(())
}

fn gives_list(alloc: Global, writer: &mut Taker, list: &Vec<u16>) -> Answer<()> {
    to_io_writer(alloc, writer, list)
}

/// How many calls of a writer that takes so many bytes a call the list takes.
fn gives_numbers(rt: &impl Abort, alloc: Global, piece: usize) -> Result<usize, Fail> {
    let mut writer = Taker::new(alloc, piece)?;
    gives_list(alloc, &mut writer, &numbers(alloc)?)?;
    are_numbers(rt, &writer.taken)?;
    Ok(writer.calls)
}

// 341 pieces of three bytes fit in a block: of 9,003 bytes there are eight such blocks, and a rest.
#[test]
fn gives_a_list_by_blocks(rt: HostRuntime) -> Verdict {
    for (piece, calls) in [(1, 9003), (700, 18), (20_000, 9)] {
        assert!(&rt; gives_numbers(&rt, rt.alloc(), piece)? == calls);
    }
    Ok(())
}

/// A text of so many times `x`.
fn text(alloc: Global, len: usize) -> Result<Value, Fail> {
    let text = String::from_utf8(vec![in alloc; b'x'; len]?);
    match text {
        Ok(text) => Ok(Value::Text(text)),
        Err(_) => Err(Fail::from("no text")),
    }
}

/// `[1, text, null]` with a text of so many bytes, from 256 on (RFC 8949, section 3).
fn is_between(rt: &impl Abort, bytes: &[u8], len: u16) -> Verdict {
    let [high, low] = len.to_be_bytes();
    let end = 5 + len as usize;
    assert!(rt; bytes.get(..5) == Some([0x83, 0x01, 0x79, high, low].as_slice()));
    assert!(rt; bytes.iter().skip(5).take(len as usize).all(|b| *b == b'x'));
    assert!(rt; bytes.get(end..) == Some(b"\xf6".as_slice()));
    Ok(())
}

fn gives_between(rt: &impl Abort, alloc: Global, piece: usize, len: u16) -> Result<usize, Fail> {
    let items = vec![in alloc; Value::Integer(1), text(alloc, len as usize)?, Value::Null]?;
    let mut writer = Taker::new(alloc, piece)?;
    to_io_writer(alloc, &mut writer, &Value::Array(items))?;
    is_between(rt, &writer.taken, len)?;
    Ok(writer.calls)
}

// A text around a block's length, and one of several: what has no room in the block goes behind it,
// and what is as long as a block by itself.
#[test]
fn gives_texts_of_any_length(rt: HostRuntime) -> Verdict {
    for piece in [1, 700, 20_000] {
        for len in [256, 1018, 1019, 1020, 1023, 1024, 1025, 2048, 9000] {
            gives_between(&rt, rt.alloc(), piece, len)?;
        }
    }
    for (len, calls) in [(1018, 1), (1019, 2), (1020, 2), (9000, 3)] {
        assert!(&rt; gives_between(&rt, rt.alloc(), 20_000, len)? == calls);
    }
    Ok(())
}

fn gives_foobar(alloc: Global, writer: &mut Taker) -> Answer<()> {
    to_io_writer(alloc, writer, &"foobar")
}

// The writer takes two bytes a call, and is asked for nothing after the call that fails.
#[test]
fn leaves_a_prefix_at_a_fault(rt: HostRuntime) -> Verdict {
    let kind = ErrorKind::StorageFull;
    for (call, taken) in [
        (1, &b""[..]),
        (2, b"\x66f"),
        (3, b"\x66foo"),
        (4, b"\x66fooba"),
    ] {
        let mut writer = Taker::failing(rt.alloc(), 2, call, kind)?;
        is_fault(&rt, gives_foobar(rt.alloc(), &mut writer), kind)?;
        assert!(&rt; writer.calls == call);
        assert!(&rt; writer.taken.as_slice() == taken);
    }
    Ok(())
}

/// Of the list's bytes so many are given before the fault, and none after it.
fn list_fails_at(rt: &impl Abort, alloc: Global, call: usize, count: usize) -> Verdict {
    let list = numbers(alloc)?;
    let mut whole = Taker::new(alloc, 20_000)?;
    gives_list(alloc, &mut whole, &list)?;
    are_numbers(rt, &whole.taken)?;
    let mut writer = Taker::failing(alloc, 700, call, ErrorKind::BrokenPipe)?;
    let answer = gives_list(alloc, &mut writer, &list);
    is_fault(rt, answer, ErrorKind::BrokenPipe)?;
    assert!(rt; writer.calls == call);
    assert!(rt; Some(writer.taken.as_slice()) == whole.taken.get(..count));
    Ok(())
}

// A block of 1,023 bytes goes by two calls, of 700 bytes and 323; the last, of 819, too.
#[test]
fn sends_nothing_after_a_fault(rt: HostRuntime) -> Verdict {
    for (call, count) in [
        (1, 0),
        (2, 700),
        (3, 1023),
        (16, 7 * 1023 + 700),
        (17, 8 * 1023),
        (18, 8 * 1023 + 700),
    ] {
        list_fails_at(&rt, rt.alloc(), call, count)?;
    }
    Ok(())
}

#[test]
fn tries_again_after_an_interruption(rt: HostRuntime) -> Verdict {
    for call in 1..=4 {
        let mut writer = Taker::failing(rt.alloc(), 2, call, ErrorKind::Interrupted)?;
        gives_foobar(rt.alloc(), &mut writer)?;
        assert!(&rt; writer.taken.as_slice() == b"\x66foobar".as_slice());
        assert!(&rt; writer.calls == 5);
    }
    Ok(())
}

#[test]
fn reports_a_writer_of_nothing(rt: HostRuntime) -> Verdict {
    let mut writer = Taker::new(rt.alloc(), 0)?;
    let answer = gives_foobar(rt.alloc(), &mut writer);
    is_fault(&rt, answer, ErrorKind::WriteZero)
}

const TOO_FAR_OUT: &str = "The number can't be stored in CBOR";

/// So many times null, and a number that isn't stored.
fn too_far_out(alloc: Global, nulls: usize) -> Result<Value, AllocError> {
    let mut items = Vec::with_capacity(alloc, nulls.saturating_add(1))?;
    for _ in 0..nulls {
        items.push(Value::Null)?;
    }
    items.push(Value::Integer(1 << 64))?;
    Ok(Value::Array(items))
}

/// Of what stands before the number, a head and so many times null, so many bytes are given.
fn stops_before(
    rt: &impl Abort,
    alloc: Global,
    nulls: usize,
    head: &[u8],
    count: usize,
) -> Verdict {
    let value = too_far_out(alloc, nulls)?;
    let mut writer = Taker::new(alloc, 20_000)?;
    let answer: Answer<()> = to_io_writer(alloc, &mut writer, &value);
    assert!(rt; writer.taken.len() == count);
    for (i, byte) in writer.taken.iter().enumerate() {
        assert!(rt; *byte == *head.get(i).unwrap_or(&0xf6));
    }
    is_refused(answer, TOO_FAR_OUT)
}

// What the block holds at the refusal isn't sent.
#[test]
fn gives_whole_blocks_before_a_number_that_is_too_far_out(rt: HostRuntime) -> Verdict {
    for (nulls, head, count) in [
        (0, &b"\x81"[..], 0),
        (1000, b"\x99\x03\xe9", 0),
        (2000, b"\x99\x07\xd1", 1024),
        (2100, b"\x99\x08\x35", 2048),
    ] {
        stops_before(&rt, rt.alloc(), nulls, head, count)?;
    }
    Ok(())
}

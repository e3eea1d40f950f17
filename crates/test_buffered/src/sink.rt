//! The sink that holds what is written: what its writer is given, and when.

use crate::devices::Taker;
use crate::items::{WRITTEN, example};
use cbor_io::error::{ErrorCode, Result as Answer};
use cbor_io::write::Write;
use cbor_ser::{Serialize, Serializer};
use cbor_value::Value;
use cbor_writer::BufferedWrite;
use std::alloc::{AllocError, Global};
use std::io::ErrorKind;
use std::process::Abort;
use std::test::Fail;
use test_checks::Verdict;

/// A sink before a writer that takes so many bytes a call.
fn in_pieces(alloc: Global, piece: usize) -> Answer<BufferedWrite<Taker>> {
    BufferedWrite::new(alloc, Taker::new(alloc, piece)?)
}

/// The call reports a fault of the writer, of this kind.
pub fn is_fault(rt: &impl Abort, answer: Answer<()>, kind: ErrorKind) -> Verdict {
    let Err(e) = answer else {
        return Err(Fail::from("no fault"));
    };
    match e.code() {
        ErrorCode::Io(fault) => assert!(rt; fault.kind() == kind),
        _ => return Err(Fail::from(e)),
    }
    Ok(())
}

// ---- what serializers write

/// The writer, once all that was written is sent.
fn sends(rt: &impl Abort, sink: BufferedWrite<Taker>) -> Result<Taker, Fail> {
    let mut sink = sink;
    sink.flush()?;
    let (writer, unsent) = sink.into_inner();
    assert!(rt; unsent.is_empty() && writer.flushes == 1);
    Ok(writer)
}

fn is_written(rt: &impl Abort, alloc: Global, piece: usize, value: &Value, want: &[u8]) -> Verdict {
    let mut ser = Serializer::new(alloc, in_pieces(alloc, piece)?);
    value.serialize(&mut ser)?;
    let writer = sends(rt, ser.into_inner())?;
    assert!(rt; writer.taken.as_slice() == want);
    Ok(())
}

#[test]
fn writes_the_examples_of_the_standard(rt: HostRuntime) -> Verdict {
    let alloc = rt.alloc();
    for (bytes, notation) in &WRITTEN {
        let value = example(&rt, alloc, bytes, notation)?;
        for piece in [1, 4099, 20_000] {
            is_written(&rt, alloc, piece, &value, bytes)?;
        }
    }
    Ok(())
}

/// The numbers from 256 to 3255.
pub fn numbers(alloc: Global) -> Result<Vec<u16>, AllocError> {
    let mut list = Vec::with_capacity(alloc, 3000)?;
    for i in 0..3000_u16 {
        list.push(256 + i)?;
    }
    Ok(list)
}

/// Their array: a head of three bytes, and three for each of them (RFC 8949, section 3).
pub fn are_numbers(rt: &impl Abort, bytes: &[u8]) -> Verdict {
    assert!(rt; bytes.len() == 9003);
    assert!(rt; bytes.get(..3) == Some(b"\x99\x0b\xb8".as_slice()));
    for i in 0..3000_u16 {
        let [high, low] = (256 + i).to_be_bytes();
        let start = 3 + 3 * i as usize;
        assert!(rt; bytes.get(start..start + 3) == Some([0x19, high, low].as_slice()));
    }
    Ok(())
}

// How many calls of the writer the list takes.
fn writes_numbers(rt: &impl Abort, alloc: Global, piece: usize) -> Result<usize, Fail> {
    let mut ser = Serializer::new(alloc, in_pieces(alloc, piece)?);
    numbers(alloc)?.serialize(&mut ser)?;
    let writer = sends(rt, ser.into_inner())?;
    are_numbers(rt, &writer.taken)?;
    Ok(writer.calls)
}

// 2,730 pieces of three bytes fit in the block: 8,190 bytes are sent, and then 813.
#[test]
fn writes_a_list_that_is_longer_than_a_block(rt: HostRuntime) -> Verdict {
    for (piece, calls) in [(1, 9003), (4099, 3), (20_000, 2)] {
        assert!(&rt; writes_numbers(&rt, rt.alloc(), piece)? == calls);
    }
    Ok(())
}

// ---- scripts

/// A call of the sink, which is done or reports a fault of the writer of this kind.
#[derive(Clone, Copy)]
enum Step<'a> {
    Write(&'a [u8]),
    Flush,
    WriteFails(&'a [u8], ErrorKind),
    FlushFails(ErrorKind),
}

fn plays(rt: &impl Abort, sink: &mut BufferedWrite<Taker>, script: &[Step]) -> Verdict {
    for step in script {
        match *step {
            Step::Write(bytes) => sink.write_all(bytes)?,
            Step::Flush => sink.flush()?,
            Step::WriteFails(bytes, kind) => is_fault(rt, sink.write_all(bytes), kind)?,
            Step::FlushFails(kind) => is_fault(rt, sink.flush(), kind)?,
        }
    }
    Ok(())
}

/// After a script the writer, which is returned, has these bytes, and those are held.
fn leaves(
    rt: &impl Abort,
    alloc: Global,
    writer: Taker,
    script: &[Step],
    (taken, held): (&[u8], &[u8]),
) -> Result<Taker, Fail> {
    let mut sink = BufferedWrite::new(alloc, writer)?;
    plays(rt, &mut sink, script)?;
    let (writer, unsent) = sink.into_inner();
    assert!(rt; writer.taken.as_slice() == taken);
    assert!(rt; unsent.as_slice() == held);
    Ok(writer)
}

/// Heads, 9,000 times `x`, and a byte.
fn long(alloc: Global) -> Result<Vec<u8>, AllocError> {
    let mut bytes = Vec::from_slice(alloc, b"\x82\x01\x79\x23\x28")?;
    bytes.resize(9005, b'x')?;
    bytes.push(0xf6)?;
    Ok(bytes)
}

// The text goes straight to the writer, behind what is held.
#[test]
fn writes_a_piece_that_is_longer_than_a_block(rt: HostRuntime) -> Verdict {
    let alloc = rt.alloc();
    let text = vec![in alloc; b'x'; 9000]?;
    let script = [
        Step::Write(b"\x82"),
        Step::Write(b"\x01\x79\x23\x28"),
        Step::Write(&text),
        Step::Write(b""),
        Step::Write(b"\xf6"),
        Step::Flush,
    ];
    let want = long(alloc)?;
    for (piece, calls) in [(1, 9006), (4099, 5), (20_000, 3)] {
        let writer = Taker::new(alloc, piece)?;
        let writer = leaves(&rt, alloc, writer, &script, (&want, b""))?;
        assert!(&rt; writer.calls == calls);
    }
    Ok(())
}

#[test]
fn holds_what_is_written_until_it_is_flushed(rt: HostRuntime) -> Verdict {
    let alloc = rt.alloc();
    let unflushed = [Step::Write(b"ab"), Step::Write(b"c")];
    leaves(
        &rt,
        alloc,
        Taker::new(alloc, 10)?,
        &unflushed,
        (b"", b"abc"),
    )?;
    let flushed = [Step::Write(b"abc"), Step::Flush, Step::Write(b"d")];
    leaves(&rt, alloc, Taker::new(alloc, 10)?, &flushed, (b"abc", b"d"))?;
    Ok(())
}

/// The same of a writer that takes two bytes a call, and fails at its call of this number.
fn leaves_at_fault(
    rt: &impl Abort,
    alloc: Global,
    (fails_at, kind): (usize, ErrorKind),
    script: &[Step],
    left: (&[u8], &[u8]),
) -> Result<Taker, Fail> {
    let writer = Taker::failing(alloc, 2, fails_at, kind)?;
    leaves(rt, alloc, writer, script, left)
}

#[test]
fn keeps_what_a_fault_leaves_unsent(rt: HostRuntime) -> Verdict {
    let kind = ErrorKind::BrokenPipe;
    let script = [
        Step::Write(b"abcdef"),
        Step::FlushFails(kind),
        Step::Write(b"g"),
        Step::Flush,
    ];
    let fault = (2, kind);
    leaves_at_fault(&rt, rt.alloc(), fault, &script[..2], (b"ab", b"cdef"))?;
    leaves_at_fault(&rt, rt.alloc(), fault, &script, (b"abcdefg", b""))?;
    Ok(())
}

// The fault comes while the block is sent, of which two bytes were, and so none of the piece is
// written; or within the piece, of which four bytes were.
#[test]
fn reports_a_fault_at_a_piece_of_a_block(rt: HostRuntime) -> Verdict {
    let alloc = rt.alloc();
    let kind = ErrorKind::StorageFull;
    let piece = vec![in alloc; b'x'; 8192]?;
    let script = [
        Step::Write(b"abc"),
        Step::WriteFails(&piece, kind),
        Step::Write(b"d"),
        Step::Flush,
    ];
    leaves_at_fault(&rt, alloc, (2, kind), &script[..2], (b"ab", b"c"))?;
    leaves_at_fault(&rt, alloc, (5, kind), &script, (b"abcxxxxd", b""))?;
    Ok(())
}

#[test]
fn tries_an_interrupted_write_again(rt: HostRuntime) -> Verdict {
    let script = [Step::Write(b"abcde"), Step::Flush];
    let fault = (2, ErrorKind::Interrupted);
    let writer = leaves_at_fault(&rt, rt.alloc(), fault, &script, (b"abcde", b""))?;
    assert!(&rt; writer.calls == 4);
    Ok(())
}

#[test]
fn tries_an_interrupted_write_again_however_often(rt: HostRuntime) -> Verdict {
    let alloc = rt.alloc();
    let script = [Step::Write(b"abcde"), Step::Flush];
    for times in [2, 1000, 100_000] {
        let writer = Taker::interrupted(alloc, times)?;
        leaves(&rt, alloc, writer, &script, (b"abcde", b""))?;
    }
    Ok(())
}

#[test]
fn reports_a_writer_that_takes_nothing(rt: HostRuntime) -> Verdict {
    let alloc = rt.alloc();
    let script = [
        Step::Flush,
        Step::Write(b"a"),
        Step::FlushFails(ErrorKind::WriteZero),
    ];
    leaves(&rt, alloc, Taker::new(alloc, 0)?, &script, (b"", b"a"))?;
    Ok(())
}

#[test]
fn prints_how_much_is_held(rt: HostRuntime) -> Verdict {
    let mut sink = in_pieces(rt.alloc(), 2)?;
    sink.write_all(b"ab")?;
    let text = format!(in rt.alloc(); "{sink:?}")?;
    assert!(&rt; text.as_str() == "BufferedWrite { held: 2, .. }");
    Ok(())
}

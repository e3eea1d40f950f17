//! Which fault of a reader or a writer is reported, and what is tried again.

use cbor_de::{IgnoredAny, from_reader};
use cbor_io::error::{ErrorCode, Result as Answer};
use cbor_ser::{IoWrite, to_writer};
use cbor_value::Value;
use std::alloc::Global;
use std::io;
use std::io::ErrorKind;
use std::process::Abort;
use std::test::Fail;
use test_checks::Verdict;

const KINDS: [ErrorKind; 6] = [
    ErrorKind::BrokenPipe,
    ErrorKind::WouldBlock,
    ErrorKind::TimedOut,
    ErrorKind::UnexpectedEof,
    ErrorKind::OutOfMemory,
    ErrorKind::Other,
];

/// The call was refused for a fault of this kind.
fn is_fault<T: Drop>(rt: &impl Abort, answer: Answer<T>, kind: ErrorKind) -> Verdict {
    let Err(e) = answer else {
        return Err(Fail::from("no fault"));
    };
    match e.code() {
        ErrorCode::Io(fault) => assert!(rt; fault.kind() == kind),
        ErrorCode::OutOfMemory => return Err(Fail::from(e)),
        _ => return Err(Fail::from("another refusal")),
    }
    assert!(rt; e.offset() == 0);
    Ok(())
}

/// A reader that reports a fault after its bytes.
#[derive(Drop)]
struct FailingReader<'a> {
    rest: &'a [u8],
    kind: ErrorKind,
}

impl io::Read for FailingReader<'_> {
    fn read(&mut self, buf: &mut [u8]) -> io::Result<usize> {
        if self.rest.is_empty() {
            return Err(io::Error::from(self.kind));
        }
        let count = buf.len().min(self.rest.len());
        buf[..count].copy_from_slice(&self.rest[..count]);
        self.rest = &self.rest[count..];
        Ok(count)
    }
}

/// A value is wanted, and the fault after these bytes is reported.
fn value_fails(rt: &impl Abort, alloc: Global, rest: &[u8], kind: ErrorKind) -> Verdict {
    let answer = from_reader::<Value, _>(alloc, FailingReader { rest, kind });
    is_fault(rt, answer, kind)
}

// At the first byte, within a head, a text, an array and chunks, and where nothing more is wanted.
#[test]
fn reports_the_kind_of_a_readers_fault(rt: HostRuntime) -> Verdict {
    for kind in KINDS {
        for rest in [
            b"".as_slice(),
            b"\x19\x01",
            b"\x63fo",
            b"\x82\x01",
            b"\x7f\x61a",
            b"\x00",
        ] {
            value_fails(&rt, rt.alloc(), rest, kind)?;
        }
    }
    Ok(())
}

// In what is passed over, in a text that is lent, and in chunks that are joined.
#[test]
fn reports_the_kind_of_a_fault_in_what_is_not_kept(rt: HostRuntime) -> Verdict {
    let alloc = rt.alloc();
    for kind in KINDS {
        for rest in [b"\x43fo".as_slice(), b"\x63fo", b"\x7f\x61a\x62b", b"\xa1"] {
            let reader = FailingReader { rest, kind };
            is_fault(&rt, from_reader::<IgnoredAny, _>(alloc, reader), kind)?;
            let reader = FailingReader { rest, kind };
            is_fault(&rt, from_reader::<char, _>(alloc, reader), kind)?;
        }
    }
    Ok(())
}

// A reader's interruption is reported, and not tried again.
#[test]
fn reports_an_interruption_of_a_reader(rt: HostRuntime) -> Verdict {
    value_fails(&rt, rt.alloc(), b"\x82\x01", ErrorKind::Interrupted)
}

/// A writer that is interrupted so many times before each write, and fails once it has taken so
/// many bytes. It has its memory from the beginning.
#[derive(Drop)]
struct Interrupted {
    taken: Vec<u8>,
    most: usize,
    times: usize,
    left: usize,
    kind: ErrorKind,
}

impl Interrupted {
    fn new(alloc: Global, times: usize, most: usize, kind: ErrorKind) -> Result<Interrupted, Fail> {
        Ok(Interrupted {
            taken: Vec::with_capacity(alloc, 64)?,
            most,
            times,
            left: times,
            kind,
        })
    }
}

impl io::Write for Interrupted {
    fn write(&mut self, buf: &[u8]) -> io::Result<usize> {
        if self.left > 0 {
            self.left -= 1;
            return Err(io::Error::from(ErrorKind::Interrupted));
        }
        self.left = self.times;
        if self.taken.len() >= self.most {
            return Err(io::Error::from(self.kind));
        }
        let count = buf.len().min(1);
        io::Write::write(&mut self.taken, &buf[..count])
    }

    fn flush(&mut self) -> io::Result<()> {
        Ok(())
    }
}

fn text(alloc: Global) -> Result<Value, Fail> {
    Ok(Value::Text("foobar".to_owned(alloc)?))
}

fn writes(alloc: Global, writer: &mut Interrupted, value: &Value) -> Answer<()> {
    to_writer(alloc, &mut IoWrite::new(writer), value)
}

#[test]
fn reports_the_kind_of_a_writers_fault(rt: HostRuntime) -> Verdict {
    let alloc = rt.alloc();
    let value = text(alloc)?;
    for kind in KINDS {
        for most in [0, 1, 6] {
            let mut writer = Interrupted::new(alloc, 1, most, kind)?;
            is_fault(&rt, writes(alloc, &mut writer, &value), kind)?;
        }
    }
    Ok(())
}

#[test]
fn tries_an_interrupted_write_again_however_often(rt: HostRuntime) -> Verdict {
    let alloc = rt.alloc();
    let value = text(alloc)?;
    for times in [1, 2, 1000, 100_000] {
        let mut writer = Interrupted::new(alloc, times, 7, ErrorKind::Other)?;
        writes(alloc, &mut writer, &value)?;
        assert!(&rt; writer.taken.as_slice() == b"\x66foobar".as_slice());
    }
    Ok(())
}

//! Logs that are cut off or broken, and devices that fail.

use crate::log::{OpenError, Opened, open};
use crate::store::{Put, Store};
use serde_cbor::error::{Error, ErrorCode};
use serde_cbor::write::IoWrite;
use std::alloc::Global;
use std::io;
use std::io::ErrorKind;
use std::process::Abort;
use std::test::Fail;

type Verdict = Result<(), Fail>;

/// A log of three records: an extension of an attestation (Firefox), a sum (Dhall's tests), and a
/// text within an array (a suite of JSON).
const LOG: &[u8] = b"\xa1\x6bhmac-secret\xf5\x84\x03\x04\x00\x01\x81\x69\xe2\x8d\x82\xe3\x88\xb4\
\xe2\x8d\x82";

/// Each record, and where it ends.
const RECORDS: [(&[u8], usize); 3] = [
    (b"\xa1\x6bhmac-secret\xf5", 14),
    (b"\x84\x03\x04\x00\x01", 19),
    (b"\x81\x69\xe2\x8d\x82\xe3\x88\xb4\xe2\x8d\x82", 30),
];

/// What was opened; or that memory ran out.
fn opened(answer: Result<Opened, OpenError>) -> Result<Opened, Fail> {
    match answer {
        Ok(opened) => Ok(opened),
        Err(OpenError::Broken { error, .. }) => Err(Fail::from(error)),
        Err(OpenError::Collision { .. }) => Err(Fail::from("a collision")),
    }
}

/// Where a log is broken, and why; or that memory ran out.
fn broken(answer: Result<Opened, OpenError>) -> Result<(usize, Error), Fail> {
    match answer {
        Err(OpenError::Broken { at, error }) => {
            if error.is_memory() {
                return Err(Fail::from(error));
            }
            Ok((at, error))
        }
        _ => Err(Fail::from("not refused")),
    }
}

/// The log, cut off there, opens with the records that end no later.
fn opens_whole_records(rt: &impl Abort, alloc: Global, cut: usize) -> Verdict {
    let Opened { store, whole } = opened(open(alloc, io::Read::take(LOG, cut as u64)))?;
    let mut expected = 0;
    for (record, end) in RECORDS {
        assert!(rt; store.get(alloc, record)?.is_some() == (end <= cut));
        if end <= cut {
            expected = end;
        }
    }
    assert!(rt; whole == expected);
    Ok(())
}

#[test]
fn opens_a_log_that_is_cut_off_anywhere(rt: HostRuntime) -> Verdict {
    for cut in 0..=LOG.len() {
        opens_whole_records(&rt, rt.alloc(), cut)?;
    }
    Ok(())
}

// 1c begins no item (RFC 8949, section 3), and a text of ff isn't UTF-8.
#[test]
fn refuses_a_log_with_a_broken_record(rt: HostRuntime) -> Verdict {
    for log in [b"\xf6\x1c\xf6".as_slice(), b"\xf6\x61\xff\xf6"] {
        let (at, error) = broken(open(rt.alloc(), log))?;
        assert!(rt; at == 1);
        assert!(rt; error.is_syntax());
    }
    Ok(())
}

/// A device that gives its bytes, or takes as many, and then fails.
#[derive(Drop)]
struct Failing<'a> {
    rest: &'a [u8],
}

impl io::Read for Failing<'_> {
    fn read(&mut self, buf: &mut [u8]) -> io::Result<usize> {
        if self.rest.is_empty() {
            return Err(io::Error::from(ErrorKind::BrokenPipe));
        }
        let count = buf.len().min(self.rest.len());
        buf[..count].copy_from_slice(&self.rest[..count]);
        self.rest = &self.rest[count..];
        Ok(count)
    }
}

impl io::Write for Failing<'_> {
    fn write(&mut self, buf: &[u8]) -> io::Result<usize> {
        if self.rest.is_empty() {
            return Err(io::Error::from(ErrorKind::BrokenPipe));
        }
        let count = buf.len().min(self.rest.len());
        self.rest = &self.rest[count..];
        Ok(count)
    }

    fn flush(&mut self) -> io::Result<()> {
        Ok(())
    }
}

// No record is taken for cut off where the reader fails.
#[test]
fn reports_a_readers_fault(rt: HostRuntime) -> Verdict {
    for (given, whole) in [(0, 0), (13, 0), (14, 14), (25, 19), (30, 30)] {
        let (at, error) = broken(open(
            rt.alloc(),
            Failing {
                rest: &LOG[..given],
            },
        ))?;
        assert!(rt; at == whole);
        assert!(rt; matches!(error.code(), ErrorCode::Io(_)));
    }
    Ok(())
}

// What isn't written isn't held.
#[test]
fn holds_nothing_that_was_not_written(rt: HostRuntime) -> Verdict {
    let alloc = rt.alloc();
    let mut store = Store::new(alloc);
    let mut log = IoWrite::new(Failing { rest: b"\x84\x03" });
    assert!(rt;
        store
            .append(alloc, &mut log, b"\x84\x03\x04\x00\x01")
            .is_err()
    );
    assert!(rt; store.get(alloc, b"\x84\x03\x04\x00\x01")?.is_none());
    Ok(())
}

// A value is written once, in its canonical encoding: {"a": 1, "b": 2} (RFC 8949, appendix A).
#[test]
fn appends_each_value_once(rt: HostRuntime) -> Verdict {
    let alloc = rt.alloc();
    let mut store = Store::new(alloc);
    let mut log = Vec::new(alloc);
    for bytes in [
        b"\xbf\x61b\x02\x61a\x01\xff".as_slice(),
        b"\xa2\x61a\x01\x61b\x02",
    ] {
        assert!(rt; store.append(alloc, &mut log, bytes)? == Put::Stored);
    }
    assert!(rt; store.append(alloc, &mut log, b"\xf9\x3c\x00")? == Put::Stored);
    assert!(rt; log.as_slice() == b"\xa2\x61a\x01\x61b\x02\xf9\x3c\x00".as_slice());
    Ok(())
}

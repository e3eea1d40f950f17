use crate::checks::{has_written, refuses, takes};
use crate::devices::{FailingWriter, FullWriter};
use cbor_io::write::{IoWrite, SliceWrite, Write};
use std::alloc::Global;
use std::io::ErrorKind;
use std::process::Abort;
use std::test::Fail;
use test_checks::Verdict;

#[test]
fn fills_a_slice(rt: HostRuntime) -> Verdict {
    let mut room = [7; 7];
    let mut sink = SliceWrite::new(&mut room);
    has_written(&rt, &sink, 0);
    takes(&mut sink, b"\x66")?;
    takes(&mut sink, b"")?;
    has_written(&rt, &sink, 1);
    takes(&mut sink, b"foobar")?;
    has_written(&rt, &sink, 7);
    takes(&mut sink, b"")?;
    assert_eq!(rt; &*sink.into_inner(), b"\x66foobar".as_slice());
    Ok(())
}

// A text of 6 bytes into a slice of 3: its head fits.
#[test]
fn refuses_a_piece_that_does_not_fit(rt: HostRuntime) -> Verdict {
    let mut room = [7; 3];
    let mut sink = SliceWrite::new(&mut room);
    takes(&mut sink, b"\x66")?;
    refuses(
        &rt,
        &mut sink,
        b"foobar",
        "Scratch buffer too small at offset 1",
    );
    has_written(&rt, &sink, 1);
    assert_eq!(rt; &*sink.into_inner(), b"\x66\x07\x07".as_slice());
    Ok(())
}

#[test]
fn goes_on_after_a_piece_that_did_not_fit(rt: HostRuntime) -> Verdict {
    let mut room = [7; 3];
    let mut sink = SliceWrite::new(&mut room);
    refuses(&rt, &mut sink, b"four", "Scratch buffer too small");
    takes(&mut sink, b"ab")?;
    refuses(
        &rt,
        &mut sink,
        b"cd",
        "Scratch buffer too small at offset 2",
    );
    takes(&mut sink, b"c")?;
    has_written(&rt, &sink, 3);
    assert_eq!(rt; &*sink.into_inner(), b"abc".as_slice());
    Ok(())
}

#[test]
fn refuses_any_byte_where_there_is_no_room(rt: HostRuntime) {
    let mut room: [u8; 0] = [];
    let mut sink = SliceWrite::new(&mut room);
    refuses(&rt, &mut sink, b"\xf6", "Scratch buffer too small");
    has_written(&rt, &sink, 0);
}

#[test]
fn appends_to_a_vector(rt: HostRuntime) -> Verdict {
    let mut bytes: Vec<u8> = vec![in rt.alloc(); 0x82]?;
    {
        let mut sink = &mut bytes;
        takes(&mut sink, b"\x01")?;
    }
    takes(&mut bytes, b"\x02")?;
    assert_eq!(rt; bytes.as_slice(), b"\x82\x01\x02".as_slice());
    Ok(())
}

// Where an allocation fails, it has what it had before the piece.
#[test]
fn keeps_what_a_vector_has_that_cannot_grow(rt: HostRuntime) -> Verdict {
    let whole = b"foobarfoobarfoobarfoobarfoobar";
    let mut sink: Vec<u8> = Vec::new(rt.alloc());
    for n in 0..5usize {
        grows_or_stays(&rt, &mut sink, &whole[..6 * n])?;
    }
    assert!(rt; sink.as_slice() == whole.as_slice());
    Ok(())
}

/// The vector, which has these bytes, takes a piece, or has them still.
fn grows_or_stays(rt: &impl Abort, sink: &mut Vec<u8>, before: &[u8]) -> Verdict {
    let Err(e) = sink.write_all(b"foobar") else {
        return Ok(());
    };
    assert!(rt; e.is_memory());
    assert!(rt; sink.as_slice() == before);
    Err(Fail::from(e))
}

#[test]
fn writes_to_a_writer(rt: HostRuntime) -> Verdict {
    let mut writer = FailingWriter::new(rt.alloc(), 4, ErrorKind::BrokenPipe)?;
    {
        let mut sink = IoWrite::new(&mut writer);
        takes(&mut sink, b"\x66")?;
        takes(&mut sink, b"foobar")?;
    }
    assert_eq!(rt; writer.taken.as_slice(), b"\x66foobar".as_slice());
    Ok(())
}

#[test]
fn reports_a_writers_fault(rt: HostRuntime) -> Verdict {
    for left in 0..3usize {
        fails_after(&rt, rt.alloc(), left)?;
    }
    Ok(())
}

/// A writer that fails after so many writes has taken what they gave.
fn fails_after(rt: &impl Abort, alloc: Global, left: usize) -> Verdict {
    let mut writer = FailingWriter::new(alloc, left, ErrorKind::BrokenPipe)?;
    refuses(rt, &mut IoWrite::new(&mut writer), b"foobar", "I/O error");
    assert_eq!(rt; writer.taken.len().checked_sub(left), Some(left));
    Ok(())
}

// What was interrupted is tried again, and no other fault is, however it is named: a second call at
// the failing write, and no third.
#[test]
fn tries_no_other_fault_again(rt: HostRuntime) -> Verdict {
    let alloc = rt.alloc();
    fails_at_once(&rt, alloc, ErrorKind::BrokenPipe)?;
    fails_at_once(&rt, alloc, ErrorKind::WouldBlock)?;
    fails_at_once(&rt, alloc, ErrorKind::TimedOut)?;
    fails_at_once(&rt, alloc, ErrorKind::WriteZero)?;
    fails_at_once(&rt, alloc, ErrorKind::Other)
}

fn fails_at_once(rt: &impl Abort, alloc: Global, kind: ErrorKind) -> Verdict {
    let mut writer = FailingWriter::new(alloc, 0, kind)?;
    refuses(rt, &mut IoWrite::new(&mut writer), b"foobar", "I/O error");
    assert_eq!(rt; writer.calls, 2);
    assert_eq!(rt; writer.taken.len(), 0);
    Ok(())
}

#[test]
fn reports_a_writer_that_takes_nothing(rt: HostRuntime) -> Verdict {
    let mut sink = IoWrite::new(FullWriter);
    refuses(&rt, &mut sink, b"\xf6", "I/O error");
    takes(&mut sink, b"")
}

//! What one row of a test asks. These promise nothing, so that a test of many rows carries no facts
//! from one to the next.

use cbor_io::error;
use cbor_ser::{Serialize, SliceWrite, to_vec, to_writer};
use cbor_value::Value;
use std::alloc::{AllocError, Global};
use std::io;
use std::io::ErrorKind;
use std::process::Abort;
use test_checks::{Verdict, is_refused};

pub fn text(alloc: Global, text: &str) -> Result<Value, AllocError> {
    Ok(Value::Text(text.to_owned(alloc)?))
}

pub fn tag(alloc: Global, tag: u64, value: Value) -> Result<Value, AllocError> {
    match Box::new(alloc, value) {
        Ok(inner) => Ok(Value::Tag(tag, inner)),
        Err(_) => Err(AllocError),
    }
}

/// The value is encoded so.
pub fn writes<T: Serialize>(rt: &impl Abort, alloc: Global, value: &T, want: &[u8]) -> Verdict {
    assert!(rt; to_vec(alloc, value)?.as_slice() == want);
    Ok(())
}

const TOO_FAR_OUT: &str = "The number can't be stored in CBOR";

/// The call was refused for a number that is too far out.
pub fn is_too_far_out<T: Drop>(rt: &impl Abort, answer: error::Result<T>) -> Verdict {
    is_refused(answer, TOO_FAR_OUT)
}

/// The value has a number that is too far out.
pub fn is_not_written(rt: &impl Abort, alloc: Global, value: &Value) -> Verdict {
    let answer = to_vec(alloc, value);
    if let Err(e) = &answer {
        assert!(rt; e.is_memory() || e.is_data());
    }
    is_too_far_out(rt, answer)
}

/// The value has a number that is too far out, and this is written before it.
pub fn is_written_up_to(rt: &impl Abort, alloc: Global, value: &Value, before: &[u8]) -> Verdict {
    let mut room = [0; 16];
    let mut sink = SliceWrite::new(&mut room);
    let done = to_writer(alloc, &mut sink, value);
    let count = sink.bytes_written();
    assert!(rt; count <= 16);
    assert!(rt; &room[..count] == before);
    is_too_far_out(rt, done)
}

/// A writer that takes all it is given, and fails at the call after so many.
#[derive(Drop)]
pub struct FailingWriter {
    pub taken: Vec<u8>,
    pub left: usize,
}

impl FailingWriter {
    /// It has its memory from the beginning, so that no write of up to 64 bytes fails for want of
    /// it.
    pub fn new(alloc: Global, left: usize) -> Result<FailingWriter, AllocError> {
        Ok(FailingWriter {
            taken: Vec::with_capacity(alloc, 64)?,
            left,
        })
    }
}

impl io::Write for FailingWriter {
    fn write(&mut self, buf: &[u8]) -> io::Result<usize> {
        if self.left == 0 {
            return Err(io::Error::from(ErrorKind::BrokenPipe));
        }
        self.left -= 1;
        io::Write::write(&mut self.taken, buf)
    }

    fn flush(&mut self) -> io::Result<()> {
        Ok(())
    }
}

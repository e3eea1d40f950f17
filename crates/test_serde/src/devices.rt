// A reader that fails.

use cbor_serde::{ErrorCode, Result as Answer, from_reader};
use std::io;
use std::process::Abort;
use std::test::Fail;
use test_checks::Verdict;

// It gives one byte, and then fails.
#[derive(Drop)]
pub struct Failing {
    pub given: bool,
}

impl io::Read for Failing {
    fn read(&mut self, buf: &mut [u8]) -> io::Result<usize> {
        if self.given || buf.is_empty() {
            return Err(io::Error::from(io::ErrorKind::TimedOut));
        }
        self.given = true;
        buf[0] = 0x18;
        Ok(1)
    }
}

// The call was refused for the reader's fault, of its kind.
pub fn is_its_fault<T: Drop>(rt: &impl Abort, answer: Answer<T>) -> Verdict {
    let Err(e) = answer else {
        return Err(Fail::from("no fault"));
    };
    match e.code() {
        ErrorCode::Io(fault) => assert!(rt; fault.kind() == io::ErrorKind::TimedOut),
        _ => return Err(Fail::from(e)),
    }
    assert!(rt; e.offset() == 0);
    Ok(())
}

#[test]
fn passes_on_a_fault(rt: HostRuntime) -> Verdict {
    is_its_fault(
        &rt,
        from_reader::<Failing, u8>(rt.alloc(), Failing { given: false }),
    )
}

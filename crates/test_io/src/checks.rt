//! What a row of a test asks of an error or a sink. These promise nothing, so that a test of many
//! rows carries no facts from one to the next.

use cbor_io::write::{SliceWrite, Write};
use std::fmt::{Display, InlineText};
use std::process::Abort;
use test_checks::Verdict;

/// It prints these words, for which no memory is taken.
pub fn prints<D: Display + Drop>(rt: &impl Abort, reported: D, want: &str) {
    assert!(rt; InlineText::<96>::of(reported).as_str() == want);
}

// ---- sinks

/// The piece is written.
pub fn takes<W: Write>(sink: &mut W, piece: &[u8]) -> Verdict {
    sink.write_all(piece)?;
    Ok(())
}

/// The piece isn't written, or only a prefix of it.
pub fn refuses<W: Write>(rt: &impl Abort, sink: &mut W, piece: &[u8], words: &str) {
    let Err(e) = sink.write_all(piece) else {
        panic!(rt; "not refused");
    };
    prints(rt, e, words);
}

/// So many bytes were written.
pub fn has_written(rt: &impl Abort, sink: &SliceWrite<'_>, want: usize) {
    assert!(rt; sink.bytes_written() == want);
}

//! What the crates of tests ask of an answer. These promise nothing, so that a test of many calls
//! carries no facts from one to the next.
#![tactic(auto)]

use cbor_io::error::Result as Answer;
use std::fmt::InlineText;
use std::test::Fail;

/// A test's end, or why it stopped.
pub type Verdict = Result<(), Fail>;

/// The call was refused, with these words, for which no memory is taken.
pub fn is_refused<T: Drop>(answer: Answer<T>, words: &str) -> Verdict {
    let Err(e) = answer else {
        return Err(Fail::from("not refused"));
    };
    if e.is_memory() {
        return Err(Fail::from(e));
    }
    if InlineText::<96>::of(&e).as_str() != words {
        return Err(Fail::from(e));
    }
    Ok(())
}

//! A script of calls of the source, each with what it answers. Its functions promise nothing, so
//! that no call carries facts to the next.

use crate::checks::{is_behind, is_fault, is_filled, is_next, is_read, refused};
use cbor_read::{Offset, Read, ReadError, Source};
use std::alloc::Global;
use std::io::ErrorKind;
use std::process::Abort;
use std::test::Fail;
use test_checks::Verdict;

/// A call of the source, with how many bytes it asks for.
#[derive(Clone, Copy)]
pub enum Call {
    Next,
    Peek,
    Read(usize),
    Skip(usize),
    SkipText(usize),
    Join(usize),
    ReadToVec(usize),
    /// Into a place of four bytes.
    ReadInto,
    Gather(usize),
}

/// A call of the source, and what it answers.
#[derive(Clone, Copy)]
pub enum Step<'a> {
    /// The next byte is this one, peeked at and taken; or there is none.
    Next(Option<u8>),
    /// The next bytes are lent.
    Read(&'a [u8]),
    /// The next bytes are taken into a place.
    Filled(&'a [u8]),
    /// The next bytes are taken behind what a vector has.
    Behind(&'a [u8]),
    /// So many bytes are passed over, of which so many are UTF-8.
    SkipText(usize, usize),
    /// The call is made.
    Does(Call),
    /// The call is refused with these words.
    Refuses(Call, &'a str),
    /// The call reports a fault of the reader, of this kind.
    Fails(Call, ErrorKind),
    /// The buffer is cleared.
    Clear,
    /// The buffer has these bytes.
    Buffer(&'a [u8]),
    /// These bytes are at hand.
    Ahead(&'a [u8]),
    /// Fewer than so many bytes are at hand, or not.
    Lacks(usize, bool),
    /// So many of them are passed over.
    Advance(usize),
    /// So many bytes were handed out.
    At(u64),
}

/// Makes the calls of a script, each of which answers as the script says.
pub fn plays<'de, R: Read<'de> + Offset>(
    rt: &impl Abort,
    alloc: Global,
    source: &mut R,
    script: &[Step],
) -> Verdict {
    for step in script {
        match *step {
            Step::Next(want) => is_next(rt, source, want)?,
            Step::Read(want) => is_read(rt, source, want)?,
            Step::Filled(want) => is_filled(rt, source, want)?,
            Step::Behind(want) => is_behind(rt, alloc, source, want)?,
            Step::SkipText(count, valid) => assert!(rt; source.skip_text(count)? == valid),
            Step::Does(call) => done(alloc, source, call)?,
            Step::Refuses(call, words) => refused(done(alloc, source, call), words)?,
            Step::Fails(call, kind) => is_fault(rt, done(alloc, source, call), kind)?,
            _ => is_at_hand(rt, source, step)?,
        }
    }
    Ok(())
}

fn done<'de, R: Read<'de>>(alloc: Global, source: &mut R, call: Call) -> Result<(), ReadError> {
    match call {
        Call::Next => {
            source.next()?;
        }
        Call::Peek => {
            source.peek()?;
        }
        Call::Read(count) => {
            source.read(count)?;
        }
        Call::Skip(count) => source.skip(count)?,
        Call::SkipText(count) => {
            source.skip_text(count)?;
        }
        Call::Join(count) => source.read_to_buffer(count)?,
        Call::ReadToVec(count) => source.read_to_vec(count, &mut Vec::new(alloc))?,
        Call::ReadInto => source.read_into(&mut [0; 4])?,
        Call::Gather(count) => source.gather(count),
    }
    Ok(())
}

// What a call shows that takes no byte from the reader.
fn is_at_hand<S: Source + Offset>(rt: &impl Abort, source: &mut S, step: &Step) -> Verdict {
    match *step {
        Step::Clear => source.clear_buffer(),
        Step::Buffer(want) => assert!(rt; source.buffer() == want),
        Step::Ahead(want) => assert!(rt; source.ahead() == want),
        Step::Lacks(count, want) => assert!(rt; source.lacks(count) == want),
        Step::Advance(count) if count <= source.ahead().len() => source.advance(count),
        Step::At(want) => {
            assert!(rt; source.offset() == want);
            assert!(rt; source.byte_offset() as u64 == want);
        }
        _ => return Err(Fail::from("no such call")),
    }
    Ok(())
}

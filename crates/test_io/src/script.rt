//! What a test asks of a source, as a text: a script of calls, each with what it answers.
//!
//! ```text
//! peek = c; discard; read 3 = foo; offset = 4; next = \x18
//! ```
//!
//! Calls stand with semicolons between. After the name of one that wants a number of bytes stands
//! that number, and after `=` what it answers: bytes as they are printed (`\x18` for those that
//! aren't graphic), a number, `none`, the words of a refusal, or nothing.

use cbor_io::error::Error;
use cbor_read::{EitherLifetime, Read, ReadError, Source};
use std::alloc::{AllocError, Global};
use std::fmt;
use std::fmt::InlineText;
use std::process::Abort;
use std::test::Fail;
use test_checks::Verdict;

/// What a call answers.
type Answer = InlineText<96>;

/// Makes the calls of a script, each of which answers as the script says.
pub fn plays<'de, R: Read<'de>>(
    rt: &impl Abort,
    alloc: Global,
    source: &mut R,
    script: &str,
) -> Verdict {
    for line in script.split(';') {
        let (call, want) = line.split_once('=').unwrap_or((line, ""));
        is_said(rt, line, said(alloc, source, call.trim())?, want.trim())?;
    }
    Ok(())
}

/// Makes the calls of a script, of which one reports a fault of the reader, and those before it
/// answer as the script says.
pub fn fails<'de, R: Read<'de>>(
    rt: &impl Abort,
    alloc: Global,
    source: &mut R,
    script: &str,
) -> Verdict {
    for line in script.split(';') {
        let (call, want) = line.split_once('=').unwrap_or((line, ""));
        let answer = said(alloc, source, call.trim())?;
        if answer.as_str() == "I/O error" {
            return Ok(());
        }
        is_said(rt, line, answer, want.trim())?;
    }
    panic!(rt; "no fault in {script}")
}

// The answer is the one that is wanted.
fn is_said(rt: &impl Abort, line: &str, answer: Answer, want: &str) -> Verdict {
    if answer.as_str() == "out of memory" {
        return Err(Fail::from(AllocError));
    }
    assert!(rt; answer.as_str() == want, "{line}: {}", answer.as_str());
    Ok(())
}

// What a call answers.
fn said<'de, R: Read<'de>>(
    alloc: Global,
    source: &mut R,
    call: &str,
) -> Result<Answer, AllocError> {
    let (name, number) = call.split_once(' ').unwrap_or((call, "0"));
    let n = number.parse::<usize>().unwrap_or(0);
    Ok(match name {
        "read" => part(source.read(n)),
        "lend" => lent(source.read(n)),
        "joined" => part(Ok(source.take_buffer())),
        "lend_joined" => lent(Ok(source.take_buffer())),
        "extend" => extended(alloc, source, n)?,
        "vector" => filled(alloc, source, n),
        _ => said_of_bytes(source, name, n),
    })
}

// What a call answers that lends nothing.
fn said_of_bytes<S: Source>(source: &mut S, name: &str, n: usize) -> Answer {
    match name {
        "next" => byte(source.next()),
        "peek" => byte(source.peek()),
        "offset" => InlineText::of(source.offset()),
        "buffer" => shown(source.buffer()),
        "join" => done(source.read_to_buffer(n)),
        "skip" => done(source.skip(n)),
        "text" => number(source.skip_text(n)),
        "fill" => placed(source, n),
        _ => said_at_hand(source, name, n),
    }
}

// What a call answers that can't be refused.
fn said_at_hand<S: Source>(source: &mut S, name: &str, n: usize) -> Answer {
    match name {
        "ahead" => shown(source.ahead()),
        "advance" if n <= source.ahead().len() => {
            source.advance(n);
            Answer::new()
        }
        "discard" => discarded(source),
        "clear" => {
            source.clear_buffer();
            Answer::new()
        }
        _ => InlineText::of("no such call"),
    }
}

// ---- answers

// Bytes as a script shows them.
#[derive(Drop)]
struct Printed<'a>(&'a [u8]);

impl fmt::Display for Printed<'_> {
    fn fmt<W: fmt::Write>(&self, f: &mut fmt::Formatter<W>) -> fmt::Result {
        for byte in self.0 {
            if byte.is_ascii_graphic() {
                write!(f, "{}", char::from(*byte))?;
            } else {
                write!(f, "\\x{byte:02x}")?;
            }
        }
        Ok(())
    }
}

fn shown(bytes: &[u8]) -> Answer {
    InlineText::of(Printed(bytes))
}

fn refusal(e: ReadError) -> Answer {
    InlineText::of(Error::from(e))
}

fn byte(answer: Result<Option<u8>, ReadError>) -> Answer {
    match answer {
        Ok(Some(byte)) => shown(&[byte]),
        Ok(None) => InlineText::of("none"),
        Err(e) => refusal(e),
    }
}

fn number(answer: Result<usize, ReadError>) -> Answer {
    match answer {
        Ok(n) => InlineText::of(n),
        Err(e) => refusal(e),
    }
}

fn done(answer: Result<(), ReadError>) -> Answer {
    match answer {
        Ok(()) => Answer::new(),
        Err(e) => refusal(e),
    }
}

// The bytes of a part.
fn part(answer: Result<EitherLifetime, ReadError>) -> Answer {
    match answer {
        Ok(EitherLifetime::Short(bytes)) => shown(bytes),
        Ok(EitherLifetime::Long(bytes)) => shown(bytes),
        Err(e) => refusal(e),
    }
}

// The bytes of a part, and who lends them.
fn lent(answer: Result<EitherLifetime, ReadError>) -> Answer {
    match answer {
        Ok(EitherLifetime::Short(bytes)) => InlineText::of(format_args!(
            "source:{}",
            Printed(bytes)
        )),
        Ok(EitherLifetime::Long(bytes)) => InlineText::of(format_args!("input:{}", Printed(bytes))),
        Err(e) => refusal(e),
    }
}

// ---- calls

fn discarded<S: Source>(source: &mut S) -> Answer {
    match source.peek() {
        Ok(Some(_)) => {
            source.discard();
            Answer::new()
        }
        Ok(None) => InlineText::of("none"),
        Err(e) => refusal(e),
    }
}

// A place of so many bytes, 16 at most, once it is filled.
fn placed<S: Source>(source: &mut S, n: usize) -> Answer {
    let mut room = [0; 16];
    let place = &mut room[..n.min(16)];
    match source.read_into(place) {
        Ok(()) => shown(place),
        Err(e) => refusal(e),
    }
}

// A vector that has a byte, once so many are after it.
fn extended<S: Source>(alloc: Global, source: &mut S, n: usize) -> Result<Answer, AllocError> {
    let mut out = Vec::from_slice(alloc, b"=")?;
    Ok(match source.read_to_vec(n, &mut out) {
        Ok(()) => shown(&out),
        Err(e) => refusal(e),
    })
}

// An empty vector, once it has so many bytes. Where it gets none it takes no memory.
fn filled<S: Source>(alloc: Global, source: &mut S, n: usize) -> Answer {
    let mut out = Vec::new(alloc);
    let Err(e) = source.read_to_vec(n, &mut out) else {
        return shown(&out);
    };
    if out.capacity() == 0 {
        refusal(e)
    } else {
        InlineText::of("memory was taken")
    }
}

use crate::checks::prints;
use cbor_io::error::{Category, Error, ErrorCode};
use std::alloc::{AllocError, Global};
use std::fmt::InlineText;
use std::io;
use std::io::ErrorKind;
use std::process::Abort;
use std::test::Fail;
use test_checks::Verdict;

// The checks below promise nothing, so that a test of many rows carries no facts from one to the
// next.

/// The error, which is one at offset 7, is of this category and prints these words and its offset.
fn is_reported(
    rt: &impl Abort,
    alloc: Global,
    e: Error,
    category: Category,
    words: &str,
) -> Verdict {
    is_of(rt, &e, category);
    prints(rt, e.code(), words);
    is_text(rt, e.code().to_string(alloc), words)?;
    prints_its_offset(rt, &e, words);
    Ok(())
}

/// The text is this.
fn is_text(rt: &impl Abort, text: Result<String, AllocError>, want: &str) -> Verdict {
    assert!(rt; text?.as_str() == want);
    Ok(())
}

/// The error, which is one at offset 7, is of this category.
fn is_of(rt: &impl Abort, e: &Error, category: Category) {
    assert!(rt; e.offset() == 7);
    assert!(rt; e.classify() == category);
    is_so(rt, e.is_io(), category == Category::Io);
    is_so(rt, e.is_syntax(), category == Category::Syntax);
    is_so(rt, e.is_data(), category == Category::Data);
    is_so(rt, e.is_eof(), category == Category::Eof);
}

fn is_so(rt: &impl Abort, reported: bool, want: bool) {
    assert!(rt; reported == want);
}

/// It prints these words and its offset, whatever layout is asked for.
fn prints_its_offset(rt: &impl Abort, e: &Error, words: &str) {
    let text = InlineText::<96>::of(e);
    assert!(rt; text.as_str().strip_suffix(" at offset 7") == Some(words));
    prints(rt, format_args!("{e:#}"), text.as_str());
    prints(rt, format_args!("{e:>60}"), text.as_str());
}

/// The code at offset 7 is of an end of input.
fn reports_eof(rt: &impl Abort, alloc: Global, e: Error, words: &str) -> Verdict {
    is_reported(rt, alloc, e, Category::Eof, words)
}

/// The code at offset 7 is of bytes that spell no item that is read.
fn reports_syntax(rt: &impl Abort, alloc: Global, e: Error, words: &str) -> Verdict {
    is_reported(rt, alloc, e, Category::Syntax, words)
}

#[test]
fn reports_too_little_room(rt: HostRuntime) -> Verdict {
    let e = Error::scratch_too_small(7);
    is_reported(&rt, rt.alloc(), e, Category::Io, "Scratch buffer too small")
}

#[test]
fn reports_too_little_input(rt: HostRuntime) -> Verdict {
    let alloc = rt.alloc();
    let e = Error::at(ErrorCode::EofWhileParsingValue, 7);
    reports_eof(&rt, alloc, e, "EOF while parsing a value")?;
    let e = Error::at(ErrorCode::EofWhileParsingArray, 7);
    reports_eof(&rt, alloc, e, "EOF while parsing an array")?;
    let e = Error::at(ErrorCode::EofWhileParsingMap, 7);
    reports_eof(&rt, alloc, e, "EOF while parsing a map")
}

#[test]
fn reports_bytes_that_spell_nothing(rt: HostRuntime) -> Verdict {
    let alloc = rt.alloc();
    let e = Error::at(ErrorCode::InvalidUtf8, 7);
    reports_syntax(&rt, alloc, e, "invalid UTF-8")?;
    let e = Error::at(ErrorCode::UnassignedCode, 7);
    reports_syntax(&rt, alloc, e, "unassigned type")?;
    let e = Error::at(ErrorCode::UnexpectedCode, 7);
    reports_syntax(&rt, alloc, e, "unexpected code")
}

#[test]
fn reports_input_that_goes_too_far(rt: HostRuntime) -> Verdict {
    let alloc = rt.alloc();
    let e = Error::at(ErrorCode::LengthOutOfRange, 7);
    reports_syntax(&rt, alloc, e, "length out of range")?;
    let e = Error::at(ErrorCode::TrailingData, 7);
    reports_syntax(&rt, alloc, e, "trailing data")?;
    let e = Error::at(ErrorCode::RecursionLimitExceeded, 7);
    reports_syntax(&rt, alloc, e, "recursion limit exceeded")
}

#[test]
fn reports_arrays_of_another_length(rt: HostRuntime) -> Verdict {
    let alloc = rt.alloc();
    let e = Error::at(ErrorCode::ArrayTooShort, 7);
    reports_syntax(&rt, alloc, e, "array too short")?;
    let e = Error::at(ErrorCode::ArrayTooLong, 7);
    reports_syntax(&rt, alloc, e, "array too long")
}

#[test]
fn reports_items_of_another_form(rt: HostRuntime) -> Verdict {
    let alloc = rt.alloc();
    let e = Error::at(ErrorCode::WrongEnumFormat, 7);
    reports_syntax(&rt, alloc, e, "wrong enum format")?;
    let e = Error::at(ErrorCode::WrongStructFormat, 7);
    reports_syntax(&rt, alloc, e, "wrong struct format")?;
    let e = Error::at(ErrorCode::NotCanonical, 7);
    reports_syntax(&rt, alloc, e, "not canonical")
}

#[test]
fn reports_a_message(rt: HostRuntime) -> Verdict {
    let alloc = rt.alloc();
    let e = Error::message(alloc, "x");
    if e.is_memory() {
        return Err(Fail::from(e));
    }
    assert!(rt; e.is_data());
    is_text(&rt, e.to_string(alloc), "x")
}

#[test]
fn reports_that_memory_ran_out(rt: HostRuntime) -> Verdict {
    let e = Error::from(AllocError);
    assert!(rt; e.is_memory());
    assert!(rt; e.is_io());
    is_text(&rt, e.to_string(rt.alloc()), "out of memory")
}

#[test]
fn reports_a_fault_of_a_device(rt: HostRuntime) -> Verdict {
    let e = Error::from(io::Error::from(ErrorKind::Interrupted));
    assert!(rt; matches!(e.code(), ErrorCode::Io(_)));
    assert!(rt; e.is_io());
    is_text(&rt, e.to_string(rt.alloc()), "I/O error")
}

#[test]
fn reports_no_place_before_the_first_byte(rt: HostRuntime) -> Verdict {
    let e = Error::eof(0);
    assert!(rt; e.is_eof());
    is_text(&rt, e.to_string(rt.alloc()), "EOF while parsing a value")
}

#[test]
fn reports_the_first_and_the_last_place(rt: HostRuntime) {
    let e = Error::scratch_too_small(1);
    assert!(rt; e.is_scratch_too_small());
    prints(&rt, e, "Scratch buffer too small at offset 1");
    let last = "EOF while parsing a value at offset 18446744073709551615";
    prints(&rt, Error::eof(u64::MAX), last);
}

use crate::arguments;
use crate::program::{Mode, Preset, run, run_by_rules, run_in, run_strict};
use crate::sequence::{Form, run_sequence};
use serde_cbor::Result;
use std::alloc::{AllocError, Global};
use std::fmt::InlineText;
use std::io;
use std::io::{ErrorKind, Read, Write};
use std::process::Abort;

// More bytes than any answers here have.
const ROOM: usize = 128;

// A reader that fails once it has given `left` bytes.
#[derive(Drop)]
struct FailingReader<'a> {
    bytes: &'a [u8],
    left: usize,
    kind: ErrorKind,
}

impl Read for FailingReader<'_> {
    fn read(&mut self, buf: &mut [u8]) -> io::Result<usize> {
        if self.left == 0 {
            return Err(io::Error::from(self.kind));
        }
        self.left -= 1;
        self.bytes.read(buf)
    }
}

// A writer that takes at most `at_once` bytes a write, fails once it has taken `writes` writes, and
// fails once it was flushed `flushes` times. It has its memory from the beginning, as each writer
// here has, so that no write fails for want of it.
#[derive(Drop)]
struct FailingWriter {
    written: Vec<u8>,
    at_once: usize,
    writes: usize,
    flushes: usize,
    flushed: usize,
}

impl FailingWriter {
    fn new(
        alloc: Global,
        at_once: usize,
        writes: usize,
        flushes: usize,
    ) -> std::result::Result<FailingWriter, AllocError> {
        Ok(FailingWriter {
            written: Vec::with_capacity(alloc, ROOM)?,
            at_once,
            writes,
            flushes,
            flushed: 0,
        })
    }
}

impl Write for FailingWriter {
    fn write(&mut self, buf: &[u8]) -> io::Result<usize> {
        if self.writes == 0 {
            return Err(io::Error::from(ErrorKind::BrokenPipe));
        }
        self.writes -= 1;
        let count = buf.len().min(self.at_once);
        self.written.write(&buf[..count])
    }

    fn flush(&mut self) -> io::Result<()> {
        if self.flushes == 0 {
            return Err(io::Error::from(ErrorKind::BrokenPipe));
        }
        self.flushes -= 1;
        self.flushed = self.written.len();
        Ok(())
    }
}

// A writer of which each other write is interrupted.
#[derive(Drop)]
struct InterruptedWriter {
    written: Vec<u8>,
    is_interrupted: bool,
}

impl Write for InterruptedWriter {
    fn write(&mut self, buf: &[u8]) -> io::Result<usize> {
        self.is_interrupted = !self.is_interrupted;
        if self.is_interrupted {
            return Err(io::Error::from(ErrorKind::Interrupted));
        }
        let count = buf.len().min(2);
        self.written.write(&buf[..count])
    }

    fn flush(&mut self) -> io::Result<()> {
        Ok(())
    }
}

fn answers_to(alloc: Global, input: &[u8]) -> Result<Vec<u8>> {
    let mut reader = input;
    let mut writer = Vec::with_capacity(alloc, ROOM)?;
    run(alloc, &mut reader, &mut writer)?;
    Ok(writer)
}

fn strict_answers_to(alloc: Global, input: &[u8]) -> Result<Vec<u8>> {
    let mut reader = input;
    let mut writer = Vec::with_capacity(alloc, ROOM)?;
    run_strict(alloc, &mut reader, &mut writer)?;
    Ok(writer)
}

// The run ended by a fault of a device.
fn ended_by_fault(rt: &impl Abort, ended: Result<()>) -> Result<()> {
    let Err(error) = ended else {
        panic!(rt; "no fault");
    };
    if error.is_memory() {
        return Err(error);
    }
    assert!(rt; InlineText::<16>::of(&error).as_str() == "I/O error");
    Ok(())
}

#[test]
fn answers_each_line(rt: HostRuntime) -> Result<()> {
    let alloc = rt.alloc();
    let cases: [(&[u8], &[u8]); 8] = [
        (b"", b""),
        (b"\n", b"error: EOF while parsing a value\n"),
        (b"19002A", b"182a\n"),
        (b"19002a\n1817\n", b"182a\n17\n"),
        (
            b"17 \n17\r\n8",
            b"error: not hexadecimal\nerror: not hexadecimal\nerror: not hexadecimal\n",
        ),
        (b"8", b"error: not hexadecimal\n"),
        (
            b"\n\nf6",
            b"error: EOF while parsing a value\nerror: EOF while parsing a value\nf6\n",
        ),
        (b"62c328\n", b"error: invalid UTF-8 at offset 1\n"),
    ];
    for (input, output) in cases {
        assert!(rt; answers_to(alloc, input)?.as_slice() == output);
    }
    Ok(())
}

#[test]
fn stops_where_the_reader_fails(rt: HostRuntime) -> Result<()> {
    let alloc = rt.alloc();
    for kind in [ErrorKind::Interrupted, ErrorKind::Other] {
        for left in 0..7 {
            let mut reader = FailingReader {
                bytes: b"17\nf6\n",
                left,
                kind,
            };
            let mut writer = Vec::with_capacity(alloc, ROOM)?;
            ended_by_fault(&rt, run(alloc, &mut reader, &mut writer))?;
            let output: &[u8] = match left {
                0..3 => b"",
                3..6 => b"17\n",
                _ => b"17\nf6\n",
            };
            assert!(rt; writer.as_slice() == output);
        }
    }
    Ok(())
}

const INPUT: &[u8] = b"17\nf6\n18";

const OUTPUT: &[u8] = b"17\nf6\nerror: EOF while parsing a value at offset 1\n";

// How many bytes of the output are whole answers, where it has that many.
fn answered(written: usize) -> usize {
    match written {
        0..3 => 0,
        3..6 => 3,
        _ => 6,
    }
}

#[test]
fn stops_at_each_write_that_fails(rt: HostRuntime) -> Result<()> {
    let alloc = rt.alloc();
    for writes in 0..OUTPUT.len() {
        let mut reader = INPUT;
        let mut writer = FailingWriter::new(alloc, 1, writes, 3)?;
        ended_by_fault(&rt, run(alloc, &mut reader, &mut writer))?;
        assert!(rt; writer.written.as_slice() == &OUTPUT[..writes]);
        assert_eq!(rt; writer.flushed, answered(writes));
        let unread: &[u8] = match writes {
            0..3 => b"f6\n18",
            3..6 => b"18",
            _ => b"",
        };
        assert!(rt; reader == unread);
    }
    Ok(())
}

#[test]
fn stops_where_whole_writes_fail(rt: HostRuntime) -> Result<()> {
    let alloc = rt.alloc();
    for writes in 0..3 {
        let mut reader = INPUT;
        let mut writer = FailingWriter::new(alloc, 100, writes, 3)?;
        ended_by_fault(&rt, run(alloc, &mut reader, &mut writer))?;
        assert!(rt; writer.written.as_slice() == &OUTPUT[..3 * writes]);
        assert_eq!(rt; writer.flushed, 3 * writes);
    }
    Ok(())
}

#[test]
fn stops_where_the_writer_takes_nothing(rt: HostRuntime) -> Result<()> {
    let alloc = rt.alloc();
    let mut reader = INPUT;
    let mut writer = FailingWriter::new(alloc, 0, 5, 3)?;
    ended_by_fault(&rt, run(alloc, &mut reader, &mut writer))?;
    assert_eq!(rt; writer.written.len(), 0);
    Ok(())
}

#[test]
fn stops_at_each_flush_that_fails(rt: HostRuntime) -> Result<()> {
    let alloc = rt.alloc();
    let outputs: [&[u8]; 3] = [&OUTPUT[..3], &OUTPUT[..6], OUTPUT];
    for (flushes, output) in outputs.into_iter().enumerate() {
        let mut reader = INPUT;
        let mut writer = FailingWriter::new(alloc, 2, 100, flushes)?;
        ended_by_fault(&rt, run(alloc, &mut reader, &mut writer))?;
        assert!(rt; writer.written.as_slice() == output);
    }
    Ok(())
}

#[test]
fn flushes_each_answer(rt: HostRuntime) -> Result<()> {
    let alloc = rt.alloc();
    let mut reader = INPUT;
    let mut writer = FailingWriter::new(alloc, 2, 100, 3)?;
    run(alloc, &mut reader, &mut writer)?;
    assert!(rt; writer.written.as_slice() == OUTPUT);
    assert_eq!(rt; writer.flushes, 0);
    assert_eq!(rt; writer.flushed, OUTPUT.len());
    Ok(())
}

#[test]
fn tries_an_interrupted_write_again(rt: HostRuntime) -> Result<()> {
    let alloc = rt.alloc();
    let mut reader = INPUT;
    let mut writer = InterruptedWriter {
        written: Vec::with_capacity(alloc, ROOM)?,
        is_interrupted: false,
    };
    run(alloc, &mut reader, &mut writer)?;
    assert!(rt; writer.written.as_slice() == OUTPUT);
    Ok(())
}

// Where each allocation fails in turn: the lines before the last that was begun are answered, and
// it isn't. A line is begun where a byte of it was taken, of the first three and of the last three.
#[test]
fn answers_the_lines_before_one_without_memory(rt: HostRuntime) -> Result<()> {
    let alloc = rt.alloc();
    let mut reader = b"17\nf6\n".as_slice();
    let mut writer = Vec::with_capacity(alloc, ROOM)?;
    let ended = run(alloc, &mut reader, &mut writer);
    let output: &[u8] = match (&ended, reader.len()) {
        (Ok(()), _) => b"17\nf6\n",
        (Err(_), 0..3) => b"17\n",
        (Err(_), _) => b"",
    };
    assert!(rt; writer.as_slice() == output);
    ended
}

#[test]
fn answers_each_line_strictly(rt: HostRuntime) -> Result<()> {
    let alloc = rt.alloc();
    let input = b"1817\n17\nF7\nF6\n";
    let output = b"error: not canonical at offset 2\n17\nerror: not canonical at offset 1\nf6\n";
    assert!(rt; strict_answers_to(alloc, input)?.as_slice() == output.as_slice());
    let input = b"8\n\n1c\na2020001";
    let output = b"error: not hexadecimal\nerror: EOF while parsing a value\n\
        error: unassigned type at offset 1\nerror: not canonical at offset 4\n";
    assert!(rt; strict_answers_to(alloc, input)?.as_slice() == output.as_slice());
    Ok(())
}

fn answers_by_rules(alloc: Global, preset: Preset, input: &[u8]) -> Result<Vec<u8>> {
    let mut reader = input;
    let mut writer = Vec::with_capacity(alloc, 4 * ROOM)?;
    run_by_rules(preset, alloc, &mut reader, &mut writer)?;
    Ok(writer)
}

// The keys 100 and -1 in the order of RFC 8949, section 4.2.1, and in that of section 4.2.3; 1.5;
// an array as a key; a tag; undefined; what is no item; and what is no hexadecimal.
const FORMS: &[u8] = b"a218640020F6\na220F6186400\nfb3ff8000000000000\na18000\nc100\nf7\n62\n8\n";

const BY_DETERMINISTIC: &[u8] = b"a218640020f6\nerror: key out of order at offset 5\n\
    error: float not the shortest at offset 9\na18000\nc100\nerror: undefined at offset 1\n\
    error: EOF while parsing a value at offset 1\nerror: not hexadecimal\n";

const BY_LENGTH_FIRST: &[u8] = b"error: key out of order at offset 5\na220f6186400\n\
    error: float not the shortest at offset 9\na18000\nc100\nerror: undefined at offset 1\n\
    error: EOF while parsing a value at offset 1\nerror: not hexadecimal\n";

const BY_CTAP2: &[u8] = b"a218640020f6\nerror: key out of order at offset 5\n\
    fb3ff8000000000000\nerror: array, map or tag as a key at offset 2\n\
    error: tag not allowed at offset 1\nerror: undefined at offset 1\n\
    error: EOF while parsing a value at offset 1\nerror: not hexadecimal\n";

const BY_DCBOR: &[u8] = b"a218640020f6\nerror: key out of order at offset 5\n\
    error: float not the shortest at offset 9\na18000\nc100\nerror: undefined at offset 1\n\
    error: EOF while parsing a value at offset 1\nerror: not hexadecimal\n";

const BY_UNIQUE_KEYS: &[u8] = b"a218640020f6\na220f6186400\nfb3ff8000000000000\na18000\nc100\n\
    f7\nerror: EOF while parsing a value at offset 1\nerror: not hexadecimal\n";

// The key 1 twice, in two encodings (RFC 8949, section 5.6); the other forms have other rules.
#[test]
fn refuses_a_key_twice(rt: HostRuntime) -> Result<()> {
    let answer = answers_by_rules(rt.alloc(), Preset::UniqueKeys, b"a20100180100\n")?;
    assert!(rt; answer.as_slice() == b"error: duplicate key at offset 5\n".as_slice());
    Ok(())
}

#[test]
fn answers_each_line_by_rules(rt: HostRuntime) -> Result<()> {
    let alloc = rt.alloc();
    let forms = [
        (Preset::Deterministic, BY_DETERMINISTIC),
        (Preset::LengthFirst, BY_LENGTH_FIRST),
        (Preset::Ctap2, BY_CTAP2),
        (Preset::Dcbor, BY_DCBOR),
        (Preset::UniqueKeys, BY_UNIQUE_KEYS),
    ];
    for (preset, output) in forms {
        assert!(rt; answers_by_rules(alloc, preset, FORMS)?.as_slice() == output);
    }
    Ok(())
}

fn diagnoses(alloc: Global, mode: Mode, input: &[u8]) -> Result<Vec<u8>> {
    let mut reader = input;
    let mut writer = Vec::with_capacity(alloc, ROOM)?;
    run_in(mode, alloc, &mut reader, &mut writer)?;
    Ok(writer)
}

#[test]
fn answers_each_line_in_notation(rt: HostRuntime) -> Result<()> {
    let alloc = rt.alloc();
    let input = b"182a\na16161f93c00\n8\n1c\n";
    let output = diagnoses(alloc, Mode::Diagnose, input)?;
    let answers = b"42\n{\"a\": 1.0}\nerror: not hexadecimal\nerror: unassigned type at offset 1\n";
    assert!(rt; output.as_slice() == answers.as_slice());
    let output = diagnoses(alloc, Mode::DiagnosePretty, input)?;
    let answers = b"42\n{\n  \"a\": 1.0\n}\nerror: not hexadecimal\n\
        error: unassigned type at offset 1\n";
    assert!(rt; output.as_slice() == answers.as_slice());
    Ok(())
}

// How the run over a sequence ended, and what it wrote.
fn answers_to_items(alloc: Global, form: Form, input: &[u8]) -> Result<(Result<()>, Vec<u8>)> {
    let mut writer = Vec::with_capacity(alloc, ROOM)?;
    let ended = run_sequence(form, alloc, input, &mut writer);
    Ok((ended, writer))
}

const SEQUENCE: &[u8] = b"\x19\x00\x2a\x82\x01\xf9\x3c\x00\xa1\x61a\x61b";

#[test]
fn answers_each_item_of_a_sequence(rt: HostRuntime) -> Result<()> {
    let alloc = rt.alloc();
    let answers: [(Form, &[u8]); 3] = [
        (
            Form::Canonical,
            b"\x18\x2a\x82\x01\xf9\x3c\x00\xa1\x61a\x61b",
        ),
        (Form::Notation, b"42\n[1, 1.0]\n{\"a\": \"b\"}\n"),
        (
            Form::PrettyNotation,
            b"42\n[\n  1,\n  1.0\n]\n{\n  \"a\": \"b\"\n}\n",
        ),
    ];
    for (form, output) in answers {
        let (ended, written) = answers_to_items(alloc, form, SEQUENCE)?;
        ended?;
        assert!(rt; written.as_slice() == output);
    }
    Ok(())
}

// The answers to the items before the one that isn't acceptable are written.
#[test]
fn stops_at_an_item_that_is_cut_off(rt: HostRuntime) -> Result<()> {
    let alloc = rt.alloc();
    let (ended, written) = answers_to_items(alloc, Form::Notation, &SEQUENCE[..9])?;
    let Err(error) = ended else {
        panic!(rt; "not refused");
    };
    if error.is_memory() {
        return Err(error);
    }
    let text = InlineText::<64>::of(&error);
    assert!(rt; text.as_str() == "EOF while parsing a value at offset 9");
    assert!(rt; written.as_slice() == b"42\n[1, 1.0]\n".as_slice());
    Ok(())
}

#[test]
fn stops_at_each_item_whose_answer_is_not_written(rt: HostRuntime) -> Result<()> {
    let alloc = rt.alloc();
    let output = b"42\n[1, 1.0]\n{\"a\": \"b\"}\n";
    for writes in 0..output.len() {
        let mut writer = FailingWriter::new(alloc, 1, writes, 3)?;
        ended_by_fault(
            &rt,
            run_sequence(Form::Notation, alloc, SEQUENCE, &mut writer),
        )?;
        assert!(rt; writer.written.as_slice() == &output[..writes]);
    }
    Ok(())
}

#[test]
fn chooses_the_form_by_words(rt: HostRuntime) -> Result<()> {
    let alloc = rt.alloc();
    let mut words = Vec::new(alloc);
    assert!(rt; arguments::form(&words).is_none());
    words.push("diagnose".to_owned(alloc)?)?;
    assert!(rt; matches!(arguments::mode(&words), Some(Mode::Diagnose)));
    words.push("--pretty".to_owned(alloc)?)?;
    assert!(rt; matches!(arguments::mode(&words), Some(Mode::DiagnosePretty)));
    assert!(rt; arguments::form(&words).is_none());
    words.push("raw".to_owned(alloc)?)?;
    assert!(rt; arguments::mode(&words).is_none());
    assert!(rt; matches!(arguments::form(&words), Some(Form::PrettyNotation)));
    Ok(())
}

#[test]
fn chooses_the_mode_by_words(rt: HostRuntime) -> Result<()> {
    let alloc = rt.alloc();
    let mut words = Vec::new(alloc);
    assert!(rt; matches!(arguments::mode(&words), Some(Mode::Lenient)));
    words.push("strict".to_owned(alloc)?)?;
    assert!(rt; matches!(arguments::mode(&words), Some(Mode::Strict)));
    words.push("strict".to_owned(alloc)?)?;
    assert!(rt; arguments::mode(&words).is_none());
    words.clear();
    words.push("length-first".to_owned(alloc)?)?;
    let by_length = arguments::mode(&words);
    assert!(rt; matches!(by_length, Some(Mode::ByRules(Preset::LengthFirst))));
    words.clear();
    words.push("Strict".to_owned(alloc)?)?;
    assert!(rt; arguments::mode(&words).is_none());
    Ok(())
}

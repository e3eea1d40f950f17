//! Lines of hexadecimal in, lines of answers out.

ghost use Rattle.std.specs.Prelude.{◌≡◌, ◌≢◌, ◌⊎◌, ◌+◌, ◌<◌, ◌≤◌, ◌∷◌, ◌++◌, [], codes, length};
ghost use Rattle.std.specs.Prelude.{IfOk, IfErr, IfSome, OnOk};
ghost use Rattle.std.specs.Io.KnownBytes.{WriteAppends, IsAtEnd};
ghost use Rattle.cbor_model.specs.Plain.{Val};
ghost use Rattle.cbor_model.specs.Document.{document_of, IsStorableDocument};
ghost use Rattle.cbor_tool.specs.Answer.{lines, hex, IsAnswer, IsAnswered, IsAnsweredStrictly};
ghost use Rattle.cbor_tool.specs.Answer.{IsAnsweredByRules};
ghost use Rattle.serde_cbor.specs.Error.{IsOutOfMemory, code_of, error_text};
ghost use Rattle.serde_cbor.specs.declared.error.ErrorCode.TheVariants.{OutOfMemory};
ghost use Rattle.serde_cbor.specs.View.{view};
ghost use Rattle.serde_cbor.specs.Write.{Wrote};
ghost use Rattle.serde_cbor.specs.Written.{IsNotWritten};
ghost use Rattle.cbor_tool.specs.Run.{AppendsAnswers, IsStopped};
ghost use Rattle.cbor_tool.specs.RunSteps.{IsNext, IsNextLine, StopsReading, StopsAtByte};
ghost use Rattle.cbor_tool.specs.RunSteps.{answered_in, ShowsIn, SpellsIn, StopsAnswering};
ghost use Rattle.cbor_tool.specs.RunSteps.{ReportsIn, rules_of, shown_in};

use cbor_diagnostic::{to_diagnostic, to_diagnostic_pretty};
use hex::FromHexError;
use serde_cbor::error::{Error, ErrorCode};
use serde_cbor::rules::{Refusal, Rules, from_slice_with};
use serde_cbor::{Result, Value, from_slice, from_slice_canonical, to_vec};
use std::alloc::{AllocError, Global};
use std::io;
use std::io::ErrorKind;

// What ended a line.
#[derive(Clone, Copy)]
enum End {
    Newline,
    Input,
}

/// Which bytes are read.
#[derive(Clone, Copy)]
pub enum Mode {
    /// Those of any acceptable item, which is answered with its canonical encoding.
    Lenient,
    /// Canonical encodings alone.
    Strict,
    /// Those of any acceptable item, which is answered in diagnostic notation (RFC 8949, section 8)
    /// on one line.
    Diagnose,
    /// The same, with each item of an array and each pair of a map on a line of its own.
    DiagnosePretty,
    /// Those that keep the rules of a form, which are answered with themselves.
    ByRules(Preset),
}

/// A form by whose rules bytes are read.
#[derive(Clone, Copy)]
pub enum Preset {
    /// The core deterministic encoding (RFC 8949, section 4.2.1).
    Deterministic,
    /// That with shorter keys first (RFC 8949, section 4.2.3).
    LengthFirst,
    /// The canonical form of CTAP2.
    Ctap2,
    /// dCBOR.
    Dcbor,
    /// Any, with no key of a map twice.
    UniqueKeys,
}

impl Preset {
    fn rules(self) -> Rules
        ensures { result ≡ rules_of self }
    {
        match self {
            Preset::Deterministic => Rules::DETERMINISTIC,
            Preset::LengthFirst => Rules::LENGTH_FIRST,
            Preset::Ctap2 => Rules::CTAP2,
            Preset::Dcbor => Rules::DCBOR,
            Preset::UniqueKeys => Rules::UNIQUE_KEYS,
        }
    }
}

/// Answers each line that the reader gives by one line to the writer.
///
/// Bytes are taken one at a time. Each answer is made whole, then written, and flushed before the
/// byte that follows its line is taken. The run stops at the first fault of the reader or of the
/// writer, where memory runs out, and where the reader gives more than 2^64 - 1 bytes. A write that
/// was interrupted is no fault, and is tried again.
pub fn run<R: io::Read, W: io::Write>(alloc: Global, reader: &mut R, writer: &mut W) -> Result<()>
    // The output is one answer for each of the input's lines, and the input was read to its end.
    ensures answers { OnOk result (IfSome (R.remaining reader.old) (λ input.
        AppendsAnswers IsAnswered (lines input)
        (W.contents writer.old) (W.contents writer.new))) }
    ensures end { OnOk result (IsAtEnd (R.remaining reader.new)) }
    // Why it stopped, with what taken and what written: at a fault of the reader the answers to the
    // lines that had ended, and at a fault of the writer those to the lines before one, and a
    // prefix of the answer to that line.
    ensures stopped { IfErr result (λ e. IsStopped IsAnswered e
        (R.remaining reader.old) (R.remaining reader.new)
        (W.contents writer.old) (W.contents writer.new)) }
{
    run_in(Mode::Lenient, alloc, reader, writer)
}

/// Answers each line as [`run`] does, but reads canonical encodings alone: such a one is answered
/// with itself, and other bytes with the first refusal of strict reading.
pub fn run_strict<R: io::Read, W: io::Write>(
    alloc: Global,
    reader: &mut R,
    writer: &mut W,
) -> Result<()>
    ensures answers { OnOk result (IfSome (R.remaining reader.old) (λ input.
        AppendsAnswers IsAnsweredStrictly (lines input)
        (W.contents writer.old) (W.contents writer.new))) }
    ensures end { OnOk result (IsAtEnd (R.remaining reader.new)) }
    ensures stopped { IfErr result (λ e. IsStopped IsAnsweredStrictly e
        (R.remaining reader.old) (R.remaining reader.new)
        (W.contents writer.old) (W.contents writer.new)) }
{
    run_in(Mode::Strict, alloc, reader, writer)
}

/// Answers each line as [`run`] does, but reads by the rules of a form: bytes that keep them are
/// answered with themselves, an item that departs from a rule with the first departure, and other
/// bytes with their first refusal.
pub fn run_by_rules<R: io::Read, W: io::Write>(
    preset: Preset,
    alloc: Global,
    reader: &mut R,
    writer: &mut W,
) -> Result<()>
    ensures answers { OnOk result (IfSome (R.remaining reader.old) (λ input.
        AppendsAnswers (IsAnsweredByRules (rules_of preset)) (lines input)
        (W.contents writer.old) (W.contents writer.new))) }
    ensures end { OnOk result (IsAtEnd (R.remaining reader.new)) }
    ensures stopped { IfErr result (λ e. IsStopped (IsAnsweredByRules (rules_of preset)) e
        (R.remaining reader.old) (R.remaining reader.new)
        (W.contents writer.old) (W.contents writer.new)) }
{
    run_in(Mode::ByRules(preset), alloc, reader, writer)
}

/// Answers each line as [`run`] does, in this mode.
pub fn run_in<R: io::Read, W: io::Write>(
    mode: Mode,
    alloc: Global,
    reader: &mut R,
    writer: &mut W,
) -> Result<()>
    ensures answers { OnOk result (IfSome (R.remaining reader.old) (λ input.
        AppendsAnswers (answered_in mode) (lines input)
        (W.contents writer.old) (W.contents writer.new))) }
    ensures end { OnOk result (IsAtEnd (R.remaining reader.new)) }
    ensures stopped { IfErr result (λ e. IsStopped (answered_in mode) e
        (R.remaining reader.old) (R.remaining reader.new)
        (W.contents writer.old) (W.contents writer.new)) }
{
    let mut taken = 0;
    let mut line = Vec::new(alloc);
    let mut text = Vec::new(alloc);
    'lines: while let End::Newline = read_line(reader, &mut taken, &mut line)? {
        write_answer(mode, alloc, &line, &mut text, writer)?;
    }
    if !line.is_empty() {
        write_answer(mode, alloc, &line, &mut text, writer)?;
    }
    Ok(())
}

// Makes `line` the bytes up to the next 0a, which is taken too, or to the end of the input. `taken`
// counts all the bytes that were taken.
fn read_line<R: io::Read>(reader: &mut R, taken: &mut u64, line: &mut Vec<u8>) -> Result<End>
    ensures ok { IfOk result (λ end. IsNextLine end line.new.items taken.old taken.new
        (R.remaining reader.old) (R.remaining reader.new)) }
    ensures err { IfErr result (λ e. StopsReading e taken.old
        (R.remaining reader.old) (R.remaining reader.new)) }
{
    line.clear();
    'bytes: while let Some(byte) = read_byte(reader, taken)? {
        if byte == b'\n' {
            return Ok(End::Newline);
        }
        line.push(byte)?;
    }
    Ok(End::Input)
}

// Takes the next byte, if there is one.
fn read_byte<R: io::Read>(reader: &mut R, taken: &mut u64) -> Result<Option<u8>>
    ensures ok { IfOk result (λ next. IsNext next taken.old taken.new
        (R.remaining reader.old) (R.remaining reader.new)) }
    ensures err { IfErr result (λ e. StopsAtByte e taken.old
        (R.remaining reader.old) (R.remaining reader.new)) }
{
    let mut buf = [0];
    if reader.read(&mut buf)? == 0 {
        return Ok(None);
    }
    let Some(count) = taken.checked_add(1) else {
        return Err(Error::at(ErrorCode::LengthOutOfRange, u64::MAX));
    };
    *taken = count;
    Ok(Some(buf[0]))
}

// Writes the answer to the line, which is made in `text`, and a 0a.
fn write_answer<W: io::Write>(
    mode: Mode,
    alloc: Global,
    line: &[u8],
    text: &mut Vec<u8>,
    writer: &mut W,
) -> Result<()>
    ensures ok { OnOk result (AppendsAnswers (answered_in mode) (line.now ∷ [])
        (W.contents writer.old) (W.contents writer.new)) }
    ensures err { IfErr result (λ e. StopsAnswering (answered_in mode) e line.now
        (W.contents writer.old) (W.contents writer.new)) }
{
    answer(mode, alloc, line, text)?;
    text.push(b'\n')?;
    write_all(writer, text)?;
    writer.flush()?;
    Ok(())
}

/// Writes the bytes, as `io::Write::write_all` does. A clause says what stands after a fault.
pub fn write_all<W: io::Write>(writer: &mut W, bytes: &[u8]) -> io::Result<()>
    ensures { Wrote (W.contents writer.old) bytes.now (W.contents writer.new) result }
{
    let mut rest = bytes;
    'bytes: while !rest.is_empty() {
        let count = write_some(writer, rest)?;
        rest = &rest[count..];
    }
    Ok(())
}

// Writes a front of the bytes, and answers how long it is. An interrupted write is tried again.
fn write_some<W: io::Write>(writer: &mut W, bytes: &[u8]) -> io::Result<usize>
    ensures within { IfOk result (λ n. (0 < n) × (n ≤ length bytes.now)) }
    ensures written { WriteAppends
        (W.contents writer.old) (W.contents writer.new) result bytes.now }
{
    'tries: for _ in 0..u64::MAX {
        match writer.write(bytes) {
            Ok(0) => return Err(io::Error::from(ErrorKind::WriteZero)),
            Ok(count) => return Ok(count),
            Err(fault) => {
                if fault.kind() != ErrorKind::Interrupted {
                    return Err(fault);
                }
            }
        }
    }
    Err(io::Error::from(ErrorKind::Interrupted))
}

// Makes `text` the answer to the line.
fn answer(mode: Mode, alloc: Global, line: &[u8], text: &mut Vec<u8>) -> Result<()>
    ensures ok { OnOk result (IsAnswer (answered_in mode) line.now text.new.items) }
    ensures err { IfErr result IsOutOfMemory }
{
    match hex::decode(alloc, line) {
        Ok(bytes) => answer_bytes(mode, alloc, &bytes, text),
        Err(error) => match error {
            FromHexError::OutOfMemory => Err(Error::from(AllocError)),
            _ => replace(text, b"error: not hexadecimal"),
        },
    }
}

// Makes `text` the answer to a line that is the hexadecimal of these bytes.
fn answer_bytes(mode: Mode, alloc: Global, bytes: &[u8], text: &mut Vec<u8>) -> Result<()>
    ensures ok { OnOk result (answered_in mode bytes.now text.new.items) }
    ensures err { IfErr result IsOutOfMemory }
{
    match mode {
        Mode::ByRules(preset) => answer_by_rules(preset.rules(), alloc, bytes, text),
        _ => answer_value(mode, alloc, bytes, text),
    }
}

// Makes `text` the bytes, if they keep the rules, or why they don't.
fn answer_by_rules(rules: Rules, alloc: Global, bytes: &[u8], text: &mut Vec<u8>) -> Result<()>
    ensures ok { OnOk result (IsAnsweredByRules rules bytes.now text.new.items) }
    ensures err { IfErr result IsOutOfMemory }
{
    match from_slice_with::<Value>(alloc, bytes, rules) {
        Ok(_) => replace_by_hex(text, bytes),
        Err(Refusal::Departs(departure)) => {
            let refusal = format!(in alloc; "error: {departure}")?;
            replace(text, refusal.as_bytes())
        }
        Err(Refusal::Unread(error)) => answer_error(error, alloc, text),
    }
}

// Makes `text` what is shown in this mode of the value that the bytes encode, or why they don't.
fn answer_value(mode: Mode, alloc: Global, bytes: &[u8], text: &mut Vec<u8>) -> Result<()>
    ensures ok { OnOk result (shown_in mode bytes.now text.new.items) }
    ensures err { IfErr result IsOutOfMemory }
{
    match read(mode, alloc, bytes) {
        Ok(value) => show(mode, alloc, &value, text),
        Err(error) => answer_error(error, alloc, text),
    }
}

// Makes `text` the answer to bytes that are refused so, unless memory ran out.
fn answer_error(error: Error, alloc: Global, text: &mut Vec<u8>) -> Result<()>
    ensures ok { OnOk result ((code_of error ≢ OutOfMemory)
        × (text.new.items ≡ codes "error: " ++ error_text error)) }
    ensures err { IfErr result (λ e. IsOutOfMemory e
        ⊎ ((code_of error ≡ OutOfMemory) × (e ≡ error))) }
{
    if error.is_memory() {
        return Err(error);
    }
    let refusal = format!(in alloc; "error: {error}")?;
    replace(text, refusal.as_bytes())
}

// Makes `text` what is shown of the value in this mode.
fn show(mode: Mode, alloc: Global, value: &Value, text: &mut Vec<u8>) -> Result<()>
    ensures ok { OnOk result (ShowsIn mode (view value.now) text.new.items) }
    ensures err { IfErr result (IsNotWritten (IsStorableDocument (document_of (view value.now)))) }
{
    match mode {
        Mode::Diagnose => replace(text, to_diagnostic(alloc, value)?.as_bytes()),
        Mode::DiagnosePretty => replace(text, to_diagnostic_pretty(alloc, value)?.as_bytes()),
        Mode::Lenient | Mode::Strict | Mode::ByRules(_) => {
            let spelling = to_vec(alloc, value)?;
            replace_by_hex(text, &spelling)
        }
    }
}

// Reads the bytes in this mode.
fn read(mode: Mode, alloc: Global, bytes: &[u8]) -> Result<Value>
    ensures found { IfOk result (λ v. SpellsIn mode bytes.now (view v)) }
    ensures accepted { (v : Val) → SpellsIn mode bytes.now v → IfErr result IsOutOfMemory }
    ensures refused { IfErr result (λ e. IsOutOfMemory e ⊎ ReportsIn mode bytes.now e) }
{
    match mode {
        Mode::Strict => from_slice_canonical(alloc, bytes),
        _ => from_slice(alloc, bytes),
    }
}

fn replace(text: &mut Vec<u8>, with: &[u8]) -> Result<()>
    ensures ok { OnOk result (text.new.items ≡ with.now) }
    ensures err { IfErr result IsOutOfMemory }
{
    text.clear();
    text.extend_from_slice(with)?;
    Ok(())
}

fn replace_by_hex(text: &mut Vec<u8>, bytes: &[u8]) -> Result<()>
    ensures ok { OnOk result (text.new.items ≡ hex bytes.now) }
    ensures err { IfErr result IsOutOfMemory }
{
    let Some(len) = bytes.len().checked_mul(2) else {
        return Err(Error::from(AllocError));
    };
    text.clear();
    text.resize(len, 0)?;
    let is_encoded = hex::encode_to_slice(bytes, text.as_mut_slice()).is_ok();
    prove!(is_encoded);
    Ok(())
}

//! A sequence of items in (RFC 8742), their answers out.

ghost use Rattle.std.specs.Prelude.{◌≡◌, ◌++◌, ◌∷◌, ℕ, List, [], IfOk, IfErr, OnOk};
ghost use Rattle.std.specs.Prelude.{string_bytes};
ghost use Rattle.cbor_model.specs.Canonical.{IsStorable};
ghost use Rattle.serde_cbor.specs.Error.{IsOutOfMemory};
ghost use Rattle.serde_cbor.specs.Gives.{Gave};
ghost use Rattle.serde_cbor.specs.View.{view};
ghost use Rattle.cbor_tool.specs.Sequence.{AnswersSequence, IsShown, StopsSequence};
ghost use Rattle.cbor_tool.specs.SequenceSteps.{AppendsAnswer, FailsAnswering};

use crate::program::write_all;
use cbor_diagnostic::{to_diagnostic, to_diagnostic_pretty};
use serde_cbor::de::{item_refused_first, item_taken};
use serde_cbor::{Deserializer, Result, Value, to_vec};
use std::alloc::Global;
use std::io;

/// What is answered to an item.
#[derive(Clone, Copy)]
pub enum Form {
    /// Its canonical encoding, as bytes.
    Canonical,
    /// A line in diagnostic notation (RFC 8949, section 8).
    Notation,
    /// The same, with each item of an array and each pair of a map on a line of its own.
    PrettyNotation,
}

/// Answers each item of the sequence that the reader gives.
///
/// An answer is written, and flushed, before the byte that follows its item is taken. The run stops
/// at the first item that isn't acceptable, at the first fault of the reader or of the writer, and
/// where memory runs out.
pub fn run_sequence<R: io::Read + Drop, W: io::Write>(
    form: Form,
    alloc: Global,
    reader: R,
    writer: &mut W,
) -> Result<()>
    // Of a reader that reports its bytes, fewer than 2^64: they were a sequence of acceptable
    // items, each of which was answered.
    ensures answers { OnOk result ((input : List ℕ) → Gave (R.remaining reader) input
        → AnswersSequence form input (W.contents writer.old) (W.contents writer.new)) }
    // Or why it stopped, and what was written.
    ensures stopped { IfErr result (λ e. (input : List ℕ) → Gave (R.remaining reader) input
        → StopsSequence form e input (W.contents writer.old) (W.contents writer.new)) }
{
    item_taken::<Value>();
    item_refused_first::<Value>();
    let mut stream = Deserializer::from_reader(alloc, reader).into_iter::<Value>();
    'items: while let Some(next) = stream.next() {
        let item = match next {
            Ok(item) => item,
            Err(error) => return Err(error),
        };
        if let Err(error) = answer_item(form, alloc, item, writer) {
            return Err(error);
        }
    }
    Ok(())
}

// Writes the answer to an item of this value, and drops it.
fn answer_item<W: io::Write>(form: Form, alloc: Global, item: Value, writer: &mut W) -> Result<()>
    ensures ok { OnOk result (AppendsAnswer form (view item)
        (W.contents writer.old) (W.contents writer.new)) }
    ensures err { IfErr result (λ e. IsStorable (view item) → FailsAnswering form (view item) e
        (W.contents writer.old) (W.contents writer.new)) }
{
    answer_value(form, alloc, &item, writer)
}

// Writes the answer to an item of this value.
fn answer_value<W: io::Write>(
    form: Form,
    alloc: Global,
    value: &Value,
    writer: &mut W,
) -> Result<()>
    ensures ok { OnOk result (AppendsAnswer form (view value.now)
        (W.contents writer.old) (W.contents writer.new)) }
    ensures err { IfErr result (λ e. IsStorable (view value.now) → FailsAnswering form
        (view value.now) e (W.contents writer.old) (W.contents writer.new)) }
{
    let answer = answer_to(form, alloc, value)?;
    write_all(writer, &answer)?;
    writer.flush()?;
    Ok(())
}

// The answer to an item of this value.
fn answer_to(form: Form, alloc: Global, value: &Value) -> Result<Vec<u8>>
    ensures ok { IfOk result (λ bytes. IsShown form (view value.now) bytes.items) }
    ensures err { IfErr result (λ e. IsStorable (view value.now) → IsOutOfMemory e) }
{
    match form {
        Form::Canonical => to_vec(alloc, value),
        Form::Notation => line(to_diagnostic(alloc, value)?),
        Form::PrettyNotation => line(to_diagnostic_pretty(alloc, value)?),
    }
}

// The text, and the end of its line.
fn line(text: String) -> Result<Vec<u8>>
    ensures ok { IfOk result (λ bytes. bytes.items ≡ string_bytes text ++ 0x0a ∷ []) }
    ensures err { IfErr result IsOutOfMemory }
{
    let mut bytes = text.into_bytes();
    bytes.push(b'\n')?;
    Ok(bytes)
}

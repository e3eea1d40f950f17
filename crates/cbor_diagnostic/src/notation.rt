//! The notation of a value, and of what lies inside it.

ghost use Rattle.std.specs.Prelude.{◌≡◌, true, IfOk, IfErr, OnOk, string_bytes};
ghost use Rattle.cbor_model.specs.Plain as plain;
ghost use Rattle.cbor_io.specs.Error.{IsOutOfMemory};
ghost use Rattle.cbor_value.specs.View.{view, views, map_view, pair_views};
ghost use Rattle.cbor_diagnostic.specs.Notation.{IsNotation, AreItems, ArePairs, IsPair};
ghost use Rattle.cbor_diagnostic.specs.Prints.{Prints};

use crate::layout::{close, inner_indent, write_lead};
use crate::scalars::{write_bool, write_bytes, write_float, write_integer, write_text};
use cbor_io::error;
use cbor_value::{Map, Value};
use std::alloc::{AllocError, Global};
use std::fmt;
use std::fmt::Write;

/// The value's notation as a text of its own.
pub(crate) fn to_text(alloc: Global, value: &Value, indent: Option<usize>) -> error::Result<String>
    ensures notation { IfOk result (λ text.
        IsNotation indent (view value.now) (string_bytes text)) }
    ensures memory { IfErr result IsOutOfMemory }
{
    let mut text = String::new(alloc);
    match write_value(value, indent, &mut text) {
        Ok(()) => Ok(text),
        Err(_) => Err(AllocError.into()),
    }
}

/// Writes the value's notation.
#[cycle(value)]
pub(crate) fn write_value<W: Write>(
    value: &Value,
    indent: Option<usize>,
    out: &mut W,
) -> fmt::Result
    ensures { OnOk result
        (Prints W.write_str_gives (IsNotation indent (view value.now)) out.old out.new) }
{
    match value {
        Value::Null => out.write_str("null"),
        Value::Bool(b) => write_bool(*b, out),
        Value::Integer(i) => write_integer(*i, out),
        Value::Float(float) => write_float(float.to_f64(), out),
        Value::Bytes(bytes) => write_bytes(bytes, out),
        Value::Text(text) => write_text(text, out),
        Value::Array(items) => write_array(items, indent, out),
        Value::Map(map) => write_map(map, indent, out),
        Value::Tag(tag, inner) => write_tag(*tag, inner, indent, out),
    }
}

#[cycle(value)]
fn write_tag<W: Write>(tag: u64, inner: &Value, indent: Option<usize>, out: &mut W) -> fmt::Result
    ensures { OnOk result (Prints W.write_str_gives
        (IsNotation indent (plain.tag tag (view inner.now))) out.old out.new) }
{
    write!(out, "{tag}(")?;
    write_value(inner, indent, out)?;
    out.write_str(")")
}

#[cycle(value)]
fn write_array<W: Write>(items: &[Value], indent: Option<usize>, out: &mut W) -> fmt::Result
    ensures { OnOk result (Prints W.write_str_gives
        (IsNotation indent (plain.array (views items.now))) out.old out.new) }
{
    let inside = inner_indent(indent)?;
    out.write_str("[")?;
    write_items(items, inside, out)?;
    close(items.is_empty(), indent, "]", out)
}

// Writes values one after the other.
#[cycle(value)]
#[tactic(auto, using(cbor_value::proofs::facts::Sizes::size_at))]
fn write_items<W: Write>(items: &[Value], indent: Option<usize>, out: &mut W) -> fmt::Result
    ensures { OnOk result (Prints W.write_str_gives
        (AreItems indent true (views items.now)) out.old out.new) }
{
    let mut is_first = true;
    for item in items {
        write_lead(is_first, indent, out)?;
        write_value(item, indent, out)?;
        is_first = false;
    }
    Ok(())
}

#[cycle(value)]
fn write_map<W: Write>(map: &Map, indent: Option<usize>, out: &mut W) -> fmt::Result
    ensures { OnOk result (Prints W.write_str_gives
        (IsNotation indent (plain.map (map_view map.now))) out.old out.new) }
{
    let inside = inner_indent(indent)?;
    out.write_str("{")?;
    write_pairs(map.iter().as_slice(), inside, out)?;
    close(map.is_empty(), indent, "}", out)
}

// Writes pairs one after the other.
#[cycle(value)]
#[tactic(auto, using(cbor_value::proofs::facts::Sizes::pair_size_at))]
fn write_pairs<W: Write>(
    pairs: &[(Value, Value)],
    indent: Option<usize>,
    out: &mut W,
) -> fmt::Result
    ensures { OnOk result (Prints W.write_str_gives
        (ArePairs indent true (pair_views pairs.now)) out.old out.new) }
{
    let mut is_first = true;
    for pair in pairs {
        write_lead(is_first, indent, out)?;
        write_pair(&pair.0, &pair.1, indent, out)?;
        is_first = false;
    }
    Ok(())
}

#[cycle(value)]
fn write_pair<W: Write>(
    key: &Value,
    value: &Value,
    indent: Option<usize>,
    out: &mut W,
) -> fmt::Result
    ensures { OnOk result (Prints W.write_str_gives
        (IsPair indent (view key.now) (view value.now)) out.old out.new) }
{
    write_value(key, indent, out)?;
    out.write_str(": ")?;
    write_value(value, indent, out)
}

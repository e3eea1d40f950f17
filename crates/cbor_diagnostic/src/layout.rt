//! Where lines are broken: `indent` is `None` for all on one line, and otherwise how many steps of
//! two blanks a line begins with.

ghost use Rattle.std.specs.Prelude.{◌≡◌, ◌++◌, IfOk, OnOk};
ghost use Rattle.std.specs.Fmt.{WritesInCalls};
ghost use Rattle.cbor_diagnostic.specs.Layout.{blanks, inner_indent, line_start, comma, lead, closing};

use std::fmt;
use std::fmt::Write;

/// The indent of what lies inside. It is refused past 2^64 - 1 steps, which no program reaches.
pub(crate) fn inner_indent(indent: Option<usize>) -> Result<Option<usize>, fmt::Error>
    ensures { IfOk result (λ inside. inside ≡ inner_indent indent) }
{
    match indent {
        None => Ok(None),
        Some(usize::MAX) => Err(fmt::Error),
        Some(steps) => Ok(Some(steps + 1)),
    }
}

// Begins a line.
fn start_line<W: Write>(indent: Option<usize>, out: &mut W) -> fmt::Result
    ensures { OnOk result (WritesInCalls W.write_str_gives out.old (line_start indent) out.new) }
{
    match indent {
        None => Ok(()),
        Some(steps) => {
            out.write_str("\n")?;
            write_blanks(steps, out)
        }
    }
}

// Writes so many steps of blanks.
fn write_blanks<W: Write>(steps: usize, out: &mut W) -> fmt::Result
    ensures { OnOk result (WritesInCalls W.write_str_gives out.old (blanks steps) out.new) }
{
    for step in 0..steps {
        out.write_str("  ")?;
    }
    Ok(())
}

/// Writes what stands before an item or a pair.
pub(crate) fn write_lead<W: Write>(
    is_first: bool,
    indent: Option<usize>,
    out: &mut W,
) -> fmt::Result
    ensures { OnOk result (WritesInCalls W.write_str_gives out.old (lead indent is_first) out.new) }
{
    write_comma(is_first, indent, out)?;
    start_line(indent, out)
}

// Writes what parts an item from the one before it.
fn write_comma<W: Write>(is_first: bool, indent: Option<usize>, out: &mut W) -> fmt::Result
    ensures { OnOk result (WritesInCalls W.write_str_gives out.old (comma indent is_first) out.new) }
{
    if is_first {
        return Ok(());
    }
    match indent {
        None => out.write_str(", "),
        Some(_) => out.write_str(","),
    }
}

/// Writes what stands after the last item or pair, and the bracket.
pub(crate) fn close<W: Write>(
    is_empty: bool,
    indent: Option<usize>,
    bracket: &str,
    out: &mut W,
) -> fmt::Result
    ensures { OnOk result (WritesInCalls W.write_str_gives out.old
        (closing indent is_empty ++ bracket.now) out.new) }
{
    end_items(is_empty, indent, out)?;
    out.write_str(bracket)
}

// Begins the line of the bracket, unless there are no items.
fn end_items<W: Write>(is_empty: bool, indent: Option<usize>, out: &mut W) -> fmt::Result
    ensures { OnOk result (WritesInCalls W.write_str_gives out.old (closing indent is_empty) out.new) }
{
    if is_empty {
        return Ok(());
    }
    start_line(indent, out)
}

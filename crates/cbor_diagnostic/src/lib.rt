//! Values as a person reads them: diagnostic notation (RFC 8949, section 8).
//!
//! [`Diagnostic`] shows a [`Value`] where a program prints, and [`to_diagnostic`] and
//! [`to_diagnostic_pretty`] return the text. `specs/Notation.antt` says which text that is.
//!
//! It names the values of `cbor_value`, the error of `cbor_io`, the trees of `cbor_model`, and the
//! kit's `ryu`.
#![tactic(auto)]

mod layout;
mod notation;
mod scalars;

ghost use Rattle.std.specs.Prelude.{IfOk, IfErr, OnOk, None, string_bytes};
ghost use Rattle.std.specs.Fmt.{IsPlainFormatter, DisplaysOnOk, DisplaysStyledOnOk};
ghost use Rattle.cbor_io.specs.Error.{IsOutOfMemory};
ghost use Rattle.cbor_value.specs.View.{view};
ghost use Rattle.cbor_diagnostic.specs.Notation.{IsNotation, pretty};
ghost use Rattle.cbor_diagnostic.specs.Prints.{Shows};

use crate::notation::{to_text, write_value};
use cbor_io::error::Result;
use cbor_value::Value;
use std::alloc::Global;
use std::fmt;

/// A value, to be shown in diagnostic notation: `{}` writes it on one line, and `{:#}` each item of
/// an array and each pair of a map on a line of its own, indented by two blanks a level.
///
/// The text is as [`to_diagnostic`] describes it. Showing takes no memory, and is refused only
/// where the writer refuses it. What `{}` writes is proved; what `{:#}` writes is tested.
///
/// ```rust
/// let value = Value::Tag(1, Box::new(alloc, Value::Integer(-7))?);
/// assert_eq!(rt; format!(in alloc; "{}", Diagnostic(&value))?.as_str(), "1(-7)");
/// ```
#[derive(Clone, Copy, Debug)]
pub struct Diagnostic<'a>(
    /// What is shown.
    pub &'a Value,
);

impl fmt::Display for Diagnostic<'_> {
    fn fmt<W: fmt::Write>(&self, f: &mut fmt::Formatter<W>) -> fmt::Result
        ensures writes { DisplaysOnOk W.write_str_gives f.old result None f.new }
        ensures styled { DisplaysStyledOnOk W.write_str_gives f.old result None f.new }
        // What `{}` writes is a notation on one line.
        ensures notation { IsPlainFormatter f.old → OnOk result
            (Shows W.write_str_gives (IsNotation None (view self.now.0.now)) f.old f.new) }
    {
        let indent = if f.alternate() { Some(0) } else { None };
        write_value(self.0, indent, f)
    }
}

/// The value in diagnostic notation (RFC 8949, section 8), on one line.
///
/// - Integers are in decimal.
/// - A float is the shortest decimal numeral that reads back as its number, whatever its width,
///   with a point: `1.0`, `5.960464477539063e-8`, `1.0e+300`. Else it is `NaN`, `Infinity` or
///   `-Infinity`.
/// - A byte string is `h'0102'`.
/// - A text string is in quotes, with the escapes of JSON where a character is a quote, a backslash
///   or a control character (U+0000 to U+001F and U+007F to U+009F). Other characters stay.
/// - Arrays are `[1, 2]`, maps `{"a": 1, 2: 3}` in the order of their keys, and a tag is
///   `1(1363896240)`.
/// - False, true and null are the words. A value has no undefined.
///
/// Widths and indefinite lengths, which a value doesn't keep, aren't shown.
///
/// That a float's numeral reads back, and that it has a point, is proved; that it is the shortest
/// is tested.
///
/// Returns `OutOfMemory` where there is no memory for the text.
///
/// ```rust
/// let mut map = Map::new(alloc);
/// map.insert(Value::Text("a".to_owned(alloc)?), Value::from(1.5))?;
/// let value = Value::Array(vec![in alloc; Value::Map(map), Value::Null]?);
/// assert_eq!(rt; to_diagnostic(alloc, &value)?.as_str(), "[{\"a\": 1.5}, null]");
/// ```
pub fn to_diagnostic(alloc: Global, value: &Value) -> Result<String>
    ensures notation { IfOk result (λ text. IsNotation None (view value.now) (string_bytes text)) }
    ensures memory { IfErr result IsOutOfMemory }
{
    to_text(alloc, value, None)
}

/// The value in diagnostic notation as by [`to_diagnostic`], with each item of an array and each
/// pair of a map on a line of its own, indented by two blanks a level.
///
/// Returns `OutOfMemory` where there is no memory for the text.
///
/// ```rust
/// let value = Value::Array(vec![in alloc; Value::Integer(1), Value::Integer(2)]?);
/// assert_eq!(rt; to_diagnostic_pretty(alloc, &value)?.as_str(), "[\n  1,\n  2\n]");
/// ```
pub fn to_diagnostic_pretty(alloc: Global, value: &Value) -> Result<String>
    ensures notation { IfOk result (λ text. IsNotation pretty (view value.now) (string_bytes text)) }
    ensures memory { IfErr result IsOutOfMemory }
{
    to_text(alloc, value, Some(0))
}

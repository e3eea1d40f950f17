//! What holds no other values: integers, floats, byte strings and texts.

ghost use Rattle.std.specs.Prelude.{◌≡◌, ◌<◌, ◌∷◌, ◌++◌, false, None, IsTrue, OnOk, codes};
ghost use Rattle.std.specs.Prelude.{if◌then◌else◌};
ghost use Rattle.std.specs.Char.{encode_utf8};
ghost use Rattle.std.specs.Float.{float_is_finite};
ghost use Rattle.std.specs.Fmt.{WritesInCalls, signed_decimal, digit_glyph};
ghost use Rattle.cbor_diagnostic.specs.Texts.{hex, hex_byte, byte_string, escape_letter, escaped};
ghost use Rattle.cbor_diagnostic.specs.Texts.{escaped_with, all_escaped, quoted};
ghost use Rattle.cbor_diagnostic.specs.Numerals.{IsFloatNotation, IsNumeralOf};
ghost use Rattle.cbor_diagnostic.specs.Prints.{Prints};

use ryu::Buffer;
use std::fmt;
use std::fmt::Write;

/// Writes an integer in decimal.
pub(crate) fn write_integer<W: Write>(i: i128, out: &mut W) -> fmt::Result
    ensures { OnOk result (WritesInCalls W.write_str_gives out.old (signed_decimal i) out.new) }
{
    write!(out, "{i}")
}

/// Writes false or true.
pub(crate) fn write_bool<W: Write>(b: bool, out: &mut W) -> fmt::Result
    ensures { OnOk result (WritesInCalls W.write_str_gives out.old
        (if b then codes "true" else codes "false") out.new) }
{
    write!(out, "{b}")
}

/// Writes a byte string in hexadecimal, as `h'0102'`.
pub(crate) fn write_bytes<W: Write>(bytes: &[u8], out: &mut W) -> fmt::Result
    ensures { OnOk result (WritesInCalls W.write_str_gives out.old (byte_string bytes.now) out.new) }
{
    out.write_str("h'")?;
    write_hex(bytes, out)?;
    out.write_str("'")
}

// Writes two digits for each byte.
fn write_hex<W: Write>(bytes: &[u8], out: &mut W) -> fmt::Result
    ensures { OnOk result (WritesInCalls W.write_str_gives out.old (hex bytes.now) out.new) }
{
    for byte in bytes {
        write_byte(*byte, out)?;
    }
    Ok(())
}

fn write_byte<W: Write>(byte: u8, out: &mut W) -> fmt::Result
    ensures { OnOk result (WritesInCalls W.write_str_gives out.old (hex_byte byte) out.new) }
{
    out.write_char(hex_digit(byte / 16))?;
    out.write_char(hex_digit(byte % 16))
}

// The digit, in lower case.
fn hex_digit(n: u8) -> char
    requires { n < 16 }
    ensures value { result ≡ digit_glyph false n }
    ensures ascii { result < 128 }
{
    if n < 10 {
        (b'0' + n) as char
    } else {
        (b'a' + (n - 10)) as char
    }
}

/// Writes a text in quotes, with the escapes of JSON.
pub(crate) fn write_text<W: Write>(text: &str, out: &mut W) -> fmt::Result
    ensures { OnOk result (WritesInCalls W.write_str_gives out.old (quoted text.now) out.new) }
{
    out.write_str("\"")?;
    write_chars(text, out)?;
    out.write_str("\"")
}

// Writes the characters of a text, escaped.
fn write_chars<W: Write>(text: &str, out: &mut W) -> fmt::Result
    ensures { OnOk result (WritesInCalls W.write_str_gives out.old (all_escaped text.now) out.new) }
{
    for c in text.chars() {
        write_char(c, out)?;
    }
    Ok(())
}

// Writes a character, or the escape that stands for it.
fn write_char<W: Write>(c: char, out: &mut W) -> fmt::Result
    ensures { OnOk result (WritesInCalls W.write_str_gives out.old (escaped c) out.new) }
{
    match escape_letter(c) {
        Some(letter) => write_short_escape(letter, out),
        None => write_other(c, out),
    }
}

// What stands for the character after a backslash, if it has an escape of two characters.
fn escape_letter(c: char) -> Option<char>
    ensures { result ≡ escape_letter c }
{
    match c {
        '"' => Some('"'),
        '\\' => Some('\\'),
        '\u{8}' => Some('b'),
        '\t' => Some('t'),
        '\n' => Some('n'),
        '\u{c}' => Some('f'),
        '\r' => Some('r'),
        _ => None,
    }
}

fn write_short_escape<W: Write>(letter: char, out: &mut W) -> fmt::Result
    ensures { OnOk result (WritesInCalls W.write_str_gives out.old
        (92 ∷ encode_utf8 letter) out.new) }
{
    out.write_str("\\")?;
    out.write_char(letter)
}

// Writes a character that has no such escape.
fn write_other<W: Write>(c: char, out: &mut W) -> fmt::Result
    ensures { OnOk result (WritesInCalls W.write_str_gives out.old (escaped_with None c) out.new) }
{
    if c.is_control() {
        write_code(c as u8, out)
    } else {
        out.write_char(c)
    }
}

fn write_code<W: Write>(code: u8, out: &mut W) -> fmt::Result
    ensures { OnOk result (WritesInCalls W.write_str_gives out.old
        (codes "\\u00" ++ hex_byte code) out.new) }
{
    out.write_str("\\u00")?;
    write_byte(code, out)
}

/// Writes the number of a float.
pub(crate) fn write_float<W: Write>(x: f64, out: &mut W) -> fmt::Result
    ensures { OnOk result (Prints W.write_str_gives (IsFloatNotation x) out.old out.new) }
{
    if x.is_finite() {
        write_finite(x, out)
    } else if x.is_nan() {
        out.write_str("NaN")
    } else if x.is_sign_negative() {
        out.write_str("-Infinity")
    } else {
        out.write_str("Infinity")
    }
}

// Writes a numeral that reads back as the number. One of a digit and an exponent, as `1e+300`, is
// given a point.
fn write_finite<W: Write>(x: f64, out: &mut W) -> fmt::Result
    requires { IsTrue (float_is_finite x) }
    ensures { OnOk result (Prints W.write_str_gives (IsNumeralOf x) out.old out.new) }
{
    let mut buffer = Buffer::new();
    let numeral = buffer.format_finite_with_plus(x);
    if numeral.contains('.') {
        return out.write_str(numeral);
    }
    match numeral.split_once('e') {
        Some(parts) => write_with_point(parts.0, parts.1, out),
        None => unreachable!(),
    }
}

fn write_with_point<W: Write>(digit: &str, exponent: &str, out: &mut W) -> fmt::Result
    ensures { OnOk result (WritesInCalls W.write_str_gives out.old
        (digit.now ++ (codes ".0e" ++ exponent.now)) out.new) }
{
    write!(out, "{digit}.0e{exponent}")
}

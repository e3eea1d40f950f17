//! What an item is written as.

ghost use Rattle.std.specs.Prelude.{◌≡◌, ◌<◌, ◌++◌, length, IfErr, OnOk, true};
ghost use Rattle.cbor_model.specs.Head.{short};
ghost use Rattle.cbor_io.specs.Head.{major_number};
ghost use Rattle.cbor_serde_ser.specs.Document.{string, name_bytes, is_bytes, is_text};
ghost use Rattle.cbor_serde_ser.specs.Document.{stored, Stored};
ghost use Rattle.cbor_serde_ser.specs.FloatBytes.{encoded_bytes};
ghost use Rattle.cbor_serde_ser.specs.State.{MayNot};
ghost use Rattle.cbor_serde_ser.specs.declared.reason.Reason.TheVariants.{OutOfMemory};

use crate::float::Encoded;
use crate::reason::{Reason, Step};
use crate::written::{Appended, Written};
use cbor_io::head::Major;
use cbor_serde_options::number_of;

/// Appends a piece.
#[inline(always)]
pub(crate) fn put(out: &mut Written, piece: &[u8]) -> Appended
    ensures { OnOk result (out.new ≡ out.old ++ piece.now) }
{
    out.put(piece)
}

/// Appends the shortest head of the major type with this number.
#[inline(always)]
pub(crate) fn put_head(out: &mut Written, major: Major, n: u64) -> Appended
    ensures { OnOk result (out.new ≡ out.old ++ short (major_number major) n) }
{
    let first = major.number() * 32;
    if n < 24 {
        put(out, &[first + n as u8])
    } else if n < 1 << 8 {
        put(out, &[first + 24, n as u8])
    } else if n < 1 << 16 {
        let [a, b] = (n as u16).to_be_bytes();
        put(out, &[first + 25, a, b])
    } else if n < 1 << 32 {
        let [a, b, c, d] = (n as u32).to_be_bytes();
        put(out, &[first + 26, a, b, c, d])
    } else {
        let [a, b, c, d, e, f, g, h] = n.to_be_bytes();
        put(out, &[first + 27, a, b, c, d, e, f, g, h])
    }
}

// What a slice holds are bytes, fewer than 2^64.
#[inline(always)]
#[tactic(auto, using(crate::proofs::StringsInMemory::bytes_pass))]
fn holds_bytes(bytes: &[u8])
    ensures { is_bytes bytes.now ≡ true }
{
    let _ = bytes.len();
}

// What a text holds is UTF-8 besides.
#[inline(always)]
#[tactic(auto, using(crate::proofs::StringsInMemory::text_passes))]
fn holds_text(text: &str)
    ensures { is_text text.now ≡ true }
{
    holds_bytes(text.as_bytes())
}

/// Appends a string: its head, and what it holds.
#[inline(always)]
pub(crate) fn put_string(out: &mut Written, major: Major, content: &[u8]) -> Appended
    ensures content { is_bytes content.now ≡ true }
    ensures appended { OnOk result (out.new ≡ out.old ++ string (major_number major) content.now) }
{
    holds_bytes(content);
    if content.len() < 24 {
        return put_short(out, major, content);
    }
    put_head(out, major, content.len() as u64)?;
    put(out, content)
}

// Appends a string whose head is one byte.
#[inline(always)]
fn put_short(out: &mut Written, major: Major, content: &[u8]) -> Appended
    requires { length content.now < 24 }
    ensures { OnOk result (out.new ≡ out.old ++ string (major_number major) content.now) }
{
    out.put_behind(major.number() * 32 + content.len() as u8, content)
}

/// Appends a text.
pub(crate) fn put_text(out: &mut Written, text: &str) -> Appended
    ensures content { is_text text.now ≡ true }
    ensures appended { OnOk result (out.new ≡ out.old ++ string 3 text.now) }
{
    put_text_inline(out, text)
}

// The same where the text is mostly a name of the program: its head is then known when it's compiled.
#[inline(always)]
fn put_text_inline(out: &mut Written, text: &str) -> Appended
    ensures content { is_text text.now ≡ true }
    ensures appended { OnOk result (out.new ≡ out.old ++ string 3 text.now) }
{
    holds_text(text);
    put_string(out, Major::TextString, text.as_bytes())
}

/// Appends a whole number that CBOR stores, or refuses another.
pub(crate) fn put_integer(out: &mut Written, v: i128) -> Step<()>
    ensures appended { OnOk result (Stored v out.old out.new) }
    ensures refused { IfErr result (MayNot (stored v)) }
{
    if let Ok(n) = u64::try_from(v) {
        put_head(out, Major::UnsignedInteger, n)?;
        return Ok(());
    }
    if let Ok(n) = u64::try_from(-1 - v) {
        put_head(out, Major::NegativeInteger, n)?;
        return Ok(());
    }
    Err(Reason::NotStored)
}

/// Appends a float.
pub(crate) fn put_float(out: &mut Written, v: Encoded) -> Appended
    ensures { OnOk result (out.new ≡ out.old ++ encoded_bytes v) }
{
    match v {
        Encoded::Half(bits) => {
            let [a, b] = bits.to_be_bytes();
            put(out, &[0xf9, a, b])
        }
        Encoded::Single(bits) => {
            let [a, b, c, d] = bits.to_be_bytes();
            put(out, &[0xfa, a, b, c, d])
        }
        Encoded::Double(bits) => {
            let [a, b, c, d, e, f, g, h] = bits.to_be_bytes();
            put(out, &[0xfb, a, b, c, d, e, f, g, h])
        }
    }
}

/// Appends a name, or the integer that it is where that is asked for.
#[inline(always)]
pub(crate) fn put_name(out: &mut Written, name: &str, as_integer: bool) -> Step<()>
    ensures content { is_text name.now ≡ true }
    ensures appended { OnOk result
        (out.new ≡ out.old ++ name_bytes as_integer name.now) }
    ensures refused { IfErr result (λ why. why ≡ OutOfMemory) }
{
    if as_integer {
        return put_key(out, name);
    }
    put_text_inline(out, name)?;
    Ok(())
}

// Appends the integer that a name is, or the name where it is none.
#[inline(never)]
fn put_key(out: &mut Written, name: &str) -> Step<()>
    ensures content { is_text name.now ≡ true }
    ensures appended { OnOk result (out.new ≡ out.old ++ name_bytes true name.now) }
    ensures refused { IfErr result (λ why. why ≡ OutOfMemory) }
{
    holds_text(name);
    match number_of(name) {
        Some(number) => put_integer(out, number),
        None => {
            put_text(out, name)?;
            Ok(())
        }
    }
}

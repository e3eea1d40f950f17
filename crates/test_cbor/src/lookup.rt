//! What a caller knows of a key that is looked up in a map.

ghost use Rattle.std.specs.Prelude.{List, ℕ, IfOk, MatchOption, string_bytes};
ghost use Rattle.cbor_model.specs.Canonical.{IsOrdered};
ghost use Rattle.cbor_value.specs.View.{view};
ghost use Rattle.test_cbor.specs.Lookup.{HasText, IsText, IsUnder};

use serde_cbor::{Value, from_slice};
use std::alloc::{AllocError, Global};
#[cfg(test)]
use std::process::Abort;
#[cfg(test)]
use test_checks::Verdict;

/// The text under a key, where the bytes encode a map that has a text there; else `None`.
pub fn text_under(alloc: Global, bytes: &[u8], key: &str) -> serde_cbor::Result<Option<String>>
    ensures { IfOk result (λ found. MatchOption found
        ((text : List ℕ) → HasText bytes.now key.now text → ⊥)
        (λ text. HasText bytes.now key.now (string_bytes text))) }
{
    let value: Value = from_slice(alloc, bytes)?;
    let key = Value::Text(key.to_owned(alloc)?);
    let found = text_in(&value, &key)?;
    Ok(found)
}

// The text under a key of a map; `None` where the value is no map, or has no text there.
fn text_in(value: &Value, key: &Value) -> Result<Option<String>, AllocError>
    requires { IsOrdered (view value.now) }
    ensures { IfOk result (λ found. MatchOption found
        ((text : List ℕ) → IsUnder (view value.now) (view key.now) text → ⊥)
        (λ text. IsUnder (view value.now) (view key.now) (string_bytes text))) }
{
    match value {
        Value::Map(map) => match map.get(key) {
            Some(found) => text_of(found),
            None => Ok(None),
        },
        _ => Ok(None),
    }
}

// The value, where it is a text.
fn text_of(value: &Value) -> Result<Option<String>, AllocError>
    ensures { IfOk result (λ found. MatchOption found
        ((text : List ℕ) → IsText (view value.now) text → ⊥)
        (λ text. IsText (view value.now) (string_bytes text))) }
{
    match value {
        Value::Text(text) => Ok(Some(text.clone()?)),
        _ => Ok(None),
    }
}

/// This text is under the key, or none.
#[cfg(test)]
fn has_under(
    rt: &impl Abort,
    alloc: Global,
    bytes: &[u8],
    key: &str,
    text: Option<&str>,
) -> Verdict {
    let found = text_under(alloc, bytes, key)?;
    assert!(rt; found.as_ref().map(String::as_str) == text);
    Ok(())
}

// {"b": "x", "a": 1}, and what is no map.
#[test]
fn finds_the_text_under_a_key(rt: HostRuntime) -> Verdict {
    let map = b"\xa2\x61b\x61x\x61a\x01".as_slice();
    for (bytes, key, text) in [
        (map, "b", Some("x")),
        (map, "a", None),
        (map, "c", None),
        (b"\x61b", "b", None),
    ] {
        has_under(&rt, rt.alloc(), bytes, key, text)?;
    }
    Ok(())
}

//! What one row of a test asks. These promise nothing, so that a test of many rows carries no facts
//! from one to the next.

use cbor_de::from_slice;
use cbor_forms::{to_vec_dcbor, to_vec_deterministic, to_vec_length_first};
use cbor_io::error::{Error, ErrorCode};
use cbor_rules::{Departure, Refusal, Rule, Rules, from_slice_with, from_slice_with_tags};
use cbor_ser::to_vec;
use cbor_strict::from_slice_canonical;
use cbor_value::Value;
use std::alloc::Global;
use std::process::Abort;
use std::test::Fail;
use test_checks::Verdict;

// ---- answers

/// What an answer gives that is no refusal.
pub fn value_of<T: Drop>(answer: Result<T, Refusal>) -> Result<T, Fail> {
    match answer {
        Ok(value) => Ok(value),
        Err(Refusal::Unread(e)) => Err(Fail::from(e)),
        Err(Refusal::Departs(_)) => Err(Fail::from("departs")),
    }
}

/// The answer is that this rule is departed from first, at this offset.
pub fn has_departed<T: Drop>(
    rt: &impl Abort,
    answer: Result<T, Refusal>,
    rule: Rule,
    offset: u64,
) -> Verdict {
    match answer {
        Ok(_) => Err(Fail::from("not refused")),
        Err(Refusal::Unread(e)) => Err(Fail::from(e)),
        Err(Refusal::Departs(departure)) => {
            assert_eq!(rt; departure, Departure { rule, offset });
            Ok(())
        }
    }
}

/// The error of an answer that is neither a value nor a departure, nor that memory ran out.
pub fn error_of<T: Drop>(answer: Result<T, Refusal>) -> Result<Error, Fail> {
    match answer {
        Ok(_) => Err(Fail::from("not refused")),
        Err(Refusal::Departs(_)) => Err(Fail::from("departs")),
        Err(Refusal::Unread(e)) => {
            if e.is_memory() {
                return Err(Fail::from(e));
            }
            Ok(e)
        }
    }
}

// ---- rows

/// The bytes keep the rules.
pub fn keeps(alloc: Global, rules: Rules, bytes: &[u8]) -> Verdict {
    value_of(from_slice_with::<Value>(alloc, bytes, rules))?;
    Ok(())
}

/// The bytes depart from this rule first, at this offset.
pub fn departs(
    rt: &impl Abort,
    alloc: Global,
    rules: Rules,
    bytes: &[u8],
    rule: Rule,
    offset: u64,
) -> Verdict {
    has_departed(
        rt,
        from_slice_with::<Value>(alloc, bytes, rules),
        rule,
        offset,
    )
}

/// Each of these keeps the rules.
pub fn all_keep(alloc: Global, rules: Rules, rows: &[&[u8]]) -> Verdict {
    for bytes in rows {
        keeps(alloc, rules, bytes)?;
    }
    Ok(())
}

/// Each of these departs from this rule first, at its offset.
pub fn all_depart(
    rt: &impl Abort,
    alloc: Global,
    rules: Rules,
    rule: Rule,
    rows: &[(&[u8], u64)],
) -> Verdict {
    for (bytes, offset) in rows {
        departs(rt, alloc, rules, bytes, rule, *offset)?;
    }
    Ok(())
}

/// Each of the same keeps these rules.
pub fn all_pass(alloc: Global, rules: Rules, rows: &[(&[u8], u64)]) -> Verdict {
    for (bytes, _) in rows {
        keeps(alloc, rules, bytes)?;
    }
    Ok(())
}

/// What bytes do by some rules.
#[derive(Clone, Copy)]
pub enum Expected {
    /// They keep the rules.
    Keeps,
    /// They depart from this rule first, at this offset.
    Departs(Rule, u64),
}

/// Rules, bytes, and what these do.
pub type Row = (Rules, &'static [u8], Expected);

/// The bytes of each row do what it says.
pub fn judges(rt: &impl Abort, alloc: Global, rows: &[Row]) -> Verdict {
    for (rules, bytes, verdict) in rows {
        match verdict {
            Expected::Keeps => keeps(alloc, *rules, bytes)?,
            Expected::Departs(rule, offset) => departs(rt, alloc, *rules, bytes, *rule, *offset)?,
        }
    }
    Ok(())
}

// ---- tags

const NO_TAGS: Rules = Rules {
    no_tags: true,
    ..Rules::ANY
};

/// The bytes have no tags but these, or another first at this offset.
pub fn has_tags(
    rt: &impl Abort,
    alloc: Global,
    tags: &[u64],
    bytes: &[u8],
    another: Option<u64>,
) -> Verdict {
    let answer = from_slice_with_tags::<Value>(alloc, bytes, NO_TAGS, tags);
    match another {
        Some(offset) => has_departed(rt, answer, Rule::NoTags, offset),
        None => {
            value_of(answer)?;
            Ok(())
        }
    }
}

// ---- what is written

/// A call that writes.
#[derive(Clone, Copy)]
pub enum Form {
    Plain,
    Deterministic,
    LengthFirst,
    Dcbor,
}

fn written(alloc: Global, form: Form, value: &Value) -> cbor_io::error::Result<Vec<u8>> {
    match form {
        Form::Plain => to_vec(alloc, value),
        Form::Deterministic => to_vec_deterministic(alloc, value),
        Form::LengthFirst => to_vec_length_first(alloc, value),
        Form::Dcbor => to_vec_dcbor(alloc, value),
    }
}

/// The value of these bytes is written as those, which keep the rules.
pub fn is_written(
    rt: &impl Abort,
    alloc: Global,
    bytes: &[u8],
    form: Form,
    want: &[u8],
    rules: Rules,
) -> Verdict {
    let value: Value = from_slice(alloc, bytes)?;
    let bytes = written(alloc, form, &value)?;
    assert!(rt; bytes.as_slice() == want);
    keeps(alloc, rules, &bytes)
}

// ---- strict reading

/// Where the bytes depart from the canonical rules, if they do.
fn departs_at(alloc: Global, bytes: &[u8]) -> Result<Option<u64>, Fail> {
    match from_slice_with::<Value>(alloc, bytes, Rules::CANONICAL) {
        Ok(_) => Ok(None),
        Err(Refusal::Unread(e)) => Err(Fail::from(e)),
        Err(Refusal::Departs(departure)) => Ok(Some(departure.offset)),
    }
}

/// Where strict reading finds that they aren't canonical, if it does.
fn strictly_departs_at(alloc: Global, bytes: &[u8]) -> Result<Option<u64>, Fail> {
    match from_slice_canonical(alloc, bytes) {
        Ok(_) => Ok(None),
        Err(e) => {
            let offset = e.offset();
            if matches!(e.code(), ErrorCode::NotCanonical) {
                Ok(Some(offset))
            } else {
                Err(Fail::from(e))
            }
        }
    }
}

/// By the canonical rules the bytes depart where they do for strict reading.
pub fn agrees(rt: &impl Abort, alloc: Global, bytes: &[u8]) -> Verdict {
    let by_rules = departs_at(alloc, bytes)?;
    let strictly = strictly_departs_at(alloc, bytes)?;
    assert!(rt; by_rules == strictly);
    Ok(())
}

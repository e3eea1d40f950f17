//! What a caller knows by the contracts alone: that reading and writing twice changes nothing more,
//! that values stand in the order of their bytes, that two sources answer alike, and what was taken
//! of the bytes.

ghost use Rattle.std.specs.Prelude.{◌≡◌, ◌-◌, ◌^◌, ℕ, List, IfOk, IsTrue};
ghost use Rattle.cbor_model.specs.Acceptable.{max_depth};
ghost use Rattle.cbor_model.specs.Formats.{all_formats};
ghost use Rattle.cbor_model.specs.Readable.{PassesTags, IsFromZero};
ghost use Rattle.serde_cbor.specs.ItemTaken.{BeginsAs};
ghost use Rattle.serde_cbor.specs.Alike.{AreAlike};

use serde_cbor::de::{Deserialize, Deserializer, item_taken, sources_agree};
use serde_cbor::value::Float;
use serde_cbor::{Value, from_slice, from_slice_with_scratch, to_vec};
use std::alloc::{AllocError, Global};
use std::cmp::Ordering;
use std::process::Abort;
use std::test::Fail;
use test_checks::is_refused;

fn text(alloc: Global, text: &str) -> Result<Value, AllocError> {
    Ok(Value::Text(text.to_owned(alloc)?))
}

fn array(alloc: Global, items: &[i128]) -> Result<Value, AllocError> {
    let mut values = Vec::new(alloc);
    for item in items {
        values.push(Value::Integer(*item))?;
    }
    Ok(Value::Array(values))
}

fn tagged_null(alloc: Global, tag: u64) -> Result<Value, AllocError> {
    match Box::new(alloc, Value::Null) {
        Ok(inner) => Ok(Value::Tag(tag, inner)),
        Err(_) => Err(AllocError),
    }
}

/// Each is less than the next (draft-ietf-cbor-7049bis-04, section 4.10): a longer head, another
/// major type, a longer text, more items, greater items, a greater tag, and then major type 7.
fn ascending(alloc: Global) -> Result<Vec<Value>, AllocError> {
    let mut list = vec![in alloc; Value::Integer(23), Value::Integer(24), Value::Integer(-1)]?;
    list.push(text(alloc, "b")?)?;
    list.push(text(alloc, "aa")?)?;
    for items in [&[100][..], &[0, 0], &[23, 0], &[24, 0]] {
        list.push(array(alloc, items)?)?;
    }
    list.push(tagged_null(alloc, 1)?)?;
    list.push(tagged_null(alloc, 24)?)?;
    list.push(Value::Bool(false))?;
    list.push(Value::Null)?;
    list.push(Value::Float(Float::Half(0xffff)))?;
    list.push(Value::Float(Float::Single(0)))?;
    Ok(list)
}

/// The values, each beside its bytes.
fn spelled(alloc: Global, values: Vec<Value>) -> Result<Vec<(Value, Vec<u8>)>, Fail> {
    let mut rows = Vec::new(alloc);
    for value in values {
        let bytes = to_vec(alloc, &value)?;
        rows.push((value, bytes))?;
    }
    Ok(rows)
}

#[test]
fn values_and_their_bytes_stand_in_one_order(rt: HostRuntime) -> Result<(), Fail> {
    let alloc = rt.alloc();
    let rows = spelled(alloc, ascending(alloc)?)?;
    for (i, a) in rows.iter().enumerate() {
        for (j, b) in rows.iter().enumerate() {
            compare_so(&rt, a, b, i.cmp(&j));
        }
    }
    Ok(())
}

/// The values compare so, and so do their bytes.
fn compare_so(rt: &impl Abort, a: &(Value, Vec<u8>), b: &(Value, Vec<u8>), want: Ordering) {
    assert!(rt; a.0.cmp(&b.0) == want);
    assert!(rt; a.1.as_slice().cmp(b.1.as_slice()) == want);
}

/// How two values compare, and how their bytes do: alike, by the contract of `to_vec` alone.
#[tactic(auto, unfolding(cbor_value::specs::View::flat_of))]
fn cmp_both(alloc: Global, a: &Value, b: &Value) -> serde_cbor::Result<(Ordering, Ordering)>
    ensures { IfOk result (λ orders. orders.0 ≡ orders.1) }
{
    let x = to_vec(alloc, a)?;
    let y = to_vec(alloc, b)?;
    Ok((a.cmp(b), x.as_slice().cmp(y.as_slice())))
}

#[test]
fn a_caller_compares_bytes_in_place_of_values(rt: HostRuntime) -> Result<(), Fail> {
    let alloc = rt.alloc();
    let orders = cmp_both(alloc, &Value::Integer(-1), &text(alloc, "b")?)?;
    assert!(rt; orders == (Ordering::Less, Ordering::Less));
    Ok(())
}

/// Whether normalising the bytes a second time changes nothing: it never does.
fn is_normal_after_once(alloc: Global, bytes: &[u8]) -> serde_cbor::Result<bool>
    ensures { IfOk result (λ is_normal. IsTrue is_normal) }
{
    let value: Value = from_slice(alloc, bytes)?;
    let once = to_vec(alloc, &value)?;
    let again: Value = from_slice(alloc, &once)?;
    let twice = to_vec(alloc, &again)?;
    Ok(once.as_slice() == twice.as_slice())
}

// A number in a long head, a chunked text.
#[test]
fn normalises_heads_and_chunks_once(rt: HostRuntime) -> Result<(), Fail> {
    for bytes in [b"\x18\x17".as_slice(), b"\x7f\x61a\x61b\xff"] {
        assert!(rt; is_normal_after_once(rt.alloc(), bytes)?);
    }
    Ok(())
}

// A map of indefinite length, with its keys out of order and one of them said twice.
#[test]
fn normalises_a_map_once(rt: HostRuntime) -> Result<(), Fail> {
    let bytes = b"\xbf\x02\x00\x01\x00\x18\x01\x02\xff";
    assert!(rt; is_normal_after_once(rt.alloc(), bytes)?);
    Ok(())
}

/// What the bytes are read as, without a scratch and with one.
fn read_twice(
    alloc: Global,
    bytes: &[u8],
    scratch: &mut [u8],
) -> (serde_cbor::Result<Value>, serde_cbor::Result<Value>)
    ensures { AreAlike result.0 result.1 }
{
    sources_agree();
    let one = from_slice(alloc, bytes);
    let other = from_slice_with_scratch(alloc, bytes, scratch);
    (one, other)
}

// A text that isn't UTF-8, where an end of input follows.
#[test]
fn two_sources_answer_alike(rt: HostRuntime) -> Result<(), Fail> {
    let alloc = rt.alloc();
    let (one, other) = read_twice(alloc, b"\x82\x62\xc3\x28", &mut []);
    is_refused(one, "invalid UTF-8 at offset 2")?;
    is_refused(other, "invalid UTF-8 at offset 2")
}

/// The number that the bytes begin with: they are the encoding of an item that is such a number,
/// within any tags, and other bytes.
fn first_number(alloc: Global, bytes: &[u8]) -> serde_cbor::Result<u8>
    ensures { IfOk result (λ n. (rest : List ℕ)
        × BeginsAs all_formats max_depth (PassesTags (IsFromZero (2 ^ 8 - 1))) bytes.now n rest) }
{
    item_taken::<u8>();
    let mut de = Deserializer::from_slice(alloc, bytes);
    u8::deserialize(&mut de)
}

// 42 within a tag, in a longer head than it needs, and a break behind it.
#[test]
fn reads_the_number_in_front(rt: HostRuntime) -> Result<(), Fail> {
    assert!(rt; first_number(rt.alloc(), b"\xc1\x19\x00\x2a\xff")? == 42);
    Ok(())
}

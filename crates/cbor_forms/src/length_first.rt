//! The length-first form.

ghost use Rattle.std.specs.Prelude.{◌≡◌, ◌≤◌, ◌++◌, IfOk, IfErr, OnOk};
ghost use Rattle.cbor_model.specs.Acceptable.{max_depth};
ghost use Rattle.cbor_model.specs.Canonical.{canon, canonical, IsStorable, AreStorable};
ghost use Rattle.cbor_model.specs.Canonical.{ArePairsStorable};
ghost use Rattle.cbor_model.specs.Document.{IsStorableDocument};
ghost use Rattle.cbor_model.specs.Head.{short};
ghost use Rattle.cbor_model.specs.Laws.{SpellsValue};
ghost use Rattle.cbor_model.specs.FiniteMap.{put_all};
ghost use Rattle.cbor_model.specs.Plain as plain;
ghost use Rattle.cbor_model.specs.Plain.{bytes, no_pairs};
ghost use Rattle.cbor_model.specs.Raw.{depth};
ghost use Rattle.cbor_io.specs.Error.{IsOutOfMemory};
ghost use Rattle.cbor_io.specs.Head.{major_number};
ghost use Rattle.cbor_value.specs.View.{view, views, map_view, pair_views};
ghost use Rattle.cbor_convert.specs.Meaning.{value_of};
ghost use Rattle.cbor_forms.specs.Shortened.{shortened, KeepsKeys};
ghost use Rattle.cbor_forms.specs.Deterministic.{IsNotWrittenIn};
ghost use Rattle.cbor_forms.specs.FormEncoding.{SpellsAtDepth};
ghost use Rattle.cbor_forms.specs.declared.values.Form.TheVariants.{Core};
ghost use Rattle.cbor_forms.specs.LengthFirst.{length_first, all_length_first, encoded};
ghost use Rattle.cbor_forms.specs.LengthFirst.{content, joined};

use crate::values::shortened;
use cbor_convert::to_value;
use cbor_io::error::Result;
use cbor_io::head::Major;
use cbor_ser::{Serialize, to_writer};
use cbor_value::{Map, Value};
use std::alloc::Global;

/// The length-first encoding of what a value of any type stands for (RFC 8949, section 4.2.3, the
/// canonical form of RFC 7049, section 3.9): that of
/// [`to_vec_deterministic`](crate::to_vec_deterministic), but a map's shorter keys stand before its
/// longer ones, by the lengths of their encodings, and keys of one length in the order of their
/// bytes.
///
/// It refuses what `to_vec_deterministic` refuses. Each map's pairs are put together by themselves,
/// so that what stands within `d` maps, one in another, is copied `d` times.
///
/// ```rust
/// let mut map = BTreeMap::new(alloc);
/// map.insert(100i8, 1u8)?;
/// map.insert(-1, 2)?;
/// let bytes = to_vec_length_first(alloc, &map)?;
/// assert_eq!(rt; bytes.as_slice(), b"\xa2\x20\x02\x18\x64\x01".as_slice());
/// ```
pub fn to_vec_length_first<T: Serialize>(alloc: Global, value: &T) -> Result<Vec<u8>>
    ensures written { IfOk result
        (λ bytes. bytes.items ≡ length_first (shortened (value_of (T.document value.now)))) }
    // Where it nests at most 127 levels it is read as that value, of which each pair is there once.
    ensures read_back { IfOk result (λ bytes.
        depth (canonical (shortened (value_of (T.document value.now)))) ≤ max_depth
        → SpellsValue bytes.items (shortened (value_of (T.document value.now)))) }
    // However deep it nests, the bytes encode one item, of which it is the value.
    ensures encoded { IfOk result
        (λ bytes. SpellsAtDepth bytes.items (shortened (value_of (T.document value.now)))) }
    // Memory aside, it refuses exactly what can't be stored, and keys that become one.
    ensures storable { OnOk result (IsStorableDocument (T.document value.now)) }
    ensures kept { OnOk result (KeepsKeys (value_of (T.document value.now))) }
    ensures refused { IfErr result (IsNotWrittenIn Core
        (IsStorableDocument (T.document value.now)) (KeepsKeys (value_of (T.document value.now)))) }
{
    let value = to_value(alloc, value)?;
    let value = shortened(alloc, &value)?;
    // What is read back: lengths, counts and tag numbers are below 2^64, and texts are UTF-8.
    value.in_memory();
    let mut bytes = Vec::new(alloc);
    append(alloc, &mut bytes, &value)?;
    Ok(bytes)
}

#[cycle(append)]
#[tactic(auto, unfolding(crate::specs::LengthFirst::length_first))]
fn append(alloc: Global, out: &mut Vec<u8>, value: &Value) -> Result<()>
    requires { IsStorable (view value.now) }
    ensures written { OnOk result (out.new.items ≡ out.old.items ++ length_first (view value.now)) }
    ensures memory { IfErr result IsOutOfMemory }
{
    match value {
        Value::Array(items) => append_array(alloc, out, items),
        Value::Map(map) => append_map(alloc, out, map),
        Value::Tag(tag, inner) => append_tag(alloc, out, *tag, inner),
        Value::Null | Value::Bool(_) | Value::Integer(_) => append_leaf(alloc, out, value),
        Value::Float(_) | Value::Bytes(_) | Value::Text(_) => append_leaf(alloc, out, value),
    }
}

fn append_leaf(alloc: Global, out: &mut Vec<u8>, value: &Value) -> Result<()>
    requires { IsStorable (view value.now) }
    ensures written { OnOk result (out.new.items ≡ out.old.items ++ canon (view value.now)) }
    ensures memory { IfErr result IsOutOfMemory }
{
    to_writer(alloc, out, value)
}

#[cycle(append)]
fn append_tag(alloc: Global, out: &mut Vec<u8>, tag: u64, inner: &Value) -> Result<()>
    requires { IsStorable (view inner.now) }
    ensures written { OnOk result
        (out.new.items ≡ out.old.items ++ length_first (plain.tag tag (view inner.now))) }
    ensures memory { IfErr result IsOutOfMemory }
{
    append_head(out, Major::Tag, tag)?;
    append(alloc, out, inner)
}

#[cycle(append)]
fn append_array(alloc: Global, out: &mut Vec<u8>, items: &[Value]) -> Result<()>
    requires { AreStorable (views items.now) }
    ensures written { OnOk result
        (out.new.items ≡ out.old.items ++ length_first (plain.array (views items.now))) }
    ensures memory { IfErr result IsOutOfMemory }
{
    append_head(out, Major::Array, items.len() as u64)?;
    append_items(alloc, out, items)
}

#[cycle(append)]
#[tactic(auto, using(cbor_value::proofs::facts::Sizes::size_at))]
fn append_items(alloc: Global, out: &mut Vec<u8>, items: &[Value]) -> Result<()>
    requires { AreStorable (views items.now) }
    ensures written { OnOk result
        (out.new.items ≡ out.old.items ++ all_length_first (views items.now)) }
    ensures memory { IfErr result IsOutOfMemory }
{
    for item in items {
        append(alloc, out, item)?;
    }
    Ok(())
}

#[cycle(append)]
fn append_map(alloc: Global, out: &mut Vec<u8>, map: &Map) -> Result<()>
    requires { ArePairsStorable (map_view map.now) }
    ensures written { OnOk result
        (out.new.items ≡ out.old.items ++ length_first (plain.map (map_view map.now))) }
    ensures memory { IfErr result IsOutOfMemory }
{
    append_head(out, Major::Map, map.len() as u64)?;
    let pairs = encode_pairs(alloc, map.iter().as_slice())?;
    let sorted = in_order(pairs)?;
    append_pairs(out, &sorted)
}

// The pairs by their keys: byte strings are ordered by their lengths first.
fn in_order(pairs: Vec<(Value, Value)>) -> Result<Vec<(Value, Value)>>
    ensures sorted { IfOk result
        (λ v. pair_views v.items ≡ put_all (pair_views pairs.items) no_pairs) }
    ensures memory { IfErr result IsOutOfMemory }
{
    let sorted = Map::from_pairs(pairs)?;
    Ok(sorted.into_pairs())
}

// Keys and values, each as the byte string of its encoding.
#[cycle(append)]
#[tactic(auto, using(cbor_value::proofs::facts::Sizes::pair_size_at))]
fn encode_pairs(alloc: Global, pairs: &[(Value, Value)]) -> Result<Vec<(Value, Value)>>
    requires { ArePairsStorable (pair_views pairs.now) }
    ensures encoded { IfOk result (λ v. pair_views v.items ≡ encoded (pair_views pairs.now)) }
    ensures memory { IfErr result IsOutOfMemory }
{
    let mut strings = Vec::new(alloc);
    for pair in pairs {
        let pair = encode_pair(alloc, &pair.0, &pair.1)?;
        strings.push(pair)?;
    }
    Ok(strings)
}

#[cycle(append)]
fn encode_pair(alloc: Global, key: &Value, value: &Value) -> Result<(Value, Value)>
    requires { IsStorable (view key.now) × IsStorable (view value.now) }
    ensures key { IfOk result (λ p. view p.0 ≡ bytes (length_first (view key.now))) }
    ensures value { IfOk result (λ p. view p.1 ≡ bytes (length_first (view value.now))) }
    ensures memory { IfErr result IsOutOfMemory }
{
    let mut key_bytes = Vec::new(alloc);
    append(alloc, &mut key_bytes, key)?;
    let mut value_bytes = Vec::new(alloc);
    append(alloc, &mut value_bytes, value)?;
    Ok((Value::Bytes(key_bytes), Value::Bytes(value_bytes)))
}

// Appends what the byte strings of the pairs hold.
fn append_pairs(out: &mut Vec<u8>, pairs: &[(Value, Value)]) -> Result<()>
    ensures written { OnOk result
        (out.new.items ≡ out.old.items ++ joined (pair_views pairs.now)) }
    ensures memory { IfErr result IsOutOfMemory }
{
    for pair in pairs {
        append_content(out, &pair.0)?;
        append_content(out, &pair.1)?;
    }
    Ok(())
}

fn append_content(out: &mut Vec<u8>, value: &Value) -> Result<()>
    ensures written { OnOk result (out.new.items ≡ out.old.items ++ content (view value.now)) }
    ensures memory { IfErr result IsOutOfMemory }
{
    if let Value::Bytes(bytes) = value {
        out.extend_from_slice(bytes)?;
    }
    Ok(())
}

// Appends the shortest head.
fn append_head(out: &mut Vec<u8>, major: Major, n: u64) -> Result<()>
    ensures written { OnOk result
        (out.new.items ≡ out.old.items ++ short (major_number major) n) }
    ensures memory { IfErr result IsOutOfMemory }
{
    let first = major.number() * 32;
    if n < 24 {
        out.push(first + n as u8)?;
    } else if n < 1 << 8 {
        out.extend_from_slice(&[first + 24, n as u8])?;
    } else if n < 1 << 16 {
        let [a, b] = (n as u16).to_be_bytes();
        out.extend_from_slice(&[first + 25, a, b])?;
    } else if n < 1 << 32 {
        let [a, b, c, d] = (n as u32).to_be_bytes();
        out.extend_from_slice(&[first + 26, a, b, c, d])?;
    } else {
        let [a, b, c, d, e, f, g, h] = n.to_be_bytes();
        out.extend_from_slice(&[first + 27, a, b, c, d, e, f, g, h])?;
    }
    Ok(())
}

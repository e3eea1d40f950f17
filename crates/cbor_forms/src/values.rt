//! Values with each number as a form writes it.

ghost use Rattle.std.specs.Prelude.{◌≡◌, IfOk, IfErr, OnOk};
ghost use Rattle.cbor_model.specs.Plain as plain;
ghost use Rattle.cbor_model.specs.Plain.{integer, no_pairs};
ghost use Rattle.cbor_model.specs.FiniteMap.{put_all};
ghost use Rattle.cbor_value.specs.Floats.{number_of};
ghost use Rattle.cbor_value.specs.View.{view, views, map_view, pair_views};
ghost use Rattle.cbor_forms.specs.Shortened.{Allows, AllowsAll, AllowsPairs, AreDistinct};
ghost use Rattle.cbor_forms.specs.Shortened.{IsIntegerIn, IsNotRewritten, IsReducible, KeepsKeys};
ghost use Rattle.cbor_forms.specs.Shortened.{SaysReason, in_form, reduced, rewritten, shortened};
ghost use Rattle.cbor_forms.specs.Shortened.{all_rewritten, pairs_rewritten};
ghost use Rattle.cbor_forms.specs.declared.values.Form.TheVariants.{Core, Dcbor};

use crate::integers::reduced_number;
use cbor_io::error::{Error, Result};
use cbor_value::{Float, Map, Value};
use std::alloc::Global;

// What numbers are written as.
#[derive(Clone, Copy)]
pub enum Form {
    // Each float at its shortest.
    Core,
    // As dCBOR has them.
    Dcbor,
}

/// The value with each float [`shortened`](Float::shortened), in its keys too.
///
/// Two keys of a map that become equal so, as `1.0` of 16 and of 64 bits, are refused with the
/// message `Two keys of a map are equal with floats at their shortest`. It returns `OutOfMemory`
/// where an allocation fails.
///
/// ```rust
/// let value = shortened(alloc, &Value::from(1.5f64))?;
/// assert_eq!(rt; value, Value::Float(Float::Half(0x3e00)));
/// ```
pub fn shortened(alloc: Global, value: &Value) -> Result<Value>
    ensures shortened { IfOk result (λ v. view v ≡ shortened (view value.now)) }
    // It is refused exactly where two keys of a map become one, memory aside.
    ensures kept { OnOk result (KeepsKeys (view value.now)) }
    ensures refused { IfErr result (IsNotRewritten Core (KeepsKeys (view value.now))) }
{
    rewrite(alloc, Form::Core, value)
}

/// The value with each float as [`reduced_number`](crate::reduced_number()), in its keys too: its
/// numbers are those of dCBOR (draft-mcnally-deterministic-cbor, numeric reduction).
///
/// Two keys of a map that become equal so, as `1` and `1.0`, are refused with the message `Two keys
/// of a map are equal as dCBOR's numbers`, and an integer below -2^63, which dCBOR doesn't have,
/// with `An integer is below -2^63`. It returns `OutOfMemory` where an allocation fails.
///
/// ```rust
/// let value = reduced(alloc, &Value::from(2.0f64))?;
/// assert_eq!(rt; value, Value::Integer(2));
/// ```
pub fn reduced(alloc: Global, value: &Value) -> Result<Value>
    ensures reduced { IfOk result (λ v. view v ≡ reduced (view value.now)) }
    // It is refused exactly where two keys of a map become one or an integer is below -2^63,
    // memory aside.
    ensures reducible { OnOk result (IsReducible (view value.now)) }
    ensures refused { IfErr result (IsNotRewritten Dcbor (IsReducible (view value.now))) }
{
    rewrite(alloc, Form::Dcbor, value)
}

#[cycle(rewrite)]
#[tactic(auto, unfolding(crate::specs::Shortened::rewritten))]
fn rewrite(alloc: Global, form: Form, value: &Value) -> Result<Value>
    ensures rewritten { IfOk result (λ v. view v ≡ rewritten form (view value.now)) }
    ensures allowed { OnOk result (Allows form (view value.now)) }
    ensures refused { IfErr result (IsNotRewritten form (Allows form (view value.now))) }
{
    match value {
        Value::Null => Ok(Value::Null),
        Value::Bool(b) => Ok(Value::Bool(*b)),
        Value::Integer(i) => rewrite_integer(alloc, form, *i),
        Value::Float(float) => Ok(rewrite_float(form, *float)),
        Value::Bytes(bytes) => Ok(Value::Bytes(Vec::from_slice(alloc, bytes)?)),
        Value::Text(text) => Ok(Value::Text(String::from_str(alloc, text)?)),
        Value::Array(items) => Ok(Value::Array(rewrite_items(alloc, form, items)?)),
        Value::Map(map) => Ok(Value::Map(rewrite_map(alloc, form, map)?)),
        Value::Tag(tag, inner) => {
            let inner = rewrite(alloc, form, inner)?;
            Ok(Value::Tag(*tag, Box::new(alloc, inner)?))
        }
    }
}

fn rewrite_integer(alloc: Global, form: Form, i: i128) -> Result<Value>
    ensures same { IfOk result (λ v. view v ≡ integer i) }
    ensures allowed { OnOk result (IsIntegerIn form i) }
    ensures refused { IfErr result (IsNotRewritten form (IsIntegerIn form i)) }
{
    match form {
        Form::Dcbor if i < i64::MIN as i128 => {
            Err(Error::message(alloc, "An integer is below -2^63"))
        }
        _ => Ok(Value::Integer(i)),
    }
}

fn rewrite_float(form: Form, float: Float) -> Value
    ensures { view result ≡ in_form form (number_of float) }
{
    match form {
        Form::Core => Value::Float(float.shortened()),
        Form::Dcbor => reduced_number(float),
    }
}

#[cycle(rewrite)]
#[tactic(auto, using(cbor_value::proofs::facts::Sizes::size_at))]
fn rewrite_items(alloc: Global, form: Form, items: &[Value]) -> Result<Vec<Value>>
    ensures rewritten { IfOk result (λ v. views v.items ≡ all_rewritten form (views items.now)) }
    ensures allowed { OnOk result (AllowsAll form (views items.now)) }
    ensures refused { IfErr result (IsNotRewritten form (AllowsAll form (views items.now))) }
{
    let mut others = Vec::new(alloc);
    for item in items {
        let item = rewrite(alloc, form, item)?;
        others.push(item)?;
    }
    Ok(others)
}

#[cycle(rewrite)]
fn rewrite_map(alloc: Global, form: Form, map: &Map) -> Result<Map>
    ensures rewritten { IfOk result
        (λ m. map_view m ≡ put_all (pairs_rewritten form (map_view map.now)) no_pairs) }
    ensures allowed { OnOk result (Allows form (plain.map (map_view map.now))) }
    ensures refused { IfErr result
        (IsNotRewritten form (Allows form (plain.map (map_view map.now)))) }
{
    let pairs = rewrite_pairs(alloc, form, map.iter().as_slice())?;
    in_order(alloc, form, pairs)
}

#[cycle(rewrite)]
#[tactic(auto, using(cbor_value::proofs::facts::Sizes::pair_size_at))]
fn rewrite_pairs(alloc: Global, form: Form, pairs: &[(Value, Value)]) -> Result<Vec<(Value, Value)>>
    ensures rewritten { IfOk result
        (λ v. pair_views v.items ≡ pairs_rewritten form (pair_views pairs.now)) }
    ensures allowed { OnOk result (AllowsPairs form (pair_views pairs.now)) }
    ensures refused { IfErr result (IsNotRewritten form (AllowsPairs form (pair_views pairs.now))) }
{
    let mut others = Vec::new(alloc);
    for pair in pairs {
        let pair = rewrite_pair(alloc, form, &pair.0, &pair.1)?;
        others.push(pair)?;
    }
    Ok(others)
}

#[cycle(rewrite)]
fn rewrite_pair(alloc: Global, form: Form, key: &Value, value: &Value) -> Result<(Value, Value)>
    ensures key { IfOk result (λ p. view p.0 ≡ rewritten form (view key.now)) }
    ensures value { IfOk result (λ p. view p.1 ≡ rewritten form (view value.now)) }
    ensures allowed { OnOk result (Allows form (view key.now) × Allows form (view value.now)) }
    ensures refused { IfErr result
        (IsNotRewritten form (Allows form (view key.now) × Allows form (view value.now))) }
{
    let key = rewrite(alloc, form, key)?;
    let value = rewrite(alloc, form, value)?;
    Ok((key, value))
}

// The map of these pairs, if no two have one key.
fn in_order(alloc: Global, form: Form, pairs: Vec<(Value, Value)>) -> Result<Map>
    ensures listed { IfOk result (λ m. map_view m ≡ put_all (pair_views pairs.items) no_pairs) }
    ensures distinct { OnOk result (AreDistinct (pair_views pairs.items)) }
    ensures refused { IfErr result (IsNotRewritten form (AreDistinct (pair_views pairs.items))) }
{
    let count = pairs.len();
    let map = Map::from_pairs(pairs)?;
    if map.len() != count {
        return Err(equal_keys(alloc, form));
    }
    Ok(map)
}

// What refuses a map of which two keys become one.
fn equal_keys(alloc: Global, form: Form) -> Error
    ensures { SaysReason form result }
{
    match form {
        Form::Core => Error::message(
            alloc,
            "Two keys of a map are equal with floats at their shortest",
        ),
        Form::Dcbor => Error::message(alloc, "Two keys of a map are equal as dCBOR's numbers"),
    }
}

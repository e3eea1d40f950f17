//! The events that a value sends.

ghost use Rattle.std.specs.Prelude.{◌≡◌, OnOk};
ghost use Rattle.cbor_model.specs.Plain as plain;
ghost use Rattle.cbor_value.specs.View.{float_view, map_view, pair_views, view, views};
ghost use Rattle.cbor_serde_value.specs.Sent.{SendsAll, SendsPair, SendsPairs, SendsValue};

use cbor_value::{Float, Map, Value};
use serde::Serializer;
use std::num::nearest_f64_to_f32_with_nan;

/// Sends a value, but for tags, which are refused.
#[cycle(send)]
pub(crate) fn send<S: Serializer>(value: &Value, out: &mut S) -> Result<(), S::Error>
    ensures { OnOk result (SendsValue (view value.now) (S.written out.old) (S.written out.new)) }
{
    match value {
        Value::Null => out.unit(),
        Value::Bool(b) => out.bool(*b),
        Value::Integer(n) => out.i128(*n),
        Value::Float(float) => send_float(*float, out),
        Value::Bytes(bytes) => out.bytes(bytes),
        Value::Text(text) => out.str(text.as_str()),
        Value::Array(items) => send_array(items, out),
        Value::Map(map) => send_map(map, out),
        Value::Tag(_, _) => Err(out.custom("a tag is no item of serde's")),
    }
}

/// Sends a float: a half as a single, which holds it.
pub(crate) fn send_float<S: Serializer>(float: Float, out: &mut S) -> Result<(), S::Error>
    ensures { OnOk result (SendsValue (float_view float) (S.written out.old) (S.written out.new)) }
{
    let number = float.to_f64();
    match float {
        Float::Double(_) => out.f64(number),
        Float::Half(_) => out.f32(nearest_f64_to_f32_with_nan(number)),
        Float::Single(_) => out.f32(nearest_f64_to_f32_with_nan(number)),
    }
}

#[cycle(send)]
fn send_array<S: Serializer>(items: &[Value], out: &mut S) -> Result<(), S::Error>
    ensures { OnOk result (SendsValue (plain.array (views items.now))
        (S.written out.old) (S.written out.new)) }
{
    out.begin_seq(Some(items.len()))?;
    send_items(items, out)?;
    out.end_seq()
}

#[cycle(send)]
#[tactic(auto, using(cbor_value::proofs::facts::Sizes::size_at))]
fn send_items<S: Serializer>(items: &[Value], out: &mut S) -> Result<(), S::Error>
    ensures { OnOk result (SendsAll (views items.now) (S.written out.old) (S.written out.new)) }
{
    for item in items {
        send(item, out)?;
    }
    Ok(())
}

#[cycle(send)]
fn send_map<S: Serializer>(map: &Map, out: &mut S) -> Result<(), S::Error>
    ensures { OnOk result (SendsValue (plain.map (map_view map.now))
        (S.written out.old) (S.written out.new)) }
{
    out.begin_map(Some(map.len()))?;
    send_pairs(map.iter().as_slice(), out)?;
    out.end_map()
}

#[cycle(send)]
#[tactic(auto, using(cbor_value::proofs::facts::Sizes::pair_size_at))]
fn send_pairs<S: Serializer>(pairs: &[(Value, Value)], out: &mut S) -> Result<(), S::Error>
    ensures { OnOk result
        (SendsPairs (pair_views pairs.now) (S.written out.old) (S.written out.new)) }
{
    for pair in pairs {
        send_pair(&pair.0, &pair.1, out)?;
    }
    Ok(())
}

#[cycle(send)]
fn send_pair<S: Serializer>(key: &Value, value: &Value, out: &mut S) -> Result<(), S::Error>
    ensures { OnOk result (SendsPair (view key.now) (view value.now)
        (S.written out.old) (S.written out.new)) }
{
    out.begin_key()?;
    send(key, out)?;
    out.end_key()?;
    send(value, out)
}

//! The order of values: that of their lists of numbers, which is found by walking both trees.

ghost use Rattle.std.specs.Prelude.{◌≡◌, ◌∷◌, nat_eq, Some, refl, length, slice_index};
ghost use Rattle.std.specs.Ordering.{nat_cmp};
ghost use Rattle.std.specs.Cmp.{on_per, on_equiv, on_po, on_total, partial_equiv_from_equiv};
ghost use Rattle.std.specs.Cmp.Lexicographic.{pointwise, slice_cmp, nat_list_eq_equiv};
ghost use Rattle.std.specs.Cmp.Lexicographic.{nat_list_cmp_total, texts_ties, texts_po};
ghost use Rattle.cbor_model.specs.Plain.{array, integer, map};
ghost use Rattle.cbor_model.specs.Order.{lex, flat, major_type, body, val_cmp};
ghost use Rattle.cbor_value.specs.View.{view, views, float_view, pair_views, flat_of};
ghost use Rattle.cbor_value.specs.View.{flat_of_float};

use super::{Float, Value};
use cbor_io::compare::compare;
use std::cmp::Ordering;

/// Values of one major type are compared by what they hold; the others differ by their major types.
#[cycle(order)]
#[tactic(auto, unfolding(cbor_model::specs::Order::flat))]
fn cmp_values(a: &Value, b: &Value) -> Ordering
    ensures { result ≡ val_cmp (view a.now) (view b.now) }
{
    match (a, b) {
        (Value::Integer(x), Value::Integer(y)) => cmp_integers(*x, *y),
        (Value::Bytes(x), Value::Bytes(y)) => cmp_strings(x, y),
        (Value::Text(x), Value::Text(y)) => cmp_texts(x, y),
        (Value::Array(x), Value::Array(y)) => cmp_items(x, y),
        (Value::Map(x), Value::Map(y)) => cmp_pairs(&x.pairs, &y.pairs),
        (Value::Tag(n, x), Value::Tag(m, y)) => match n.cmp(m) {
            Ordering::Equal => cmp_values(x, y),
            other => other,
        },
        _ => cmp_others(a, b),
    }
}

/// Compares values of different major types, or two of null, the bools and floats.
#[tactic(auto, using(cbor_model::proofs::facts::Order::majors_differ, cbor_model::proofs::facts::Order::majors_same))]
#[inline(never)]
fn cmp_others(a: &Value, b: &Value) -> Ordering
    requires { major_type (view a.now) ≡ major_type (view b.now) → major_type (view a.now) ≡ 7 }
    ensures { result ≡ val_cmp (view a.now) (view b.now) }
{
    let x = major_type(a);
    let y = major_type(b);
    if x != y {
        return x.cmp(&y);
    }
    cmp_simple(a, b)
}

/// The major type, by which values are compared first.
fn major_type(v: &Value) -> u8
    ensures { result ≡ major_type (view v.now) }
{
    match v {
        Value::Integer(i) => { if *i >= 0 { 0 } else { 1 } }
        Value::Bytes(_) => 2,
        Value::Text(_) => 3,
        Value::Array(_) => 4,
        Value::Map(_) => 5,
        Value::Tag(_, _) => 6,
        Value::Null => 7,
        Value::Bool(_) => 7,
        Value::Float(_) => 7,
    }
}

/// Numbers from 0 stand first, and on either side the one nearer to 0.
#[tactic(auto, unfolding(cbor_model::specs::Order::flat))]
pub(crate) fn cmp_integers(x: i128, y: i128) -> Ordering
    ensures { result ≡ val_cmp (integer x) (integer y) }
{
    match (x < 0, y < 0) {
        (false, false) => x.cmp(&y),
        (true, true) => y.cmp(&x),
        (false, true) => Ordering::Less,
        (true, false) => Ordering::Greater,
    }
}

/// The shorter string first, and then by the bytes.
fn cmp_strings(a: &[u8], b: &[u8]) -> Ordering
    ensures { result ≡ lex (length a.now ∷ a.now) (length b.now ∷ b.now) }
{
    match a.len().cmp(&b.len()) {
        Ordering::Equal => compare(a, b),
        other => other,
    }
}

/// The order of two texts of one length. Std's own order of short texts, by words, takes the fewest
/// instructions.
pub(crate) fn cmp_texts(a: &str, b: &str) -> Ordering
    ensures { result ≡ lex (length a.now ∷ a.now) (length b.now ∷ b.now) }
{
    if a.len() < 8 && a.len() == b.len() {
        return a.cmp(b);
    }
    cmp_strings(a.as_bytes(), b.as_bytes())
}

/// The shorter list first, and then item by item.
#[cycle(order)]
#[inline(never)]
fn cmp_items(a: &[Value], b: &[Value]) -> Ordering
    ensures { result ≡ lex (body (array (views a.now))) (body (array (views b.now))) }
{
    match a.len().cmp(&b.len()) {
        Ordering::Equal => {}
        other => return other,
    }
    let mut i = 0;
    'items: while i < a.len() {
        match cmp_values(&a[i], &b[i]) {
            Ordering::Equal => {}
            other => return other,
        }
        i += 1;
    }
    Ordering::Equal
}

/// The shorter list first, and then key by key, each with its value.
#[cycle(order)]
#[inline(never)]
fn cmp_pairs(a: &[(Value, Value)], b: &[(Value, Value)]) -> Ordering
    ensures { result ≡ lex (body (map (pair_views a.now))) (body (map (pair_views b.now))) }
{
    match a.len().cmp(&b.len()) {
        Ordering::Equal => {}
        other => return other,
    }
    let mut i = 0;
    'pairs: while i < a.len() {
        let p = &a[i];
        let q = &b[i];
        match cmp_values(&p.0, &q.0) {
            Ordering::Equal => {}
            other => return other,
        }
        match cmp_values(&p.1, &q.1) {
            Ordering::Equal => {}
            other => return other,
        }
        i += 1;
    }
    Ordering::Equal
}

/// Null, the bools and floats by their codes, and floats of one width by their bits.
#[tactic(auto, using(crate::proofs::Comparing::simples))]
fn cmp_simple(a: &Value, b: &Value) -> Ordering
    requires a { major_type (view a.now) ≡ 7 }
    requires b { major_type (view b.now) ≡ 7 }
    ensures { result ≡ lex (body (view a.now)) (body (view b.now)) }
{
    code(a).cmp(&code(b)).then(bits(a).cmp(&bits(b)))
}

/// The lower five bits of the first byte of null, a bool or a float.
fn code(v: &Value) -> u8
    requires { major_type (view v.now) ≡ 7 }
    ensures { result ≡ slice_index (body (view v.now)) 0 }
{
    match v {
        Value::Bool(false) => 20,
        Value::Bool(true) => 21,
        Value::Float(float) => float_code(float),
        _ => 22,
    }
}

/// The bits of a float, and 0 for null and a bool.
fn bits(v: &Value) -> u64
    requires { major_type (view v.now) ≡ 7 }
    ensures { result ≡ slice_index (body (view v.now)) 1 }
{
    match v {
        Value::Float(float) => float_bits(float),
        _ => 0,
    }
}

/// By their widths, and of one width by their bits.
#[tactic(auto, using(crate::proofs::Comparing::floats))]
fn cmp_floats(x: &Float, y: &Float) -> Ordering
    ensures { result ≡ val_cmp (float_view x.now) (float_view y.now) }
{
    float_code(x)
        .cmp(&float_code(y))
        .then(float_bits(x).cmp(&float_bits(y)))
}

/// The lower five bits of the first byte, which tell the width (RFC 7049, section 2.3).
fn float_code(float: &Float) -> u8
    ensures { result ≡ slice_index (body (float_view float.now)) 0 }
{
    match float {
        Float::Half(_) => 25,
        Float::Single(_) => 26,
        Float::Double(_) => 27,
    }
}

fn float_bits(float: &Float) -> u64
    ensures { result ≡ slice_index (body (float_view float.now)) 1 }
{
    match float {
        Float::Half(bits) => *bits as u64,
        Float::Single(bits) => *bits as u64,
        Float::Double(bits) => *bits,
    }
}

impl PartialEq for Float {
    ghost eq = { λ a b. pointwise nat_eq (flat_of_float a) (flat_of_float b) };

    ghost laws = { on_per flat_of_float (partial_equiv_from_equiv nat_list_eq_equiv) };

    #[tactic(auto, using(crate::proofs::Comparing::tied), unfolding(crate::specs::View::flat_of_float))]
    fn eq(&self, other: &Float) -> bool {
        cmp_floats(self, other).is_eq()
    }
}

impl Eq for Float {
    ghost laws = { on_equiv flat_of_float nat_list_eq_equiv };
}

impl PartialOrd for Float {
    ghost partial_cmp = { λ a b. Some (slice_cmp nat_cmp (flat_of_float a) (flat_of_float b)) };

    ghost laws = { on_po flat_of_float texts_po };

    fn partial_cmp(&self, other: &Float) -> Option<Ordering> {
        Some(self.cmp(other))
    }
}

impl Ord for Float {
    ghost cmp = { λ a b. slice_cmp nat_cmp (flat_of_float a) (flat_of_float b) };

    ghost total = { on_total flat_of_float nat_list_cmp_total };

    ghost matches_partial_cmp = { λ a b. refl };

    ghost matches_eq = { λ a b. texts_ties (flat_of_float a) (flat_of_float b) };

    #[tactic(auto, unfolding(crate::specs::View::flat_of_float))]
    fn cmp(&self, other: &Float) -> Ordering {
        cmp_floats(self, other)
    }
}

impl PartialEq for Value {
    ghost eq = { λ a b. pointwise nat_eq (flat_of a) (flat_of b) };

    ghost laws = { on_per flat_of (partial_equiv_from_equiv nat_list_eq_equiv) };

    #[tactic(auto, using(crate::proofs::Comparing::tied), unfolding(crate::specs::View::flat_of))]
    fn eq(&self, other: &Value) -> bool {
        cmp_values(self, other).is_eq()
    }
}

impl Eq for Value {
    ghost laws = { on_equiv flat_of nat_list_eq_equiv };
}

impl PartialOrd for Value {
    ghost partial_cmp = { λ a b. Some (slice_cmp nat_cmp (flat_of a) (flat_of b)) };

    ghost laws = { on_po flat_of texts_po };

    fn partial_cmp(&self, other: &Value) -> Option<Ordering> {
        Some(self.cmp(other))
    }
}

impl Ord for Value {
    ghost cmp = { λ a b. slice_cmp nat_cmp (flat_of a) (flat_of b) };

    ghost total = { on_total flat_of nat_list_cmp_total };

    ghost matches_partial_cmp = { λ a b. refl };

    ghost matches_eq = { λ a b. texts_ties (flat_of a) (flat_of b) };

    #[tactic(auto, unfolding(crate::specs::View::flat_of))]
    fn cmp(&self, other: &Value) -> Ordering {
        cmp_values(self, other)
    }
}

//! What the canonical bytes of two values of any types say of them.

ghost use Rattle.std.specs.Prelude.{◌≡◌, ◌↔◌, ℕ, List};
ghost use Rattle.cbor_model.specs.Canonical.{IsStorable, canon};
ghost use Rattle.cbor_model.specs.Order.{lex};
ghost use Rattle.cbor_value.specs.View.{view};
ghost use Rattle.cbor_ser.specs.Bytes.{IsCanonicalSpelling};
ghost use Rattle.cbor_convert.specs.Meaning.{value_of};

use cbor_ser::Serialize;
use cbor_value::Value;

/// Two values of any types have the same canonical bytes exactly where they stand for one value.
///
/// A caller gives it what [`to_vec_canonical`](crate::to_vec_canonical) says of the bytes of each
/// (`canonical`). So a signature over these bytes, or a hash of them, is the same for a struct, for
/// a map that has its fields, and for the `Value` that is read of either.
pub fn same_value_same_bytes<A: Serialize, B: Serialize>()
    ensures { (a : A) (b : B) (x y : List ℕ)
        → IsCanonicalSpelling x (value_of (A.document a))
        → IsCanonicalSpelling y (value_of (B.document b))
        → (x ≡ y) ↔ (value_of (A.document a) ≡ value_of (B.document b)) }
{}

/// Two values whose integers are all from -2^64 to 2^64 - 1 compare as their canonical encodings
/// do, byte by byte: what is sorted by `cmp` is sorted by what [`to_vec`](cbor_ser::to_vec) writes.
///
/// A caller needs nothing else of the values: that their lengths, counts and tag numbers are below
/// 2^64, as `byte_order` of `cbor_model` asks, is so of whatever a program holds.
#[tactic(auto, using(cbor_model::proofs::facts::Laws::byte_order), unfolding(cbor_value::specs::View::flat_of))]
pub fn compare_as_bytes(a: &Value, b: &Value)
    ensures { IsStorable (view a.now) → IsStorable (view b.now)
        → ⟦<Value as Ord>⟧.cmp a.now b.now ≡ lex (canon (view a.now)) (canon (view b.now)) }
{
    a.in_memory();
    b.in_memory();
}

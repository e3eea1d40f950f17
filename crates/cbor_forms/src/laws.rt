//! What the deterministic bytes of values say of them.

ghost use Rattle.std.specs.Prelude.{◌≡◌, ◌≤◌, ◌↔◌, ℕ, ℤ, List, Some};
ghost use Rattle.cbor_model.specs.Acceptable.{max_depth};
ghost use Rattle.cbor_model.specs.Canonical.{canonical, IsStorable, IsOrdered, KeysAscend};
ghost use Rattle.cbor_model.specs.FiniteMap.{put_all};
ghost use Rattle.cbor_model.specs.InMemory.{IsInMemory};
ghost use Rattle.cbor_model.specs.Laws.{SpellsValue};
ghost use Rattle.cbor_model.specs.Order.{val_cmp};
ghost use Rattle.cbor_model.specs.Plain.{Val, bytes, integer, Pairs, no_pairs};
ghost use Rattle.cbor_model.specs.Raw.{depth};
ghost use Rattle.cbor_value.specs.declared.Float.{Float};
ghost use Rattle.cbor_value.specs.Floats.{number_of};
ghost use Rattle.cbor_value.specs.View.{float_view};
ghost use Rattle.cbor_convert.specs.Meaning.{value_of};
ghost use Rattle.cbor_forms.specs.Shortened.{reduced, shortened};
ghost use Rattle.cbor_forms.specs.Reduced.{IsReducedInteger, integer_of, with_one_zero};
ghost use Rattle.cbor_forms.specs.Deterministic.{IsDcborSpelling, IsDeterministicSpelling};
ghost use Rattle.cbor_forms.specs.LengthFirst.{by_length, encoded, length_first};

use cbor_ser::Serialize;

/// Two values of any types have the same deterministic bytes exactly where they stand for one value
/// with floats at their shortest.
///
/// A caller gives it what [`to_vec_deterministic`](crate::to_vec_deterministic) says of the bytes
/// of each (`deterministic`).
pub fn same_numbers_same_bytes<A: Serialize, B: Serialize>()
    ensures { (a : A) (b : B) (x y : List ℕ)
        → IsDeterministicSpelling x (value_of (A.document a))
        → IsDeterministicSpelling y (value_of (B.document b))
        → (x ≡ y) ↔ (shortened (value_of (A.document a)) ≡ shortened (value_of (B.document b))) }
{}

/// Two floats are the same at their shortest exactly where they are the same number: whatever their
/// widths, and with the zeros apart.
pub fn same_number_same_float()
    ensures { (a b : Float) → (number_of a ≡ number_of b)
        ↔ (shortened (float_view a) ≡ shortened (float_view b)) }
{}

/// Two values of any types have the same dCBOR bytes exactly where they stand for one value with
/// dCBOR's numbers.
///
/// A caller gives it what [`to_vec_dcbor`](crate::to_vec_dcbor) says of the bytes of each
/// (`dcbor`).
pub fn same_dcbor_numbers_same_bytes<A: Serialize, B: Serialize>()
    ensures { (a : A) (b : B) (x y : List ℕ)
        → IsDcborSpelling x (value_of (A.document a)) → IsDcborSpelling y (value_of (B.document b))
        → (x ≡ y) ↔ (reduced (value_of (A.document a)) ≡ reduced (value_of (B.document b))) }
{}

/// Two floats are the same in dCBOR exactly where they are the same number, whatever their widths,
/// and with one zero; and a float is the same as an integer exactly where it is that integer, which
/// is so from -2^63 to 2^64 - 1.
pub fn same_number_in_dcbor()
    ensures floats { (a b : Float) → (with_one_zero (number_of a) ≡ with_one_zero (number_of b))
        ↔ (reduced (float_view a) ≡ reduced (float_view b)) }
    ensures integers { (a : Float) (z : ℤ) → (integer_of (number_of a) ≡ Some z)
        ↔ (reduced (float_view a) ≡ reduced (integer z)) }
    ensures in_range { (a : Float) (z : ℤ) → integer_of (number_of a) ≡ Some z
        → IsReducedInteger z }
{}

/// What has dCBOR's numbers stays as it is: what is read of dCBOR is encoded as these bytes.
pub fn reduced_once()
    ensures { (v : Val) → reduced (reduced v) ≡ reduced v }
{}

/// What has its floats at their shortest stays as it is: what is read of deterministic bytes is
/// encoded as these bytes.
pub fn shortened_once()
    ensures { (v : Val) → shortened (shortened v) ≡ shortened v }
{}

/// What is encoded with shorter keys first is read back: the length-first encoding of a storable
/// ordered value in memory, nested at most 127 levels, is read as that value. So each pair of a map
/// is there once.
pub fn length_first_reads_back()
    ensures { (v : Val) → IsStorable v → IsOrdered v → IsInMemory v
        → depth (canonical v) ≤ max_depth → SpellsValue (length_first v) v }
{}

/// The keys' encodings ascend: shorter ones first, and those of one length by their bytes.
pub fn shorter_keys_first()
    ensures ascending { (ps : Pairs) → KeysAscend (put_all (encoded ps) no_pairs) }
    ensures order { (a b : List ℕ) → val_cmp (bytes a) (bytes b) ≡ by_length a b }
{}

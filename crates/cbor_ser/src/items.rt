//! Writing items to a sink, as the calls of the serializer do.
//!
//! A step returns no more than whether it was refused, and leaves the error with its caller: an
//! `Error` is large, and would be copied at each step on the way out.

ghost use Rattle.std.specs.Prelude.{◌≡◌, ◌++◌, ℕ, List, Bool, length};
ghost use Rattle.std.specs.Prelude.{Err, IfErr, IfSome, IsSome, IsOk, OnErr, OnOk};
ghost use Rattle.std.specs.Option.{IsSomeAnd};
ghost use Rattle.cbor_model.specs.Head.{short};
ghost use Rattle.cbor_model.specs.Plain as plain;
ghost use Rattle.cbor_model.specs.Plain.{Val};
ghost use Rattle.cbor_model.specs.Spelling.{spell_all, spell_pairs};
ghost use Rattle.cbor_model.specs.Canonical.{canon, canonical_all, canonical_pairs, IsStorable};
ghost use Rattle.cbor_model.specs.Canonical.{IsStorableInteger, AreStorable, ArePairsStorable};
ghost use Rattle.cbor_model.specs.InMemory.{IsInMemory, AreInMemory, ArePairsInMemory};
ghost use Rattle.cbor_model.specs.InMemory.{IsByteString};
ghost use Rattle.cbor_io.specs.Head.{major_number};
ghost use Rattle.cbor_model.specs.Document.{document_of, documents_of, document_pairs_of};
ghost use Rattle.cbor_model.specs.Unstored.{StandsBeforeAny, StandsBeforePairs};
ghost use Rattle.cbor_io.specs.Write.{AppendsBeginning, Wrote, TakesWhatFits};
ghost use Rattle.cbor_value.specs.View.{view, views, float_view, map_view, pair_views};
ghost use Rattle.cbor_ser.specs.Written.{SaysUnstorable};
ghost use Rattle.cbor_ser.specs.Serialized.{ValueRefused, EndsBefore};

use cbor_io::error::{Error, Result};
use cbor_io::head::Major;
use cbor_io::write::Write;
use cbor_value::{Float, Map, Value};
use std::alloc::Global;

/// A step was refused, and its error left with its caller.
#[derive(Clone, Copy, Debug)]
pub struct WriteRefused;

/// What a step returns.
pub type WriteDone = std::result::Result<(), WriteRefused>;

/// The answer of a call whose steps left this refusal.
pub(crate) fn answer(done: WriteDone, refusal: Option<Error>) -> Result<()>
    requires { OnErr done (IsSome refusal) }
    ensures ok { OnOk done (IsOk result) }
    ensures err { OnErr done (IfSome refusal (λ e. result ≡ Err e)) }
{
    match (done, refusal) {
        (Err(WriteRefused), Some(error)) => Err(error),
        _ => Ok(()),
    }
}

/// What refuses a value that has an integer outside `-2^64..=2^64-1`.
pub(crate) fn not_storable(alloc: Global) -> Error
    ensures { SaysUnstorable result }
{
    Error::message(alloc, "The number can't be stored in CBOR")
}

/// Appends a piece.
pub(crate) fn put<W: Write>(writer: &mut W, refusal: &mut Option<Error>, piece: &[u8]) -> WriteDone
    ensures written { Wrote (W.written writer.old) piece.now (W.written writer.new) result }
    ensures same_references { W.references writer.new ≡ W.references writer.old }
    ensures same_capacity { W.capacity writer.new ≡ W.capacity writer.old }
    ensures refused { OnErr result (IsSomeAnd refusal.new (W.refuses writer.new)) }
    ensures fits { TakesWhatFits (W.capacity writer.old) (W.written writer.old)
        piece.now result }
{
    match writer.write_all(piece) {
        Ok(()) => Ok(()),
        Err(error) => {
            *refusal = Some(error);
            Err(WriteRefused)
        }
    }
}

/// Appends the shortest head of the major type with this number, as one piece.
#[inline(always)]
pub(crate) fn write_head<W: Write>(writer: &mut W, major: Major, n: u64) -> Result<()>
    ensures written { Wrote (W.written writer.old) (short (major_number major) n)
        (W.written writer.new) result }
    ensures same_references { W.references writer.new ≡ W.references writer.old }
    ensures same_capacity { W.capacity writer.new ≡ W.capacity writer.old }
    ensures refused { IfErr result (W.refuses writer.new) }
    ensures fits { TakesWhatFits (W.capacity writer.old) (W.written writer.old)
        (short (major_number major) n) result }
{
    let first = major.number() * 32;
    if n < 24 {
        writer.write_all(&[first + n as u8])
    } else if n < 1 << 8 {
        writer.write_all(&[first + 24, n as u8])
    } else if n < 1 << 16 {
        let [a, b] = (n as u16).to_be_bytes();
        writer.write_all(&[first + 25, a, b])
    } else if n < 1 << 32 {
        let [a, b, c, d] = (n as u32).to_be_bytes();
        writer.write_all(&[first + 26, a, b, c, d])
    } else {
        let [a, b, c, d, e, f, g, h] = n.to_be_bytes();
        writer.write_all(&[first + 27, a, b, c, d, e, f, g, h])
    }
}

/// The same as a step. It is written out for each width: a result of `write_head` would be moved
/// once more.
#[inline(always)]
pub(crate) fn put_head<W: Write>(
    writer: &mut W,
    refusal: &mut Option<Error>,
    major: Major,
    n: u64,
) -> WriteDone
    ensures written { Wrote (W.written writer.old) (short (major_number major) n)
        (W.written writer.new) result }
    ensures same_references { W.references writer.new ≡ W.references writer.old }
    ensures same_capacity { W.capacity writer.new ≡ W.capacity writer.old }
    ensures refused { OnErr result (IsSomeAnd refusal.new (W.refuses writer.new)) }
    ensures fits { TakesWhatFits (W.capacity writer.old) (W.written writer.old)
        (short (major_number major) n) result }
{
    let first = major.number() * 32;
    if n < 24 {
        put(writer, refusal, &[first + n as u8])
    } else if n < 1 << 8 {
        put(writer, refusal, &[first + 24, n as u8])
    } else if n < 1 << 16 {
        let [a, b] = (n as u16).to_be_bytes();
        put(writer, refusal, &[first + 25, a, b])
    } else if n < 1 << 32 {
        let [a, b, c, d] = (n as u32).to_be_bytes();
        put(writer, refusal, &[first + 26, a, b, c, d])
    } else {
        let [a, b, c, d, e, f, g, h] = n.to_be_bytes();
        put(writer, refusal, &[first + 27, a, b, c, d, e, f, g, h])
    }
}

/// Appends the head of a string, and then what it holds.
pub(crate) fn put_string<W: Write>(
    writer: &mut W,
    refusal: &mut Option<Error>,
    major: Major,
    content: &[u8],
) -> WriteDone
    ensures content { IsByteString content.now }
    ensures written { Wrote (W.written writer.old)
        (short (major_number major) (length content.now) ++ content.now)
        (W.written writer.new) result }
    ensures same_references { W.references writer.new ≡ W.references writer.old }
    ensures same_capacity { W.capacity writer.new ≡ W.capacity writer.old }
    ensures refused { OnErr result (IsSomeAnd refusal.new (W.refuses writer.new)) }
    ensures fits { TakesWhatFits (W.capacity writer.old) (W.written writer.old)
        (short (major_number major) (length content.now) ++ content.now) result }
{
    put_head(writer, refusal, major, content.len() as u64)?;
    put(writer, refusal, content)
}

/// Appends a float in its width, with its bits as they are.
#[inline(always)]
#[tactic(auto, unfolding(cbor_model::specs::Canonical::canon, cbor_model::specs::Canonical::canonical, cbor_model::specs::Spelling::spell))]
pub(crate) fn put_float<W: Write>(
    writer: &mut W,
    refusal: &mut Option<Error>,
    float: Float,
) -> WriteDone
    ensures in_memory { IsInMemory (float_view float) }
    ensures written { Wrote (W.written writer.old) (canon (float_view float))
        (W.written writer.new) result }
    ensures same_references { W.references writer.new ≡ W.references writer.old }
    ensures same_capacity { W.capacity writer.new ≡ W.capacity writer.old }
    ensures refused { OnErr result (IsSomeAnd refusal.new (W.refuses writer.new)) }
    ensures fits { TakesWhatFits (W.capacity writer.old) (W.written writer.old)
        (canon (float_view float)) result }
{
    match float {
        Float::Half(bits) => {
            let [a, b] = bits.to_be_bytes();
            put(writer, refusal, &[0xf9, a, b])
        }
        Float::Single(bits) => {
            let [a, b, c, d] = bits.to_be_bytes();
            put(writer, refusal, &[0xfa, a, b, c, d])
        }
        Float::Double(bits) => {
            let [a, b, c, d, e, f, g, h] = bits.to_be_bytes();
            put(writer, refusal, &[0xfb, a, b, c, d, e, f, g, h])
        }
    }
}

/// Appends a whole number. One that isn't stored is refused, and nothing is appended.
#[tactic(auto, unfolding(cbor_model::specs::Canonical::canon, cbor_model::specs::Canonical::canonical, cbor_model::specs::Spelling::spell))]
pub(crate) fn put_integer<W: Write>(
    alloc: Global,
    writer: &mut W,
    refusal: &mut Option<Error>,
    i: i128,
) -> WriteDone
    ensures storable { OnOk result (IsStorableInteger i) }
    ensures written { Wrote (W.written writer.old) (canon (plain.integer i))
        (W.written writer.new) result }
    ensures same_references { W.references writer.new ≡ W.references writer.old }
    ensures same_capacity { W.capacity writer.new ≡ W.capacity writer.old }
    ensures refused { OnErr result
        (IsSomeAnd refusal.new (ValueRefused W.refuses writer.new (plain.integer i))) }
    ensures fits { IsStorableInteger i →
        TakesWhatFits (W.capacity writer.old) (W.written writer.old)
        (canon (plain.integer i)) result }
    ensures kept { (IsStorableInteger i → ⊥) → writer.new ≡ writer.old }
    ensures unstorable { (IsStorableInteger i → ⊥) → IsSomeAnd refusal.new SaysUnstorable }
{
    if let Ok(n) = u64::try_from(i) {
        return put_head(writer, refusal, Major::UnsignedInteger, n);
    }
    if let Ok(n) = u64::try_from(-1 - i) {
        return put_head(writer, refusal, Major::NegativeInteger, n);
    }
    *refusal = Some(not_storable(alloc));
    Err(WriteRefused)
}

/// Appends a value's canonical encoding. The allocator is for the text of a refusal alone.
#[cycle(value)]
#[tactic(auto, unfolding(cbor_model::specs::Canonical::canon, cbor_model::specs::Canonical::canonical, cbor_model::specs::Spelling::spell, cbor_model::specs::Document::document_of))]
pub(crate) fn put_value<W: Write>(
    alloc: Global,
    writer: &mut W,
    refusal: &mut Option<Error>,
    value: &Value,
) -> WriteDone
    ensures storable { OnOk result (IsStorable (view value.now)) }
    ensures in_memory { OnOk result (IsInMemory (view value.now)) }
    ensures written { Wrote (W.written writer.old) (canon (view value.now))
        (W.written writer.new) result }
    ensures before { EndsBefore (document_of (view value.now))
        (W.written writer.old) (W.written writer.new) }
    ensures same_references { W.references writer.new ≡ W.references writer.old }
    ensures same_capacity { W.capacity writer.new ≡ W.capacity writer.old }
    ensures refused { OnErr result
        (IsSomeAnd refusal.new (ValueRefused W.refuses writer.new (view value.now))) }
    ensures fits { IsStorable (view value.now) →
        TakesWhatFits (W.capacity writer.old) (W.written writer.old)
        (canon (view value.now)) result }
{
    match value {
        Value::Null => put(writer, refusal, &[0xf6]),
        Value::Bool(b) => put(writer, refusal, &[if *b { 0xf5 } else { 0xf4 }]),
        Value::Integer(i) => put_integer(alloc, writer, refusal, *i),
        Value::Float(float) => put_float(writer, refusal, *float),
        Value::Bytes(bytes) => put_string(writer, refusal, Major::ByteString, bytes),
        Value::Text(text) => put_string(writer, refusal, Major::TextString, text.as_bytes()),
        Value::Array(items) => put_array(alloc, writer, refusal, items),
        Value::Map(map) => put_map(alloc, writer, refusal, map),
        Value::Tag(tag, inner) => put_tag(alloc, writer, refusal, *tag, inner),
    }
}

#[cycle(value)]
fn put_tag<W: Write>(
    alloc: Global,
    writer: &mut W,
    refusal: &mut Option<Error>,
    tag: u64,
    inner: &Value,
) -> WriteDone
    ensures storable { OnOk result (IsStorable (view inner.now)) }
    ensures in_memory { OnOk result (IsInMemory (plain.tag tag (view inner.now))) }
    ensures written { Wrote (W.written writer.old) (canon (plain.tag tag (view inner.now)))
        (W.written writer.new) result }
    ensures before { EndsBefore (document_of (plain.tag tag (view inner.now)))
        (W.written writer.old) (W.written writer.new) }
    ensures same_references { W.references writer.new ≡ W.references writer.old }
    ensures same_capacity { W.capacity writer.new ≡ W.capacity writer.old }
    ensures refused { OnErr result
        (IsSomeAnd refusal.new (ValueRefused W.refuses writer.new (view inner.now))) }
    ensures fits { IsStorable (view inner.now) →
        TakesWhatFits (W.capacity writer.old) (W.written writer.old)
        (canon (plain.tag tag (view inner.now))) result }
{
    put_head(writer, refusal, Major::Tag, tag)?;
    put_value(alloc, writer, refusal, inner)
}

#[cycle(value)]
#[tactic(auto, using(crate::proofs::Ranges::array_in_memory))]
fn put_array<W: Write>(
    alloc: Global,
    writer: &mut W,
    refusal: &mut Option<Error>,
    items: &[Value],
) -> WriteDone
    ensures storable { OnOk result (AreStorable (views items.now)) }
    ensures in_memory { OnOk result (IsInMemory (plain.array (views items.now))) }
    ensures written { Wrote (W.written writer.old) (canon (plain.array (views items.now)))
        (W.written writer.new) result }
    ensures before { EndsBefore (document_of (plain.array (views items.now)))
        (W.written writer.old) (W.written writer.new) }
    ensures same_references { W.references writer.new ≡ W.references writer.old }
    ensures same_capacity { W.capacity writer.new ≡ W.capacity writer.old }
    ensures refused { OnErr result
        (IsSomeAnd refusal.new
        (ValueRefused W.refuses writer.new (plain.array (views items.now)))) }
    ensures fits { AreStorable (views items.now) →
        TakesWhatFits (W.capacity writer.old) (W.written writer.old)
        (canon (plain.array (views items.now))) result }
{
    put_head(writer, refusal, Major::Array, items.len() as u64)?;
    put_items(alloc, writer, refusal, items)
}

// Appends values, one after the other.
#[cycle(value)]
#[tactic(auto, using(cbor_value::proofs::facts::Sizes::size_at, std::proofs::lemmas::List::drop_all))]
fn put_items<W: Write>(
    alloc: Global,
    writer: &mut W,
    refusal: &mut Option<Error>,
    items: &[Value],
) -> WriteDone
    ensures storable { OnOk result (AreStorable (views items.now)) }
    ensures in_memory { OnOk result (AreInMemory (views items.now)) }
    ensures written { Wrote (W.written writer.old) (spell_all (canonical_all (views items.now)))
        (W.written writer.new) result }
    ensures before { (packed legacy : Bool) (front : List ℕ)
        → StandsBeforeAny (documents_of (views items.now)) packed legacy front
        → AppendsBeginning front (W.written writer.old) (W.written writer.new) }
    ensures same_references { W.references writer.new ≡ W.references writer.old }
    ensures same_capacity { W.capacity writer.new ≡ W.capacity writer.old }
    ensures refused { OnErr result
        (IsSomeAnd refusal.new
        (ValueRefused W.refuses writer.new (plain.array (views items.now)))) }
    ensures fits { AreStorable (views items.now) →
        TakesWhatFits (W.capacity writer.old) (W.written writer.old)
        (spell_all (canonical_all (views items.now))) result }
{
    for item in items {
        put_value(alloc, writer, refusal, item)?;
    }
    Ok(())
}

#[cycle(value)]
fn put_map<W: Write>(
    alloc: Global,
    writer: &mut W,
    refusal: &mut Option<Error>,
    map: &Map,
) -> WriteDone
    ensures storable { OnOk result (ArePairsStorable (map_view map.now)) }
    ensures in_memory { OnOk result (IsInMemory (plain.map (map_view map.now))) }
    ensures written { Wrote (W.written writer.old) (canon (plain.map (map_view map.now)))
        (W.written writer.new) result }
    ensures before { EndsBefore (document_of (plain.map (map_view map.now)))
        (W.written writer.old) (W.written writer.new) }
    ensures same_references { W.references writer.new ≡ W.references writer.old }
    ensures same_capacity { W.capacity writer.new ≡ W.capacity writer.old }
    ensures refused { OnErr result
        (IsSomeAnd refusal.new
        (ValueRefused W.refuses writer.new (plain.map (map_view map.now)))) }
    ensures fits { ArePairsStorable (map_view map.now) →
        TakesWhatFits (W.capacity writer.old) (W.written writer.old)
        (canon (plain.map (map_view map.now))) result }
{
    put_head(writer, refusal, Major::Map, map.len() as u64)?;
    put_pairs(alloc, writer, refusal, map.iter().as_slice())
}

// Appends keys and values, as they are listed.
#[cycle(value)]
#[tactic(auto, using(cbor_value::proofs::facts::Sizes::key_size_at, cbor_value::proofs::facts::Sizes::value_size_at, std::proofs::lemmas::List::drop_all))]
fn put_pairs<W: Write>(
    alloc: Global,
    writer: &mut W,
    refusal: &mut Option<Error>,
    pairs: &[(Value, Value)],
) -> WriteDone
    ensures storable { OnOk result (ArePairsStorable (pair_views pairs.now)) }
    ensures in_memory { OnOk result (ArePairsInMemory (pair_views pairs.now)) }
    ensures written { Wrote (W.written writer.old)
        (spell_pairs (canonical_pairs (pair_views pairs.now))) (W.written writer.new) result }
    ensures before { (packed legacy : Bool) (front : List ℕ)
        → StandsBeforePairs (document_pairs_of (pair_views pairs.now)) packed legacy front
        → AppendsBeginning front (W.written writer.old) (W.written writer.new) }
    ensures same_references { W.references writer.new ≡ W.references writer.old }
    ensures same_capacity { W.capacity writer.new ≡ W.capacity writer.old }
    ensures refused { OnErr result
        (IsSomeAnd refusal.new
        (ValueRefused W.refuses writer.new (plain.map (pair_views pairs.now)))) }
    ensures fits { ArePairsStorable (pair_views pairs.now) →
        TakesWhatFits (W.capacity writer.old) (W.written writer.old)
        (spell_pairs (canonical_pairs (pair_views pairs.now))) result }
{
    for (key, value) in pairs {
        put_value(alloc, writer, refusal, key)?;
        put_value(alloc, writer, refusal, value)?;
    }
    Ok(())
}

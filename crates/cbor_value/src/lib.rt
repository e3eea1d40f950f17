//! Any value that CBOR encodes, as a tree.
//!
//! [`Value`] and [`Map`] with their order, copies and conversions, and what is found in them; and
//! byte strings as types of their own (`bytes`). It names the definitions of `cbor_model`, its
//! facts on the order and on maps, the error of `cbor_io`, and the halves of `cbor_halves`. The
//! crates above rely on the contracts of its public calls, on `specs/View.antt` (the tree of the
//! model that a value stands for), on `specs/Floats.antt` and `specs/Shortest.antt` (the number that
//! a float stands for, and the shortest float of a number), and on the facts of `proofs/facts`.
//! `specs/Contents.antt`, `specs/Lookup.antt` and `specs/Pointer.antt` say what is found in a value,
//! and `specs/Lending.antt` what a map ends as where a value in it is lent.
#![tactic(auto)]

mod accessors;
pub mod bytes;
mod clone;
mod floats;
mod from;
mod in_place;
mod lookup;
mod memory;
mod order;
mod pairs;
mod pointer;
pub mod raw_value;
mod shortest;

/// A float as it was read: its width, and its bits by IEEE 754. [`to_f64`](Float::to_f64) is the
/// number, and `Float::from` makes a float of an `f64` or an `f32`.
///
/// Two floats are equal where width and bits are, so `1.0` of 16 bits isn't `1.0` of 64 bits, and a
/// NaN equals itself. The order is that of the widths, and then that of the bits, as it is among
/// values.
///
/// Nothing makes a float narrower unasked. Where another encoder would write the shortest width
/// that holds a number, [`shortest`](Float::shortest) gives it: of 1.0 it is `Float::Half(0x3c00)`.
///
/// ```rust
/// assert_eq!(rt; Float::Half(0x3c00).to_f64(), 1.0);
/// assert_eq!(rt; Float::from(1.0), Float::Double(0x3ff0_0000_0000_0000));
/// ```
#[derive(Clone, Copy, Debug)]
pub enum Float {
    /// 16 bits.
    Half(u16),
    /// 32 bits.
    Single(u32),
    /// 64 bits.
    Double(u64),
}

/// Any CBOR value.
///
/// Values are ordered by their kind: unsigned integers, negative ones, byte strings, text strings,
/// arrays, maps, tags, then false, true, null and floats. Within a kind the smaller head comes
/// first (a number nearer to 0, a shorter string, fewer items or pairs, a smaller tag), and
/// then the content, from its front. They are equal where nothing of that differs. Comparing takes
/// no memory.
///
/// That is the byte order of the values' canonical encodings: of two values that `to_vec` writes,
/// `a.cmp(&b)` is how their bytes compare, so what is sorted by value is sorted by its bytes. A
/// proof takes this from the contract of `to_vec`: `in_order` says that the bytes of one value
/// compare with another's as the values do, and `exact` that they are equal where these are. What
/// both ask of the other value, its own `to_vec` gives, as `storable` and `in_range`. For values
/// that aren't written, [`in_memory`](Value::in_memory) gives the latter, and the law `byte_order`
/// of `cbor_model` the rest.
///
/// What a value holds is had by a `match`, or by [`as_str`](Value::as_str) and its kin. What lies
/// within it is found by [`get_str`](Value::get_str), [`get_integer`](Value::get_integer) and
/// [`get_index`](Value::get_index), or by a path with [`pointer`](Value::pointer).
///
/// ```rust
/// let mut map = Map::new(alloc);
/// map.insert(Value::Integer(1), Value::Array(Vec::new(alloc)))?;
/// let value = Value::Tag(24, Box::new(alloc, Value::Map(map))?);
/// assert!(rt; value > Value::Integer(-1)); // by kind: a tag comes after all integers
/// ```
#[cycle(value)]
#[derive(Debug, Drop)]
pub enum Value {
    /// Null, which undefined is read as.
    Null,
    /// False or true.
    Bool(bool),
    /// An integer. CBOR stores those from -2^64 to 2^64 - 1.
    Integer(i128),
    /// A float, in the width that it was read in.
    Float(Float),
    /// A byte string.
    Bytes(Vec<u8>),
    /// A text string.
    Text(String),
    /// An array.
    Array(Vec<Value>),
    /// A map.
    Map(Map),
    /// A tag's number, and the tagged value.
    Tag(u64, Box<Value>),
}

/// A map from values to values, which lists its pairs in the order of the keys.
///
/// Of n pairs, `get` and its kin, `contains_key`, `insert` and `remove` compare a key with at most
/// as many as n has binary digits; `insert` of a key that is new, and `remove`, then move the pairs
/// after it. So many pairs are best put in at once: `from_pairs` compares n - 1 times where the
/// keys ascend already, and else in the order of n log n times. The other calls take the same time
/// whatever n is.
///
/// ```rust
/// let mut map = Map::new(alloc);
/// map.insert(Value::Integer(2), Value::Null)?;
/// map.insert(Value::Integer(1), Value::Bool(true))?;
/// assert_eq!(rt; map.len(), 2);
/// assert_eq!(rt; map.first_key_value(), Some((&Value::Integer(1), &Value::Bool(true))));
/// ```
#[cycle(value)]
#[derive(Debug, Drop)]
pub struct Map {
    pairs: Vec<(Value, Value)>,
}

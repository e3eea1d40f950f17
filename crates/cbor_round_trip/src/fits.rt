//! What the laws of single types ask of a value (`law.fits`): nothing that a program's value lacks.

ghost use Rattle.std.specs.Prelude.{◌≤◌, ⊤};
ghost use Rattle.std.specs.List.{AllByRecursion};
ghost use Rattle.std.specs.List.Sorted.{IsStrictlySortedBy};
ghost use Rattle.std.specs.Map.{keys_of};
ghost use Rattle.std.proofs.Common.{nat_cmp};
ghost use Rattle.cbor_model.specs.Canonical.{IsOrdered};
ghost use Rattle.cbor_value.specs.View.{view};

use crate::round_trip::RoundTrip;
use cbor_convert::{Encoded, Required, Tagged};
use cbor_value::bytes::{ByteArray, ByteBuf};
use cbor_value::raw_value::RawValue;
use cbor_value::{Float, Value};
use std::collections::{BTreeMap, BTreeSet};

/// Every integer from 0 is read back as it was written, where it can be: one of a `u128` above
/// 2^64 - 1 is refused.
pub fn naturals_fit(a: u8, b: u16, c: u32, d: u64, e: u128, f: usize)
    ensures of_u8 { ⟦<u8 as RoundTrip>⟧.law.fits a }
    ensures of_u16 { ⟦<u16 as RoundTrip>⟧.law.fits b }
    ensures of_u32 { ⟦<u32 as RoundTrip>⟧.law.fits c }
    ensures of_u64 { ⟦<u64 as RoundTrip>⟧.law.fits d }
    ensures of_u128 { ⟦<u128 as RoundTrip>⟧.law.fits e }
    ensures of_usize { ⟦<usize as RoundTrip>⟧.law.fits f }
{}

/// So is every signed integer.
pub fn integers_fit(a: i8, b: i16, c: i32, d: i64, e: i128, f: isize)
    ensures of_i8 { ⟦<i8 as RoundTrip>⟧.law.fits a }
    ensures of_i16 { ⟦<i16 as RoundTrip>⟧.law.fits b }
    ensures of_i32 { ⟦<i32 as RoundTrip>⟧.law.fits c }
    ensures of_i64 { ⟦<i64 as RoundTrip>⟧.law.fits d }
    ensures of_i128 { ⟦<i128 as RoundTrip>⟧.law.fits e }
    ensures of_isize { ⟦<isize as RoundTrip>⟧.law.fits f }
{}

/// So are every bool, character and float, and the unit.
pub fn scalars_fit(a: bool, b: char, c: Float, d: f32, e: f64)
    ensures of_bool { ⟦<bool as RoundTrip>⟧.law.fits a }
    ensures of_char { ⟦<char as RoundTrip>⟧.law.fits b }
    ensures of_float { ⟦<Float as RoundTrip>⟧.law.fits c }
    ensures of_f32 { ⟦<f32 as RoundTrip>⟧.law.fits d }
    ensures of_f64 { ⟦<f64 as RoundTrip>⟧.law.fits e }
    ensures of_unit { ⟦<() as RoundTrip>⟧.law.fits tt }
{}

/// So is every string whose length the type doesn't fix.
pub fn strings_fit(a: &String, b: &ByteBuf)
    ensures of_string { ⟦<String as RoundTrip>⟧.law.fits a.now }
    ensures of_byte_buf { ⟦<ByteBuf as RoundTrip>⟧.law.fits b.now }
{}

/// A value is, whose maps list their keys in order, as all calls of `Map` leave them.
pub fn ordered_values_fit(value: &Value)
    ensures { IsOrdered (view value.now) → ⟦<Value as RoundTrip>⟧.law.fits value.now }
{}

/// Every item that isn't decoded is.
pub fn undecoded_items_fit(a: &RawValue)
    ensures { ⟦<RawValue as RoundTrip>⟧.law.fits a.now }
{
    let _ = a.as_bytes();
}

/// Every encoding within its tag is.
pub fn encodings_fit<T>(a: &Encoded<T>)
    ensures of_encoded { ⟦<Encoded<T> as RoundTrip>⟧.law.fits a.now }
{}

/// A box is whose content is.
pub fn boxes_fit<T: RoundTrip>(a: &Box<T>)
    ensures of_box { T.law.fits a.now.value → ⟦<Box<T> as RoundTrip>⟧.law.fits a.now }
{}

/// A value within a tag that it has to have is where it is by itself.
pub fn required_fit<T: RoundTrip, const N: u64>(a: &Required<N, T>)
    ensures of_required { T.law.fits a.now.0 → ⟦<Required<N, T> as RoundTrip>⟧.law.fits a.now }
{}

/// A tuple is whose parts are.
pub fn tuples_fit<A: RoundTrip, B: RoundTrip, C: RoundTrip>(a: &(A,), b: &(A, B), c: &(A, B, C))
    ensures of_one { A.law.fits a.now.0 → ⟦<(A,) as RoundTrip>⟧.law.fits a.now }
    ensures of_two { A.law.fits b.now.0 → B.law.fits b.now.1
        → ⟦<(A, B) as RoundTrip>⟧.law.fits b.now }
    ensures of_three { A.law.fits c.now.0 → B.law.fits c.now.1 → C.law.fits c.now.2
        → ⟦<(A, B, C) as RoundTrip>⟧.law.fits c.now }
{}

/// A vector and an array are whose items are.
pub fn items_fit<T: RoundTrip, const N: usize>(a: &Vec<T>, b: &[T; N])
    ensures of_vec { AllByRecursion T.law.fits a.now.items
        → ⟦<Vec<T> as RoundTrip>⟧.law.fits a.now }
    ensures of_array { AllByRecursion T.law.fits b.now → ⟦<[T; N] as RoundTrip>⟧.law.fits b.now }
{}

/// What may be absent or has a tag is read back where it is not written as null or as tagged.
pub fn bools_within_fit(a: &Option<bool>, b: &Tagged<bool>)
    ensures of_option { ⟦<Option<bool> as RoundTrip>⟧.law.fits a.now }
    ensures of_tagged { ⟦<Tagged<bool> as RoundTrip>⟧.law.fits b.now }
{}

/// A map is whose keys ascend, as those of each `BTreeMap` do, and so is a set.
pub fn ascending_keys_fit(a: &BTreeMap<u8, bool>, b: &BTreeSet<u8>)
    ensures of_map { IsStrictlySortedBy nat_cmp (keys_of a.now.entries)
        → AllByRecursion (λ e. (e.0 ≤ 255) × ⊤) a.now.entries
        → ⟦<BTreeMap<u8, bool> as RoundTrip>⟧.law.fits a.now }
    ensures of_set { IsStrictlySortedBy nat_cmp b.now.keys
        → AllByRecursion (λ n. n ≤ 255) b.now.keys
        → ⟦<BTreeSet<u8> as RoundTrip>⟧.law.fits b.now }
{}

/// A byte string whose length the type fixes is.
pub fn byte_arrays_fit<const N: usize>(a: ByteArray<N>)
    ensures { ⟦<ByteArray<N> as RoundTrip>⟧.law.fits a.entry }
{}

/// Longer tuples are whose parts are.
pub fn longer_tuples_fit(
    a: &(bool, bool, bool, bool),
    b: &(bool, bool, bool, bool, bool),
    c: &(bool, bool, bool, bool, bool, bool),
    d: &(bool, bool, bool, bool, bool, bool, bool),
    e: &(bool, bool, bool, bool, bool, bool, bool, bool),
)
    ensures of_four { ⟦<(bool, bool, bool, bool) as RoundTrip>⟧.law.fits a.now }
    ensures of_five { ⟦<(bool, bool, bool, bool, bool) as RoundTrip>⟧.law.fits b.now }
    ensures of_six { ⟦<(bool, bool, bool, bool, bool, bool) as RoundTrip>⟧.law.fits c.now }
    ensures of_seven { ⟦<(bool, bool, bool, bool, bool, bool, bool) as RoundTrip>⟧.law.fits d.now }
    ensures of_eight { ⟦<(bool, bool, bool, bool, bool, bool, bool, bool) as RoundTrip>⟧.law.fits e.now }
{}

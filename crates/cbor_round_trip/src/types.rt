//! The types of the standard library but its tuples, byte strings, floats and values.

use crate::round_trip::{RoundTrip, RoundTripKey};
use cbor_convert::{Encoded, Required, Tagged};
use cbor_value::bytes::{ByteArray, ByteBuf};
use cbor_value::raw_value::RawValue;
use cbor_value::{Float, Value};
use std::collections::{BTreeMap, BTreeSet};

impl RoundTrip for bool {
    ghost use Rattle.cbor_round_trip.specs.Scalars.{bool_back};
    ghost use Rattle.cbor_round_trip.specs.TypeLaws.{law_of};

    ghost law = { law_of bool_back };

    ghost back = { Self.law.back };
}

impl RoundTrip for () {
    ghost use Rattle.cbor_round_trip.specs.Scalars.{unit_back};
    ghost use Rattle.cbor_round_trip.specs.TypeLaws.{law_of};

    ghost law = { law_of unit_back };

    ghost back = { Self.law.back };
}

impl RoundTrip for u8 {
    ghost use Rattle.std.specs.Prelude.{◌-◌, ◌^◌};
    ghost use Rattle.cbor_round_trip.specs.Scalars.{from_zero_back};
    ghost use Rattle.cbor_round_trip.specs.TypeLaws.{law_of};

    ghost law = { law_of (from_zero_back (2 ^ 8 - 1)) };

    ghost back = { Self.law.back };
}

impl RoundTrip for u16 {
    ghost use Rattle.std.specs.Prelude.{◌-◌, ◌^◌};
    ghost use Rattle.cbor_round_trip.specs.Scalars.{from_zero_back};
    ghost use Rattle.cbor_round_trip.specs.TypeLaws.{law_of};

    ghost law = { law_of (from_zero_back (2 ^ 16 - 1)) };

    ghost back = { Self.law.back };
}

impl RoundTrip for u32 {
    ghost use Rattle.std.specs.Prelude.{◌-◌, ◌^◌};
    ghost use Rattle.cbor_round_trip.specs.Scalars.{from_zero_back};
    ghost use Rattle.cbor_round_trip.specs.TypeLaws.{law_of};

    ghost law = { law_of (from_zero_back (2 ^ 32 - 1)) };

    ghost back = { Self.law.back };
}

impl RoundTrip for u64 {
    ghost use Rattle.std.specs.Prelude.{◌-◌, ◌^◌};
    ghost use Rattle.cbor_round_trip.specs.Scalars.{from_zero_back};
    ghost use Rattle.cbor_round_trip.specs.TypeLaws.{law_of};

    ghost law = { law_of (from_zero_back (2 ^ 64 - 1)) };

    ghost back = { Self.law.back };
}

impl RoundTrip for u128 {
    ghost use Rattle.std.specs.Prelude.{◌-◌, ◌^◌};
    ghost use Rattle.cbor_round_trip.specs.Scalars.{from_zero_back};
    ghost use Rattle.cbor_round_trip.specs.TypeLaws.{law_of};

    ghost law = { law_of (from_zero_back (2 ^ 128 - 1)) };

    ghost back = { Self.law.back };
}

impl RoundTrip for usize {
    ghost use Rattle.std.specs.Prelude.{◌-◌, ◌^◌};
    ghost use Rattle.cbor_round_trip.specs.Scalars.{from_zero_back};
    ghost use Rattle.cbor_round_trip.specs.TypeLaws.{law_of};

    ghost law = { law_of (from_zero_back (2 ^ 64 - 1)) };

    ghost back = { Self.law.back };
}

impl RoundTrip for i8 {
    ghost use Rattle.std.specs.Prelude.{◌-◌, ◌^◌};
    ghost use Rattle.cbor_round_trip.specs.Scalars.{signed_back};
    ghost use Rattle.cbor_round_trip.specs.TypeLaws.{law_of};

    ghost law = { law_of (signed_back (2 ^ 7 - 1)) };

    ghost back = { Self.law.back };
}

impl RoundTrip for i16 {
    ghost use Rattle.std.specs.Prelude.{◌-◌, ◌^◌};
    ghost use Rattle.cbor_round_trip.specs.Scalars.{signed_back};
    ghost use Rattle.cbor_round_trip.specs.TypeLaws.{law_of};

    ghost law = { law_of (signed_back (2 ^ 15 - 1)) };

    ghost back = { Self.law.back };
}

impl RoundTrip for i32 {
    ghost use Rattle.std.specs.Prelude.{◌-◌, ◌^◌};
    ghost use Rattle.cbor_round_trip.specs.Scalars.{signed_back};
    ghost use Rattle.cbor_round_trip.specs.TypeLaws.{law_of};

    ghost law = { law_of (signed_back (2 ^ 31 - 1)) };

    ghost back = { Self.law.back };
}

impl RoundTrip for i64 {
    ghost use Rattle.std.specs.Prelude.{◌-◌, ◌^◌};
    ghost use Rattle.cbor_round_trip.specs.Scalars.{signed_back};
    ghost use Rattle.cbor_round_trip.specs.TypeLaws.{law_of};

    ghost law = { law_of (signed_back (2 ^ 63 - 1)) };

    ghost back = { Self.law.back };
}

impl RoundTrip for isize {
    ghost use Rattle.std.specs.Prelude.{◌-◌, ◌^◌};
    ghost use Rattle.cbor_round_trip.specs.Scalars.{signed_back};
    ghost use Rattle.cbor_round_trip.specs.TypeLaws.{law_of};

    ghost law = { law_of (signed_back (2 ^ 63 - 1)) };

    ghost back = { Self.law.back };
}

impl RoundTrip for i128 {
    ghost use Rattle.cbor_round_trip.specs.Scalars.{integer_back};
    ghost use Rattle.cbor_round_trip.specs.TypeLaws.{law_of};

    ghost law = { law_of integer_back };

    ghost back = { Self.law.back };
}

impl RoundTrip for Float {
    ghost use Rattle.cbor_round_trip.specs.Scalars.{float_back};
    ghost use Rattle.cbor_round_trip.specs.TypeLaws.{law_of};

    ghost law = { law_of float_back };

    ghost back = { Self.law.back };
}

/// Each number; and a NaN as a NaN.
impl RoundTrip for f32 {
    ghost use Rattle.cbor_round_trip.specs.Scalars.{single_back};
    ghost use Rattle.cbor_round_trip.specs.TypeLaws.{law_of};

    ghost law = { law_of single_back };

    ghost back = { Self.law.back };
}

/// Each number; and a NaN as a NaN.
impl RoundTrip for f64 {
    ghost use Rattle.cbor_round_trip.specs.Scalars.{double_back};
    ghost use Rattle.cbor_round_trip.specs.TypeLaws.{law_of};

    ghost law = { law_of double_back };

    ghost back = { Self.law.back };
}

impl RoundTrip for char {
    ghost use Rattle.cbor_round_trip.specs.Scalars.{char_back};
    ghost use Rattle.cbor_round_trip.specs.TypeLaws.{law_of};

    ghost law = { law_of char_back };

    ghost back = { Self.law.back };
}

impl RoundTrip for String {
    ghost use Rattle.cbor_round_trip.specs.Scalars.{text_back};
    ghost use Rattle.cbor_round_trip.specs.TypeLaws.{law_of};

    ghost law = { law_of text_back };

    ghost back = { Self.law.back };
}

impl RoundTrip for ByteBuf {
    ghost use Rattle.cbor_round_trip.specs.Scalars.{bytes_back};
    ghost use Rattle.cbor_round_trip.specs.TypeLaws.{law_of};

    ghost law = { law_of (bytes_back {items = λ b. b.0.items}) };

    ghost back = { Self.law.back };
}

impl RoundTrip for RawValue {
    ghost use Rattle.cbor_round_trip.specs.TypeLaws.{law_of};
    ghost use Rattle.cbor_round_trip.specs.Undecoded.{encoded_back};
    ghost use Rattle.cbor_value.specs.RawBytes.{raw_bytes};

    ghost law = { law_of (encoded_back {items = raw_bytes}) };

    ghost back = { Self.law.back };
}

impl<const N: usize> RoundTrip for ByteArray<N> {
    ghost use Rattle.cbor_round_trip.specs.Scalars.{byte_array_back};
    ghost use Rattle.cbor_round_trip.specs.TypeLaws.{law_of};

    ghost law = { law_of (byte_array_back {n = N} {items = λ b. b.0}) };

    ghost back = { byte_array_back };
}

/// Each value whose maps list their keys in order, as all maps of a program do.
impl RoundTrip for Value {
    ghost use Rattle.cbor_value.specs.View.{view};
    ghost use Rattle.cbor_round_trip.specs.Values.{value_back};
    ghost use Rattle.cbor_round_trip.specs.TypeLaws.{law_of};

    ghost law = { law_of (value_back view) };

    ghost back = { Self.law.back };
}

/// None, and Some of a value that isn't written as null: `Some(())` and `Some(None)` are, and are
/// read as None.
impl<T: RoundTrip> RoundTrip for Option<T> {
    ghost use Rattle.cbor_round_trip.specs.Options.{IsAbsentOrFits, option_back};
    ghost use Rattle.cbor_round_trip.specs.ReadBack.{asking_more};
    ghost use Rattle.cbor_round_trip.specs.TypeLaws.{law_asking};

    ghost law = { law_asking (IsAbsentOrFits T.document T.law.fits) (option_back T.law.back) };

    ghost back = { asking_more (λ o fit. fit.1) (option_back T.back) };
}

impl<T: RoundTrip> RoundTrip for Box<T> {
    ghost use Rattle.cbor_round_trip.specs.ReadBack.{by_part};
    ghost use Rattle.cbor_round_trip.specs.TypeLaws.{law_of};

    ghost law = { law_of (by_part (λ b. b.value) T.law.back) };

    ghost back = { by_part (λ b. b.value) T.back };
}

impl<T: RoundTrip> RoundTrip for Vec<T> {
    ghost use Rattle.cbor_round_trip.specs.Lists.{list_back};
    ghost use Rattle.cbor_round_trip.specs.TypeLaws.{law_of};

    ghost law = { law_of (list_back T.law.back {items = λ v. v.items}) };

    ghost back = { list_back T.back };
}

impl<T: RoundTrip, const N: usize> RoundTrip for [T; N] {
    ghost use Rattle.cbor_round_trip.specs.Lists.{array_back};
    ghost use Rattle.cbor_round_trip.specs.TypeLaws.{law_of};

    ghost law = { law_of (array_back T.law.back {n = N}) };

    ghost back = { array_back T.back };
}

/// Each map whose keys are written so that their order shows.
impl<K: RoundTripKey, V: RoundTrip> RoundTrip for BTreeMap<K, V> {
    ghost use Rattle.cbor_round_trip.specs.Keyed.{AreFit, map_back};
    ghost use Rattle.cbor_round_trip.specs.ReadBack.{asking_more, where_determined};
    ghost use Rattle.cbor_round_trip.specs.TypeLaws.{law_asking_both};

    ghost law = { law_asking_both (λ m. AreFit K.cmp K.law.fits V.law.fits m.entries)
        K.law.determined
        (map_back K.key.total K.key.reported K.key.back V.law.back {entries = λ m. m.entries}) };

    ghost back = { where_determined (λ d. (d.1, d.0.1))
        (asking_more (λ m fit. fit.1) (map_back K.Ord.total K.reported K.back V.back)) };
}

/// Each set whose items are written so that their order shows.
impl<T: RoundTripKey> RoundTrip for BTreeSet<T> {
    ghost use Rattle.cbor_round_trip.specs.Members.{AreFit, set_back};
    ghost use Rattle.cbor_round_trip.specs.ReadBack.{asking_more, where_determined};
    ghost use Rattle.cbor_round_trip.specs.TypeLaws.{law_asking_both};

    ghost law = { law_asking_both (λ s. AreFit T.cmp T.law.fits s.keys) T.law.determined
        (set_back T.key.total T.key.reported T.key.back {keys = λ s. s.keys}) };

    ghost back = { where_determined (λ d. d.1)
        (asking_more (λ s fit. fit.1) (set_back T.Ord.total T.reported T.back)) };
}

/// A value within a tag; and without one, a value that has none of its own, as a `Tagged` within
/// may.
impl<T: RoundTrip> RoundTrip for Tagged<T> {
    ghost use Rattle.cbor_round_trip.specs.ReadBack.{asking_more};
    ghost use Rattle.cbor_round_trip.specs.Tagged.{IsToldApart, tagged_back};
    ghost use Rattle.cbor_round_trip.specs.TypeLaws.{law_asking};

    ghost law = { law_asking (λ t. IsToldApart t.tag (T.document t.value) × T.law.fits t.value)
        (tagged_back T.law.back {tag = λ t. t.tag} {inner = λ t. t.value}) };

    ghost back = { asking_more (λ t fit. fit.1) (tagged_back T.back) };
}

/// A value within a tag that it has to have.
impl<const N: u64, T: RoundTrip> RoundTrip for Required<N, T> {
    ghost use Rattle.cbor_round_trip.specs.Tagged.{required_back};
    ghost use Rattle.cbor_round_trip.specs.TypeLaws.{law_of};

    ghost law = { law_of (required_back T.law.back {n = N} {inner = λ x. x.0}) };

    ghost back = { required_back T.back };
}

/// An encoding within its tag.
impl<T> RoundTrip for Encoded<T> {
    ghost use Rattle.cbor_round_trip.specs.ReadBack.{by_part};
    ghost use Rattle.cbor_round_trip.specs.TypeLaws.{law_of};

    ghost law = { law_of (by_part (λ e. e.tagged)
        ⟦<Required<24, ByteBuf> as RoundTrip>⟧.law.back) };

    ghost back = { Self.law.back };
}

impl RoundTripKey for String {
    ghost use Rattle.cbor_round_trip.specs.Keyed.{texts_reported, texts_total};
    ghost use Rattle.cbor_round_trip.specs.TypeLaws.{key_law};

    ghost key = { key_law ⟦<String as RoundTrip>⟧.law.back texts_total texts_reported };

    ghost reported = { texts_reported };
}

impl RoundTripKey for u8 {
    ghost use Rattle.std.proofs.lemmas.Cmp.{nat_cmp_total};
    ghost use Rattle.cbor_round_trip.specs.Keyed.{naturals_reported};
    ghost use Rattle.cbor_round_trip.specs.TypeLaws.{key_law};

    ghost key = { key_law ⟦<u8 as RoundTrip>⟧.law.back nat_cmp_total naturals_reported };

    ghost reported = { naturals_reported };
}

impl RoundTripKey for u16 {
    ghost use Rattle.std.proofs.lemmas.Cmp.{nat_cmp_total};
    ghost use Rattle.cbor_round_trip.specs.Keyed.{naturals_reported};
    ghost use Rattle.cbor_round_trip.specs.TypeLaws.{key_law};

    ghost key = { key_law ⟦<u16 as RoundTrip>⟧.law.back nat_cmp_total naturals_reported };

    ghost reported = { naturals_reported };
}

impl RoundTripKey for u32 {
    ghost use Rattle.std.proofs.lemmas.Cmp.{nat_cmp_total};
    ghost use Rattle.cbor_round_trip.specs.Keyed.{naturals_reported};
    ghost use Rattle.cbor_round_trip.specs.TypeLaws.{key_law};

    ghost key = { key_law ⟦<u32 as RoundTrip>⟧.law.back nat_cmp_total naturals_reported };

    ghost reported = { naturals_reported };
}

impl RoundTripKey for u64 {
    ghost use Rattle.std.proofs.lemmas.Cmp.{nat_cmp_total};
    ghost use Rattle.cbor_round_trip.specs.Keyed.{naturals_reported};
    ghost use Rattle.cbor_round_trip.specs.TypeLaws.{key_law};

    ghost key = { key_law ⟦<u64 as RoundTrip>⟧.law.back nat_cmp_total naturals_reported };

    ghost reported = { naturals_reported };
}

impl RoundTripKey for u128 {
    ghost use Rattle.std.proofs.lemmas.Cmp.{nat_cmp_total};
    ghost use Rattle.cbor_round_trip.specs.Keyed.{naturals_reported};
    ghost use Rattle.cbor_round_trip.specs.TypeLaws.{key_law};

    ghost key = { key_law ⟦<u128 as RoundTrip>⟧.law.back nat_cmp_total naturals_reported };

    ghost reported = { naturals_reported };
}

impl RoundTripKey for usize {
    ghost use Rattle.std.proofs.lemmas.Cmp.{nat_cmp_total};
    ghost use Rattle.cbor_round_trip.specs.Keyed.{naturals_reported};
    ghost use Rattle.cbor_round_trip.specs.TypeLaws.{key_law};

    ghost key = { key_law ⟦<usize as RoundTrip>⟧.law.back nat_cmp_total naturals_reported };

    ghost reported = { naturals_reported };
}

impl RoundTripKey for i8 {
    ghost use Rattle.std.proofs.lemmas.Cmp.{int_cmp_total};
    ghost use Rattle.cbor_round_trip.specs.Keyed.{integers_reported};
    ghost use Rattle.cbor_round_trip.specs.TypeLaws.{key_law};

    ghost key = { key_law ⟦<i8 as RoundTrip>⟧.law.back int_cmp_total integers_reported };

    ghost reported = { integers_reported };
}

impl RoundTripKey for i16 {
    ghost use Rattle.std.proofs.lemmas.Cmp.{int_cmp_total};
    ghost use Rattle.cbor_round_trip.specs.Keyed.{integers_reported};
    ghost use Rattle.cbor_round_trip.specs.TypeLaws.{key_law};

    ghost key = { key_law ⟦<i16 as RoundTrip>⟧.law.back int_cmp_total integers_reported };

    ghost reported = { integers_reported };
}

impl RoundTripKey for i32 {
    ghost use Rattle.std.proofs.lemmas.Cmp.{int_cmp_total};
    ghost use Rattle.cbor_round_trip.specs.Keyed.{integers_reported};
    ghost use Rattle.cbor_round_trip.specs.TypeLaws.{key_law};

    ghost key = { key_law ⟦<i32 as RoundTrip>⟧.law.back int_cmp_total integers_reported };

    ghost reported = { integers_reported };
}

impl RoundTripKey for i64 {
    ghost use Rattle.std.proofs.lemmas.Cmp.{int_cmp_total};
    ghost use Rattle.cbor_round_trip.specs.Keyed.{integers_reported};
    ghost use Rattle.cbor_round_trip.specs.TypeLaws.{key_law};

    ghost key = { key_law ⟦<i64 as RoundTrip>⟧.law.back int_cmp_total integers_reported };

    ghost reported = { integers_reported };
}

impl RoundTripKey for i128 {
    ghost use Rattle.std.proofs.lemmas.Cmp.{int_cmp_total};
    ghost use Rattle.cbor_round_trip.specs.Keyed.{integers_reported};
    ghost use Rattle.cbor_round_trip.specs.TypeLaws.{key_law};

    ghost key = { key_law ⟦<i128 as RoundTrip>⟧.law.back int_cmp_total integers_reported };

    ghost reported = { integers_reported };
}

impl RoundTripKey for isize {
    ghost use Rattle.std.proofs.lemmas.Cmp.{int_cmp_total};
    ghost use Rattle.cbor_round_trip.specs.Keyed.{integers_reported};
    ghost use Rattle.cbor_round_trip.specs.TypeLaws.{key_law};

    ghost key = { key_law ⟦<isize as RoundTrip>⟧.law.back int_cmp_total integers_reported };

    ghost reported = { integers_reported };
}

//! Enums that are read as one of their variants.

ghost use Rattle.std.specs.Prelude.{◌≡◌};
ghost use Rattle.cbor_described.specs.OneOfs.{list1, list2, list3, list4, list5};

use crate::parts::{ReadParts, ReadableParts};
use crate::variant::{ReadVariant, Variant};
use crate::variant_list::{Never, OneOf, read_variants};
use cbor_de::{Deserializer, Read};
use cbor_io::error::Result;
use cbor_parts::{FieldKeys, OneOf1, OneOf2, OneOf3, OneOf4, OneOf5};

impl<A: Variant> ReadableParts for OneOf1<A> {
    ghost use Rattle.std.specs.Prelude.{true};
    ghost use Rattle.cbor_model.specs.Readable.{PassesTags};
    ghost use Rattle.cbor_decode_as.specs.Enums.{IsEnum};
    ghost use Rattle.cbor_de.specs.Calls.{and_reports};
    ghost use Rattle.cbor_de.specs.Forms.{any_of, enum_form, never};
    ghost use Rattle.cbor_described.specs.EnumMemory.{AsksForEnum, asks_either, asks_no_variant};
    ghost use Rattle.cbor_described.specs.OneOfs.{either, no_variant, list1};

    ghost reads = { λ keys c r x. PassesTags
        (IsEnum c.formats keys.names (either (A.means c) no_variant)) r (list1 x) };

    ghost wrong_forms = { any_of enum_form (any_of A.wrong_forms never) };

    ghost reports_faults = { and_reports A.reports_faults true };

    ghost asks_memory = { λ keys a. AsksForEnum keys.names a
        (asks_either (A.asks_memory a)
        asks_no_variant) };
}

impl<'de, R: Read<'de>, A: ReadVariant<'de, R>> ReadParts<'de, R> for OneOf1<A> {
    fn read_parts(de: &mut Deserializer<R>, keys: &FieldKeys<'_>) -> Result<OneOf1<A>> {
        match read_variants::<R, OneOf<A, Never>>(de, keys.names) {
            Ok(parts) => Ok(one_of1(parts)),
            Err(e) => Err(e),
        }
    }
}

// The variant in its place.
fn one_of1<A: Drop>(list: OneOf<A, Never>) -> OneOf1<A>
    ensures { list1 result ≡ list }
{
    match list {
        OneOf::This(x) => OneOf1::First(x),
    }
}

impl<A: Variant, B: Variant> ReadableParts for OneOf2<A, B> {
    ghost use Rattle.std.specs.Prelude.{true};
    ghost use Rattle.cbor_model.specs.Readable.{PassesTags};
    ghost use Rattle.cbor_decode_as.specs.Enums.{IsEnum};
    ghost use Rattle.cbor_de.specs.Calls.{and_reports};
    ghost use Rattle.cbor_de.specs.Forms.{any_of, enum_form, never};
    ghost use Rattle.cbor_described.specs.EnumMemory.{AsksForEnum, asks_either, asks_no_variant};
    ghost use Rattle.cbor_described.specs.OneOfs.{either, no_variant, list2};

    ghost reads = { λ keys c r x. PassesTags
        (IsEnum c.formats keys.names (either (A.means c) (either (B.means c) no_variant))) r (list2 x) };

    ghost wrong_forms = { any_of enum_form (any_of A.wrong_forms (any_of B.wrong_forms never)) };

    ghost reports_faults = { and_reports A.reports_faults (and_reports B.reports_faults true) };

    ghost asks_memory = { λ keys a. AsksForEnum keys.names a
        (asks_either (A.asks_memory a)
        (asks_either (B.asks_memory a)
        asks_no_variant)) };
}

impl<'de, R: Read<'de>, A: ReadVariant<'de, R>, B: ReadVariant<'de, R>> ReadParts<'de, R>
    for OneOf2<A, B> {
    fn read_parts(de: &mut Deserializer<R>, keys: &FieldKeys<'_>) -> Result<OneOf2<A, B>> {
        match read_variants::<R, OneOf<A, OneOf<B, Never>>>(de, keys.names) {
            Ok(parts) => Ok(one_of2(parts)),
            Err(e) => Err(e),
        }
    }
}

// The variant in its place.
fn one_of2<A: Drop, B: Drop>(list: OneOf<A, OneOf<B, Never>>) -> OneOf2<A, B>
    ensures { list2 result ≡ list }
{
    match list {
        OneOf::This(x) => OneOf2::First(x),
        OneOf::Other(OneOf::This(x)) => OneOf2::Second(x),
    }
}

impl<A: Variant, B: Variant, C: Variant> ReadableParts for OneOf3<A, B, C> {
    ghost use Rattle.std.specs.Prelude.{true};
    ghost use Rattle.cbor_model.specs.Readable.{PassesTags};
    ghost use Rattle.cbor_decode_as.specs.Enums.{IsEnum};
    ghost use Rattle.cbor_de.specs.Calls.{and_reports};
    ghost use Rattle.cbor_de.specs.Forms.{any_of, enum_form, never};
    ghost use Rattle.cbor_described.specs.EnumMemory.{AsksForEnum, asks_either, asks_no_variant};
    ghost use Rattle.cbor_described.specs.OneOfs.{either, no_variant, list3};

    ghost reads = { λ keys c r x. PassesTags
        (IsEnum c.formats keys.names (either (A.means c)
        (either (B.means c) (either (C.means c) no_variant))))
        r (list3 x) };

    ghost wrong_forms = { any_of enum_form (any_of A.wrong_forms (any_of B.wrong_forms
        (any_of C.wrong_forms never))) };

    ghost reports_faults = { and_reports A.reports_faults (and_reports B.reports_faults
        (and_reports C.reports_faults true)) };

    ghost asks_memory = { λ keys a. AsksForEnum keys.names a
        (asks_either (A.asks_memory a)
        (asks_either (B.asks_memory a)
        (asks_either (C.asks_memory a)
        asks_no_variant))) };
}

impl<
    'de,
    R: Read<'de>,
    A: ReadVariant<'de, R>,
    B: ReadVariant<'de, R>,
    C: ReadVariant<'de, R>,
> ReadParts<'de, R> for OneOf3<A, B, C> {
    fn read_parts(de: &mut Deserializer<R>, keys: &FieldKeys<'_>) -> Result<OneOf3<A, B, C>> {
        match read_variants::<R, OneOf<A, OneOf<B, OneOf<C, Never>>>>(de, keys.names) {
            Ok(parts) => Ok(one_of3(parts)),
            Err(e) => Err(e),
        }
    }
}

// The variant in its place.
fn one_of3<A: Drop, B: Drop, C: Drop>(list: OneOf<A, OneOf<B, OneOf<C, Never>>>) -> OneOf3<A, B, C>
    ensures { list3 result ≡ list }
{
    match list {
        OneOf::This(x) => OneOf3::First(x),
        OneOf::Other(OneOf::This(x)) => OneOf3::Second(x),
        OneOf::Other(OneOf::Other(OneOf::This(x))) => OneOf3::Third(x),
    }
}

impl<A: Variant, B: Variant, C: Variant, D: Variant> ReadableParts for OneOf4<A, B, C, D> {
    ghost use Rattle.std.specs.Prelude.{true};
    ghost use Rattle.cbor_model.specs.Readable.{PassesTags};
    ghost use Rattle.cbor_decode_as.specs.Enums.{IsEnum};
    ghost use Rattle.cbor_de.specs.Calls.{and_reports};
    ghost use Rattle.cbor_de.specs.Forms.{any_of, enum_form, never};
    ghost use Rattle.cbor_described.specs.EnumMemory.{AsksForEnum, asks_either, asks_no_variant};
    ghost use Rattle.cbor_described.specs.OneOfs.{either, no_variant, list4};

    ghost reads = { λ keys c r x. PassesTags
        (IsEnum c.formats keys.names (either (A.means c)
        (either (B.means c)
        (either (C.means c) (either (D.means c) no_variant)))))
        r (list4 x) };

    ghost wrong_forms = { any_of enum_form (any_of A.wrong_forms (any_of B.wrong_forms
        (any_of C.wrong_forms
        (any_of D.wrong_forms never)))) };

    ghost reports_faults = { and_reports A.reports_faults (and_reports B.reports_faults
        (and_reports C.reports_faults (and_reports D.reports_faults true))) };

    ghost asks_memory = { λ keys a. AsksForEnum keys.names a
        (asks_either (A.asks_memory a)
        (asks_either (B.asks_memory a)
        (asks_either (C.asks_memory a)
        (asks_either (D.asks_memory a)
        asks_no_variant)))) };
}

impl<
    'de,
    R: Read<'de>,
    A: ReadVariant<'de, R>,
    B: ReadVariant<'de, R>,
    C: ReadVariant<'de, R>,
    D: ReadVariant<'de, R>,
> ReadParts<'de, R> for OneOf4<A, B, C, D> {
    fn read_parts(de: &mut Deserializer<R>, keys: &FieldKeys<'_>) -> Result<OneOf4<A, B, C, D>> {
        match read_variants::<R, OneOf<A, OneOf<B, OneOf<C, OneOf<D, Never>>>>>(de, keys.names) {
            Ok(parts) => Ok(one_of4(parts)),
            Err(e) => Err(e),
        }
    }
}

// The variant in its place.
fn one_of4<A: Drop, B: Drop, C: Drop, D: Drop>(
    list: OneOf<A, OneOf<B, OneOf<C, OneOf<D, Never>>>>,
) -> OneOf4<A, B, C, D>
    ensures { list4 result ≡ list }
{
    match list {
        OneOf::This(x) => OneOf4::First(x),
        OneOf::Other(OneOf::This(x)) => OneOf4::Second(x),
        OneOf::Other(OneOf::Other(OneOf::This(x))) => OneOf4::Third(x),
        OneOf::Other(OneOf::Other(OneOf::Other(OneOf::This(x)))) => OneOf4::Fourth(x),
    }
}

impl<A: Variant, B: Variant, C: Variant, D: Variant, E: Variant> ReadableParts
    for OneOf5<A, B, C, D, E> {
    ghost use Rattle.std.specs.Prelude.{true};
    ghost use Rattle.cbor_model.specs.Readable.{PassesTags};
    ghost use Rattle.cbor_decode_as.specs.Enums.{IsEnum};
    ghost use Rattle.cbor_de.specs.Calls.{and_reports};
    ghost use Rattle.cbor_de.specs.Forms.{any_of, enum_form, never};
    ghost use Rattle.cbor_described.specs.EnumMemory.{AsksForEnum, asks_either, asks_no_variant};
    ghost use Rattle.cbor_described.specs.OneOfs.{either, no_variant, list5};

    ghost reads = { λ keys c r x. PassesTags
        (IsEnum c.formats keys.names (either (A.means c)
        (either (B.means c)
        (either (C.means c)
        (either (D.means c)
        (either (E.means c) no_variant))))))
        r (list5 x) };

    ghost wrong_forms = { any_of enum_form (any_of A.wrong_forms (any_of B.wrong_forms
        (any_of C.wrong_forms
        (any_of D.wrong_forms (any_of E.wrong_forms never))))) };

    ghost reports_faults = { and_reports A.reports_faults (and_reports B.reports_faults
        (and_reports C.reports_faults (and_reports D.reports_faults
        (and_reports E.reports_faults true)))) };

    ghost asks_memory = { λ keys a. AsksForEnum keys.names a
        (asks_either (A.asks_memory a)
        (asks_either (B.asks_memory a)
        (asks_either (C.asks_memory a)
        (asks_either (D.asks_memory a)
        (asks_either (E.asks_memory a)
        asks_no_variant))))) };
}

impl<
    'de,
    R: Read<'de>,
    A: ReadVariant<'de, R>,
    B: ReadVariant<'de, R>,
    C: ReadVariant<'de, R>,
    D: ReadVariant<'de, R>,
    E: ReadVariant<'de, R>,
> ReadParts<'de, R> for OneOf5<A, B, C, D, E> {
    fn read_parts(de: &mut Deserializer<R>, keys: &FieldKeys<'_>) -> Result<OneOf5<A, B, C, D, E>> {
        match read_variants::<R, OneOf<A, OneOf<B, OneOf<C, OneOf<D, OneOf<E, Never>>>>>>(
            de, keys.names,
        ) {
            Ok(parts) => Ok(one_of5(parts)),
            Err(e) => Err(e),
        }
    }
}

// The variant in its place.
fn one_of5<A: Drop, B: Drop, C: Drop, D: Drop, E: Drop>(
    list: OneOf<A, OneOf<B, OneOf<C, OneOf<D, OneOf<E, Never>>>>>,
) -> OneOf5<A, B, C, D, E>
    ensures { list5 result ≡ list }
{
    match list {
        OneOf::This(x) => OneOf5::First(x),
        OneOf::Other(OneOf::This(x)) => OneOf5::Second(x),
        OneOf::Other(OneOf::Other(OneOf::This(x))) => OneOf5::Third(x),
        OneOf::Other(OneOf::Other(OneOf::Other(OneOf::This(x)))) => OneOf5::Fourth(x),
        OneOf::Other(OneOf::Other(OneOf::Other(OneOf::Other(OneOf::This(x))))) => OneOf5::Fifth(x),
    }
}

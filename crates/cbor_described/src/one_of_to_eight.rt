//! Enums of six to eight variants, that are read as one of them.

ghost use Rattle.std.specs.Prelude.{◌≡◌};
ghost use Rattle.cbor_described.specs.OneOfs.{list6, list7, list8};

use crate::parts::{ReadParts, ReadableParts};
use crate::variant::{ReadVariant, Variant};
use crate::variant_list::{Never, OneOf, read_variants};
use cbor_de::{Deserializer, Read};
use cbor_io::error::Result;
use cbor_parts::{FieldKeys, OneOf6, OneOf7, OneOf8};

impl<A: Variant, B: Variant, C: Variant, D: Variant, E: Variant, F: Variant> ReadableParts
    for OneOf6<A, B, C, D, E, F> {
    ghost use Rattle.std.specs.Prelude.{true};
    ghost use Rattle.cbor_model.specs.Readable.{PassesTags};
    ghost use Rattle.cbor_decode_as.specs.Enums.{IsEnum};
    ghost use Rattle.cbor_de.specs.Calls.{and_reports};
    ghost use Rattle.cbor_de.specs.Forms.{any_of, enum_form, never};
    ghost use Rattle.cbor_described.specs.EnumMemory.{AsksForEnum, asks_either, asks_no_variant};
    ghost use Rattle.cbor_described.specs.OneOfs.{either, no_variant, list6};

    ghost reads = { λ keys c r x. PassesTags
        (IsEnum c.formats keys.names (either (A.means c)
        (either (B.means c)
        (either (C.means c)
        (either (D.means c)
        (either (E.means c)
        (either (F.means c) no_variant)))))))
        r (list6 x) };

    ghost wrong_forms = { any_of enum_form (any_of A.wrong_forms (any_of B.wrong_forms
        (any_of C.wrong_forms
        (any_of D.wrong_forms (any_of E.wrong_forms (any_of F.wrong_forms never)))))) };

    ghost reports_faults = { and_reports A.reports_faults (and_reports B.reports_faults
        (and_reports C.reports_faults (and_reports D.reports_faults
        (and_reports E.reports_faults (and_reports F.reports_faults true))))) };

    ghost asks_memory = { λ keys a. AsksForEnum keys.names a
        (asks_either (A.asks_memory a)
        (asks_either (B.asks_memory a)
        (asks_either (C.asks_memory a)
        (asks_either (D.asks_memory a)
        (asks_either (E.asks_memory a)
        (asks_either (F.asks_memory a)
        asks_no_variant)))))) };
}

impl<
    'de,
    R: Read<'de>,
    A: ReadVariant<'de, R>,
    B: ReadVariant<'de, R>,
    C: ReadVariant<'de, R>,
    D: ReadVariant<'de, R>,
    E: ReadVariant<'de, R>,
    F: ReadVariant<'de, R>,
> ReadParts<'de, R> for OneOf6<A, B, C, D, E, F> {
    fn read_parts(
        de: &mut Deserializer<R>,
        keys: &FieldKeys<'_>,
    ) -> Result<OneOf6<A, B, C, D, E, F>> {
        match read_variants::<R, OneOf<A, OneOf<B, OneOf<C, OneOf<D, OneOf<E, OneOf<F, Never>>>>>>>(
            de, keys.names,
        ) {
            Ok(parts) => Ok(one_of6(parts)),
            Err(e) => Err(e),
        }
    }
}

// The variant in its place.
fn one_of6<A: Drop, B: Drop, C: Drop, D: Drop, E: Drop, F: Drop>(
    list: OneOf<A, OneOf<B, OneOf<C, OneOf<D, OneOf<E, OneOf<F, Never>>>>>>,
) -> OneOf6<A, B, C, D, E, F>
    ensures { list6 result ≡ list }
{
    match list {
        OneOf::This(x) => OneOf6::First(x),
        OneOf::Other(OneOf::This(x)) => OneOf6::Second(x),
        OneOf::Other(OneOf::Other(OneOf::This(x))) => OneOf6::Third(x),
        OneOf::Other(OneOf::Other(OneOf::Other(OneOf::This(x)))) => OneOf6::Fourth(x),
        OneOf::Other(OneOf::Other(OneOf::Other(OneOf::Other(OneOf::This(x))))) => OneOf6::Fifth(x),
        OneOf::Other(OneOf::Other(OneOf::Other(OneOf::Other(OneOf::Other(OneOf::This(x)))))) =>
            OneOf6::Sixth(x),
    }
}

impl<
    A: Variant,
    B: Variant,
    C: Variant,
    D: Variant,
    E: Variant,
    F: Variant,
    G: Variant,
> ReadableParts for OneOf7<A, B, C, D, E, F, G> {
    ghost use Rattle.std.specs.Prelude.{true};
    ghost use Rattle.cbor_model.specs.Readable.{PassesTags};
    ghost use Rattle.cbor_decode_as.specs.Enums.{IsEnum};
    ghost use Rattle.cbor_de.specs.Calls.{and_reports};
    ghost use Rattle.cbor_de.specs.Forms.{any_of, enum_form, never};
    ghost use Rattle.cbor_described.specs.EnumMemory.{AsksForEnum, asks_either, asks_no_variant};
    ghost use Rattle.cbor_described.specs.OneOfs.{either, no_variant, list7};

    ghost reads = { λ keys c r x. PassesTags
        (IsEnum c.formats keys.names (either (A.means c)
        (either (B.means c)
        (either (C.means c)
        (either (D.means c)
        (either (E.means c)
        (either (F.means c)
        (either (G.means c) no_variant))))))))
        r (list7 x) };

    ghost wrong_forms = { any_of enum_form (any_of A.wrong_forms (any_of B.wrong_forms
        (any_of C.wrong_forms
        (any_of D.wrong_forms (any_of E.wrong_forms (any_of F.wrong_forms
        (any_of G.wrong_forms never))))))) };

    ghost reports_faults = { and_reports A.reports_faults (and_reports B.reports_faults
        (and_reports C.reports_faults (and_reports D.reports_faults
        (and_reports E.reports_faults (and_reports F.reports_faults
        (and_reports G.reports_faults true)))))) };

    ghost asks_memory = { λ keys a. AsksForEnum keys.names a
        (asks_either (A.asks_memory a)
        (asks_either (B.asks_memory a)
        (asks_either (C.asks_memory a)
        (asks_either (D.asks_memory a)
        (asks_either (E.asks_memory a)
        (asks_either (F.asks_memory a)
        (asks_either (G.asks_memory a)
        asks_no_variant))))))) };
}

impl<
    'de,
    R: Read<'de>,
    A: ReadVariant<'de, R>,
    B: ReadVariant<'de, R>,
    C: ReadVariant<'de, R>,
    D: ReadVariant<'de, R>,
    E: ReadVariant<'de, R>,
    F: ReadVariant<'de, R>,
    G: ReadVariant<'de, R>,
> ReadParts<'de, R> for OneOf7<A, B, C, D, E, F, G> {
    fn read_parts(
        de: &mut Deserializer<R>,
        keys: &FieldKeys<'_>,
    ) -> Result<OneOf7<A, B, C, D, E, F, G>> {
        match read_variants::<
            R,
            OneOf<A, OneOf<B, OneOf<C, OneOf<D, OneOf<E, OneOf<F, OneOf<G, Never>>>>>>>,
        >(de, keys.names)
        {
            Ok(parts) => Ok(one_of7(parts)),
            Err(e) => Err(e),
        }
    }
}

// The variant in its place.
fn one_of7<A: Drop, B: Drop, C: Drop, D: Drop, E: Drop, F: Drop, G: Drop>(
    list: OneOf<A, OneOf<B, OneOf<C, OneOf<D, OneOf<E, OneOf<F, OneOf<G, Never>>>>>>>,
) -> OneOf7<A, B, C, D, E, F, G>
    ensures { list7 result ≡ list }
{
    match list {
        OneOf::This(x) => OneOf7::First(x),
        OneOf::Other(OneOf::This(x)) => OneOf7::Second(x),
        OneOf::Other(OneOf::Other(OneOf::This(x))) => OneOf7::Third(x),
        OneOf::Other(OneOf::Other(OneOf::Other(OneOf::This(x)))) => OneOf7::Fourth(x),
        OneOf::Other(OneOf::Other(OneOf::Other(OneOf::Other(OneOf::This(x))))) => OneOf7::Fifth(x),
        OneOf::Other(OneOf::Other(OneOf::Other(OneOf::Other(OneOf::Other(OneOf::This(x)))))) =>
            OneOf7::Sixth(x),
        OneOf::Other(
            OneOf::Other(OneOf::Other(OneOf::Other(OneOf::Other(OneOf::Other(OneOf::This(x)))))),
        ) => OneOf7::Seventh(x),
    }
}

impl<
    A: Variant,
    B: Variant,
    C: Variant,
    D: Variant,
    E: Variant,
    F: Variant,
    G: Variant,
    H: Variant,
> ReadableParts for OneOf8<A, B, C, D, E, F, G, H> {
    ghost use Rattle.std.specs.Prelude.{true};
    ghost use Rattle.cbor_model.specs.Readable.{PassesTags};
    ghost use Rattle.cbor_decode_as.specs.Enums.{IsEnum};
    ghost use Rattle.cbor_de.specs.Calls.{and_reports};
    ghost use Rattle.cbor_de.specs.Forms.{any_of, enum_form, never};
    ghost use Rattle.cbor_described.specs.EnumMemory.{AsksForEnum, asks_either, asks_no_variant};
    ghost use Rattle.cbor_described.specs.OneOfs.{either, no_variant, list8};

    ghost reads = { λ keys c r x. PassesTags
        (IsEnum c.formats keys.names (either (A.means c)
        (either (B.means c)
        (either (C.means c)
        (either (D.means c)
        (either (E.means c)
        (either (F.means c)
        (either (G.means c)
        (either (H.means c) no_variant)))))))))
        r (list8 x) };

    ghost wrong_forms = { any_of enum_form (any_of A.wrong_forms (any_of B.wrong_forms
        (any_of C.wrong_forms
        (any_of D.wrong_forms (any_of E.wrong_forms (any_of F.wrong_forms (any_of G.wrong_forms
        (any_of H.wrong_forms never)))))))) };

    ghost reports_faults = { and_reports A.reports_faults (and_reports B.reports_faults
        (and_reports C.reports_faults (and_reports D.reports_faults
        (and_reports E.reports_faults (and_reports F.reports_faults
        (and_reports G.reports_faults (and_reports H.reports_faults true))))))) };

    ghost asks_memory = { λ keys a. AsksForEnum keys.names a
        (asks_either (A.asks_memory a)
        (asks_either (B.asks_memory a)
        (asks_either (C.asks_memory a)
        (asks_either (D.asks_memory a)
        (asks_either (E.asks_memory a)
        (asks_either (F.asks_memory a)
        (asks_either (G.asks_memory a)
        (asks_either (H.asks_memory a)
        asks_no_variant)))))))) };
}

impl<
    'de,
    R: Read<'de>,
    A: ReadVariant<'de, R>,
    B: ReadVariant<'de, R>,
    C: ReadVariant<'de, R>,
    D: ReadVariant<'de, R>,
    E: ReadVariant<'de, R>,
    F: ReadVariant<'de, R>,
    G: ReadVariant<'de, R>,
    H: ReadVariant<'de, R>,
> ReadParts<'de, R> for OneOf8<A, B, C, D, E, F, G, H> {
    fn read_parts(
        de: &mut Deserializer<R>,
        keys: &FieldKeys<'_>,
    ) -> Result<OneOf8<A, B, C, D, E, F, G, H>> {
        match read_variants::<
            R,
            OneOf<A, OneOf<B, OneOf<C, OneOf<D, OneOf<E, OneOf<F, OneOf<G, OneOf<H, Never>>>>>>>>,
        >(de, keys.names)
        {
            Ok(parts) => Ok(one_of8(parts)),
            Err(e) => Err(e),
        }
    }
}

// The variant in its place.
fn one_of8<A: Drop, B: Drop, C: Drop, D: Drop, E: Drop, F: Drop, G: Drop, H: Drop>(
    list: OneOf<A, OneOf<B, OneOf<C, OneOf<D, OneOf<E, OneOf<F, OneOf<G, OneOf<H, Never>>>>>>>>,
) -> OneOf8<A, B, C, D, E, F, G, H>
    ensures { list8 result ≡ list }
{
    match list {
        OneOf::This(x) => OneOf8::First(x),
        OneOf::Other(OneOf::This(x)) => OneOf8::Second(x),
        OneOf::Other(OneOf::Other(OneOf::This(x))) => OneOf8::Third(x),
        OneOf::Other(OneOf::Other(OneOf::Other(OneOf::This(x)))) => OneOf8::Fourth(x),
        OneOf::Other(OneOf::Other(OneOf::Other(OneOf::Other(OneOf::This(x))))) => OneOf8::Fifth(x),
        OneOf::Other(OneOf::Other(OneOf::Other(OneOf::Other(OneOf::Other(OneOf::This(x)))))) =>
            OneOf8::Sixth(x),
        OneOf::Other(
            OneOf::Other(OneOf::Other(OneOf::Other(OneOf::Other(OneOf::Other(OneOf::This(x)))))),
        ) => OneOf8::Seventh(x),
        OneOf::Other(
            OneOf::Other(
                OneOf::Other(
                    OneOf::Other(OneOf::Other(OneOf::Other(OneOf::Other(OneOf::This(x))))),
                ),
            ),
        ) => OneOf8::Eighth(x),
    }
}

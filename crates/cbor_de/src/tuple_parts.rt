//! Tuples of up to eight parts, each read as the list of them.

use crate::de::Deserializer;
use crate::deserialize::{Deserialize, Readable};
use crate::item_list::{ReadItems, ReadTuple, ReadableTuple};
use cbor_decode::Remaining;
use cbor_io::error::Result;
use cbor_read::Read;

impl<A: Readable> ReadableTuple for (A,) {
    ghost use Rattle.std.specs.Prelude.{true};
    ghost use Rattle.cbor_de.specs.Calls.{and_reports, reports_any};
    ghost use Rattle.cbor_de.specs.Forms.{any_of, never};
    ghost use Rattle.cbor_decode_as.specs.Enums.{part_then, no_part};

    ghost parts = { λ c all x. part_then (A.reads c) no_part all (x.0, tt) };

    ghost wrong_forms = { any_of A.wrong_forms never };

    ghost reports_faults = { and_reports (reports_any A.passes_over A.total A.reports_faults)
        true };
}

impl<'de, R: Read<'de>, A: Deserialize<'de, R>> ReadTuple<'de, R> for (A,) {
    #[inline(always)]
    fn read_tuple(de: &mut Deserializer<R>, remaining: Remaining) -> Result<(A,)> {
        match <(A, ()) as ReadItems<'de, R>>::read_items(de, remaining, 0, 1) {
            Ok(parts) => {
                let (a, ()) = parts;
                Ok((a,))
            }
            Err(e) => Err(e),
        }
    }
}

impl<A: Readable, B: Readable> ReadableTuple for (A, B) {
    ghost use Rattle.std.specs.Prelude.{true};
    ghost use Rattle.cbor_de.specs.Calls.{and_reports, reports_any};
    ghost use Rattle.cbor_de.specs.Forms.{any_of, never};
    ghost use Rattle.cbor_decode_as.specs.Enums.{part_then, no_part};

    ghost parts = { λ c all x. part_then (A.reads c)
        (part_then (B.reads c) no_part)
        all (x.0, (x.1, tt)) };

    ghost wrong_forms = { any_of A.wrong_forms (any_of B.wrong_forms never) };

    ghost reports_faults = { and_reports (reports_any A.passes_over A.total A.reports_faults)
        (and_reports (reports_any B.passes_over B.total B.reports_faults)
        true) };
}

impl<'de, R: Read<'de>, A: Deserialize<'de, R>, B: Deserialize<'de, R>> ReadTuple<'de, R>
    for (A, B) {
    #[inline(always)]
    fn read_tuple(de: &mut Deserializer<R>, remaining: Remaining) -> Result<(A, B)> {
        match <(A, (B, ())) as ReadItems<'de, R>>::read_items(de, remaining, 0, 2) {
            Ok(parts) => {
                let (a, (b, ())) = parts;
                Ok((a, b))
            }
            Err(e) => Err(e),
        }
    }
}

impl<A: Readable, B: Readable, C: Readable> ReadableTuple for (A, B, C) {
    ghost use Rattle.std.specs.Prelude.{true};
    ghost use Rattle.cbor_de.specs.Calls.{and_reports, reports_any};
    ghost use Rattle.cbor_de.specs.Forms.{any_of, never};
    ghost use Rattle.cbor_decode_as.specs.Enums.{part_then, no_part};

    ghost parts = { λ c all x. part_then (A.reads c)
        (part_then (B.reads c)
        (part_then (C.reads c) no_part))
        all (x.0, (x.1, (x.2, tt))) };

    ghost wrong_forms = { any_of A.wrong_forms (any_of B.wrong_forms
        (any_of C.wrong_forms never)) };

    ghost reports_faults = { and_reports (reports_any A.passes_over A.total A.reports_faults)
        (and_reports (reports_any B.passes_over B.total B.reports_faults)
        (and_reports (reports_any C.passes_over C.total C.reports_faults)
        true)) };
}

impl<
    'de,
    R: Read<'de>,
    A: Deserialize<'de, R>,
    B: Deserialize<'de, R>,
    C: Deserialize<'de, R>,
> ReadTuple<'de, R> for (A, B, C) {
    #[inline(always)]
    fn read_tuple(de: &mut Deserializer<R>, remaining: Remaining) -> Result<(A, B, C)> {
        match <(A, (B, (C, ()))) as ReadItems<'de, R>>::read_items(de, remaining, 0, 3) {
            Ok(parts) => {
                let (a, (b, (c, ()))) = parts;
                Ok((a, b, c))
            }
            Err(e) => Err(e),
        }
    }
}

impl<A: Readable, B: Readable, C: Readable, D: Readable> ReadableTuple for (A, B, C, D) {
    ghost use Rattle.std.specs.Prelude.{true};
    ghost use Rattle.cbor_de.specs.Calls.{and_reports, reports_any};
    ghost use Rattle.cbor_de.specs.Forms.{any_of, never};
    ghost use Rattle.cbor_decode_as.specs.Enums.{part_then, no_part};

    ghost parts = { λ c all x. part_then (A.reads c)
        (part_then (B.reads c)
        (part_then (C.reads c)
        (part_then (D.reads c) no_part)))
        all (x.0, (x.1, (x.2, (x.3, tt)))) };

    ghost wrong_forms = { any_of A.wrong_forms (any_of B.wrong_forms (any_of C.wrong_forms
        (any_of D.wrong_forms never))) };

    ghost reports_faults = { and_reports (reports_any A.passes_over A.total A.reports_faults)
        (and_reports (reports_any B.passes_over B.total B.reports_faults)
        (and_reports (reports_any C.passes_over C.total C.reports_faults)
        (and_reports (reports_any D.passes_over D.total D.reports_faults)
        true))) };
}

impl<
    'de,
    R: Read<'de>,
    A: Deserialize<'de, R>,
    B: Deserialize<'de, R>,
    C: Deserialize<'de, R>,
    D: Deserialize<'de, R>,
> ReadTuple<'de, R> for (A, B, C, D) {
    #[inline(always)]
    fn read_tuple(de: &mut Deserializer<R>, remaining: Remaining) -> Result<(A, B, C, D)> {
        match <(A, (B, (C, (D, ())))) as ReadItems<'de, R>>::read_items(de, remaining, 0, 4) {
            Ok(parts) => {
                let (a, (b, (c, (d, ())))) = parts;
                Ok((a, b, c, d))
            }
            Err(e) => Err(e),
        }
    }
}

impl<A: Readable, B: Readable, C: Readable, D: Readable, E: Readable> ReadableTuple
    for (A, B, C, D, E) {
    ghost use Rattle.std.specs.Prelude.{true};
    ghost use Rattle.cbor_de.specs.Calls.{and_reports, reports_any};
    ghost use Rattle.cbor_de.specs.Forms.{any_of, never};
    ghost use Rattle.cbor_decode_as.specs.Enums.{part_then, no_part};

    ghost parts = { λ c all x. part_then (A.reads c)
        (part_then (B.reads c)
        (part_then (C.reads c)
        (part_then (D.reads c)
        (part_then (E.reads c) no_part))))
        all (x.0, (x.1, (x.2, (x.3, (x.4, tt))))) };

    ghost wrong_forms = { any_of A.wrong_forms (any_of B.wrong_forms (any_of C.wrong_forms
        (any_of D.wrong_forms (any_of E.wrong_forms never)))) };

    ghost reports_faults = { and_reports (reports_any A.passes_over A.total A.reports_faults)
        (and_reports (reports_any B.passes_over B.total B.reports_faults)
        (and_reports (reports_any C.passes_over C.total C.reports_faults)
        (and_reports (reports_any D.passes_over D.total D.reports_faults)
        (and_reports (reports_any E.passes_over E.total E.reports_faults)
        true)))) };
}

impl<
    'de,
    R: Read<'de>,
    A: Deserialize<'de, R>,
    B: Deserialize<'de, R>,
    C: Deserialize<'de, R>,
    D: Deserialize<'de, R>,
    E: Deserialize<'de, R>,
> ReadTuple<'de, R> for (A, B, C, D, E) {
    #[inline(always)]
    fn read_tuple(de: &mut Deserializer<R>, remaining: Remaining) -> Result<(A, B, C, D, E)> {
        match <(A, (B, (C, (D, (E, ()))))) as ReadItems<'de, R>>::read_items(de, remaining, 0, 5) {
            Ok(parts) => {
                let (a, (b, (c, (d, (e, ()))))) = parts;
                Ok((a, b, c, d, e))
            }
            Err(e) => Err(e),
        }
    }
}

impl<A: Readable, B: Readable, C: Readable, D: Readable, E: Readable, F: Readable> ReadableTuple
    for (A, B, C, D, E, F) {
    ghost use Rattle.std.specs.Prelude.{true};
    ghost use Rattle.cbor_de.specs.Calls.{and_reports, reports_any};
    ghost use Rattle.cbor_de.specs.Forms.{any_of, never};
    ghost use Rattle.cbor_decode_as.specs.Enums.{part_then, no_part};

    ghost parts = { λ c all x. part_then (A.reads c)
        (part_then (B.reads c)
        (part_then (C.reads c)
        (part_then (D.reads c)
        (part_then (E.reads c)
        (part_then (F.reads c) no_part)))))
        all (x.0, (x.1, (x.2, (x.3, (x.4, (x.5, tt)))))) };

    ghost wrong_forms = { any_of A.wrong_forms (any_of B.wrong_forms (any_of C.wrong_forms
        (any_of D.wrong_forms (any_of E.wrong_forms (any_of F.wrong_forms never))))) };

    ghost reports_faults = { and_reports (reports_any A.passes_over A.total A.reports_faults)
        (and_reports (reports_any B.passes_over B.total B.reports_faults)
        (and_reports (reports_any C.passes_over C.total C.reports_faults)
        (and_reports (reports_any D.passes_over D.total D.reports_faults)
        (and_reports (reports_any E.passes_over E.total E.reports_faults)
        (and_reports (reports_any F.passes_over F.total F.reports_faults)
        true))))) };
}

impl<
    'de,
    R: Read<'de>,
    A: Deserialize<'de, R>,
    B: Deserialize<'de, R>,
    C: Deserialize<'de, R>,
    D: Deserialize<'de, R>,
    E: Deserialize<'de, R>,
    F: Deserialize<'de, R>,
> ReadTuple<'de, R> for (A, B, C, D, E, F) {
    #[inline(always)]
    fn read_tuple(de: &mut Deserializer<R>, remaining: Remaining) -> Result<(A, B, C, D, E, F)> {
        match <(A, (B, (C, (D, (E, (F, ())))))) as ReadItems<'de, R>>::read_items(
            de, remaining, 0, 6,
        ) {
            Ok(parts) => {
                let (a, (b, (c, (d, (e, (f, ())))))) = parts;
                Ok((a, b, c, d, e, f))
            }
            Err(e) => Err(e),
        }
    }
}

impl<
    A: Readable,
    B: Readable,
    C: Readable,
    D: Readable,
    E: Readable,
    F: Readable,
    G: Readable,
> ReadableTuple for (A, B, C, D, E, F, G) {
    ghost use Rattle.std.specs.Prelude.{true};
    ghost use Rattle.cbor_de.specs.Calls.{and_reports, reports_any};
    ghost use Rattle.cbor_de.specs.Forms.{any_of, never};
    ghost use Rattle.cbor_decode_as.specs.Enums.{part_then, no_part};

    ghost parts = { λ c all x. part_then (A.reads c)
        (part_then (B.reads c)
        (part_then (C.reads c)
        (part_then (D.reads c)
        (part_then (E.reads c)
        (part_then (F.reads c)
        (part_then (G.reads c) no_part))))))
        all (x.0, (x.1, (x.2, (x.3, (x.4, (x.5, (x.6, tt))))))) };

    ghost wrong_forms = { any_of A.wrong_forms (any_of B.wrong_forms (any_of C.wrong_forms
        (any_of D.wrong_forms (any_of E.wrong_forms (any_of F.wrong_forms
        (any_of G.wrong_forms never)))))) };

    ghost reports_faults = { and_reports (reports_any A.passes_over A.total A.reports_faults)
        (and_reports (reports_any B.passes_over B.total B.reports_faults)
        (and_reports (reports_any C.passes_over C.total C.reports_faults)
        (and_reports (reports_any D.passes_over D.total D.reports_faults)
        (and_reports (reports_any E.passes_over E.total E.reports_faults)
        (and_reports (reports_any F.passes_over F.total F.reports_faults)
        (and_reports (reports_any G.passes_over G.total G.reports_faults)
        true)))))) };
}

impl<
    'de,
    R: Read<'de>,
    A: Deserialize<'de, R>,
    B: Deserialize<'de, R>,
    C: Deserialize<'de, R>,
    D: Deserialize<'de, R>,
    E: Deserialize<'de, R>,
    F: Deserialize<'de, R>,
    G: Deserialize<'de, R>,
> ReadTuple<'de, R> for (A, B, C, D, E, F, G) {
    #[inline(always)]
    fn read_tuple(de: &mut Deserializer<R>, remaining: Remaining) -> Result<(A, B, C, D, E, F, G)> {
        match <(A, (B, (C, (D, (E, (F, (G, ()))))))) as ReadItems<'de, R>>::read_items(
            de, remaining, 0, 7,
        ) {
            Ok(parts) => {
                let (a, (b, (c, (d, (e, (f, (g, ()))))))) = parts;
                Ok((a, b, c, d, e, f, g))
            }
            Err(e) => Err(e),
        }
    }
}

impl<
    A: Readable,
    B: Readable,
    C: Readable,
    D: Readable,
    E: Readable,
    F: Readable,
    G: Readable,
    H: Readable,
> ReadableTuple for (A, B, C, D, E, F, G, H) {
    ghost use Rattle.std.specs.Prelude.{true};
    ghost use Rattle.cbor_de.specs.Calls.{and_reports, reports_any};
    ghost use Rattle.cbor_de.specs.Forms.{any_of, never};
    ghost use Rattle.cbor_decode_as.specs.Enums.{part_then, no_part};

    ghost parts = { λ c all x. part_then (A.reads c)
        (part_then (B.reads c)
        (part_then (C.reads c)
        (part_then (D.reads c)
        (part_then (E.reads c)
        (part_then (F.reads c)
        (part_then (G.reads c)
        (part_then (H.reads c) no_part)))))))
        all (x.0, (x.1, (x.2, (x.3, (x.4, (x.5, (x.6, (x.7, tt)))))))) };

    ghost wrong_forms = { any_of A.wrong_forms (any_of B.wrong_forms (any_of C.wrong_forms
        (any_of D.wrong_forms (any_of E.wrong_forms (any_of F.wrong_forms (any_of G.wrong_forms
        (any_of H.wrong_forms never))))))) };

    ghost reports_faults = { and_reports (reports_any A.passes_over A.total A.reports_faults)
        (and_reports (reports_any B.passes_over B.total B.reports_faults)
        (and_reports (reports_any C.passes_over C.total C.reports_faults)
        (and_reports (reports_any D.passes_over D.total D.reports_faults)
        (and_reports (reports_any E.passes_over E.total E.reports_faults)
        (and_reports (reports_any F.passes_over F.total F.reports_faults)
        (and_reports (reports_any G.passes_over G.total G.reports_faults)
        (and_reports (reports_any H.passes_over H.total H.reports_faults)
        true))))))) };
}

impl<
    'de,
    R: Read<'de>,
    A: Deserialize<'de, R>,
    B: Deserialize<'de, R>,
    C: Deserialize<'de, R>,
    D: Deserialize<'de, R>,
    E: Deserialize<'de, R>,
    F: Deserialize<'de, R>,
    G: Deserialize<'de, R>,
    H: Deserialize<'de, R>,
> ReadTuple<'de, R> for (A, B, C, D, E, F, G, H) {
    #[inline(always)]
    fn read_tuple(
        de: &mut Deserializer<R>,
        remaining: Remaining,
    ) -> Result<(A, B, C, D, E, F, G, H)> {
        match <(A, (B, (C, (D, (E, (F, (G, (H, ())))))))) as ReadItems<'de, R>>::read_items(
            de, remaining, 0, 8,
        ) {
            Ok(parts) => {
                let (a, (b, (c, (d, (e, (f, (g, (h, ())))))))) = parts;
                Ok((a, b, c, d, e, f, g, h))
            }
            Err(e) => Err(e),
        }
    }
}

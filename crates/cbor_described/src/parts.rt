//! Structs and enums that are read by a description of their parts.

ghost use Rattle.std.specs.Prelude.{◌≡◌, IfErr, OnOk};
ghost use Rattle.cbor_read.specs.Source.{asks_for};
ghost use Rattle.cbor_decode.specs.Decoder.{SameSettings};
ghost use Rattle.cbor_parts.specs.Keys.{AreKeysOf, named_keys, keys_of};
ghost use Rattle.cbor_decode_as.specs.Takes.{context};
ghost use Rattle.cbor_de.specs.Calls as call;

use cbor_de::{Deserialize, Deserializer, Read, Readable};
use cbor_io::error::Result;
use cbor_parts::{AtMostTwelveParts, FieldKeys, FieldLabels, Labelled, Newtype, Schema};

/// The parts of a struct, a tuple of its fields or a [`Newtype`] of its one part, or of an enum,
/// one of its variants.
pub trait ReadableParts: AtMostTwelveParts {
    ghost use Rattle.std.specs.Prelude.{Bool, false};
    ghost use Rattle.cbor_parts.specs.Keys.{Keys};
    ghost use Rattle.cbor_model.specs.Raw.{Raw};
    ghost use Rattle.cbor_model.specs.Readable.{Context};
    ghost use Rattle.cbor_read.specs.Source.{Asks};
    ghost use Rattle.cbor_de.specs.Forms.{WrongForms};

    // As what an item is read, by the names of the fields or the variants, or the fields' labels.
    ghost reads: { Keys → Context → Raw → Self → Type 0 };

    // By which codes an item may be refused for its form, and where.
    ghost wrong_forms: { WrongForms };

    // Whether a refusal reports the fault of the bytes, if it reports one: that of the item.
    ghost reports_faults: { Bool } = { false };

    // For which items memory may be asked, by the same names or labels.
    ghost asks_memory: { Keys → Asks → Raw → Type 0 };
}

/// The parts of a struct or an enum, which are read from a source.
pub trait ReadParts<'de, R: Read<'de>>: ReadableParts {
    /// Reads the item at the front, by the names of the fields or the variants, or by the fields'
    /// labels.
    fn read_parts(de: &mut Deserializer<R>, keys: &FieldKeys<'_>) -> Result<Self>
        requires { AreKeysOf Self.count (keys_of keys.now) }
        ensures read { call.TakesItem R.source R.refusals
            (Self.reads (keys_of keys.now) (context de.old.decoder.formats R.lends))
            de.old de.new result }
        ensures taken { OnOk result (call.Advances R.source de.old de.new) }
        ensures form { IfErr result (call.MayReport R.source Self.wrong_forms de.old) }
        ensures fault { IfErr result
            (call.OwnFault R.source R.refusals Self.reports_faults de.old) }
        ensures memory { IfErr result (call.MemoryFor R.source
            (Self.asks_memory (keys_of keys.now) (asks_for R.refusals R.lends))
            (Self.reads (keys_of keys.now) (context de.old.decoder.formats R.lends)) de.old) }
        ensures settings { SameSettings de.old.decoder de.new.decoder };
}

/// A struct is read as its one part.
impl<T: Readable> ReadableParts for Newtype<T> {
    ghost use Rattle.cbor_de.specs.Calls.{reports_any};

    ghost reads = { λ keys c r p. T.reads c r p.0 };

    ghost wrong_forms = { T.wrong_forms };

    ghost reports_faults = { reports_any T.passes_over T.total T.reports_faults };

    ghost asks_memory = { λ keys. T.asks_memory };
}

impl<'de, R: Read<'de>, T: Deserialize<'de, R>> ReadParts<'de, R> for Newtype<T> {
    fn read_parts(de: &mut Deserializer<R>, keys: &FieldKeys<'_>) -> Result<Newtype<T>> {
        let _ = keys;
        match T::deserialize(de) {
            Ok(part) => Ok(Newtype(part)),
            Err(e) => Err(e),
        }
    }
}

/// The keys of the pairs are labels of the fields; a label that no field has is passed over, with its
/// value, as a key that is a text or a byte string is.
impl<L: FieldLabels> ReadableParts for Labelled<L>
where
    L::Parts: ReadableParts,
{
    ghost use Rattle.cbor_parts.specs.Keys.{labelled_keys};

    ghost reads = { λ keys c r p. L.Parts.reads (labelled_keys keys.names L.labels) c r p.0 };

    ghost wrong_forms = { L.Parts.wrong_forms };

    ghost reports_faults = { L.Parts.reports_faults };

    ghost asks_memory = { λ keys. L.Parts.asks_memory (labelled_keys keys.names L.labels) };
}

impl<'de, R: Read<'de>, L: FieldLabels> ReadParts<'de, R> for Labelled<L>
where
    L::Parts: ReadParts<'de, R>,
{
    fn read_parts(de: &mut Deserializer<R>, keys: &FieldKeys<'_>) -> Result<Labelled<L>> {
        let labels = FieldKeys {
            names: keys.names,
            labels: Some(L::labels()),
        };
        match <L::Parts as ReadParts<'de, R>>::read_parts(de, &labels) {
            Ok(parts) => Ok(Labelled(parts)),
            Err(e) => Err(e),
        }
    }
}

/// As what a struct or an enum is read by its description: as what its parts are, by the names that
/// the description gives; by which codes an item may be refused for its form; whether a refusal
/// reports the fault of the bytes; and for which items memory may be asked. Each type with a
/// [`Schema`] has them, and quotes them.
///
/// ```rust
/// impl Readable for User {
///     ghost reads = { ⟦<Self as ReadBy<<Self as Schema>::Parts>>⟧.reads };
///
///     ghost wrong_forms = { ⟦<Self as ReadBy<<Self as Schema>::Parts>>⟧.wrong_forms };
///
///     ghost reports_faults = { ⟦<Self as ReadBy<<Self as Schema>::Parts>>⟧.reports_faults };
///
///     ghost asks_memory = { ⟦<Self as ReadBy<<Self as Schema>::Parts>>⟧.asks_memory };
/// }
/// ```
pub trait ReadBy<P>: Sized {
    ghost use Rattle.std.specs.Prelude.{Bool};
    ghost use Rattle.cbor_model.specs.Raw.{Raw};
    ghost use Rattle.cbor_model.specs.Readable.{Context};
    ghost use Rattle.cbor_read.specs.Source.{Asks};
    ghost use Rattle.cbor_de.specs.Forms.{WrongForms};

    ghost reads: { Context → Raw → Self → Type 0 };

    ghost wrong_forms: { WrongForms };

    ghost reports_faults: { Bool };

    ghost asks_memory: { Asks → Raw → Type 0 };
}

impl<P: ReadableParts, T: Schema<Parts = P>> ReadBy<P> for T {
    ghost reads = { λ c r x. P.reads (named_keys T.names) c r (T.parts x) };

    ghost wrong_forms = { P.wrong_forms };

    ghost reports_faults = { P.reports_faults };

    ghost asks_memory = { P.asks_memory (named_keys T.names) };
}

/// Reads the item at the front by the description of the type.
///
/// ```rust
/// impl<'de, R: Read<'de>> Deserialize<'de, R> for User {
///     fn deserialize(de: &mut Deserializer<R>) -> Result<User> {
///         read_described(de)
///     }
/// }
/// ```
pub fn read_described<'de, R: Read<'de>, T: Schema>(de: &mut Deserializer<R>) -> Result<T>
where
    T::Parts: ReadParts<'de, R>,
    ensures read { call.TakesItem R.source R.refusals
        (λ r x. T.Parts.reads (named_keys T.names) (context de.old.decoder.formats R.lends) r
        (T.parts x))
        de.old de.new result }
    ensures taken { OnOk result (call.Advances R.source de.old de.new) }
    ensures form { IfErr result (call.MayReport R.source T.Parts.wrong_forms de.old) }
    ensures fault { IfErr result
        (call.OwnFault R.source R.refusals T.Parts.reports_faults de.old) }
    ensures memory { IfErr result (call.MemoryFor R.source
        (T.Parts.asks_memory (named_keys T.names) (asks_for R.refusals R.lends))
        (λ r x. T.Parts.reads (named_keys T.names) (context de.old.decoder.formats R.lends) r
        (T.parts x))
        de.old) }
    ensures settings { SameSettings de.old.decoder de.new.decoder }
{
    let keys = FieldKeys {
        names: T::names(),
        labels: None,
    };
    match <T::Parts as ReadParts<'de, R>>::read_parts(de, &keys) {
        Ok(parts) => Ok(T::from_parts(parts)),
        Err(e) => Err(e),
    }
}

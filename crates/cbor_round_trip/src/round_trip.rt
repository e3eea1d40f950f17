//! The types whose values are read back.

use cbor_de::DeserializeOwned;
use cbor_ser::Serialize;

/// A type whose values come back from what they are written as.
///
/// The law, `back`: the item of a value's document is read as that value, and as no value of
/// another document. It holds under each setting of the writer, packed or not and in both forms of
/// enums, with the switches of reading as they are at first, and whatever the source lends.
///
/// `law` is the law as a value. Its `fits` says what the law asks of a value, and each value in a
/// program keeps it: a number lies in its type's range, an array has its length, and the keys of a
/// map and the items of a set ascend. Three types ask more, since what they write doesn't show all:
///
/// - `Option`: the value of a `Some` isn't written as null, as `Some(())` and `Some(None)` are;
/// - `Tagged`: a value within no tag has none of its own;
/// - `Value`: the maps list their keys in order, as all calls of `Map` leave them.
///
/// And each item is read as one value at the most, that is as values of one document (`single`; the
/// law [`one_value`](crate::one_value)). Of a struct with a field that has a default (`OrDefault`)
/// this asks that the default is one value (`law.determined`).
///
/// Floats come back as their numbers, and a NaN as a NaN. A type without a law of its own is a
/// `&str` or another that borrows.
///
/// A struct or an enum by description has the law of its parts
/// ([`RoundTripBy`](crate::RoundTripBy)), where no two of its names, or of its labels, are the same,
/// which the two `refl` show:
///
/// ```rust
/// impl RoundTrip for User {
///     ghost use Rattle.std.specs.Prelude.{refl};
///
///     ghost law = { ⟦<Self as RoundTripBy<<Self as Schema>::Parts>>⟧.law.by_names refl refl };
///
///     ghost back = { Self.law.back };
/// }
/// ```
///
/// What names one type cites its `law`, as this does that of `User`'s parts; what is generic cites
/// `back` too. A type that isn't described gives the law of the type that it is written as, by the
/// lemmas of `specs/`:
///
/// ```rust
/// /// The seconds since an instant, which are written and read as their number.
/// #[derive(Drop)]
/// struct Seconds(u32);
///
/// impl RoundTrip for Seconds {
///     ghost use Rattle.serde_cbor.specs.ReadBack.{by_part};
///     ghost use Rattle.serde_cbor.specs.TypeLaws.{law_of};
///
///     ghost law = { law_of (by_part (λ s. s.0) ⟦<u32 as RoundTrip>⟧.law.back) };
///
///     ghost back = { Self.law.back };
/// }
/// ```
///
/// A generic one names the law of its parameter:
///
/// ```rust
/// /// The last one in is the first, written and read as its vector.
/// #[derive(Drop)]
/// struct Stack<T>(Vec<T>);
///
/// impl<T: RoundTrip> RoundTrip for Stack<T> {
///     ghost use Rattle.serde_cbor.specs.Lists.{list_back};
///     ghost use Rattle.serde_cbor.specs.TypeLaws.{law_of};
///
///     ghost law = { law_of (list_back T.law.back {items = λ s. s.0.items}) };
///
///     ghost back = { list_back T.back };
/// }
/// ```
pub trait RoundTrip: Serialize + DeserializeOwned {
    ghost use Rattle.cbor_round_trip.specs.TypeLaws.{Law};
    ghost use Rattle.cbor_round_trip.specs.ReadBack.{IsReadBack};

    // The law as a value, with what it asks of a value (`fits`), and of defaults (`determined`).
    ghost law: { Law Self };

    // Each value that fits is read back; and each item is read as one value.
    ghost back: { IsReadBack Self.document Self.reads law.fits law.determined };
}

/// A type that may be the key of a map that is read back: one value is below another exactly where
/// values of the same documents are.
pub trait RoundTripKey: RoundTrip + Ord {
    ghost use Rattle.cbor_round_trip.specs.Keyed.{IsToldByDocuments};
    ghost use Rattle.cbor_round_trip.specs.TypeLaws.{KeyLaw};

    // The law of the keys as a value.
    ghost key: { KeyLaw Self };

    // The documents show the order.
    ghost reported: { IsToldByDocuments Self.document Self.cmp };
}

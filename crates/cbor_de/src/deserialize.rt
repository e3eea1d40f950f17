//! Types that are read.

ghost use Rattle.std.specs.Prelude.{IfErr, OnOk, OnSome};
ghost use Rattle.cbor_read.specs.Source.{asks_for};
ghost use Rattle.cbor_decode.specs.Decoder.{SameSettings};
ghost use Rattle.cbor_decode_as.specs.Takes.{context};
ghost use Rattle.cbor_de.specs.Calls as call;

use crate::de::Deserializer;
use cbor_io::error::Result;
use cbor_read::{Read, Source};

/// What a type reads, whatever the source.
///
/// `reads` says of an item, and of what a source lends and which formats are read, as which values
/// the type reads it. Nesting and the formats of keys are not its matter.
///
/// `total` says that the type reads every item, so that each refusal reports why the bytes encode
/// none.
///
/// `asks_memory` says for which items memory may be asked, where a source asks for it to hand out
/// bytes or to join chunks: where another item is read, memory doesn't run out. It may be asked for
/// any, unless a type says otherwise.
///
/// `wrong_forms` says by which of the codes `ArrayTooShort`, `ArrayTooLong`, `WrongEnumFormat` and
/// `WrongStructFormat` the type may refuse an item for its form, and where (or by `NotCanonical`,
/// which strict reading alone answers): by any, anywhere, unless it says otherwise. Most types
/// never do; what is made of parts does where a part does.
///
/// `passes_over` says that the type passes over an item that it doesn't read before it refuses it:
/// so what isn't whole is refused by its fault, and an item, of keys of any formats, by a message.
/// A type needn't, unless it says so: one that is read part by part stops at the part that it
/// doesn't read.
///
/// `reports_faults` says that a refusal for a fault of the bytes reports the item's own: the first
/// that the bytes allow, at its place. So it does where parts are read in their order, each by a
/// type that does. That more items follow than an array of a fixed length takes is no fault of the
/// bytes: `TrailingData` may report it. What reads or passes over every item does so anyway.
pub trait Readable: Sized + Drop {
    ghost use Rattle.std.specs.Prelude.{⊤, Bool, false};
    ghost use Rattle.cbor_model.specs.Raw.{Raw};
    ghost use Rattle.cbor_model.specs.Readable.{Context};
    ghost use Rattle.cbor_read.specs.Source.{Asks};
    ghost use Rattle.cbor_de.specs.Forms.{WrongForms, any_form};

    ghost reads: { Context → Raw → Self → Type 0 };

    ghost total: { Bool } = { false };

    ghost asks_memory: { Asks → Raw → Type 0 } = { λ a r. ⊤ };

    ghost wrong_forms: { WrongForms } = { any_form };

    ghost passes_over: { Bool } = { false };

    ghost reports_faults: { Bool } = { false };

    /// Reads the item at the front, if the bytes at hand show that it is one that the type reads.
    /// None where they don't, or where memory is wanting, and then nothing is taken: `deserialize`
    /// reads the item or refuses it.
    ///
    /// Lists and tuples call it first for each item, and described structs for each field, since it
    /// answers without room for an error. A type of one's own needs none: it is None unless a type
    /// says otherwise.
    #[inline(always)]
    fn at_hand<R: Source>(de: &mut Deserializer<R>) -> Option<Self>
        ensures read { call.TakesAtHand R.source R.refusals
            (reads (context de.old.decoder.formats R.lends)) de.old de.new result }
        ensures taken { OnSome result (call.Advances R.source de.old de.new) }
        ensures settings { SameSettings de.old.decoder de.new.decoder }
    {
        let _ = de;
        None
    }

    /// Has the source bring the rest of the item's head to hand, where it can, and reads the item as
    /// `at_hand` does. None as `at_hand` returns it, though more bytes may be at hand then.
    ///
    /// Lists and tuples call it where `at_hand` is None, since an item that is cut off by a few bytes
    /// is then read at once. A type of one's own needs none: it is None unless a type says otherwise.
    #[inline(always)]
    fn gathered<R: Source>(de: &mut Deserializer<R>) -> Option<Self>
        ensures read { call.TakesGathered R.source R.refusals
            (reads (context de.old.decoder.formats R.lends)) de.old de.new result }
        ensures taken { OnSome result (call.Advances R.source de.old de.new) }
        ensures settings { SameSettings de.old.decoder de.new.decoder }
    {
        let _ = de;
        None
    }
}

/// A type that is read from a source.
///
/// Ok where the bytes to come begin with the encoding of an item that the type reads: acceptable
/// within the levels that are left, and with keys of the formats that are read. Exactly the item's
/// bytes are taken then. Refused, some of the bytes to come were taken from their front, and
/// counted. Ok or Err, as many levels are left as before.
///
/// `Vec<u8>` is an array of numbers, as any `Vec`; a byte string is `ByteBuf`, `ByteArray`, or the
/// borrowed `Bytes`. An `f64` or an `f32` is a float of any width that it holds exactly.
///
/// A struct or an enum that says what its parts are (`parts::Schema`) is read by one call,
/// `read_described` of `cbor_described`, and no proof is written for it; `docs/OWN_TYPES.md` goes
/// through it step by step.
///
/// What no description can say is read part by part. A struct is read by a loop over its fields, in
/// any order, by their names or their numbers:
///
/// ```rust
/// #[derive(Drop)]
/// struct User {
///     user_id: u32,
///     admin: bool,
/// }
///
/// const NAMES: &[&str] = &["user_id", "admin"];
///
/// impl Readable for User {
///     ghost reads = { λ c. IsStruct (map (λ n. n.now) NAMES.now)
///         (field (⟦<u32 as Readable>⟧.reads c) (λ u. u.user_id)
///         ∷ field (⟦<bool as Readable>⟧.reads c) (λ u. u.admin) ∷ []) };
/// }
///
/// impl<'de, R: Read<'de>> Deserialize<'de, R> for User {
///     fn deserialize(de: &mut Deserializer<R>) -> Result<User> {
///         let mut user_id: Option<u32> = None;
///         let mut admin: Option<bool> = None;
///         let mut access = de.structure(NAMES)?;
///         'fields: while let Some(field) = access.next_field()? {
///             match field {
///                 Field::Known(0) => access.once("user_id", &mut user_id)?,
///                 Field::Known(1) => access.once("admin", &mut admin)?,
///                 _ => access.skip()?,
///             }
///         }
///         let user_id = access.required("user_id", user_id)?;
///         let admin = access.required("admin", admin)?;
///         access.end()?;
///         Ok(User { user_id, admin })
///     }
/// }
/// ```
///
/// `proofs/facts/Structs.antt` has what proves it. The loop keeps `FieldsSoFar`, and each call has
/// two lemmas, of its Ok and of its Err: `fields_begin` and `no_fields` of `structure`,
/// `field_due`, `fields_ended` and `none_named` of `next_field`, `field_taken` and `field_refused`
/// of `once`, `other_taken` and `other_refused` of `skip`, `field_required` and `field_absent` of
/// `required`, `fields_read` and `end_refused` of `end`. A whole proof is that of `Point` in the
/// crate `own_types`: `src/by_hand.rt` and `proofs/by_hand/PointDeserialize`.
///
/// These lemmas are for fields that are read alike whatever formats are read. A struct with a field
/// that isn't, as an enum, is read by a description (`read_described` of `cbor_described`).
///
/// An enum is read by its variants, which [`Deserializer::variant`] finds by their names or their
/// numbers, and each variant by the call on its content. Named fields are read as a struct of
/// their own:
///
/// ```rust
/// #[derive(Drop)]
/// enum Bar {
///     Empty,
///     Number(i64),
///     Flag(String, bool),
///     Point { x: i64, y: i64 },
/// }
///
/// const BARS: &[&str] = &["Empty", "Number", "Flag", "Point"];
///
/// impl Readable for Bar {
///     ghost reads = { λ c. PassesTags (IsEnum c.formats (map (λ n. n.now) BARS.now) (variants
///         (unit bar.Empty
///         ∷ newtype (⟦<i64 as Readable>⟧.reads c) bar.Number
///         ∷ tuple (part_then (⟦<String as Readable>⟧.reads c)
///         (part_then (⟦<bool as Readable>⟧.reads c) no_part)) (λ y. bar.Flag y.0 y.1.0)
///         ∷ newtype (⟦<Point as Readable>⟧.reads c) (λ p. bar.Point p.x p.y)
///         ∷ []))) };
/// }
///
/// impl<'de, R: Read<'de>> Deserialize<'de, R> for Bar {
///     fn deserialize(de: &mut Deserializer<R>) -> Result<Bar> {
///         let access = de.variant(BARS)?;
///         match access.index() {
///             0 => {
///                 access.unit()?;
///                 Ok(Bar::Empty)
///             }
///             1 => {
///                 let number = access.newtype::<i64>()?;
///                 Ok(Bar::Number(number))
///             }
///             2 => {
///                 let mut parts = access.tuple()?;
///                 let name = parts.part::<String>(0, 2)?;
///                 let flag = parts.part::<bool>(1, 2)?;
///                 parts.end()?;
///                 Ok(Bar::Flag(name, flag))
///             }
///             _ => {
///                 let point = access.structure::<Point>()?;
///                 Ok(Bar::Point {
///                     x: point.x,
///                     y: point.y,
///                 })
///             }
///         }
///     }
/// }
/// ```
///
/// Its proof is two lines for each `?`, and one more for each part before it: `variant_is` says
/// the variant, and a lemma for each call what its answer says of the enum
/// (`proofs/facts/Enums.antt`). A whole proof is that of this enum in the crate `own_types`:
/// `src/by_hand.rt` and `proofs/by_hand/BarDeserialize`.
///
/// A type that contains itself is read by way of a value, since reading its parts by their own type
/// would lead back to where they are read. A function that calls itself makes it of the value:
///
/// ```rust
/// #[derive(Drop)]
/// enum Tree {
///     Leaf(i128),
///     Node(Vec<Tree>),
/// }
///
/// impl Readable for Tree {
///     ghost reads = { λ c r t. IsTree (value r) t };
/// }
///
/// impl<'de, R: Read<'de>> Deserialize<'de, R> for Tree {
///     fn deserialize(de: &mut Deserializer<R>) -> Result<Tree> {
///         let alloc = de.alloc();
///         let value = Value::deserialize(de)?;
///         tree_of(alloc, &value)
///     }
/// }
/// ```
///
/// `IsTree` says of a plain value as which trees it is read. The contract of `tree_of` says that Ok
/// is such a tree, and that there is none after an Err, but where memory ran out. The rest is two
/// lines, by `value_made` and `no_value` (`proofs/facts/Values.antt`). The whole is in the crate
/// `samples`: `src/tree.rt`, `specs/Trees.antt` and `proofs/tree`.
pub trait Deserialize<'de, R: Read<'de>>: Readable {
    /// Reads the item at the front.
    fn deserialize(de: &mut Deserializer<R>) -> Result<Self>
        ensures read { call.TakesItem R.source R.refusals
            (Self.reads (context de.old.decoder.formats R.lends)) de.old de.new result }
        // A byte at the least, also of a source that doesn't report its bytes.
        ensures taken { OnOk result (call.Advances R.source de.old de.new) }
        ensures fault { IfErr result
            (call.ReportsItem R.source R.refusals Self.passes_over Self.total de.old) }
        ensures own_fault { IfErr result
            (call.OwnFault R.source R.refusals Self.reports_faults de.old) }
        ensures memory { IfErr result
            (call.MemoryFor R.source (Self.asks_memory (asks_for R.refusals R.lends))
            (Self.reads (context de.old.decoder.formats R.lends)) de.old) }
        ensures form { IfErr result (call.MayReport R.source Self.wrong_forms de.old) }
        ensures settings { SameSettings de.old.decoder de.new.decoder };
}

/// A type that borrows nothing: what it reads doesn't depend on what a source lends.
///
/// [`from_reader`](crate::from_reader) asks for it, since a reader lends nothing. The other calls
/// read types that borrow too. A type of one's own has it in one line, where its parts do:
///
/// ```rust
/// impl DeserializeOwned for User {
///     ghost same = { λ f a b r u h. h };
/// }
/// ```
pub trait DeserializeOwned: Readable {
    ghost use Rattle.cbor_model.specs.Formats.{Formats};
    ghost use Rattle.cbor_model.specs.Raw.{Raw};
    ghost use Rattle.cbor_read.specs.Source.{Lends};
    ghost use Rattle.cbor_decode_as.specs.Takes.{lending};

    ghost same: { (f : Formats) (a b : Lends) (r : Raw) (x : Self)
        → Self.reads (lending f a) r x → Self.reads (lending f b) r x };
}

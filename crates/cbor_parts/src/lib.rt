//! Descriptions of structs and enums, by which they are written and read.
//!
//! The fields of a struct are a tuple, as `(u32, String)`, and the variants of an enum one of
//! [`OneOf1`] to [`OneOf8`], whose parts are `()`, [`Newtype`], [`Tuple`] or [`Struct`]. A struct
//! that is written and read as its one part, without a name, is a [`Newtype`] of it.
#![tactic(auto)]

ghost use Rattle.std.specs.Prelude.{◌≡◌, length, map};

/// A variant of one part; or the one part of a struct that is written and read as that part.
#[derive(Debug, PartialEq, Drop)]
pub struct Newtype<T>(pub T);

/// It has no names.
impl<T: Drop> AtMostTwelveParts for Newtype<T> {
    ghost count = { 0 };
}

/// A variant of several parts, at most eight, as `Tuple<(u64, u8)>`.
#[derive(Debug, PartialEq, Drop)]
pub struct Tuple<F: AtMostEightParts>(pub F);

/// A variant of named fields, as `Struct<PointFields>`.
#[derive(Drop)]
pub struct Struct<N: FieldNames>(pub N::Parts);

/// The fields of a variant, and their names.
///
/// ```rust
/// impl FieldNames for PointFields {
///     type Parts = (i64, i64);
///
///     ghost names = { codes "x" ∷ codes "y" ∷ [] };
///
///     fn names() -> &'static [&'static str] {
///         &["x", "y"]
///     }
/// }
/// ```
pub trait FieldNames {
    ghost use Rattle.std.specs.Prelude.{List, ℕ};

    /// The fields, in the order of their numbers.
    type Parts: AtMostTwelveParts;

    ghost names: { List (List ℕ) };

    /// The names of the fields.
    fn names() -> &'static [&'static str]
        ensures names { map (λ n. n.now) result.now ≡ names }
        ensures as_many { length result.now ≡ Self.Parts.count };
}

/// By which keys the fields of a struct are read: by their names or their places, or where labels are
/// given, one for each field, by these integers. The names stand in errors then.
#[derive(Clone, Copy)]
pub struct FieldKeys<'k> {
    pub names: &'k [&'k str],
    pub labels: Option<&'k [i64]>,
}

/// The fields of a struct whose keys are integers, its labels.
///
/// ```rust
/// const KEY: &[i64] = &[1, 3, -1];
///
/// impl FieldLabels for KeyLabels {
///     type Parts = (i64, Optional<i64>, ByteBuf);
///
///     ghost labels = { KEY.now };
///
///     fn labels() -> &'static [i64] {
///         KEY
///     }
/// }
/// ```
pub trait FieldLabels {
    ghost use Rattle.std.specs.Prelude.{List, ℤ};

    /// The fields, in the order of their labels.
    type Parts: AtMostTwelveParts;

    ghost labels: { List ℤ };

    /// The labels of the fields.
    fn labels() -> &'static [i64]
        ensures labels { result.now ≡ labels }
        ensures as_many { length result.now ≡ Self.Parts.count };
}

/// The parts of a struct whose keys are integers, as those of COSE (RFC 9052, section 1.5) and CWT
/// (RFC 8392, section 4), as `Labelled<KeyLabels>`.
#[derive(Drop)]
pub struct Labelled<L: FieldLabels>(pub L::Parts);

/// They are as many as the fields.
impl<L: FieldLabels> AtMostTwelveParts for Labelled<L> {
    ghost count = { L.Parts.count };
}

/// A field that may be absent: None where it is, and what is there else.
///
/// What is there is read as a `T`. So null is refused, unless `T` reads it: of
/// `Optional<Option<u8>>` an absent field is `None`, and null `Some(None)`.
#[derive(Debug, PartialEq, Drop)]
pub struct Optional<T>(pub Option<T>);

/// A field that may be absent: the default of its type where it is, and what is there else.
#[derive(Debug, PartialEq, Drop)]
pub struct OrDefault<T>(pub T);

/// The parts of a struct or of a variant, a tuple of one to twelve, or those of an enum, one of its
/// one to eight variants.
///
/// Those of a struct whose one part has no name are a `Newtype` of that part.
pub trait AtMostTwelveParts: Sized + Drop {
    ghost use Rattle.std.specs.Prelude.{ℕ};

    // How many they are.
    ghost count: { ℕ };
}

impl<A: Drop> AtMostTwelveParts for (A,) {
    ghost count = { 1 };
}

impl<A: Drop, B: Drop> AtMostTwelveParts for (A, B) {
    ghost count = { 2 };
}

impl<A: Drop, B: Drop, C: Drop> AtMostTwelveParts for (A, B, C) {
    ghost count = { 3 };
}

impl<A: Drop, B: Drop, C: Drop, D: Drop> AtMostTwelveParts for (A, B, C, D) {
    ghost count = { 4 };
}

impl<A: Drop, B: Drop, C: Drop, D: Drop, E: Drop> AtMostTwelveParts for (A, B, C, D, E) {
    ghost count = { 5 };
}

impl<A: Drop, B: Drop, C: Drop, D: Drop, E: Drop, F: Drop> AtMostTwelveParts
    for (A, B, C, D, E, F) {
    ghost count = { 6 };
}

impl<A: Drop, B: Drop, C: Drop, D: Drop, E: Drop, F: Drop, G: Drop> AtMostTwelveParts
    for (A, B, C, D, E, F, G) {
    ghost count = { 7 };
}

impl<A: Drop, B: Drop, C: Drop, D: Drop, E: Drop, F: Drop, G: Drop, H: Drop> AtMostTwelveParts
    for (A, B, C, D, E, F, G, H) {
    ghost count = { 8 };
}

impl<
    A: Drop,
    B: Drop,
    C: Drop,
    D: Drop,
    E: Drop,
    F: Drop,
    G: Drop,
    H: Drop,
    I: Drop,
> AtMostTwelveParts for (A, B, C, D, E, F, G, H, I) {
    ghost count = { 9 };
}

impl<
    A: Drop,
    B: Drop,
    C: Drop,
    D: Drop,
    E: Drop,
    F: Drop,
    G: Drop,
    H: Drop,
    I: Drop,
    J: Drop,
> AtMostTwelveParts for (A, B, C, D, E, F, G, H, I, J) {
    ghost count = { 10 };
}

impl<
    A: Drop,
    B: Drop,
    C: Drop,
    D: Drop,
    E: Drop,
    F: Drop,
    G: Drop,
    H: Drop,
    I: Drop,
    J: Drop,
    K: Drop,
> AtMostTwelveParts for (A, B, C, D, E, F, G, H, I, J, K) {
    ghost count = { 11 };
}

impl<
    A: Drop,
    B: Drop,
    C: Drop,
    D: Drop,
    E: Drop,
    F: Drop,
    G: Drop,
    H: Drop,
    I: Drop,
    J: Drop,
    K: Drop,
    L: Drop,
> AtMostTwelveParts for (A, B, C, D, E, F, G, H, I, J, K, L) {
    ghost count = { 12 };
}

/// The parts of a variant that have no names, a tuple of one to eight.
pub trait AtMostEightParts: AtMostTwelveParts {}

impl<A: Drop> AtMostEightParts for (A,) {}

impl<A: Drop, B: Drop> AtMostEightParts for (A, B) {}

impl<A: Drop, B: Drop, C: Drop> AtMostEightParts for (A, B, C) {}

impl<A: Drop, B: Drop, C: Drop, D: Drop> AtMostEightParts for (A, B, C, D) {}

impl<A: Drop, B: Drop, C: Drop, D: Drop, E: Drop> AtMostEightParts for (A, B, C, D, E) {}

impl<A: Drop, B: Drop, C: Drop, D: Drop, E: Drop, F: Drop> AtMostEightParts
    for (A, B, C, D, E, F) {}

impl<A: Drop, B: Drop, C: Drop, D: Drop, E: Drop, F: Drop, G: Drop> AtMostEightParts
    for (A, B, C, D, E, F, G) {}

impl<A: Drop, B: Drop, C: Drop, D: Drop, E: Drop, F: Drop, G: Drop, H: Drop> AtMostEightParts
    for (A, B, C, D, E, F, G, H) {}

/// A struct or an enum that is written and read by a description of its parts.
///
/// ```rust
/// #[derive(Drop)]
/// struct User {
///     user_id: u32,
///     admin: bool,
/// }
///
/// const USER: &[&str] = &["user_id", "admin"];
///
/// impl Schema for User {
///     type Parts = (u32, bool);
///
///     ghost names = { map (λ n. n.now) USER.now };
///
///     ghost parts = { λ u. (u.user_id, u.admin) };
///
///     fn names() -> &'static [&'static str] {
///         USER
///     }
///
///     fn from_parts((user_id, admin): Self::Parts) -> User {
///         User { user_id, admin }
///     }
/// }
/// ```
pub trait Schema: Sized + Drop {
    ghost use Rattle.std.specs.Prelude.{List, ℕ};

    /// The fields in the order of their numbers, or the variants in that of theirs; or a
    /// `Newtype` of the one part of a struct, where that has no name.
    type Parts: AtMostTwelveParts;

    // The names of the fields or the variants.
    ghost names: { List (List ℕ) };

    ghost parts: { Self → Self.Parts };

    /// The names of the fields or the variants.
    fn names() -> &'static [&'static str]
        ensures names { map (λ n. n.now) result.now ≡ names }
        ensures as_many { length result.now ≡ Self.Parts.count };

    /// What has these parts.
    fn from_parts(from: Self::Parts) -> Self
        ensures { parts result ≡ from };
}

/// The one variant of an enum, by its place.
#[derive(Drop)]
pub enum OneOf1<A> {
    First(A),
}

/// One of the two variants of an enum, by their places.
#[derive(Drop)]
pub enum OneOf2<A, B> {
    First(A),
    Second(B),
}

/// One of the three variants of an enum, by their places.
#[derive(Drop)]
pub enum OneOf3<A, B, C> {
    First(A),
    Second(B),
    Third(C),
}

/// One of the four variants of an enum, by their places.
#[derive(Drop)]
pub enum OneOf4<A, B, C, D> {
    First(A),
    Second(B),
    Third(C),
    Fourth(D),
}

/// One of the five variants of an enum, by their places.
#[derive(Drop)]
pub enum OneOf5<A, B, C, D, E> {
    First(A),
    Second(B),
    Third(C),
    Fourth(D),
    Fifth(E),
}

/// One of the six variants of an enum, by their places.
#[derive(Drop)]
pub enum OneOf6<A, B, C, D, E, F> {
    First(A),
    Second(B),
    Third(C),
    Fourth(D),
    Fifth(E),
    Sixth(F),
}

/// One of the seven variants of an enum, by their places.
#[derive(Drop)]
pub enum OneOf7<A, B, C, D, E, F, G> {
    First(A),
    Second(B),
    Third(C),
    Fourth(D),
    Fifth(E),
    Sixth(F),
    Seventh(G),
}

/// One of the eight variants of an enum, by their places.
#[derive(Drop)]
pub enum OneOf8<A, B, C, D, E, F, G, H> {
    First(A),
    Second(B),
    Third(C),
    Fourth(D),
    Fifth(E),
    Sixth(F),
    Seventh(G),
    Eighth(H),
}

/// What the variants of an enum of nine would have to be, and no type is: there are eight at most.
pub trait AtMostEightVariants: Drop {}

/// The variants of an enum of nine, which no description has: no type is `AtMostEightVariants`.
#[derive(Drop)]
pub struct OneOf9<A: AtMostEightVariants, B, C, D, E, F, G, H, I>(A, B, C, D, E, F, G, H, I);

impl<A: Drop> AtMostTwelveParts for OneOf1<A> {
    ghost count = { 1 };
}

impl<A: Drop, B: Drop> AtMostTwelveParts for OneOf2<A, B> {
    ghost count = { 2 };
}

impl<A: Drop, B: Drop, C: Drop> AtMostTwelveParts for OneOf3<A, B, C> {
    ghost count = { 3 };
}

impl<A: Drop, B: Drop, C: Drop, D: Drop> AtMostTwelveParts for OneOf4<A, B, C, D> {
    ghost count = { 4 };
}

impl<A: Drop, B: Drop, C: Drop, D: Drop, E: Drop> AtMostTwelveParts for OneOf5<A, B, C, D, E> {
    ghost count = { 5 };
}

impl<A: Drop, B: Drop, C: Drop, D: Drop, E: Drop, F: Drop> AtMostTwelveParts
    for OneOf6<A, B, C, D, E, F> {
    ghost count = { 6 };
}

impl<A: Drop, B: Drop, C: Drop, D: Drop, E: Drop, F: Drop, G: Drop> AtMostTwelveParts
    for OneOf7<A, B, C, D, E, F, G> {
    ghost count = { 7 };
}

impl<A: Drop, B: Drop, C: Drop, D: Drop, E: Drop, F: Drop, G: Drop, H: Drop> AtMostTwelveParts
    for OneOf8<A, B, C, D, E, F, G, H> {
    ghost count = { 8 };
}

impl<
    A: AtMostEightVariants,
    B: Drop,
    C: Drop,
    D: Drop,
    E: Drop,
    F: Drop,
    G: Drop,
    H: Drop,
    I: Drop,
> AtMostTwelveParts for OneOf9<A, B, C, D, E, F, G, H, I> {
    ghost count = { 9 };
}

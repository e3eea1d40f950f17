//! The trait of the types that are written.

use crate::items::{WriteDone, WriteRefused};
use crate::serializer::Serializer;
use cbor_io::error::{Error, Result};
use cbor_io::write::Write;

/// A type with a document, which is what a value of it is written as.
///
/// `Vec<u8>` is an array of numbers, as any `Vec`; a byte string is `ByteBuf`, `ByteArray`, or the
/// borrowed `&[u8]` and `Bytes`. An `f64` is written in 64 bits and an `f32` in 32, also where
/// fewer hold the number, unless [`shortest_floats`](Serializer::shortest_floats) is set.
///
/// An implementation says the document, as a function of the value, and writes it by the calls of
/// [`Serializer`]. A struct, an enum, and a struct that holds both:
///
/// ```rust
/// struct Point { x: u8, y: u8 }
///
/// impl Serialize for Point {
///     ghost document = {
///         λ p. structure (field 0 (codes "x") (⟦<u8 as Serialize>⟧.document p.x)
///             (field 1 (codes "y") (⟦<u8 as Serialize>⟧.document p.y) no_fields))
///     };
///
///     fn serialize<W: Write>(&self, ser: &mut Serializer<W>) -> Result<()> {
///         let mut fields = ser.serialize_struct("Point", 2)?;
///         fields.serialize_field("x", &self.x)?;
///         fields.serialize_field("y", &self.y)?;
///         fields.end()
///     }
/// }
///
/// enum Shape { Nothing, Circle(u8) }
///
/// impl Serialize for Shape {
///     ghost document = {
///         elim [ Nothing ↦ unit_variant 0 (codes "Nothing")
///         | Circle radius ↦ newtype_variant 1 (codes "Circle") (integer (pos radius)) ]
///     };
///
///     fn serialize<W: Write>(&self, ser: &mut Serializer<W>) -> Result<()> {
///         match self {
///             Shape::Nothing => ser.serialize_unit_variant("Shape", 0, "Nothing"),
///             Shape::Circle(r) => ser.serialize_newtype_variant("Shape", 1, "Circle", r),
///         }
///     }
/// }
///
/// struct Mark { at: Point, shape: Shape } // as `Point`, by the documents of its fields' types
///
/// let mark = Mark { at: Point { x: 1, y: 2 }, shape: Shape::Circle(3) };
/// let bytes = to_vec_packed(alloc, &mark)?;
/// assert_eq!(rt; bytes.as_slice(), b"\xa2\0\xa2\0\x01\x01\x02\x01\xa1\x66Circle\x03".as_slice());
/// ```
///
/// A type that contains itself says its document as a fold over its values, of which one level is
/// given, with the documents of its parts in their places; it writes them by their own type, and its
/// `serialize` is in a `#[cycle]`, since writing the parts leads back to it:
///
/// ```rust
/// enum Tree { Leaf(u8), Node(Vec<Tree>) }
///
/// impl Serialize for Tree {
///     ghost document = {
///         fold-Tree Doc (elim [ Tree-F.Leaf n ↦ integer (pos n)
///         | Tree-F.Node parts ↦ sequence declared (docs (λ d. d) parts.items) ])
///     };
///
///     #[cycle(serialize)]
///     fn serialize<W: Write>(&self, ser: &mut Serializer<W>) -> Result<()> {
///         match self {
///             Tree::Leaf(n) => n.serialize(ser),
///             Tree::Node(parts) => parts.serialize(ser),
///         }
///     }
/// }
/// ```
///
/// An implementation that is one call proves by itself. Where it writes several parts, each exit of
/// a `?` and the end take one line each, by the published facts (`proofs/facts/Serialize`):
/// `by_parts` opens the document; `and_then` takes a part that was written; `head_stops` and
/// `stops` are the exit at the head and at a part; `ends` is the last call. For a type that
/// contains itself, its own `the_lemmas` say what the fold is at one level, and `docs_of` what a
/// list is there (the samples among `serde_cbor`'s tests have one).
///
/// ```text
/// returns-in_err-fields g c =
///     by_parts (head_stops c.serialize_struct.follows.holds-at-none c.in_err-fields.was
///       c.from_residual.ensures.1)
///
/// returns-in_err-serialize_field g c =
///     by_parts (and_then c.in_ok-fields.ensures.head refl
///       (stops c.in_err-serialize_field.ensures.wrote.err (search rules)
///         c.from_residual-in_err-serialize_field.ensures.1 (search rules)))
/// ```
pub trait Serialize {
    ghost use Rattle.cbor_model.specs.Document.{Doc};
    ghost use Rattle.cbor_model.specs.Parts.{item};
    ghost use Rattle.cbor_ser.specs.Serialized.{Serialized, Stepped};

    // What a value is written as: its document.
    ghost document: { Self → Doc };

    /// Appends the document, or a prefix of it and refuses: for lack of memory, by the sink, or
    /// with the message `The number can't be stored in CBOR`, which only a document with such a
    /// number gets.
    fn serialize<W: Write>(&self, ser: &mut Serializer<W>) -> Result<()>
        ensures { Serialized W.written W.refuses W.references W.capacity ser.old
            (item (document self.now)) ser.new result };

    /// Appends the document as `serialize` does, and leaves an error in `refusal`: an `Error` is
    /// large, and what writes many values would move it at each. No type has to say it.
    fn serialize_step<W: Write>(
        &self,
        ser: &mut Serializer<W>,
        refusal: &mut Option<Error>,
    ) -> WriteDone
        ensures { Stepped W.written W.refuses W.references W.capacity ser.old
            (item (document self.now)) ser.new result refusal.new }
    {
        match self.serialize(ser) {
            Ok(()) => Ok(()),
            Err(error) => {
                *refusal = Some(error);
                Err(WriteRefused)
            }
        }
    }
}

//! Writing items one by one.

ghost use Rattle.std.specs.Prelude.{◌≡◌, ℕ, List, pos, true, false, encode_utf8};
ghost use Rattle.std.specs.Prelude.{IsErrAnd, to_bits};
ghost use Rattle.std.specs.Float.{binary32, binary64};
ghost use Rattle.cbor_model.specs.Head.{short};
ghost use Rattle.cbor_model.specs.Document.{null, bool, integer, bytes, text, unit_variant};
ghost use Rattle.cbor_model.specs.Document.{document_of, float};
ghost use Rattle.cbor_model.specs.Raw.{single, double};
ghost use Rattle.cbor_model.specs.Parts.{Part, item, tag_head};
ghost use Rattle.cbor_model.specs.Canonical.{IsStorableInteger, canonical_integer};
ghost use Rattle.cbor_model.specs.InMemory.{IsInMemory};
ghost use Rattle.cbor_model.specs.Spelling.{spell};
ghost use Rattle.cbor_io.specs.Head.{major_number};
ghost use Rattle.cbor_value.specs.View.{view, float_view};
ghost use Rattle.cbor_ser.specs.Serialized.{writer_of, settings_of, Serialized, Spells};
ghost use Rattle.cbor_ser.specs.Narrowed.{narrowed};
ghost use Rattle.cbor_ser.specs.Written.{SaysUnstorable};

use crate::items::{answer, not_storable, put_integer, put_value, write_head};
use cbor_io::error::Result;
use cbor_io::head::Major;
use cbor_io::write::Write;
use cbor_value::{Float, Value};
use std::alloc::Global;
use std::fmt;

mod compound;
mod list;
mod step;
mod value;

/// How names, enums and floats are written.
#[derive(Clone, Copy)]
pub(crate) struct Settings {
    pub(crate) packed: bool,
    pub(crate) legacy: bool,
    pub(crate) shortest: bool,
}

/// Writes items to a sink, one after the other.
///
/// Each call appends the item's shortest encoding, a head as one piece and what a string holds as
/// another. Where the sink refuses, it holds what it had and a prefix of the item, if it reports
/// its bytes. One that has a capacity refuses no item that can be stored and fits what is left of
/// it. The allocator is for the text of a refusal alone.
///
/// ```rust
/// let mut ser = Serializer::new(alloc, Vec::new(alloc));
/// ser.self_describe()?;
/// ser.serialize_u64(9)?;
/// assert_eq!(rt; ser.into_inner().as_slice(), b"\xd9\xd9\xf7\x09".as_slice());
/// ```
#[derive(Drop)]
pub struct Serializer<W> {
    pub(crate) alloc: Global,
    pub(crate) writer: W,
    pub(crate) settings: Settings,
}

// The head of a whole number: its major type and its argument.
#[inline(always)]
#[tactic(auto, unfolding(cbor_model::specs::Spelling::spell))]
fn integer_head(v: i64) -> (Major, u64)
    ensures { spell (canonical_integer v) ≡ short (major_number result.0) result.1 }
{
    if v >= 0 {
        (Major::UnsignedInteger, v as u64)
    } else {
        (Major::NegativeInteger, (-1 - v) as u64)
    }
}

// The float that is written for this one.
#[inline(always)]
fn as_set(shortest: bool, v: Float) -> Float
    ensures written { document_of (float_view result)
        ≡ narrowed shortest (document_of (float_view v)) }
    ensures in_memory { IsInMemory (float_view v) }
{
    if shortest { v.shortened() } else { v }
}

impl<W: Write> Serializer<W> {
    /// Writes to this sink: fields and variants by their names, enums in the map form, and floats in
    /// their widths.
    pub fn new(alloc: Global, writer: W) -> Serializer<W>
        ensures writer { writer_of result ≡ writer }
        ensures settings { settings_of result
            ≡ record { packed = false; legacy = false; shortest = false } }
    {
        Serializer {
            alloc,
            writer,
            settings: Settings {
                packed: false,
                legacy: false,
                shortest: false,
            },
        }
    }

    /// Fields and unit variants are written by their numbers in place of their names, and so are
    /// the keys of struct variants, and all variants of the legacy form. The names of newtype and
    /// tuple variants stay.
    ///
    /// ```rust
    /// let mut ser = Serializer::new(alloc, Vec::new(alloc)).packed_format();
    /// ser.serialize_unit_variant("Side", 1, "Right")?;
    /// assert_eq!(rt; ser.into_inner().as_slice(), b"\x01".as_slice());
    /// ```
    pub fn packed_format(mut self) -> Serializer<W>
        ensures writer { writer_of result ≡ writer_of self }
        ensures settings { settings_of result ≡ record (settings_of self) { packed = true } }
    {
        self.settings.packed = true;
        self
    }

    /// Variants that hold something are written as arrays of their name (or number) and their
    /// parts, in place of maps of one pair.
    ///
    /// ```rust
    /// let mut ser = Serializer::new(alloc, Vec::new(alloc)).legacy_enums();
    /// ser.serialize_newtype_variant("Shape", 0, "Dot", &7u8)?;
    /// assert_eq!(rt; ser.into_inner().as_slice(), b"\x82\x63Dot\x07".as_slice());
    /// ```
    pub fn legacy_enums(mut self) -> Serializer<W>
        ensures writer { writer_of result ≡ writer_of self }
        ensures settings { settings_of result ≡ record (settings_of self) { legacy = true } }
    {
        self.settings.legacy = true;
        self
    }

    /// Each float is written in the narrowest width that holds its number exactly (RFC 8949,
    /// section 4.2.1), and each NaN as `f97e00`: those within a [`Value`] and in keys too.
    ///
    /// A map's keys stay in the order of the value. So the encoding of a `Value` whose keys hold
    /// floats may not be canonical then, and may list a key twice, where two floats are one number;
    /// `to_vec_deterministic` of `serde_cbor` sorts them anew and refuses such keys.
    ///
    /// ```rust
    /// let mut ser = Serializer::new(alloc, Vec::new(alloc)).shortest_floats();
    /// ser.serialize_f64(1.5)?;
    /// assert_eq!(rt; ser.into_inner().as_slice(), b"\xf9\x3e\x00".as_slice());
    /// ```
    pub fn shortest_floats(mut self) -> Serializer<W>
        ensures writer { writer_of result ≡ writer_of self }
        ensures settings { settings_of result ≡ record (settings_of self) { shortest = true } }
    {
        self.settings.shortest = true;
        self
    }

    /// The sink.
    pub fn into_inner(self) -> W
        ensures { result ≡ writer_of self }
    {
        let Serializer {
            alloc: _,
            writer,
            settings: _,
        } = self;
        writer
    }

    /// Appends the tag 55799, which says that CBOR follows (RFC 7049, section 2.4.5).
    pub fn self_describe(&mut self) -> Result<()>
        ensures { Serialized W.written W.refuses W.references W.capacity self.old (tag_head 55799)
            self.new result }
    {
        self.serialize_tag(55799)
    }

    /// Appends the head of a tag. The item that it is of is to be written next.
    ///
    /// ```rust
    /// let mut ser = Serializer::new(alloc, Vec::new(alloc));
    /// ser.serialize_tag(1)?; // RFC 7049, section 2.4.1: seconds since 1970-01-01T00:00Z
    /// ser.serialize_u64(1_363_896_240)?;
    /// assert_eq!(rt; ser.into_inner().as_slice(), b"\xc1\x1a\x51\x4b\x67\xb0".as_slice());
    /// ```
    pub fn serialize_tag(&mut self, tag: u64) -> Result<()>
        ensures { Serialized W.written W.refuses W.references W.capacity self.old (tag_head tag)
            self.new result }
    {
        self.write_head(Major::Tag, tag)
    }

    /// Appends `f4` or `f5`.
    pub fn serialize_bool(&mut self, v: bool) -> Result<()>
        ensures { Serialized W.written W.refuses W.references W.capacity self.old (item (bool v))
            self.new result }
    {
        self.write_piece(&[if v { 0xf5 } else { 0xf4 }])
    }

    /// Appends `f6`.
    pub fn serialize_unit(&mut self) -> Result<()>
        ensures { Serialized W.written W.refuses W.references W.capacity self.old (item null)
            self.new result }
    {
        self.write_piece(&[0xf6])
    }

    /// Appends `f6`, which is what an absent value is written as.
    pub fn serialize_none(&mut self) -> Result<()>
        ensures { Serialized W.written W.refuses W.references W.capacity self.old (item null)
            self.new result }
    {
        self.serialize_unit()
    }

    /// Appends `f6`, whatever the struct's name.
    pub fn serialize_unit_struct(&mut self, _name: &'static str) -> Result<()>
        ensures { Serialized W.written W.refuses W.references W.capacity self.old (item null)
            self.new result }
    {
        self.serialize_unit()
    }

    /// Appends an unsigned integer.
    #[inline(always)]
    pub fn serialize_u64(&mut self, v: u64) -> Result<()>
        ensures { Serialized W.written W.refuses W.references W.capacity self.old
            (item (integer (pos v))) self.new result }
    {
        self.write_head(Major::UnsignedInteger, v)
    }

    /// Appends an unsigned integer.
    #[inline(always)]
    pub fn serialize_u8(&mut self, v: u8) -> Result<()>
        ensures { Serialized W.written W.refuses W.references W.capacity self.old
            (item (integer (pos v))) self.new result }
    {
        self.serialize_u64(v as u64)
    }

    /// Appends an unsigned integer.
    #[inline(always)]
    pub fn serialize_u16(&mut self, v: u16) -> Result<()>
        ensures { Serialized W.written W.refuses W.references W.capacity self.old
            (item (integer (pos v))) self.new result }
    {
        self.serialize_u64(v as u64)
    }

    /// Appends an unsigned integer.
    #[inline(always)]
    pub fn serialize_u32(&mut self, v: u32) -> Result<()>
        ensures { Serialized W.written W.refuses W.references W.capacity self.old
            (item (integer (pos v))) self.new result }
    {
        self.serialize_u64(v as u64)
    }

    /// Appends a whole number.
    #[inline(always)]
    pub fn serialize_i8(&mut self, v: i8) -> Result<()>
        ensures { Serialized W.written W.refuses W.references W.capacity self.old
            (item (integer v)) self.new result }
    {
        self.serialize_i64(v as i64)
    }

    /// Appends a whole number.
    #[inline(always)]
    pub fn serialize_i16(&mut self, v: i16) -> Result<()>
        ensures { Serialized W.written W.refuses W.references W.capacity self.old
            (item (integer v)) self.new result }
    {
        self.serialize_i64(v as i64)
    }

    /// Appends a whole number.
    #[inline(always)]
    pub fn serialize_i32(&mut self, v: i32) -> Result<()>
        ensures { Serialized W.written W.refuses W.references W.capacity self.old
            (item (integer v)) self.new result }
    {
        self.serialize_i64(v as i64)
    }

    /// Appends a whole number.
    #[inline(always)]
    pub fn serialize_i64(&mut self, v: i64) -> Result<()>
        ensures { Serialized W.written W.refuses W.references W.capacity self.old
            (item (integer v)) self.new result }
    {
        let (major, n) = integer_head(v);
        self.write_head(major, n)
    }

    /// Appends a whole number. Outside `-2^64..=2^64-1` it is refused with the message
    /// `The number can't be stored in CBOR`, for which it takes memory (or with `OutOfMemory`,
    /// where that isn't found): never by the sink, to which nothing is appended.
    ///
    /// ```rust
    /// let mut ser = Serializer::new(alloc, Vec::new(alloc));
    /// ser.serialize_i128(-(1 << 64))?;
    /// assert!(rt; ser.serialize_i128(1 << 64).is_err());
    /// let bytes = ser.into_inner();
    /// assert_eq!(rt; bytes.as_slice(), b"\x3b\xff\xff\xff\xff\xff\xff\xff\xff".as_slice());
    /// ```
    pub fn serialize_i128(&mut self, v: i128) -> Result<()>
        ensures written { Serialized W.written W.refuses W.references W.capacity self.old
            (item (integer v)) self.new result }
        ensures kept { (IsStorableInteger v → ⊥) → self.new ≡ self.old }
        ensures unstorable { (IsStorableInteger v → ⊥) → IsErrAnd result SaysUnstorable }
    {
        let mut refusal = None;
        let done = put_integer(self.alloc, &mut self.writer, &mut refusal, v);
        answer(done, refusal)
    }

    /// Appends an unsigned integer. Above `2^64-1` it is refused as by `serialize_i128`.
    pub fn serialize_u128(&mut self, v: u128) -> Result<()>
        ensures written { Serialized W.written W.refuses W.references W.capacity self.old
            (item (integer (pos v))) self.new result }
        ensures kept { (IsStorableInteger (pos v) → ⊥) → self.new ≡ self.old }
        ensures unstorable { (IsStorableInteger (pos v) → ⊥) → IsErrAnd result SaysUnstorable }
    {
        match u64::try_from(v) {
            Ok(n) => self.serialize_u64(n),
            Err(_) => Err(not_storable(self.alloc)),
        }
    }

    /// Appends a float in its width, with its bits as they are, unless the setting is
    /// [`shortest_floats`](Serializer::shortest_floats).
    pub fn serialize_float(&mut self, v: Float) -> Result<()>
        ensures { Serialized W.written W.refuses W.references W.capacity self.old
            (item (document_of (float_view v))) self.new result }
    {
        let mut refusal = None;
        let done = self.float_step(v, &mut refusal);
        answer(done, refusal)
    }

    /// Appends a float of 32 bits, as by `serialize_float`. A NaN is the quiet NaN `fa7fc00000`.
    pub fn serialize_f32(&mut self, v: f32) -> Result<()>
        ensures { Serialized W.written W.refuses W.references W.capacity self.old
            (item (float single (to_bits binary32 v))) self.new result }
    {
        self.serialize_float(Float::from(v))
    }

    /// Appends a float of 64 bits, also where fewer would hold the number, as by `serialize_float`. A
    /// NaN is the quiet NaN `fb7ff8000000000000`.
    ///
    /// ```rust
    /// let mut ser = Serializer::new(alloc, Vec::new(alloc));
    /// ser.serialize_f64(1.1)?;
    /// let bytes = ser.into_inner();
    /// assert_eq!(rt; bytes.as_slice(), b"\xfb\x3f\xf1\x99\x99\x99\x99\x99\x9a".as_slice());
    /// ```
    pub fn serialize_f64(&mut self, v: f64) -> Result<()>
        ensures { Serialized W.written W.refuses W.references W.capacity self.old
            (item (float double (to_bits binary64 v))) self.new result }
    {
        self.serialize_float(Float::from(v))
    }

    /// Appends a text: its head, and then its bytes.
    pub fn serialize_str(&mut self, v: &str) -> Result<()>
        ensures { Serialized W.written W.refuses W.references W.capacity self.old
            (item (text v.now)) self.new result }
    {
        let mut refusal = None;
        let done = self.text_step(v, &mut refusal);
        answer(done, refusal)
    }

    /// Appends a character as the text of it alone.
    pub fn serialize_char(&mut self, v: char) -> Result<()>
        ensures { Serialized W.written W.refuses W.references W.capacity self.old
            (item (text (encode_utf8 v))) self.new result }
    {
        let mut bytes = [0; 4];
        self.serialize_str(v.encode_utf8(&mut bytes))
    }

    /// Appends a byte string: its head, and then the bytes.
    ///
    /// ```rust
    /// let mut ser = Serializer::new(alloc, Vec::new(alloc));
    /// ser.serialize_bytes(&[1, 2, 3, 4])?;
    /// assert_eq!(rt; ser.into_inner().as_slice(), b"\x44\x01\x02\x03\x04".as_slice());
    /// ```
    pub fn serialize_bytes(&mut self, v: &[u8]) -> Result<()>
        ensures { Serialized W.written W.refuses W.references W.capacity self.old
            (item (bytes v.now)) self.new result }
    {
        let mut refusal = None;
        let done = self.bytes_step(v, &mut refusal);
        answer(done, refusal)
    }

    // Appends a value's canonical encoding, but its floats as they are set to be.
    pub(crate) fn write_value(&mut self, v: &Value) -> Result<()>
        ensures { Serialized W.written W.refuses W.references W.capacity self.old
            (item (document_of (view v.now))) self.new result }
    {
        if self.settings.shortest {
            return self.write_by_items(v);
        }
        let mut refusal = None;
        let done = put_value(self.alloc, &mut self.writer, &mut refusal, v);
        answer(done, refusal)
    }

    // Appends the shortest head of the major type with this number, as one piece.
    #[inline(always)]
    fn write_head(&mut self, major: Major, n: u64) -> Result<()>
        ensures { (part : Part) → Spells self.old.settings part (short (major_number major) n) →
            Serialized W.written W.refuses W.references W.capacity self.old part self.new result }
    {
        write_head(&mut self.writer, major, n)
    }

    // Appends a piece.
    pub(crate) fn write_piece(&mut self, piece: &[u8]) -> Result<()>
        ensures { (part : Part) → Spells self.old.settings part piece.now →
            Serialized W.written W.refuses W.references W.capacity self.old part self.new result }
    {
        self.writer.write_all(piece)
    }
}

// The sink isn't printed: what it holds may be no reader's to see.
impl<W> fmt::Debug for Serializer<W> {
    fn fmt<F: fmt::Write>(&self, f: &mut fmt::Formatter<F>) -> fmt::Result {
        f.debug_struct("Serializer")
            .field("packed", &self.settings.packed)
            .field("legacy", &self.settings.legacy)
            .field("shortest", &self.settings.shortest)
            .finish_non_exhaustive()
    }
}

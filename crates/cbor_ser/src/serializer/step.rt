//! Writing as the calls of this crate do that write many items: an error is left with the caller.

ghost use Rattle.std.specs.Prelude.{◌++◌, length, pos, Some, IfSome};
ghost use Rattle.cbor_model.specs.Document.{bool, bytes, document_of, integer, null, text};
ghost use Rattle.cbor_model.specs.Document.{unit_variant};
ghost use Rattle.cbor_model.specs.Head.{short};
ghost use Rattle.cbor_model.specs.Parts.{Part, array_head, in_turn, field_part, item, map_head};
ghost use Rattle.cbor_io.specs.Head.{major_number};
ghost use Rattle.cbor_value.specs.View.{float_view};
ghost use Rattle.cbor_ser.specs.Documents.{key_document};
ghost use Rattle.cbor_ser.specs.Serialized.{Spells, Stepped};

use super::{Serializer, as_set, integer_head};
use crate::field::SerializeField;
use crate::items::{WriteDone, put, put_float, put_head, put_string};
use cbor_io::error::Error;
use cbor_io::head::Major;
use cbor_io::write::Write;
use cbor_value::Float;

impl<W: Write> Serializer<W> {
    // Appends the shortest head of the major type with this number, as one piece.
    #[inline(always)]
    pub(crate) fn head_step(
        &mut self,
        major: Major,
        n: u64,
        refusal: &mut Option<Error>,
    ) -> WriteDone
        ensures { (part : Part) → Spells self.old.settings part (short (major_number major) n) →
            Stepped W.written W.refuses W.references W.capacity self.old part self.new result
            refusal.new }
    {
        put_head(&mut self.writer, refusal, major, n)
    }

    // Appends the head of a string, and then what it holds.
    fn string_step(
        &mut self,
        major: Major,
        content: &[u8],
        refusal: &mut Option<Error>,
    ) -> WriteDone
        ensures { (part : Part) → Spells self.old.settings part
            (short (major_number major) (length content.now) ++ content.now) →
            Stepped W.written W.refuses W.references W.capacity self.old part self.new result
            refusal.new }
    {
        put_string(&mut self.writer, refusal, major, content)
    }

    // Appends `f4` or `f5`.
    pub(crate) fn bool_step(&mut self, v: bool, refusal: &mut Option<Error>) -> WriteDone
        ensures { Stepped W.written W.refuses W.references W.capacity self.old (item (bool v))
            self.new result refusal.new }
    {
        put(&mut self.writer, refusal, &[if v { 0xf5 } else { 0xf4 }])
    }

    // Appends `f6`.
    pub(crate) fn null_step(&mut self, refusal: &mut Option<Error>) -> WriteDone
        ensures { Stepped W.written W.refuses W.references W.capacity self.old (item null)
            self.new result refusal.new }
    {
        put(&mut self.writer, refusal, &[0xf6])
    }

    // Appends an unsigned integer.
    #[inline(always)]
    pub(crate) fn unsigned_step(&mut self, v: u64, refusal: &mut Option<Error>) -> WriteDone
        ensures { Stepped W.written W.refuses W.references W.capacity self.old
            (item (integer (pos v))) self.new result refusal.new }
    {
        self.head_step(Major::UnsignedInteger, v, refusal)
    }

    // Appends a whole number.
    #[inline(always)]
    pub(crate) fn signed_step(&mut self, v: i64, refusal: &mut Option<Error>) -> WriteDone
        ensures { Stepped W.written W.refuses W.references W.capacity self.old (item (integer v))
            self.new result refusal.new }
    {
        let (major, n) = integer_head(v);
        self.head_step(major, n, refusal)
    }

    // Appends a float, as the setting has it.
    #[inline(always)]
    pub(crate) fn float_step(&mut self, v: Float, refusal: &mut Option<Error>) -> WriteDone
        ensures { Stepped W.written W.refuses W.references W.capacity self.old
            (item (document_of (float_view v))) self.new result refusal.new }
    {
        let float = as_set(self.settings.shortest, v);
        put_float(&mut self.writer, refusal, float)
    }

    // Appends a text.
    pub(crate) fn text_step(&mut self, v: &str, refusal: &mut Option<Error>) -> WriteDone
        ensures { Stepped W.written W.refuses W.references W.capacity self.old (item (text v.now))
            self.new result refusal.new }
    {
        self.string_step(Major::TextString, v.as_bytes(), refusal)
    }

    // Appends a byte string.
    pub(crate) fn bytes_step(&mut self, v: &[u8], refusal: &mut Option<Error>) -> WriteDone
        ensures { Stepped W.written W.refuses W.references W.capacity self.old
            (item (bytes v.now)) self.new result refusal.new }
    {
        self.string_step(Major::ByteString, v, refusal)
    }

    // Appends the head of an array of so many items.
    pub(crate) fn array_step(&mut self, len: usize, refusal: &mut Option<Error>) -> WriteDone
        ensures { Stepped W.written W.refuses W.references W.capacity self.old
            (array_head (Some len)) self.new result refusal.new }
    {
        self.head_step(Major::Array, len as u64, refusal)
    }

    // Appends the head of a map of so many pairs.
    pub(crate) fn map_step(&mut self, len: usize, refusal: &mut Option<Error>) -> WriteDone
        ensures { Stepped W.written W.refuses W.references W.capacity self.old
            (map_head (Some len)) self.new result refusal.new }
    {
        self.head_step(Major::Map, len as u64, refusal)
    }

    // Appends a field that is written: what identifies it, and what it holds.
    #[inline(always)]
    pub(crate) fn field_step<A: SerializeField>(
        &mut self,
        number: u32,
        name: &str,
        field: &A,
        refusal: &mut Option<Error>,
    ) -> WriteDone
        ensures { IfSome (A.document field.now) (λ d.
            Stepped W.written W.refuses W.references W.capacity self.old
            (field_part number name.now d) self.new result refusal.new) }
    {
        self.identifier_step(number, name, refusal)?;
        field.serialize_content(self, refusal)
    }

    // The same by a label.
    pub(crate) fn labelled_step<A: SerializeField>(
        &mut self,
        label: i64,
        field: &A,
        refusal: &mut Option<Error>,
    ) -> WriteDone
        ensures { IfSome (A.document field.now) (λ d.
            Stepped W.written W.refuses W.references W.capacity self.old
            (in_turn (item (integer label)) (item d)) self.new result refusal.new) }
    {
        self.label_step(label, refusal)?;
        field.serialize_content(self, refusal)
    }

    // Appends a label.
    fn label_step(&mut self, label: i64, refusal: &mut Option<Error>) -> WriteDone
        ensures { Stepped W.written W.refuses W.references W.capacity self.old (item (integer label))
            self.new result refusal.new }
    {
        self.signed_step(label, refusal)
    }

    // Appends what identifies a field: its name, or its number where the format is packed.
    fn identifier_step(&mut self, number: u32, name: &str, refusal: &mut Option<Error>) -> WriteDone
        ensures { Stepped W.written W.refuses W.references W.capacity self.old
            (item (unit_variant number name.now)) self.new result refusal.new }
    {
        self.key_step(self.settings.packed, number, name, refusal)
    }

    // Appends a name, or the number in its place.
    fn key_step(
        &mut self,
        by_number: bool,
        number: u32,
        name: &str,
        refusal: &mut Option<Error>,
    ) -> WriteDone
        ensures { Stepped W.written W.refuses W.references W.capacity self.old
            (item (key_document by_number number name.now)) self.new result refusal.new }
    {
        if by_number {
            self.unsigned_step(number as u64, refusal)
        } else {
            self.text_step(name, refusal)
        }
    }
}

//! Writing what holds documents: options, newtype structs, variants, sequences, maps and structs.

ghost use Rattle.std.specs.Prelude.{◌≡◌, ◌-◌, ◌+◌, ◌^◌, ◌<◌, IfOk, Some, false};
ghost use Rattle.std.specs.Borrow.{sem, RestsIfErr};
ghost use Rattle.cbor_model.specs.Document.{text, unit_variant, newtype_variant};
ghost use Rattle.cbor_model.specs.Parts.{Part, item, in_turn, array_head, map_head, ending};
ghost use Rattle.cbor_model.specs.Parts.{newtype_head, tuple_head, struct_head, field_part};
ghost use Rattle.cbor_ser.specs.Documents.{key_document};
ghost use Rattle.cbor_ser.specs.Serialized.{Added, Serialized};
ghost use Rattle.cbor_ser.specs.contracts.serializer.Serializer.{the_row};

use super::Serializer;
use crate::collection::{CollectionSerializer, StructSerializer, Turn};
use crate::serialize::Serialize;
use cbor_io::error::Result;
use cbor_io::head::Major;
use cbor_io::write::Write;

impl<W: Write> Serializer<W> {
    /// Appends a value that is there, as it is.
    pub fn serialize_some<T: Serialize>(&mut self, v: &T) -> Result<()>
        ensures { Serialized W.written W.refuses W.references W.capacity self.old
            (item (T.document v.now)) self.new result }
    {
        v.serialize(self)
    }

    /// Appends what a struct of one unnamed part holds, whatever the struct's name.
    pub fn serialize_newtype_struct<T: Serialize>(
        &mut self,
        _name: &'static str,
        v: &T,
    ) -> Result<()>
        ensures { Serialized W.written W.refuses W.references W.capacity self.old
            (item (T.document v.now)) self.new result }
    {
        v.serialize(self)
    }

    /// Appends a variant that holds nothing: its name, or its number where the format is packed.
    ///
    /// ```rust
    /// let mut ser = Serializer::new(alloc, Vec::new(alloc));
    /// ser.serialize_unit_variant("Side", 1, "Right")?;
    /// assert_eq!(rt; ser.into_inner().as_slice(), b"\x65Right".as_slice());
    /// ```
    pub fn serialize_unit_variant(
        &mut self,
        _name: &'static str,
        index: u32,
        variant: &'static str,
    ) -> Result<()>
        ensures { Serialized W.written W.refuses W.references W.capacity self.old
            (item (unit_variant index variant.now)) self.new result }
    {
        self.write_identifier(index, variant)
    }

    /// Appends a variant of one unnamed part: the map of its name and the part, or in the legacy
    /// form the array of its name (its number where the format is packed) and the part.
    ///
    /// ```rust
    /// let mut ser = Serializer::new(alloc, Vec::new(alloc));
    /// ser.serialize_newtype_variant("Shape", 0, "Dot", &7u8)?;
    /// assert_eq!(rt; ser.into_inner().as_slice(), b"\xa1\x63Dot\x07".as_slice());
    /// ```
    pub fn serialize_newtype_variant<T: Serialize>(
        &mut self,
        _name: &'static str,
        index: u32,
        variant: &'static str,
        v: &T,
    ) -> Result<()>
        ensures { Serialized W.written W.refuses W.references W.capacity self.old
            (item (newtype_variant index variant.now (T.document v.now))) self.new result }
    {
        self.write_newtype_head(index, variant)?;
        v.serialize(self)
    }

    /// Begins a sequence of so many items, or up to a break where the length isn't declared.
    /// The items follow by [`CollectionSerializer::serialize_element`].
    ///
    /// ```rust
    /// let mut ser = Serializer::new(alloc, Vec::new(alloc));
    /// let mut items = ser.serialize_seq(None)?; // its length isn't known yet
    /// items.serialize_element(&1u8)?;
    /// items.serialize_element(&2u8)?;
    /// items.end()?;
    /// assert_eq!(rt; ser.into_inner().as_slice(), b"\x9f\x01\x02\xff".as_slice());
    /// ```
    pub fn serialize_seq<'a>(
        &'a mut self,
        len: Option<usize>,
    ) -> Result<CollectionSerializer<'a, W>>
        ensures* rests { sem 𝓛 (RestsIfErr (the_row W.row) self.entry (λ s. s.ser.ghost_name)
            result (λ last. Serialized W.written W.refuses W.references W.capacity self.old
            (array_head len) last result)) }
        ensures same_reference { IfOk result (λ s. s.ser.ghost_name ≡ self.entry.ghost_name) }
        ensures head { IfOk result (λ s. Added W.written W.references W.capacity self.old
            (array_head len) s.ser.now) }
        ensures state { IfOk result (λ s. (s.left ≡ len) × (s.turn ≡ Turn.Element)) }
    {
        self.write_array_head(len)?;
        Ok(CollectionSerializer {
            ser: self,
            left: len,
            turn: Turn::Element,
        })
    }

    /// Begins a map of so many pairs, or up to a break where the length isn't declared. Keys and
    /// values follow by turns.
    ///
    /// ```rust
    /// let mut ser = Serializer::new(alloc, Vec::new(alloc));
    /// let mut pairs = ser.serialize_map(Some(1))?;
    /// pairs.serialize_key(&"a")?;
    /// pairs.serialize_value(&1u8)?;
    /// pairs.end()?;
    /// assert_eq!(rt; ser.into_inner().as_slice(), b"\xa1\x61a\x01".as_slice());
    /// ```
    pub fn serialize_map<'a>(
        &'a mut self,
        len: Option<usize>,
    ) -> Result<CollectionSerializer<'a, W>>
        ensures* rests { sem 𝓛 (RestsIfErr (the_row W.row) self.entry (λ s. s.ser.ghost_name)
            result (λ last. Serialized W.written W.refuses W.references W.capacity self.old
            (map_head len) last result)) }
        ensures same_reference { IfOk result (λ s. s.ser.ghost_name ≡ self.entry.ghost_name) }
        ensures head { IfOk result (λ s. Added W.written W.references W.capacity self.old
            (map_head len) s.ser.now) }
        ensures state { IfOk result (λ s. (s.left ≡ len) × (s.turn ≡ Turn.Key)) }
    {
        self.write_map_head(len)?;
        Ok(CollectionSerializer {
            ser: self,
            left: len,
            turn: Turn::Key,
        })
    }

    /// Begins a tuple, which is a sequence of so many items.
    ///
    /// ```rust
    /// let mut ser = Serializer::new(alloc, Vec::new(alloc));
    /// let mut items = ser.serialize_tuple(2)?;
    /// items.serialize_element(&1u8)?;
    /// items.serialize_element(&true)?;
    /// items.end()?;
    /// assert_eq!(rt; ser.into_inner().as_slice(), b"\x82\x01\xf5".as_slice());
    /// ```
    pub fn serialize_tuple<'a>(&'a mut self, len: usize) -> Result<CollectionSerializer<'a, W>>
        ensures* rests { sem 𝓛 (RestsIfErr (the_row W.row) self.entry (λ s. s.ser.ghost_name)
            result (λ last. Serialized W.written W.refuses W.references W.capacity self.old
            (array_head (Some len)) last result)) }
        ensures same_reference { IfOk result (λ s. s.ser.ghost_name ≡ self.entry.ghost_name) }
        ensures head { IfOk result (λ s. Added W.written W.references W.capacity self.old
            (array_head (Some len)) s.ser.now) }
        ensures state { IfOk result (λ s. (s.left ≡ Some len) × (s.turn ≡ Turn.Element)) }
    {
        self.write_array_head(Some(len))?;
        Ok(CollectionSerializer {
            ser: self,
            left: Some(len),
            turn: Turn::Element,
        })
    }

    /// Begins a struct of unnamed parts, which is a sequence of them, whatever its name.
    pub fn serialize_tuple_struct<'a>(
        &'a mut self,
        _name: &'static str,
        len: usize,
    ) -> Result<CollectionSerializer<'a, W>>
        ensures* rests { sem 𝓛 (RestsIfErr (the_row W.row) self.entry (λ s. s.ser.ghost_name)
            result (λ last. Serialized W.written W.refuses W.references W.capacity self.old
            (array_head (Some len)) last result)) }
        ensures same_reference { IfOk result (λ s. s.ser.ghost_name ≡ self.entry.ghost_name) }
        ensures head { IfOk result (λ s. Added W.written W.references W.capacity self.old
            (array_head (Some len)) s.ser.now) }
        ensures state { IfOk result (λ s. (s.left ≡ Some len) × (s.turn ≡ Turn.Element)) }
    {
        self.write_array_head(Some(len))?;
        Ok(CollectionSerializer {
            ser: self,
            left: Some(len),
            turn: Turn::Element,
        })
    }

    /// Begins a variant of unnamed parts: the map of its name and the array of its parts, or in the
    /// legacy form the array of its name (its number where the format is packed) and its parts.
    ///
    /// ```rust
    /// let mut ser = Serializer::new(alloc, Vec::new(alloc));
    /// let mut parts = ser.serialize_tuple_variant("Shape", 1, "Box", 2)?;
    /// parts.serialize_field(&3u8)?;
    /// parts.serialize_field(&4u8)?;
    /// parts.end()?;
    /// assert_eq!(rt; ser.into_inner().as_slice(), b"\xa1\x63Box\x82\x03\x04".as_slice());
    /// ```
    pub fn serialize_tuple_variant<'a>(
        &'a mut self,
        _name: &'static str,
        index: u32,
        variant: &'static str,
        len: usize,
    ) -> Result<CollectionSerializer<'a, W>>
        requires len { len < 2 ^ 64 - 1 }
        ensures* rests { sem 𝓛 (RestsIfErr (the_row W.row) self.entry (λ s. s.ser.ghost_name)
            result (λ last. Serialized W.written W.refuses W.references W.capacity self.old
            (tuple_head index variant.now len) last result)) }
        ensures same_reference { IfOk result (λ s. s.ser.ghost_name ≡ self.entry.ghost_name) }
        ensures head { IfOk result (λ s. Added W.written W.references W.capacity self.old
            (tuple_head index variant.now len) s.ser.now) }
        ensures state { IfOk result (λ s. (s.left ≡ Some len) × (s.turn ≡ Turn.Element)) }
    {
        self.write_tuple_head(index, variant, len)?;
        Ok(CollectionSerializer {
            ser: self,
            left: Some(len),
            turn: Turn::Element,
        })
    }

    /// Begins a struct: a map of its fields, of which so many are written.
    ///
    /// ```rust
    /// let mut ser = Serializer::new(alloc, Vec::new(alloc));
    /// let mut fields = ser.serialize_struct("Point", 2)?;
    /// fields.serialize_field("x", &5u8)?;
    /// fields.serialize_field("y", &-5i8)?;
    /// fields.end()?;
    /// assert_eq!(rt; ser.into_inner().as_slice(), b"\xa2\x61x\x05\x61y\x24".as_slice());
    /// ```
    pub fn serialize_struct<'a>(
        &'a mut self,
        _name: &'static str,
        len: usize,
    ) -> Result<StructSerializer<'a, W>>
        ensures* rests { sem 𝓛 (RestsIfErr (the_row W.row) self.entry (λ s. s.ser.ghost_name)
            result (λ last. Serialized W.written W.refuses W.references W.capacity self.old
            (map_head (Some len)) last result)) }
        ensures same_reference { IfOk result (λ s. s.ser.ghost_name ≡ self.entry.ghost_name) }
        ensures head { IfOk result (λ s. Added W.written W.references W.capacity self.old
            (map_head (Some len)) s.ser.now) }
        ensures state { IfOk result (λ s. (s.left ≡ len) × (s.next ≡ 0)) }
    {
        self.write_map_head(Some(len))?;
        Ok(StructSerializer {
            ser: self,
            next: 0,
            left: len,
        })
    }

    /// Begins a variant of named fields: the map of its name (its number where the format is
    /// packed) and the map of its fields, or in the legacy form the array of the two.
    ///
    /// ```rust
    /// let mut ser = Serializer::new(alloc, Vec::new(alloc));
    /// let mut fields = ser.serialize_struct_variant("Shape", 2, "At", 1)?;
    /// fields.serialize_field("x", &5u8)?;
    /// fields.end()?;
    /// assert_eq!(rt; ser.into_inner().as_slice(), b"\xa1\x62At\xa1\x61x\x05".as_slice());
    /// ```
    pub fn serialize_struct_variant<'a>(
        &'a mut self,
        _name: &'static str,
        index: u32,
        variant: &'static str,
        len: usize,
    ) -> Result<StructSerializer<'a, W>>
        ensures* rests { sem 𝓛 (RestsIfErr (the_row W.row) self.entry (λ s. s.ser.ghost_name)
            result (λ last. Serialized W.written W.refuses W.references W.capacity self.old (in_turn
            (struct_head index variant.now) (map_head (Some len))) last result)) }
        ensures same_reference { IfOk result (λ s. s.ser.ghost_name ≡ self.entry.ghost_name) }
        ensures head { IfOk result (λ s. Added W.written W.references W.capacity self.old
            (in_turn (struct_head index variant.now) (map_head (Some len))) s.ser.now) }
        ensures state { IfOk result (λ s. (s.left ≡ len) × (s.next ≡ 0)) }
    {
        self.write_struct_head(index, variant, len)?;
        Ok(StructSerializer {
            ser: self,
            next: 0,
            left: len,
        })
    }

    // Appends the head of an array, or `9f` where the length isn't declared.
    pub(crate) fn write_array_head(&mut self, len: Option<usize>) -> Result<()>
        ensures { Serialized W.written W.refuses W.references W.capacity self.old (array_head len)
            self.new result }
    {
        match len {
            Some(n) => self.write_head(Major::Array, n as u64),
            None => self.write_piece(&[0x9f]),
        }
    }

    // Appends the head of a map, or `bf` where the length isn't declared.
    pub(crate) fn write_map_head(&mut self, len: Option<usize>) -> Result<()>
        ensures { Serialized W.written W.refuses W.references W.capacity self.old (map_head len)
            self.new result }
    {
        match len {
            Some(n) => self.write_head(Major::Map, n as u64),
            None => self.write_piece(&[0xbf]),
        }
    }

    // Ends an array or a map: by a break where its length wasn't declared.
    pub(crate) fn write_end(&mut self, left: Option<usize>) -> Result<()>
        ensures { Serialized W.written W.refuses W.references W.capacity self.old (ending left)
            self.new result }
    {
        match left {
            Some(_) => Ok(()),
            None => self.write_piece(&[0xff]),
        }
    }

    // Appends what identifies a field or a variant: its name, or its number where the format is
    // packed.
    pub(crate) fn write_identifier(&mut self, index: u32, name: &str) -> Result<()>
        ensures { Serialized W.written W.refuses W.references W.capacity self.old
            (item (unit_variant index name.now)) self.new result }
    {
        self.write_key(self.settings.packed, index, name)
    }

    // Appends a name, or the number in its place.
    #[inline(always)]
    fn write_key(&mut self, by_number: bool, index: u32, name: &str) -> Result<()>
        ensures { Serialized W.written W.refuses W.references W.capacity self.old
            (item (key_document by_number index name.now)) self.new result }
    {
        if by_number {
            self.serialize_u32(index)
        } else {
            self.serialize_str(name)
        }
    }

    // Begins an array in which the parts of a variant follow its identifier.
    fn write_legacy_head(&mut self, len: usize, index: u32, name: &str) -> Result<()>
        ensures { Serialized W.written W.refuses W.references W.capacity self.old
            (in_turn (array_head (Some len)) (item (unit_variant index name.now))) self.new result }
    {
        self.write_array_head(Some(len))?;
        self.write_identifier(index, name)
    }

    // Begins the map of a variant's name, or of its number, and what it holds.
    #[inline(always)]
    fn write_map_key(&mut self, by_number: bool, index: u32, name: &str) -> Result<()>
        ensures { Serialized W.written W.refuses W.references W.capacity self.old
            (in_turn (map_head (Some 1)) (item (key_document by_number index name.now)))
            self.new result }
    {
        self.write_map_head(Some(1))?;
        self.write_key(by_number, index, name)
    }

    // Appends what precedes the part of a newtype variant.
    #[inline(always)]
    pub(crate) fn write_newtype_head(&mut self, index: u32, name: &str) -> Result<()>
        ensures { Serialized W.written W.refuses W.references W.capacity self.old
            (newtype_head index name.now) self.new result }
    {
        if self.settings.legacy {
            self.write_legacy_head(2, index, name)
        } else {
            self.write_map_key(false, index, name)
        }
    }

    // Appends what precedes the parts of a tuple variant.
    pub(crate) fn write_tuple_head(&mut self, index: u32, name: &str, len: usize) -> Result<()>
        requires { len < 2 ^ 64 - 1 }
        ensures { Serialized W.written W.refuses W.references W.capacity self.old
            (tuple_head index name.now len) self.new result }
    {
        if self.settings.legacy {
            return self.write_legacy_head(len + 1, index, name);
        }
        self.write_map_key(false, index, name)?;
        self.write_array_head(Some(len))
    }

    // Appends what precedes the fields of a struct variant.
    pub(crate) fn write_struct_head(&mut self, index: u32, name: &str, len: usize) -> Result<()>
        ensures { Serialized W.written W.refuses W.references W.capacity self.old
            (in_turn (struct_head index name.now) (map_head (Some len))) self.new result }
    {
        self.write_struct_key(index, name)?;
        self.write_map_head(Some(len))
    }

    // Appends what precedes the map of a struct variant's fields.
    pub(crate) fn write_struct_key(&mut self, index: u32, name: &str) -> Result<()>
        ensures { Serialized W.written W.refuses W.references W.capacity self.old
            (struct_head index name.now) self.new result }
    {
        if self.settings.legacy {
            self.write_legacy_head(2, index, name)
        } else {
            self.write_map_key(self.settings.packed, index, name)
        }
    }

    // Appends the identifier of a field, and what it holds.
    pub(crate) fn write_field<T: Serialize>(&mut self, number: u32, name: &str, v: &T) -> Result<()>
        ensures { Serialized W.written W.refuses W.references W.capacity self.old
            (field_part number name.now (T.document v.now)) self.new result }
    {
        self.write_identifier(number, name)?;
        v.serialize(self)
    }
}

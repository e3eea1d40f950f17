//! The parts of sequences, maps and structs, written one after the other.

ghost use Rattle.std.specs.Prelude.{◌≡◌, ◌≢◌, ◌+◌, ◌-◌, ◌^◌, ◌<◌};
ghost use Rattle.cbor_model.specs.Parts.{item, nothing, ending, field_part};
ghost use Rattle.cbor_ser.specs.Serialized.{Serialized};
ghost use Rattle.cbor_ser.specs.Collections.{one_less, IsDue, IsDone};

use crate::serialize::Serialize;
use crate::serializer::Serializer;
use cbor_io::error::Result;
use cbor_io::write::Write;

/// What a collection takes next.
#[derive(Clone, Copy)]
pub(crate) enum Turn {
    Element,
    Key,
    Value,
}

/// Writes the items of a sequence or a tuple, or the keys and values of a map by turns.
///
/// As many as were declared have to be written before [`end`](CollectionSerializer::end), and each
/// key must have its value by then. After an Err no call follows.
#[derive(Drop)]
pub struct CollectionSerializer<'a, W> {
    pub(crate) ser: &'a mut Serializer<W>,
    pub(crate) left: Option<usize>,
    pub(crate) turn: Turn,
}

impl<'a, W: Write> CollectionSerializer<'a, W> {
    /// Appends an item of a sequence or a tuple.
    pub fn serialize_element<T: Serialize>(&mut self, v: &T) -> Result<()>
        requires turn { self.old.turn ≡ Turn.Element }
        requires due { IsDue self.old.left }
        ensures same_reference { self.new.ser.ghost_name ≡ self.old.ser.ghost_name }
        ensures turn { self.new.turn ≡ Turn.Element }
        ensures left { self.new.left ≡ one_less self.old.left }
        ensures wrote { Serialized W.written W.refuses W.references W.capacity self.old.ser.now
            (item (T.document v.now)) self.new.ser.now result }
    {
        self.count();
        v.serialize(self.ser)
    }

    /// Appends a part of a tuple struct or a tuple variant, as `serialize_element` does.
    pub fn serialize_field<T: Serialize>(&mut self, v: &T) -> Result<()>
        requires turn { self.old.turn ≡ Turn.Element }
        requires due { IsDue self.old.left }
        ensures same_reference { self.new.ser.ghost_name ≡ self.old.ser.ghost_name }
        ensures turn { self.new.turn ≡ Turn.Element }
        ensures left { self.new.left ≡ one_less self.old.left }
        ensures wrote { Serialized W.written W.refuses W.references W.capacity self.old.ser.now
            (item (T.document v.now)) self.new.ser.now result }
    {
        self.serialize_element(v)
    }

    /// Appends a key of a map. Its value is to be written next.
    pub fn serialize_key<T: Serialize>(&mut self, k: &T) -> Result<()>
        requires turn { self.old.turn ≡ Turn.Key }
        requires due { IsDue self.old.left }
        ensures same_reference { self.new.ser.ghost_name ≡ self.old.ser.ghost_name }
        ensures turn { self.new.turn ≡ Turn.Value }
        ensures left { self.new.left ≡ one_less self.old.left }
        ensures wrote { Serialized W.written W.refuses W.references W.capacity self.old.ser.now
            (item (T.document k.now)) self.new.ser.now result }
    {
        self.count();
        self.turn = Turn::Value;
        k.serialize(self.ser)
    }

    /// Appends the value of the key before it.
    pub fn serialize_value<T: Serialize>(&mut self, v: &T) -> Result<()>
        requires turn { self.old.turn ≡ Turn.Value }
        ensures same_reference { self.new.ser.ghost_name ≡ self.old.ser.ghost_name }
        ensures turn { self.new.turn ≡ Turn.Key }
        ensures left { self.new.left ≡ self.old.left }
        ensures wrote { Serialized W.written W.refuses W.references W.capacity self.old.ser.now
            (item (T.document v.now)) self.new.ser.now result }
    {
        self.turn = Turn::Key;
        v.serialize(self.ser)
    }

    /// Ends the collection: by a break where its length wasn't declared.
    pub fn end(self) -> Result<()>
        requires done { IsDone self.left }
        requires turn { self.turn ≢ Turn.Value }
        ensures { Serialized W.written W.refuses W.references W.capacity self.entry.ser.now
            (ending self.entry.left) self.exit.0.now result }
    {
        let CollectionSerializer { ser, left, turn: _ } = self;
        ser.write_end(left)
    }

    // One fewer is due, where a length was declared.
    fn count(&mut self)
        requires { IsDue self.old.left }
        ensures { self.new ≡ record self.old { left = one_less self.old.left } }
    {
        if let Some(n) = self.left {
            self.left = Some(n - 1);
        }
    }
}

/// Writes the fields of a struct, each by its name, or by its number where the format is packed.
///
/// The first field has the number 0, and a field that is left out has a number too. As many as were
/// declared have to be written before [`end`](StructSerializer::end). After an Err no call follows.
#[derive(Drop)]
pub struct StructSerializer<'a, W> {
    pub(crate) ser: &'a mut Serializer<W>,
    pub(crate) next: u32,
    pub(crate) left: usize,
}

impl<'a, W: Write> StructSerializer<'a, W> {
    /// Appends a field.
    pub fn serialize_field<T: Serialize>(&mut self, name: &'static str, v: &T) -> Result<()>
        requires due { 0 < self.old.left }
        requires number { self.old.next < 2 ^ 32 - 1 }
        ensures same_reference { self.new.ser.ghost_name ≡ self.old.ser.ghost_name }
        ensures left { self.new.left ≡ self.old.left - 1 }
        ensures next { self.new.next ≡ self.old.next + 1 }
        ensures wrote { Serialized W.written W.refuses W.references W.capacity self.old.ser.now
            (field_part self.old.next name.now (T.document v.now)) self.new.ser.now result }
    {
        let number = self.next;
        self.left -= 1;
        self.next = number + 1;
        self.ser.write_field(number, name, v)
    }

    /// Leaves a field out, which was not among those that were declared. It has its number all the
    /// same.
    ///
    /// ```rust
    /// let mut ser = Serializer::new(alloc, Vec::new(alloc));
    /// let mut fields = ser.serialize_struct("Point", 1)?;
    /// fields.skip_field("x");
    /// fields.serialize_field("y", &7u8)?;
    /// fields.end()?;
    /// assert_eq!(rt; ser.into_inner().as_slice(), b"\xa1\x61y\x07".as_slice());
    /// ```
    pub fn skip_field(&mut self, _name: &'static str)
        requires number { self.old.next < 2 ^ 32 - 1 }
        ensures same_reference { self.new.ser.ghost_name ≡ self.old.ser.ghost_name }
        ensures left { self.new.left ≡ self.old.left }
        ensures next { self.new.next ≡ self.old.next + 1 }
        ensures unchanged { self.new.ser.now ≡ self.old.ser.now }
    {
        self.next += 1;
    }

    /// Ends the struct.
    pub fn end(self) -> Result<()>
        requires { self.left ≡ 0 }
        ensures { Serialized W.written W.refuses W.references W.capacity self.entry.ser.now nothing
            self.exit.0.now result }
    {
        let StructSerializer {
            ser: _,
            next: _,
            left: _,
        } = self;
        Ok(())
    }
}

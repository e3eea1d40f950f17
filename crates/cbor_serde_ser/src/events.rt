//! What each call of a `Serializer` writes.

ghost use Rattle.std.specs.Prelude.{◌≡◌, string_bytes, IfErr, OnOk};
ghost use Rattle.serde.specs.Event.{boolean, signed, unsigned, single, double, character};
ghost use Rattle.serde.specs.Event.{text as text_event, octets, nothing, unit_variant, seq_begins};
ghost use Rattle.serde.specs.Event.{seq_ends, map_begins, map_ends, field_key};
ghost use Rattle.serde.specs.Event.{key_begins, key_ends};
ghost use Rattle.serde.specs.Event.{variant_key as variant_event, flattens as flatten_event};
ghost use Rattle.cbor_serde_ser.specs.State.{Refuses, Writes};

use crate::bytes::{put, put_float, put_head, put_integer, put_string, put_text};
use crate::float::{of_double, of_single};
use crate::reason::{Reason, Step};
use crate::writer::Writer;
use cbor_io::head::Major;
use serde::{Case, NameKind};

impl Writer {
    pub(crate) fn bool(&mut self, v: bool) -> Step<()>
        ensures step { OnOk result (Writes self.old (boolean v) self.new) }
        ensures options { self.new.options ≡ self.old.options }
        ensures refused { IfErr result (Refuses self.old (boolean v)) }
    {
        self.settle()?;
        self.item()?;
        put(&mut self.out, &[if v { 0xf5 } else { 0xf4 }])?;
        Ok(())
    }

    pub(crate) fn i64(&mut self, v: i64) -> Step<()>
        ensures step { OnOk result (Writes self.old (signed v) self.new) }
        ensures options { self.new.options ≡ self.old.options }
        ensures refused { IfErr result (Refuses self.old (signed v)) }
    {
        self.settle()?;
        self.item()?;
        if v >= 0 {
            put_head(&mut self.out, Major::UnsignedInteger, v as u64)?;
        } else {
            put_head(&mut self.out, Major::NegativeInteger, (-1 - v) as u64)?;
        }
        Ok(())
    }

    pub(crate) fn u64(&mut self, v: u64) -> Step<()>
        ensures step { OnOk result (Writes self.old (unsigned v) self.new) }
        ensures options { self.new.options ≡ self.old.options }
        ensures refused { IfErr result (Refuses self.old (unsigned v)) }
    {
        self.settle()?;
        self.item()?;
        put_head(&mut self.out, Major::UnsignedInteger, v)?;
        Ok(())
    }

    pub(crate) fn i128(&mut self, v: i128) -> Step<()>
        ensures step { OnOk result (Writes self.old (signed v) self.new) }
        ensures options { self.new.options ≡ self.old.options }
        ensures refused { IfErr result (Refuses self.old (signed v)) }
    {
        self.settle()?;
        self.item()?;
        put_integer(&mut self.out, v)
    }

    pub(crate) fn u128(&mut self, v: u128) -> Step<()>
        ensures step { OnOk result (Writes self.old (unsigned v) self.new) }
        ensures options { self.new.options ≡ self.old.options }
        ensures refused { IfErr result (Refuses self.old (unsigned v)) }
    {
        self.settle()?;
        self.item()?;
        match u64::try_from(v) {
            Ok(n) => {
                put_head(&mut self.out, Major::UnsignedInteger, n)?;
                Ok(())
            }
            Err(_) => Err(Reason::NotStored),
        }
    }

    pub(crate) fn f32(&mut self, v: f32) -> Step<()>
        ensures step { OnOk result (Writes self.old (single v) self.new) }
        ensures options { self.new.options ≡ self.old.options }
        ensures refused { IfErr result (Refuses self.old (single v)) }
    {
        self.settle()?;
        self.item()?;
        let width = of_single(v, self.options.shortest_floats);
        put_float(&mut self.out, width)?;
        Ok(())
    }

    pub(crate) fn f64(&mut self, v: f64) -> Step<()>
        ensures step { OnOk result (Writes self.old (double v) self.new) }
        ensures options { self.new.options ≡ self.old.options }
        ensures refused { IfErr result (Refuses self.old (double v)) }
    {
        self.settle()?;
        self.item()?;
        let width = of_double(v, self.options.shortest_floats);
        put_float(&mut self.out, width)?;
        Ok(())
    }

    pub(crate) fn char(&mut self, v: char) -> Step<()>
        ensures step { OnOk result (Writes self.old (character v) self.new) }
        ensures options { self.new.options ≡ self.old.options }
        ensures refused { IfErr result (Refuses self.old (character v)) }
    {
        self.settle()?;
        self.item()?;
        let mut bytes = [0; 4];
        let text = v.encode_utf8(&mut bytes);
        put_text(&mut self.out, text)?;
        Ok(())
    }

    #[inline(always)]
    pub(crate) fn str(&mut self, v: &str) -> Step<()>
        ensures step { OnOk result (Writes self.old (text_event v.now) self.new) }
        ensures options { self.new.options ≡ self.old.options }
        ensures refused { IfErr result (Refuses self.old (text_event v.now)) }
    {
        self.settle()?;
        self.item()?;
        put_text(&mut self.out, v)?;
        Ok(())
    }

    pub(crate) fn bytes(&mut self, v: &[u8]) -> Step<()>
        ensures step { OnOk result (Writes self.old (octets v.now) self.new) }
        ensures options { self.new.options ≡ self.old.options }
        ensures refused { IfErr result (Refuses self.old (octets v.now)) }
    {
        self.settle()?;
        self.item()?;
        put_string(&mut self.out, Major::ByteString, v)?;
        Ok(())
    }

    // A unit that is flattened writes nothing.
    pub(crate) fn unit(&mut self) -> Step<()>
        ensures step { OnOk result (Writes self.old nothing self.new) }
        ensures options { self.new.options ≡ self.old.options }
        ensures refused { IfErr result (Refuses self.old nothing) }
    {
        self.settle()?;
        if self.flattens {
            self.flattens = false;
            return Ok(());
        }
        self.item()?;
        put(&mut self.out, &[0xf6])?;
        Ok(())
    }

    pub(crate) fn str_cased(&mut self, name: &str, case: Case) -> Step<()>
        ensures step { OnOk result (Writes self.old (unit_variant name.now case) self.new) }
        ensures options { self.new.options ≡ self.old.options }
        ensures refused { IfErr result (Refuses self.old (unit_variant name.now case)) }
    {
        self.settle()?;
        self.name(name, case, NameKind::Variant, self.options.integer_keys)
    }

    pub(crate) fn begin_seq(&mut self, len: Option<usize>) -> Step<()>
        ensures step { OnOk result (Writes self.old (seq_begins len) self.new) }
        ensures options { self.new.options ≡ self.old.options }
        ensures refused { IfErr result (Refuses self.old (seq_begins len)) }
    {
        self.settle()?;
        self.begin(counted(len), false)
    }

    pub(crate) fn end_seq(&mut self) -> Step<()>
        ensures step { OnOk result (Writes self.old seq_ends self.new) }
        ensures options { self.new.options ≡ self.old.options }
        ensures refused { IfErr result (Refuses self.old seq_ends) }
    {
        self.settle()?;
        self.end()
    }

    pub(crate) fn begin_map(&mut self, len: Option<usize>) -> Step<()>
        ensures step { OnOk result (Writes self.old (map_begins len) self.new) }
        ensures options { self.new.options ≡ self.old.options }
        ensures refused { IfErr result (Refuses self.old (map_begins len)) }
    {
        self.settle()?;
        if self.flattens {
            if self.level.flat == u64::MAX {
                return Err(Reason::TooManyFlat);
            }
            self.flattens = false;
            self.level.flat += 1;
            return Ok(());
        }
        if self.options.structs_as_arrays {
            self.begun = Some(counted(len));
            return Ok(());
        }
        self.begin(counted(len), true)
    }

    pub(crate) fn end_map(&mut self) -> Step<()>
        ensures step { OnOk result (Writes self.old map_ends self.new) }
        ensures options { self.new.options ≡ self.old.options }
        ensures refused { IfErr result (Refuses self.old map_ends) }
    {
        self.settle()?;
        self.end()
    }

    // The name of a field is most often a text at a place where nothing else is due.
    #[inline(always)]
    pub(crate) fn key_cased(&mut self, name: &str, case: Case) -> Step<()>
        ensures step { OnOk result (Writes self.old (field_key name.now case) self.new) }
        ensures options { self.new.options ≡ self.old.options }
        ensures refused { IfErr result (Refuses self.old (field_key name.now case)) }
    {
        // One branch decides by all three.
        if self.begun.is_some() | self.level.drops_names | self.options.integer_keys {
            return self.any_key(name, case);
        }
        self.name(name, case, NameKind::Field, false)
    }

    #[inline(never)]
    fn any_key(&mut self, name: &str, case: Case) -> Step<()>
        ensures step { OnOk result (Writes self.old (field_key name.now case) self.new) }
        ensures options { self.new.options ≡ self.old.options }
        ensures refused { IfErr result (Refuses self.old (field_key name.now case)) }
    {
        self.settle_field(name, case)?;
        if self.level.drops_names {
            return Ok(());
        }
        self.name(name, case, NameKind::Field, self.options.integer_keys)
    }

    pub(crate) fn variant_key(&mut self, name: &str, case: Case) -> Step<()>
        ensures step { OnOk result (Writes self.old (variant_event name.now case) self.new) }
        ensures options { self.new.options ≡ self.old.options }
        ensures refused { IfErr result (Refuses self.old (variant_event name.now case)) }
    {
        self.settle()?;
        self.name(name, case, NameKind::Variant, self.options.integer_keys)
    }

    pub(crate) fn flatten_next(&mut self) -> Step<()>
        ensures step { OnOk result (Writes self.old flatten_event self.new) }
        ensures options { self.new.options ≡ self.old.options }
        ensures refused { IfErr result (Refuses self.old flatten_event) }
    {
        if self.options.structs_as_arrays {
            return Err(Reason::NoPlace);
        }
        self.settle()?;
        self.flattens = true;
        Ok(())
    }

    // A key is an item like any other, but that it tells a map from a struct.
    pub(crate) fn begin_key(&mut self) -> Step<()>
        ensures step { OnOk result (Writes self.old key_begins self.new) }
        ensures options { self.new.options ≡ self.old.options }
        ensures refused { IfErr result (Refuses self.old key_begins) }
    {
        self.settle()
    }

    pub(crate) fn end_key(&mut self) -> Step<()>
        ensures step { OnOk result (Writes self.old key_ends self.new) }
        ensures options { self.new.options ≡ self.old.options }
        ensures refused { IfErr result (Refuses self.old key_ends) }
    {
        self.settle()
    }

    // The printed text stays in the buffer.
    pub(crate) fn collect_str<T: std::fmt::Display>(&mut self, value: &T) -> Step<()>
        ensures step { OnOk result
            (Writes self.old (text_event (string_bytes self.new.text_buffer)) self.new) }
        ensures options { self.new.options ≡ self.old.options }
        ensures refused { IfErr result
            (Refuses self.old (text_event (string_bytes self.new.text_buffer))) }
    {
        self.settle()?;
        self.item()?;
        self.text_buffer.clear();
        if write!(self.text_buffer, "{value}").is_err() {
            return Err(Reason::OutOfMemory);
        }
        put_text(&mut self.out, self.text_buffer.as_str())?;
        Ok(())
    }
}

// A length as a count of 64 bits.
fn counted(len: Option<usize>) -> Option<u64>
    ensures { result ≡ len }
{
    match len {
        Some(n) => Some(n as u64),
        None => None,
    }
}

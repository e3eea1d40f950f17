//! Reading an item that needn't be whole at hand.

ghost use Rattle.std.specs.Prelude.{◌-◌, ◌^◌, None, string_bytes, IfOk, OnOk};
ghost use Rattle.cbor_model.specs.Readable.{IsBool, IsFromZero, IsInteger, IsSigned, IsText};
ghost use Rattle.cbor_model.specs.Readable.{IsUnit};
ghost use Rattle.cbor_decode_as.specs.Scalars.{IsFloatOf};
ghost use Rattle.serde.specs.Event.{map_begins, seq_begins, struct_begins};
ghost use Rattle.cbor_serde_de.specs.Given.{Given, ReadsAs};

use crate::cbor::Cbor;
use crate::step_error::Step;
use cbor_decode::Collection;
use cbor_decode_as::collection;
use cbor_decode_as::floats::read_f64;
use cbor_decode_as::integer::{read_from_zero, read_integer, read_signed};
use cbor_decode_as::scalar::{read_bool, read_unit};
use cbor_decode_as::string::read_string;
use serde::Kind;

impl<'i> Cbor<'i> {
    /// Reads false or true.
    #[inline(never)]
    pub(crate) fn any_bool(&mut self) -> Step<bool>
        ensures { IfOk result (λ b. ReadsAs IsBool self.old b self.new) }
    {
        match read_bool(&mut self.decoder) {
            Ok(read) => Ok(read),
            Err(error) => Err(self.refused(error)),
        }
    }

    /// Reads a number of 64 bits, with a sign.
    #[inline(never)]
    pub(crate) fn any_signed(&mut self) -> Step<i64>
        ensures { IfOk result (λ z. ReadsAs (IsSigned (2 ^ 63 - 1)) self.old z self.new) }
    {
        match read_signed(
            &mut self.decoder,
            i64::MAX as u64,
            "integer out of range: expected i64",
        ) {
            Ok(read) => Ok(read),
            Err(error) => Err(self.refused(error)),
        }
    }

    /// Reads a number of 64 bits, from zero.
    #[inline(never)]
    pub(crate) fn any_from_zero(&mut self) -> Step<u64>
        ensures { IfOk result (λ n. ReadsAs (IsFromZero (2 ^ 64 - 1)) self.old n self.new) }
    {
        match read_from_zero(
            &mut self.decoder,
            u64::MAX,
            "integer out of range: expected u64",
        ) {
            Ok(read) => Ok(read),
            Err(error) => Err(self.refused(error)),
        }
    }

    /// Reads a whole number.
    #[inline(never)]
    pub(crate) fn any_integer(&mut self) -> Step<i128>
        ensures { IfOk result (λ z. ReadsAs IsInteger self.old z self.new) }
    {
        match read_integer(&mut self.decoder) {
            Ok(read) => Ok(read),
            Err(error) => Err(self.refused(error)),
        }
    }

    /// Reads a float, as a number of 64 bits.
    #[inline(never)]
    pub(crate) fn any_float(&mut self) -> Step<f64>
        ensures { IfOk result (λ x. ReadsAs IsFloatOf self.old x self.new) }
    {
        match read_f64(&mut self.decoder) {
            Ok(read) => Ok(read),
            Err(error) => Err(self.refused(error)),
        }
    }

    /// Reads a text, to memory of its own.
    #[inline(never)]
    pub(crate) fn any_string(&mut self) -> Step<String>
        ensures { IfOk result (λ text. ReadsAs IsText self.old (string_bytes text) self.new) }
    {
        match read_string(&mut self.decoder) {
            Ok(read) => Ok(read),
            Err(error) => Err(self.refused(error)),
        }
    }

    /// Takes a unit.
    #[inline(never)]
    pub(crate) fn any_unit(&mut self) -> Step<()>
        ensures { OnOk result (ReadsAs IsUnit self.old tt self.new) }
    {
        match read_unit(&mut self.decoder) {
            Ok(read) => Ok(read),
            Err(error) => Err(self.refused(error)),
        }
    }

    /// Begins an array.
    #[inline(never)]
    pub(crate) fn any_array(&mut self) -> Step<()>
        ensures { OnOk result (Given self.old (seq_begins None) self.new) }
    {
        let levels = self.decoder.levels;
        match collection::head(&mut self.decoder, Collection::Array) {
            Ok(remaining) => self.enter(remaining, levels),
            Err(error) => Err(self.refused(error)),
        }
    }

    /// Begins a map.
    #[inline(never)]
    pub(crate) fn any_map(&mut self) -> Step<()>
        ensures { OnOk result (Given self.old (map_begins None) self.new) }
    {
        let levels = self.decoder.levels;
        match collection::head(&mut self.decoder, Collection::Map) {
            Ok(remaining) => self.enter(remaining, levels),
            Err(error) => Err(self.refused(error)),
        }
    }

    /// Begins the map of a struct's fields, or an array of them, and says whether it is an array.
    #[inline(never)]
    pub(crate) fn any_struct(&mut self) -> Step<bool>
        ensures { IfOk result (λ b. Given self.old (struct_begins b) self.new) }
    {
        match self.kind()? {
            Kind::Seq => {
                self.any_array()?;
                Ok(true)
            }
            _ => {
                self.any_map()?;
                Ok(false)
            }
        }
    }
}

//! Numbers, as values.

ghost use Rattle.std.specs.Prelude.{◌≤◌, IfErr};
ghost use Rattle.cbor_model.specs.Reader.{after_first, inside};
ghost use Rattle.cbor_value.specs.View.{view};
ghost use Rattle.cbor_decode.specs.Decoder.{values_by, SameSettings};
ghost use Rattle.cbor_decode.specs.Gives.{ReportsNoMemory};
ghost use Rattle.cbor_decode.specs.Steps as step;

use crate::Decoder;
use crate::refusal::Done;
use cbor_read::Source;
use cbor_value::{Float, Value};

impl<R: Source> Decoder<R> {
    // Reads the unsigned integer that has this first byte (RFC 7049, section 2.1).
    #[inline(always)]
    pub(crate) fn unsigned_from(&mut self, first: u8) -> Done<Value>
        requires { first ≤ 0x1b }
        ensures read { step.Gives R.source R.refusals view
            (λ l. after_first (values_by self.old.formats l)
            (inside (values_by self.old.formats l) self.old.levels) first)
            self.old self.new result }
        ensures memory { IfErr result (ReportsNoMemory self.new.refusal) }
        ensures settings { SameSettings self.old self.new }
    {
        match first {
            0x18 => Ok(Value::Integer(self.number_of_1()? as i128)),
            0x19 => Ok(Value::Integer(self.number_of_2()? as i128)),
            0x1a => Ok(Value::Integer(self.number_of_4()? as i128)),
            0x1b => Ok(Value::Integer(self.number_of_8()? as i128)),
            _ => Ok(Value::Integer(first as i128)),
        }
    }

    // Reads the float that has this first byte (RFC 7049, section 2.3).
    #[inline(always)]
    pub(crate) fn float_from(&mut self, first: u8) -> Done<Value>
        requires from { 0xf9 ≤ first }
        requires to { first ≤ 0xfb }
        ensures read { step.Gives R.source R.refusals view
            (λ l. after_first (values_by self.old.formats l)
            (inside (values_by self.old.formats l) self.old.levels) first)
            self.old self.new result }
        ensures memory { IfErr result (ReportsNoMemory self.new.refusal) }
        ensures settings { SameSettings self.old self.new }
    {
        match first {
            0xf9 => Ok(Value::Float(Float::Half(self.number_of_2()?))),
            0xfa => Ok(Value::Float(Float::Single(self.number_of_4()?))),
            _ => Ok(Value::Float(Float::Double(self.number_of_8()?))),
        }
    }
}

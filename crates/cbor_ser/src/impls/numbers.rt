//! The documents of integers and floats.

ghost use Rattle.std.specs.Prelude.{pos, to_bits};
ghost use Rattle.std.specs.Float.{binary32, binary64};
ghost use Rattle.cbor_model.specs.Document.{document_of, float, integer};
ghost use Rattle.cbor_model.specs.Raw.{double, single};
ghost use Rattle.cbor_value.specs.View.{float_view};

use crate::items::WriteDone;
use crate::serialize::Serialize;
use crate::serializer::Serializer;
use cbor_io::error::{Error, Result};
use cbor_io::write::Write;
use cbor_value::Float;

impl Serialize for u8 {
    ghost document = { λ n. integer (pos n) };

    #[inline(always)]
    fn serialize<W: Write>(&self, ser: &mut Serializer<W>) -> Result<()> {
        ser.serialize_u8(*self)
    }

    #[inline(always)]
    fn serialize_step<W: Write>(
        &self,
        ser: &mut Serializer<W>,
        refusal: &mut Option<Error>,
    ) -> WriteDone {
        ser.unsigned_step(*self as u64, refusal)
    }
}

impl Serialize for u16 {
    ghost document = { λ n. integer (pos n) };

    #[inline(always)]
    fn serialize<W: Write>(&self, ser: &mut Serializer<W>) -> Result<()> {
        ser.serialize_u16(*self)
    }

    #[inline(always)]
    fn serialize_step<W: Write>(
        &self,
        ser: &mut Serializer<W>,
        refusal: &mut Option<Error>,
    ) -> WriteDone {
        ser.unsigned_step(*self as u64, refusal)
    }
}

impl Serialize for u32 {
    ghost document = { λ n. integer (pos n) };

    #[inline(always)]
    fn serialize<W: Write>(&self, ser: &mut Serializer<W>) -> Result<()> {
        ser.serialize_u32(*self)
    }

    #[inline(always)]
    fn serialize_step<W: Write>(
        &self,
        ser: &mut Serializer<W>,
        refusal: &mut Option<Error>,
    ) -> WriteDone {
        ser.unsigned_step(*self as u64, refusal)
    }
}

impl Serialize for u64 {
    ghost document = { λ n. integer (pos n) };

    #[inline(always)]
    fn serialize<W: Write>(&self, ser: &mut Serializer<W>) -> Result<()> {
        ser.serialize_u64(*self)
    }

    #[inline(always)]
    fn serialize_step<W: Write>(
        &self,
        ser: &mut Serializer<W>,
        refusal: &mut Option<Error>,
    ) -> WriteDone {
        ser.unsigned_step(*self, refusal)
    }
}

impl Serialize for u128 {
    ghost document = { λ n. integer (pos n) };

    fn serialize<W: Write>(&self, ser: &mut Serializer<W>) -> Result<()> {
        ser.serialize_u128(*self)
    }
}

impl Serialize for usize {
    ghost document = { λ n. integer (pos n) };

    #[inline(always)]
    fn serialize<W: Write>(&self, ser: &mut Serializer<W>) -> Result<()> {
        ser.serialize_u64(*self as u64)
    }

    #[inline(always)]
    fn serialize_step<W: Write>(
        &self,
        ser: &mut Serializer<W>,
        refusal: &mut Option<Error>,
    ) -> WriteDone {
        ser.unsigned_step(*self as u64, refusal)
    }
}

impl Serialize for i8 {
    ghost document = { λ n. integer n };

    #[inline(always)]
    fn serialize<W: Write>(&self, ser: &mut Serializer<W>) -> Result<()> {
        ser.serialize_i8(*self)
    }

    #[inline(always)]
    fn serialize_step<W: Write>(
        &self,
        ser: &mut Serializer<W>,
        refusal: &mut Option<Error>,
    ) -> WriteDone {
        ser.signed_step(*self as i64, refusal)
    }
}

impl Serialize for i16 {
    ghost document = { λ n. integer n };

    #[inline(always)]
    fn serialize<W: Write>(&self, ser: &mut Serializer<W>) -> Result<()> {
        ser.serialize_i16(*self)
    }

    #[inline(always)]
    fn serialize_step<W: Write>(
        &self,
        ser: &mut Serializer<W>,
        refusal: &mut Option<Error>,
    ) -> WriteDone {
        ser.signed_step(*self as i64, refusal)
    }
}

impl Serialize for i32 {
    ghost document = { λ n. integer n };

    #[inline(always)]
    fn serialize<W: Write>(&self, ser: &mut Serializer<W>) -> Result<()> {
        ser.serialize_i32(*self)
    }

    #[inline(always)]
    fn serialize_step<W: Write>(
        &self,
        ser: &mut Serializer<W>,
        refusal: &mut Option<Error>,
    ) -> WriteDone {
        ser.signed_step(*self as i64, refusal)
    }
}

impl Serialize for i64 {
    ghost document = { λ n. integer n };

    #[inline(always)]
    fn serialize<W: Write>(&self, ser: &mut Serializer<W>) -> Result<()> {
        ser.serialize_i64(*self)
    }

    #[inline(always)]
    fn serialize_step<W: Write>(
        &self,
        ser: &mut Serializer<W>,
        refusal: &mut Option<Error>,
    ) -> WriteDone {
        ser.signed_step(*self, refusal)
    }
}

impl Serialize for i128 {
    ghost document = { λ n. integer n };

    fn serialize<W: Write>(&self, ser: &mut Serializer<W>) -> Result<()> {
        ser.serialize_i128(*self)
    }
}

impl Serialize for isize {
    ghost document = { λ n. integer n };

    #[inline(always)]
    fn serialize<W: Write>(&self, ser: &mut Serializer<W>) -> Result<()> {
        ser.serialize_i64(*self as i64)
    }

    #[inline(always)]
    fn serialize_step<W: Write>(
        &self,
        ser: &mut Serializer<W>,
        refusal: &mut Option<Error>,
    ) -> WriteDone {
        ser.signed_step(*self as i64, refusal)
    }
}

impl Serialize for Float {
    ghost document = { λ f. document_of (float_view f) };

    fn serialize<W: Write>(&self, ser: &mut Serializer<W>) -> Result<()> {
        ser.serialize_float(*self)
    }

    #[inline(always)]
    fn serialize_step<W: Write>(
        &self,
        ser: &mut Serializer<W>,
        refusal: &mut Option<Error>,
    ) -> WriteDone {
        ser.float_step(*self, refusal)
    }
}

/// In its 32 bits. A NaN is the quiet NaN `fa7fc00000`.
impl Serialize for f32 {
    ghost document = { λ x. float single (to_bits binary32 x) };

    fn serialize<W: Write>(&self, ser: &mut Serializer<W>) -> Result<()> {
        ser.serialize_f32(*self)
    }

    #[inline(always)]
    fn serialize_step<W: Write>(
        &self,
        ser: &mut Serializer<W>,
        refusal: &mut Option<Error>,
    ) -> WriteDone {
        ser.float_step(Float::from(*self), refusal)
    }
}

/// In its 64 bits, also where fewer would hold it. A NaN is the quiet NaN `fb7ff8000000000000`.
impl Serialize for f64 {
    ghost document = { λ x. float double (to_bits binary64 x) };

    fn serialize<W: Write>(&self, ser: &mut Serializer<W>) -> Result<()> {
        ser.serialize_f64(*self)
    }

    #[inline(always)]
    fn serialize_step<W: Write>(
        &self,
        ser: &mut Serializer<W>,
        refusal: &mut Option<Error>,
    ) -> WriteDone {
        ser.float_step(Float::from(*self), refusal)
    }
}

//! A float as a field of a type that derives.

ghost use Rattle.std.specs.Prelude.{◌≡◌, IfOk};
ghost use Rattle.serde.specs.Event.{double};
ghost use Rattle.serde.specs.Steps.{Gives};
ghost use Rattle.cbor_value.specs.Floats.{number_of};

use crate::send::send_float;
use cbor_value::Float;
use serde::{
    Described, Deserialize, DeserializeOwned, Deserializer, Format, Serialize, Serializer,
};
use std::alloc::Global;

/// A float, as a field of a type that derives the kit's `serde`.
///
/// It is written in its own width, but one of 16 bits in 32, which hold it: the kit's `serde` has
/// floats of 32 and 64 bits alone. It is read of each width, and of a whole number, as one of 64
/// bits: the number is kept, to the nearest of a whole one, and the width is not.
///
/// ```rust
/// let single = FloatItem(Float::Single(0x3fc0_0000));
/// assert_eq!(rt; to_vec(alloc, &single)?.as_slice(), b"\xfa\x3f\xc0\0\0".as_slice());
/// let half: FloatItem = from_slice(alloc, b"\xf9\x3e\0")?;
/// assert_eq!(rt; half.0, Float::from(1.5f64));
/// ```
#[derive(Clone, Copy, Debug, PartialEq)]
pub struct FloatItem(pub Float);

impl Described for FloatItem {
    ghost use Rattle.cbor_value.specs.View.{float_view};
    ghost use Rattle.cbor_serde_value.specs.Sent.{SendsValue};

    ghost writes = { λ item. SendsValue (float_view item.0) };
}

impl Serialize for FloatItem {
    fn serialize<S: Serializer>(&self, out: &mut S) -> Result<(), S::Error> {
        send_float(self.0, out)
    }
}

impl<'de> Deserialize<'de> for FloatItem {
    fn deserialize<F: Format>(
        _alloc: Global,
        from: &mut Deserializer<'de, '_, F>,
    ) -> Result<FloatItem, F::Error>
        ensures { IfOk result (λ item. Gives F.gives from.old (double (number_of item.0)) from.new) }
    {
        let number = from.f64()?;
        Ok(of_double(number))
    }
}

impl DeserializeOwned for FloatItem {
    fn deserialize_owned<F: Format>(
        _alloc: Global,
        from: &mut Deserializer<'_, '_, F>,
    ) -> Result<FloatItem, F::Error>
        ensures { IfOk result (λ item. Gives F.gives from.old (double (number_of item.0)) from.new) }
    {
        let number = from.f64()?;
        Ok(of_double(number))
    }
}

#[tactic(auto, using(crate::proofs::Numbers::double_again))]
fn of_double(number: f64) -> FloatItem
    ensures { number_of result.0 ≡ number }
{
    FloatItem(Float::from(number))
}

//! The keys of a struct's fields, to be written.

ghost use Rattle.std.specs.Prelude.{◌<◌, length, map, IfSome, Some, None};
ghost use Rattle.cbor_ser.specs.Labels.{keyed_part};
ghost use Rattle.cbor_ser.specs.PartLists.{name_in};
ghost use Rattle.cbor_ser.specs.Serialized.{Stepped};

use crate::field::SerializeField;
use crate::items::WriteDone;
use crate::serializer::Serializer;
use cbor_io::error::Error;
use cbor_io::write::Write;

/// By which keys the fields of a struct are written: [`ByNames`] or [`ByLabels`]. A struct is
/// written by one kind of keys, so no field asks which.
pub trait SerializeKeys: Copy {
    ghost use Rattle.std.specs.Prelude.{List, ℕ, ℤ, Option};

    // How many they are.
    ghost count: { Self → ℕ };

    // The names of the fields.
    ghost names: { Self → List (List ℕ) };

    // Their labels, where these are the keys.
    ghost labels: { Self → Option (List ℤ) };

    /// Appends a field that is written, by the key in this place, and leaves an error in `refusal`.
    fn serialize_keyed<W: Write, A: SerializeField>(
        self,
        ser: &mut Serializer<W>,
        number: u32,
        field: &A,
        refusal: &mut Option<Error>,
    ) -> WriteDone
        requires { number < count self }
        ensures { IfSome (A.document field.now) (λ d.
            Stepped W.written W.refuses W.references W.capacity ser.old
            (keyed_part (labels self) number (name_in (names self) number) d) ser.new result
            refusal.new) };
}

/// The names of the fields are the keys, or their numbers where the format is packed.
#[derive(Clone, Copy)]
pub struct ByNames<'k>(pub &'k [&'k str]);

impl<'k> SerializeKeys for ByNames<'k> {
    ghost count = { λ keys. length keys.0.now };

    ghost names = { λ keys. map (λ n. n.now) keys.0.now };

    ghost labels = { λ keys. None };

    #[inline(always)]
    fn serialize_keyed<W: Write, A: SerializeField>(
        self,
        ser: &mut Serializer<W>,
        number: u32,
        field: &A,
        refusal: &mut Option<Error>,
    ) -> WriteDone {
        ser.field_step(number, self.0[number as usize], field, refusal)
    }
}

/// The labels of the fields are the keys, one for each field.
#[derive(Clone, Copy)]
pub struct ByLabels<'k> {
    pub names: &'k [&'k str],
    pub labels: &'k [i64],
}

impl<'k> SerializeKeys for ByLabels<'k> {
    ghost count = { λ keys. length keys.labels.now };

    ghost names = { λ keys. map (λ n. n.now) keys.names.now };

    ghost labels = { λ keys. Some keys.labels.now };

    #[inline(always)]
    fn serialize_keyed<W: Write, A: SerializeField>(
        self,
        ser: &mut Serializer<W>,
        number: u32,
        field: &A,
        refusal: &mut Option<Error>,
    ) -> WriteDone {
        ser.labelled_step(self.labels[number as usize], field, refusal)
    }
}

//! Fields of structs, to be written.

ghost use Rattle.std.specs.Prelude.{◌≡◌, IfSome, IfNone, IsOk};
ghost use Rattle.std.specs.Option.{is_some};
ghost use Rattle.cbor_model.specs.Parts.{item};
ghost use Rattle.cbor_ser.specs.Serialized.{Stepped};

use crate::items::WriteDone;
use crate::serialize::Serialize;
use crate::serializer::Serializer;
use cbor_io::error::Error;
use cbor_io::write::Write;

/// A field of a struct, to be written: a reference, or an [`OptionalField`].
pub trait SerializeField {
    ghost use Rattle.std.specs.Prelude.{Option};
    ghost use Rattle.cbor_model.specs.Document.{Doc};

    // What the field is written as; None where it is left out.
    ghost document: { Self → Option Doc };

    /// Whether the field is written.
    fn is_written(&self) -> bool
        ensures { result ≡ is_some (document self.now) };

    /// Appends what the field holds, behind its key, and leaves an error in `refusal`. One that is
    /// left out isn't written, and the serializer is left as it was.
    fn serialize_content<W: Write>(
        &self,
        ser: &mut Serializer<W>,
        refusal: &mut Option<Error>,
    ) -> WriteDone
        ensures written { IfSome (document self.now) (λ d.
            Stepped W.written W.refuses W.references W.capacity ser.old (item d) ser.new result
            refusal.new) }
        ensures left_out { IfNone (document self.now) (IsOk result × (ser.new ≡ ser.old)) };
}

impl<'a, T: Serialize> SerializeField for &'a T {
    ghost use Rattle.std.specs.Prelude.{Some};

    ghost document = { λ x. Some (T.document x.now) };

    fn is_written(&self) -> bool {
        true
    }

    fn serialize_content<W: Write>(
        &self,
        ser: &mut Serializer<W>,
        refusal: &mut Option<Error>,
    ) -> WriteDone {
        (*self).serialize_step(ser, refusal)
    }
}

/// A field that may be absent, to be written: it is left out where it is None.
///
/// ```rust
/// impl Serialize for Settings {
///     ghost document = { ⟦<Self as WrittenBy<<Self as Schema>::Parts>>⟧.document };
///
///     fn serialize<W: Write>(&self, ser: &mut Serializer<W>) -> Result<()> {
///         ser.serialize_fields(self, &(&self.port, OptionalField(&self.limit)))
///     }
/// }
/// ```
#[derive(Drop)]
pub struct OptionalField<'a, T>(pub &'a Option<T>);

impl<'a, T: Serialize> SerializeField for OptionalField<'a, T> {
    ghost use Rattle.cbor_ser.specs.PartLists.{document_if};

    ghost document = { λ x. document_if T.document x.0.now };

    fn is_written(&self) -> bool {
        self.0.is_some()
    }

    fn serialize_content<W: Write>(
        &self,
        ser: &mut Serializer<W>,
        refusal: &mut Option<Error>,
    ) -> WriteDone {
        match self.0 {
            Some(value) => value.serialize_step(ser, refusal),
            None => Ok(()),
        }
    }
}

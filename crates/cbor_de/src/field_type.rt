//! What a field of a struct may be.

ghost use Rattle.std.specs.Prelude.{◌≡◌};
ghost use Rattle.cbor_model.specs.Raw.{Raw};
ghost use Rattle.cbor_model.specs.Readable.{Context};
ghost use Rattle.cbor_de.specs.FieldTypes.{IsMissing};

use crate::deserialize::Readable;
use cbor_parts::{Optional, OrDefault};
use std::alloc::Global;

/// What a field of a struct is: a type that is read, and then the field has to be there; or
/// [`Optional`] or [`OrDefault`] of one.
pub trait FieldType: Sized + Drop {
    ghost use Rattle.cbor_de.specs.Structs.{IfAbsent};
    ghost use Rattle.cbor_model.specs.Raw.{Raw};
    ghost use Rattle.cbor_model.specs.Readable.{Context};

    /// The type of what is there.
    type Of: Readable;

    // As what an item is read that is there.
    ghost reads: { Context → Raw → Self → Type 0 };

    // What the field is where it is absent.
    ghost missing: { IfAbsent Self };

    /// The field of what is there.
    fn given(value: Self::Of) -> Self
        ensures { (c : Context) (r : Raw) → Self.Of.reads c r value → reads c r result };

    /// The field that is absent, if it may be.
    fn missing(alloc: Global) -> Option<Self>
        ensures { IsMissing missing result };

    ghost back: { (c : Context) (r : Raw) (x : Self) → reads c r x
        → (y : Self.Of) × Self.Of.reads c r y };
}

impl<T: Readable> FieldType for T {
    ghost use Rattle.cbor_de.specs.Structs.{refused};

    type Of = T;

    ghost reads = { T.reads };

    ghost missing = { refused };

    fn given(value: T) -> T {
        value
    }

    fn missing(_alloc: Global) -> Option<T> {
        None
    }

    ghost back = { λ c r x h. (x, h) };
}

impl<T: Readable> FieldType for Optional<T> {
    ghost use Rattle.std.specs.Prelude.{None};
    ghost use Rattle.cbor_de.specs.Structs.{taken};
    ghost use Rattle.cbor_de.specs.FieldTypes.{IsGiven, given_back};

    type Of = T;

    ghost reads = { λ c r x. IsGiven (T.reads c) r x.0 };

    ghost missing = { taken (λ x. x.0 ≡ None) };

    fn given(value: T) -> Optional<T> {
        Optional(Some(value))
    }

    fn missing(_alloc: Global) -> Option<Optional<T>> {
        Some(Optional(None))
    }

    ghost back = { λ c r x h. given_back (T.reads c) r x.0 h };
}

impl<T: Readable + Default> FieldType for OrDefault<T> {
    ghost use Rattle.cbor_de.specs.Structs.{taken};

    type Of = T;

    ghost reads = { λ c r x. T.reads c r x.0 };

    ghost missing = { taken (λ x. T.is_default x.0) };

    fn given(value: T) -> OrDefault<T> {
        OrDefault(value)
    }

    fn missing(_alloc: Global) -> Option<OrDefault<T>> {
        Some(OrDefault(T::default()))
    }

    ghost back = { λ c r x h. (x.0, h) };
}

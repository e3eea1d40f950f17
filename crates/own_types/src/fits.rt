//! What the laws of these types ask of a value (`law.fits`): nothing that a program's value lacks.

use crate::labels::Key;
use crate::records::{Metres, Settings};
use crate::shapes::Shape;
use crate::user::User;
use serde_cbor::RoundTrip;

/// Each value of them is read back as it was written.
pub fn own_types_fit(a: User, b: Settings, c: Metres, d: Shape, e: Key)
    ensures of_user { ⟦<User as RoundTrip>⟧.law.fits a }
    ensures of_settings { ⟦<Settings as RoundTrip>⟧.law.fits b }
    ensures of_metres { ⟦<Metres as RoundTrip>⟧.law.fits c }
    ensures of_shape { ⟦<Shape as RoundTrip>⟧.law.fits d }
    ensures of_key { ⟦<Key as RoundTrip>⟧.law.fits e }
{
    let _ = (a, b, c, d, e);
}

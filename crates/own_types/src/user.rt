//! A struct of two fields, by its description.

ghost use Rattle.std.specs.Prelude.{map, refl};
ghost use Rattle.own_types.specs.declared.user.TheConstants.{USER};

use serde_cbor::de::{Deserialize, DeserializeOwned, Read, ReadBy, Readable, read_described};
use serde_cbor::parts::Schema;
use serde_cbor::round_trip::RoundTripBy;
use serde_cbor::ser::{Serialize, Serializer, Write, WrittenBy};
use serde_cbor::{Deserializer, Result, RoundTrip};

/// Who may log in.
#[derive(Debug, Drop)]
pub struct User {
    pub user_id: u32,
    pub admin: bool,
}

/// The names of a user's fields.
const USER: &[&str] = &["user_id", "admin"];

impl Schema for User {
    type Parts = (u32, bool);

    ghost names = { map (λ n. n.now) USER.now };

    ghost parts = { λ u. (u.user_id, u.admin) };

    fn names() -> &'static [&'static str] {
        USER
    }

    fn from_parts((user_id, admin): Self::Parts) -> User {
        User { user_id, admin }
    }
}

impl Serialize for User {
    ghost document = { ⟦<Self as WrittenBy<<Self as Schema>::Parts>>⟧.document };

    fn serialize<W: Write>(&self, ser: &mut Serializer<W>) -> Result<()> {
        ser.serialize_fields(self, &(&self.user_id, &self.admin))
    }
}

impl Readable for User {
    ghost reads = { ⟦<Self as ReadBy<<Self as Schema>::Parts>>⟧.reads };

    ghost wrong_forms = { ⟦<Self as ReadBy<<Self as Schema>::Parts>>⟧.wrong_forms };
}

impl<'de, R: Read<'de>> Deserialize<'de, R> for User {
    fn deserialize(de: &mut Deserializer<R>) -> Result<User> {
        read_described(de)
    }
}

impl DeserializeOwned for User {
    ghost same = { λ f a b r u h. h };
}

impl RoundTrip for User {
    ghost law = { ⟦<Self as RoundTripBy<<Self as Schema>::Parts>>⟧.law.by_names refl refl };

    ghost back = { Self.law.back };
}

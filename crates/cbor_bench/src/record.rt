//! A record, read and written as a type by its description.

ghost use Rattle.std.specs.Prelude.{map};
ghost use Rattle.cbor_bench.specs.declared.record.TheConstants.{NAMES};

use serde_cbor::de::{Deserialize, Read, ReadBy, Readable, read_described};
use serde_cbor::parts::Schema;
use serde_cbor::ser::{Serialize, Serializer, Write, WrittenBy};
use serde_cbor::{Deserializer, Result};

/// A record of six fields.
#[derive(Drop)]
pub struct Record {
    pub id: u32,
    pub name: String,
    pub email: String,
    pub created: u32,
    pub tags: Vec<String>,
    pub active: bool,
}

/// The names of its fields.
const NAMES: &[&str] = &["id", "name", "email", "created", "tags", "active"];

impl Schema for Record {
    type Parts = (u32, String, String, u32, Vec<String>, bool);

    ghost names = { map (λ n. n.now) NAMES.now };

    ghost parts = { λ r. (r.id, r.name, r.email, r.created, r.tags, r.active) };

    fn names() -> &'static [&'static str] {
        NAMES
    }

    fn from_parts((id, name, email, created, tags, active): Self::Parts) -> Record {
        Record {
            id,
            name,
            email,
            created,
            tags,
            active,
        }
    }
}

impl Serialize for Record {
    ghost document = { ⟦<Self as WrittenBy<<Self as Schema>::Parts>>⟧.document };

    fn serialize<W: Write>(&self, ser: &mut Serializer<W>) -> Result<()> {
        let fields = (
            &self.id,
            &self.name,
            &self.email,
            &self.created,
            &self.tags,
            &self.active,
        );
        ser.serialize_fields(self, &fields)
    }
}

impl Readable for Record {
    ghost reads = { ⟦<Self as ReadBy<<Self as Schema>::Parts>>⟧.reads };

    ghost wrong_forms = { ⟦<Self as ReadBy<<Self as Schema>::Parts>>⟧.wrong_forms };
}

impl<'de, R: Read<'de>> Deserialize<'de, R> for Record {
    fn deserialize(de: &mut Deserializer<R>) -> Result<Record> {
        read_described(de)
    }
}

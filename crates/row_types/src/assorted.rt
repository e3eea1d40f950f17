//! A struct of fields of many kinds.

use crate::structs::UnitStruct;
use serde_cbor::bytes::ByteBuf;
use serde_cbor::de::{Deserialize, DeserializeOwned, Read, ReadBy, Readable, read_described};
use serde_cbor::parts::Schema;
use serde_cbor::ser::{Serialize, Serializer, Write, WrittenBy};
use serde_cbor::{Deserializer, Result};
use std::collections::BTreeMap;

/// Tuples, a map, bytes, and arrays of texts and of structs of no part. A struct of unnamed parts
/// is written as the tuple of them.
#[derive(Debug, Drop)]
pub struct Assorted {
    pub tuple_struct: (String, i32, u64),
    pub tuple: (String,),
    pub map: BTreeMap<String, String>,
    pub bytes: ByteBuf,
    pub array: Vec<String>,
    pub unit_array: Vec<UnitStruct>,
}

/// The names of its fields.
const ASSORTED: &[&str] = &[
    "tuple_struct",
    "tuple",
    "map",
    "bytes",
    "array",
    "unit_array",
];

impl Schema for Assorted {
    ghost use Rattle.std.specs.Prelude.{map};
    ghost use Rattle.row_types.specs.declared.assorted.TheConstants.{ASSORTED};

    type Parts = (
        (String, i32, u64),
        (String,),
        BTreeMap<String, String>,
        ByteBuf,
        Vec<String>,
        Vec<UnitStruct>,
    );

    ghost names = { map (λ n. n.now) ASSORTED.now };

    ghost parts = { λ a. (a.tuple_struct, a.tuple, a.map, a.bytes, a.array, a.unit_array) };

    fn names() -> &'static [&'static str] {
        ASSORTED
    }

    fn from_parts((tuple_struct, tuple, map, bytes, array, unit_array): Self::Parts) -> Assorted {
        Assorted {
            tuple_struct,
            tuple,
            map,
            bytes,
            array,
            unit_array,
        }
    }
}

impl Serialize for Assorted {
    ghost document = { ⟦<Self as WrittenBy<<Self as Schema>::Parts>>⟧.document };

    fn serialize<W: Write>(&self, ser: &mut Serializer<W>) -> Result<()> {
        let fields = (
            &self.tuple_struct,
            &self.tuple,
            &self.map,
            &self.bytes,
            &self.array,
            &self.unit_array,
        );
        ser.serialize_fields(self, &fields)
    }
}

impl Readable for Assorted {
    ghost reads = { ⟦<Self as ReadBy<<Self as Schema>::Parts>>⟧.reads };

    ghost wrong_forms = { ⟦<Self as ReadBy<<Self as Schema>::Parts>>⟧.wrong_forms };
}

impl<'de, R: Read<'de>> Deserialize<'de, R> for Assorted {
    fn deserialize(de: &mut Deserializer<R>) -> Result<Assorted> {
        read_described(de)
    }
}

impl DeserializeOwned for Assorted {
    ghost same = { λ f a b r v h. h };
}

//! A value is asked once to write itself, by each call that makes something of its document, counts
//! its bytes, or builds a value of it.

use cbor_convert::{
    SerializeMap, SerializeStructVariant, SerializeTupleVariant, SerializeVec, to_value,
    to_vec_canonical,
};
use cbor_forms::{to_vec_dcbor, to_vec_deterministic, to_vec_length_first};
use cbor_io::error::Result;
use cbor_length::encoded_len;
use cbor_ser::{Serialize, Serializer, Write};
use std::alloc::Global;
use std::cell::Cell;
use test_checks::Verdict;

/// A number that counts how often it was written.
#[derive(Drop)]
struct Counted {
    number: u8,
    times: Cell<u32>,
}

impl Serialize for Counted {
    ghost document = { λ x. ⟦<u8 as Serialize>⟧.document x.number };

    fn serialize<W: Write>(&self, ser: &mut Serializer<W>) -> Result<()> {
        self.times.set(self.times.get().saturating_add(1));
        self.number.serialize(ser)
    }
}

/// Gives the number to each call.
fn give_to_each(alloc: Global, counted: &Counted) -> Verdict {
    to_value(alloc, counted)?;
    to_vec_canonical(alloc, counted)?;
    to_vec_deterministic(alloc, counted)?;
    to_vec_length_first(alloc, counted)?;
    to_vec_dcbor(alloc, counted)?;
    encoded_len(alloc, counted)?;
    Ok(())
}

/// Gives the number to each call of the builders.
fn build_of_each(alloc: Global, counted: &Counted) -> Verdict {
    let mut list = SerializeVec::new(alloc);
    list.serialize_element(counted)?;
    list.serialize_field(counted)?;
    let mut map = SerializeMap::new(alloc);
    map.serialize_key(counted)?;
    map.serialize_value(counted)?;
    map.serialize_field("number", counted)?;
    SerializeTupleVariant::new(alloc, "Pair").serialize_field(counted)?;
    SerializeStructVariant::new(alloc, "Point").serialize_field("x", counted)?;
    Ok(())
}

/// A number that wasn't written.
fn unwritten() -> Counted {
    Counted {
        number: 42,
        times: Cell::new(0),
    }
}

#[test]
fn writes_a_value_once(rt: HostRuntime) -> Verdict {
    let counted = unwritten();
    give_to_each(rt.alloc(), &counted)?;
    assert!(rt; counted.times.get() == 6);
    Ok(())
}

#[test]
fn builds_of_a_value_once(rt: HostRuntime) -> Verdict {
    let counted = unwritten();
    build_of_each(rt.alloc(), &counted)?;
    assert!(rt; counted.times.get() == 7);
    Ok(())
}

//! A value is asked once to write itself, by each call that writes it.

use cbor_io::error::Result;
use cbor_ser::{
    IoWrite, Serialize, Serializer, SliceWrite, Write, to_vec, to_vec_packed, to_writer,
};
use std::alloc::Global;
use std::cell::Cell;
use test_checks::Verdict;

/// A number that counts how often it was written.
#[derive(Drop)]
struct Counted {
    number: u8,
    times: Cell<u32>,
}

impl Serialize for Counted {
    ghost document = { λ x. ⟦<u8 as Serialize>⟧.document x.number };

    fn serialize<W: Write>(&self, ser: &mut Serializer<W>) -> Result<()> {
        self.times.set(self.times.get().saturating_add(1));
        self.number.serialize(ser)
    }
}

/// Writes the number by each call.
fn write_by_each(alloc: Global, counted: &Counted) -> Verdict {
    to_vec(alloc, counted)?;
    to_vec_packed(alloc, counted)?;
    to_writer(alloc, &mut Vec::new(alloc), counted)?;
    to_writer(alloc, &mut SliceWrite::new(&mut [0; 2]), counted)?;
    to_writer(
        alloc,
        &mut IoWrite::new(&mut Vec::with_capacity(alloc, 2)?),
        counted,
    )?;
    Ok(())
}

#[test]
fn writes_a_value_once(rt: HostRuntime) -> Verdict {
    let counted = Counted {
        number: 42,
        times: Cell::new(0),
    };
    write_by_each(rt.alloc(), &counted)?;
    assert!(rt; counted.times.get() == 5);
    Ok(())
}

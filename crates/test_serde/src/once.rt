// A value is asked once to send itself, by each call that writes it or makes something of it.

use cbor_serde::{SliceWrite, to_value, to_vec, to_vec_canonical, to_writer};
use serde::{Described, Serialize, Serializer};
use std::alloc::Global;
use std::cell::Cell;
use test_checks::Verdict;

// It is true, and counts how often it was sent.
#[derive(Drop)]
struct Counted {
    times: Cell<u32>,
}

impl Described for Counted {}

impl Serialize for Counted {
    fn serialize<S: Serializer>(&self, out: &mut S) -> Result<(), S::Error> {
        self.times.set(self.times.get().saturating_add(1));
        out.bool(true)
    }
}

#[derive(Clone, Copy, Debug)]
enum To {
    Vector,
    CanonicalVector,
    Value,
    Sink,
    Slice,
}

fn give(alloc: Global, counted: &Counted, to: To) -> Verdict {
    match to {
        To::Vector => {
            to_vec(alloc, counted)?;
        }
        To::CanonicalVector => {
            to_vec_canonical(alloc, counted)?;
        }
        To::Value => {
            to_value(alloc, counted)?;
        }
        To::Sink => to_writer(alloc, &mut Vec::new(alloc), counted)?,
        To::Slice => to_writer(alloc, &mut SliceWrite::new(&mut [0; 1]), counted)?,
    }
    Ok(())
}

#[test]
fn sends_a_value_once(rt: HostRuntime) -> Verdict {
    for to in [
        To::Vector,
        To::CanonicalVector,
        To::Value,
        To::Sink,
        To::Slice,
    ] {
        let counted = Counted {
            times: Cell::new(0),
        };
        give(rt.alloc(), &counted, to)?;
        assert!(rt; counted.times.get() == 1, "{to:?}");
    }
    Ok(())
}

//! What is left of the bytes of a slice that is read in place: only a call that joins moves any.

use crate::script::plays;
use cbor_read::MutSliceRead;
use std::alloc::Global;
use std::process::Abort;
use test_checks::Verdict;

const BYTES: [u8; 12] = *b"\x63foobarba\xc3\x28\xf6";

/// The calls of a script, on these bytes, leave them as they are.
fn leaves_all(rt: &impl Abort, alloc: Global, script: &str) -> Verdict {
    let mut bytes = BYTES;
    plays(rt, alloc, &mut MutSliceRead::new(&mut bytes), script)?;
    assert!(rt; bytes == BYTES);
    Ok(())
}

#[test]
fn leaves_its_bytes_where_none_is_joined(rt: HostRuntime) -> Verdict {
    for script in [
        r"next = c; next = f",
        r"peek = c; discard; peek = f",
        r"advance 4; ahead = barba\xc3(\xf6",
        r"clear; buffer; lend_joined = input:; next = c",
        r"extend 4 = =cfoo; vector 2 = ba",
        r"fill 4 = cfoo; fill 2 = ba",
        r"skip 4; skip 3; next = b",
        r"text 9 = 9; text 2 = 0; next = \xf6",
        r"lend 4 = input:cfoo; lend 3 = input:bar",
    ] {
        leaves_all(&rt, rt.alloc(), script)?;
    }
    Ok(())
}

// Refused, they change none either, and the first part that is joined stays where it is.
#[test]
fn leaves_its_bytes_where_it_is_refused(rt: HostRuntime) -> Verdict {
    for script in [
        r"skip 4; vector 9 = EOF while parsing a value at offset 12",
        r"skip 4; fill 9 = EOF while parsing a value at offset 12",
        r"skip 4; skip 9 = EOF while parsing a value at offset 12",
        r"skip 4; text 9 = EOF while parsing a value at offset 12",
        r"skip 4; read 9 = EOF while parsing a value at offset 12",
        r"skip 4; join 9 = EOF while parsing a value at offset 12",
        r"next = c; clear; join 3; joined = foo; lend 3 = input:bar",
    ] {
        leaves_all(&rt, rt.alloc(), script)?;
    }
    Ok(())
}

//! A reader at the greatest offset.

use crate::script::plays;
use cbor_read::IoRead;
use test_checks::Verdict;

// Offsets are below 2^64: a byte at the last of them can't be counted, and an end there is an end.
#[test]
fn counts_no_byte_past_the_last_offset(rt: HostRuntime) -> Verdict {
    let reader = b"\x01\x02".as_slice();
    plays(
        &rt,
        rt.alloc(),
        &mut IoRead::at_offset(rt.alloc(), reader, u64::MAX - 1),
        r"next = \x01; offset = 18446744073709551615;
            next = length out of range at offset 18446744073709551615;
            peek = length out of range at offset 18446744073709551615;
            read 1 = length out of range at offset 18446744073709551615; read 0",
    )?;
    plays(
        &rt,
        rt.alloc(),
        &mut IoRead::at_offset(rt.alloc(), b"\x01".as_slice(), u64::MAX - 1),
        r"next = \x01; next = none; peek = none; offset = 18446744073709551615;
            read 1 = EOF while parsing a value at offset 18446744073709551615",
    )
}

//! Tuples of too few items: how many there are, and how many are wanted. Tuples of too many: where
//! the first stands that isn't wanted.

use cbor_de::{Deserialize, SliceRead, from_slice};
use std::alloc::Global;
use std::fmt::InlineText;
use test_checks::{Verdict, is_refused};

// Arrays of no zero up to nine.
const ZEROS: [&'static [u8]; 10] = [
    b"\x80",
    b"\x81\0",
    b"\x82\0\0",
    b"\x83\0\0\0",
    b"\x84\0\0\0\0",
    b"\x85\0\0\0\0\0",
    b"\x86\0\0\0\0\0\0",
    b"\x87\0\0\0\0\0\0\0",
    b"\x88\0\0\0\0\0\0\0\0",
    b"\x89\0\0\0\0\0\0\0\0\0",
];

// The same, up to a break.
const OPEN: [&'static [u8]; 10] = [
    b"\x9f\xff",
    b"\x9f\0\xff",
    b"\x9f\0\0\xff",
    b"\x9f\0\0\0\xff",
    b"\x9f\0\0\0\0\xff",
    b"\x9f\0\0\0\0\0\xff",
    b"\x9f\0\0\0\0\0\0\xff",
    b"\x9f\0\0\0\0\0\0\0\xff",
    b"\x9f\0\0\0\0\0\0\0\0\xff",
    b"\x9f\0\0\0\0\0\0\0\0\0\xff",
];

/// The array is refused as this type, with these words.
fn refuses<'a, T: Deserialize<'a, SliceRead<'a>>>(
    alloc: Global,
    bytes: &'a [u8],
    words: &str,
) -> Verdict {
    is_refused(from_slice::<T>(alloc, bytes), words)
}

/// A tuple of so many refuses each array of fewer, and each of more: where a count is declared,
/// behind the last item that is wanted; up to a break, behind the first byte of the next.
fn wants<'a, T: Deserialize<'a, SliceRead<'a>>>(alloc: Global, count: usize) -> Verdict {
    for (arrays, before_next) in [(&ZEROS, 1), (&OPEN, 2)] {
        for (n, bytes) in arrays.iter().enumerate() {
            if n < count {
                let fewer = format_args!("invalid length {n}, expected {count}");
                refuses::<T>(alloc, *bytes, InlineText::<48>::of(fewer).as_str())?;
            } else if n > count {
                let offset = count.saturating_add(before_next);
                let more = format_args!("trailing data at offset {offset}");
                refuses::<T>(alloc, *bytes, InlineText::<48>::of(more).as_str())?;
            }
        }
    }
    Ok(())
}

#[test]
fn takes_its_length_alone_up_to_four(rt: HostRuntime) -> Verdict {
    let alloc = rt.alloc();
    wants::<(u8,)>(alloc, 1)?;
    wants::<(u8, u8)>(alloc, 2)?;
    wants::<(u8, u8, u8)>(alloc, 3)?;
    wants::<(u8, u8, u8, u8)>(alloc, 4)
}

#[test]
fn takes_its_length_alone_beyond_four(rt: HostRuntime) -> Verdict {
    let alloc = rt.alloc();
    wants::<(u8, u8, u8, u8, u8)>(alloc, 5)?;
    wants::<(u8, u8, u8, u8, u8, u8)>(alloc, 6)?;
    wants::<(u8, u8, u8, u8, u8, u8, u8)>(alloc, 7)?;
    wants::<(u8, u8, u8, u8, u8, u8, u8, u8)>(alloc, 8)
}

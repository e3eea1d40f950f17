//! Each call of the source, over readers that give one byte a call, some, or all.

use crate::checks::{in_pieces, is_next};
use crate::devices::Pieces;
use crate::script::{Call, Step, plays};
use cbor_buffered::BufferedRead;
use std::alloc::{AllocError, Global};
use std::process::Abort;
use std::test::Fail;
use test_checks::Verdict;

// How many bytes a reader gives a call.
const PIECES: [usize; 3] = [1, 7, 10_000];

/// The source of these bytes, of which its reader gives so many a call, answers so.
fn answers(rt: &impl Abort, alloc: Global, bytes: &[u8], piece: usize, script: &[Step]) -> Verdict {
    plays(rt, alloc, &mut in_pieces(alloc, bytes, piece)?, script)
}

const HANDS_OUT: &[Step] = &[
    Step::Next(Some(b'a')),
    Step::Read(b"bcd"),
    Step::Clear,
    Step::Does(Call::Join(2)),
    Step::Does(Call::Join(1)),
    Step::Buffer(b"efg"),
    Step::Does(Call::Skip(1)),
    Step::Filled(b"ij"),
    Step::At(10),
    Step::Behind(b"kl"),
    Step::Read(b""),
    Step::SkipText(1, 1),
    Step::At(13),
    Step::Next(Some(b'n')),
    Step::Next(None),
    Step::At(14),
    Step::Refuses(Call::Skip(1), "EOF while parsing a value at offset 14"),
];

#[test]
fn hands_out_each_byte_once_and_in_order(rt: HostRuntime) -> Verdict {
    for piece in PIECES {
        answers(&rt, rt.alloc(), b"abcdefghijklmn", piece, HANDS_OUT)?;
    }
    Ok(())
}

// The bytes 0 to 250 again and again, so that no piece of a block is like the one after it.
fn long(alloc: Global) -> Result<Vec<u8>, AllocError> {
    let mut bytes = Vec::with_capacity(alloc, 20_000)?;
    for i in 0..20_000_u32 {
        bytes.push((i % 251) as u8)?;
    }
    Ok(bytes)
}

// Some of them.
fn part(bytes: &[u8], start: usize, end: usize) -> Result<&[u8], Fail> {
    Ok(bytes.get(start..end).ok_or("fewer")?)
}

// Blocks of 8 KiB end within each part.
#[test]
fn hands_out_what_is_longer_than_a_block(rt: HostRuntime) -> Verdict {
    let bytes = long(rt.alloc())?;
    let script = [
        Step::Read(part(&bytes, 0, 9000)?),
        Step::Behind(part(&bytes, 9000, 18_000)?),
        Step::Does(Call::Skip(1990)),
        Step::Filled(part(&bytes, 19_990, 20_000)?),
        Step::Next(None),
        Step::At(20_000),
    ];
    for piece in [4099, 20_000] {
        answers(&rt, rt.alloc(), &bytes, piece, &script)?;
    }
    Ok(())
}

const COUNTS_UTF8: &[Step] = &[
    Step::SkipText(4, 3),
    Step::SkipText(2, 0),
    Step::Refuses(Call::SkipText(1), "EOF while parsing a value at offset 6"),
];

// A euro sign, a byte that is in no UTF-8, and a part of a sign (RFC 3629, section 3).
#[test]
fn counts_the_utf8_of_what_it_skips(rt: HostRuntime) -> Verdict {
    for piece in PIECES {
        answers(
            &rt,
            rt.alloc(),
            b"\xe2\x82\xac\xff\xe2\x82",
            piece,
            COUNTS_UTF8,
        )?;
    }
    Ok(())
}

/// What a source leaves after a script: what it read ahead, and what its reader has after so many
/// calls.
fn leaves(
    rt: &impl Abort,
    alloc: Global,
    source: BufferedRead<Pieces<'_>>,
    script: &[Step],
    (ahead, rest, calls): (&[u8], &[u8], usize),
) -> Verdict {
    let mut source = source;
    plays(rt, alloc, &mut source, script)?;
    let (reader, unread) = source.into_inner();
    assert!(rt; unread.as_slice() == ahead);
    assert!(rt; reader.rest == rest);
    assert!(rt; reader.calls == calls);
    Ok(())
}

const FROM_A_BLOCK: &[Step] = &[
    Step::Next(Some(b'a')),
    Step::Ahead(b"bcdef"),
    Step::Advance(2),
    Step::Read(b"def"),
];

#[test]
fn asks_its_reader_once_for_what_is_in_a_block(rt: HostRuntime) -> Verdict {
    let source = in_pieces(rt.alloc(), b"abcdef", 10)?;
    leaves(&rt, rt.alloc(), source, FROM_A_BLOCK, (b"", b"", 1))
}

#[test]
fn hands_back_what_it_read_ahead(rt: HostRuntime) -> Verdict {
    let alloc = rt.alloc();
    let unasked = in_pieces(alloc, b"abcdefgh", 5)?;
    leaves(&rt, alloc, unasked, &[], (b"", b"abcdefgh", 0))?;
    let source = in_pieces(alloc, b"abcdefgh", 5)?;
    let script = [Step::Read(b"abc")];
    leaves(&rt, alloc, source, &script, (b"de", b"fgh", 1))
}

const GATHERS: &[Step] = &[
    Step::Lacks(1, true),
    Step::Does(Call::Gather(1)),
    Step::Ahead(b"abc"),
    Step::Lacks(3, false),
    Step::Lacks(4, true),
    // they are at hand
    Step::Does(Call::Gather(3)),
    Step::Ahead(b"abc"),
    Step::Next(Some(b'a')),
    Step::Does(Call::Gather(3)),
    Step::Ahead(b"bcdef"),
    Step::At(1),
    Step::Does(Call::Gather(9)),
    Step::Ahead(b"bcdefghijkl"),
    Step::Read(b"bcdefghijkl"),
    Step::Does(Call::Gather(1)),
    Step::Ahead(b"mno"),
    Step::At(12),
];

// By five calls, each only where fewer are at hand than are wanted.
#[test]
fn gathers_what_is_wanted(rt: HostRuntime) -> Verdict {
    let alloc = rt.alloc();
    let source = in_pieces(alloc, b"abcdefghijklmnopqr", 3)?;
    leaves(&rt, alloc, source, GATHERS, (b"mno", b"pqr", 5))
}

// Where the input ends, or the block has little room, what is at hand stays so.
#[test]
fn gathers_no_more_than_there_is(rt: HostRuntime) -> Verdict {
    let alloc = rt.alloc();
    let script = [
        Step::Next(Some(b'a')),
        Step::Does(Call::Gather(9)),
        Step::Ahead(b"bc"),
        Step::Read(b"bc"),
        Step::Does(Call::Gather(9)),
        Step::Next(None),
        Step::At(3),
    ];
    answers(&rt, alloc, b"abc", 2, &script)?;
    let bytes = long(alloc)?;
    let script = [
        Step::Read(part(&bytes, 0, 7990)?),
        Step::Does(Call::Gather(20)),
        Step::Ahead(part(&bytes, 7990, 8000)?),
        Step::Read(part(&bytes, 7990, 8010)?),
    ];
    let source = in_pieces(alloc, &bytes, 8000)?;
    let left = (
        part(&bytes, 8010, 16_000)?,
        part(&bytes, 16_000, 20_000)?,
        2,
    );
    leaves(&rt, alloc, source, &script, left)
}

const PAST: &str = "length out of range at offset 18446744073709551615";

const NO_BYTE_PAST: &[Step] = &[
    Step::Next(Some(1)),
    Step::At(u64::MAX),
    Step::Refuses(Call::Next, PAST),
    Step::Refuses(Call::Peek, PAST),
    Step::Refuses(Call::Skip(1), PAST),
    Step::Read(b""),
];

const GATHERS_PAST: &[Step] = &[
    Step::Does(Call::Gather(1)),
    Step::Ahead(b"\x01"),
    Step::Does(Call::Gather(2)),
    Step::Ahead(b"\x01"),
    Step::Next(Some(1)),
    Step::Does(Call::Gather(1)),
    Step::Ahead(b""),
    Step::At(u64::MAX),
    Step::Refuses(Call::Next, PAST),
];

const END: &str = "EOF while parsing a value at offset 18446744073709551615";

const ENDS_THERE: &[Step] = &[
    Step::Next(Some(1)),
    Step::Next(None),
    Step::Refuses(Call::Skip(1), END),
];

// Offsets are below 2^64: a byte at the last of them can't be counted, and an end there is an end.
#[test]
fn counts_no_byte_past_the_last_offset(rt: HostRuntime) -> Verdict {
    let alloc = rt.alloc();
    for (bytes, script, left) in [
        (&b"\x01\x02"[..], NO_BYTE_PAST, &b"\x02"[..]),
        (b"\x01\x02", GATHERS_PAST, b"\x02"),
        (b"\x01", ENDS_THERE, b""),
    ] {
        let mut source = BufferedRead::at_offset(alloc, bytes, u64::MAX - 1)?;
        plays(&rt, alloc, &mut source, script)?;
        let (_reader, ahead) = source.into_inner();
        assert!(&rt; ahead.as_slice() == left);
    }
    Ok(())
}

#[test]
fn prints_no_bytes(rt: HostRuntime) -> Verdict {
    let mut source = in_pieces(rt.alloc(), b"ab", 2)?;
    is_next(&rt, &mut source, Some(b'a'))?;
    let text = format!(in rt.alloc(); "{source:?}")?;
    assert!(&rt; text.as_str() == "BufferedRead { offset: 1, .. }");
    Ok(())
}

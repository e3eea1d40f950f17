//! What each source answers, call by call.

use crate::devices::{HungryReader, PieceReader};
use crate::own_source::owned;
use crate::script::{fails, plays};
use cbor_io::error::Error;
use cbor_read::{
    EitherLifetime, IoRead, MutSliceRead, Offset, Read, ReadError, SliceRead, SliceReadFixed,
    Source,
};
use std::alloc::{AllocError, Global};
use std::io::ErrorKind;
use std::process::Abort;
use std::test::Fail;
use test_checks::{Verdict, is_refused};

// ---- sources of these bytes

fn by_slice(rt: &impl Abort, alloc: Global, bytes: &[u8], script: &str) -> Verdict {
    plays(rt, alloc, &mut SliceRead::new(alloc, bytes), script)
}

/// The scratch has so many bytes, 8 at most.
fn by_scratch(rt: &impl Abort, alloc: Global, bytes: &[u8], room: usize, script: &str) -> Verdict {
    let mut scratch = [7; 8];
    let scratch = &mut scratch[..room.min(8)];
    plays(rt, alloc, &mut SliceReadFixed::new(bytes, scratch), script)
}

fn in_place(rt: &impl Abort, alloc: Global, bytes: &[u8], script: &str) -> Verdict {
    let mut copy = Vec::from_slice(alloc, bytes)?;
    plays(rt, alloc, &mut MutSliceRead::new(&mut copy), script)
}

/// The reader gives so many bytes a call.
fn by_reader(rt: &impl Abort, alloc: Global, bytes: &[u8], piece: usize, script: &str) -> Verdict {
    let reader = PieceReader::new(bytes, piece);
    plays(rt, alloc, &mut IoRead::new(alloc, reader), script)
}

fn by_own(rt: &impl Abort, alloc: Global, bytes: &[u8], script: &str) -> Verdict {
    plays(rt, alloc, &mut owned(alloc, bytes)?, script)
}

/// By each source that has all its bytes at hand; the scratch has two bytes.
fn by_each_at_hand(rt: &impl Abort, alloc: Global, bytes: &[u8], script: &str) -> Verdict {
    by_slice(rt, alloc, bytes, script)?;
    by_scratch(rt, alloc, bytes, 2, script)?;
    in_place(rt, alloc, bytes, script)?;
    by_own(rt, alloc, bytes, script)
}

/// By each of these, and by readers of one byte and of three a call.
fn by_each(rt: &impl Abort, alloc: Global, bytes: &[u8], script: &str) -> Verdict {
    by_each_at_hand(rt, alloc, bytes, script)?;
    by_reader(rt, alloc, bytes, 1, script)?;
    by_reader(rt, alloc, bytes, 3, script)
}

// ---- what each answers

const BYTES: &[u8] = b"\x63foo\x18\x2a\xf6";

#[test]
fn gives_its_bytes(rt: HostRuntime) -> Verdict {
    by_each(
        &rt,
        rt.alloc(),
        BYTES,
        r"offset = 0; peek = c; offset = 0; discard; offset = 1; read 3 = foo; offset = 4;
            next = \x18; offset = 5; fill 1 = *; fill 0; offset = 6; peek = \xf6; offset = 6;
            discard; peek = none; peek = none; next = none; next = none; offset = 7; fill 0;
            join 0; read 0",
    )
}

#[test]
fn shows_the_bytes_to_come(rt: HostRuntime) -> Verdict {
    by_each_at_hand(
        &rt,
        rt.alloc(),
        BYTES,
        r"ahead = cfoo\x18*\xf6; peek = c; discard; ahead = foo\x18*\xf6; advance 3; offset = 4;
            advance 0; next = \x18; ahead = *\xf6; advance 2; offset = 7; ahead; next = none",
    )
}

#[test]
fn fills_a_vector(rt: HostRuntime) -> Verdict {
    by_each(
        &rt,
        rt.alloc(),
        BYTES,
        r"clear; peek = c; extend 3 = =cfo; offset = 3; buffer; join 2; buffer = o\x18;
            extend 0 = =;
            extend 1 = =*; buffer = o\x18; offset = 6; next = \xf6;
            vector 1 = EOF while parsing a value at offset 7; buffer = o\x18; vector 0",
    )
}

#[test]
fn skips_bytes(rt: HostRuntime) -> Verdict {
    by_each(
        &rt,
        rt.alloc(),
        b"\x01a\xc3\x28bc\xf6",
        r"peek = \x01; skip 1; text 0 = 0; text 3 = 1; offset = 4; text 2 = 2; skip 0; offset = 6;
            next = \xf6; skip 1 = EOF while parsing a value at offset 7;
            text 1 = EOF while parsing a value at offset 7;
            skip 18446744073709551615 = EOF while parsing a value at offset 7",
    )
}

// A source whose bytes are at hand takes none of too few.
const ENDS: &str = r"next = \x01;
    join 3 = EOF while parsing a value at offset 3;
    vector 3 = EOF while parsing a value at offset 3;
    read 3 = EOF while parsing a value at offset 3;
    fill 3 = EOF while parsing a value at offset 3;
    join 18446744073709551615 = EOF while parsing a value at offset 3;
    vector 18446744073709551615 = EOF while parsing a value at offset 3;
    read 18446744073709551615 = EOF while parsing a value at offset 3; offset = 1;
    next = \x02; next = \x03; join 1 = EOF while parsing a value at offset 3;
    fill 1 = EOF while parsing a value at offset 3;
    read 1 = EOF while parsing a value at offset 3;
    next = none";

// Where both the input and the scratch are too short, it is the end of the input that is reported.
#[test]
fn reports_its_end(rt: HostRuntime) -> Verdict {
    let alloc = rt.alloc();
    by_each_at_hand(&rt, alloc, b"\x01\x02\x03", ENDS)?;
    by_scratch(&rt, alloc, b"\x01\x02\x03", 0, ENDS)?;
    by_scratch(&rt, alloc, b"\x01\x02\x03", 4, ENDS)?;
    let empty = "peek = none; read 1 = EOF while parsing a value; offset = 0";
    by_each(&rt, alloc, b"", empty)
}

// The chunks `ab` and `cd` fit a scratch of two bytes.
#[test]
fn joins_chunks(rt: HostRuntime) -> Verdict {
    by_each(
        &rt,
        rt.alloc(),
        b"aaab\xffcd\xf6",
        r"clear; next = a; join 1; next = a; join 1; next = \xff; buffer = ab; joined = ab;
            offset = 5;
            clear; joined; join 2; joined = cd; offset = 7; next = \xf6",
    )
}

#[test]
fn says_who_lends(rt: HostRuntime) -> Verdict {
    let alloc = rt.alloc();
    let by_input = "lend 2 = input:ab; join 1; lend_joined = source:c; lend 0 = input:";
    by_slice(&rt, alloc, b"abc", by_input)?;
    by_scratch(&rt, alloc, b"abc", 1, by_input)?;
    let all_by_input = "lend 2 = input:ab; clear; join 1; lend_joined = input:c; lend 0 = input:";
    in_place(&rt, alloc, b"abc", all_by_input)?;
    let by_source = "clear; lend 2 = source:ab; clear; join 1; lend_joined = source:c";
    by_own(&rt, alloc, b"abc", by_source)?;
    by_reader(&rt, alloc, b"abc", 2, by_source)
}

// ---- what the input lends stays as it is

/// Two parts of three bytes, which the input lends.
fn two_parts<'de, R: Read<'de>>(
    rt: &impl Abort,
    source: &mut R,
) -> Result<(&'de [u8], &'de [u8]), ReadError> {
    let first = lent_by_input(rt, source.read(3)?);
    let second = lent_by_input(rt, source.read(3)?);
    Ok((first, second))
}

/// The bytes of this part, which the input lends.
fn lent_by_input<'a>(rt: &impl Abort, part: EitherLifetime<'_, 'a>) -> &'a [u8] {
    match part {
        EitherLifetime::Short(_) => panic!(rt; "lent by the source"),
        EitherLifetime::Long(bytes) => bytes,
    }
}

fn are_foo_and_bar(rt: &impl Abort, parts: (&[u8], &[u8])) {
    assert!(rt; parts.0 == b"foo".as_slice());
    assert!(rt; parts.1 == b"bar".as_slice());
}

#[test]
fn lends_two_parts_of_a_slice(rt: HostRuntime) -> Verdict {
    let bytes = *b"foobar";
    let mut source = SliceRead::new(rt.alloc(), &bytes);
    are_foo_and_bar(&rt, two_parts(&rt, &mut source)?);
    Ok(())
}

#[test]
fn lends_two_parts_beside_a_scratch(rt: HostRuntime) -> Verdict {
    let bytes = *b"foobar";
    let mut source = SliceReadFixed::new(&bytes, &mut []);
    are_foo_and_bar(&rt, two_parts(&rt, &mut source)?);
    Ok(())
}

#[test]
fn lends_two_parts_of_what_is_rewritten(rt: HostRuntime) -> Verdict {
    let mut bytes = *b"foobarx";
    let mut source = MutSliceRead::new(&mut bytes);
    let parts = two_parts(&rt, &mut source)?;
    plays(
        &rt,
        rt.alloc(),
        &mut source,
        "clear; join 1; lend_joined = input:x; next = none",
    )?;
    are_foo_and_bar(&rt, parts);
    Ok(())
}

// What was joined stays as it is while more is joined after it.
#[test]
fn lends_what_was_joined(rt: HostRuntime) -> Verdict {
    let mut bytes = *b"aaab\xffcd62";
    let mut source = MutSliceRead::new(&mut bytes);
    let chunks = r"clear; next = a; join 1; next = a; join 1; next = \xff";
    plays(&rt, rt.alloc(), &mut source, chunks)?;
    let ab = lent_by_input(&rt, source.take_buffer());
    let more = "offset = 5; clear; lend_joined = input:; join 1; next = d; join 2; \
        lend_joined = input:c62; offset = 9; next = none";
    plays(&rt, rt.alloc(), &mut source, more)?;
    assert!(rt; ab == b"ab".as_slice());
    Ok(())
}

// The end is counted from the input's start, also after what was lent.
#[test]
fn counts_what_was_lent(rt: HostRuntime) -> Verdict {
    in_place(
        &rt,
        rt.alloc(),
        b"\x63foo\x63bar",
        r"next = c; lend 3 = input:foo; offset = 4;
            read 5 = EOF while parsing a value at offset 8; clear;
            offset = 4; join 5 = EOF while parsing a value at offset 8; next = c;
            lend 3 = input:bar;
            offset = 8",
    )
}

// ---- joining in place, and in a scratch

// A chunk that is longer than what lies between moves over its own bytes.
#[test]
fn joins_long_chunks_in_place(rt: HostRuntime) -> Verdict {
    in_place(
        &rt,
        rt.alloc(),
        b"\x66foobar\x66123456\xff\x01",
        r"clear; next = f; join 6; next = f; join 6; fill 2 = \xff\x01;
            lend_joined = input:foobar123456;
            offset = 16",
    )
}

// Chunks that are shorter than what lies between, as long and longer: each follows those before it,
// and the slice has all its bytes afterwards.
#[test]
fn loses_no_byte_in_place(rt: HostRuntime) -> Verdict {
    let mut bytes = *b"1a2bc3def4gh5ijklmnopq6r78";
    let script = "clear; next = 1; join 1; next = 2; join 2; next = 3; join 3; next = 4; join 2; \
        next = 5; join 9; next = 6; join 1; next = 7; lend_joined = input:abcdefghijklmnopqr; \
        next = 8";
    plays(&rt, rt.alloc(), &mut MutSliceRead::new(&mut bytes), script)?;
    bytes.sort_unstable();
    assert!(rt; bytes == *b"12345678abcdefghijklmnopqr");
    Ok(())
}

// The chunks `ab` and `cd` want a scratch of 4 bytes: one of 3 is refused at the second chunk, and
// nothing has changed then. It goes on byte by byte.
#[test]
fn reports_a_scratch_that_is_a_byte_too_short(rt: HostRuntime) -> Verdict {
    by_scratch(
        &rt,
        rt.alloc(),
        b"\x62ab\x62cd\xff",
        3,
        r"clear; next = b; join 2; next = b; join 2 = Scratch buffer too small at offset 4;
            offset = 4;
            joined = ab; join 1; joined = abc; join 2 = Scratch buffer too small at offset 5;
            join 3 = EOF while parsing a value at offset 7; clear; join 2; joined = d\xff",
    )
}

// ---- readers

#[test]
fn hands_out_what_was_peeked_once(rt: HostRuntime) -> Verdict {
    by_reader(
        &rt,
        rt.alloc(),
        b"\x18\x2a",
        2,
        r"ahead; peek = \x18; ahead; advance 0; offset = 0; next = \x18; peek = *; offset = 1;
            fill 1 = *;
            offset = 2; peek = none; next = none; offset = 2",
    )
}

#[test]
fn takes_no_byte_that_is_not_asked_for(rt: HostRuntime) -> Verdict {
    let mut reader = PieceReader::new(b"\x63foobar", 7);
    let script = "next = c; lend 3 = source:foo";
    plays(
        &rt,
        rt.alloc(),
        &mut IoRead::new(rt.alloc(), &mut reader),
        script,
    )?;
    assert!(rt; reader.rest == b"bar".as_slice());
    Ok(())
}

/// By a reader of a byte a call that reports this fault at this call, of which the first is 1.
fn by_failing(rt: &impl Abort, alloc: Global, at: usize, kind: ErrorKind, script: &str) -> Verdict {
    let reader = PieceReader::failing(b"\x18\x2a", 1, at, kind);
    plays(rt, alloc, &mut IoRead::new(alloc, reader), script)
}

// An interrupted read is a fault like any other, and so is a device's lack of memory. It takes
// nothing: the call after it goes on where the source stood.
#[test]
fn goes_on_after_a_fault(rt: HostRuntime) -> Verdict {
    for kind in [ErrorKind::Interrupted, ErrorKind::OutOfMemory] {
        for script in [
            r"next = I/O error; offset = 0; next = \x18; next = *; next = none",
            r"peek = I/O error; peek = \x18; offset = 0; read 2 = \x18*; peek = none",
            r"read 2 = I/O error; offset = 0; read 2 = \x18*",
            r"skip 2 = I/O error; skip 2; next = none",
            r"text 2 = I/O error; text 2 = 2",
            r"fill 2 = I/O error; fill 2 = \x18*",
            r"join 2 = I/O error; buffer; join 2; buffer = \x18*",
            r"vector 2 = I/O error; extend 2 = =\x18*; offset = 2",
        ] {
            by_failing(&rt, rt.alloc(), 1, kind, script)?;
        }
        let second = r"next = \x18; next = I/O error; offset = 1; next = *; next = none";
        by_failing(&rt, rt.alloc(), 2, kind, second)?;
    }
    Ok(())
}

// An argument of 8 bytes, by a reader that gives from one to all of them a call.
#[test]
fn takes_a_head_that_lies_in_several_pieces(rt: HostRuntime) -> Verdict {
    let bytes = b"\x1b\x01\x02\x03\x04\x05\x06\x07\x08\xf6";
    let script = r"next = \x1b; fill 8 = \x01\x02\x03\x04\x05\x06\x07\x08; offset = 9;
        next = \xf6";
    for piece in 1..10usize {
        by_reader(&rt, rt.alloc(), bytes, piece, script)?;
    }
    Ok(())
}

const ALL: &[u8] = b"\x63foobarbazqux\x00";

// By each of the calls.
const TAKES_ALL: &str =
    r"next = c; peek = f; read 3 = foo; peek = b; clear; join 2; join 1; joined = bar;
    peek = b; fill 3 = baz; joined = bar; extend 2 = =qu; buffer = bar; lend 1 = source:x;
    buffer = x;
    offset = 13; peek = \x00; next = \x00; offset = 14; next = none";

#[test]
fn answers_alike_however_much_a_call_gives(rt: HostRuntime) -> Verdict {
    for piece in 1..15usize {
        by_reader(&rt, rt.alloc(), ALL, piece, TAKES_ALL)?;
    }
    Ok(())
}

// A byte a call: 14 calls give one, and one more meets the end.
#[test]
fn reports_a_fault_at_any_call(rt: HostRuntime) -> Verdict {
    let alloc = rt.alloc();
    for at in 1..16usize {
        let reader = PieceReader::failing(ALL, 1, at, ErrorKind::BrokenPipe);
        fails(&rt, alloc, &mut IoRead::new(alloc, reader), TAKES_ALL)?;
    }
    Ok(())
}

// It joins what came alone, and forgets it where it is told to.
#[test]
fn joins_what_came(rt: HostRuntime) -> Verdict {
    let alloc = rt.alloc();
    let script =
        "next = [; join 1099511627776 = EOF while parsing a value at offset 11; offset = 11; \
        buffer = foobarbazq";
    by_reader(&rt, alloc, b"\x5bfoobarbazq", 11, script)?;
    let script = "join 3; lend 3 = source:bar; clear; lend_joined = source:; join 3; \
        lend_joined = source:baz";
    by_reader(&rt, alloc, b"foobarbaz", 2, script)
}

#[test]
fn takes_memory_for_what_came_alone(rt: HostRuntime) -> Verdict {
    let alloc = rt.alloc();
    let mut source = IoRead::new(alloc, PieceReader::new(b"foobarbazqu", 11));
    let mut out = Vec::new(alloc);
    let refused = source.read_to_vec(1 << 40, &mut out).map_err(Error::from);
    is_refused(refused, "EOF while parsing a value at offset 11")?;
    assert!(rt; out.capacity() <= 64);
    Ok(())
}

// A reader that takes memory itself, and makes a fault of a device of its want of it, is told apart
// from the source that has none.
#[test]
fn reports_its_own_want_of_memory_from_its_readers(rt: HostRuntime) -> Verdict {
    let alloc = rt.alloc();
    let mut reader = HungryReader::new(alloc, b"foo");
    let joined = IoRead::new(alloc, &mut reader).read_to_buffer(3);
    let Err(e) = joined else {
        assert!(rt; !reader.is_refused);
        return Ok(());
    };
    let e = Error::from(e);
    assert!(rt; e.is_memory() != reader.is_refused);
    if reader.is_refused {
        is_refused::<()>(Err(e), "I/O error")?;
        return Err(Fail::from(AllocError));
    }
    Err(Fail::from(e))
}

/// 10000 bytes, of which none is as the next.
fn long_string(alloc: Global) -> Result<Vec<u8>, AllocError> {
    let mut bytes = Vec::with_capacity(alloc, 10_000)?;
    for k in 0..10_000u64 {
        bytes.push((k % 251) as u8)?;
    }
    Ok(bytes)
}

#[test]
fn takes_a_long_string_by_few_calls(rt: HostRuntime) -> Verdict {
    let alloc = rt.alloc();
    let bytes = long_string(alloc)?;
    let mut reader = PieceReader::new(&bytes, 10_000);
    match IoRead::new(alloc, &mut reader).read(10_000)? {
        EitherLifetime::Short(part) => assert!(rt; part == bytes.as_slice()),
        EitherLifetime::Long(_) => panic!(rt; "lent by the input"),
    }
    assert!(rt; reader.calls <= 5);
    Ok(())
}

#[test]
fn fills_a_long_place_by_one_call(rt: HostRuntime) -> Verdict {
    let alloc = rt.alloc();
    let bytes = long_string(alloc)?;
    let mut room: Vec<u8> = vec![in alloc; 0; 10_000]?;
    let mut reader = PieceReader::new(&bytes, 10_000);
    IoRead::new(alloc, &mut reader).read_into(&mut room)?;
    assert!(rt; room.as_slice() == bytes.as_slice());
    assert!(rt; reader.calls == 1);
    Ok(())
}

// ---- the calls of `Offset`

/// Two bytes of these are taken, and counted.
fn counts_two<S: Source + Offset>(rt: &impl Abort, source: &mut S) -> Verdict {
    assert!(rt; source.byte_offset() == 0);
    source.skip(2)?;
    assert!(rt; source.byte_offset() == 2);
    Ok(())
}

#[test]
fn counts_the_bytes_taken(rt: HostRuntime) -> Verdict {
    let alloc = rt.alloc();
    counts_two(&rt, &mut SliceRead::new(alloc, b"abc"))?;
    counts_two(&rt, &mut SliceReadFixed::new(b"abc", &mut []))?;
    counts_two(&rt, &mut IoRead::new(alloc, b"abc".as_slice()))
}

//! What a stream holds between calls: levels, offsets and what is lent; and readers that fail.

use cbor_de::{
    Deserialize, Deserializer, Offset, Read, SliceRead, SliceReadFixed, StreamDeserializer,
    read_items,
};
use cbor_io::error::{Error, Result as Answer};
use cbor_value::Value;
use std::alloc::Global;
use std::io;
use std::io::ErrorKind;
use std::process::Abort;
use std::test::Fail;
use test_checks::{Verdict, is_refused};

/// A refusal with these words is next.
fn refuses<'a, R: Read<'a> + Drop, T: Deserialize<'a, R>>(
    stream: &mut StreamDeserializer<'a, R, T>,
    words: &str,
) -> Verdict {
    is_refused(stream.next().ok_or("none")?, words)
}

/// Nothing is next.
fn ends<'a, R: Read<'a> + Drop, T: Deserialize<'a, R>>(
    rt: &impl Abort,
    stream: &mut StreamDeserializer<'a, R, T>,
) {
    assert!(rt; stream.next().is_none());
}

/// So many bytes were taken.
fn has_taken<'a, R: Offset, T>(
    rt: &impl Abort,
    stream: &StreamDeserializer<'a, R, T>,
    want: usize,
) {
    assert!(rt; stream.byte_offset() == want);
}

// ---- scripts

/// What is asked of a stream of values, and what it answers.
#[derive(Clone, Copy)]
enum Step<'s> {
    /// This number is next.
    Number(i128),
    /// This text is next.
    Text(&'s str),
    /// So many times [0] is next.
    Arrays(u8),
    /// An item is next, or an error that isn't of memory, or nothing.
    Any,
    /// A refusal with these words is next.
    Refused(&'s str),
    /// Nothing is next.
    End,
    /// So many bytes were taken.
    Taken(usize),
    /// More than so many bytes were taken, and at most so many.
    TakenOf(usize, usize),
}

/// The stream answers as the script says.
fn plays<'a, R: Read<'a> + Offset + Drop>(
    rt: &impl Abort,
    stream: StreamDeserializer<'a, R, Value>,
    script: &[Step],
) -> Verdict {
    let mut stream = stream;
    for step in script {
        match *step {
            Step::Taken(want) => has_taken(rt, &stream, want),
            Step::TakenOf(few, most) => {
                assert!(rt; stream.byte_offset() > few && stream.byte_offset() <= most);
            }
            Step::Arrays(count) => gives_arrays(rt, &mut stream, count)?,
            Step::Refused(words) => refuses(&mut stream, words)?,
            Step::End => ends(rt, &mut stream),
            _ => is_so(rt, stream.next(), *step)?,
        }
    }
    Ok(())
}

/// So many times [0] is next.
fn gives_arrays<'a, R: Read<'a> + Drop>(
    rt: &impl Abort,
    stream: &mut StreamDeserializer<'a, R, Value>,
    count: u8,
) -> Verdict {
    for _ in 0..count {
        let Value::Array(items) = stream.next().ok_or("none")?? else {
            return Err(Fail::from("no array"));
        };
        assert!(rt; items.len() == 1);
        assert!(rt; items[0] == Value::Integer(0));
    }
    Ok(())
}

/// The next answer is the one of this step.
fn is_so(rt: &impl Abort, answer: Option<Answer<Value>>, step: Step) -> Verdict {
    match (answer, step) {
        (Some(Err(e)), Step::Any) => is_no_memory(e),
        (Some(Err(e)), _) => Err(Fail::from(e)),
        (Some(Ok(Value::Integer(got))), Step::Number(want)) => is(rt, got == want),
        (Some(Ok(Value::Text(got))), Step::Text(want)) => is(rt, got.as_str() == want),
        (_, Step::Any) => Ok(()),
        _ => Err(Fail::from("another answer")),
    }
}

fn is(rt: &impl Abort, so: bool) -> Verdict {
    assert!(rt; so);
    Ok(())
}

fn is_no_memory(e: Error) -> Verdict {
    if e.is_memory() {
        return Err(Fail::from(e));
    }
    Ok(())
}

/// By each source that counts its bytes. The scratch has so many, 32 at most.
fn by_each(rt: &impl Abort, alloc: Global, bytes: &[u8], room: usize, script: &[Step]) -> Verdict {
    plays(
        rt,
        Deserializer::from_slice(alloc, bytes).into_iter(),
        script,
    )?;
    let mut scratch = [0; 32];
    let source = SliceReadFixed::new(bytes, &mut scratch[..room.min(32)]);
    plays(rt, StreamDeserializer::new(alloc, source), script)?;
    plays(
        rt,
        Deserializer::from_reader(alloc, bytes).into_iter(),
        script,
    )
}

fn arrays(alloc: Global) -> Result<Vec<u8>, Fail> {
    let mut bytes = Vec::new(alloc);
    for _ in 0..128 {
        bytes.extend_from_slice(&[0x81, 0])?;
    }
    Ok(bytes)
}

// A hundred and twenty-eight times [0], and then nothing for good.
#[test]
fn loses_no_level(rt: HostRuntime) -> Verdict {
    let alloc = rt.alloc();
    let mut bytes = arrays(alloc)?;
    let script = [Step::Arrays(128), Step::End, Step::End];
    by_each(&rt, alloc, &bytes, 4, &script)?;
    let mut stream = Deserializer::from_mut_slice(alloc, &mut bytes).into_iter();
    gives_arrays(&rt, &mut stream, 128)?;
    ends(&rt, &mut stream);
    ends(&rt, &mut stream);
    Ok(())
}

/// So many bytes were taken after each answer, and nothing follows.
fn takes(rt: &impl Abort, alloc: Global, bytes: &[u8], wants: &[usize]) -> Verdict {
    let mut script = Vec::from_slice(alloc, &[Step::Taken(0)])?;
    for want in wants {
        script.extend_from_slice(&[Step::Any, Step::Taken(*want)])?;
    }
    script.push(Step::End)?;
    by_each(rt, alloc, bytes, 32, &script)
}

#[test]
fn counts_behind_each_answer(rt: HostRuntime) -> Verdict {
    for (bytes, wants) in [
        (&b""[..], &[0, 0][..]),
        (b"\x01\x02\xff\x03", &[1, 2, 3, 3]),
        (b"\x9f", &[1, 1]),
        (b"\xbf\x01", &[2, 2]),
        (b"\x82\x01", &[2, 2]),
        (b"\x7f\x65", &[2, 2]),
        (b"\x7f\x65Mary \x64Had ", &[12, 12]),
        (b"\xf6\x81\xf8", &[1, 3, 3]),
        (b"\x81\x00\x81\x00", &[2, 4, 4]),
    ] {
        takes(&rt, rt.alloc(), bytes, wants)?;
    }
    Ok(())
}

// A number, and then a text that is cut off, of which a part may be taken.
#[test]
fn counts_of_an_item_that_is_cut_off(rt: HostRuntime) -> Verdict {
    let script = [
        Step::Number(1),
        Step::Taken(1),
        Step::Refused("EOF while parsing a value at offset 6"),
        Step::TakenOf(1, 6),
        Step::End,
    ];
    by_each(&rt, rt.alloc(), b"\x01\x66foob", 4, &script)
}

#[test]
fn counts_the_bytes_taken(rt: HostRuntime) -> Verdict {
    let script = [Step::Taken(0), Step::Text("foobar"), Step::Taken(7)];
    by_each(&rt, rt.alloc(), b"\x66foobar\x66foobar", 4, &script)
}

// ---- streams of other types

#[test]
fn gives_texts_that_the_slice_lends(rt: HostRuntime) -> Verdict {
    let alloc = rt.alloc();
    let source = SliceRead::new(alloc, b"\x61a\x61b\x05\x61c");
    let mut stream = StreamDeserializer::<SliceRead, &str>::new(alloc, source);
    let first = stream.next().ok_or("none")??;
    let second = stream.next().ok_or("none")??;
    refuses(&mut stream, "invalid type: expected a string")?;
    ends(&rt, &mut stream);
    assert!(rt; first == "a");
    assert!(rt; second == "b");
    Ok(())
}

#[test]
fn goes_on_behind_an_item(rt: HostRuntime) -> Verdict {
    let alloc = rt.alloc();
    let mut de = Deserializer::from_slice(alloc, b"\xf5\x18\x2a\x07");
    assert!(rt; bool::deserialize(&mut de)?);
    let mut stream = de.into_iter::<u8>();
    assert!(rt; stream.next().ok_or("none")?? == 42);
    has_taken(&rt, &stream, 3);
    assert!(rt; stream.next().ok_or("none")?? == 7);
    ends(&rt, &mut stream);
    Ok(())
}

/// A stream of the numbers 1 and 42.
fn one_and_42(alloc: Global) -> StreamDeserializer<'static, SliceRead<'static>, u8> {
    StreamDeserializer::new(alloc, SliceRead::new(alloc, b"\x01\x18\x2a"))
}

/// All numbers of these bytes.
fn numbers(alloc: Global, bytes: &[u8]) -> Answer<Vec<u8>> {
    read_items(alloc, SliceRead::new(alloc, bytes))
}

#[test]
fn reads_all_items(rt: HostRuntime) -> Verdict {
    let alloc = rt.alloc();
    assert!(rt; numbers(alloc, b"\x01\x18\x2a")?.as_slice() == [1, 42].as_slice());
    let mut sum = 0u64;
    for number in one_and_42(alloc).take(2) {
        sum = sum.wrapping_add(u64::from(number?));
    }
    assert!(rt; sum == 43);
    let all: Vec<u8> = one_and_42(alloc).try_collect(alloc)?;
    assert!(rt; all.len() == 2);
    Ok(())
}

// The first refusal is the answer, as it is of a stream; and nothing is no item.
#[test]
fn reads_all_items_or_none(rt: HostRuntime) -> Verdict {
    let alloc = rt.alloc();
    assert!(rt; numbers(alloc, b"")?.is_empty());
    for (bytes, words) in [
        (&b"\x01\x18"[..], "EOF while parsing a value at offset 2"),
        (b"\x01\x1c\x02\xff", "unassigned type at offset 2"),
        (b"\x01\x02\xff", "unexpected code at offset 3"),
        (b"\x01\xf5\x1c", "invalid type: expected an integer"),
    ] {
        is_refused(numbers(alloc, bytes), words)?;
    }
    Ok(())
}

/// A reader of one byte a call, which fails after its bytes.
#[derive(Drop)]
struct Failing<'a> {
    bytes: &'a [u8],
}

impl io::Read for Failing<'_> {
    fn read(&mut self, buf: &mut [u8]) -> io::Result<usize> {
        let (Some(place), Some((first, rest))) = (buf.first_mut(), self.bytes.split_first()) else {
            return Err(io::Error::from(ErrorKind::BrokenPipe));
        };
        *place = *first;
        self.bytes = rest;
        Ok(1)
    }
}

// What came whole is given, before the byte after it is asked for; a fault between items and one
// within an item end the stream.
#[test]
fn gives_what_comes_before_a_fault(rt: HostRuntime) -> Verdict {
    for (bytes, items) in [
        (&b"\x01\x18\x2a"[..], &[(1, 1), (42, 3)][..]),
        (b"\x01\x18", &[(1, 1)]),
    ] {
        let de = Deserializer::from_reader(rt.alloc(), Failing { bytes });
        let mut stream = de.into_iter::<u8>();
        for (number, taken) in items {
            assert!(&rt; stream.next().ok_or("none")?? == *number);
            has_taken(&rt, &stream, *taken);
        }
        refuses(&mut stream, "I/O error")?;
        ends(&rt, &mut stream);
        ends(&rt, &mut stream);
    }
    Ok(())
}

// What reads is printed as where it stands, with no byte of its input.
#[test]
fn prints_no_bytes(rt: HostRuntime) -> Verdict {
    let alloc = rt.alloc();
    let mut de = Deserializer::from_slice(alloc, b"\xc1\x05\x06").nesting_limit(3);
    de.read_tag()?;
    let text = format!(in alloc; "{de:?}")?;
    let shown = "Deserializer { source: SliceRead { offset: 1, remaining: 2, .. }, levels_left: 2, \
        formats: Formats { named: true, packed: true, standard_enums: true, legacy_enums: true }, .. }";
    assert!(rt; text.as_str() == shown);

    let stream = Deserializer::from_reader(alloc, b"\x05".as_slice()).into_iter::<u8>();
    let text = format!(in alloc; "{stream:?}")?;
    let shown = "StreamDeserializer { de: Deserializer { source: IoRead { offset: 0, .. }, \
        levels_left: 127, formats: Formats { named: true, packed: true, standard_enums: true, \
        legacy_enums: true }, .. }, done: false, .. }";
    assert!(rt; text.as_str() == shown);
    Ok(())
}

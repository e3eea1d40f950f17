//! Structs and collections, written to sinks of each kind.

use crate::counter::Counter;
use samples::enums::{Color, EachKind};
use samples::structs::{Credentials, Mascot};
use serde_cbor::ser::{IoWrite, Serialize, SliceWrite, Write};
use serde_cbor::{Serializer, to_writer};
use std::alloc::{AllocError, Global};
use std::collections::BTreeMap;
use std::io;
use std::io::ErrorKind;
use std::process::Abort;
use std::test::Fail;
use test_checks::{Verdict, is_refused};

/// A writer that takes so many bytes a call, and fails at the call after so many.
#[derive(Drop)]
struct FailingWriter {
    taken: Vec<u8>,
    at_once: usize,
    left: usize,
}

impl FailingWriter {
    /// It has its memory from the beginning: no write of up to 128 bytes fails for want of it.
    fn new(alloc: Global, at_once: usize, left: usize) -> Result<FailingWriter, AllocError> {
        Ok(FailingWriter {
            taken: Vec::with_capacity(alloc, 128)?,
            at_once,
            left,
        })
    }
}

impl io::Write for FailingWriter {
    fn write(&mut self, buf: &[u8]) -> io::Result<usize> {
        if self.left == 0 {
            return Err(io::Error::from(ErrorKind::BrokenPipe));
        }
        self.left -= 1;
        let count = buf.len().min(self.at_once);
        io::Write::write(&mut self.taken, &buf[..count])
    }

    fn flush(&mut self) -> io::Result<()> {
        Ok(())
    }
}

/// Writes a struct of three fields, of which the second is left out.
fn write_without_second(ser: &mut Serializer<Vec<u8>>) -> serde_cbor::Result<()> {
    let mut fields = ser.serialize_struct("Person", 2)?;
    fields.serialize_field("name", &"Grace Hopper")?;
    fields.skip_field("year_of_birth");
    fields.serialize_field("profession", &"computer scientist")?;
    fields.end()
}

// A field that is left out has a number all the same.
#[test]
fn counts_a_field_that_is_left_out(rt: HostRuntime) -> Result<(), Fail> {
    let alloc = rt.alloc();
    let mut ser = Serializer::new(alloc, Vec::new(alloc)).packed_format();
    write_without_second(&mut ser)?;
    let want = b"\xa2\0\x6cGrace Hopper\x02\x72computer scientist".as_slice();
    assert!(rt; ser.into_inner().as_slice() == want);
    Ok(())
}

const CREDENTIALS: &[u8] = b"\xa2\x67user_id\x18\x2a\x6dpassword_hash\x84\x01\x02\x03\x04";

/// Writes the struct whose bytes these are to a sink.
fn write_credentials<W: Write>(alloc: Global, sink: &mut W) -> serde_cbor::Result<()> {
    let credentials = Credentials {
        user_id: 42,
        password_hash: [1, 2, 3, 4],
    };
    to_writer(alloc, sink, &credentials)
}

// Into slices that are too short: the bytes written are a prefix of the whole.
#[test]
fn leaves_a_beginning_of_a_struct(rt: HostRuntime) -> Verdict {
    for len in 0..30usize {
        let count = fills_slice(&rt, rt.alloc(), len)?;
        if len == 8 {
            assert!(rt; count == 2);
        }
        if len == 29 {
            assert!(rt; count == 29);
        }
    }
    Ok(())
}

/// So many bytes, a prefix of the whole, are written into a slice of this length.
fn fills_slice(rt: &impl Abort, alloc: Global, len: usize) -> Result<usize, Fail> {
    let mut room = [0; 30];
    assert!(rt; len <= room.len());
    let mut sink = SliceWrite::new(&mut room[..len]);
    let Err(error) = write_credentials(alloc, &mut sink) else {
        panic!(rt; "not refused");
    };
    if error.is_memory() {
        return Err(Fail::from(error));
    }
    let count = sink.bytes_written();
    assert!(rt; error.is_scratch_too_small());
    assert!(rt; error.offset() == count as u64);
    assert!(rt; CREDENTIALS.starts_with(&sink.into_inner()[..count]));
    Ok(count)
}

// By a head or what a string holds a call.
#[test]
fn reports_a_writers_fault_at_each_piece(rt: HostRuntime) -> Verdict {
    let written = [0, 1, 2, 9, 11, 12, 25, 26, 27, 28, 29];
    for (left, count) in written.into_iter().enumerate() {
        fails_after(&rt, rt.alloc(), 30, left, count)?;
    }
    Ok(())
}

// By a byte a call.
#[test]
fn reports_a_writers_fault_at_each_byte(rt: HostRuntime) -> Verdict {
    for left in 0..30usize {
        fails_after(&rt, rt.alloc(), 1, left, left)?;
    }
    Ok(())
}

#[test]
fn reports_a_writer_that_takes_nothing(rt: HostRuntime) -> Verdict {
    fails_after(&rt, rt.alloc(), 0, 100, 0)
}

/// A writer that takes so many bytes a call, and fails at the call after so many, has taken these
/// of the struct's.
fn fails_after(
    rt: &impl Abort,
    alloc: Global,
    at_once: usize,
    left: usize,
    count: usize,
) -> Verdict {
    let mut writer = FailingWriter::new(alloc, at_once, left)?;
    is_refused(
        write_credentials(alloc, &mut IoWrite::new(&mut writer)),
        "I/O error",
    )?;
    assert!(rt; writer.taken.len() == count);
    assert!(rt; CREDENTIALS.starts_with(&writer.taken));
    Ok(())
}

#[test]
fn goes_on_by_a_byte_a_call(rt: HostRuntime) -> Verdict {
    let alloc = rt.alloc();
    let mut writer = FailingWriter::new(alloc, 1, 30)?;
    write_credentials(alloc, &mut IoWrite::new(&mut writer))?;
    assert!(rt; writer.taken.as_slice() == CREDENTIALS);
    Ok(())
}

const FERRIS: &[u8] = b"\xa3\x64name\x66Ferris\x67species\x64crab\x6dyear_of_birth\x19\x07\xdf";

/// Writes the struct whose bytes these are to a sink.
fn write_ferris<W: Write>(alloc: Global, sink: &mut W) -> Verdict {
    let ferris = Mascot {
        name: "Ferris".to_owned(alloc)?,
        species: "crab".to_owned(alloc)?,
        year_of_birth: 2015,
    };
    to_writer(alloc, sink, &ferris)?;
    Ok(())
}

/// Writes its year.
fn write_year<W: Write>(alloc: Global, sink: &mut W) -> serde_cbor::Result<()> {
    to_writer(alloc, sink, &2015u32)
}

#[test]
fn appends_a_struct_to_a_vector(rt: HostRuntime) -> Verdict {
    let mut bytes = vec![in rt.alloc(); 0xf6]?;
    write_ferris(rt.alloc(), &mut bytes)?;
    assert!(rt; bytes.first() == Some(&0xf6));
    assert!(rt; bytes.get(1..) == Some(FERRIS));
    Ok(())
}

#[test]
fn writes_a_struct_to_a_slice(rt: HostRuntime) -> Verdict {
    let mut room = [0; 64];
    let mut sink = SliceWrite::new(&mut room);
    write_ferris(rt.alloc(), &mut sink)?;
    assert!(rt; sink.bytes_written() == FERRIS.len());
    assert!(rt; room.starts_with(FERRIS));
    Ok(())
}

#[test]
fn writes_a_struct_to_a_writer(rt: HostRuntime) -> Verdict {
    let alloc = rt.alloc();
    let mut file = FailingWriter::new(alloc, 64, 100)?;
    {
        let mut sink = IoWrite::new(&mut file);
        write_ferris(alloc, &mut sink)?;
        write_year(alloc, &mut sink)?;
    }
    is_ferris_and_2015(&rt, &file.taken);
    Ok(())
}

/// The bytes are the struct's, and then its year's.
fn is_ferris_and_2015(rt: &impl Abort, bytes: &[u8]) {
    assert!(rt; bytes.len() == FERRIS.len() + 3);
    assert!(rt; bytes.starts_with(FERRIS));
    assert!(rt; bytes.ends_with(b"\x19\x07\xdf"));
}

#[test]
fn counts_the_bytes_of_a_struct(rt: HostRuntime) -> Verdict {
    let alloc = rt.alloc();
    let mut counter = Counter { count: 0 };
    write_ferris(alloc, &mut counter)?;
    write_year(alloc, &mut &mut counter)?;
    assert!(rt; counter.count == FERRIS.len() + 3);
    Ok(())
}

fn write_list(ser: &mut Serializer<Vec<u8>>) -> Result<(), Fail> {
    let mut items = ser.serialize_seq(None)?;
    items.serialize_element(&1u8)?;
    items.serialize_element(&2u8)?;
    items.end()?;
    Ok(())
}

fn write_empty_list(ser: &mut Serializer<Vec<u8>>) -> Result<(), Fail> {
    ser.serialize_seq(None)?.end()?;
    Ok(())
}

fn write_map(ser: &mut Serializer<Vec<u8>>) -> Result<(), Fail> {
    let mut pairs = ser.serialize_map(None)?;
    pairs.serialize_key(&"a")?;
    pairs.serialize_value(&true)?;
    pairs.end()?;
    Ok(())
}

// Sequences and maps without a declared length end by a break.
#[test]
fn writes_indefinite_lengths(rt: HostRuntime) -> Result<(), Fail> {
    let alloc = rt.alloc();
    let mut ser = Serializer::new(alloc, Vec::new(alloc));
    write_list(&mut ser)?;
    write_empty_list(&mut ser)?;
    write_map(&mut ser)?;
    let want = b"\x9f\x01\x02\xff\x9f\xff\xbf\x61a\xf5\xff".as_slice();
    assert!(rt; ser.into_inner().as_slice() == want);
    Ok(())
}

/// A serializer to a vector, which writes enums as arrays.
fn legacy(alloc: Global) -> Serializer<Vec<u8>> {
    Serializer::new(alloc, Vec::new(alloc)).legacy_enums()
}

/// The value is written as the first of these, and packed as the second.
fn is_written_in_each_form<T: Serialize>(
    rt: &impl Abort,
    alloc: Global,
    value: &T,
    (named, packed): (&[u8], &[u8]),
) -> Verdict {
    for (mut ser, bytes) in [
        (legacy(alloc), named),
        (legacy(alloc).packed_format(), packed),
    ] {
        value.serialize(&mut ser)?;
        assert!(rt; ser.into_inner().as_slice() == bytes);
    }
    Ok(())
}

// The settings reach what lists, maps, options and arrays hold.
#[test]
fn writes_enums_within_std_types_in_each_form(rt: HostRuntime) -> Verdict {
    let alloc = rt.alloc();
    let list = vec![in alloc; Color::Other(42), Color::Alpha(1, 9)]?;
    let mut map: BTreeMap<u8, Option<EachKind>> = BTreeMap::new(alloc);
    map.insert(1, Some(EachKind::Number(42)))?;
    map.insert(2, None)?;
    let named = b"\x83\x82\x82\x65Other\x18\x2a\x83\x65Alpha\x01\x09\
        \xa2\x01\x82\x66Number\x18\x2a\x02\xf6\x81\x65Empty";
    let packed = b"\x83\x82\x82\x01\x18\x2a\x83\x03\x01\x09\xa2\x01\x82\x01\x18\x2a\x02\xf6\x81\0";
    is_written_in_each_form(&rt, alloc, &(list, map, [EachKind::Empty]), (named, packed))
}

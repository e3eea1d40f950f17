//! Reads a list of small things of a type, or reads and writes it, as many times as standard input
//! says, to be measured. It prints how many bytes the last turn wrote.
#![tactic(auto)]

mod by_rules;
mod pieces;

use by_rules::of_rules;
use pieces::Sevens;
use samples::enums::Color;
use samples::structs::SmallStruct;
use serde_cbor::de::{
    BufferedRead, Deserialize, DeserializeOwned, Deserializer, InlineBlock, SliceRead,
};
use serde_cbor::ser::{BufferedWrite, IoWrite, Serialize, to_vec_packed};
use serde_cbor::{Result, from_reader, from_slice, to_io_writer, to_vec, to_writer};
use std::alloc::Global;
use std::io::{BufReader, BufWriter, Read, Write};
use std::process::ExitCode;

fn main(rt: HostRuntime) -> ExitCode {
    match answer_input(&rt) {
        Ok(Some(written)) => {
            let _ = println!(rt; "{written} bytes");
            ExitCode::SUCCESS
        }
        Ok(None) => ExitCode::from(2),
        Err(error) => {
            // Nothing is left to do where standard error fails as well.
            let _ = eprintln!(rt; "lists_bench: {error}");
            ExitCode::FAILURE
        }
    }
}

// Does what standard input asks for: one byte for what to do, one for how many times, one for the
// type, and then the item. Answers how many bytes were written; None where it asks for nothing that
// is known.
fn answer_input(rt: &HostRuntime) -> Result<Option<usize>> {
    let mut input = Vec::new(rt.alloc());
    rt.stdin().read_to_end(&mut input)?;
    let alloc = rt.alloc();
    match input.as_slice() {
        [task @ 0..=1, times, kind, item @ ..] => of_slice(alloc, *task == 1, *times, *kind, item),
        [task @ 2..=3, times, kind, item @ ..] => of_reader(alloc, *task, *times, *kind, item),
        [task @ 4..=6, times, kind, item @ ..] => of_block(alloc, *task, *times, *kind, item),
        [task @ 7..=9, times, kind, item @ ..] => of_rules(alloc, *task, *times, *kind, item),
        _ => Ok(None),
    }
}

// From a slice, and, where it writes, to a vector.
fn of_slice(
    alloc: Global,
    writes: bool,
    times: u8,
    kind: u8,
    item: &[u8],
) -> Result<Option<usize>> {
    match kind {
        b'b' => turns::<bool>(alloc, writes, times, item),
        b'o' => turns::<Option<u8>>(alloc, writes, times, item),
        b'i' => turns::<i64>(alloc, writes, times, item),
        b'u' => turns::<u32>(alloc, writes, times, item),
        b'c' => turns::<char>(alloc, writes, times, item),
        b's' => turns::<&str>(alloc, writes, times, item),
        b'S' => turns::<String>(alloc, writes, times, item),
        b'f' => turns::<f64>(alloc, writes, times, item),
        b't' => turns::<(u32, bool, String)>(alloc, writes, times, item),
        b'p' => turns::<SmallStruct>(alloc, writes, times, item),
        b'P' => packed_turns::<SmallStruct>(alloc, writes, times, item),
        b'e' => turns::<Color>(alloc, writes, times, item),
        b'E' => packed_turns::<Color>(alloc, writes, times, item),
        _ => Ok(None),
    }
}

fn turns<'a, T: Deserialize<'a, SliceRead<'a>> + Serialize>(
    alloc: Global,
    writes: bool,
    times: u8,
    item: &'a [u8],
) -> Result<Option<usize>> {
    let mut written = 0;
    'turns: for _ in 0..times {
        let list: Vec<T> = from_slice(alloc, item)?;
        if writes {
            let bytes = to_vec(alloc, &list)?;
            written = bytes.len();
        }
    }
    Ok(Some(written))
}

// The same, with fields and unit variants written by their numbers.
fn packed_turns<'a, T: Deserialize<'a, SliceRead<'a>> + Serialize>(
    alloc: Global,
    writes: bool,
    times: u8,
    item: &'a [u8],
) -> Result<Option<usize>> {
    let mut written = 0;
    'turns: for _ in 0..times {
        let list: Vec<T> = from_slice(alloc, item)?;
        if writes {
            let bytes = to_vec_packed(alloc, &list)?;
            written = bytes.len();
        }
    }
    Ok(Some(written))
}

// From a buffered reader (2), or from one that gives seven bytes a call (3).
fn of_reader(alloc: Global, task: u8, times: u8, kind: u8, item: &[u8]) -> Result<Option<usize>> {
    match kind {
        b'b' => reader_turns::<bool>(alloc, task, times, item),
        b'o' => reader_turns::<Option<u8>>(alloc, task, times, item),
        b'i' => reader_turns::<i64>(alloc, task, times, item),
        b'u' => reader_turns::<u32>(alloc, task, times, item),
        b'c' => reader_turns::<char>(alloc, task, times, item),
        b'S' => reader_turns::<String>(alloc, task, times, item),
        b'f' => reader_turns::<f64>(alloc, task, times, item),
        b't' => reader_turns::<(u32, bool, String)>(alloc, task, times, item),
        b'p' | b'P' => reader_turns::<SmallStruct>(alloc, task, times, item),
        b'e' | b'E' => reader_turns::<Color>(alloc, task, times, item),
        _ => Ok(None),
    }
}

fn reader_turns<'a, T>(alloc: Global, task: u8, times: u8, item: &'a [u8]) -> Result<Option<usize>>
where
    T: DeserializeOwned
        + Deserialize<'a, BufferedRead<BufReader<&'a [u8]>, InlineBlock>>
        + Deserialize<'a, BufferedRead<Sevens<'a>, InlineBlock>>,
{
    'turns: for _ in 0..times {
        if task == 2 {
            let _: Vec<T> = from_reader(alloc, BufReader::new(alloc, item)?)?;
        } else {
            let _: Vec<T> = from_reader(alloc, Sevens::new(item))?;
        }
    }
    Ok(Some(0))
}

// From a slice and to a buffered writer (4), from a reader that is read ahead (5), or from a slice
// and to a sink that holds a block (6).
fn of_block(alloc: Global, task: u8, times: u8, kind: u8, item: &[u8]) -> Result<Option<usize>> {
    match kind {
        b'b' => block_turns::<bool>(alloc, task, times, item),
        b'o' => block_turns::<Option<u8>>(alloc, task, times, item),
        b'i' => block_turns::<i64>(alloc, task, times, item),
        b'u' => block_turns::<u32>(alloc, task, times, item),
        b'c' => block_turns::<char>(alloc, task, times, item),
        b'S' => block_turns::<String>(alloc, task, times, item),
        b'f' => block_turns::<f64>(alloc, task, times, item),
        b't' => block_turns::<(u32, bool, String)>(alloc, task, times, item),
        b'p' => block_turns::<SmallStruct>(alloc, task, times, item),
        b'e' => block_turns::<Color>(alloc, task, times, item),
        _ => Ok(None),
    }
}

fn block_turns<'a, T>(alloc: Global, task: u8, times: u8, item: &'a [u8]) -> Result<Option<usize>>
where
    T: Serialize + Deserialize<'a, SliceRead<'a>> + Deserialize<'a, BufferedRead<&'a [u8]>>,
{
    let mut written = 0;
    'turns: for _ in 0..times {
        match task {
            4 => written = through_writer::<T>(alloc, item)?,
            5 => read_ahead::<T>(alloc, item)?,
            _ => written = in_blocks::<T>(alloc, item)?,
        }
    }
    Ok(Some(written))
}

fn through_writer<'a, T: Deserialize<'a, SliceRead<'a>> + Serialize>(
    alloc: Global,
    item: &'a [u8],
) -> Result<usize> {
    let list: Vec<T> = from_slice(alloc, item)?;
    let mut bytes = Vec::new(alloc);
    let mut writer = BufWriter::new(alloc, &mut bytes)?;
    to_io_writer(alloc, &mut writer, &list)?;
    writer.flush()?;
    drop(writer);
    Ok(bytes.len())
}

fn in_blocks<'a, T: Deserialize<'a, SliceRead<'a>> + Serialize>(
    alloc: Global,
    item: &'a [u8],
) -> Result<usize> {
    let list: Vec<T> = from_slice(alloc, item)?;
    let bytes: Vec<u8> = Vec::new(alloc);
    let mut sink = BufferedWrite::new(alloc, bytes)?;
    to_writer(alloc, &mut sink, &list)?;
    sink.flush()?;
    let (bytes, _unsent) = sink.into_inner();
    Ok(bytes.len())
}

fn read_ahead<'a, T: Deserialize<'a, BufferedRead<&'a [u8]>>>(
    alloc: Global,
    item: &'a [u8],
) -> Result<()> {
    let mut de = Deserializer::new(alloc, BufferedRead::new(alloc, item)?);
    let _list: Vec<T> = Vec::deserialize(&mut de)?;
    de.end()
}

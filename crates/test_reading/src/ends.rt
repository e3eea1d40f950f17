//! What follows an item, and how many bytes were taken.

use crate::checks::has_taken;
use cbor_de::{Deserializer, Offset, Source};
use cbor_io::error::Error;
use std::alloc::Global;
use std::process::Abort;
use std::test::Fail;
use test_checks::{Verdict, is_refused};

/// Each byte that is to come is reported with these words, and behind them is the end.
fn ends<R: Source + Drop>(de: &mut Deserializer<R>, words: &[&str]) -> Verdict {
    for byte in words {
        is_refused(de.end(), *byte)?;
    }
    de.end().map_err(|e: Error| Fail::from(e))
}

/// The same, and each byte is counted once it is taken.
fn counts<R: Source + Offset + Drop>(
    rt: &impl Abort,
    de: Deserializer<R>,
    words: &[&str],
) -> Verdict {
    let mut de = de;
    for (taken, byte) in words.iter().enumerate() {
        has_taken(rt, &de, taken);
        is_refused(de.end(), *byte)?;
    }
    has_taken(rt, &de, words.len());
    ends(&mut de, &[])
}

fn by_each(rt: &impl Abort, alloc: Global, bytes: &[u8], words: &[&str]) -> Verdict {
    counts(rt, Deserializer::from_slice(alloc, bytes), words)?;
    let mut scratch = [0; 4];
    let fixed = Deserializer::from_slice_with_scratch(alloc, bytes, &mut scratch);
    counts(rt, fixed, words)?;
    counts(rt, Deserializer::from_reader(alloc, bytes), words)?;
    let mut copy = Vec::from_slice(alloc, bytes)?;
    ends(&mut Deserializer::from_mut_slice(alloc, &mut copy), words)
}

#[test]
fn reports_and_counts_the_bytes_before_the_end(rt: HostRuntime) -> Verdict {
    let two: &[&str] = &["trailing data at offset 1", "trailing data at offset 2"];
    for (bytes, words) in [
        (&b""[..], &two[..0]),
        (b"\xf6", &two[..1]),
        (b"\xf6\xf6", two),
    ] {
        by_each(&rt, rt.alloc(), bytes, words)?;
    }
    Ok(())
}

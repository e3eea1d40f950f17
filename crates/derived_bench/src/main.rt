//! Reads a list of records as a derived type, or reads and writes it, as many times as standard
//! input says, to be measured: as `cbor_bench` does of a described one. It prints how many bytes
//! the last turn wrote. Or it reads an untagged enum that contains itself.
#![tactic(auto)]

use cbor_serde::{Result, from_slice, to_vec};
use serde::{Deserialize, Serialize};
use std::alloc::Global;
use std::io::Read;
use std::process::ExitCode;

/// A record of six fields.
#[derive(Drop, Serialize, Deserialize)]
struct Record {
    id: u32,
    name: String,
    email: String,
    created: u32,
    tags: Vec<String>,
    active: bool,
}

/// A number within maps of one pair, at each of which the first variant that has one reads all that
/// is within in vain.
#[derive(Drop, Deserialize)]
#[serde(untagged, recursive)]
enum Within {
    Number(u8),
    Named {
        #[serde(recursive)]
        inner: Box<Within>,
        name: u8,
    },
    Plain {
        #[serde(recursive)]
        inner: Box<Within>,
    },
}

const READ_RECORDS: u8 = 2;

const READ_AND_WRITE_RECORDS: u8 = 3;

const READ_UNTAGGED: u8 = 4;

fn main(rt: HostRuntime) -> ExitCode {
    match answer_input(&rt) {
        Ok(true) => ExitCode::SUCCESS,
        Ok(false) => ExitCode::from(2),
        Err(error) => {
            // Nothing is left to do where standard error fails as well.
            let _ = eprintln!(rt; "derived_bench: {error}");
            ExitCode::FAILURE
        }
    }
}

// Does what standard input asks for: one byte for what to do, one for how many times, and then the
// item. Answers false where it asks for nothing that is known.
fn answer_input(rt: &HostRuntime) -> Result<bool> {
    let mut input = Vec::new(rt.alloc());
    rt.stdin().read_to_end(&mut input)?;
    match input.as_slice() {
        [READ_RECORDS, times, item @ ..] => {
            'turns: for _ in 0..*times {
                let _records: Vec<Record> = from_slice(rt.alloc(), item)?;
            }
        }
        [READ_AND_WRITE_RECORDS, times, item @ ..] => {
            let mut written = 0;
            'turns: for _ in 0..*times {
                written = rewritten(rt.alloc(), item)?;
            }
            println!(rt; "{written} bytes")?;
        }
        [READ_UNTAGGED, times, item @ ..] => {
            'turns: for _ in 0..*times {
                let _within: Within = from_slice(rt.alloc(), item)?;
            }
        }
        _ => return Ok(false),
    }
    Ok(true)
}

// How many bytes are written of the records that the item is read as.
fn rewritten(alloc: Global, item: &[u8]) -> Result<usize> {
    let records: Vec<Record> = from_slice(alloc, item)?;
    let bytes = to_vec(alloc, &records)?;
    Ok(bytes.len())
}

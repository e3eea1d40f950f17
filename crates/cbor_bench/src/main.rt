//! Reads a CBOR item, or reads and writes it, as many times as standard input says, to be measured.
//! It prints what the last turn wrote, in hexadecimal, or of a long item how many bytes that were.
#![tactic(auto)]

mod record;
mod request;

use crate::request::Request;
use serde_cbor::Result;
use std::io::Read;
use std::process::ExitCode;

/// So many bytes are printed at the most.
const SHOWN: usize = 256;

fn main(rt: HostRuntime) -> ExitCode {
    match answer_input(&rt) {
        Ok(true) => ExitCode::SUCCESS,
        Ok(false) => ExitCode::from(2),
        Err(error) => {
            // Nothing is left to do where standard error fails as well.
            let _ = eprintln!(rt; "cbor_bench: {error}");
            ExitCode::FAILURE
        }
    }
}

// Does what standard input asks for, or answers false where it asks for nothing that is known.
fn answer_input(rt: &HostRuntime) -> Result<bool> {
    let mut input = Vec::new(rt.alloc());
    rt.stdin().read_to_end(&mut input)?;
    let Some(request) = Request::parse(&input) else {
        return Ok(false);
    };
    if let Some(written) = request.repeat(rt.alloc())? {
        show(rt, &written)?;
    }
    Ok(true)
}

// Prints these bytes, or how many they are.
fn show(rt: &HostRuntime, bytes: &[u8]) -> Result<()> {
    if bytes.len() > SHOWN {
        println!(rt; "{} bytes", bytes.len())?;
        return Ok(());
    }
    'bytes: for byte in bytes {
        print!(rt; "{byte:02x}")?;
    }
    println!(rt)?;
    Ok(())
}

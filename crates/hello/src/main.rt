//! Encodes an item canonically, and reads a pair.
#![tactic(auto)]

use serde_cbor::{Result, Value, from_slice, to_vec};
use std::process::ExitCode;

fn main(rt: HostRuntime) -> ExitCode {
    match print_bytes(&rt) {
        Ok(()) => ExitCode::SUCCESS,
        Err(error) => {
            let _ = eprintln!(rt; "hello: {error}");
            ExitCode::FAILURE
        }
    }
}

fn print_bytes(rt: &HostRuntime) -> Result<()> {
    let alloc = rt.alloc();
    // {2: 0, 1: 0}, of indefinite length
    let value: Value = from_slice(alloc, &[0xbf, 2, 0, 1, 0, 0xff])?;
    println!(rt; "{:?}", to_vec(alloc, &value)?.as_slice())?; // [162, 1, 0, 2, 0]

    let bytes = to_vec(alloc, &(80u16, "http"))?;
    let (port, name): (u16, &str) = from_slice(alloc, &bytes)?; // borrowed from the bytes
    println!(rt; "{name} {port}")?; // http 80
    Ok(())
}

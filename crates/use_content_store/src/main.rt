//! Opens the log whose path stands after its name, cuts it behind its whole records, and reads
//! lines `put HEX` and `get HEX`, each with the bytes of a value: says what the store answers.
#![tactic(auto)]

mod log;
mod store;
#[cfg(test)]
mod tests;

use crate::log::{OpenError, Opened, open};
use crate::store::{Put, Store};
use serde_cbor::error::{Error, Result};
use serde_cbor::to_vec;
use serde_cbor::write::IoWrite;
use std::alloc::{AllocError, Global};
use std::env;
use std::fs::{File, OpenOptions};
use std::io::BufReader;

fn main(rt: HostRuntime) -> Result<()> {
    let alloc = rt.alloc();
    let Some(path) = env::args(&rt)?.nth(1) else {
        return Err(Error::message(alloc, "wants the path of a log"));
    };
    let file = OpenOptions::new().read(true).append(true).open(&rt, &path)?;
    let Opened { mut store, whole } = match open(alloc, BufReader::new(alloc, &file)?) {
        Ok(opened) => opened,
        Err(OpenError::Broken { error, .. }) => return Err(error),
        Err(OpenError::Collision { .. }) => return Err(Error::message(alloc, "hashes collide")),
    };
    let size = file.metadata()?.len();
    println!(rt; "{whole} of {size} bytes are whole records")?;
    file.set_len(whole as u64)?;
    let mut log = IoWrite::new(file);
    for line in rt.lines(alloc) {
        match answer(alloc, &mut store, &mut log, line?.as_str()) {
            Ok(text) => println!(rt; "{text}")?,
            // A log that may end within a record isn't appended to.
            Err(error) if error.is_io() => return Err(error),
            Err(error) => println!(rt; "refused: {error}")?,
        }
    }
    Ok(())
}

fn answer(alloc: Global, store: &mut Store, log: &mut IoWrite<File>, line: &str) -> Result<String> {
    Ok(match line.split_once(' ') {
        Some(("put", digits)) => match store.append(alloc, log, &bytes_of(alloc, digits)?)? {
            Put::Stored => "stored".to_owned(alloc)?,
            Put::Collision => "another value has this hash".to_owned(alloc)?,
        },
        Some(("get", digits)) => match store.get(alloc, &bytes_of(alloc, digits)?)? {
            Some(value) => hex::encode(alloc, to_vec(alloc, &value)?)?,
            None => "not here".to_owned(alloc)?,
        },
        _ => "put HEX, or get HEX".to_owned(alloc)?,
    })
}

fn bytes_of(alloc: Global, digits: &str) -> Result<Vec<u8>> {
    match hex::decode(alloc, digits) {
        Ok(bytes) => Ok(bytes),
        Err(hex::FromHexError::OutOfMemory) => Err(AllocError.into()),
        Err(_) => Err(Error::message(alloc, "not hexadecimal")),
    }
}

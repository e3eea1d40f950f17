//! Reads lines of hexadecimal, opens each as a signed record, and prints its payload or why it is
//! refused. The check is HMAC with SHA-256, as the kit has no ECDSA: put your library's in its
//! place.
#![tactic(auto)]

mod record;

use crate::record::open;
use sha2::{Digest, Sha256};
use std::io;
use std::process::ExitCode;

/// HMAC with SHA-256, of 32 bytes (RFC 9053, section 3.1).
const HMAC_256: i128 = 5;

const KEY: [u8; 32] = *b"a key that both sides have, 32 B";

fn main(rt: HostRuntime) -> ExitCode {
    match open_lines(&rt) {
        Ok(()) => ExitCode::SUCCESS,
        Err(error) => {
            let _ = eprintln!(rt; "use_signed_record: {error}");
            ExitCode::FAILURE
        }
    }
}

fn open_lines(rt: &HostRuntime) -> io::Result<()> {
    for line in rt.lines(rt.alloc()) {
        match hex::decode(rt.alloc(), line?.as_str()) {
            Ok(input) => print_opened(rt, &input)?,
            Err(error) => println!(rt; "refused: {error}")?,
        }
    }
    Ok(())
}

fn print_opened(rt: &HostRuntime, input: &[u8]) -> io::Result<()> {
    let is_valid = |signed: &[u8], signature: &[u8]| hmac_sha256(&KEY, signed).as_slice()
        == signature;
    match open(rt.alloc(), input, HMAC_256, is_valid) {
        Ok(record) => match std::str::from_utf8(&record.payload) {
            Ok(text) => println!(rt; "signed: {text}"),
            Err(_) => println!(rt; "signed: {} bytes", record.payload.len()),
        },
        Err(error) => println!(rt; "refused: {error}"),
    }
}

// RFC 2104, where the key is shorter than a block of 64 bytes.
fn hmac_sha256(key: &[u8; 32], message: &[u8]) -> [u8; 32] {
    let mut inner = [0x36u8; 64];
    let mut outer = [0x5cu8; 64];
    for (i, byte) in key.iter().enumerate() {
        inner[i] ^= *byte;
        outer[i] ^= *byte;
    }
    let mut hasher = Sha256::new();
    hasher.update(inner.as_slice());
    hasher.update(message);
    let digest = hasher.finalize();
    let mut hasher = Sha256::new();
    hasher.update(outer.as_slice());
    hasher.update(digest.as_slice());
    hasher.finalize()
}

//! Encodes a type that derives the kit's `serde`, and reads it.
#![tactic(auto)]

mod by_hand;

use crate::by_hand::{Hundredths, temperature};
use cbor_serde::{Result, from_slice, to_vec};
use serde::{Deserialize, Serialize};
use std::process::ExitCode;

#[derive(Debug, Drop, Serialize, Deserialize)]
struct User {
    user_id: u32,
    admin: bool,
}

fn print_user(rt: &HostRuntime) -> Result<()> {
    let alloc = rt.alloc();
    let user = User {
        user_id: 7,
        admin: true,
    };
    let bytes = to_vec(alloc, &user)?; // {"user_id": 7, "admin": true}
    let read: User = from_slice(alloc, &bytes)?;
    println!(rt; "{} bytes: {read:?}", bytes.len())?;
    Ok(())
}

fn print_temperature(rt: &HostRuntime) -> Result<()> {
    let alloc = rt.alloc();
    let bytes = to_vec(alloc, &Hundredths(-1850))?;
    let read = temperature(alloc, &bytes)?;
    println!(rt; "{} bytes: {read:?}", bytes.len())?;
    Ok(())
}

fn print_both(rt: &HostRuntime) -> Result<()> {
    print_user(rt)?;
    print_temperature(rt)
}

fn main(rt: HostRuntime) -> ExitCode {
    match print_both(&rt) {
        Ok(()) => ExitCode::SUCCESS,
        Err(error) => {
            let _ = eprintln!(rt; "hello_derive: {error}");
            ExitCode::FAILURE
        }
    }
}

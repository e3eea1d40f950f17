//! Serves the requests on standard input, a stream of CBOR items in hexadecimal, and prints the
//! replies as a client reads them.
#![tactic(auto)]

mod messages;
mod service;

use hex::FromHexError;
use messages::Reply;
use serde_cbor::{Deserializer, Result};
use service::{Stopped, serve};
use std::alloc::{AllocError, Global};
use std::io::Read;
use std::process::ExitCode;

fn main(rt: HostRuntime) -> ExitCode {
    match answer_input(&rt) {
        Ok(()) => ExitCode::SUCCESS,
        Err(error) => {
            let _ = eprintln!(rt; "use_messages: {error}");
            ExitCode::FAILURE
        }
    }
}

fn answer_input(rt: &HostRuntime) -> Result<()> {
    let alloc = rt.alloc();
    let mut text = String::new(alloc);
    rt.stdin().read_to_string(&mut text)?;
    let Some(requests) = decode(alloc, text.trim())? else {
        println!(rt; "not hexadecimal")?;
        return Ok(());
    };
    let mut replies = Vec::new(alloc);
    let served = serve(alloc, requests.as_slice(), &mut replies);
    for reply in Deserializer::from_slice(alloc, &replies).into_iter::<Reply>() {
        println!(rt; "{:?}", reply?)?;
    }
    match served {
        Ok(()) => println!(rt; "served all")?,
        Err(Stopped::Broken { at, error }) => println!(rt; "broken from byte {at} on: {error}")?,
        Err(Stopped::Unsent(error)) => println!(rt; "no reply sent: {error}")?,
    }
    Ok(())
}

// The bytes of which the text is the hexadecimal, if it is one.
fn decode(alloc: Global, text: &str) -> Result<Option<Vec<u8>>> {
    match hex::decode(alloc, text.as_bytes()) {
        Ok(bytes) => Ok(Some(bytes)),
        Err(FromHexError::OutOfMemory) => Err(AllocError.into()),
        Err(_) => Ok(None),
    }
}

//! Tells a device its configuration: each line of standard input is one, in hexadecimal. Prints
//! what the device runs by after each, and what it saves at the end.
#![tactic(auto)]

mod config;
mod device;

use device::Device;
use hex::FromHexError;
use serde_cbor::Result;
use std::alloc::AllocError;

fn main(rt: HostRuntime) -> Result<()> {
    let alloc = rt.alloc();
    let mut device = Device::new(alloc);
    // As many bytes of a text in chunks are joined.
    let mut scratch = [0; 16];
    for line in rt.lines(alloc) {
        let bytes = match hex::decode(alloc, line?.as_bytes()) {
            Ok(bytes) => bytes,
            Err(FromHexError::OutOfMemory) => return Err(AllocError.into()),
            Err(_) => {
                println!(rt; "not hexadecimal")?;
                continue;
            }
        };
        if let Err(error) = device.update(alloc, &bytes, &mut scratch) {
            println!(rt; "refused: {error}")?;
        }
        println!(rt; "{:?}", device.config)?;
    }
    println!(rt; "saves {}", hex::encode(alloc, &device.save(alloc)?)?)?;
    println!(rt; "a copy: {:?}", device.copy(alloc)?.config)?;
    Ok(())
}

//! Writes and reads the types of `own_types`, and prints what became of them.
#![tactic(auto)]

use own_types::by_hand::{Bar, Point};
use own_types::records::{Label, Metres, Pair, Reading, Settings};
use own_types::shapes::Shape;
use own_types::user::User;
use serde_cbor::bytes::ByteArray;
use serde_cbor::ser::to_vec_packed;
use serde_cbor::{Result, from_reader, from_slice, to_vec};
use std::process::ExitCode;

fn main(rt: HostRuntime) -> ExitCode {
    match print_all(&rt) {
        Ok(()) => ExitCode::SUCCESS,
        Err(error) => {
            let _ = eprintln!(rt; "use_own_types: {error}");
            ExitCode::FAILURE
        }
    }
}

fn print_all(rt: &HostRuntime) -> Result<()> {
    print_user(rt)?;
    print_shape(rt)?;
    print_reading(rt)?;
    print_settings(rt)?;
    print_label(rt)?;
    print_pair(rt)?;
    print_metres(rt)?;
    print_bar(rt)
}

fn print_user(rt: &HostRuntime) -> Result<()> {
    let alloc = rt.alloc();
    let user = User {
        user_id: 10,
        admin: true,
    };
    let named = to_vec(alloc, &user)?;
    println!(rt; "{:?}", named.as_slice())?;
    let packed = to_vec_packed(alloc, &user)?;
    println!(rt; "{:?}", packed.as_slice())?;
    for bytes in [&named, &packed] {
        let read: User = from_reader(alloc, bytes.as_slice())?;
        println!(rt; "{read:?}")?;
    }
    Ok(())
}

fn print_shape(rt: &HostRuntime) -> Result<()> {
    let alloc = rt.alloc();
    let square = Shape::Square {
        side: 3,
        filled: true,
    };
    let bytes = to_vec(alloc, &square)?;
    println!(rt; "{:?}", bytes.as_slice())?;
    let read: Shape = from_slice(alloc, bytes.as_slice())?;
    println!(rt; "{read:?}")?;
    let circle: Shape = from_slice(alloc, b"\x82\x01\x18\x2a")?;
    println!(rt; "{circle:?}")?;
    for bytes in [
        b"\x67Nothing".as_slice(),
        b"\xa1\x66Circle\x18\x2a",
        b"\xa1\x64Line\x82\x01\x02",
    ] {
        let shape: Shape = from_slice(alloc, bytes)?;
        println!(rt; "{shape:?}")?;
        println!(rt; "{:?}", to_vec(alloc, &shape)?.as_slice())?;
    }
    Ok(())
}

fn print_reading(rt: &HostRuntime) -> Result<()> {
    let alloc = rt.alloc();
    let reading = Reading {
        sensor: ByteArray::new([1, 2, 3, 4]),
        degrees: 21.5,
    };
    let bytes = to_vec(alloc, &reading)?;
    println!(rt; "{:?}", bytes.as_slice())?;
    let read: Reading = from_slice(alloc, bytes.as_slice())?;
    println!(rt; "{read:?}")?;
    Ok(())
}

fn print_settings(rt: &HostRuntime) -> Result<()> {
    let alloc = rt.alloc();
    let given: Settings = from_slice(
        alloc,
        b"\xa3\x65limit\x09\x64port\x19\x1f\x90\x67verbose\xf5",
    )?;
    println!(rt; "{given:?}")?;
    println!(rt; "{:?}", to_vec_packed(alloc, &given)?.as_slice())?;
    let absent: Settings = from_slice(alloc, b"\xa1\x64port\x19\x1f\x90")?;
    println!(rt; "{absent:?}")?;
    println!(rt; "{:?}", to_vec_packed(alloc, &absent)?.as_slice())?;
    Ok(())
}

// The name is borrowed from the bytes, and so none is read from a reader.
fn print_label(rt: &HostRuntime) -> Result<()> {
    let label: Label = from_slice(rt.alloc(), b"\xa2\x64size\x07\x64name\x62ab")?;
    println!(rt; "{label:?}")?;
    Ok(())
}

fn print_pair(rt: &HostRuntime) -> Result<()> {
    let alloc = rt.alloc();
    let bytes = to_vec(
        alloc,
        &Pair {
            first: 1u8,
            second: 2u8,
        },
    )?;
    let read: Pair<u64> = from_slice(alloc, bytes.as_slice())?;
    println!(rt; "{read:?}")?;
    Ok(())
}

fn print_metres(rt: &HostRuntime) -> Result<()> {
    let alloc = rt.alloc();
    let bytes = to_vec(alloc, &Metres(500))?;
    println!(rt; "{:?}", bytes.as_slice())?;
    let read: Metres = from_slice(alloc, bytes.as_slice())?;
    println!(rt; "{read:?}")?;
    Ok(())
}

fn print_bar(rt: &HostRuntime) -> Result<()> {
    let alloc = rt.alloc();
    let point: Bar = from_slice(alloc, b"\xa1\x65Point\xa2\x61y\x24\x61x\x05")?;
    println!(rt; "{point:?}")?;
    let flag: Bar = from_slice(alloc, b"\x83\x02\x62ab\xf5")?;
    println!(rt; "{flag:?}")?;
    let written = to_vec(alloc, &Point { x: 5, y: -5 })?;
    println!(rt; "{:?}", written.as_slice())?;
    Ok(())
}

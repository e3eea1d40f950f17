//! What holds an input or an output is printed as where it stands, with no byte of what it holds.

use cbor_io::write::{IoWrite, SliceWrite, Write};
use cbor_read::{IoRead, MutSliceRead, SliceRead, SliceReadFixed, Source, VecRead};
use std::process::Abort;
use test_checks::Verdict;

#[test]
fn sources_print_no_bytes(rt: HostRuntime) -> Verdict {
    let alloc = rt.alloc();
    let mut source = SliceRead::new(alloc, b"\x61a\x61b");
    source.next()?;
    let text = format!(in alloc; "{source:?}")?;
    assert!(rt; text.as_str() == "SliceRead { offset: 1, remaining: 3, .. }");

    let mut scratch = [0; 2];
    let mut source = SliceReadFixed::new(b"\x61a", &mut scratch);
    source.next()?;
    let text = format!(in alloc; "{source:?}")?;
    assert!(rt; text.as_str() == "SliceReadFixed { offset: 1, remaining: 1, .. }");

    let mut bytes = *b"\x61a";
    let mut source = MutSliceRead::new(&mut bytes);
    source.next()?;
    let text = format!(in alloc; "{source:?}")?;
    assert!(rt; text.as_str() == "MutSliceRead { offset: 1, remaining: 1, .. }");

    let mut source = VecRead::new(alloc, b"\x61a".to_vec(alloc)?);
    source.next()?;
    let text = format!(in alloc; "{source:?}")?;
    assert!(rt; text.as_str() == "VecRead { offset: 1, remaining: 1, .. }");

    let mut source = IoRead::new(alloc, b"\x61a".as_slice());
    source.next()?;
    let text = format!(in alloc; "{source:?}")?;
    assert!(rt; text.as_str() == "IoRead { offset: 1, .. }");
    Ok(())
}

#[test]
fn sinks_print_no_bytes(rt: HostRuntime) -> Verdict {
    let alloc = rt.alloc();
    let mut room = [7; 3];
    let mut sink = SliceWrite::new(&mut room);
    sink.write_all(b"\x66")?;
    let text = format!(in alloc; "{sink:?}")?;
    assert!(rt; text.as_str() == "SliceWrite { bytes_written: 1, remaining: 2, .. }");

    let mut bytes = Vec::new(alloc);
    let sink = IoWrite::new(&mut bytes);
    let text = format!(in alloc; "{sink:?}")?;
    assert!(rt; text.as_str() == "IoWrite { .. }");
    Ok(())
}

// Floats of RFC 7049, Appendix A, in their own width and in the shortest.

use crate::checks::{is_written, is_written_with};
use cbor_serde::Options;
use test_checks::Verdict;

#[test]
fn keeps_their_width(rt: HostRuntime) -> Verdict {
    let doubles: [(f64, &[u8]); 2] = [
        (1.1, b"\xfb\x3f\xf1\x99\x99\x99\x99\x99\x9a"),
        (f64::INFINITY, b"\xfb\x7f\xf0\0\0\0\0\0\0"),
    ];
    for (number, bytes) in &doubles {
        is_written(&rt, rt.alloc(), number, bytes)?;
    }
    is_written(&rt, rt.alloc(), &f32::NEG_INFINITY, b"\xfa\xff\x80\0\0")
}

#[test]
fn shortens_them(rt: HostRuntime) -> Verdict {
    let shortest: [(f64, &[u8]); 8] = [
        (1.5, b"\xf9\x3e\0"),
        (65504.0, b"\xf9\x7b\xff"),
        (100000.0, b"\xfa\x47\xc3\x50\0"),
        (5.960464477539063e-8, b"\xf9\0\x01"),
        (1.1, b"\xfb\x3f\xf1\x99\x99\x99\x99\x99\x9a"),
        (f64::INFINITY, b"\xf9\x7c\0"),
        (f64::NAN, b"\xf9\x7e\0"),
        (-0.0, b"\xf9\x80\0"),
    ];
    let options = Options::new().shortest_floats();
    for (number, bytes) in &shortest {
        is_written_with(&rt, options, rt.alloc(), number, bytes)?;
    }
    Ok(())
}

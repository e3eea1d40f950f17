//! Escapes, layouts, and what takes no memory.

use crate::checks::{is_shown, is_shown_pretty};
use test_checks::Verdict;

#[test]
fn escapes_as_json_does(rt: HostRuntime) -> Verdict {
    let alloc = rt.alloc();
    is_shown(&rt, alloc, "67225c080a0c0d09", r#""\"\\\b\n\f\r\t""#)?;
    is_shown(&rt, alloc, "6500011b1f20", r#""\u0000\u0001\u001b\u001f ""#)?;
    // DEL, and the controls of two bytes up to U+009F
    is_shown(&rt, alloc, "667e7fc280c29f", r#""~\u007f\u0080\u009f""#)?;
    is_shown(&rt, alloc, "63c2a02f", "\"\u{a0}/\"")
}

#[test]
fn shows_lines(rt: HostRuntime) -> Verdict {
    let alloc = rt.alloc();
    is_shown_pretty(&rt, alloc, "80", "[]")?;
    is_shown_pretty(&rt, alloc, "a0", "{}")?;
    is_shown_pretty(&rt, alloc, "01", "1")?;
    is_shown_pretty(&rt, alloc, "820180", "[\n  1,\n  []\n]")?;
    is_shown_pretty(
        &rt,
        alloc,
        "a2016161038102",
        "{\n  1: \"a\",\n  3: [\n    2\n  ]\n}",
    )?;
    is_shown_pretty(&rt, alloc, "c2820102", "2([\n  1,\n  2\n])")
}

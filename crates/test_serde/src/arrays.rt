// Structs as arrays, and names that are integers.

use crate::checks::{is_refused_at, is_written_with};
use cbor_serde::{Options, to_vec_with};
use serde::{Described, Serialize, Serializer};
use std::alloc::Global;
use std::collections::BTreeMap;
use std::process::Abort;
use test_checks::Verdict;

// Which options are asked for.
#[derive(Clone, Copy)]
enum With {
    Nothing,
    Arrays,
    IntegerKeys,
    Both,
}

fn options_of(with: With) -> Options {
    match with {
        With::Nothing => Options::new(),
        With::Arrays => Options::new().structs_as_arrays(),
        With::IntegerKeys => Options::new().integer_keys(),
        With::Both => Options::new().structs_as_arrays().integer_keys(),
    }
}

// Two fields of these names, in a map of this length, the second perhaps flattened.
#[derive(Clone, Copy)]
struct Fields {
    names: (&'static str, &'static str),
    len: Option<usize>,
    flattens: bool,
}

impl Described for Fields {}

impl Serialize for Fields {
    fn serialize<S: Serializer>(&self, out: &mut S) -> Result<(), S::Error> {
        out.begin_map(self.len)?;
        out.key(self.names.0)?;
        out.u64(1)?;
        if self.flattens {
            out.flatten_next()?;
            return out.unit();
        }
        out.key(self.names.1)?;
        out.begin_map(Some(0))?;
        out.end_map()?;
        out.end_map()
    }
}

const PLAIN: Fields = Fields {
    names: ("a", "b"),
    len: Some(2),
    flattens: false,
};

const OPEN: Fields = Fields { len: None, ..PLAIN };

const HEADER: Fields = Fields {
    names: ("1", "-1"),
    ..PLAIN
};

const FLAT: Fields = Fields {
    flattens: true,
    ..PLAIN
};

const SHORT: Fields = Fields {
    len: Some(3),
    ..PLAIN
};

const LONG: Fields = Fields {
    len: Some(1),
    ..PLAIN
};

/// The fields are written as these bytes by those options.
fn all_are_written(rt: &impl Abort, alloc: Global, rows: &[(With, Fields, &[u8])]) -> Verdict {
    for (with, fields, bytes) in rows {
        is_written_with(rt, options_of(*with), alloc, fields, bytes)?;
    }
    Ok(())
}

const WITHOUT_NAMES: &[(With, Fields, &[u8])] = &[
    (With::Arrays, PLAIN, b"\x82\x01\xa0"),
    (With::Arrays, OPEN, b"\x9f\x01\xa0\xff"),
    (With::Arrays, HEADER, b"\x82\x01\xa0"),
];

#[test]
fn writes_fields_without_names(rt: HostRuntime) -> Verdict {
    all_are_written(&rt, rt.alloc(), WITHOUT_NAMES)
}

const MAPS: &[(With, Fields, &[u8])] = &[
    (With::Nothing, PLAIN, b"\xa2\x61a\x01\x61b\xa0"),
    (With::Both, HEADER, b"\xa2\x01\x01\x20\xa0"),
];

#[test]
fn keeps_maps(rt: HostRuntime) -> Verdict {
    let alloc = rt.alloc();
    all_are_written(&rt, alloc, MAPS)?;
    let mut map = BTreeMap::new(alloc);
    map.insert(1u8, 2u8)?;
    is_written_with(&rt, options_of(With::Arrays), alloc, &map, b"\xa1\x01\x02")
}

const NO_ARRAYS: &[(Fields, &str)] = &[
    (FLAT, "a flattened field has no place in an array"),
    (SHORT, "fewer items than the length that was declared"),
    (LONG, "more items than the length that was declared"),
];

#[test]
fn refuses_what_is_no_array(rt: HostRuntime) -> Verdict {
    for (row, (fields, words)) in NO_ARRAYS.iter().enumerate() {
        let answer = to_vec_with(options_of(With::Arrays), rt.alloc(), fields);
        is_refused_at(row, answer, words)?;
    }
    Ok(())
}

// A variant alone, and one that holds something.
#[derive(Clone, Copy)]
struct Variants;

impl Described for Variants {}

impl Serialize for Variants {
    fn serialize<S: Serializer>(&self, out: &mut S) -> Result<(), S::Error> {
        out.begin_map(Some(1))?;
        out.variant_key("-7", serde::Case::AsIs)?;
        out.str_cased("x", serde::Case::AsIs)?;
        out.end_map()
    }
}

const NAMED: &[(With, &[u8])] = &[
    (With::IntegerKeys, b"\xa1\x26\x61x"),
    (With::Nothing, b"\xa1\x62-7\x61x"),
];

#[test]
fn names_variants_by_integers(rt: HostRuntime) -> Verdict {
    for (with, bytes) in NAMED {
        is_written_with(&rt, options_of(*with), rt.alloc(), &Variants, bytes)?;
    }
    Ok(())
}

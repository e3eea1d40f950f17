//! Tags of a list, over the tagged examples of RFC 8949, Appendix A, and what is printed.

use crate::checks::has_tags;
use cbor_io::error::{Error, ErrorCode};
use cbor_rules::{Departure, Refusal, Rule};
use std::fmt::InlineText;
use std::process::Abort;
use test_checks::Verdict;

const TIME: &[u8] = b"\xc1\x1a\x51\x4b\x67\xb0";

const ENCODED: &[u8] = b"\xd8\x18\x45\x64IETF";

// 32, and within it 1
const NESTED: &[u8] = b"\xa1\x61a\xd8\x20\x81\xc1\0";

// Tags, bytes, and where these have another tag first, if they have.
const TAGGED: &[(&[u64], &[u8], Option<u64>)] = &[
    (&[0, 1, 23, 24], TIME, None),
    (&[0, 1, 23, 24], b"\xd7\x44\x01\x02\x03\x04", None),
    (&[0, 1, 23, 24], ENCODED, None),
    (
        &[0, 1, 23, 24],
        b"\xd8\x20\x76http://www.example.com",
        Some(2),
    ),
    (&[], TIME, Some(1)),
    (&[32], ENCODED, Some(2)),
    (&[1, 32], NESTED, None),
    (&[32], NESTED, Some(7)),
    // an integer, a length and a count of 6 are no tag
    (&[], b"\x82\x06\x46abcdef", None),
];

#[test]
fn reads_tags_of_the_list_alone(rt: HostRuntime) -> Verdict {
    for (tags, bytes, another) in TAGGED {
        has_tags(&rt, rt.alloc(), tags, bytes, *another)?;
    }
    Ok(())
}

// What is printed of a departure at offset 3.
const PRINTED: &[(Rule, &str)] = &[
    (Rule::ShortestHeads, "head not the shortest at offset 3"),
    (Rule::DefiniteLengths, "indefinite length at offset 3"),
    (Rule::PlainKeys, "array, map or tag as a key at offset 3"),
    (Rule::AscendingKeys, "key out of order at offset 3"),
    (Rule::UniqueKeys, "duplicate key at offset 3"),
    (Rule::ReducedNumbers, "number not reduced at offset 3"),
    (Rule::ShortestFloats, "float not the shortest at offset 3"),
    (Rule::OneNan, "NaN other than f97e00 at offset 3"),
    (Rule::NoUndefined, "undefined at offset 3"),
    (Rule::NoTags, "tag not allowed at offset 3"),
    (Rule::MostItems, "array too long at offset 3"),
    (Rule::MostPairs, "map too long at offset 3"),
    (Rule::MostBytes, "string too long at offset 3"),
];

/// It is printed so.
fn is_printed(rt: &impl Abort, refusal: &Refusal, text: &str) {
    assert!(rt; InlineText::<64>::of(refusal).as_str() == text);
}

#[test]
fn prints_departures(rt: HostRuntime) -> Verdict {
    for (rule, text) in PRINTED {
        let departure = Departure {
            rule: *rule,
            offset: 3,
        };
        assert!(rt; InlineText::<64>::of(&departure).as_str() == *text);
        is_printed(&rt, &Refusal::Departs(departure), text);
    }
    let unread = Refusal::Unread(Error::at(ErrorCode::TrailingData, 2));
    is_printed(&rt, &unread, "trailing data at offset 2");
    Ok(())
}

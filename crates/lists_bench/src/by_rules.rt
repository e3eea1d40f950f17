//! Reading strictly, and by rules.

use samples::structs::SmallStruct;
use serde_cbor::de::{Deserialize, SliceRead};
use serde_cbor::rules::{Refusal, Rules, from_slice_with};
use serde_cbor::{Result, from_slice_canonical_as};
use std::alloc::Global;

// Strictly (7), by the canonical rules (8), or by the rule of unique keys (9).
pub fn of_rules(
    alloc: Global,
    task: u8,
    times: u8,
    kind: u8,
    item: &[u8],
) -> Result<Option<usize>> {
    match kind {
        b'u' => turns::<u32>(alloc, task, times, item),
        b'S' => turns::<String>(alloc, task, times, item),
        b't' => turns::<(u32, bool, String)>(alloc, task, times, item),
        b'p' => turns::<SmallStruct>(alloc, task, times, item),
        _ => Ok(None),
    }
}

// None where the item departs.
fn turns<'a, T: Deserialize<'a, SliceRead<'a>>>(
    alloc: Global,
    task: u8,
    times: u8,
    item: &'a [u8],
) -> Result<Option<usize>> {
    'turns: for _ in 0..times {
        if task == 7 {
            let _: Vec<T> = from_slice_canonical_as(alloc, item)?;
            continue;
        }
        let rules = if task == 8 {
            Rules::CANONICAL
        } else {
            Rules::UNIQUE_KEYS
        };
        match from_slice_with::<Vec<T>>(alloc, item, rules) {
            Ok(_) => {}
            Err(Refusal::Unread(error)) => return Err(error),
            Err(Refusal::Departs(_)) => return Ok(None),
        }
    }
    Ok(Some(0))
}

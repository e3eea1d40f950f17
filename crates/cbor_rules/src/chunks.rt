//! Going through the chunks of a string.

ghost use Rattle.std.specs.Prelude.{◌≡◌, ◌+◌, ◌<◌, ◌^◌, ℕ, List, length};
ghost use Rattle.cbor_rules.specs.Rules.{under};
ghost use Rattle.cbor_rules.specs.Walk as model;
ghost use Rattle.cbor_rules.specs.Walk.{chunk_content, chunk_walk, chunks_walk, departure_from};
ghost use Rattle.cbor_rules.specs.Walks.{chunk_view, HadMemory, IsChunkWithin, IsWithin, Walks};

use crate::heads::{broken_by_number, exceeds};
use crate::settings::{Rule, Rules};
use crate::walk::{Walk, behind, number};

/// Goes past the chunks of a string of this major type up to a break, and past n at the most.
pub(crate) fn chunks(rules: &Rules, tags: &[u64], major: u8, n: u64, bytes: &[u8]) -> Walk
    ensures walks { let sought = departure_from (under rules.now tags.now) in
        Walks bytes.now (λ fuel. chunks_walk sought major n 0) result }
    ensures within { IsWithin (length bytes.now) result }
    ensures memory { HadMemory result }
{
    let mut rest = bytes;
    let mut sum = 0;
    for _i in 0..n {
        match chunk(rules, tags, major, sum, rest) {
            Ok((longer, left)) => {
                sum = longer;
                rest = behind(rest, left);
            }
            Err(walk) => return walk,
        }
    }
    Walk::Stopped
}

/// Goes past a chunk after chunks of so many bytes: how many they are with it, and how many are
/// left behind it. Where it is none, or departs, what came of it.
fn chunk(
    rules: &Rules,
    tags: &[u64],
    major: u8,
    sum: u64,
    bytes: &[u8],
) -> Result<(u64, usize), Walk>
    requires { sum + length bytes.now < 2 ^ 64 }
    ensures walks { (go : ℕ → List ℕ → model.Walk)
        → chunk_walk (departure_from (under rules.now tags.now)) major sum go bytes.now
        ≡ chunk_view go bytes.now result }
    ensures within { IsChunkWithin sum (length bytes.now) result }
{
    match bytes.split_first() {
        Some((first, rest)) => {
            if *first == 0xff {
                Err(Walk::Passed(rest.len()))
            } else {
                chunk_content(rules, tags, major, *first % 32, sum, rest)
            }
        }
        None => Err(Walk::Stopped),
    }
}

/// Goes past what follows the first byte of a chunk, likewise.
fn chunk_content(
    rules: &Rules,
    tags: &[u64],
    major: u8,
    low: u8,
    sum: u64,
    bytes: &[u8],
) -> Result<(u64, usize), Walk>
    requires { sum + length bytes.now < 2 ^ 64 }
    ensures walks { (go : ℕ → List ℕ → model.Walk)
        → chunk_content (departure_from (under rules.now tags.now)) major low sum go bytes.now
        ≡ chunk_view go bytes.now result }
    ensures within { IsChunkWithin sum (length bytes.now) result }
{
    let Some((n, left)) = number(low, bytes) else {
        return Err(Walk::Stopped);
    };
    if let Some(rule) = broken_by_number(rules, tags, major, low, n) {
        return Err(Walk::Departed(rule, left));
    }
    if (left as u64) < n {
        return Err(Walk::Stopped);
    }
    if exceeds(rules.most_bytes, sum + n) {
        return Err(Walk::Departed(Rule::MostBytes, left));
    }
    Ok((sum + n, left - n as usize))
}

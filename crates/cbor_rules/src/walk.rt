//! Going through the bytes of an item up to its first departure from the rules.
//!
//! Nothing is kept of the item but, where each value may be a key once, what tells the keys of a
//! map apart: other rules take no memory. A string is passed in one step, and the key of a pair is
//! compared with the one before it by the bytes of both.

ghost use Rattle.std.specs.Prelude.{◌≡◌, ◌&&◌, ◌-◌, ◌/◌, ◌%◌, ◌<◌, ◌≤◌, ◌++◌, ℕ, List, [], length};
ghost use Rattle.std.specs.Prelude.{take, IsTrue, Some, IfErr, IfOk, IfSome, MatchOption, OnErr};
ghost use Rattle.std.specs.Prelude.{if◌then◌else◌, true};
ghost use Rattle.cbor_model.specs.Raw.{Raw, IsWellFormed, half, single, double, undefined_item};
ghost use Rattle.cbor_model.specs.Spelling.{spell};
ghost use Rattle.cbor_rules.specs.Features.{simple_item};
ghost use Rattle.cbor_io.specs.Error.{IsOutOfMemory};
ghost use Rattle.cbor_rules.specs.Rules.{broken, first_departure, is_unique, only, under};
ghost use Rattle.cbor_rules.specs.Walk.{all_walk, content_walk, float_walk, head_walk, inside_walk};
ghost use Rattle.cbor_rules.specs.Walk.{is_break, indefinite_walk, open_walk, pairs_walk};
ghost use Rattle.cbor_rules.specs.Walk.{past, simple_walk, walk};
ghost use Rattle.cbor_rules.specs.Unique.{HasPair};
ghost use Rattle.cbor_rules.specs.Walk.{any_key, departure_from, passed, seen, stopped};
ghost use Rattle.cbor_rules.specs.Walks.{last, float_feature, walk_view, IsNumber, IsWithin};
ghost use Rattle.cbor_rules.specs.Walks.{EndsForMemory, HadMemory, IsAfter, StopsNumber, Walks};

use crate::answers::Departure;
use crate::chunks::chunks;
use crate::heads::{broken_by_float, broken_by_number, is_reached};
use crate::keys::Keys;
use crate::settings::{Rule, Rules};
use cbor_io::error::Result;
use cbor_value::Float;
use std::alloc::{AllocError, Global};

/// What came of going on.
#[derive(Clone, Copy)]
pub enum Walk {
    /// No departure, and so many bytes after.
    Passed(usize),
    /// The first departure, from this rule, and so many bytes after what shows it.
    Departed(Rule, usize),
    /// No departure up to where no item goes on so, or the bytes end.
    Stopped,
    /// Memory ran out before a departure.
    NoMemory,
}

/// The first departure of the item that the bytes encode, if there is one, where these tags stand
/// that the rules refuse otherwise; or that the bytes show of an item that they begin. Of other
/// bytes nothing is said.
///
/// Memory runs out only where each value may be a key once and the item has a key.
pub(crate) fn first_departure(
    alloc: Global,
    rules: Rules,
    tags: &[u64],
    bytes: &[u8],
) -> Result<Option<Departure>>
    ensures first { (r : Raw) → IsWellFormed r → spell r ≡ bytes.now
        → IfOk result (λ departure. departure ≡ first_departure (under rules tags.now) r) }
    ensures shown { (r : Raw) (more : List ℕ) → IsWellFormed r → spell r ≡ bytes.now ++ more
        → IfOk result (λ departure. IfSome departure
        (λ d. first_departure (under rules tags.now) r ≡ Some d)) }
    ensures within { IfOk result
        (λ departure. IfSome departure (λ d. d.offset ≤ length bytes.now)) }
    ensures memory { IfErr result IsOutOfMemory }
    ensures unique { OnErr result (is_unique rules.keys ≡ true) }
    ensures key { (r : Raw) → IsWellFormed r → spell r ≡ bytes.now → OnErr result (HasPair r) }
{
    match item(alloc, &rules, tags, bytes) {
        Walk::Departed(rule, left) => Ok(Some(Departure {
            rule,
            offset: (bytes.len() - left) as u64,
        })),
        Walk::NoMemory => Err(AllocError.into()),
        _ => Ok(None),
    }
}

/// Goes past an item.
#[cycle(walk)]
#[inline(always)]
fn item(alloc: Global, rules: &Rules, tags: &[u64], bytes: &[u8]) -> Walk
    ensures walks { Walks bytes.now (walk (departure_from (under rules.now tags.now))) result }
    ensures within { IsWithin (length bytes.now) result }
    ensures memory { EndsForMemory rules.now bytes.now (walk any_key) result }
{
    match bytes.split_first() {
        Some((first, rest)) => content(alloc, rules, tags, *first, rest),
        None => Walk::Stopped,
    }
}

/// Goes past what follows a first byte.
#[cycle(walk)]
fn content(alloc: Global, rules: &Rules, tags: &[u64], first: u8, bytes: &[u8]) -> Walk
    ensures walks { let sought = departure_from (under rules.now tags.now) in
        Walks bytes.now
        (λ fuel. content_walk sought (walk sought fuel) (first / 32) (first % 32)) result }
    ensures within { IsWithin (length bytes.now) result }
    ensures memory { EndsForMemory rules.now bytes.now
        (λ fuel. content_walk any_key (walk any_key fuel) (first / 32) (first % 32)) result }
{
    let major = first / 32;
    let low = first % 32;
    if major == 7 {
        simple(rules, low, bytes)
    } else if low == 31 {
        indefinite(alloc, rules, tags, major, bytes)
    } else {
        head(alloc, rules, tags, major, low, bytes)
    }
}

/// Goes past what follows a first byte of a head with its number.
#[cycle(walk)]
fn head(alloc: Global, rules: &Rules, tags: &[u64], major: u8, low: u8, bytes: &[u8]) -> Walk
    ensures walks { let sought = departure_from (under rules.now tags.now) in
        Walks bytes.now (λ fuel. head_walk sought (walk sought fuel) major low) result }
    ensures within { IsWithin (length bytes.now) result }
    ensures memory { EndsForMemory rules.now bytes.now
        (λ fuel. head_walk any_key (walk any_key fuel) major low) result }
{
    match number(low, bytes) {
        Some((n, left)) => match broken_by_number(rules, tags, major, low, n) {
            Some(rule) => Walk::Departed(rule, left),
            None => inside(alloc, rules, tags, major, n, behind(bytes, left)),
        },
        None => Walk::Stopped,
    }
}

/// Goes past what follows a head with its number.
#[cycle(walk)]
fn inside(alloc: Global, rules: &Rules, tags: &[u64], major: u8, n: u64, bytes: &[u8]) -> Walk
    ensures walks { let sought = departure_from (under rules.now tags.now) in
        Walks bytes.now (λ fuel. inside_walk sought (walk sought fuel) major n) result }
    ensures within { IsWithin (length bytes.now) result }
    ensures memory { EndsForMemory rules.now bytes.now
        (λ fuel. inside_walk any_key (walk any_key fuel) major n) result }
{
    if major <= 1 {
        Walk::Passed(bytes.len())
    } else if major <= 3 {
        past(n, bytes)
    } else if major == 4 {
        items(alloc, rules, tags, n, bytes)
    } else if major == 5 {
        pairs(alloc, rules, tags, false, n, bytes)
    } else {
        item(alloc, rules, tags, bytes)
    }
}

/// Goes past what follows the first byte of an indefinite length.
#[cycle(walk)]
fn indefinite(alloc: Global, rules: &Rules, tags: &[u64], major: u8, bytes: &[u8]) -> Walk
    ensures walks { let sought = departure_from (under rules.now tags.now) in
        Walks bytes.now (λ fuel. indefinite_walk sought (walk sought fuel) major) result }
    ensures within { IsWithin (length bytes.now) result }
    ensures memory { EndsForMemory rules.now bytes.now
        (λ fuel. indefinite_walk any_key (walk any_key fuel) major) result }
{
    if rules.definite_lengths {
        return Walk::Departed(Rule::DefiniteLengths, bytes.len());
    }
    let most = bytes.len() as u64;
    if major == 5 {
        pairs(alloc, rules, tags, true, most, bytes)
    } else if major == 4 {
        open_items(alloc, rules, tags, most, bytes)
    } else {
        chunks(rules, tags, major, most, bytes)
    }
}

/// Goes past n items.
#[cycle(walk)]
#[inline(never)]
fn items(alloc: Global, rules: &Rules, tags: &[u64], n: u64, bytes: &[u8]) -> Walk
    ensures walks { let sought = departure_from (under rules.now tags.now) in
        Walks bytes.now (λ fuel. all_walk (walk sought fuel) n) result }
    ensures within { IsWithin (length bytes.now) result }
    ensures memory { EndsForMemory rules.now bytes.now
        (λ fuel. all_walk (walk any_key fuel) n) result }
{
    let mut rest = bytes;
    for _i in 0..n {
        match item(alloc, rules, tags, rest) {
            Walk::Passed(left) => rest = behind(rest, left),
            other => return other,
        }
    }
    Walk::Passed(rest.len())
}

/// Goes past the items of an indefinite length up to a break, and past n at the most.
#[cycle(walk)]
#[inline(never)]
fn open_items(alloc: Global, rules: &Rules, tags: &[u64], n: u64, bytes: &[u8]) -> Walk
    ensures walks { let sought = departure_from (under rules.now tags.now) in
        Walks bytes.now (λ fuel. open_walk sought (walk sought fuel) n 0) result }
    ensures within { IsWithin (length bytes.now) result }
    ensures memory { EndsForMemory rules.now bytes.now
        (λ fuel. open_walk any_key (walk any_key fuel) n 0) result }
{
    let mut rest = bytes;
    for i in 0..n {
        if ends(true, rest) {
            return Walk::Passed(rest.len() - 1);
        }
        match item(alloc, rules, tags, rest) {
            Walk::Passed(left) => {
                if is_reached(rules.most_items, i) {
                    return Walk::Departed(Rule::MostItems, left);
                }
                rest = behind(rest, left);
            }
            other => return other,
        }
    }
    Walk::Stopped
}

/// Goes past n pairs, whose keys keep the rules; in an indefinite length up to a break, and past n
/// at the most.
#[cycle(walk)]
#[inline(never)]
fn pairs(alloc: Global, rules: &Rules, tags: &[u64], is_open: bool, n: u64, bytes: &[u8]) -> Walk
    ensures walks { let sought = departure_from (under rules.now tags.now) in
        Walks bytes.now (λ fuel. pairs_walk sought (walk sought fuel) is_open n []) result }
    ensures within { IsWithin (length bytes.now) result }
    ensures memory { EndsForMemory rules.now bytes.now
        (λ fuel. pairs_walk any_key (walk any_key fuel) is_open n []) result }
{
    let mut rest = bytes;
    let mut keys = Keys::new(alloc);
    for i in 0..n {
        if ends(is_open, rest) {
            return Walk::Passed(rest.len() - 1);
        }
        match item(alloc, rules, tags, rest) {
            Walk::Passed(left) => match keys.pass(alloc, rules, i, ahead(rest, left)) {
                Ok(None) => rest = behind(rest, left),
                Ok(Some(rule)) => return Walk::Departed(rule, left),
                Err(_) => return Walk::NoMemory,
            },
            other => return other,
        }
        match item(alloc, rules, tags, rest) {
            Walk::Passed(left) => rest = behind(rest, left),
            other => return other,
        }
    }
    ended(is_open, rest)
}

/// Whether a break ends an indefinite length here.
#[inline(always)]
fn ends(is_open: bool, bytes: &[u8]) -> bool
    ensures value { result ≡ (is_open && is_break bytes.now) }
    ensures some { IsTrue result → 1 ≤ length bytes.now }
{
    match bytes.first() {
        Some(first) => is_open && *first == 0xff,
        None => false,
    }
}

/// What came of going past as many as there may be.
#[inline(always)]
fn ended(is_open: bool, bytes: &[u8]) -> Walk
    ensures walks { (if is_open then stopped else passed bytes.now) ≡ walk_view bytes.now result }
    ensures within { IsWithin (length bytes.now) result }
    ensures memory { HadMemory result }
{
    if is_open {
        Walk::Stopped
    } else {
        Walk::Passed(bytes.len())
    }
}

/// The last so many bytes.
#[inline(always)]
pub(crate) fn behind(bytes: &[u8], left: usize) -> &[u8]
    requires { left ≤ length bytes.now }
    ensures { result.now ≡ last left bytes.now }
{
    &bytes[bytes.len() - left..]
}

/// The bytes ahead of the last so many.
#[inline(always)]
fn ahead(bytes: &[u8], left: usize) -> &[u8]
    requires { left ≤ length bytes.now }
    ensures { result.now ≡ take (length bytes.now - left) bytes.now }
{
    &bytes[..bytes.len() - left]
}

/// Goes past n bytes.
#[inline(always)]
fn past(n: u64, bytes: &[u8]) -> Walk
    ensures walks { Walks bytes.now (λ fuel. past n) result }
    ensures within { IsWithin (length bytes.now) result }
    ensures memory { HadMemory result }
{
    let len = bytes.len() as u64;
    if len < n {
        Walk::Stopped
    } else {
        Walk::Passed((len - n) as usize)
    }
}

/// Goes past what follows a first byte of major type 7.
#[tactic(auto, using(crate::proofs::Walking::last_all), unfolding(crate::specs::Walk::simple_walk))]
fn simple(rules: &Rules, low: u8, bytes: &[u8]) -> Walk
    ensures walks { Walks bytes.now
        (λ fuel. simple_walk (departure_from (only rules.now)) low) result }
    ensures within { IsWithin (length bytes.now) result }
    ensures memory { HadMemory result }
{
    match low {
        23 => undefined(rules, bytes),
        25 => half(rules, bytes),
        26 => single(rules, bytes),
        27 => double(rules, bytes),
        _ => Walk::Passed(bytes.len()),
    }
}

/// Goes past an undefined.
#[inline(always)]
fn undefined(rules: &Rules, bytes: &[u8]) -> Walk
    ensures walks { seen (departure_from (only rules.now)) (simple_item undefined_item)
        (length bytes.now) (passed bytes.now) ≡ walk_view bytes.now result }
    ensures within { IsWithin (length bytes.now) result }
    ensures memory { HadMemory result }
{
    if rules.no_undefined {
        Walk::Departed(Rule::NoUndefined, bytes.len())
    } else {
        Walk::Passed(bytes.len())
    }
}

/// Goes past the bits of a float of 16 bits, and likewise of 32 and of 64.
fn half(rules: &Rules, bytes: &[u8]) -> Walk
    ensures walks { Walks bytes.now
        (λ fuel. float_walk (departure_from (only rules.now)) half 25) result }
    ensures within { IsWithin (length bytes.now) result }
    ensures memory { HadMemory result }
{
    match number(25, bytes) {
        Some((bits, left)) => float(rules, Float::Half(bits as u16), left),
        None => Walk::Stopped,
    }
}

fn single(rules: &Rules, bytes: &[u8]) -> Walk
    ensures walks { Walks bytes.now
        (λ fuel. float_walk (departure_from (only rules.now)) single 26) result }
    ensures within { IsWithin (length bytes.now) result }
    ensures memory { HadMemory result }
{
    match number(26, bytes) {
        Some((bits, left)) => float(rules, Float::Single(bits as u32), left),
        None => Walk::Stopped,
    }
}

fn double(rules: &Rules, bytes: &[u8]) -> Walk
    ensures walks { Walks bytes.now
        (λ fuel. float_walk (departure_from (only rules.now)) double 27) result }
    ensures within { IsWithin (length bytes.now) result }
    ensures memory { HadMemory result }
{
    match number(27, bytes) {
        Some((bits, left)) => float(rules, Float::Double(bits), left),
        None => Walk::Stopped,
    }
}

/// Goes past a float, which so many bytes follow.
fn float(rules: &Rules, float: Float, left: usize) -> Walk
    ensures { IsAfter (broken (only rules.now) (float_feature float)) left result }
{
    match broken_by_float(rules, float) {
        Some(rule) => Walk::Departed(rule, left),
        None => Walk::Passed(left),
    }
}

/// The number after a first byte with these lower five bits, and how many bytes are after it.
#[tactic(auto, using(crate::proofs::Walking::last_all), unfolding(cbor_model::specs::Reader::number_behind))]
#[inline(always)]
pub(crate) fn number(low: u8, bytes: &[u8]) -> Option<(u64, usize)>
    ensures { MatchOption result (StopsNumber low bytes.now) (IsNumber low bytes.now) }
{
    match low {
        0..=23 => Some((low as u64, bytes.len())),
        24 => {
            let (n, rest) = bytes.split_first_chunk::<1>()?;
            Some((n[0] as u64, rest.len()))
        }
        25 => {
            let (n, rest) = bytes.split_first_chunk::<2>()?;
            Some((u16::from_be_bytes(*n) as u64, rest.len()))
        }
        26 => {
            let (n, rest) = bytes.split_first_chunk::<4>()?;
            Some((u32::from_be_bytes(*n) as u64, rest.len()))
        }
        27 => {
            let (n, rest) = bytes.split_first_chunk::<8>()?;
            Some((u64::from_be_bytes(*n), rest.len()))
        }
        _ => None,
    }
}

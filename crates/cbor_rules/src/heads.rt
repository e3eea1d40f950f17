//! Whether a head keeps the rules.

ghost use Rattle.std.specs.Prelude.{◌≡◌, ◌<◌, nat_lt};
ghost use Rattle.cbor_model.specs.Reader.{width_of};
ghost use Rattle.cbor_value.specs.View.{float_view};
ghost use Rattle.cbor_rules.specs.Features.{number};
ghost use Rattle.cbor_rules.specs.Rules.{broken, exceeds, float_size, floor, is_quiet_nan};
ghost use Rattle.cbor_rules.specs.Rules.{is_reached, only, under};
ghost use Rattle.cbor_rules.specs.Walks.{float_feature};

use crate::settings::{Rule, Rules};
use cbor_forms::integer_of;
use cbor_value::Float;

/// The rule that a head with this number breaks, if it does: of this major type, below 7, after a
/// first byte with these lower five bits. These tags stand where tags are refused.
#[inline(always)]
pub(crate) fn broken_by_number(
    rules: &Rules,
    tags: &[u64],
    major: u8,
    low: u8,
    n: u64,
) -> Option<Rule>
    requires { low < 28 }
    ensures { result ≡ broken (under rules.now tags.now) (number major (width_of low) n) }
{
    if major == 4 && exceeds(rules.most_items, n) {
        Some(Rule::MostItems)
    } else if major == 5 && exceeds(rules.most_pairs, n) {
        Some(Rule::MostPairs)
    } else if (major == 2 || major == 3) && exceeds(rules.most_bytes, n) {
        Some(Rule::MostBytes)
    } else if rules.shortest_heads && is_long(low, n) {
        Some(Rule::ShortestHeads)
    } else if rules.reduced_numbers && major == 1 && 1 << 63 <= n {
        Some(Rule::ReducedNumbers)
    } else if rules.no_tags && major == 6 && !tags.contains(&n) {
        Some(Rule::NoTags)
    } else {
        None
    }
}

/// Whether there is a limit, and so many are more.
#[inline(always)]
pub(crate) fn exceeds(most: Option<u64>, n: u64) -> bool
    ensures { result ≡ exceeds most n }
{
    match most {
        Some(most) => most < n,
        None => false,
    }
}

/// Whether there is a limit, and after so many no other may come.
#[inline(always)]
pub(crate) fn is_reached(most: Option<u64>, n: u64) -> bool
    ensures { result ≡ is_reached most n }
{
    match most {
        Some(most) => most <= n,
        None => false,
    }
}

/// Whether a number after such a first byte fits a narrower width.
#[inline(always)]
fn is_long(low: u8, n: u64) -> bool
    requires { low < 28 }
    ensures { result ≡ nat_lt n (floor (width_of low)) }
{
    match low {
        24 => n < 24,
        25 => n < 0x100,
        26 => n < 0x1_0000,
        27 => n < 0x1_0000_0000,
        _ => false,
    }
}

/// The rule that a float breaks, if it does.
pub(crate) fn broken_by_float(rules: &Rules, float: Float) -> Option<Rule>
    ensures { result ≡ broken (only rules.now) (float_feature float) }
{
    if rules.reduced_numbers && integer_of(float).is_some() {
        return Some(Rule::ReducedNumbers);
    }
    if !rules.shortest_floats && !rules.one_nan {
        return None;
    }
    let short = float.shortened();
    if rules.shortest_floats && size(short) < size(float) {
        Some(Rule::ShortestFloats)
    } else if rules.one_nan && is_quiet_nan(short) && !is_quiet_nan(float) {
        Some(Rule::OneNan)
    } else {
        None
    }
}

fn size(float: Float) -> u32
    ensures { result ≡ float_size (float_view float) }
{
    match float {
        Float::Half(_) => 16,
        Float::Single(_) => 32,
        Float::Double(_) => 64,
    }
}

fn is_quiet_nan(float: Float) -> bool
    ensures { result ≡ is_quiet_nan (float_view float) }
{
    match float {
        Float::Half(bits) => bits == 0x7e00,
        Float::Single(_) | Float::Double(_) => false,
    }
}

//! Whether a key may follow those before it in its map.

ghost use Rattle.std.specs.Prelude.{◌≡◌, ◌∷◌, ℕ, List, [], length, None, true, IfErr, IfOk, OnErr};
ghost use Rattle.cbor_model.specs.Order.{lex};
ghost use Rattle.cbor_io.specs.Error.{IsOutOfMemory};
ghost use Rattle.cbor_forms.specs.LengthFirst.{by_length};
ghost use Rattle.cbor_rules.specs.Features.{key};
ghost use Rattle.cbor_rules.specs.PassedKeys.{HasPassed};
ghost use Rattle.cbor_rules.specs.Rules.{broken, is_compound, is_less, is_unique, key_cmp, major};
ghost use Rattle.cbor_rules.specs.Rules.{only};

use crate::canonical_key::canonical_key;
use crate::heads::is_reached;
use crate::settings::{KeyOrder, Rule, Rules};
use cbor_io::compare::compare;
use cbor_io::error::Result;
use std::alloc::Global;
use std::borrow::CowSlice;
use std::cmp::Ordering;
use std::collections::BTreeSet;

/// The keys of a map that were passed.
#[derive(Drop)]
pub(crate) struct Keys<'a> {
    /// The latest of them, or none, whose bytes are none.
    latest: &'a [u8],
    /// Where each value may be a key once, the canonical encodings of all of them.
    values: BTreeSet<CowSlice<'a, u8>>,
}

impl<'a> Keys<'a> {
    #[inline(always)]
    pub(crate) fn new(alloc: Global) -> Keys<'a>
        ensures { (rules : Rules) → HasPassed rules result [] }
    {
        Keys {
            latest: &[],
            values: BTreeSet::new(alloc),
        }
    }

    /// The rule that the next key breaks, if it does, where so many were passed; otherwise it is
    /// passed.
    #[inline(always)]
    pub(crate) fn pass(
        &mut self,
        alloc: Global,
        rules: &Rules,
        count: u64,
        next: &'a [u8],
    ) -> Result<Option<Rule>>
        ensures broken { (passed : List (List ℕ)) → HasPassed rules.now self.old passed
            → length passed ≡ count
            → IfOk result (λ rule. rule ≡ broken (only rules.now) (key passed next.now)) }
        ensures passed { (passed : List (List ℕ)) → HasPassed rules.now self.old passed
            → IfOk result (λ rule. rule ≡ None → HasPassed rules.now self.new (next.now ∷ passed)) }
        ensures memory { IfErr result IsOutOfMemory }
        ensures unique { OnErr result (is_unique rules.now.keys ≡ true) }
    {
        if is_reached(rules.most_pairs, count) {
            return Ok(Some(Rule::MostPairs));
        }
        if rules.plain_keys && is_compound(next) {
            return Ok(Some(Rule::PlainKeys));
        }
        if !ascends(rules.keys, self.latest, next) {
            return Ok(Some(Rule::AscendingKeys));
        }
        self.latest = next;
        if !is_unique(rules.keys) {
            return Ok(None);
        }
        if self.values.insert(canonical_key(alloc, next)?)? {
            Ok(None)
        } else {
            Ok(Some(Rule::UniqueKeys))
        }
    }
}

/// Whether a key is an array, a map or a tag.
fn is_compound(key: &[u8]) -> bool
    ensures { result ≡ is_compound key.now }
{
    let major = major(key);
    3 < major && major < 7
}

/// Whether each value may be a key once, in any order.
fn is_unique(order: KeyOrder) -> bool
    ensures { result ≡ is_unique order }
{
    matches!(order, KeyOrder::Unique)
}

/// Whether a key of these bytes may follow the one before it, or none, whose bytes are none.
#[inline(always)]
fn ascends(order: KeyOrder, before: &[u8], key: &[u8]) -> bool
    ensures { result ≡ is_less (key_cmp order before.now key.now) }
{
    match order {
        KeyOrder::Any | KeyOrder::Unique => true,
        KeyOrder::Bytewise => is_less(bytewise(before, key)),
        KeyOrder::LengthFirst => is_less(by_length(before, key)),
        KeyOrder::TypeFirst => {
            let types = major(before).cmp(&major(key));
            is_less(types.then(by_length(before, key)))
        }
    }
}

/// The order of the bytes.
fn bytewise(before: &[u8], key: &[u8]) -> Ordering
    ensures { result ≡ lex before.now key.now }
{
    if before.len() == key.len() {
        compare(before, key)
    } else {
        before.cmp(key)
    }
}

/// The order of the lengths, and of equal ones that of the bytes.
fn by_length(before: &[u8], key: &[u8]) -> Ordering
    ensures { result ≡ by_length before.now key.now }
{
    match before.len().cmp(&key.len()) {
        Ordering::Equal => bytewise(before, key),
        other => other,
    }
}

/// The major type that the first byte says.
fn major(bytes: &[u8]) -> u8
    ensures { result ≡ major bytes.now }
{
    match bytes.first() {
        Some(first) => *first / 32,
        None => 0,
    }
}

fn is_less(order: Ordering) -> bool
    ensures { result ≡ is_less order }
{
    match order {
        Ordering::Less => true,
        _ => false,
    }
}

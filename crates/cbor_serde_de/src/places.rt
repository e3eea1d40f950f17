//! The places of keys among names.

ghost use Rattle.std.specs.Prelude.{◌≡◌, ◌↔◌, ◌<◌, ◌+◌, [], false, length, IsTrue, IfOk, IfSome, MatchBool};
ghost use Rattle.std.specs.Prelude.{IsUtf8, OnSome, nat_eq};
ghost use Rattle.std.specs.Cmp.Lexicographic.{pointwise};
ghost use Rattle.serde.specs.Names.{Finds, NoneBelow, StandsFor};
ghost use Rattle.cbor_read.specs.Source.{part_bytes};
ghost use Rattle.cbor_decode_as.specs.Strings.{text_bytes};
ghost use Rattle.cbor_serde_de.specs.PickedNames.{IsNumbered, PicksBytes, PicksInteger, PicksText};

use cbor_decode_as::borrowed::EitherStr;
use cbor_read::EitherLifetime;
use cbor_serde_options::number_of;
use serde::{Case, Name, find};
use std::alloc::{AllocError, Global};

/// The place of the name that this key stands for; `usize::MAX` of none. Where names are integers,
/// a text is no integer.
#[inline(always)]
pub(crate) fn place_of(names: &[Name<'_>], key: &str, integer_keys: bool) -> usize
    ensures { PicksText integer_keys names.now key.now result }
{
    if integer_keys && number_of(key).is_some() {
        return usize::MAX;
    }
    find(names, key)
}

/// The place of the name that a lent text stands for.
#[inline(always)]
pub(crate) fn place_of_text(names: &[Name<'_>], key: EitherStr<'_, '_>, integer_keys: bool) -> usize
    ensures { PicksText integer_keys names.now (text_bytes key.entry) result }
{
    match key {
        EitherStr::Short(key) => place_of(names, key, integer_keys),
        EitherStr::Long(key) => place_of(names, key, integer_keys),
    }
}

// Whether the name is read as it is spelled, and as nothing else.
#[inline(always)]
fn is_plain(name: &Name<'_>) -> bool
    ensures { IsTrue result → (name.now.skipped ≡ false) × (name.now.aliases.now ≡ [])
        × (name.now.case ≡ Case.AsIs) }
{
    !name.skipped && matches!(name.case, Case::AsIs) && name.aliases.is_empty()
}

// Whether a key is these bytes of a name. Where the name is known when the program is compiled this
// leaves a few compares, where `==` calls a function for all but the first four bytes.
#[inline(always)]
fn is_same(name: &[u8], key: &[u8]) -> bool
    ensures { result ≡ pointwise nat_eq name.now key.now }
{
    name.len() == key.len() && key.starts_with(name)
}

// Whether a key of these bytes stands for the name, if that is plain.
#[inline(always)]
fn is_plain_name(name: &Name<'_>, key: &[u8]) -> Option<bool>
    ensures named { IfSome result (λ b. IsTrue b ↔ StandsFor key.now name.now) }
    ensures utf8 { IfSome result (λ b. IsTrue b → IsUtf8 key.now) }
{
    if is_plain(name) {
        Some(is_same(name.name.as_bytes(), key))
    } else {
        None
    }
}

// Whether such a key stands for the name at this place, and for none before it.
#[inline(always)]
fn is_first_plain(names: &[Name<'_>], at: usize, key: &[u8]) -> Option<bool>
    requires inside { at < length names.now }
    requires below { NoneBelow names.now key.now at }
    ensures named { IfSome result (λ b. MatchBool b (Finds names.now key.now at)
        (NoneBelow names.now key.now (at + 1))) }
    ensures utf8 { IfSome result (λ b. IsTrue b → IsUtf8 key.now) }
{
    is_plain_name(&names[at], key)
}

/// The place of the first name that a key of these bytes stands for, if all names before it are
/// plain.
#[inline(always)]
pub(crate) fn place_of_plain(names: &[Name<'_>], key: &[u8]) -> Option<usize>
    ensures found { IfSome result (λ at. Finds names.now key.now at) }
    ensures utf8 { OnSome result (IsUtf8 key.now) }
{
    for at in 0..names.len() {
        if is_first_plain(names, at, key)? {
            return Some(at);
        }
    }
    None
}

// The place of the name that these bytes are, if they are UTF-8.
fn place_of_bytes(names: &[Name<'_>], key: &[u8], integer_keys: bool) -> usize
    ensures { PicksBytes integer_keys names.now key.now result }
{
    match std::str::from_utf8(key) {
        Ok(key) => place_of(names, key, integer_keys),
        Err(_) => usize::MAX,
    }
}

/// The place of the name that lent bytes are, if they are UTF-8.
pub(crate) fn place_of_part(
    names: &[Name<'_>],
    key: EitherLifetime<'_, '_>,
    integer_keys: bool,
) -> usize
    ensures { PicksBytes integer_keys names.now (part_bytes key.entry) result }
{
    match key {
        EitherLifetime::Short(key) => place_of_bytes(names, key, integer_keys),
        EitherLifetime::Long(key) => place_of_bytes(names, key, integer_keys),
    }
}

// The place of the field or variant of this number: those that are read are counted.
fn place_of_number(names: &[Name<'_>], n: u64) -> usize
    ensures { IsNumbered names.now n result }
{
    let mut left = n;
    for at in 0..names.len() {
        if !names[at].skipped {
            if left == 0 {
                return at;
            }
            left -= 1;
        }
    }
    usize::MAX
}

/// The place of the name that an integer stands for: where names are integers, the one that is its
/// decimal text, and else by its number.
pub(crate) fn place_of_integer(
    alloc: Global,
    names: &[Name<'_>],
    n: i128,
    integer_keys: bool,
) -> std::result::Result<usize, AllocError>
    ensures { IfOk result (λ at. PicksInteger integer_keys names.now n at) }
{
    if integer_keys {
        let text = format!(in alloc; "{n}")?;
        return Ok(find(names, text.as_str()));
    }
    match u64::try_from(n) {
        Ok(n) => Ok(place_of_number(names, n)),
        Err(_) => Ok(usize::MAX),
    }
}

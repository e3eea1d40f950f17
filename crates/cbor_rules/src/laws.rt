//! Laws, which are the contracts of functions that do nothing: about departures, and that what a
//! preset's writer writes is what its rules accept.
//!
//! A caller gives the laws of a preset the bytes that encode an acceptable item, and what their
//! writer says of them.

ghost use Rattle.std.specs.Prelude.{◌≡◌};
ghost use Rattle.cbor_rules.specs.Rules.{FirstIsLeast, NoneWhereKept};
ghost use Rattle.cbor_rules.specs.Presets.{any_item, canonical, ctap2, dcbor, deterministic};
ghost use Rattle.cbor_rules.specs.Presets.{length_first, unique_keys};
ghost use Rattle.cbor_rules.specs.Unique.{UniqueKeysAreKept};
ghost use Rattle.cbor_rules.specs.Limits.{BytesAreFew, ItemsAreFew, PairsAreFew};
ghost use Rattle.cbor_rules.specs.Presets.{AcceptedIsWritten, WrittenIsAccepted};
ghost use Rattle.cbor_rules.specs.Presets.{IsCanonicalOf, IsDeterministicOf, IsLengthFirstOf};
ghost use Rattle.cbor_rules.specs.Presets.{IsCtap2Of, TypeFirstIsBytewise};
ghost use Rattle.cbor_rules.specs.Presets.{IsDcborOf, ReducedHasReducedNumbers};
ghost use Rattle.cbor_rules.specs.Presets.{ShortenedHasShortestFloats};

use crate::settings::Rules;
use cbor_forms::{
    length_first_reads_back, reduced_once, same_number_in_dcbor, same_number_same_float,
    shortened_once,
};

/// An item departs nowhere exactly where it keeps each rule that is on.
pub fn none_where_kept()
    ensures { NoneWhereKept }
{}

/// The first departure is from a rule that is broken there, and none comes at a lesser offset.
pub fn first_is_least()
    ensures { FirstIsLeast }
{}

/// An acceptable item keeps the rule of unique keys exactly where no map in it has a value as a key
/// twice.
pub fn unique_keys_are_kept()
    ensures { UniqueKeysAreKept }
{}

/// An item keeps a limit exactly where each array in it has as many items at the most, each map as
/// many pairs, or each string as many bytes, its chunks joined.
pub fn limits_are_kept()
    ensures items { ItemsAreFew }
    ensures pairs { PairsAreFew }
    ensures bytes { BytesAreFew }
{}

/// Which rules are on in each preset.
pub fn presets()
    ensures any { Rules.ANY ≡ any_item }
    ensures unique_keys { Rules.UNIQUE_KEYS ≡ unique_keys }
    ensures canonical { Rules.CANONICAL ≡ canonical }
    ensures deterministic { Rules.DETERMINISTIC ≡ deterministic }
    ensures length_first { Rules.LENGTH_FIRST ≡ length_first }
    ensures ctap2 { Rules.CTAP2 ≡ ctap2 }
    ensures dcbor { Rules.DCBOR ≡ dcbor }
{}

/// What is written canonically, as `to_vec_canonical` does, keeps the canonical rules.
pub fn canonical_written_is_accepted()
    ensures { WrittenIsAccepted Rules.CANONICAL IsCanonicalOf }
{}

/// What keeps the canonical rules is written canonically.
pub fn canonical_accepted_is_written()
    ensures { AcceptedIsWritten Rules.CANONICAL IsCanonicalOf }
{}

/// What is written deterministically keeps the deterministic rules.
pub fn deterministic_written_is_accepted()
    ensures kept { WrittenIsAccepted Rules.DETERMINISTIC IsDeterministicOf }
{
    same_number_same_float();
}

/// What keeps the deterministic rules is written deterministically.
pub fn deterministic_accepted_is_written()
    ensures { AcceptedIsWritten Rules.DETERMINISTIC IsDeterministicOf }
{}

/// What is written with shorter keys first keeps the rules of that form.
pub fn length_first_written_is_accepted()
    ensures kept { WrittenIsAccepted Rules.LENGTH_FIRST IsLengthFirstOf }
{
    same_number_same_float();
    length_first_reads_back();
}

/// What keeps the rules of that form is written with shorter keys first.
pub fn length_first_accepted_is_written()
    ensures { AcceptedIsWritten Rules.LENGTH_FIRST IsLengthFirstOf }
{}

/// What is written canonically, of a value that has no tags and no arrays or maps as keys, keeps
/// CTAP2's rules.
pub fn ctap2_written_is_accepted()
    ensures kept { WrittenIsAccepted Rules.CTAP2 IsCtap2Of }
{}

/// What keeps CTAP2's rules is written so.
pub fn ctap2_accepted_is_written()
    ensures { AcceptedIsWritten Rules.CTAP2 IsCtap2Of }
{}

/// CTAP2's order of keys is that of their bytes, but for arrays, maps and tags.
pub fn type_first_is_bytewise()
    ensures { TypeFirstIsBytewise }
{}

/// What is written as dCBOR keeps its rules.
pub fn dcbor_written_is_accepted()
    ensures { WrittenIsAccepted Rules.DCBOR IsDcborOf }
{
    same_number_same_float();
}

/// What keeps dCBOR's rules is written so.
pub fn dcbor_accepted_is_written()
    ensures { AcceptedIsWritten Rules.DCBOR IsDcborOf }
{}

/// A value as `to_vec_dcbor` writes it has dCBOR's numbers: it is what
/// [`dcbor_written_is_accepted`] asks for.
pub fn reduced_has_reduced_numbers()
    ensures { ReducedHasReducedNumbers }
{
    shortened_once();
    reduced_once();
    same_number_in_dcbor();
}

/// A value as `to_vec_deterministic` and `to_vec_length_first` write it has its floats at their
/// shortest.
pub fn shortened_has_shortest_floats()
    ensures { ShortenedHasShortestFloats }
{
    shortened_once();
}

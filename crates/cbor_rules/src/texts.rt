//! What rules and departures print.

ghost use Rattle.std.specs.Prelude.{◌≡◌};
ghost use Rattle.cbor_rules.specs.Texts.{rule_text};

use crate::answers::{Departure, Refusal};
use crate::settings::Rule;
use std::fmt;

impl Rule {
    fn words(self) -> &'static str
        ensures { result.now ≡ rule_text self }
    {
        match self {
            Rule::ShortestHeads => "head not the shortest",
            Rule::DefiniteLengths => "indefinite length",
            Rule::PlainKeys => "array, map or tag as a key",
            Rule::AscendingKeys => "key out of order",
            Rule::UniqueKeys => "duplicate key",
            Rule::ReducedNumbers => "number not reduced",
            Rule::ShortestFloats => "float not the shortest",
            Rule::OneNan => "NaN other than f97e00",
            Rule::NoUndefined => "undefined",
            Rule::NoTags => "tag not allowed",
            Rule::MostItems => "array too long",
            Rule::MostPairs => "map too long",
            Rule::MostBytes => "string too long",
        }
    }
}

/// How it is broken, as `indefinite length`.
impl fmt::Display for Rule {
    ghost use Rattle.std.specs.Prelude.{Some};
    ghost use Rattle.cbor_rules.specs.Texts.{rule_text};

    ghost output = { λ rule. Some (rule_text rule) };

    ghost styled_output = { λ rule _. Some (rule_text rule) };

    fn fmt<W: fmt::Write>(&self, f: &mut fmt::Formatter<W>) -> fmt::Result {
        f.write_str(self.words())
    }
}

/// How the rule is broken, and the offset, as `indefinite length at offset 1`.
impl fmt::Display for Departure {
    ghost use Rattle.std.specs.Prelude.{None, Some};
    ghost use Rattle.cbor_rules.specs.Texts.{departure_text};

    ghost output = { λ departure. Some (departure_text departure) };

    ghost styled_output = { λ departure _. None };

    fn fmt<W: fmt::Write>(&self, f: &mut fmt::Formatter<W>) -> fmt::Result {
        write!(f, "{} at offset {}", self.rule, self.offset)
    }
}

/// The error of `from_slice`, or the departure.
impl fmt::Display for Refusal {
    ghost use Rattle.std.specs.Prelude.{Some};
    ghost use Rattle.cbor_rules.specs.Texts.{refusal_text, styled_refusal_text};

    ghost output = { λ refusal. Some (refusal_text refusal) };

    ghost styled_output = { λ refusal _. styled_refusal_text refusal };

    fn fmt<W: fmt::Write>(&self, f: &mut fmt::Formatter<W>) -> fmt::Result {
        match self {
            Refusal::Unread(error) => error.fmt(f),
            Refusal::Departs(departure) => departure.fmt(f),
        }
    }
}

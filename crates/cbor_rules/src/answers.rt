//! Why bytes are refused.

use crate::settings::Rule;
use cbor_io::error::Error;

/// A departure from a rule.
#[derive(Clone, Copy, Debug, PartialEq, Eq)]
pub struct Departure {
    /// The rule that the item departs from.
    pub rule: Rule,
    /// How many bytes of the input lie before the end of those that show it.
    pub offset: u64,
}

/// Why bytes are refused.
#[derive(Debug, Drop)]
pub enum Refusal {
    /// They are the encoding of no acceptable item, or of one that the type doesn't read; or memory
    /// ran out, or the source reported a fault: as by `from_slice` or `from_reader`.
    Unread(Error),
    /// They are the encoding of one that departs from a rule: here first.
    Departs(Departure),
}

impl From<Error> for Refusal {
    ghost use Rattle.std.specs.Prelude.{◌≡◌};
    ghost use Rattle.cbor_rules.specs.declared.answers.Refusal.TheVariants.{Unread};

    ghost from_gives = { λ error refusal. refusal ≡ Unread error };

    fn from(error: Error) -> Refusal {
        Refusal::Unread(error)
    }
}

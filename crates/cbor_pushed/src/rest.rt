//! What is to come of an array, a map or a tag that has begun.

ghost use Rattle.std.specs.Prelude.{◌≡◌};
ghost use Rattle.cbor_pushed.specs.Rests.{behind, ends_by, fewer, is_over};

use cbor_decode::{BREAK, Remaining};

/// What is to come of an array, a map or a tag that has begun.
#[derive(Clone, Copy)]
pub(crate) enum Rest {
    /// Items: of an array, or the one of a tag.
    Items(Remaining),
    /// Pairs of a map.
    Pairs(Remaining),
    /// A value, whose key has come, and these pairs.
    Value(Remaining),
}

impl Rest {
    /// Whether nothing is to come.
    pub(crate) fn is_over(self) -> bool
        ensures { result ≡ is_over self }
    {
        match self {
            Rest::Items(Remaining::Counted(n)) => n == 0,
            Rest::Pairs(Remaining::Counted(n)) => n == 0,
            _ => false,
        }
    }

    /// Whether this byte ends it, where the next item may begin.
    pub(crate) fn ends_by(self, byte: u8) -> bool
        ensures { result ≡ ends_by self byte }
    {
        match self {
            Rest::Items(Remaining::ToBreak) => byte == BREAK,
            Rest::Pairs(Remaining::ToBreak) => byte == BREAK,
            _ => false,
        }
    }

    /// What is to come after one item more.
    pub(crate) fn behind(self) -> Rest
        ensures { result ≡ behind self }
    {
        match self {
            Rest::Items(remaining) => Rest::Items(fewer(remaining)),
            Rest::Pairs(remaining) => Rest::Value(fewer(remaining)),
            Rest::Value(remaining) => Rest::Pairs(remaining),
        }
    }
}

// One fewer, where they are counted.
fn fewer(remaining: Remaining) -> Remaining
    ensures { result ≡ fewer remaining }
{
    match remaining {
        Remaining::Counted(n) => Remaining::Counted(n.saturating_sub(1)),
        Remaining::ToBreak => Remaining::ToBreak,
    }
}

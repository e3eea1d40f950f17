// The events that a writer was sent. They exist only in proofs.
ghost use Rattle.std.specs.Prelude.{◌≡◌, []};
ghost use base.Fml.{ftrue};
ghost use Rattle.serde.specs.Event.{Log as Events};
ghost use Rattle.cbor_serde_ser.specs.Logged.{log_code};

use serde::Case;
use std::marker::Model;

#[derive(Drop)]
pub(crate) struct Log {
    ghost events: { Events } by { log_code },
}

impl Model for Log {
    ghost also_owns = { λ _. ftrue };
}

// One call of a method, or `Lost` where what was written is not known.
#[derive(Clone, Copy, Drop)]
pub(crate) enum Note<'a> {
    Bool(bool),
    I64(i64),
    U64(u64),
    I128(i128),
    U128(u128),
    Single(f32),
    Double(f64),
    Char(char),
    Text(&'a str),
    Bytes(&'a [u8]),
    Unit,
    UnitVariant(&'a str, Case),
    BeginSeq(Option<usize>),
    EndSeq,
    BeginMap(Option<usize>),
    EndMap,
    FieldKey(&'a str, Case),
    VariantKey(&'a str, Case),
    BeginKey,
    EndKey,
    Flatten,
    Lost,
}

impl Log {
    ghost use Rattle.cbor_serde_ser.specs.Noted.{noted};

    pub(crate) fn new() -> Log
        ensures { result.events ≡ Some [] }
    {
        Log {}
    }

    #[inline(always)]
    pub(crate) fn then(&self, _note: &Note<'_>) -> Log
        ensures { result.events ≡ noted self.now.events _note.now }
    {
        Log {}
    }
}

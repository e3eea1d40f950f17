//! What remains of an array or a map.

ghost use Rattle.std.specs.Prelude.{◌≡◌, ◌<◌, IfErr, IfOk, IfSome};
ghost use Rattle.cbor_decode.specs.Decoder.{SameSettings};
ghost use Rattle.cbor_decode.specs.Gives.{ReportsNoKey, ReportsNoMemory};
ghost use Rattle.cbor_decode.specs.Heads.{first_at, end_of, end_code, remaining_of, first_of_next};
ghost use Rattle.cbor_model.specs.Reader.{to_break};
ghost use Rattle.cbor_decode.specs.declared.cursor.Remaining.TheVariants.{ToBreak};
ghost use Rattle.std.specs.Prelude.{◌≡◌, IfOk, IfErr};
ghost use Rattle.cbor_model.specs.Reader.{next_at, to_break};
ghost use Rattle.cbor_decode.specs.Cursor.{behind_next, Counts, ended_at};
ghost use Rattle.cbor_decode.specs.Gives.{ReportsNoKey, ReportsNoMemory};
ghost use Rattle.cbor_decode.specs.Heads.{end_of, remaining_of};
ghost use Rattle.cbor_decode.specs.Steps as step;

use crate::Decoder;
use crate::refusal::Done;
use cbor_read::{ReadErrorCode, Source};

/// The byte that ends an indefinite length: of an array, a map, or a string in chunks (RFC 7049,
/// section 2.2).
pub const BREAK: u8 = 0xff;

/// What holds items, and can end by a break.
#[derive(Clone, Copy)]
pub enum Collection {
    Array,
    Map,
}

impl Collection {
    // The refusal of an input that ends where an item or the break is due.
    pub(crate) fn end(self) -> ReadErrorCode
        ensures { result ≡ end_code self }
    {
        match self {
            Collection::Array => ReadErrorCode::EofWhileParsingArray,
            Collection::Map => ReadErrorCode::EofWhileParsingMap,
        }
    }
}

/// What remains of an array or a map.
#[derive(Clone, Copy)]
pub enum Remaining {
    /// So many items or pairs.
    Counted(u64),
    /// All up to the break.
    ToBreak,
}

impl<R: Source> Decoder<R> {
    /// Takes the first byte of the next item of an array, or of the next key of a map, of which so
    /// much remains; None where none comes. A break that comes in its place is taken.
    #[tactic(auto, unfolding(cbor_model::specs::Reader::next_at, cbor_model::specs::Reader::byte_at))]
    pub fn next(&mut self, remaining: &mut Remaining, of: Collection) -> Done<Option<u8>>
        ensures read { step.Gives R.source R.refusals (first_of_next remaining.new)
            (λ l. first_at (end_of of) (remaining_of remaining.old)) self.old self.new result }
        ensures taken { IfOk result
            (λ o. IfSome o (λ b. step.Advances R.source self.old self.new)) }
        ensures memory { IfErr result (ReportsNoMemory self.new.refusal) }
        ensures no_key { IfErr result (ReportsNoKey self.new.refusal) }
        ensures settings { SameSettings self.old self.new }
    {
        match remaining {
            Remaining::Counted(0) => Ok(None),
            Remaining::Counted(n) => {
                *n -= 1;
                let first = self.byte()?;
                Ok(Some(first))
            }
            Remaining::ToBreak => self.next_to_break(of),
        }
    }

    // Takes the first byte of the next item or key, or the break that comes in its place.
    fn next_to_break(&mut self, of: Collection) -> Done<Option<u8>>
        ensures read { step.Gives R.source R.refusals (first_of_next ToBreak)
            (λ l. first_at (end_of of) to_break) self.old self.new result }
        ensures taken { IfOk result
            (λ o. IfSome o (λ b. step.Advances R.source self.old self.new)) }
        ensures memory { IfErr result (ReportsNoMemory self.new.refusal) }
        ensures no_key { IfErr result (ReportsNoKey self.new.refusal) }
        ensures settings { SameSettings self.old self.new }
    {
        match self.source.next() {
            Ok(Some(BREAK)) => Ok(None),
            Ok(Some(first)) => Ok(Some(first)),
            Ok(None) => Err(self.refuse(of.end())),
            Err(refusal) => Err(self.keep(refusal)),
        }
    }
}

impl<R: Source> Decoder<R> {
    /// Whether another item of an array or another pair of a map comes, of which so much remains.
    /// Its first byte stays. A break that comes in its place is taken, and nothing remains then.
    #[inline(always)]
    #[tactic(auto, unfolding(cbor_model::specs::Reader::next_at))]
    pub fn more(&mut self, remaining: &mut Remaining, of: Collection) -> Done<bool>
        ensures read { step.Gives R.source R.refusals (behind_next remaining.new)
            (λ l. next_at (end_of of) (remaining_of remaining.old)) self.old self.new result }
        ensures no_key { IfErr result (ReportsNoKey self.new.refusal) }
        ensures memory { IfErr result (ReportsNoMemory self.new.refusal) }
        ensures settings { SameSettings self.old self.new }
        ensures counts { IfOk result (λ more. Counts remaining.old more remaining.new) }
    {
        match remaining {
            Remaining::Counted(0) => Ok(false),
            Remaining::Counted(n) => {
                *n -= 1;
                Ok(true)
            }
            Remaining::ToBreak => {
                let more = self.more_to_break(of)?;
                if !more {
                    *remaining = Remaining::Counted(0);
                }
                Ok(more)
            }
        }
    }

    // Whether another item or pair comes before the break.
    fn more_to_break(&mut self, of: Collection) -> Done<bool>
        ensures read { step.Gives R.source R.refusals (behind_next ToBreak)
            (λ l. next_at (end_of of) to_break) self.old self.new result }
        ensures no_key { IfErr result (ReportsNoKey self.new.refusal) }
        ensures memory { IfErr result (ReportsNoMemory self.new.refusal) }
        ensures settings { SameSettings self.old self.new }
    {
        match self.source.peek() {
            Ok(Some(BREAK)) => {
                self.source.discard();
                Ok(false)
            }
            Ok(Some(_)) => Ok(true),
            Ok(None) => Err(self.refuse(of.end())),
            Err(refusal) => Err(self.keep(refusal)),
        }
    }

    /// Takes the end of an array or a map of which so much remains: a break, where its length is
    /// indefinite.
    ///
    /// What stands in its place is refused with `TrailingData`: before it where a count was
    /// declared, and after its first byte where it wasn't.
    pub fn end_of(&mut self, remaining: Remaining, of: Collection) -> Done<()>
        ensures read { step.Gives R.source R.refusals (λ u. u)
            (λ l. ended_at (end_of of) (remaining_of remaining)) self.old self.new result }
        ensures no_key { IfErr result (ReportsNoKey self.new.refusal) }
        ensures memory { IfErr result (ReportsNoMemory self.new.refusal) }
        ensures settings { SameSettings self.old self.new }
    {
        match remaining {
            Remaining::Counted(0) => Ok(()),
            Remaining::Counted(_) => Err(self.refuse(ReadErrorCode::TrailingData)),
            Remaining::ToBreak => self.end_by_break(of),
        }
    }

    // Takes the break of an array or a map of indefinite length.
    fn end_by_break(&mut self, of: Collection) -> Done<()>
        ensures read { step.Gives R.source R.refusals (λ u. u) (λ l. ended_at (end_of of) to_break)
            self.old self.new result }
        ensures no_key { IfErr result (ReportsNoKey self.new.refusal) }
        ensures memory { IfErr result (ReportsNoMemory self.new.refusal) }
        ensures settings { SameSettings self.old self.new }
    {
        match self.source.next() {
            Ok(Some(BREAK)) => Ok(()),
            Ok(Some(_)) => Err(self.refuse(ReadErrorCode::TrailingData)),
            Ok(None) => Err(self.refuse(of.end())),
            Err(refusal) => Err(self.keep(refusal)),
        }
    }
}

//! Passing over the item at the front of a source.

ghost use Rattle.std.specs.Prelude.{◌≡◌, IfErr, OnOk};
ghost use Rattle.cbor_model.specs.Formats.{all_formats};
ghost use Rattle.cbor_model.specs.Head.{HeadWidth, no_bytes};
ghost use Rattle.cbor_model.specs.Raw.{Length, indefinite};
ghost use Rattle.cbor_model.specs.Reader.{inside, parts_at, items_of, pairs_of, array_at, map_at};
ghost use Rattle.cbor_model.specs.Reader.{tag_at, after_first, item_at};
ghost use Rattle.cbor_decode.specs.Decoder.{formats_of, values_by, SameSettings};
ghost use Rattle.cbor_decode.specs.Gives.{ReportsNoKey};
ghost use Rattle.cbor_read.specs.Source.{asks_for};
ghost use Rattle.cbor_decode.specs.HasChunks.{AllRead, AsksToSkip, AsksWhere, raws_by};
ghost use Rattle.cbor_decode.specs.HasChunks.{HasChunks, SomeHasChunks, SomePairHasChunks};
ghost use Rattle.cbor_decode.specs.Memory.{MemoryOnly};
ghost use Rattle.cbor_decode.specs.Heads.{after_head, behind_head, remaining_of, passed};
ghost use Rattle.cbor_decode.specs.Steps as step;

use crate::Decoder;
use crate::cursor::{Collection, Remaining};
use crate::head::Head;
use crate::refusal::Done;
use cbor_read::{ReadErrorCode, Source};

impl<R: Source> Decoder<R> {
    /// Passes over an item, of which nothing is kept.
    ///
    /// A slice takes no memory for it, but where chunks of a string that it has are joined in a
    /// buffer that grows.
    #[cycle(skip)]
    #[tactic(auto, using(crate::proofs::Memory::none_asked))]
    pub fn skip(&mut self) -> Done<()>
        ensures read { step.Gives R.source R.refusals (λ u. u)
            (λ l bs. passed (item_at (values_by self.old.formats l) self.old.levels bs))
            self.old self.new result }
        ensures memory { IfErr result (MemoryOnly (AsksToSkip R.refusals R.lends HasChunks
            (λ l. item_at (raws_by self.old.formats l) self.old.levels)
            (R.source self.old.source)) self.new.refusal) }
        ensures no_key { formats_of self.old.formats ≡ all_formats
            → IfErr result (ReportsNoKey self.new.refusal) }
        ensures settings { SameSettings self.old self.new }
        ensures taken { OnOk result (step.Advances R.source self.old self.new) }
    {
        let first = self.byte()?;
        self.skip_from(first)
    }

    // Passes over what follows a first byte.
    #[cycle(skip)]
    #[tactic(auto, using(crate::proofs::Memory::none_asked))]
    fn skip_from(&mut self, first: u8) -> Done<()>
        ensures read { step.Gives R.source R.refusals (λ u. u)
            (λ l bs. passed (after_first (values_by self.old.formats l)
            (inside (values_by self.old.formats l) self.old.levels) first bs))
            self.old self.new result }
        ensures memory { IfErr result (MemoryOnly (AsksToSkip R.refusals R.lends HasChunks
            (λ l. after_first (raws_by self.old.formats l)
            (inside (raws_by self.old.formats l) self.old.levels) first)
            (R.source self.old.source)) self.new.refusal) }
        ensures no_key { formats_of self.old.formats ≡ all_formats
            → IfErr result (ReportsNoKey self.new.refusal) }
        ensures settings { SameSettings self.old self.new }
    {
        let head = self.head(first)?;
        self.skip_of(head)
    }

    /// Passes over what follows a head, as [`skip`](Decoder::skip) over an item.
    #[cycle(skip)]
    pub fn skip_of(&mut self, head: Head) -> Done<()>
        ensures read { step.Gives R.source R.refusals (λ u. u)
            (λ l bs. passed (after_head (formats_of self.old.formats) l
            (inside (values_by self.old.formats l) self.old.levels) head bs))
            self.old self.new result }
        ensures memory { IfErr result (MemoryOnly (AsksWhere (asks_for R.refusals R.lends)
            ((w : HeadWidth) → AllRead HasChunks (λ l. behind_head (raws_by self.old.formats l)
            (inside (raws_by self.old.formats l) self.old.levels) w head)
            (R.source self.old.source))) self.new.refusal) }
        ensures no_key { formats_of self.old.formats ≡ all_formats
            → IfErr result (ReportsNoKey self.new.refusal) }
        ensures settings { SameSettings self.old self.new }
    {
        match head {
            Head::Unsigned(_) => Ok(()),
            Head::Negative(_) => Ok(()),
            Head::Bytes(Some(n)) => self.skip_bytes(n),
            Head::Bytes(None) => self.skip_byte_chunks(),
            Head::Text(Some(n)) => self.skip_text(n),
            Head::Text(None) => self.skip_text_chunks(),
            Head::Array(remaining) => self.skip_array(remaining),
            Head::Map(remaining) => self.skip_map(remaining),
            Head::Tag(tag) => self.skip_tagged(tag),
            Head::Bool(_) => Ok(()),
            Head::Null => Ok(()),
            Head::Undefined => Ok(()),
            Head::Float(_) => Ok(()),
            Head::Break => Err(self.refuse(ReadErrorCode::UnexpectedCode)),
        }
    }

    // Passes over an array after its head.
    #[cycle(skip)]
    #[tactic(auto, using(crate::proofs::Memory::none_asked))]
    fn skip_array(&mut self, remaining: Remaining) -> Done<()>
        ensures read { step.Gives R.source R.refusals (λ u. u)
            (λ l bs. passed (array_at (values_by self.old.formats l)
            (inside (values_by self.old.formats l) self.old.levels) indefinite
            (remaining_of remaining) bs)) self.old self.new result }
        ensures memory { IfErr result (MemoryOnly (AsksWhere (asks_for R.refusals R.lends)
            ((n : Length) → AllRead HasChunks (λ l. array_at (raws_by self.old.formats l)
            (inside (raws_by self.old.formats l) self.old.levels) n (remaining_of remaining))
            (R.source self.old.source))) self.new.refusal) }
        ensures no_key { formats_of self.old.formats ≡ all_formats
            → IfErr result (ReportsNoKey self.new.refusal) }
        ensures settings { SameSettings self.old self.new }
    {
        self.enter()?;
        let passed = self.skip_items(remaining);
        self.levels += 1;
        passed
    }

    // Passes over the items that remain.
    #[cycle(skip)]
    #[inline(never)]
    #[tactic(auto, using(crate::proofs::Memory::none_asked))]
    fn skip_items(&mut self, mut remaining: Remaining) -> Done<()>
        ensures read { step.Gives R.source R.refusals (λ u. u)
            (λ l bs. passed (parts_at (items_of (values_by self.old.formats l)
            (item_at (values_by self.old.formats l) self.old.levels)) (remaining_of remaining) bs))
            self.old self.new result }
        ensures memory { IfErr result (MemoryOnly (AsksToSkip R.refusals R.lends SomeHasChunks
            (λ l. parts_at (items_of (raws_by self.old.formats l)
            (item_at (raws_by self.old.formats l) self.old.levels)) (remaining_of remaining))
            (R.source self.old.source)) self.new.refusal) }
        ensures no_key { formats_of self.old.formats ≡ all_formats
            → IfErr result (ReportsNoKey self.new.refusal) }
        ensures settings { SameSettings self.old self.new }
    {
        'items: while let Some(first) = self.next(&mut remaining, Collection::Array)? {
            self.skip_from(first)?;
        }
        Ok(())
    }

    // Passes over a map after its head.
    #[cycle(skip)]
    #[tactic(auto, using(crate::proofs::Memory::none_asked))]
    fn skip_map(&mut self, remaining: Remaining) -> Done<()>
        ensures read { step.Gives R.source R.refusals (λ u. u)
            (λ l bs. passed (map_at (values_by self.old.formats l)
            (inside (values_by self.old.formats l) self.old.levels) indefinite
            (remaining_of remaining) bs)) self.old self.new result }
        ensures memory { IfErr result (MemoryOnly (AsksWhere (asks_for R.refusals R.lends)
            ((n : Length) → AllRead HasChunks (λ l. map_at (raws_by self.old.formats l)
            (inside (raws_by self.old.formats l) self.old.levels) n (remaining_of remaining))
            (R.source self.old.source))) self.new.refusal) }
        ensures no_key { formats_of self.old.formats ≡ all_formats
            → IfErr result (ReportsNoKey self.new.refusal) }
        ensures settings { SameSettings self.old self.new }
    {
        self.enter()?;
        let passed = self.skip_pairs(remaining);
        self.levels += 1;
        passed
    }

    // Passes over the pairs that remain.
    #[cycle(skip)]
    #[inline(never)]
    #[tactic(auto, using(crate::proofs::Memory::none_asked))]
    fn skip_pairs(&mut self, mut remaining: Remaining) -> Done<()>
        ensures read { step.Gives R.source R.refusals (λ u. u)
            (λ l bs. passed (parts_at (pairs_of (values_by self.old.formats l)
            (item_at (values_by self.old.formats l) self.old.levels)) (remaining_of remaining) bs))
            self.old self.new result }
        ensures memory { IfErr result (MemoryOnly (AsksToSkip R.refusals R.lends SomePairHasChunks
            (λ l. parts_at (pairs_of (raws_by self.old.formats l)
            (item_at (raws_by self.old.formats l) self.old.levels)) (remaining_of remaining))
            (R.source self.old.source)) self.new.refusal) }
        ensures no_key { formats_of self.old.formats ≡ all_formats
            → IfErr result (ReportsNoKey self.new.refusal) }
        ensures settings { SameSettings self.old self.new }
    {
        'pairs: while let Some(first) = self.next(&mut remaining, Collection::Map)? {
            if !self.formats.may_begin_key(first) {
                return Err(self.refuse_back(ReadErrorCode::WrongStructFormat, 1));
            }
            self.skip_from(first)?;
            self.skip()?;
        }
        Ok(())
    }

    // Passes over a tagged item after the tag's head.
    #[cycle(skip)]
    #[tactic(auto, using(crate::proofs::Memory::none_asked))]
    fn skip_tagged(&mut self, tag: u64) -> Done<()>
        ensures read { step.Gives R.source R.refusals (λ u. u)
            (λ l bs. passed (tag_at (values_by self.old.formats l)
            (inside (values_by self.old.formats l) self.old.levels) no_bytes tag bs))
            self.old self.new result }
        ensures memory { IfErr result (MemoryOnly (AsksWhere (asks_for R.refusals R.lends)
            ((w : HeadWidth) → AllRead HasChunks (λ l. tag_at (raws_by self.old.formats l)
            (inside (raws_by self.old.formats l) self.old.levels) w tag)
            (R.source self.old.source))) self.new.refusal) }
        ensures no_key { formats_of self.old.formats ≡ all_formats
            → IfErr result (ReportsNoKey self.new.refusal) }
        ensures settings { SameSettings self.old self.new }
    {
        self.enter()?;
        let passed = self.skip();
        self.levels += 1;
        passed
    }
}

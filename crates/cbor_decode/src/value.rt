//! The item at the front of a source, as a value.

ghost use Rattle.std.specs.Prelude.{IfErr, OnOk};
ghost use Rattle.cbor_model.specs.Head.{no_bytes};
ghost use Rattle.cbor_model.specs.Plain as plain;
ghost use Rattle.cbor_model.specs.Raw.{indefinite};
ghost use Rattle.cbor_model.specs.Reader.{inside, parts_at, items_of, pairs_of, array_at, map_at};
ghost use Rattle.cbor_model.specs.Reader.{tag_at, after_first, item_at, counted};
ghost use Rattle.cbor_value.specs.View.{view, views, map_view};
ghost use Rattle.cbor_decode.specs.Decoder.{formats_of, values_by, SameSettings};
ghost use Rattle.cbor_decode.specs.Heads.{after_head, remaining_of, made_of};
ghost use Rattle.cbor_decode.specs.Memory.{IsStoredHead, MemoryOnly, ReadsStored};
ghost use Rattle.cbor_decode.specs.Steps as step;

use crate::Decoder;
use crate::capacity::push;
use crate::cursor::{Collection, Remaining};
use crate::head::Head;
use crate::refusal::{Done, Refused};
use cbor_read::{ReadErrorCode, Source};
use cbor_value::{Map, Value};

impl<R: Source> Decoder<R> {
    /// Reads an item.
    #[cycle(read)]
    #[inline(always)]
    #[tactic(auto, using(crate::proofs::Memory::none_asked))]
    pub fn value(&mut self) -> Done<Value>
        ensures read { step.Gives R.source R.refusals view
            (λ l. item_at (values_by self.old.formats l) self.old.levels) self.old self.new result }
        ensures taken { OnOk result (step.Advances R.source self.old self.new) }
        ensures memory { IfErr result (MemoryOnly (ReadsStored
            (λ l. item_at (values_by self.old.formats l) self.old.levels)
            (R.source self.old.source)) self.new.refusal) }
        ensures settings { SameSettings self.old self.new }
    {
        let first = self.byte()?;
        self.value_from(first)
    }

    /// Reads what follows a first byte.
    #[cycle(read)]
    #[inline(always)]
    #[tactic(auto, using(crate::proofs::Memory::none_asked))]
    fn value_from(&mut self, first: u8) -> Done<Value>
        ensures read { step.Gives R.source R.refusals view
            (λ l. after_first (values_by self.old.formats l)
            (inside (values_by self.old.formats l) self.old.levels) first)
            self.old self.new result }
        ensures memory { IfErr result (MemoryOnly (ReadsStored
            (λ l. after_first (values_by self.old.formats l)
            (inside (values_by self.old.formats l) self.old.levels) first)
            (R.source self.old.source)) self.new.refusal) }
        ensures settings { SameSettings self.old self.new }
    {
        match first {
            // Numbers, which most items are, without a head between.
            0x00..=0x1b => self.unsigned_from(first),
            0xf9..=0xfb => self.float_from(first),
            _ => {
                let head = self.head(first)?;
                self.value_of(head)
            }
        }
    }

    /// Reads what follows a head.
    #[cycle(read)]
    #[inline(always)]
    #[tactic(auto, using(crate::proofs::Memory::none_asked))]
    fn value_of(&mut self, head: Head) -> Done<Value>
        ensures read { step.Gives R.source R.refusals view
            (λ l. after_head (formats_of self.old.formats) l
            (inside (values_by self.old.formats l) self.old.levels) head) self.old self.new result }
        ensures memory { IfErr result (MemoryOnly (IsStoredHead head) self.new.refusal) }
        ensures settings { SameSettings self.old self.new }
    {
        match head {
            Head::Unsigned(n) => Ok(Value::Integer(n as i128)),
            Head::Negative(n) => Ok(Value::Integer(-1 - n as i128)),
            Head::Bytes(Some(n)) => Ok(Value::Bytes(self.bytes(n)?)),
            Head::Bytes(None) => Ok(Value::Bytes(self.byte_chunks()?)),
            Head::Text(Some(n)) => Ok(Value::Text(self.text(n)?)),
            Head::Text(None) => Ok(Value::Text(self.text_chunks()?)),
            Head::Array(remaining) => Ok(Value::Array(self.array(remaining)?)),
            Head::Map(remaining) => Ok(Value::Map(self.map(remaining)?)),
            Head::Tag(tag) => Ok(Value::Tag(tag, self.tagged(tag)?)),
            Head::Bool(b) => Ok(Value::Bool(b)),
            Head::Null | Head::Undefined => Ok(Value::Null),
            Head::Float(float) => Ok(Value::Float(float)),
            Head::Break => Err(self.refuse(ReadErrorCode::UnexpectedCode)),
        }
    }

    /// Reads an array after its head.
    #[cycle(read)]
    #[inline(never)]
    fn array(&mut self, remaining: Remaining) -> Done<Vec<Value>>
        ensures read { step.Gives R.source R.refusals (λ v. plain.array (views v.items))
            (λ l. array_at (values_by self.old.formats l)
            (inside (values_by self.old.formats l) self.old.levels) indefinite
            (remaining_of remaining)) self.old self.new result }
        ensures settings { SameSettings self.old self.new }
    {
        self.enter()?;
        let items = self.all_items(remaining);
        self.levels += 1;
        items
    }

    /// Reads the items that remain. One alone, as a level of a nest holds it, takes no loop.
    #[cycle(read)]
    #[inline(always)]
    fn all_items(&mut self, remaining: Remaining) -> Done<Vec<Value>>
        ensures read { step.Gives R.source R.refusals (λ v. views v.items)
            (λ l. parts_at
            (items_of (values_by self.old.formats l)
            (item_at (values_by self.old.formats l) self.old.levels)) (remaining_of remaining))
            self.old self.new result }
        ensures settings { SameSettings self.old self.new }
    {
        match remaining {
            Remaining::Counted(1) => self.one_item(),
            _ => self.items(remaining),
        }
    }

    /// Reads the one item that remains.
    #[cycle(read)]
    #[inline(always)]
    fn one_item(&mut self) -> Done<Vec<Value>>
        ensures read { step.Gives R.source R.refusals (λ v. views v.items)
            (λ l. parts_at
            (items_of (values_by self.old.formats l)
            (item_at (values_by self.old.formats l) self.old.levels)) (counted 1))
            self.old self.new result }
        ensures settings { SameSettings self.old self.new }
    {
        let item = self.value()?;
        let mut items = Vec::new(self.alloc);
        items.reserve_exact(1)?;
        items.push_reserved(item);
        Ok(items)
    }

    /// Reads the items that remain.
    #[cycle(read)]
    #[inline(never)]
    fn items(&mut self, mut remaining: Remaining) -> Done<Vec<Value>>
        ensures read { step.Gives R.source R.refusals (λ v. views v.items)
            (λ l. parts_at
            (items_of (values_by self.old.formats l)
            (item_at (values_by self.old.formats l) self.old.levels)) (remaining_of remaining))
            self.old self.new result }
        ensures settings { SameSettings self.old self.new }
    {
        let mut items = Vec::new(self.alloc);
        'items: while let Some(first) = self.next(&mut remaining, Collection::Array)? {
            let item = self.value_from(first)?;
            push(&mut items, item, remaining)?;
        }
        Ok(items)
    }

    /// Reads a map after its head.
    #[cycle(read)]
    fn map(&mut self, remaining: Remaining) -> Done<Map>
        ensures read { step.Gives R.source R.refusals (λ m. plain.map (map_view m))
            (λ l. map_at (values_by self.old.formats l)
            (inside (values_by self.old.formats l) self.old.levels) indefinite
            (remaining_of remaining)) self.old self.new result }
        ensures settings { SameSettings self.old self.new }
    {
        self.enter()?;
        let map = self.pairs(remaining);
        self.levels += 1;
        map
    }

    /// Reads the pairs that remain.
    #[cycle(read)]
    #[inline(never)]
    fn pairs(&mut self, mut remaining: Remaining) -> Done<Map>
        ensures read { step.Gives R.source R.refusals map_view
            (λ l bs. made_of (parts_at (pairs_of (values_by self.old.formats l)
            (item_at (values_by self.old.formats l) self.old.levels)) (remaining_of remaining) bs))
            self.old self.new result }
        ensures settings { SameSettings self.old self.new }
    {
        let mut pairs = Vec::new(self.alloc);
        'pairs: while let Some(first) = self.next(&mut remaining, Collection::Map)? {
            if !self.formats.may_begin_key(first) {
                return Err(self.refuse_back(ReadErrorCode::WrongStructFormat, 1));
            }
            let key = self.value_from(first)?;
            let value = self.value()?;
            push(&mut pairs, (key, value), remaining)?;
        }
        match Map::from_pairs(pairs) {
            Ok(map) => Ok(map),
            Err(_) => Err(Refused::OutOfMemory),
        }
    }

    /// Reads a tagged item after the tag's head.
    #[cycle(read)]
    fn tagged(&mut self, tag: u64) -> Done<Box<Value>>
        ensures read { step.Gives R.source R.refusals (λ b. plain.tag tag (view b.value))
            (λ l. tag_at (values_by self.old.formats l)
            (inside (values_by self.old.formats l) self.old.levels) no_bytes tag)
            self.old self.new result }
        ensures settings { SameSettings self.old self.new }
    {
        self.enter()?;
        let value = self.boxed();
        self.levels += 1;
        value
    }

    /// Reads an item to a place of its own.
    #[cycle(read)]
    #[inline(never)]
    fn boxed(&mut self) -> Done<Box<Value>>
        ensures read { step.Gives R.source R.refusals (λ b. view b.value)
            (λ l. item_at (values_by self.old.formats l) self.old.levels) self.old self.new result }
        ensures settings { SameSettings self.old self.new }
    {
        let value = self.value()?;
        Ok(Box::new(self.alloc, value)?)
    }
}

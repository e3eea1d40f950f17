//! The bytes of the events so far, and what is due after them.

ghost use Rattle.std.specs.Prelude.{◌≡◌, ◌≤◌, ◌++◌, ℕ, List, [], Some, None, true, false, length};
ghost use Rattle.std.specs.Prelude.{IfErr, IfOk, OnErr, OnOk};
ghost use Rattle.serde.specs.Spelling.{spelled};
ghost use Rattle.serde.specs.declared.name.NameKind.TheVariants.{Field};
ghost use Rattle.cbor_serde_ser.specs.Document.{after_item, begins, start, item, opened, opens};
ghost use Rattle.cbor_serde_ser.specs.Document.{is_plain, is_text, level_start, name_bytes};
ghost use Rattle.cbor_serde_ser.specs.Document.{ends, whole};
ghost use Rattle.cbor_serde_ser.specs.Reasons.{IsEventErrorFor};
ghost use Rattle.cbor_serde_ser.specs.State.{MayNot, state};
ghost use Rattle.cbor_serde_ser.specs.declared.reason.Reason.TheVariants.{OutOfMemory, TooDeep};

use crate::bytes::{put, put_head, put_name};
use crate::event_error::EventError;
use crate::level::Level;
use crate::reason::{Reason, Step};
use crate::written::Written;
use cbor_io::head::Major;
use cbor_serde_options::{Options, number_of};
use serde::{Case, NameKind};
use std::alloc::Global;

/// How many arrays and maps may stand inside one another.
const MAX_LEVELS: usize = 127;

/// What is written so far, and what is due (`specs/State.antt`).
#[derive(Drop)]
pub(crate) struct Writer {
    pub(crate) alloc: Global,
    pub(crate) out: Written,
    pub(crate) options: Options,
    // The innermost of what is open, and those around it, the nearest last.
    pub(crate) level: Level,
    pub(crate) outer: Vec<Level>,
    // Whether the next map's members go into the map that is open.
    pub(crate) flattens: bool,
    // The length that a map declares whose head waits for what comes first in it.
    pub(crate) begun: Option<Option<u64>>,
    // Room for a name in another case, and for printed text.
    pub(crate) text_buffer: String,
}

impl Writer {
    /// Nothing is written, and one item is due.
    pub(crate) fn new(alloc: Global, options: Options) -> Writer
        ensures state { state result ≡ start }
        ensures options { result.options ≡ options }
    {
        Writer {
            alloc,
            out: Written::new(alloc),
            options,
            level: Level::document(),
            outer: Vec::new(alloc),
            flattens: false,
            begun: None,
            text_buffer: String::new(alloc),
        }
    }

    /// The refusal of a step, for this reason.
    #[cold]
    #[inline(never)]
    pub(crate) fn refusal(&self, reason: Reason) -> EventError
        ensures { IsEventErrorFor reason (length self.now.out) result }
    {
        EventError::of(self.alloc, reason, self.out.len() as u64)
    }

    /// The whole document, by these options, which are the serializer's.
    pub(crate) fn finish(self, options: Options) -> Step<Vec<u8>>
        ensures options { OnOk result (self.options ≡ options) }
        ensures whole { IfOk result (λ bytes. whole (state self) ≡ Some bytes.items) }
        ensures refused { OnErr result ((self.options ≡ options) → whole (state self) ≡ None) }
    {
        if self.options != options {
            return Err(Reason::OtherOptions);
        }
        let is_full = !self.level.at_value && self.level.left == Some(0);
        if !self.outer.is_empty() || self.flattens || !is_full {
            return Err(Reason::NotWhole);
        }
        let Writer { out, .. } = self;
        Ok(out.into_vec())
    }

    // Writes the head that waits, where what comes is no field.
    #[inline(always)]
    pub(crate) fn settle(&mut self) -> Step<()>
        ensures begins { OnOk result
            (begins false (state self.old) self.old.begun ≡ Some (state self.new)) }
        ensures options { self.new.options ≡ self.old.options }
        ensures refused { IfErr result (MayNot (begins false (state self.old) self.old.begun)) }
    {
        match self.begun {
            None => Ok(()),
            Some(left) => self.begin_at_last(left, false),
        }
    }

    // Writes the head that waits, where a field comes.
    #[inline(always)]
    pub(crate) fn settle_field(&mut self, name: &str, case: Case) -> Step<()>
        ensures begins { OnOk result
            (begins (is_plain self.old.options.integer_keys (spelled case Field name.now))
            (state self.old) self.old.begun ≡ Some (state self.new)) }
        ensures options { self.new.options ≡ self.old.options }
        ensures refused { IfErr result (MayNot
            (begins (is_plain self.old.options.integer_keys (spelled case Field name.now))
            (state self.old) self.old.begun)) }
    {
        match self.begun {
            None => Ok(()),
            Some(left) => {
                let is_field = self.is_plain(name, case)?;
                self.begin_at_last(left, is_field)
            }
        }
    }

    // Whether the name of a field is no integer, where names may be integers.
    #[inline(never)]
    fn is_plain(&mut self, name: &str, case: Case) -> Step<bool>
        ensures plain { IfOk result
            (λ b. b ≡ is_plain self.old.options.integer_keys (spelled case Field name.now)) }
        ensures rest { self.new ≡ record self.old { text_buffer = self.new.text_buffer } }
        ensures refused { IfErr result (λ why. why ≡ OutOfMemory) }
    {
        if !self.options.integer_keys {
            return Ok(true);
        }
        self.text_buffer.clear();
        case.append(NameKind::Field, name, &mut self.text_buffer)?;
        Ok(number_of(self.text_buffer.as_str()).is_none())
    }

    // Writes the head of the map that waits.
    #[inline(never)]
    fn begin_at_last(&mut self, left: Option<u64>, is_field: bool) -> Step<()>
        ensures begins { OnOk result
            (begins is_field (state self.old) (Some left) ≡ Some (state self.new)) }
        ensures options { self.new.options ≡ self.old.options }
        ensures refused { IfErr result (MayNot (begins is_field (state self.old) (Some left))) }
    {
        self.begun = None;
        self.begin(left, !is_field)?;
        self.level.drops_names = is_field;
        Ok(())
    }

    // An item comes, where nothing waits.
    #[inline(always)]
    pub(crate) fn item(&mut self) -> Step<()>
        ensures due { OnOk result ((self.old.flattens ≡ false)
            × (after_item self.old.level ≡ Some self.new.level)) }
        ensures rest { self.new ≡ record self.old { level = self.new.level } }
        ensures refused { OnErr result ((bytes : List ℕ) → item (state self.old) bytes ≡ None) }
        ensures depth { IfErr result (λ why. why ≡ TooDeep → ⊥) }
    {
        if self.flattens {
            return Err(Reason::NotFlat);
        }
        if !self.level.count_item() {
            return Err(Reason::TooManyItems);
        }
        Ok(())
    }

    // An array or a map begins.
    #[inline(never)]
    #[tactic(auto, using(crate::proofs::Opening::few_around, crate::proofs::StringsInMemory::count_passes))]
    pub(crate) fn begin(&mut self, left: Option<u64>, is_map: bool) -> Step<()>
        ensures opens { OnOk result
            (let level = opened left is_map in
            opens (state self.old) (level_start level) level ≡ Some (state self.new)) }
        ensures options { self.new.options ≡ self.old.options }
        ensures refused { IfErr result (let level = opened left is_map in
            MayNot (opens (state self.old) (level_start level) level)) }
        // It is too deep only where 127 are open, and said to be so where an item is due.
        ensures depth { IfErr result (λ why. why ≡ TooDeep → 127 ≤ length self.old.outer.items) }
        ensures due { IfErr result (λ why. (why ≡ TooDeep → ⊥)
            → MayNot (item (state self.old) []) why) }
    {
        self.item()?;
        match left {
            Some(n) => {
                let major = if is_map { Major::Map } else { Major::Array };
                put_head(&mut self.out, major, n)?;
            }
            None => put(&mut self.out, &[if is_map { 0xbf } else { 0x9f }])?,
        }
        if MAX_LEVELS <= self.outer.len() {
            return Err(Reason::TooDeep);
        }
        self.outer.reserve(1)?;
        self.outer.push_reserved(self.level);
        self.level = Level::open(left, is_map);
        Ok(())
    }

    // It ends, or a map within it ends whose members are its own.
    pub(crate) fn end(&mut self) -> Step<()>
        ensures ends { OnOk result (ends (state self.old) ≡ Some (state self.new)) }
        ensures options { self.new.options ≡ self.old.options }
        ensures refused { IfErr result (MayNot (ends (state self.old))) }
    {
        if self.level.flat != 0 {
            self.level.flat -= 1;
            return Ok(());
        }
        if !self.level.is_full() {
            return Err(Reason::TooFewItems);
        }
        let Some(outer) = self.outer.pop() else {
            return Err(Reason::NothingOpen);
        };
        let ended = self.level;
        self.level = outer;
        if ended.left.is_none() {
            put(&mut self.out, &[0xff])?;
        }
        Ok(())
    }

    // A name comes, as an item.
    #[inline(always)]
    pub(crate) fn name(
        &mut self,
        name: &str,
        case: Case,
        kind: NameKind,
        as_integer: bool,
    ) -> Step<()>
        ensures text { OnOk result (is_text (spelled case kind name.now) ≡ true) }
        ensures item { OnOk result (item (state self.old)
            (name_bytes as_integer (spelled case kind name.now)) ≡ Some (state self.new)) }
        ensures options { self.new.options ≡ self.old.options }
        ensures refused { IfErr result (MayNot (item (state self.old)
            (name_bytes as_integer (spelled case kind name.now)))) }
    {
        self.item()?;
        if let Case::AsIs = case {
            return put_name(&mut self.out, name, as_integer);
        }
        self.put_spelled(name, case, kind, as_integer)
    }

    // Appends a name in another case.
    #[inline(never)]
    fn put_spelled(&mut self, name: &str, case: Case, kind: NameKind, as_integer: bool) -> Step<()>
        ensures text { OnOk result (is_text (spelled case kind name.now) ≡ true) }
        ensures appended { OnOk result (state self.new ≡ record (state self.old) {
          bytes = self.old.out ++ name_bytes as_integer (spelled case kind name.now);
        }) }
        ensures options { self.new.options ≡ self.old.options }
        ensures refused { IfErr result (λ why. why ≡ OutOfMemory) }
    {
        self.text_buffer.clear();
        case.append(kind, name, &mut self.text_buffer)?;
        put_name(&mut self.out, self.text_buffer.as_str(), as_integer)
    }
}

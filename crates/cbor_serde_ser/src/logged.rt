//! A `Writer` that keeps the events which it was sent, for proofs.

ghost use Rattle.std.specs.Prelude.{◌≡◌, [], Some, None, true, false, is_some, IfOk, IfSome};
ghost use Rattle.std.specs.Prelude.{MatchResult};
ghost use Rattle.cbor_serde_options.specs.declared.options.Options.{Options};
ghost use Rattle.serde.specs.Event.{Logs};
ghost use Rattle.cbor_serde_ser.specs.Follows.{Follows};
ghost use Rattle.cbor_serde_ser.specs.Noted.{event_of};
ghost use Rattle.cbor_serde_ser.specs.Document.{State, step, AreBytesOf, IsItem};
ghost use Rattle.cbor_serde_ser.specs.State.{state};

use crate::event_error::EventError;
use crate::log::{Log, Note};
use crate::reason::{Reason, Step};
use crate::writer::Writer;
use cbor_serde_options::Options;
use serde::{Case, Serializer};
use std::alloc::Global;

#[derive(Drop)]
pub struct Logged {
    writer: Writer,
    log: Log,
    // Whether a step was refused, after which what was sent is not known.
    refused: bool,
    ghost follows: { Follows writer.options log.events (state writer) },
    ghost known: { refused ≡ false → is_some log.events ≡ true },
}

impl Logged {
    pub fn new(alloc: Global, options: Options) -> Logged
        ensures events { result.log.events ≡ Some [] }
        ensures options { result.writer.options ≡ options }
    {
        Logged {
            writer: Writer::new(alloc, options),
            log: Log::new(),
            refused: false,
        }
    }

    /// The bytes of the document of the events, by these options, which are the serializer's. After
    /// a step that was refused there are none.
    pub fn finish(self, options: Options) -> Result<Vec<u8>, EventError>
        ensures events { IfOk result (λ bytes. AreBytesOf options self.log.events bytes.items) }
        ensures item { IfOk result (λ bytes. IsItem bytes.items) }
    {
        let Logged {
            writer,
            refused,
            ..
        } = self;
        if let Err(reason) = unless_refused(refused) {
            return Err(writer.refusal(reason));
        }
        let alloc = writer.alloc;
        let written = writer.out.len() as u64;
        match writer.finish(options) {
            Ok(bytes) => Ok(bytes),
            Err(reason) => Err(EventError::of(alloc, reason, written)),
        }
    }
}

// After a step that was refused there is no document.
fn unless_refused(refused: bool) -> Step<()>
    ensures { MatchResult result (λ _. refused ≡ false) (λ _. refused ≡ true) }
{
    if refused {
        return Err(Reason::RefusedBefore);
    }
    Ok(())
}

impl Serializer for Logged {
    type Error = EventError;

    ghost written = { λ s. s.log.events };

    #[inline(always)]
    fn bool(&mut self, v: bool) -> Result<(), EventError> {
        if let Err(reason) = self.writer.bool(v) {
            self.refused = true;
            self.log = after(&self.log, Note::Lost);
            return Err(self.writer.refusal(reason));
        }
        self.log = after(&self.log, Note::Bool(v));
        Ok(())
    }

    #[inline(always)]
    fn i64(&mut self, v: i64) -> Result<(), EventError> {
        if let Err(reason) = self.writer.i64(v) {
            self.refused = true;
            self.log = after(&self.log, Note::Lost);
            return Err(self.writer.refusal(reason));
        }
        self.log = after(&self.log, Note::I64(v));
        Ok(())
    }

    #[inline(always)]
    fn u64(&mut self, v: u64) -> Result<(), EventError> {
        if let Err(reason) = self.writer.u64(v) {
            self.refused = true;
            self.log = after(&self.log, Note::Lost);
            return Err(self.writer.refusal(reason));
        }
        self.log = after(&self.log, Note::U64(v));
        Ok(())
    }

    #[inline(always)]
    fn i128(&mut self, v: i128) -> Result<(), EventError> {
        if let Err(reason) = self.writer.i128(v) {
            self.refused = true;
            self.log = after(&self.log, Note::Lost);
            return Err(self.writer.refusal(reason));
        }
        self.log = after(&self.log, Note::I128(v));
        Ok(())
    }

    #[inline(always)]
    fn u128(&mut self, v: u128) -> Result<(), EventError> {
        if let Err(reason) = self.writer.u128(v) {
            self.refused = true;
            self.log = after(&self.log, Note::Lost);
            return Err(self.writer.refusal(reason));
        }
        self.log = after(&self.log, Note::U128(v));
        Ok(())
    }

    #[inline(always)]
    fn f32(&mut self, v: f32) -> Result<(), EventError> {
        if let Err(reason) = self.writer.f32(v) {
            self.refused = true;
            self.log = after(&self.log, Note::Lost);
            return Err(self.writer.refusal(reason));
        }
        self.log = after(&self.log, Note::Single(v));
        Ok(())
    }

    #[inline(always)]
    fn f64(&mut self, v: f64) -> Result<(), EventError> {
        if let Err(reason) = self.writer.f64(v) {
            self.refused = true;
            self.log = after(&self.log, Note::Lost);
            return Err(self.writer.refusal(reason));
        }
        self.log = after(&self.log, Note::Double(v));
        Ok(())
    }

    #[inline(always)]
    fn char(&mut self, v: char) -> Result<(), EventError> {
        if let Err(reason) = self.writer.char(v) {
            self.refused = true;
            self.log = after(&self.log, Note::Lost);
            return Err(self.writer.refusal(reason));
        }
        self.log = after(&self.log, Note::Char(v));
        Ok(())
    }

    #[inline(always)]
    fn str(&mut self, v: &str) -> Result<(), EventError> {
        if let Err(reason) = self.writer.str(v) {
            self.refused = true;
            self.log = after(&self.log, Note::Lost);
            return Err(self.writer.refusal(reason));
        }
        self.log = after(&self.log, Note::Text(v));
        Ok(())
    }

    #[inline(always)]
    fn bytes(&mut self, v: &[u8]) -> Result<(), EventError> {
        if let Err(reason) = self.writer.bytes(v) {
            self.refused = true;
            self.log = after(&self.log, Note::Lost);
            return Err(self.writer.refusal(reason));
        }
        self.log = after(&self.log, Note::Bytes(v));
        Ok(())
    }

    #[inline(always)]
    fn unit(&mut self) -> Result<(), EventError> {
        if let Err(reason) = self.writer.unit() {
            self.refused = true;
            self.log = after(&self.log, Note::Lost);
            return Err(self.writer.refusal(reason));
        }
        self.log = after(&self.log, Note::Unit);
        Ok(())
    }

    #[inline(always)]
    fn str_cased(&mut self, name: &str, case: Case) -> Result<(), EventError> {
        if let Err(reason) = self.writer.str_cased(name, case) {
            self.refused = true;
            self.log = after(&self.log, Note::Lost);
            return Err(self.writer.refusal(reason));
        }
        self.log = after(&self.log, Note::UnitVariant(name, case));
        Ok(())
    }

    #[inline(always)]
    fn begin_seq(&mut self, len: Option<usize>) -> Result<(), EventError> {
        if let Err(reason) = self.writer.begin_seq(len) {
            self.refused = true;
            self.log = after(&self.log, Note::Lost);
            return Err(self.writer.refusal(reason));
        }
        self.log = after(&self.log, Note::BeginSeq(len));
        Ok(())
    }

    #[inline(always)]
    fn end_seq(&mut self) -> Result<(), EventError> {
        if let Err(reason) = self.writer.end_seq() {
            self.refused = true;
            self.log = after(&self.log, Note::Lost);
            return Err(self.writer.refusal(reason));
        }
        self.log = after(&self.log, Note::EndSeq);
        Ok(())
    }

    #[inline(always)]
    fn begin_map(&mut self, len: Option<usize>) -> Result<(), EventError> {
        if let Err(reason) = self.writer.begin_map(len) {
            self.refused = true;
            self.log = after(&self.log, Note::Lost);
            return Err(self.writer.refusal(reason));
        }
        self.log = after(&self.log, Note::BeginMap(len));
        Ok(())
    }

    #[inline(always)]
    fn end_map(&mut self) -> Result<(), EventError> {
        if let Err(reason) = self.writer.end_map() {
            self.refused = true;
            self.log = after(&self.log, Note::Lost);
            return Err(self.writer.refusal(reason));
        }
        self.log = after(&self.log, Note::EndMap);
        Ok(())
    }

    #[inline(always)]
    fn key_cased(&mut self, name: &str, case: Case) -> Result<(), EventError> {
        if let Err(reason) = self.writer.key_cased(name, case) {
            self.refused = true;
            self.log = after(&self.log, Note::Lost);
            return Err(self.writer.refusal(reason));
        }
        self.log = after(&self.log, Note::FieldKey(name, case));
        Ok(())
    }

    #[inline(always)]
    fn variant_key(&mut self, name: &str, case: Case) -> Result<(), EventError> {
        if let Err(reason) = self.writer.variant_key(name, case) {
            self.refused = true;
            self.log = after(&self.log, Note::Lost);
            return Err(self.writer.refusal(reason));
        }
        self.log = after(&self.log, Note::VariantKey(name, case));
        Ok(())
    }

    #[inline(always)]
    fn begin_key(&mut self) -> Result<(), EventError> {
        if let Err(reason) = self.writer.begin_key() {
            self.refused = true;
            self.log = after(&self.log, Note::Lost);
            return Err(self.writer.refusal(reason));
        }
        self.log = after(&self.log, Note::BeginKey);
        Ok(())
    }

    #[inline(always)]
    fn end_key(&mut self) -> Result<(), EventError> {
        if let Err(reason) = self.writer.end_key() {
            self.refused = true;
            self.log = after(&self.log, Note::Lost);
            return Err(self.writer.refusal(reason));
        }
        self.log = after(&self.log, Note::EndKey);
        Ok(())
    }

    #[inline(always)]
    fn flatten_next(&mut self) -> Result<(), EventError> {
        if let Err(reason) = self.writer.flatten_next() {
            self.refused = true;
            self.log = after(&self.log, Note::Lost);
            return Err(self.writer.refusal(reason));
        }
        self.log = after(&self.log, Note::Flatten);
        Ok(())
    }

    fn collect_str<T: std::fmt::Display>(&mut self, value: &T) -> Result<(), EventError> {
        if let Err(reason) = self.writer.collect_str(value) {
            self.refused = true;
            self.log = after(&self.log, Note::Lost);
            return Err(self.writer.refusal(reason));
        }
        self.log = after(&self.log, Note::Text(self.writer.text_buffer.as_str()));
        Ok(())
    }

    fn custom(&self, message: &str) -> EventError {
        EventError::message(self.writer.alloc, message)
    }
}

#[inline(always)]
fn after(log: &Log, note: Note<'_>) -> Log
    ensures logs { IfSome (event_of note.entry) (Logs log.now.events result.events) }
    ensures follows { (o p : Options) (old new : State) → Follows o log.now.events old
        → p ≡ o → IfSome (event_of note.entry) (λ e. step o old e ≡ Some new)
        → Follows p result.events new }
    ensures known { is_some (event_of note.entry) ≡ true → is_some log.now.events ≡ true
        → is_some result.events ≡ true }
    ensures lost { note.entry ≡ Note.Lost → result.events ≡ None }
{
    log.then(&note)
}

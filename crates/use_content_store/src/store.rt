//! A store of values by their contents: each stands under the hash of its canonical encoding.

ghost use Rattle.std.specs.Prelude.{◌≡◌, ◌⊎◌, ◌↔◌, ℕ, List, Some, None};
ghost use Rattle.std.specs.Prelude.{IfErr, IfOk, IsTrue, MatchOption, OnErr, OnOk};
ghost use Rattle.std.specs.Io.KnownBytes.{Appends};
ghost use Rattle.serde_cbor.specs.Allowed.{limits_of};
ghost use Rattle.serde_cbor.specs.Canonical.{canon};
ghost use Rattle.serde_cbor.specs.Document.{document_of, IsStorableDocument};
ghost use Rattle.serde_cbor.specs.Error.{IsOutOfMemory};
ghost use Rattle.serde_cbor.specs.FirstRefusal.{ReportsFirst};
ghost use Rattle.serde_cbor.specs.Laws.{SpellsValue};
ghost use Rattle.serde_cbor.specs.Plain.{Val};
ghost use Rattle.serde_cbor.specs.View.{view};
ghost use Rattle.serde_cbor.specs.Write.{AppendsBeginning};
ghost use Rattle.serde_cbor.specs.Written.{IsNotWritten};
ghost use Rattle.use_content_store.specs.Store.{address, at, Holds, HoldsTheSame, Puts, written};

use serde_cbor::error::Result;
use serde_cbor::write::Write;
use serde_cbor::{Value, from_slice, to_vec};
use sha2::{Digest, Sha256};
use std::alloc::Global;
use std::collections::BTreeMap;

/// Values, each under its address: the SHA-256 of its canonical encoding.
#[derive(Debug, Drop)]
pub struct Store {
    entries: BTreeMap<[u8; 32], Vec<u8>>,
}

/// What came of [`Store::put`].
#[derive(Clone, Copy, Debug, PartialEq, Eq)]
pub enum Put {
    /// The store holds the value.
    Stored,
    /// Another value has its address, and the store is as it was.
    Collision,
}

impl Store {
    /// A store that holds nothing.
    pub fn new(alloc: Global) -> Store
        ensures { (hash : List ℕ) → at result hash ≡ None }
    {
        let entries = BTreeMap::new(alloc);
        Store { entries }
    }

    /// The value that the bytes encode, in whichever encoding, if the store holds it.
    ///
    /// It refuses what `from_slice` refuses.
    pub fn get(&self, alloc: Global, bytes: &[u8]) -> Result<Option<Value>>
        ensures found { IfOk result (λ found. MatchOption found
            ((v : Val) → SpellsValue bytes.now v → Holds self.now v → ⊥)
            (λ v. SpellsValue bytes.now (view v) × Holds self.now (view v))) }
        ensures refused { IfErr result
            (λ e. IsOutOfMemory e ⊎ ReportsFirst (limits_of None) bytes.now e) }
    {
        let value: Value = from_slice(alloc, bytes)?;
        let (hash, bytes) = entry_of(alloc, &value)?;
        if !self.has(&hash, &bytes) {
            return Ok(None);
        }
        Ok(Some(value))
    }

    /// Puts a value into the store; where it wasn't there, its canonical encoding is written to the
    /// log first, by one call.
    ///
    /// It refuses what `to_vec` refuses, and what the log refuses. After an error the store holds
    /// what it held; some or all of the encoding may have been written.
    pub fn put<W: Write>(&mut self, alloc: Global, log: &mut W, value: Value) -> Result<Put>
        ensures ok { IfOk result (Puts self.old (view value) self.new) }
        ensures wrote { OnOk result (Appends (W.written log.old) (W.written log.new)
            (written (at self.old (address (view value))) (view value))) }
        ensures err { OnErr result (HoldsTheSame self.old self.new) }
        ensures part { OnErr result
            (AppendsBeginning (canon (view value)) (W.written log.old) (W.written log.new)) }
        ensures refused { IfErr result (λ e. W.refuses log.new e
            ⊎ IsNotWritten (IsStorableDocument (document_of (view value))) e) }
    {
        let (hash, bytes) = entry_of(alloc, &value)?;
        if self.has(&hash, &bytes) {
            return Ok(Put::Stored);
        }
        if !self.is_free(&hash) {
            return Ok(Put::Collision);
        }
        log.write_all(&bytes)?;
        self.entries.insert(hash, bytes)?;
        Ok(Put::Stored)
    }

    // Whether these bytes stand under the hash.
    fn has(&self, hash: &[u8; 32], bytes: &[u8]) -> bool
        ensures { IsTrue result ↔ (at self.now hash.now ≡ Some bytes.now) }
    {
        match self.entries.get(hash) {
            Some(stored) => stored.as_slice() == bytes,
            None => false,
        }
    }

    // Whether none do.
    fn is_free(&self, hash: &[u8; 32]) -> bool
        ensures { IsTrue result ↔ (at self.now hash.now ≡ None) }
    {
        self.entries.get(hash).is_none()
    }
}

// The address of a value, and its canonical encoding.
fn entry_of(alloc: Global, value: &Value) -> Result<([u8; 32], Vec<u8>)>
    ensures hash { IfOk result (λ entry. entry.0 ≡ address (view value.now)) }
    ensures bytes { IfOk result (λ entry. entry.1.items ≡ canon (view value.now)) }
    ensures refused { IfErr result
        (IsNotWritten (IsStorableDocument (document_of (view value.now)))) }
{
    let bytes = to_vec(alloc, value)?;
    Ok((Sha256::digest(&bytes), bytes))
}

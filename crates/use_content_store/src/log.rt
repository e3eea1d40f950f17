//! A store over a file: the log of what it holds, a CBOR sequence (RFC 8742) to which the canonical
//! encoding of each value is appended where it is stored.

ghost use Rattle.std.specs.Prelude.{◌⊎◌, ◌↔◌, ℕ, List, [], None};
ghost use Rattle.std.specs.Prelude.{IfErr, IfOk, IsTrue, OnErr, OnOk};
ghost use Rattle.std.specs.Io.KnownBytes.{Appends};
ghost use Rattle.serde_cbor.specs.Allowed.{limits_of};
ghost use Rattle.serde_cbor.specs.Canonical.{canon};
ghost use Rattle.serde_cbor.specs.CutOff.{SaysCutOff};
ghost use Rattle.serde_cbor.specs.Error.{IsOutOfMemory};
ghost use Rattle.serde_cbor.specs.FirstRefusal.{ReportsFirst};
ghost use Rattle.serde_cbor.specs.Gives.{Gave};
ghost use Rattle.serde_cbor.specs.Laws.{SpellsValue};
ghost use Rattle.serde_cbor.specs.Plain.{Val};
ghost use Rattle.serde_cbor.specs.Write.{AppendsBeginning};
ghost use Rattle.use_content_store.specs.Log.{CutOffAnywhere, KeepsLog, Opens};
ghost use Rattle.use_content_store.specs.Store.{address, at, HoldsTheSame, Puts, written};

use crate::store::{Put, Store};
use serde_cbor::de::item_refused_first;
use serde_cbor::error::{Error, ErrorCode, Result};
use serde_cbor::model::normalised_once;
use serde_cbor::stream::one_longest_list;
use serde_cbor::write::{IoWrite, Write};
use serde_cbor::{Deserializer, Value, from_slice};
use std::alloc::Global;
use std::io;

/// What a log was found to hold.
#[derive(Debug, Drop)]
pub struct Opened {
    /// The values of its whole records.
    pub store: Store,
    /// How many bytes these take. More follow where the last record was cut off: cut the log here
    /// before you append to it.
    pub whole: usize,
}

/// Why a log isn't opened.
#[derive(Debug, Drop)]
pub enum OpenError {
    /// The bytes from this offset on are no record, nor the beginning of one; or memory ran out
    /// there, or the reader failed.
    Broken { at: usize, error: Error },
    /// The record at this offset has the hash of one before it, of another value.
    Collision { at: usize },
}

/// Reads a log: the values of all whole records that it begins with, each in whichever encoding.
///
/// A last record that was cut off, as by a crash while it was written, is no error: it is left out,
/// and [`Opened::whole`] reports where it begins.
pub fn open<R: io::Read + Drop>(alloc: Global, reader: R) -> std::result::Result<Opened, OpenError>
    // Of a reader that reports its bytes, fewer than 2^64:
    ensures { (bytes : List ℕ) → Gave (R.remaining reader) bytes → Opens bytes result }
{
    item_refused_first::<Value>();
    let mut store = Store::new(alloc);
    let mut stream = Deserializer::from_reader(alloc, reader).into_iter::<Value>();
    let mut whole = 0;
    'records: while let Some(next) = stream.next() {
        let value = match next {
            Ok(value) => value,
            Err(error) if is_cut_off(&error) => return Ok(Opened { store, whole }),
            Err(error) => return Err(OpenError::Broken { at: whole, error }),
        };
        match store.put(alloc, &mut IoWrite::new(io::sink()), value) {
            Ok(Put::Stored) => whole = stream.byte_offset(),
            Ok(Put::Collision) => return Err(OpenError::Collision { at: whole }),
            Err(error) => return Err(OpenError::Broken { at: whole, error }),
        }
    }
    Ok(Opened { store, whole })
}

impl Store {
    /// Puts the value that the bytes encode, in whichever encoding, into the store, as `put` does.
    ///
    /// It refuses what `from_slice` refuses, so that a record can always be read again, and what
    /// the log refuses. After an error cut the log at its length before, or open it again.
    pub fn append<W: Write>(&mut self, alloc: Global, log: &mut W, bytes: &[u8]) -> Result<Put>
        ensures ok { IfOk result (λ put. (v : Val) × SpellsValue bytes.now v
            × Puts self.old v self.new put) }
        ensures wrote { OnOk result ((v : Val) × SpellsValue bytes.now v
            × Appends (W.written log.old) (W.written log.new)
            (written (at self.old (address v)) v)) }
        ensures keeps_log { OnOk result (KeepsLog self.old self.new
            (W.written log.old) (W.written log.new)) }
        ensures err { OnErr result (HoldsTheSame self.old self.new) }
        // A beginning of the canonical encoding may have been written.
        ensures part { OnErr result (Appends (W.written log.old) (W.written log.new) []
            ⊎ ((v : Val) × SpellsValue bytes.now v
            × AppendsBeginning (canon v) (W.written log.old) (W.written log.new))) }
        ensures refused { IfErr result (λ e. W.refuses log.new e ⊎ IsOutOfMemory e
            ⊎ ReportsFirst (limits_of None) bytes.now e) }
    {
        normalised_once();
        self.put(alloc, log, from_slice(alloc, bytes)?)
    }
}

// Whether the error reports a record that goes on beyond the end of the bytes. One that says a
// length beyond 2^64 does so too.
fn is_cut_off(error: &Error) -> bool
    ensures { IsTrue result ↔ SaysCutOff error.now }
{
    error.is_eof() || matches!(error.code(), ErrorCode::LengthOutOfRange)
}

/// A log, cut off anywhere, opens with all whole records and no other: what [`open`] answers of its
/// first bytes, whichever number, is the store of the records that are whole in them.
///
/// A function that does nothing, and whose contract is that law.
pub fn cut_off_anywhere()
    ensures { CutOffAnywhere }
{
    one_longest_list();
}

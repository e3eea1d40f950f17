//! What is to be measured.

ghost use Rattle.std.specs.Prelude.{◌<◌, ◌↔◌, ◌⊎◌, None, IfOk, IfErr, IfSome, IsSome, OnErr};
ghost use Rattle.cbor_model.specs.Allowed.{limits_of};
ghost use Rattle.serde_cbor.specs.Error.{IsOutOfMemory};
ghost use Rattle.serde_cbor.specs.FirstRefusal.{ReportsFirst};
ghost use Rattle.cbor_bench.specs.Record.{SpellsRecords, AreRewritten};
ghost use Rattle.cbor_bench.specs.Request.{IsRequest, IsRequestOf, SpellsItem, IsRewritten};
ghost use Rattle.cbor_bench.specs.Request.{Leaves, IsReadFor, Refuses};

use crate::record::Record;
use serde_cbor::{Result, Value, from_slice, to_vec};
use std::alloc::Global;

const READ: u8 = 0;

const READ_AND_WRITE: u8 = 1;

const READ_RECORDS: u8 = 2;

const READ_AND_WRITE_RECORDS: u8 = 3;

/// What is done with an item.
#[derive(Clone, Copy)]
pub enum Task {
    /// It is read as a `Value`.
    Read,
    /// It is read as a `Value`, which `to_vec` writes.
    ReadAndWrite,
    /// It is read as a list of records.
    ReadRecords,
    /// It is read as a list of records, which `to_vec` writes.
    ReadAndWriteRecords,
}

/// What to do with an item, and how many times.
#[derive(Clone, Copy)]
pub struct Request<'a> {
    pub task: Task,
    pub times: u8,
    pub item: &'a [u8],
}

impl<'a> Request<'a> {
    /// One byte for what to do (0: read, 1: read and write, 2 and 3: the same of records), one for
    /// how many times, and then the item. `None` where there are fewer than two bytes, and for any
    /// other first byte.
    pub fn parse(input: &'a [u8]) -> Option<Request<'a>>
        ensures known { IsSome result ↔ IsRequest input.now }
        ensures read { IfSome result (IsRequestOf input.now) }
    {
        match input {
            [READ, times, item @ ..] => Some(Request {
                task: Task::Read,
                times: *times,
                item,
            }),
            [READ_AND_WRITE, times, item @ ..] => Some(Request {
                task: Task::ReadAndWrite,
                times: *times,
                item,
            }),
            [READ_RECORDS, times, item @ ..] => Some(Request {
                task: Task::ReadRecords,
                times: *times,
                item,
            }),
            [READ_AND_WRITE_RECORDS, times, item @ ..] => Some(Request {
                task: Task::ReadAndWriteRecords,
                times: *times,
                item,
            }),
            _ => None,
        }
    }

    /// Does it as many times as it says, each time from the item's bytes, and answers what the last
    /// turn wrote. What another turn reads and writes is dropped at its end.
    ///
    /// It stops at the first refusal, which is `from_slice`'s or for lack of memory.
    pub fn repeat(&self, alloc: Global) -> Result<Option<Vec<u8>>>
        ensures done { IfOk result (λ last. 0 < self.now.times
            → Leaves self.now.task self.now.item.now last) }
        // An acceptable item, or one that is read as records where they are asked for, is refused
        // for lack of memory alone.
        ensures accepted { IsReadFor self.now.task self.now.item.now → IfErr result IsOutOfMemory }
        // A refusal of a value is the first that the bytes allow, or memory ran out.
        ensures refused { IfErr result (Refuses self.now.task self.now.item.now) }
        ensures idle { OnErr result (0 < self.now.times) }
    {
        if self.times == 0 {
            return Ok(None);
        }
        'turns: for _ in 1..self.times {
            perform(alloc, self.task, self.item)?;
        }
        perform(alloc, self.task, self.item)
    }
}

// Does it once, and answers what was written.
fn perform(alloc: Global, task: Task, item: &[u8]) -> Result<Option<Vec<u8>>>
    ensures done { IfOk result (Leaves task item.now) }
    ensures accepted { IsReadFor task item.now → IfErr result IsOutOfMemory }
    ensures refused { IfErr result (Refuses task item.now) }
{
    match task {
        Task::Read => {
            let _value: Value = from_slice(alloc, item)?;
            Ok(None)
        }
        Task::ReadAndWrite => {
            let written = rewritten(alloc, item)?;
            Ok(Some(written))
        }
        Task::ReadRecords => {
            let _records: Vec<Record> = from_slice(alloc, item)?;
            Ok(None)
        }
        Task::ReadAndWriteRecords => {
            let written = rewritten_records(alloc, item)?;
            Ok(Some(written))
        }
    }
}

// The canonical spelling of the item's value.
fn rewritten(alloc: Global, item: &[u8]) -> Result<Vec<u8>>
    ensures written { IfOk result (λ bytes. IsRewritten item.now bytes.items) }
    ensures accepted { SpellsItem item.now → IfErr result IsOutOfMemory }
    ensures refused { IfErr result (λ e. IsOutOfMemory e
        ⊎ ReportsFirst (limits_of None) item.now e) }
{
    let value: Value = from_slice(alloc, item)?;
    to_vec(alloc, &value)
}

// What `to_vec` writes of the records that the item is read as.
fn rewritten_records(alloc: Global, item: &[u8]) -> Result<Vec<u8>>
    ensures written { IfOk result (λ bytes. AreRewritten item.now bytes.items) }
    ensures accepted { SpellsRecords item.now → IfErr result IsOutOfMemory }
{
    let records: Vec<Record> = from_slice(alloc, item)?;
    to_vec(alloc, &records)
}

//! Writing to a writer of the standard library, in blocks.
//!
//! [`to_io_writer`] writes a document by [`to_writer`] into a block in front of the writer, and
//! [`BufferedWrite`] is a sink that holds one. The crate names the definitions of `cbor_model`, the
//! error and the sinks of `cbor_io`, and the writing of `cbor_ser`. Others rely on the contracts and
//! on `specs/Unsent.antt`.
#![tactic(auto)]

ghost use Rattle.std.specs.Prelude.{◌≡◌, ℕ, List, false, IfErr, OnOk};
ghost use Rattle.cbor_model.specs.Document.{IsDocumentInRange, IsStorableDocument, document_bytes};
ghost use Rattle.cbor_model.specs.Unstored.{StandsBefore};
ghost use Rattle.cbor_io.specs.Write.{AppendsBeginning, IsFault, Wrote};
ghost use Rattle.cbor_ser.specs.Serialized.{WroteValues};
ghost use Rattle.cbor_ser.specs.Written.{DocumentRefused};

use blocks::Blocks;
use cbor_io::error::Result;
use cbor_ser::{Serialize, to_writer};
use std::alloc::Global;
use std::io;

mod blocks;
mod buffered_write;
mod send;

pub use buffered_write::BufferedWrite;

/// Appends a value's document to a writer of the standard library: the bytes that
/// [`to_vec`](cbor_ser::to_vec) answers, in blocks of 1 KiB.
///
/// The block stands on the stack: no memory is asked for, and few calls are made of the writer,
/// where [`to_writer`] by an [`IoWrite`](cbor_ser::IoWrite) makes one for each head and one for what
/// each string holds. After an Ok the writer has the whole document; it isn't flushed.
///
/// It refuses an integer outside `-2^64..=2^64-1`, at any depth, with the message
/// `The number can't be stored in CBOR`, for whose text the allocator is; nothing of what follows
/// the number was written then. A fault of the writer is returned as an I/O error. A write that was
/// interrupted is tried again, and one that takes nothing is a fault. After an Err the writer has
/// what it had and a prefix of the document's bytes; what the block still held isn't sent.
///
/// ```rust
/// let mut file: Vec<u8> = Vec::new(alloc); // or any other `io::Write`
/// to_io_writer(alloc, &mut file, &Value::Integer(-300))?;
/// assert_eq!(rt; file.as_slice(), b"\x39\x01\x2b".as_slice());
/// ```
pub fn to_io_writer<W: io::Write, T: Serialize>(
    alloc: Global,
    writer: &mut W,
    value: &T,
) -> Result<()>
    ensures storable { OnOk result (IsStorableDocument (T.document value.now)) }
    ensures in_range { OnOk result (IsDocumentInRange (T.document value.now)) }
    // Ok has appended the document's bytes, and an Err a prefix of them.
    ensures written { Wrote (W.contents writer.old)
        (document_bytes (T.document value.now) false false) (W.contents writer.new) result }
    ensures refused { IfErr result
        (DocumentRefused (λ _ e. IsFault e) writer.new (T.document value.now)) }
    // Of a document that can't be stored, a prefix of what stands before its first such number.
    ensures before { (front : List ℕ) → StandsBefore (T.document value.now) false false front
        → AppendsBeginning front (W.contents writer.old) (W.contents writer.new) }
    // Where the document is that of a `Value`, the bytes are the value's canonical encoding.
    ensures canonical { WroteValues W.contents (λ _ e. IsFault e) writer.old
        (T.document value.now) writer.new result }
{
    let mut blocks = Blocks::new(writer);
    to_writer(alloc, &mut blocks, value)?;
    blocks.finish()
}

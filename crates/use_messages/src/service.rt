//! A service that answers requests as they come.

ghost use Rattle.std.specs.Prelude.{◌≡◌, List, ℕ, false};
ghost use Rattle.serde_cbor.specs.Document.{document_bytes};
ghost use Rattle.serde_cbor.specs.Gives.{Gave};
ghost use Rattle.serde_cbor.specs.Whole.{from_reader_context};
ghost use Rattle.use_messages.specs.Replies.{reply_to};
ghost use Rattle.use_messages.specs.Service.{Serves};

use crate::messages::{Reply, Request};
use serde_cbor::de::Readable;
use serde_cbor::ser::Serialize;
use serde_cbor::{Deserializer, Error, to_io_writer};
use std::alloc::Global;
use std::io;

/// Why the service stopped before the end of the input.
#[derive(Debug, Drop)]
pub enum Stopped {
    /// No request begins at this offset, or the reader failed.
    Broken { at: usize, error: Error },
    /// A reply wasn't written whole.
    Unsent(Error),
}

/// Answers each request that the reader gives by one reply, before it asks for the next byte. It
/// stops at the first that is broken, and where a reply isn't written whole.
pub fn serve<R: io::Read + Drop, W: io::Write>(
    alloc: Global,
    reader: R,
    writer: &mut W,
) -> Result<(), Stopped>
    // Of a reader that reports its bytes, fewer than 2^64:
    ensures { (bytes : List ℕ) → Gave (R.remaining reader) bytes
        → Serves (⟦<Request as Readable>⟧.reads from_reader_context)
        (λ q. document_bytes (⟦<Reply as Serialize>⟧.document (reply_to q)) false false) bytes
        (W.contents writer.old) (W.contents writer.new) result }
{
    let mut stream = Deserializer::from_reader(alloc, reader).into_iter::<Request>();
    let mut at = 0;
    'requests: while let Some(next) = stream.next() {
        let request = match next {
            Ok(request) => request,
            Err(error) => return Err(Stopped::Broken { at, error }),
        };
        if let Err(error) = to_io_writer(alloc, writer, &reply_to(request)) {
            return Err(Stopped::Unsent(error));
        }
        at = stream.byte_offset();
    }
    Ok(())
}

/// What a request is answered.
pub fn reply_to(request: Request) -> Reply
    ensures { result ≡ reply_to request }
{
    match request {
        Request::Ping => Reply::Pong,
        Request::Add(x, y) => Reply::Sum(u64::from(x) + u64::from(y)),
        Request::Measure(text) => Reply::Length(text.len() as u64),
    }
}

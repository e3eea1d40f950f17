//! Strings in chunks.

ghost use Rattle.std.specs.Prelude.{◌≤◌, length, IfSome};
ghost use Rattle.cbor_pushed.specs.Scanned.{ChunksEnd, InChunks, IsNextChunk};

use crate::numbers::number;

/// What the bytes begin with, where a chunk or the break is wanted.
pub(crate) enum NextChunk {
    /// A whole chunk of this many bytes.
    Passed(usize),
    /// A part of one.
    Unfinished,
    /// Another byte than a chunk begins with, as the break.
    Other,
}

// What these bytes begin with, within a string of this major type.
fn next_chunk(major: u8, bytes: &[u8]) -> NextChunk
    ensures { IsNextChunk major bytes.now result }
{
    let Some((first, behind)) = bytes.split_first() else {
        return NextChunk::Unfinished;
    };
    if *first / 32 != major || *first % 32 >= 28 {
        return NextChunk::Other;
    }
    let Some((n, left)) = number(*first % 32, behind) else {
        return NextChunk::Unfinished;
    };
    if (left as u64) < n {
        return NextChunk::Unfinished;
    }
    NextChunk::Passed(bytes.len() - (left - n as usize))
}

/// Of a string in chunks of this major type, of which so many bytes were passed: how many are whole
/// chunks, where the string isn't; None where the break comes, or what is no chunk.
pub(crate) fn pass_chunks(major: u8, bytes: &[u8], passed: usize) -> Option<usize>
    requires { InChunks major passed bytes.now }
    ensures { IfSome result (ChunksEnd major bytes.now) }
{
    let mut at = passed;
    'chunks: loop {
        match next_chunk(major, &bytes[at..]) {
            NextChunk::Passed(n) => at += n,
            NextChunk::Unfinished => return Some(at),
            NextChunk::Other => return None,
        }
    }
}

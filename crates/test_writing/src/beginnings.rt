//! What a writer leaves is a prefix of the whole.

ghost use Rattle.std.specs.Prelude.{◌≡◌, ◌↔◌, ◌≤◌, false, length, take, IfOk, IsOk, IsTrue};
ghost use Rattle.cbor_model.specs.Document.{document_bytes, IsStorableDocument};

use cbor_io::error;
use cbor_ser::{Serialize, SliceWrite, to_vec, to_writer};
use cbor_value::Value;
use std::alloc::Global;
use std::test::Fail;

/// Whether the bytes that `to_writer` leaves in a slice are a prefix of those that `to_vec`
/// answers: they always are, however short the slice is.
fn leaves_a_beginning(alloc: Global, room: &mut [u8], value: &Value) -> error::Result<bool>
    ensures { IfOk result (λ is_beginning. IsTrue is_beginning) }
{
    let whole = to_vec(alloc, value)?;
    let mut sink = SliceWrite::new(room);
    let _done = to_writer(alloc, &mut sink, value);
    let count = sink.bytes_written();
    let slice = sink.into_inner();
    Ok(whole.starts_with(&slice[..count]))
}

/// Writes a document to the front of a slice, and answers how long it is: exactly where it can be
/// stored and is no longer than the slice. The caller's own slice then holds those bytes.
fn fill_front<T: Serialize>(alloc: Global, room: &mut [u8], value: &T) -> error::Result<usize>
    ensures written { IfOk result
        (λ n. take n room.new ≡ document_bytes (T.document value.now) false false) }
    ensures exact { IsOk result ↔ (IsStorableDocument (T.document value.now)
        × (length (document_bytes (T.document value.now) false false) ≤ length room.old)) }
{
    let mut sink = SliceWrite::new(room);
    to_writer(alloc, &mut sink, value)?;
    Ok(sink.bytes_written())
}

#[test]
fn fills_the_front_of_a_slice(rt: HostRuntime) -> Result<(), Fail> {
    let mut room = [7; 4];
    assert_eq!(rt; fill_front(rt.alloc(), &mut room, &"ab")?, 3);
    assert_eq!(rt; room.as_slice(), b"\x62ab\x07".as_slice());
    assert_eq!(rt; fill_front(rt.alloc(), &mut room, &"abc")?, 4);
    assert!(rt; fill_front(rt.alloc(), &mut room, &"abcd").is_err());
    Ok(())
}

// A text of 3 bytes: its head is one piece, and what it holds another.
#[test]
fn leaves_a_beginning_of_a_text(rt: HostRuntime) -> Result<(), Fail> {
    let alloc = rt.alloc();
    let value = Value::Text("abc".to_owned(alloc)?);
    let mut room = [0; 4];
    for len in 0..=4usize {
        assert!(rt; leaves_a_beginning(alloc, &mut room[..len], &value)?);
    }
    assert_eq!(rt; room.as_slice(), b"\x63abc".as_slice());
    Ok(())
}

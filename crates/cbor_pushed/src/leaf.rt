//! One item, as a decoder passes over it.

ghost use Rattle.std.specs.Prelude.{◌≡◌, ◌⊎◌, ◌≤◌, [], length, None};
ghost use Rattle.cbor_model.specs.Formats.{all_formats};
ghost use Rattle.cbor_io.specs.Error.{IsOutOfMemory};
ghost use Rattle.cbor_read.specs.Source.{slice_input};
ghost use Rattle.cbor_read.specs.Sources.{input_of_slice};
ghost use Rattle.cbor_decode.specs.Decoder.{formats_of};
ghost use Rattle.cbor_decode.specs.FirstRefusal.{ReportsFirst};
ghost use Rattle.cbor_pushed.specs.ItemAtFront.{HasNoItem, item_limits};
ghost use Rattle.cbor_pushed.specs.Scanned.{EndsAt};

use cbor_decode::Decoder;
use cbor_io::error::{Error, Result};
use cbor_read::{Offset, SliceRead, Source};
use std::alloc::Global;

/// Where the item ends that begins at this place of the bytes, and may have so many levels.
pub(crate) fn item_end(alloc: Global, bytes: &[u8], at: usize, levels: usize) -> Result<usize>
    requires { at ≤ length bytes.now }
    ensures { EndsAt levels bytes.now at result }
{
    let mut decoder = decoder_at(alloc, bytes, at, levels);
    match decoder.skip() {
        Ok(()) => Ok(decoder.source.byte_offset()),
        Err(refused) => Err(decoder.error(refused)),
    }
}

/// The error of reading bytes that end before their item does, which may have so many levels: its
/// code says whether a value, an array or a map was cut off.
///
/// ```rust
/// assert!(rt; end_of_input(alloc, b"\x9f\x01", 127).is_eof());
/// ```
pub fn end_of_input(alloc: Global, bytes: &[u8], levels: usize) -> Error
    requires { HasNoItem levels bytes.now }
    ensures { IsOutOfMemory result ⊎ ReportsFirst (item_limits levels) bytes.now result }
{
    match item_end(alloc, bytes, 0, levels) {
        // none is there
        Ok(_) => unreachable!(),
        Err(error) => error,
    }
}

// What takes the bytes from this place on, and so many levels.
fn decoder_at(alloc: Global, bytes: &[u8], at: usize, levels: usize) -> Decoder<SliceRead<'_>>
    requires { at ≤ length bytes.now }
    ensures input { input_of_slice result.source ≡ slice_input bytes.now at [] None }
    ensures levels { result.levels ≡ levels }
    ensures formats { formats_of result.formats ≡ all_formats }
{
    let mut source = SliceRead::new(alloc, bytes);
    source.advance(at);
    let mut decoder = Decoder::new(alloc, source);
    decoder.levels = levels as u64;
    decoder
}

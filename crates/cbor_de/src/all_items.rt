//! All items of an input.

ghost use Rattle.cbor_io.specs.Error.{IsOutOfMemory};
ghost use Rattle.std.specs.Prelude.{◌≡◌, ◌≢◌, ◌⊎◌, ◌+◌, ◌++◌, ◌∷◌, ℕ};
ghost use Rattle.std.specs.Prelude.{List, [], length, IfOk, IfErr, map};
ghost use Rattle.std.specs.Prelude.{Ok, Err};
ghost use Rattle.std.specs.List.{AllByRecursion};
ghost use Rattle.cbor_model.specs.Acceptable.{max_depth, FitsScratch};
ghost use Rattle.cbor_model.specs.Formats.{all_formats};
ghost use Rattle.cbor_model.specs.Raw.{Raw, AreBytes};
ghost use Rattle.cbor_decode.specs.Gives.{ReportsIo, Reports};
ghost use Rattle.cbor_decode_as.specs.Takes.{lending};
ghost use Rattle.cbor_de.specs.Items.{AreMostItems};
ghost use Rattle.cbor_de.specs.StreamAnswers.{AnswersTo, AreReadAs};

use crate::{Deserialize, StreamDeserializer};
use cbor_io::error::{Error, Result};
use cbor_read::Read;
use std::alloc::{AllocError, Global};

/// Decodes all items of an input, one after the other (a CBOR sequence, RFC 8742).
///
/// ```rust
/// let source = SliceRead::new(alloc, b"\x01\x02");
/// let items: Vec<u8> = read_items(alloc, source)?;
/// assert_eq!(rt; items.as_slice(), [1, 2].as_slice());
/// ```
pub fn read_items<'de, T: Deserialize<'de, R>, R: Read<'de> + Drop>(
    alloc: Global,
    source: R,
) -> Result<Vec<T>>
    // The bytes are the joined encodings of acceptable items, and these are read so.
    ensures found { IfOk result (λ v. (bytes rest : List ℕ) (items : List Raw)
        → Reports (R.source source) bytes → AreBytes bytes
        → AreMostItems max_depth bytes items rest
        → AllByRecursion (FitsScratch (R.source source).room) items
        → (rest ≡ []) × AreReadAs (T.reads (lending all_formats R.lends)) items v.items) }
    // An error is the answer after some of the items, or to what follows them; or memory ran out for
    // the list of them.
    ensures refused { IfErr result (λ e. (bytes rest : List ℕ) (items : List Raw)
        → Reports (R.source source) bytes → AreBytes bytes
        → AreMostItems max_depth bytes items rest
        → AllByRecursion (FitsScratch (R.source source).room) items
        → (IsOutOfMemory e × (items ≢ [])) ⊎ ((read : List T)
        × AnswersTo (T.reads (lending all_formats R.lends)) T.total (ReportsIo R.refusals)
        max_depth ((R.source source).offset + length bytes) (R.source source).room items rest
        (map Ok read ++ Err e ∷ []))) }
{
    let stream = StreamDeserializer::<'de, R, T>::new(alloc, source);
    let mut items = Vec::new(alloc);
    for answer in stream {
        match answer {
            Ok(item) => {
                if items.push(item).is_err() {
                    return Err(Error::from(AllocError));
                }
            }
            Err(e) => return Err(e),
        }
    }
    Ok(items)
}

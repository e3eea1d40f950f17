//! The head of an item within its tags.

ghost use Rattle.std.specs.Prelude.{◌≡◌, ◌≢◌, ◌≤◌, IfErr, OnOk};
ghost use Rattle.cbor_model.specs.Reader.{item_at};
ghost use Rattle.cbor_decode.specs.Decoder.{SameSettings};
ghost use Rattle.cbor_decode.specs.Gives.{ReportsNoForm, ReportsNoKey, ReportsNoMemory};
ghost use Rattle.cbor_io.specs.Error.{code_of};
ghost use Rattle.cbor_io.specs.declared.error.ErrorCode.TheVariants.{OutOfMemory};
ghost use Rattle.cbor_decode.specs.declared.head.Head.TheVariants.{Break};
ghost use Rattle.cbor_decode.specs.Heads.{HeadGives, opening_at};
ghost use Rattle.cbor_decode.specs.Heads.{passed};
ghost use Rattle.cbor_decode.specs.Memory.{MemoryOnly};
ghost use Rattle.cbor_read.specs.Source.{asks_for};
ghost use Rattle.cbor_decode_as.specs.TaggedHeads.{AsksBehind, TakesTaggedHead};
ghost use Rattle.cbor_decode_as.specs.TaggedHeads.{item_inside, opened_at, opened_inside};
ghost use Rattle.cbor_decode_as.specs.TaggedHeads.{IsMismatch, RefusesBehind, behind_any};
ghost use Rattle.cbor_decode_as.specs.Takes.{formats_of, raws};
ghost use Rattle.cbor_decode.specs.Steps as step;

use cbor_decode::{Decoder, Done, Formats, Head};
use cbor_io::error::Error;
use cbor_read::{ReadErrorCode, Source};

/// The head of an item within its tags, which is taken, and how many levels are left there.
///
/// A cold call is given a copy that is made for it: what was found stays in registers until then.
#[derive(Clone, Copy)]
pub(crate) struct HeadAt {
    pub(crate) head: Head,
    pub(crate) levels: u64,
}

// Takes a head.
#[inline(always)]
pub(crate) fn take_head<R: Source>(decoder: &mut Decoder<R>) -> Done<Head>
    ensures read { HeadGives R.refusals opening_at
        (R.source decoder.old.source) (R.source decoder.new.source)
        decoder.new.refusal result }
    ensures taken { OnOk result (step.Advances R.source decoder.old decoder.new) }
    ensures no_key { IfErr result (ReportsNoKey decoder.new.refusal) }
    ensures memory { IfErr result (ReportsNoMemory decoder.new.refusal) }
    ensures settings { SameSettings decoder.old decoder.new }
{
    let first = decoder.byte()?;
    decoder.head(first)
}

/// Takes the tags of an item and the head after them; each tag is a level further in.
///
/// It is refused with `EofWhileParsingValue` where the input ends in them, with
/// `RecursionLimitExceeded` after a tag's head where no level is left, with `UnassignedCode` at a
/// first byte that is none of a head's, and as the source is.
#[cycle(tagged_head)]
#[inline(always)]
pub fn tagged_head<R: Source>(decoder: &mut Decoder<R>) -> Done<Head>
    ensures read { TakesTaggedHead R.refusals (formats_of decoder.old.formats)
        (λ l. item_at (raws (formats_of decoder.old.formats) l) decoder.old.levels)
        (R.source decoder.old.source) (R.source decoder.new.source)
        decoder.new.levels decoder.new.refusal result }
    ensures opened { step.Gives R.source R.refusals (λ head. (decoder.new.levels, head))
        (λ l. opened_at decoder.old.levels) decoder.old decoder.new result }
    ensures taken { OnOk result (step.Advances R.source decoder.old decoder.new) }
    ensures no_key { IfErr result (ReportsNoKey decoder.new.refusal) }
    ensures memory { IfErr result (ReportsNoMemory decoder.new.refusal) }
    ensures levels { OnOk result (decoder.new.levels ≤ decoder.old.levels) }
    ensures formats { decoder.new.formats ≡ decoder.old.formats }
{
    let head = take_head(decoder)?;
    if let Head::Tag(_) = head {
        return tagged_head_inside(decoder);
    }
    Ok(head)
}

// Takes further tags and the head, one level further in.
#[cycle(tagged_head)]
#[inline(never)]
pub(crate) fn tagged_head_inside<R: Source>(decoder: &mut Decoder<R>) -> Done<Head>
    ensures read { TakesTaggedHead R.refusals (formats_of decoder.old.formats)
        (λ l. item_inside (formats_of decoder.old.formats) l decoder.old.levels)
        (R.source decoder.old.source) (R.source decoder.new.source)
        decoder.new.levels decoder.new.refusal result }
    ensures opened { step.Gives R.source R.refusals (λ head. (decoder.new.levels, head))
        (λ l. opened_inside decoder.old.levels) decoder.old decoder.new result }
    ensures taken { OnOk result (step.Advances R.source decoder.old decoder.new) }
    ensures no_key { IfErr result (ReportsNoKey decoder.new.refusal) }
    ensures memory { IfErr result (ReportsNoMemory decoder.new.refusal) }
    ensures levels { OnOk result (decoder.new.levels ≤ decoder.old.levels) }
    ensures formats { decoder.new.formats ≡ decoder.old.formats }
{
    decoder.enter()?;
    tagged_head(decoder)
}

/// The error of an item of another kind, after its head: the message, or `UnexpectedCode` of a
/// break.
#[cold]
#[inline(never)]
pub fn mismatch<R: Source>(decoder: &mut Decoder<R>, head: Head, message: &str) -> Error
    ensures told { IsMismatch head (R.source decoder.old.source).offset result }
    ensures no_form { ReportsNoForm (code_of result) }
    ensures memory { code_of result ≡ OutOfMemory → head ≢ Break }
    ensures source { decoder.new.source ≡ decoder.old.source }
    ensures settings { SameSettings decoder.old decoder.new }
{
    if let Head::Break = head {
        let refused = decoder.refuse(ReadErrorCode::UnexpectedCode);
        return decoder.error(refused);
    }
    Error::message(decoder.alloc, message)
}

// Passes over what follows a head, with keys of any formats: which of them are read is no matter of
// what holds no keys.
#[cold]
#[inline(never)]
pub(crate) fn pass_over<R: Source>(decoder: &mut Decoder<R>, found: HeadAt) -> Done<()>
    ensures read { step.Gives R.source R.refusals (λ u. u)
        (λ l bs. passed (behind_any found.levels found.head l bs)) decoder.old decoder.new result }
    ensures memory { IfErr result (MemoryOnly (AsksBehind (asks_for R.refusals R.lends) found
        (R.source decoder.old.source)) decoder.new.refusal) }
    ensures no_key { IfErr result (ReportsNoKey decoder.new.refusal) }
    ensures settings { SameSettings decoder.old decoder.new }
{
    let levels = decoder.levels;
    let formats = decoder.formats;
    decoder.levels = found.levels;
    decoder.formats = Formats::ALL;
    let passed = decoder.skip_of(found.head);
    decoder.levels = levels;
    decoder.formats = formats;
    passed
}

// The error of an item that isn't read, after its head: the fault of what follows, or the message.
#[cold]
#[inline(never)]
pub(crate) fn skip_mismatch<R: Source>(
    decoder: &mut Decoder<R>,
    found: HeadAt,
    message: &str,
) -> Error
    ensures fault { RefusesBehind R.refusals found (R.source decoder.old.source) result }
    ensures took { step.TookSome R.source decoder.old decoder.new }
    ensures no_form { ReportsNoForm (code_of result) }
    ensures settings { SameSettings decoder.old decoder.new }
{
    match pass_over(decoder, found) {
        Ok(()) => Error::message(decoder.alloc, message),
        Err(refused) => decoder.error(refused),
    }
}

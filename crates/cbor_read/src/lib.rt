//! Sources: what the bytes of an input are taken from.
//!
//! They know bytes alone, and no item. The crates above rely on the contracts of the public calls
//! and on the words of `specs/`: `Source` (what a source is, and what each call takes of it) and
//! `Sources` (the `Input` that each source of this crate is).
#![tactic(auto)]

ghost use Rattle.std.specs.Prelude.{◌≡◌, ◌≢◌, ℕ, ◌<◌, ◌≤◌, ◌^◌, Bool, List, [], ◌∷◌, length, take};
ghost use Rattle.std.specs.Prelude.{IfOk, IfErr, OnOk, OnErr, IfSome, IsSome, MatchOption};
ghost use Rattle.std.specs.Prelude.{Some, Option, true};
ghost use types.Logic.{sem};
ghost use Rattle.std.specs.Io.BufRead.{Rests};
ghost use Rattle.std.specs.Io.KnownBytes.{Keeps};
ghost use Rattle.cbor_io.specs.ReadError.{why};
ghost use Rattle.cbor_io.specs.declared.read_error.ReadErrorCode.TheVariants.{OutOfMemory};
ghost use Rattle.cbor_read.specs.Source.{Input, Lends, TookKept, Stays, KeepsBytes, Buffered};
ghost use Rattle.cbor_read.specs.Source.{TookBehind, FitsRoom, RefusedToBuffer, RefusedInto};
ghost use Rattle.cbor_read.specs.Source.{RefusedByte, or_memory, NextDoes, ReadLeaves, part_bytes};
ghost use Rattle.cbor_read.specs.Source.{is_long, Skipped, SkippedText, RefusedPart, Lengthened};
ghost use Rattle.cbor_read.specs.Source.{MemoryWhere, asks_for};

mod front;
mod in_place;
mod io_read;
mod mut_slice_read;
mod slice_read;
mod slice_read_fixed;
mod vec_read;

pub use cbor_io::read_error::{ReadError, ReadErrorCode};
pub use io_read::IoRead;
pub use mut_slice_read::MutSliceRead;
pub use slice_read::SliceRead;
pub use slice_read_fixed::SliceReadFixed;
pub use vec_read::VecRead;

/// What the calls of a source answer.
type Result<T> = std::result::Result<T, ReadError>;

/// Bytes that a source hands out: lent by the source until its next call, or by the input for its
/// whole life.
#[derive(Debug, Drop)]
pub enum EitherLifetime<'short, 'long> {
    /// Lent by the source.
    Short(&'short [u8]),
    /// Lent by the input.
    Long(&'long [u8]),
}

/// Where a source stands in its input.
///
/// ```rust
/// let mut source = SliceRead::new(alloc, b"foobar");
/// source.read(3)?;
/// assert_eq!(rt; source.byte_offset(), 3);
/// ```
pub trait Offset: Source {
    /// How many bytes of the input were handed out.
    fn byte_offset(&self) -> usize
        ensures { result ≡ (Self.source self.now).offset };
}

/// What bytes are taken from, as far as nothing is lent.
///
/// A source has bytes to come, a buffer, and an offset: how many bytes it handed out. `next`,
/// `peek` and `discard` take or look at one byte, `ahead` and `advance` do so with those that are
/// available (as those of a slice are), `read_into` takes as many as there is room for, `skip` and
/// `skip_text` take bytes that nobody wants, and `clear_buffer` and `read_to_buffer` join parts of
/// the input in the buffer, as the chunks of a string of indefinite length (RFC 7049, section
/// 2.2.2). After an Err some further prefix of the bytes to come is gone, and the offset counts
/// it.
///
/// ```rust
/// let mut source = SliceRead::new(alloc, b"\x61a\x61b");
/// assert_eq!(rt; source.peek()?, Some(0x61));
/// assert_eq!(rt; source.next()?, Some(0x61));
/// source.read_to_buffer(1)?;
/// let mut rest = [0; 2];
/// source.read_into(&mut rest)?;
/// assert_eq!(rt; rest, *b"\x61b");
/// assert_eq!(rt; source.offset(), 4);
/// assert_eq!(rt; source.next()?, None);
/// ```
///
/// # A source of one's own
///
/// What it has to keep:
///
/// - It hands out the bytes of its input in their order, each once, and the offset counts exactly
///   those. `peek` and `ahead` hand out none; the bytes that they show are those that `next`,
///   `discard` or `advance` takes. `ahead` shows as many as cost nothing to show: a source that has
///   to ask for its bytes shows none, and its `advance` takes none. A source that lends what `read`
///   takes for the input's whole life shows all that is to come.
/// - `gather` takes nothing either. A source that reads ahead may ask for bytes there, but not
///   where the n are available. A fault that it meets is kept, and returned once the bytes before
///   it are taken.
/// - `next` and `peek` that are refused take nothing, and ask for no memory.
/// - At the end `next` and `peek` return None. A call that wants n bytes returns
///   `EofWhileParsingValue` only where fewer are to come, and at the offset where they end.
/// - `read_to_buffer` appends to the buffer, and `clear_buffer` empties it. `read`, `take_buffer`,
///   `skip` and `skip_text` may drop it; the other calls leave it as it is. `buffer` shows it.
/// - `read_to_vec` appends to the vector that it is given, in place of the buffer. It takes memory
///   only for bytes that came, however many are asked for.
/// - Where `read_to_buffer` or `read_to_vec` is refused, what was there stays, with a prefix of
///   the bytes that it took after it.
/// - The offset never passes 2^64 - 1.
/// - Where the buffer has a greatest length, that never changes, and `buffer_room` returns it.
///   `read_to_buffer` alone returns `ScratchTooSmall`: where the bytes are there, and joined they
///   would be longer. Nothing has changed then, and the error has the present offset.
/// - `LengthOutOfRange` is for an input that goes on after the offset 2^64 - 1. `Io` and
///   `OutOfMemory` have the offset 0.
/// - It returns no code but those that its `refusals` names; `read_to_vec` may return `OutOfMemory`
///   besides.
/// - `read` lends for the input's whole life at each call or at none, and so does `take_buffer`:
///   `lends` says which.
/// - `read`, `skip` and `skip_text` ask for no memory where `read` lends for the input's life, nor
///   does `read_to_buffer` where `take_buffer` does.
///
/// [`VecRead`] is a short example; one that stands in another crate (`own_source.rt` of `test_io`)
/// passes on `none_taken` of `proofs/facts/Sources.antt`, which proves its `read_to_buffer` and
/// `read_to_vec`.
pub trait Source {
    ghost use Rattle.cbor_io.specs.declared.read_error.ReadErrorCode.{ReadErrorCode};

    // the bytes to come, the buffer, the offset, and the most that the buffer holds
    ghost source: { Self → Input };

    // the byte that was peeked, which `discard` may take
    ghost peeked: { Self → Option ℕ };

    // the bytes to come that are available, which `advance` may take
    ghost at_hand: { Self → List ℕ };

    // which codes a call may return; `read_to_vec` may return `OutOfMemory` besides
    ghost refusals: { ReadErrorCode → Bool };

    // what of its input it lends
    ghost lends: { Lends };

    /// Takes the next byte; None at the end.
    fn next(&mut self) -> Result<Option<u8>>
        ensures does { NextDoes refusals (source self.old) (source self.new) result }
        ensures counted { (source self.new).offset < 2 ^ 64 }
        ensures peeked { IfSome (peeked self.old) (λ b. IfOk result (λ o. o ≡ Some b)) };

    /// The next byte, which stays; None at the end.
    fn peek(&mut self) -> Result<Option<u8>>
        ensures stays { OnOk result (Stays (source self.old) (source self.new)) }
        ensures peeked { IfOk result (λ o. peeked self.new ≡ o) }
        ensures same { IfSome (peeked self.old) (λ b. IfOk result (λ o. o ≡ Some b)) }
        ensures front { IfOk result (λ o. MatchOption o
            (IfSome (source self.old).to_come (λ bs. bs ≡ []))
            (λ b. IfSome (source self.old).to_come (λ bs. take 1 bs ≡ b ∷ []))) }
        ensures err { IfErr result (RefusedByte refusals (source self.old) (source self.new)) };

    /// The next bytes, as far as they are available, which may be none; they stay.
    fn ahead(&self) -> &[u8]
        ensures bytes { result.now ≡ at_hand self.now }
        ensures front { IfSome (source self.now).to_come
            (λ bs. take (length result.now) bs ≡ result.now) }
        ensures all { lends.whole ≡ true → (source self.now).to_come ≡ Some result.now };

    /// Takes the next n bytes, which are available.
    fn advance(&mut self, n: usize)
        requires { n ≤ length (at_hand self.old) }
        ensures took { TookKept (source self.old) (source self.new)
            (take n (at_hand self.old)) }
        ensures counted { (source self.new).offset < 2 ^ 64 };

    /// Whether fewer than n of the next bytes are available, of a source that may bring more by
    /// [`gather`](Source::gather). It is false unless a source says otherwise.
    #[inline(always)]
    fn lacks(&self, n: usize) -> bool {
        let _ = n;
        false
    }

    /// Tries to make the next n bytes available, which are wanted; they stay. What hinders it is
    /// for the call that takes them to return. It does nothing unless a source says otherwise.
    #[inline(always)]
    #[tactic(auto, using(crate::proofs::ReaderSteps::stays_same))]
    fn gather(&mut self, n: usize)
        ensures { Stays (source self.old) (source self.new) }
    {
        let _ = n;
    }

    /// Empties the buffer.
    fn clear_buffer(&mut self)
        ensures bytes { KeepsBytes (source self.old) (source self.new) }
        ensures empty { (source self.new).buffer ≡ [] };

    /// Takes n bytes, to the buffer's end.
    fn read_to_buffer(&mut self, n: usize) -> Result<()>
        ensures ok { OnOk result (Buffered (source self.old) (source self.new) n) }
        ensures fits { OnOk result (FitsRoom (source self.new)) }
        ensures err { IfErr result
            (RefusedToBuffer refusals (source self.old) (source self.new) n) }
        ensures kept { OnErr result (Lengthened (source self.old) (source self.new)
            (source self.old).buffer (source self.new).buffer) }
        ensures memory { IfErr result (MemoryWhere (asks_for refusals lends).joined) };

    /// What was joined in the buffer.
    fn buffer(&self) -> &[u8]
        ensures { result.now ≡ (source self.now).buffer };

    /// The most that the buffer holds; None where it grows.
    fn buffer_room(&self) -> Option<usize>
        ensures { result ≡ (source self.now).room };

    /// Takes n bytes, to the end of `out`. Memory is taken only for bytes that came.
    fn read_to_vec(&mut self, n: usize, out: &mut Vec<u8>) -> Result<()>
        ensures ok { OnOk result
            (TookBehind (source self.old) (source self.new) n out.old.items out.new.items) }
        ensures err { IfErr result
            (RefusedInto (or_memory refusals) (source self.old) (source self.new) n) }
        ensures kept { OnErr result (Lengthened (source self.old) (source self.new)
            out.old.items out.new.items) };

    /// Takes as many bytes as `buf` has room for. No memory is asked for.
    fn read_into(&mut self, buf: &mut [u8]) -> Result<()>
        ensures ok { OnOk result (TookKept (source self.old) (source self.new) buf.new) }
        ensures err { IfErr result
            (RefusedInto refusals (source self.old) (source self.new) (length buf.old)) }
        ensures memory { IfErr result (λ e. why e ≢ OutOfMemory) };

    /// Takes n bytes, which are handed to nobody.
    fn skip(&mut self, n: usize) -> Result<()>
        ensures ok { OnOk result (Skipped (source self.old) (source self.new) n) }
        ensures err { IfErr result (RefusedPart refusals (source self.old) (source self.new) n) }
        ensures memory { IfErr result (MemoryWhere (asks_for refusals lends).whole) };

    /// Takes n bytes, which are handed to nobody, and returns how many of them, from the front, are
    /// UTF-8.
    fn skip_text(&mut self, n: usize) -> Result<usize>
        ensures ok { IfOk result (SkippedText (source self.old) (source self.new) n) }
        ensures err { IfErr result (RefusedPart refusals (source self.old) (source self.new) n) }
        ensures memory { IfErr result (MemoryWhere (asks_for refusals lends).whole) };

    /// Takes the byte that was peeked.
    fn discard(&mut self)
        requires { IsSome (peeked self.old) }
        ensures { IfSome (peeked self.old)
            (λ b. TookKept (source self.old) (source self.new) (b ∷ [])) };

    /// How many bytes were handed out.
    fn offset(&self) -> u64
        ensures { result ≡ (source self.now).offset };
}

/// A source that may lend what it hands out.
///
/// Its two calls have the refusals that [`Source`] describes.
///
/// ```rust
/// let mut source = SliceRead::new(alloc, b"foobar");
/// let EitherLifetime::Long(foo) = source.read(3)? else {
///     panic!(rt; "a slice lends what is read");
/// };
/// source.clear_buffer();
/// source.read_to_buffer(2)?;
/// source.read_to_buffer(1)?;
/// assert!(rt; matches!(source.take_buffer(), EitherLifetime::Short(b"bar")));
/// assert_eq!(rt; foo, b"foo".as_slice());
/// ```
pub trait Read<'de>: Source {
    /// Takes n bytes, and lends them.
    fn read<'a>(&'a mut self, n: usize) -> Result<EitherLifetime<'a, 'de>>
        ensures count { IfOk result (λ p. length (part_bytes p) ≡ n) }
        ensures front { IfOk result
            (λ p. IfSome (Self.source self.old).to_come (λ bs. part_bytes p ≡ take n bs)) }
        ensures long { IfOk result (λ p. is_long p ≡ Self.lends.whole) }
        ensures memory { IfErr result (MemoryWhere (asks_for Self.refusals Self.lends).whole) }
        ensures* after_borrow { sem 𝓛 (Rests Self.row self.entry (λ new.
            ReadLeaves Self.refusals (Self.source self.old) (Self.source new) n result)) };

    /// Lends what was joined in the buffer, which may be empty afterwards.
    fn take_buffer<'a>(&'a mut self) -> EitherLifetime<'a, 'de>
        ensures bytes { part_bytes result ≡ (Self.source self.old).buffer }
        ensures long { is_long result ≡ Self.lends.joined }
        ensures* after_borrow { sem 𝓛 (Rests Self.row self.entry (λ new.
            KeepsBytes (Self.source self.old) (Self.source new))) };
}

//! Items whose bytes come in pieces.

ghost use Rattle.std.specs.Prelude.{◌≡◌, ◌<◌, ◌≤◌, ◌++◌, [], drop, length, IfErr, IfOk, IfSome};
ghost use Rattle.std.specs.Prelude.{OnErr, OnOk};

use crate::scan::Scan;
use cbor_io::error::{Error, Result};
use std::alloc::Global;
use std::fmt;
use std::marker::Model;

// How many arrays, maps and tags may stand inside one another.
const LEVELS: usize = 127;

/// Items one after the other (a CBOR sequence, RFC 8742) whose bytes come in pieces, as from a
/// socket.
///
/// Push each piece as it comes. Then, as long as an item is whole, read its bytes and go past it:
///
/// ```rust
/// // 1, and [2, "ab"], whose last two bytes come later
/// let pieces: [&[u8]; 2] = [b"\x01\x82\x02\x62", b"ab"];
/// let mut items = PushedItems::new(alloc);
/// let mut lengths = Vec::new(alloc);
/// for piece in pieces {
///     items.push(piece)?;
///     while let Some(n) = items.item_len()? {
///         // here `from_slice` reads an item from `&items.bytes()[..n]`
///         lengths.push(n)?;
///         items.advance(n);
///     }
/// }
/// assert_eq!(rt; lengths.as_slice(), [1, 5].as_slice());
/// assert!(rt; items.bytes().is_empty());
/// ```
///
/// The work that is done for an item grows with its length, into however many pieces it was cut: what
/// was gone through isn't gone through again when more comes, but for a string in chunks, which is
/// once more when it ends. Arrays, maps and tags may be nested 127 levels deep. How long an item may
/// grow is for the caller to limit, by the length of [`bytes`](PushedItems::bytes).
#[derive(Drop)]
pub struct PushedItems {
    alloc: Global,
    // What was pushed, and how many bytes of it were taken.
    pushed: Vec<u8>,
    taken: usize,
    scan: Scan,
}

// It is the bytes that were pushed and aren't taken.
impl Model for PushedItems {
    ghost use Rattle.std.specs.Prelude.{◌≤◌, List, ℕ, drop, length};
    ghost use Rattle.cbor_model.specs.Acceptable.{max_depth};
    ghost use Rattle.cbor_pushed.specs.Scanned.{Follows};

    ghost Value = { List ℕ };

    ghost view = { λ p. drop p.taken p.pushed.items };

    ghost invariant = { λ p. (p.taken ≤ length p.pushed.items)
        × Follows max_depth p.scan (drop p.taken p.pushed.items) };
}

impl PushedItems {
    ghost use Rattle.cbor_model.specs.Acceptable.{max_depth};
    ghost use Rattle.cbor_io.specs.Error.{IsOutOfMemory};
    ghost use Rattle.cbor_pushed.specs.ItemAtFront.{FindsItem};

    /// Nothing was pushed. No memory is taken.
    pub fn new(alloc: Global) -> PushedItems
        ensures { result ≡ [] }
    {
        PushedItems {
            alloc,
            pushed: Vec::new(alloc),
            taken: 0,
            scan: Scan::new(alloc),
        }
    }

    /// These bytes came.
    ///
    /// `OutOfMemory` leaves all as it was, without them.
    ///
    /// ```rust
    /// let mut items = PushedItems::new(alloc);
    /// items.push(b"\x19\x03")?;
    /// items.push(b"\xe8")?;
    /// assert_eq!(rt; items.bytes(), b"\x19\x03\xe8".as_slice());
    /// ```
    pub fn push(&mut self, piece: &[u8]) -> Result<()>
        ensures pushed { OnOk result (self.new ≡ self.old ++ piece.now) }
        ensures stays { OnErr result (self.new ≡ self.old) }
        ensures err { IfErr result IsOutOfMemory }
    {
        self.drop_taken();
        match self.pushed.extend_from_slice(piece) {
            Ok(()) => Ok(()),
            Err(full) => Err(Error::from(full)),
        }
    }

    // Moves what isn't taken to the front, where it is no more than what is: so all moves together
    // move no more bytes than were taken.
    fn drop_taken(&mut self)
        ensures { self.new ≡ self.old }
    {
        if self.taken == 0 || self.pushed.len() - self.taken > self.taken {
            return;
        }
        self.pushed.drain(..self.taken);
        self.taken = 0;
    }

    /// The bytes that were pushed and aren't taken. The next item is at their front.
    pub fn bytes(&self) -> &[u8]
        ensures { result.now ≡ self.now }
    {
        &self.pushed[self.taken..]
    }

    /// How many bytes the item at the front has; None while it isn't whole, or no byte of it came.
    ///
    /// Nothing is taken: [`advance`](PushedItems::advance) goes past the item.
    ///
    /// Bytes that no item begins with are refused as soon as they show it, by the error that
    /// reading them returns, as `UnassignedCode`, `UnexpectedCode`, `InvalidUtf8` or
    /// `RecursionLimitExceeded`; its offset counts from the first of
    /// [`bytes`](PushedItems::bytes). They stay, and no bytes that are pushed behind them make an
    /// item of them. `OutOfMemory` leaves all as it was: the call may be made again.
    ///
    /// ```rust
    /// let mut items = PushedItems::new(alloc);
    /// items.push(b"\x82\x01")?;
    /// assert_eq!(rt; items.item_len()?, None);
    /// items.push(b"\x02\x1c")?;
    /// assert_eq!(rt; items.item_len()?, Some(3));
    /// items.advance(3);
    /// let Err(e) = items.item_len() else {
    ///     return Err(Fail::from("1c begins no item"));
    /// };
    /// assert_eq!(rt; e.offset(), 1);
    /// ```
    pub fn item_len(&mut self) -> Result<Option<usize>>
        // An acceptable item is at the front, and ends there. Or the first refusal that the bytes
        // allow is that they end. Or that refusal is the error, and no acceptable item is at the
        // front of them, whatever is pushed behind them; or memory ran out.
        ensures found { FindsItem max_depth self.old result }
        ensures stays { self.new ≡ self.old }
        // The item is among the bytes, and has one at the least.
        ensures within { IfOk result (λ o. IfSome o (λ n. (0 < n) × (n ≤ length self.old))) }
    {
        self.scan
            .find(self.alloc, &self.pushed[self.taken..], LEVELS)
    }

    /// Takes the first n of the bytes, or all where there are fewer.
    ///
    /// ```rust
    /// let mut items = PushedItems::new(alloc);
    /// items.push(b"\x01\x02")?;
    /// items.advance(1);
    /// assert_eq!(rt; items.bytes(), b"\x02".as_slice());
    /// ```
    pub fn advance(&mut self, n: usize)
        ensures { self.new ≡ drop n self.old }
    {
        self.taken += n.min(self.pushed.len() - self.taken);
        self.scan.reset();
    }
}

// The bytes aren't printed: they may be many, or hold what is no reader's to see.
impl fmt::Debug for PushedItems {
    fn fmt<W: fmt::Write>(&self, f: &mut fmt::Formatter<W>) -> fmt::Result {
        f.debug_struct("PushedItems")
            .field("bytes", &(self.pushed.len() - self.taken))
            .finish_non_exhaustive()
    }
}

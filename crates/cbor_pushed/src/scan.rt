//! How far the item at the front of bytes was gone through.

ghost use Rattle.std.specs.Prelude.{◌≡◌, ◌⊎◌, ℕ, List};
ghost use Rattle.cbor_pushed.specs.ItemAtFront.{FindsItem};
ghost use Rattle.cbor_pushed.specs.Scanned.{BeginsBy, Follows, IsDue, Left, Steps};

use crate::chunks::pass_chunks;
use crate::leaf::item_end;
use crate::openings::opening;
use crate::rest::Rest;
use cbor_decode::Remaining;
use cbor_io::error::{Error, Result};
use std::alloc::Global;

/// What a step did.
#[derive(Clone, Copy)]
pub(crate) enum Step {
    /// It went on.
    Went,
    /// The item ends where the scan stands.
    Whole,
    /// More bytes are wanted.
    Unfinished,
}

/// How far the item at the front of bytes was gone through: whole heads, strings and chunks.
///
/// What was passed is not looked at again when bytes are added, but for the strings in chunks, each
/// of which is once more when its break has come.
///
/// ```rust
/// let mut scan = Scan::new(alloc);
/// assert_eq!(rt; scan.find(alloc, b"\x82\x01", 127)?, None);
/// assert_eq!(rt; scan.find(alloc, b"\x82\x01\x02\x03", 127)?, Some(3));
/// ```
#[derive(Drop)]
pub struct Scan {
    at: usize,
    // How many bytes behind that were passed of a string in chunks.
    chunks: usize,
    // What is to come of the innermost array, map or tag, and of those around it, the outermost
    // first, which is the item itself.
    innermost: Rest,
    around: Vec<Rest>,
}

impl Scan {
    /// Nothing was passed. No memory is taken.
    pub fn new(alloc: Global) -> Scan
        ensures { (levels : ℕ) (front : List ℕ) → Follows levels result front }
    {
        Scan {
            at: 0,
            chunks: 0,
            innermost: Rest::Items(Remaining::Counted(1)),
            around: Vec::new(alloc),
        }
    }

    /// Begins anew.
    pub(crate) fn reset(&mut self)
        ensures { (levels : ℕ) (front : List ℕ) → Follows levels self.new front }
    {
        self.at = 0;
        self.chunks = 0;
        self.innermost = Rest::Items(Remaining::Counted(1));
        self.around.clear();
    }

    // The innermost ends here.
    fn leave(&mut self, at: usize) -> Step
        ensures { Left self.old at self.new result }
    {
        self.at = at;
        self.chunks = 0;
        match self.around.pop() {
            Some(rest) => {
                self.innermost = rest;
                Step::Went
            }
            None => {
                self.innermost = Rest::Items(Remaining::Counted(0));
                Step::Whole
            }
        }
    }

    // Goes on by one head, string, chunk or break.
    fn step(&mut self, alloc: Global, front: &[u8], levels: usize) -> Result<Step>
        requires { Follows levels self.old front.now }
        ensures stands { Follows levels self.new front.now }
        ensures steps { Steps levels front.now self.old self.new result }
    {
        if self.innermost.is_over() {
            return Ok(self.leave(self.at));
        }
        let Some(first) = front.get(self.at).copied() else {
            return Ok(Step::Unfinished);
        };
        if self.innermost.ends_by(first) {
            return Ok(self.leave(self.at + 1));
        }
        if first == 0x5f || first == 0x7f {
            return self.chunked(alloc, front, levels, first);
        }
        self.item(alloc, front, levels)
    }

    // Goes on into an array, a map or a tag, or past another item.
    fn item(&mut self, alloc: Global, front: &[u8], levels: usize) -> Result<Step>
        requires follows { Follows levels self.old front.now }
        requires due { IsDue self.old front.now }
        ensures stands { Follows levels self.new front.now }
        ensures steps { Steps levels front.now self.old self.new result }
    {
        if self.around.len() < levels {
            if let Some((rest, n)) = opening(&front[self.at..]) {
                if let Err(full) = self.around.push(self.innermost.behind()) {
                    return Err(Error::from(full));
                }
                self.innermost = rest;
                self.at += n;
                self.chunks = 0;
                return Ok(Step::Went);
            }
        }
        self.leaf(alloc, front, levels)
    }

    // Goes on past a string in chunks, which begins with this byte.
    fn chunked(&mut self, alloc: Global, front: &[u8], levels: usize, first: u8) -> Result<Step>
        requires follows { Follows levels self.old front.now }
        requires due { BeginsBy first self.old front.now }
        requires begins { (first ≡ 0x5f) ⊎ (first ≡ 0x7f) }
        ensures stands { Follows levels self.new front.now }
        ensures steps { Steps levels front.now self.old self.new result }
    {
        match pass_chunks(first / 32, &front[self.at..], self.chunks.max(1)) {
            Some(passed) => {
                self.chunks = passed;
                Ok(Step::Unfinished)
            }
            None => self.leaf(alloc, front, levels),
        }
    }

    // Goes on past an item.
    fn leaf(&mut self, alloc: Global, front: &[u8], levels: usize) -> Result<Step>
        requires follows { Follows levels self.old front.now }
        requires due { IsDue self.old front.now }
        ensures stands { Follows levels self.new front.now }
        ensures steps { Steps levels front.now self.old self.new result }
    {
        match item_end(alloc, front, self.at, levels - self.around.len()) {
            Ok(end) => {
                self.at = end;
                self.chunks = 0;
                self.innermost = self.innermost.behind();
                Ok(Step::Went)
            }
            Err(error) if error.is_eof() => Ok(Step::Unfinished),
            Err(error) => Err(error),
        }
    }

    /// Goes on as far as the bytes do: where the item ends, which may have so many levels; None
    /// while it isn't whole.
    ///
    /// The bytes are those of the call before, with others behind them or none, and the levels are
    /// the same. A refusal is for good; `OutOfMemory` alone isn't: the call may be made again.
    pub fn find(&mut self, alloc: Global, front: &[u8], levels: usize) -> Result<Option<usize>>
        requires { Follows levels self.old front.now }
        ensures stands { Follows levels self.new front.now }
        ensures found { FindsItem levels front.now result }
    {
        'steps: loop {
            match self.step(alloc, front, levels) {
                Ok(Step::Went) => {}
                Ok(Step::Whole) => return Ok(Some(self.at)),
                Ok(Step::Unfinished) => return Ok(None),
                Err(error) => return Err(error),
            }
        }
    }
}

//! What is to come of an item, as far as its heads say.

ghost use Rattle.std.specs.Prelude.{◌≤◌};

use cbor_decode::{Decoder, Head, Remaining};
use cbor_read::SliceRead;
use std::alloc::{AllocError, Global};

/// What is open of an item that comes piece by piece.
///
/// It only says how much to ask for at once: whether an item is there, and whole, a decoder says.
#[derive(Drop)]
pub(crate) struct Outline {
    // How many items are to come of each array, map, tag and string in chunks, the innermost last;
    // around them is the item itself.
    open: Vec<Remaining>,
    levels: usize,
}

impl Outline {
    /// One item is to come, of so many levels.
    pub(crate) fn new(alloc: Global, levels: u8) -> Result<Outline, AllocError> {
        let mut open = Vec::new(alloc);
        open.push(Remaining::Counted(1))?;
        Ok(Outline {
            open,
            levels: levels as usize,
        })
    }

    /// Whether another head is to come.
    pub(crate) fn is_open(&self) -> bool {
        !self.open.is_empty()
    }

    // An item has ended, and with it each around it of which it was the last.
    fn end_item(&mut self) {
        'open: while let Some(Remaining::Counted(n)) = self.open.last().copied() {
            if n > 1 {
                let innermost = self.open.len() - 1;
                self.open[innermost] = Remaining::Counted(n - 1);
                return;
            }
            self.open.pop();
        }
    }

    // Nothing is known of what is to come.
    fn give_up(&mut self) {
        self.open.clear();
    }

    fn end_by_break(&mut self) {
        if let Some(Remaining::ToBreak) = self.open.last().copied() {
            self.open.pop();
            self.end_item();
        } else {
            self.give_up();
        }
    }

    // An array, a map or a tag begins, of which so much is to come.
    fn enter(&mut self, remaining: Remaining) -> Result<(), AllocError> {
        if self.open.len() > self.levels {
            self.give_up();
            return Ok(());
        }
        if let Remaining::Counted(0) = remaining {
            self.end_item();
            return Ok(());
        }
        self.open.push(remaining)?;
        Ok(())
    }

    /// This head has come: how many bytes of a string follow it.
    pub(crate) fn follow(&mut self, head: Head) -> Result<u64, AllocError> {
        match head {
            Head::Bytes(Some(n)) => {
                self.end_item();
                return Ok(n);
            }
            Head::Text(Some(n)) => {
                self.end_item();
                return Ok(n);
            }
            Head::Bytes(None) => self.open.push(Remaining::ToBreak)?,
            Head::Text(None) => self.open.push(Remaining::ToBreak)?,
            Head::Array(items) => self.enter(items)?,
            Head::Map(pairs) => self.enter(items_of(pairs))?,
            Head::Tag(_) => self.enter(Remaining::Counted(1))?,
            Head::Break => self.end_by_break(),
            _ => self.end_item(),
        }
        Ok(0)
    }
}

// The items of so many pairs. More than a count holds never come.
fn items_of(pairs: Remaining) -> Remaining {
    match pairs {
        Remaining::Counted(n) => Remaining::Counted(n.saturating_mul(2)),
        Remaining::ToBreak => Remaining::ToBreak,
    }
}

/// How many bytes a head has behind this first byte (RFC 7049, section 2.1).
pub(crate) fn bytes_behind(first: u8) -> u64
    ensures { result ≤ 8 }
{
    match first % 32 {
        24 => 1,
        25 => 2,
        26 => 4,
        27 => 8,
        _ => 0,
    }
}

/// The head that these bytes are.
pub(crate) fn head_of(alloc: Global, bytes: &[u8]) -> Option<Head> {
    let mut decoder = Decoder::new(alloc, SliceRead::new(alloc, bytes));
    match decoder.byte() {
        Ok(first) => decoder.head(first).ok(),
        Err(_) => None,
    }
}

//! Reading items by rules that stand one after the other, or that other bytes follow.

ghost use Rattle.std.specs.Prelude.{◌≡◌, ◌≤◌, length};

use crate::answers::{Departure, Refusal};
use crate::front::front;
use crate::settings::Rules;
use crate::walk::first_departure;
use cbor_de::Deserialize;
use cbor_read::SliceRead;
use std::alloc::Global;
use std::fmt;

/// The items of a slice, one after the other, each read by the same rules: those of a CBOR sequence
/// (RFC 8742), or one that other bytes follow.
///
/// ```rust
/// let mut items = RuledItems::new(alloc, b"\x01\x61a\x18\x17", Rules::CTAP2);
/// assert!(rt; matches!(items.next_item::<u8>(), Ok(Some(1))));
/// assert!(rt; matches!(items.next_item::<&str>(), Ok(Some("a"))));
/// assert_eq!(rt; items.byte_offset(), 3);
/// let Err(Refusal::Departs(departure)) = items.next_item::<u8>() else {
///     return Err(Fail::from("18 17 is not the shortest"));
/// };
/// assert_eq!(rt; departure, Departure { rule: Rule::ShortestHeads, offset: 5 });
/// ```
#[derive(Drop)]
pub struct RuledItems<'a, 't> {
    alloc: Global,
    slice: &'a [u8],
    // How many bytes of it were taken.
    taken: usize,
    rules: Rules,
    // The tags that stand where the rules refuse tags.
    tags: &'t [u64],
    ghost within: { taken ≤ length slice.now },
}

impl<'a, 't> RuledItems<'a, 't> {
    ghost use Rattle.cbor_de.specs.Whole.{from_slice_asks, from_slice_context};
    ghost use Rattle.cbor_rules.specs.NextItem.{AnswersNext, begun, standing};
    ghost use Rattle.cbor_rules.specs.Rules.{only, under};

    /// The items of this slice, none of them taken, by these rules.
    pub fn new(alloc: Global, slice: &'a [u8], rules: Rules) -> RuledItems<'a, 't>
        ensures { standing result ≡ begun slice.now (only rules) }
    {
        RuledItems::with_tags(alloc, slice, rules, &[])
    }

    /// The same, but where the rules refuse tags these stand, as for
    /// [`from_slice_with_tags`](crate::from_slice_with_tags).
    ///
    /// ```rust
    /// let rules = Rules { no_tags: true, ..Rules::CANONICAL };
    /// let mut items = RuledItems::with_tags(alloc, b"\xc1\x18\x64\xc2\x40", rules, &[0, 1]);
    /// assert!(rt; matches!(items.next_item::<u64>(), Ok(Some(100))));
    /// assert!(rt; items.next_item::<IgnoredAny>().is_err());
    /// ```
    pub fn with_tags(
        alloc: Global,
        slice: &'a [u8],
        rules: Rules,
        tags: &'t [u64],
    ) -> RuledItems<'a, 't>
        ensures { standing result ≡ begun slice.now (under rules tags.now) }
    {
        RuledItems {
            alloc,
            slice,
            taken: 0,
            rules,
            tags,
        }
    }

    /// How many bytes were taken: where the next item begins.
    pub fn byte_offset(&self) -> usize
        ensures { result ≡ (standing self.now).taken }
    {
        self.taken
    }

    /// What the next item is read as, if it keeps each of the rules; None at the end of the slice.
    ///
    /// Just the item's bytes are taken, whatever follows them. Where it is refused nothing is: it
    /// may be read as another type, and an `IgnoredAny` is any item that keeps the rules.
    ///
    /// It is refused as [`from_slice_with`](crate::from_slice_with) refuses it. The offsets count
    /// from the beginning of the slice.
    ///
    /// ```rust
    /// // a key of COSE, {1: 2}, and extensions behind it
    /// let mut items = RuledItems::new(alloc, b"\xa1\x01\x02\xa0", Rules::CTAP2);
    /// let Ok(Some(_)) = items.next_item::<Value>() else {
    ///     return Err(Fail::from("not a key"));
    /// };
    /// assert_eq!(rt; items.byte_offset(), 3);
    /// ```
    pub fn next_item<T: Deserialize<'a, SliceRead<'a>>>(&mut self) -> Result<Option<T>, Refusal>
        ensures answers { AnswersNext T.passes_over T.total T.wrong_forms
            (T.reads from_slice_context) (T.asks_memory from_slice_asks) (standing self.old)
            (standing self.new) result }
    {
        if self.taken == self.slice.len() {
            return Ok(None);
        }
        let start = self.taken;
        let (value, end) = front::<T>(self.alloc, self.slice, start)?;
        let item = &self.slice[start..end];
        match first_departure(self.alloc, self.rules, self.tags, item)? {
            Some(departure) => Err(Refusal::Departs(Departure {
                offset: start as u64 + departure.offset,
                ..departure
            })),
            None => {
                self.taken = end;
                Ok(Some(value))
            }
        }
    }
}

// The slice isn't printed: it may be long, or hold what is no reader's to see.
impl fmt::Debug for RuledItems<'_, '_> {
    fn fmt<W: fmt::Write>(&self, f: &mut fmt::Formatter<W>) -> fmt::Result {
        f.debug_struct("RuledItems")
            .field("rules", &self.rules)
            .field("tags", &self.tags)
            .field("offset", &self.taken)
            .field("remaining", &(self.slice.len() - self.taken))
            .finish()
    }
}

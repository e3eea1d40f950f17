//! Reading the items of any source by rules, each as a type.

ghost use Rattle.std.specs.Prelude.{◌≡◌};
ghost use Rattle.cbor_model.specs.Acceptable.{max_depth};

use crate::answers::Refusal;
use crate::settings::Rules;
use crate::stream_item::next_item;
use cbor_de::{Deserialize, DeserializeOwned, Deserializer, IoRead, Offset, Source, VecRead};
use std::alloc::Global;
use std::{fmt, io};

/// The items of any source, one after the other, each read as a type by the same rules.
///
/// The rules are looked at while an item's bytes come, as by
/// [`next_raw_item`](crate::next_raw_item): limits bound the memory that a peer can make a reader
/// take. An item that keeps them is then read of its bytes, so it takes memory for these; from a
/// slice [`RuledItems`](crate::RuledItems) takes none, and lends.
///
/// ```rust
/// let limits = Rules { most_items: Some(2), ..Rules::DETERMINISTIC };
/// // 1, [2, 3], and an array of 2^32 - 1 items
/// let socket: &[u8] = b"\x01\x82\x02\x03\x9a\xff\xff\xff\xff\0\0\0"; // or any other `io::Read`
/// let mut items = RuledStream::from_reader(alloc, socket, limits);
/// assert!(rt; matches!(items.next_item::<u8>(), Ok(Some(1))));
/// assert!(rt; matches!(items.next_item::<(u8, u8)>(), Ok(Some((2, 3)))));
/// let Err(Refusal::Departs(departure)) = items.next_item::<Value>() else {
///     return Err(Fail::from("2^32 - 1 items are more than two"));
/// };
/// assert_eq!(rt; departure, Departure { rule: Rule::MostItems, offset: 9 });
/// assert!(rt; matches!(items.next_item::<Value>(), Ok(None)));
/// ```
#[derive(Drop)]
pub struct RuledStream<'t, R> {
    de: Deserializer<R>,
    rules: Rules,
    // The tags that stand where the rules refuse tags.
    tags: &'t [u64],
    // Whether an item was refused.
    ended: bool,
    ghost levels: { de.decoder.levels ≡ max_depth },
}

impl<'t, R: Source> RuledStream<'t, R> {
    ghost use Rattle.std.specs.Prelude.{false, true, IfErr, IfOk};
    ghost use Rattle.cbor_de.specs.Whole.{from_reader_asks, from_reader_context};
    ghost use Rattle.cbor_rules.specs.Rules.{only, under};
    ghost use Rattle.cbor_rules.specs.Streams.{AnswersNextItem, RefusesAs, StreamGives};
    ghost use Rattle.cbor_rules.specs.Streams.{new_stream, stream_at};

    /// Reads the items of this source by these rules.
    pub fn new(alloc: Global, source: R, rules: Rules) -> RuledStream<'t, R>
        ensures { stream_at R.source result ≡ new_stream (R.source source) (only rules) }
    {
        RuledStream::with_tags(alloc, source, rules, &[])
    }

    /// The same, but where the rules refuse tags these stand, as for
    /// [`from_slice_with_tags`](crate::from_slice_with_tags).
    ///
    /// ```rust
    /// let rules = Rules { no_tags: true, ..Rules::ANY };
    /// let source = SliceRead::new(alloc, b"\xc1\x18\x64\xc2\x40");
    /// let mut items = RuledStream::with_tags(alloc, source, rules, &[0, 1]);
    /// assert!(rt; matches!(items.next_item::<u64>(), Ok(Some(100))));
    /// assert!(rt; items.next_item::<IgnoredAny>().is_err());
    /// ```
    pub fn with_tags(alloc: Global, source: R, rules: Rules, tags: &'t [u64]) -> RuledStream<'t, R>
        ensures { stream_at R.source result ≡ new_stream (R.source source) (under rules tags.now) }
    {
        RuledStream {
            de: Deserializer::new(alloc, source),
            rules,
            tags,
            ended: false,
        }
    }

    /// What the next item is read as, if it keeps each of the rules; None at the end of the input.
    ///
    /// Just the item's bytes are taken, whatever follows them: the byte behind them isn't waited
    /// for. An item that departs is refused as by [`next_raw_item`](crate::next_raw_item), and one
    /// that the type doesn't read as by [`from_slice`](cbor_de::from_slice). The offsets count from
    /// the beginning of the input. Once an item is refused it returns None for good.
    pub fn next_item<'de, T: DeserializeOwned + Deserialize<'de, VecRead>>(
        &mut self,
    ) -> Result<Option<T>, Refusal>
        // An acceptable item that keeps the rules was to come, it is read so, and it alone is taken;
        // or nothing is to come, or an item was refused.
        ensures found { IfOk result (StreamGives (T.reads from_reader_context)
            (stream_at R.source self.old) (stream_at R.source self.new)) }
        // Where none was refused before, it is read or refused as what is to come is.
        ensures answers { (stream_at R.source self.old).ended ≡ false
            → AnswersNextItem R.refusals (T.reads from_reader_context)
            (RefusesAs T.passes_over T.total T.reports_faults T.wrong_forms
            (T.reads from_reader_context) (T.asks_memory from_reader_asks))
            (stream_at R.source self.old).terms (stream_at R.source self.old).input
            (stream_at R.source self.new).input result }
        // The first refusal is the last.
        ensures going { IfErr result (λ e. (stream_at R.source self.old).ended ≡ false) }
        ensures ended { IfErr result (λ e. (stream_at R.source self.new).ended ≡ true) }
        ensures terms { (stream_at R.source self.new).terms ≡ (stream_at R.source self.old).terms }
    {
        if self.ended {
            return Ok(None);
        }
        match next_item::<R, T>(&mut self.de, self.rules, self.tags) {
            Ok(item) => Ok(item),
            Err(refusal) => {
                self.ended = true;
                Err(refusal)
            }
        }
    }
}

impl<'t, R: io::Read + Drop> RuledStream<'t, IoRead<R>> {
    ghost use Rattle.cbor_read.specs.Source.{start_of_reader};
    ghost use Rattle.cbor_read.specs.Sources.{input_of_reader};
    ghost use Rattle.cbor_rules.specs.Rules.{only};
    ghost use Rattle.cbor_rules.specs.Streams.{new_stream, stream_at};

    /// Reads the items of a reader by these rules. No byte is taken that isn't an item's.
    pub fn from_reader(alloc: Global, reader: R, rules: Rules) -> RuledStream<'t, IoRead<R>>
        ensures { stream_at (input_of_reader R.remaining) result
            ≡ new_stream (start_of_reader (R.remaining reader)) (only rules) }
    {
        RuledStream::new(alloc, IoRead::new(alloc, reader), rules)
    }
}

impl<R: Offset> RuledStream<'_, R> {
    ghost use Rattle.cbor_rules.specs.Streams.{stream_at};

    /// How many bytes of the input were taken.
    pub fn byte_offset(&self) -> usize
        ensures { result ≡ (stream_at R.source self.now).input.offset }
    {
        self.de.byte_offset()
    }
}

// No byte of what is to come is printed.
impl<R: fmt::Debug> fmt::Debug for RuledStream<'_, R> {
    fn fmt<W: fmt::Write>(&self, f: &mut fmt::Formatter<W>) -> fmt::Result {
        f.debug_struct("RuledStream")
            .field("de", &self.de)
            .field("rules", &self.rules)
            .field("tags", &self.tags)
            .field("ended", &self.ended)
            .finish()
    }
}

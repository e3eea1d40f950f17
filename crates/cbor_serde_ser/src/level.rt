//! The arrays and maps that are open while events are written.

ghost use Rattle.std.specs.Prelude.{◌≡◌, ◌↔◌, Some, None, true, false, IsTrue, MatchBool};
ghost use Rattle.cbor_serde_ser.specs.Document.{after_item, is_full, opened};

/// An array, a map or the document itself, and what is due in it.
#[derive(Clone, Copy)]
pub(crate) struct Level {
    // How many items or pairs are still to come, where the count was declared.
    pub(crate) left: Option<u64>,
    // How many open maps stand within it whose members are its own.
    pub(crate) flat: u64,
    pub(crate) is_map: bool,
    // Whether the value of a pair is due.
    pub(crate) at_value: bool,
    // Whether its items are a struct's fields, whose names aren't written.
    pub(crate) drops_names: bool,
}

impl Level {
    /// The document, which is one item.
    pub(crate) fn document() -> Level
        ensures { result ≡ opened (Some 1) false }
    {
        Level::open(Some(1), false)
    }

    /// An array or a map that begins.
    pub(crate) fn open(left: Option<u64>, is_map: bool) -> Level
        ensures { result ≡ opened left is_map }
    {
        Level {
            left,
            is_map,
            at_value: false,
            flat: 0,
            drops_names: false,
        }
    }

    /// Counts an item. It answers false, and changes nothing, where none is due.
    #[inline(always)]
    pub(crate) fn count_item(&mut self) -> bool
        ensures { MatchBool result (after_item self.old ≡ Some self.new)
            ((after_item self.old ≡ None) × (self.new ≡ self.old)) }
    {
        if self.at_value {
            self.at_value = false;
            return true;
        }
        if let Some(left) = &mut self.left {
            if *left == 0 {
                return false;
            }
            *left -= 1;
        }
        if self.is_map {
            self.at_value = true;
        }
        true
    }

    /// Whether all that was declared has come.
    pub(crate) fn is_full(self) -> bool
        ensures { result ≡ is_full self }
    {
        !self.at_value && matches!(self.left, Some(0) | None)
    }
}

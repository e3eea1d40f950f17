//! Laws, which are the contracts of functions that do nothing.

ghost use Rattle.cbor_serde_de.specs.Whole.{WholeItem};

/// Where a step read something of the beginning of a slice, and the slice ends behind it, its bytes
/// encode one item, which is read so.
///
/// A caller gives it what [`Cbor::new`](crate::Cbor::new) says of the slice, what the step read (as
/// `Deserializer::i64` of the kit's `serde` says by `F.gives`), and what
/// [`Cbor::end`](crate::Cbor::end) says.
pub fn whole_item()
    ensures { WholeItem }
{}

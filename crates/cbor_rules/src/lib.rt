//! Reading by rules of one's own: each strictness by itself, and each deterministic form by name.
//!
//! The ordinary reader reads; a walk over the same bytes then looks for the first departure from
//! the rules that are on, without memory but for keys that may stand in any order once. Limits are
//! rules too: the most items of an array, pairs of a map and bytes of a string. Where no memory is
//! to be taken for an item that departs, the bytes are gone over first, and then read; those of a
//! reader, while they come.
#![tactic(auto)]

mod answers;
mod canonical_key;
mod checked;
mod chunks;
mod from;
mod front;
mod heads;
mod items;
mod keys;
mod laws;
mod raw;
mod settings;
mod stream;
mod stream_item;
mod texts;
mod walk;
mod written;

pub use answers::{Departure, Refusal};
pub use checked::{from_slice_checked, from_slice_checked_with_tags};
pub use from::{from_slice_with, from_slice_with_tags};
pub use items::RuledItems;
pub use laws::{
    canonical_accepted_is_written, canonical_written_is_accepted, ctap2_accepted_is_written,
    ctap2_written_is_accepted, dcbor_accepted_is_written, dcbor_written_is_accepted,
    deterministic_accepted_is_written, deterministic_written_is_accepted, first_is_least,
    length_first_accepted_is_written, length_first_written_is_accepted, limits_are_kept,
    none_where_kept, presets, reduced_has_reduced_numbers, shortened_has_shortest_floats,
    type_first_is_bytewise, unique_keys_are_kept,
};
pub use raw::{next_raw_item, next_raw_item_with_tags};
pub use settings::{KeyOrder, Rule, Rules};
pub use stream::RuledStream;
pub use written::{
    write_and_read_dcbor, write_and_read_deterministic, write_and_read_length_first,
};

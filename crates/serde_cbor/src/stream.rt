//! Streams: items that stand one after the other, each read as the same type.

pub use cbor_de::{
    StreamDeserializer, all_are_most, has_longest_list, one_list_of_items, one_longest_list,
    read_items, stream_answers,
};

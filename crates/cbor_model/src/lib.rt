//! The definitions of CBOR with canonical values, and laws about them.
//!
//! The definitions are in `specs/`, one file a subject: they print trees and compare lists, and say
//! nothing of how a program goes through the bytes. They name no type of a program. The crates
//! above rely on them, on the laws, and on the lemmas that `proofs/facts` publishes.
#![tactic(auto)]

mod laws;

pub use laws::{
    all_is_stored, all_that_fit_is_held, byte_order, canonical_is_acceptable, canonical_reads_back,
    document_is_acceptable, document_reads_back, equal_bytes, first_refusal, following_is_unread,
    in_memory_is_in_range, key_rule, last_pair_stays, least_spelling, none_allowed,
    normalised_once, one_first_refusal, one_flat, one_spelling, order_is_total, parts_bytes,
    read_or_refused, reader_accepts, reader_finds, refused_holds_beginning, same_first_refusal,
    same_with_scratch, scratch_need, spelled_allows_none, stored_or_stops, value_is_canonical,
    value_is_in_range, value_is_storable, written_reads_back,
};

//! What writing and reading for the kit's `serde` share: the options, and the names that are
//! integers.
#![tactic(auto)]

mod key;
mod options;

pub use key::number_of;
pub use options::Options;

//! Items whose bytes come in pieces, as from a socket: each is found once it is whole, and none of
//! its bytes is looked at again for each piece.
//!
//! [`Scan`] is what finds an item in bytes that the caller keeps.
#![tactic(auto)]

mod chunks;
mod items;
mod leaf;
mod numbers;
mod openings;
mod rest;
mod scan;

pub use items::PushedItems;
pub use leaf::end_of_input;
pub use scan::Scan;

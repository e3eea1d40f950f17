//! Types of one's own, as `docs/OWN_TYPES.md` goes through them: by description, and two by hand.
#![tactic(auto)]

pub mod by_hand;
pub mod fits;
pub mod labels;
pub mod records;
pub mod shapes;
pub mod user;

//! A source that reads ahead: the bytes of a reader, in blocks.
#![tactic(auto)]

mod blocks;
mod buffered_read;

pub use blocks::{Block, HeapBlock, InlineBlock};
pub use buffered_read::BufferedRead;

//! The body of a file in memory: its bytes, and which of its blocks a change touches.
#![tactic(auto)]

mod bodies;
mod segment_lists;
mod segments;
mod touches;

pub use bodies::Body;
pub use touches::{
    BlockRun, TouchedBlocks, blocks_in, touched_by_restore, touched_by_truncate, touched_by_write,
};

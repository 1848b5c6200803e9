//! Where the blocks of files lie on a disk: a map from inode and file block to disk block.
#![tactic(auto)]

mod extents;
mod freed;
mod map;

pub use extents::Extent;
pub use freed::Freed;
pub use map::ExtentMap;

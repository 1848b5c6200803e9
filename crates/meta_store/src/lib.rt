//! What a store keeps of its files beside their bytes, in memory and in the snapshots of its disk.
#![tactic(auto)]

mod batches;
mod catalog;
mod inode_parts;
mod laws;
mod opening;
mod spelling;
mod store;
mod validity;

pub use batches::{batches_join, judged_at_its_end, judged_by_changes, taken_as_batch};
pub use catalog::Catalog;
pub use laws::{formatted_image, one_image, snapshot_fits};
pub use store::MetaStore;

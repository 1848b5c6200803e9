//! Which blocks of a disk are in use, in the current map and in the durable one.
#![tactic(auto)]

mod blocks;
mod flags;
mod laws;
mod space;

pub use blocks::Blocks;
pub use laws::{
    listed_are_free, marks_are_members, others_are_free, release_leaves_others, taken_are_free,
};
pub use space::{BlockSpace, TakeRefusal};

//! The files of a store by name, inode and size.
#![tactic(auto)]

mod edits;
mod entries;
mod table;

pub use table::{InodeTable, TableRefusal};

//! Handles of files, by which sessions know them.
#![tactic(auto)]

mod handles;
mod laws;

pub use handles::{BadHandle, cmp, fsid, hash, igen, ino, is_valid, make};
pub use laws::{one_handle, orders_as_numbers, reads_back};

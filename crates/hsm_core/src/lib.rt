//! The store, its sessions and its history, over files on a disk.
#![tactic(auto)]

mod answering;
mod inspecting;
mod judging;
mod lookups;
mod needs;
mod parking;
mod performing;
mod refusals;
mod room;
mod services;
mod stamps;
mod store;
mod threads;
mod totals;

pub use inspecting::inspect;
pub use store::{Hsm, Ready};

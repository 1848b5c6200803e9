//! The files of a store on its disk: their bodies in memory and in data blocks.
#![tactic(auto)]

mod changes;
mod events;
mod laws;
mod loading;
mod opening;
mod plans;
mod punches;
mod refusals;
mod rewrites;
mod spaces;
mod store;
mod writing;

pub use laws::{formatted_is_empty, greatest_event, one_recovery};
pub use store::FileStore;

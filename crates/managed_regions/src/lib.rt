//! The managed regions of a file.
#![tactic(auto)]

mod lawful;
mod laws;
mod meeting;
mod regions;

pub use laws::lawful_stand_apart;
pub use meeting::contains;
pub use regions::ManagedRegions;

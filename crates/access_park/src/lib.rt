//! The accesses of callers that are pending, at most one a caller.
#![tactic(auto)]

mod access;
mod laws;
mod park;
mod slots;

pub use access::Access;
pub use laws::{answers_one, counts_waiting};
pub use park::Park;

//! The lists of calls of a run, one for each caller, and what of them is made.
#![tactic(auto)]

mod laws;
mod lists;

pub use laws::calls_grow;
pub use lists::CallLists;

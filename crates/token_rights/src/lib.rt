//! Which tokens hold which files, and how.
#![tactic(auto)]

mod held;
mod rights;

pub use rights::Rights;

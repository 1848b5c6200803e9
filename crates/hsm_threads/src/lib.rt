//! A store that threads share, and a store with its daemons and the callers' lists, each behind a lock.
#![tactic(auto)]

mod held;
mod named;
mod run;
mod shared;
mod steps;

pub use named::Named;
pub use run::{Next, Run};
pub use shared::{Shared, Step};
pub use steps::Asked;

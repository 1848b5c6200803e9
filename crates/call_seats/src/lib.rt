//! Passes, which say what their holders have seen of one list of published entries, and the desk that gives them out.
#![tactic(auto)]

mod desk;
mod laws;
mod passes;
mod steps;
mod views;

pub use desk::Desk;
pub use laws::rule_holds;
pub use passes::{Pass, Passes, Pen};
pub use views::{Mark, View};

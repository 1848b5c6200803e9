//! What both daemons do: each finds its old session or makes one, sets its kinds, finds its messages again, and keeps those that it is given.
#![tactic(auto)]

mod entering;
mod events;
mod keeping;
mod members;
mod steps;

pub use entering::Entering;
pub use events::{Event, Kept};
pub use members::{Member, Step};

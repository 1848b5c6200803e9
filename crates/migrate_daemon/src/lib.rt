//! The migration daemon: a machine that hears the answer to what it asked, and gives what it does next.
#![tactic(auto)]

mod copying;
mod entering;
mod hearing;
mod knowledge;
mod laws;
mod machine;
mod passes;
mod progress;
mod rounds;
mod shares;
mod skips;
mod stages;
mod verdicts;
mod working;

pub use laws::{pass_begins, pass_comes_nearer};
pub use machine::Migrator;
pub use skips::Skip;

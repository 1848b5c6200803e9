//! The script that a drill makes of a number, and what is told of its run.
#![tactic(auto)]

mod draws;
mod laws;
mod lines;
mod script;
mod summary;

pub use laws::drill_is_lawful;
pub use script::drill_script;
pub use summary::summary_text;

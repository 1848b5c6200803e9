//! What is told of a store as a whole: its number, its files, and their text.
#![tactic(auto)]

mod lines;
mod named;
mod shown;
mod states;
mod summaries;

pub use shown::show_text;
pub use summaries::{ClassCounts, Summary, Words};

//! The text of events, as scripts and transcripts have it, and of their answers: the transcript of a history.
#![tactic(auto)]

mod actions;
mod answers;
mod pieces;
mod transcript;

pub use actions::{Spelling, push_event};
pub use transcript::render;

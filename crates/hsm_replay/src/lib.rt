//! A store with its daemons, and its drives: the lines of a script are run on them, and what a daemon asks for is performed.
#![tactic(auto)]

mod laws;
mod lines;
mod performing;
mod quiet;
mod replay;
mod settling;
mod threads;

pub use hsm_system::Stop;
pub use laws::{
    follows_on, follows_so, follows_whole, runs_by_lines, runs_on, seals_are_whole, stops_on,
};
pub use replay::Replay;

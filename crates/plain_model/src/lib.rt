//! What a history of a store means: the plain map of its files, and which histories are legal.
#![tactic(auto)]

mod entries;
mod facts;
mod laws;

pub use entries::{Action, Actor, Answer, Entry, History};
pub use facts::{Facts, NoRoom};
pub use laws::{
    beginning_is_run, own_grows, run_is_good, seen_is_orderly, synced_grows, tells_all, transparent,
};

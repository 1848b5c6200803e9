//! The words of the command line, and the command that they ask for.
#![tactic(auto)]

mod commands;
mod numbers;
mod programs;

pub use commands::{Command, StoreSize};

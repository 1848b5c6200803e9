//! The stub entries of one file.
#![tactic(auto)]

mod stubs;

pub use stubs::{State, StubMap};
